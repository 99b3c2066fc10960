//! Edits of a document, planned: each is refused, or becomes one change that means it, or several of a large array. And
//! what is looked up of one.
#![tactic(auto)]

mod block_plans;
mod building;
mod chain_plans;
mod chunk_plans;
mod found;
mod large_plans;
mod lent_runs;
/// What is looked up of a document. A block that is looked into is brought into memory first, which may be refused;
/// the answer is that of the document as it is held from then on. Of a chain each block is, one after another, and of
/// a large array the root and the branches that have what is asked for. Each call answers its first refusal: NoBlock
/// or WrongKind, which are known without the block; then CacheFull where it can't be brought into memory, since each
/// frame has a locked block and it is none of them, and of a chain or a large array wherever each frame has one; then
/// what its body refuses. Memory, File or Damaged may come in place of what follows CacheFull; not where the block is
/// in memory: then no store is called, and memory is taken for a list alone.
pub mod look_ups;
mod marking;
mod planning;
mod raw_plans;
mod room;
mod run_plans;

pub use large_plans::plan_large;
pub use lent_runs::prepare_run;
pub use marking::mark_edited;
pub use planning::plan;
pub use run_plans::make_run;
