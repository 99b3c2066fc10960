//! Large arrays: elements spread over the branches of a tree block, for values larger than a block.
#![tactic(auto)]

mod bodies;
mod changes;
mod create;
mod distinct;
mod edit_plans;
mod gathered;
mod gathering;
mod handles;
mod joining;
mod law;
mod lent_runs;
mod loading;
mod look_ups;
mod middle;
mod overwriting;
mod piece_plans;
mod root_edits;
mod root_plan;
mod runs;
mod spot;
mod staying;
mod window_plan;
mod within;

pub use bodies::copy_bodies;
pub use changes::{plan_block, plan_body, plan_freeing, stacked};
pub use create::plan_create;
pub use distinct::are_distinct;
pub use edit_plans::{plan_deletion, plan_insertion, plan_setting};
pub use handles::{OldBranch, blocks_needed, freed_handles, window_handles};
pub use law::{
    few_change_law, large_edits_law, large_places_law, large_stays_law, large_validity_law,
    local_law, spread_law,
};
pub use lent_runs::{RunPlace, find_run};
pub use loading::{load_branch, load_root, loaded_branch, loaded_root};
pub use look_ups::{ElementPlace, count, element, prepare_element};
pub use middle::{Middle, middle_of};
pub use root_edits::new_root;
pub use runs::read_run;
pub use spot::{BranchLink, Spot, links_from};
pub use staying::{StayingBytes, old_branches};
