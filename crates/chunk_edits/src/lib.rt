//! Edits of bytes as splices: built without a change, and then applied or taken back without a refusal.
#![tactic(auto)]

mod chunk;
mod direction;
mod held;
mod law;
mod parts;
mod patch;
mod raw;
mod raw_patch;
mod runs;

pub use chunk::{apply, apply_back, delete, insert, resize, splice, write};
pub use direction::Direction;
pub use held::{Exchange, FEW_BYTES};
pub use law::{patch_law, splice_law};
pub use parts::{Splice, copied};
pub use patch::{Patch, apply_patch};
pub use raw::{apply_raw, apply_raw_back, raw_replace, raw_splice, raw_write};
pub use raw_patch::{RawPatch, apply_raw_patch};
pub use runs::{ArrayPatch, ArrayRuns};
