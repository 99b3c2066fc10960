//! A document file over a store: the blocks as they are now, as they were last updated and as they were saved.
#![tactic(auto)]

mod commit;
mod copying;
mod directory;
mod extent;
mod file;
mod front;
mod image;
mod kind;
mod law;
mod listing;
mod making;
mod member;
mod opening;
mod placing;
mod reading;
mod reverting;
mod slot;
mod stored_documents;
mod sums;
mod table;
mod turning;
mod writing;

pub use file::{Refused, VmFile};
pub use image::Image;
pub use law::{content_law, crash_law, first_file_law, passing_law};
pub use member::{BlockImage, Member};
pub use stored_documents::StoredDocuments;
pub use table::Place;
