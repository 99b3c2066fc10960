//! The format of a document file: the texts of its slots and directories, and their reading from a store.
#![tactic(auto)]

mod directory;
mod extent;
mod file;
mod kind;
mod law;
mod pages;
mod reading;
mod slot;
mod stored_directory;
mod stored_slot;
mod sum;

pub use directory::{
    Directory, HEADER_LENGTH, LONGEST_DIRECTORY, LONGEST_IMAGE, MOST_ENTRIES, begin_directory,
    entry_length, entry_start, has_sums, is_known, most_handles, push_entry, read_dir, read_entry,
    write_dir,
};
pub use file::{Entry, Extent, PAGE, Slot, SlotSums, VERSION};
pub use kind::BodyKind;
pub use law::{damage_law, file_law};
pub use pages::{FIRST_PAGE, is_in_file, page_behind, page_count, start_of};
pub use reading::{read_extent, read_length};
pub use slot::{LONGEST_SLOT, SLOT_MARK, SlotText, own_sum, read_slot, write_slot};
pub use stored_directory::{ReadDirectory, look_for_directory, read_directory};
pub use stored_slot::{
    FoundSlot, RawSlot, check_slot, choose, find_slot, is_sealed, is_version, read_open_slot,
    read_raw_slot,
};
pub use sum::has_sum;
