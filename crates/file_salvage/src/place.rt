//! Where a directory lies that is tried.
use file_format::Extent;
use file_report::Named;

/// Where a directory lies that a slot names.
#[derive(Clone, Copy)]
pub struct Place {
    /// Whether slot 1 names it.
    pub second: bool,
    /// Of which of its documents.
    pub name: Named,
    /// Whether the slot is open.
    pub is_open: bool,
    /// The version of the slot.
    pub version: u8,
    pub extent: Extent,
    /// The sum that the slot gives of it, none but in version 3.
    pub sum: Option<u32>,
}
