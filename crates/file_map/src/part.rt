//! What lies in an extent of a file, and whose it is.
ghost use Rattle.std.specs.Prelude.{◌≡◌, OnOk};
ghost use Rattle.file_map.specs.Parts.{drawn_more, handle_rank, is_directory_part, is_heap_part, is_raw_part, is_same, is_saved, is_shared, is_slots, is_updated, users_of};

use file_format::Extent;
use file_report::Named;
use geos_model::VmHandle;
use std::alloc::AllocError;

/// Which of a slot's documents use an extent.
#[derive(Clone, Copy, Debug, PartialEq, Eq)]
pub enum Users {
    Updated,
    Saved,
    Both,
}

/// What an extent holds.
#[derive(Clone, Copy, Debug, PartialEq, Eq)]
pub enum Kind {
    Slots,
    Directory,
    /// The image of a raw block.
    Raw,
    /// The image of a heap.
    Heap,
}

/// An extent, what it holds and whose it is.
#[derive(Clone, Copy, Debug, PartialEq, Eq)]
pub struct Part {
    pub extent: Extent,
    pub kind: Kind,
    pub users: Users,
    /// The block of an image, else 0.
    pub block: VmHandle,
}

/// Who uses what one of the documents has.
pub fn users_of(name: Named) -> Users
    ensures { result ≡ users_of name }
{
    match name {
        Named::Updated => Users::Updated,
        Named::Saved => Users::Saved,
    }
}

impl Part {
    pub fn is_slots(&self) -> bool
        ensures { result ≡ is_slots self.now }
    {
        matches!(self.kind, Kind::Slots)
    }

    pub fn is_directory(&self) -> bool
        ensures { result ≡ is_directory_part self.now }
    {
        matches!(self.kind, Kind::Directory)
    }

    pub fn is_raw(&self) -> bool
        ensures { result ≡ is_raw_part self.now }
    {
        matches!(self.kind, Kind::Raw)
    }

    pub fn is_heap(&self) -> bool
        ensures { result ≡ is_heap_part self.now }
    {
        matches!(self.kind, Kind::Heap)
    }

    /// Whether the updated document uses it.
    pub fn is_updated(&self) -> bool
        ensures { result ≡ is_updated self.now }
    {
        !matches!(self.users, Users::Saved)
    }

    /// Whether the saved document uses it.
    pub fn is_saved(&self) -> bool
        ensures { result ≡ is_saved self.now }
    {
        !matches!(self.users, Users::Updated)
    }

    /// By this heaps are drawn one below the other: the blocks' handles, and of one block the saved document's comes
    /// last.
    pub fn handle_rank(&self) -> u32
        ensures { result ≡ handle_rank self.now }
    {
        2 * u32::from(self.block.0) + u32::from(!self.is_updated())
    }

    // Whether they are of one kind, in one place and of one block.
    fn is_same(&self, other: &Part) -> bool
        ensures { result ≡ is_same self.now other.now }
    {
        self.extent.page == other.extent.page
            && self.extent.length == other.extent.length
            && self.block.0 == other.block.0
            && self.is_slots() == other.is_slots()
            && self.is_directory() == other.is_directory()
            && self.is_raw() == other.is_raw()
    }

    // Whether the updated document has the first and the saved one the other, and they are the same.
    fn is_shared(&self, other: &Part) -> bool
        ensures { result ≡ is_shared self.now other.now }
    {
        !self.is_saved() && !other.is_updated() && self.is_same(other)
    }
}

/// Puts a part behind those before it. What the updated document has there and the saved one too, one behind the other,
/// is one part of both.
pub fn push_part(parts: &mut Vec<Part>, part: Part) -> Result<(), AllocError>
    ensures { OnOk result (parts.new.items ≡ drawn_more parts.old.items part) }
{
    match parts.pop() {
        Some(last) if last.is_shared(&part) => parts.push(Part {
            users: Users::Both,
            ..last
        })?,
        Some(last) => {
            parts.push(last)?;
            parts.push(part)?;
        }
        None => parts.push(part)?,
    }
    Ok(())
}
