//! What can be wrong with a slot and with what it leads to.
ghost use Rattle.std.specs.Prelude.{◌≡◌, ◌<◌, OnOk, false, length};
ghost use Rattle.file_report.specs.Findings.{FindsMore, IsNoted};

use file_format::{Entry, Extent};
use geos_model::VmHandle;
use std::alloc::AllocError;
use std::fmt;

/// One of the two documents that a slot names.
#[derive(Clone, Copy)]
pub enum Named {
    Updated,
    Saved,
}

/// What is wrong with the header of a directory.
#[derive(Clone, Copy)]
pub enum HeaderFault {
    /// It doesn't begin with `GDIR`.
    Mark,
    /// No directory of this version can be in the file.
    Version(u16),
    /// Its last six bytes aren't zeros.
    Zeros,
    /// The bytes aren't those of a directory of so many entries.
    Length(u16),
}

/// What is wrong with an entry of a directory.
#[derive(Clone, Copy)]
pub enum EntryFault {
    /// Its handle isn't above that of the entry before, or is 0.
    Order,
    /// Its handle is above the greatest one.
    Handle,
    /// No image has that length.
    Length,
    /// Its image doesn't lie in the file, behind the slots and on pages that can be used.
    Outside,
    /// The last two of its first 16 bytes aren't zeros, or the last four in a directory of version 1.
    Zeros,
}

/// One fact that keeps a document from standing.
#[derive(Clone, Copy)]
pub enum Finding {
    /// The slot has this version, none of 1 to 3.
    SlotVersion(u8),
    /// The two zeros of the slot aren't.
    SlotZeros,
    /// The sequence number of the slot is 0.
    SlotSequence,
    /// The slot hasn't its own sum.
    SlotSum,
    /// In this extent is no directory that can be in the file and that has the sum that the slot names.
    NoDirectory(Named, Extent),
    /// The extent of the directory doesn't lie in the file, behind the slots and on pages that can be used.
    Outside(Named, Extent),
    /// No directory is as long as the extent.
    NoLength(Named, Extent),
    /// The bytes of the directory haven't the sum that the slot names.
    DirectorySum(Named),
    /// The header of the directory is wrong.
    Header(Named, HeaderFault),
    /// The map block of the directory isn't listed in it.
    MapBlock(Named, VmHandle),
    /// The entry of the directory with this number, from 0 on, is wrong.
    Entry(Named, usize, Entry, EntryFault),
    /// The directory lists this entry, and the bytes in its extent haven't its sum.
    Sum(Named, Entry),
    /// The directory lists this entry, and in its extent is no image of a body that can have its type.
    Image(Named, Entry),
}

/// Notes a finding unless what it denies holds.
pub fn note_unless(
    holds: bool,
    finding: Finding,
    findings: &mut Vec<Finding>,
) -> Result<(), AllocError>
    ensures found { OnOk result (FindsMore (IsNoted holds finding) findings.old.items findings.new.items) }
    ensures told { OnOk result (holds ≡ false → length findings.old.items < length findings.new.items) }
{
    if holds {
        return Ok(());
    }
    findings.push(finding)?;
    Ok(())
}

impl fmt::Display for Named {
    ghost use Rattle.std.specs.Prelude.{Some};
    ghost use Rattle.file_report.specs.Texts.{name_text};

    ghost output = { λ name. Some (name_text name) };

    fn fmt<W: fmt::Write>(&self, f: &mut fmt::Formatter<W>) -> fmt::Result {
        match self {
            Named::Updated => write!(f, "updated"),
            Named::Saved => write!(f, "saved"),
        }
    }
}

impl fmt::Display for HeaderFault {
    ghost use Rattle.std.specs.Prelude.{Some};
    ghost use Rattle.file_report.specs.Texts.{header_fault_words};

    ghost output = { λ fault. Some (header_fault_words fault) };

    fn fmt<W: fmt::Write>(&self, f: &mut fmt::Formatter<W>) -> fmt::Result {
        match self {
            HeaderFault::Mark => write!(f, "its mark is not GDIR"),
            HeaderFault::Version(version) => write!(f, "its version is {version}"),
            HeaderFault::Zeros => write!(f, "its zeros are not"),
            HeaderFault::Length(count) => write!(f, "its length is not that of {count} entries"),
        }
    }
}

impl fmt::Display for EntryFault {
    ghost use Rattle.std.specs.Prelude.{Some};
    ghost use Rattle.file_report.specs.Texts.{entry_fault_words};

    ghost output = { λ fault. Some (entry_fault_words fault) };

    fn fmt<W: fmt::Write>(&self, f: &mut fmt::Formatter<W>) -> fmt::Result {
        match self {
            EntryFault::Order => write!(f, "its handle does not rise"),
            EntryFault::Handle => write!(f, "its handle is too great"),
            EntryFault::Length => write!(f, "no image has its length"),
            EntryFault::Outside => write!(f, "its image is not in the file"),
            EntryFault::Zeros => write!(f, "its zeros are not"),
        }
    }
}

// An extent as text.
#[derive(Clone, Copy)]
struct At(Extent);

impl fmt::Display for At {
    ghost use Rattle.std.specs.Prelude.{Some};
    ghost use Rattle.file_report.specs.Texts.{extent_words};

    ghost output = { λ at. Some (extent_words at.0) };

    fn fmt<W: fmt::Write>(&self, f: &mut fmt::Formatter<W>) -> fmt::Result {
        let Extent { page, length } = self.0;
        write!(f, "page {page}, {length} bytes")
    }
}

// A block by its entry, as text.
#[derive(Clone, Copy)]
struct Listed(Entry);

impl fmt::Display for Listed {
    ghost use Rattle.std.specs.Prelude.{Some};
    ghost use Rattle.file_report.specs.Texts.{listed_words};

    ghost output = { λ listed. Some (listed_words listed.0) };

    fn fmt<W: fmt::Write>(&self, f: &mut fmt::Formatter<W>) -> fmt::Result {
        let Entry { handle, extent, .. } = self.0;
        write!(f, "block {:04x}, image at {}", handle.0, At(extent))
    }
}

// That a block has no image, as text.
#[derive(Clone, Copy)]
struct NoImage(Entry);

impl fmt::Display for NoImage {
    ghost use Rattle.std.specs.Prelude.{Some};
    ghost use Rattle.file_report.specs.Texts.{no_image_words};

    ghost output = { λ none. Some (no_image_words none.0) };

    fn fmt<W: fmt::Write>(&self, f: &mut fmt::Formatter<W>) -> fmt::Result {
        write!(
            f,
            "block {:04x} of type {}: no image of one at {}",
            self.0.handle.0,
            self.0.attributes.heap_type,
            At(self.0.extent)
        )
    }
}

impl fmt::Display for Finding {
    ghost use Rattle.std.specs.Prelude.{Some};
    ghost use Rattle.file_report.specs.Texts.{finding_text};

    ghost output = { λ finding. Some (finding_text finding) };

    fn fmt<W: fmt::Write>(&self, f: &mut fmt::Formatter<W>) -> fmt::Result {
        match self {
            Finding::SlotVersion(version) => write!(f, "its version is {version}"),
            Finding::SlotZeros => write!(f, "its zeros are not"),
            Finding::SlotSequence => write!(f, "its sequence number is 0"),
            Finding::SlotSum => write!(f, "the slot's own sum is wrong"),
            Finding::NoDirectory(name, extent) => {
                write!(f, "{name} document: no directory at {}", At(*extent))
            }
            Finding::Outside(name, extent) => {
                write!(f, "{name} directory: not in the file: {}", At(*extent))
            }
            Finding::NoLength(name, extent) => write!(
                f,
                "{name} directory: none has such a length: {}",
                At(*extent)
            ),
            Finding::DirectorySum(name) => {
                write!(f, "{name} document: the directory's sum is wrong")
            }
            Finding::Header(name, fault) => write!(f, "{name} directory: {fault}"),
            Finding::MapBlock(name, block) => write!(
                f,
                "{name} directory: its map block {:04x} is not listed",
                block.0
            ),
            Finding::Entry(name, i, entry, fault) => write!(
                f,
                "{name} directory: entry {i}, {}: {fault}",
                Listed(*entry)
            ),
            Finding::Sum(name, entry) => {
                write!(f, "{name} document: {}: its sum is wrong", Listed(*entry))
            }
            Finding::Image(name, entry) => write!(f, "{name} document: {}", NoImage(*entry)),
        }
    }
}
