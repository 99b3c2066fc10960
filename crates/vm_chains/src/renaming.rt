//! Names for the handles of a chain, and bodies with their links renamed.
ghost use Rattle.std.specs.Prelude.{◌≡◌, ◌≤◌, ◌+◌, ℕ, true, IfOk, length};
ghost use Rattle.std.specs.List.{All, zip};
ghost use Rattle.geos_model.specs.Chain.{name_of, relinked};
ghost use Rattle.geos_model.specs.Bytes.{written};
ghost use Rattle.geos_model.specs.Document.{is_vm_handle};
ghost use Rattle.geos_model.specs.Heap.{capacity};
ghost use Rattle.geos_model.specs.Words.{word};
ghost use Rattle.vm_chains.specs.Linking.{AreLinks};
ghost use Rattle.vm_chains.specs.Numbers.{numbers};
ghost use Rattle.vm_chains.specs.Naming.{name_in};

use crate::links::Links;
use byteorder::{ByteOrder, LittleEndian};
use geos_model::VmHandle;
use raw_region::RawBody;
use std::alloc::{AllocError, Global};
use vm_blocks::MOST_BLOCKS;

/// Names for the blocks that are linked to.
#[derive(Drop)]
pub(crate) enum Renaming {
    /// The name of a handle, 0 for one that has none.
    Table(Vec<u16>),
    /// 1 for each block, whichever it is, so that a link is told from none.
    Marks,
}

impl Renaming {
    /// To each handle the name that stands at its place.
    pub(crate) fn new(
        alloc: Global,
        handles: &[VmHandle],
        names: &[VmHandle],
    ) -> Result<Renaming, AllocError>
        requires handles { All (λ h. is_vm_handle h.0 ≡ true) handles.now }
        requires names { length handles.now ≤ length names.now }
        ensures { IfOk result
            (λ found. (h : ℕ) → name_in found h ≡ name_of (zip (numbers handles.now) (numbers names.now)) h) }
    {
        let mut by_handle = vec![in alloc; 0; MOST_BLOCKS + 1]?;
        // From the last on, so that of two names for a handle the first stands.
        for i in (0..handles.len()).rev() {
            by_handle[usize::from(handles[i].0)] = names[i].0;
        }
        Ok(Renaming::Table(by_handle))
    }

    /// The name of a handle.
    fn of(&self, handle: u16) -> u16
        ensures { result ≡ name_in self.now handle }
    {
        match self {
            Renaming::Table(names) => names.get(usize::from(handle)).copied().unwrap_or(0),
            Renaming::Marks => u16::from(handle != 0),
        }
    }
}

/// Puts the bytes of a body, with each of its links renamed, in place of what is in a buffer.
pub(crate) fn relink(
    body: &RawBody,
    links: Links,
    names: &Renaming,
    bytes: &mut Vec<u8>,
) -> Result<(), AllocError>
    requires { AreLinks body.now links }
    ensures value { IfOk result (λ _. bytes.new.items ≡ relinked (name_in names.now) body.now) }
    ensures small { IfOk result (λ _. length bytes.new.items ≤ capacity) }
{
    bytes.clear();
    // Room for one more, since the image of a raw block has a byte before its own.
    bytes.reserve(body.bytes().len() + 1)?;
    bytes.extend_from_slice(body.bytes())?;
    rename_links(body, links, names, bytes);
    Ok(())
}

/// Renames each link of a body in a copy of its bytes.
fn rename_links(body: &RawBody, links: Links, names: &Renaming, bytes: &mut [u8])
    requires links { AreLinks body.now links }
    requires copy { bytes.old ≡ body.now }
    ensures { bytes.new ≡ relinked (name_in names.now) body.now }
{
    for i in 0..links.count {
        let at = usize::from(links.first) + 4 * usize::from(i);
        write_word(bytes, at, names.of(body.word(at)));
    }
}

/// Writes a word at a place.
fn write_word(bytes: &mut [u8], at: usize, value: u16)
    requires { at + 2 ≤ length bytes.old }
    ensures { bytes.new ≡ written bytes.old at (word value) }
{
    LittleEndian::write_u16(&mut bytes[at..at + 2], value);
}
