//! Memory for the bytes of commands, which goes from one command to the next.
ghost use Rattle.std.specs.Prelude.{◌≡◌, [], IfOk, replicate};

use geos_model::{Bytes, Command, Edit};
use std::alloc::{AllocError, Global};
use std::mem::{replace, swap};

/// Room for the bytes of a command. What the bytes of one command took is given back for the next, so that a script
/// doesn't take memory anew for each line. It is never more than the bytes of the longest line take.
#[derive(Drop)]
pub struct Spare {
    alloc: Global,
    bytes: Bytes,
}

impl Spare {
    /// No room yet.
    pub fn new(alloc: Global) -> Spare {
        Spare {
            alloc,
            bytes: Bytes::from_vec(Vec::new(alloc)),
        }
    }

    /// Takes back what the bytes of a command took, which is done with: others are left in it. Of a command that has
    /// two byte texts these are those of the last one.
    pub fn take_back(&mut self, command: &mut Command) {
        match command {
            Command::Edit(edit) => self.take_back_edit(edit),
            Command::Name(bytes) | Command::NameFind(_, _, bytes) => swap(&mut self.bytes, bytes),
            _ => {}
        }
    }

    fn take_back_edit(&mut self, edit: &mut Edit) {
        match edit {
            Edit::WriteRaw(_, _, bytes)
            | Edit::SpliceRaw(_, _, _, bytes)
            | Edit::Attach(_, bytes)
            | Edit::Write(_, _, _, bytes)
            | Edit::Splice(_, _, _, _, bytes)
            | Edit::InsertElement(_, _, _, bytes)
            | Edit::SetElement(_, _, _, bytes)
            | Edit::AddElement(_, _, bytes)
            | Edit::ChangeElement(_, _, _, bytes)
            | Edit::AddName(_, _, _, bytes, _)
            | Edit::ChangeName(_, _, _, bytes)
            | Edit::SetNamePart(_, _, _, bytes)
            | Edit::InsertLarge(_, _, bytes)
            | Edit::SetLarge(_, _, bytes) => swap(&mut self.bytes, bytes),
            _ => {}
        }
    }

    /// No bytes.
    pub(crate) fn none(&self) -> Bytes
        ensures { result ≡ [] }
    {
        Bytes::from_vec(Vec::new(self.alloc))
    }

    /// So many zeros, in the room that was given back where that is enough. The room is gone then.
    pub(crate) fn zeros(&mut self, count: usize) -> Result<Vec<u8>, AllocError>
        ensures { IfOk result (λ zeros. zeros.items ≡ replicate count 0) }
    {
        let none = self.none();
        let mut zeros = replace(&mut self.bytes, none).into_vec();
        zeros.clear();
        zeros.resize(count, 0)?;
        Ok(zeros)
    }
}
