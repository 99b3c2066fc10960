//! Where a script comes from, and where replies go.
ghost use Rattle.std.specs.Prelude.{◌≡◌, ℕ, List, Option, OnOk};
ghost use Rattle.std.specs.Io.{ReadsAtMost};
ghost use Rattle.std.specs.Io.KnownBytes.{Appends, ReadConsumes};
ghost use Rattle.geos_shell.specs.Streams.{ReadCalls, WriteCalls};

use std::io::{ErrorKind, Read, Write};

/// Why a read gave nothing.
#[derive(Clone, Copy, Debug, PartialEq, Eq)]
pub enum ReadFault {
    /// It was interrupted, and may be tried again.
    Interrupted,
    /// It failed.
    Failed,
}

/// A write failed. How much of it was written is not known.
#[derive(Clone, Copy, Debug, PartialEq, Eq)]
pub struct WriteFault;

/// Where a script comes from: any reader. What a read does is known by its relation alone, so that where a contract has
/// that, just that read was made.
pub trait Source {
    // The bytes that reads will give from here on, where they are known.
    ghost remaining: { Self → Option (List ℕ) };

    ghost reads: { ReadCalls Self };

    /// Reads bytes into the front of the piece, and tells how many: none only at the end. `has_unsaved` says whether
    /// there are edits now that the file wouldn't have, were this the end, so that somebody can be asked. It says
    /// nothing of what is read.
    fn read_piece(&mut self, has_unsaved: bool, piece: &mut [u8]) -> Result<usize, ReadFault>
        ensures bound { ReadsAtMost result piece.new }
        ensures bytes { ReadConsumes (remaining self.old) (remaining self.new) result piece.new }
        ensures call { reads self.old result self.new };
}

/// Where replies go: any writer. What a write does is known by its relation alone, as of a `Source`.
pub trait Sink {
    // The bytes that were written, where they are known.
    ghost contents: { Self → Option (List ℕ) };

    ghost writes: { WriteCalls Self };

    /// Writes all these bytes, and flushes them.
    fn write_out(&mut self, bytes: &[u8]) -> Result<(), WriteFault>
        ensures bytes { OnOk result (Appends (contents self.old) (contents self.new) bytes.now) }
        ensures call { writes self.old bytes.now result self.new };
}

// Of any reader and any writer nothing is known but their bytes.

impl<R: Read> Source for R {
    ghost remaining = { R.remaining };

    ghost reads = { λ _ _ _. Unit {0} };

    // Bytes are what they are, also where edits would be lost.
    fn read_piece(&mut self, _has_unsaved: bool, piece: &mut [u8]) -> Result<usize, ReadFault> {
        match self.read(piece) {
            Ok(count) => Ok(count),
            Err(error) if error.kind() == ErrorKind::Interrupted => Err(ReadFault::Interrupted),
            Err(_) => Err(ReadFault::Failed),
        }
    }
}

impl<W: Write> Sink for W {
    ghost contents = { W.contents };

    ghost writes = { λ _ _ _ _. Unit {0} };

    fn write_out(&mut self, bytes: &[u8]) -> Result<(), WriteFault> {
        if self.write_all(bytes).is_err() || self.flush().is_err() {
            return Err(WriteFault);
        }
        Ok(())
    }
}
