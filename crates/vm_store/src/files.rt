//! Who opens files by their names: the machine for the program, and files in memory in tests.
ghost use Rattle.vm_store.specs.Files.{Opener};

use crate::{Store, StoreFault};

/// Who opens files. What its calls do is known by the relations of `calls` alone, so that where a contract has one of
/// them, just that call was made.
pub trait Files {
    /// What a file is opened as.
    type Opened: Store;

    ghost calls: { Opener Self (Self.Opened) };

    /// Makes sure that no file that is opened from now on is taken for standard input, standard output or standard
    /// error.
    fn guard_streams(&mut self) -> Result<(), StoreFault>
        ensures { calls.guards self.old result self.new };

    /// Opens the file of a name, and nobody else can open it until it is closed. A missing one is made, empty, where
    /// `make` is true; in one that is there nothing is cut or written. It fails where the file can't be opened or made,
    /// or is open already, under whatever name.
    fn open(&mut self, name: &str, make: bool) -> Result<Self::Opened, StoreFault>
        ensures { calls.opens self.old name.now make result self.new };

    /// Closes a file that was opened.
    fn close(&mut self, store: Self::Opened)
        ensures { calls.closes self.old store self.new };
}
