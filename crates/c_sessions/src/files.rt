//! Who has the files that a program gave numbers: the channel for programs.
ghost use Rattle.c_sessions.specs.Files.{FileCalls};

use vm_store::{Store, StoreFault};

/// What a program calls a file of its own.
#[derive(Clone, Copy, PartialEq, Eq)]
pub struct FileNumber(pub i32);

/// Who has the files. What its calls do is known by the relations of `calls` alone, so that where a contract has one of
/// them, just that call was made.
pub trait ProgramFiles {
    /// What a file is opened as.
    type Opened: Store;

    ghost calls: { FileCalls Self (Self.Opened) };

    /// Begins with the file that has a number, for a session on no file yet or on its own. In the file nothing is read,
    /// cut or written. It fails where no session may be on it, as where it is the session's own.
    fn open(
        &mut self,
        number: FileNumber,
        own: Option<FileNumber>,
    ) -> Result<Self::Opened, StoreFault>
        ensures { calls.opens self.old number own result self.new };

    /// Ends with a file that was opened, and leaves it as it is.
    fn close(&mut self, store: Self::Opened)
        ensures { calls.closes self.old store self.new };
}
