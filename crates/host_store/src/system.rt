//! The calls of a system that a store on a file of it makes, and what is promised of them.
ghost use Rattle.std.specs.Prelude.{◌≡◌, ◌≤◌, false, IsTrue, length, OnOk, IfOk};
ghost use Rattle.vm_store.specs.Facts.{StoreFacts, IsTimely, IsDurable, IsUnchanged, Writes, Elapses, Sizes};
ghost use Rattle.host_store.specs.System.{FileFacts, SystemCalls, CountsFailure, IsInterrupted, HasFailed, Idles, Reads, WritesTo, WritesPart};

/// A call of a system that did not succeed.
#[derive(Clone, Copy, Debug, PartialEq, Eq)]
pub enum SystemFault {
    /// A signal came before the call was done: it may be made again.
    Interrupted,
    /// The system refused it.
    Failed,
}

/// A file of a system. Offsets and lengths count bytes.
///
/// What is promised holds of an honest file, and a file is honest for good or never. A call may move fewer bytes than
/// it was asked to. One that is interrupted has changed nothing, or, if it is a write, no more than bytes of its range.
/// What a crash may leave is said as for a store.
pub trait SystemFile: Drop {
    /// All that is known of the file.
    ghost facts: { Self → FileFacts };

    /// How many bytes there are.
    fn len(&mut self) -> Result<u64, SystemFault>
        ensures honest { (facts self.new).store.honest ≡ (facts self.old).store.honest }
        ensures told { IsTrue (facts self.old).store.honest → CountsFailure result (facts self.old) (facts self.new) }
        ensures idles { IsTrue (facts self.old).store.honest → Idles (facts self.old) (facts self.new) }
        ensures len { IfOk result
            (λ n. IsTrue (facts self.old).store.honest → n ≡ length (facts self.old).store.content) };

    /// Reads bytes from `at` on into the buffer's first, and answers how many: none if the buffer is empty or they lie
    /// at the end or past it.
    fn read_at(&mut self, at: u64, buffer: &mut [u8]) -> Result<usize, SystemFault>
        ensures honest { (facts self.new).store.honest ≡ (facts self.old).store.honest }
        ensures told { IsTrue (facts self.old).store.honest → CountsFailure result (facts self.old) (facts self.new) }
        ensures idles { IsTrue (facts self.old).store.honest → Idles (facts self.old) (facts self.new) }
        ensures room { IfOk result (λ k. k ≤ length buffer.old) }
        ensures read { IfOk result
            (λ k. IsTrue (facts self.old).store.honest → Reads (facts self.old).store.content at k buffer.new) };

    /// Writes the first of the bytes over what is there and past the end, and answers how many: one at least, where
    /// there are any.
    fn write_at(&mut self, at: u64, bytes: &[u8]) -> Result<usize, SystemFault>
        ensures honest { (facts self.new).store.honest ≡ (facts self.old).store.honest }
        ensures told { IsTrue (facts self.old).store.honest → CountsFailure result (facts self.old) (facts self.new) }
        ensures writes { IsTrue (facts self.old).store.honest
            → WritesTo at (length bytes.now) (facts self.old) (facts self.new) }
        ensures room { IfOk result (λ k. k ≤ length bytes.now) }
        ensures part { IsTrue (facts self.old).store.honest
            → WritesPart at bytes.now result (facts self.old).store.content (facts self.new).store.content };

    /// Cuts the bytes or adds zeros, so that there are `n`. After a crash anything may be left where it cuts bytes;
    /// where it adds zeros, what a write of no bytes at `n` would leave.
    fn set_len(&mut self, n: u64) -> Result<(), SystemFault>
        // As of each call.
        ensures honest { (facts self.new).store.honest ≡ (facts self.old).store.honest }
        ensures told { IsTrue (facts self.old).store.honest → CountsFailure result (facts self.old) (facts self.new) }
        ensures syncs { IsTrue (facts self.old).store.honest
            → (facts self.new).has_failed_sync ≡ (facts self.old).has_failed_sync }
        ensures time { IsTrue (facts self.old).store.honest → Elapses (facts self.old).store (facts self.new).store }
        // What is done.
        ensures sized { OnOk result (IsTrue (facts self.old).store.honest
            → Sizes n (facts self.old).store.content (facts self.new).store.content) }
        ensures grows { IsTrue (facts self.old).store.honest → length (facts self.old).store.content ≤ n
            → Writes n 0 (facts self.old).store (facts self.new).store }
        // Refusals.
        ensures interrupted { IsInterrupted result → IsTrue (facts self.old).store.honest
            → IsUnchanged (facts self.old).store (facts self.new).store };

    /// After a sync that succeeds a crash leaves the content, until the next write or `set_len`; but not if an earlier
    /// sync of the file has failed: the system may have dropped what it could not write then, and tells so only once.
    fn sync(&mut self) -> Result<(), SystemFault>
        ensures honest { (facts self.new).store.honest ≡ (facts self.old).store.honest }
        ensures told { IsTrue (facts self.old).store.honest → CountsFailure result (facts self.old) (facts self.new) }
        ensures unchanged { IsTrue (facts self.old).store.honest
            → IsUnchanged (facts self.old).store (facts self.new).store }
        ensures syncs { (HasFailed result → ⊥) → IsTrue (facts self.old).store.honest
            → (facts self.new).has_failed_sync ≡ (facts self.old).has_failed_sync }
        ensures durable { OnOk result (IsTrue (facts self.old).store.honest → (facts self.old).has_failed_sync ≡ false
            → IsDurable (facts self.new).store) };

    /// Syncs a file whose content is whole from now on: one that was made beside the file of a path takes its place.
    /// Any other does what a sync does.
    fn settle(&mut self) -> Result<(), SystemFault>
        ensures honest { (facts self.new).store.honest ≡ (facts self.old).store.honest }
        ensures told { IsTrue (facts self.old).store.honest → CountsFailure result (facts self.old) (facts self.new) }
        ensures unchanged { IsTrue (facts self.old).store.honest
            → IsUnchanged (facts self.old).store (facts self.new).store }
        ensures syncs { (HasFailed result → ⊥) → IsTrue (facts self.old).store.honest
            → (facts self.new).has_failed_sync ≡ (facts self.old).has_failed_sync }
        ensures durable { OnOk result (IsTrue (facts self.old).store.honest → (facts self.old).has_failed_sync ≡ false
            → IsDurable (facts self.new).store) }
    {
        self.sync()
    }

    ghost timely: { (s : Self) → IsTrue (facts s).store.honest → IsTimely (facts s).store };
}

/// A system with files. What its calls do is known by the relations of `calls` alone, so that where a contract has one
/// of them, just that call was made.
pub trait System<F: SystemFile> {
    /// A file that was opened and isn't locked. Its bytes can't be touched.
    type Handle: Drop;

    ghost calls: { SystemCalls Self (Self.Handle) F };

    /// Makes sure that no file that is opened from now on is taken for standard input, standard output or standard
    /// error, also where these are closed.
    fn guard_streams(&mut self) -> Result<(), SystemFault>
        ensures { calls.guards self.old result self.new };

    /// Opens the file at a path to be read and written. A missing one is made, empty, where `make` is true.
    fn open(&mut self, path: &str, make: bool) -> Result<Self::Handle, SystemFault>
        ensures { calls.opens self.old path.now make result self.new };

    /// Syncs the names in the folder in which a path lies, so that no crash loses one that was made there.
    fn sync_folder(&mut self, path: &str) -> Result<(), SystemFault>
        ensures { calls.syncs_folder self.old path.now result self.new };

    /// Locks a file against every other open of it, until it is dropped. It doesn't wait, and fails where another holds
    /// a lock.
    fn lock(&mut self, handle: Self::Handle) -> Result<F, SystemFault>
        ensures locks { calls.locks self.old handle result self.new }
        ensures syncs { IfOk result
            (λ file. IsTrue (F.facts file).store.honest → (F.facts file).has_failed_sync ≡ false) };

    /// Closes a file that was locked, which gives up its lock and leaves its bytes as they are.
    fn close(&mut self, file: F)
        ensures { calls.closes self.old file self.new };
}
