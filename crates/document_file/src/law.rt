//! Laws of what callers see, for the layers above.
ghost use Rattle.std.specs.Prelude.{◌≡◌, [], IsTrue};
ghost use Rattle.document_file.specs.Crashes.{CrashLaw};
ghost use Rattle.document_file.specs.Disk.{Disk, IsCrashConsistent, ContentStands};
ghost use Rattle.document_file.specs.Making.{FirstFileLaw};
ghost use Rattle.document_file.specs.Passing.{PassingLaw};

use vm_store::Store;

/// From a file that was made, opened or committed on, a crash at any moment leaves the updated and the saved document
/// of the last acknowledged commit, or those of a commit that was tried since; one that failed before its last step
/// adds nothing.
pub fn crash_law<S: Store>()
    ensures { CrashLaw S.facts }
{}

/// Calls in turn that commit nothing are one such call, and with one that tries to commit a pair, before or behind it,
/// they are one that does.
pub fn passing_law<S: Store>()
    ensures { PassingLaw S.facts }
{}

/// What an honest store has now stands for the updated and the saved document of the last acknowledged commit, where no
/// pair of a commit that failed may be read.
pub fn content_law<S: Store>()
    ensures { (disk : Disk S) → IsCrashConsistent S.facts disk
        → (IsTrue (S.facts disk.store).honest → disk.in_doubt ≡ [])
        → ContentStands S.facts disk }
{}

/// The bytes of a file that was just created, one by one.
pub fn first_file_law()
    ensures { FirstFileLaw }
{}
