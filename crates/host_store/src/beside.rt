//! A file of the host that is made beside an old one, and takes its place once it is whole.
// Of the host nothing is known, so no contract says what is done here.

use crate::paths::followed;
use std::fs::{File, Metadata, OpenOptions, TryLockError, remove_file, rename};
use std::io;
use std::os::unix::fs::{MetadataExt, OpenOptionsExt, fchown};
use std::path::PathBuf;

/// What a file's name ends in while it is made.
const ENDING: &str = "geosvm-new";

/// Nobody but its owner reads or writes a file before it has the owner and the mode of the old one.
const OWNER_ALONE: u32 = 0o600;

/// The path of an old file, and that of the one that is made beside it.
#[derive(Drop)]
pub(crate) struct Names {
    old: PathBuf,
    made: PathBuf,
}

/// A file that is made beside an old one.
#[derive(Drop)]
pub(crate) struct Beside {
    // It is locked until the new one has its place, so that nobody else makes one beside it.
    old: File,
    names: Names,
}

/// By which a file is told from others, whatever its names are.
#[derive(Clone, Copy, PartialEq, Eq)]
pub(crate) struct Identity {
    device: u64,
    number: u64,
}

impl Identity {
    fn of_metadata(metadata: &Metadata) -> Identity {
        Identity {
            device: metadata.dev(),
            number: metadata.ino(),
        }
    }

    /// That of a file that is open.
    pub(crate) fn of(file: &File) -> io::Result<Identity> {
        Ok(Identity::of_metadata(&file.metadata()?))
    }
}

/// Whether the file that is open lies at a path.
pub(crate) fn lies_at(rt: &HostRuntime, file: &File, path: &PathBuf) -> io::Result<bool> {
    let there = path.metadata(rt)?;
    Ok(Identity::of(file)? == Identity::of_metadata(&there))
}

/// Whether an error says that no file can be made beside an old one; others say that a call failed.
pub(crate) fn has_no_place(kind: io::ErrorKind) -> bool {
    matches!(
        kind,
        io::ErrorKind::PermissionDenied
            | io::ErrorKind::ReadOnlyFilesystem
            | io::ErrorKind::InvalidFilename
            | io::ErrorKind::Unsupported
            | io::ErrorKind::WouldBlock
    )
}

// Another file can take the place of one that has this name alone.
fn can_be_replaced(old: &Metadata) -> bool {
    old.is_file() && old.nlink() == 1
}

fn make(rt: &HostRuntime, path: &PathBuf) -> io::Result<File> {
    let mut options = OpenOptions::new();
    options.read(true).write(true).create_new(true);
    options.mode(OWNER_ALONE);
    options.open(rt, path)
}

fn lock(file: &File) -> io::Result<()> {
    match file.try_lock() {
        Ok(()) => Ok(()),
        Err(TryLockError::WouldBlock) => Err(io::Error::from(io::ErrorKind::WouldBlock)),
        Err(TryLockError::Error(error)) => Err(error),
    }
}

// Locks a file and gives it the owner and the mode of an old one.
fn lock_alike(file: &File, old: &Metadata) -> io::Result<()> {
    lock(file)?;
    let made = file.metadata()?;
    if made.uid() != old.uid() || made.gid() != old.gid() {
        fchown(file, Some(old.uid()), Some(old.gid()))?;
    }
    file.set_permissions(old.permissions())
}

// Takes away what a program that was stopped has left, but no file that is in use.
fn remove_left(rt: &HostRuntime, path: &PathBuf, left: &Metadata) -> io::Result<()> {
    if left.is_file() && File::open(rt, path)?.try_lock_shared().is_err() {
        return Err(io::Error::from(io::ErrorKind::WouldBlock));
    }
    remove_file(rt, path)
}

/// An empty file beside the old one, to which a path leads, with its owner and its mode, locked; nothing where that
/// can't be. A file of that name is taken for one that a program has left which was stopped, unless it is in use.
pub(crate) fn make_beside(
    rt: &HostRuntime,
    old: &File,
    path: &PathBuf,
) -> io::Result<(File, Names)> {
    let path = followed(rt, path)?;
    let attributes = old.metadata()?;
    if !can_be_replaced(&attributes) || !lies_at(rt, old, &path)? {
        return Err(io::Error::from(io::ErrorKind::Unsupported));
    }
    let made = path.with_added_extension(rt.alloc(), ENDING)?;
    if let Ok(left) = made.symlink_metadata(rt) {
        remove_left(rt, &made, &left)?;
    }
    let file = make(rt, &made)?;
    match lock_alike(&file, &attributes) {
        Ok(()) => Ok((file, Names { old: path, made })),
        Err(error) => {
            remove_file(rt, &made)?;
            Err(error)
        }
    }
}

impl Beside {
    /// The file that was made beside an old one, and is to have its path.
    pub(crate) fn new(old: File, names: Names) -> Beside {
        Beside { old, names }
    }

    /// Gives the new file the old one's path.
    pub(crate) fn take_place(&self, rt: &HostRuntime) -> io::Result<()> {
        rename(rt, &self.names.made, &self.names.old)
    }

    /// The path at which the file is to lie.
    pub(crate) fn path(&self) -> &PathBuf {
        &self.names.old
    }

    /// Takes the new file away, so that the old one stays.
    pub(crate) fn give_up(self, rt: &HostRuntime) {
        let Beside { old, names } = self;
        // One that can't be taken away is left: the old one stays either way.
        let _ = remove_file(rt, &names.made);
        drop(old);
    }
}
