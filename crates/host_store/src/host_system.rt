//! The host's own files.
// No contract can say what they give or take, so they claim no honesty: that they do what an honest file does is shown
// by tests alone.
ghost use Rattle.std.specs.Prelude.{◌≡◌, ◌≤◌, length, IfOk};
ghost use Rattle.host_store.specs.HostSystem.{host_system_facts, host_system_timely};

use crate::beside::{Beside, Identity, has_no_place, lies_at, make_beside};
use crate::paths::{folder_of, followed};
use crate::{System, SystemFault, SystemFile};
use std::fs::{File, OpenOptions, TryLockError};
use std::io;
use std::mem::replace;
use std::os::unix::fs::FileExt;
use std::path::PathBuf;
use vm_store::{Cause, TellsCause};

/// The file that is empty, and takes nothing where it is opened to be read.
const NULL: &str = "/dev/null";

/// The host's own files and folders.
#[derive(Drop)]
pub struct HostSystem {
    rt: HostRuntime,
    guards: Option<Guards>,
    cause: Cause,
    // The file that was locked last, until one is closed.
    held: Option<Identity>,
}

/// What takes the places of standard streams that are closed.
#[derive(Drop)]
struct Guards(File, File, File);

/// A file of the host that was opened and isn't locked.
#[derive(Drop)]
pub struct HostHandle {
    file: File,
    path: PathBuf,
    make: bool,
}

/// A file of the host, locked against every other open of it.
///
/// One that was opened to be made anew, and isn't empty, is left as it is when all of it is cut: the new one is made
/// beside it, and takes its place when it settles. Where that can't be, as of a file with several names, the old one is
/// cut.
#[derive(Drop)]
pub struct HostFile {
    rt: HostRuntime,
    file: File,
    place: Place,
}

/// Where a file lies.
#[derive(Drop)]
enum Place {
    /// At its path, to stay there.
    Settled,
    /// At this path, until all of it is cut.
    Old(PathBuf),
    /// Beside the one whose place it is to take.
    Beside(Beside),
}

impl HostSystem {
    /// The system that the runtime stands on.
    pub fn new(rt: HostRuntime) -> HostSystem {
        HostSystem {
            rt,
            guards: None,
            cause: Cause::Failed,
            held: None,
        }
    }

    // Keeps why an opening failed.
    fn refused(&mut self, cause: Cause) -> SystemFault {
        self.cause = cause;
        SystemFault::Failed
    }

    // Keeps what the system said of an opening that failed.
    fn failed(&mut self, error: io::Error, make: bool) -> SystemFault {
        match error.kind() {
            io::ErrorKind::Interrupted => SystemFault::Interrupted,
            kind => self.refused(cause_of(kind, make)),
        }
    }

    // Who has a file that can't be locked.
    fn holder(&self, file: &File) -> Cause {
        match (&self.held, Identity::of(file)) {
            (Some(held), Ok(other)) if *held == other => Cause::OpenHere,
            _ => Cause::InUse,
        }
    }

    // The folder in which the file of a path lies, or will lie once it is made.
    fn open_folder(&self, path: &str) -> io::Result<File> {
        let path = PathBuf::from_str(self.rt.alloc(), path)?;
        File::open(&self.rt, folder_of(&followed(&self.rt, &path)?))
    }

    fn open_file(&self, path: &str, make: bool) -> io::Result<HostHandle> {
        let mut options = OpenOptions::new();
        options.read(true).write(true).create(make);
        let file = options.open(&self.rt, path)?;
        let path = PathBuf::from_str(self.rt.alloc(), path)?;
        Ok(HostHandle { file, path, make })
    }

    // What was locked may have been another file by then: whoever made it anew had the lock until now.
    fn hold(&self, handle: HostHandle) -> io::Result<HostFile> {
        let HostHandle { file, path, make } = handle;
        if !lies_at(&self.rt, &file, &path)? {
            return Err(io::Error::from(io::ErrorKind::WouldBlock));
        }
        let place = if make && file.metadata()?.len() > 0 {
            Place::Old(path)
        } else {
            Place::Settled
        };
        Ok(HostFile {
            rt: self.rt,
            file,
            place,
        })
    }
}

impl HostFile {
    // Goes on in an empty file beside the old one, where that can be.
    fn begin_anew(&mut self) -> io::Result<()> {
        match replace(&mut self.place, Place::Settled) {
            Place::Old(path) => match make_beside(&self.rt, &self.file, &path) {
                Ok((file, names)) => {
                    let old = replace(&mut self.file, file);
                    self.place = Place::Beside(Beside::new(old, names));
                    Ok(())
                }
                Err(error) if has_no_place(error.kind()) => Ok(()),
                Err(error) => {
                    self.place = Place::Old(path);
                    Err(error)
                }
            },
            place => {
                self.place = place;
                Ok(())
            }
        }
    }

    // The names in the folder are synced once more, since one of them leads to another file now.
    fn take_place(&mut self) -> io::Result<()> {
        let Place::Beside(beside) = &self.place else {
            return Ok(());
        };
        beside.take_place(&self.rt)?;
        let folder = File::open(&self.rt, folder_of(beside.path()));
        self.place = Place::Settled;
        folder?.sync_all()
    }
}

fn open_guards(rt: &HostRuntime) -> io::Result<Guards> {
    let first = File::open(rt, NULL)?;
    let second = File::open(rt, NULL)?;
    let third = File::open(rt, NULL)?;
    Ok(Guards(first, second, third))
}

// Why a file isn't opened, by what the system says. One that is to be made, and isn't there, has no folder.
fn cause_of(kind: io::ErrorKind, make: bool) -> Cause {
    match kind {
        io::ErrorKind::NotFound if make => Cause::NoFolder,
        io::ErrorKind::NotFound => Cause::Missing,
        io::ErrorKind::NotADirectory => Cause::NoFolder,
        io::ErrorKind::IsADirectory => Cause::Folder,
        io::ErrorKind::PermissionDenied => Cause::Forbidden,
        io::ErrorKind::ReadOnlyFilesystem => Cause::ReadOnly,
        io::ErrorKind::InvalidFilename => Cause::LongName,
        io::ErrorKind::FilesystemLoop => Cause::Links,
        io::ErrorKind::StorageFull | io::ErrorKind::QuotaExceeded => Cause::Full,
        io::ErrorKind::WouldBlock => Cause::InUse,
        _ => Cause::Failed,
    }
}

fn fault(error: io::Error) -> SystemFault {
    match error.kind() {
        io::ErrorKind::Interrupted => SystemFault::Interrupted,
        _ => SystemFault::Failed,
    }
}

impl TellsCause for HostSystem {
    ghost cause = { λ system. system.cause };

    fn cause(&self) -> Cause {
        self.cause
    }
}

impl System<HostFile> for HostSystem {
    type Handle = HostHandle;

    // Of what the machine does nothing is known.
    ghost calls = { record {
      guards = λ old result new. Unit {0};
      opens = λ old path make result new. Unit {0};
      syncs_folder = λ old path result new. Unit {0};
      locks = λ old handle result new. Unit {0};
      closes = λ old file new. Unit {0};
    } };

    // The machine gives a file that is opened the least number that is free, so that where a standard stream is closed
    // the next file would be taken for it. From a closed standard input a script of no line is read then, and nothing
    // can be written to a closed standard output or standard error.
    fn guard_streams(&mut self) -> Result<(), SystemFault> {
        if self.guards.is_none() {
            match open_guards(&self.rt) {
                Ok(guards) => self.guards = Some(guards),
                Err(error) => return Err(self.failed(error, false)),
            }
        }
        Ok(())
    }

    // No file is made in a folder that can't be synced afterwards.
    fn open(&mut self, path: &str, make: bool) -> Result<HostHandle, SystemFault> {
        if make && let Err(error) = self.open_folder(path) {
            return Err(self.failed(error, make));
        }
        match self.open_file(path, make) {
            Ok(handle) => Ok(handle),
            Err(error) => Err(self.failed(error, make)),
        }
    }

    fn sync_folder(&mut self, path: &str) -> Result<(), SystemFault> {
        match self.open_folder(path).and_then(|folder| folder.sync_all()) {
            Ok(()) => Ok(()),
            Err(error) => Err(self.failed(error, true)),
        }
    }

    fn lock(&mut self, handle: HostHandle) -> Result<HostFile, SystemFault> {
        match handle.file.try_lock() {
            Ok(()) => {}
            Err(TryLockError::WouldBlock) => {
                let holder = self.holder(&handle.file);
                return Err(self.refused(holder));
            }
            Err(TryLockError::Error(error)) => return Err(self.failed(error, false)),
        }
        match self.hold(handle) {
            Ok(file) => {
                self.held = Identity::of(&file.file).ok();
                Ok(file)
            }
            Err(error) => Err(self.failed(error, false)),
        }
    }

    fn close(&mut self, file: HostFile) {
        self.held = None;
        let HostFile { file, place, .. } = file;
        if let Place::Beside(beside) = place {
            beside.give_up(&self.rt);
        }
        drop(file);
    }
}

impl SystemFile for HostFile {
    ghost facts = { λ file. host_system_facts };

    ghost timely = { λ file honest. host_system_timely };

    fn len(&mut self) -> Result<u64, SystemFault> {
        match self.file.metadata() {
            Ok(metadata) => Ok(metadata.len()),
            Err(error) => Err(fault(error)),
        }
    }

    fn read_at(&mut self, at: u64, buffer: &mut [u8]) -> Result<usize, SystemFault> {
        self.file.read_at(buffer, at).map_err(fault)
    }

    /// A system that takes none of the bytes, though there are some, has failed.
    fn write_at(&mut self, at: u64, bytes: &[u8]) -> Result<usize, SystemFault> {
        match self.file.write_at(bytes, at) {
            Ok(0) if !bytes.is_empty() => Err(SystemFault::Failed),
            Ok(written) => Ok(written),
            Err(error) => Err(fault(error)),
        }
    }

    fn set_len(&mut self, n: u64) -> Result<(), SystemFault> {
        if n == 0 {
            self.begin_anew().map_err(fault)?;
        }
        self.file.set_len(n).map_err(fault)
    }

    fn sync(&mut self) -> Result<(), SystemFault> {
        self.file.sync_all().map_err(fault)
    }

    fn settle(&mut self) -> Result<(), SystemFault> {
        self.file.sync_all().map_err(fault)?;
        self.take_place().map_err(fault)
    }
}
