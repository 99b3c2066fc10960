//! The host's files, opened to be read alone.
// No contract can say what they give, so they claim no honesty, as those that `geosvm` writes.
ghost use Rattle.host_store.specs.HostSystem.{host_system_facts, host_system_timely};

use document_tools::{Cause, SystemViewer, TellsCause};
use host_store::{System, SystemFault, SystemFile};
use std::fs::{File, TryLockError, metadata};
use std::io;
use std::os::unix::fs::FileExt;

/// The host's own files, to be read alone.
#[derive(Drop)]
pub struct ReadOnlySystem {
    rt: HostRuntime,
    cause: Cause,
}

/// A file that was opened and isn't locked.
#[derive(Drop)]
pub struct ReadOnlyHandle {
    file: File,
}

/// A file of the host, locked against being opened to be written; others may read it too.
#[derive(Drop)]
pub struct ReadOnlyFile {
    file: File,
}

impl ReadOnlySystem {
    fn refused(&mut self, cause: Cause) -> SystemFault {
        self.cause = cause;
        SystemFault::Failed
    }

    fn failed(&mut self, error: io::Error) -> SystemFault {
        match error.kind() {
            io::ErrorKind::Interrupted => SystemFault::Interrupted,
            io::ErrorKind::NotFound => self.refused(Cause::Missing),
            io::ErrorKind::PermissionDenied => self.refused(Cause::Forbidden),
            _ => self.refused(Cause::Failed),
        }
    }
}

/// The files of this machine, opened to be read alone.
pub fn read_only_files(rt: &HostRuntime) -> SystemViewer<ReadOnlyFile, ReadOnlySystem> {
    SystemViewer::new(ReadOnlySystem {
        rt: *rt,
        cause: Cause::Failed,
    })
}

impl TellsCause for ReadOnlySystem {
    ghost cause = { λ system. system.cause };

    fn cause(&self) -> Cause {
        self.cause
    }
}

fn fault(error: io::Error) -> SystemFault {
    match error.kind() {
        io::ErrorKind::Interrupted => SystemFault::Interrupted,
        _ => SystemFault::Failed,
    }
}

impl System<ReadOnlyFile> for ReadOnlySystem {
    type Handle = ReadOnlyHandle;

    // Of what the machine does nothing is known.
    ghost calls = { record {
      guards = λ old result new. Unit {0};
      opens = λ old path make result new. Unit {0};
      syncs_folder = λ old path result new. Unit {0};
      locks = λ old handle result new. Unit {0};
      closes = λ old file new. Unit {0};
    } };

    /// No file is opened that something could be written to.
    fn guard_streams(&mut self) -> Result<(), SystemFault> {
        Ok(())
    }

    /// Nothing is made. What isn't a regular file isn't opened, since a pipe would make the program wait.
    fn open(&mut self, path: &str, make: bool) -> Result<ReadOnlyHandle, SystemFault> {
        let _ = make;
        match metadata(&self.rt, path) {
            Ok(metadata) if !metadata.is_file() => return Err(self.refused(Cause::NoFile)),
            Ok(_) => {}
            Err(error) => return Err(self.failed(error)),
        }
        match File::open(&self.rt, path) {
            Ok(file) => Ok(ReadOnlyHandle { file }),
            Err(error) => Err(self.failed(error)),
        }
    }

    fn sync_folder(&mut self, path: &str) -> Result<(), SystemFault> {
        let _ = path;
        Err(SystemFault::Failed)
    }

    fn lock(&mut self, handle: ReadOnlyHandle) -> Result<ReadOnlyFile, SystemFault> {
        match handle.file.try_lock_shared() {
            Ok(()) => Ok(ReadOnlyFile { file: handle.file }),
            Err(TryLockError::WouldBlock) => Err(self.refused(Cause::InUse)),
            Err(TryLockError::Error(error)) => Err(self.failed(error)),
        }
    }

    fn close(&mut self, file: ReadOnlyFile) {
        drop(file);
    }
}

impl SystemFile for ReadOnlyFile {
    ghost facts = { λ file. host_system_facts };

    ghost timely = { λ file honest. host_system_timely };

    fn len(&mut self) -> Result<u64, SystemFault> {
        match self.file.metadata() {
            Ok(metadata) => Ok(metadata.len()),
            Err(error) => Err(fault(error)),
        }
    }

    fn read_at(&mut self, at: u64, buffer: &mut [u8]) -> Result<usize, SystemFault> {
        self.file.read_at(buffer, at).map_err(fault)
    }

    /// Nothing is written.
    fn write_at(&mut self, at: u64, bytes: &[u8]) -> Result<usize, SystemFault> {
        Err(SystemFault::Failed)
    }

    /// Nothing is cut.
    fn set_len(&mut self, n: u64) -> Result<(), SystemFault> {
        let _ = n;
        Err(SystemFault::Failed)
    }

    /// There is nothing to sync.
    fn sync(&mut self) -> Result<(), SystemFault> {
        Ok(())
    }
}
