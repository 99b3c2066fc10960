//! Files of the program's, by numbers of its own, behind a channel: each call is a message, answered at once.
ghost use Rattle.std.specs.Prelude.{◌≡◌};
ghost use Rattle.host_store.specs.HostSystem.{host_system_facts, host_system_timely};
ghost use Rattle.geos_c.specs.Stores.{channel_calls, channel_system_calls, store_on};

use crate::message::{Operation, message};
use byteorder::{ByteOrder, LittleEndian};
use c_sessions::{FileNumber, ProgramFiles};
use host_store::{HostStore, System, SystemFault, SystemFile};
use vm_store::StoreFault;

/// The files of the program. There is no other way to one of them.
#[derive(Drop)]
pub(crate) struct Channel;

/// A file that the program has and goes on to own, so that it isn't closed here. No contract says what it gives and
/// takes.
#[derive(Drop)]
pub(crate) struct ChannelFile {
    number: FileNumber,
}

/// The number that a program gives for a file, whose path and lock are its own.
#[derive(Drop)]
struct ChannelSystem {
    number: FileNumber,
}

/// What the program is told in place of a session's own number where it is on no file yet.
const NO_FILE: i32 = -1;

// What was not moved whole has failed.
fn succeeded(is_whole: bool) -> Result<(), SystemFault> {
    if is_whole {
        Ok(())
    } else {
        Err(SystemFault::Failed)
    }
}

// What a message asks for is done where it is taken, but for the bytes, which are moved next.
fn ask(number: i32, operation: Operation, at: u64, size: u64) -> Result<(), SystemFault> {
    succeeded(io::write_all(number, &message(operation, at, size)))
}

impl ChannelFile {
    fn ask(&self, operation: Operation, at: u64, size: u64) -> Result<(), SystemFault> {
        ask(self.number.0, operation, at, size)
    }
}

impl SystemFile for ChannelFile {
    ghost facts = { λ file. host_system_facts };

    ghost timely = { λ file honest. host_system_timely };

    fn len(&mut self) -> Result<u64, SystemFault> {
        self.ask(Operation::Len, 0, 0)?;
        let mut len = [0; 8];
        let count = io::read_full(self.number.0, &mut len);
        succeeded(count == len.len())?;
        Ok(LittleEndian::read_u64(&len))
    }

    /// It carries on where the program gives a part, until the file ends.
    fn read_at(&mut self, at: u64, buffer: &mut [u8]) -> Result<usize, SystemFault> {
        self.ask(Operation::Read, at, buffer.len() as u64)?;
        let count = io::read_full(self.number.0, buffer);
        if count < buffer.len() {
            self.ask(Operation::ReadEnd, 0, 0)?;
        }
        Ok(count)
    }

    /// It carries on where the program takes a part, and fails where it takes none of the bytes that are left.
    fn write_at(&mut self, at: u64, bytes: &[u8]) -> Result<usize, SystemFault> {
        self.ask(Operation::Write, at, bytes.len() as u64)?;
        succeeded(io::write_all(self.number.0, bytes))?;
        Ok(bytes.len())
    }

    fn set_len(&mut self, n: u64) -> Result<(), SystemFault> {
        self.ask(Operation::SetLen, 0, n)
    }

    fn sync(&mut self) -> Result<(), SystemFault> {
        self.ask(Operation::Sync, 0, 0)
    }
}

impl System<ChannelFile> for ChannelSystem {
    type Handle = FileNumber;

    ghost calls = { channel_system_calls };

    /// The program's streams are its own.
    fn guard_streams(&mut self) -> Result<(), SystemFault> {
        Ok(())
    }

    fn open(&mut self, _path: &str, _make: bool) -> Result<FileNumber, SystemFault> {
        Ok(self.number)
    }

    fn sync_folder(&mut self, _path: &str) -> Result<(), SystemFault> {
        Ok(())
    }

    fn lock(&mut self, handle: FileNumber) -> Result<ChannelFile, SystemFault> {
        Ok(ChannelFile { number: handle })
    }

    /// The file stays the program's, and open.
    fn close(&mut self, file: ChannelFile) {
        drop(file);
    }
}

// Asks whether a session that is on no file yet, or on its own, may be on another.
fn begin(number: FileNumber, own: Option<FileNumber>) -> Result<(), StoreFault> {
    let own = own.map_or(NO_FILE, |own| own.0);
    let at = i64::from(own).cast_unsigned();
    ask(number.0, Operation::Begin, at, 0).map_err(|_| StoreFault)
}

// The store on a file of the program's, of which no call has failed yet.
fn store(number: FileNumber) -> HostStore<ChannelFile>
    ensures { result ≡ store_on number }
{
    let mut given = ChannelSystem { number };
    match HostStore::open(&mut given, "", false) {
        Ok(store) => store,
        Err(_) => unreachable!(),
    }
}

impl ProgramFiles for Channel {
    type Opened = HostStore<ChannelFile>;

    ghost calls = { channel_calls };

    /// The program may refuse it.
    fn open(
        &mut self,
        number: FileNumber,
        own: Option<FileNumber>,
    ) -> Result<HostStore<ChannelFile>, StoreFault> {
        begin(number, own)?;
        Ok(store(number))
    }

    /// The program's file stays open.
    fn close(&mut self, store: HostStore<ChannelFile>) {
        drop(store);
    }
}
