//! A file in memory whose calls are cut short and interrupted, which shows that what is promised of a file can be met.
ghost use Rattle.std.specs.Prelude.{◌≡◌, ◌+◌, ◌<◌, ◌≤◌, List, Some, false, not, IsTrue, length, OnOk, IfOk};
ghost use Rattle.vm_store.specs.Facts.{raised, IsDurable, IsUnchanged, Writes, Elapses, Sizes};
ghost use Rattle.test_stores.specs.History.{fresh};
ghost use Rattle.host_store.specs.System.{CountsFailure, IsInterrupted, HasFailed, Idles, Reads, WritesTo, WritesPart};
ghost use Rattle.test_stores.specs.Pieces.{pieces_facts, pieces_timely};

use crate::MemStore;
use host_store::{System, SystemFault, SystemFile};
use std::marker::Model;
use vm_store::Store;

/// How a file in pieces serves its calls.
#[derive(Clone, Copy)]
pub struct Pace {
    /// The most bytes that a call moves, and one where this is none.
    pub piece: usize,
    /// Of so many calls the last is interrupted; none is where this is 0.
    pub every: u64,
    /// How many syncs succeed before one fails. Those behind it succeed again.
    pub syncs: u64,
}

/// A file in memory, honest, for tests. It serves its calls in pieces, and interrupts some of them: a write that is
/// interrupted has written its piece, and doesn't tell so. One sync fails, and does nothing; the file doesn't do any
/// worse then.
#[derive(Drop)]
pub struct PiecewiseFile {
    store: MemStore,
    pace: Pace,
    calls: u64,
    failures: u64,
    interruptions: u64,
    has_failed_sync: bool,
}

impl Model for PiecewiseFile {
    ghost use Rattle.test_stores.specs.Pieces.{Pieces};

    ghost Value = { Pieces };

    ghost view = { λ f. record {
      store = f.store;
      calls = f.calls;
      failures = f.failures;
      interruptions = f.interruptions;
      has_failed_sync = f.has_failed_sync;
    } };
}

impl PiecewiseFile {
    pub fn new(store: MemStore, pace: Pace) -> PiecewiseFile
        ensures { result ≡ record {
          store = store;
          calls = 0;
          failures = 0;
          interruptions = 0;
          has_failed_sync = false;
        } }
    {
        PiecewiseFile {
            store,
            pace,
            calls: 0,
            failures: 0,
            interruptions: 0,
            has_failed_sync: false,
        }
    }

    // Counts a call, and says whether it is interrupted.
    fn is_interrupted(&mut self) -> bool
        ensures stays { IsTrue (not result) → self.new ≡ record self.old { calls = self.new.calls } }
        ensures counted { IsTrue result
            → self.new ≡ record self.old { calls = self.new.calls; interruptions = self.old.interruptions + 1 } }
    {
        self.calls = self.calls.wrapping_add(1);
        if self.pace.every == 0
            || self.calls % self.pace.every != 0
            || self.interruptions == u64::MAX
        {
            return false;
        }
        self.interruptions += 1;
        true
    }

    // Counts a call that fails.
    fn fail(&mut self) -> SystemFault
        ensures fault { result ≡ SystemFault.Failed }
        ensures counted { self.new ≡ record self.old { failures = raised self.old.failures } }
    {
        self.failures = self.failures.saturating_add(1);
        SystemFault::Failed
    }

    // Whether this sync is the one that fails.
    fn fails_sync(&mut self) -> bool
        ensures { self.new ≡ self.old }
    {
        if self.pace.syncs == 0 && !self.has_failed_sync {
            return true;
        }
        self.pace.syncs = self.pace.syncs.saturating_sub(1);
        false
    }
}

impl SystemFile for PiecewiseFile {
    ghost facts = { pieces_facts };

    ghost timely = { λ f honest. pieces_timely f };

    fn len(&mut self) -> Result<u64, SystemFault> {
        if self.is_interrupted() {
            return Err(SystemFault::Interrupted);
        }
        match self.store.len() {
            Ok(n) => Ok(n),
            Err(_) => Err(self.fail()),
        }
    }

    fn read_at(&mut self, at: u64, buffer: &mut [u8]) -> Result<usize, SystemFault> {
        if self.is_interrupted() {
            return Err(SystemFault::Interrupted);
        }
        let left = self.store.bytes().len().saturating_sub(at as usize);
        let piece = self.pace.piece.max(1).min(buffer.len()).min(left);
        if piece == 0 {
            return Ok(0);
        }
        match self.store.read_at(at, &mut buffer[..piece]) {
            Ok(()) => Ok(piece),
            Err(_) => Err(self.fail()),
        }
    }

    fn write_at(&mut self, at: u64, bytes: &[u8]) -> Result<usize, SystemFault> {
        let piece = self.pace.piece.max(1).min(bytes.len());
        match self.store.write_at(at, &bytes[..piece]) {
            Ok(()) if self.is_interrupted() => Err(SystemFault::Interrupted),
            Ok(()) => Ok(piece),
            Err(_) => Err(self.fail()),
        }
    }

    fn set_len(&mut self, n: u64) -> Result<(), SystemFault> {
        if self.is_interrupted() {
            return Err(SystemFault::Interrupted);
        }
        let answer = if self.store.bytes().len() as u64 <= n {
            self.store.write_at(n, &[])
        } else {
            self.store.set_len(n)
        };
        match answer {
            Ok(()) => Ok(()),
            Err(_) => Err(self.fail()),
        }
    }

    fn sync(&mut self) -> Result<(), SystemFault> {
        if self.is_interrupted() {
            return Err(SystemFault::Interrupted);
        }
        if self.fails_sync() {
            self.has_failed_sync = true;
            return Err(self.fail());
        }
        match self.store.sync() {
            Ok(()) => Ok(()),
            Err(_) => {
                self.has_failed_sync = true;
                Err(self.fail())
            }
        }
    }
}

/// A file in pieces that was opened and isn't locked.
#[derive(Drop)]
pub struct PiecewiseHandle {
    store: MemStore,
}

/// A system in memory with one file, for tests, whatever its path, which can be opened while it isn't open. Its calls
/// are interrupted as the file's are. Of those that aren't, the first `passes` succeed, and then all fail.
#[derive(Drop)]
pub struct PiecewiseSystem {
    store: Option<MemStore>,
    pace: Pace,
    passes: u64,
    calls: u64,
    served: u64,
}

impl PiecewiseSystem {
    /// The file has what the store holds.
    pub fn new(store: MemStore, pace: Pace, passes: u64) -> PiecewiseSystem
        ensures { result ≡ record { store = Some store; pace = pace; passes = passes; calls = 0; served = 0 } }
    {
        PiecewiseSystem {
            store: Some(store),
            pace,
            passes,
            calls: 0,
            served: 0,
        }
    }

    // Serves a call, unless it isn't among those that pass.
    fn pass(&mut self) -> Result<(), SystemFault>
        ensures stays { self.new ≡ record self.old { served = self.new.served } }
        ensures served { OnOk result (self.new.served ≡ raised self.old.served) }
    {
        if self.served == self.passes {
            return Err(SystemFault::Failed);
        }
        self.served = self.served.saturating_add(1);
        Ok(())
    }

    // Counts a call that may be interrupted, and serves it if it isn't.
    fn serve(&mut self) -> Result<(), SystemFault>
        ensures store { self.new.store ≡ self.old.store }
        ensures served { OnOk result (self.new.served ≡ raised self.old.served) }
    {
        self.calls = self.calls.wrapping_add(1);
        if self.pace.every != 0 && self.calls % self.pace.every == 0 {
            return Err(SystemFault::Interrupted);
        }
        self.pass()
    }
}

impl System<PiecewiseFile> for PiecewiseSystem {
    type Handle = PiecewiseHandle;

    ghost calls = { record {
      guards = λ old result new. new ≡ old;
      opens = λ old path make result new. IfOk result
          (λ handle. (old.store ≡ Some handle.store) × (new.served ≡ raised old.served));
      syncs_folder = λ old path result new. OnOk result (new.served ≡ raised old.served);
      locks = λ old handle result new. IfOk result
          (λ file. (file.store ≡ handle.store) × (new.served ≡ raised old.served));
      closes = λ old file new. new ≡ record old { store = Some file.store };
    } };

    fn guard_streams(&mut self) -> Result<(), SystemFault> {
        Ok(())
    }

    fn open(&mut self, _path: &str, _make: bool) -> Result<PiecewiseHandle, SystemFault> {
        self.serve()?;
        match self.store.take() {
            Some(store) => Ok(PiecewiseHandle { store }),
            None => Err(SystemFault::Failed),
        }
    }

    fn sync_folder(&mut self, _path: &str) -> Result<(), SystemFault> {
        self.serve()
    }

    fn lock(&mut self, handle: PiecewiseHandle) -> Result<PiecewiseFile, SystemFault> {
        self.pass()?;
        Ok(PiecewiseFile::new(handle.store, self.pace))
    }

    /// It can be opened again.
    fn close(&mut self, file: PiecewiseFile) {
        self.store = Some(file.store);
    }
}
