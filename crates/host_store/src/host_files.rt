//! The files of a system.
ghost use Rattle.std.specs.Prelude.{◌≡◌, MatchResult, Ok, Err};
ghost use Rattle.host_store.specs.declared.system.SystemFault.{SystemFault as Cause};
ghost use Rattle.host_store.specs.System.{IsNotOpenedOrLocked, IsOpenedAndLocked};

use crate::{HostFile, HostStore, HostSystem, System, SystemFile};
use std::marker::PhantomData;
use std::rt::HostRuntime;
use vm_store::{Cause, Files, StoreFault, TellsCause};

/// The files of a system, each locked while it is open, for a program that may have been started with closed standard
/// streams.
#[derive(Drop)]
pub struct HostFiles<F: SystemFile, Y: System<F> + Drop> {
    system: Y,
    files: PhantomData<F>,
}

impl<F: SystemFile, Y: System<F> + Drop> HostFiles<F, Y> {
    /// The files of a system, as it is.
    pub fn new(system: Y) -> HostFiles<F, Y>
        ensures { result.system ≡ system }
    {
        HostFiles {
            system,
            files: PhantomData,
        }
    }

    /// The system, as the calls so far have left it.
    pub fn system(&self) -> &Y
        ensures { result.now ≡ self.now.system }
    {
        &self.system
    }
}

/// The files of this machine.
pub fn machine_files(rt: &HostRuntime) -> HostFiles<HostFile, HostSystem> {
    HostFiles::new(HostSystem::new(*rt))
}

impl<F: SystemFile, Y: System<F> + Drop> Files for HostFiles<F, Y> {
    type Opened = HostStore<F>;

    // Just the calls of the system are made that have these names; a file is opened by those that open and lock it.
    ghost calls = { record {
      guards = λ old result new. MatchResult result
          (λ _. Y.calls.guards old.system (Ok tt) new.system)
          (λ _. (cause : Cause) × Y.calls.guards old.system (Err cause) new.system);
      opens = λ old name make result new. MatchResult result
          (λ store. IsOpenedAndLocked Y.calls name make old.system store.file new.system)
          (λ _. IsNotOpenedOrLocked Y.calls name make old.system new.system);
      closes = λ old store new. Y.calls.closes old.system store.file new.system;
    } };

    fn guard_streams(&mut self) -> Result<(), StoreFault> {
        self.system.guard_streams().map_err(|_| StoreFault)
    }

    fn open(&mut self, name: &str, make: bool) -> Result<HostStore<F>, StoreFault> {
        HostStore::open(&mut self.system, name, make)
    }

    fn close(&mut self, store: HostStore<F>) {
        self.system.close(store.into_file());
    }
}

impl<F: SystemFile, Y: System<F> + TellsCause + Drop> TellsCause for HostFiles<F, Y> {
    ghost cause = { λ files. Y.cause files.system };

    fn cause(&self) -> Cause {
        self.system.cause()
    }
}
