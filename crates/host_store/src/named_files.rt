//! Files that keep which of them wasn't opened.
ghost use Rattle.std.specs.Prelude.{◌≡◌, MatchResult, None};
ghost use Rattle.std.specs.Option.{option_copied};
ghost use Rattle.host_store.specs.Unopened.{IsKept};

use std::alloc::Global;
use std::fmt;
use vm_store::{Cause, Files, StoreFault, TellsCause};

/// A file that wasn't opened, and why.
#[derive(Drop)]
pub struct Unopened {
    /// Its name, as it was given.
    pub name: String,
    /// Why it wasn't opened.
    pub cause: Cause,
}

/// What is told of it: its name and the cause.
impl fmt::Display for Unopened {
    ghost use Rattle.std.specs.Prelude.{Some};
    ghost use Rattle.host_store.specs.Unopened.{unopened_text};

    ghost output = { λ unopened. Some (unopened_text unopened) };

    fn fmt<W: fmt::Write>(&self, f: &mut fmt::Formatter<W>) -> fmt::Result {
        f.write_str(&self.name)?;
        f.write_str(": ")?;
        f.write_str(self.cause.text())
    }
}

/// Files of another, which are opened as they are there, with the one that wasn't opened last.
#[derive(Drop)]
pub struct NamedFiles<F: Files + TellsCause + Drop> {
    files: F,
    alloc: Global,
    unopened: Option<Unopened>,
}

impl<F: Files + TellsCause + Drop> NamedFiles<F> {
    /// The files, as they are.
    pub fn new(alloc: Global, files: F) -> NamedFiles<F>
        ensures { (result.files ≡ files) × (result.unopened ≡ None) }
    {
        NamedFiles {
            files,
            alloc,
            unopened: None,
        }
    }

    /// The file that wasn't opened last. There is none where each was, or there was no memory for its name.
    pub fn unopened(&self) -> Option<&Unopened>
        ensures { option_copied result ≡ self.now.unopened }
    {
        self.unopened.as_ref()
    }

    // Keeps that a file wasn't opened.
    fn keep(&mut self, name: &str)
        ensures files { self.new.files ≡ self.old.files }
        ensures kept { IsKept name.now (F.cause self.old.files) self.new.unopened }
    {
        let cause = self.files.cause();
        self.unopened = match String::from_str(self.alloc, name) {
            Ok(name) => Some(Unopened { name, cause }),
            Err(_) => None,
        };
    }
}

impl<F: Files + TellsCause + Drop> Files for NamedFiles<F> {
    type Opened = F::Opened;

    // Just the calls of the other are made; one that isn't opened is kept.
    ghost calls = { record {
      guards = λ old result new. F.calls.guards old.files result new.files × (new.unopened ≡ old.unopened);
      opens = λ old name make result new. F.calls.opens old.files name make result new.files
          × MatchResult result (λ _. new.unopened ≡ old.unopened)
          (λ _. IsKept name (F.cause new.files) new.unopened);
      closes = λ old store new. F.calls.closes old.files store new.files × (new.unopened ≡ old.unopened);
    } };

    fn guard_streams(&mut self) -> Result<(), StoreFault> {
        self.files.guard_streams()
    }

    fn open(&mut self, name: &str, make: bool) -> Result<F::Opened, StoreFault> {
        let opened = self.files.open(name, make);
        if opened.is_err() {
            self.keep(name);
        }
        opened
    }

    fn close(&mut self, store: F::Opened) {
        self.files.close(store);
    }
}
