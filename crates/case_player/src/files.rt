//! The files of the program: `document` is the one that there is, `copy` the target, and no other can be opened but is
//! made, except for one by the name of `shut`.
use std::alloc::Global;
use vm_store::{Files, Store, StoreFault};

/// The files that the program can open.
#[derive(Drop)]
pub struct ProgramFiles<S: Store> {
    document: Option<S>,
    copy: Option<S>,
    /// Empty files, for those that are made.
    empty: Vec<S>,
    /// Whether the standard streams can be guarded.
    can_guard: bool,
    /// What was asked for, a word a call: the streams are guarded, a file is opened, one is opened or made.
    pub(crate) asked: String,
    /// What was closed, in this order.
    pub(crate) closed: Vec<S>,
}

impl<S: Store> ProgramFiles<S> {
    pub(crate) fn new(
        alloc: Global,
        document: Option<S>,
        copy: Option<S>,
        empty: Vec<S>,
        can_guard: bool,
    ) -> ProgramFiles<S> {
        ProgramFiles {
            document,
            copy,
            empty,
            can_guard,
            asked: String::new(alloc),
            closed: Vec::new(alloc),
        }
    }

    fn note(&mut self, word: &str, name: &str) -> Result<(), StoreFault> {
        for part in [word, name] {
            if self.asked.push_str(part).is_err() {
                return Err(StoreFault);
            }
        }
        Ok(())
    }

    // The file that there is by a name, which can be opened once.
    fn take(&mut self, name: &str) -> Option<S> {
        match name {
            "document" => self.document.take(),
            "copy" => self.copy.take(),
            _ => None,
        }
    }

    // A new file by a name.
    fn make(&mut self, name: &str) -> Option<S> {
        if name == "shut" {
            return None;
        }
        self.empty.pop()
    }
}

impl<S: Store> Files for ProgramFiles<S> {
    type Opened = S;

    ghost calls = { record {
      guards = λ old result new. Unit {0};
      opens = λ old name make result new. Unit {0};
      closes = λ old store new. Unit {0};
    } };

    fn guard_streams(&mut self) -> Result<(), StoreFault> {
        self.note("guard", "")?;
        if self.can_guard {
            Ok(())
        } else {
            Err(StoreFault)
        }
    }

    fn open(&mut self, name: &str, make: bool) -> Result<S, StoreFault> {
        self.note(if make { " make:" } else { " open:" }, name)?;
        match self.take(name) {
            Some(file) => Ok(file),
            None if make => self.make(name).ok_or(StoreFault),
            None => Err(StoreFault),
        }
    }

    fn close(&mut self, store: S) {
        let _ = self.closed.push(store);
    }
}
