//! The files of a system, opened to be read alone.
ghost use Rattle.std.specs.Prelude.{◌≡◌, false, MatchResult};
ghost use Rattle.host_store.specs.System.{IsNotOpenedOrLocked, IsOpenedAndLocked};

use crate::obstacle::Cause;
use crate::viewer::Viewer;
use host_store::{HostStore, System, SystemFile};
use std::marker::PhantomData;

/// A system that tells why an opening of a file of it failed.
pub trait TellsCause {
    ghost use Rattle.document_tools.specs.declared.obstacle.Cause.{Cause};

    ghost cause: { Self → Cause };

    /// Why the last one failed.
    fn cause(&self) -> Cause
        ensures { result ≡ cause self.now };
}

/// The files of a system, opened to be read alone.
#[derive(Drop)]
pub struct SystemViewer<F: SystemFile, Y: System<F> + TellsCause + Drop> {
    system: Y,
    files: PhantomData<F>,
}

impl<F: SystemFile, Y: System<F> + TellsCause + Drop> SystemViewer<F, Y> {
    /// The files of a system, as it is.
    pub fn new(system: Y) -> SystemViewer<F, Y>
        ensures { result.system ≡ system }
    {
        SystemViewer {
            system,
            files: PhantomData,
        }
    }
}

impl<F: SystemFile, Y: System<F> + TellsCause + Drop> Viewer for SystemViewer<F, Y> {
    type Opened = HostStore<F>;

    // A file that is there is opened and locked; none is made.
    ghost views = { λ old name result new. MatchResult result
        (λ store. IsOpenedAndLocked Y.calls name false old.system store.file new.system)
        (λ cause. IsNotOpenedOrLocked Y.calls name false old.system new.system × (cause ≡ Y.cause new.system)) };

    fn view(&mut self, name: &str) -> Result<HostStore<F>, Cause> {
        match HostStore::open(&mut self.system, name, false) {
            Ok(store) => Ok(store),
            Err(_) => Err(self.system.cause()),
        }
    }
}
