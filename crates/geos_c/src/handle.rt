//! What C holds of a session: a struct of its own memory, which owns a box where it is open.
ghost use Rattle.std.specs.Prelude.{◌≡◌, true, false};
ghost use Rattle.std.specs.Option.{MatchOption};
ghost use Rattle.geos_c.specs.Owning.{kept_row};
ghost use Rattle.geos_c.specs.Stores.{FileStore};
ghost use Rattle.c_sessions.specs.declared.kept.Kept.{Kept as KeptIn};

use crate::channel::ChannelFile;
use crate::loose::Loose;
use c_sessions::Kept;
use host_store::HostStore;
use std::alloc::Global;
use std::marker::Model;
use std::mem::replace;
use std::ptr::null_mut;

/// What lies behind an open handle.
type KeptSession = Kept<HostStore<ChannelFile>>;

/// A struct of zeros is a closed one. Dropping an open one would forget its session.
#[repr(C)]
#[derive(Drop)]
pub struct Handle {
    at: *mut u8,
    is_open: bool,
    /// What the box has, where it is open.
    pub(crate) ghost kept: { KeptIn FileStore } by { kept_row.coded },
}

impl Model for Handle {
    ghost use Rattle.geos_c.specs.Owning.{held, kept_row};

    ghost also_owns = { λ h. held kept_row h.is_open h.at h.kept };
}

impl Handle {
    fn closed(at: *mut u8) -> Handle
        ensures { result.is_open ≡ false }
    {
        Handle { at, is_open: false }
    }

    fn of(loose: Loose<KeptSession, Global>) -> Handle
        ensures { (result.is_open ≡ true) × (result.kept ≡ loose.value) }
    {
        let Loose { at, alloc: _ } = loose;
        Handle {
            at: at as *mut u8,
            is_open: true,
        }
    }

    fn into_loose(self, alloc: Global) -> Loose<KeptSession, Global>
        requires { self.is_open ≡ true }
        ensures { result.value ≡ self.kept }
    {
        let Handle { at, is_open: _ } = self;
        Loose {
            at: at as *mut KeptSession,
            alloc,
        }
    }

    pub(crate) fn is_open(&mut self) -> bool
        ensures { (result ≡ self.old.is_open) × (self.new ≡ self.old) }
    {
        self.is_open
    }
}

fn null() -> *mut u8 {
    null_mut()
}

/// Takes out what lies behind a handle, which is closed from then on.
pub(crate) fn take(handle: &mut Handle, alloc: Global) -> Option<Box<KeptSession>>
    ensures closed { handle.new.is_open ≡ false }
    ensures was_open { MatchOption result (handle.old.is_open ≡ false)
        (λ kept. (handle.old.is_open ≡ true) × (kept.value ≡ handle.old.kept)) }
{
    let is_open = handle.is_open();
    let closed = Handle::closed(null());
    if !is_open {
        *handle = closed;
        return None;
    }
    let taken = replace(handle, closed);
    Some(taken.into_loose(alloc).into_box())
}

/// Puts a session behind a handle.
pub(crate) fn put(handle: &mut Handle, kept: Box<KeptSession>)
    requires { handle.old.is_open ≡ false }
    ensures { (handle.new.is_open ≡ true) × (handle.new.kept ≡ kept.value) }
{
    *handle = Handle::of(Loose::of(kept));
}
