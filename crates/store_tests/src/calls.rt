//! Calls of any store, of which some fail.
use std::alloc::AllocError;
use vm_store::{Store, StoreFault};

pub(crate) fn failed_since<T>(answer: &Result<T, StoreFault>) -> bool {
    answer.is_err()
}

/// A call of a store.
#[derive(Clone, Copy)]
pub(crate) enum Call<'a> {
    /// It has so many bytes.
    Len(u64),
    /// These bytes are read, sixteen at most.
    Read(u64, &'a [u8]),
    Write(u64, &'a [u8]),
    SetLen(u64),
    Sync,
}

// Whether these bytes are read.
fn is_read<S: Store>(store: &mut S, at: u64, bytes: &[u8]) -> Result<bool, StoreFault> {
    let mut buffer = [9; 16];
    let part = &mut buffer[..bytes.len().min(16)];
    store.read_at(at, part)?;
    Ok(&*part == bytes)
}

// Makes a call. Returns whether the answer is as it says.
fn is_answered<S: Store>(store: &mut S, call: Call<'_>) -> Result<bool, StoreFault> {
    match call {
        Call::Len(n) => Ok(store.len()? == n),
        Call::Read(at, bytes) => is_read(store, at, bytes),
        Call::Write(at, bytes) => {
            store.write_at(at, bytes)?;
            Ok(true)
        }
        Call::SetLen(n) => {
            store.set_len(n)?;
            Ok(true)
        }
        Call::Sync => {
            store.sync()?;
            Ok(true)
        }
    }
}

/// How a store differs from what is written.
#[derive(Debug, Drop)]
pub(crate) enum Mismatch {
    Memory,
    Fault(StoreFault),
    /// The call at this place, from 0 on, has another answer.
    Answer(usize),
    /// The call at this place serves.
    Serves(usize),
}

impl From<AllocError> for Mismatch {
    fn from(_: AllocError) -> Mismatch {
        Mismatch::Memory
    }
}

impl From<StoreFault> for Mismatch {
    fn from(fault: StoreFault) -> Mismatch {
        Mismatch::Fault(fault)
    }
}

/// Makes calls that serve.
pub(crate) fn serve<S: Store>(store: &mut S, calls: &[Call<'_>]) -> Result<(), Mismatch> {
    for (place, call) in calls.iter().enumerate() {
        if !is_answered(store, *call)? {
            return Err(Mismatch::Answer(place));
        }
    }
    Ok(())
}

/// Makes calls that fail.
pub(crate) fn refuse<S: Store>(store: &mut S, calls: &[Call<'_>]) -> Result<(), Mismatch> {
    for (place, call) in calls.iter().enumerate() {
        if !failed_since(&is_answered(store, *call)) {
            return Err(Mismatch::Serves(place));
        }
    }
    Ok(())
}

/// Leaves 0 4 0 0 1 2 3: zeros, a gap and a byte over them, a cut, and bytes across the end.
pub(crate) const PLAY: [Call<'static>; 9] = [
    Call::SetLen(2),
    Call::Write(5, &[1, 2, 3]),
    Call::Write(1, &[4]),
    Call::Sync,
    Call::Len(8),
    Call::Read(5, &[1, 2, 3]),
    Call::SetLen(6),
    Call::Write(4, &[1, 2, 3]),
    Call::Len(7),
];

const AT_THE_END: [Call<'static>; 3] = [
    Call::Read(5, &[2, 3]),
    Call::Read(7, &[]),
    Call::Write(7, &[]),
];

const PAST_THE_END: [Call<'static>; 5] = [
    Call::Read(6, &[3, 0]),
    Call::Read(8, &[]),
    Call::Read(u64::MAX, &[0, 0]),
    Call::Write(u64::MAX, &[0, 0]),
    Call::SetLen(u64::MAX),
];

const GROWN: [Call<'static>; 4] = [
    Call::Len(7),
    Call::Write(9, &[]),
    Call::Len(9),
    Call::Read(7, &[0, 0]),
];

/// In a store of those seven bytes: ranges of no bytes, and those that end at the end, past it and nowhere. Leaves
/// nine.
pub(crate) fn touch_the_end<S: Store>(store: &mut S) -> Result<(), Mismatch> {
    serve(store, &AT_THE_END)?;
    refuse(store, &PAST_THE_END)?;
    serve(store, &GROWN)
}
