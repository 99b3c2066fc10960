//! How a case differs from what is written.
use std::alloc::{AllocError, AllocFailed, Global};

/// How a case differs from what is written.
#[derive(Debug, Drop)]
pub enum Mismatch {
    /// Memory ran out.
    Memory,
    /// What a line of the case file expects, and what came in its place.
    Line {
        number: usize,
        wanted: String,
        given: String,
    },
}

impl Mismatch {
    /// Whether what came is the refusal that a store which failed leads to.
    pub(crate) fn is_of_store(&self) -> bool {
        match self {
            Mismatch::Line { given, .. } => given.as_str() == "no 2 File",
            Mismatch::Memory => false,
        }
    }

    /// What came, where that isn't that memory ran out.
    pub(crate) fn given(self) -> Result<Vec<u8>, Mismatch> {
        match self {
            Mismatch::Line { given, .. } => Ok(given.into_bytes()),
            Mismatch::Memory => Err(Mismatch::Memory),
        }
    }
}

impl From<AllocError> for Mismatch {
    fn from(_: AllocError) -> Mismatch {
        Mismatch::Memory
    }
}

impl<T: Drop> From<AllocFailed<T>> for Mismatch {
    fn from(_: AllocFailed<T>) -> Mismatch {
        Mismatch::Memory
    }
}

/// What a line expects, and what came.
pub(crate) fn mismatch_at(alloc: Global, number: usize, wanted: &str, given: &str) -> Mismatch {
    match (wanted.to_string(alloc), given.to_string(alloc)) {
        (Ok(wanted), Ok(given)) => Mismatch::Line {
            number,
            wanted,
            given,
        },
        _ => Mismatch::Memory,
    }
}

/// Fails where something is not as a line expects it.
pub(crate) fn expect(
    alloc: Global,
    number: usize,
    holds: bool,
    wanted: &str,
    given: &str,
) -> Result<(), Mismatch> {
    if holds {
        return Ok(());
    }
    Err(mismatch_at(alloc, number, wanted, given))
}
