//! Why a comparison ended early.
ghost use Rattle.std.specs.Prelude.{◌≡◌};
ghost use Rattle.document_diff.specs.Faults.{side_fault};

use geos_model::Fault;
use std::alloc::AllocError;

/// One of the two files.
#[derive(Clone, Copy, Debug, PartialEq, Eq)]
pub enum Side {
    Old,
    New,
}

/// Why a comparison ended early.
#[derive(Clone, Copy, Debug, PartialEq, Eq)]
pub enum DiffFault {
    /// A block found no memory, or its lines.
    Memory,
    /// The store of this file failed.
    File(Side),
    /// The store of this file gave back other bytes than it had, which an honest one never does.
    Damaged(Side),
    /// The writer failed. How much of the text went out is not known.
    Write,
}

impl Side {
    /// How a fault of this file is told.
    pub(crate) fn fault(self, fault: Fault) -> DiffFault
        ensures { result ≡ side_fault self fault }
    {
        match fault {
            Fault::Memory => DiffFault::Memory,
            Fault::File => DiffFault::File(self),
            _ => DiffFault::Damaged(self),
        }
    }
}

impl From<AllocError> for DiffFault {
    ghost use Rattle.document_diff.specs.Faults.{diff_out_of_memory};

    ghost from_gives = { λ error fault. fault ≡ diff_out_of_memory };

    fn from(_: AllocError) -> DiffFault {
        DiffFault::Memory
    }
}
