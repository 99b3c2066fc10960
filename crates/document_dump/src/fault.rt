//! Why a dump ended early.
ghost use Rattle.std.specs.Prelude.{◌≡◌};

use geos_model::Fault;
use std::alloc::AllocError;

/// Why a dump ended early.
#[derive(Clone, Copy, Debug, PartialEq, Eq)]
pub enum DumpFault {
    /// A block found no memory, or its lines.
    Memory,
    /// The store failed.
    File,
    /// The store gave back other bytes than it had, which an honest one never does.
    Damaged,
    /// The writer failed. How much of the script went out is not known.
    Write,
}

impl From<AllocError> for DumpFault {
    ghost use Rattle.document_dump.specs.Faults.{dump_out_of_memory};

    ghost from_gives = { λ error fault. fault ≡ dump_out_of_memory };

    fn from(_: AllocError) -> DumpFault {
        DumpFault::Memory
    }
}

impl From<Fault> for DumpFault {
    ghost use Rattle.document_dump.specs.Faults.{dump_fault};

    ghost from_gives = { λ error fault. fault ≡ dump_fault error };

    fn from(fault: Fault) -> DumpFault {
        match fault {
            Fault::Memory => DumpFault::Memory,
            Fault::File => DumpFault::File,
            _ => DumpFault::Damaged,
        }
    }
}
