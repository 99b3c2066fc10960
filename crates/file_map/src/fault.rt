//! Why there is no picture of a file.
ghost use Rattle.std.specs.Prelude.{◌≡◌};

use geos_model::Fault;
use std::alloc::{AllocError, AllocFailed};
use vm_store::StoreFault;

/// Why there is no picture of a file, or not the whole of it.
#[derive(Clone, Copy, Debug, PartialEq, Eq)]
pub enum MapFault {
    /// The list of what lies in the file found no memory, or an image, or a line.
    Memory,
    /// The store failed.
    File,
    /// The file doesn't open: `NotDocument` or `Damaged`, as an opening answers. Nothing is drawn.
    Unopened(Fault),
    /// The writer failed. How much of the picture went out is not known.
    Write,
}

impl From<AllocError> for MapFault {
    ghost use Rattle.file_map.specs.Faults.{map_out_of_memory};

    ghost from_gives = { λ error fault. fault ≡ map_out_of_memory };

    fn from(_: AllocError) -> MapFault {
        MapFault::Memory
    }
}

impl<T: Drop> From<AllocFailed<T>> for MapFault {
    ghost use Rattle.file_map.specs.Faults.{map_out_of_memory};

    ghost from_gives = { λ error fault. fault ≡ map_out_of_memory };

    fn from(_: AllocFailed<T>) -> MapFault {
        MapFault::Memory
    }
}

impl From<Fault> for MapFault {
    ghost use Rattle.file_map.specs.Faults.{read_fault};

    ghost from_gives = { λ error fault. fault ≡ read_fault error };

    fn from(fault: Fault) -> MapFault {
        match fault {
            Fault::Memory => MapFault::Memory,
            _ => MapFault::File,
        }
    }
}

impl From<StoreFault> for MapFault {
    ghost use Rattle.file_map.specs.Faults.{unread};

    ghost from_gives = { λ error fault. fault ≡ unread };

    fn from(_: StoreFault) -> MapFault {
        MapFault::File
    }
}
