//! What cases are played on: sessions on files in memory, and the program over such files.
use crate::files::ProgramFiles;
use crate::streams::{Feeding, Taking};
use geos_model::{Fault, VmHandle};
use std::alloc::{AllocError, Global};
use test_stores::{FuseStore, MemStore};

/// A file in memory that fails on order.
pub type File = FuseStore<MemStore>;

/// How a script is run.
#[derive(Clone, Copy, Debug, Default, PartialEq, Eq)]
pub struct RunOptions {
    /// The run ends behind the first refusal.
    pub bails: bool,
    /// Each line is written before its reply.
    pub echoes: bool,
}

/// The files of a session's save-as: what it makes a file of, and the file that it has left.
#[derive(Drop)]
pub struct Sides {
    pub target: Option<File>,
    pub former: Option<File>,
}

/// A session on a file. What cases are played on knows nothing of cases, and they know nothing else of it.
pub trait Subject: Drop {
    /// Begins a session on a new file in a store, or on the one that it has, or gives why it is refused and the store.
    fn begin(
        alloc: Global,
        store: File,
        frames: usize,
        is_new: bool,
    ) -> Result<Self, (Fault, File)>;

    /// Ends the session.
    fn close(self) -> File;

    /// Whether the block is in memory.
    fn is_resident(&self, block: VmHandle) -> bool;

    /// How much the records of undo weigh.
    fn weight(&self) -> u64;

    /// Answers the lines of a script. It fails for want of memory alone.
    fn answer(
        &mut self,
        alloc: Global,
        sides: &mut Sides,
        script: &[u8],
        replies: &mut Vec<u8>,
    ) -> Result<(), AllocError>;

    /// Runs a script, and tells how that ends: `well`, or the fault.
    fn run(
        &mut self,
        alloc: Global,
        options: RunOptions,
        sides: &mut Sides,
        reader: &mut Feeding<'_>,
        writer: &mut Taking<'_>,
    ) -> Result<String, AllocError>;

    /// Runs the program, whose words have its name before them. Gives its status and what it tells on standard error.
    fn serve(
        alloc: Global,
        files: &mut ProgramFiles<File>,
        words: &[&str],
        reader: &mut Feeding<'_>,
        writer: &mut Taking<'_>,
    ) -> (u8, Vec<u8>);
}
