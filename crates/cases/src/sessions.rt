//! The sessions and the program that cases are played on.
use case_player::{Feeding, File, ProgramFiles, RunOptions, Sides, Subject, Taking};
use geos_model::{Fault, VmHandle};
use geos_shell::{RunFault, ScriptOptions, run_in, run_in_manner, serve};
use std::alloc::{AllocError, Global};
use undo_log::Session;

// As many reads as a run makes of a reader that never ends.
const READS: u32 = 16_777_216;

/// A session on a file in memory.
#[derive(Drop)]
pub(crate) struct Opened(Session<File>);

// How a run ends.
fn end_of(alloc: Global, end: Result<(), RunFault>) -> Result<String, AllocError> {
    match end {
        Ok(()) => String::from_str(alloc, "well"),
        Err(fault) => fault.to_string(alloc),
    }
}

impl Subject for Opened {
    fn begin(
        alloc: Global,
        store: File,
        frames: usize,
        is_new: bool,
    ) -> Result<Opened, (Fault, File)> {
        if frames == 0 || frames > 64 {
            return Err((Fault::Range, store));
        }
        let begun = if is_new {
            Session::create(alloc, store, frames, false)
        } else {
            Session::open(alloc, store, frames, false)
        };
        match begun {
            Ok(session) => Ok(Opened(session)),
            Err(refused) => Err((refused.fault, refused.store)),
        }
    }

    fn close(self) -> File {
        self.0.close()
    }

    fn is_resident(&self, block: VmHandle) -> bool {
        self.0.is_resident(block)
    }

    fn weight(&self) -> u64 {
        self.0.weight()
    }

    fn answer(
        &mut self,
        alloc: Global,
        sides: &mut Sides,
        script: &[u8],
        replies: &mut Vec<u8>,
    ) -> Result<(), AllocError> {
        let Sides { target, former } = sides;
        let mut script = script;
        match run_in(alloc, &mut self.0, target, former, &mut script, replies) {
            Ok(()) => Ok(()),
            Err(_) => Err(AllocError),
        }
    }

    fn run(
        &mut self,
        alloc: Global,
        options: RunOptions,
        sides: &mut Sides,
        reader: &mut Feeding<'_>,
        writer: &mut Taking<'_>,
    ) -> Result<String, AllocError> {
        let manner = ScriptOptions {
            bails: options.bails,
            echoes: options.echoes,
        };
        let Sides { target, former } = sides;
        let end = run_in_manner(
            alloc,
            manner,
            &mut self.0,
            target,
            former,
            reader,
            writer,
            READS,
        );
        end_of(alloc, end)
    }

    fn serve(
        alloc: Global,
        files: &mut ProgramFiles<File>,
        words: &[&str],
        reader: &mut Feeding<'_>,
        writer: &mut Taking<'_>,
    ) -> (u8, Vec<u8>) {
        let mut errors = Vec::new(alloc);
        let outcome = serve(alloc, files, words, reader, writer);
        let status = outcome.tell(writer, &mut errors);
        (status, errors)
    }
}
