//! Hands what was asked for to its tool, with the files and streams of the machine.
use crate::new_files::HostMaker;
use crate::read_only::read_only_files;
use document_commands::Request;
use document_tools::Machine;
use host_store::machine_files;
use std::io;

/// Carries out what was asked for, and gives the exit status.
pub fn run(rt: &HostRuntime, request: Request<'_>) -> u8 {
    let mut machine = Machine {
        viewer: read_only_files(rt),
        files: machine_files(rt),
        maker: HostMaker::new(*rt),
        reader: rt.reader(),
    };
    document_tools::run(
        rt.alloc(),
        request,
        &mut machine,
        io::writer(rt),
        &mut rt.stderr(),
    )
}
