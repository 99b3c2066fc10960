//! The host's files that aren't there yet.
use document_tools::{MakeFault, MakesNew};
use std::fs::File;
use std::io;

/// The host, which makes files where none are.
#[derive(Drop)]
pub struct HostMaker {
    rt: HostRuntime,
}

impl HostMaker {
    /// The host that the runtime stands on.
    pub fn new(rt: HostRuntime) -> HostMaker {
        HostMaker { rt }
    }
}

fn fault(error: io::Error) -> MakeFault {
    match error.kind() {
        io::ErrorKind::AlreadyExists => MakeFault::Present,
        io::ErrorKind::NotFound => MakeFault::NoFolder,
        io::ErrorKind::PermissionDenied => MakeFault::Forbidden,
        _ => MakeFault::Failed,
    }
}

impl MakesNew for HostMaker {
    // Of what the machine does nothing is known.
    ghost makes = { λ old name result new. Unit {0} };

    fn make_new(&mut self, name: &str) -> Result<(), MakeFault> {
        match File::create_new(&self.rt, name) {
            Ok(_) => Ok(()),
            Err(error) => Err(fault(error)),
        }
    }
}
