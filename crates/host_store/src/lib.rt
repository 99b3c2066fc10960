//! Stores on files of a system, as the machine is one, and the files of the machine by their names.
#![tactic(auto)]

mod beside;
mod host;
mod host_files;
mod host_system;
mod named_files;
mod paths;
mod system;

pub use host::HostStore;
pub use host_files::{HostFiles, machine_files};
pub use host_system::{HostFile, HostHandle, HostSystem};
pub use named_files::{NamedFiles, Unopened};
pub use system::{System, SystemFault, SystemFile};
