//! What the words of `geosdoc` ask for.
#![tactic(auto)]

mod arguments;
mod commands;
mod requested;

pub use commands::request;
pub use requested::{
    Asked, Checksums, DiffScope, DumpScope, Form, MapFormat, NoRequest, Request, SalvageScope,
};
