//! The program that looks at document files: what it is asked for, on standard output. It also makes one by its script.
#![tactic(auto)]

mod new_files;
mod read_only;
mod run;

use crate::run::run;
use document_commands::{NoRequest, request};
use document_tools::tell_no_request;
use std::process::ExitCode;
use std::{env, io};

/// The words of the command line.
fn words(rt: &HostRuntime) -> io::Result<Vec<String>> {
    let mut words = Vec::new(rt.alloc());
    for word in env::args(rt)? {
        words.push(word)?;
    }
    Ok(words)
}

fn main(rt: HostRuntime) -> ExitCode {
    let words = words(&rt);
    let asked = match &words {
        Ok(words) => request(rt.alloc(), words),
        Err(_) => Err(NoRequest::Unread),
    };
    let status = match asked {
        Ok(request) => run(&rt, request),
        Err(none) => tell_no_request(&none, &mut io::writer(&rt), &mut rt.stderr()),
    };
    ExitCode::from(status)
}
