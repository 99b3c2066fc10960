//! The program: a script from standard input on the document of a file, and its replies on standard output.
#![tactic(auto)]

mod prompt;

use crate::prompt::{Prompting, Typing};
use geos_shell::run_program;
use host_store::{NamedFiles, Unopened, machine_files};
use std::env;
use std::io::{self, IsTerminal, Write};
use std::process::ExitCode;

/// The words of the command line.
fn words(rt: &HostRuntime) -> io::Result<Vec<String>> {
    let mut words = Vec::new(rt.alloc());
    for word in env::args(rt)? {
        words.push(word)?;
    }
    Ok(words)
}

/// Tells which file wasn't opened, and why, behind the line that says what that came to.
fn tell_unopened(rt: &HostRuntime, unopened: &Unopened) {
    // Where there is no memory for it, or it can't be told, the line before says as much as there is to say.
    if let Ok(line) = format!(in rt.alloc(); "geosvm: {unopened}\n") {
        let _ = rt.stderr().write_all(line.as_bytes());
    }
}

fn main(rt: HostRuntime) -> ExitCode {
    // They keep the standard streams guarded until all is told.
    let mut files = NamedFiles::new(rt.alloc(), machine_files(&rt));
    let is_typed = rt.stdin().is_terminal() && rt.stderr().is_terminal();
    let mut reader = Prompting {
        reader: rt.reader(),
        typing: is_typed.then_some(Typing::new(rt.alloc(), rt.stderr())),
    };
    let status = run_program(
        rt.alloc(),
        &mut files,
        words(&rt),
        &mut reader,
        &mut io::writer(&rt),
        &mut rt.stderr(),
    );
    if let Some(unopened) = files.unopened() {
        tell_unopened(&rt, unopened);
    }
    ExitCode::from(status)
}
