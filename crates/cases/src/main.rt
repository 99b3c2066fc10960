//! Plays the cases of files, each a script with the replies that it must get, and what fails or is looked at between.
#![tactic(auto)]

mod sessions;

use crate::sessions::Opened;
use case_files::{Case, CaseFault, read_cases};
use case_player::{Mismatch, play_case};
use std::process::ExitCode;
use std::{env, fs, io};

/// Tells how a case went that differs from what is written.
fn tell(rt: &HostRuntime, file: &str, case: &Case, mismatch: &Mismatch) -> io::Result<()> {
    let name = case.name.as_str();
    match mismatch {
        Mismatch::Memory => println!(rt; "{file}, {name}: memory ran out"),
        Mismatch::Line {
            number,
            wanted,
            given,
        } => println!(rt;
            "{file}, {name}, line {number}: {wanted:?} is expected, and {given:?} came"
        ),
    }
}

/// Tells what is wrong with a file of cases.
fn tell_fault(rt: &HostRuntime, file: &str, fault: &CaseFault) -> io::Result<()> {
    match fault {
        CaseFault::Memory => println!(rt; "{file}: memory ran out"),
        CaseFault::Line(number) => println!(rt; "{file}, line {number}: it can't be read"),
    }
}

/// Plays a case, and tells how it went if it differs. Whether it went as it is written.
fn is_played(rt: &HostRuntime, file: &str, case: &Case) -> io::Result<bool> {
    match play_case::<Opened>(rt.alloc(), case) {
        Ok(()) => Ok(true),
        Err(mismatch) => {
            tell(rt, file, case, &mismatch)?;
            Ok(false)
        }
    }
}

/// Plays cases, and tells how many went as they are written. Whether all did.
fn are_played(rt: &HostRuntime, file: &str, cases: &[Case]) -> io::Result<bool> {
    let mut right = 0_usize;
    for case in cases {
        if is_played(rt, file, case)? {
            right = right.saturating_add(1);
        }
    }
    let count = cases.len();
    println!(rt; "{file}: {right} of {count} cases as expected")?;
    Ok(right == count)
}

/// Plays the cases of a file. Whether all went as they are written.
fn is_file_played(rt: &HostRuntime, file: &str) -> io::Result<bool> {
    let text = fs::read_to_string(rt, file)?;
    match read_cases(rt.alloc(), &text) {
        Ok(cases) => are_played(rt, file, &cases),
        Err(fault) => {
            tell_fault(rt, file, &fault)?;
            Ok(false)
        }
    }
}

/// The words of the command line.
fn words(rt: &HostRuntime) -> io::Result<Vec<String>> {
    let mut words = Vec::new(rt.alloc());
    for word in env::args(rt)? {
        words.push(word)?;
    }
    Ok(words)
}

fn main(rt: HostRuntime) -> io::Result<ExitCode> {
    let mut status = ExitCode::SUCCESS;
    for file in words(&rt)?.iter().skip(1) {
        if !is_file_played(&rt, file)? {
            status = ExitCode::FAILURE;
        }
    }
    Ok(status)
}
