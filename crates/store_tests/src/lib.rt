//! Tests of stores on files of the machine.
#![tactic(auto)]

#[cfg(test)]
mod calls;
#[cfg(test)]
mod files;
