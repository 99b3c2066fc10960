//! Tests of what a heap keeps in mind of arrays, which no contract says and no script shows.
#![tactic(auto)]

#[cfg(test)]
mod marks;
