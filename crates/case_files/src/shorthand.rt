//! Texts in which a word may say how often its parts stand.
use std::alloc::AllocError;

/// Puts in a text, each word of it expanded, but for the spaces round it.
pub(crate) fn push_expanded(out: &mut String, text: &str) -> Result<(), AllocError> {
    for (i, word) in text.trim_matches(' ').split(' ').enumerate() {
        if i != 0 {
            out.push(' ')?;
        }
        push_word(out, word)?;
    }
    Ok(())
}

// The parts of a word are expanded one after another.
fn push_word(out: &mut String, word: &str) -> Result<(), AllocError> {
    for part in word.split('+') {
        match times(part) {
            Some((piece, count)) => push_repeated(out, piece, count)?,
            None => out.push_str(part)?,
        }
    }
    Ok(())
}

// What stands often, and how often.
fn times(part: &str) -> Option<(&str, u32)> {
    let (piece, count) = part.split_once('*')?;
    Some((piece, count.parse().ok()?))
}

fn push_repeated(out: &mut String, piece: &str, count: u32) -> Result<(), AllocError> {
    for _ in 0..count {
        out.push_str(piece)?;
    }
    Ok(())
}
