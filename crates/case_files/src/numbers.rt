//! Numbers from one to another, for which lines stand in a row, and which a reply lists.
use hex::FromHex;
use std::alloc::{AllocError, Global};

/// The number of four hexadecimal digits.
pub(crate) fn read_handle(text: &str) -> Option<u16> {
    let bytes = <[u8; 2] as FromHex>::from_hex(text).ok()?;
    Some(u16::from_be_bytes(bytes))
}

/// Numbers from the first to the last, by steps.
#[derive(Clone, Copy)]
pub(crate) struct Numbers {
    first: u16,
    last: u16,
    step: u16,
}

impl Numbers {
    /// Reads `0010..ffee/2`, or `0001..2000` for steps of 1.
    pub(crate) fn read(text: &str) -> Option<Numbers> {
        let (bounds, step) = match text.split_once('/') {
            Some((bounds, step)) => (bounds, step.parse().ok()?),
            None => (text, 1),
        };
        let (first, last) = bounds.split_once("..")?;
        Some(Numbers {
            first: read_handle(first)?,
            last: read_handle(last)?,
            step,
        })
    }

    /// How many there are.
    pub(crate) fn count(self) -> u16 {
        let steps = self.last.checked_sub(self.first).unwrap_or(0);
        steps.checked_div(self.step).unwrap_or(0).saturating_add(1)
    }

    /// The number at a place.
    pub(crate) fn at(self, place: u16) -> u16 {
        self.first.saturating_add(self.step.saturating_mul(place))
    }

    // A branch of a tree block to each: a word that is zero, and the handle.
    fn branches(self, alloc: Global) -> Result<String, AllocError> {
        let mut branches = String::new(alloc);
        for place in 0..self.count() {
            branches.push_str("0000")?;
            branches.push_str(&word(alloc, self.at(place))?)?;
        }
        Ok(branches)
    }

    // Their handles, with a space between any two.
    fn handles(self, alloc: Global) -> Result<String, AllocError> {
        let mut list = String::new(alloc);
        for place in 0..self.count() {
            if place != 0 {
                list.push(' ')?;
            }
            let handle = format!(in alloc; "{:04x}", self.at(place))?;
            list.push_str(&handle)?;
        }
        Ok(list)
    }
}

// The two bytes of a number, the low one first.
fn word(alloc: Global, number: u16) -> Result<String, AllocError> {
    format!(in alloc; "{:02x}{:02x}", number % 256, number / 256)
}

// Puts handles in the places for them.
fn with_handles(alloc: Global, line: &str, number: u16) -> Result<String, AllocError> {
    let handle = format!(in alloc; "{number:04x}")?;
    let before = format!(in alloc; "{:04x}", number.saturating_sub(1))?;
    let line = line.replace(alloc, "<handle>", &handle)?;
    line.replace(alloc, "<before>", &before)
}

/// Puts a number in the places for it: `<number>` stands for the number, `<handle>` for the handle that it is,
/// `<before>` for the handle before that, `<word>` for its two bytes, the low one first, and `<next>` for those of the
/// next number.
pub(crate) fn line_for(alloc: Global, line: &str, number: u16) -> Result<String, AllocError> {
    let line = with_handles(alloc, line, number)?;
    let line = line.replace(alloc, "<word>", &word(alloc, number)?)?;
    let line = line.replace(alloc, "<next>", &word(alloc, number.saturating_add(1))?)?;
    let number = number.to_string(alloc)?;
    line.replace(alloc, "<number>", &number)
}

// Where a line lists handles: what stands before, what says which they are, and what stands behind.
fn list_in(line: &str) -> Option<(&str, &str, &str)> {
    let (front, rest) = line.split_once('<')?;
    let (list, back) = rest.split_once('>')?;
    Some((front, list, back))
}

// The handles, or the branches, that a list says, if it is one.
fn listed(alloc: Global, list: &str) -> Result<Option<String>, AllocError> {
    let (range, is_of_branches) = match list.split_once(' ') {
        Some((range, "as branches")) => (range, true),
        _ => (list, false),
    };
    match Numbers::read(range) {
        Some(numbers) if is_of_branches => numbers.branches(alloc).map(Some),
        Some(numbers) => numbers.handles(alloc).map(Some),
        None => Ok(None),
    }
}

/// Puts the handles in the place of `<0001..2000>`, if there is one, and a branch to each of them in that of
/// `<0001..2000 as branches>`.
pub(crate) fn with_list(alloc: Global, line: &str) -> Result<String, AllocError> {
    let Some((front, list, back)) = list_in(line) else {
        return line.to_string(alloc);
    };
    match listed(alloc, list)? {
        Some(list) => format!(in alloc; "{front}{list}{back}"),
        None => line.to_string(alloc),
    }
}
