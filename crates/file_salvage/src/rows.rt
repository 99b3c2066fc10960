//! The longest row of numbers that never fall.
ghost use Rattle.std.specs.Prelude.{◌≡◌, ◌≢◌, ℕ, ◌+◌, ◌<◌, ◌≤◌, [], IfOk, OnOk, length, max, slice_index};
ghost use Rattle.std.specs.List.Sorted.{IsNonDecreasing};
ghost use Rattle.file_salvage.specs.Rows.{AreLengths, AreRowEnds, IsLongestRow, longest_row, row_to};

use std::alloc::{AllocError, Global};

// How many of these numbers, which don't fall, are at most `most`.
fn count_below(ends: &[u16], most: u16) -> usize
    requires { IsNonDecreasing ends.now }
    ensures bound { result ≤ length ends.now }
    ensures below { (k : ℕ) → k < result → slice_index ends.now k ≤ most }
    ensures above { (k : ℕ) → result ≤ k → k < length ends.now → most < slice_index ends.now k }
{
    ends.partition_point(|end| *end <= most)
}

fn put(ends: &mut Vec<u16>, at: usize, number: u16) -> Result<(), AllocError>
    requires { at ≤ length ends.old.items }
    ensures count { OnOk result (length ends.new.items ≡ max (length ends.old.items) (at + 1)) }
    ensures put { OnOk result (slice_index ends.new.items at ≡ number) }
    ensures others { OnOk result ((k : ℕ) → k ≢ at → k < length ends.old.items
        → slice_index ends.new.items k ≡ slice_index ends.old.items k) }
{
    if at == ends.len() {
        ends.push(number)?;
    } else {
        ends[at] = number;
    }
    Ok(())
}

// The length of the longest row that ends at a place, 0 where none does.
fn reach(numbers: &[u16], i: usize, ends: &mut Vec<u16>) -> Result<usize, AllocError>
    requires within { i < length numbers.now }
    requires ends { AreRowEnds numbers.now i ends.old.items }
    ensures ends { OnOk result (AreRowEnds numbers.now (i + 1) ends.new.items) }
    ensures reach { IfOk result (λ reach. 1 ≤ slice_index numbers.now i
        → reach ≡ 1 + length (row_to numbers.now i (slice_index numbers.now i))) }
{
    let number = numbers[i];
    if number == 0 {
        return Ok(0);
    }
    let before = count_below(ends.as_slice(), number);
    put(ends, before, number)?;
    Ok(before + 1)
}

fn lengths(alloc: Global, numbers: &[u16], ends: &mut Vec<u16>) -> Result<Vec<usize>, AllocError>
    requires { ends.old.items ≡ [] }
    ensures ends { OnOk result (AreRowEnds numbers.now (length numbers.now) ends.new.items) }
    ensures count { IfOk result (λ lengths. length lengths.items ≡ length numbers.now) }
    ensures lengths { IfOk result (λ lengths. AreLengths numbers.now (length numbers.now) lengths.items) }
{
    let mut lengths = Vec::new(alloc);
    for i in 0..numbers.len() {
        lengths.push(reach(numbers, i, ends)?)?;
    }
    Ok(lengths)
}

// From the last place back each is taken that a longest row can have.
fn walk(
    alloc: Global,
    numbers: &[u16],
    lengths: &[usize],
    count: usize,
) -> Result<Vec<usize>, AllocError>
    requires size { length lengths.now ≡ length numbers.now }
    requires lengths { AreLengths numbers.now (length numbers.now) lengths.now }
    requires count { count ≡ length (longest_row numbers.now) }
    ensures { IfOk result (λ row. row.items ≡ longest_row numbers.now) }
{
    let mut row = Vec::new(alloc);
    let mut most = u16::MAX;
    let mut left = count;
    for i in (0..numbers.len()).rev() {
        if 1 <= numbers[i] && numbers[i] <= most && lengths[i] == left {
            row.push(i)?;
            most = numbers[i];
            left -= 1;
        }
    }
    Ok(row)
}

/// The places of a longest row of numbers that never fall and aren't 0, the last one first. Of several that are as
/// long it has the latest numbers.
pub fn longest_row(alloc: Global, numbers: &[u16]) -> Result<Vec<usize>, AllocError>
    ensures value { IfOk result (λ row. row.items ≡ longest_row numbers.now) }
    ensures longest { IfOk result (λ row. IsLongestRow numbers.now row.items) }
{
    let mut ends = Vec::new(alloc);
    let lengths = lengths(alloc, numbers, &mut ends)?;
    let count = count_below(ends.as_slice(), u16::MAX);
    let row = walk(alloc, numbers, lengths.as_slice(), count)?;
    Ok(row)
}
