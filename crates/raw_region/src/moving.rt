//! Bytes that are moved within a slice, as if they were copied aside first.
ghost use Rattle.std.specs.Prelude.{◌≡◌, ◌⊎◌, ◌+◌, ◌≤◌, ◌<◌, length, slice_range};
ghost use Rattle.raw_region.specs.Bytes.{put};

/// How many bytes are copied aside at once.
const BLOCK: usize = 4_096;

/// Moves up to a block of bytes, copied aside first.
fn copy_block(bytes: &mut [u8], from: usize, to: usize, n: usize)
    requires small { n ≤ BLOCK }
    requires source { from + n ≤ length bytes.old }
    requires target { to + n ≤ length bytes.old }
    ensures { bytes.new ≡ put bytes.old to (slice_range bytes.old from (from + n)) }
{
    let mut block = [0; BLOCK];
    block[..n].copy_from_slice(&bytes[from..from + n]);
    bytes[to..to + n].copy_from_slice(&block[..n]);
}

/// Copies bytes to a place below them that they don't reach.
fn copy_down(bytes: &mut [u8], from: usize, to: usize, n: usize)
    requires apart { to + n ≤ from }
    requires source { from + n ≤ length bytes.old }
    ensures { bytes.new ≡ put bytes.old to (slice_range bytes.old from (from + n)) }
{
    let (front, back) = bytes.split_at_mut(from);
    front[to..to + n].copy_from_slice(&back[..n]);
}

/// Copies bytes to a place above them that they don't reach.
fn copy_up(bytes: &mut [u8], from: usize, to: usize, n: usize)
    requires apart { from + n ≤ to }
    requires target { to + n ≤ length bytes.old }
    ensures { bytes.new ≡ put bytes.old to (slice_range bytes.old from (from + n)) }
{
    let (front, back) = bytes.split_at_mut(to);
    back[..n].copy_from_slice(&front[from..from + n]);
}

/// Moves up to a block of bytes, or bytes that don't reach where they go.
fn move_block(bytes: &mut [u8], from: usize, to: usize, n: usize)
    requires short { (n ≤ BLOCK) ⊎ ((to + n ≤ from) ⊎ (from + n ≤ to)) }
    requires source { from + n ≤ length bytes.old }
    requires target { to + n ≤ length bytes.old }
    ensures { bytes.new ≡ put bytes.old to (slice_range bytes.old from (from + n)) }
{
    if to + n <= from {
        copy_down(bytes, from, to, n);
    } else if from + n <= to {
        copy_up(bytes, from, to, n);
    } else {
        copy_block(bytes, from, to, n);
    }
}

/// How many bytes are moved at once over a distance: a block, or as many as don't reach where they go.
fn step_over(distance: usize) -> usize
    ensures some { 0 < result }
    ensures short { (result ≤ BLOCK) ⊎ (result ≡ distance) }
{
    distance.max(BLOCK)
}

/// Moves bytes down, the first block first: what a block is written over was moved before it.
fn move_down(bytes: &mut [u8], from: usize, to: usize, n: usize)
    requires down { to ≤ from }
    requires source { from + n ≤ length bytes.old }
    ensures { bytes.new ≡ put bytes.old to (slice_range bytes.old from (from + n)) }
{
    let step = step_over(from - to);
    let mut done = 0;
    while done < n {
        let k = (n - done).min(step);
        move_block(bytes, from + done, to + done, k);
        done += k;
    }
}

/// Moves bytes up, the last block first: what a block is written over was moved before it.
fn move_up(bytes: &mut [u8], from: usize, to: usize, n: usize)
    requires up { from ≤ to }
    requires target { to + n ≤ length bytes.old }
    ensures { bytes.new ≡ put bytes.old to (slice_range bytes.old from (from + n)) }
{
    let step = step_over(to - from);
    let mut left = n;
    while left > 0 {
        let k = left.min(step);
        left -= k;
        move_block(bytes, from + left, to + left, k);
    }
}

/// Moves `n` bytes from `from` to `to`, as if they were copied aside first.
pub(crate) fn move_within(bytes: &mut [u8], from: usize, to: usize, n: usize)
    requires source { from + n ≤ length bytes.old }
    requires target { to + n ≤ length bytes.old }
    ensures { bytes.new ≡ put bytes.old to (slice_range bytes.old from (from + n)) }
{
    if to < from {
        move_down(bytes, from, to, n);
    } else {
        move_up(bytes, from, to, n);
    }
}
