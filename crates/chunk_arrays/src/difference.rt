//! Where bytes and others that come in their place differ.
ghost use Rattle.std.specs.Prelude.{◌≡◌, ◌≤◌, ◌-◌, length, take, drop};
ghost use Rattle.chunk_arrays.specs.Differing.{IsDifference};

/// Bytes that go, and those that come in their place, without what both begin with and what both end with.
#[derive(Clone, Copy)]
pub(crate) struct Difference<'a> {
    /// How many bytes both begin with.
    pub front: usize,
    pub old: &'a [u8],
    pub new: &'a [u8],
    /// How many bytes both end with.
    pub back: usize,
}

/// How many bytes are compared at each end at most: what differs in long ones is found no further.
pub(crate) const MOST_COMPARED: usize = 64;

/// Where bytes differ from others, as far as a few bytes at each end tell.
pub(crate) fn compare<'a>(old: &'a [u8], new: &'a [u8]) -> Difference<'a>
    ensures { IsDifference old.now new.now result }
{
    let front = same_front(old, new);
    let (_, old) = old.split_at(front);
    let (_, new) = new.split_at(front);
    let back = same_back(old, new);
    let (old, _) = old.split_at(old.len() - back);
    let (new, _) = new.split_at(new.len() - back);
    Difference {
        front,
        old,
        new,
        back,
    }
}

/// How many bytes both begin with.
fn same_front(a: &[u8], b: &[u8]) -> usize
    ensures within { (result ≤ length a.now) × (result ≤ length b.now) }
    ensures same { take result a.now ≡ take result b.now }
{
    let most = a.len().min(b.len()).min(MOST_COMPARED);
    for i in 0..most {
        if a[i] != b[i] {
            return i;
        }
    }
    most
}

/// How many bytes both end with.
fn same_back(a: &[u8], b: &[u8]) -> usize
    ensures within { (result ≤ length a.now) × (result ≤ length b.now) }
    ensures same { drop (length a.now - result) a.now ≡ drop (length b.now - result) b.now }
{
    let most = a.len().min(b.len()).min(MOST_COMPARED);
    for i in 0..most {
        if a[a.len() - 1 - i] != b[b.len() - 1 - i] {
            return i;
        }
    }
    most
}
