//! What two runs of bytes begin and end with together.
ghost use Rattle.std.specs.Prelude.{◌≢◌, ◌<◌, ◌-◌, length, get_or};
ghost use Rattle.large_bodies.specs.Differences.{IsCommonFront, IsCommonBack};

/// So many bytes are compared at a time.
const STEP: usize = 64;

/// How many bytes both begin with.
pub fn common_front(old: &[u8], new: &[u8]) -> usize
    ensures common { IsCommonFront old.now new.now result }
    ensures most { result < length old.now → result < length new.now
        → get_or old.now result 0 ≢ get_or new.now result 0 }
{
    let most = old.len().min(new.len());
    let mut n = common_front_steps(old, new);
    while n < most && old[n] == new[n] {
        n += 1;
    }
    n
}

/// How many they begin with in whole steps.
fn common_front_steps(old: &[u8], new: &[u8]) -> usize
    ensures { IsCommonFront old.now new.now result }
{
    let steps = old.len().min(new.len()) / STEP;
    for k in 0..steps {
        let n = k * STEP;
        if old[n..n + STEP] != new[n..n + STEP] {
            return n;
        }
    }
    steps * STEP
}

/// How many bytes both end with.
pub fn common_back(old: &[u8], new: &[u8]) -> usize
    ensures common { IsCommonBack old.now new.now result }
    ensures most { result < length old.now → result < length new.now
        → get_or old.now (length old.now - result - 1) 0 ≢ get_or new.now (length new.now - result - 1) 0 }
{
    let most = old.len().min(new.len());
    let mut n = common_back_steps(old, new);
    while n < most && old[old.len() - n - 1] == new[new.len() - n - 1] {
        n += 1;
    }
    n
}

/// How many they end with in whole steps.
fn common_back_steps(old: &[u8], new: &[u8]) -> usize
    ensures { IsCommonBack old.now new.now result }
{
    let steps = old.len().min(new.len()) / STEP;
    for k in 0..steps {
        let old_end = old.len() - k * STEP;
        let new_end = new.len() - k * STEP;
        if old[old_end - STEP..old_end] != new[new_end - STEP..new_end] {
            return k * STEP;
        }
    }
    steps * STEP
}
