//! The bytes of the root of a large array after an edit.
ghost use Rattle.std.specs.Prelude.{◌≡◌, ◌<◌, ◌≤◌, ◌+◌, ◌-◌, ◌*◌, ◌^◌, ◌++◌, IfOk, length, sum_by};
ghost use Rattle.geos_model.specs.Words.{word};
ghost use Rattle.vm_chains.specs.Numbers.{numbers};
ghost use Rattle.geos_model.specs.LargeLayout.{root_bytes};
ghost use Rattle.large_bodies.specs.RootEdits.{count_bytes, head_bytes, link_bytes, with_branches};

use geos_model::VmHandle;
use large_bodies::{MARK, RootView, TREE_MARK};
use std::alloc::{AllocError, Global};

/// The bytes of a root with branches of so many elements in the place of those from `first` up to `behind`. What stays
/// is copied, once.
pub fn new_root(
    alloc: Global,
    root: &RootView<'_>,
    first: usize,
    behind: usize,
    counts: &[u16],
    branches: &[VmHandle],
) -> Result<Vec<u8>, AllocError>
    // Which branches go, and what comes.
    requires order { first ≤ behind }
    requires within { behind ≤ length root.now.branches }
    requires same { length counts.now ≡ length branches.now }
    // The place of the branches is a word.
    requires few { length root.now.branches - (behind - first) + length branches.now < 2 ^ 15 - 8 }
    ensures { IfOk result (λ bytes. bytes.items
        ≡ root_bytes (with_branches root.now first behind counts.now (numbers branches.now))) }
{
    let old = root.branches();
    let number = old - (behind - first) + branches.len();
    let total = root.total_without(first, behind) + sum_of(counts);
    let mut bytes = Vec::with_capacity(alloc, 16 + 6 * number)?;
    push_head(&mut bytes, number as u16, root.size_word(), total)?;
    bytes.extend_from_slice(root.count_bytes(0, first))?;
    push_words(&mut bytes, counts)?;
    bytes.extend_from_slice(root.count_bytes(behind, old))?;
    bytes.extend_from_slice(root.link_bytes(0, first))?;
    push_links(&mut bytes, branches)?;
    bytes.extend_from_slice(root.link_bytes(behind, old))?;
    Ok(bytes)
}

/// How many elements these are together.
fn sum_of(counts: &[u16]) -> u32
    requires { length counts.now < 2 ^ 16 }
    ensures value { result ≡ sum_by (λ c. c) counts.now }
    ensures few { result ≤ 65535 * length counts.now }
{
    let mut sum: u32 = 0;
    for count in counts {
        sum += u32::from(*count);
    }
    sum
}

/// Adds what stands before the counts.
fn push_head(out: &mut Vec<u8>, branches: u16, size: u16, total: u32) -> Result<(), AllocError>
    requires { 16 + 2 * branches < 2 ^ 16 }
    ensures { IfOk result (λ _. out.new.items ≡ out.old.items ++ head_bytes branches size total) }
{
    push_word(out, TREE_MARK)?;
    push_word(out, 16 + 2 * branches)?;
    push_word(out, branches)?;
    out.extend_from_slice(MARK.as_slice())?;
    push_word(out, size)?;
    out.extend_from_slice(total.to_le_bytes().as_slice())
}

/// Adds numbers as words.
fn push_words(out: &mut Vec<u8>, numbers: &[u16]) -> Result<(), AllocError>
    ensures { IfOk result (λ _. out.new.items ≡ out.old.items ++ count_bytes numbers.now) }
{
    for number in numbers {
        push_word(out, *number)?;
    }
    Ok(())
}

/// Adds branches, each as a root has it.
fn push_links(out: &mut Vec<u8>, branches: &[VmHandle]) -> Result<(), AllocError>
    ensures { IfOk result (λ _. out.new.items ≡ out.old.items ++ link_bytes (numbers branches.now)) }
{
    for branch in branches {
        push_word(out, 0)?;
        push_word(out, branch.0)?;
    }
    Ok(())
}

/// Adds a number as a word.
fn push_word(out: &mut Vec<u8>, number: u16) -> Result<(), AllocError>
    ensures { IfOk result (λ _. out.new.items ≡ out.old.items ++ word number) }
{
    out.extend_from_slice(number.to_le_bytes().as_slice())
}
