//! The links in the body of a block of a chain.
ghost use Rattle.std.specs.Prelude.{◌≡◌, ◌≤◌, ◌+◌, ◌*◌, ◌<◌, ◌==◌, true, false, not, cond, MatchOption, IfOk, ◌∷◌, ◌++◌, length};
ghost use Rattle.std.specs.List.{list_all, range_with_len};
ghost use Rattle.geos_model.specs.Words.{word_at};
ghost use Rattle.geos_model.specs.Chain.{is_tree, is_linked, links};
ghost use Rattle.vm_chains.specs.Linking.{AreLinks};

use crate::pending::Pending;
use geos_model::VmHandle;
use raw_region::RawBody;
use std::alloc::AllocError;

/// The first word of a tree block, which is no handle.
pub(crate) const TREE_MARK: u16 = 0xFFFF;

/// Where the links of a body stand, four bytes apart.
#[derive(Clone, Copy)]
pub(crate) struct Links {
    pub(crate) first: u16,
    pub(crate) count: u16,
}

/// The links of a body that a block of a chain can have.
pub(crate) fn links_of(body: &RawBody) -> Option<Links>
    ensures { MatchOption result (is_linked body.now ≡ false) (AreLinks body.now) }
{
    if body.bytes().len() < 2 {
        None
    } else if body.word(0) == TREE_MARK {
        branch_links(body)
    } else {
        Some(Links { first: 0, count: 1 })
    }
}

/// Those of the branches of a tree block.
fn branch_links(body: &RawBody) -> Option<Links>
    requires size { 2 ≤ length body.now }
    requires tree { is_tree body.now ≡ true }
    ensures { MatchOption result (is_linked body.now ≡ false) (AreLinks body.now) }
{
    let len = body.bytes().len();
    if len < 6 {
        return None;
    }
    let start = body.word(2);
    let count = body.word(4);
    if start < 6 || len < usize::from(start) + 4 * usize::from(count) {
        return None;
    }
    if !begin_with_zeros(body, start, count) {
        return None;
    }
    Some(Links {
        first: start + 2,
        count,
    })
}

/// Whether each branch begins with a zero word.
fn begin_with_zeros(body: &RawBody, start: u16, count: u16) -> bool
    requires { start + 4 * count ≤ length body.now }
    ensures { result ≡ list_all (λ i. word_at body.now (start + 4 * i) == 0) (range_with_len 0 count) }
{
    for i in 0..count {
        if body.word(usize::from(start) + 4 * usize::from(i)) != 0 {
            return false;
        }
    }
    true
}

/// Puts the blocks to which a body links before all that is pending.
pub(crate) fn push_links(
    body: &RawBody,
    found: &Links,
    pending: &mut Pending,
) -> Result<(), AllocError>
    requires { AreLinks body.now found.now }
    ensures { IfOk result (λ _. pending.new ≡ links body.now ++ pending.old) }
{
    // The first link is pushed last, so that it is met first.
    for i in (0..found.count).rev() {
        let link = body.word(usize::from(found.first) + 4 * usize::from(i));
        push_link(link, pending)?;
    }
    Ok(())
}

/// Puts the block to which a link leads before all that is pending; 0 leads to none.
pub(crate) fn push_link(link: u16, pending: &mut Pending) -> Result<(), AllocError>
    ensures { IfOk result (λ _. pending.new ≡ cond (not (link == 0)) (link ∷ pending.old) pending.old) }
{
    if link != 0 {
        pending.push(VmHandle(link))?;
    }
    Ok(())
}
