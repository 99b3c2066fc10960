//! The plan of the edit that makes an array.
ghost use Rattle.std.specs.Prelude.{◌≡◌, ◌≤◌, ◌∷◌, [], IfOk, MatchResult, length};
ghost use Rattle.geos_model.specs.Document.{no_attributes};
ghost use Rattle.geos_model.specs.declared.command.Body.TheVariants as bodies;
ghost use Rattle.document_file.specs.Members.{imaged_blocks};
ghost use Rattle.geos_model.specs.LargeLayout.{greatest_element_size, root_bytes, branch_bytes};
ghost use Rattle.large_arrays.specs.Creation.{empty_root, PlansCreation, RefusesCreation};

use geos_model::{Attributes, Fault, VmHandle};
use std::alloc::{AllocError, Global};
use vm_blocks::{BlockImage, Change, FileBlocks, Member, Members};
use vm_chains::free_handles;
use vm_store::Store;

/// The greatest size of elements that have one size.
const GREATEST_SIZE: u32 = 4_096;

/// Of the edit that makes an array without elements, of this size, 0 where sizes vary: two blocks come in. With the
/// handle of its root. Range, NoHandles, Memory.
pub fn plan_create<S: Store>(
    alloc: Global,
    blocks: &FileBlocks<S>,
    user_id: u16,
    size: u32,
) -> Result<(Change, VmHandle), Fault>
    ensures { MatchResult result (λ p. PlansCreation user_id size blocks.now.document p.0 p.1)
        (RefusesCreation size blocks.now.document) }
{
    if GREATEST_SIZE < size {
        return Err(Fault::Range);
    }
    let handles = free_handles(alloc, blocks, 2)?;
    if handles.len() < 2 {
        return Err(Fault::NoHandles);
    }
    let root = handles[0];
    let branch = handles[1];
    let members = empty_array(alloc, root, branch, user_id, size as u16)?;
    Ok((Change::BlocksIn(members), root))
}

/// The blocks of an array without elements.
fn empty_array(
    alloc: Global,
    root: VmHandle,
    branch: VmHandle,
    user_id: u16,
    size: u16,
) -> Result<Members, AllocError>
    ensures { IfOk result (λ members. imaged_blocks members.list.items
        ≡ (
          root.0,
          record {
            attributes = record { user_id = user_id; heap_type = 0 };
            body = bodies.Raw (root_bytes (empty_root size branch.0));
          },
        ) ∷ (branch.0, record { attributes = no_attributes; body = bodies.Raw (branch_bytes size []) }) ∷ []) }
{
    let of_root = Attributes {
        user_id,
        heap_type: 0,
    };
    let of_branch = Attributes {
        user_id: 0,
        heap_type: 0,
    };
    let mut list = Vec::with_capacity(alloc, 2)?;
    list.push(Member {
        handle: root,
        block: BlockImage::raw(of_root, empty_root(alloc, size, branch)?)?,
    })?;
    list.push(Member {
        handle: branch,
        block: BlockImage::raw(of_branch, empty_branch(alloc, size)?)?,
    })?;
    Ok(Members::new(list))
}

/// The bytes of its root.
#[tactic(auto, unfolding(geos_model::specs::LargeLayout::root_bytes))]
fn empty_root(alloc: Global, size: u16, branch: VmHandle) -> Result<Vec<u8>, AllocError>
    ensures bytes { IfOk result (λ bytes. bytes.items ≡ root_bytes (empty_root size branch.0)) }
    ensures len { IfOk result (λ bytes. length bytes.items ≡ 22) }
{
    let mut bytes = Vec::with_capacity(alloc, 22)?;
    bytes.extend_from_slice(b"\xFF\xFF\x12\0\x01\0GARR")?;
    bytes.extend_from_slice(&size.to_le_bytes())?;
    bytes.extend_from_slice(&[0; 8])?;
    bytes.extend_from_slice(&branch.0.to_le_bytes())?;
    Ok(bytes)
}

/// The bytes of a branch without elements.
#[tactic(auto, unfolding(geos_model::specs::LargeLayout::branch_bytes, geos_model::specs::Array::array_bytes))]
fn empty_branch(alloc: Global, size: u16) -> Result<Vec<u8>, AllocError>
    ensures bytes { IfOk result (λ bytes. bytes.items ≡ branch_bytes size []) }
    ensures len { IfOk result (λ bytes. length bytes.items ≡ 10) }
{
    let mut bytes = Vec::with_capacity(alloc, 10)?;
    bytes.extend_from_slice(&[0; 4])?;
    bytes.extend_from_slice(&size.to_le_bytes())?;
    bytes.extend_from_slice(b"\0\0\x08\0")?;
    Ok(bytes)
}
