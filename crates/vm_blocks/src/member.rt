//! Blocks that come in or go together.
ghost use Rattle.std.specs.Prelude.{◌≡◌, ◌≤◌, ◌∷◌, [], IfOk, length};
ghost use Rattle.geos_model.specs.Document.{most_blocks};
ghost use Rattle.document_file.specs.Members.{imaged_block, imaged_blocks};

use crate::{BlockImage, Member};
use geos_model::VmHandle;
use std::alloc::{AllocError, Global};

/// How many blocks a document can have: their handles are 1 to this.
pub const MOST_BLOCKS: usize = geos_model::MOST_BLOCKS as usize;

/// Blocks that come in or go together, no more than a document can have.
#[derive(Drop)]
pub struct Members {
    pub list: Vec<Member>,
    // So that the sum of their lengths is a number.
    ghost few: { length list.items ≤ most_blocks },
}

impl Members {
    ghost use Rattle.geos_model.specs.Cost.{images_length};

    /// One block alone.
    pub fn one(alloc: Global, handle: VmHandle, block: BlockImage) -> Result<Members, AllocError>
        ensures { IfOk result (λ members. imaged_blocks members.list.items ≡ (handle.0, imaged_block block) ∷ []) }
    {
        let mut list = Vec::new(alloc);
        list.push(Member { handle, block })?;
        Ok(Members { list })
    }

    /// These blocks.
    pub fn new(list: Vec<Member>) -> Members
        requires { length list.items ≤ most_blocks }
        ensures { result.list ≡ list }
    {
        Members { list }
    }

    /// How many bytes their images have.
    pub(crate) fn weight(&self) -> u64
        ensures { result ≡ images_length (imaged_blocks self.now.list.items) }
    {
        let mut total = 0;
        for member in &self.list {
            total += member.block.byte_count() as u64;
        }
        total
    }
}
