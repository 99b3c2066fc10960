//! A patch that is drawn up from the first byte of a chunk on.
ghost use Rattle.std.specs.Prelude.{◌≡◌, ◌+◌, ◌/◌, ◌%◌, ◌^◌, ◌<◌, [], IfOk, length};
ghost use Rattle.chunk_edits.specs.Patching.{rebased};
ghost use Rattle.geos_model.specs.Words.{word};

use crate::difference::compare;
use byteorder::{ByteOrder, LittleEndian};
use chunk_edits::{FEW_BYTES, Patch};
use std::alloc::{AllocError, Global};

/// A patch that is drawn up from the first byte of a chunk on. Bytes that stay side by side become one piece of it.
#[derive(Drop)]
pub(crate) struct Draft {
    patch: Patch,
    /// How many bytes stay behind those of the patch.
    kept: u32,
}

/// Of how many bytes a piece is at most that puts some in their place.
const LONGEST_PUT: usize = 0xffff_ffff;

impl Draft {
    ghost use Rattle.chunk_arrays.specs.Drafting.{Adds, settled};

    /// A draft of no bytes.
    pub fn new(alloc: Global) -> Result<Draft, AllocError>
        ensures { IfOk result (λ draft. (draft.patch ≡ []) × (draft.kept ≡ 0)) }
    {
        Ok(Draft {
            patch: Patch::new(alloc)?,
            kept: 0,
        })
    }

    /// These bytes more, which stay.
    pub fn keep(&mut self, bytes: &[u8])
        requires { self.old.kept + length bytes.now < 2 ^ 32 }
        ensures { Adds self.old self.new bytes.now bytes.now }
    {
        self.kept += bytes.len() as u32;
    }

    /// These bytes more, and others in their place. They stay where both are the same.
    pub fn put(&mut self, old: &[u8], new: &[u8]) -> Result<(), AllocError>
        requires { self.old.kept + length new.now < 2 ^ 32 }
        ensures { IfOk result (λ _. Adds self.old self.new old.now new.now) }
    {
        if old == new {
            self.keep(old);
            return Ok(());
        }
        self.exchange(old, new)
    }

    /// The same, where what both have at their ends stays.
    pub fn put_changes(&mut self, old: &[u8], new: &[u8]) -> Result<(), AllocError>
        requires { self.old.kept + length new.now < 2 ^ 32 }
        ensures { IfOk result (λ _. Adds self.old self.new old.now new.now) }
    {
        if old.is_empty() {
            return self.put(old, new);
        }
        let changed = compare(old, new);
        self.keep(&old[..changed.front]);
        self.put(changed.old, changed.new)?;
        self.keep(&old[old.len() - changed.back..]);
        Ok(())
    }

    /// These bytes more, and others in their place.
    fn exchange(&mut self, old: &[u8], new: &[u8]) -> Result<(), AllocError>
        requires { length new.now < 2 ^ 32 }
        ensures { IfOk result (λ _. Adds self.old self.new old.now new.now) }
    {
        let (first, rest) = old.split_at(old.len().min(LONGEST_PUT));
        self.replace(first, new)?;
        self.cut(rest)?;
        Ok(())
    }

    /// A word more, and another in its place. The patch holds no bytes of them.
    pub fn put_word(&mut self, old: &[u8], new: u16) -> Result<(), AllocError>
        requires two { length old.now ≡ 2 }
        requires room { self.old.kept + 2 < 2 ^ 32 }
        ensures { IfOk result (λ _. Adds self.old self.new old.now (word new)) }
    {
        let from = LittleEndian::read_u16(old);
        if from == new {
            self.keep(old);
            return Ok(());
        }
        self.rebase(old, from, new)
    }

    /// These words more, of which each becomes as far behind `to`, modulo 2^16, as it is behind `from`.
    pub fn rebase(&mut self, words: &[u8], from: u16, to: u16) -> Result<(), AllocError>
        requires whole { length words.now % 2 ≡ 0 }
        requires few { length words.now < 2 ^ 32 }
        ensures { IfOk result
            (λ _. Adds self.old self.new words.now (rebased (length words.now / 2) from to words.now)) }
    {
        self.settle()?;
        self.patch.rebase((words.len() / 2) as u32, from, to)?;
        Ok(())
    }

    /// The patch that was drawn up, with no room for more bytes where it holds many.
    pub fn finish(mut self) -> Result<Patch, AllocError>
        ensures { IfOk result (λ patch. patch ≡ settled self) }
    {
        self.settle()?;
        // Of few bytes it is only some pieces that there is room for, which isn't worth an allocation.
        if self.patch.byte_count() > FEW_BYTES as u64 {
            self.patch.shrink_to_fit();
        }
        Ok(self.patch)
    }

    /// These bytes more, which go.
    fn cut(&mut self, bytes: &[u8]) -> Result<(), AllocError>
        ensures { IfOk result (λ _. Adds self.old self.new bytes.now []) }
    {
        let mut rest = bytes;
        while !rest.is_empty() {
            let (part, behind) = rest.split_at(rest.len().min(LONGEST_PUT));
            self.replace(part, &[])?;
            rest = behind;
        }
        Ok(())
    }

    /// These bytes more, and others in their place.
    fn replace(&mut self, old: &[u8], new: &[u8]) -> Result<(), AllocError>
        requires old { length old.now < 2 ^ 32 }
        requires new { length new.now < 2 ^ 32 }
        ensures { IfOk result (λ _. Adds self.old self.new old.now new.now) }
    {
        self.settle()?;
        self.patch.put(old, new)?;
        Ok(())
    }

    /// Makes a piece of the bytes that stay behind those of the patch.
    fn settle(&mut self) -> Result<(), AllocError>
        ensures { IfOk result (λ _. (self.new.patch ≡ settled self.old) × (self.new.kept ≡ 0)) }
    {
        if self.kept > 0 {
            self.patch.keep(self.kept)?;
            self.kept = 0;
        }
        Ok(())
    }
}
