//! What is known of a raw block, and read of it, without bringing it into memory.
ghost use Rattle.std.specs.Prelude.{◌≡◌, ◌≤◌, Ok, true, false, not, ◌&&◌, IfOk, IfErr, length};
ghost use Rattle.vm_store.specs.Facts.{FailedSince};
ghost use Rattle.geos_model.specs.Document.{is_live, is_raw, raw_bytes_of};
ghost use Rattle.geos_model.specs.Heap.{capacity};
ghost use Rattle.document_file.specs.Fronts.{first_word};
ghost use Rattle.vm_blocks.specs.Keeping.{KeepsBlocks, IsEnvironmentFault, IsHonest, is_loaded};

use super::FileBlocks;
use geos_model::{Fault, VmHandle};
use raw_region::{RawBody, Region};
use vm_store::Store;

impl<S: Store> FileBlocks<S> {
    /// How many bytes a raw block has, in memory or not; a heap has none of its own. No store is called.
    pub fn raw_len(&self, handle: VmHandle) -> usize
        requires { is_live self.now.document handle.0 ≡ true }
        ensures value { IsHonest S.facts self.now.disk.store
            → result ≡ length (raw_bytes_of self.now.document handle.0) }
        ensures loaded { is_loaded self.now handle.0 ≡ true
            → result ≡ length (raw_bytes_of self.now.document handle.0) }
        ensures small { result ≤ capacity }
    {
        if self.is_resident(handle) {
            return self.body(handle).raw_bytes().len();
        }
        let place = self.file.entry(handle).unwrap();
        if place.is_heap {
            0
        } else {
            place.extent.length as usize - 1
        }
    }

    /// The first word of a raw block. Where the block isn't in memory, that alone is read of it: None where it has no
    /// word, and where images have sums, since then only the whole image tells whether it is damaged. File. No memory
    /// is taken, and what is in memory stays, in the same order of use.
    pub fn first_word(&mut self, handle: VmHandle) -> Result<Option<u16>, Fault>
        requires { is_raw self.old.document handle.0 ≡ true }
        ensures keeps { KeepsBlocks S.facts self.old self.new }
        ensures stays { self.new.resident ≡ self.old.resident }
        ensures already { is_loaded self.old handle.0 ≡ true
            → (result ≡ Ok (first_word false (raw_bytes_of self.old.document handle.0))) × (self.new ≡ self.old) }
        ensures value { IfOk result (λ word. IsHonest S.facts self.old.disk.store
            → word ≡ first_word (self.old.disk.checksums && not (is_loaded self.old handle.0))
            (raw_bytes_of self.old.document handle.0)) }
        ensures fails { IfErr result (λ fault. (fault ≡ Fault.File)
            × FailedSince (S.facts self.old.disk.store) (S.facts self.new.disk.store)) }
    {
        if self.is_resident(handle) {
            return Ok(self.body(handle).first_word());
        }
        self.file.read_first_word(handle)
    }

    /// The body of a raw block, aside from the frames: it is copied where the block is in memory, and else read. What
    /// is in memory stays, in the same order of use. The region for it is the spare one, or else a new one. Memory,
    /// File; Damaged where what is read has another sum, which an honest store never gives.
    pub fn read_aside(
        &mut self,
        handle: VmHandle,
        spare: &mut Option<Region>,
    ) -> Result<RawBody, Fault>
        requires { is_raw self.old.document handle.0 ≡ true }
        ensures keeps { KeepsBlocks S.facts self.old self.new }
        ensures stays { self.new.resident ≡ self.old.resident }
        ensures value { IfOk result (λ body. IsHonest S.facts self.old.disk.store
            → body ≡ raw_bytes_of self.old.document handle.0) }
        ensures fails { IfErr result (IsEnvironmentFault S.facts self.old.disk.store self.new.disk.store) }
    {
        let region = match spare.take() {
            Some(region) => region,
            None => Region::new(self.alloc)?,
        };
        if self.is_resident(handle) {
            return Ok(RawBody::fill(region, self.body(handle).raw_bytes()));
        }
        self.file.read_raw(handle, region)
    }
}
