//! A document file: its calls.
ghost use Rattle.std.specs.Prelude.{if◌then◌else◌, ◌≡◌, ◌≢◌, ◌⊎◌, ◌||◌, ◌↔◌, ◌≤◌, ◌<◌, ◌+◌, ℕ, List, [], ◌∷◌, All, IsTrue, IfOk, IfErr, IfSome, OnOk, OnErr, IsErrOf, IsOk, MatchResult, Ok, Err, None, Some, true, false, is_some, length, map, drop};
ghost use Rattle.std.specs.Option.{option_map};
ghost use Rattle.std.specs.FinMap.{get, keys};
ghost use Rattle.vm_store.specs.Facts.{FailedSince, IsUnchanged};
ghost use Rattle.geos_model.specs.Document.{empty_document, is_live, is_vm_handle, next_handle, most_blocks, attributes_of, with_attributes, with_body, block_at, is_heap, raw_bytes_of, IsTyped};
ghost use Rattle.geos_model.specs.Image.{image};
ghost use Rattle.geos_model.specs.declared.command.Body.TheVariants as bodies;
ghost use Rattle.geos_model.specs.Reply.{found};
ghost use Rattle.file_format.specs.File.{bytes_in, directory_text, open_slot, stands};
ghost use Rattle.document_file.specs.Disk.{FileState, ContentStands, SameUnlessCorrupt, KeepsCommitted, IsCrashConsistent, HasSequence, unmarked};
ghost use Rattle.document_file.specs.Effects.{IsFile, IsNewFile, IsTurned, KeepsSlot, SameStore, OnlyReads, LeavesDocument, IsCommit, Fails, NoFault, IsDamage, IsWorn};
ghost use Rattle.document_file.specs.Documents.{has_checksums, has_one_directory, sequence_in};
ghost use Rattle.document_file.specs.Fronts.{first_word};
ghost use Rattle.document_file.specs.Listing.{IsListed};
ghost use Rattle.document_file.specs.Images.{IsRawImage};
ghost use Rattle.document_file.specs.Making.{first_directory, first_file, first_open, no_blocks};
ghost use Rattle.file_format.specs.Reading.{IsResourceFault, IsOpenRefusal};
ghost use Rattle.document_file.specs.Calls.{IsPut, put_all, remove_all, IsImageLength, last_sequence};

use crate::commit::{commit_pending, commit_summed, saved_beside};
use crate::copying::copy_document;
use crate::directory::{pending_directory_of, saved_anew};
use crate::front::read_first_word;
use crate::listing::{Bounds, bounds_of, find_from, first_free, list_live, tightened, widened};
use crate::making::make_empty;
use crate::member::Member;
use crate::placing::{follow_commit, known_space};
use crate::reverting::{commit_reverted, reverted_anew, reverted_pair};
use crate::slot::Slots;
use crate::stored_documents::StoredDocuments;
use crate::sums::has_sums;
use crate::table::{
    BlockTable, Place, change_places, copy_table, make_room, move_block, place_in, read_block,
    read_raw, rewritten, set_attributes,
};
use crate::turning::opened_slots;
use crate::writing::{write_image, write_puts};
use file_format::MOST_ENTRIES;
use file_space::FreeSpace;
use geos_model::{Attributes, Fault, VmHandle};
use raw_region::{RawBody, Region};
use std::alloc::{AllocError, Global};
use std::marker::Model;
use vm_store::Store;

/// A document file over a store. What was committed stays where it lies until another commit is acknowledged, so that a
/// crash at any moment leaves the updated and the saved document of the last acknowledged commit, or those of a commit
/// that was tried since.
#[derive(Drop)]
pub struct VmFile<S: Store> {
    alloc: Global,
    store: S,
    live: BlockTable,
    slots: Slots,
    // What is free around all that lies in the file and stays, where it is known. The first image or directory that is
    // placed finds it out. A commit of the live document keeps it, unless an earlier one is in doubt. What is refused
    // may forget it, and what changes the tables as a whole does.
    space: Option<FreeSpace>,
    // Where the live table has blocks.
    bounds: Bounds,
}

/// Why a store wasn't taken, and the store.
#[derive(Drop)]
pub struct Refused<S> {
    pub fault: Fault,
    pub store: S,
}

impl<S: Store> Model for VmFile<S> {
    ghost use Rattle.document_file.specs.Disk.{FileState, file_state_code};
    ghost use Rattle.document_file.specs.Documents.{document_in};
    ghost use Rattle.document_file.specs.Sound.{disk_of, IsSoundFile};

    ghost Value = { FileState S };

    ghost coded = { file_state_code S.code };

    ghost view = { λ f. record {
      disk = disk_of S.facts f.store f.slots;
      document = document_in (S.facts f.store).content f.live;
    } };

    ghost invariant = { λ f. IsSoundFile (S.facts f.store) f.live f.slots f.space f.bounds };
}

impl<S: Store> VmFile<S> {
    /// Makes the store an empty document file, whatever was in it: of version 3 with `checksums`, else of version 2.
    /// Memory, before the store is called; File.
    pub fn create(alloc: Global, store: S, checksums: bool) -> Result<VmFile<S>, Refused<S>>
        // The store.
        ensures store { MatchResult result
            (λ file. SameStore S.facts store file.disk.store)
            (λ refused. SameStore S.facts store refused.store) }
        // The file.
        ensures made { IfOk result (λ file. (file.document ≡ empty_document)
            × IsNewFile S.facts empty_document file.disk) }
        ensures checksums { IfOk result (λ file. file.disk.checksums ≡ checksums) }
        // The slots, of which the first one counts, and a directory of no block.
        ensures bytes { IfOk result (λ file. IsTrue (S.facts store).honest
            → (S.facts file.disk.store).content ≡ first_file checksums) }
        ensures size { IfOk result (λ file. IsTrue (S.facts store).honest
            → length (S.facts file.disk.store).content ≡ 1040) }
        ensures first { IfOk result (λ file. IsTrue (S.facts store).honest
            → open_slot (S.facts file.disk.store).content 0 ≡ Some (first_open checksums)) }
        ensures second { IfOk result (λ file. IsTrue (S.facts store).honest
            → open_slot (S.facts file.disk.store).content 1 ≡ None) }
        ensures directory { IfOk result (λ file. IsTrue (S.facts store).honest
            → bytes_in (S.facts file.disk.store).content first_directory
            ≡ directory_text (no_blocks checksums)) }
        // Refusals.
        ensures early { IfErr result (λ refused. refused.fault ≢ Fault.File → refused.store ≡ store) }
        ensures file { IfErr result (λ refused. refused.fault ≡ Fault.File
            → FailedSince (S.facts store) (S.facts refused.store)) }
        ensures refusals { IfErr result (λ refused. IsResourceFault refused.fault) }
    {
        let mut store = store;
        match make_empty(alloc, &mut store, checksums) {
            Ok(made) => Ok(VmFile {
                alloc,
                store,
                bounds: bounds_of(&made.live.places),
                live: made.live,
                slots: made.slots,
                space: None,
            }),
            Err(fault) => Err(Refused { fault, store }),
        }
    }

    /// Opens the file that a store has: NotDocument or Damaged where it is none, and the store comes back as it was.
    /// Where a crash left the store, what is read is on the disk from then on. With `checksums` a file of version 1 or
    /// 2 is one of version 3 from its next commit on: each of its images is read for its sum. Memory, File.
    pub fn open(alloc: Global, mut store: S, checksums: bool) -> Result<VmFile<S>, Refused<S>>
        // The store.
        ensures store { MatchResult result
            (λ file. SameStore S.facts store file.disk.store)
            (λ refused. SameStore S.facts store refused.store) }
        // Nothing is written.
        ensures unchanged { IsTrue (S.facts store).honest → MatchResult result
            (λ file. IsUnchanged (S.facts store) (S.facts file.disk.store))
            (λ refused. IsUnchanged (S.facts store) (S.facts refused.store)) }
        // The file.
        ensures stands { IfOk result (λ file. IsTrue (S.facts store).honest
            → stands (S.facts store).content ≡ Ok (file.disk.updated, file.disk.saved)) }
        ensures document { IfOk result (λ file. (file.document ≡ file.disk.updated) × (file.disk.in_doubt ≡ [])) }
        ensures numbered { IfOk result (λ file. IsTrue (S.facts store).honest
            → sequence_in (S.facts store).content ≡ Some file.disk.sequence) }
        ensures numbered_now { IfOk result (λ file. IsTrue (S.facts store).honest
            → HasSequence (S.facts file.disk.store) file.disk.sequence) }
        ensures crash_consistent { IfOk result (λ file. IsCrashConsistent S.facts file.disk) }
        ensures unmarked { IfOk result (λ file. file.disk.marked ≡ None) }
        ensures checksums { IfOk result (λ file. IsTrue (S.facts store).honest
            → file.disk.checksums ≡ (checksums || has_checksums (S.facts store).content)) }
        // Refusals.
        ensures refused { IfErr result (λ refused. IsTrue (S.facts store).honest
            → IsResourceFault refused.fault ⊎ (stands (S.facts store).content ≡ Err refused.fault)) }
        ensures file { IfErr result (λ refused. refused.fault ≡ Fault.File
            → FailedSince (S.facts store) (S.facts refused.store)) }
        ensures refusals { IfErr result (λ refused. IsOpenRefusal refused.fault) }
    {
        match opened_slots(alloc, &mut store, checksums) {
            Ok((slots, live)) => Ok(VmFile {
                alloc,
                store,
                bounds: bounds_of(&live.places),
                live,
                slots,
                space: None,
            }),
            Err(fault) => Err(Refused { fault, store }),
        }
    }

    /// Where a block lies, its attributes and its kind; None where it isn't live.
    pub fn entry(&self, block: VmHandle) -> Option<Place>
        ensures live { is_some result ≡ is_live self.now.document block.0 }
        ensures attributes { IfSome result (λ place. place.attributes ≡ attributes_of self.now.document block.0) }
        ensures kind { IfSome result (λ place. place.is_heap ≡ is_heap self.now.document block.0) }
        ensures handle { IfSome result (λ place. is_vm_handle block.0 ≡ true) }
        ensures length { IfSome result (λ place. IsImageLength place.extent.length) }
        ensures image { IfSome result (λ place. IsTrue (S.facts self.now.disk.store).honest
            → bytes_in (S.facts self.now.disk.store).content place.extent
            ≡ image (block_at self.now.document block.0).body) }
        ensures size { IfSome result (λ place. IsTrue (S.facts self.now.disk.store).honest
            → length (image (block_at self.now.document block.0).body) ≡ place.extent.length) }
    {
        place_in(&self.live, block)
    }

    /// It does nothing: its caller learns what always holds of a file.
    pub fn reveal_invariant(&self)
        ensures { IsFile S.facts self.now }
    {
        // What is always so of the fields is known where one is named.
        let _ = &self.slots;
    }

    /// Where a block of the saved document lies, its attributes and its kind; None where it isn't live there.
    pub fn saved_entry(&self, block: VmHandle) -> Option<Place>
        ensures live { is_some result ≡ is_live self.now.disk.saved block.0 }
        ensures attributes { IfSome result (λ place. place.attributes ≡ attributes_of self.now.disk.saved block.0) }
        ensures handle { IfSome result (λ place. is_vm_handle block.0 ≡ true) }
    {
        place_in(&self.slots.committed.saved.table, block)
    }

    /// The map block of the saved document, 0 if there is none.
    pub fn saved_map_block(&self) -> VmHandle
        ensures { result.0 ≡ self.now.disk.saved.map_block }
    {
        VmHandle(self.slots.committed.saved.table.map_block)
    }

    /// The image of a block of the saved document. Damaged where its sum is another, which over an honest store never
    /// comes; Memory, File.
    pub fn read_saved(&mut self, block: VmHandle) -> Result<Vec<u8>, Fault>
        requires { is_live self.old.disk.saved block.0 ≡ true }
        ensures reads { OnlyReads S.facts self.old self.new }
        ensures saved { SameUnlessCorrupt (S.facts self.old.disk.store).honest self.old.disk.saved self.new.disk.saved }
        ensures image { IfOk result (λ bytes. IsTrue (S.facts self.old.disk.store).honest
            → bytes.items ≡ image (block_at self.old.disk.saved block.0).body) }
        ensures fails { Fails S.facts (IsDamage (S.facts self.old.disk.store).honest)
            self.old.disk.store self.new.disk.store result }
    {
        let saved = &self.slots.committed.saved.table;
        read_block(self.alloc, &mut self.store, saved, block)
    }

    /// The map block, 0 if there is none.
    pub fn map_block(&self) -> VmHandle
        ensures { result.0 ≡ self.now.document.map_block }
    {
        VmHandle(self.live.map_block)
    }

    /// The live handles, rising.
    pub fn list(&self) -> Result<Vec<VmHandle>, AllocError>
        ensures { IfOk result (λ handles. map (λ h. h.0) handles.items ≡ keys self.now.document.blocks) }
    {
        let mut handles = Vec::new(self.alloc);
        self.list_into(&mut handles)?;
        Ok(handles)
    }

    /// Puts the live handles, rising, in place of those that are there. No memory is taken where they have room; where
    /// it lacks, the first of them are there.
    pub fn list_into(&self, handles: &mut Vec<VmHandle>) -> Result<(), AllocError>
        ensures { IsListed (keys self.now.document.blocks) handles.old handles.new result }
    {
        list_live(&self.live.places[..self.bounds.end], handles)
    }

    /// The least handle above `start` whose block has this user ID.
    pub fn find(&self, user_id: u16, start: VmHandle) -> Option<VmHandle>
        ensures { option_map (λ h. h.0) result ≡ found self.now.document user_id start.0 }
    {
        find_from(&self.live.places[..self.bounds.end], user_id, start.0)
    }

    /// The least handle that isn't live.
    pub fn next_handle(&self) -> Option<VmHandle>
        ensures value { option_map (λ h. h.0) result ≡ next_handle self.now.document }
        ensures within { IfSome result (λ h. is_vm_handle h.0 ≡ true) }
        ensures free { IfSome result (λ h. get self.now.document.blocks h.0 ≡ None) }
    {
        let gap = first_free(&self.live.places, self.bounds.gap);
        if gap < MOST_ENTRIES {
            Some(VmHandle(gap as u16 + 1))
        } else {
            None
        }
    }

    /// The image of a block. Damaged where its sum is another, which over an honest store never comes; Memory, File.
    pub fn read_block(&mut self, block: VmHandle) -> Result<Vec<u8>, Fault>
        requires { is_live self.old.document block.0 ≡ true }
        ensures reads { OnlyReads S.facts self.old self.new }
        ensures image { IfOk result (λ bytes. IsTrue (S.facts self.old.disk.store).honest
            → bytes.items ≡ image (block_at self.old.document block.0).body) }
        ensures size { IfOk result (λ bytes. IsImageLength (length bytes.items)) }
        ensures fails { Fails S.facts (IsDamage (S.facts self.old.disk.store).honest)
            self.old.disk.store self.new.disk.store result }
    {
        read_block(self.alloc, &mut self.store, &self.live, block)
    }

    /// The bytes of a raw block, read right into a region. Damaged where the sum of its image is another, which over an
    /// honest store never comes; File.
    pub fn read_raw(&mut self, block: VmHandle, region: Region) -> Result<RawBody, Fault>
        requires live { is_live self.old.document block.0 ≡ true }
        requires raw { is_heap self.old.document block.0 ≡ false }
        ensures reads { OnlyReads S.facts self.old self.new }
        ensures body { IfOk result (λ body. IsTrue (S.facts self.old.disk.store).honest
            → (block_at self.old.document block.0).body ≡ bodies.Raw body) }
        ensures fails { Fails S.facts (IsDamage (S.facts self.old.disk.store).honest)
            self.old.disk.store self.new.disk.store result }
    {
        read_raw(&mut self.store, &self.live, block, region)
    }

    /// The first word of a raw block, without the bytes behind it. None where it has no word, or where images have
    /// sums: then only the whole image tells whether it is damaged. File; no memory.
    pub fn read_first_word(&mut self, block: VmHandle) -> Result<Option<u16>, Fault>
        requires live { is_live self.old.document block.0 ≡ true }
        requires raw { is_heap self.old.document block.0 ≡ false }
        ensures reads { OnlyReads S.facts self.old self.new }
        ensures word { IfOk result (λ word. IsTrue (S.facts self.old.disk.store).honest
            → word ≡ first_word self.old.disk.checksums (raw_bytes_of self.old.document block.0)) }
        ensures fails { IfErr result (λ fault. (fault ≡ Fault.File)
            × FailedSince (S.facts self.old.disk.store) (S.facts self.new.disk.store)) }
    {
        read_first_word(&mut self.store, &self.live, block)
    }

    /// Sets the attributes of a block. Only a heap has a type.
    pub fn set_attributes(&mut self, block: VmHandle, attributes: Attributes)
        requires live { is_live self.old.document block.0 ≡ true }
        requires typed { IsTyped (is_heap self.old.document block.0) attributes }
        ensures { self.new ≡ record self.old { document = with_attributes self.old.document block.0 attributes } }
    {
        set_attributes(&mut self.live.places, block, attributes);
    }

    /// Sets the map block, 0 for none.
    pub fn set_map(&mut self, block: VmHandle)
        requires { (block.0 ≡ 0) ⊎ (is_live self.old.document block.0 ≡ true) }
        ensures { self.new ≡ record self.old { document = record self.old.document { map_block = block.0 } } }
    {
        self.live.map_block = block.0;
    }

    /// Writes the images of blocks, and then puts all these blocks into the document and takes others out. Where it is
    /// refused nothing of that is done. Memory, before anything is written; File. With nothing to write it takes no
    /// memory, calls no store and isn't refused.
    pub fn put_blocks(&mut self, puts: &[Member], removals: &[VmHandle]) -> Result<(), Fault>
        // Asked of the caller.
        requires puts { All IsPut puts.now }
        requires few { length puts.now ≤ most_blocks }
        requires removals { All (λ h. h.0 ≢ self.old.document.map_block) removals.now }
        // The document.
        ensures keeps { MatchResult result
            (λ _. LeavesDocument S.facts
            (remove_all removals.now (put_all puts.now self.old.document)) self.old self.new)
            (λ _. LeavesDocument S.facts self.old.document self.old self.new) }
        // Refusals.
        ensures early { IfErr result (λ fault. fault ≢ Fault.File → self.new ≡ self.old) }
        ensures removals_alone { puts.now ≡ []
            → IsOk result × (self.new ≡ record self.old { document = remove_all removals.now self.old.document }) }
        ensures fails { Fails S.facts NoFault self.old.disk.store self.new.disk.store result }
    {
        let bounds = widened(self.bounds, puts, removals);
        make_room(&mut self.live.places, bounds.end)?;
        let written = write_puts(
            self.alloc,
            &mut self.store,
            &self.live.places,
            &self.slots,
            self.space.take(),
            puts,
        )?;
        let mut space = written.space;
        change_places(
            &mut self.live.places,
            puts,
            &written.extents,
            removals,
            &self.slots,
            &mut space,
        );
        self.space = space;
        self.bounds = tightened(&self.live.places, bounds);
        Ok(())
    }

    /// Writes another body of a raw block, as its image lies in memory, and puts it into the document. Where it is
    /// refused nothing of that is done. Memory, before anything is written; File.
    pub fn put_raw_image(&mut self, block: VmHandle, image: &[u8]) -> Result<(), Fault>
        // Asked of the caller.
        requires live { is_live self.old.document block.0 ≡ true }
        requires raw { is_heap self.old.document block.0 ≡ false }
        requires image { IsRawImage image.now }
        // The document.
        ensures keeps { MatchResult result
            (λ _. LeavesDocument S.facts
            (with_body self.old.document block.0 (bodies.Raw (drop 1 image.now))) self.old self.new)
            (λ _. LeavesDocument S.facts self.old.document self.old self.new) }
        // Refusals.
        ensures early { IfErr result (λ fault. fault ≢ Fault.File → self.new ≡ self.old) }
        ensures fails { Fails S.facts NoFault self.old.disk.store self.new.disk.store result }
    {
        let place = place_in(&self.live, block).unwrap();
        let written = write_image(
            self.alloc,
            &mut self.store,
            &self.live.places,
            &self.slots,
            self.space.take(),
            image,
        )?;
        let place = rewritten(place, self.slots.next_version, written.extent, image);
        let mut space = Some(written.space);
        move_block(&mut self.live.places, block, place, &self.slots, &mut space);
        self.space = space;
        Ok(())
    }

    /// Marks the document as it is now, in place of one that was marked, so that `roll_back` can bring it back: until
    /// then nothing is written over its images. Memory.
    pub fn mark(&mut self) -> Result<(), AllocError>
        ensures ok { OnOk result
            (self.new ≡ record self.old { disk = record self.old.disk { marked = Some self.old.document } }) }
        ensures err { OnErr result (self.new ≡ self.old) }
    {
        let marked = copy_table(self.alloc, &self.live)?;
        self.slots.marked = Some(marked);
        self.space = None;
        Ok(())
    }

    /// Makes the marked document the one as it is now; none is marked then. No memory, no store.
    pub fn roll_back(&mut self)
        requires { is_some self.old.disk.marked ≡ true }
        ensures document { Some self.new.document ≡ self.old.disk.marked }
        ensures disk { self.new.disk ≡ unmarked self.old.disk }
    {
        if let Some(marked) = self.slots.marked.take() {
            self.live = marked;
            self.space = None;
            self.bounds = bounds_of(&self.live.places);
        }
    }

    /// Forgets the marked document, if one is. No memory, no store.
    pub fn release(&mut self)
        ensures { self.new ≡ record self.old { disk = unmarked self.old.disk } }
    {
        self.slots.marked = None;
        self.space = None;
    }

    /// Makes the document as it is now the updated one. Worn where the sequence number can't rise, before anything else
    /// is done; Memory, before anything is written; File.
    pub fn commit_update(&mut self) -> Result<(), Fault>
        ensures commit { IsCommit S.facts (self.old.document, self.old.disk.saved) self.old.document
            self.old self.new result }
        ensures turned { OnOk result (IsTurned S.facts self.old.disk self.new.disk) }
        ensures kept { OnOk result (KeepsSlot S.facts self.old.disk self.new.disk) }
        ensures early { IfErr result (λ fault. fault ≢ Fault.File → self.new ≡ self.old) }
        ensures fails { Fails S.facts IsWorn self.old.disk.store self.new.disk.store result }
    {
        self.commit_live(false)
    }

    /// Makes the document as it is now the updated and the saved one. Refused as an update is.
    pub fn commit_save(&mut self) -> Result<(), Fault>
        ensures commit { IsCommit S.facts (self.old.document, self.old.document) self.old.document
            self.old self.new result }
        ensures turned { OnOk result (IsTurned S.facts self.old.disk self.new.disk) }
        ensures kept { OnOk result (KeepsSlot S.facts self.old.disk self.new.disk) }
        ensures early { IfErr result (λ fault. fault ≢ Fault.File → self.new ≡ self.old) }
        ensures fails { Fails S.facts IsWorn self.old.disk.store self.new.disk.store result }
    {
        self.commit_live(true)
    }

    // Makes the document as it is now the updated one, and the saved one too where it `saves`.
    fn commit_live(&mut self, saves: bool) -> Result<(), Fault>
        ensures commit { IsCommit S.facts (self.old.document, if saves then self.old.document else self.old.disk.saved)
            self.old.document self.old self.new result }
        ensures turned { OnOk result (IsTurned S.facts self.old.disk self.new.disk) }
        ensures kept { OnOk result (KeepsSlot S.facts self.old.disk self.new.disk) }
        ensures early { IfErr result (λ fault. fault ≢ Fault.File → self.new ≡ self.old) }
        ensures fails { Fails S.facts IsWorn self.old.disk.store self.new.disk.store result }
    {
        if self.slots.sequence == u64::MAX {
            return Err(Fault::Worn);
        }
        let known = self.space.take();
        let mut space = known_space(self.alloc, &self.live.places, &self.slots, known)?;
        let pending = pending_directory_of(self.alloc, &self.live, &self.slots, &mut space)?;
        let anew = saved_anew(self.alloc, &self.slots, saves, &mut space)?;
        if let Some(anew) = anew {
            self.space = None;
            return commit_summed(&mut self.store, &mut self.slots, &self.live, pending, anew);
        }
        let saved = saved_beside(&pending, &self.slots, saves)?;
        let directory = pending.document.directory;
        let is_known = follow_commit(&mut space, directory, &self.live, &self.slots, saves);
        commit_pending(&mut self.store, &mut self.slots, &self.live, pending, saved)?;
        self.space = is_known.then_some(space);
        Ok(())
    }

    /// Makes the saved document the updated one and the document as it is now. Refused as an update is.
    pub fn commit_revert(&mut self) -> Result<(), Fault>
        ensures commit { IsCommit S.facts (self.old.disk.saved, self.old.disk.saved) self.old.disk.saved
            self.old self.new result }
        ensures turned { OnOk result (IsTurned S.facts self.old.disk self.new.disk) }
        ensures kept { OnOk result (KeepsSlot S.facts self.old.disk self.new.disk) }
        ensures early { IfErr result (λ fault. fault ≢ Fault.File → self.new ≡ self.old) }
        ensures fails { Fails S.facts IsWorn self.old.disk.store self.new.disk.store result }
    {
        if self.slots.sequence == u64::MAX {
            return Err(Fault::Worn);
        }
        let known = self.space.take();
        let anew = reverted_anew(self.alloc, &self.live, &self.slots, known)?;
        let pair = reverted_pair(&self.slots, &anew)?;
        let live = copy_table(self.alloc, &pair.saved.table)?;
        self.space = None;
        commit_reverted(&mut self.store, &mut self.slots, &self.live, pair, anew)?;
        self.live = live;
        self.bounds = bounds_of(&self.live.places);
        Ok(())
    }

    /// Makes another store a new file of the document as it is now, updated and saved, whatever was in it, with sums
    /// where commits of this one write them. What is read and isn't an image, or has another sum, which an honest store
    /// never gives, is Damaged; Memory, File.
    pub fn copy_to(&mut self, target: S) -> Result<VmFile<S>, Refused<S>>
        // The file that is copied.
        ensures reads { OnlyReads S.facts self.old self.new }
        // The target.
        ensures target { MatchResult result
            (λ file. SameStore S.facts target file.disk.store)
            (λ refused. SameStore S.facts target refused.store) }
        // The copy.
        ensures copied { IfOk result (λ file. IsTrue (S.facts self.old.disk.store).honest
            → IsTrue (S.facts target).honest → file.document ≡ self.old.document) }
        ensures handles { IfOk result (λ file. SameUnlessCorrupt false self.old.document file.document) }
        ensures made { IfOk result (λ file. IsNewFile S.facts file.document file.disk) }
        ensures checksums { IfOk result (λ file. file.disk.checksums ≡ self.old.disk.checksums) }
        // Refusals.
        ensures file { IfErr result (λ refused. refused.fault ≡ Fault.File
            → FailedSince (S.facts self.old.disk.store) (S.facts self.new.disk.store)
            ⊎ FailedSince (S.facts target) (S.facts refused.store)) }
        ensures damaged { IfErr result (λ refused. refused.fault ≡ Fault.Damaged
            → IsTrue (S.facts self.old.disk.store).honest → ⊥) }
        ensures refusals { IfErr result (λ refused. IsResourceFault refused.fault ⊎ (refused.fault ≡ Fault.Damaged)) }
    {
        let mut target = target;
        let checksums = has_sums(self.slots.next_version);
        match copy_document(
            self.alloc,
            &mut self.store,
            &self.live,
            &mut target,
            checksums,
        ) {
            Ok(made) => Ok(VmFile {
                alloc: self.alloc,
                store: target,
                bounds: bounds_of(&made.live.places),
                live: made.live,
                slots: made.slots,
                space: None,
            }),
            Err(fault) => Err(Refused {
                fault,
                store: target,
            }),
        }
    }

    /// Whether the sequence number is the last one, so that every commit is Worn.
    pub fn is_worn(&self) -> bool
        ensures { IsTrue result ↔ (self.now.disk.sequence ≡ last_sequence) }
    {
        self.slots.sequence == u64::MAX
    }

    /// Whether one directory serves the updated and the saved document. They may be the same where each has its own.
    pub fn has_one_directory(&self) -> bool
        ensures content { IsTrue (S.facts self.now.disk.store).honest → self.now.disk.in_doubt ≡ []
            → result ≡ has_one_directory (S.facts self.now.disk.store).content }
        ensures same { IsTrue (S.facts self.now.disk.store).honest → result ≡ true
            → self.now.disk.saved ≡ self.now.disk.updated }
    {
        let committed = &self.slots.committed;
        committed.updated.directory == committed.saved.directory
    }

    /// The updated and the saved document, to be read from now on.
    pub fn into_documents(self) -> StoredDocuments<S>
        ensures store { result.store ≡ self.disk.store }
        ensures updated { result.updated ≡ self.disk.updated }
        ensures saved { result.saved ≡ self.disk.saved }
    {
        let slots = self.slots;
        StoredDocuments::of(self.alloc, self.store, slots.committed)
    }

    /// Gives the store back. Nothing is written.
    pub fn close(self) -> S
        ensures { result ≡ self.disk.store }
    {
        self.store
    }
}
