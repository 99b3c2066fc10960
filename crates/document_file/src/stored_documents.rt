//! The documents to which a slot leads, whether or not it counts, opened to be read.
ghost use Rattle.std.specs.Prelude.{◌≡◌, ◌⊎◌, IsTrue, IfOk, IfErr, IfSome, IsErrOf, MatchResult, Ok, Err, is_some, true, length};
ghost use Rattle.vm_store.specs.Facts.{FailedSince, IsUnchanged};
ghost use Rattle.geos_model.specs.Document.{is_live, attributes_of, block_at};
ghost use Rattle.geos_model.specs.Image.{image};
ghost use Rattle.file_format.specs.Reading.{IsOpenRefusal, IsResourceFault, OnlyReadsStore};
ghost use Rattle.file_format.specs.Slots.{number_of, slot_stands};
ghost use Rattle.document_file.specs.Documents.{documents_in};
ghost use Rattle.document_file.specs.Effects.{Fails, IsDamage, SameStore};
ghost use Rattle.document_file.specs.StoredDocuments.{AreFileDocuments, LieIn, OnlyReadsDocuments, stored_state};

use crate::file::Refused;
use crate::opening::read_pair;
use crate::table::{Pair, Place, place_in, read_block};
use file_format::{check_slot, read_length, read_open_slot};
use geos_model::{Fault, VmHandle};
use std::alloc::Global;
use std::marker::Model;
use vm_store::Store;

// Reads the documents of a slot. NotDocument, Damaged, Memory, File.
fn read_slot_pair<S: Store>(alloc: Global, store: &mut S, second: bool) -> Result<Pair, Fault>
    // The store.
    ensures looks { OnlyReadsStore (S.facts store.old) (S.facts store.new) }
    // The documents.
    ensures lie { IfOk result (LieIn (S.facts store.new)) }
    ensures stands { IfOk result (λ pair. IsTrue (S.facts store.old).honest
        → slot_stands (S.facts store.old).content (number_of second)
        ≡ Ok (documents_in (S.facts store.old).content pair)) }
    // Refusals.
    ensures refused { IfErr result (λ fault. IsTrue (S.facts store.old).honest
        → IsResourceFault fault ⊎ (slot_stands (S.facts store.old).content (number_of second) ≡ Err fault)) }
    ensures file { IsErrOf result Fault.File → FailedSince (S.facts store.old) (S.facts store.new) }
    ensures refusals { IfErr result IsOpenRefusal }
{
    let file_length = read_length(store)?;
    let slot = read_open_slot(store, file_length, second)?;
    check_slot(&slot)?;
    let pair = read_pair(alloc, store, file_length, slot)?;
    Ok(pair)
}

/// The updated and the saved document to which a slot leads, to be read. Nothing is written to the store.
#[derive(Drop)]
pub struct StoredDocuments<S: Store> {
    alloc: Global,
    store: S,
    pair: Pair,
}

impl<S: Store> Model for StoredDocuments<S> {
    ghost use Rattle.document_file.specs.StoredDocuments.{LieIn, StoredState, stored_state, stored_state_code};

    ghost Value = { StoredState S };

    ghost coded = { stored_state_code S.code };

    ghost view = { λ d. stored_state S.facts d.store d.pair };

    ghost invariant = { λ d. LieIn (S.facts d.store) d.pair };
}

impl<S: Store> StoredDocuments<S> {
    /// Documents that lie in a store.
    pub(crate) fn of(alloc: Global, store: S, pair: Pair) -> StoredDocuments<S>
        requires { LieIn (S.facts store) pair }
        ensures { result ≡ stored_state S.facts store pair }
    {
        StoredDocuments { alloc, store, pair }
    }

    /// Opens the second slot of a file, or the first, whether or not it counts: NotDocument where it isn't open, and
    /// else as an opening of the file would answer if this slot counted. The store isn't synced.
    pub fn open_slot(
        alloc: Global,
        mut store: S,
        second: bool,
    ) -> Result<StoredDocuments<S>, Refused<S>>
        // The store.
        ensures store { MatchResult result
            (λ documents. SameStore S.facts store documents.store)
            (λ refused. SameStore S.facts store refused.store) }
        // Nothing is written.
        ensures unchanged { IsTrue (S.facts store).honest → MatchResult result
            (λ documents. IsUnchanged (S.facts store) (S.facts documents.store))
            (λ refused. IsUnchanged (S.facts store) (S.facts refused.store)) }
        // The documents.
        ensures stands { IfOk result (λ documents. IsTrue (S.facts store).honest
            → slot_stands (S.facts store).content (number_of second) ≡ Ok (documents.updated, documents.saved)) }
        // Refusals.
        ensures refused { IfErr result (λ refused. IsTrue (S.facts store).honest
            → IsResourceFault refused.fault
            ⊎ (slot_stands (S.facts store).content (number_of second) ≡ Err refused.fault)) }
        ensures file { IfErr result (λ refused. refused.fault ≡ Fault.File
            → FailedSince (S.facts store) (S.facts refused.store)) }
        ensures refusals { IfErr result (λ refused. IsOpenRefusal refused.fault) }
    {
        match read_slot_pair(alloc, &mut store, second) {
            Ok(pair) => Ok(StoredDocuments { alloc, store, pair }),
            Err(fault) => Err(Refused { fault, store }),
        }
    }

    /// It does nothing: its caller learns what always holds of the documents.
    pub fn reveal_invariant(&self)
        ensures { AreFileDocuments S.facts self.now }
    {
        // What is always so of the fields is known where one is named.
        let _ = &self.pair;
    }

    /// Where a block of the updated document lies, its attributes and its kind; None where it isn't live there.
    pub fn entry(&self, block: VmHandle) -> Option<Place>
        ensures live { is_some result ≡ is_live self.now.updated block.0 }
        ensures attributes { IfSome result (λ place. place.attributes ≡ attributes_of self.now.updated block.0) }
    {
        place_in(&self.pair.updated.table, block)
    }

    /// The same of the saved document.
    pub fn saved_entry(&self, block: VmHandle) -> Option<Place>
        ensures live { is_some result ≡ is_live self.now.saved block.0 }
        ensures attributes { IfSome result (λ place. place.attributes ≡ attributes_of self.now.saved block.0) }
    {
        place_in(&self.pair.saved.table, block)
    }

    /// The map block of the updated document, 0 if there is none.
    pub fn map_block(&self) -> VmHandle
        ensures { result.0 ≡ self.now.updated.map_block }
    {
        VmHandle(self.pair.updated.table.map_block)
    }

    /// That of the saved document.
    pub fn saved_map_block(&self) -> VmHandle
        ensures { result.0 ≡ self.now.saved.map_block }
    {
        VmHandle(self.pair.saved.table.map_block)
    }

    /// The image of a block of the updated document. Damaged where its sum is another, which over an honest store never
    /// comes; Memory, File.
    pub fn read_block(&mut self, block: VmHandle) -> Result<Vec<u8>, Fault>
        requires { is_live self.old.updated block.0 ≡ true }
        ensures reads { OnlyReadsDocuments S.facts self.old self.new }
        ensures image { IfOk result (λ bytes. IsTrue (S.facts self.old.store).honest
            → bytes.items ≡ image (block_at self.old.updated block.0).body) }
        ensures fails { Fails S.facts (IsDamage (S.facts self.old.store).honest)
            self.old.store self.new.store result }
    {
        read_block(self.alloc, &mut self.store, &self.pair.updated.table, block)
    }

    /// That of a block of the saved document.
    pub fn read_saved(&mut self, block: VmHandle) -> Result<Vec<u8>, Fault>
        requires { is_live self.old.saved block.0 ≡ true }
        ensures reads { OnlyReadsDocuments S.facts self.old self.new }
        ensures image { IfOk result (λ bytes. IsTrue (S.facts self.old.store).honest
            → bytes.items ≡ image (block_at self.old.saved block.0).body) }
        ensures fails { Fails S.facts (IsDamage (S.facts self.old.store).honest)
            self.old.store self.new.store result }
    {
        read_block(self.alloc, &mut self.store, &self.pair.saved.table, block)
    }
}
