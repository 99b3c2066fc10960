//! The documents of a file between which a dump's edits lead.
ghost use Rattle.std.specs.Prelude.{◌≡◌, IfSome, is_some};
ghost use Rattle.geos_model.specs.Document.{attributes_of, is_live};
ghost use Rattle.document_dump.specs.Versions.{new_in, old_in};

use document_file::StoredDocuments;
use geos_model::VmHandle;
use vm_store::Store;

/// A part of a dump.
#[derive(Clone, Copy)]
pub enum Stage {
    /// The saved document is made of none.
    Saved,
    /// The updated document is made of the saved one.
    Open,
}

impl Stage {
    /// Whether a block is live in the document from which the edits lead.
    pub fn was_live<S: Store>(self, file: &StoredDocuments<S>, block: VmHandle) -> bool
        ensures { result ≡ is_live (old_in self file.now) block.0 }
    {
        match self {
            Stage::Saved => false,
            Stage::Open => file.saved_entry(block).is_some(),
        }
    }

    /// Whether it is in the one to which they lead.
    pub fn is_live<S: Store>(self, file: &StoredDocuments<S>, block: VmHandle) -> bool
        ensures { result ≡ is_live (new_in self file.now) block.0 }
    {
        match self {
            Stage::Saved => file.saved_entry(block).is_some(),
            Stage::Open => file.entry(block).is_some(),
        }
    }

    /// The map block from which they lead, 0 for none.
    pub fn old_map<S: Store>(self, file: &StoredDocuments<S>) -> VmHandle
        ensures { result.0 ≡ (old_in self file.now).map_block }
    {
        match self {
            Stage::Saved => VmHandle(0),
            Stage::Open => file.saved_map_block(),
        }
    }

    /// The one to which they lead.
    pub fn new_map<S: Store>(self, file: &StoredDocuments<S>) -> VmHandle
        ensures { result.0 ≡ (new_in self file.now).map_block }
    {
        match self {
            Stage::Saved => file.saved_map_block(),
            Stage::Open => file.map_block(),
        }
    }
}
