//! Which documents of files are compared.
ghost use Rattle.std.specs.Prelude.{◌≡◌, IfOk, IfSome, IsTrue, is_some, true};
ghost use Rattle.geos_model.specs.Document.{attributes_of, block_at, is_live};
ghost use Rattle.geos_model.specs.Image.{image};
ghost use Rattle.document_file.specs.Effects.{Fails, IsDamage};
ghost use Rattle.document_file.specs.StoredDocuments.{OnlyReadsDocuments};
ghost use Rattle.document_diff.specs.Diffs.{document_by};

use document_file::StoredDocuments;
use geos_model::{Attributes, Fault, VmHandle};
use vm_store::Store;

/// Which documents of files are compared.
#[derive(Clone, Copy, Debug, PartialEq, Eq)]
pub enum Version {
    /// The updated ones: what a program sees that opens the files.
    Updated,
    /// The saved ones.
    Saved,
}

impl Version {
    /// The attributes of a block, None where it isn't live.
    pub fn attributes<S: Store>(
        self,
        file: &StoredDocuments<S>,
        block: VmHandle,
    ) -> Option<Attributes>
        ensures live { is_some result ≡ is_live (document_by self file.now) block.0 }
        ensures attributes { IfSome result (λ a. a ≡ attributes_of (document_by self file.now) block.0) }
    {
        let place = match self {
            Version::Updated => file.entry(block),
            Version::Saved => file.saved_entry(block),
        };
        match place {
            Some(place) => Some(place.attributes),
            None => None,
        }
    }

    /// The map block, 0 if there is none.
    pub fn map_block<S: Store>(self, file: &StoredDocuments<S>) -> VmHandle
        ensures { result.0 ≡ (document_by self file.now).map_block }
    {
        match self {
            Version::Updated => file.map_block(),
            Version::Saved => file.saved_map_block(),
        }
    }

    /// The image of a block. Damaged where its sum is another, which over an honest store never comes; Memory, File.
    pub fn read<S: Store>(
        self,
        file: &mut StoredDocuments<S>,
        block: VmHandle,
    ) -> Result<Vec<u8>, Fault>
        requires { is_live (document_by self file.old) block.0 ≡ true }
        ensures reads { OnlyReadsDocuments S.facts file.old file.new }
        ensures image { IfOk result (λ bytes. IsTrue (S.facts file.old.store).honest
            → bytes.items ≡ image (block_at (document_by self file.old) block.0).body) }
        ensures fails { Fails S.facts (IsDamage (S.facts file.old.store).honest)
            file.old.store file.new.store result }
    {
        match self {
            Version::Updated => file.read_block(block),
            Version::Saved => file.read_saved(block),
        }
    }
}
