//! Bytes and chunks, which contracts see as a list and as a finite map.
ghost use Rattle.std.specs.Prelude.{◌≡◌, List, ℕ};

use crate::ChunkHandle;
use std::marker::Model;

/// Bytes that contracts see as a list.
#[derive(Drop)]
pub struct Bytes {
    items: Vec<u8>,
}

impl Model for Bytes {
    ghost Value = { List ℕ };

    ghost view = { λ b. b.items.items };
}

impl Bytes {
    /// Takes over the vector, without a copy.
    pub fn from_vec(items: Vec<u8>) -> Self
        ensures { result ≡ items.items }
    {
        Bytes { items }
    }

    pub fn as_slice(&self) -> &[u8]
        ensures { result.now ≡ self.now }
    {
        self.items.as_slice()
    }

    /// Gives the vector back, without a copy.
    pub fn into_vec(self) -> Vec<u8>
        ensures { result.items ≡ self }
    {
        self.items
    }
}

/// The chunks of a heap, which contracts see as a finite map from handles to bytes: the body of a heap block, as the
/// definitions speak of it. Code keeps chunks in a heap.
#[derive(Drop)]
pub struct Chunks {
    items: Vec<(ChunkHandle, Bytes)>,
}

impl Model for Chunks {
    ghost use Rattle.std.specs.Prelude.{List, ℕ, map};
    ghost use Rattle.std.specs.Ordering.{nat_cmp};
    ghost use Rattle.std.specs.Coded.{coded_ℕ, coded_list};
    ghost use Rattle.std.specs.FinMap.{FinMap, code, from_entries};

    ghost Value = { FinMap nat_cmp (List ℕ) };

    ghost coded = { code coded_ℕ (coded_list coded_ℕ) };

    ghost view = { λ c. from_entries (map (λ e. (e.0.0, e.1)) c.items.items) };
}
