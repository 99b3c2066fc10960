//! How many things there are, of what size, and which is the largest.
ghost use Rattle.std.specs.Prelude.{◌≤◌, ◌*◌};

use geos_model::{ChunkHandle, VmHandle};

/// What has a size: a block, or a chunk of one.
#[derive(Clone, Copy, Debug, PartialEq, Eq)]
pub enum Subject {
    Block(VmHandle),
    Chunk(VmHandle, ChunkHandle),
}

/// One of the things that are counted.
#[derive(Clone, Copy, Debug, PartialEq, Eq)]
pub struct Item {
    pub subject: Subject,
    /// Of a raw block its bytes, of a heap those that it needs, of a chunk its bytes, and of an array its elements.
    pub size: u32,
}

/// How many things there are, and their sizes.
#[derive(Clone, Copy)]
pub struct Tally {
    pub count: u64,
    /// Of all sizes.
    pub sum: u64,
    /// The first of the largest, None where there are none.
    pub largest: Option<Item>,
    ghost bounded: { sum ≤ count * 4294967295 },
}

impl Tally {
    ghost use Rattle.std.specs.Prelude.{List, [], ◌∷◌, ◌++◌};
    ghost use Rattle.document_stat.specs.Tallies.{AddsItems, IsLargest, IsTally};
    ghost use Rattle.document_stat.specs.declared.tally.Item.{Item};

    /// That of nothing.
    pub(crate) fn new() -> Tally
        ensures { IsTally [] result }
    {
        Tally {
            count: 0,
            sum: 0,
            largest: None,
        }
    }

    /// With one more. No document has so many that a number doesn't hold them.
    pub(crate) fn with(self, item: Item) -> Tally
        ensures { AddsItems (item ∷ []) self result }
    {
        Tally {
            count: self.count.saturating_add(1),
            sum: self.sum.saturating_add(u64::from(item.size)),
            largest: Some(Tally::larger(self.largest, item)),
        }
    }

    // The later one only where it is larger.
    fn larger(largest: Option<Item>, item: Item) -> Item
        ensures { (items : List Item) → IsLargest items largest → IsLargest (items ++ item ∷ []) (Some result) }
    {
        match largest {
            Some(largest) if item.size <= largest.size => largest,
            _ => item,
        }
    }
}
