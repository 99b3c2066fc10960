//! What is wrong with a block.
ghost use Rattle.std.specs.Prelude.{◌≡◌};
ghost use Rattle.file_salvage.specs.Entries.{flaw_words};

/// Why the block of an entry is left out, or what is wrong with one that is taken.
#[derive(Clone, Copy)]
pub enum Flaw {
    /// The text of the entry is none that can be there.
    Entry,
    /// Where it says is no image of a body that can have its type.
    Image,
    /// There is such an image, but it hasn't the sum that the entry gives.
    Sum,
    /// It is whole, but not in the longest row of entries whose handles can stand together.
    Order,
    /// There is such an image, which is taken, though it hasn't the sum that the entry gives.
    Taken,
}

impl Flaw {
    pub fn words(self) -> &'static str
        ensures { result.now ≡ flaw_words self }
    {
        match self {
            Flaw::Entry => " is left out: its entry is damaged\n",
            Flaw::Image => " is left out: its image is damaged\n",
            Flaw::Sum => " is left out: its sum is wrong\n",
            Flaw::Order => " is left out: its handle isn't in order\n",
            Flaw::Taken => " is taken, though its sum is wrong\n",
        }
    }
}
