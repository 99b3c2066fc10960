//! Of which kind the body of an image is.
ghost use Rattle.std.specs.Prelude.{◌≡◌};
ghost use Rattle.file_format.specs.Kinds.{byte_of, is_heap_kind, body_kind_of};

/// The kind of a body, which the first byte of its image tells.
#[derive(Clone, Copy, Debug, PartialEq, Eq)]
pub enum BodyKind {
    Raw,
    Heap,
}

impl BodyKind {
    /// The first byte of an image of this kind.
    pub fn byte(self) -> u8
        ensures { result ≡ byte_of self }
    {
        match self {
            BodyKind::Raw => 0,
            BodyKind::Heap => 1,
        }
    }

    /// Of which kind an image is that begins with this byte, if it is one: what begins with neither kind's is taken for
    /// a heap's, and is found to be none where its table is read.
    pub fn of_byte(byte: u8) -> BodyKind
        ensures { result ≡ body_kind_of byte }
    {
        if byte == 0 {
            BodyKind::Raw
        } else {
            BodyKind::Heap
        }
    }

    pub fn is_heap(self) -> bool
        ensures { result ≡ is_heap_kind self }
    {
        match self {
            BodyKind::Raw => false,
            BodyKind::Heap => true,
        }
    }
}
