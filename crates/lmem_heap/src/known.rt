//! The bytes of a chunk, with what is known of them, so that it need not be tested again.
ghost use Rattle.std.specs.Prelude.{◌≡◌, true, IfSome};
ghost use Rattle.lmem_heap.specs.Known.{is_array_of};

use std::marker::Model;

/// What the bytes of a chunk can be known to be. Element arrays and name arrays are chunk arrays too.
#[derive(Clone, Copy, Debug, PartialEq, Eq)]
pub enum ArrayKind {
    Chunk,
    Element,
    Name,
}

/// The bytes of a chunk, of which it may be known that they are an array. Contracts see the bytes alone.
#[derive(Drop)]
pub struct KnownBytes<'a> {
    bytes: &'a [u8],
    kind: Option<ArrayKind>,
}

impl<'a> Model for KnownBytes<'a> {
    ghost use Rattle.std.specs.Prelude.{◌≡◌, ℕ, List, true, IfSome};
    ghost use Rattle.lmem_heap.specs.Known.{is_array_of};

    ghost Value = { List ℕ };

    ghost view = { λ known. known.bytes.now };

    ghost invariant = { λ known. IfSome known.kind (λ kind. is_array_of kind known.bytes.now ≡ true) };
}

impl<'a> KnownBytes<'a> {
    /// Bytes of which nothing is known.
    pub fn new(bytes: &'a [u8]) -> KnownBytes<'a>
        ensures { result ≡ bytes.now }
    {
        KnownBytes { bytes, kind: None }
    }

    /// Bytes that are an array of a kind, where one is given.
    pub(crate) fn of_kind(bytes: &'a [u8], kind: Option<ArrayKind>) -> KnownBytes<'a>
        requires { IfSome kind (λ k. is_array_of k bytes.now ≡ true) }
        ensures { result ≡ bytes.now }
    {
        KnownBytes { bytes, kind }
    }

    /// The bytes.
    pub fn bytes(&self) -> &'a [u8]
        ensures { result.now ≡ self.now }
    {
        self.bytes
    }

    /// Whether they are known to be an array of a kind. Where they aren't they may be one.
    pub fn is_known(&self, kind: ArrayKind) -> bool
        ensures { result ≡ true → is_array_of kind self.now ≡ true }
    {
        match kind {
            ArrayKind::Chunk => self.kind.is_some(),
            ArrayKind::Element => matches!(self.kind, Some(ArrayKind::Element)),
            ArrayKind::Name => matches!(self.kind, Some(ArrayKind::Name)),
        }
    }
}
