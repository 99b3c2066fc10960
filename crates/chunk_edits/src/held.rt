//! How a patch holds its pieces: a span for each, and the bytes that all of them hold in a row.
ghost use Rattle.std.specs.Prelude.{◌≡◌, ◌≤◌, ◌+◌, ◌-◌, ◌*◌, ◌^◌, ◌++◌, ◌↔◌, [], ◌∷◌, true, IsTrue, MatchOption, OnOk, OnErr, IfOk, length, min, take};
ghost use Rattle.std.specs.List.{sum_by};
ghost use Rattle.chunk_edits.specs.Patching.{IsPieceOf, directed_piece, taken};
ghost use Rattle.chunk_edits.specs.Exchanging.{AreFew};
ghost use Rattle.chunk_edits.specs.Spans.{IsShort, IsSound, extent, has_allocation, most, own, piece_of, row_in, spans_in};
ghost use Rattle.chunk_edits.specs.declared.held.Span.TheVariants as spans;

use crate::direction::Direction;
use smallvec::SmallVec;
use std::alloc::{AllocError, Global};

/// A piece as a patch keeps it: what becomes of how many bytes, without the bytes.
#[derive(Clone, Copy)]
pub(crate) enum Span {
    /// So many bytes stay.
    Keep(u32),
    /// So many bytes go, and so many others come in their place.
    Put { old: u32, new: u32 },
    /// So many words, each as far behind `to` then, modulo 2^16, as it is behind `from`.
    Rebase { words: u32, from: u16, to: u16 },
}

/// What a place for a span has before it is used: no bytes, which stay.
impl Default for Span {
    fn default() -> Span {
        Span::Keep(0)
    }
}

impl Span {
    /// How many bytes it is of in a direction.
    pub(crate) fn extent(self, direction: Direction) -> usize
        ensures { result ≡ extent direction self }
    {
        match self {
            Span::Keep(n) => n as usize,
            Span::Put { old, new } => match direction {
                Direction::Forwards => old as usize,
                Direction::Backwards => new as usize,
            },
            Span::Rebase { words, .. } => 2 * words as usize,
        }
    }

    /// Whether bytes begin with those that its piece is of in a direction, where it holds the first ones of the row.
    pub(crate) fn begins(self, bytes: &[u8], row: &[u8], direction: Direction) -> bool
        requires { own self ≤ length row.now }
        ensures { IsTrue result ↔ IsPieceOf (directed_piece direction (piece_of self row.now))
            (take (taken (directed_piece direction (piece_of self row.now))) bytes.now) }
    {
        match self {
            Span::Keep(n) => n as usize <= bytes.len(),
            Span::Put { old, new } => {
                let (old, behind) = row.split_at(old as usize);
                match direction {
                    Direction::Forwards => bytes.starts_with(old),
                    Direction::Backwards => bytes.starts_with(&behind[..new as usize]),
                }
            }
            Span::Rebase { words, .. } => 2 * words as usize <= bytes.len(),
        }
    }

    /// How many bytes its piece holds.
    pub(crate) fn own(self) -> usize
        ensures { result ≡ own self }
    {
        match self {
            Span::Put { old, new } => old as usize + new as usize,
            Span::Keep(_) | Span::Rebase { .. } => 0,
        }
    }
}

/// Bytes that go, and those that come in their place.
#[derive(Clone, Copy)]
pub struct Exchange<'a> {
    pub old: &'a [u8],
    pub new: &'a [u8],
}

impl Exchange<'_> {
    /// The span of its piece.
    pub(crate) fn span(&self) -> Span
        requires { AreFew self.now }
        ensures { result ≡ spans.Put (length self.now.old.now) (length self.now.new.now) }
    {
        Span::Put {
            old: self.old.len() as u32,
            new: self.new.len() as u32,
        }
    }

    /// How many bytes go or come.
    pub(crate) fn count(&self) -> usize
        requires { AreFew self.now }
        ensures { result ≡ length self.now.old.now + length self.now.new.now }
    {
        self.old.len() + self.new.len()
    }

    /// It alone, of few bytes, behind so many that stay, and in front of so many more.
    #[inline(always)]
    pub(crate) fn alone(&self, alloc: Global, before: u16, behind: u16) -> Held
        requires { length self.now.old.now + length self.now.new.now ≤ 16 }
        ensures spans { spans_in result ≡ spans.Keep before
            ∷ spans.Put (length self.now.old.now) (length self.now.new.now) ∷ spans.Keep behind ∷ [] }
        ensures row { row_in result ≡ self.now.old.now ++ self.now.new.now }
        ensures short { IsShort result }
    {
        let count = self.old.len() + self.new.len();
        let mut bytes = [0; ALONE_BYTES];
        bytes[..self.old.len()].copy_from_slice(self.old);
        bytes[self.old.len()..count].copy_from_slice(self.new);
        Held::Alone {
            old: self.old.len() as u8,
            new: self.new.len() as u8,
            before,
            behind,
            bytes,
            alloc,
        }
    }

    /// The bytes that go, and behind them those that come.
    pub(crate) fn joined(&self, alloc: Global) -> Result<SmallVec<u8, FEW_BYTES>, AllocError>
        requires { AreFew self.now }
        ensures { IfOk result (λ row. row.items ≡ self.now.old.now ++ self.now.new.now) }
    {
        let mut row = SmallVec::with_capacity(alloc, self.count())?;
        row.extend_from_slice(self.old)?;
        row.extend_from_slice(self.new)?;
        Ok(row)
    }
}

/// How many bytes that go or come a patch holds without an allocation, if it is of one exchange.
pub(crate) const ALONE_BYTES: usize = 16;

/// How many spans any other holds in its one allocation, as many as an edit of an array of elements of one size has;
/// for more it takes another.
pub(crate) const FEW_SPANS: usize = 4;

/// How many bytes that go or come it holds there too; for more it takes another.
pub const FEW_BYTES: usize = 24;

/// What a patch holds in its allocation.
#[derive(Drop)]
pub(crate) struct Pieces {
    pub spans: SmallVec<Span, FEW_SPANS>,
    /// Of each piece the bytes that go, and behind them those that come.
    pub content: SmallVec<u8, FEW_BYTES>,
}

/// How a patch holds its pieces.
#[derive(Drop)]
pub(crate) enum Held {
    /// One exchange of few bytes, without an allocation: how many go and come, how many stay before them and behind
    /// them, and the bytes that go, with those that come behind them. The numbers share a word with the tag.
    Alone {
        old: u8,
        new: u8,
        before: u16,
        behind: u16,
        bytes: [u8; ALONE_BYTES],
        alloc: Global,
    },
    /// Any pieces.
    Many(Box<Pieces>),
}

impl Held {
    /// How many bytes it is of in a direction; 2^64 - 1 where these are more.
    pub(crate) fn size_before(&self, direction: Direction) -> usize
        ensures { result ≡ min (sum_by (extent direction) (spans_in self.now)) (2 ^ 64 - 1) }
    {
        match self {
            Held::Alone {
                old,
                new,
                before,
                behind,
                ..
            } => {
                let part = match direction {
                    Direction::Forwards => *old,
                    Direction::Backwards => *new,
                };
                usize::from(*before) + usize::from(part) + usize::from(*behind)
            }
            Held::Many(pieces) => size_of_spans(pieces.spans.as_slice(), direction),
        }
    }

    /// How many bytes there are at most while it is carried out; 2^64 - 1 where these are more.
    pub(crate) fn peak(&self) -> usize
        ensures { result ≡ min (sum_by most (spans_in self.now)) (2 ^ 64 - 1) }
    {
        match self {
            Held::Alone {
                old,
                new,
                before,
                behind,
                ..
            } => {
                let part = (*old).max(*new);
                usize::from(*before) + usize::from(part) + usize::from(*behind)
            }
            Held::Many(pieces) => peak_of_spans(pieces.spans.as_slice()),
        }
    }

    /// How many bytes go and come.
    pub(crate) fn byte_count(&self) -> usize
        requires { IsSound self.now }
        ensures { result ≡ length (row_in self.now) }
    {
        match self {
            Held::Alone { old, new, .. } => usize::from(*old) + usize::from(*new),
            Held::Many(pieces) => pieces.content.len(),
        }
    }

    /// A span more, which has no bytes in the row.
    pub(crate) fn push(&mut self, span: Span) -> Result<(), AllocError>
        requires { IsSound self.old }
        ensures ok { OnOk result (spans_in self.new ≡ spans_in self.old ++ (span ∷ [])) }
        ensures err { OnErr result (spans_in self.new ≡ spans_in self.old) }
        ensures row { row_in self.new ≡ row_in self.old }
        ensures short { IsShort self.new }
    {
        self.take_allocation()?;
        match self {
            Held::Many(pieces) => {
                pieces.spans.push(span)?;
                Ok(())
            }
            Held::Alone { .. } => unreachable!(),
        }
    }

    /// A span more, with the bytes that go and come.
    pub(crate) fn put(&mut self, span: Span, old: &[u8], new: &[u8]) -> Result<(), AllocError>
        requires sound { IsSound self.old }
        requires own { own span ≡ length old.now + length new.now }
        ensures ok { OnOk result ((spans_in self.new ≡ spans_in self.old ++ (span ∷ []))
            × (row_in self.new ≡ row_in self.old ++ (old.now ++ new.now))) }
        ensures err { OnErr result ((spans_in self.new ≡ spans_in self.old) × (row_in self.new ≡ row_in self.old)) }
        ensures short { IsShort self.new }
    {
        self.take_allocation()?;
        match self {
            Held::Many(pieces) => {
                put_behind(pieces, span, old, new)?;
                Ok(())
            }
            Held::Alone { .. } => unreachable!(),
        }
    }

    /// It has its pieces in an allocation from now on.
    // Inlined, since most that get another piece have one.
    #[inline(always)]
    fn take_allocation(&mut self) -> Result<(), AllocError>
        requires { IsSound self.old }
        ensures spans { spans_in self.new ≡ spans_in self.old }
        ensures row { row_in self.new ≡ row_in self.old }
        ensures short { IsShort self.new }
        ensures many { OnOk result (has_allocation self.new ≡ true) }
    {
        match self {
            Held::Many(_) => Ok(()),
            Held::Alone { .. } => self.move_out(),
        }
    }

    /// The same where it may have none.
    #[inline(never)]
    fn move_out(&mut self) -> Result<(), AllocError>
        requires { IsSound self.old }
        ensures spans { spans_in self.new ≡ spans_in self.old }
        ensures row { row_in self.new ≡ row_in self.old }
        ensures short { IsShort self.new }
        ensures many { OnOk result (has_allocation self.new ≡ true) }
    {
        if let Some(pieces) = self.allocated()? {
            *self = Held::Many(pieces);
        }
        Ok(())
    }

    /// Its pieces in an allocation, if it has none.
    fn allocated(&self) -> Result<Option<Box<Pieces>>, AllocError>
        requires { IsSound self.now }
        ensures { IfOk result (λ made. MatchOption made (has_allocation self.now ≡ true)
            (λ pieces. (pieces.value.spans.items ≡ spans_in self.now)
            × (pieces.value.content.items ≡ row_in self.now))) }
    {
        match self {
            Held::Alone {
                old,
                new,
                before,
                behind,
                bytes,
                alloc,
            } => {
                let spans = alone_spans(*before, *old, *new, *behind);
                let count = usize::from(*old) + usize::from(*new);
                let pieces = Pieces {
                    spans: SmallVec::from_slice(*alloc, spans.as_slice())?,
                    content: SmallVec::from_slice(*alloc, &bytes[..count])?,
                };
                Ok(Some(Box::new(*alloc, pieces)?))
            }
            Held::Many(_) => Ok(None),
        }
    }
}

/// The spans of one exchange with bytes that stay before it and behind it.
pub(crate) fn alone_spans(before: u16, old: u8, new: u8, behind: u16) -> [Span; 3]
    ensures { result ≡ spans.Keep before ∷ spans.Put old new ∷ spans.Keep behind ∷ [] }
{
    [
        Span::Keep(u32::from(before)),
        put_span(old, new),
        Span::Keep(u32::from(behind)),
    ]
}

/// The span of so many bytes that go, and so many that come in their place.
pub(crate) fn put_span(old: u8, new: u8) -> Span
    ensures { result ≡ spans.Put old new }
{
    Span::Put {
        old: u32::from(old),
        new: u32::from(new),
    }
}

/// A span more, with the bytes that go and come.
fn put_behind(pieces: &mut Pieces, span: Span, old: &[u8], new: &[u8]) -> Result<(), AllocError>
    requires { own span ≡ length old.now + length new.now }
    ensures ok { OnOk result ((pieces.new.spans.items ≡ pieces.old.spans.items ++ (span ∷ []))
        × (pieces.new.content.items ≡ pieces.old.content.items ++ (old.now ++ new.now))) }
    ensures err { OnErr result ((pieces.new.spans.items ≡ pieces.old.spans.items)
        × (pieces.new.content.items ≡ pieces.old.content.items)) }
{
    pieces.spans.reserve(1)?;
    pieces.content.reserve(span.own())?;
    pieces.spans.push_reserved(span);
    pieces.content.extend_from_slice(old)?;
    pieces.content.extend_from_slice(new)?;
    Ok(())
}

/// How many bytes spans are of in a direction; 2^64 - 1 where these are more.
fn size_of_spans(spans: &[Span], direction: Direction) -> usize
    ensures { result ≡ min (sum_by (extent direction) spans.now) (2 ^ 64 - 1) }
{
    let mut size: usize = 0;
    for span in spans {
        size = size.saturating_add(span.extent(direction));
    }
    size
}

/// How many bytes there are of spans at most, in either direction; 2^64 - 1 where these are more.
fn peak_of_spans(spans: &[Span]) -> usize
    ensures { result ≡ min (sum_by most spans.now) (2 ^ 64 - 1) }
{
    let mut peak: usize = 0;
    for span in spans {
        let before = span.extent(Direction::Forwards);
        peak = peak.saturating_add(before.max(span.extent(Direction::Backwards)));
    }
    peak
}
