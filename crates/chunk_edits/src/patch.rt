//! A patch: all bytes of a chunk or a raw body in pieces, of which some stay and others change.
ghost use Rattle.std.specs.Prelude.{◌≡◌, ◌≤◌, ◌+◌, ◌-◌, ◌*◌, ◌/◌, ◌%◌, ◌^◌, ◌<◌, ◌++◌, ◌↔◌, [], ◌∷◌, IsTrue, OnOk, OnErr, IfOk, length, min, take, drop, replicate};
ghost use Rattle.std.specs.List.{splice};
ghost use Rattle.std.specs.FinMap.{insert, contains_key};
ghost use Rattle.geos_model.specs.Heap.{capacity, chunk_bytes, fits_with};
ghost use Rattle.chunk_edits.specs.Patching.{ArePiecesOf, Keep, Put, Rebase, directed_piece, directed_pieces, given, total_held, patched, peak, rebased, taken, total_taken, with_piece};
ghost use Rattle.chunk_edits.specs.Exchanging.{AreFew, exchanged};
ghost use Rattle.chunk_edits.specs.Spans.{IsSound, own, piece_of, pieces_of, row_in, spans_in, total_own};
ghost use Rattle.chunk_edits.specs.declared.held.Span.TheVariants as spans;

use crate::chunk::{chunk_of, put};
use crate::direction::Direction;
use crate::held::{
    ALONE_BYTES, Exchange, FEW_BYTES, FEW_SPANS, Held, Pieces, Span, alone_spans, put_span,
};
use crate::raw::put as put_raw;
use byteorder::{ByteOrder, LittleEndian};
use geos_model::ChunkHandle;
use lmem_heap::Heap;
use raw_region::RawBody;
use smallvec::SmallVec;
use std::alloc::{AllocError, Global};
use std::marker::Model;
use std::mem::size_of;

/// All bytes of a chunk or a raw body in pieces, of which some stay and others change. Contracts see it as the pieces,
/// the first one first.
#[derive(Drop)]
pub struct Patch {
    held: Held,
}

// Each step of the log keeps a patch in itself.
const _: () = prove!(size_of::<Patch>() <= 24);

impl Model for Patch {
    ghost use Rattle.std.specs.Prelude.{List};
    ghost use Rattle.chunk_edits.specs.Patching.{PatchPiece};
    ghost use Rattle.chunk_edits.specs.Spans.{IsSound, pieces_of, row_in, spans_in};

    ghost Value = { List PatchPiece };

    ghost view = { λ p. pieces_of (spans_in p.held) (row_in p.held) };

    ghost invariant = { λ p. IsSound p.held };
}

impl Patch {
    /// A patch of no bytes.
    pub fn new(alloc: Global) -> Result<Patch, AllocError>
        ensures { IfOk result (λ patch. patch ≡ []) }
    {
        Patch::many(alloc, SmallVec::new(alloc), SmallVec::new(alloc))
    }

    // The patch of these spans, whose pieces hold these bytes.
    fn many(
        alloc: Global,
        spans: SmallVec<Span, FEW_SPANS>,
        content: SmallVec<u8, FEW_BYTES>,
    ) -> Result<Patch, AllocError>
        requires { total_own spans.items ≡ length content.items }
        ensures { IfOk result (λ patch. patch ≡ pieces_of spans.items content.items) }
    {
        let pieces = Pieces { spans, content };
        let held = Held::Many(Box::new(alloc, pieces)?);
        Ok(Patch { held })
    }

    /// The patch of so many bytes that stay, of some behind them that go, with what comes in their place, and of so
    /// many more that stay. It takes no allocation where few bytes go and come.
    pub fn replacing(
        alloc: Global,
        before: u32,
        exchange: Exchange<'_>,
        behind: u32,
    ) -> Result<Patch, AllocError>
        requires { AreFew exchange }
        ensures { IfOk result (λ patch. patch ≡ Keep before ∷ exchanged exchange.entry ∷ Keep behind ∷ []) }
    {
        if exchange.count() <= ALONE_BYTES && before <= 0xffff && behind <= 0xffff {
            let held = exchange.alone(alloc, before as u16, behind as u16);
            return Ok(Patch { held });
        }
        Patch::replacing_many(alloc, before, exchange, behind)
    }

    // The same of any bytes. Never inlined, since most are few.
    #[inline(never)]
    fn replacing_many(
        alloc: Global,
        before: u32,
        exchange: Exchange<'_>,
        behind: u32,
    ) -> Result<Patch, AllocError>
        requires { AreFew exchange }
        ensures { IfOk result (λ patch. patch ≡ Keep before ∷ exchanged exchange.entry ∷ Keep behind ∷ []) }
    {
        let put = exchange.span();
        let content = exchange.joined(alloc)?;
        let spans = [Span::Keep(before), put, Span::Keep(behind), Span::Keep(0)];
        Patch::many(alloc, SmallVec::from_buf_and_len(alloc, spans, 3), content)
    }

    /// The patch of some bytes that go, with what comes in their place, of so many that stay, of others that go, with
    /// what comes in theirs, and of so many more that stay. It has no room for others.
    pub fn replacing_two(
        alloc: Global,
        first: Exchange<'_>,
        between: u32,
        second: Exchange<'_>,
        behind: u32,
    ) -> Result<Patch, AllocError>
        requires first { AreFew first }
        requires second { AreFew second }
        ensures { IfOk result
            (λ patch. patch ≡ exchanged first.entry ∷ Keep between ∷ exchanged second.entry ∷ Keep behind ∷ []) }
    {
        let front = first.span();
        let put = second.span();
        let mut content = SmallVec::with_capacity(alloc, front.own() + put.own())?;
        content.extend_from_slice(first.old)?;
        content.extend_from_slice(first.new)?;
        content.extend_from_slice(second.old)?;
        content.extend_from_slice(second.new)?;
        let spans = [front, Span::Keep(between), put, Span::Keep(behind)];
        let patch = Patch::many(alloc, SmallVec::from_buf(alloc, spans), content)?;
        Ok(patch)
    }

    /// So many bytes more, which stay.
    pub fn keep(&mut self, n: u32) -> Result<(), AllocError>
        ensures ok { OnOk result (self.new ≡ self.old ++ (Keep n ∷ [])) }
        ensures err { OnErr result (self.new ≡ self.old) }
    {
        self.held.push(Span::Keep(n))?;
        Ok(())
    }

    /// These bytes more, which go, and what comes in their place.
    pub fn put(&mut self, old: &[u8], new: &[u8]) -> Result<(), AllocError>
        requires old { length old.now < 2 ^ 32 }
        requires new { length new.now < 2 ^ 32 }
        ensures ok { OnOk result (self.new ≡ self.old ++ (Put old.now new.now ∷ [])) }
        ensures err { OnErr result (self.new ≡ self.old) }
    {
        let span = Span::Put {
            old: old.len() as u32,
            new: new.len() as u32,
        };
        self.held.put(span, old, new)?;
        Ok(())
    }

    /// So many words more, each of which will be as far behind `to`, modulo 2^16, as it is behind `from`.
    pub fn rebase(&mut self, words: u32, from: u16, to: u16) -> Result<(), AllocError>
        ensures ok { OnOk result (self.new ≡ self.old ++ (Rebase words from to ∷ [])) }
        ensures err { OnErr result (self.new ≡ self.old) }
    {
        self.held.push(Span::Rebase { words, from, to })?;
        Ok(())
    }

    /// Gives back the room that it took and has no use for.
    pub fn shrink_to_fit(&mut self)
        ensures { self.new ≡ self.old }
    {
        if let Held::Many(pieces) = &mut self.held {
            pieces.spans.shrink_to_fit();
            pieces.content.shrink_to_fit();
        }
    }

    /// How many bytes it holds: those that go, and those that come.
    pub fn byte_count(&self) -> u64
        ensures { result ≡ total_held self.now }
    {
        self.held.byte_count() as u64
    }

    /// How many bytes a chunk or a raw body has before the patch is carried out in a direction; 2^64 - 1 where these
    /// are more.
    pub fn size_before(&self, direction: Direction) -> usize
        ensures { result ≡ min (total_taken (directed_pieces direction self.now)) (2 ^ 64 - 1) }
    {
        self.held.size_before(direction)
    }

    /// For how many bytes there must be room while it is carried out, in either direction; 2^64 - 1 where these are
    /// more.
    pub fn peak(&self) -> usize
        ensures { result ≡ min (peak self.now) (2 ^ 64 - 1) }
    {
        self.held.peak()
    }

    /// Whether these are the bytes that it is of in a direction, so that it leads from them, and back to them.
    pub fn is_of(&self, bytes: &[u8], direction: Direction) -> bool
        ensures { IsTrue result ↔ ArePiecesOf (directed_pieces direction self.now) bytes.now }
    {
        match &self.held {
            Held::Alone {
                old,
                new,
                before,
                behind,
                bytes: row,
                ..
            } => {
                let spans = alone_spans(*before, *old, *new, *behind);
                let count = usize::from(*old) + usize::from(*new);
                are_of(spans.as_slice(), &row[..count], bytes, direction)
            }
            Held::Many(pieces) => are_of(
                pieces.spans.as_slice(),
                pieces.content.as_slice(),
                bytes,
                direction,
            ),
        }
    }
}

/// Whether bytes are those that spans are of in a direction, whose pieces hold the bytes of the row.
fn are_of(spans: &[Span], row: &[u8], bytes: &[u8], direction: Direction) -> bool
    requires { total_own spans.now ≡ length row.now }
    ensures { IsTrue result ↔ ArePiecesOf (directed_pieces direction (pieces_of spans.now row.now)) bytes.now }
{
    let mut row = row;
    let mut rest = bytes;
    for span in spans {
        if !span.begins(rest, row, direction) {
            return false;
        }
        rest = &rest[span.extent(direction)..];
        row = &row[span.own()..];
    }
    rest.is_empty()
}

/// Makes of all bytes of a chunk what a patch makes of them in a direction.
pub fn apply_patch(heap: &mut Heap, h: ChunkHandle, patch: &Patch, direction: Direction)
    requires live { IsTrue (contains_key heap.old.chunks h.0) }
    requires size { total_taken (directed_pieces direction patch.now) ≡ length (chunk_bytes heap.old.chunks h.0) }
    requires fits { IsTrue (fits_with heap.old.chunks h.0 (replicate (peak patch.now) 0)) }
    ensures { heap.new.chunks ≡ insert heap.old.chunks h.0
        (patched (directed_pieces direction patch.now) (chunk_bytes heap.old.chunks h.0)) }
{
    match &patch.held {
        Held::Alone {
            old,
            new,
            before,
            behind,
            bytes,
            ..
        } => {
            let span = put_span(*old, *new);
            let count = usize::from(*old) + usize::from(*new);
            apply_alone(heap, h, *before, span, *behind, &bytes[..count], direction);
        }
        Held::Many(pieces) => {
            let content = pieces.content.as_slice();
            apply_spans(heap, h, pieces.spans.as_slice(), content, direction);
        }
    }
}

/// The same of one span, with so many bytes before it and behind it that stay.
fn apply_alone(
    heap: &mut Heap,
    h: ChunkHandle,
    before: u16,
    span: Span,
    behind: u16,
    row: &[u8],
    direction: Direction,
)
    requires live { IsTrue (contains_key heap.old.chunks h.0) }
    requires whole { own span ≤ length row.now }
    requires size { total_taken (directed_pieces direction (Keep before ∷ piece_of span row.now ∷ Keep behind ∷ [])) ≡
        length (chunk_bytes heap.old.chunks h.0) }
    requires fits { IsTrue (fits_with heap.old.chunks h.0
        (replicate (peak (Keep before ∷ piece_of span row.now ∷ Keep behind ∷ [])) 0)) }
    ensures { heap.new.chunks ≡ insert heap.old.chunks h.0
        (patched (directed_pieces direction (Keep before ∷ piece_of span row.now ∷ Keep behind ∷ []))
        (chunk_bytes heap.old.chunks h.0)) }
{
    // Any live chunk is of a heap that can be, in which fewer bytes fit where more do.
    let _all = chunk_of(heap, h);
    let _end = apply_span(heap, h, usize::from(before), span, row, direction);
}

/// The same by the patch's spans, and the bytes that their pieces hold in a row.
fn apply_spans(
    heap: &mut Heap,
    h: ChunkHandle,
    spans: &[Span],
    content: &[u8],
    direction: Direction,
)
    requires live { IsTrue (contains_key heap.old.chunks h.0) }
    requires whole { total_own spans.now ≡ length content.now }
    requires size { total_taken (directed_pieces direction (pieces_of spans.now content.now)) ≡
        length (chunk_bytes heap.old.chunks h.0) }
    requires fits { IsTrue (fits_with heap.old.chunks h.0 (replicate (peak (pieces_of spans.now content.now)) 0)) }
    ensures { heap.new.chunks ≡ insert heap.old.chunks h.0
        (patched (directed_pieces direction (pieces_of spans.now content.now)) (chunk_bytes heap.old.chunks h.0)) }
{
    // Any live chunk is of a heap that can be, in which fewer bytes fit where more do.
    let _all = chunk_of(heap, h);
    let mut at = 0;
    let mut row = content;
    for span in spans {
        at = apply_span(heap, h, at, *span, row, direction);
        row = &row[span.own()..];
    }
}

/// Makes of the bytes at a place of a chunk what a span's piece makes of them in a direction. The bytes that it holds
/// are the first of the row. Gives the place behind them.
fn apply_span(
    heap: &mut Heap,
    h: ChunkHandle,
    at: usize,
    span: Span,
    row: &[u8],
    direction: Direction,
) -> usize
    // The piece, of a live chunk.
    requires live { IsTrue (contains_key heap.old.chunks h.0) }
    requires whole { own span ≤ length row.now }
    // What it is made of, and what it makes, within a chunk's room and the heap's.
    requires within { at + taken (directed_piece direction (piece_of span row.now)) ≤
        length (chunk_bytes heap.old.chunks h.0) }
    requires before { at + taken (directed_piece direction (piece_of span row.now)) ≤ capacity }
    requires after { at + given (directed_piece direction (piece_of span row.now)) ≤ capacity }
    requires fits { IsTrue (fits_with heap.old.chunks h.0
        (with_piece (directed_piece direction (piece_of span row.now)) at (chunk_bytes heap.old.chunks h.0))) }
    // What is done.
    ensures chunks { heap.new.chunks ≡ insert heap.old.chunks h.0
        (with_piece (directed_piece direction (piece_of span row.now)) at (chunk_bytes heap.old.chunks h.0)) }
    ensures place { result ≡ at + given (directed_piece direction (piece_of span row.now)) }
{
    match span {
        Span::Keep(n) => at + n as usize,
        Span::Put { old, new } => {
            let (old, behind) = row.split_at(old as usize);
            let new = &behind[..new as usize];
            match direction {
                Direction::Forwards => put_piece(heap, h, at, old, new),
                Direction::Backwards => put_piece(heap, h, at, new, old),
            }
        }
        Span::Rebase { words, from, to } => {
            let end = at + 2 * words as usize;
            match direction {
                Direction::Forwards => rebase_chunk(heap, h, at, end, from, to),
                Direction::Backwards => rebase_chunk(heap, h, at, end, to, from),
            }
            end
        }
    }
}

/// Puts bytes in the place of as many at a place of a chunk as others are. Gives the place behind them.
fn put_piece(heap: &mut Heap, h: ChunkHandle, at: usize, old: &[u8], new: &[u8]) -> usize
    requires live { IsTrue (contains_key heap.old.chunks h.0) }
    requires within { at + length old.now ≤ length (chunk_bytes heap.old.chunks h.0) }
    requires after { at + length new.now ≤ capacity }
    requires fits { IsTrue (fits_with heap.old.chunks h.0
        (splice (chunk_bytes heap.old.chunks h.0) at (at + length old.now) new.now)) }
    ensures chunks { heap.new.chunks ≡ insert heap.old.chunks h.0
        (splice (chunk_bytes heap.old.chunks h.0) at (at + length old.now) new.now) }
    ensures place { result ≡ at + length new.now }
{
    put(heap, h, at, old.len(), new);
    at + new.len()
}

/// Rebases the words of a chunk from one place to another.
fn rebase_chunk(heap: &mut Heap, h: ChunkHandle, at: usize, end: usize, from: u16, to: u16)
    requires live { IsTrue (contains_key heap.old.chunks h.0) }
    requires order { at ≤ end }
    requires within { end ≤ length (chunk_bytes heap.old.chunks h.0) }
    requires even { (end - at) % 2 ≡ 0 }
    ensures { heap.new.chunks ≡ insert heap.old.chunks h.0
        (splice (chunk_bytes heap.old.chunks h.0) at end
        (rebased ((end - at) / 2) from to (take (end - at) (drop at (chunk_bytes heap.old.chunks h.0))))) }
{
    let chunk = heap.chunk_mut(h);
    rebase(&mut chunk[at..end], from, to);
}

/// Makes of a raw body what a patch makes of it in a direction.
pub(crate) fn patch_raw(body: &mut RawBody, patch: &Patch, direction: Direction)
    requires size { total_taken (directed_pieces direction patch.now) ≡ length body.old }
    requires room { peak patch.now ≤ capacity }
    ensures { body.new ≡ patched (directed_pieces direction patch.now) body.old }
{
    match &patch.held {
        Held::Alone {
            old,
            new,
            before,
            behind,
            bytes,
            ..
        } => {
            let spans = alone_spans(*before, *old, *new, *behind);
            let count = usize::from(*old) + usize::from(*new);
            apply_raw_spans(body, spans.as_slice(), &bytes[..count], direction);
        }
        Held::Many(pieces) => {
            let content = pieces.content.as_slice();
            apply_raw_spans(body, pieces.spans.as_slice(), content, direction);
        }
    }
}

/// The same by the patch's spans, and the bytes that their pieces hold in a row.
fn apply_raw_spans(body: &mut RawBody, spans: &[Span], content: &[u8], direction: Direction)
    requires whole { total_own spans.now ≡ length content.now }
    requires size { total_taken (directed_pieces direction (pieces_of spans.now content.now)) ≡ length body.old }
    requires room { peak (pieces_of spans.now content.now) ≤ capacity }
    ensures { body.new ≡ patched (directed_pieces direction (pieces_of spans.now content.now)) body.old }
{
    let mut at = 0;
    let mut row = content;
    for span in spans {
        at = apply_raw_span(body, at, *span, row, direction);
        row = &row[span.own()..];
    }
}

/// Makes of the bytes at a place of a raw body what a span's piece makes of them in a direction. The bytes that it
/// holds are the first of the row. Gives the place behind them.
fn apply_raw_span(
    body: &mut RawBody,
    at: usize,
    span: Span,
    row: &[u8],
    direction: Direction,
) -> usize
    // The piece.
    requires whole { own span ≤ length row.now }
    // What it is made of, and what it makes, within a raw body's room.
    requires within { at + taken (directed_piece direction (piece_of span row.now)) ≤ length body.old }
    requires before { at + taken (directed_piece direction (piece_of span row.now)) ≤ capacity }
    requires after { at + given (directed_piece direction (piece_of span row.now)) ≤ capacity }
    requires room { length (with_piece (directed_piece direction (piece_of span row.now)) at body.old) ≤ capacity }
    // What is done.
    ensures bytes { body.new ≡ with_piece (directed_piece direction (piece_of span row.now)) at body.old }
    ensures place { result ≡ at + given (directed_piece direction (piece_of span row.now)) }
{
    match span {
        Span::Keep(n) => at + n as usize,
        Span::Put { old, new } => {
            let (old, behind) = row.split_at(old as usize);
            let new = &behind[..new as usize];
            match direction {
                Direction::Forwards => put_raw_piece(body, at, old, new),
                Direction::Backwards => put_raw_piece(body, at, new, old),
            }
        }
        Span::Rebase { words, from, to } => {
            let end = at + 2 * words as usize;
            match direction {
                Direction::Forwards => rebase_raw(body, at, end, from, to),
                Direction::Backwards => rebase_raw(body, at, end, to, from),
            }
            end
        }
    }
}

/// Puts bytes in the place of as many at a place of a raw body as others are. Gives the place behind them.
fn put_raw_piece(body: &mut RawBody, at: usize, old: &[u8], new: &[u8]) -> usize
    requires within { at + length old.now ≤ length body.old }
    requires after { at + length new.now ≤ capacity }
    requires room { length (splice body.old at (at + length old.now) new.now) ≤ capacity }
    ensures bytes { body.new ≡ splice body.old at (at + length old.now) new.now }
    ensures place { result ≡ at + length new.now }
{
    put_raw(body, at, old.len(), new);
    at + new.len()
}

/// Rebases the words of a raw body from one place to another.
fn rebase_raw(body: &mut RawBody, at: usize, end: usize, from: u16, to: u16)
    requires order { at ≤ end }
    requires within { end ≤ length body.old }
    requires even { (end - at) % 2 ≡ 0 }
    ensures { body.new ≡ splice body.old at end
        (rebased ((end - at) / 2) from to (take (end - at) (drop at body.old))) }
{
    rebase(body.slice_mut(at, end - at), from, to);
}

/// Rebases words where they lie, so that each is as far behind `to`, modulo 2^16, as it was behind `from`.
fn rebase(words: &mut [u8], from: u16, to: u16)
    requires { length words.old % 2 ≡ 0 }
    ensures { words.new ≡ rebased (length words.old / 2) from to words.old }
{
    for i in 0..words.len() / 2 {
        let word = &mut words[2 * i..];
        let moved = LittleEndian::read_u16(word).wrapping_sub(from);
        LittleEndian::write_u16(word, moved.wrapping_add(to));
    }
}
