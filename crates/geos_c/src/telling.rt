//! What look-ups answer, handed out through references; 0 where they are refused.
ghost use Rattle.std.specs.Prelude.{◌≡◌, true, if◌then◌else◌, length, nat_le, pos, slice_index};
ghost use Rattle.geos_model.specs.Forms.{has_form};
ghost use Rattle.geos_model.specs.Forms as forms;
ghost use Rattle.geos_model.specs.Reply.{NumberIs, reply_by, reply_of};
ghost use Rattle.c_sessions.specs.Codes.{HandsOut, HandsOutReply, cut_off};
ghost use Rattle.geos_c.specs.Telling.{HandsOutEqual, HandsOutInfo, HandsOutNumber, numbers_of};

use c_sessions::{CUT_OFF, hand_out};
use geos_model::{ChunkHandle, Fault, Info, Reply, VmHandle};

/// How many, or how large.
pub(crate) fn tell_number(answer: Result<Reply<'_>, Fault>, number: &mut usize) -> i32
    requires { has_form (reply_by reply_of answer) forms.Number ≡ true }
    ensures { HandsOutNumber number.new (reply_by reply_of answer.entry) result }
{
    *number = 0;
    match answer {
        Ok(Reply::Number(n)) => {
            *number = n as usize;
            0
        }
        Ok(_) => unreachable!(),
        Err(fault) => i32::from(fault.number()),
    }
}

/// A block or a token.
pub(crate) fn tell_word(answer: Result<Reply<'_>, Fault>, word: &mut u16) -> i32
    requires { has_form (reply_by reply_of answer) forms.Name ≡ true }
    ensures { HandsOutNumber word.new (reply_by reply_of answer.entry) result }
{
    *word = 0;
    match answer {
        Ok(Reply::Block(block)) => {
            *word = block.0;
            0
        }
        Ok(Reply::Token(token)) => {
            *word = token.0;
            0
        }
        Ok(_) => unreachable!(),
        Err(fault) => i32::from(fault.number()),
    }
}

/// The type of a heap.
pub(crate) fn tell_type(answer: Result<u16, Fault>, word: &mut u16) -> i32
    ensures { HandsOutNumber word.new (reply_by NumberIs answer) result }
{
    match answer {
        Ok(heap_type) => {
            *word = heap_type;
            0
        }
        Err(fault) => {
            *word = 0;
            i32::from(fault.number())
        }
    }
}

/// 1 where two chains are equal.
pub(crate) fn tell_equal(answer: Result<Reply<'_>, Fault>, equal: &mut u8) -> i32
    requires { has_form (reply_by reply_of answer) forms.Equal ≡ true }
    ensures { HandsOutEqual equal.new (reply_by reply_of answer.entry) result }
{
    *equal = 0;
    match answer {
        Ok(Reply::Equal(are_equal)) => {
            *equal = if are_equal { 1 } else { 0 };
            0
        }
        Ok(_) => unreachable!(),
        Err(fault) => i32::from(fault.number()),
    }
}

/// Whether a block is a heap, its user ID and its size.
pub(crate) fn tell_info(
    answer: Result<Reply<'_>, Fault>,
    is_heap: &mut u8,
    user_id: &mut u16,
    size: &mut u32,
) -> i32
    requires { has_form (reply_by reply_of answer) forms.Info ≡ true }
    ensures { HandsOutInfo is_heap.new user_id.new size.new (reply_by reply_of answer.entry) result }
{
    *is_heap = 0;
    *user_id = 0;
    *size = 0;
    match answer {
        Ok(Reply::Info(Info::Raw(uid, n))) => {
            *user_id = uid;
            *size = n;
            0
        }
        Ok(Reply::Info(Info::Heap(uid, n))) => {
            *is_heap = 1;
            *user_id = uid;
            *size = n;
            0
        }
        Ok(_) => unreachable!(),
        Err(fault) => i32::from(fault.number()),
    }
}

/// The bytes that were asked for.
pub(crate) fn tell_bytes(
    answer: Result<Reply<'_>, Fault>,
    buffer: &mut [u8],
    length: &mut usize,
) -> i32
    requires { has_form (reply_by reply_of answer) forms.Bytes ≡ true }
    ensures { HandsOutReply (reply_by reply_of answer.entry) buffer.old buffer.new length.new result }
{
    match answer {
        Ok(Reply::Bytes(bytes)) => hand_out(bytes, buffer, length),
        Ok(_) => unreachable!(),
        Err(fault) => {
            *length = 0;
            i32::from(fault.number())
        }
    }
}

// Tells how many there are, and whether there is room for so many.
fn tell_length(count: usize, room: usize, length: &mut usize) -> i32
    ensures { (length.new ≡ count) × (result ≡ (if nat_le count room then pos 0 else cut_off)) }
{
    *length = count;
    if count <= room { 0 } else { CUT_OFF }
}

// The handles of blocks or of chunks, which are told alike.
#[derive(Clone, Copy)]
enum Handles<'a> {
    Blocks(&'a [VmHandle]),
    Chunks(&'a [ChunkHandle]),
}

impl<'a> Handles<'a> {
    fn len(&self) -> usize
        ensures { result ≡ length (numbers_of self.now) }
    {
        match self {
            Handles::Blocks(handles) => handles.len(),
            Handles::Chunks(handles) => handles.len(),
        }
    }

    // That of the handle at a place, 0 behind the last one.
    fn number(&self, i: usize) -> u16
        ensures { result ≡ slice_index (numbers_of self.now) i }
    {
        match self {
            Handles::Blocks(handles) => match handles.get(i) {
                Some(handle) => handle.0,
                None => 0,
            },
            Handles::Chunks(handles) => match handles.get(i) {
                Some(handle) => handle.0,
                None => 0,
            },
        }
    }
}

// Puts as many of the handles as fit into the buffer, and how many there are into the length.
fn put_handles(handles: Handles, buffer: &mut [u16], length: &mut usize) -> i32
    ensures { HandsOut (numbers_of handles.entry) buffer.old buffer.new length.new result }
{
    let most = handles.len().min(buffer.len());
    for i in 0..most {
        buffer[i] = handles.number(i);
    }
    tell_length(handles.len(), buffer.len(), length)
}

/// The handles of blocks or of chunks.
pub(crate) fn tell_handles(
    answer: Result<Reply<'_>, Fault>,
    buffer: &mut [u16],
    length: &mut usize,
) -> i32
    requires { has_form (reply_by reply_of answer) forms.Names ≡ true }
    ensures { HandsOutReply (reply_by reply_of answer.entry) buffer.old buffer.new length.new result }
{
    match answer {
        Ok(Reply::Blocks(handles)) => put_handles(Handles::Blocks(handles), buffer, length),
        Ok(Reply::Chunks(handles)) => put_handles(Handles::Chunks(handles), buffer, length),
        Ok(_) => unreachable!(),
        Err(fault) => {
            *length = 0;
            i32::from(fault.number())
        }
    }
}
