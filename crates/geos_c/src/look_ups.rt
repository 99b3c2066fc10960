//! Look-ups of a session over any store, by the command that asks; what each answers is handed out, and told by a code.
ghost use Rattle.std.specs.Prelude.{◌≡◌};
ghost use Rattle.geos_model.specs.Forms.{form_asked};
ghost use Rattle.geos_model.specs.Forms as forms;
ghost use Rattle.geos_model.specs.LookUps.{places_look_up};
ghost use Rattle.geos_model.specs.declared.command.Command.TheVariants as commands;
ghost use Rattle.geos_c.specs.LookUps.{ReadsBytes, ReportsReply};
ghost use Rattle.geos_c.specs.Places.{ReadsPlaces};
ghost use Rattle.geos_c.specs.Telling.{HandsOutEqual, HandsOutInfo, HandsOutNumber};

use crate::places::{ToldPlace, tell_places};
use crate::telling::{
    tell_bytes, tell_equal, tell_handles, tell_info, tell_number, tell_type, tell_word,
};
use geos_model::{BlockLookUp, ChainLookUp, Command, LookUp, PlacesLookUp, VmHandle};
use undo_log::Session;
use vm_store::Store;

/// How many there are, or how large it is.
pub(crate) fn number<S: Store>(session: &mut Session<S>, asked: &Command, number: &mut usize) -> i32
    requires { form_asked asked.now ≡ forms.Number }
    ensures { ReportsReply S.facts asked.now (HandsOutNumber number.new) session.old session.new result }
{
    let look_up = asked.look_up().unwrap();
    tell_number(session.look_up(look_up), number)
}

/// A block or a token.
pub(crate) fn word<S: Store>(session: &mut Session<S>, asked: &Command, word: &mut u16) -> i32
    requires { form_asked asked.now ≡ forms.Name }
    ensures { ReportsReply S.facts asked.now (HandsOutNumber word.new) session.old session.new result }
{
    let look_up = asked.look_up().unwrap();
    tell_word(session.look_up(look_up), word)
}

/// Bytes of a raw block, of a chunk or of an element.
pub(crate) fn bytes<S: Store>(
    session: &mut Session<S>,
    asked: &Command,
    buffer: &mut [u8],
    length: &mut usize,
) -> i32
    requires { form_asked asked.now ≡ forms.Bytes }
    ensures { ReadsBytes S.facts asked.now session.old session.new buffer.old buffer.new length.new result }
{
    let look_up = asked.look_up().unwrap();
    tell_bytes(session.look_up(look_up), buffer, length)
}

/// The handles of blocks or of chunks.
pub(crate) fn handles<S: Store>(
    session: &mut Session<S>,
    asked: &Command,
    buffer: &mut [u16],
    length: &mut usize,
) -> i32
    requires { form_asked asked.now ≡ forms.Names }
    ensures { ReadsBytes S.facts asked.now session.old session.new buffer.old buffer.new length.new result }
{
    let look_up = asked.look_up().unwrap();
    tell_handles(session.look_up(look_up), buffer, length)
}

/// Whether a block is a heap (1), its user ID and its size.
pub(crate) fn info<S: Store>(
    session: &mut Session<S>,
    block: VmHandle,
    is_heap: &mut u8,
    user_id: &mut u16,
    size: &mut u32,
) -> i32
    ensures { ReportsReply S.facts (commands.Info block) (HandsOutInfo is_heap.new user_id.new size.new)
        session.old session.new result }
{
    let look_up = LookUp::InBlock(block, BlockLookUp::Info);
    tell_info(session.look_up(look_up), is_heap, user_id, size)
}

/// Whether two chains are equal (1), but for handles and user IDs.
pub(crate) fn equal<S: Store>(
    session: &mut Session<S>,
    first: VmHandle,
    second: VmHandle,
    equal: &mut u8,
) -> i32
    ensures { ReportsReply S.facts (commands.ChainEqual first second) (HandsOutEqual equal.new)
        session.old session.new result }
{
    let look_up = LookUp::AlongChain(ChainLookUp::Equal(first, second));
    tell_equal(session.look_up(look_up), equal)
}

/// The type of a heap.
pub(crate) fn heap_type<S: Store>(
    session: &mut Session<S>,
    block: VmHandle,
    heap_type: &mut u16,
) -> i32
    ensures { ReportsReply S.facts (commands.HeapType block) (HandsOutNumber heap_type.new)
        session.old session.new result }
{
    tell_type(session.heap_type(block), heap_type)
}

/// Places, from one on. The session would keep those that it lends, so they are asked for as a list of their own.
pub(crate) fn places<S: Store>(
    session: &mut Session<S>,
    asked: PlacesLookUp,
    first: usize,
    buffer: &mut [ToldPlace],
    count: &mut usize,
) -> i32
    ensures { ReadsPlaces S.facts (places_look_up asked) first session.old session.new
        buffer.old buffer.new count.new result }
{
    tell_places(session.places(asked), first, buffer, count)
}
