//! The table of the commands: the name of each, its operands, and what makes it of words that spell these. A line is
//! read by it, and a command printed.
ghost use Rattle.std.specs.Prelude.{◌≡◌, ◌++◌, OnOk, OnErr, Some, drop, length};
ghost use Rattle.geos_model.specs.Script.{block, bytes as spelled_bytes, chunk, is_set, with_5};
ghost use Rattle.geos_model.specs.declared.command.Command.TheVariants as commands;
ghost use Rattle.geos_model.specs.declared.command.Edit.TheVariants as edits;
ghost use Rattle.geos_model.specs.Script as script;
ghost use Rattle.geos_script.specs.Help.{ListsCommands};
ghost use Rattle.geos_script.specs.Making.{named_from};
ghost use Rattle.geos_script.specs.Printing.{IsSpellable, command_text, edit_text};
ghost use Rattle.geos_script.specs.Reading.{ReadsAs, command_has_bytes, putting};
ghost use Rattle.geos_script.specs.Texts.{Extends};

use crate::line::next_word;
use crate::name::is;
use crate::operands::{LastOperand, Operand, bytes_of, spells_bytes};
use crate::shapes::{five, four, none, one, put, three, two};
use crate::spare::Spare;
use crate::word::{push_five, push_four, push_one, push_three, push_two, push_words};
use geos_model::{ChunkHandle, Command, Edit, Fault, VmHandle};
use std::alloc::AllocError;

// Hands a part of the rows of the table to a macro, so that the parser, the printer and the help read the same ones. A
// row has the name of a command, its operands as help shows them, what reads so many words, and the command with its
// operands.
macro_rules! commands {
    // Of blocks.
    (blocks, $with:ident($($given:tt)*)) => {
        $with! { ($($given)*)
            Edit {
                "newraw" "uid size" => two NewRaw(uid, size),
                "newheap" "uid" => one NewHeap(uid),
                "vfree" "b" => one FreeBlock(b),
                "vcopy" "b" => one CopyBlock(b),
                "vwrite" "b at hex" => three WriteRaw(b, at, hex),
                "vsplice" "b at n hex" => four SpliceRaw(b, at, n, hex),
                "attach" "b hex" => two Attach(b, hex),
                "uid" "b uid" => two SetUserId(b, uid),
                "settype" "b type" => two SetType(b, heap_type),
                "map" "b" => one SetMap(b),
            }
        }
    };
    // Of chunks.
    (chunks, $with:ident($($given:tt)*)) => {
        $with! { ($($given)*)
            Edit {
                "alloc" "b n" => two Alloc(b, n),
                "free" "b c" => two Free(b, c),
                "resize" "b c n" => three Resize(b, c, n),
                "insert" "b c at n" => four Insert(b, c, at, n),
                "delete" "b c at n" => four Delete(b, c, at, n),
                "write" "b c at hex" => four Write(b, c, at, hex),
                "splice" "b c at n hex" => five Splice(b, c, at, n, hex),
            }
        }
    };
    // Of chunk arrays and element arrays.
    (arrays, $with:ident($($given:tt)*)) => {
        $with! { ($($given)*)
            Edit {
                "acreate" "b e x" => three CreateArray(b, e, x),
                "ainsert" "b c i hex" => four InsertElement(b, c, i, hex),
                "aset" "b c i hex" => four SetElement(b, c, i, hex),
                "aresize" "b c i n" => four ResizeElement(b, c, i, n),
                "adelete" "b c i k" => four DeleteElements(b, c, i, k),
                "azero" "b c" => two ZeroArray(b, c),
                "ecreate" "b e" => two CreateElementArray(b, e),
                "eadd" "b c hex" => three AddElement(b, c, hex),
                "eref" "b c t" => three AddReference(b, c, t),
                "eunref" "b c t" => three RemoveReference(b, c, t),
                "edelete" "b c t" => three DeleteElement(b, c, t),
                "echange" "b c t hex" => four ChangeElement(b, c, t, hex),
            }
        }
    };
    // Of name arrays.
    (names, $with:ident($($given:tt)*)) => {
        $with! { ($($given)*)
            Edit {
                "ncreate" "b d" => two CreateNameArray(b, d),
                "nadd" "b c name part keep|set" => add_name AddName(b, c, name, part, replace),
                "nname" "b c t name" => four ChangeName(b, c, t, name),
                "nset" "b c t part" => four SetNamePart(b, c, t, part),
                "nunref" "b c t" => three RemoveName(b, c, t),
            }
        }
    };
    // Of chains and large arrays.
    (chains, $with:ident($($given:tt)*)) => {
        $with! { ($($given)*)
            Edit {
                "chcopy" "b" => one CopyChain(b),
                "chfree" "b" => one FreeChain(b),
                "hcreate" "uid size" => two CreateLarge(uid, size),
                "hinsert" "b i hex" => three InsertLarge(b, i, hex),
                "hset" "b i hex" => three SetLarge(b, i, hex),
                "hdelete" "b i n" => three DeleteLarge(b, i, n),
            }
        }
    };
    // Steps and commits.
    (steps, $with:ident($($given:tt)*)) => {
        $with! { ($($given)*)
            Command {
                "undo" => none Undo,
                "redo" => none Redo,
                "begin" => none Begin,
                "end" => none End,
                "abandon" => none Abandon,
                "join" => none Join,
                "forget" "n" => one Forget(n),
                "name" "hex" => one Name(hex),
                "update" => none Update,
                "save" => none Save,
                "revert" => none Revert,
                "saveas" => none SaveAs,
            }
        }
    };
    // Look-ups of blocks and chunks.
    (block_look_ups, $with:ident($($given:tt)*)) => {
        $with! { ($($given)*)
            Command {
                "info" "b" => one Info(b),
                "gettype" "b" => one HeapType(b),
                "list" => none List,
                "find" "uid start" => two Find(uid, start),
                "mapblock" => none MapBlock,
                "vread" "b" => one ReadRaw(b),
                "chunks" "b" => one Chunks(b),
                "read" "b c" => two Read(b, c),
            }
        }
    };
    // Of arrays of each kind.
    (array_look_ups, $with:ident($($given:tt)*)) => {
        $with! { ($($given)*)
            Command {
                "acount" "b c" => two ArrayCount(b, c),
                "aget" "b c i" => three ArrayElement(b, c, i),
                "ecount" "b c t" => three ElementReferences(b, c, t),
                "edata" "b c t" => three ElementBytes(b, c, t),
                "eused" "b c" => two ElementsUsed(b, c),
                "etoken" "b c k" => three TokenOfUsed(b, c, k),
                "eindex" "b c t" => three UsedOfToken(b, c, t),
                "nfind" "b c name" => three NameFind(b, c, name),
                "ncount" "b c t" => three NameReferences(b, c, t),
                "ntext" "b c t" => three NameText(b, c, t),
                "ndata" "b c t" => three NamePart(b, c, t),
            }
        }
    };
    // Of chains and large arrays.
    (chain_look_ups, $with:ident($($given:tt)*)) => {
        $with! { ($($given)*)
            Command {
                "walk" "b" => one Walk(b),
                "chsize" "b" => one ChainSize(b),
                "chequal" "b b2" => two ChainEqual(b, b2),
                "hcount" "b" => one LargeCount(b),
                "hget" "b i" => two LargeElement(b, i),
                "hread" "b i n" => three LargeRun(b, i, n),
            }
        }
    };
    // Locks, and counts, names and places of steps.
    (counts, $with:ident($($given:tt)*)) => {
        $with! { ($($given)*)
            Command {
                "lock" "b" => one Lock(b),
                "unlock" "b" => one Unlock(b),
                "dirty" "b" => one Dirty(b),
                "locks" "b" => one Locks(b),
                "undos" => none Undos,
                "redos" => none Redos,
                "modified" => none Modified,
                "undoname" => none UndoName,
                "redoname" => none RedoName,
                "touched" => none Touched,
                "undoplaces" => none UndoPlaces,
                "redoplaces" => none RedoPlaces,
                "abandonplaces" => none AbandonPlaces,
            }
        }
    };
}

// Hands several parts of the table to a macro, one behind another.
macro_rules! gather {
    (([] $with:ident $given:tt $($parts:tt)*) $($part:tt)*) => {
        $with! { $given $($parts)* $($part)* }
    };
    (([$next:ident $($others:ident)*] $with:ident $given:tt $($parts:tt)*) $($part:tt)*) => {
        commands! { $next, gather([$($others)*] $with $given $($parts)* $($part)*) }
    };
}

// Hands all of the table to a macro.
macro_rules! all_commands {
    ($with:ident $given:tt) => {
        gather! { ([
            blocks chunks arrays names chains
            steps block_look_ups array_look_ups chain_look_ups counts
        ] $with $given) }
    };
}

// A heading, and a line for each row: its name and its operands.
macro_rules! list_of {
    (() $($kind:ident {
        $($text:literal $($shown:literal)? => $shape:ident $made:ident $(($($operand:ident),*))?,)*
    })*) => {
        concat!(
            "Commands, which docs/SCRIPT.md explains:\n",
            $($("  ", $text, $(" ", $shown,)? "\n",)*)*
        )
    };
}

/// The commands with their operands, one in a line behind the heading.
pub fn command_list() -> &'static str
    ensures { ListsCommands result.now }
{
    all_commands! { list_of () }
}

// What reads the operands of a row, in the text behind the name.
macro_rules! read {
    (none, $spare:expr, $place:expr, $behind:expr, $made:expr) => {
        none($place, $behind, $made)
    };
    (add_name, $spare:expr, $place:expr, $behind:expr, $made:expr) => {
        add_name($spare, $place, $behind)
    };
    ($shape:ident, $spare:expr, $place:expr, $behind:expr, $made:expr) => {
        $shape($spare, $place, $behind, $made)
    };
}

// What the row with the name makes, where a part of the table has one, and else what is made by the others.
macro_rules! row_of {
    (($spare:expr, $place:expr, $name:expr, $behind:expr, $others:expr) $kind:ident {
        $($text:literal $($shown:literal)? => $shape:ident $made:ident $(($($operand:ident),*))?,)*
    }) => {
        $(if is($name, $text) {
            return read!($shape, $spare, $place, $behind, $kind::$made);
        })*
        $others
    };
}

/// Puts the command that a name and the operands in the text behind it are in its place.
// The rows are inlined for each length that a name has, so that few are left, whose names are numbers.
pub(crate) fn command_of(
    spare: &mut Spare,
    place: &mut Command,
    name: &[u8],
    text: &[u8],
) -> Result<(), Fault>
    ensures { ReadsAs command_has_bytes (named_from 0 name.now (script.words text.now)) (putting result place.new) }
{
    match name.len() {
        3 => from_blocks(spare, place, name, text),
        4 => from_blocks(spare, place, name, text),
        5 => from_blocks(spare, place, name, text),
        6 => from_blocks(spare, place, name, text),
        7 => from_blocks(spare, place, name, text),
        8 => from_blocks(spare, place, name, text),
        10 => from_blocks(spare, place, name, text),
        13 => from_blocks(spare, place, name, text),
        _ => Err(Fault::BadCommand),
    }
}

/// The same by the rows from those of blocks on, which are all.
// A part of the table after another, each inlined in the one before: a proof grows faster than a function's rows.
#[tactic(none)]
#[inline(always)]
fn from_blocks(
    spare: &mut Spare,
    place: &mut Command,
    name: &[u8],
    text: &[u8],
) -> Result<(), Fault>
    ensures { ReadsAs command_has_bytes (named_from 0 name.now (script.words text.now)) (putting result place.new) }
{
    commands! { blocks, row_of(spare, place, name, text, from_chunks(spare, place, name, text)) }
}

/// The same by the rows from those of chunks on.
#[tactic(none)]
#[inline(always)]
fn from_chunks(
    spare: &mut Spare,
    place: &mut Command,
    name: &[u8],
    text: &[u8],
) -> Result<(), Fault>
    ensures { ReadsAs command_has_bytes (named_from 10 name.now (script.words text.now)) (putting result place.new) }
{
    commands! { chunks, row_of(spare, place, name, text, from_arrays(spare, place, name, text)) }
}

/// The same by the rows from those of arrays on.
#[tactic(none)]
#[inline(always)]
fn from_arrays(
    spare: &mut Spare,
    place: &mut Command,
    name: &[u8],
    text: &[u8],
) -> Result<(), Fault>
    ensures { ReadsAs command_has_bytes (named_from 17 name.now (script.words text.now)) (putting result place.new) }
{
    commands! { arrays, row_of(spare, place, name, text, from_names(spare, place, name, text)) }
}

/// The same by the rows from those of name arrays on.
#[tactic(none)]
#[inline(always)]
fn from_names(spare: &mut Spare, place: &mut Command, name: &[u8], text: &[u8]) -> Result<(), Fault>
    ensures { ReadsAs command_has_bytes (named_from 29 name.now (script.words text.now)) (putting result place.new) }
{
    commands! { names, row_of(spare, place, name, text, from_chains(spare, place, name, text)) }
}

/// The same by the rows from those of chains on.
#[tactic(none)]
#[inline(always)]
fn from_chains(
    spare: &mut Spare,
    place: &mut Command,
    name: &[u8],
    text: &[u8],
) -> Result<(), Fault>
    ensures { ReadsAs command_has_bytes (named_from 34 name.now (script.words text.now)) (putting result place.new) }
{
    commands! { chains, row_of(spare, place, name, text, from_steps(spare, place, name, text)) }
}

/// The same by the rows from those of steps on.
#[tactic(none)]
#[inline(always)]
fn from_steps(spare: &mut Spare, place: &mut Command, name: &[u8], text: &[u8]) -> Result<(), Fault>
    ensures { ReadsAs command_has_bytes (named_from 40 name.now (script.words text.now)) (putting result place.new) }
{
    commands! { steps, row_of(spare, place, name, text, from_block_look_ups(spare, place, name, text)) }
}

/// The same by the rows from those of look-ups of blocks on.
#[tactic(none)]
#[inline(always)]
fn from_block_look_ups(
    spare: &mut Spare,
    place: &mut Command,
    name: &[u8],
    text: &[u8],
) -> Result<(), Fault>
    ensures { ReadsAs command_has_bytes (named_from 52 name.now (script.words text.now)) (putting result place.new) }
{
    commands! { block_look_ups, row_of(spare, place, name, text, from_array_look_ups(spare, place, name, text)) }
}

/// The same by the rows from those of look-ups of arrays on.
#[tactic(none)]
#[inline(always)]
fn from_array_look_ups(
    spare: &mut Spare,
    place: &mut Command,
    name: &[u8],
    text: &[u8],
) -> Result<(), Fault>
    ensures { ReadsAs command_has_bytes (named_from 60 name.now (script.words text.now)) (putting result place.new) }
{
    commands! { array_look_ups, row_of(spare, place, name, text, from_chain_look_ups(spare, place, name, text)) }
}

/// The same by the rows from those of look-ups of chains on.
#[tactic(none)]
#[inline(always)]
fn from_chain_look_ups(
    spare: &mut Spare,
    place: &mut Command,
    name: &[u8],
    text: &[u8],
) -> Result<(), Fault>
    ensures { ReadsAs command_has_bytes (named_from 71 name.now (script.words text.now)) (putting result place.new) }
{
    commands! { chain_look_ups, row_of(spare, place, name, text, from_counts(spare, place, name, text)) }
}

/// The same by the rows from those of locks and counts on.
#[tactic(none)]
#[inline(always)]
fn from_counts(
    spare: &mut Spare,
    place: &mut Command,
    name: &[u8],
    text: &[u8],
) -> Result<(), Fault>
    ensures { ReadsAs command_has_bytes (named_from 77 name.now (script.words text.now)) (putting result place.new) }
{
    commands! { counts, row_of(spare, place, name, text, Err(Fault::BadCommand)) }
}

/// A name, what stands before it, and whether that replaces what stands there.
fn add_name(spare: &mut Spare, place: &mut Command, text: &[u8]) -> Result<(), Fault>
    ensures { ReadsAs command_has_bytes
        (with_5 block chunk spelled_bytes spelled_bytes is_set
        (λ b c name part replace. commands.Edit (edits.AddName b c name part replace))
        (script.words text.now)) (putting result place.new) }
{
    let (block, text) = VmHandle::read(text)?;
    let (chunk, text) = ChunkHandle::read(text)?;
    let Some((name, text)) = next_word(text) else {
        return Err(Fault::BadCommand);
    };
    let Some((part, text)) = next_word(text) else {
        return Err(Fault::BadCommand);
    };
    let replace = bool::read_last(spare, text)?;
    // Memory runs out only for a command's bytes, so the others are tested before it is taken for the first.
    if !spells_bytes(part) {
        return Err(Fault::BadCommand);
    }
    let name = bytes_of(spare, name)?;
    let part = bytes_of(spare, part)?;
    put(
        place,
        Command::Edit(Edit::AddName(block, chunk, name, part, replace)),
    );
    Ok(())
}

// The words of a row.
macro_rules! push {
    ($out:expr, $text:literal) => {
        push_words($out, $text, &[])
    };
    ($out:expr, $text:literal, $a:expr) => {
        push_one($out, $text, $a)
    };
    ($out:expr, $text:literal, $a:expr, $b:expr) => {
        push_two($out, $text, $a, $b)
    };
    ($out:expr, $text:literal, $a:expr, $b:expr, $c:expr) => {
        push_three($out, $text, $a, $b, $c)
    };
    ($out:expr, $text:literal, $a:expr, $b:expr, $c:expr, $d:expr) => {
        push_four($out, $text, $a, $b, $c, $d)
    };
    ($out:expr, $text:literal, $a:expr, $b:expr, $c:expr, $d:expr, $e:expr) => {
        push_five($out, $text, $a, $b, $c, $d, $e)
    };
}

// The words of the row of an edit.
macro_rules! push_edit_row {
    (($out:expr, $edit:expr) $(Edit {
        $($text:literal $($shown:literal)? => $shape:ident $made:ident $(($($operand:ident),*))?,)*
    })*) => {
        match $edit {
            $($(Edit::$made $(($($operand),*))? => push!($out, $text $(, $($operand),*)?),)*)*
        }
    };
}

// The words of the row of any other command; a blank line has none.
macro_rules! push_command_row {
    (($out:expr, $command:expr) $(Command {
        $($text:literal $($shown:literal)? => $shape:ident $made:ident $(($($operand:ident),*))?,)*
    })*) => {
        match $command {
            Command::Blank => Ok(()),
            Command::Edit(edit) => push_edit($out, edit),
            $($(Command::$made $(($($operand),*))? => push!($out, $text $(, $($operand),*)?),)*)*
        }
    };
}

/// Puts the text of an edit behind `out`, without a line feed. Where memory runs out, a part of it may stand there.
#[tactic(auto, unfolding(crate::specs::Printing::edit_text))]
pub fn push_edit(out: &mut Vec<u8>, edit: &Edit) -> Result<(), AllocError>
    ensures ok { OnOk result (out.new.items ≡ out.old.items ++ edit_text edit.now) }
    ensures err { OnErr result (Extends out.old.items out.new.items) }
{
    gather! { ([blocks chunks arrays names chains] push_edit_row (out, edit)) }
}

#[tactic(auto, unfolding(crate::specs::Printing::command_text, crate::specs::Printing::edit_text))]
fn push_row(out: &mut Vec<u8>, command: &Command) -> Result<(), AllocError>
    ensures ok { OnOk result (out.new.items ≡ out.old.items ++ command_text command.now) }
    ensures err { OnErr result (Extends out.old.items out.new.items) }
{
    gather! { (
        [steps block_look_ups array_look_ups chain_look_ups counts] push_command_row (out, command)
    ) }
}

/// Puts the text of a command behind `out`, without a line feed; a blank line has none. A command that some line spells
/// is what its text is parsed as. Where memory runs out, a part of the text may stand there.
pub fn push_command(out: &mut Vec<u8>, command: &Command) -> Result<(), AllocError>
    ensures ok { OnOk result (out.new.items ≡ out.old.items ++ command_text command.now) }
    ensures law { OnOk result (IsSpellable command.now
        → script.command (drop (length out.old.items) out.new.items) ≡ Some command.now) }
    ensures err { OnErr result (Extends out.old.items out.new.items) }
{
    push_row(out, command)
}
