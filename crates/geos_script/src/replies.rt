//! The texts of replies. Where memory runs out, a part of a text may stand behind what was there.
#![tactic(auto, using(crate::proofs::Extending::extending), unfolding(geos_model::specs::Script::reply_text))]

ghost use Rattle.std.specs.Prelude.{◌≡◌, ◌++◌, OnOk, OnErr, codes, map};
ghost use Rattle.std.specs.List.{flat_map};
ghost use Rattle.geos_model.specs.Reply.{Refused, info_is, reply_by, reply_of};
ghost use Rattle.geos_model.specs.Script.{listed, place_text, reply_text};
ghost use Rattle.geos_script.specs.Texts.{Extends};

use crate::text::{push_bytes, push_handle, push_number};
use geos_model::{ChunkHandle, Fault, Info, Place, Reply, VmHandle};
use std::alloc::AllocError;

fn push_blocks(out: &mut Vec<u8>, blocks: &[VmHandle]) -> Result<(), AllocError>
    ensures ok { OnOk result (out.new.items ≡ out.old.items ++ (codes "blocks" ++ listed (map (λ h. h.0) blocks.now))) }
    ensures err { OnErr result (Extends out.old.items out.new.items) }
{
    out.extend_from_slice(b"blocks")?;
    for block in blocks {
        push_handle(out, b" ", block.0)?;
    }
    Ok(())
}

fn push_chunks(out: &mut Vec<u8>, chunks: &[ChunkHandle]) -> Result<(), AllocError>
    ensures ok { OnOk result (out.new.items ≡ out.old.items ++ (codes "chunks" ++ listed (map (λ h. h.0) chunks.now))) }
    ensures err { OnErr result (Extends out.old.items out.new.items) }
{
    out.extend_from_slice(b"chunks")?;
    for chunk in chunks {
        push_handle(out, b" ", chunk.0)?;
    }
    Ok(())
}

fn push_place(out: &mut Vec<u8>, place: Place) -> Result<(), AllocError>
    ensures ok { OnOk result (out.new.items ≡ out.old.items ++ place_text place) }
    ensures err { OnErr result (Extends out.old.items out.new.items) }
{
    match place {
        Place::All => out.extend_from_slice(b" all"),
        Place::MapBlock => out.extend_from_slice(b" map"),
        Place::Attributes(block) => push_handle(out, b" attributes ", block.0),
        Place::Block(block) => push_handle(out, b" block ", block.0),
        Place::Chunk(block, chunk) => {
            push_handle(out, b" chunk ", block.0)?;
            push_handle(out, b" ", chunk.0)
        }
        Place::Run {
            block,
            chunk,
            at,
            before,
            after,
        } => {
            push_handle(out, b" run ", block.0)?;
            push_handle(out, b" ", chunk.0)?;
            push_number(out, b" ", u64::from(at))?;
            push_number(out, b" ", u64::from(before))?;
            push_number(out, b" ", u64::from(after))
        }
    }
}

// Never inlined, so that the code that puts the other replies stays small.
#[inline(never)]
fn push_places(out: &mut Vec<u8>, places: &[Place]) -> Result<(), AllocError>
    ensures ok { OnOk result (out.new.items ≡ out.old.items ++ (codes "places" ++ flat_map place_text places.now)) }
    ensures err { OnErr result (Extends out.old.items out.new.items) }
{
    out.extend_from_slice(b"places")?;
    for place in places {
        push_place(out, *place)?;
    }
    Ok(())
}

fn push_info(out: &mut Vec<u8>, info: Info) -> Result<(), AllocError>
    ensures ok { OnOk result (out.new.items ≡ out.old.items ++ reply_text (info_is info)) }
    ensures err { OnErr result (Extends out.old.items out.new.items) }
{
    let (name, user_id, size) = match info {
        Info::Raw(user_id, size) => (b"raw ".as_slice(), user_id, size),
        Info::Heap(user_id, size) => (b"heap ".as_slice(), user_id, size),
    };
    push_number(out, name, u64::from(user_id))?;
    push_number(out, b" ", u64::from(size))
}

fn push_refusal(out: &mut Vec<u8>, fault: Fault) -> Result<(), AllocError>
    ensures ok { OnOk result (out.new.items ≡ out.old.items ++ reply_text (Refused fault)) }
    ensures err { OnErr result (Extends out.old.items out.new.items) }
{
    push_number(out, b"no ", u64::from(fault.number()))?;
    out.push(b' ')?;
    out.extend_from_slice(fault.name().as_bytes())
}

/// Puts the text of a reply behind `out`, without a line feed.
// Inlined as far as the commonest reply goes, which saves no registers then.
#[inline(always)]
pub fn push_reply(out: &mut Vec<u8>, reply: Result<Reply, Fault>) -> Result<(), AllocError>
    ensures ok { OnOk result (out.new.items ≡ out.old.items ++ reply_text (reply_by reply_of reply.entry)) }
    ensures err { OnErr result (Extends out.old.items out.new.items) }
{
    match reply {
        Ok(Reply::Accepted) => push_accepted(out),
        other => push_other(out, other),
    }
}

// Never inlined: what it calls is inlined in it, and so stands here once, for two bytes.
#[inline(never)]
fn push_accepted(out: &mut Vec<u8>) -> Result<(), AllocError>
    ensures ok { OnOk result (out.new.items ≡ out.old.items ++ codes "ok") }
    ensures err { OnErr result (Extends out.old.items out.new.items) }
{
    out.extend_from_slice(b"ok")
}

#[inline(never)]
fn push_other(out: &mut Vec<u8>, reply: Result<Reply, Fault>) -> Result<(), AllocError>
    ensures ok { OnOk result (out.new.items ≡ out.old.items ++ reply_text (reply_by reply_of reply.entry)) }
    ensures err { OnErr result (Extends out.old.items out.new.items) }
{
    match reply {
        Ok(Reply::Accepted) => push_accepted(out),
        Ok(Reply::Block(block)) => push_handle(out, b"block ", block.0),
        Ok(Reply::Chunk(chunk)) => push_handle(out, b"chunk ", chunk.0),
        Ok(Reply::Token(token)) => push_handle(out, b"token ", token.0),
        Ok(Reply::Number(number)) => push_number(out, b"number ", number),
        Ok(Reply::Bytes(bytes)) => push_bytes(out, b"bytes ", bytes),
        Ok(Reply::Blocks(blocks)) => push_blocks(out, blocks),
        Ok(Reply::Chunks(chunks)) => push_chunks(out, chunks),
        Ok(Reply::Places(places)) => push_places(out, places),
        Ok(Reply::Info(info)) => push_info(out, info),
        Ok(Reply::Equal(true)) => out.extend_from_slice(b"same"),
        Ok(Reply::Equal(false)) => out.extend_from_slice(b"differ"),
        Err(fault) => push_refusal(out, fault),
    }
}
