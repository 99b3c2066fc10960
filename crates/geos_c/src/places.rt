//! Places as C sees them, handed out through a window.
ghost use Rattle.std.specs.Prelude.{◌≡◌, ◌++◌, if◌then◌else◌, drop, length, map, nat_le, pos, slice_index_or, take};
ghost use Rattle.geos_model.specs.Reply.{PlacesAre, reply_by};
ghost use Rattle.geos_model.specs.declared.place.Place.TheVariants.{All};
ghost use Rattle.c_sessions.specs.Codes.{cut_off};
ghost use Rattle.geos_c.specs.Places.{HandsOutFrom, HandsOutPlaces, told_place, whole as whole_place};

use c_sessions::CUT_OFF;
use geos_model::{Fault, Place};

/// A place: the struct `geosvm_place` of `geosvm.h`, with the kinds that stand there. What a kind has no use for is 0.
#[repr(C)]
#[derive(Clone, Copy)]
pub struct ToldPlace {
    pub kind: u8,
    pub block: u16,
    pub chunk: u16,
    pub at: u32,
    pub before: u32,
    pub after: u32,
}

// One that is no run.
fn whole(kind: u8, block: u16, chunk: u16) -> ToldPlace
    ensures { result ≡ whole_place kind block chunk }
{
    ToldPlace {
        kind,
        block,
        chunk,
        at: 0,
        before: 0,
        after: 0,
    }
}

fn told(place: &Place) -> ToldPlace
    ensures { result ≡ told_place place.now }
{
    match *place {
        Place::All => whole(0, 0, 0),
        Place::MapBlock => whole(1, 0, 0),
        Place::Attributes(block) => whole(2, block.0, 0),
        Place::Block(block) => whole(3, block.0, 0),
        Place::Chunk(block, chunk) => whole(4, block.0, chunk.0),
        Place::Run {
            block,
            chunk,
            at,
            before,
            after,
        } => ToldPlace {
            kind: 5,
            block: block.0,
            chunk: chunk.0,
            at,
            before,
            after,
        },
    }
}

// The place with this number, the whole document behind the last one.
fn told_at(places: &[Place], i: usize) -> ToldPlace
    ensures { result ≡ slice_index_or (map told_place places.now) i (told_place All) }
{
    match places.get(i) {
        Some(place) => told(place),
        None => told(&Place::All),
    }
}

// Puts as many of the places as fit into the buffer.
fn put_places(places: &[Place], buffer: &mut [ToldPlace])
    ensures { buffer.new
        ≡ take (length buffer.old) (map told_place places.now) ++ drop (length places.now) buffer.old }
{
    for i in 0..places.len().min(buffer.len()) {
        buffer[i] = told_at(places, i);
    }
}

// Tells how many there are, and whether there is room for those that are left.
fn tell_count(all: usize, left: usize, room: usize, count: &mut usize) -> i32
    ensures { (count.new ≡ all) × (result ≡ (if nat_le left room then pos 0 else cut_off)) }
{
    *count = all;
    if left <= room { 0 } else { CUT_OFF }
}

// Puts as many of the places as fit, from one on, into the buffer, and how many there are into the count.
fn put_window(places: &[Place], first: usize, buffer: &mut [ToldPlace], count: &mut usize) -> i32
    ensures { HandsOutFrom first places.now buffer.old buffer.new count.new result }
{
    let left = &places[first.min(places.len())..];
    put_places(left, buffer);
    tell_count(places.len(), left.len(), buffer.len(), count)
}

/// The places that were asked for, from one on.
pub(crate) fn tell_places(
    answer: Result<Vec<Place>, Fault>,
    first: usize,
    buffer: &mut [ToldPlace],
    count: &mut usize,
) -> i32
    ensures { HandsOutPlaces first (reply_by (λ places. PlacesAre places.items) answer)
        buffer.old buffer.new count.new result }
{
    match answer {
        Ok(places) => put_window(&places, first, buffer, count),
        Err(fault) => {
            *count = 0;
            i32::from(fault.number())
        }
    }
}
