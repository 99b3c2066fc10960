//! Look-ups of places, by name: where the document was changed last, and where it would be changed next.
ghost use Rattle.geos_model.specs.LookUps.{places_look_up};
ghost use Rattle.geos_model.specs.declared.command.Command.TheVariants as commands;
ghost use Rattle.geos_c.specs.Handles.{HandsOutOnHandle};
ghost use Rattle.geos_c.specs.Places.{ReadsPlaces};
ghost use Rattle.geos_c.specs.Stores.{facts};

use crate::handle::{Handle, put, take};
use crate::look_ups;
use crate::places::ToldPlace;
use c_sessions::NOT_OPEN;
use geos_model::PlacesLookUp;
use std::alloc::Global;

// Asks the session behind a handle for places. `count` becomes how many there are; those from `first` on, as many as
// fit, lie in the buffer.
fn window(
    handle: &mut Handle,
    alloc: Global,
    asked: PlacesLookUp,
    first: usize,
    buffer: &mut [ToldPlace],
    count: &mut usize,
) -> i32
    ensures { HandsOutOnHandle (ReadsPlaces facts (places_look_up asked) first)
        handle.old handle.new buffer.old buffer.new count.new result }
{
    *count = 0;
    answer!(
        handle,
        alloc,
        |session| look_ups::places(session, asked, first, buffer, count)
    )
}

/// Where the last accepted edit, undo, redo, abandon or revert changed the document.
#[unsafe(no_mangle)]
pub extern "C" fn geosvm_touched(
    handle: &mut Handle,
    alloc: Global,
    first: usize,
    places: &mut [ToldPlace],
    count: &mut usize,
) -> i32
    ensures { HandsOutOnHandle (ReadsPlaces facts commands.Touched first)
        handle.old handle.new places.old places.new count.new result }
{
    window(handle, alloc, PlacesLookUp::Touched, first, places, count)
}

/// Where an undo would.
#[unsafe(no_mangle)]
pub extern "C" fn geosvm_undo_places(
    handle: &mut Handle,
    alloc: Global,
    first: usize,
    places: &mut [ToldPlace],
    count: &mut usize,
) -> i32
    ensures { HandsOutOnHandle (ReadsPlaces facts commands.UndoPlaces first)
        handle.old handle.new places.old places.new count.new result }
{
    window(handle, alloc, PlacesLookUp::Undo, first, places, count)
}

/// Where a redo would.
#[unsafe(no_mangle)]
pub extern "C" fn geosvm_redo_places(
    handle: &mut Handle,
    alloc: Global,
    first: usize,
    places: &mut [ToldPlace],
    count: &mut usize,
) -> i32
    ensures { HandsOutOnHandle (ReadsPlaces facts commands.RedoPlaces first)
        handle.old handle.new places.old places.new count.new result }
{
    window(handle, alloc, PlacesLookUp::Redo, first, places, count)
}

/// Where an abandon would.
#[unsafe(no_mangle)]
pub extern "C" fn geosvm_abandon_places(
    handle: &mut Handle,
    alloc: Global,
    first: usize,
    places: &mut [ToldPlace],
    count: &mut usize,
) -> i32
    ensures { HandsOutOnHandle (ReadsPlaces facts commands.AbandonPlaces first)
        handle.old handle.new places.old places.new count.new result }
{
    window(handle, alloc, PlacesLookUp::Abandon, first, places, count)
}
