//! A picture of a file.
ghost use Rattle.std.specs.Prelude.{◌≡◌, IfErr, IsErrOf, IsTrue, OnOk};
ghost use Rattle.vm_store.specs.Facts.{FailedSince};
ghost use Rattle.document_file.specs.Opened.{OnlyReadsStore};
ghost use Rattle.geos_shell.specs.Streams.{StopsWriting};
ghost use Rattle.file_map.specs.Drawn.{IsDrawn};
ghost use Rattle.file_map.specs.Faults.{IsMapRefusal};
ghost use Rattle.document_tools.specs.Maps.{EndsMap, MapsFile, MapsStore, picture_of};
ghost use Rattle.document_tools.specs.Endings.{IsEndOfPieces};

use crate::ending::{Ending, refused};
use crate::obstacle::Obstacle;
use crate::pieces::{Pieces, Watched};
use crate::viewer::Viewer;
use document_commands::MapFormat;
use file_map::{MapFault, draw_svg, draw_text};
use geos_shell::Sink;
use std::alloc::Global;
use std::io::Write;
use vm_store::Store;

fn draw<S: Store, W: Write>(
    alloc: Global,
    store: &mut S,
    picture: MapFormat,
    writer: &mut W,
) -> Result<(), MapFault>
    ensures looks { OnlyReadsStore (S.facts store.old) (S.facts store.new) }
    ensures text { OnOk result (IsTrue (S.facts store.old).honest
        → IsDrawn (picture_of picture) (S.facts store.old).content (W.contents writer.old) (W.contents writer.new)) }
    ensures file { IsErrOf result MapFault.File → FailedSince (S.facts store.old) (S.facts store.new) }
    ensures refusals { IfErr result (IsMapRefusal (S.facts store.old)) }
{
    match picture {
        MapFormat::Text => draw_text(alloc, store, writer),
        MapFormat::Svg => draw_svg(alloc, store, writer),
    }
}

// How a drawing ended whose pieces were gathered, by whether the last write of them failed. A piece that couldn't be
// written though none failed found no memory.
fn map_end(drawn: Result<(), MapFault>, failed: bool) -> Result<(), MapFault>
    ensures { IsEndOfPieces MapFault.Memory MapFault.Write drawn failed result }
{
    match drawn {
        Ok(()) if failed => Err(MapFault::Write),
        Err(MapFault::Write) if !failed => Err(MapFault::Memory),
        _ => drawn,
    }
}

// Writes the picture, and gives the writer back.
fn draw_to<S: Store, W: Sink + Drop>(
    alloc: Global,
    store: &mut S,
    picture: MapFormat,
    writer: W,
) -> (W, Result<(), MapFault>)
    ensures looks { OnlyReadsStore (S.facts store.old) (S.facts store.new) }
    ensures text { OnOk result.1 (IsTrue (S.facts store.old).honest
        → IsDrawn (picture_of picture) (S.facts store.old).content (W.contents writer) (W.contents result.0)) }
    ensures file { IsErrOf result.1 MapFault.File → FailedSince (S.facts store.old) (S.facts store.new) }
    ensures refusals { IfErr result.1 (IsMapRefusal (S.facts store.old)) }
    ensures cause { IsErrOf result.1 MapFault.Write → ∥ StopsWriting W.writes result.0 ∥₁ }
{
    let mut pieces = Pieces::new(alloc, writer);
    let drawn = draw(alloc, store, picture, &mut pieces);
    let Watched { sink, failed } = pieces.finish();
    (sink, map_end(drawn, failed))
}

// What comes of a drawing, by how it ended.
fn map_ending(alloc: Global, file: &str, drawn: Result<(), MapFault>) -> Ending
    ensures { EndsMap file.now drawn result }
{
    match drawn {
        Ok(()) => Ending::Done,
        Err(MapFault::Memory) => Ending::Memory,
        Err(MapFault::File) => refused(alloc, file, Obstacle::Unread),
        Err(MapFault::Unopened(fault)) => refused(alloc, file, Obstacle::Unopened(fault)),
        Err(MapFault::Write) => Ending::WriteFault,
    }
}

fn map_store<S: Store, W: Sink + Drop>(
    alloc: Global,
    store: &mut S,
    file: &str,
    picture: MapFormat,
    writer: W,
) -> (W, Ending)
    ensures looks { OnlyReadsStore (S.facts store.old) (S.facts store.new) }
    ensures told { MapsStore W.contents W.writes file.now picture (S.facts store.old) (S.facts store.new) writer
        result.0 result.1 }
{
    let (left, drawn) = draw_to(alloc, store, picture, writer);
    (left, map_ending(alloc, file, drawn))
}

/// Opens the file of a name to be read alone, writes a picture of it, and gives the writer back. It gets the picture in
/// parts.
pub fn map_file<V: Viewer, W: Sink + Drop>(
    alloc: Global,
    viewer: &mut V,
    file: &str,
    picture: MapFormat,
    writer: W,
) -> (W, Ending)
    ensures { MapsFile V.views V.Opened.facts W.contents W.writes file.now picture viewer.old viewer.new writer
        result.0 result.1 }
{
    match viewer.view(file) {
        Ok(mut store) => map_store(alloc, &mut store, file, picture, writer),
        Err(cause) => (writer, refused(alloc, file, Obstacle::Unviewed(cause))),
    }
}
