//! What a file has, counted.
ghost use Rattle.std.specs.Prelude.{◌≡◌, ◌++◌, IfOk, OnOk};
ghost use Rattle.document_file.specs.Opened.{OnlyReadsStore};
ghost use Rattle.document_tools.specs.Stats.{StatsFile, StatsStore, PrintsStat, stat_text};

use crate::ending::{Ending, refused};
use crate::looking::{send_text, unopened};
use crate::obstacle::Obstacle;
use crate::viewer::Viewer;
use document_commands::Form;
use document_stat::{FileStat, stat};
use geos_shell::Sink;
use stat_texts::{push_columns, push_json};
use std::alloc::{AllocError, Global};
use vm_store::Store;

fn push_stat(out: &mut Vec<u8>, stat: &FileStat, form: Form) -> Result<(), AllocError>
    ensures { OnOk result (out.new.items ≡ out.old.items ++ stat_text form stat.now) }
{
    match form {
        Form::Columns => push_columns(out, stat),
        Form::Json => push_json(out, stat),
    }
}

fn text_of(alloc: Global, stat: &FileStat, form: Form) -> Result<Vec<u8>, AllocError>
    ensures { IfOk result (λ text. text.items ≡ stat_text form stat.now) }
{
    let mut text = Vec::new(alloc);
    push_stat(&mut text, stat, form)?;
    Ok(text)
}

fn tell_stat<W: Sink>(alloc: Global, stat: &FileStat, form: Form, writer: &mut W) -> Ending
    ensures { PrintsStat W.writes form stat.now writer.old writer.new result }
{
    match text_of(alloc, stat, form) {
        Ok(text) => send_text(text.as_slice(), writer),
        Err(_) => Ending::Memory,
    }
}

fn stat_store<S: Store, W: Sink>(
    alloc: Global,
    store: &mut S,
    file: &str,
    form: Form,
    writer: &mut W,
) -> Ending
    ensures looks { OnlyReadsStore (S.facts store.old) (S.facts store.new) }
    ensures told { StatsStore W.writes file.now form (S.facts store.old) (S.facts store.new) writer.old writer.new result }
{
    match stat(alloc, store) {
        Ok(stat) => tell_stat(alloc, &stat, form, writer),
        Err(fault) => unopened(alloc, file, fault, Obstacle::Unopened(fault)),
    }
}

/// Opens the file of a name to be read alone, and writes what it has, counted, in one write.
pub fn stat_file<V: Viewer, W: Sink>(
    alloc: Global,
    viewer: &mut V,
    file: &str,
    form: Form,
    writer: &mut W,
) -> Ending
    ensures { StatsFile V.views V.Opened.facts W.writes file.now form viewer.old viewer.new writer.old writer.new result }
{
    match viewer.view(file) {
        Ok(mut store) => stat_store(alloc, &mut store, file, form, writer),
        Err(cause) => refused(alloc, file, Obstacle::Unviewed(cause)),
    }
}
