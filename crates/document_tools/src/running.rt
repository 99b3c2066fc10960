//! What is asked for, carried out.
ghost use Rattle.std.specs.Prelude.{◌≡◌};
ghost use Rattle.document_tools.specs.Endings.{PrintsLine, ending_status, error_line};
ghost use Rattle.document_tools.specs.Checks.{ChecksFile};
ghost use Rattle.document_tools.specs.Comparisons.{ComparesFiles};
ghost use Rattle.document_tools.specs.Stats.{StatsFile};
ghost use Rattle.document_tools.specs.Runs.{CarriesOut, DumpsRequested, CarriesOutLook, gives_checksums, takes_all, version_of_scope};
ghost use Rattle.document_tools.specs.Salvages.{SalvagesFile};
ghost use Rattle.document_tools.specs.declared.ending.Ending.{Ending};

use crate::checking::check_file;
use crate::comparing::{Names, diff_files};
use crate::dumping::dump_file;
use crate::ending::Ending;
use crate::mapping::map_file;
use crate::other_slot::dump_other;
use crate::restoring::{MakesNew, restore};
use crate::salvaging::salvage_file;
use crate::stating::stat_file;
use crate::viewer::Viewer;
use document_commands::{Asked, Checksums, DiffScope, DumpScope, Form, Request, SalvageScope};
use document_diff::Version;
use document_dump::Which;
use geos_shell::{Sink, Source};
use std::alloc::Global;
use vm_store::Files;

/// What the tools have of the machine.
#[derive(Drop)]
pub struct Machine<V, F, M, R> {
    /// Opens files to be read alone.
    pub viewer: V,
    /// Opens files to write them.
    pub files: F,
    /// Makes files where none are.
    pub maker: M,
    /// Gives the script of a restore.
    pub reader: R,
}

fn checked<V: Viewer, W: Sink>(
    alloc: Global,
    viewer: &mut V,
    file: &str,
    mut writer: W,
) -> (W, Ending)
    ensures { ChecksFile V.views V.Opened.facts W.writes file.now viewer.old viewer.new writer result.0 result.1 }
{
    let ending = check_file(alloc, viewer, file, &mut writer);
    (writer, ending)
}

fn counted<V: Viewer, W: Sink>(
    alloc: Global,
    viewer: &mut V,
    file: &str,
    form: Form,
    mut writer: W,
) -> (W, Ending)
    ensures { StatsFile V.views V.Opened.facts W.writes file.now form viewer.old viewer.new writer result.0 result.1 }
{
    let ending = stat_file(alloc, viewer, file, form, &mut writer);
    (writer, ending)
}

fn dump_asked<V: Viewer, W: Sink + Drop>(
    alloc: Global,
    viewer: &mut V,
    file: &str,
    asked: DumpScope,
    writer: W,
) -> (W, Ending)
    ensures { DumpsRequested V.views V.Opened.facts W.contents W.writes asked file.now viewer.old viewer.new writer
        result.0 result.1 }
{
    match asked {
        DumpScope::Both => dump_file(alloc, viewer, file, Which::Both, writer),
        DumpScope::Saved => dump_file(alloc, viewer, file, Which::Saved, writer),
        DumpScope::Other => dump_other(alloc, viewer, file, writer),
    }
}

fn salvage_asked<V: Viewer, W: Sink + Drop>(
    alloc: Global,
    viewer: &mut V,
    file: &str,
    taken: SalvageScope,
    writer: W,
) -> (W, Ending)
    ensures { SalvagesFile V.views V.Opened.facts W.contents W.writes file.now (takes_all taken) viewer.old viewer.new
        writer result.0 result.1 }
{
    match taken {
        SalvageScope::Whole => salvage_file(alloc, viewer, file, false, writer),
        SalvageScope::All => salvage_file(alloc, viewer, file, true, writer),
    }
}

fn look<V: Viewer, W: Sink + Drop>(
    alloc: Global,
    viewer: &mut V,
    file: &str,
    asked: Asked,
    writer: W,
) -> (W, Ending)
    ensures { CarriesOutLook V.views V.Opened.facts W.contents W.writes asked file.now viewer.old viewer.new writer
        result.0 result.1 }
{
    match asked {
        Asked::Dump(dumped) => dump_asked(alloc, viewer, file, dumped, writer),
        Asked::Stat(form) => counted(alloc, viewer, file, form, writer),
        Asked::Map(picture) => map_file(alloc, viewer, file, picture, writer),
        Asked::Salvage(taken) => salvage_asked(alloc, viewer, file, taken, writer),
    }
}

fn diff_asked<V: Viewer, W: Sink + Drop>(
    alloc: Global,
    viewer: &mut V,
    scope: DiffScope,
    first: &str,
    second: &str,
    writer: W,
) -> (W, Ending)
    ensures { ComparesFiles V.views V.Opened.facts W.contents W.writes first.now second.now (version_of_scope scope)
        viewer.old viewer.new writer result.0 result.1 }
{
    let names = Names { first, second };
    match scope {
        DiffScope::Updated => diff_files(alloc, viewer, names, Version::Updated, writer),
        DiffScope::Saved => diff_files(alloc, viewer, names, Version::Saved, writer),
    }
}

fn gives_checksums(checksums: Checksums) -> bool
    ensures { result ≡ gives_checksums checksums }
{
    match checksums {
        Checksums::Without => false,
        Checksums::With => true,
    }
}

fn carry_out<V: Viewer, F: Files, M: MakesNew, R: Source, W: Sink + Drop>(
    alloc: Global,
    request: Request<'_>,
    machine: &mut Machine<V, F, M, R>,
    writer: W,
) -> (W, Ending)
    ensures { CarriesOut V.views V.Opened.facts F.calls F.Opened.facts M.makes R.remaining R.reads W.contents W.writes
        request.entry machine.old machine.new writer result.0 result.1 }
{
    match request {
        Request::Check(file) => checked(alloc, &mut machine.viewer, file, writer),
        Request::Look(asked, file) => look(alloc, &mut machine.viewer, file, asked, writer),
        Request::Diff(scope, first, second) => {
            diff_asked(alloc, &mut machine.viewer, scope, first, second, writer)
        }
        Request::Restore(checksums, file) => {
            let Machine {
                files,
                maker,
                reader,
                ..
            } = machine;
            let checksums = gives_checksums(checksums);
            let ending = restore(alloc, files, maker, file, checksums, reader);
            (writer, ending)
        }
    }
}

/// Calls the tool that is asked for, tells on `errors` how it ended, where there is anything to tell, and gives the
/// exit status.
pub fn run<V: Viewer, F: Files, M: MakesNew, R: Source, W: Sink + Drop, E: Sink>(
    alloc: Global,
    request: Request<'_>,
    machine: &mut Machine<V, F, M, R>,
    writer: W,
    errors: &mut E,
) -> u8
    ensures { (ending : Ending) × (left : W)
        × CarriesOut V.views V.Opened.facts F.calls F.Opened.facts M.makes R.remaining R.reads W.contents W.writes
        request.entry machine.old machine.new writer left ending
        × PrintsLine E.writes (error_line ending) errors.old errors.new × (result ≡ ending_status ending) }
{
    let (_left, ending) = carry_out(alloc, request, machine, writer);
    ending.tell(errors)
}
