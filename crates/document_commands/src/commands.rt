//! The words of `geosdoc COMMAND [FLAG] FILE..`.
ghost use Rattle.std.specs.Prelude.{◌≡◌, IfErr, IfOk, IfSome, map, true};
ghost use Rattle.clap.specs.Words.{app_of, found_of, kind_of, rows_of, subcommand_of, subcommand_rows_of, takes};
ghost use Rattle.clap.specs.declared.error.kind.ErrorKind.TheVariants.{OutOfMemory};
ghost use Rattle.document_commands.specs.Arguments.{has_flag_word};
ghost use Rattle.document_commands.specs.Requests.{IsAskedBy, check_command, checksums_by, diff_command, diff_scope_by, dump_command, dump_scope_by, form_by, geosdoc, map_command, map_format_by, restore_command, salvage_command, salvage_scope_by, stat_command};

use crate::arguments::{file_operand, flag, second_operand};
use crate::requested::{
    Asked, Checksums, DiffScope, DumpScope, Form, MapFormat, NoRequest, Request, SalvageScope,
};
use clap::error::ErrorKind;
use clap::{ArgMatches, Command, Error};
use geos_model::Bytes;
use std::alloc::{AllocError, Global};
use std::convert::AsStr;

/// Reads a command line of `geosdoc`, whose first word is the name of the program.
pub fn request<'a, S: AsStr>(alloc: Global, words: &'a [S]) -> Result<Request<'a>, NoRequest>
    ensures ok { IfOk result (IsAskedBy (subcommand_of geosdoc (map S.text words.entry.now))) }
    ensures err { IfErr result (λ none. takes geosdoc (map S.text words.entry.now) ≡ true → none ≡ NoRequest.Memory) }
{
    match parse(alloc, words) {
        Ok(matches) => request_of(&matches).ok_or(NoRequest::Memory),
        Err(error) => Err(no_request(alloc, &error)),
    }
}

/// Matches the words with the commands that the program takes.
fn parse<'a, S: AsStr>(alloc: Global, words: &'a [S]) -> Result<ArgMatches<'a>, Error>
    ensures rows { IfOk result (λ m. subcommand_rows_of m ≡ subcommand_of geosdoc (map S.text words.entry.now)) }
    ensures passes { IfErr result (λ e. takes geosdoc (map S.text words.entry.now) ≡ true → kind_of e ≡ OutOfMemory) }
{
    command(alloc)?.try_get_matches_from(words)
}

/// The commands that the program takes.
fn command<'a>(alloc: Global) -> Result<Command<'a>, AllocError>
    ensures { IfOk result (λ c. app_of c ≡ geosdoc) }
{
    Command::new(alloc, "geosdoc")
        .version("0.2.0, for files of versions 1 to 3, proved by rattle-kit-13")
        .about("Tells what is in a document file, and writes none but one that restore makes")
        .subcommand_required(true)
        .arg_required_else_help(true)
        .subcommand(check_command(alloc)?)?
        .subcommand(dump_command(alloc)?)?
        .subcommand(stat_command(alloc)?)?
        .subcommand(map_command(alloc)?)?
        .subcommand(diff_command(alloc)?)?
        .subcommand(salvage_command(alloc)?)?
        .subcommand(restore_command(alloc)?)
}

fn check_command<'a>(alloc: Global) -> Result<Command<'a>, AllocError>
    ensures { IfOk result (λ c. app_of c ≡ check_command) }
{
    Command::new(alloc, "check")
        .about("Tells whether the file opens, and what is wrong with it")
        .arg(file_operand(alloc))
}

fn dump_command<'a>(alloc: Global) -> Result<Command<'a>, AllocError>
    ensures { IfOk result (λ c. app_of c ≡ dump_command) }
{
    Command::new(alloc, "dump")
        .about("Writes a script that makes the document again: geosdoc restore FILE2 < SCRIPT")
        .arg(flag(alloc, "saved", "Writes the saved document alone"))?
        .arg(flag(
            alloc,
            "other",
            "Writes what the other slot leads to: the commit before",
        )
        .conflicts_with("saved")?)?
        .arg(file_operand(alloc))
}

fn stat_command<'a>(alloc: Global) -> Result<Command<'a>, AllocError>
    ensures { IfOk result (λ c. app_of c ≡ stat_command) }
{
    Command::new(alloc, "stat")
        .about("Counts the file's pages, and the document's blocks, chunks and arrays")
        .arg(flag(alloc, "json", "Writes one JSON object"))?
        .arg(file_operand(alloc))
}

fn map_command<'a>(alloc: Global) -> Result<Command<'a>, AllocError>
    ensures { IfOk result (λ c. app_of c ≡ map_command) }
{
    Command::new(alloc, "map")
        .about("Draws what lies on the pages of the file, and its heaps")
        .arg(flag(alloc, "svg", "Draws it as SVG, for a browser"))?
        .arg(file_operand(alloc))
}

fn diff_command<'a>(alloc: Global) -> Result<Command<'a>, AllocError>
    ensures { IfOk result (λ c. app_of c ≡ diff_command) }
{
    Command::new(alloc, "diff")
        .about(
            "Tells what differs between two documents: 0 for nothing, 1 for anything, 2 for a fault",
        )
        .arg(flag(alloc, "saved", "Compares the saved documents"))?
        .arg(file_operand(alloc))?
        .arg(second_operand(alloc))
}

fn salvage_command<'a>(alloc: Global) -> Result<Command<'a>, AllocError>
    ensures { IfOk result (λ c. app_of c ≡ salvage_command) }
{
    Command::new(alloc, "salvage")
        .about("Writes a script of all that can be read of a file that doesn't open")
        .arg(flag(alloc, "all", "Takes blocks whose sum is wrong too"))?
        .arg(file_operand(alloc))
}

fn restore_command<'a>(alloc: Global) -> Result<Command<'a>, AllocError>
    ensures { IfOk result (λ c. app_of c ≡ restore_command) }
{
    Command::new(alloc, "restore")
        .about("Makes a document, in a file that isn't there yet, by a script from standard input")
        .arg(flag(
            alloc,
            "checksums",
            "Makes a file with checksums, of version 3",
        ))?
        .arg(file_operand(alloc))
}

/// What the command that was matched asks for.
fn request_of<'a>(matches: &ArgMatches<'a>) -> Option<Request<'a>>
    ensures { IfSome result (IsAskedBy (subcommand_rows_of matches.now)) }
{
    let (name, matches) = matches.subcommand()?;
    let file = matches.get_str("file")?;
    match name {
        "check" => Some(Request::Check(file)),
        "dump" => Some(Request::Look(Asked::Dump(dumped(matches)), file)),
        "stat" => Some(Request::Look(Asked::Stat(form(matches)), file)),
        "map" => Some(Request::Look(Asked::Map(picture(matches)), file)),
        "diff" => {
            let second = matches.get_str("file2")?;
            Some(Request::Diff(compared(matches), file, second))
        }
        "salvage" => Some(Request::Look(Asked::Salvage(taken(matches)), file)),
        "restore" => Some(Request::Restore(checksums(matches), file)),
        _ => None,
    }
}

fn dumped(matches: &ArgMatches<'_>) -> DumpScope
    ensures { result ≡ dump_scope_by (rows_of (found_of matches.now)) }
{
    if is_set(matches, "saved") {
        DumpScope::Saved
    } else if is_set(matches, "other") {
        DumpScope::Other
    } else {
        DumpScope::Both
    }
}

fn form(matches: &ArgMatches<'_>) -> Form
    ensures { result ≡ form_by (rows_of (found_of matches.now)) }
{
    if is_set(matches, "json") {
        Form::Json
    } else {
        Form::Columns
    }
}

fn picture(matches: &ArgMatches<'_>) -> MapFormat
    ensures { result ≡ map_format_by (rows_of (found_of matches.now)) }
{
    if is_set(matches, "svg") {
        MapFormat::Svg
    } else {
        MapFormat::Text
    }
}

fn taken(matches: &ArgMatches<'_>) -> SalvageScope
    ensures { result ≡ salvage_scope_by (rows_of (found_of matches.now)) }
{
    if is_set(matches, "all") {
        SalvageScope::All
    } else {
        SalvageScope::Whole
    }
}

fn checksums(matches: &ArgMatches<'_>) -> Checksums
    ensures { result ≡ checksums_by (rows_of (found_of matches.now)) }
{
    if is_set(matches, "checksums") {
        Checksums::With
    } else {
        Checksums::Without
    }
}

fn compared(matches: &ArgMatches<'_>) -> DiffScope
    ensures { result ≡ diff_scope_by (rows_of (found_of matches.now)) }
{
    if is_set(matches, "saved") {
        DiffScope::Saved
    } else {
        DiffScope::Updated
    }
}

// As `get_flag`, of whose contract too little is known where a flag isn't known to read as a truth value.
fn is_set(matches: &ArgMatches<'_>, name: &str) -> bool
    ensures { result ≡ has_flag_word name.now (rows_of (found_of matches.now)) }
{
    matches.get_one::<bool>(name).unwrap_or(false)
}

/// What an error comes to.
fn no_request(alloc: Global, error: &Error) -> NoRequest
    ensures { kind_of error.now ≡ OutOfMemory → result ≡ NoRequest.Memory }
{
    let Ok(text) = error.to_string(alloc) else {
        return NoRequest::Memory;
    };
    let text = Bytes::from_vec(text.into_bytes());
    match error.kind() {
        ErrorKind::OutOfMemory => NoRequest::Memory,
        ErrorKind::DisplayHelp | ErrorKind::DisplayVersion => NoRequest::Told(text),
        _ => NoRequest::Usage(text),
    }
}
