//! The words of `geosvm [--new] [--checksums] [--bail] [--echo] [--cache N] [--undo N] [--as FILE2] FILE`.
ghost use Rattle.std.specs.Prelude.{◌≡◌, ◌≤◌, codes, drop, true, false, IfOk, IfErr, IfSome, map};
ghost use Rattle.std.specs.List.{Contains};
ghost use Rattle.clap.specs.Words.{FailsBy, app_of, fault_of, found_of, kind_of, matches_of, rows_of, rule_of};
ghost use Rattle.command_lines.specs.Options.{IsLimit, IsMatched, IsUsable, RefusesWords, TurnsInto, cache_option, command_line, flag, geosvm, number_option, said, line_of_options, undo_option};

use crate::asked::{NoOptions, Options};
use clap::builder::ValueParser;
use clap::error::ErrorKind;
use clap::{Arg, ArgAction, ArgMatches, Command, Error, value_parser};
use geos_model::Bytes;
use geos_script::command_list;
use std::alloc::{AllocError, Global};
use std::convert::AsStr;

/// How many frames the cache has where nothing is said.
const FRAMES: u8 = 8;

/// What help says before the options.
const ABOUT: &str = concat!(
    "Runs a script from standard input on a document of blocks, and writes its replies to standard output\n\n",
    "Example:\n  printf 'newraw 7 2\\nvwrite 0001 0 6869\\nsave\\n' | geosvm --new document\n\n",
    "Exit status:\n",
    "  0  the script was answered to its end, whatever the replies were\n",
    "  1  FILE or FILE2 can't be opened, or the run ended before its script did\n",
    "  2  the words are no command line",
);

/// Reads a command line, whose first word is the name of the program.
pub fn options<'a, S: AsStr>(alloc: Global, words: &'a [S]) -> Result<Options<'a>, NoOptions>
    ensures ok { IfOk result
        (λ o. (command_line (map S.text words.entry.now) ≡ Some (line_of_options o)) × IsUsable (line_of_options o)) }
    ensures new { IfOk result (λ o. o.new ≡ true → Contains (drop 1 (map S.text words.entry.now)) (codes "--new")) }
    ensures checksums { IfOk result
        (λ o. o.checksums ≡ true → Contains (drop 1 (map S.text words.entry.now)) (codes "--checksums")) }
    ensures err { IfErr result (RefusesWords (map S.text words.entry.now)) }
{
    let options = match parse(alloc, words) {
        Ok(matches) => told(&matches),
        Err(error) => return Err(no_options(alloc, &error)),
    };
    if options.target == Some(options.file) {
        return Err(NoOptions::SameFile);
    }
    Ok(options)
}

/// Matches the words with the command line that the program takes.
fn parse<'a, S: AsStr>(alloc: Global, words: &'a [S]) -> Result<ArgMatches<'a>, Error>
    ensures matched { IfOk result (λ m. IsMatched (found_of m)) }
    ensures rows { IfOk result (λ m. rows_of (found_of m) ≡ matches_of geosvm (map S.text words.entry.now)) }
    ensures kinds { FailsBy (fault_of geosvm (map S.text words.entry.now)) result }
{
    command(alloc)?.try_get_matches_from(words)
}

/// The command line that the program takes.
fn command<'a>(alloc: Global) -> Result<Command<'a>, AllocError>
    ensures { IfOk result (λ c. app_of c ≡ geosvm) }
{
    Command::new(alloc, "geosvm")
        .version("0.2.0, for files of versions 1 to 3, proved by rattle-kit-13")
        .about(ABOUT)
        .after_help(command_list())
        .arg(flag(
            alloc,
            "new",
            "Make FILE; one that is there is emptied, without a question",
        ))?
        .arg(flag(
            alloc,
            "checksums",
            "Give FILE checksums from its next commit on; with --new from the start",
        ))?
        .arg(flag(alloc, "bail", "End at the first refusal, with status 1"))?
        .arg(flag(alloc, "echo", "Write each line before its reply"))?
        .arg(cache_option(alloc))?
        .arg(undo_option(alloc))?
        .arg(
            Arg::new(alloc, "as")
                .long("as")
                .action(ArgAction::Set)
                .value_name("FILE2")
                .help("The file that `saveas` writes; it is made if it is missing"),
        )?
        .arg(
            Arg::new(alloc, "file")
                .action(ArgAction::Set)
                .value_name("FILE")
                .required(true)
                .help("The file of the document"),
        )
}

fn flag<'a>(alloc: Global, name: &'a str, help: &'a str) -> Arg<'a>
    ensures { (rule_of result ≡ flag name.entry.now) × (result.global ≡ false) }
{
    Arg::new(alloc, name)
        .long(name)
        .action(ArgAction::SetTrue)
        .value_parser(value_parser!(bool))
        .help(help)
}

fn cache_option<'a>(alloc: Global) -> Arg<'a>
    ensures { (rule_of result ≡ cache_option) × (result.global ≡ false) }
{
    number(
        alloc,
        "cache",
        value_parser!(u8).range(1..=64),
        "Keep at most N blocks in memory, 1 to 64 [default: 8]",
    )
}

fn undo_option<'a>(alloc: Global) -> Arg<'a>
    ensures { (rule_of result ≡ undo_option) × (result.global ≡ false) }
{
    number(
        alloc,
        "undo",
        value_parser!(u32).range(1..),
        "Keep at most N steps to be undone, 1 or more [default: all]",
    )
}

/// An option with a number.
fn number<'a>(alloc: Global, name: &'a str, parser: ValueParser<'a>, help: &'a str) -> Arg<'a>
    ensures { (rule_of result ≡ number_option name.entry.now parser.entry) × (result.global ≡ false) }
{
    Arg::new(alloc, name)
        .long(name)
        .action(ArgAction::Set)
        .value_name("N")
        .value_parser(parser)
        .help(help)
}

/// The options that were matched.
fn told<'a>(matches: &ArgMatches<'a>) -> Options<'a>
    requires { IsMatched (found_of matches.now) }
    ensures said { line_of_options result ≡ said (rows_of (found_of matches.now)) }
    ensures cache { (1 ≤ result.cache) × (result.cache ≤ 64) }
    ensures undo { IfSome result.undo_limit IsLimit }
{
    Options {
        new: matches.get_flag("new"),
        checksums: matches.get_flag("checksums"),
        bail: matches.get_flag("bail"),
        echo: matches.get_flag("echo"),
        cache: matches.get_one::<u8>("cache").unwrap_or(FRAMES),
        undo_limit: matches.get_one::<u32>("undo"),
        target: matches.get_str("as"),
        file: matches.get_str("file").unwrap(),
    }
}

/// What an error comes to.
fn no_options(alloc: Global, error: &Error) -> NoOptions
    ensures { TurnsInto (kind_of error.now) result }
{
    let Ok(text) = error.to_string(alloc) else {
        return NoOptions::Memory;
    };
    let text = Bytes::from_vec(text.into_bytes());
    match error.kind() {
        ErrorKind::OutOfMemory => NoOptions::Memory,
        ErrorKind::DisplayHelp => NoOptions::Help(text),
        ErrorKind::DisplayVersion => NoOptions::Version(text),
        _ => NoOptions::Usage(text),
    }
}
