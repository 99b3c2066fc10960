//! Arguments that both programs take.
ghost use Rattle.std.specs.Prelude.{◌≡◌, false};
ghost use Rattle.clap.specs.Words.{rule_of};
ghost use Rattle.document_commands.specs.Arguments.{file_rule, flag_rule, second_operand};

use clap::{Arg, ArgAction, value_parser};
use std::alloc::Global;

/// A word that sets a flag.
pub(crate) fn flag<'a>(alloc: Global, name: &'a str, help: &'a str) -> Arg<'a>
    ensures { (rule_of result ≡ flag_rule name.entry.now) × (result.global ≡ false) }
{
    Arg::new(alloc, name)
        .long(name)
        .action(ArgAction::SetTrue)
        .value_parser(value_parser!(bool))
        .help(help)
}

/// The name of the document's file, which has to be there.
pub(crate) fn file_operand<'a>(alloc: Global) -> Arg<'a>
    ensures { (rule_of result ≡ file_rule) × (result.global ≡ false) }
{
    Arg::new(alloc, "file")
        .action(ArgAction::Set)
        .value_name("FILE")
        .required(true)
        .help("The file of the document")
}

/// The name of a second document's file, which has to be there too.
pub(crate) fn second_operand<'a>(alloc: Global) -> Arg<'a>
    ensures { (rule_of result ≡ second_operand) × (result.global ≡ false) }
{
    Arg::new(alloc, "file2")
        .action(ArgAction::Set)
        .value_name("FILE2")
        .required(true)
        .help("The file of the document that it is compared with")
}
