//! What the command lines of all programs share: arguments of one form, a command with one argument more, why words are
//! no job, and for proofs what the values of a command line say and what follows of a parse.
#![tactic(auto)]

ghost use Rattle.std.specs.Prelude.{◌≡◌, IfOk, false};
ghost use Rattle.clap.specs.Words.{App, Rule, app_of, rule_of, with_rule};
ghost use Rattle.clap.specs.declared.Command.{out-Command as fields_of};
ghost use Rattle.command_line.specs.Rules as spec;

mod words_fault;

use clap::builder::ValueRange;
use clap::{Arg, ArgAction, Command};
use std::alloc::{AllocError, Global};
pub use words_fault::{WordsFault, refusal};

/// The version of both programs, which is that of the file VERSION.
pub const VERSION: &str = "1.0";

/// A flag `--ID`, with its line of help.
pub fn flag<'a>(alloc: Global, id: &'a str, help: &'a str) -> Arg<'a>
    ensures rule { rule_of result ≡ spec.flag_rule id.entry.now }
    ensures local { result.global ≡ false }
{
    Arg::new(alloc, id)
        .long(id)
        .action(ArgAction::SetTrue)
        .help(help)
}

/// Whether names agree without regard to case.
pub fn case_flag<'a>(alloc: Global) -> Arg<'a>
    ensures rule { rule_of result ≡ spec.case_rule }
    ensures local { result.global ≡ false }
{
    flag(
        alloc,
        "ignore-case",
        "Names agree without regard to case: for Pascal, and assemblers that write capitals",
    )
}

/// The map that is written, where one is asked for.
pub fn map_option<'a>(alloc: Global) -> Arg<'a>
    ensures rule { rule_of result ≡ spec.map_rule }
    ensures local { result.global ≡ false }
{
    Arg::new(alloc, "MAP")
        .short('m')
        .help("The map to write after it, another file than OUT")
}

/// The files that are linked, one or more.
pub fn files<'a>(alloc: Global) -> Arg<'a>
    ensures rule { rule_of result ≡ spec.files_rule }
    ensures local { result.global ≡ false }
{
    Arg::new(alloc, "FILES")
        .required(true)
        .num_args(ValueRange::from(1..))
        .help("The object modules to link, one in each file, in their order")
}

/// The command with one argument more, where it could be made.
pub fn with_arg<'a>(
    command: Result<Command<'a>, AllocError>,
    arg: Arg<'a>,
) -> Result<Command<'a>, AllocError>
    requires local { arg.global ≡ false }
    requires above { IfOk command (λ c. (fields_of c).has_globals ≡ false) }
    ensures app { (outer : App) (rule : Rule) → IfOk command.entry (λ c. app_of c ≡ outer) → rule_of arg.entry ≡ rule
        → IfOk result (λ c. app_of c ≡ with_rule outer rule) }
    ensures local { IfOk result (λ c. (fields_of c).has_globals ≡ false) }
{
    command?.arg(arg)
}
