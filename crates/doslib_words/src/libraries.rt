//! The words of the commands that make and change libraries.
ghost use Rattle.std.specs.Prelude.{◌≡◌, IfOk, false};
ghost use Rattle.clap.specs.Words.{Rule, app_of, rule_of};
ghost use Rattle.clap.specs.declared.Command.{out-Command as fields_of};
ghost use Rattle.doslib_words.specs.Libraries as spec;

use crate::words::STATUSES;
use clap::builder::ValueRange;
use clap::{Arg, Command};
use command_line::with_arg;
use std::alloc::{AllocError, Global};

/// The library that is made or changed, or out of which members are taken.
fn library_arg<'a>(alloc: Global) -> Arg<'a>
    ensures rule { rule_of result ≡ spec.library_rule }
    ensures local { result.global ≡ false }
{
    Arg::new(alloc, "LIB")
        .required(true)
        .help("The library (.LIB)")
}

/// The members that are taken out of it.
pub(crate) fn members_arg<'a>(alloc: Global) -> Arg<'a>
    ensures rule { rule_of result ≡ spec.members_rule }
    ensures local { result.global ≡ false }
{
    Arg::new(alloc, "MEMBERS")
        .required(true)
        .num_args(ValueRange::from(1..))
        .help("Names of members: each that of a module, without folder and extension")
}

/// A subcommand that takes a library, and other values.
pub(crate) fn library_command<'a>(
    alloc: Global,
    name: &'a str,
    about: &'a str,
    values: Arg<'a>,
) -> Result<Command<'a>, AllocError>
    requires { values.global ≡ false }
    ensures app { (rule : Rule) → rule_of values.entry ≡ rule
        → IfOk result (λ c. app_of c ≡ spec.library_command name.entry.now rule) }
    ensures local { IfOk result (λ c. (fields_of c).has_globals ≡ false) }
{
    let command = Command::new(alloc, name).about(about).after_help(STATUSES);
    let command = with_arg(Ok(command), library_arg(alloc));
    with_arg(command, values)
}
