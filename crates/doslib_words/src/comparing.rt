//! The words of `doslib compare`: the files of two programs, and the files whose modules are looked for in the first.
ghost use Rattle.std.specs.Prelude.{◌≡◌, IfErr, IfOk, IsSome, codes, false};
ghost use Rattle.clap.specs.Words.{app_of, first_of, found_of, rows_of, rule_of};
ghost use Rattle.clap.specs.declared.Command.{out-Command as fields_of};
ghost use Rattle.doslib_words.specs.Comparing as spec;
ghost use Rattle.doslib_words.specs.Words.{IsJobOf};

use crate::matching::program_arg;
use crate::values::{needed, values_of};
use crate::words::{Job, STATUSES, files};
use clap::{Arg, ArgMatches, Command};
use command_line::{WordsFault, with_arg};
use std::alloc::{AllocError, Global};

/// The file of the program that it is held against.
fn other_arg<'a>(alloc: Global) -> Arg<'a>
    ensures rule { rule_of result ≡ spec.other_rule }
    ensures local { result.global ≡ false }
{
    Arg::new(alloc, "OTHER")
        .required(true)
        .help("The program that it is held against")
}

/// The subcommand `compare`.
pub(crate) fn compare_command<'a>(alloc: Global) -> Result<Command<'a>, AllocError>
    ensures app { IfOk result (λ c. app_of c ≡ spec.compare_command) }
    ensures local { IfOk result (λ c. (fields_of c).has_globals ≡ false) }
{
    let command = Command::new(alloc, "compare")
        .about("Tells the first byte at which two programs differ, and which modules have it")
        .after_help(STATUSES);
    let command = with_arg(Ok(command), program_arg(alloc));
    let command = with_arg(command, other_arg(alloc));
    with_arg(command, files(alloc))
}

/// The job of `compare`, by its values.
pub(crate) fn compare_job<'a>(alloc: Global, values: &ArgMatches<'a>) -> Result<Job<'a>, WordsFault>
    requires program { IsSome (first_of (codes "PROGRAM") (rows_of (found_of values.now))) }
    requires other { IsSome (first_of (codes "OTHER") (rows_of (found_of values.now))) }
    requires files { IsSome (first_of (codes "FILES") (rows_of (found_of values.now))) }
    ensures ok { IfOk result (IsJobOf (codes "compare") (rows_of (found_of values.now))) }
    ensures err { IfErr result (λ e. e ≡ WordsFault.Memory) }
{
    Ok(Job::Compare {
        program: needed(values, "PROGRAM"),
        other: needed(values, "OTHER"),
        files: values_of(alloc, values, "FILES")?,
    })
}
