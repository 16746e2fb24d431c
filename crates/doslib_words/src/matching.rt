//! The words of `doslib match`: a program's file, and the files whose modules are looked for in it.
ghost use Rattle.std.specs.Prelude.{◌≡◌, IfErr, IfOk, IsSome, codes, false};
ghost use Rattle.clap.specs.Words.{app_of, first_of, found_of, rows_of, rule_of};
ghost use Rattle.clap.specs.declared.Command.{out-Command as fields_of};
ghost use Rattle.doslib_words.specs.Matching as spec;
ghost use Rattle.doslib_words.specs.Words.{IsJobOf};

use crate::values::{needed, values_of};
use crate::words::{Job, STATUSES, files};
use clap::{Arg, ArgMatches, Command};
use command_line::{WordsFault, with_arg};
use std::alloc::{AllocError, Global};

/// The program's file.
pub(crate) fn program_arg<'a>(alloc: Global) -> Arg<'a>
    ensures rule { rule_of result ≡ spec.program_rule }
    ensures local { result.global ≡ false }
{
    Arg::new(alloc, "PROGRAM")
        .required(true)
        .help("The program: an MS-DOS executable (.EXE)")
}

/// The subcommand `match`.
pub(crate) fn match_command<'a>(alloc: Global) -> Result<Command<'a>, AllocError>
    ensures app { IfOk result (λ c. app_of c ≡ spec.match_command) }
    ensures local { IfOk result (λ c. (fields_of c).has_globals ≡ false) }
{
    let command = Command::new(alloc, "match")
        .about("Tells which modules stand in a program, where, and what is left over")
        .after_help(STATUSES);
    let command = with_arg(Ok(command), program_arg(alloc));
    with_arg(command, files(alloc))
}

/// The job of `match`, by its values.
pub(crate) fn match_job<'a>(alloc: Global, values: &ArgMatches<'a>) -> Result<Job<'a>, WordsFault>
    requires program { IsSome (first_of (codes "PROGRAM") (rows_of (found_of values.now))) }
    requires files { IsSome (first_of (codes "FILES") (rows_of (found_of values.now))) }
    ensures ok { IfOk result (IsJobOf (codes "match") (rows_of (found_of values.now))) }
    ensures err { IfErr result (λ e. e ≡ WordsFault.Memory) }
{
    Ok(Job::Match {
        program: needed(values, "PROGRAM"),
        files: values_of(alloc, values, "FILES")?,
    })
}
