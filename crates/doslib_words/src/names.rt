//! The words of `doslib names`.
ghost use Rattle.std.specs.Prelude.{◌≡◌, IfErr, IfOk, IsSome, codes, false};
ghost use Rattle.clap.specs.Words.{app_of, first_of, found_of, rows_of, rule_of};
ghost use Rattle.clap.specs.declared.Command.{out-Command as fields_of};
ghost use Rattle.command_line.specs.Rules.{files_rule};
ghost use Rattle.doslib_words.specs.Libraries as spec;
ghost use Rattle.doslib_words.specs.Words.{IsJobOf};

use crate::values::values_of;
use crate::words::{Job, STATUSES};
use clap::{Arg, ArgMatches, Command};
use command_line::{WordsFault, case_flag, with_arg};
use std::alloc::{AllocError, Global};

/// The subcommand `names`, which takes these files.
pub(crate) fn names_command<'a>(alloc: Global, files: Arg<'a>) -> Result<Command<'a>, AllocError>
    requires local { files.global ≡ false }
    requires rule { rule_of files ≡ files_rule }
    ensures app { IfOk result (λ c. app_of c ≡ spec.names_command) }
    ensures local { IfOk result (λ c. (fields_of c).has_globals ≡ false) }
{
    let command = Command::new(alloc, "names")
        .about("Lists names that modules want and none defines, and those that two define")
        .after_help(STATUSES);
    let command = with_arg(Ok(command), case_flag(alloc));
    with_arg(command, files)
}

/// The job of `names`, by its values.
pub(crate) fn names_job<'a>(alloc: Global, values: &ArgMatches<'a>) -> Result<Job<'a>, WordsFault>
    requires { IsSome (first_of (codes "FILES") (rows_of (found_of values.now))) }
    ensures ok { IfOk result (IsJobOf (codes "names") (rows_of (found_of values.now))) }
    ensures err { IfErr result (λ e. e ≡ WordsFault.Memory) }
{
    let files = values_of(alloc, values, "FILES")?;
    Ok(Job::Names {
        ignore_case: values.get_flag("ignore-case"),
        files,
    })
}
