//! The values that a subcommand asks for.
ghost use Rattle.std.specs.Prelude.{◌≡◌, IfErr, IfOk, IsSome, Some};
ghost use Rattle.clap.specs.Words.{first_of, found_of, rows_of};
ghost use Rattle.doslib_words.specs.Libraries as spec;

use clap::ArgMatches;
use command_line::WordsFault;
use std::alloc::Global;

/// A value that a command asks for.
pub(crate) fn needed<'a>(values: &ArgMatches<'a>, id: &str) -> &'a str
    requires { IsSome (first_of id.now (rows_of (found_of values.now))) }
    ensures { first_of id.now (rows_of (found_of values.now)) ≡ Some result.now }
{
    values.get_str(id).unwrap()
}

/// The values of an argument that has one at least.
pub(crate) fn values_of<'a>(
    alloc: Global,
    values: &ArgMatches<'a>,
    id: &str,
) -> Result<Vec<&'a str>, WordsFault>
    requires { IsSome (first_of id.now (rows_of (found_of values.now))) }
    ensures ok { IfOk result (λ list. spec.AreValues id.now (rows_of (found_of values.now)) list.items) }
    ensures err { IfErr result (λ e. e ≡ WordsFault.Memory) }
{
    let list = values.get_strs(id).unwrap();
    match Vec::from_slice(alloc, list) {
        Ok(list) => Ok(list),
        Err(_) => Err(WordsFault::Memory),
    }
}
