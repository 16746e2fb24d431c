//! The words of the command line.
ghost use Rattle.std.specs.Prelude.{◌≡◌, IfErr, IfOk, IsSome, codes, false, true};
ghost use Rattle.clap.specs.Words.{App, app_of, first_of, found_of, is_simple, rows_of, rule_of, takes};
ghost use Rattle.clap.specs.Words.{with_subcommand};
ghost use Rattle.clap.specs.declared.Command.{out-Command as fields_of};
ghost use Rattle.command_line.specs.Rules.{files_rule};
ghost use Rattle.doslib_words.specs.Libraries as libraries;
ghost use Rattle.doslib_words.specs.Words as spec;
ghost use Rattle.doslib_words.specs.Words.{IsJobFor, IsJobOf, IsRefusalFor, texts};
ghost use Rattle.doslib_words.specs.inside.Words.{IsEntered, IsRefusalOf};

use crate::comparing::{compare_command, compare_job};
use crate::libraries::{library_command, members_arg};
use crate::matching::{match_command, match_job};
use crate::names::{names_command, names_job};
use crate::program::{Image, program_command, program_job};
use crate::values::{needed, values_of};
use clap::builder::ValueRange;
use clap::{Arg, ArgMatches, Command};
use command_line::{VERSION, WordsFault, refusal, with_arg};
use std::alloc::{AllocError, Global};

/// What stands at the end of help.
pub(crate) const STATUSES: &str = "\
Exit status: 0 all is done, 1 a file is at fault, 2 wrong arguments, 3 a file or device\n\
failed or out of memory. A fault is one line on standard error.";

/// What the words ask for: a subcommand with its values.
#[derive(Debug, Drop)]
pub enum Job<'a> {
    /// List the members of files.
    List {
        /// The paths of the files, in their order.
        files: Vec<&'a str>,
    },
    /// Show the records of files.
    Show {
        /// The paths of the files, in their order.
        files: Vec<&'a str>,
    },
    /// Tell what a program's file says, and write its image where that is asked for.
    Program {
        /// The path of the program.
        file: &'a str,
        /// The image that is written, where one is asked for.
        image: Option<Image<'a>>,
    },
    /// Tell which modules of files stand in a program.
    Match {
        /// The path of the program.
        program: &'a str,
        /// The paths of the files, in their order.
        files: Vec<&'a str>,
    },
    /// Tell the first byte at which two programs differ, and which modules of files have it in the first of them.
    Compare {
        /// The path of the program in which modules are looked for.
        program: &'a str,
        /// The path of the program that it is held against.
        other: &'a str,
        /// The paths of the files, in their order.
        files: Vec<&'a str>,
    },
    /// List the names that modules of files want and none defines, and those that two define.
    Names {
        /// Whether names agree without regard to case.
        ignore_case: bool,
        /// The paths of the files, in their order.
        files: Vec<&'a str>,
    },
    /// Make a library of the modules of files.
    Make {
        /// The path of the library that is written.
        library: &'a str,
        /// The paths of the files, in their order.
        files: Vec<&'a str>,
    },
    /// Put the modules of files behind those of a library.
    Add {
        /// The path of the library.
        library: &'a str,
        /// The paths of the files, in their order.
        files: Vec<&'a str>,
    },
    /// Take members out of a library.
    Delete {
        /// The path of the library.
        library: &'a str,
        /// The names of the members.
        members: Vec<&'a str>,
    },
    /// Put each module of files in the place of the member of its name.
    Replace {
        /// The path of the library.
        library: &'a str,
        /// The paths of the files, in their order.
        files: Vec<&'a str>,
    },
    /// Write members of a library to files of their own.
    Extract {
        /// The path of the library, or of another file.
        library: &'a str,
        /// The names of the members.
        members: Vec<&'a str>,
    },
}

/// The files that are told of, one or more.
pub(crate) fn files<'a>(alloc: Global) -> Arg<'a>
    ensures rule { rule_of result ≡ files_rule }
    ensures local { result.global ≡ false }
{
    Arg::new(alloc, "FILES")
        .required(true)
        .num_args(ValueRange::from(1..))
        .help("Object modules, libraries (.LIB) and Unix archives of modules")
}

/// A subcommand that takes files.
fn files_command<'a>(
    alloc: Global,
    name: &'a str,
    about: &'a str,
) -> Result<Command<'a>, AllocError>
    ensures app { IfOk result (λ c. app_of c ≡ spec.files_command name.entry.now) }
    ensures local { IfOk result (λ c. (fields_of c).has_globals ≡ false) }
{
    let command = Command::new(alloc, name).about(about).after_help(STATUSES);
    with_arg(Ok(command), files(alloc))
}

/// The command with one subcommand more, where both could be made.
fn with_command<'a>(
    above: Result<Command<'a>, AllocError>,
    command: Result<Command<'a>, AllocError>,
) -> Result<Command<'a>, AllocError>
    requires local { IfOk command (λ c. (fields_of c).has_globals ≡ false) }
    requires above { IfOk above (λ a. (fields_of a).has_globals ≡ false) }
    ensures app { (outer inner : App) → IfOk above.entry (λ a. app_of a ≡ outer)
        → IfOk command.entry (λ c. app_of c ≡ inner) → IfOk result (λ c. app_of c ≡ with_subcommand outer inner.top) }
    ensures local { IfOk result (λ c. (fields_of c).has_globals ≡ false) }
{
    above?.subcommand(command?)
}

/// The command `doslib` before it has its subcommands.
fn bare_command<'a>(alloc: Global) -> Result<Command<'a>, AllocError>
    ensures app { IfOk result (λ c. app_of c ≡ spec.bare_command) }
    ensures local { IfOk result (λ c. (fields_of c).has_globals ≡ false) }
{
    Command::new(alloc, "doslib")
        .about(
            "Tells what object modules, libraries, archives and programs hold, and makes libraries",
        )
        .after_help(STATUSES)
        .version(VERSION)
        .no_binary_name(true)
        .subcommand_required(true)
        .arg_required_else_help(true)
        .bin_name("doslib")
}

/// The command `doslib`.
fn doslib_command<'a>(alloc: Global) -> Result<Command<'a>, AllocError>
    ensures { IfOk result (λ c. app_of c ≡ spec.doslib_command) }
{
    let list = files_command(
        alloc,
        "list",
        "Lists the members of files, with the names that each offers and wants",
    );
    let command = with_command(bare_command(alloc), list);
    let show = files_command(
        alloc,
        "show",
        "Shows each record of files, with names in place of indexes",
    );
    let command = with_command(command, show);
    let command = with_command(command, program_command(alloc));
    let command = with_command(command, match_command(alloc));
    let command = with_command(command, compare_command(alloc));
    let command = with_command(command, names_command(alloc, files(alloc)));
    with_changes(alloc, command)
}

/// The command with the subcommands that make and change libraries.
fn with_changes<'a>(
    alloc: Global,
    above: Result<Command<'a>, AllocError>,
) -> Result<Command<'a>, AllocError>
    requires { IfOk above (λ a. (fields_of a).has_globals ≡ false) }
    ensures app { (outer : App) → IfOk above.entry (λ a. app_of a ≡ outer)
        → IfOk result (λ c. app_of c ≡ libraries.with_changes outer) }
    ensures local { IfOk result (λ c. (fields_of c).has_globals ≡ false) }
{
    let make = library_command(
        alloc,
        "make",
        "Makes a library of the modules of files, with its dictionary",
        files(alloc),
    );
    let command = with_command(above, make);
    let add = library_command(
        alloc,
        "add",
        "Puts the modules of files behind those of a library",
        files(alloc),
    );
    let command = with_command(command, add);
    let delete = library_command(
        alloc,
        "delete",
        "Takes members out of a library",
        members_arg(alloc),
    );
    let command = with_command(command, delete);
    let replace = library_command(
        alloc,
        "replace",
        "Puts each module of files in the place of the member of its name",
        files(alloc),
    );
    let command = with_command(command, replace);
    let extract = library_command(
        alloc,
        "extract",
        "Writes each member to a file of its own, NAME.OBJ",
        members_arg(alloc),
    );
    with_command(command, extract)
}

/// The job of a subcommand that the command entered, by its values.
fn job_of<'a>(alloc: Global, name: &str, values: &ArgMatches<'a>) -> Result<Job<'a>, WordsFault>
    requires { IsEntered name.now (rows_of (found_of values.now)) }
    ensures ok { IfOk result (IsJobOf name.now (rows_of (found_of values.now))) }
    ensures err { IfErr result (IsRefusalOf name.now (rows_of (found_of values.now))) }
{
    match name {
        "list" => Ok(Job::List {
            files: values_of(alloc, values, "FILES")?,
        }),
        "show" => Ok(Job::Show {
            files: values_of(alloc, values, "FILES")?,
        }),
        "program" => program_job(alloc, values),
        "match" => match_job(alloc, values),
        "compare" => compare_job(alloc, values),
        "names" => names_job(alloc, values),
        "make" => Ok(Job::Make {
            library: needed(values, "LIB"),
            files: values_of(alloc, values, "FILES")?,
        }),
        "add" => Ok(Job::Add {
            library: needed(values, "LIB"),
            files: values_of(alloc, values, "FILES")?,
        }),
        "delete" => Ok(Job::Delete {
            library: needed(values, "LIB"),
            members: values_of(alloc, values, "MEMBERS")?,
        }),
        "replace" => Ok(Job::Replace {
            library: needed(values, "LIB"),
            files: values_of(alloc, values, "FILES")?,
        }),
        "extract" => Ok(Job::Extract {
            library: needed(values, "LIB"),
            members: values_of(alloc, values, "MEMBERS")?,
        }),
        _ => unreachable!(),
    }
}

/// The job that the words after the program's name ask for. Words that the command takes are refused for nothing but a
/// paragraph that isn't exactly four hexadecimal digits or is that of no image, or want of memory.
pub fn parse_words<'a>(alloc: Global, words: &'a [&'a str]) -> Result<Job<'a>, WordsFault>
    ensures job { IfOk result (IsJobFor (texts words.entry.now)) }
    ensures refused { takes spec.doslib_command (texts words.entry.now) ≡ true
        → IfErr result (IsRefusalFor (texts words.entry.now)) }
    // What the command takes, and its matches, are those that the parser promises of simple commands.
    ensures simple { is_simple spec.doslib_command ≡ true }
{
    let Ok(command) = doslib_command(alloc) else {
        return Err(WordsFault::Memory);
    };
    let matches = match command.try_get_matches_from(words) {
        Ok(matches) => matches,
        Err(error) => return Err(refusal(alloc, &error)),
    };
    let (name, values) = matches.subcommand().unwrap();
    job_of(alloc, name, values)
}
