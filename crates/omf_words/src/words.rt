//! The words of the command line.
ghost use Rattle.std.specs.Prelude.{◌≡◌, ◌⊎◌, IfErr, IfOk, IsSome, Some, codes, false, true};
ghost use Rattle.clap.specs.Words.{App, app_of, first_of, found_of, is_simple, rows_of, rule_of, takes};
ghost use Rattle.clap.specs.Words.{with_subcommand};
ghost use Rattle.clap.specs.declared.Command.{out-Command as fields_of};
ghost use Rattle.omf_words.specs.Words as spec;
ghost use Rattle.omf_words.specs.inside.Words as inside;
ghost use Rattle.omf_words.specs.Words.{IsJobFor, IsJobOf, IsRefusalFor, texts};
ghost use Rattle.omf_words.specs.inside.Words.{IsEntered, IsRefusalOf};

use clap::{Arg, ArgMatches, Command};
use command_line::{VERSION, WordsFault, case_flag, files, map_option, refusal, with_arg};
use hex::FromHex;
use std::alloc::{AllocError, Global};

/// A link has no more files than this.
const MAX_FILES: usize = 65_535;

/// What stands at the end of help.
const STATUSES: &str = "\
Exit status: 0 all is done, 1 an input is at fault, 2 wrong arguments, 3 a file or\n\
device failed or out of memory. A fault is one line on standard error; docs/FAULTS.md\n\
and the man page say what to do about each.";

/// What the words ask for: a subcommand with its values.
#[derive(Debug, Drop)]
pub enum Job<'a> {
    /// List the records of a file.
    Show {
        /// The path of the object module.
        file: &'a str,
    },
    /// Check a file.
    Check {
        /// The path of the object module.
        file: &'a str,
    },
    /// Write the records of a file in their canonical form.
    Rewrite {
        /// The path of the object module.
        from: &'a str,
        /// The path of the file that is written.
        to: &'a str,
    },
    /// Link files.
    Link {
        /// The path of the program that is written.
        out: &'a str,
        /// The path of the map that is written after the program, where one is asked for.
        map: Option<&'a str>,
        /// Whether names of publics and externals agree without regard to case.
        ignore_case: bool,
        /// The paths of the object modules, in their order.
        files: Vec<&'a str>,
    },
    /// Load a program.
    Load {
        /// The path of the program.
        file: &'a str,
        /// The paragraph as it was given.
        digits: &'a str,
        /// The paragraph that the program is loaded at.
        paragraph: u16,
    },
}

// A value that has to be there.
fn needed<'a>(alloc: Global, id: &'a str) -> Arg<'a>
    ensures rule { rule_of result ≡ spec.needed id.entry.now }
    ensures local { result.global ≡ false }
{
    Arg::new(alloc, id).required(true)
}

// The program that is written.
fn out_option<'a>(alloc: Global) -> Arg<'a>
    ensures rule { rule_of result ≡ spec.out_rule }
    ensures local { result.global ≡ false }
{
    needed(alloc, "OUT")
        .short('o')
        .help("The program to write, none of FILES")
}

// A subcommand that takes one object module.
fn file_command<'a>(alloc: Global, name: &'a str, about: &'a str) -> Result<Command<'a>, AllocError>
    ensures app { IfOk result (λ c. app_of c ≡ spec.file_command name.entry.now) }
    ensures local { IfOk result (λ c. (fields_of c).has_globals ≡ false) }
{
    let command = Command::new(alloc, name).about(about);
    with_arg(Ok(command), needed(alloc, "FILE").help("The object module"))
}

// The subcommand `rewrite`.
fn rewrite_command<'a>(alloc: Global) -> Result<Command<'a>, AllocError>
    ensures app { IfOk result (λ c. app_of c ≡ spec.rewrite_command) }
    ensures local { IfOk result (λ c. (fields_of c).has_globals ≡ false) }
{
    let command = Command::new(alloc, "rewrite").about(
        "Writes the records of an object module in their canonical form",
    );
    let command = with_arg(Ok(command), needed(alloc, "IN").help("The object module"));
    with_arg(
        command,
        needed(alloc, "OUT").help("The file to write, another one than IN"),
    )
}

// The subcommand `link`.
fn link_command<'a>(alloc: Global) -> Result<Command<'a>, AllocError>
    ensures app { IfOk result (λ c. app_of c ≡ spec.link_command) }
    ensures local { IfOk result (λ c. (fields_of c).has_globals ≡ false) }
{
    let command = Command::new(alloc, "link")
        .about("Links object modules into a program; a refused link writes nothing")
        .after_help(STATUSES);
    let command = with_arg(Ok(command), out_option(alloc));
    let command = with_arg(command, map_option(alloc));
    let command = with_arg(command, case_flag(alloc));
    with_arg(command, files(alloc))
}

// The subcommand `load`.
fn load_command<'a>(alloc: Global) -> Result<Command<'a>, AllocError>
    ensures app { IfOk result (λ c. app_of c ≡ spec.load_command) }
    ensures local { IfOk result (λ c. (fields_of c).has_globals ≡ false) }
{
    let command = Command::new(alloc, "load").about(
        "Prints registers and memory of a program as it is loaded at a paragraph",
    );
    let command = with_arg(Ok(command), needed(alloc, "FILE").help("The program"));
    with_arg(
        command,
        needed(alloc, "PARAGRAPH").help(
            "Where it is loaded: four hexadecimal digits, such as 1000",
        ),
    )
}

// The command with one subcommand more, where both could be made.
fn with_command<'a>(
    above: Result<Command<'a>, AllocError>,
    command: Result<Command<'a>, AllocError>,
) -> Result<Command<'a>, AllocError>
    requires local { IfOk command (λ c. (fields_of c).has_globals ≡ false) }
    requires above { IfOk above (λ a. (fields_of a).has_globals ≡ false) }
    ensures app { (outer inner : App) → IfOk above.entry (λ a. app_of a ≡ outer)
        → IfOk command.entry (λ c. app_of c ≡ inner) → IfOk result (λ c. app_of c ≡ with_subcommand outer inner.top) }
    ensures local { IfOk result (λ c. (fields_of c).has_globals ≡ false) }
{
    above?.subcommand(command?)
}

// The command `omf` before it has its subcommands.
fn bare_command<'a>(alloc: Global) -> Result<Command<'a>, AllocError>
    ensures app { IfOk result (λ c. app_of c ≡ spec.bare_command) }
    ensures local { IfOk result (λ c. (fields_of c).has_globals ≡ false) }
{
    Command::new(alloc, "omf")
        .about("Links 16-bit OMF object modules into an MS-DOS program")
        .after_help(STATUSES)
        .version(VERSION)
        .no_binary_name(true)
        .subcommand_required(true)
        .arg_required_else_help(true)
        .bin_name("omf")
}

// The command `omf`.
fn omf_command<'a>(alloc: Global) -> Result<Command<'a>, AllocError>
    ensures { IfOk result (λ c. app_of c ≡ spec.omf_command) }
{
    let show = file_command(
        alloc,
        "show",
        "Prints what each record of an object module says",
    );
    let check = file_command(
        alloc,
        "check",
        "Says whether an object module is sound, or names its first fault",
    );
    let command = with_command(bare_command(alloc), show);
    let command = with_command(command, check);
    let command = with_command(command, rewrite_command(alloc));
    let command = with_command(command, link_command(alloc));
    with_command(command, load_command(alloc))
}

// A refusal for which the parser has no text.
fn wrong_words(alloc: Global) -> WordsFault
    ensures { (result ≡ WordsFault.Memory) ⊎ inside.IsWrong result }
{
    match String::from_str(alloc, "omf: wrong words\n") {
        Ok(text) => WordsFault::Wrong(text),
        Err(_) => WordsFault::Memory,
    }
}

// A value that the command asks for.
fn value<'a>(values: &ArgMatches<'a>, id: &str) -> &'a str
    requires { IsSome (first_of id.now (rows_of (found_of values.now))) }
    ensures { first_of id.now (rows_of (found_of values.now)) ≡ Some result.now }
{
    values.get_str(id).unwrap()
}

// The job of `link`, by its values.
fn link_job<'a>(alloc: Global, values: &ArgMatches<'a>) -> Result<Job<'a>, WordsFault>
    requires out { IsSome (first_of (codes "OUT") (rows_of (found_of values.now))) }
    requires files { IsSome (first_of (codes "FILES") (rows_of (found_of values.now))) }
    ensures ok { IfOk result (IsJobOf (codes "link") (rows_of (found_of values.now))) }
    ensures err { IfErr result (IsRefusalOf (codes "link") (rows_of (found_of values.now))) }
{
    let files = values.get_strs("FILES").unwrap();
    if files.len() > MAX_FILES {
        return Err(wrong_words(alloc));
    }
    let Ok(files) = Vec::from_slice(alloc, files) else {
        return Err(WordsFault::Memory);
    };
    Ok(Job::Link {
        out: value(values, "OUT"),
        map: values.get_str("MAP"),
        ignore_case: values.get_flag("ignore-case"),
        files,
    })
}

// The job of `load`, by its values.
fn load_job<'a>(alloc: Global, values: &ArgMatches<'a>) -> Result<Job<'a>, WordsFault>
    requires file { IsSome (first_of (codes "FILE") (rows_of (found_of values.now))) }
    requires paragraph { IsSome (first_of (codes "PARAGRAPH") (rows_of (found_of values.now))) }
    ensures ok { IfOk result (IsJobOf (codes "load") (rows_of (found_of values.now))) }
    ensures err { IfErr result (IsRefusalOf (codes "load") (rows_of (found_of values.now))) }
{
    let digits = value(values, "PARAGRAPH");
    let Ok(bytes) = <[u8; 2] as FromHex>::from_hex(digits) else {
        return Err(wrong_words(alloc));
    };
    Ok(Job::Load {
        file: value(values, "FILE"),
        digits,
        paragraph: u16::from_be_bytes(bytes),
    })
}

// The job of a subcommand that the command entered, by its values.
fn job_of<'a>(alloc: Global, name: &str, values: &ArgMatches<'a>) -> Result<Job<'a>, WordsFault>
    requires { IsEntered name.now (rows_of (found_of values.now)) }
    ensures ok { IfOk result (IsJobOf name.now (rows_of (found_of values.now))) }
    ensures err { IfErr result (IsRefusalOf name.now (rows_of (found_of values.now))) }
{
    match name {
        "show" => Ok(Job::Show {
            file: value(values, "FILE"),
        }),
        "check" => Ok(Job::Check {
            file: value(values, "FILE"),
        }),
        "rewrite" => Ok(Job::Rewrite {
            from: value(values, "IN"),
            to: value(values, "OUT"),
        }),
        "link" => link_job(alloc, values),
        "load" => load_job(alloc, values),
        _ => unreachable!(),
    }
}

/// The job that the words after the program's name ask for. Words that the command takes are refused
/// for nothing but too many files, a paragraph that isn't exactly four hexadecimal digits, or want of
/// memory.
pub fn parse_words<'a>(alloc: Global, words: &'a [&'a str]) -> Result<Job<'a>, WordsFault>
    ensures job { IfOk result (IsJobFor (texts words.entry.now)) }
    ensures refused { takes spec.omf_command (texts words.entry.now) ≡ true
        → IfErr result (IsRefusalFor (texts words.entry.now)) }
    // What the command takes, and its matches, are those that the parser promises of simple commands.
    ensures simple { is_simple spec.omf_command ≡ true }
{
    let Ok(command) = omf_command(alloc) else {
        return Err(WordsFault::Memory);
    };
    let matches = match command.try_get_matches_from(words) {
        Ok(matches) => matches,
        Err(error) => return Err(refusal(alloc, &error)),
    };
    let (name, values) = matches.subcommand().unwrap();
    job_of(alloc, name, values)
}
