//! The words of `doslib program`: a program's file, and the image of it that is written.
ghost use Rattle.std.specs.Prelude.{◌≡◌, ◌⊎◌, IfErr, IfOk, IsSome, codes, false, option_map};
ghost use Rattle.clap.specs.Words.{app_of, first_of, found_of, rows_of, rule_of};
ghost use Rattle.clap.specs.declared.Command.{out-Command as fields_of};
ghost use Rattle.doslib_words.specs.Program as spec;
ghost use Rattle.doslib_words.specs.Words.{IsJobOf};
ghost use Rattle.doslib_words.specs.inside.Words.{IsRefusalOf, IsWrong};

use crate::values::needed;
use crate::words::{Job, STATUSES};
use clap::{Arg, ArgMatches, Command};
use command_line::{WordsFault, with_arg};
use hex::FromHex;
use std::alloc::{AllocError, Global};

/// The image of a program that is written: its bytes as they stand in memory.
#[derive(Clone, Copy, Debug, PartialEq, Eq)]
pub struct Image<'a> {
    /// The path of the file.
    pub out: &'a str,
    /// The paragraph that the program is loaded at.
    pub paragraph: u16,
}

/// The program's file.
fn file_arg<'a>(alloc: Global) -> Arg<'a>
    ensures rule { rule_of result ≡ spec.file_rule }
    ensures local { result.global ≡ false }
{
    Arg::new(alloc, "FILE")
        .required(true)
        .help("The program: an MS-DOS executable (.EXE)")
}

/// The image that is written.
fn image_option<'a>(alloc: Global) -> Arg<'a>
    ensures rule { rule_of result ≡ spec.image_rule }
    ensures local { result.global ≡ false }
{
    Arg::new(alloc, "OUT").long("image").help(
        "The file to write the program's image to, as it is loaded",
    )
}

/// The paragraph of the image.
fn at_option<'a>(alloc: Global) -> Arg<'a>
    ensures rule { rule_of result ≡ spec.at_rule }
    ensures local { result.global ≡ false }
{
    Arg::new(alloc, "PARAGRAPH").long("at").help(
        "The paragraph that the image is loaded at: four hexadecimal digits, such as 1000 (else 0000)",
    )
}

/// The subcommand `program`.
pub(crate) fn program_command<'a>(alloc: Global) -> Result<Command<'a>, AllocError>
    ensures app { IfOk result (λ c. app_of c ≡ spec.program_command) }
    ensures local { IfOk result (λ c. (fields_of c).has_globals ≡ false) }
{
    let command = Command::new(alloc, "program")
        .about("Tells what the header of a program says, and its relocated words")
        .after_help(STATUSES);
    let command = with_arg(Ok(command), file_arg(alloc));
    let command = with_arg(command, image_option(alloc));
    with_arg(command, at_option(alloc))
}

/// A value, where it is given.
fn given<'a>(values: &ArgMatches<'a>, id: &str) -> Option<&'a str>
    ensures { first_of id.now (rows_of (found_of values.now)) ≡ option_map (λ s. s.now) result }
{
    values.get_str(id)
}

/// Says that a value is no paragraph of an image.
fn refused(alloc: Global, word: &str) -> WordsFault
    ensures { (result ≡ WordsFault.Memory) ⊎ IsWrong result }
{
    let text = format!(in alloc;
        "error: invalid value '{word}' for '--at <PARAGRAPH>': \
        with '--image' four hexadecimal digits, such as 1000\n\n\
        For more information, try '--help'.\n"
    );
    match text {
        Ok(text) => WordsFault::Wrong(text),
        Err(AllocError) => WordsFault::Memory,
    }
}

/// The paragraph that four hexadecimal digits name.
fn paragraph_of(alloc: Global, digits: &str) -> Result<u16, WordsFault>
    ensures ok { IfOk result (spec.IsParagraph digits.now) }
    ensures err { IfErr result (λ e. (e ≡ WordsFault.Memory) ⊎ (IsWrong e × spec.IsNoParagraph digits.now)) }
{
    match <[u8; 2] as FromHex>::from_hex(digits) {
        Ok(bytes) => Ok(u16::from_be_bytes(bytes)),
        Err(_) => Err(refused(alloc, digits)),
    }
}

/// The image that values ask for.
fn image_of<'a>(alloc: Global, values: &ArgMatches<'a>) -> Result<Option<Image<'a>>, WordsFault>
    ensures ok { IfOk result (spec.IsImageOf (rows_of (found_of values.now))) }
    ensures err { IfErr result (λ e. (e ≡ WordsFault.Memory)
        ⊎ (IsWrong e × spec.HasWrongPlace (rows_of (found_of values.now)))) }
{
    match (given(values, "OUT"), given(values, "PARAGRAPH")) {
        (None, None) => Ok(None),
        (None, Some(digits)) => Err(refused(alloc, digits)),
        (Some(out), None) => Ok(Some(Image { out, paragraph: 0 })),
        (Some(out), Some(digits)) => {
            let paragraph = paragraph_of(alloc, digits)?;
            Ok(Some(Image { out, paragraph }))
        }
    }
}

/// The job of `program`, by its values.
pub(crate) fn program_job<'a>(alloc: Global, values: &ArgMatches<'a>) -> Result<Job<'a>, WordsFault>
    requires { IsSome (first_of (codes "FILE") (rows_of (found_of values.now))) }
    ensures ok { IfOk result (IsJobOf (codes "program") (rows_of (found_of values.now))) }
    ensures err { IfErr result (IsRefusalOf (codes "program") (rows_of (found_of values.now))) }
{
    Ok(Job::Program {
        file: needed(values, "FILE"),
        image: image_of(alloc, values)?,
    })
}
