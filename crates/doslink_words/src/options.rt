//! The options of a directive `option`.
ghost use Rattle.std.specs.Prelude.{◌≡◌, Ok, Some};
ghost use Rattle.std.specs.Option.{option_and_then, option_map, option_map_or};
ghost use Rattle.doslink_words.specs.Directives as spec;
ghost use Rattle.doslink_words.specs.Said.{At, Beside, map_of, said_of};
ghost use Rattle.doslink_words.specs.Sizes.{stack_bytes};
ghost use Rattle.doslink_words.specs.inside.Tokens.{all_placed, placed_of};
ghost use Rattle.doslink_words.specs.inside.Follows.{Follows, Gives, option_said};
ghost use Rattle.doslink_words.specs.inside.Parts.{IsOfPart, optioned};

use crate::faults::{DirectiveFaultKind, LineFault, WrongWord, own, wrong};
use crate::job::{Directives, MapFile, Order, Stack, Warning, WarningKind};
use crate::keywords::{Plain, Switch, switch_named};
use crate::naming::follow_start;
use crate::operands::part_end;
use crate::sizes::stack_bytes;
use crate::tokens::Placed;

/// Tells that something of a line has no effect.
pub(crate) fn warn<'a>(
    directives: &mut Directives<'a>,
    line: usize,
    kind: WarningKind,
) -> Result<(), LineFault<'a>>
    ensures { Follows result (spec.warned line kind (said_of directives.old)) (said_of directives.new) }
{
    Ok(directives.warnings.push(Warning { line, kind })?)
}

// The name of an option `NAME=VALUE`, and its value.
fn valued_option<'a>(
    name: Placed<'a>,
    value: Placed<'a>,
) -> Result<(&'a str, Option<&'a str>), WrongWord<'a>>
    ensures { Gives option_said result (spec.and_then (spec.name_of (placed_of value.entry))
        (λ text. spec.and_then (spec.word_of (placed_of name.entry)) (λ word. Ok (word, Some text)))) }
{
    let value = value.name()?;
    Ok((name.word()?, Some(value)))
}

// The name of an option `NAME[=VALUE]`, and its value.
fn option_of<'a>(part: &[Placed<'a>]) -> Result<(&'a str, Option<&'a str>), WrongWord<'a>>
    ensures { Gives option_said result (spec.option_of (all_placed part.now)) }
{
    match part {
        [name] => Ok((name.word()?, None)),
        [name, mark, value] if mark.token.is_equals() => valued_option(*name, *value),
        [_, mark, _] => Err(wrong(*mark)),
        _ => Err(own(DirectiveFaultKind::WrongOperands)),
    }
}

// The map that an option `map` asks for.
fn map_file<'a>(value: Option<&'a str>) -> MapFile<'a>
    ensures { map_of result ≡ option_map_or At (option_map (λ s. s.now) value.entry) Beside }
{
    match value {
        Some(path) => MapFile::At(path),
        None => MapFile::Beside,
    }
}

// How many bytes a value asks for.
fn bytes_of(value: Option<&str>) -> Option<u32>
    ensures { result ≡ option_and_then stack_bytes (option_map (λ s. s.now) value.entry) }
{
    stack_bytes(value?)
}

// Follows `stack=N`.
fn follow_stack<'a>(
    directives: &mut Directives<'a>,
    value: Option<&'a str>,
) -> Result<(), LineFault<'a>>
    ensures { Follows result (spec.stack_meaning (option_map (λ s. s.now) value.entry) (said_of directives.old))
        (said_of directives.new) }
{
    match bytes_of(value) {
        Some(bytes) => {
            directives.job.stack = Some(Stack { bytes, cuts: true });
            Ok(())
        }
        None => Err(LineFault::Wrong(own(DirectiveFaultKind::WrongOperands))),
    }
}

// Follows an option that takes no value.
fn follow_plain(directives: &mut Directives, plain: Plain)
    ensures { said_of directives.new ≡ spec.plain_meaning plain (said_of directives.old) }
{
    match plain {
        Plain::Quiet => directives.job.quiet = true,
        Plain::Dosseg => directives.job.order = Order::Dosseg,
        Plain::Exact => directives.job.ignore_case = false,
        Plain::Ignoring => directives.job.ignore_case = true,
        Plain::NoDefaultLibraries => directives.job.default_libraries = false,
    }
}

// Follows an option.
fn follow_option<'a>(
    directives: &mut Directives<'a>,
    line: usize,
    name: &'a str,
    value: Option<&'a str>,
) -> Result<(), LineFault<'a>>
    ensures { Follows result
        (spec.option_meaning line name.now (option_map (λ s. s.now) value.entry) (said_of directives.old))
        (said_of directives.new) }
{
    let Some(switch) = switch_named(name) else {
        return Err(LineFault::Wrong(own(DirectiveFaultKind::UnknownOption)));
    };
    match switch {
        Switch::Idle(kind) => warn(directives, line, kind),
        Switch::Stack => follow_stack(directives, value),
        Switch::Start => follow_start(directives, value),
        Switch::Map => {
            directives.job.map = Some(map_file(value));
            Ok(())
        }
        Switch::Plain(plain) => {
            if value.is_some() {
                return Err(LineFault::Wrong(own(DirectiveFaultKind::WrongOperands)));
            }
            follow_plain(directives, plain);
            Ok(())
        }
    }
}

// Follows an option `NAME[=VALUE]`, but for the word that is wrong where no operand is.
fn follow_named<'a>(
    directives: &mut Directives<'a>,
    line: usize,
    part: &[Placed<'a>],
) -> Result<(), LineFault<'a>>
    ensures { Follows result (optioned line (said_of directives.old) (all_placed part.now)) (said_of directives.new) }
{
    let (name, value) = option_of(part)?;
    follow_option(directives, line, name, value)
}

// What is wrong with an option is so with its first word, where no other is.
fn of_part<'a>(part: &[Placed<'a>], fault: LineFault<'a>) -> LineFault<'a>
    ensures { IsOfPart (all_placed part.now) fault.entry result }
{
    match (fault, part) {
        (LineFault::Wrong(WrongWord { kind, word: None }), [name, ..]) => LineFault::Wrong(
            WrongWord {
                kind,
                word: Some(*name),
            },
        ),
        _ => fault,
    }
}

// Follows an option `NAME[=VALUE]`.
fn follow_part<'a>(
    directives: &mut Directives<'a>,
    line: usize,
    part: &[Placed<'a>],
) -> Result<(), LineFault<'a>>
    ensures { Follows result (spec.part_meaning line (said_of directives.old) (all_placed part.now))
        (said_of directives.new) }
{
    match follow_named(directives, line, part) {
        Ok(()) => Ok(()),
        Err(fault) => Err(of_part(part, fault)),
    }
}

/// Follows the options `NAME[=VALUE][,NAME[=VALUE]..]`.
pub(crate) fn follow_options<'a>(
    directives: &mut Directives<'a>,
    line: usize,
    operands: &[Placed<'a>],
) -> Result<(), LineFault<'a>>
    ensures { Follows result (spec.with_options line (spec.parts (all_placed operands.now)) (said_of directives.old))
        (said_of directives.new) }
{
    let mut start = 0;
    'parts: loop {
        let end = part_end(operands, start);
        follow_part(directives, line, &operands[start..end])?;
        let last = operands.len();
        if end == last {
            return Ok(());
        }
        start = end + 1;
    }
}
