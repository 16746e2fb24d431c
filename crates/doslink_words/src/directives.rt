//! The directives of a text.
ghost use Rattle.std.specs.Prelude.{◌≡◌, ◌++◌, ◌≤◌, ◌∷◌, [], Err, IfOk, Ok, OnOk, drop, length};
ghost use Rattle.std.specs.List.{flat_map};
ghost use Rattle.std.specs.Option.{option_map_or};
ghost use Rattle.std.specs.Str.Lines.{lines};
ghost use Rattle.doslink_words.specs.Directives as spec;
ghost use Rattle.doslink_words.specs.Places.{with_lines};
ghost use Rattle.doslink_words.specs.Said.{said_of};
ghost use Rattle.doslink_words.specs.declared.keywords.Directive.TheVariants as directive;
ghost use Rattle.doslink_words.specs.Sizes.{size};
ghost use Rattle.doslink_words.specs.Tokens.{texts};
ghost use Rattle.doslink_words.specs.inside.Parts.{lines_meaning};
ghost use Rattle.doslink_words.specs.inside.Tokens.{all_placed, piece_of, placed_of};
ghost use Rattle.doslink_words.specs.Directives.{Means};
ghost use Rattle.doslink_words.specs.inside.Follows.{Counts, Follows, Gives, form_said};
ghost use Rattle.doslink_words.specs.inside.Faults.{Ends, IsFaultAt, IsFaultOf, Says};

use crate::faults::{
    DirectiveFault, DirectiveFaultKind, LineFault, WrongWord, not_dos, own, wrong,
};
use crate::grammar::operand_count;
use crate::job::{Directives, Form, Order, WarningKind};
use crate::keywords::{Directive, directive_named};
use crate::named::{put_files, put_libraries};
use crate::naming::{follow_reference, put_aliases};
use crate::operands::{one_name, put_items, put_list};
use crate::options::{follow_options, warn};
use crate::sizes::size;
use crate::tokens::{Placed, Token, put_tokens};
use std::alloc::{AllocError, Global};

// The form that `format dos` asks for by a word behind it.
fn kind_of<'a>(kind: Placed<'a>) -> Result<Option<Form>, WrongWord<'a>>
    ensures { Gives (λ form. form) result (spec.kind_meaning (placed_of kind.entry)) }
{
    if kind.token.is_word("exe") {
        Ok(Some(Form::Exe))
    } else if kind.token.is_word("com") {
        Ok(Some(Form::Com))
    } else {
        Err(not_dos(kind))
    }
}

// The form that stands behind `dos`.
fn behind_dos<'a>(operands: &[Placed<'a>]) -> Result<Option<Form>, WrongWord<'a>>
    ensures { Gives (λ form. form) result (spec.behind_dos (all_placed operands.now)) }
{
    match operands {
        [] => Ok(None),
        [kind] => kind_of(*kind),
        [kind, other, ..] => {
            kind_of(*kind)?;
            Err(wrong(*other))
        }
    }
}

// The form that `format` asks for.
fn format_of<'a>(operands: &[Placed<'a>]) -> Result<Option<Form>, WrongWord<'a>>
    ensures { Gives (λ form. form) result (spec.format_meaning (all_placed operands.now)) }
{
    match operands {
        [] => Err(own(DirectiveFaultKind::NotDos)),
        [system, more @ ..] if system.token.is_word("dos") => behind_dos(more),
        [system, ..] => Err(not_dos(*system)),
    }
}

// The form of a system.
fn system_named<'a>(system: Placed<'a>) -> Result<Option<Form>, WrongWord<'a>>
    ensures { Gives (λ form. form) result (spec.system_named (placed_of system.entry)) }
{
    if system.token.is_word("dos") {
        Ok(None)
    } else if system.token.is_word("com") {
        Ok(Some(Form::Com))
    } else {
        Err(not_dos(system))
    }
}

// The form that `system` asks for.
fn system_of<'a>(operands: &[Placed<'a>]) -> Result<Option<Form>, WrongWord<'a>>
    ensures { Gives (λ form. form) result (spec.system_meaning (all_placed operands.now)) }
{
    match operands {
        [] => Err(own(DirectiveFaultKind::NotDos)),
        [system] => system_named(*system),
        [system, other, ..] => {
            system_named(*system)?;
            Err(wrong(*other))
        }
    }
}

// A raw image at paragraph 0, from this address on.
fn raw_from(from: u32) -> Option<Form>
    ensures { result ≡ spec.raw_from from }
{
    Some(Form::Raw { paragraph: 0, from })
}

// The raw image that begins at the address that a token writes.
fn raw_at<'a>(value: Placed<'a>) -> Result<Option<Form>, WrongWord<'a>>
    ensures { Gives (λ form. form) result (spec.and_then (spec.name_of (placed_of value.entry))
        (λ text. option_map_or (λ n. Ok (spec.raw_from n)) (size text) (Err (spec.wrong (placed_of value.entry))))) }
{
    match size(value.name()?.as_bytes()) {
        Some(from) => Ok(raw_from(from)),
        None => Err(wrong(value)),
    }
}

// The raw image that three operands `offset=N` ask for.
fn offset_at<'a>(
    name: Placed<'a>,
    mark: Placed<'a>,
    value: Placed<'a>,
) -> Result<Option<Form>, WrongWord<'a>>
    ensures { Gives (λ form. form) result
        (spec.offset_meaning (placed_of name.entry ∷ (placed_of mark.entry ∷ (placed_of value.entry ∷ [])))) }
{
    if name.token.is_word("offset") && mark.token.is_equals() {
        raw_at(value)
    } else {
        Err(wrong(name))
    }
}

// The raw image that `offset=N` asks for.
fn offset_of<'a>(operands: &[Placed<'a>]) -> Result<Option<Form>, WrongWord<'a>>
    ensures { Gives (λ form. form) result (spec.offset_meaning (all_placed operands.now)) }
{
    match operands {
        [name, mark, value] => offset_at(*name, *mark, *value),
        [_, _, _, _, ..] => Err(own(DirectiveFaultKind::WrongOperands)),
        _ => Err(own(DirectiveFaultKind::WrongOperands)),
    }
}

// The form that `output` asks for.
fn output_of<'a>(operands: &[Placed<'a>]) -> Result<Option<Form>, WrongWord<'a>>
    ensures { Gives (λ form. form) result (spec.output_meaning (all_placed operands.now)) }
{
    match operands {
        [] => Err(own(DirectiveFaultKind::WrongOperands)),
        [what] if what.token.is_word("raw") => Ok(raw_from(0)),
        [what, more @ ..] if what.token.is_word("raw") => offset_of(more),
        [what, ..] => Err(wrong(*what)),
    }
}

// Follows a line that says a form, or none.
fn follow_form<'a>(
    directives: &mut Directives<'a>,
    form: Result<Option<Form>, WrongWord<'a>>,
) -> Result<(), LineFault<'a>>
    ensures { Follows result (spec.form_meaning (form_said form.entry) (said_of directives.old))
        (said_of directives.new) }
{
    directives.job.form = form?;
    Ok(())
}

// Follows `name`.
fn follow_name<'a>(
    directives: &mut Directives<'a>,
    operands: &[Placed<'a>],
) -> Result<(), LineFault<'a>>
    ensures { Follows result
        (spec.directive_meaning 0 directive.Name (all_placed operands.now) (said_of directives.old))
        (said_of directives.new) }
{
    directives.job.out = Some(one_name(operands)?);
    Ok(())
}

// Follows `order`, whose list begins with a class.
fn follow_order<'a>(
    alloc: Global,
    directives: &mut Directives<'a>,
    operands: &[Placed<'a>],
) -> Result<(), LineFault<'a>>
    ensures { Follows result (spec.order_meaning (all_placed operands.now) (said_of directives.old))
        (said_of directives.new) }
{
    match operands {
        [first, ..] if first.token.is_word("clname") => {
            let mut items = Vec::new(alloc);
            put_items(&mut items, operands)?;
            directives.job.order = Order::Listed(items);
            Ok(())
        }
        [] => Err(LineFault::Wrong(own(DirectiveFaultKind::WrongOperands))),
        [first, ..] => Err(LineFault::Wrong(wrong(*first))),
    }
}

// Follows `file`.
fn follow_file<'a>(
    alloc: Global,
    directives: &mut Directives<'a>,
    operands: &[Placed<'a>],
) -> Result<(), LineFault<'a>>
    ensures { Follows result
        (spec.directive_meaning 0 directive.File (all_placed operands.now) (said_of directives.old))
        (said_of directives.new) }
{
    let mut names = Vec::new(alloc);
    put_list(&mut names, operands)?;
    Ok(put_files(&mut directives.job.inputs, &names)?)
}

// Follows `library`.
fn follow_library<'a>(
    alloc: Global,
    directives: &mut Directives<'a>,
    operands: &[Placed<'a>],
) -> Result<(), LineFault<'a>>
    ensures { Follows result
        (spec.directive_meaning 0 directive.Library (all_placed operands.now) (said_of directives.old))
        (said_of directives.new) }
{
    let mut names = Vec::new(alloc);
    put_list(&mut names, operands)?;
    Ok(put_libraries(&mut directives.job.inputs, &names)?)
}

// What `;` parts.
fn folders_in<'a>(alloc: Global, text: &'a str) -> Result<Vec<&'a str>, AllocError>
    ensures { IfOk result (λ folders. texts folders.items ≡ spec.folders_in text.now) }
{
    text.split(';').collect(alloc)
}

// Appends the folders of each name.
fn put_folders<'a>(
    alloc: Global,
    folders: &mut Vec<&'a str>,
    names: &[&'a str],
) -> Result<(), AllocError>
    ensures { OnOk result (texts folders.new.items
        ≡ texts folders.old.items ++ flat_map spec.folders_in (texts names.now)) }
{
    for name in names {
        let more = folders_in(alloc, name)?;
        folders.extend_from_slice(&more)?;
    }
    Ok(())
}

// Follows `libpath`.
fn follow_libpath<'a>(
    alloc: Global,
    directives: &mut Directives<'a>,
    operands: &[Placed<'a>],
) -> Result<(), LineFault<'a>>
    ensures { Follows result
        (spec.directive_meaning 0 directive.Folder (all_placed operands.now) (said_of directives.old))
        (said_of directives.new) }
{
    let mut names = Vec::new(alloc);
    put_list(&mut names, operands)?;
    Ok(put_folders(alloc, &mut directives.job.folders, &names)?)
}

// Follows `path`.
fn follow_path<'a>(
    alloc: Global,
    directives: &mut Directives<'a>,
    operands: &[Placed<'a>],
) -> Result<(), LineFault<'a>>
    ensures { Follows result (spec.path_meaning (all_placed operands.now) (said_of directives.old))
        (said_of directives.new) }
{
    let folders = folders_in(alloc, one_name(operands)?)?;
    Ok(directives.job.object_folders.extend_from_slice(&folders)?)
}

// Follows a directive.
fn follow_directive<'a>(
    alloc: Global,
    directives: &mut Directives<'a>,
    line: usize,
    directive: Directive,
    operands: &[Placed<'a>],
) -> Result<(), LineFault<'a>>
    ensures { Follows result (spec.directive_meaning line directive (all_placed operands.now) (said_of directives.old))
        (said_of directives.new) }
{
    match directive {
        Directive::File => follow_file(alloc, directives, operands),
        Directive::Library => follow_library(alloc, directives, operands),
        Directive::Folder => follow_libpath(alloc, directives, operands),
        Directive::Name => follow_name(directives, operands),
        Directive::Format => follow_form(directives, format_of(operands)),
        Directive::System => follow_form(directives, system_of(operands)),
        Directive::Output => follow_form(directives, output_of(operands)),
        Directive::Option => follow_options(directives, line, operands),
        Directive::Order => follow_order(alloc, directives, operands),
        Directive::Debug => Ok(()),
        Directive::Sort => warn(directives, line, WarningKind::Sort),
        Directive::Disable => warn(directives, line, WarningKind::Disable),
        Directive::Reference => follow_reference(alloc, directives, operands),
        Directive::Alias => put_aliases(&mut directives.job.aliases, operands),
        Directive::Path => follow_path(alloc, directives, operands),
    }
}

// The directive that a token names.
fn directive_of<'a>(first: Token<'a>) -> Result<Directive, WrongWord<'a>>
    ensures { Gives (λ directive. directive) result (spec.directive_of (piece_of first.entry)) }
{
    match first {
        Token::Word(word) => match directive_named(word) {
            Some(directive) => Ok(directive),
            None => Err(own(DirectiveFaultKind::UnknownDirective)),
        },
        _ => Err(own(DirectiveFaultKind::UnknownDirective)),
    }
}

// Follows the directive that a token names, and hands out how many operands it has of the tokens behind.
fn follow_first<'a>(
    alloc: Global,
    directives: &mut Directives<'a>,
    first: Placed<'a>,
    behind: &[Placed<'a>],
) -> Result<usize, LineFault<'a>>
    ensures meant { Counts result
        (spec.first_meaning (placed_of first.entry) (all_placed behind.now) (said_of directives.old))
        (said_of directives.new) }
    ensures within { IfOk result (λ count. count ≤ length behind.now) }
{
    let directive = directive_of(first.token)?;
    let count = operand_count(directive, behind);
    follow_directive(alloc, directives, first.line, directive, &behind[..count])?;
    Ok(count)
}

// The lines of a text.
fn lines_of<'a>(alloc: Global, text: &'a str) -> Result<Vec<&'a str>, AllocError>
    ensures { IfOk result (λ list. texts list.items ≡ lines text.now) }
{
    text.lines().collect(alloc)
}

// The fault of a line.
fn fault_at<'a>(line: usize, text: &'a str, fault: LineFault<'a>) -> DirectiveFault<'a>
    ensures { IsFaultAt line text.now fault.entry result }
{
    match fault {
        LineFault::Memory => DirectiveFault::Memory,
        LineFault::Wrong(what) => DirectiveFault::Line {
            line,
            text,
            kind: what.kind,
        },
    }
}

// The fault of a word.
fn word_fault<'a>(word: Placed<'a>, kind: DirectiveFaultKind) -> DirectiveFault<'a>
    ensures { Says result (spec.faulty_word (placed_of word.entry) kind) }
{
    DirectiveFault::Line {
        line: word.line,
        text: word.token.text(),
        kind,
    }
}

// The fault of a directive, by its own word where no other is wrong.
fn fault_of<'a>(first: Placed<'a>, fault: LineFault<'a>) -> DirectiveFault<'a>
    ensures { IsFaultOf (placed_of first.entry) fault.entry result }
{
    match fault {
        LineFault::Memory => DirectiveFault::Memory,
        LineFault::Wrong(WrongWord { kind, word: None }) => word_fault(first, kind),
        LineFault::Wrong(
            WrongWord {
                kind,
                word: Some(word),
            },
        ) => word_fault(word, kind),
    }
}

// Appends the tokens of lines.
fn put_lines<'a>(tokens: &mut Vec<Placed<'a>>, lines: &[&'a str]) -> Result<(), DirectiveFault<'a>>
    ensures { Ends result (with_lines 0 (texts lines.now) (all_placed tokens.old.items))
        (all_placed tokens.new.items) }
{
    for (index, line) in lines.iter().enumerate() {
        match put_tokens(tokens, index + 1, line) {
            Ok(()) => {}
            Err(fault) => return Err(fault_at(index + 1, line, fault)),
        }
    }
    Ok(())
}

// What is left of tokens behind so many.
fn left_behind<'t, 'a>(tokens: &'t [Placed<'a>], count: usize) -> &'t [Placed<'a>]
    requires { count ≤ length tokens.now }
    ensures { result.now ≡ drop count tokens.now }
{
    &tokens[count..]
}

// Follows the directives of tokens.
fn follow_tokens<'a>(
    alloc: Global,
    directives: &mut Directives<'a>,
    tokens: &[Placed<'a>],
) -> Result<(), DirectiveFault<'a>>
    ensures { Ends result (spec.tokens_meaning 0 (all_placed tokens.now) (said_of directives.old))
        (said_of directives.new) }
{
    let mut rest = tokens;
    'tokens: while let [first, behind @ ..] = rest {
        match follow_first(alloc, directives, *first, behind) {
            Ok(count) => rest = left_behind(behind, count),
            Err(fault) => return Err(fault_of(*first, fault)),
        }
    }
    Ok(())
}

// Follows the directives of lines.
fn follow_lines<'a>(
    alloc: Global,
    directives: &mut Directives<'a>,
    lines: &[&'a str],
) -> Result<(), DirectiveFault<'a>>
    ensures { Ends result (lines_meaning (texts lines.now) (said_of directives.old)) (said_of directives.new) }
{
    let mut tokens = Vec::new(alloc);
    match put_lines(&mut tokens, lines) {
        Ok(()) => follow_tokens(alloc, directives, tokens.as_slice()),
        Err(fault) => Err(fault),
    }
}

/// The job that the directives of a text ask for, and what of it has no effect. One stands behind the other, with white
/// space between them, of which a line's end is some. A `#` where a word would begin starts a comment up to the line's
/// end. White space, commas, equals signs and braces separate words; a word that begins with `"` or `'` goes on to the
/// next such quote of its line. Keywords are read without regard to case, and many may be shortened.
///
/// - `file A[,B..]` (`f`), `library A[,B..]` (`l`), `libpath A[;B..][,C..]` (`libp`): modules, libraries and folders, in
///   order. A list may stand between braces, with white space or commas between its names.
/// - `path A[;B..]` (`p`): folders in which modules are looked up that can't be opened where their names say, in order;
///   several add up.
/// - `name FILE` (`n`): the program. Of several the last counts, as of orders and of options that exclude each other.
/// - `format dos [exe|com]` (`form`), `system dos|com` (`sys`): the form of the program's file; of other systems it is
///   a fault.
/// - `output raw [offset=N]` (`out`): a raw image at paragraph 0, from this address on.
/// - `option X[=VALUE][,..]` (`op`): `quiet` (`q`), `map[=FILE]` (`m`), `stack=BYTES` (`st`), `dosseg` (`dos`),
///   `caseexact` (`c`), `ignorecase` (`ig`), `nodefaultlibs` (`nod`), `start=NAME` (`star`). Of `symfile` and what
///   changes no DOS program (`verbose`, `statics`, `artificial`, `showdead`, `cache`, `nocache`, `farcalls`,
///   `nofarcalls`, `maxerrors`, `mangled`) a warning is told; any other is a fault.
/// - `order clname CLASS [segment SEGMENT..] ..` (`ord`): the order of classes, and of segments in them.
/// - `reference A[,B..]` (`ref`), a list as of `file`: names that are wanted. `alias A=B[,C=D..]` (`a`): the name A
///   means B. These and that of `start` have 255 bytes at most.
/// - `debug ..` (`d`) is nothing, `sort ..` (`sor`) and `disable ..` (`disa`) are warned of.
pub fn parse_directives<'a>(
    alloc: Global,
    text: &'a str,
) -> Result<Directives<'a>, DirectiveFault<'a>>
    ensures { Means result (spec.meaning text.now) }
{
    let Ok(lines) = lines_of(alloc, text) else {
        return Err(DirectiveFault::Memory);
    };
    let mut directives = Directives::new(alloc);
    match follow_lines(alloc, &mut directives, lines.as_slice()) {
        Ok(()) => Ok(directives),
        Err(fault) => Err(fault),
    }
}
