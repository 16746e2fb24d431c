//! The words of the command line.
ghost use Rattle.std.specs.Prelude.{◌≡◌, ◌==◌, ◌&&◌, IfErr, IfOk, [], codes, false, is_some, map, not, true};
ghost use Rattle.std.specs.List.{slice_split};
ghost use Rattle.std.specs.Option.{option_and_then, option_map};
ghost use Rattle.clap.specs.Words.{app_of, found_of, is_simple_and_free, rows_of, rule_of};
ghost use Rattle.clap.specs.declared.Command.{out-Command as fields_of};
ghost use Rattle.doslink_words.specs.Named as named;
ghost use Rattle.doslink_words.specs.Said.{At, Class, items_of, inputs_of, map_of, order_of};
ghost use Rattle.doslink_words.specs.Sizes as size;
ghost use Rattle.doslink_words.specs.Tokens.{texts};
ghost use Rattle.doslink_words.specs.declared.named.Expected.TheVariants.{Any};
ghost use Rattle.doslink_words.specs.Words as spec;
ghost use Rattle.doslink_words.specs.Words.{AreTaken, IsJobFor, IsJobOf};

use crate::job::{Form, Input, Job, MapFile, MapForm, Order, OrderItem, Stack, has_header};
use crate::keywords::is;
use crate::named::{in_order, kinds_named};
use crate::sizes::{paragraph, stack_bytes};
use clap::{Arg, ArgAction, ArgMatches, Command};
use command_line::{VERSION, WordsFault, case_flag, files, flag, map_option, refusal, with_arg};
use std::alloc::{AllocError, Global};

/// What stands at the end of help.
const NOTES: &str = "\
`doslink @FILE` takes its words from a file, at white space or in double quotes. Under the name\n\
`wlink`, or behind `--as wlink`, FILE has directives (file, library, libpath, path, name, format,\n\
option, order, reference, alias). Under the names `link` and `tlink`, or behind `--as link` and\n\
`--as tlink`, the words are a line of that linker: `doslink --as link --help`.\n\n\
Exit status: 0 all is done, 1 an input is at fault, 2 wrong arguments, 3 a file or\n\
device failed or out of memory. A fault is one line on standard error; docs/FAULTS.md\n\
and the man page say what to do about each.";

// The program that is written.
fn out_option<'a>(alloc: Global) -> Arg<'a>
    ensures rule { rule_of result ≡ spec.out_rule }
    ensures local { result.global ≡ false }
{
    Arg::new(alloc, "OUT").short('o').help(
        "The program to write: the first of FILES with .EXE, where none is given",
    )
}

// An option with a value that may be given any number of times.
fn list_option<'a>(alloc: Global, id: &'a str, short: char, help: &'a str) -> Arg<'a>
    ensures rule { rule_of result ≡ spec.list_rule id.entry.now short }
    ensures local { result.global ≡ false }
{
    Arg::new(alloc, id)
        .short(short)
        .action(ArgAction::Append)
        .help(help)
}

// The order of classes.
fn order_option<'a>(alloc: Global) -> Arg<'a>
    ensures rule { rule_of result ≡ spec.order_rule }
    ensures local { result.global ≡ false }
{
    Arg::new(alloc, "ORDER").long("order").help(
        "dosseg, dosseg-nonulls, or the classes that stand first: CLASS,.. (else in the order of meeting)",
    )
}

// The length of the stack.
fn stack_option<'a>(alloc: Global) -> Arg<'a>
    ensures rule { rule_of result ≡ spec.stack_rule }
    ensures local { result.global ≡ false }
{
    Arg::new(alloc, "N").long("stack").help(
        "The stack's bytes, 1 to 65,536: a shorter one is made so long (0x800, 2k: 2,048)",
    )
}

// The form of the file.
fn form_option<'a>(alloc: Global) -> Arg<'a>
    ensures rule { rule_of result ≡ spec.form_rule }
    ensures local { result.global ≡ false }
{
    Arg::new(alloc, "FORM").long("form").help(
        "exe, com, bin (a raw image: a boot sector, a ROM) or sys (a driver); else exe",
    )
}

// The paragraph at which a raw image is located.
fn at_option<'a>(alloc: Global) -> Arg<'a>
    ensures rule { rule_of result ≡ spec.at_rule }
    ensures local { result.global ≡ false }
{
    Arg::new(alloc, "PARAGRAPH").long("at").help(
        "The paragraph that a raw image is loaded at, hexadecimal, such as 07C0 (else 0)",
    )
}

// The form of the map.
fn map_form_option<'a>(alloc: Global) -> Arg<'a>
    ensures rule { rule_of result ≡ spec.map_form_rule }
    ensures local { result.global ≡ false }
{
    Arg::new(alloc, "NAME").long("map-form").help(
        "omf, link (Microsoft's) or tlink (Borland's): the form of the map; else omf",
    )
}

// Whether what is done is told.
fn verbose_flag<'a>(alloc: Global) -> Arg<'a>
    ensures rule { rule_of result ≡ spec.verbose_rule }
    ensures local { result.global ≡ false }
{
    Arg::new(alloc, "verbose")
        .short('v')
        .action(ArgAction::SetTrue)
        .help("Tell what is linked, and why")
}

// The command `doslink` before it has arguments.
fn bare_command<'a>(alloc: Global) -> Result<Command<'a>, AllocError>
    ensures app { IfOk result (λ c. app_of c ≡ spec.bare_command) }
    ensures local { IfOk result (λ c. (fields_of c).has_globals ≡ false) }
{
    Command::new(alloc, "doslink")
        .about("Links what compilers for DOS write, with libraries, into an MS-DOS program")
        .after_help(NOTES)
        .version(VERSION)
        .no_binary_name(true)
        .arg_required_else_help(true)
        .bin_name("doslink")
}

// The command `doslink` with what it says of files.
fn files_command<'a>(alloc: Global) -> Result<Command<'a>, AllocError>
    ensures app { IfOk result (λ c. app_of c ≡ spec.files_command) }
    ensures local { IfOk result (λ c. (fields_of c).has_globals ≡ false) }
{
    let folders = "A folder to look up libraries in, in the order given";
    let libraries = "A library to search, in the order given";
    let command = with_arg(bare_command(alloc), out_option(alloc));
    let command = with_arg(command, map_option(alloc));
    let command = with_arg(command, list_option(alloc, "FOLDER", 'L', folders));
    let command = with_arg(command, list_option(alloc, "LIB", 'l', libraries));
    with_arg(command, files(alloc))
}

// The command `doslink`.
fn doslink_command<'a>(alloc: Global) -> Result<Command<'a>, AllocError>
    ensures app { IfOk result (λ c. app_of c ≡ spec.doslink_command) }
    ensures local { IfOk result (λ c. (fields_of c).has_globals ≡ false) }
{
    let no_defaults = "Search no library that only a module names";
    let debug = "Keep segments of the classes DEBSYM, DEBTYP and DWARF in the program";
    let command = with_arg(files_command(alloc), case_flag(alloc));
    let command = with_arg(command, order_option(alloc));
    let command = with_arg(command, stack_option(alloc));
    let command = with_arg(command, form_option(alloc));
    let command = with_arg(command, at_option(alloc));
    let command = with_arg(command, map_form_option(alloc));
    let command = with_arg(command, flag(alloc, "no-default-libs", no_defaults));
    let command = with_arg(command, flag(alloc, "keep-debug", debug));
    with_arg(command, verbose_flag(alloc))
}

// The values of an argument, none where it isn't given.
fn values_of<'a>(
    alloc: Global,
    values: &ArgMatches<'a>,
    id: &str,
) -> Result<Vec<&'a str>, AllocError>
    ensures { IfOk result (λ list. texts list.items ≡ spec.values_of id.now (rows_of (found_of values.now))) }
{
    match values.get_strs(id) {
        Some(list) => Vec::from_slice(alloc, list),
        None => Ok(Vec::new(alloc)),
    }
}

// What commas separate.
fn names_in<'a>(alloc: Global, list: &'a str) -> Result<Vec<&'a str>, AllocError>
    ensures { IfOk result (λ names. texts names.items ≡ slice_split (λ byte. byte == 44) list.now) }
{
    list.split(',').collect(alloc)
}

// The classes of these names.
fn classes_of<'a>(alloc: Global, names: &[&'a str]) -> Result<Vec<OrderItem<'a>>, AllocError>
    ensures { IfOk result (λ classes. items_of classes.items ≡ map Class (texts names.now)) }
{
    let mut classes = Vec::new(alloc);
    'names: for name in names {
        classes.push(OrderItem::Class(name))?;
    }
    Ok(classes)
}

// Whether a word names the order DOSSEG.
fn is_dosseg(word: &str) -> bool
    ensures { result ≡ spec.is_dosseg word.now }
{
    is(word, "dosseg") || is(word, "dosseg-nonulls")
}

// The order that a value asks for.
fn order_asked<'a>(alloc: Global, value: Option<&'a str>) -> Result<Order<'a>, AllocError>
    ensures { IfOk result (λ order. order_of order ≡ spec.order_asked (option_map (λ s. s.now) value.entry)) }
{
    let Some(word) = value else {
        return Ok(Order::Meeting);
    };
    if is_dosseg(word) {
        return Ok(Order::Dosseg);
    }
    let names = names_in(alloc, word)?;
    Ok(Order::Listed(classes_of(alloc, names.as_slice())?))
}

// Whether the order DOSSEG has null bytes, of which a .COM file has none.
fn nulls_asked(value: Option<&str>, form: Option<Form>) -> bool
    ensures { result ≡ spec.nulls_asked (option_map (λ s. s.now) value.entry) form }
{
    match value {
        Some(word) => has_header(form) && !is(word, "dosseg-nonulls"),
        None => has_header(form),
    }
}

// The stack that a value asks for.
fn stack_asked(value: Option<&str>) -> Option<Stack>
    ensures { result ≡ spec.stack_asked (option_map (λ s. s.now) value.entry) }
{
    let bytes = stack_bytes(value?)?;
    Some(Stack { bytes, cuts: false })
}

// The form of a name.
fn form_named(word: &str, paragraph: u16) -> Option<Form>
    ensures { result ≡ spec.form_named word.now paragraph }
{
    if is(word, "exe") {
        Some(Form::Exe)
    } else if is(word, "com") {
        Some(Form::Com)
    } else if is(word, "bin") {
        Some(Form::Raw { paragraph, from: 0 })
    } else if is(word, "sys") {
        Some(Form::Driver)
    } else {
        None
    }
}

// The paragraph that a value names.
fn paragraph_asked(value: Option<&str>) -> Option<u16>
    ensures { result ≡ option_and_then size.paragraph (option_map (λ s. s.now) value.entry) }
{
    paragraph(value?)
}

// The form that a name and a paragraph ask for.
fn form_asked(value: Option<&str>, at: Option<&str>) -> Option<Form>
    ensures { result ≡ spec.form_asked (option_map (λ s. s.now) value.entry) (option_map (λ s. s.now) at.entry) }
{
    form_named(value?, paragraph_asked(at).unwrap_or(0))
}

// Whether a form is a raw image.
fn is_raw(form: Option<Form>) -> bool
    ensures { result ≡ spec.is_raw form }
{
    matches!(form, Some(Form::Raw { .. }))
}

// Whether a value is no paragraph, or is given where no raw image is asked for.
fn is_no_place(form: Option<Form>, at: Option<&str>) -> bool
    ensures { result ≡ spec.is_no_place form (option_map (λ s. s.now) at.entry) }
{
    match at {
        Some(word) => !is_raw(form) || paragraph(word).is_none(),
        None => false,
    }
}

// The map that a value asks for.
fn map_asked<'a>(value: Option<&'a str>) -> Option<MapFile<'a>>
    ensures { option_map map_of result ≡ option_map At (option_map (λ s. s.now) value.entry) }
{
    match value {
        Some(path) => Some(MapFile::At(path)),
        None => None,
    }
}

// The form of a map by its name.
fn map_form_named(word: &str) -> Option<MapForm>
    ensures { result ≡ spec.map_form_named word.now }
{
    if is(word, "omf") {
        Some(MapForm::Omf)
    } else if is(word, "link") {
        Some(MapForm::Link {
            line_numbers: false,
        })
    } else if is(word, "tlink") {
        Some(MapForm::Tlink {
            line_numbers: false,
            details: false,
        })
    } else {
        None
    }
}

// The form of the map that a value asks for.
fn map_form_asked(value: Option<&str>) -> MapForm
    ensures { result ≡ spec.map_form_asked (option_map (λ s. s.now) value.entry) }
{
    match value {
        Some(word) => map_form_named(word).unwrap_or(MapForm::Omf),
        None => MapForm::Omf,
    }
}

// What is linked, in the order of the words.
fn inputs_asked<'a>(
    alloc: Global,
    words: &[&str],
    values: &ArgMatches<'a>,
) -> Result<Vec<Input<'a>>, AllocError>
    ensures { IfOk result (λ inputs. inputs_of inputs.items ≡ named.in_order (named.kinds_named Any (texts words.now))
        (spec.values_of (codes "FILES") (rows_of (found_of values.now)))
        (spec.values_of (codes "LIB") (rows_of (found_of values.now)))) }
{
    let kinds = kinds_named(alloc, words)?;
    let files = values_of(alloc, values, "FILES")?;
    let libraries = values_of(alloc, values, "LIB")?;
    in_order(alloc, &kinds, &files, &libraries)
}

// The job that values ask for, which words give.
fn job_of<'a>(alloc: Global, words: &[&str], values: &ArgMatches<'a>) -> Result<Job<'a>, AllocError>
    ensures { IfOk result (IsJobOf (texts words.now) (rows_of (found_of values.now))) }
{
    let form = form_asked(values.get_str("FORM"), values.get_str("PARAGRAPH"));
    Ok(Job {
        inputs: inputs_asked(alloc, words, values)?,
        out: values.get_str("OUT"),
        map: map_asked(values.get_str("MAP")),
        map_form: map_form_asked(values.get_str("NAME")),
        folders: values_of(alloc, values, "FOLDER")?,
        object_folders: Vec::new(alloc),
        ignore_case: values.get_flag("ignore-case"),
        order: order_asked(alloc, values.get_str("ORDER"))?,
        null_bytes: nulls_asked(values.get_str("ORDER"), form),
        stack: stack_asked(values.get_str("N")),
        form,
        default_libraries: !values.get_flag("no-default-libs"),
        left_out: Vec::new(alloc),
        keep_debug: values.get_flag("keep-debug"),
        packs_far_data: false,
        verbose: values.get_flag("verbose"),
        quiet: false,
        start: None,
        references: Vec::new(alloc),
        aliases: Vec::new(alloc),
    })
}

// The words that stand for those that are given: `--help` for `help` alone.
fn asked<'a>(words: &'a [&'a str]) -> &'a [&'a str]
    ensures { texts result.now ≡ spec.asked (texts words.now) }
{
    match words {
        [word] if word.as_bytes() == b"help".as_slice() => &["--help"],
        _ => words,
    }
}

// Says that a value is none that an option takes.
fn refused(alloc: Global, word: &str, option: &str, why: &str) -> WordsFault {
    let text = format!(in alloc;
        "error: invalid value '{word}' for '{option}': {why}\n\n\
        For more information, try '--help'.\n"
    );
    match text {
        Ok(text) => WordsFault::Wrong(text),
        Err(AllocError) => WordsFault::Memory,
    }
}

// Refuses a value that is no length of a stack.
fn check_stack(alloc: Global, value: Option<&str>) -> Result<(), WordsFault>
    ensures ok { IfOk result (λ _. spec.is_no_stack (option_map (λ s. s.now) value.entry) ≡ false) }
    ensures err { IfErr result (λ _. spec.is_no_stack (option_map (λ s. s.now) value.entry) ≡ true) }
{
    match value {
        Some(word) if stack_bytes(word).is_none() => {
            let why = "a stack has 1 to 65,536 bytes";
            Err(refused(alloc, word, "--stack <N>", why))
        }
        _ => Ok(()),
    }
}

// Refuses a name that is no form.
fn check_name(alloc: Global, value: Option<&str>, form: Option<Form>) -> Result<(), WordsFault>
    ensures ok { IfOk result (λ _. is_some value.entry && not (is_some form) ≡ false) }
    ensures err { IfErr result (λ _. is_some value.entry && not (is_some form) ≡ true) }
{
    match value {
        Some(word) if form.is_none() => {
            let why = "a form is exe, com, bin or sys";
            Err(refused(alloc, word, "--form <FORM>", why))
        }
        _ => Ok(()),
    }
}

// Refuses a value that is no paragraph, or is given where no raw image is asked for.
fn check_place(alloc: Global, form: Option<Form>, at: Option<&str>) -> Result<(), WordsFault>
    ensures ok { IfOk result (λ _. spec.is_no_place form (option_map (λ s. s.now) at.entry) ≡ false) }
    ensures err { IfErr result (λ _. spec.is_no_place form (option_map (λ s. s.now) at.entry) ≡ true) }
{
    match at {
        Some(word) if is_no_place(form, at) => {
            let why = "with '--form bin' a hexadecimal number from 0 to FFFF";
            Err(refused(alloc, word, "--at <PARAGRAPH>", why))
        }
        _ => Ok(()),
    }
}

// Refuses a name that is no form, and a paragraph that it doesn't take.
fn check_form(alloc: Global, value: Option<&str>, at: Option<&str>) -> Result<(), WordsFault>
    ensures ok { IfOk result (λ _. spec.is_no_form (option_map (λ s. s.now) value.entry)
        (option_map (λ s. s.now) at.entry) ≡ false) }
    ensures err { IfErr result (λ _. spec.is_no_form (option_map (λ s. s.now) value.entry)
        (option_map (λ s. s.now) at.entry) ≡ true) }
{
    let form = form_asked(value, at);
    check_name(alloc, value, form)?;
    check_place(alloc, form, at)
}

// Refuses a name that is no form of a map.
fn check_map_form(alloc: Global, value: Option<&str>) -> Result<(), WordsFault>
    ensures ok { IfOk result (λ _. spec.is_no_map_form (option_map (λ s. s.now) value.entry) ≡ false) }
    ensures err { IfErr result (λ _. spec.is_no_map_form (option_map (λ s. s.now) value.entry) ≡ true) }
{
    match value {
        Some(word) if map_form_named(word).is_none() => {
            let why = "a map's form is omf, link or tlink";
            Err(refused(alloc, word, "--map-form <NAME>", why))
        }
        _ => Ok(()),
    }
}

// Refuses a value that its option doesn't take.
fn check_values(alloc: Global, values: &ArgMatches<'_>) -> Result<(), WordsFault>
    ensures ok { IfOk result (λ _. spec.has_wrong_value (rows_of (found_of values.now)) ≡ false) }
    ensures err { IfErr result (λ _. spec.has_wrong_value (rows_of (found_of values.now)) ≡ true) }
{
    check_stack(alloc, values.get_str("N"))?;
    check_form(alloc, values.get_str("FORM"), values.get_str("PARAGRAPH"))?;
    check_map_form(alloc, values.get_str("NAME"))
}

// The job that values ask for, which words give, where its options take them.
fn checked_job<'a>(
    alloc: Global,
    words: &[&str],
    values: &ArgMatches<'a>,
) -> Result<Job<'a>, WordsFault>
    ensures job { IfOk result (λ job. (spec.has_wrong_value (rows_of (found_of values.now)) ≡ false)
        × IsJobOf (texts words.now) (rows_of (found_of values.now)) job) }
    ensures refused { spec.has_wrong_value (rows_of (found_of values.now)) ≡ false
        → IfErr result (λ fault. fault ≡ WordsFault.Memory) }
{
    check_values(alloc, values)?;
    Ok(job_of(alloc, words, values)?)
}

/// The job that the words after the program's name ask for. Words that are taken, by a command that has no fault in
/// them, with a stack of a length that there is and forms that there are, are refused for nothing but want of memory.
pub fn parse_words<'a>(alloc: Global, words: &'a [&'a str]) -> Result<Job<'a>, WordsFault>
    ensures job { IfOk result (IsJobFor (texts words.entry.now)) }
    ensures refused { AreTaken (texts words.entry.now) → IfErr result (λ fault. fault ≡ WordsFault.Memory) }
    // What is at fault, and the matches, are those that the parser promises of simple commands.
    ensures simple { is_simple_and_free spec.doslink_command ≡ true }
{
    let words = asked(words);
    let command = doslink_command(alloc)?;
    match command.try_get_matches_from(words) {
        Ok(values) => checked_job(alloc, words, &values),
        Err(error) => Err(refusal(alloc, &error)),
    }
}
