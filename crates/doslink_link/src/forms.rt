//! The files of linked programs in other forms than EXE, made in memory.
ghost use Rattle.std.specs.Prelude.{◌≡◌, ◌≤◌, IfOk, List, None, Some, length};
ghost use Rattle.omf_module.specs.Module.{Module};
ghost use Rattle.omf_place.specs.declared.names.Names.{Names};
ghost use Rattle.omf_place.specs.Bounded.{IsBounded};
ghost use Rattle.flat_file.specs.Forms.{bin_bytes, com_bytes, com_fault, from_start_bytes, from_start_fault};
ghost use Rattle.flat_file.specs.Forms.{raw_fault, sys_bytes, sys_fault};
ghost use Rattle.doslink_link.specs.Forms.{Forms, limited};
ghost use Rattle.doslink_link.specs.Linking.{IsLinkedAs};
ghost use Rattle.doslink_link.specs.inside.Making.{Makes};

use crate::linking::Linked;
use crate::page::Page;
use doslink_words::Form;
use flat_file::{
    FlatFault, bin_is_located, com_loads_as_written, from_start_is_located, sys_is_located,
    write_com, write_from_start, write_raw, write_sys,
};
use omf_commands::Report;
use omf_image::Program;
use std::alloc::Allocator;

/// How many bytes the words of an EXE file's header have.
const HEADER_LEN: usize = 28;

/// The place of the paragraphs that it asks for at least behind its image (`e_minalloc`).
const LEAST_AT: usize = 10;

/// The place of those that it asks for at most (`e_maxalloc`).
const MOST_AT: usize = 12;

/// The bytes of a .COM file of what was linked.
fn com_file<A: Allocator + Copy>(alloc: A, report: &Report<A>) -> Result<Vec<u8, A>, FlatFault>
    requires { IsBounded report.now.modules.items report.now.layout }
    ensures { Makes (λ file. file.items) (com_fault report.now.layout report.now.modules.items report.now.program)
        (com_bytes report.now.program) result }
{
    let mut page = Page::new(alloc);
    match write_com(&report.modules, &report.layout, &report.program, &mut page) {
        Ok(()) => Ok(page.bytes),
        Err(fault) => Err(fault),
    }
}

/// The bytes of what was linked at a paragraph, from an address on.
fn raw_file<A: Allocator + Copy>(
    alloc: A,
    report: &Report<A>,
    paragraph: u16,
    from: u32,
) -> Result<Vec<u8, A>, FlatFault>
    requires { IsBounded report.now.modules.items report.now.layout }
    ensures { Makes (λ file. file.items) (raw_fault from report.now.layout report.now.modules.items)
        (bin_bytes paragraph from report.now.program) result }
{
    let mut page = Page::new(alloc);
    match write_raw(
        &report.modules,
        &report.layout,
        &report.program,
        paragraph,
        from,
        &mut page,
    ) {
        Ok(()) => Ok(page.bytes),
        Err(fault) => Err(fault),
    }
}

/// The bytes of a driver's file.
fn driver_file<A: Allocator + Copy>(alloc: A, program: &Program<A>) -> Result<Vec<u8, A>, FlatFault>
    ensures { Makes (λ file. file.items) (sys_fault program.now) (sys_bytes program.now) result }
{
    let mut page = Page::new(alloc);
    match write_sys(program, &mut page) {
        Ok(()) => Ok(page.bytes),
        Err(fault) => Err(fault),
    }
}

/// The bytes of a file of what was linked that begins where it starts.
fn from_start_file<A: Allocator + Copy>(
    alloc: A,
    report: &Report<A>,
) -> Result<Vec<u8, A>, FlatFault>
    requires { IsBounded report.now.modules.items report.now.layout }
    ensures { Makes (λ file. file.items)
        (from_start_fault report.now.layout report.now.modules.items report.now.program)
        (from_start_bytes report.now.program) result }
{
    let mut page = Page::new(alloc);
    match write_from_start(&report.modules, &report.layout, &report.program, &mut page) {
        Ok(()) => Ok(page.bytes),
        Err(fault) => Err(fault),
    }
}

/// An EXE file with a limit of the memory behind its image.
fn limited_file<A: Allocator + Copy>(exe: Vec<u8, A>, paragraphs: u16) -> Vec<u8, A>
    ensures { 28 ≤ length exe.items → result.items ≡ limited paragraphs exe.items }
{
    let mut file = exe;
    if file.len() >= HEADER_LEN {
        let least = u16::from(file[LEAST_AT]) + 256 * u16::from(file[LEAST_AT + 1]);
        let most = paragraphs.max(least);
        file[MOST_AT] = (most % 256) as u8;
        file[MOST_AT + 1] = (most / 256) as u8;
    }
    file
}

/// The file of what was linked in a form that is said; `exe` is its EXE file.
fn file_in<A: Allocator + Copy>(
    alloc: A,
    report: &Report<A>,
    form: Form,
    exe: Vec<u8, A>,
) -> Result<Vec<u8, A>, FlatFault>
    requires { IsBounded report.now.modules.items report.now.layout }
    ensures { (names : Names) (modules : List Module) → IsLinkedAs names modules report.now exe.items
        → Forms (λ file. file.items) (Some form) names modules report.now result }
{
    // what the file of each form is, of a program within the limits that its size is bounded by
    com_loads_as_written();
    bin_is_located();
    sys_is_located();
    from_start_is_located();
    let _size = report.program.size();
    match form {
        Form::Exe => Ok(exe),
        Form::LimitedExe { paragraphs } => Ok(limited_file(exe, paragraphs)),
        Form::Com => com_file(alloc, report),
        Form::Raw { paragraph, from } => raw_file(alloc, report, paragraph, from),
        Form::Driver => driver_file(alloc, &report.program),
        Form::FromStart => from_start_file(alloc, report),
    }
}

/// The file of what was linked in a form, and where none is said its EXE file, `exe`.
fn file_of<A: Allocator + Copy>(
    alloc: A,
    report: &Report<A>,
    form: Option<Form>,
    exe: Vec<u8, A>,
) -> Result<Vec<u8, A>, FlatFault>
    requires { IsBounded report.now.modules.items report.now.layout }
    ensures { (names : Names) (modules : List Module) → IsLinkedAs names modules report.now exe.items
        → Forms (λ file. file.items) form names modules report.now result }
{
    match form {
        None => Ok(exe),
        Some(form) => file_in(alloc, report, form, exe),
    }
}

/// What was linked, with its file in a form.
///
/// # Errors
/// `Form`: the first that keeps the program from being a file of that form. `Device`: want of memory.
pub fn in_form<A: Allocator + Copy>(
    alloc: A,
    linked: Linked<A>,
    form: Option<Form>,
) -> Result<Linked<A>, FlatFault>
    requires { IsBounded linked.report.modules.items linked.report.layout }
    // A file of that form, exactly where nothing keeps the program from being one.
    ensures forms { (names : Names) (modules : List Module)
        → IsLinkedAs names modules linked.report linked.file.items
        → Forms (λ l. l.file.items) form names modules linked.report result }
    // What was linked is the same.
    ensures same { IfOk result (λ l. l.report ≡ linked.report) }
{
    let Linked { report, file } = linked;
    match file_of(alloc, &report, form, file) {
        Ok(file) => Ok(Linked { report, file }),
        Err(fault) => Err(fault),
    }
}
