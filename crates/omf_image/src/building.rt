//! The program of modules: their data records, the start, and the relocations.

ghost use Rattle.std.specs.Prelude.{◌≡◌, ◌<◌, ◌≤◌, ◌^◌, ◌++◌, [], List, All, false, filter, length, slice_index_or};
ghost use Rattle.std.specs.Prelude.{replicate, OnOk, IfOk};
ghost use Rattle.std.specs.List.{range_with_len};
ghost use Rattle.omf_module.specs.Module.{Module as PlainModule};
ghost use Rattle.omf_image.specs.Records.{entries};
ghost use Rattle.omf_image.specs.inside.Entries.{DataEntry, module_entries};
ghost use Rattle.omf_image.specs.inside.Whole.{data_fault};
ghost use Rattle.omf_image.specs.inside.Pages.{IsBlank};
ghost use Rattle.omf_place.specs.Bounded.{IsBounded};
ghost use Rattle.omf_image.specs.inside.Ready.{IsEntryReady, IsReady};
ghost use Rattle.omf_image.specs.inside.States.{state};
ghost use Rattle.omf_image.specs.Building.{Answers, Builds};
ghost use Rattle.omf_image.specs.inside.Leading.{IsWhole, Leads};

use crate::adding::add_record;
use crate::extent::written;
use crate::faults::FixFault;
use crate::pages::Pages;
use crate::program::Program;
use crate::start::start_registers;
use crate::work::Work;
use omf_module::{Module, all_promise};
use omf_place::Layout;
use std::alloc::{AllocError, Allocator};

/// The most relocated words that a program file holds.
const MOST_RELOCATIONS: usize = 65535;

impl<A: Allocator + Copy> Work<A> {
    /// An image of zeros without data.
    pub fn new(alloc: A, size: u32) -> Result<Work<A>, AllocError>
        requires { size ≤ 1048560 }
        ensures pages { IfOk result (λ w. IsBlank size w.pages) }
        ensures words { IfOk result (λ w. w.words.items ≡ replicate size false) }
    {
        let pages = Pages::new(alloc, size as usize)?;
        let words = Vec::from_elem(alloc, false, size as usize)?;
        Ok(Work {
            pages,
            words,
            touched: Vec::new(alloc),
            relocated: Vec::new(alloc),
        })
    }
}

/// Lays the data records of a module over the image.
fn add_module<A: Allocator + Copy>(
    work: &mut Work<A>,
    hits: &mut Vec<u32, A>,
    layout: &Layout<A>,
    input: usize,
    module: &Module<A>,
) -> Result<(), FixFault>
    requires ready { All (IsEntryReady layout.now) (module_entries input «module».now) }
    requires whole { IsWhole layout.now (state work.old) }
    ensures whole { OnOk result (IsWhole layout.now (state work.new)) }
    ensures gives { (modules : List PlainModule) → (rest : List DataEntry)
        → Leads layout.now modules (state work.old) (module_entries input «module».now ++ rest)
        → Answers result (data_fault layout.now modules) (λ _. Leads layout.now modules (state work.new) rest) }
{
    for index in 0..module.data_record_count() {
        let data_record = module.data_record(index);
        add_record(work, hits, &*layout, input, &*module, data_record)?;
    }
    Ok(())
}

/// Lays the data records of all modules over the image.
pub fn add_modules<A: Allocator + Copy>(
    work: &mut Work<A>,
    hits: &mut Vec<u32, A>,
    layout: &Layout<A>,
    modules: &[Module<A>],
) -> Result<(), FixFault>
    requires ready { All (IsEntryReady layout.now) (entries modules.now) }
    requires whole { IsWhole layout.now (state work.old) }
    ensures whole { OnOk result (IsWhole layout.now (state work.new)) }
    ensures gives { Leads layout.now modules.now (state work.old) (entries modules.now)
        → Answers result (data_fault layout.now modules.now) (λ _. Leads layout.now modules.now (state work.new) []) }
{
    for (input, module) in modules.iter().enumerate() {
        add_module(work, hits, layout, input, module)?;
    }
    Ok(())
}

/// The addresses at which a flag stands, rising.
pub fn flagged<A: Allocator + Copy>(alloc: A, flags: &[bool]) -> Result<Vec<u32, A>, AllocError>
    requires { length flags.now < 2 ^ 32 }
    ensures { IfOk result (λ v. v.items ≡ filter (λ a. slice_index_or flags.now a false)
        (range_with_len 0 (length flags.now))) }
{
    let mut addresses = Vec::new(alloc);
    for (address, flag) in flags.iter().enumerate() {
        if *flag {
            addresses.push(address as u32)?;
        }
    }
    Ok(addresses)
}

/// Links modules all of whose references are there, and whose data lies inside their layout.
fn build_program<A: Allocator + Copy>(
    alloc: A,
    modules: &[Module<A>],
    layout: &Layout<A>,
) -> Result<Program<A>, FixFault>
    requires { IsReady layout.now modules.now }
    ensures { Builds layout.now modules.now result }
{
    let mut work = Work::new(alloc, layout.size())?;
    let mut hits = Vec::new(alloc);
    add_modules(&mut work, &mut hits, layout, modules)?;
    let registers = start_registers(layout, modules)?;
    let written = written(layout, modules);
    let relocations = flagged(alloc, &work.words)?;
    if relocations.len() > MOST_RELOCATIONS {
        return Err(FixFault::TooManyRelocations);
    }
    let Work {
        pages,
        words: _,
        touched: _,
        relocated: _,
    } = work;
    Ok(Program::new(pages, written, relocations, registers))
}

/// Links modules by their layout. The faults are 26 to 34, in order of data records and fix-ups, then that of the
/// start, then that of too many relocated words; `Memory` where memory ran out.
pub fn build<A: Allocator + Copy>(
    alloc: A,
    modules: &[Module<A>],
    layout: &Layout<A>,
) -> Result<Program<A>, FixFault>
    requires { IsBounded modules.now layout.now }
    ensures { Builds layout.now modules.now result }
{
    all_promise(modules);
    build_program(alloc, modules, layout)
}
