//! Object modules linked into a program.
ghost use Rattle.std.specs.Prelude.{All, OnOk, ◌≡◌, ◌+◌, ◌-◌, ◌^◌, ◌<◌, ℕ, List, map};
ghost use Rattle.omf_module.specs.Module.{Module as Says};
ghost use Rattle.omf_module.specs.Tables.{module_of};
ghost use Rattle.omf_place.specs.declared.names.Names.{Names as Choice};
ghost use Rattle.omf_place.specs.declared.names.Names.TheVariants.{AsciiFolded, Exact};
ghost use Rattle.omf_record.specs.Records.{Placed};
ghost use Rattle.omf_faults.specs.declared.fault.LinkFault.{LinkFault as Fault};
ghost use Rattle.omf_commands.specs.Inputs.{AreModules};
ghost use Rattle.omf_commands.specs.Records.{rewritten, says_of};
ghost use Rattle.omf_commands.specs.Linking.{IsFileOf, IsModulesFault, Links, WritesProgram};
ghost use Rattle.omf_commands.specs.Modules.{LinksModules};
ghost use Rattle.omf_commands.specs.inside.Linking.{BuildsModules};
ghost use Rattle.omf_commands.specs.Outcome.{AreTold, Outcome, SameFault, telling};
ghost use Rattle.omf_commands.specs.Reading.{sink_failures};

use crate::faults::{fix_fault, place_fault};
use crate::inputs::read_inputs;
use mz::{loads_as_written, write_mz};
use omf_faults::LinkFault;
use omf_frame::{Sink, Source};
use omf_image::{Program, build};
use omf_module::Module;
use omf_place::{Layout, Names, place};
use std::alloc::{Allocator, Global};

/// How modules are linked.
#[derive(Clone, Copy, Debug)]
pub struct Options {
    /// Which names of publics and externals agree.
    pub names: Names,
}

impl Options {
    /// The ordinary way: names agree where their bytes are the same.
    pub fn new() -> Options
        ensures { result ≡ record { names = Exact } }
    {
        Options {
            names: Names::Exact,
        }
    }

    /// The ordinary way, but that names agree without regard to the case of `A` to `Z`.
    pub fn ignoring_case() -> Options
        ensures { result ≡ record { names = AsciiFolded } }
    {
        Options {
            names: Names::AsciiFolded,
        }
    }
}

/// What was linked.
#[derive(Drop)]
pub struct Report<A: Allocator + Copy = Global> {
    /// The modules of the inputs, in their order.
    pub modules: Vec<Module<A>, A>,
    /// Where they stand.
    pub layout: Layout<A>,
    /// The program whose file was written.
    pub program: Program<A>,
}

/// Places the modules and builds their program.
fn build_modules<A: Allocator + Copy>(
    alloc: A,
    modules: Vec<Module<A>, A>,
    names: Names,
) -> Result<Report<A>, LinkFault<A>>
    ensures { BuildsModules names modules.items result }
{
    let all = modules.as_slice();
    let layout = match place(alloc, all, names) {
        Ok(layout) => layout,
        Err(fault) => return Err(place_fault(fault)),
    };
    let program = match build(alloc, all, &layout) {
        Ok(program) => program,
        Err(fault) => return Err(fix_fault(fault)),
    };
    Ok(Report {
        modules,
        layout,
        program,
    })
}

/// Links modules that were read, in their order, and writes the file of their program.
///
/// # Errors
/// The first of placement; else the first of data and fix-ups, of the start, and of too many relocated words. Nothing
/// is written before all of that succeeded. The sink's; want of memory.
pub fn link_modules<K: Sink, A: Allocator + Copy>(
    alloc: A,
    modules: Vec<Module<A>, A>,
    sink: &mut K,
    options: &Options,
) -> Result<Report<A>, LinkFault<A>>
    requires { K.failures sink.old < 2 ^ 64 - 1 }
    // The sink failed exactly where the answer says so, and then once.
    ensures sink { K.failures sink.new ≡ K.failures sink.old + sink_failures result }
    // What was written, which holds the program at each paragraph, and the fault where one stands.
    ensures links { LinksModules options.now.names modules.items (K.written sink.old) (K.written sink.new) result }
{
    let report = build_modules(alloc, modules, options.names)?;
    loads_as_written();
    match write_mz(&report.program, sink) {
        Ok(()) => Ok(report),
        Err(_) => Err(LinkFault::Output),
    }
}

/// Links the modules of the inputs, in their order, and writes the file of the program.
///
/// The fault is that of reading the first input that has one, inputs behind it being untouched; else the
/// first of placement; else the first of data and fix-ups, of the start, and of too many relocated
/// words. Nothing is written before all of that succeeded.
pub fn link<S: Source, K: Sink, A: Allocator + Copy>(
    alloc: A,
    sources: &mut [S],
    sink: &mut K,
    options: &Options,
) -> Result<Report<A>, LinkFault<A>>
    requires sources { All (λ s. S.failures s < 2 ^ 64 - 1) sources.old }
    requires sink { K.failures sink.old < 2 ^ 64 - 1 }
    // The sink failed exactly where the answer says so, and then once.
    ensures sink { K.failures sink.new ≡ K.failures sink.old + sink_failures result }
    // What was read and written, and the fault where one stands. A source failed exactly where the answer names it.
    ensures links { Links S.remaining S.failures options.now.names sources.old sources.new (K.written sink.old)
        (K.written sink.new) result }
    // Where the sources tell their bytes, a program is answered exactly where no fault stands in them, else the only
    // one.
    ensures outcome { (inputs : List (List ℕ)) → AreTold S.remaining sources.old inputs
        → Outcome options.now.names inputs result }
    // Loading the file at any paragraph where the program fits gives, at each address of its written part, the byte
    // that the records stand for; so does moving what the file holds to any paragraph at all.
    ensures headline { OnOk result
        (WritesProgram S.remaining S.failures options.now.names sources.old sources.new (K.written sink.old)
        (K.written sink.new)) }
{
    let modules = read_inputs(alloc, sources)?;
    link_modules(alloc, modules, sink, options)
}

/// Modules that have a file have no fault, and others one, so that an answer is the only one.
pub fn file_or_fault<A: Allocator + Copy>()
    ensures exclusive { (names : Choice) (modules : List Says) (file : List ℕ) (fault : Fault A)
        → IsFileOf names modules file → IsModulesFault names modules fault → ⊥ }
    ensures one_fault { (names : Choice) (modules : List Says) (fault other : Fault A)
        → IsModulesFault names modules fault → IsModulesFault names modules other → SameFault fault other }
    // Faults that are one tell the same: their number, the input at fault and their line.
    ensures told { (fault other : Fault A) → SameFault fault other → telling fault ≡ telling other }
{}

/// Modules have one file under each choice of which names agree, whatever their bytes were: it hangs on what the
/// records say alone and on that choice, and neither on where they stand nor on how their bodies spell it.
pub fn one_file()
    ensures of_modules { (names : Choice) (modules : List Says) (file other : List ℕ) → IsFileOf names modules file
        → IsFileOf names modules other → file ≡ other }
    // Records that say the same have the same file.
    ensures of_records { (names : Choice) (lists others : List (List Placed)) (file other : List ℕ)
        → map says_of lists ≡ map says_of others → IsFileOf names (map module_of lists) file
        → IsFileOf names (map module_of others) other → file ≡ other }
    // Where the ones have a file, so have the others.
    ensures shared { (names : Choice) (lists others : List (List Placed)) (file : List ℕ)
        → map says_of lists ≡ map says_of others → IsFileOf names (map module_of lists) file
        → IsFileOf names (map module_of others) file }
    // Modules that are rewritten are modules that say the same, and have the file that they had.
    ensures rewritten { (names : Choice) (lists : List (List Placed)) (inputs : List (List ℕ)) (file : List ℕ)
        → AreModules lists inputs → IsFileOf names (map module_of lists) file
        → (others : List (List Placed)) × AreModules others (map rewritten lists)
        × (map says_of others ≡ map says_of lists) × IsFileOf names (map module_of others) file }
{}
