//! The file of definitions that a line names, of which nothing is used.
ghost use Rattle.std.specs.Prelude.{IfOk};
ghost use Rattle.std.specs.Option.{option_map};
ghost use Rattle.doslink_asked.specs.Lines as spec;

use crate::fault::AskingFault;
use crate::line_names::with_default;
use crate::lines::{idle_text, place_in};
use crate::reading::{Sources, response_text};
use doslink_telling::Limit;
use makefile_words::{IdleAt, LineFault, MakefileJob, parse_definitions};
use omf_files::World;
use std::alloc::{AllocError, Global};

/// A file of definitions.
#[derive(Clone, Copy)]
struct Definitions<'t> {
    /// Its path.
    path: &'t str,
    /// What it says.
    text: &'t str,
}

impl Definitions<'_> {
    // A place in the file, as it is told.
    fn place_text(&self, alloc: Global, place: usize) -> Result<String, AllocError> {
        let (line, column) = place_in(self.text, place);
        format!(in alloc; "{path}: line {line}, column {column}", path = self.path)
    }

    // Appends the line of a statement that isn't used.
    fn push_warning(
        &self,
        alloc: Global,
        warning: &IdleAt,
        lines: &mut Vec<u8>,
    ) -> Result<(), AllocError> {
        let place = self.place_text(alloc, warning.place)?;
        let what = idle_text(warning.idle);
        let told = format!(in alloc; "doslink: warning: {place}: {what}\n")?;
        lines.extend_from_slice(told.as_bytes())
    }

    // Appends a line for each of the first statements, and how many more there are.
    fn push_warnings(
        &self,
        alloc: Global,
        warnings: &[IdleAt],
        tells_all: bool,
        lines: &mut Vec<u8>,
    ) -> Result<(), AllocError> {
        let mut limit = Limit::new(alloc, tells_all);
        for warning in warnings {
            if let Some(lines) = limit.next() {
                self.push_warning(alloc, warning, lines)?;
            }
        }
        limit.append_to(lines)
    }

    // Appends the line of a statement at fault.
    fn push_fault(
        &self,
        alloc: Global,
        fault: &LineFault<'_>,
        lines: &mut Vec<u8>,
    ) -> Result<(), AllocError> {
        let LineFault::Word { place, word, kind } = *fault else {
            return Err(AllocError);
        };
        let place = self.place_text(alloc, place)?;
        let told = format!(in alloc; "doslink: {place}: {word:?}: {kind}\n")?;
        lines.extend_from_slice(told.as_bytes())
    }

    // Tells a statement at fault.
    fn refuse(&self, fault: &LineFault<'_>, sources: &mut Sources) -> AskingFault {
        match self.push_fault(sources.alloc, fault, &mut sources.lines) {
            Ok(()) => AskingFault::Words,
            Err(AllocError) => AskingFault::Memory,
        }
    }
}

// Reads a file of definitions, tells that nothing of it is used, and stops where a statement can't be left out.
fn read_named<W: World>(
    world: &W,
    name: &str,
    tells_all: bool,
    sources: &mut Sources,
) -> Result<(), AskingFault>
    ensures { IfOk result (λ done. spec.IsDefinedBy (W.bytes world.now) name.now) }
{
    let path = with_default(sources.alloc, name, ".DEF")?;
    let text = response_text(world, path.as_str(), sources)?;
    let definitions = Definitions {
        path: path.as_str(),
        text: text.as_str(),
    };
    match parse_definitions(sources.alloc, definitions.text) {
        Ok(warnings) => {
            definitions.push_warnings(sources.alloc, &warnings, tells_all, &mut sources.lines)?;
            Ok(())
        }
        Err(fault) => Err(definitions.refuse(&fault, sources)),
    }
}

/// Reads the file of definitions that a line names, if it does, tells that nothing of it is used, and stops where a
/// statement can't be left out.
pub(crate) fn read_definitions<W: World>(
    world: &W,
    made: &MakefileJob<'_>,
    sources: &mut Sources,
) -> Result<(), AskingFault>
    ensures { IfOk result
        (λ done. spec.AreDefined (W.bytes world.now) (option_map (λ name. name.now) made.now.definitions)) }
{
    match made.definitions {
        Some(name) => read_named(world, name, made.job.verbose, sources),
        None => Ok(()),
    }
}
