//! Why a run stops.
ghost use Rattle.std.specs.Prelude.{◌≡◌};
ghost use Rattle.doslink_passes.specs.Stops.{OnInput};
ghost use Rattle.doslink_jobs.specs.inside.Stops.{halt_status, halt_text};

use doslink_files::{FilesFault, ReadFault, Unread};
use doslink_passes::Stop;
use doslink_telling::{Limit, push_unread_line};
use std::alloc::{AllocError, AllocFailed, Allocator};

/// Why a run stops before its program is written.
#[derive(Clone, Copy)]
pub(crate) enum Halt {
    /// Words are wrong, or the names of files, which was told.
    Words,
    /// The files can't be linked.
    Stop(Stop),
}

impl Halt {
    /// The exit status.
    pub(crate) fn status(self) -> u8
        ensures { result ≡ halt_status self }
    {
        match self {
            Halt::Words => 2,
            Halt::Stop(stop) => stop.status(),
        }
    }

    /// What is told of a run that has told these lines.
    pub(crate) fn text<'l>(self, lines: &'l [u8]) -> &'l [u8]
        ensures { result.now ≡ halt_text self lines.now }
    {
        match self {
            Halt::Words => lines,
            Halt::Stop(stop) => stop.text(lines),
        }
    }
}

impl From<Stop> for Halt {
    ghost use Rattle.doslink_jobs.specs.declared.stop.Halt.TheVariants as halt;

    ghost from_gives = { λ s h. h ≡ halt.Stop s };

    fn from(stop: Stop) -> Halt {
        Halt::Stop(stop)
    }
}

impl From<AllocError> for Halt {
    ghost use Rattle.doslink_jobs.specs.declared.stop.Halt.TheVariants as halt;
    ghost use Rattle.doslink_passes.specs.declared.stop.Stop.TheVariants.{Memory};

    ghost from_gives = { λ _ h. h ≡ halt.Stop Memory };

    fn from(_error: AllocError) -> Halt {
        Halt::Stop(Stop::Memory)
    }
}

impl<T: Drop> From<AllocFailed<T>> for Halt {
    ghost use Rattle.doslink_jobs.specs.declared.stop.Halt.TheVariants as halt;
    ghost use Rattle.doslink_passes.specs.declared.stop.Stop.TheVariants.{Memory};

    ghost from_gives = { λ _ h. h ≡ halt.Stop Memory };

    fn from(_error: AllocFailed<T>) -> Halt {
        Halt::Stop(Stop::Memory)
    }
}

/// Tells why what has this name can't be read, and stops.
pub(crate) fn stop_unread<A: Allocator + Copy>(
    lines: &mut Vec<u8, A>,
    name: &str,
    fault: ReadFault,
) -> Stop
    ensures { OnInput result ⊥ }
{
    if matches!(fault, ReadFault::Memory) {
        return Stop::Memory;
    }
    match push_unread_line(lines, name, fault) {
        Ok(()) => Stop::Device,
        Err(AllocError) => Stop::Memory,
    }
}

/// Appends for each of the first of some files why it can't be read, and how many more there are.
fn push_unread_files<A: Allocator + Copy>(
    alloc: A,
    lines: &mut Vec<u8, A>,
    files: &[Unread<'_>],
    tells_all: bool,
) -> Result<(), AllocError> {
    let mut told = Limit::new(alloc, tells_all);
    for file in files {
        if matches!(file.fault, ReadFault::Memory) {
            return Err(AllocError);
        }
        if let Some(lines) = told.next() {
            push_unread_line(lines, file.name, file.fault)?;
        }
    }
    told.append_to(lines)
}

/// Tells of the first of some files, or of all, why they can't be read, and stops.
pub(crate) fn stop_at_files<A: Allocator + Copy>(
    alloc: A,
    lines: &mut Vec<u8, A>,
    fault: FilesFault<'_, A>,
    tells_all: bool,
) -> Stop
    ensures { OnInput result ⊥ }
{
    let FilesFault::Unread(files) = fault else {
        return Stop::Memory;
    };
    if push_unread_files(alloc, lines, &files, tells_all).is_err() {
        return Stop::Memory;
    }
    Stop::Device
}
