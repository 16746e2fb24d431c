//! What a job says of names beside its modules, as a file that is given with them.
ghost use Rattle.std.specs.Prelude.{◌≡◌, ◌++◌, OnOk};
ghost use Rattle.doslink_files.specs.Files.{contents};
ghost use Rattle.doslink_jobs.specs.Jobs.{names_files};

use doslink_files::InputFile;
use doslink_passes::said_names;
use doslink_words::Job;
use std::alloc::{AllocError, Allocator};

/// The word for the module in a line and in a map.
const NAMES_MODULE: &str = "directives";

/// Appends the file of the module of what a job says of names, where it says something.
pub(crate) fn push_names_file<A: Allocator + Copy>(
    alloc: A,
    job: &Job<'_>,
    files: &mut Vec<InputFile<A>, A>,
) -> Result<(), AllocError>
    ensures { OnOk result (contents files.new.items ≡ contents files.old.items ++ names_files job.now) }
{
    let Some(bytes) = said_names(alloc, job)? else {
        return Ok(());
    };
    let path = String::from_str(alloc, NAMES_MODULE)?;
    files.push(InputFile {
        path,
        bytes,
        id: None,
    })?;
    Ok(())
}
