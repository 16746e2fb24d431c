//! The names that a line's job writes, made whole.
ghost use Rattle.std.specs.Prelude.{◌≡◌, IfOk, string_bytes};
ghost use Rattle.std.specs.Option.{option_map};
ghost use Rattle.doslink_words.specs.Said.{At, map_of};
ghost use Rattle.doslink_asked.specs.Lines as spec;
ghost use Rattle.doslink_asked.specs.inside.Lines.{AreNamesOf, named_map};

use crate::paths::{behind_last, extension_for, first_file, is_output, path_after, with_extension};
use doslink_files::has_extension;
use doslink_words::{Job, MapFile};
use std::alloc::{AllocError, Global};

/// The names of what a job writes.
#[derive(Drop)]
pub(crate) struct Names {
    /// That of the program.
    pub out: String,
    /// That of the map, where one is named.
    pub map: Option<String>,
}

// The name of a file without its folders and its drive.
fn base_name(path: &str) -> &str
    ensures { result.now ≡ spec.base_name path.now }
{
    behind_last(behind_last(behind_last(path, '/'), '\\'), ':')
}

/// A path with an extension where it has none.
pub(crate) fn with_default(alloc: Global, path: &str, extension: &str) -> Result<String, AllocError>
    ensures { IfOk result (λ made. string_bytes made ≡ spec.with_default path.now extension.now) }
{
    let mut made = String::from_str(alloc, path)?;
    if !has_extension(path.as_bytes()) {
        made.push_str(extension)?;
    }
    Ok(made)
}

/// A path that is said: with an extension where it has none, and this name in a folder alone.
pub(crate) fn whole_path(
    alloc: Global,
    path: &str,
    name: &str,
    extension: &str,
) -> Result<String, AllocError>
    ensures { IfOk result (λ made. string_bytes made ≡ spec.whole_path path.now name.now extension.now) }
{
    if base_name(path) != "" {
        return with_default(alloc, path, extension);
    }
    let mut made = String::from_str(alloc, path)?;
    made.push_str(name)?;
    Ok(made)
}

// The name of the first object, with the extension of the program's form.
fn default_out(alloc: Global, job: &Job<'_>) -> Result<String, AllocError>
    ensures { IfOk result (λ out. string_bytes out ≡ spec.default_out job.now) }
{
    let name = base_of(first_file(&job.inputs));
    path_after(alloc, name, extension_for(job.form))
}

// The program's path: the one that is said, or the first object's name, in this folder.
fn out_of(alloc: Global, job: &Job<'_>) -> Result<String, AllocError>
    ensures { IfOk result (λ out. string_bytes out ≡ spec.line_out job.now) }
{
    let name = default_out(alloc, job)?;
    match job.out {
        Some(out) => whole_path(alloc, out, name.as_str(), extension_for(job.form)),
        None => Ok(name),
    }
}

/// The name of a file, where there is one, without its folders.
pub(crate) fn base_of(path: Option<&str>) -> Option<&str>
    ensures { option_map (λ name. name.now) result ≡ option_map spec.base_name (option_map (λ p. p.now) path.entry) }
{
    Some(base_name(path?))
}

// The path of a map that is said, of a program at this path.
fn map_at(alloc: Global, path: &str, out: &str) -> Result<String, AllocError>
    ensures { IfOk result (λ made. At (string_bytes made) ≡ spec.line_map out.now (At path.now)) }
{
    if is_output(path) {
        return String::from_str(alloc, path);
    }
    let name = with_extension(alloc, base_name(out), ".MAP")?;
    whole_path(alloc, path, name.as_str(), ".MAP")
}

// The map's path, where one is said.
fn map_name(
    alloc: Global,
    map: Option<MapFile<'_>>,
    out: &str,
) -> Result<Option<String>, AllocError>
    ensures { IfOk result (λ name. named_map map.entry (option_map string_bytes name)
        ≡ option_map (spec.line_map out.now) (option_map map_of map.entry)) }
{
    match map {
        Some(MapFile::At(path)) => Ok(Some(map_at(alloc, path, out)?)),
        Some(MapFile::Beside) | None => Ok(None),
    }
}

/// The names of what a job writes, with the extensions that they take.
pub(crate) fn names_of(alloc: Global, job: &Job<'_>) -> Result<Names, AllocError>
    ensures { IfOk result (AreNamesOf job.now) }
{
    let out = out_of(alloc, job)?;
    let map = map_name(alloc, job.map, out.as_str())?;
    Ok(Names { out, map })
}

impl Names {
    // The map of a job that has these names.
    fn map_of<'n>(&'n self, map: Option<MapFile<'n>>) -> Option<MapFile<'n>>
        ensures { option_map map_of result ≡ named_map map.entry (option_map string_bytes self.now.map) }
    {
        match &self.map {
            Some(name) => Some(MapFile::At(name.as_str())),
            None => map,
        }
    }
}

/// A job with these names.
pub(crate) fn with_names<'n>(job: Job<'n>, names: &'n Names) -> Job<'n>
    ensures { AreNamesOf job.entry names.now → spec.IsWhole job.entry result }
{
    Job {
        out: Some(names.out.as_str()),
        map: names.map_of(job.map),
        ..job
    }
}
