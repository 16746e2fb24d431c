//! Paths of files, made of others.
ghost use Rattle.std.specs.Prelude.{◌≡◌, ◌++◌, IfOk, OnOk, map, string_bytes};
ghost use Rattle.doslink_files.specs.Paths as spec;

use std::alloc::{AllocError, Allocator};

/// Whether a byte stands between the parts of a path: `/`, `\` or `:`.
fn is_separator(byte: u8) -> bool
    ensures { result ≡ spec.is_separator byte }
{
    byte == b'/' || byte == b'\\' || byte == b':'
}

/// The last part of a path: what stands behind its folders.
pub fn last_part(path: &[u8]) -> &[u8]
    ensures { result.now ≡ spec.last_part path.now }
{
    let mut start = 0;
    for (at, byte) in path.iter().enumerate() {
        if is_separator(*byte) {
            start = at + 1;
        }
    }
    &path[start..]
}

/// Whether the last part of a path has a dot.
pub fn has_extension(path: &[u8]) -> bool
    ensures { result ≡ spec.has_extension path.now }
{
    last_part(path).iter().any(|byte| *byte == b'.')
}

/// What stands between a folder and a name in it.
fn joint(folder: &[u8]) -> &'static str
    ensures { result.now ≡ spec.joint folder.now }
{
    match folder {
        [.., last] if !is_separator(*last) => "/",
        _ => "",
    }
}

/// The path of a file in a folder; in this one, where the folder is empty. The name is given in two parts.
fn path_in<A: Allocator + Copy>(
    alloc: A,
    folder: &str,
    name: &str,
    extension: &str,
) -> Result<String<A>, AllocError>
    ensures { IfOk result (λ s. string_bytes s ≡ spec.in_folder folder.now (name.now ++ extension.now)) }
{
    let mut made = String::from_str(alloc, folder)?;
    made.push_str(joint(folder.as_bytes()))?;
    made.push_str(name)?;
    made.push_str(extension)?;
    Ok(made)
}

/// Appends the paths at which a file of this name is looked up in a folder: with each of these extensions behind it.
fn push_paths<A: Allocator + Copy>(
    alloc: A,
    folder: &str,
    name: &str,
    extensions: &[&str],
    paths: &mut Vec<String<A>, A>,
) -> Result<(), AllocError>
    ensures { OnOk result (map string_bytes paths.new.items ≡ map string_bytes paths.old.items
        ++ spec.paths_in (map (λ e. e.now) extensions.now) name.now folder.now) }
{
    for extension in extensions {
        paths.push(path_in(alloc, folder, name, extension)?)?;
    }
    Ok(())
}

/// The paths at which a file of this name is looked up, in their order: in this folder, and then in each of the others,
/// with each of these extensions behind it.
pub(crate) fn paths_of<A: Allocator + Copy>(
    alloc: A,
    folders: &[&str],
    name: &str,
    extensions: &[&str],
) -> Result<Vec<String<A>, A>, AllocError>
    ensures { IfOk result (λ paths. map string_bytes paths.items
        ≡ spec.paths_of (map (λ e. e.now) extensions.now) (map (λ f. f.now) folders.now) name.now) }
{
    let mut paths = Vec::new(alloc);
    push_paths(alloc, "", name, extensions, &mut paths)?;
    for folder in folders {
        push_paths(alloc, folder, name, extensions, &mut paths)?;
    }
    Ok(paths)
}
