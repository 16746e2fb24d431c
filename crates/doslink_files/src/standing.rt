//! What stands where a file is to be written.
ghost use Rattle.std.specs.Prelude.{◌≡◌, ◌<◌, IfSome, IsTrue, true};
ghost use Rattle.doslink_files.specs.Standing as spec;

use omf_files::{FileId, PlaceKind, World};
use std::alloc::Allocator;
use std::collections::BTreeSet;
use std::io::Read;

/// How many bytes of a file tell what it begins as.
const FRONT: usize = 8;

/// How long the pages of libraries are.
const PAGES: [u32; 12] = [
    16, 32, 64, 128, 256, 512, 1024, 2048, 4096, 8192, 16_384, 32_768,
];

/// Whether a file with these bytes at its front begins as a module does.
fn begins_as_module(front: &[u8]) -> bool
    ensures { result ≡ spec.begins_as_module front.now }
{
    match front {
        [kind, low, high, name, ..] => {
            let length = u32::from(*low) + 256 * u32::from(*high);
            (*kind == 0x80 || *kind == 0x82) && length == u32::from(*name) + 2
        }
        _ => false,
    }
}

/// Whether pages of libraries are so long.
fn is_page(length: u32) -> bool
    ensures { result ≡ spec.is_page length }
{
    PAGES.iter().any(|page| *page == length)
}

/// Whether it begins as a library does.
fn begins_as_library(front: &[u8]) -> bool
    ensures { result ≡ spec.begins_as_library front.now }
{
    match front {
        [kind, low, high, ..] => {
            let length = u32::from(*low) + 256 * u32::from(*high) + 3;
            *kind == 0xF0 && is_page(length)
        }
        _ => false,
    }
}

/// Whether it begins as an archive does.
fn begins_as_archive(front: &[u8]) -> bool
    ensures { result ≡ spec.begins_as_archive front.now }
{
    front.starts_with(b"!<arch>\n") || front.starts_with(b"!<thin>\n")
}

/// Whether it begins as a module does, or as a library or an archive.
pub fn begins_as_input(front: &[u8]) -> bool
    ensures { result ≡ spec.begins_as_input front.now }
{
    begins_as_module(front) || begins_as_library(front) || begins_as_archive(front)
}

/// Whether a regular file stands at the path that begins as a module does, or as a library or an archive. What can't be
/// read doesn't.
pub fn stands_as_input<W: World>(world: &W, path: &str) -> bool
    ensures begins { IsTrue result → IfSome (W.bytes world.now path.now) spec.BeginsAsInput }
    ensures regular { IsTrue result → IfSome (W.looks world.now) (λ looks. spec.stands_regular looks path.now ≡ true) }
{
    match world.look(path) {
        Ok(looked) if looked.kind == PlaceKind::Regular => {}
        _ => return false,
    }
    let Ok(mut file) = world.open(path) else {
        return false;
    };
    let mut front = [0u8; FRONT];
    match file.read(&mut front) {
        Ok(n) => begins_as_input(&front[..n]),
        Err(_) => false,
    }
}

/// Whether a regular file stands at the path that is one of these, whatever the paths that led to them.
pub fn is_one_of<W: World, A: Allocator>(world: &W, path: &str, files: &BTreeSet<FileId, A>) -> bool
    ensures { IfSome (W.looks world.now) (λ looks. result ≡ spec.is_one_of looks path.now (spec.has_file files.now)) }
{
    match world.look(path) {
        Ok(looked) => looked.kind == PlaceKind::Regular && files.contains(&looked.id),
        Err(_) => false,
    }
}

/// A path as a folder, which ends at the last of these characters, and the name of a file in it.
fn parts_at(border: char, path: &str) -> (&str, &str)
    requires { border < 128 }
    ensures { (result.0.now, result.1.now) ≡ spec.parts_at border path.now }
{
    match path.rfind(border) {
        Some(last) => (&path[..last + 1], &path[last + 1..]),
        None => (".", path),
    }
}

/// Of two ways to part a path the one with the shorter name.
fn nearer<'p>(one: (&'p str, &'p str), other: (&'p str, &'p str)) -> (&'p str, &'p str)
    ensures { (result.0.now, result.1.now)
        ≡ spec.nearer (one.entry.0.now, one.entry.1.now) (other.entry.0.now, other.entry.1.now) }
{
    if one.1.len() <= other.1.len() {
        one
    } else {
        other
    }
}

/// A path as a folder, which ends at its last `/`, `\` or `:`, and the name of a file in it.
fn parts(path: &str) -> (&str, &str)
    ensures { (result.0.now, result.1.now) ≡ spec.parts path.now }
{
    nearer(
        parts_at('/', path),
        nearer(parts_at('\\', path), parts_at(':', path)),
    )
}

/// Whether two files that are written at these paths would be one: the paths are the same, a regular file stands at
/// both, or nothing stands at either, and they have one name in one folder.
pub fn is_one_place<W: World>(world: &W, one: &str, other: &str) -> bool
    ensures { IfSome (W.looks world.now) (λ looks. result ≡ spec.is_one_place looks one.now other.now) }
{
    if one == other {
        return true;
    }
    match (world.look(one), world.look(other)) {
        (Ok(first), Ok(second)) => first.kind == PlaceKind::Regular && first.id == second.id,
        (Err(_), Err(_)) => {
            is_one_name(world, parts_at('/', one), parts_at('/', other))
                || is_one_name(world, parts(one), parts(other))
        }
        _ => false,
    }
}

/// Whether two names, each behind its folder, are one in one folder.
fn is_one_name<W: World>(world: &W, one: (&str, &str), other: (&str, &str)) -> bool
    ensures { IfSome (W.looks world.now)
        (λ looks. result ≡ spec.is_one_name looks (one.entry.0.now, one.entry.1.now)
        (other.entry.0.now, other.entry.1.now)) }
{
    match (world.look(one.0), world.look(other.0)) {
        (Ok(first), Ok(second)) => first.id == second.id && one.1 == other.1,
        _ => false,
    }
}
