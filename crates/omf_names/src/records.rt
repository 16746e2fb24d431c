//! The module that says of names what no other does, as bytes.

ghost use Rattle.std.specs.Prelude.{◌≡◌, ◌+◌, ◌++◌, ◌≤◌, ℕ, IfOk, length, List, map, OnOk, take};
ghost use Rattle.std.specs.declared.option.Option as maybe;
ghost use Rattle.std.specs.List.{flat_map};
ghost use Rattle.std.specs.Option.{option_map, option_to_list};
ghost use Rattle.omf_frame.specs.Frame.{frame};
ghost use Rattle.omf_names.specs.Records as spec;
ghost use Rattle.omf_names.specs.Views.{aliases_said, names_said};

use omf_frame::closing;
use std::alloc::{AllocError, Allocator};

/// The types of the records.
const THEADR: u8 = 0x80;

const EXTDEF: u8 = 0x8C;

const ALIAS: u8 = 0xC6;

const MODEND: u8 = 0x8A;

/// The greatest length of a name in a module.
const MOST_BYTES: usize = 255;

/// The name of the module.
const NAME: &str = "directives";

/// Appends a record of this type and body.
fn put_record<A: Allocator + Copy>(
    kind: u8,
    body: &[u8],
    out: &mut Vec<u8, A>,
) -> Result<(), AllocError>
    requires { length body.now ≤ 65534 }
    ensures { OnOk result (out.new.items ≡ out.old.items ++ frame kind body.now) }
{
    let length = body.len() + 1;
    out.extend_from_slice(&[kind, (length % 256) as u8, (length / 256) as u8])?;
    out.extend_from_slice(body)?;
    out.push(closing(kind, body))?;
    Ok(())
}

/// The first bytes of a name, as many as one in a module can have.
fn front(text: &str) -> &[u8]
    ensures front { result.now ≡ take 255 text.now }
    ensures short { length result.now ≤ 255 }
{
    let bytes = text.as_bytes();
    let size = MOST_BYTES.min(bytes.len());
    &bytes[..size]
}

/// Appends a name with its length; of a longer one than a module can have its first 255 bytes.
fn put_name<A: Allocator + Copy>(text: &str, out: &mut Vec<u8, A>) -> Result<(), AllocError>
    ensures name { OnOk result (out.new.items ≡ out.old.items ++ spec.name text.now) }
    ensures short { OnOk result (length out.new.items ≤ length out.old.items + 256) }
{
    let bytes = front(text);
    out.push(bytes.len() as u8)?;
    out.extend_from_slice(bytes)?;
    Ok(())
}

/// Appends the header.
fn put_header<A: Allocator + Copy>(alloc: A, out: &mut Vec<u8, A>) -> Result<(), AllocError>
    ensures { OnOk result (out.new.items ≡ out.old.items ++ spec.header_record) }
{
    let mut body = Vec::new(alloc);
    put_name(NAME, &mut body)?;
    put_record(THEADR, &body, out)
}

/// Appends an external of this name.
fn put_external<A: Allocator + Copy>(
    alloc: A,
    text: &str,
    out: &mut Vec<u8, A>,
) -> Result<(), AllocError>
    ensures { OnOk result (out.new.items ≡ out.old.items ++ spec.external_record text.now) }
{
    let mut body = Vec::new(alloc);
    put_name(text, &mut body)?;
    body.push(0)?;
    put_record(EXTDEF, &body, out)
}

/// Appends externals of these names.
fn put_externals<A: Allocator + Copy>(
    alloc: A,
    texts: &[&str],
    out: &mut Vec<u8, A>,
) -> Result<(), AllocError>
    ensures { OnOk result
        (out.new.items ≡ out.old.items ++ flat_map spec.external_record (names_said texts.now)) }
{
    for text in texts {
        put_external(alloc, text, out)?;
    }
    Ok(())
}

/// Appends the external at which the program starts, where one is told.
fn put_start<A: Allocator + Copy>(
    alloc: A,
    start: Option<&str>,
    out: &mut Vec<u8, A>,
) -> Result<(), AllocError>
    ensures { OnOk result (out.new.items ≡ out.old.items
        ++ flat_map spec.external_record (option_to_list (option_map (λ s. s.now) start.entry))) }
{
    match start {
        Some(text) => put_external(alloc, text, out),
        None => Ok(()),
    }
}

/// Appends an alias: a name, and the one that it stands for.
fn put_alias<A: Allocator + Copy>(
    alloc: A,
    text: &str,
    means: &str,
    out: &mut Vec<u8, A>,
) -> Result<(), AllocError>
    ensures { OnOk result (out.new.items ≡ out.old.items ++ spec.alias_record (text.now, means.now)) }
{
    let mut body = Vec::new(alloc);
    put_name(text, &mut body)?;
    put_name(means, &mut body)?;
    put_record(ALIAS, &body, out)
}

/// Appends aliases.
fn put_aliases<A: Allocator + Copy>(
    alloc: A,
    aliases: &[(&str, &str)],
    out: &mut Vec<u8, A>,
) -> Result<(), AllocError>
    ensures { OnOk result
        (out.new.items ≡ out.old.items ++ flat_map spec.alias_record (aliases_said aliases.now)) }
{
    for alias in aliases {
        put_alias(alloc, alias.0, alias.1, out)?;
    }
    Ok(())
}

/// Appends the end of a module, which has a start or none.
fn put_end<A: Allocator + Copy>(
    has_start: Option<&str>,
    out: &mut Vec<u8, A>,
) -> Result<(), AllocError>
    ensures { OnOk result
        (out.new.items ≡ out.old.items ++ spec.end_record (option_map (λ s. s.now) has_start.entry)) }
{
    match has_start {
        Some(_) => put_record(MODEND, &[0xC1, 0x52, 1, 0, 0], out),
        None => put_record(MODEND, &[0], out),
    }
}

/// The bytes of a module in which the program starts at a public, where one is told, which wants these names as an
/// external wants its own, and in which each alias has a name and the one that it stands for. A name has 255 bytes at
/// most: of a longer one the first 255 count.
pub fn names_module<A: Allocator + Copy>(
    alloc: A,
    start: Option<&str>,
    wanted: &[&str],
    aliases: &[(&str, &str)],
) -> Result<Vec<u8, A>, AllocError>
    ensures { IfOk result (λ v. v.items ≡ spec.names_module (option_map (λ s. s.now) start.entry)
        (names_said wanted.now) (aliases_said aliases.now)) }
{
    let mut out = Vec::new(alloc);
    put_header(alloc, &mut out)?;
    put_start(alloc, start, &mut out)?;
    put_externals(alloc, wanted, &mut out)?;
    put_aliases(alloc, aliases, &mut out)?;
    put_end(start, &mut out)?;
    Ok(out)
}
