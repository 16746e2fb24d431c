//! The names that mark the begin and the end of what a program has without data.

ghost use Rattle.std.specs.Prelude.{◌≡◌, ◌++◌, ◌&&◌, [], ◌∷◌, IfOk, OnOk, not};
ghost use Rattle.omf_order.specs.Marks as marks;
ghost use Rattle.omf_order.specs.inside.Held.{names_view};
ghost use Rattle.omf_place.specs.Names.{agrees};

use omf_module::{ExternalSymbol, Module, PublicSymbol};
use omf_place::Names;
use std::alloc::{AllocError, Allocator};

/// Whether two names agree.
fn agree(names: Names, one: &[u8], other: &[u8]) -> bool
    ensures { result ≡ agrees names one.now other.now }
{
    match names {
        Names::Exact => one == other,
        Names::AsciiFolded => one.eq_ignore_ascii_case(other),
    }
}

/// Whether an external name is this one, wanted of others.
fn is_asked(external: ExternalSymbol<'_>, names: Names, name: &[u8]) -> bool
    ensures { result ≡ (not external.entry.local && agrees names external.entry.name.now name.now) }
{
    !external.local && agree(names, external.name, name)
}

/// Whether a public name is this one, defined for others.
fn is_offered(public: PublicSymbol<'_>, names: Names, name: &[u8]) -> bool
    ensures { result ≡ (not public.entry.local && agrees names public.entry.name.now name.now) }
{
    !public.local && agree(names, public.name, name)
}

/// Whether a module wants the name of others.
fn is_external<A: Allocator + Copy>(from: &Module<A>, names: Names, name: &[u8]) -> bool
    ensures { result ≡ marks.is_external names name.now from.now }
{
    for index in 0..from.external_count() {
        let external = from.external(index);
        if is_asked(external, names, name) {
            return true;
        }
    }
    false
}

/// Whether a module defines the name for others.
fn is_public<A: Allocator + Copy>(from: &Module<A>, names: Names, name: &[u8]) -> bool
    ensures { result ≡ marks.is_public names name.now from.now }
{
    for index in 0..from.public_symbol_count() {
        let public = from.public_symbol(index);
        if is_offered(public, names, name) {
            return true;
        }
    }
    false
}

/// Whether some module wants the name and none defines it.
fn is_wanted<A: Allocator + Copy>(modules: &[Module<A>], names: Names, name: &[u8]) -> bool
    ensures { result ≡ marks.is_wanted names modules.now name.now }
{
    let mut wanted = false;
    for each in modules {
        if is_public(each, names, name) {
            return false;
        }
        wanted |= is_external(each, names, name);
    }
    wanted
}

/// Adds the name, if some module wants it and none defines it.
fn push_wanted<'a, A: Allocator + Copy>(
    wanted: &mut Vec<&'a [u8], A>,
    modules: &[Module<A>],
    names: Names,
    name: &'a [u8],
) -> Result<(), AllocError>
    ensures { OnOk result (names_view wanted.new.items ≡
        names_view wanted.old.items ++ marks.wanted names modules.now (name.now ∷ [])) }
{
    if is_wanted(modules, names, name) {
        wanted.push(name)?;
    }
    Ok(())
}

/// Those of two names that some module wants and none defines.
pub(crate) fn wanted_names<'a, A: Allocator + Copy>(
    alloc: A,
    modules: &[Module<A>],
    names: Names,
    one: &'a [u8],
    other: &'a [u8],
) -> Result<Vec<&'a [u8], A>, AllocError>
    ensures { IfOk result (λ v. names_view v.items ≡
        marks.wanted names modules.now (one.now ∷ other.now ∷ [])) }
{
    let mut wanted = Vec::new(alloc);
    push_wanted(&mut wanted, modules, names, one)?;
    push_wanted(&mut wanted, modules, names, other)?;
    Ok(wanted)
}
