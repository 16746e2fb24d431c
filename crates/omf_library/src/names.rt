//! The names of a module, by its records' frames alone.

ghost use Rattle.std.specs.Prelude.{◌≡◌, ◌++◌, ◌||◌, filter, is_some, map, not, IfOk, OnOk};
ghost use Rattle.omf_frame.specs.Lending.{plain_frame};
ghost use Rattle.omf_library.specs.Records.{comment_text, module_records};
ghost use Rattle.omf_library.specs.Listed.{listed_in};
ghost use Rattle.omf_library.specs.Names.{texts, wanted_in, offered_in, library_in};
ghost use Rattle.omf_library.specs.Names.{public_names, comdat_names, communals_in};
ghost use Rattle.omf_library.specs.Names.{external_names, wanted_names, needed_names};
ghost use Rattle.omf_library.specs.Names.{communal_names, offered_names, library_names, asks_dosseg};
ghost use Rattle.omf_library.specs.Aliases.{aliases_in, aliases_of};
ghost use Rattle.omf_library.specs.Said.{aliases_said};
ghost use Rattle.omf_library.specs.Defaults as spec;

use crate::aliases::{Alias, push_aliases};
use crate::defaults::{names_but, weak_and_lazy, weak_externals};
use crate::entries::{Entry, behind_base, comdat_name, listed_name, push_communal, push_names};
use crate::records::{comment_text, module_frames};
use omf_frame::Frame;
use std::alloc::{AllocError, Allocator, Global};

/// The classes of a comment with the name of a default library; the older one was for it before.
const DEFAULT_LIBRARY: u8 = 0x9F;

const OLD_DEFAULT_LIBRARY: u8 = 0x81;

/// The class of a comment that asks for the DOSSEG order.
const DOSSEG: u8 = 0x9E;

/// What a module says of names, in the order of its records; each a part of the module's bytes.
#[derive(Drop)]
pub struct ModuleNames<'a, A: Allocator + Copy = Global> {
    /// The names that it wants from other modules: not those of weak externals alone. One may stand more than once.
    pub wanted: Vec<&'a [u8], A>,
    /// Those of them that another one has to define: not those of lazy externals alone either.
    pub needed: Vec<&'a [u8], A>,
    /// The names of all externals that other modules may define, of weak and lazy ones too.
    pub externals: Vec<&'a [u8], A>,
    /// The names that it offers to other modules.
    pub offered: Vec<&'a [u8], A>,
    /// The communal variables that it declares.
    pub communals: Vec<&'a [u8], A>,
    /// The names that it has for others. It offers them; what they stand for isn't among the wanted names.
    pub aliases: Vec<Alias<'a>, A>,
    /// The default libraries that its comments name.
    pub libraries: Vec<&'a [u8], A>,
    /// Whether a comment asks for the DOSSEG order of segments.
    pub dosseg: bool,
}

/// Appends the names that a record adds to the list of names: LNAMES and LLNAMES.
#[tactic(auto, unfolding(crate::specs::Listed::listed_in))]
pub fn push_listed<'a, A: Allocator + Copy>(
    frame: &Frame<'a>,
    listed: &mut Vec<&'a [u8], A>,
) -> Result<(), AllocError>
    ensures { OnOk result (texts listed.new.items
        ≡ texts listed.old.items ++ listed_in (plain_frame frame.now)) }
{
    match frame.kind {
        0x96 | 0xCA => push_names(Entry::Listed, frame.body, listed),
        _ => Ok(()),
    }
}

/// Appends the names that a record wants: those of EXTDEF and CEXTDEF.
#[tactic(auto, unfolding(crate::specs::Names::wanted_in))]
pub(crate) fn push_wanted<'a, A: Allocator + Copy>(
    frame: &Frame<'a>,
    listed: &[&'a [u8]],
    wanted: &mut Vec<&'a [u8], A>,
) -> Result<(), AllocError>
    ensures { OnOk result (texts wanted.new.items
        ≡ texts wanted.old.items ++ wanted_in (texts listed.now) (plain_frame frame.now)) }
{
    match frame.kind {
        0x8C => push_names(Entry::External, frame.body, wanted),
        0xBC => push_communal(listed, frame.body, wanted),
        _ => Ok(()),
    }
}

/// Appends the names that a record offers: those of PUBDEF, that of COMDAT unless it is local, and those of ALIAS.
#[tactic(auto, unfolding(crate::specs::Names::offered_in))]
fn push_offered<'a, A: Allocator + Copy>(
    frame: &Frame<'a>,
    listed: &[&'a [u8]],
    offered: &mut Vec<&'a [u8], A>,
) -> Result<(), AllocError>
    ensures { OnOk result (texts offered.new.items
        ≡ texts offered.old.items ++ offered_in (texts listed.now) (plain_frame frame.now)) }
{
    match frame.kind {
        0x90 => push_publics(2, frame.body, offered),
        0x91 => push_publics(4, frame.body, offered),
        0xC2 => push_comdat(2, frame.body, listed, offered),
        0xC3 => push_comdat(4, frame.body, listed, offered),
        0xC6 => push_names(Entry::Alias, frame.body, offered),
        _ => Ok(()),
    }
}

/// Appends the names of a PUBDEF's body, whose offsets have so many bytes.
pub fn push_publics<'a, A: Allocator + Copy>(
    offset: usize,
    body: &'a [u8],
    offered: &mut Vec<&'a [u8], A>,
) -> Result<(), AllocError>
    ensures { OnOk result (texts offered.new.items ≡ texts offered.old.items ++ public_names offset body.now) }
{
    match behind_base(body) {
        Some(entries) => push_names(Entry::Public { offset }, entries, offered),
        None => Ok(()),
    }
}

/// Appends the name of a COMDAT's body, whose offset has so many bytes, unless it is local.
fn push_comdat<'a, A: Allocator + Copy>(
    offset: usize,
    body: &[u8],
    listed: &[&'a [u8]],
    offered: &mut Vec<&'a [u8], A>,
) -> Result<(), AllocError>
    ensures { OnOk result (texts offered.new.items
        ≡ texts offered.old.items ++ comdat_names offset (texts listed.now) body.now) }
{
    if let Some(index) = comdat_name(offset, body)
        && let Some(name) = listed_name(listed, index)
    {
        offered.push(name)?;
    }
    Ok(())
}

/// Appends the communal variables that a record declares: COMDEF.
#[tactic(auto, unfolding(crate::specs::Names::communals_in))]
fn push_communals<'a, A: Allocator + Copy>(
    frame: &Frame<'a>,
    communals: &mut Vec<&'a [u8], A>,
) -> Result<(), AllocError>
    ensures { OnOk result (texts communals.new.items
        ≡ texts communals.old.items ++ communals_in (plain_frame frame.now)) }
{
    match frame.kind {
        0xB0 => push_names(Entry::Variable, frame.body, communals),
        _ => Ok(()),
    }
}

/// Appends the default library that a record names.
#[tactic(auto, unfolding(crate::specs::Names::library_in))]
fn push_library<'a, A: Allocator + Copy>(
    frame: &Frame<'a>,
    libraries: &mut Vec<&'a [u8], A>,
) -> Result<(), AllocError>
    ensures { OnOk result (texts libraries.new.items
        ≡ texts libraries.old.items ++ library_in (plain_frame frame.now)) }
{
    let text = comment_text(frame, DEFAULT_LIBRARY).or(comment_text(frame, OLD_DEFAULT_LIBRARY));
    if let Some(name) = text {
        libraries.push(name)?;
    }
    Ok(())
}

/// Whether a record asks for the DOSSEG order.
fn is_dosseg(frame: &Frame<'_>) -> bool
    ensures { result ≡ is_some (comment_text 0x9E (plain_frame frame.now)) }
{
    comment_text(frame, DOSSEG).is_some()
}

/// Adds what a record says of names, by those that are listed before it.
fn add_names<'a, A: Allocator + Copy>(
    frame: &Frame<'a>,
    listed: &mut Vec<&'a [u8], A>,
    said: &mut ModuleNames<'a, A>,
) -> Result<(), AllocError>
    ensures listed { OnOk result (texts listed.new.items
        ≡ texts listed.old.items ++ listed_in (plain_frame frame.now)) }
    ensures externals { OnOk result (texts said.new.externals.items
        ≡ texts said.old.externals.items ++ wanted_in (texts listed.old.items) (plain_frame frame.now)) }
    ensures offered { OnOk result (texts said.new.offered.items
        ≡ texts said.old.offered.items ++ offered_in (texts listed.old.items) (plain_frame frame.now)) }
    ensures communals { OnOk result (texts said.new.communals.items
        ≡ texts said.old.communals.items ++ communals_in (plain_frame frame.now)) }
    ensures aliases { OnOk result (aliases_said said.new.aliases.items
        ≡ aliases_said said.old.aliases.items ++ aliases_in (plain_frame frame.now)) }
    ensures libraries { OnOk result (texts said.new.libraries.items
        ≡ texts said.old.libraries.items ++ library_in (plain_frame frame.now)) }
    ensures dosseg { OnOk result (said.new.dosseg
        ≡ (said.old.dosseg || is_some (comment_text 0x9E (plain_frame frame.now)))) }
{
    push_wanted(frame, listed, &mut said.externals)?;
    push_offered(frame, listed, &mut said.offered)?;
    push_communals(frame, &mut said.communals)?;
    push_aliases(frame, &mut said.aliases)?;
    push_library(frame, &mut said.libraries)?;
    said.dosseg |= is_dosseg(frame);
    push_listed(frame, listed)
}

/// The names of a module's records. None is among the wanted ones, nor among the needed ones.
fn all_names<'a, A: Allocator + Copy>(
    alloc: A,
    frames: &[Frame<'a>],
) -> Result<ModuleNames<'a, A>, AllocError>
    ensures externals { IfOk result (λ said.
        texts said.externals.items ≡ external_names (map plain_frame frames.now)) }
    ensures offered { IfOk result (λ said. texts said.offered.items ≡ offered_names (map plain_frame frames.now)) }
    ensures communals { IfOk result (λ said.
        texts said.communals.items ≡ communal_names (map plain_frame frames.now)) }
    ensures aliases { IfOk result (λ said. aliases_said said.aliases.items ≡ aliases_of (map plain_frame frames.now)) }
    ensures libraries { IfOk result (λ said.
        texts said.libraries.items ≡ library_names (map plain_frame frames.now)) }
    ensures dosseg { IfOk result (λ said. said.dosseg ≡ asks_dosseg (map plain_frame frames.now)) }
{
    let mut said = ModuleNames {
        wanted: Vec::new(alloc),
        needed: Vec::new(alloc),
        externals: Vec::new(alloc),
        offered: Vec::new(alloc),
        communals: Vec::new(alloc),
        aliases: Vec::new(alloc),
        libraries: Vec::new(alloc),
        dosseg: false,
    };
    let mut listed = Vec::new(alloc);
    for frame in frames {
        add_names(frame, &mut listed, &mut said)?;
    }
    Ok(said)
}

/// Those names of a module that aren't names of weak externals alone.
fn wanted_of<'a, A: Allocator + Copy>(
    alloc: A,
    frames: &[Frame<'a>],
    names: &[&'a [u8]],
) -> Result<Vec<&'a [u8], A>, AllocError>
    ensures { IfOk result (λ v. texts v.items ≡ filter (λ name. not (spec.is_theirs_alone
        (spec.weak_externals (map plain_frame frames.now)) (map plain_frame frames.now) name)) (texts names.now)) }
{
    let weak = weak_externals(alloc, frames)?;
    names_but(alloc, &weak, frames, names)
}

/// Those names of a module that aren't names of weak and lazy externals alone.
fn needed_of<'a, A: Allocator + Copy>(
    alloc: A,
    frames: &[Frame<'a>],
    names: &[&'a [u8]],
) -> Result<Vec<&'a [u8], A>, AllocError>
    ensures { IfOk result (λ v. texts v.items ≡ filter (λ name. not (spec.is_theirs_alone
        (spec.weak_and_lazy (map plain_frame frames.now)) (map plain_frame frames.now) name)) (texts names.now)) }
{
    let defaulted = weak_and_lazy(alloc, frames)?;
    names_but(alloc, &defaulted, frames, names)
}

/// The names of the module whose records begin the bytes, up to the first record that ends a module, or before the
/// first that is at fault.
pub fn module_names<'a, A: Allocator + Copy>(
    alloc: A,
    bytes: &'a [u8],
) -> Result<ModuleNames<'a, A>, AllocError>
    ensures wanted { IfOk result (λ said. texts said.wanted.items ≡ wanted_names (module_records bytes.now 0)) }
    ensures needed { IfOk result (λ said. texts said.needed.items ≡ needed_names (module_records bytes.now 0)) }
    ensures externals { IfOk result (λ said.
        texts said.externals.items ≡ external_names (module_records bytes.now 0)) }
    ensures offered { IfOk result (λ said. texts said.offered.items ≡ offered_names (module_records bytes.now 0)) }
    ensures communals { IfOk result (λ said.
        texts said.communals.items ≡ communal_names (module_records bytes.now 0)) }
    ensures aliases { IfOk result (λ said. aliases_said said.aliases.items ≡ aliases_of (module_records bytes.now 0)) }
    ensures libraries { IfOk result (λ said. texts said.libraries.items ≡ library_names (module_records bytes.now 0)) }
    ensures dosseg { IfOk result (λ said. said.dosseg ≡ asks_dosseg (module_records bytes.now 0)) }
{
    let frames = module_frames(alloc, bytes)?;
    let mut said = all_names(alloc, &frames)?;
    said.needed = needed_of(alloc, &frames, &said.externals)?;
    said.wanted = wanted_of(alloc, &frames, &said.externals)?;
    Ok(said)
}
