//! The names that more than one public of a program has, and their lines.
ghost use Rattle.std.specs.Prelude.{◌≡◌, ◌≤◌, ◌-◌, ◌++◌, ◌∷◌, [], List, IfOk, OnOk, cond, length, map, slice_get};
ghost use Rattle.std.specs.Prelude.{take};
ghost use Rattle.std.specs.Bool.{then_some};
ghost use Rattle.std.specs.List.{flat_map};
ghost use Rattle.std.specs.Option.{unwrap_or};
ghost use Rattle.omf_module.specs.Seen.{public_seen};
ghost use Rattle.omf_place.specs.Names.{spelled};
ghost use Rattle.omf_search.specs.Results.{bytes_of};
ghost use Rattle.doslink_telling.specs.Duplicates as spec;
ghost use Rattle.doslink_telling.specs.inside.Duplicates.{IsIndex, duplicate_said, occurrence_of, places_at};
ghost use Rattle.doslink_telling.specs.inside.Duplicates.{public_said, same_key};

use crate::limit::{push_rest, told_count};
use crate::lines::push_named;
use crate::mapping::slice_at;
use crate::warnings::push_counted;
use omf_module::{Module, PublicSymbol};
use omf_place::Names;
use std::alloc::{AllocError, Allocator};
use std::collections::BTreeMap;

/// A public of a program.
#[derive(Drop)]
struct Public<'m, A: Allocator + Copy> {
    /// The index of the module that it is local to: none where all modules know it.
    owner: Option<usize>,
    /// What of its name counts.
    spelled: Vec<u8, A>,
    name: &'m [u8],
    /// The index of its module.
    input: usize,
}

/// What tells the publics of one name from others.
#[derive(Clone, Copy, PartialEq, Eq, PartialOrd, Ord)]
struct PublicKey<'p> {
    owner: Option<usize>,
    spelled: &'p [u8],
}

/// Where a public stands among all, and the index of its module.
#[derive(Clone, Copy)]
struct Occurrence {
    place: usize,
    input: usize,
}

/// The second public of a name, with its place among all.
#[derive(Drop)]
struct Duplicate<'p, 'm, A: Allocator + Copy> {
    place: usize,
    public: &'p Public<'m, A>,
}

/// Where the publics of each name are.
type Places<'p, A> = BTreeMap<PublicKey<'p>, Vec<Occurrence, A>, A>;

/// What of a name counts.
pub(crate) fn spelled_name<A: Allocator + Copy>(
    alloc: A,
    names: Names,
    name: &[u8],
) -> Result<Vec<u8, A>, AllocError>
    ensures { IfOk result (λ v. v.items ≡ spelled names name.now) }
{
    let mut bytes = Vec::from_slice(alloc, name)?;
    if matches!(names, Names::AsciiFolded) {
        bytes.as_mut_slice().make_ascii_lowercase();
    }
    Ok(bytes)
}

/// A public of the module with this index.
fn public_of<'m, A: Allocator + Copy>(
    alloc: A,
    names: Names,
    input: usize,
    symbol: PublicSymbol<'m>,
) -> Result<Public<'m, A>, AllocError>
    ensures { IfOk result (λ p. public_said p ≡ spec.public_of names input (public_seen symbol.entry)) }
{
    let spelled = spelled_name(alloc, names, symbol.name)?;
    Ok(Public {
        owner: if symbol.local { Some(input) } else { None },
        spelled,
        name: symbol.name,
        input,
    })
}

/// Appends the publics of the module with this index.
fn push_publics<'m, A: Allocator + Copy>(
    alloc: A,
    names: Names,
    input: usize,
    from: &'m Module<A>,
    publics: &mut Vec<Public<'m, A>, A>,
) -> Result<(), AllocError>
    ensures { OnOk result (map public_said publics.new.items
        ≡ map public_said publics.old.items ++ spec.publics_of names (input, from.now)) }
{
    for index in 0..from.public_symbol_count() {
        let public = public_of(alloc, names, input, from.public_symbol(index))?;
        publics.push(public)?;
    }
    Ok(())
}

/// The publics of a program, in order of modules and records.
fn all_publics<'m, A: Allocator + Copy>(
    alloc: A,
    names: Names,
    modules: &'m [Module<A>],
) -> Result<Vec<Public<'m, A>, A>, AllocError>
    ensures { IfOk result (λ v. map public_said v.items ≡ spec.all_publics names modules.now) }
{
    let mut publics = Vec::new(alloc);
    for (input, from) in modules.iter().enumerate() {
        push_publics(alloc, names, input, from, &mut publics)?;
    }
    Ok(publics)
}

/// The key of a public.
fn key_of<'p, A: Allocator + Copy>(public: &'p Public<'_, A>) -> PublicKey<'p>
    ensures owner { result.owner ≡ public.now.owner }
    ensures spelled { result.spelled.now ≡ public.now.spelled.items }
{
    PublicKey {
        owner: public.owner,
        spelled: &public.spelled,
    }
}

/// Adds where a public is behind the others of its key.
fn add_place<'p, A: Allocator + Copy>(
    alloc: A,
    places: &mut Places<'p, A>,
    key: PublicKey<'p>,
    at: Occurrence,
) -> Result<(), AllocError>
    ensures { OnOk result ((k : PublicKey) → places_at places.new k
        ≡ places_at places.old k ++ cond (same_key k key.entry) (at ∷ []) []) }
{
    let mut all = match places.remove(&key) {
        Some(all) => all,
        None => Vec::new(alloc),
    };
    all.push(at)?;
    places.insert(key, all)?;
    Ok(())
}

/// Where the publics of each name are.
fn places_of<'p, A: Allocator + Copy>(
    alloc: A,
    publics: &'p [Public<'_, A>],
) -> Result<Places<'p, A>, AllocError>
    ensures { IfOk result (IsIndex (map public_said publics.now)) }
{
    let mut places = BTreeMap::new(alloc);
    for (place, public) in publics.iter().enumerate() {
        let input = public.input;
        add_place(
            alloc,
            &mut places,
            key_of(public),
            Occurrence { place, input },
        )?;
    }
    Ok(places)
}

/// Where the publics of the name of one are.
fn same_places<'i, 'p, A: Allocator + Copy>(
    places: &'i Places<'p, A>,
    public: &'p Public<'_, A>,
) -> &'i [Occurrence]
    ensures { (all : List spec.Public) → IsIndex all places.now
        → result.now ≡ map occurrence_of (spec.same_ones all (public_said public.now)) }
{
    match places.get(&key_of(public)) {
        Some(found) => found.as_slice(),
        None => &[],
    }
}

/// Whether the second of these stands at a place.
fn is_second(same: &[Occurrence], place: usize) -> bool
    ensures { (all : List spec.Public) (p : spec.Public) → same.now ≡ map occurrence_of (spec.same_ones all p)
        → result ≡ spec.is_second all (place, p) }
{
    match same.get(1) {
        Some(second) => second.place == place,
        None => false,
    }
}

/// The second public of each name that more than one has, in order.
fn duplicates<'p, 'm, A: Allocator + Copy>(
    alloc: A,
    publics: &'p [Public<'m, A>],
    places: &Places<'p, A>,
) -> Result<Vec<Duplicate<'p, 'm, A>, A>, AllocError>
    requires { IsIndex (map public_said publics.now) places.now }
    ensures { IfOk result (λ v. map duplicate_said v.items ≡ spec.duplicates (map public_said publics.now)) }
{
    let mut found = Vec::new(alloc);
    for (place, public) in publics.iter().enumerate() {
        if is_second(same_places(places, public), place) {
            found.push(Duplicate { place, public })?;
        }
    }
    Ok(found)
}

/// The words for the modules of some publics.
fn words_of<'w, A: Allocator + Copy>(
    alloc: A,
    same: &[Occurrence],
    words: &[&'w [u8]],
) -> Result<Vec<&'w [u8], A>, AllocError>
    ensures { IfOk result (λ v. bytes_of v.items
        ≡ map (λ o. unwrap_or (slice_get (bytes_of words.now) o.input) []) same.now) }
{
    let mut all = Vec::new(alloc);
    for each in same {
        all.push(slice_at(words, each.input))?;
    }
    Ok(all)
}

/// How many more there are, as a word behind others.
fn rest_word<A: Allocator + Copy>(alloc: A, count: usize) -> Result<Vec<u8, A>, AllocError>
    ensures { IfOk result (λ word. word.items ≡ spec.rest_word count) }
{
    let mut word = Vec::new(alloc);
    push_counted(&mut word, "", count as u64, " more")?;
    Ok(word)
}

/// The words for the modules of the first of some publics, and behind them one for the rest, where there are more.
fn told_words<'w, A: Allocator + Copy>(
    alloc: A,
    same: &[Occurrence],
    told: usize,
    words: &[&'w [u8]],
    rest: &'w [u8],
) -> Result<Vec<&'w [u8], A>, AllocError>
    requires { told ≤ length same.now }
    ensures { IfOk result (λ v. bytes_of v.items
        ≡ map (λ o. unwrap_or (slice_get (bytes_of words.now) o.input) []) (take told same.now)
        ++ spec.if_any (length same.now - told) rest.now) }
{
    let mut all = words_of(alloc, &same[..told], words)?;
    if told == same.len() {
        return Ok(all);
    }
    all.push(rest)?;
    Ok(all)
}

/// Appends the line of a name that more than one public has.
fn push_duplicate<'p, 'm, A: Allocator + Copy>(
    alloc: A,
    lines: &mut Vec<u8, A>,
    places: &Places<'p, A>,
    duplicate: &Duplicate<'p, 'm, A>,
    words: &[&[u8]],
    tells_all: bool,
) -> Result<(), AllocError>
    ensures { OnOk result ((all : List spec.Public) → IsIndex all places.now → lines.new.items
        ≡ lines.old.items ++ spec.duplicate_line (bytes_of words.now) all tells_all (duplicate_said duplicate.now)) }
{
    let same = same_places(places, duplicate.public);
    let told = told_count(same.len(), tells_all);
    let rest = rest_word(alloc, same.len() - told)?;
    let found = told_words(alloc, same, told, words, &rest)?;
    let name = duplicate.public.name;
    push_named(lines, (25, "DuplicatePublic"), name, &found)
}

/// Appends a line for each of some names that more than one public has.
fn push_told<'p, 'm, A: Allocator + Copy>(
    alloc: A,
    lines: &mut Vec<u8, A>,
    places: &Places<'p, A>,
    told: &[Duplicate<'p, 'm, A>],
    words: &[&[u8]],
    tells_all: bool,
) -> Result<(), AllocError>
    ensures { OnOk result ((all : List spec.Public) → IsIndex all places.now → lines.new.items
        ≡ lines.old.items
        ++ flat_map (spec.duplicate_line (bytes_of words.now) all tells_all) (map duplicate_said told.now)) }
{
    for each in told {
        push_duplicate(alloc, lines, places, each, words, tells_all)?;
    }
    Ok(())
}

/// Appends a line for each of the names that more than one public has, or for the first of them and how many more
/// there are.
fn push_found<'p, 'm, A: Allocator + Copy>(
    alloc: A,
    lines: &mut Vec<u8, A>,
    places: &Places<'p, A>,
    found: &[Duplicate<'p, 'm, A>],
    words: &[&[u8]],
    tells_all: bool,
) -> Result<(), AllocError>
    ensures { OnOk result ((all : List spec.Public) → IsIndex all places.now → lines.new.items
        ≡ lines.old.items
        ++ spec.lines_of (bytes_of words.now) all (map duplicate_said found.now) tells_all) }
{
    let told = told_count(found.len(), tells_all);
    push_told(alloc, lines, places, &found[..told], words, tells_all)?;
    push_rest(lines, found.len() - told)
}

/// Appends a line for each name that more than one public of modules has, or for the first 20 and how many more there
/// are (fault 25): the name, and the words for all modules that have it, each as often as it does, or for the first 20
/// and how many more there are. Names of publics that are local to a module are its own. The words are those of the
/// modules.
pub fn push_duplicates<A: Allocator + Copy>(
    alloc: A,
    lines: &mut Vec<u8, A>,
    names: Names,
    modules: &[Module<A>],
    words: &[&[u8]],
    tells_all: bool,
) -> Result<(), AllocError>
    ensures { OnOk result (lines.new.items ≡ lines.old.items
        ++ spec.duplicate_lines names modules.now (bytes_of words.now) tells_all) }
{
    let publics = all_publics(alloc, names, modules)?;
    let places = places_of(alloc, &publics)?;
    let found = duplicates(alloc, &publics, &places)?;
    push_found(alloc, lines, &places, &found, words, tells_all)
}
