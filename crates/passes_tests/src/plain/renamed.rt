//! Externals whose names stand for others.

use super::tables::run_as;
use omf_alias::{
    Alias, Aliases, NameMap, NamedValue, Renaming, endless, meaning, push_module_aliases,
};
use omf_place::Names;
use rows::module_of;
use std::alloc::Global;
use std::test::*;

/// Aliases, of which "a" means "bb", and that "ccc"; the second "a" doesn't count.
const CHAIN: &str = "\
80 01 41
C6 01 61 02 62 62
8C 01 61 00
C6 02 62 62 03 63 63 63 01 61 01 64 01";

/// Aliases that go round for ever, behind one that ends.
const CIRCLE: &str = "\
80 01 41
C6 01 66 01 67
C6 01 64 01 61 01 61 01 62 01 62 01 61";

/// The aliases of a module.
fn aliases_of(alloc: Global, module: &[u8]) -> Result<Vec<Alias<'_>>, Fail> {
    let mut aliases = Vec::new(alloc);
    push_module_aliases(alloc, module, &mut aliases)?;
    Ok(aliases)
}

/// Externals take what their names mean, in the records that have one; aliases are comments.
#[test]
fn renamed(rt: HostRuntime) -> Result<(), Fail> {
    let alloc = rt.alloc();
    let chain = module_of(alloc, CHAIN)?;
    let aliases = Aliases::new(alloc, Names::Exact, aliases_of(alloc, &chain)?)?;
    let renaming = aliases.renaming();
    let table = "\
# by one alias and by two, between others
C6 01 61 02 62 62
8C 01 78 00 01 61 80 01 02 62 62 02 03 63 63 63 03
8C 01 78 00 01 41 00
--
88 00 DA
8C 01 78 00 03 63 63 63 80 01 03 63 63 63 02 03 63 63 63 03
8C 01 78 00 01 41 00

# by the index of a name
96 01 61
BC 03 04 02 05
--
96 01 61
8C 03 63 63 63 04 04 43 4F 44 45 05

# a communal variable, with a type index of two bytes
B0 01 61 80 81 62 02 01 78 00 61 01 02
--
8C 03 63 63 63 80 81 01 78 00

# local names and publics stay
B4 01 61 00
B8 01 61 00 62 02
90 00 01 01 61 00 00 00
--
B4 01 61 00
B4 01 61 00
90 00 01 01 61 00 00 00

# externals of which one is cut
8C 01 61 00 05 61
= record 2: its body isn't one of its type

8C 01 78 00 05 61 01 61 00
= record 2: its body isn't one of its type";
    run_as(&rt, alloc, false, &renaming, table)
}

/// Names that agree by their case alone.
#[test]
fn meanings(rt: HostRuntime) -> Result<(), Fail> {
    let alloc = rt.alloc();
    let chain = module_of(alloc, CHAIN)?;
    let aliases = aliases_of(alloc, &chain)?;
    let folded = Aliases::new(alloc, Names::AsciiFolded, aliases_of(alloc, &chain)?)?;
    assert_eq!(rt; meaning(&folded.renaming(), b"BB"), Some(b"ccc".as_slice()));
    assert!(rt; endless(&folded.renaming(), &aliases).is_none());
    let exact = Aliases::new(alloc, Names::Exact, aliases)?;
    assert_eq!(rt; meaning(&exact.renaming(), b"BB"), Some(b"BB".as_slice()));
    let none = Renaming::none(Names::AsciiFolded);
    assert_eq!(rt; meaning(&none, b"BB"), Some(b"BB".as_slice()));
    Ok(())
}

/// Names of which the aliases go round for ever.
#[test]
fn circles(rt: HostRuntime) -> Result<(), Fail> {
    let alloc = rt.alloc();
    let circle = module_of(alloc, CIRCLE)?;
    let aliases = aliases_of(alloc, &circle)?;
    let all = Aliases::new(alloc, Names::Exact, aliases_of(alloc, &circle)?)?;
    let renaming = all.renaming();
    assert_eq!(rt; meaning(&renaming, b"d"), None);
    assert_eq!(rt; meaning(&renaming, b"f"), Some(b"g".as_slice()));
    let found = endless(&renaming, &aliases).ok_or("none goes round")?;
    assert_eq!(rt; found.name, b"d".as_slice());
    assert_eq!(rt; found.place, 14);
    Ok(())
}

/// An alias of a name that another one has, as a link says it.
fn alias<'a>(name: &'a [u8], meaning: &'a [u8]) -> Alias<'a> {
    Alias {
        place: 0,
        name,
        meaning,
    }
}

/// Aliases of one module behind those of all, which count before them, and the ways from one to the other and back.
#[test]
fn own_aliases(rt: HostRuntime) -> Result<(), Fail> {
    let alloc = rt.alloc();
    let shared = vec![in alloc; alias(b"a", b"b"), alias(b"c", b"d"), alias(b"x", b"y")]?;
    let all = Aliases::new(alloc, Names::AsciiFolded, shared)?;
    let own = vec![in alloc;
        alias(b"B", b"c"),
        alias(b"d", b"e"),
        alias(b"a", b"z"),
        alias(b"y", b"X"),
        alias(b"q", b"x"),
    ]?;
    let with = all.with(alloc, own)?;
    let renaming = with.renaming();
    assert_eq!(rt; meaning(&renaming, b"a"), Some(b"e".as_slice()));
    assert_eq!(rt; meaning(&renaming, b"b"), Some(b"e".as_slice()));
    assert_eq!(rt; meaning(&renaming, b"D"), Some(b"e".as_slice()));
    assert_eq!(rt; meaning(&renaming, b"e"), Some(b"e".as_slice()));
    assert_eq!(rt; meaning(&renaming, b"x"), None);
    assert_eq!(rt; meaning(&renaming, b"Y"), None);
    assert_eq!(rt; meaning(&renaming, b"q"), None);
    assert_eq!(rt; meaning(&all.renaming(), b"x"), Some(b"y".as_slice()));
    Ok(())
}

/// A chain of so many aliases that it is no power of two, from each of them.
#[test]
fn long_chain(rt: HostRuntime) -> Result<(), Fail> {
    let alloc = rt.alloc();
    let names: [&[u8]; 8] = [b"h", b"b", b"g", b"c", b"f", b"d", b"e", b"a"];
    let mut aliases = Vec::new(alloc);
    for index in 1..8 {
        aliases.push(alias(names[index - 1], names[index]))?;
    }
    let all = Aliases::new(alloc, Names::Exact, aliases)?;
    for name in names {
        assert_eq!(rt; meaning(&all.renaming(), name), Some(b"a".as_slice()));
    }
    Ok(())
}

/// Of values whose names agree the first counts.
#[test]
fn first_of_a_name(rt: HostRuntime) -> Result<(), Fail> {
    let alloc = rt.alloc();
    let values = vec![in alloc;
        NamedValue {
            name: b"B".as_slice(),
            value: 1_u8
        },
        NamedValue {
            name: b"ab".as_slice(),
            value: 2
        },
        NamedValue {
            name: b"b".as_slice(),
            value: 3
        },
        NamedValue {
            name: b"".as_slice(),
            value: 4
        },
        NamedValue {
            name: b"AB".as_slice(),
            value: 5
        },
        NamedValue {
            name: b"a".as_slice(),
            value: 6
        },
    ]?;
    let map = NameMap::new(Names::AsciiFolded, values)?;
    assert_eq!(rt; map.get(b"b"), Some(1));
    assert_eq!(rt; map.get(b"Ab"), Some(2));
    assert_eq!(rt; map.get(b""), Some(4));
    assert_eq!(rt; map.get(b"A"), Some(6));
    assert_eq!(rt; map.get(b"abc"), None);
    Ok(())
}
