//! Links as text, and what is answered of them.
//!
//! A line is a module: `+` before a name that it offers, `-` before one that it wants, `~` before that of a weak
//! external, `*` before a communal variable; `a=b` is the alias a of b. A line `library` begins a library, of the members
//! that follow; the modules of the link stand before the first. A first line `folded` chooses names that agree without
//! regard to case.

use omf_library::{Alias, ModuleNames};
use omf_place::Names;
use omf_search::{Found, Member, Offered, Said, Search, Wanted, Whose, likes, missing};
use rows::push_text;
use std::alloc::{AllocError, Allocator, Global};
use std::test::Fail;

/// A line: a module, or a member of the library with a number, counted from 1.
#[derive(Drop)]
struct Line<'a, A: Allocator + Copy> {
    library: usize,
    names: ModuleNames<'a, A>,
}

/// What a word of a line says.
fn read_word<'a, A: Allocator + Copy>(
    names: &mut ModuleNames<'a, A>,
    word: &'a str,
) -> Result<(), AllocError> {
    let (mark, name) = word.split_at_checked(1).unwrap_or(("", word));
    match mark {
        "+" => names.offered.push(name.as_bytes())?,
        "*" => names.communals.push(name.as_bytes())?,
        "~" => names.externals.push(name.as_bytes())?,
        "-" => {
            names.wanted.push(name.as_bytes())?;
            names.externals.push(name.as_bytes())?;
        }
        _ => {
            let (name, meaning) = word.split_once('=').unwrap_or((word, ""));
            let (name, meaning) = (name.as_bytes(), meaning.as_bytes());
            names.offered.push(name)?;
            names.aliases.push(Alias {
                place: 0,
                name,
                meaning,
            })?;
        }
    }
    Ok(())
}

/// A module of a line.
fn read_module<'a, A: Allocator + Copy>(
    alloc: A,
    line: &'a str,
) -> Result<ModuleNames<'a, A>, AllocError> {
    let mut names = ModuleNames {
        wanted: Vec::new(alloc),
        needed: Vec::new(alloc),
        externals: Vec::new(alloc),
        offered: Vec::new(alloc),
        communals: Vec::new(alloc),
        aliases: Vec::new(alloc),
        libraries: Vec::new(alloc),
        dosseg: false,
    };
    for word in line.split_ascii_whitespace() {
        read_word(&mut names, word)?;
    }
    Ok(names)
}

/// The modules and members of the lines of a link.
fn read_lines<'a, A: Allocator + Copy>(
    alloc: A,
    text: &'a str,
) -> Result<Vec<Line<'a, A>, A>, AllocError> {
    let mut lines = Vec::new(alloc);
    let mut library = 0usize;
    for line in text.lines() {
        if line == "library" {
            library = library.saturating_add(1);
        } else if line != "folded" {
            let names = read_module(alloc, line)?;
            lines.push(Line { library, names })?;
        }
    }
    Ok(lines)
}

/// The members of libraries.
fn members_of<'m, 'a, A: Allocator + Copy>(
    alloc: A,
    lines: &'m [Line<'a, A>],
) -> Result<Vec<Member<'m, 'a>, A>, AllocError> {
    let mut members = Vec::new(alloc);
    let (mut library, mut member) = (0, 0usize);
    for line in lines {
        if line.library != library {
            library = line.library;
            member = 0;
        }
        if library != 0 {
            let says = Said::of(&line.names);
            members.push(Member {
                library: library.saturating_sub(1),
                member,
                says,
            })?;
            member = member.saturating_add(1);
        }
    }
    Ok(members)
}

/// A member that is taken: its indexes, the name for which it is taken, and the module that wants it.
fn push_found(
    text: &mut String,
    member: &Member<'_, '_>,
    found: &Found<'_>,
) -> Result<(), AllocError> {
    write!(text, "{}.{} ", member.library, member.member)?;
    push_text(text, found.name)?;
    write!(text, " {}\n", found.wanted_by)
}

/// A missing name, the module that wants it, and the first name that is like it.
fn push_missing(
    text: &mut String,
    wanted: Wanted<'_>,
    like: Option<Offered<'_>>,
) -> Result<(), AllocError> {
    text.push_str("missing ")?;
    push_text(text, wanted.name)?;
    write!(text, " {}", wanted.wanted_by)?;
    if let Some(like) = like {
        text.push_str(" like ")?;
        push_text(text, like.name)?;
        match like.whose {
            Whose::Module(index) => write!(text, " {index}")?,
            Whose::Member { library, member } => write!(text, " {library}.{member}")?,
        }
    }
    text.push('\n')
}

/// The missing names of modules.
fn push_all_missing<'a, A: Allocator + Copy>(
    alloc: A,
    text: &mut String,
    names: Names,
    modules: &[Said<'_, 'a>],
    members: &[Member<'_, 'a>],
) -> Result<(), AllocError> {
    let missing = missing(alloc, names, modules)?;
    let mut asked = Vec::new(alloc);
    for wanted in &missing {
        asked.push(wanted.name)?;
    }
    let likes = likes(alloc, &asked, modules, members)?;
    for (wanted, like) in missing.iter().zip(&likes) {
        push_missing(text, *wanted, *like)?;
    }
    Ok(())
}

/// Takes the members that modules choose, which join them.
fn take<'m, 'a, A: Allocator + Copy>(
    text: &mut String,
    search: &mut Search<'a, A>,
    modules: &mut Vec<Said<'m, 'a>, A>,
    members: &[Member<'m, 'a>],
) -> Result<(), AllocError> {
    for _ in 0..=members.len() {
        let Some(found) = search.next_found() else {
            break;
        };
        let Some(member) = members.get(found.member) else {
            break;
        };
        push_found(text, member, &found)?;
        search.add_module(modules.len(), member.says)?;
        modules.push(member.says)?;
    }
    Ok(())
}

/// The members that are taken of so many first ones, then of so many with those before, and the names that are missing.
fn answer<A: Allocator + Copy>(
    alloc: A,
    words: Global,
    names: Names,
    lines: &[Line<'_, A>],
    rounds: &[usize],
) -> Result<String, AllocError> {
    let mut text = String::new(words);
    let mut search = Search::new(alloc, names);
    let mut modules = Vec::new(alloc);
    for line in lines {
        if line.library == 0 {
            let says = Said::of(&line.names);
            search.add_module(modules.len(), says)?;
            modules.push(says)?;
        }
    }
    let members = members_of(alloc, lines)?;
    let mut added = 0usize;
    for count in rounds {
        for member in members.get(added..members.len().min(*count)).unwrap_or(&[]) {
            search.add_member(added, member.says)?;
            added = added.saturating_add(1);
        }
        take(&mut text, &mut search, &mut modules, &members)?;
    }
    push_all_missing(alloc, &mut text, names, &modules, &members)?;
    Ok(text)
}

/// What is answered of a link that is searched in rounds, or want of memory.
pub(crate) fn outcome<A: Allocator + Copy>(
    alloc: A,
    words: Global,
    text: &str,
    rounds: &[usize],
) -> Result<String, Fail> {
    let names = if text.starts_with("folded") {
        Names::AsciiFolded
    } else {
        Names::Exact
    };
    let answered = match read_lines(alloc, text) {
        Ok(lines) => answer(alloc, words, names, &lines, rounds),
        Err(error) => Err(error),
    };
    match answered {
        Ok(text) => Ok(text),
        Err(_) => Ok(String::from_str(words, "memory")?),
    }
}
