//! The name of a folder that is meant by one of which the case of letters doesn't count.
ghost use Rattle.std.specs.Prelude.{◌≡◌};
ghost use Rattle.dos_names.specs.Names as spec;

/// Which of a folder's names are the same as another one, where small and capital letters of ASCII are the same.
#[derive(Clone, Copy, Debug, PartialEq, Eq)]
pub enum Choice<'a> {
    /// None is.
    Nothing,
    /// This one alone is.
    One(&'a str),
    /// At least two are, and these are the first of them.
    Two(&'a str, &'a str),
}

/// Whether two names are the same, where small and capital letters of ASCII are the same.
fn is_same_name(one: &str, other: &str) -> bool
    ensures { result ≡ spec.is_same_name one.now other.now }
{
    one.eq_ignore_ascii_case(other)
}

/// The choice among names, once there is one more.
fn with_name<'a>(wanted: &str, choice: Choice<'a>, name: &'a str) -> Choice<'a>
    ensures { result ≡ spec.with_name wanted.now choice.entry name.entry }
{
    if !is_same_name(wanted, name) {
        return choice;
    }
    match choice {
        Choice::Nothing => Choice::One(name),
        Choice::One(first) => Choice::Two(first, name),
        Choice::Two(first, second) => Choice::Two(first, second),
    }
}

/// Which of a folder's names are the same as one that is wanted.
pub fn choice_of<'a>(wanted: &str, names: &[&'a str]) -> Choice<'a>
    ensures { result ≡ spec.choice_of wanted.now names.now }
{
    let mut choice = Choice::Nothing;
    for name in names {
        choice = with_name(wanted, choice, name);
    }
    choice
}
