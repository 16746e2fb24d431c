//! The names that stand for others, with what they mean.

ghost use Rattle.std.specs.Prelude.{◌≡◌, ℕ, List};
ghost use Rattle.std.specs.Option.{option_and_then};
ghost use Rattle.omf_alias.specs.Meaning as spec;
ghost use Rattle.omf_alias.specs.Ordered.{IsByName};
ghost use Rattle.omf_alias.specs.Layered.{both_said};
ghost use Rattle.omf_alias.specs.Told.{told};

use crate::named::NamedValue;
use crate::reading::Alias;
use omf_place::Names;

/// The names that stand for others: of the aliases that agree the first counts.
#[derive(Clone, Copy, Debug)]
pub struct Renaming<'r, 'a> {
    /// Which names agree.
    pub(crate) names: Names,
    /// The names with what they stand for.
    pub(crate) aliases: &'r [Alias<'a>],
    /// Those behind them.
    pub(crate) own: &'r [Alias<'a>],
    /// What the names of the former mean by these alone.
    pub(crate) ends: &'r [NamedValue<'a, Option<&'a [u8]>>],
    /// What those of the latter mean by these, where each stands for what it means by the former.
    pub(crate) own_ends: &'r [NamedValue<'a, Option<&'a [u8]>>],
    ghost sorted: { IsByName names ends.now },
    ghost own_sorted: { IsByName names own_ends.now },
    ghost means: { (name : List ℕ) →
        option_and_then (told names own_ends.now) (told names ends.now name)
        ≡ spec.meaning (both_said names aliases.now own.now) name },
}

impl<'r, 'a> Renaming<'r, 'a> {
    ghost use Rattle.std.specs.Prelude.{[]};
    ghost use Rattle.omf_alias.specs.Said.{renaming_said};

    /// No name stands for another one.
    pub fn none(names: Names) -> Self
        ensures empty { renaming_said result ≡ record { names = names; aliases = [] } }
        ensures none { (result.own.now ≡ []) × (result.own_ends.now ≡ []) }
    {
        Renaming {
            names,
            aliases: &[],
            own: &[],
            ends: &[],
            own_ends: &[],
        }
    }
}
