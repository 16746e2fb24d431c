//! Laws of the definitions.

ghost use Rattle.omf_alias.specs.Meaning.{IsEnd};

/// What a name means is no alias.
pub fn meanings_are_ends()
    ensures { IsEnd }
{}
