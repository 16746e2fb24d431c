//! Laws of the definitions, each the contract of a function that does nothing.

ghost use Rattle.std.specs.Prelude.{◌≡◌, List, true};
ghost use Rattle.omf_module.specs.Module.{Module};
ghost use Rattle.omf_place.specs.Parts.{IsSiteOf, Site, combines};

/// The segments of a program combine as an equivalence, so that each part belongs to one combined segment.
pub fn combining()
    ensures reflexive { (a : Site) → combines a a ≡ true }
    ensures symmetric { (program : List Module) (a b : Site) → IsSiteOf program a → IsSiteOf program b →
        combines a b ≡ true → combines b a ≡ true }
    ensures transitive { (program : List Module) (a b c : Site) → IsSiteOf program a → IsSiteOf program b →
        IsSiteOf program c → combines a b ≡ true → combines b c ≡ true → combines a c ≡ true }
{}
