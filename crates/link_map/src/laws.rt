//! Laws of the definitions, each the contract of a function that does nothing.
ghost use Rattle.std.specs.Prelude.{List, IsPermutation};
ghost use Rattle.std.specs.List.Sorted.{IsSortedBy, IsStableBy};
ghost use Rattle.link_map.specs.Detailed.{Part, by_address};
ghost use Rattle.link_map.specs.Ordered.{ordered};
ghost use Rattle.link_map.specs.Public.{Public, by_name, by_value};

/// The publics in the order of their names are the same publics; none has a lesser name than the one before it, and
/// those of one name stand as they came.
pub fn names_rise()
    ensures same { (publics : List Public) → IsPermutation publics (ordered by_name publics) }
    ensures rising { (publics : List Public) → IsSortedBy by_name (ordered by_name publics) }
    ensures stable { (publics : List Public) → IsStableBy by_name publics (ordered by_name publics) }
{}

/// The same of the publics in the order of where they stand.
pub fn values_rise()
    ensures same { (publics : List Public) → IsPermutation publics (ordered by_value publics) }
    ensures rising { (publics : List Public) → IsSortedBy by_value (ordered by_value publics) }
    ensures stable { (publics : List Public) → IsStableBy by_value publics (ordered by_value publics) }
{}

/// The same of the parts of segments in the order of their addresses.
pub fn parts_rise()
    ensures same { (parts : List Part) → IsPermutation parts (ordered by_address parts) }
    ensures rising { (parts : List Part) → IsSortedBy by_address (ordered by_address parts) }
    ensures stable { (parts : List Part) → IsStableBy by_address parts (ordered by_address parts) }
{}
