//! Laws of the definitions, each the contract of a function that does nothing.

ghost use Rattle.std.specs.Prelude.{false};
ghost use Rattle.omf_communal.specs.Apart.{ArePlaced};
ghost use Rattle.omf_communal.specs.LocalModule.{AreLocalModules};
ghost use Rattle.omf_communal.specs.Once.{AreOnce};
ghost use Rattle.omf_communal.specs.Whole.{AreWhole};

/// Reading the bytes of a module of communal variables finds no fault.
pub fn communal_module_is_whole()
    ensures { AreWhole false }
{}

/// Nor does reading those of a module of variables that are local to a module. It says the segments, the group and the
/// local publics of the variables' plan, and nothing else.
pub fn local_variables_are_whole()
    ensures { AreLocalModules }
{}

/// Each name that some module declares and none offers has one variable; it has all that a declaration of the name asks
/// for, and some declaration of the name asks for all that it has.
pub fn one_variable_for_each_name()
    ensures { AreOnce }
{}

/// The places of variables don't overlap: near ones lie one behind the other in the near segment, and each far one has
/// segments of its own, which have its bytes.
pub fn places_are_apart()
    ensures { ArePlaced }
{}
