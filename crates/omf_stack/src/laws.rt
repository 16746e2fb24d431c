//! Laws of the definitions, each the contract of a function that does nothing.

ghost use Rattle.omf_stack.specs.Whole.{AreWhole};

/// Reading the bytes of a module that is added finds no fault.
pub fn stack_module_is_whole()
    ensures { AreWhole }
{}
