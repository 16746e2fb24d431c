//! A law of the definitions, the contract of a function that does nothing.

ghost use Rattle.omf_order.specs.Whole.{AreWhole};

/// Reading the bytes of an order module finds no fault.
pub fn order_module_is_whole()
    ensures { AreWhole }
{}
