//! The law of methods in order, a function whose contract is the law.
ghost use Rattle.fac_generic.specs.Methods.{MethodsAreLawful};

/// What the order of the methods of a generic tells: which methods they are, that each class comes before those behind it, and that the method
/// for a kind, and the next after another, is the first in order.
pub fn methods_are_lawful()
    ensures { MethodsAreLawful }
{}
