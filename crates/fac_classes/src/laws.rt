//! Laws of the order of classes, each a function whose contract is the law.
ghost use Rattle.fac_classes.specs.ClassKinds.{OneComesFirst, NarrowerComesFirst, PlacesTellOrder};

/// Of two classes one comes before the other.
pub fn one_class_comes_first()
    ensures { OneComesFirst }
{}

/// A class comes before each other that has all of its kinds and more.
pub fn narrower_classes_come_first()
    ensures { NarrowerComesFirst }
{}

/// Of two classes the one with fewer classes before it comes first.
pub fn places_tell_order()
    ensures { PlacesTellOrder }
{}
