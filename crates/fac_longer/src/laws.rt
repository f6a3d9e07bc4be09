//! Laws of longer programs, each on the contract of a function that does nothing.
ghost use Rattle.fac_longer.specs.Longer.{FoundStays};
ghost use Rattle.fac_longer.specs.Laws.{LiteralsStay, LongerGoesOn, PlacesStay, TemplatesStay, VerdictsStay};

/// A longer program goes on with the first, as far as a walk asks.
pub fn longer_goes_on()
    ensures { LongerGoesOn }
{}

/// What a walk found in a program, it finds in each that goes on with it.
pub fn found_stays()
    ensures { FoundStays }
{}

/// The literals of a whole program are the first ones of each that goes on with it.
pub fn literals_stay()
    ensures { LiteralsStay }
{}

/// So are their places.
pub fn places_stay()
    ensures { PlacesStay }
{}

/// A template has the same phrase in each program that goes on with the one that made it.
pub fn templates_stay()
    ensures { TemplatesStay }
{}

/// A word that the checker accepts is accepted in each program that goes on with its own, and the phrase that was accepted is an earlier one there.
pub fn verdicts_stay()
    ensures { VerdictsStay }
{}
