//! Laws of what a machine holds, each on the contract of a function that does nothing.
ghost use Rattle.fac_standing.specs.Laws.{CallableEffectsStay, FirstArraysStand, ImagesGoOn, LongerRunsAreTheSame, NewArraysAreTheSame, NewArraysStand, ObjectsStandLonger, RunsKeepStanding, StandingObjectsAreWhole, StandingValuesAreWhole, ValidStays, ValuesStandLonger, ValuesStayTheSame, WorldsStayTheSame};

/// What stands in a program is whole there.
pub fn standing_values_are_whole()
    ensures { StandingValuesAreWhole }
{}

/// So are objects that stand.
pub fn standing_objects_are_whole()
    ensures { StandingObjectsAreWhole }
{}

/// Behind a run from what stands all that the machine holds stands, whatever the end.
pub fn runs_keep_standing()
    ensures { RunsKeepStanding }
{}

/// The literal arrays of an image stand before the first run.
pub fn first_arrays_stand()
    ensures { FirstArraysStand }
{}

/// Whole values stand for the same in a longer program.
pub fn values_stay_the_same()
    ensures { ValuesStayTheSame }
{}

/// So do worlds with whole objects.
pub fn worlds_stay_the_same()
    ensures { WorldsStayTheSame }
{}

/// What stands in a program stands in each longer one.
pub fn values_stand_longer()
    ensures { ValuesStandLonger }
{}

/// So do objects.
pub fn objects_stand_longer()
    ensures { ObjectsStandLonger }
{}

/// The literal arrays that a longer program has more, made behind all that is there, are those of its image.
pub fn new_arrays_are_the_same()
    ensures { NewArraysAreTheSame }
{}

/// They stand in the longer program, with all that stood before.
pub fn new_arrays_stand()
    ensures { NewArraysStand }
{}

/// With them a valid world is valid in the longer program.
pub fn valid_stays()
    ensures { ValidStays }
{}

/// The image of a longer program has the templates of the first one, each with as many cells and holes, and at least as many literal arrays.
pub fn images_go_on()
    ensures { ImagesGoOn }
{}

/// A callable has the effect that it had, or none as before.
pub fn callable_effects_stay()
    ensures { CallableEffectsStay }
{}

/// A run of a longer image that carries its program, from what stood in the shorter one, ends as the meaning of the longer program, and what is held behind it
/// stands.
pub fn longer_runs_are_the_same()
    ensures { LongerRunsAreTheSame }
{}
