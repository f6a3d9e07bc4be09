//! Laws of what the machine of a session holds, each on the contract of a function that does nothing but call on laws below.
ghost use Rattle.fac_listener.specs.inner.SessionLaws.{ImagesAreLonger, MachinesBegin, MachinesGoOn, PhrasesAreAnswered, PhrasesAreNotStuck, StacksAreKept};

use fac_carry::printed_forms_are_equal;
use fac_check::safe_programs_are_not_stuck;
use fac_machine::{runs_dont_tell_addresses, runs_have_one_end, runs_leave_values_below};
use fac_standing::{
    first_arrays_stand, images_go_on, new_arrays_are_the_same, new_arrays_stand,
    runs_keep_standing, standing_objects_are_whole, standing_values_are_whole, valid_stays,
    values_stand_longer, values_stay_the_same,
};

/// The image of a program that goes on with a session's is a longer one.
pub fn images_are_longer()
    ensures { ImagesAreLonger }
{
    images_go_on();
}

/// A machine that goes on over it holds the session with that program.
pub fn machines_go_on()
    ensures { MachinesGoOn }
{
    values_stay_the_same();
    values_stand_longer();
    new_arrays_are_the_same();
    new_arrays_stand();
    valid_stays();
    standing_values_are_whole();
    standing_objects_are_whole();
    images_go_on();
}

/// A machine that holds nothing but the literal arrays of its image holds the first session.
pub fn machines_begin()
    ensures { MachinesBegin }
{
    first_arrays_stand();
}

/// No phrase of a session is stuck.
pub fn phrases_are_not_stuck()
    ensures { PhrasesAreNotStuck }
{
    safe_programs_are_not_stuck();
}

/// A run on a copy of the stack that stands leaves that stack below.
pub fn stacks_are_kept()
    ensures { StacksAreKept }
{
    runs_have_one_end();
    runs_dont_tell_addresses();
    runs_leave_values_below();
    safe_programs_are_not_stuck();
    standing_values_are_whole();
    standing_objects_are_whole();
    runs_keep_standing();
    printed_forms_are_equal();
}

/// What is answered of such a run is what the phrase comes to.
pub fn phrases_are_answered()
    ensures { PhrasesAreAnswered }
{
    runs_have_one_end();
    runs_dont_tell_addresses();
    runs_leave_values_below();
    safe_programs_are_not_stuck();
    standing_values_are_whole();
    standing_objects_are_whole();
    runs_keep_standing();
    printed_forms_are_equal();
}
