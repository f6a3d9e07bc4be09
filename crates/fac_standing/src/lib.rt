//! What a machine holds between two lines of a session stands: it is whole in the program, and in each that goes on with it, and stands for the same there. Runs
//! keep it so, and a longer image's new literal arrays come to it. Laws, with no code.
#![tactic(auto)]

mod laws;

pub use laws::{
    callable_effects_stay, first_arrays_stand, images_go_on, longer_runs_are_the_same,
    new_arrays_are_the_same, new_arrays_stand, objects_stand_longer, runs_keep_standing,
    standing_objects_are_whole, standing_values_are_whole, valid_stays, values_stand_longer,
    values_stay_the_same, worlds_stay_the_same,
};
