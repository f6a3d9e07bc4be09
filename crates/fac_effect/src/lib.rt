//! What a token is to the grammar, and stack effects: how they are read, which row variables can be bound, and the arithmetic of heights.
#![tactic(auto)]

mod effect_parts;
mod effect_reader;
mod laws;
mod local_names;
pub mod reserved;
mod spelling;

pub use effect_parts::{declared_height, effect_from};
pub use effect_reader::{EffectReader, EffectStep, EffectWhy, Side, Spot, is_no_row};
pub use laws::{
    effect_is_whole, effects_end, inputs_are_named, literals_are_integers, locals_go_on,
    read_goes_on, refused_is_none, rowless_goes_on, rowless_is_whole, whole_is_effect,
    whole_is_rowless,
};
pub use local_names::{is_local_name, may_stand};
pub use spelling::{Spelling, classify, text};
