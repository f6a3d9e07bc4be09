//! Expanded code: what plain code makes as a callable and applies at once is done in place.
#![tactic(auto)]

mod bodies;
mod coming;
mod copying;
mod direct;
mod direct_image;
mod direct_places;
mod draft;
mod entries;
mod expansion;
mod growing;
mod hints;
mod kept;
mod known;
mod known_parts;
mod loops;
mod making;
mod mapping;
mod moving;
mod parts;
mod pieces;
mod placing;
mod plan;
mod primitives;
mod put_off;
mod reach;
mod running;
mod shrinking;
mod shuffles;
mod steps;
mod stopped;
mod tables;
mod tails;

pub use expansion::expand;
pub use pieces::Extent;
pub use plan::Use;
