//! Images as bytes: each image has one spelling, and bytes that are none's are refused at the exact place.
#![tactic(auto)]

mod counting;
mod decoding;
mod encoding;
mod generics;
mod instructions;
mod laws;
mod listings;
mod lists;
mod operands;
mod pairs;
mod part;
mod parts;
mod table_bytes;
mod tables;

pub use decoding::{DecodeFault, decode};
pub use encoding::{encode, spelled_length};
pub use laws::{
    encoded_is_decoded, fronts_are_broken, images_are_exact, one_image, one_place,
    spelled_are_spellable, spelled_or_broken,
};
pub use listings::listing;
pub use parts::ImageParts;
