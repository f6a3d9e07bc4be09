//! How values are spelled as bytes: formats with their laws, readers that tell the exact place of a fault, and writers.
#![tactic(auto)]

mod ascending;
mod bytes;
mod characters;
mod fault;
mod fits;
mod fresh;
mod integers;
mod laws;
mod lists;
mod numbers;
mod spelled;
mod texts;
mod whole;

pub use ascending::{read_ascending, read_ascending_by, write_ascending, write_ascending_by};
pub use bytes::{read_byte, read_fixed, write_fixed};
pub use characters::read_characters;
pub use fault::ReadFault;
pub use fits::{integer_fits, number_fits, numbers_fit};
pub use fresh::TakenNumbers;
pub use integers::{unzigzag, zigzag};
pub use laws::{
    ascending_numbers_are_exact, ascending_pairs_are_exact, fixed_bytes_are_exact,
    fresh_numbers_are_exact, fronts_are_broken, integers_are_exact, lists_are_exact,
    numbers_are_exact, one_place, one_value, options_are_exact, pairs_are_exact, spelled_or_broken,
    texts_are_exact, texts_are_utf8, utf8_is_text,
};
pub use lists::{read_each, write_each};
pub use numbers::{read_number, read_wide, write_number};
pub use spelled::{Ruled, Spelled, Writes};
pub use whole::{WholeFault, read_all, read_all_ruled};
