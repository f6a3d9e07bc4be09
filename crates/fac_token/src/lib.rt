//! The tokens of a file's bytes, for every file of UTF-8. White space is the characters 9 to 13 and 32. A token is a longest run of
//! other characters, except that one that begins with a quote is a string and ends at its closing quote. A token that is exactly `!`
//! begins a comment, which runs to the next line break or the end.
//!
//! `specs/Lexemes.antt` defines it on the whole text: lexemes that are white space, comments, plain tokens and strings, one after the
//! other, which spell the text. So each byte belongs to exactly one lexeme. `specs/Tokens.antt` says what `tokens` answers.
#![tactic(auto)]

mod fault;
mod laws;
mod scanner;
mod spotting;

pub use fault::TokenFault;
pub use laws::{
    each_token_has_spot, every_file_has_an_answer, every_text_is_read_or_faulty, no_text_is_both,
    one_answer, one_first_fault, one_list_of_spots, one_reading,
};
pub use scanner::tokens;
pub use spotting::{Spot, spots};
