//! The names in items: which words and locals they find, and the phrases that items come to.
#![tactic(auto)]

mod added;
mod behind;
mod cases;
mod choices;
mod closing;
mod content;
mod items;
mod known_rows;
mod locals;
mod nest;
mod search;
mod spelled;

pub use items::phrase_of;
pub use search::{refer, refuse_token, tok_of, word_of};
pub use spelled::{NameAt, name_at};
