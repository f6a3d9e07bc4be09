//! Sources as they are written: tokens, forms, names where they stand, and why one is refused.
#![tactic(auto)]

mod form_rows;
pub mod form_table;
mod kept;
mod refusal;
mod tok;
mod token;
mod tree;

pub use form_rows::{has_phrase, kind_begun, slot_at};
pub use form_table::{FormRow, Slot};
pub use kept::{keep, refuse, refuse_if, refuse_name};
pub use refusal::{NameFault, NameKind, ResolveFault};
pub use tok::{Ref, Tok};
pub use token::{TokKind, Token};
pub use tree::{
    Bracket, Callee, DefinitionMark, Element, Form, FormKind, Key, Literal, Parent, Part, Term,
    Tree, WrittenEffect,
};
