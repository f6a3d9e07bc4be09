//! Row variables at a use of a row word, and inside one, over stacks of marks by their numbers. A call takes time in the names of the effect
//! and in the marks that it looks at. The number of inputs of a quotation input that is called, the number of a row, and the height that a
//! bound row asks for are answered as want of memory where they don't fit 32 bits. The effects of a program have at most `MOST_EFFECT_NAMES` names and don't
//! come to the first two, and a stack of such a height is want of memory itself.
#![tactic(auto)]

mod binding;
mod called;
mod calls;
mod leaving;
mod numbering;
mod numbers;
mod own_effect;
mod row_effect;
mod row_variables;
mod row_words;
mod taken;
mod taking;

pub use binding::Binding;
pub use called::Called;
pub use calls::{own_call, par, par_rule};
pub use numbers::{outer_in, outer_out};
pub use own_effect::OwnEffect;
pub use row_effect::RowEffect;
pub use row_variables::{bindable, has_rows, is_row_word};
pub use row_words::RowWords;
pub use taken::TakenInputs;
pub use taking::{inputs_marks, known_inputs, take, take_inputs};
