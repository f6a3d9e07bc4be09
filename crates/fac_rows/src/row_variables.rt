//! Row variables of effects: which effects have them, and whether they can be bound at a use. At most as many names are compared as the
//! square of the number of names, and nothing is allocated.
ghost use Rattle.std.specs.Prelude.{◌≡◌, ◌||◌, ◌&&◌, not, []};
ghost use Rattle.fac_base.specs.EffectView.{inputs_tree, outs_leaving};
ghost use Rattle.fac_abs.specs.RowVariables.{effect_inputs, effect_leaving, row_name, row_of, leaving_row, some_row, is_never};
ghost use Rattle.fac_abs.specs.RowVariables.{has_rows, inputs_rows, one_sided, lone, nested_one_sided, in_rows, more_rows, bound_rows, bound_all};
ghost use Rattle.fac_abs.specs.RowVariables.{all_bound, inputs_bound, bindable, is_row};
ghost use Rattle.fac_rows.specs.inner.BoundRows.{is_row_there, effect_binds, inputs_bind, starts_from, could_bind, rows_after, are_sides_among};

use fac_base::{Effect, Input, Outs, Text};
use fac_lang::WordDef;

// Whether an output side has a row variable.
fn leaves_row(outs: &Outs) -> bool
    ensures { result ≡ some_row (leaving_row (outs_leaving outs.now)) }
{
    match outs {
        Outs::Never => false,
        Outs::Left { row, .. } => row.is_some(),
    }
}

// Whether some input has an effect with a row variable.
#[cycle(rows)]
fn inputs_have_rows(inputs: &[Input]) -> bool
    ensures { result ≡ inputs_rows (inputs_tree inputs.now) }
{
    for input in inputs {
        if let Some(effect) = &input.quot {
            if has_rows(effect) {
                return true;
            }
        }
    }
    false
}

/// Whether an effect has a row variable, on a side of its own or in the effect of an input.
#[cycle(rows)]
pub fn has_rows(effect: &Effect) -> bool
    ensures { result ≡ has_rows effect.now }
{
    effect.row_in.is_some() || leaves_row(&effect.outs) || inputs_have_rows(&effect.ins)
}

/// Whether an inline word is a row word: it is marked `recursive`, or its effect has a row variable.
pub fn is_row_word(word: &WordDef) -> bool
    ensures { result ≡ is_row word.now.recursive word.now.effect }
{
    word.recursive || has_rows(&word.effect)
}

// Whether only one of an effect's own sides has a row variable.
fn is_one_sided(effect: &Effect) -> bool
    ensures { result ≡ one_sided (row_of (row_name effect.now)) (leaving_row (effect_leaving effect.now)) }
{
    effect.row_in.is_some() != leaves_row(&effect.outs)
}

// Whether the effect of some input has a row variable on one side alone, or one inside of it has.
#[cycle(lone)]
fn any_lone(inputs: &[Input]) -> bool
    ensures { result ≡ nested_one_sided (inputs_tree inputs.now) }
{
    for input in inputs {
        if let Some(effect) = &input.quot {
            if is_lone(effect) {
                return true;
            }
        }
    }
    false
}

// Whether an effect has a row variable on one side alone, or one inside of it has.
#[cycle(lone)]
fn is_lone(effect: &Effect) -> bool
    ensures { result ≡ lone effect.now }
{
    is_one_sided(effect) || any_lone(&effect.ins)
}

// Whether the row variable of a side is this one.
fn is_there(row: &Text, side: &Option<Text>) -> bool
    ensures { result ≡ is_row_there row.now (row_of side.now) }
{
    match side {
        None => false,
        Some(other) => row == other,
    }
}

// Whether a quotation input of this effect, which starts from a row, leaves this one.
fn binds(row: &Text, effect: &Effect) -> bool
    ensures { result ≡ effect_binds row.now effect.now }
{
    match &effect.outs {
        Outs::Never => false,
        Outs::Left { row: left, .. } => effect.row_in.is_some() && is_there(row, left),
    }
}

// Whether some input leaves this row.
fn any_binds(row: &Text, inputs: &[Input]) -> bool
    ensures { result ≡ inputs_bind row.now (inputs_tree inputs.now) }
{
    for input in inputs {
        if let Some(effect) = &input.quot {
            if binds(row, effect) {
                return true;
            }
        }
    }
    false
}

// Whether the row of a side, where it has one, is the outer input row, or some input leaves it.
#[tactic(auto, using(crate::proofs::BoundRowLemmas::in_rows_after))]
fn side_bound(side: &Option<Text>, outer: &Option<Text>, inputs: &[Input]) -> bool
    ensures { result ≡ in_rows (row_of side.now) (rows_after (inputs_tree inputs.now) (more_rows (row_of outer.now) [])) }
{
    match side {
        None => true,
        Some(row) => is_there(row, outer) || any_binds(row, inputs),
    }
}

// Whether an input starts from a row that the inputs before it bind, where it starts from one.
fn starts_bound(input: &Input, outer: &Option<Text>, before: &[Input]) -> bool
    ensures { result ≡ starts_from (rows_after (inputs_tree before.now) (more_rows (row_of outer.now) [])) input.now }
{
    match &input.quot {
        None => true,
        Some(effect) => side_bound(&effect.row_in, outer, before),
    }
}

// Whether each input that starts from a row starts from one that is bound before it.
fn all_start_bound(outer: &Option<Text>, inputs: &[Input]) -> bool
    ensures { result ≡ could_bind (bound_rows (inputs_tree inputs.now) (more_rows (row_of outer.now) [])) }
{
    for (index, input) in inputs.iter().enumerate() {
        if !starts_bound(input, outer, &inputs[..index]) {
            return false;
        }
    }
    true
}

// Whether all rows in the effects of these parts are the outer input row, or left by some input.
#[cycle(bound)]
fn parts_bound(parts: &[Input], outer: &Option<Text>, inputs: &[Input]) -> bool
    ensures { result ≡ inputs_bound (inputs_tree parts.now) (rows_after (inputs_tree inputs.now) (more_rows (row_of outer.now) [])) }
{
    for part in parts {
        if let Some(effect) = &part.quot {
            if !rows_bound(effect, outer, inputs) {
                return false;
            }
        }
    }
    true
}

// Whether the rows of both sides of an effect are the outer input row, or left by some input.
fn sides_bound(effect: &Effect, outer: &Option<Text>, inputs: &[Input]) -> bool
    ensures { result ≡ are_sides_among effect.now (rows_after (inputs_tree inputs.now) (more_rows (row_of outer.now) [])) }
{
    if !side_bound(&effect.row_in, outer, inputs) {
        return false;
    }
    match &effect.outs {
        Outs::Never => true,
        Outs::Left { row, .. } => side_bound(row, outer, inputs),
    }
}

// Whether all rows of an effect are the outer input row, or left by some input.
#[cycle(bound)]
fn rows_bound(effect: &Effect, outer: &Option<Text>, inputs: &[Input]) -> bool
    ensures { result ≡ all_bound effect.now (rows_after (inputs_tree inputs.now) (more_rows (row_of outer.now) [])) }
{
    sides_bound(effect, outer, inputs) && parts_bound(&effect.ins, outer, inputs)
}

// Whether a row variable that stands on one side alone is refused there: not where the word never returns.
fn is_open(effect: &Effect) -> bool
    ensures { result ≡ (one_sided (row_of (row_name effect.now)) (leaving_row (effect_leaving effect.now)) && not (is_never (effect_leaving effect.now))) }
{
    match &effect.outs {
        Outs::Never => false,
        Outs::Left { .. } => is_one_sided(effect),
    }
}

// Whether an input names a row where an outer side has none, though it could have one.
fn lacks_outer_row(effect: &Effect) -> bool
    ensures { result ≡ (inputs_rows (effect_inputs effect.now) && (not (some_row (row_of (row_name effect.now))) || (not (is_never (effect_leaving effect.now)) && not (some_row (leaving_row (effect_leaving effect.now)))))) }
{
    if !inputs_have_rows(&effect.ins) {
        return false;
    }
    match &effect.outs {
        Outs::Never => effect.row_in.is_none(),
        Outs::Left { row, .. } => effect.row_in.is_none() || row.is_none(),
    }
}

// Whether each row is bound where the inputs are taken from left to right.
fn binds_all(effect: &Effect) -> bool
    ensures { result ≡ bound_all effect.now (bound_rows (effect_inputs effect.now) (more_rows (row_of (row_name effect.now)) [])) }
{
    all_start_bound(&effect.row_in, &effect.ins) && rows_bound(effect, &effect.row_in, &effect.ins)
}

/// Whether the row variables of an inline word's effect can be bound at a use, which an effect without any can. No side alone has one, but
/// for the outer sides of a word that never returns; where an input names one, both outer sides have one; and each is bound where the
/// inputs are taken from left to right.
pub fn bindable(effect: &Effect) -> bool
    ensures { result ≡ bindable effect.now }
{
    if !has_rows(effect) {
        return true;
    }
    !is_open(effect) && !any_lone(&effect.ins) && !lacks_outer_row(effect) && binds_all(effect)
}
