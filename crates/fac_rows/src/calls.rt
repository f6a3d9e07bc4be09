//! Calls inside a row word: the own recursive call, and calls of its quotation inputs.
ghost use Rattle.std.specs.Prelude.{◌≡◌, ◌≤◌, ◌∷◌, ℕ, List, length, Some, IfOk};
ghost use Rattle.std.specs.Option.{option_copied};
ghost use Rattle.fac_base.specs.Signatures.{Signature};
ghost use Rattle.fac_base.specs.declared.limits.TheConstants.{MOST_EFFECT_NAMES};
ghost use Rattle.fac_base.specs.EffectView.{inputs_tree};
ghost use Rattle.fac_base.specs.Effects.{effect_height};
ghost use Rattle.fac_lang.specs.Phrases.{par_mark};
ghost use Rattle.fac_abs.specs.RowVariables.{effect_inputs, effect_leaving, row_name, outer_out, input_effect};
ghost use Rattle.fac_abs.specs.Marks.{mark_eq};
ghost use Rattle.fac_abs.specs.MarkTrees.{Naming};
ghost use Rattle.fac_abs.specs.SeenMarks.{IsMark, IsStack, Grows, base_seen, mark_of, stack_of};
ghost use Rattle.fac_rows.specs.RowBinding.{other_input, own_call, own_rest_call, calls_input, calls_own};
ghost use Rattle.fac_rows.specs.RowNumbers.{NamesRows, NamesOwn, leaving_name, sides, side_number};
ghost use Rattle.fac_rows.specs.SeenBindings.{IsCalled, called_seen, rule_of_call};
ghost use Rattle.fac_rows.specs.SeenOwn.{own_seen};
ghost use Rattle.fac_rows.specs.inner.InputCalls.{base_behind, IsFit};

use crate::leaving::leave;
use crate::numbers::{counted_inputs, outer_in, row_number, row_out, rows, word_inputs};
use crate::taking::take_inputs;
use crate::{Called, OwnEffect, has_rows};
use fac_abs::{MarkNode, Marks, Rule, same_base};
use fac_base::{Effect, Input, Memory};

// Whether a mark is that of the input with this number.
fn is_input(marks: &Marks, mark: u32, number: u32) -> bool
    requires { IsMark marks.now mark }
    ensures { (N : Naming) → result ≡ mark_eq (mark_of N marks.now mark) (par_mark number) }
{
    match marks.node(mark) {
        MarkNode::Par(input) => input == number,
        MarkNode::Any => false,
        MarkNode::Lit(_, _) => false,
        MarkNode::Cur(_, _) => false,
        MarkNode::Com(_, _) => false,
        MarkNode::Wrd(_) => false,
    }
}

// The first quotation input that isn't the word's own input of that place.
fn other(marks: &Marks, list: &[Input], inputs: u32) -> Option<u32>
    requires few { length list.now ≤ MOST_EFFECT_NAMES }
    requires inputs { IsStack marks.now inputs }
    ensures { (N : Naming) → result ≡ other_input 1 (inputs_tree list.now) (stack_of N marks.now inputs) }
{
    let mut rest = inputs;
    let mut number = 1;
    for input in list {
        match marks.pop(rest) {
            None => return None,
            Some((mark, below)) => {
                if input.quot.is_some() && !is_input(marks, mark, number) {
                    return Some(number);
                }
                rest = below;
                number += 1;
            }
        }
    }
    None
}

// The number of the output row of an effect that has one.
fn output_number(own: OwnEffect<'_>) -> Result<u32, Memory>
    ensures { IfOk result (λ n. (x : List ℕ) → leaving_name (effect_leaving own.entry.effect.now) ≡ Some x → n ≡ side_number 1 x (sides own.entry.effect.now)) }
{
    let numbered = own.numbered;
    match row_out(&numbered.outs) {
        None => Ok(0),
        Some(name) => row_number(numbered, name),
    }
}

// The outer output row of an effect, as the base of a stack.
fn own_out(own: OwnEffect<'_>) -> Result<Option<u32>, Memory>
    ensures { IfOk result (λ b. (N : Naming) → NamesRows N own.entry.effect.now → base_seen N b ≡ outer_out own.entry.effect.now) }
{
    let effect = own.effect;
    match row_out(&effect.outs) {
        Some(_) => Ok(Some(output_number(own)?)),
        None => {
            if has_rows(effect) {
                return Ok(None);
            }
            Ok(Some(0))
        }
    }
}

// The own recursive call, on what lies below its inputs.
fn own_rest(
    marks: &mut Marks,
    own: OwnEffect<'_>,
    base: Option<u32>,
    rest: u32,
) -> Result<Called, Memory>
    requires { IsStack marks.old rest }
    ensures grows { Grows marks.old marks.new }
    ensures there { IfOk result (λ c. IsCalled marks.new c) }
    ensures calls { IfOk result (λ c. (N : Naming) → NamesRows N own.entry.effect.now → called_seen N marks.new c ≡ own_rest_call own.entry.effect.now (base_seen N base) (stack_of N marks.old rest)) }
{
    let effect = own.effect;
    let found = marks.height(rest);
    if same_base(base, outer_in(effect)) && found == 0 {
        let under = own_out(own)?;
        let left = leave(marks, &effect.outs, under, rest)?;
        return Ok(Called::Leaves(left));
    }
    Ok(Called::Breaks(Rule::Rows {
        input: 0,
        expected: 0,
        found,
    }))
}

/// The own recursive call of the row word with this effect. It needs the word's own inputs, as they were handed in, on its outer input row, and
/// leaves what the word declares on its outer output row.
#[tactic(auto, using(fac_base::proofs::EffectLemmas::inputs_counted))]
pub fn own_call(
    marks: &mut Marks,
    own: OwnEffect<'_>,
    base: Option<u32>,
    stack: u32,
) -> Result<Called, Memory>
    requires few { (effect_height own.effect.now).ins ≤ MOST_EFFECT_NAMES }
    requires stack { IsStack marks.old stack }
    ensures grows { Grows marks.old marks.new }
    ensures there { IfOk result (λ c. IsCalled marks.new c) }
    ensures calls { IfOk result (λ c. (N : Naming) → NamesRows N own.entry.effect.now → called_seen N marks.new c ≡ own_call own.entry.effect.now (base_seen N base) (stack_of N marks.old stack)) }
{
    let effect = own.effect;
    match take_inputs(marks, effect, stack)? {
        None => {
            let needs = word_inputs(effect);
            let has = marks.height(stack);
            Ok(Called::Breaks(Rule::Underflow { needs, has }))
        }
        Some(taken) => match other(marks, &effect.ins, taken.inputs) {
            Some(input) => Ok(Called::Breaks(Rule::RecursiveInput { input })),
            None => own_rest(marks, own, base, taken.rest),
        },
    }
}

// The effect of a quotation input, counted from 1.
fn effect_of_input(effect: &Effect, input: u32) -> Option<&Effect>
    ensures { option_copied result ≡ input_effect input (effect_inputs effect.now) }
{
    if input == 0 {
        return None;
    }
    match effect.ins.get(input as usize - 1) {
        None => None,
        Some(found) => match &found.quot {
            None => None,
            Some(quot) => Some(quot),
        },
    }
}

// The number of the input row of a quotation input that has one.
fn input_row_number(own: OwnEffect<'_>, input: u32) -> Result<u32, Memory>
    ensures { IfOk result (λ n. (q : Signature) (x : List ℕ) → Some q ≡ input_effect input (effect_inputs own.entry.effect.now) → row_name q ≡ Some x → n ≡ side_number 1 x (sides own.entry.effect.now)) }
{
    match effect_of_input(own.numbered, input) {
        None => Ok(0),
        Some(called) => match &called.row_in {
            None => Ok(0),
            Some(name) => row_number(own.numbered, name),
        },
    }
}

// The number of the output row of a quotation input that has one.
fn output_row_number(own: OwnEffect<'_>, input: u32) -> Result<u32, Memory>
    ensures { IfOk result (λ n. (q : Signature) (x : List ℕ) → Some q ≡ input_effect input (effect_inputs own.entry.effect.now) → leaving_name (effect_leaving q) ≡ Some x → n ≡ side_number 1 x (sides own.entry.effect.now)) }
{
    match effect_of_input(own.numbered, input) {
        None => Ok(0),
        Some(called) => match row_out(&called.outs) {
            None => Ok(0),
            Some(name) => row_number(own.numbered, name),
        },
    }
}

// What lies below the inputs of a quotation input that is called, where the call is right.
fn fit(
    marks: &Marks,
    own: OwnEffect<'_>,
    called: &Effect,
    input: u32,
    base: Option<u32>,
    stack: u32,
) -> Result<Option<u32>, Memory>
    requires stack { IsStack marks.now stack }
    requires called { Some called.now ≡ input_effect input (effect_inputs own.effect.now) }
    ensures { IfOk result (λ o. IsFit marks.now own.entry.effect.now called.now input base stack o) }
{
    match marks.below(stack, counted_inputs(called)?) {
        None => Ok(None),
        Some(rest) => match &called.row_in {
            None => Ok(Some(rest)),
            Some(_) => {
                let row = input_row_number(own, input)?;
                if same_base(base, Some(row)) && marks.height(rest) == 0 {
                    return Ok(Some(rest));
                }
                Ok(None)
            }
        },
    }
}

// The base on which a quotation input leaves its outputs.
fn behind(
    own: OwnEffect<'_>,
    called: &Effect,
    input: u32,
    base: Option<u32>,
) -> Result<Option<u32>, Memory>
    requires { Some called.now ≡ input_effect input (effect_inputs own.effect.now) }
    ensures { IfOk result (λ b. (N : Naming) → NamesRows N own.entry.effect.now → base_seen N b ≡ base_behind called.now (base_seen N base)) }
{
    match &called.row_in {
        None => Ok(base),
        Some(_) => match row_out(&called.outs) {
            None => Ok(None),
            Some(_) => Ok(Some(output_row_number(own, input)?)),
        },
    }
}

// The rule that a call of a quotation input with this effect breaks.
fn input_rule(
    marks: &Marks,
    own: OwnEffect<'_>,
    called: &Effect,
    input: u32,
    base: Option<u32>,
    stack: u32,
) -> Result<Option<Rule>, Memory>
    requires stack { IsStack marks.now stack }
    requires called { Some called.now ≡ input_effect input (effect_inputs own.effect.now) }
    ensures { IfOk result (λ o. (N : Naming) → NamesRows N own.entry.effect.now → o ≡ rule_of_call (calls_input input called.now (base_seen N base) (stack_of N marks.now stack))) }
{
    match fit(marks, own, called, input, base, stack)? {
        Some(_) => Ok(None),
        None => {
            let expected = counted_inputs(called)?;
            Ok(Some(rows(marks, input, expected, stack)))
        }
    }
}

/// The rule that a call of a quotation input inside its row word breaks, where `own` is the effect of the word that is checked, if it is a row
/// word. `par` breaks the same one; this makes no stack.
pub fn par_rule(
    marks: &Marks,
    own: Option<OwnEffect<'_>>,
    input: u32,
    base: Option<u32>,
    stack: u32,
) -> Result<Option<Rule>, Memory>
    requires { IsStack marks.now stack }
    ensures { IfOk result (λ o. (N : Naming) → NamesOwn N (own_seen own.entry) → o ≡ rule_of_call (calls_own input (own_seen own.entry) (base_seen N base) (stack_of N marks.now stack))) }
{
    match own {
        None => Ok(Some(rows(marks, input, 0, stack))),
        Some(own) => match effect_of_input(own.effect, input) {
            None => Ok(Some(rows(marks, input, 0, stack))),
            Some(called) => input_rule(marks, own, called, input, base, stack),
        },
    }
}

// A call of a quotation input with this effect.
fn input_call(
    marks: &mut Marks,
    own: OwnEffect<'_>,
    called: &Effect,
    input: u32,
    base: Option<u32>,
    stack: u32,
) -> Result<Called, Memory>
    requires stack { IsStack marks.old stack }
    requires called { Some called.now ≡ input_effect input (effect_inputs own.effect.now) }
    ensures grows { Grows marks.old marks.new }
    ensures there { IfOk result (λ c. IsCalled marks.new c) }
    ensures calls { IfOk result (λ c. (N : Naming) → NamesRows N own.entry.effect.now → called_seen N marks.new c ≡ calls_input input called.now (base_seen N base) (stack_of N marks.old stack)) }
{
    match fit(marks, own, called, input, base, stack)? {
        Some(rest) => {
            let under = behind(own, called, input, base)?;
            let left = leave(marks, &called.outs, under, rest)?;
            Ok(Called::Leaves(left))
        }
        None => {
            let expected = counted_inputs(called)?;
            Ok(Called::Breaks(rows(marks, input, expected, stack)))
        }
    }
}

/// A call of a quotation input inside its row word, where `own` is the effect of the word that is checked, if it is a row word. An input with row
/// variables needs its input row as base with exactly its inputs on it, and gives its output row.
pub fn par(
    marks: &mut Marks,
    own: Option<OwnEffect<'_>>,
    input: u32,
    base: Option<u32>,
    stack: u32,
) -> Result<Called, Memory>
    requires { IsStack marks.old stack }
    ensures grows { Grows marks.old marks.new }
    ensures there { IfOk result (λ c. IsCalled marks.new c) }
    ensures calls { IfOk result (λ c. (N : Naming) → NamesOwn N (own_seen own.entry) → called_seen N marks.new c ≡ calls_own input (own_seen own.entry) (base_seen N base) (stack_of N marks.old stack)) }
{
    match own {
        None => Ok(Called::Breaks(rows(marks, input, 0, stack))),
        Some(own) => match effect_of_input(own.effect, input) {
            None => Ok(Called::Breaks(rows(marks, input, 0, stack))),
            Some(called) => input_call(marks, own, called, input, base, stack),
        },
    }
}
