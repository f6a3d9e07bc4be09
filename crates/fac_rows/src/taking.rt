//! The inputs of a row word: their marks are taken off a stack, tested, and put on one for the walk of the word itself.
ghost use Rattle.std.specs.Prelude.{◌≡◌, ◌≤◌, ◌∷◌, [], length, IfOk};
ghost use Rattle.fac_base.specs.declared.limits.TheConstants.{MOST_EFFECT_NAMES};
ghost use Rattle.fac_base.specs.EffectView.{inputs_tree};
ghost use Rattle.fac_base.specs.Effects.{inputs_count, effect_height};
ghost use Rattle.fac_abs.specs.RowVariables.{effect_inputs};
ghost use Rattle.fac_abs.specs.SeenMarks.{IsStack, Grows, stack_of};
ghost use Rattle.fac_abs.specs.MarkPromises.{IsStackOf};
ghost use Rattle.fac_abs.specs.MarkTrees.{Naming};
ghost use Rattle.fac_rows.specs.RowBinding.{inputs_known, inputs_marks};
ghost use Rattle.fac_rows.specs.SeenBindings.{IsTaken};

use crate::TakenInputs;
use crate::numbers::count_inputs;
use fac_abs::Marks;
use fac_base::{Effect, Input, Memory};

/// Takes so many values off a stack. None where there are fewer.
pub fn take(marks: &mut Marks, stack: u32, count: usize) -> Result<Option<TakenInputs>, Memory>
    requires { IsStack marks.old stack }
    ensures grows { Grows marks.old marks.new }
    ensures taken { IfOk result (λ o. IsTaken marks.old marks.new count stack o) }
{
    let mut inputs = marks.empty();
    let mut rest = stack;
    let mut left = count;
    while left > 0 {
        match marks.pop(rest) {
            None => return Ok(None),
            Some((mark, below)) => {
                inputs = marks.push(inputs, mark)?;
                rest = below;
                left -= 1;
            }
        }
    }
    Ok(Some(TakenInputs { inputs, rest }))
}

/// Takes the inputs of a word off a stack. None where there are fewer values.
pub fn take_inputs(
    marks: &mut Marks,
    effect: &Effect,
    stack: u32,
) -> Result<Option<TakenInputs>, Memory>
    requires { IsStack marks.old stack }
    ensures grows { Grows marks.old marks.new }
    ensures taken { IfOk result (λ o. IsTaken marks.old marks.new (inputs_count (effect_inputs effect.now)) stack o) }
{
    take(marks, stack, count_inputs(effect))
}

// Whether the marks of the quotation inputs among these are callable.
fn known(marks: &Marks, list: &[Input], inputs: u32) -> bool
    requires { IsStack marks.now inputs }
    ensures { (N : Naming) → result ≡ inputs_known (inputs_tree list.now) (stack_of N marks.now inputs) }
{
    let mut rest = inputs;
    for input in list {
        match marks.pop(rest) {
            None => return false,
            Some((mark, below)) => {
                if input.quot.is_some() && !marks.is_callable(mark) {
                    return false;
                }
                rest = below;
            }
        }
    }
    true
}

/// Whether the marks of the quotation inputs are callable, among the marks of all inputs.
pub fn known_inputs(marks: &Marks, effect: &Effect, inputs: u32) -> bool
    requires { IsStack marks.now inputs }
    ensures { (N : Naming) → result ≡ inputs_known (effect_inputs effect.now) (stack_of N marks.now inputs) }
{
    known(marks, &effect.ins, inputs)
}

// Puts the mark of an input on a stack: that of input `number` for a quotation, and else an unknown one.
fn put_input(marks: &mut Marks, stack: u32, input: &Input, number: u32) -> Result<u32, Memory>
    requires { IsStack marks.old stack }
    ensures grows { Grows marks.old marks.new }
    ensures made { IfOk result (λ s. IsStackOf marks.new s (λ N. inputs_marks number (inputs_tree (input.now ∷ [])) (stack_of N marks.old stack))) }
{
    match &input.quot {
        None => marks.unknowns(stack, 1),
        Some(_) => {
            let mark = marks.par(number)?;
            marks.push(stack, mark)
        }
    }
}

// The marks of these inputs on an empty stack.
fn put_inputs(marks: &mut Marks, list: &[Input]) -> Result<u32, Memory>
    requires { length list.now ≤ MOST_EFFECT_NAMES }
    ensures grows { Grows marks.old marks.new }
    ensures made { IfOk result (λ s. IsStackOf marks.new s (λ N. inputs_marks 1 (inputs_tree list.now) [])) }
{
    let mut stack = marks.empty();
    let mut number: u32 = 1;
    for input in list {
        stack = put_input(marks, stack, input, number)?;
        number += 1;
    }
    Ok(stack)
}

/// The stack from which a row word is walked, without its row: a mark of its own for each quotation input, and unknown values for the others.
#[tactic(auto, using(fac_base::proofs::EffectLemmas::inputs_counted))]
pub fn inputs_marks(marks: &mut Marks, effect: &Effect) -> Result<u32, Memory>
    requires { (effect_height effect.now).ins ≤ MOST_EFFECT_NAMES }
    ensures grows { Grows marks.old marks.new }
    ensures made { IfOk result (λ s. IsStackOf marks.new s (λ N. inputs_marks 1 (effect_inputs effect.now) [])) }
{
    put_inputs(marks, &effect.ins)
}
