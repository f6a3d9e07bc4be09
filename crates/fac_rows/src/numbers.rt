//! The numbers of the rows of an effect, as bases of stacks have them, and numbers of values.
ghost use Rattle.std.specs.Prelude.{◌≡◌, ◌≤◌, ◌+◌, suc, length, Some, IfOk};
ghost use Rattle.std.specs.Option.{option_copied};
ghost use Rattle.fac_base.specs.declared.limits.TheConstants.{MOST_EFFECT_NAMES};
ghost use Rattle.fac_base.specs.EffectView.{inputs_tree, outs_leaving};
ghost use Rattle.fac_base.specs.Effects.{inputs_count, effect_height};
ghost use Rattle.fac_abs.specs.RowVariables.{effect_inputs, outer_in, outer_out, named_row};
ghost use Rattle.fac_abs.specs.declared.rule.Rule.TheVariants.{Rows};
ghost use Rattle.fac_abs.specs.MarkTrees.{Naming};
ghost use Rattle.fac_abs.specs.SeenMarks.{IsStack, base_seen, stack_of};
ghost use Rattle.fac_rows.specs.RowNumbers.{NamesRows, leaving_name, is_named, inputs_sides, side_number, row_number};

use crate::has_rows;
use fac_abs::{Marks, Rule};
use fac_base::{Effect, Input, Memory, Outs, Text};

// A number of values as 32 bits have it. A larger one is want of memory.
fn counted(count: usize) -> Result<u32, Memory>
    ensures { IfOk result (λ n. n ≡ count) }
{
    if count > u32::MAX as usize {
        return Err(Memory);
    }
    Ok(count as u32)
}

/// The number of inputs of an effect.
#[tactic(auto, using(fac_base::proofs::EffectLemmas::inputs_counted))]
pub fn count_inputs(effect: &Effect) -> usize
    ensures { result ≡ inputs_count (effect_inputs effect.now) }
{
    effect.ins.len()
}

/// The number of inputs of a word's effect, which are few.
#[tactic(auto, using(fac_base::proofs::EffectLemmas::inputs_counted))]
pub fn word_inputs(effect: &Effect) -> u32
    requires few { (effect_height effect.now).ins ≤ MOST_EFFECT_NAMES }
    ensures { result ≡ inputs_count (effect_inputs effect.now) }
{
    effect.ins.len() as u32
}

/// The number of inputs of an effect as 32 bits have it. A larger one is want of memory.
pub fn counted_inputs(effect: &Effect) -> Result<u32, Memory>
    ensures { IfOk result (λ n. n ≡ inputs_count (effect_inputs effect.now)) }
{
    counted(count_inputs(effect))
}

/// The sum of two numbers of values. A larger one than 32 bits have is want of memory.
pub fn sum(a: u32, b: u32) -> Result<u32, Memory>
    ensures { IfOk result (λ n. n ≡ a + b) }
{
    match a.checked_add(b) {
        Some(n) => Ok(n),
        None => Err(Memory),
    }
}

/// The rule of rows with these numbers, where a stack stands that has as many values as are found.
pub fn rows(marks: &Marks, input: u32, expected: u32, stack: u32) -> Rule
    requires { IsStack marks.now stack }
    ensures { (N : Naming) → result ≡ Rows input expected (length (stack_of N marks.now stack)) }
{
    let found = marks.height(stack);
    Rule::Rows {
        input,
        expected,
        found,
    }
}

// The next number. One that 32 bits don't have is want of memory.
fn next(number: u32) -> Result<u32, Memory>
    ensures { IfOk result (λ n. n ≡ suc number) }
{
    sum(number, 1)
}

/// The row variable of an output side.
pub fn row_out(outs: &Outs) -> Option<&Text>
    ensures { option_copied result ≡ leaving_name (outs_leaving outs.now) }
{
    match outs {
        Outs::Never => None,
        Outs::Left { row, .. } => row.as_ref(),
    }
}

// Whether a side has the row variable of this name.
fn has_name(name: &Text, side: Option<&Text>) -> bool
    ensures { result ≡ is_named name.now (option_copied side.entry) }
{
    match side {
        None => false,
        Some(other) => name == other,
    }
}

// The number of the first side of these inputs that has this row variable, where the first of all has number 3.
fn side_of_inputs(name: &Text, inputs: &[Input]) -> Result<u32, Memory>
    ensures { IfOk result (λ n. n ≡ side_number 3 name.now (inputs_sides (inputs_tree inputs.now))) }
{
    let mut number = 3;
    for input in inputs {
        if let Some(effect) = &input.quot {
            if has_name(name, effect.row_in.as_ref()) {
                return Ok(number);
            }
            let other = next(number)?;
            if has_name(name, row_out(&effect.outs)) {
                return Ok(other);
            }
            number = next(other)?;
        }
    }
    Ok(number)
}

/// The number of a row variable of an effect.
pub fn row_number(effect: &Effect, name: &Text) -> Result<u32, Memory>
    ensures { IfOk result (λ n. n ≡ row_number effect.now (named_row name.now)) }
{
    if has_name(name, effect.row_in.as_ref()) {
        return Ok(1);
    }
    if has_name(name, row_out(&effect.outs)) {
        return Ok(2);
    }
    side_of_inputs(name, &effect.ins)
}

/// The outer input row of an effect, as the base of a stack.
pub fn outer_in(effect: &Effect) -> Option<u32>
    ensures { (N : Naming) → NamesRows N effect.now → base_seen N result ≡ outer_in effect.now }
{
    match &effect.row_in {
        Some(_) => Some(1),
        None => { if has_rows(effect) { None } else { Some(0) } }
    }
}

/// The outer output row of an effect, as the base of a stack.
pub fn outer_out(effect: &Effect) -> Option<u32>
    ensures { (N : Naming) → NamesRows N effect.now → base_seen N result ≡ outer_out effect.now }
{
    match row_out(&effect.outs) {
        Some(name) => {
            if has_name(name, effect.row_in.as_ref()) {
                Some(1)
            } else {
                Some(2)
            }
        }
        None => { if has_rows(effect) { None } else { Some(0) } }
    }
}
