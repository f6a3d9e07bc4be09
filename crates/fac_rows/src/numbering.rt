//! Effects whose rows are named by their numbers. Each row is compared with those of its effect once, and a use of the effect then compares names of
//! two bytes. A number that no effect of a program has is want of memory.
ghost use Rattle.std.specs.Prelude.{◌≡◌, ◌∷◌, [], IfOk};
ghost use Rattle.fac_base.specs.EffectView.{inputs_tree, outs_leaving};
ghost use Rattle.fac_rows.specs.NumberedRows.{number_name, numbered_side, numbered_leaving, numbered_inputs, numbered_within, numbered, row_entry};

use crate::numbers::row_number;
use crate::{RowEffect, bindable, is_row_word};
use fac_base::{Boxed, Duplicate, Effect, Input, Memory, Outs, Text};
use fac_lang::WordDef;
use std::alloc::Global;

// The name of the row with this number.
fn number_name(alloc: Global, number: u32) -> Result<Text, Memory>
    ensures { IfOk result (λ name. name ≡ number_name number) }
{
    if number >= 128 * 128 {
        return Err(Memory);
    }
    let mut name = Text::new(alloc);
    name.push_ascii((number / 128) as u8)?;
    name.push_ascii((number % 128) as u8)?;
    Ok(name)
}

// The row variable of a side, named by its number in an effect.
fn numbered_side(alloc: Global, outer: &Effect, side: &Option<Text>) -> Result<Option<Text>, Memory>
    ensures { IfOk result (λ made. made ≡ numbered_side outer.now side.now) }
{
    match side {
        None => Ok(None),
        Some(name) => {
            let number = row_number(outer, name)?;
            Ok(Some(number_name(alloc, number)?))
        }
    }
}

// What an effect leaves, with its row variable named so.
fn numbered_outs(alloc: Global, outer: &Effect, outs: &Outs) -> Result<Outs, Memory>
    ensures { IfOk result (λ made. outs_leaving made ≡ numbered_leaving outer.now (outs_leaving outs.now)) }
{
    match outs {
        Outs::Never => Ok(Outs::Never),
        Outs::Left { row, names } => {
            let row = numbered_side(alloc, outer, row)?;
            let names = names.copy(alloc)?;
            Ok(Outs::Left { row, names })
        }
    }
}

// An input with the rows of its effect named so.
#[cycle(numbered)]
fn numbered_input(alloc: Global, outer: &Effect, input: &Input) -> Result<Input, Memory>
    ensures { IfOk result (λ made. inputs_tree (made ∷ []) ≡ numbered_inputs outer.now (inputs_tree (input.now ∷ []))) }
{
    let name = input.name.copy(alloc)?;
    match &input.quot {
        None => Ok(Input { name, quot: None }),
        Some(effect) => {
            let made = numbered_within(alloc, outer, effect)?;
            let quot = Some(Box::new(alloc, made)?);
            Ok(Input { name, quot })
        }
    }
}

// Inputs with the rows of their effects named so.
#[cycle(numbered)]
fn numbered_inputs(alloc: Global, outer: &Effect, inputs: &[Input]) -> Result<Vec<Input>, Memory>
    ensures { IfOk result (λ made. inputs_tree made.items ≡ numbered_inputs outer.now (inputs_tree inputs.now)) }
{
    let mut made = Vec::with_capacity(alloc, inputs.len())?;
    for input in inputs {
        made.push(numbered_input(alloc, outer, input)?)?;
    }
    Ok(made)
}

// An effect with its rows named by their numbers in the outer one.
#[cycle(numbered)]
fn numbered_within(alloc: Global, outer: &Effect, effect: &Effect) -> Result<Effect, Memory>
    ensures { IfOk result (λ made. made ≡ numbered_within outer.now effect.now) }
{
    let row_in = numbered_side(alloc, outer, &effect.row_in)?;
    let ins = numbered_inputs(alloc, outer, &effect.ins)?;
    let outs = numbered_outs(alloc, outer, &effect.outs)?;
    Ok(Effect { row_in, ins, outs })
}

// An effect with its rows named by their numbers.
fn numbered(alloc: Global, effect: &Effect) -> Result<Effect, Memory>
    ensures { IfOk result (λ made. made ≡ numbered effect.now) }
{
    numbered_within(alloc, effect, effect)
}

/// What is made once of the effect of a word, where it is that of a row word.
pub fn row_entry(alloc: Global, word: &WordDef) -> Result<Option<Boxed<RowEffect>>, Memory>
    ensures { IfOk result (λ entry. entry ≡ row_entry word.now) }
{
    if !is_row_word(word) {
        return Ok(None);
    }
    let numbered = numbered(alloc, &word.effect)?;
    let bindable = bindable(&word.effect);
    Ok(Some(Boxed::new(alloc, RowEffect { numbered, bindable })?))
}
