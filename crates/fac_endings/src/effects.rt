//! Effects of plain values.
ghost use Rattle.std.specs.Prelude.{◌≡◌, ◌++◌, ◌∷◌, [], map, IfOk, OnOk};
ghost use Rattle.fac_lang.specs.Whole.{plain_effect};
ghost use Rattle.fac_endings.specs.Words.{no_effect};
ghost use Rattle.fac_endings.specs.inner.PlainEffects.{plain_input};

use fac_base::{Effect, Input, List, Memory, Outs, Text};
use std::alloc::Global;

/// The effect of a word that takes and leaves nothing.
pub fn no_effect(alloc: Global) -> Effect
    ensures { result ≡ no_effect }
{
    Effect {
        row_in: None,
        ins: Vec::new(alloc),
        outs: Outs::Left {
            row: None,
            names: List::new(alloc),
        },
    }
}

// Adds an input that is a plain value.
fn add_input(alloc: Global, inputs: &mut Vec<Input>, name: &str) -> Result<(), Memory>
    ensures { OnOk result (inputs.new.items ≡ inputs.old.items ++ plain_input name.now ∷ []) }
{
    let name = Text::from_str(alloc, name)?;
    inputs.push(Input { name, quot: None })?;
    Ok(())
}

/// Inputs that are plain values.
pub fn inputs(alloc: Global, names: &[&str]) -> Result<Vec<Input>, Memory>
    ensures { IfOk result (λ inputs. inputs.items ≡ map plain_input (map (λ name. name.now) names.now)) }
{
    let mut inputs = Vec::with_capacity(alloc, names.len())?;
    for name in names {
        add_input(alloc, &mut inputs, name)?;
    }
    Ok(inputs)
}

// Inputs that are plain values with the names of a list.
fn listed_inputs(alloc: Global, names: &[Text]) -> Result<Vec<Input>, Memory>
    ensures { IfOk result (λ inputs. inputs.items ≡ map plain_input names.now) }
{
    let mut inputs = Vec::with_capacity(alloc, names.len())?;
    for name in names {
        add_input(alloc, &mut inputs, name.as_str())?;
    }
    Ok(inputs)
}

// Adds a copy of a text.
fn add_text(alloc: Global, texts: &mut List<Text>, text: &str) -> Result<(), Memory>
    ensures { OnOk result (texts.new ≡ texts.old ++ text.now ∷ []) }
{
    texts.push(Text::from_str(alloc, text)?)
}

// An empty list with room for so many texts.
fn room_for_texts(alloc: Global, count: usize) -> Result<List<Text>, Memory>
    ensures { IfOk result (λ list. list ≡ []) }
{
    match u32::try_from(count) {
        Ok(count) => List::with_room(alloc, count),
        Err(_) => Err(Memory),
    }
}

/// Copies of texts.
pub fn texts(alloc: Global, names: &[&str]) -> Result<List<Text>, Memory>
    ensures { IfOk result (λ texts. texts ≡ map (λ name. name.now) names.now) }
{
    let mut texts = room_for_texts(alloc, names.len())?;
    for name in names {
        add_text(alloc, &mut texts, name)?;
    }
    Ok(texts)
}

/// The effect of a word that takes and leaves plain values.
#[tactic(auto, using(crate::proofs::PlainEffectLemmas::plain_tree))]
pub fn plain_effect(alloc: Global, ins: &[&str], outs: &[&str]) -> Result<Effect, Memory>
    ensures { IfOk result (λ effect. effect ≡ plain_effect (map (λ name. name.now) ins.now) (map (λ name. name.now) outs.now)) }
{
    let ins = inputs(alloc, ins)?;
    match texts(alloc, outs) {
        Ok(names) => Ok(Effect {
            row_in: None,
            ins,
            outs: Outs::Left { row: None, names },
        }),
        Err(Memory) => Err(Memory),
    }
}

/// The effect of a word that takes plain values with the names of a list, and leaves one.
#[tactic(auto, using(crate::proofs::PlainEffectLemmas::plain_tree))]
pub fn one_output(alloc: Global, ins: &[Text], out: &str) -> Result<Effect, Memory>
    ensures { IfOk result (λ effect. effect ≡ plain_effect ins.now (out.now ∷ [])) }
{
    let ins = listed_inputs(alloc, ins)?;
    match texts(alloc, &[out]) {
        Ok(names) => Ok(Effect {
            row_in: None,
            ins,
            outs: Outs::Left { row: None, names },
        }),
        Err(Memory) => Err(Memory),
    }
}
