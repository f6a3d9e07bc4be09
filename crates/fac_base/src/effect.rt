//! Stack effects, which contracts see as trees.
ghost use Rattle.std.specs.Prelude.{◌≡◌, ◌∷◌, [], IfOk};
ghost use Rattle.fac_base.specs.EffectView.{inputs_tree};

use crate::{Duplicate, List, Memory, Text};
use std::alloc::Global;
use std::marker::Model;

/// A stack effect: the row variable and the inputs of its left side, and what it leaves. Contracts see it as a tree.
#[derive(Drop)]
#[cycle(effect)]
pub struct Effect {
    /// The row variable of the inputs, with its two dots and without a colon.
    pub row_in: Option<Text>,
    /// The inputs, the deepest first.
    pub ins: Vec<Input>,
    /// What it leaves, in their place.
    pub outs: Outs,
}

/// An input, with the effect of a quotation where one is written.
#[derive(Drop)]
#[cycle(effect)]
pub struct Input {
    /// The name, without the colon behind which it is described. It has no meaning of its own.
    pub name: Text,
    /// The written effect of the quotation that is taken here.
    pub quot: Option<Box<Effect>>,
}

/// What an effect leaves.
#[derive(Drop)]
pub enum Outs {
    /// The word doesn't return: its right side is `*`.
    Never,
    /// The word leaves these.
    Left {
        /// The row variable of the outputs, with its two dots and without a colon.
        row: Option<Text>,
        /// The outputs, the deepest first.
        names: List<Text>,
    },
}

impl Model for Effect {
    ghost use Rattle.fac_base.specs.Signatures.{Signature, coded_signature};

    ghost Value = { Signature };

    ghost coded = { coded_signature };

    ghost use Rattle.fac_base.specs.EffectView.{effect_tree};
    ghost use Rattle.fac_base.specs.Signatures.{signature_depth};

    ghost view = { effect_tree };

    ghost size = { signature_depth };

    ghost use Rattle.fac_base.specs.inner.EffectFalls.{deep_falls};

    ghost size_decreases = { λ e h. deep_falls e.ins.items };
}

impl Duplicate for Outs {
    fn copy(&self, alloc: Global) -> Result<Outs, Memory> {
        match self {
            Outs::Never => Ok(Outs::Never),
            Outs::Left { row, names } => {
                let row = row.copy(alloc)?;
                let names = names.copy(alloc)?;
                Ok(Outs::Left { row, names })
            }
        }
    }
}

impl Input {
    /// An input that stands for the same tree.
    #[cycle(copy)]
    fn copy(&self, alloc: Global) -> Result<Input, Memory>
        ensures { IfOk result (λ input. inputs_tree (input ∷ []) ≡ inputs_tree (self.now ∷ [])) }
    {
        let name = self.name.copy(alloc)?;
        match &self.quot {
            None => Ok(Input { name, quot: None }),
            Some(effect) => {
                let copied = Effect::copy(effect, alloc)?;
                let quot = Some(Box::new(alloc, copied)?);
                Ok(Input { name, quot })
            }
        }
    }
}

// Inputs that stand for the same tree.
#[cycle(copy)]
#[tactic(auto, using(crate::proofs::EffectLemmas::more_inputs_trees))]
fn copy_inputs(alloc: Global, inputs: &[Input]) -> Result<Vec<Input>, Memory>
    ensures { IfOk result (λ copied. inputs_tree copied.items ≡ inputs_tree inputs.now) }
{
    let mut copied = Vec::with_capacity(alloc, inputs.len())?;
    for input in inputs {
        copied.push(input.copy(alloc)?)?;
    }
    Ok(copied)
}

impl Effect {
    /// An equal effect. Want of memory is the one error.
    #[cycle(copy)]
    pub fn copy(&self, alloc: Global) -> Result<Effect, Memory>
        ensures { IfOk result (λ e. e ≡ self.now) }
    {
        let row_in = self.row_in.copy(alloc)?;
        let ins = copy_inputs(alloc, &self.ins)?;
        let outs = self.outs.copy(alloc)?;
        Ok(Effect { row_in, ins, outs })
    }
}

impl Effect {
    ghost use Rattle.std.specs.Prelude.{ℕ};
    ghost use Rattle.fac_base.specs.Effects.{effect_height};

    /// The number of inputs, without those that the row variable stands for.
    #[tactic(auto, using(crate::proofs::EffectLemmas::inputs_counted))]
    pub fn inputs(&self) -> usize
        ensures { result ≡ (effect_height self.now).ins }
    {
        self.ins.len()
    }

    /// The number of outputs, without those that the row variable stands for, or None where the word never returns.
    pub fn outputs(&self) -> Option<u32>
        ensures { result ≡ (effect_height self.now).outs }
    {
        match &self.outs {
            Outs::Never => None,
            Outs::Left { names, .. } => Some(names.len()),
        }
    }
}

impl Duplicate for Effect {
    fn copy(&self, alloc: Global) -> Result<Effect, Memory> {
        Effect::copy(self, alloc)
    }
}
