//! The effect of tokens that are known to be an effect's. Of a token only the dots and the colon are looked at, and whether it is a sign.
ghost use Rattle.std.specs.Prelude.{◌≡◌, ◌≤◌, ◌∷◌, [], true, false, length, is_some, IfOk, MatchOption};
ghost use Rattle.std.specs.Option.{option_copied};
ghost use Rattle.std.specs.Str.{bytes_eq};
ghost use Rattle.fac_base.specs.declared.limits.TheConstants.{MOST_NAMES};
ghost use Rattle.fac_base.specs.EffectView.{inputs_tree, outs_leaving};
ghost use Rattle.fac_base.specs.Signatures.{signature, value, no_inputs};
ghost use Rattle.fac_effect.specs.Spellings.{token_text, is_described_name};
ghost use Rattle.fac_effect.specs.WrittenEffects.{without_colon};
ghost use Rattle.fac_effect.specs.EffectReading.{after, whole};
ghost use Rattle.fac_effect.specs.SaidEffects.{effect_of};
ghost use Rattle.fac_effect.specs.RowlessEffects.{opened_tokens, behind_opens};
ghost use Rattle.fac_base.specs.declared.place.Place.{Place};
ghost use Rattle.fac_base.specs.Effects.{effect_height};
ghost use Rattle.fac_effect.specs.inner.EffectParts.{first_row, without_row, names_of, leaving_of, behind_first, is_text, first_unless, begins_with, begins_never};
ghost use Rattle.fac_effect.specs.inner.EffectParts.{GivesDescribed, GivesEntry, GivesEntries, GivesOuts, GivesOpened, GivesEffect};

use crate::spelling::{begins_with_dots, text};
use fac_base::{Effect, Height, Input, List, Memory, Outs, Text};
use fac_source::Token;
use std::alloc::Global;

// Whether a token is of this text.
fn has_text(token: &Token, sign: &str) -> bool
    ensures { result ≡ is_text token.now sign.now }
{
    text(&token.kind) == sign
}

/// A name without the colon in which it ends. None where it ends in none.
pub fn described_name(name: &str) -> Option<&str>
    ensures { MatchOption result (is_described_name name.now ≡ false) (λ stem. (is_described_name name.now ≡ true) × (stem.now ≡ without_colon name.now)) }
{
    name.strip_suffix(":")
}

// An input of this name.
fn plain_input(alloc: Global, name: &str) -> Result<Input, Memory>
    ensures { IfOk result (λ input. inputs_tree (input ∷ []) ≡ value name.now no_inputs) }
{
    let name = Text::from_str(alloc, name)?;
    Ok(Input { name, quot: None })
}

// Whether the first of these is a row variable.
fn begins_with_row(inputs: &[Input]) -> bool
    ensures { result ≡ is_some (first_row (inputs_tree inputs.now)) }
{
    match inputs.first() {
        Some(input) => begins_with_dots(input.name.as_str()),
        None => false,
    }
}

// The name of an input.
fn into_name(input: Input) -> Text
    ensures { result ≡ input.name }
{
    let Input { name, .. } = input;
    name
}

// Takes the row variable out, which is the first where there is one.
fn take_row(inputs: &mut Vec<Input>) -> Option<Text>
    ensures row { result ≡ first_row (inputs_tree inputs.old.items) }
    ensures others { inputs_tree inputs.new.items ≡ without_row (inputs_tree inputs.old.items) }
{
    if begins_with_row(inputs) {
        Some(into_name(inputs.remove(0)))
    } else {
        None
    }
}

// The names of inputs.
fn names(alloc: Global, inputs: Vec<Input>) -> Result<List<Text>, Memory>
    ensures { IfOk result (λ names. names ≡ names_of (inputs_tree inputs.items)) }
{
    let mut names = List::new(alloc);
    for input in inputs {
        names.push(into_name(input))?;
    }
    Ok(names)
}

// What an effect leaves whose outputs are these.
fn left(alloc: Global, mut outputs: Vec<Input>) -> Result<Outs, Memory>
    ensures { IfOk result (λ outs. outs_leaving outs ≡ leaving_of (inputs_tree outputs.items)) }
{
    let row = take_row(&mut outputs);
    let names = names(alloc, outputs)?;
    Ok(Outs::Left { row, names })
}

// The effect of all of its inputs and of what it leaves.
fn effect_with(mut inputs: Vec<Input>, outs: Outs) -> Effect
    ensures { result ≡ signature (first_row (inputs_tree inputs.items)) (without_row (inputs_tree inputs.items)) (outs_leaving outs) }
{
    let row_in = take_row(&mut inputs);
    Effect {
        row_in,
        ins: inputs,
        outs,
    }
}

// The tokens that are left.
#[derive(Drop)]
struct Tokens<'a> {
    tokens: &'a [Token],
}

impl<'a> Tokens<'a> {
    // Passes the first token.
    fn skip(&mut self)
        ensures { self.new.tokens.now ≡ behind_first self.old.tokens.now }
    {
        if let Some((_, behind)) = self.tokens.split_first() {
            self.tokens = behind;
        }
    }

    // Takes the first token. None where it is of this text, and it is passed then too, or there is none.
    fn next_before(&mut self, end: &str) -> Option<&'a Token>
        ensures token { option_copied result ≡ first_unless end.now self.old.tokens.now }
        ensures left { self.new.tokens.now ≡ behind_first self.old.tokens.now }
    {
        match self.tokens.split_first() {
            Some((token, behind)) => {
                self.tokens = behind;
                if has_text(token, end) {
                    None
                } else {
                    Some(token)
                }
            }
            None => None,
        }
    }

    // Whether the first token is of this text.
    fn begin_with(&self, sign: &str) -> bool
        ensures { result ≡ begins_with sign.now self.now.tokens.now }
    {
        match self.tokens.first() {
            Some(token) => has_text(token, sign),
            None => false,
        }
    }

    // Whether a side begins that is a lone `*`.
    fn begin_never(&self) -> bool
        ensures { result ≡ begins_never self.now.tokens.now }
    {
        match self.tokens.split_first() {
            Some((token, behind)) => {
                has_text(token, "*") && Tokens { tokens: behind }.begin_with(")")
            }
            None => false,
        }
    }

    // The input of this name, which a class or an effect describes.
    #[cycle(parts)]
    fn described(&mut self, alloc: Global, name: &str) -> Result<Input, Memory>
        ensures gives { GivesDescribed name.now self.old.tokens.now self.new.tokens.now result }
        ensures shorter { length self.new.tokens.now ≤ length self.old.tokens.now }
    {
        if self.begin_with("(") {
            let effect = self.effect(alloc)?;
            let name = Text::from_str(alloc, name)?;
            let quot = Some(Box::new(alloc, effect)?);
            Ok(Input { name, quot })
        } else {
            self.skip();
            plain_input(alloc, name)
        }
    }

    // The input that an entry is, which begins with this token.
    #[cycle(parts)]
    fn entry(&mut self, alloc: Global, token: &Token) -> Result<Input, Memory>
        ensures gives { GivesEntry token.now self.old.tokens.now self.new.tokens.now result }
        ensures shorter { length self.new.tokens.now ≤ length self.old.tokens.now }
    {
        let name = text(&token.kind);
        match described_name(name) {
            Some(stem) => self.described(alloc, stem),
            None => plain_input(alloc, name),
        }
    }

    // All entries of a side as inputs, up to the token of this text, which is passed.
    #[cycle(parts)]
    fn entries(&mut self, alloc: Global, end: &str) -> Result<Vec<Input>, Memory>
        ensures gives { GivesEntries end.now self.old.tokens.now self.new.tokens.now result }
        ensures shorter { length self.new.tokens.now ≤ length self.old.tokens.now }
    {
        let mut inputs = Vec::new(alloc);
        while let Some(token) = self.next_before(end) {
            inputs.push(self.entry(alloc, token)?)?;
        }
        Ok(inputs)
    }

    // What an effect leaves.
    #[cycle(parts)]
    fn outs(&mut self, alloc: Global) -> Result<Outs, Memory>
        ensures gives { GivesOuts self.old.tokens.now self.new.tokens.now result }
        ensures shorter { length self.new.tokens.now ≤ length self.old.tokens.now }
    {
        if self.begin_never() {
            self.skip();
            self.skip();
            Ok(Outs::Never)
        } else {
            let outputs = self.entries(alloc, ")")?;
            left(alloc, outputs)
        }
    }

    // The effect that begins.
    #[cycle(parts)]
    fn effect(&mut self, alloc: Global) -> Result<Effect, Memory>
        ensures gives { GivesEffect self.old.tokens.now self.new.tokens.now result }
        ensures shorter { length self.new.tokens.now ≤ length self.old.tokens.now }
    {
        self.skip();
        self.opened(alloc)
    }

    // The effect whose `(` was passed.
    #[cycle(parts)]
    fn opened(&mut self, alloc: Global) -> Result<Effect, Memory>
        ensures gives { GivesOpened self.old.tokens.now self.new.tokens.now result }
        ensures shorter { length self.new.tokens.now ≤ length self.old.tokens.now }
    {
        let inputs = self.entries(alloc, "--")?;
        let outs = self.outs(alloc)?;
        Ok(effect_with(inputs, outs))
    }
}

/// The effect whose tokens these are. Want of memory is the one error.
pub fn effect_from(alloc: Global, tokens: &[Token]) -> Result<Effect, Memory>
    requires { after tokens.now ≡ whole }
    ensures { IfOk result (λ effect. effect ≡ effect_of tokens.now) }
{
    Tokens { tokens }.effect(alloc)
}

// The effect whose tokens behind its `(` are these.
fn effect_behind(alloc: Global, tokens: &[Token]) -> Result<Effect, Memory>
    requires { behind_opens tokens.now ≡ whole }
    ensures { IfOk result (λ effect. (opens : Place) → effect ≡ effect_of (opened_tokens opens tokens.now)) }
{
    Tokens { tokens }.opened(alloc)
}

// How many values an effect takes and leaves.
fn height_of(effect: &Effect) -> Height
    requires { (effect_height effect.now).ins ≤ MOST_NAMES }
    ensures { result ≡ effect_height effect.now }
{
    Height {
        ins: effect.inputs() as u32,
        outs: effect.outputs(),
    }
}

/// How many values an effect declares to be taken and left whose tokens behind its `(` are these. Want of memory is the one error.
pub fn declared_height(alloc: Global, tokens: &[Token]) -> Result<Height, Memory>
    requires { behind_opens tokens.now ≡ whole }
    ensures { IfOk result (λ height. (opens : Place) → height ≡ effect_height (effect_of (opened_tokens opens tokens.now))) }
{
    let effect = effect_behind(alloc, tokens)?;
    Ok(height_of(&effect))
}
