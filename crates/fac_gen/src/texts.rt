//! The texts of programs.
ghost use Rattle.std.specs.Prelude.{◌≡◌, ◌++◌, ◌<◌, IfOk, OnOk};
ghost use Rattle.fac_gen.specs.Generated.{behind_word, between, body, body_at, calling_body, calls, closing, definition, definitions, generated, opening};

use crate::draws::{drawn, next};
use fac_base::{Bytes, Memory};
use itoa::Buffer;
use std::alloc::Global;

// Adds a text.
fn push(text: &mut Bytes, more: &str) -> Result<(), Memory>
    ensures { OnOk result (text.new ≡ text.old ++ more.now) }
{
    text.extend(more.as_bytes())
}

// Adds a number in decimal digits, between two texts.
fn push_between(text: &mut Bytes, before: &str, number: u64, after: &str) -> Result<(), Memory>
    ensures { OnOk result (text.new ≡ text.old ++ between before.now number after.now) }
{
    let mut buffer = Buffer::new();
    push(text, before)?;
    push(text, buffer.format(number))?;
    push(text, after)
}

// Adds the body of a word of this sort.
fn push_body(text: &mut Bytes, sort: u64, number: u64) -> Result<(), Memory>
    ensures { OnOk result (text.new ≡ text.old ++ body sort number) }
{
    if sort == 1 {
        push_between(text, "dup even? [ ", number, " + ] [ 3 * ] if")
    } else if sort == 2 {
        push_between(text, "5 [ ", number, " + ] times")
    } else {
        push_between(text, "", number, " +")
    }
}

// Adds the body of a word that calls an earlier one.
fn push_calling(text: &mut Bytes, earlier: u64, number: u64) -> Result<(), Memory>
    ensures { OnOk result (text.new ≡ text.old ++ calling_body earlier number) }
{
    push_between(text, "w", earlier, " ")?;
    push_between(text, "", number, " -")
}

#[tactic(auto, unfolding(crate::specs::Generated::body_at, crate::specs::Generated::behind_word))]
// Adds the body of the word with the number k, which is drawn from this state, and answers the state behind its draws.
fn push_drawn(text: &mut Bytes, k: u64, state: u64) -> Result<u64, Memory>
    requires { state < 4294967296 }
    ensures is { OnOk result (text.new ≡ text.old ++ body_at k state) }
    ensures state { IfOk result (λ behind. behind ≡ behind_word k state) }
    ensures within { IfOk result (λ behind. behind < 4294967296) }
{
    let first = next(state);
    let second = next(first);
    let sort = drawn(4, first);
    let number = drawn(100, second);
    if sort == 3 && k != 0 {
        let third = next(second);
        push_calling(text, drawn(k, third), number)?;
        Ok(third)
    } else {
        push_body(text, sort, number)?;
        Ok(second)
    }
}

// Adds how the definition of the word with the number k begins.
#[tactic(auto, unfolding(crate::specs::Generated::opening))]
fn push_opening(text: &mut Bytes, k: u64) -> Result<(), Memory>
    ensures { OnOk result (text.new ≡ text.old ++ opening k) }
{
    push_between(text, ": w", k, " ( x -- y ) ")
}

// Adds how a definition ends.
#[tactic(auto, unfolding(crate::specs::Generated::closing))]
fn push_closing(text: &mut Bytes) -> Result<(), Memory>
    ensures { OnOk result (text.new ≡ text.old ++ closing) }
{
    push(text, " 1000 mod ;\n")
}

// Adds the definition of the word with the number k, and answers the state behind its draws.
fn push_definition(text: &mut Bytes, k: u64, state: u64) -> Result<u64, Memory>
    requires { state < 4294967296 }
    ensures is { OnOk result (text.new ≡ text.old ++ definition k (body_at k state)) }
    ensures state { IfOk result (λ behind. behind ≡ behind_word k state) }
    ensures within { IfOk result (λ behind. behind < 4294967296) }
{
    push_opening(text, k)?;
    let behind = push_drawn(text, k, state)?;
    push_closing(text)?;
    Ok(behind)
}

#[tactic(auto, unfolding(crate::specs::Generated::definitions, crate::specs::Generated::state_of))]
// Adds the definitions of so many words.
fn push_definitions(text: &mut Bytes, count: u32, seed: u32) -> Result<(), Memory>
    ensures { OnOk result (text.new ≡ text.old ++ definitions seed count) }
{
    let mut state = u64::from(seed);
    for k in 0..count {
        state = push_definition(text, u64::from(k), state)?;
    }
    Ok(())
}

#[tactic(auto, unfolding(crate::specs::Generated::calls))]
// Adds a line with the name of each of so many words.
fn push_calls(text: &mut Bytes, count: u32) -> Result<(), Memory>
    ensures { OnOk result (text.new ≡ text.old ++ calls count) }
{
    for k in 0..count {
        push_between(text, "w", u64::from(k), "\n")?;
    }
    Ok(())
}

#[tactic(auto, unfolding(crate::specs::Generated::generated))]
/// The program of so many words that are drawn from a seed. Want of memory is the one error.
pub fn generate(alloc: Global, seed: u32, words: u32) -> Result<Bytes, Memory>
    ensures { IfOk result (λ text. text ≡ generated seed words) }
{
    let mut text = Bytes::new(alloc);
    push(&mut text, "USING: kernel math prettyprint ;\nIN: gen\n")?;
    push_definitions(&mut text, words, seed)?;
    push(&mut text, "0\n")?;
    push_calls(&mut text, words)?;
    push(&mut text, ".\n")?;
    Ok(text)
}
