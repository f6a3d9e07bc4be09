//! The inputs of an effect, as they are written.
ghost use Rattle.std.specs.Prelude.{◌≡◌, false, fold, map, true, IfOk, MatchOption, OnOk};
ghost use Rattle.fac_base.specs.Signatures.{Signature};
ghost use Rattle.fac_effect.specs.WrittenEffects.{IsEffect, is_colon, is_row, without_colon};
ghost use Rattle.fac_effect.specs.Spellings.{is_described_name};
ghost use Rattle.fac_items.specs.inner.Behind.{name_tok};
ghost use Rattle.fac_names.specs.WrittenInputs.{written_inputs};
ghost use Rattle.fac_names.specs.inner.Walks.{begun, dashes_at_depth, entry_taken, entry_tok, name_at_depth, name_taken, sign_of, sign_taken, token_taken, walk_seen};

use fac_base::Memory;
use fac_effect::text;
use fac_items::NameAt;
use fac_source::Token;
use std::alloc::Global;

// What a token is to an effect.
#[derive(Clone, Copy)]
enum Sign {
    Opens,
    Closes,
    Dashes,
    Name,
}

// Tokens as far as they were read.
#[derive(Drop)]
struct Walk<'a> {
    // How many effects are open.
    depth: usize,
    // Whether the next token describes the one before it.
    described: bool,
    // Whether no entry was read.
    first: bool,
    // Whether all inputs were read.
    done: bool,
    names: Vec<NameAt<'a>>,
}

// What a token is to an effect.
fn sign_of(token: &Token) -> Sign
    ensures { result ≡ sign_of token.now }
{
    let sign = text(&token.kind);
    if sign == "(" {
        return Sign::Opens;
    }
    if sign == ")" {
        return Sign::Closes;
    }
    if sign == "--" {
        return Sign::Dashes;
    }
    Sign::Name
}

// Whether a token is the name of a row variable.
fn is_row(token: &Token) -> bool
    ensures { result ≡ is_row token.now }
{
    text(&token.kind).as_bytes().starts_with(b"..".as_slice())
}

// Whether a name ends in a colon.
fn is_colon(token: &Token) -> bool
    ensures { result ≡ is_colon token.now }
{
    text(&token.kind).as_bytes().ends_with(b":".as_slice())
}

// A name without the colon in which it ends. None where it ends in none.
fn described_name(name: &str) -> Option<&str>
    ensures { MatchOption result (is_described_name name.now ≡ false) (λ stem. (is_described_name name.now ≡ true) × (stem.now ≡ without_colon name.now)) }
{
    name.strip_suffix(":")
}

// The text of an entry's name.
fn entry_text(token: &Token) -> &str
    ensures { result.now ≡ (entry_tok token.now).text }
{
    let name = text(&token.kind);
    match described_name(name) {
        Some(stem) => stem,
        None => name,
    }
}

// The name of an entry.
fn entry_name(token: &Token) -> NameAt<'_>
    ensures { name_tok result ≡ entry_tok token.now }
{
    NameAt {
        text: entry_text(token),
        place: token.place,
    }
}

// Takes the name of an entry, which may be that of the row variable.
fn take_entry<'a>(walk: &mut Walk<'a>, token: &'a Token, row: bool) -> Result<(), Memory>
    ensures { OnOk result (walk_seen walk.new ≡ entry_taken row token.now (walk_seen walk.old)) }
{
    walk.described = is_colon(token);
    walk.first = false;
    if !row {
        walk.names.push(entry_name(token))?;
    }
    Ok(())
}

// Takes a name of the outermost effect.
fn take_name<'a>(walk: &mut Walk<'a>, token: &'a Token) -> Result<(), Memory>
    ensures { OnOk result (walk_seen walk.new ≡ name_taken walk.old.described token.now (walk_seen walk.old)) }
{
    if walk.described {
        walk.described = false;
        Ok(())
    } else {
        let row = walk.first && is_row(token);
        take_entry(walk, token, row)
    }
}

// Takes the sign before the outputs.
fn take_dashes(walk: &mut Walk<'_>)
    ensures { walk_seen walk.new ≡ dashes_at_depth walk.old.depth (walk_seen walk.old) }
{
    if walk.depth == 1 {
        walk.done = true;
    }
}

// Takes a token that is this.
fn take_sign<'a>(walk: &mut Walk<'a>, sign: Sign, token: &'a Token) -> Result<(), Memory>
    ensures { OnOk result (walk_seen walk.new ≡ sign_taken sign token.now (walk_seen walk.old)) }
{
    match sign {
        Sign::Opens => {
            match walk.depth.checked_add(1) {
                Some(depth) => {
                    walk.depth = depth;
                    walk.described = false;
                    Ok(())
                }
                None => Err(Memory),
            }
        }
        Sign::Closes => {
            walk.depth = walk.depth.saturating_sub(1);
            Ok(())
        }
        Sign::Dashes => {
            take_dashes(walk);
            Ok(())
        }
        Sign::Name => {
            if walk.depth == 1 {
                take_name(walk, token)
            } else {
                Ok(())
            }
        }
    }
}

// Takes a token, where inputs are left.
fn take<'a>(walk: &mut Walk<'a>, token: &'a Token) -> Result<(), Memory>
    ensures { OnOk result (walk_seen walk.new ≡ token_taken (walk_seen walk.old) token.now) }
{
    if walk.done {
        Ok(())
    } else {
        take_sign(walk, sign_of(token), token)
    }
}

// Takes tokens.
fn take_all<'a>(walk: &mut Walk<'a>, tokens: &'a [Token]) -> Result<(), Memory>
    ensures { OnOk result (walk_seen walk.new ≡ fold token_taken (walk_seen walk.old) tokens.now) }
{
    for token in tokens {
        take(walk, token)?;
    }
    Ok(())
}

/// The inputs of the effect of these tokens, without its row variable, each where its token stands.
pub fn written_inputs<'a>(alloc: Global, tokens: &'a [Token]) -> Result<Vec<NameAt<'a>>, Memory>
    ensures { IfOk result (λ names. (effect : Signature) → IsEffect tokens.now effect → map name_tok names.items ≡ written_inputs tokens.now) }
{
    let mut walk = Walk {
        depth: 0,
        described: false,
        first: true,
        done: false,
        names: Vec::new(alloc),
    };
    take_all(&mut walk, tokens)?;
    let Walk { names, .. } = walk;
    Ok(names)
}
