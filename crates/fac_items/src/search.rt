//! The search of a name.
ghost use Rattle.std.specs.Prelude.{◌≡◌, fold, IfOk, OnOk};
ghost use Rattle.fac_source.specs.Refusals.{fault, sooner};
ghost use Rattle.fac_items.specs.FromElements.{tok};
ghost use Rattle.fac_items.specs.Items.{is_cond, ref, search_fault, word_of};
ghost use Rattle.fac_items.specs.inner.Search.{IsAmbiguous};

use crate::known_rows::is_cond_word;
use fac_base::{Memory, Text};
use fac_effect::text;
use fac_source::{NameFault, NameKind, Ref, Tok, Token, refuse_name};
use fac_vocab::{Found, Scope};
use std::alloc::Global;

/// Refuses a token.
pub fn refuse_token(
    alloc: Global,
    first: &mut Option<NameFault>,
    kind: NameKind,
    token: &Token,
) -> Result<(), Memory>
    ensures { OnOk result (first.new ≡ sooner first.old (fault kind (tok token.now))) }
{
    refuse_name(alloc, first, kind, text(&token.kind), token.place)
}

/// The name that a token spells.
pub fn tok_of(alloc: Global, token: &Token) -> Result<Tok, Memory>
    ensures { IfOk result (λ name. name ≡ tok token.now) }
{
    let name = Text::from_str(alloc, text(&token.kind))?;
    Ok(Tok {
        text: name,
        place: token.place,
    })
}

// Refuses a name that several used vocabularies hold.
#[tactic(auto, using(crate::proofs::SearchLemmas::several_refused, crate::proofs::SearchLemmas::several_none))]
fn refuse_ambiguous(
    alloc: Global,
    scope: &Scope,
    first: &mut Option<NameFault>,
    token: &Token,
) -> Result<(), Memory>
    requires { IsAmbiguous scope.now (tok token.now) }
    ensures { OnOk result (first.new ≡ fold sooner first.old (search_fault scope.now (tok token.now))) }
{
    match scope.ambiguity(alloc, text(&token.kind)) {
        Ok(Some((a, b))) => refuse_token(alloc, first, NameKind::Ambiguous(a, b), token),
        Ok(None) => unreachable!(),
        Err(Memory) => Err(Memory),
    }
}

// The word of a name, where it isn't refused.
#[tactic(auto, using(crate::proofs::SearchLemmas::word_found, crate::proofs::SearchLemmas::word_unrefused, crate::proofs::SearchLemmas::none_found, crate::proofs::SearchLemmas::none_refused, crate::proofs::SearchLemmas::several_word))]
fn find(
    alloc: Global,
    scope: &Scope,
    first: &mut Option<NameFault>,
    token: &Token,
) -> Result<Option<u32>, Memory>
    ensures word { IfOk result (λ word. word ≡ (ref scope.now (tok token.now)).word) }
    ensures first { OnOk result (first.new ≡ fold sooner first.old (search_fault scope.now (tok token.now))) }
{
    match scope.find(text(&token.kind)) {
        Found::Word(number) => Ok(Some(number)),
        Found::Unknown => {
            refuse_token(alloc, first, NameKind::Unknown, token)?;
            Ok(None)
        }
        Found::Ambiguous(_, _) => {
            refuse_ambiguous(alloc, scope, first, token)?;
            Ok(None)
        }
    }
}

/// The number of the word of a name, or 0 where the name is refused.
pub fn word_of(
    alloc: Global,
    scope: &Scope,
    first: &mut Option<NameFault>,
    token: &Token,
) -> Result<u32, Memory>
    ensures word { IfOk result (λ number. number ≡ word_of scope.now (tok token.now)) }
    ensures first { OnOk result (first.new ≡ fold sooner first.old (search_fault scope.now (tok token.now))) }
{
    match find(alloc, scope, first, token) {
        Ok(Some(number)) => Ok(number),
        Ok(None) => Ok(0),
        Err(Memory) => Err(Memory),
    }
}

/// A name with its word, where it isn't refused.
pub fn refer(
    alloc: Global,
    scope: &Scope,
    first: &mut Option<NameFault>,
    token: &Token,
) -> Result<Ref, Memory>
    ensures name { IfOk result (λ name. name ≡ ref scope.now (tok token.now)) }
    ensures first { OnOk result (first.new ≡ fold sooner first.old (search_fault scope.now (tok token.now))) }
{
    let tok = tok_of(alloc, token)?;
    match find(alloc, scope, first, token) {
        Ok(word) => Ok(Ref { tok, word }),
        Err(Memory) => Err(Memory),
    }
}

/// Whether the search takes a name to the word `cond`.
#[tactic(auto, using(crate::proofs::SearchLemmas::cond_found, crate::proofs::SearchLemmas::cond_unknown, crate::proofs::SearchLemmas::cond_several))]
pub fn is_cond(scope: &Scope, name: &str) -> bool
    ensures { result ≡ is_cond scope.now name.now }
{
    match scope.find(name) {
        Found::Word(number) => is_cond_word(number),
        Found::Unknown => false,
        Found::Ambiguous(_, _) => false,
    }
}
