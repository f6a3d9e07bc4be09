//! The words to which forms give names.
ghost use Rattle.std.specs.Prelude.{◌≡◌, true, false, IfOk, OnOk};
ghost use Rattle.fac_vocab.specs.ScopeCalls.{Stands};
ghost use Rattle.fac_vocab.specs.Scopes.{holders, home, with_entry};
ghost use Rattle.fac_vocab.specs.declared.answers.NameState.TheVariants.{New, Deferred, Defined};
ghost use Rattle.fac_items.specs.FromElements.{tok};
ghost use Rattle.fac_names.specs.Forms.{deferring};
ghost use Rattle.fac_names.specs.inner.State.{Owns, Settles, reading_of, tok_at};

use crate::so_far::SoFar;
use fac_base::{Memory, Name, Place, Text};
use fac_effect::text;
use fac_items::refuse_token;
use fac_source::{NameKind, Token, refuse_name};
use fac_vocab::{NameState, Scope, ScopeFault};
use std::alloc::Global;

/// The full name of a word.
pub fn full_name(alloc: Global, vocab: &str, name: &str) -> Result<Name, Memory>
    ensures { IfOk result (λ full. full ≡ record { vocab = vocab.now; name = name.now }) }
{
    let vocab = Text::from_str(alloc, vocab)?;
    match Text::from_str(alloc, name) {
        Ok(name) => Ok(Name { vocab, name }),
        Err(Memory) => Err(Memory),
    }
}

// The next three make one call, by what the name stands for before it: no caller has two of its cases.

// Defines a new name.
fn define_new(alloc: Global, scope: &mut Scope, name: &Name, number: u32) -> Result<(), Memory>
    requires { Stands scope.old name.now New }
    ensures { OnOk result (scope.new ≡ with_entry name.now.vocab name.now.name number true scope.old) }
{
    match scope.define(alloc, name, number) {
        Ok(()) => Ok(()),
        Err(ScopeFault::Memory) => Err(Memory),
        Err(ScopeFault::Twice) => unreachable!(),
        Err(ScopeFault::NoVocab) => unreachable!(),
        Err(ScopeFault::Unknown) => unreachable!(),
    }
}

// Defines a name that is only deferred so far.
fn settle(alloc: Global, scope: &mut Scope, name: &Name, number: u32) -> Result<(), Memory>
    requires { Stands scope.old name.now (Deferred number) }
    ensures { OnOk result (Settles scope.old name.now number scope.new) }
{
    match scope.define(alloc, name, number) {
        Ok(()) => Ok(()),
        Err(ScopeFault::Memory) => Err(Memory),
        Err(ScopeFault::Twice) => unreachable!(),
        Err(ScopeFault::NoVocab) => unreachable!(),
        Err(ScopeFault::Unknown) => unreachable!(),
    }
}

// Defers a new name.
fn defer_new(alloc: Global, scope: &mut Scope, name: &Name, number: u32) -> Result<(), Memory>
    requires { Stands scope.old name.now New }
    ensures { OnOk result (scope.new ≡ with_entry name.now.vocab name.now.name number false scope.old) }
{
    match scope.defer(alloc, name, number) {
        Ok(()) => Ok(()),
        Err(ScopeFault::Memory) => Err(Memory),
        Err(ScopeFault::Twice) => unreachable!(),
        Err(ScopeFault::NoVocab) => unreachable!(),
        Err(ScopeFault::Unknown) => unreachable!(),
    }
}

// The word of a new name.
fn own_new(alloc: Global, so_far: &mut SoFar, name: Name, place: Place) -> Result<u32, Memory>
    requires { Stands so_far.old.scope name New }
    ensures { IfOk result (λ number. Owns so_far.old name.vocab (tok_at name place) number so_far.new) }
{
    let number = so_far.drafts.len()?;
    define_new(alloc, &mut so_far.scope, &name, number)?;
    so_far.drafts.add(alloc, name, place)?;
    Ok(number)
}

// The word of a name that is only deferred so far.
fn own_deferred(
    alloc: Global,
    so_far: &mut SoFar,
    name: &Name,
    place: Place,
    number: u32,
) -> Result<(), Memory>
    requires { Stands so_far.old.scope name.now (Deferred number) }
    ensures { OnOk result (Owns so_far.old name.now.vocab (tok_at name.now place) number so_far.new) }
{
    settle(alloc, &mut so_far.scope, name, number)?;
    so_far.drafts.move_to(number, place)?;
    Ok(())
}

// The word of a name that is refused, since it is defined already: no name finds it.
fn own_refused(alloc: Global, so_far: &mut SoFar, name: Name, place: Place) -> Result<u32, Memory>
    requires { Stands so_far.old.scope name Defined }
    ensures { IfOk result (λ number. Owns so_far.old name.vocab (tok_at name place) number so_far.new) }
{
    let number = so_far.drafts.len()?;
    refuse_name(
        alloc,
        &mut so_far.first,
        NameKind::Twice,
        name.name.as_str(),
        place,
    )?;
    so_far.drafts.add(alloc, name, place)?;
    Ok(number)
}

/// The number of the word that a form defines under a full name, which stands at this place.
pub fn define_name(
    alloc: Global,
    so_far: &mut SoFar,
    name: Name,
    place: Place,
) -> Result<u32, Memory>
    ensures { IfOk result (λ number. Owns so_far.old name.vocab (tok_at name place) number so_far.new) }
{
    match so_far.scope.standing(&name) {
        NameState::New => own_new(alloc, so_far, name, place),
        NameState::Deferred(number) => {
            own_deferred(alloc, so_far, &name, place, number)?;
            Ok(number)
        }
        NameState::Defined => own_refused(alloc, so_far, name, place),
    }
}

/// The number of the word that a form defines.
pub fn own(alloc: Global, so_far: &mut SoFar, token: &Token) -> Result<u32, Memory>
    ensures { IfOk result (λ number. Owns so_far.old (home so_far.old.scope) (tok token.now) number so_far.new) }
{
    let name = full_name(alloc, so_far.scope.home(), text(&token.kind))?;
    define_name(alloc, so_far, name, token.place)
}

// The word of a new name that is deferred.
fn deferred_new(alloc: Global, so_far: &mut SoFar, name: Name, place: Place) -> Result<(), Memory>
    requires home { name.vocab ≡ home so_far.old.scope }
    requires new { Stands so_far.old.scope name New }
    ensures { OnOk result (reading_of so_far.new ≡ deferring (tok_at name place) (reading_of so_far.old) (holders so_far.old.scope.table (home so_far.old.scope) name.name)) }
{
    let number = so_far.drafts.len()?;
    defer_new(alloc, &mut so_far.scope, &name, number)?;
    so_far.drafts.add(alloc, name, place)?;
    Ok(())
}

/// Defers a name.
pub fn defer(alloc: Global, so_far: &mut SoFar, token: &Token) -> Result<(), Memory>
    ensures { OnOk result (reading_of so_far.new ≡ deferring (tok token.now) (reading_of so_far.old) (holders so_far.old.scope.table (home so_far.old.scope) (tok token.now).text)) }
{
    let name = full_name(alloc, so_far.scope.home(), text(&token.kind))?;
    match so_far.scope.standing(&name) {
        NameState::New => deferred_new(alloc, so_far, name, token.place),
        NameState::Deferred(_) => {
            refuse_token(alloc, &mut so_far.first, NameKind::Twice, token)?;
            Ok(())
        }
        NameState::Defined => {
            refuse_token(alloc, &mut so_far.first, NameKind::Twice, token)?;
            Ok(())
        }
    }
}
