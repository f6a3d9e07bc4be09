//! What forms define and do, but for those with items and those of classes.
ghost use Rattle.std.specs.Prelude.{◌≡◌, ◌∷◌, [], map, false, fold, IfOk, OnOk};
ghost use Rattle.fac_lang.specs.declared.phrase.What.TheVariants.{Word};
ghost use Rattle.fac_vocab.specs.Scopes.{begun};
ghost use Rattle.fac_endings.specs.declared.draft.Late.TheVariants.{Settled};
ghost use Rattle.fac_items.specs.FromElements.{tok};
ghost use Rattle.fac_items.specs.Written.{f_defer, f_from, f_generic, f_in, f_main, f_private, f_public, f_qualified, f_symbol, f_using};
ghost use Rattle.fac_names.specs.Forms.{bring_one, scoped, take, use_one};
ghost use Rattle.fac_names.specs.inner.State.{reading_of};

use crate::drafts::WordFacts;
use crate::naming::{defer, own};
use crate::so_far::SoFar;
use fac_base::{Effect, Memory, Place};
use fac_effect::text;
use fac_endings::{Late, plain_effect};
use fac_items::{refuse_token, word_of};
use fac_lang::{Item, Sort, What};
use fac_source::{NameKind, Token};
use fac_vocab::ScopeFault;
use std::alloc::Global;

/// A file begins.
pub fn begin_file(alloc: Global, so_far: &mut SoFar) -> Result<(), Memory>
    ensures { OnOk result (reading_of so_far.new ≡ scoped begun (reading_of so_far.old)) }
{
    so_far.scope.begin(alloc)?;
    Ok(())
}

/// Takes an `IN:`.
pub fn enter(alloc: Global, so_far: &mut SoFar, vocab: &Token) -> Result<(), Memory>
    ensures { OnOk result (reading_of so_far.new ≡ take (f_in (tok vocab.now)) (reading_of so_far.old)) }
{
    so_far.scope.enter(alloc, text(&vocab.kind))?;
    Ok(())
}

/// Takes a `<PRIVATE`.
pub fn open_private(so_far: &mut SoFar)
    ensures { reading_of so_far.new ≡ take f_private (reading_of so_far.old) }
{
    so_far.scope.private();
}

/// Takes a `PRIVATE>`.
pub fn close_private(so_far: &mut SoFar)
    ensures { reading_of so_far.new ≡ take f_public (reading_of so_far.old) }
{
    so_far.scope.public();
}

// Each form that names a vocabulary has a match of its own: its call of the scope says by itself which faults it never answers.

/// Takes a `USE:`, or one vocabulary of a `USING:`.
pub fn use_vocab(alloc: Global, so_far: &mut SoFar, vocab: &Token) -> Result<(), Memory>
    ensures { OnOk result (reading_of so_far.new ≡ use_one (reading_of so_far.old) (tok vocab.now)) }
{
    match so_far.scope.use_vocab(alloc, text(&vocab.kind)) {
        Ok(()) => Ok(()),
        Err(ScopeFault::NoVocab) => {
            refuse_token(alloc, &mut so_far.first, NameKind::NoVocab, vocab)?;
            Ok(())
        }
        Err(ScopeFault::Memory) => Err(Memory),
        Err(ScopeFault::Twice) => unreachable!(),
        Err(ScopeFault::Unknown) => unreachable!(),
    }
}

/// Takes a `USING:`.
pub fn use_all(alloc: Global, so_far: &mut SoFar, vocabs: &[Token]) -> Result<(), Memory>
    ensures { OnOk result (reading_of so_far.new ≡ take (f_using (map tok vocabs.now)) (reading_of so_far.old)) }
{
    for vocab in vocabs {
        use_vocab(alloc, so_far, vocab)?;
    }
    Ok(())
}

/// Takes a `QUALIFIED-WITH:`.
pub fn qualify(
    alloc: Global,
    so_far: &mut SoFar,
    vocab: &Token,
    prefix: &Token,
) -> Result<(), Memory>
    ensures { OnOk result (reading_of so_far.new ≡ take (f_qualified (tok vocab.now) (tok prefix.now)) (reading_of so_far.old)) }
{
    match so_far
        .scope
        .qualified(alloc, text(&vocab.kind), text(&prefix.kind))
    {
        Ok(()) => Ok(()),
        Err(ScopeFault::NoVocab) => {
            refuse_token(alloc, &mut so_far.first, NameKind::NoVocab, vocab)?;
            Ok(())
        }
        Err(ScopeFault::Memory) => Err(Memory),
        Err(ScopeFault::Twice) => unreachable!(),
        Err(ScopeFault::Unknown) => unreachable!(),
    }
}

// Takes one name of a `FROM:`.
fn bring(alloc: Global, so_far: &mut SoFar, vocab: &Token, name: &Token) -> Result<(), Memory>
    ensures { OnOk result (reading_of so_far.new ≡ bring_one (tok vocab.now).text (reading_of so_far.old) (tok name.now)) }
{
    match so_far
        .scope
        .bring(alloc, text(&vocab.kind), text(&name.kind))
    {
        Ok(()) => Ok(()),
        Err(ScopeFault::Unknown) => {
            refuse_token(alloc, &mut so_far.first, NameKind::Unknown, name)?;
            Ok(())
        }
        Err(ScopeFault::Memory) => Err(Memory),
        Err(ScopeFault::Twice) => unreachable!(),
        Err(ScopeFault::NoVocab) => unreachable!(),
    }
}

// Takes the names of a `FROM:` whose vocabulary exists.
fn bring_all(
    alloc: Global,
    so_far: &mut SoFar,
    vocab: &Token,
    names: &[Token],
) -> Result<(), Memory>
    ensures { OnOk result (reading_of so_far.new ≡ fold (bring_one (tok vocab.now).text) (reading_of so_far.old) (map tok names.now)) }
{
    for name in names {
        bring(alloc, so_far, vocab, name)?;
    }
    Ok(())
}

/// Takes a `FROM:`.
pub fn from(alloc: Global, so_far: &mut SoFar, vocab: &Token, names: &[Token]) -> Result<(), Memory>
    ensures { OnOk result (reading_of so_far.new ≡ take (f_from (tok vocab.now) (map tok names.now)) (reading_of so_far.old)) }
{
    if so_far.scope.exists(text(&vocab.kind)) {
        bring_all(alloc, so_far, vocab, names)
    } else {
        refuse_token(alloc, &mut so_far.first, NameKind::NoVocab, vocab)?;
        Ok(())
    }
}

/// Takes a `DEFER:`.
pub fn take_defer(alloc: Global, so_far: &mut SoFar, name: &Token) -> Result<(), Memory>
    ensures { OnOk result (reading_of so_far.new ≡ take (f_defer (tok name.now)) (reading_of so_far.old)) }
{
    defer(alloc, so_far, name)
}

/// What a word is that has no marks and of which nothing is late.
pub fn plainly(sort: Sort, effect: Effect) -> WordFacts
    ensures sort { result.sort ≡ sort }
    ensures effect { result.effect ≡ effect }
    ensures inline { result.inline ≡ false }
    ensures recursive { result.recursive ≡ false }
    ensures late { result.late ≡ Settled }
{
    WordFacts {
        sort,
        effect,
        inline: false,
        recursive: false,
        late: Late::Settled,
    }
}

/// Takes a `SYMBOL:`.
pub fn symbol(alloc: Global, so_far: &mut SoFar, name: &Token) -> Result<(), Memory>
    ensures { OnOk result (reading_of so_far.new ≡ take (f_symbol (tok name.now)) (reading_of so_far.old)) }
{
    let number = own(alloc, so_far, name)?;
    let effect = plain_effect(alloc, &[], &["value"])?;
    so_far.drafts.tell(number, plainly(Sort::Itself, effect))
}

/// Takes a `GENERIC:`.
pub fn generic(
    alloc: Global,
    so_far: &mut SoFar,
    name: &Token,
    effect: Effect,
) -> Result<(), Memory>
    ensures { OnOk result (reading_of so_far.new ≡ take (f_generic (tok name.now) effect) (reading_of so_far.old)) }
{
    let number = own(alloc, so_far, name)?;
    so_far.drafts.tell(number, plainly(Sort::Generic, effect))
}

/// One item, which names a word.
pub fn sole_item(alloc: Global, number: u32, place: Place) -> Result<Vec<Item>, Memory>
    ensures { IfOk result (λ items. items.items ≡ (record { what = Word number; place = place }) ∷ []) }
{
    let mut items = Vec::new(alloc);
    items.push(Item {
        what: What::Word(number),
        place,
    })?;
    Ok(items)
}

/// Takes a `MAIN:`.
pub fn take_main(alloc: Global, so_far: &mut SoFar, name: &Token) -> Result<(), Memory>
    ensures { OnOk result (reading_of so_far.new ≡ take (f_main (tok name.now)) (reading_of so_far.old)) }
{
    let number = word_of(alloc, &so_far.scope, &mut so_far.first, name)?;
    let main = sole_item(alloc, number, name.place)?;
    so_far.main = main;
    Ok(())
}
