//! What the forms of classes define.
ghost use Rattle.std.specs.Prelude.{◌≡◌, ◌+◌, ◌++◌, ◌∷◌, ◌&&◌, [], codes, fold, length, map, nat_le, nat_lt, IfOk, OnOk};
ghost use Rattle.std.specs.Option.{option_copied, option_map};
ghost use Rattle.fac_lang.specs.declared.program.Sort.TheVariants.{Isa};
ghost use Rattle.fac_source.specs.Refusals.{fault_if, sooner};
ghost use Rattle.fac_source.specs.declared.refusal.NameKind.TheVariants.{TooMany};
ghost use Rattle.fac_vocab.specs.Scopes.{home};
ghost use Rattle.fac_items.specs.FromElements.{tok};
ghost use Rattle.fac_items.specs.Items.{ref, search_fault, search_faults};
ghost use Rattle.fac_items.specs.Written.{f_single, f_union};
ghost use Rattle.fac_names.specs.Forms.{class_words, most_classes, option_list, own, plainly, take};
ghost use Rattle.fac_names.specs.inner.Named.{option_tok, toks};
ghost use Rattle.fac_names.specs.inner.State.{IsClassWord, reading_of};
ghost use Rattle.fac_names.specs.inner.Tuples.{tuple_form};

use crate::forms::plainly;
use crate::naming::{define_name, full_name, own};
use crate::so_far::SoFar;
use fac_base::limits::MOST_CLASSES;
use fac_base::{List, Memory, Name};
use fac_effect::text;
use fac_endings::{Named, NewClass, plain_effect};
use fac_items::{refer, refuse_token, tok_of};
use fac_lang::Sort;
use fac_source::{NameFault, NameKind, Ref, Tok, Token};
use fac_vocab::Scope;
use std::alloc::Global;

// The number of the class that comes next.
fn next_class(so_far: &SoFar) -> Result<u32, Memory>
    ensures { IfOk result (λ number. number ≡ length so_far.now.old_classes + length so_far.now.classes) }
{
    match so_far.old_classes.len().checked_add(so_far.classes.len()) {
        Some(number) => Ok(number),
        None => Err(Memory),
    }
}

// The word of a class.
fn class_word(alloc: Global, so_far: &mut SoFar, name: &Token, class: u32) -> Result<u32, Memory>
    ensures { IfOk result (λ number. IsClassWord so_far.old (tok name.now) class number so_far.new) }
{
    let number = own(alloc, so_far, name)?;
    let effect = plain_effect(alloc, &[], &["value"])?;
    so_far
        .drafts
        .tell(number, plainly(Sort::Class(class), effect))?;
    Ok(number)
}

// The full name of a predicate.
fn predicate_name(alloc: Global, scope: &Scope, name: &Token) -> Result<Name, Memory>
    ensures { IfOk result (λ full. full ≡ record { vocab = home scope.now; name = (tok name.now).text ++ codes "?" }) }
{
    let mut full = full_name(alloc, scope.home(), text(&name.kind))?;
    full.name.push_str("?")?;
    Ok(full)
}

// The predicate of a class.
fn predicate(alloc: Global, so_far: &mut SoFar, name: &Token, class: u32) -> Result<(), Memory>
    ensures { OnOk result (reading_of so_far.new ≡ plainly (Isa class) (codes "object" ∷ []) (codes "?" ∷ []) (own (record { text = (tok name.now).text ++ codes "?"; place = (tok name.now).place }) (reading_of so_far.old))) }
{
    let full = predicate_name(alloc, &so_far.scope, name)?;
    let number = define_name(alloc, so_far, full, name.place)?;
    let effect = plain_effect(alloc, &["object"], &["?"])?;
    so_far
        .drafts
        .tell(number, plainly(Sort::Isa(class), effect))
}

// Refuses a class that is one too many, where so many were defined before it.
fn refuse_too_many(
    alloc: Global,
    first: &mut Option<NameFault>,
    name: &Token,
    before: u64,
) -> Result<(), Memory>
    ensures { OnOk result (first.new ≡ fold sooner first.old (fault_if (nat_lt 0 (tok name.now).place.file && nat_le most_classes before) TooMany (tok name.now))) }
{
    if name.place.file > 0 && MOST_CLASSES <= before {
        refuse_token(alloc, first, NameKind::TooMany, name)
    } else {
        Ok(())
    }
}

// The words of a class form: the class, whose number is answered, and its predicate.
fn class_words(alloc: Global, so_far: &mut SoFar, name: &Token) -> Result<u32, Memory>
    ensures { IfOk result (λ number. record { word = number; reading = reading_of so_far.new } ≡ class_words (tok name.now) (reading_of so_far.old)) }
{
    let class = next_class(so_far)?;
    let before = so_far.drafts.classes();
    let number = class_word(alloc, so_far, name, class)?;
    refuse_too_many(alloc, &mut so_far.first, name, before)?;
    predicate(alloc, so_far, name, class)?;
    Ok(number)
}

// Adds the class of a form.
fn add_class(
    alloc: Global,
    so_far: &mut SoFar,
    name: &Token,
    word: u32,
    names: Named,
) -> Result<(), Memory>
    ensures { OnOk result (reading_of so_far.new ≡ record (reading_of so_far.old) { classes = so_far.old.classes ++ (record { tok = tok name.now; word = word; names = names }) ∷ [] }) }
{
    let tok = tok_of(alloc, name)?;
    so_far.classes.push(NewClass { tok, word, names })?;
    Ok(())
}

/// Takes a `SINGLETON:`.
pub fn singleton(alloc: Global, so_far: &mut SoFar, name: &Token) -> Result<(), Memory>
    ensures { OnOk result (reading_of so_far.new ≡ take (f_single (tok name.now)) (reading_of so_far.old)) }
{
    let word = class_words(alloc, so_far, name)?;
    add_class(alloc, so_far, name, word, Named::Single)
}

// Adds a name with its word.
fn add_ref(
    alloc: Global,
    scope: &Scope,
    first: &mut Option<NameFault>,
    refs: &mut List<Ref>,
    token: &Token,
) -> Result<(), Memory>
    ensures refs { OnOk result (refs.new ≡ refs.old ++ ref scope.now (tok token.now) ∷ []) }
    ensures first { OnOk result (first.new ≡ fold sooner first.old (search_fault scope.now (tok token.now))) }
{
    let name = refer(alloc, scope, first, token)?;
    refs.push(name)?;
    Ok(())
}

// Names with their words.
fn refs_of(
    alloc: Global,
    scope: &Scope,
    first: &mut Option<NameFault>,
    tokens: &[Token],
) -> Result<List<Ref>, Memory>
    ensures refs { IfOk result (λ refs. refs ≡ map (ref scope.now) (toks tokens.now)) }
    ensures first { OnOk result (first.new ≡ fold sooner first.old (search_faults scope.now (toks tokens.now))) }
{
    let mut refs = List::new(alloc);
    for token in tokens {
        add_ref(alloc, scope, first, &mut refs, token)?;
    }
    Ok(refs)
}

/// Takes a `UNION:`.
pub fn union(
    alloc: Global,
    so_far: &mut SoFar,
    name: &Token,
    members: &[Token],
) -> Result<(), Memory>
    ensures { OnOk result (reading_of so_far.new ≡ take (f_union (tok name.now) (toks members.now)) (reading_of so_far.old)) }
{
    let word = class_words(alloc, so_far, name)?;
    let refs = refs_of(alloc, &so_far.scope, &mut so_far.first, members)?;
    add_class(alloc, so_far, name, word, Named::Union(refs))
}

// The parent of a tuple class with its word, where one is written.
fn parent_of(
    alloc: Global,
    scope: &Scope,
    first: &mut Option<NameFault>,
    parent: Option<&Token>,
) -> Result<Option<Ref>, Memory>
    ensures parent { IfOk result (λ found. found ≡ option_map (ref scope.now) (option_tok (option_copied parent.entry))) }
    ensures first { OnOk result (first.new ≡ fold sooner first.old (search_faults scope.now (option_list (option_tok (option_copied parent.entry))))) }
{
    match parent {
        Some(token) => match refer(alloc, scope, first, token) {
            Ok(name) => Ok(Some(name)),
            Err(Memory) => Err(Memory),
        },
        None => Ok(None),
    }
}

// The names that tokens spell.
fn toks_of(alloc: Global, tokens: &[Token]) -> Result<List<Tok>, Memory>
    ensures { IfOk result (λ names. names ≡ toks tokens.now) }
{
    let mut names = List::new(alloc);
    for token in tokens {
        names.push(tok_of(alloc, token)?)?;
    }
    Ok(names)
}

/// Takes a `TUPLE:`, but for its accessors.
pub fn tuple(
    alloc: Global,
    so_far: &mut SoFar,
    name: &Token,
    parent: Option<&Token>,
    slots: &[Token],
) -> Result<(), Memory>
    ensures { OnOk result (reading_of so_far.new ≡ tuple_form (tok name.now) (option_tok (option_copied parent.entry)) (toks slots.now) (reading_of so_far.old)) }
{
    let word = class_words(alloc, so_far, name)?;
    let parent = parent_of(alloc, &so_far.scope, &mut so_far.first, parent)?;
    let own = toks_of(alloc, slots)?;
    add_class(alloc, so_far, name, word, Named::Tuple(parent, own))
}
