//! What is known behind the prelude and the texts of a session.
ghost use Rattle.std.specs.Prelude.{◌≡◌, [], ◌∷◌, List as Items, ℕ, Err as failed, IfOk, OnOk};
ghost use Rattle.fac_parse.specs.Trees.{IsWellFormed};
ghost use Rattle.fac_prelude.specs.PreludeText.{prelude_text};
ghost use Rattle.fac_vocab.specs.Scopes.{begun, using_all};
ghost use Rattle.fac_names.specs.TakenForms.{HasTaken};
ghost use Rattle.fac_names.specs.TakenTexts.{HasGoneOn};
ghost use Rattle.fac_notes.specs.Sources.{tree};
ghost use Rattle.fac_judge.specs.KnownTexts.{GoesOn, IsKnownBehind};
ghost use Rattle.fac_judge.specs.TextSources.{IsReadAs};
ghost use Rattle.fac_judge.specs.inner.NamedTexts.{KnowsBeginning, KnowsFirst, KnowsNext, KnowsPrelude, NamesForms, NamesText};
ghost use Rattle.fac_judge.specs.inner.ReadTexts.{ReadsText};

use crate::reading::{Unread, forms_of};
use fac_base::{Bytes, List, Memory};
use fac_names::{Known, ResolveFault, Resolver, TextResolver};
use fac_notes::Report;
use fac_parse::Why;
use fac_source::Form;
use fac_vocab::Scope;
use std::alloc::Global;

/// Why there is no session.
#[derive(Drop)]
pub enum SessionFault {
    /// The prelude is refused.
    Prelude(Report),
    /// Memory was wanted.
    Memory,
}

/// Why a text goes on with nothing.
#[derive(Drop)]
pub enum NoNext {
    /// It waits for its end, which is wanted at this token.
    Waits { at: u32 },
    /// It is refused.
    Refused(Report),
    /// Memory was wanted.
    Memory,
}

// Takes the forms of the prelude, where no file was begun.
fn take_prelude(alloc: Global, forms: List<Form>, resolver: &mut Resolver) -> Result<(), Memory>
    requires none { HasTaken [] resolver.old }
    requires forms { IsWellFormed forms }
    ensures { OnOk result (HasTaken (forms ∷ []) resolver.new) }
{
    match resolver.begin_file(alloc) {
        Err(_) => Err(Memory),
        Ok(()) => resolver.take(alloc, forms),
    }
}

// The program of the prelude, which has these forms, with the scope behind it, where no file was begun.
fn resolve_first(
    alloc: Global,
    forms: List<Form>,
    mut resolver: Resolver,
) -> Result<Known, ResolveFault>
    requires none { HasTaken [] resolver }
    requires forms { IsWellFormed forms }
    ensures { KnowsPrelude forms result }
{
    match take_prelude(alloc, forms, &mut resolver) {
        Err(_) => Err(ResolveFault::Memory),
        Ok(()) => resolver.known(alloc),
    }
}

// The program of the prelude, which has these forms, with the scope behind it.
fn prelude_of_forms(alloc: Global, forms: List<Form>) -> Result<Known, ResolveFault>
    requires { IsWellFormed forms }
    ensures { KnowsPrelude forms result }
{
    match Resolver::new(alloc) {
        Err(_) => Err(ResolveFault::Memory),
        Ok(resolver) => resolve_first(alloc, forms, resolver),
    }
}

// The scope in which a session begins, where this is the scope behind the prelude.
fn begin_scope(alloc: Global, scope: &mut Scope) -> Result<(), Memory>
    ensures { OnOk result (scope.new ≡ using_all (begun scope.old)) }
{
    scope.begin(alloc)?;
    scope.use_all(alloc)?;
    Ok(())
}

// What a session begins with, where this is known behind the prelude.
#[tactic(auto, using(crate::proofs::KnownLemmas::session_begins))]
fn begin_session(alloc: Global, known: Known) -> Result<Known, Memory>
    ensures { IfOk result (λ first. first ≡ record { scope = using_all (begun known.scope); program = known.program }) }
{
    let Known { mut scope, program } = known;
    match begin_scope(alloc, &mut scope) {
        Ok(()) => Ok(Known { scope, program }),
        Err(_) => Err(Memory),
    }
}

// What a session begins with, where the prelude has these forms.
fn first_of_forms(alloc: Global, forms: List<Form>) -> Result<Known, ResolveFault>
    requires { IsWellFormed forms }
    ensures { KnowsBeginning forms result }
{
    match prelude_of_forms(alloc, forms) {
        Err(fault) => Err(fault),
        Ok(known) => match begin_session(alloc, known) {
            Err(_) => Err(ResolveFault::Memory),
            Ok(first) => Ok(first),
        },
    }
}

// Why there is no session where the text of the prelude isn't read.
fn no_first(fault: Unread) -> SessionFault
    ensures { ReadsText 0 prelude_text (failed fault) → KnowsFirst (failed result) }
{
    match fault {
        Unread::NoTokens { at, why } => SessionFault::Prelude(Report::Bytes { file: 0, at, why }),
        Unread::NoTree { at, why } => SessionFault::Prelude(Report::Syntax { file: 0, at, why }),
        Unread::Memory => SessionFault::Memory,
    }
}

// What is known before the first text, where the prelude has these forms.
fn first_of_prelude(alloc: Global, forms: List<Form>) -> Result<Known, SessionFault>
    requires { IsReadAs 0 prelude_text (tree forms) }
    ensures { KnowsFirst result }
{
    match first_of_forms(alloc, forms) {
        Err(ResolveFault::Memory) => Err(SessionFault::Memory),
        Err(ResolveFault::Name(fault)) => Err(SessionFault::Prelude(Report::Name(fault))),
        Ok(first) => Ok(first),
    }
}

/// What is known before the first text, or why there is no session. The verdict on the prelude's words isn't asked for here.
pub fn first_known(alloc: Global) -> Result<Known, SessionFault>
    ensures { KnowsFirst result }
{
    match forms_of(alloc, 0, fac_prelude::text().as_bytes()) {
        Err(fault) => Err(no_first(fault)),
        Ok(forms) => first_of_prelude(alloc, forms),
    }
}

// What is known behind a text of these forms, where none was taken.
fn resolve_text(
    alloc: Global,
    forms: List<Form>,
    mut resolver: TextResolver,
) -> Result<Known, ResolveFault>
    requires { IsWellFormed forms }
    ensures { (known : Known) → HasGoneOn known [] resolver → KnowsNext known forms result }
{
    match resolver.take(alloc, forms) {
        Err(_) => Err(ResolveFault::Memory),
        Ok(()) => resolver.end(alloc),
    }
}

// What is known behind a text of these forms.
fn next_of_forms(alloc: Global, known: Known, forms: List<Form>) -> Result<Known, ResolveFault>
    requires { IsWellFormed forms }
    ensures { KnowsNext known forms result }
{
    match TextResolver::new(alloc, known) {
        Err(_) => Err(ResolveFault::Memory),
        Ok(resolver) => resolve_text(alloc, forms, resolver),
    }
}

// What a text of these forms goes on with, or why with nothing.
fn name_forms(alloc: Global, known: Known, forms: List<Form>) -> Result<Known, NoNext>
    requires { IsWellFormed forms }
    ensures { NamesForms known forms result }
{
    match next_of_forms(alloc, known, forms) {
        Err(ResolveFault::Memory) => Err(NoNext::Memory),
        Err(ResolveFault::Name(fault)) => Err(NoNext::Refused(Report::Name(fault))),
        Ok(next) => Ok(next),
    }
}

// Why a text that isn't read goes on with nothing.
fn no_next(fault: Unread) -> NoNext
    ensures { (known : Known) (text : Items ℕ) → ReadsText 1 text (failed fault) → NamesText known text (failed result) }
{
    match fault {
        Unread::NoTokens { at, why } => NoNext::Refused(Report::Bytes { file: 1, at, why }),
        Unread::NoTree { at, why } => match why {
            Why::End => NoNext::Waits { at },
            Why::Other => NoNext::Refused(Report::Syntax {
                file: 1,
                at,
                why: Why::Other,
            }),
        },
        Unread::Memory => NoNext::Memory,
    }
}

/// What is known behind a text, which is file 1, or why it goes on with nothing.
pub fn next_known(alloc: Global, known: Known, text: &[u8]) -> Result<Known, NoNext>
    ensures { NamesText known text.now result }
{
    match forms_of(alloc, 1, text) {
        Err(fault) => Err(no_next(fault)),
        Ok(forms) => name_forms(alloc, known, forms),
    }
}

// What is known behind a text that goes on.
fn one_more(alloc: Global, known: Known, text: &Bytes) -> Result<Known, Memory>
    ensures { IfOk result (GoesOn known text.now) }
{
    match next_known(alloc, known, text.as_slice()) {
        Ok(next) => Ok(next),
        Err(_) => Err(Memory),
    }
}

// What is known behind the prelude.
fn behind_prelude(alloc: Global) -> Result<Known, Memory>
    ensures { IfOk result (IsKnownBehind []) }
{
    match first_known(alloc) {
        Ok(first) => Ok(first),
        Err(_) => Err(Memory),
    }
}

/// What is known behind the prelude and these texts, which went on before. Want of memory is the one error.
pub fn known_behind(alloc: Global, texts: &[Bytes]) -> Result<Known, Memory>
    requires { (known : Known) × IsKnownBehind texts.now known }
    ensures { IfOk result (IsKnownBehind texts.now) }
{
    let mut known = behind_prelude(alloc)?;
    for text in texts {
        let next = one_more(alloc, known, text)?;
        known = next;
    }
    Ok(known)
}
