//! Forms to a program.
ghost use Rattle.std.specs.Prelude.{◌≡◌, ◌++◌, ◌∷◌, [], false, map, IfOk, List as Items, OnOk};
ghost use Rattle.fac_lang.specs.Whole.{IsWhole};
ghost use Rattle.fac_source.specs.declared.tree.Form.{Form};
ghost use Rattle.fac_parse.specs.Trees.{AreForms, AreWellFormed};
ghost use Rattle.fac_names.specs.FromFlat.{form_of};
ghost use Rattle.fac_names.specs.Resolution.{Resolves, first_reading, settled_draft};
ghost use Rattle.fac_names.specs.Resolved.{read_files};
ghost use Rattle.fac_names.specs.TakenForms.{HasTaken};
ghost use Rattle.fac_names.specs.TakenTexts.{Knows};
ghost use Rattle.fac_names.specs.inner.Ended.{EndsReading};
ghost use Rattle.fac_names.specs.inner.State.{reading_of};

use crate::bodies::add_items;
use crate::drafts::Drafts;
use crate::files::take_forms;
use crate::forms::begin_file;
use crate::known::Known;
use crate::known_words::{first_classes, first_words};
use crate::so_far::SoFar;
use crate::text_resolver::end_files;
use fac_base::{List, Memory};
use fac_endings::{Draft, Gathered, Late, ended};
use fac_lang::{Item, Program, WordDef};
use fac_source::{Form, ResolveFault};
use fac_vocab::Scope;
use std::alloc::Global;

// Adds a word that is known.
fn add_known(drafts: &mut Drafts, word: WordDef) -> Result<(), Memory>
    ensures { OnOk result (drafts.new ≡ drafts.old ++ settled_draft word ∷ []) }
{
    drafts.push(Draft {
        word,
        late: Late::Settled,
    })
}

/// The words that are known, as they are told.
pub fn known_drafts(alloc: Global, words: Vec<WordDef>) -> Result<Drafts, Memory>
    ensures { IfOk result (λ drafts. drafts ≡ map settled_draft words.items) }
{
    let mut drafts = Drafts::new(alloc);
    for word in words {
        add_known(&mut drafts, word)?;
    }
    Ok(drafts)
}

// What there is before the first file, where these words are known.
#[tactic(auto, using(crate::proofs::KnownWordLemmas::names_of_known))]
fn first(alloc: Global) -> Result<SoFar, Memory>
    ensures { IfOk result (λ first. reading_of first ≡ first_reading) }
{
    let words = first_words(alloc)?;
    let scope = Scope::new(alloc, words.as_slice())?;
    let drafts = known_drafts(alloc, words.into_vec())?;
    let old_classes = first_classes(alloc)?;
    Ok(SoFar {
        scope,
        drafts,
        old_classes,
        classes: List::new(alloc),
        arrays: List::new(alloc),
        items: Vec::new(alloc),
        main: Vec::new(alloc),
        first: None,
    })
}

// What was read, as the end takes it, and the item of the last `MAIN:`.
fn gathered(so_far: SoFar) -> (Gathered, Vec<Item>)
    ensures drafts { result.0.drafts.items ≡ so_far.drafts }
    ensures old_classes { result.0.old_classes ≡ so_far.old_classes }
    ensures classes { result.0.classes ≡ so_far.classes }
    ensures arrays { result.0.arrays ≡ so_far.arrays }
    ensures items { result.0.items.items ≡ so_far.items.items }
    ensures first { result.0.first ≡ so_far.first }
    ensures main { result.1.items ≡ so_far.main.items }
{
    let SoFar {
        drafts,
        old_classes,
        classes,
        arrays,
        items,
        main,
        first,
        ..
    } = so_far;
    let gathered = Gathered {
        drafts: drafts.into_vec(),
        old_classes,
        classes,
        arrays,
        items,
        first,
    };
    (gathered, main)
}

// What the end of the files answers.
fn end(alloc: Global, so_far: SoFar) -> Result<Program, ResolveFault>
    ensures { EndsReading (reading_of so_far) result }
{
    let (mut gathered, main) = gathered(so_far);
    match add_items(&mut gathered.items, main) {
        Ok(()) => ended(alloc, gathered),
        Err(Memory) => Err(ResolveFault::Memory),
    }
}

/// Names while files are read: it takes their forms one behind the other, in lists as short as they come, so that no tree stands in memory.
/// The words that are known come first, then those that forms name, in their order, each file beginning in `scratchpad` with `syntax` alone used.
/// Its calls speak of all files so far, of each as far as its forms were taken, whatever the lists in which they came. Once memory was wanted they
/// promise nothing more.
#[derive(Drop)]
pub struct Resolver {
    // What the forms so far come to.
    so_far: SoFar,
}

impl Resolver {
    /// Before the first file. Want of memory is the one error.
    pub fn new(alloc: Global) -> Result<Resolver, Memory>
        ensures { IfOk result (λ resolver. HasTaken [] resolver) }
    {
        match first(alloc) {
            Ok(so_far) => Ok(Resolver { so_far }),
            Err(Memory) => Err(Memory),
        }
    }

    /// A file begins, in `scratchpad` with `syntax` alone used.
    pub fn begin_file(&mut self, alloc: Global) -> Result<(), Memory>
        ensures { (files : Items (Items Form)) → HasTaken files self.old → OnOk result (HasTaken (files ++ [] ∷ []) self.new) }
    {
        begin_file(alloc, &mut self.so_far)
    }

    /// Takes the next forms of the file, each of which is given back to memory when it is taken.
    pub fn take(&mut self, alloc: Global, forms: List<Form>) -> Result<(), Memory>
        requires { AreForms forms }
        ensures { (files : Items (Items Form)) (before : Items Form) → HasTaken (files ++ before ∷ []) self.old → OnOk result (HasTaken (files ++ (before ++ forms) ∷ []) self.new) }
    {
        take_forms(alloc, &mut self.so_far, forms)
    }

    /// The program of all files, or the first name by place that is refused; at one token the order of the kinds of refusals decides. The last
    /// word is the top-level phrase: the items of all files, and behind them the word of the last `MAIN:`.
    pub fn end(self, alloc: Global) -> Result<Program, ResolveFault>
        ensures program { (files : Items (Items Form)) → AreWellFormed files → HasTaken files self → Resolves files result }
        ensures whole { (files : Items (Items Form)) → AreWellFormed files → HasTaken files self → IfOk result (λ program. IsWhole program) }
    {
        let Resolver { so_far } = self;
        end(alloc, so_far)
    }

    /// The program of all files as `end` has it, with the scope behind the last one, for a session to go on from.
    pub fn known(self, alloc: Global) -> Result<Known, ResolveFault>
        ensures { (files : Items (Items Form)) → AreWellFormed files → HasTaken files self → Knows (read_files first_reading (map (map form_of) files) false) result }
    {
        let Resolver { so_far } = self;
        end_files(alloc, so_far)
    }
}
