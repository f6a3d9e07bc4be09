//! What the image of a closed program is made by.
ghost use Rattle.std.specs.Prelude.{◌≡◌, true, IfOk};
ghost use Rattle.std.specs.List.{list_all};
ghost use Rattle.fac_classes.specs.ClassKinds.{CanBeBuilt};
ghost use Rattle.fac_bytes.specs.Spellable.{is_short};
ghost use Rattle.fac_emit.specs.ProgramTexts.{program_texts, text_number};
ghost use Rattle.fac_emit.specs.ProgramTables.{word_numbers};
ghost use Rattle.fac_emit.specs.inner.NumberedWords.{number_at};

use crate::numbers::numbers_of;
use crate::sequence::texts_of;
use crate::texts::Texts;
use fac_base::{List, Memory, Text};
use fac_classes::Classes;
use fac_lang::{Program, Template};
use fac_locals::Closed;
use fac_texts::SharedTexts;
use std::alloc::Global;
use std::marker::Model;

// Whether each of the texts has fewer than 2^32 bytes, as it has to have in an image.
fn are_short(texts: &[Text]) -> bool
    ensures { result ≡ list_all is_short texts.now }
{
    for text in texts {
        if text.len() > u32::MAX as usize {
            return false;
        }
    }
    true
}

/// A closed program with the numbers by which its code and tables name its texts and what its words are, and with its classes. Contracts see
/// the closed program.
#[derive(Drop)]
pub struct Emission<'a> {
    alloc: Global,
    closed: &'a Closed,
    texts: Texts,
    // For an accessor the number of its slot's text, and for a generic that among all generics.
    words: List<u32>,
    classes: Classes,
}

impl<'a> Model for Emission<'a> {
    ghost use Rattle.std.specs.Prelude.{◌≡◌};
    ghost use Rattle.std.specs.Coded.{codes};
    ghost use Rattle.fac_base.specs.Signatures.{coded_signature};
    ghost use Rattle.fac_lang.specs.PhraseCodes.{coded_phrase};
    ghost use Rattle.fac_locals.specs.declared.closing.Closed.{Closed};
    ghost use Rattle.fac_emit.specs.ProgramTexts.{program_texts};
    ghost use Rattle.fac_emit.specs.ProgramTables.{word_numbers};

    ghost Value = { Closed };

    ghost coded = { Prim.hlevel (codes, coded_phrase, coded_signature) };

    ghost view = { λ e. e.closed.now };

    ghost invariant = { λ e. (e.texts ≡ program_texts e.closed.now) × (e.words ≡ word_numbers e.closed.now) × (e.classes ≡ e.closed.now.program.classes) };
}

impl<'a> Emission<'a> {
    /// That of a closed program. Want of memory is the one error, also where there are more kinds or texts than numbers for them.
    pub fn new(alloc: Global, closed: &'a Closed) -> Result<Emission<'a>, Memory>
        requires { CanBeBuilt closed.now.program }
        ensures { IfOk result (λ emission. emission ≡ closed.now) }
    {
        let classes = Classes::build(alloc, &closed.program)?;
        let texts = texts_of(alloc, closed)?;
        let words = numbers_of(alloc, &texts, closed)?;
        Ok(Emission {
            alloc,
            closed,
            texts,
            words,
            classes,
        })
    }

    /// Where memory is taken.
    pub fn alloc(&self) -> Global {
        self.alloc
    }

    /// The program.
    pub fn program(&self) -> &Program
        ensures { result.now ≡ self.now.program }
    {
        &self.closed.program
    }

    /// The templates.
    pub fn templates(&self) -> &List<Template>
        ensures { result.now ≡ self.now.templates }
    {
        &self.closed.templates
    }

    /// The classes.
    pub fn classes(&self) -> &Classes
        ensures { result.now ≡ self.now.program.classes }
    {
        &self.classes
    }

    /// The number of a text, which is that of all texts where it isn't there.
    pub fn text_number(&self, text: &Text) -> u32
        ensures { result ≡ text_number self.now text.now }
    {
        self.texts.number(text)
    }

    /// The number of a word in the tables, where it is there.
    pub fn word_number(&self, word: u32) -> u32
        ensures { result ≡ number_at (word_numbers self.now) word }
    {
        match self.words.get(word as usize) {
            Some(number) => *number,
            None => 0,
        }
    }

    /// A list of the texts, each of which has fewer than 2^32 bytes. Want of memory is the one error, also where one would have more.
    pub fn texts(&self) -> Result<SharedTexts, Memory>
        ensures texts { IfOk result (λ texts. texts ≡ program_texts self.now) }
        ensures short { IfOk result (λ texts. list_all is_short texts ≡ true) }
    {
        let texts = self.texts.list(self.alloc)?;
        if !are_short(texts.as_slice()) {
            return Err(Memory);
        }
        SharedTexts::new(self.alloc, texts)
    }
}
