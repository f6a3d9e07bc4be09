//! Sets of texts.
ghost use Rattle.std.specs.Prelude.{◌≡◌, [], length, map, string_bytes, take, true, OnOk, OnErr};
ghost use Rattle.std.specs.List.{list_any};
ghost use Rattle.std.specs.Str.{bytes_eq};
ghost use Rattle.fac_lang.specs.Whole.{no_two};
ghost use Rattle.fac_vocab.specs.Scopes.{is_companion_of, with_vocab};

use fac_base::Memory;
use indexmap::IndexSet;
use std::alloc::Global;
use std::marker::Model;

/// Texts without repeats, in the order in which they were first added.
#[derive(Drop)]
pub struct TextSet {
    texts: IndexSet<String>,
}

impl Model for TextSet {
    ghost use Rattle.std.specs.Prelude.{◌≡◌, List, ℕ, map, string_bytes, true};
    ghost use Rattle.std.specs.Str.{bytes_eq};
    ghost use Rattle.fac_lang.specs.Whole.{no_two};

    ghost Value = { List (List ℕ) };

    ghost view = { λ set. map string_bytes set.texts.keys };

    ghost invariant = { λ set. no_two bytes_eq (map string_bytes set.texts.keys) ≡ true };
}

// Whether a text is among those of a set.
fn is_among(texts: &IndexSet<String>, text: &str) -> bool
    ensures { result ≡ list_any (bytes_eq text.now) (map string_bytes texts.now.keys) }
{
    texts.contains(text)
}

// The texts of a set.
fn texts_of(texts: &IndexSet<String>) -> &[String]
    ensures { map string_bytes result.now ≡ map string_bytes texts.now.keys }
{
    texts.as_slice()
}

// Leaves the first few texts of a set.
fn leave(texts: &mut IndexSet<String>, count: usize)
    ensures { map string_bytes texts.new.keys ≡ take count (map string_bytes texts.old.keys) }
{
    texts.truncate(count);
}

// How many texts a set has.
fn count_of(texts: &IndexSet<String>) -> usize
    ensures { result ≡ length (map string_bytes texts.now.keys) }
{
    texts.len()
}

// Adds a text that may be there.
fn insert(texts: &mut IndexSet<String>, text: String) -> Result<(), Memory>
    ensures ok { OnOk result (map string_bytes texts.new.keys ≡ with_vocab (map string_bytes texts.old.keys) (string_bytes text)) }
    ensures err { OnErr result (map string_bytes texts.new.keys ≡ map string_bytes texts.old.keys) }
{
    texts.insert(text)?;
    Ok(())
}

impl TextSet {
    pub fn new(alloc: Global) -> Self
        ensures { result ≡ [] }
    {
        TextSet {
            texts: IndexSet::new(alloc),
        }
    }

    /// A law: no text is there twice.
    pub fn differ(&self)
        ensures { no_two bytes_eq self.now ≡ true }
    {
        let _texts = &self.texts;
    }

    /// The texts, in their order.
    pub fn as_slice(&self) -> &[String]
        ensures { map string_bytes result.now ≡ self.now }
    {
        texts_of(&self.texts)
    }

    /// How many there are.
    pub fn len(&self) -> usize
        ensures { result ≡ length self.now }
    {
        count_of(&self.texts)
    }

    /// Leaves the first few.
    pub fn truncate(&mut self, count: usize)
        ensures { self.new ≡ take count self.old }
    {
        leave(&mut self.texts, count);
    }

    /// Whether a text is there.
    pub fn contains(&self, text: &str) -> bool
        ensures { result ≡ list_any (bytes_eq text.now) self.now }
    {
        is_among(&self.texts, text)
    }

    /// Whether a text is one of these, and then any number of times `.private`.
    pub fn has_stem_of(&self, text: &str) -> bool
        ensures { result ≡ list_any (λ stem. is_companion_of stem text.now) self.now }
    {
        let mut rest = text;
        loop {
            if self.contains(rest) {
                return true;
            }
            match rest.strip_suffix(".private") {
                Some(stem) => {
                    rest = stem;
                }
                None => {
                    return false;
                }
            }
        }
    }

    /// Adds a text, which changes nothing where it is there.
    pub fn add(&mut self, alloc: Global, text: &str) -> Result<(), Memory>
        ensures ok { OnOk result (self.new ≡ with_vocab self.old text.now) }
        ensures err { OnErr result (self.new ≡ self.old) }
    {
        if self.contains(text) {
            return Ok(());
        }
        insert(&mut self.texts, String::from_str(alloc, text)?)
    }
}
