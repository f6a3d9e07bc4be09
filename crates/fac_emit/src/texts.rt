//! The texts of a program.
ghost use Rattle.std.specs.Prelude.{◌≡◌, ◌<◌, ◌^◌, [], length, map, string_bytes, OnOk, OnErr, IfOk};
ghost use Rattle.std.specs.List.{list_any, position_or_len};
ghost use Rattle.std.specs.Str.{bytes_eq};
ghost use Rattle.fac_emit.specs.ProgramTexts.{with_text};

use fac_base::{List, Memory, Text};
use indexmap::IndexSet;
use std::alloc::Global;
use std::marker::Model;

/// Texts without repeats, in the order in which they were first added. There are fewer than 2^32 of them.
#[derive(Drop)]
pub struct Texts {
    kept: IndexSet<String>,
}

impl Model for Texts {
    ghost use Rattle.std.specs.Prelude.{◌<◌, ◌^◌, List, ℕ, length, map, string_bytes};

    ghost Value = { List (List ℕ) };

    ghost view = { λ texts. map string_bytes texts.kept.keys };

    ghost invariant = { λ texts. length texts.kept.keys < 2 ^ 32 };
}

// Whether a text is there.
fn is_among(kept: &IndexSet<String>, text: &str) -> bool
    ensures { result ≡ list_any (bytes_eq text.now) (map string_bytes kept.now.keys) }
{
    kept.contains(text)
}

// Adds a text that may be there. Growth to 2^32 texts is want of memory.
fn insert(kept: &mut IndexSet<String>, text: String) -> Result<(), Memory>
    requires { length kept.old.keys < 2 ^ 32 }
    ensures ok { OnOk result (map string_bytes kept.new.keys ≡ with_text (map string_bytes kept.old.keys) (string_bytes text)) }
    ensures err { OnErr result (map string_bytes kept.new.keys ≡ map string_bytes kept.old.keys) }
    ensures short { length kept.new.keys < 2 ^ 32 }
{
    if kept.len() >= u32::MAX as usize {
        return Err(Memory);
    }
    kept.insert(text)?;
    Ok(())
}

impl Texts {
    /// No texts.
    pub fn new(alloc: Global) -> Self
        ensures { result ≡ [] }
    {
        Texts {
            kept: IndexSet::new(alloc),
        }
    }

    /// Adds a text, which changes nothing where it is there.
    pub fn add(&mut self, alloc: Global, text: &Text) -> Result<(), Memory>
        ensures ok { OnOk result (self.new ≡ with_text self.old text.now) }
        ensures err { OnErr result (self.new ≡ self.old) }
    {
        if is_among(&self.kept, text.as_str()) {
            return Ok(());
        }
        insert(&mut self.kept, String::from_str(alloc, text.as_str())?)
    }

    /// The number of a text, which is that of all texts where it isn't there.
    pub fn number(&self, text: &Text) -> u32
        ensures { result ≡ position_or_len (bytes_eq text.now) self.now }
    {
        match self.kept.get_index_of(text.as_str()) {
            Some(number) => number as u32,
            None => self.kept.len() as u32,
        }
    }

    /// A list of them.
    pub fn list(&self, alloc: Global) -> Result<List<Text>, Memory>
        ensures { IfOk result (λ texts. texts ≡ self.now) }
    {
        let mut texts = List::new(alloc);
        for text in self.kept.as_slice() {
            texts.push(Text::from_str(alloc, text.as_str())?)?;
        }
        Ok(texts)
    }
}
