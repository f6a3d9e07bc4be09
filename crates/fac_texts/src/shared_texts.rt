//! Texts with several owners.
ghost use Rattle.std.specs.Prelude.{◌≡◌, length, slice_get, IfOk};
ghost use Rattle.std.specs.Option.{option_copied};

use fac_base::{List, Memory, Text};
use std::alloc::Global;
use std::marker::Model;
use std::rc::Rc;

/// A list of texts that any number of owners have, and that none of them changes. It goes with the last of them.
#[derive(Drop)]
pub struct SharedTexts {
    texts: Rc<List<Text>, Global>,
}

impl Model for SharedTexts {
    ghost use Rattle.std.specs.Prelude.{List as Items, ℕ};

    ghost Value = { Items (Items ℕ) };

    ghost view = { λ s. s.texts.value };
}

impl SharedTexts {
    /// A list with one owner. Want of memory is the one error.
    pub fn new(alloc: Global, texts: List<Text>) -> Result<SharedTexts, Memory>
        ensures { IfOk result (λ shared. shared ≡ texts) }
    {
        match Rc::new(alloc, texts) {
            Ok(texts) => Ok(SharedTexts { texts }),
            Err(_) => Err(Memory),
        }
    }

    /// The same list for one more owner. Where there are too many owners, that is want of memory.
    pub fn share(&self) -> Result<SharedTexts, Memory>
        ensures { IfOk result (λ shared. shared ≡ self.now) }
    {
        match self.texts.clone() {
            Ok(texts) => Ok(SharedTexts { texts }),
            Err(_) => Err(Memory),
        }
    }

    /// The list.
    pub fn list(&self) -> &List<Text>
        ensures { result.now ≡ self.now }
    {
        self.texts.as_ref()
    }

    /// How many texts there are.
    pub fn len(&self) -> u32
        ensures { result ≡ length self.now }
    {
        self.list().len()
    }

    /// The text with this number. None where there is none.
    pub fn get(&self, number: usize) -> Option<&Text>
        ensures { option_copied result ≡ slice_get self.now number }
    {
        self.list().get(number)
    }
}
