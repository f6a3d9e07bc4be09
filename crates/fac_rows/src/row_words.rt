//! The row words of a program.
ghost use Rattle.std.specs.Prelude.{◌≡◌, map, slice_get, IfOk};
ghost use Rattle.std.specs.Option.{option_copied};
ghost use Rattle.fac_rows.specs.NumberedRows.{row_entry, entry_at};

use crate::RowEffect;
use crate::numbering::row_entry;
use fac_base::{Boxed, List, Memory};
use fac_lang::WordDef;
use std::alloc::Global;

/// What is made once of the effects of all row words of a program, by the numbers of its words.
#[derive(Drop)]
pub struct RowWords {
    /// One for each word.
    pub entries: List<Option<Boxed<RowEffect>>>,
}

impl RowWords {
    /// Of these words.
    pub fn new(alloc: Global, words: &List<WordDef>) -> Result<RowWords, Memory>
        ensures { IfOk result (λ rows. rows.entries ≡ map row_entry words.now) }
    {
        let mut entries = List::with_room(alloc, words.len())?;
        for word in words.as_slice() {
            entries.push(row_entry(alloc, word)?)?;
        }
        Ok(RowWords { entries })
    }

    /// That of the word with this number, where it is a row word.
    pub fn get(&self, word: u32) -> Option<&RowEffect>
        ensures { option_copied result ≡ entry_at (slice_get self.now.entries word) }
    {
        match self.entries.get(word as usize) {
            None => None,
            Some(entry) => match entry {
                None => None,
                Some(row) => Some(row.get()),
            },
        }
    }
}
