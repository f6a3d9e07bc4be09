//! What is walked.
ghost use Rattle.std.specs.Prelude.{◌≡◌, map};
ghost use Rattle.fac_rows.specs.EntryCodes.{entries_prop, effects_prop};
ghost use Rattle.fac_rows.specs.NumberedRows.{row_entry};
ghost use Rattle.fac_rows.specs.SeenOwn.{own_seen};
ghost use Rattle.fac_check.specs.inner.OwnEffects.{own_effect};

use fac_base::Effect;
use fac_lang::WordDef;
use fac_locals::Closed;
use fac_rows::{OwnEffect, RowEffect, RowWords};

/// A closed program, and which of its words is checked, or which of its templates is walked by itself.
#[derive(Clone, Copy)]
pub struct Subject<'a> {
    /// The closed program.
    pub closed: &'a Closed,
    /// What is made once of the effects of its row words.
    pub rows: &'a RowWords,
    /// The number of the word that is checked, where it is a row word.
    pub own: Option<u32>,
    /// The effect of that word.
    pub effect: Option<OwnEffect<'a>>,
    /// Templates from this number on may be in the phrase of a template that is walked by itself. Where none is, it is the number of templates.
    pub inner: u32,
    ghost entries_are: { rows.now.entries ≡ map row_entry closed.now.program.words } by { entries_prop rows.now.entries (map row_entry closed.now.program.words) },
    ghost effect_is: { own_seen effect ≡ own_effect closed.now.program own } by { effects_prop (own_seen effect) (own_effect closed.now.program own) },
}

impl<'a> Subject<'a> {
    ghost use Rattle.std.specs.Prelude.{true, Some, slice_get, option_copied};
    ghost use Rattle.fac_rows.specs.NumberedRows.{IsRowEntry};
    ghost use Rattle.fac_check.specs.inner.UsedEffects.{IsUsedAs};
    ghost use Rattle.fac_check.specs.inner.Walking.{is_defined, effect_of};

    /// The effect of the word that is checked, where it is a row word.
    pub fn own_effect(self) -> Option<OwnEffect<'a>>
        ensures { own_seen result ≡ own_effect self.entry.closed.now.program self.entry.own }
    {
        self.effect
    }

    /// What is made once of the effect of a word, where it is a row word.
    pub fn row_word(self, number: u32, word: &WordDef) -> Option<&'a RowEffect>
        requires { slice_get self.closed.now.program.words number ≡ Some word.now }
        ensures { IsRowEntry word.now (option_copied result) }
    {
        self.rows.get(number)
    }

    /// The effect by which a use of the word with this number is walked: that of a row word has its rows named by their numbers.
    pub fn used_effect(self, number: u32) -> &'a Effect
        requires { is_defined (slice_get self.closed.now.program.words number) ≡ true }
        ensures { IsUsedAs result.now (effect_of (slice_get self.entry.closed.now.program.words number)) }
    {
        let closed = self.closed;
        let Some(word) = closed.program.words.get(number as usize) else {
            unreachable!()
        };
        match self.row_word(number, word) {
            None => &word.effect,
            Some(row) => &row.numbered,
        }
    }
}
