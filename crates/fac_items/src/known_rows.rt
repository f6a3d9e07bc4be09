//! The words that there are before a source is read, by their rows.
ghost use Rattle.std.specs.Prelude.{◌≡◌, ◌++◌, length, map, slice_get};
ghost use Rattle.std.specs.Option.{option_copied, option_map};
ghost use Rattle.fac_lang.specs.CoreWords.{WrittenCore, built_core_words};
ghost use Rattle.fac_lang.specs.Primitives.{built_primitive_words};
ghost use Rattle.fac_lang.specs.WrittenWords.{written_word};
ghost use Rattle.fac_items.specs.Items.{is_cond_row, is_cond_word, known_rows};
ghost use Rattle.fac_items.specs.inner.KnownRows.{option_row};

use fac_lang::{WordRow, core_words, primitives};

// The row of the core word at this place of their table.
#[tactic(auto, using(crate::proofs::KnownRowLemmas::core_at))]
fn core_row(place: usize) -> Option<&'static WordRow>
    ensures { option_row (option_copied result) ≡ slice_get (map (λ (c : WrittenCore). c.word) built_core_words) place }
{
    match core_words().get(place) {
        Some(row) => Some(&row.word),
        None => None,
    }
}

// The row of the word with this number.
fn row_at(number: usize) -> Option<&'static WordRow>
    ensures { option_row (option_copied result) ≡ slice_get known_rows number }
{
    let rows = primitives();
    match rows.get(number) {
        Some(row) => Some(&row.word),
        None => core_row(number - rows.len()),
    }
}

// Whether this is the row of the word `cond`.
fn is_cond_row(row: &WordRow) -> bool
    ensures { result ≡ is_cond_row (written_word row.now) }
{
    row.vocab == "combinators" && row.name == "cond"
}

/// Whether the word with this number is `cond`.
pub fn is_cond_word(number: u32) -> bool
    ensures { result ≡ is_cond_word number }
{
    match row_at(number as usize) {
        Some(row) => is_cond_row(row),
        None => false,
    }
}
