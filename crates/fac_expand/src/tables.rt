//! The tables of the image that is made.
ghost use Rattle.std.specs.Prelude.{◌≡◌, IfOk};
ghost use Rattle.fac_expand.specs.inner.Makings.{AreKept, AreTogether, AreMoved};

use crate::copying::{copied_arrays, copied_kinds};
use crate::moving::{moved_generics, moved_words};
use fac_base::{Duplicate, List, Memory};
use fac_code::{Elem, GenericRow, Image, KindRow, Tables, TemplateRow, WordRow};
use fac_texts::SharedTexts;
use std::alloc::Global;

// The tables that have no places.
#[derive(Drop)]
struct Kept {
    texts: SharedTexts,
    arrays: List<List<Elem>>,
    kinds: List<KindRow>,
    sets: List<List<u32>>,
    pairs: List<(u32, u32)>,
}

// Those of a plain image.
fn kept_tables(alloc: Global, plain: &Image) -> Result<Kept, Memory>
    ensures { IfOk result (AreKept plain.now) }
{
    let texts = plain.texts.share()?;
    let arrays = copied_arrays(alloc, &plain.arrays)?;
    let kinds = copied_kinds(alloc, &plain.kinds)?;
    let sets = plain.sets.copy(alloc)?;
    let pairs = plain.pairs.copy(alloc)?;
    Ok(Kept {
        texts,
        arrays,
        kinds,
        sets,
        pairs,
    })
}

// All tables, with rows for what has places.
fn together(
    kept: Kept,
    templates: List<TemplateRow>,
    words: List<WordRow>,
    generics: List<GenericRow>,
) -> Tables
    ensures { AreTogether kept templates words generics result }
{
    let Kept {
        texts,
        arrays,
        kinds,
        sets,
        pairs,
    } = kept;
    Tables {
        texts,
        arrays,
        kinds,
        sets,
        templates,
        words,
        generics,
        pairs,
    }
}

/// The tables of a plain image with these rows of templates, and with new places by the old ones; what has none has the place `start`. Want of memory is the one error.
pub fn moved_tables(
    alloc: Global,
    plain: &Image,
    start: u32,
    places: &[Option<u32>],
    templates: List<TemplateRow>,
) -> Result<Tables, Memory>
    ensures { IfOk result (AreMoved plain.now start places.now templates) }
{
    let words = moved_words(alloc, start, places, &plain.words)?;
    let generics = moved_generics(alloc, start, places, &plain.generics)?;
    let kept = kept_tables(alloc, plain)?;
    Ok(together(kept, templates, words, generics))
}
