//! Tables as bytes: a half of them and then the other.
ghost use Rattle.std.specs.Prelude.{◌≡◌, ◌++◌, OnOk};
ghost use Rattle.fac_spelling.specs.Reads.{Gives};
ghost use Rattle.fac_code.specs.Images.{tables_of};
ghost use Rattle.fac_bytes.specs.Spellable.{IsSpellable};
ghost use Rattle.fac_bytes.specs.ImageBytes.{first_tables, last_tables, tables as tables_format, first_of, last_of};

use crate::generics::{generics_fit, read_generics, write_generics};
use crate::pairs::pairs_fit;
use crate::part::{list_fits, read_list, write_list};
use fac_base::{Bytes, List, Memory, Text};
use fac_code::{Elem, GenericRow, Image, KindRow, Tables, TemplateRow, WordRow};
use fac_spelling::{ReadFault, read_ascending_by, write_ascending_by};
use fac_texts::SharedTexts;
use std::alloc::Global;

type FirstTables = (
    List<Text>,
    (List<List<Elem>>, (List<KindRow>, List<List<u32>>)),
);

type LastTables = (
    List<TemplateRow>,
    (List<WordRow>, (List<GenericRow>, List<(u32, u32)>)),
);

// Texts, literal arrays, kinds and class sets.
fn read_first(alloc: Global, bytes: &[u8]) -> Result<(FirstTables, &[u8]), ReadFault>
    ensures { Gives (λ x. (x.0, x.1.now)) result (first_tables.read bytes.now) }
{
    let (texts, rest) = read_list(alloc, bytes)?;
    let (arrays, rest) = read_list(alloc, rest)?;
    let (kinds, rest) = read_list(alloc, rest)?;
    let (sets, rest) = read_list(alloc, rest)?;
    Ok(((texts, (arrays, (kinds, sets))), rest))
}

// Templates, words, generics and the kinds of words.
fn read_last(alloc: Global, bytes: &[u8]) -> Result<(LastTables, &[u8]), ReadFault>
    ensures { Gives (λ x. (x.0, x.1.now)) result (last_tables.read bytes.now) }
{
    let (templates, rest) = read_list(alloc, bytes)?;
    let (words, rest) = read_list(alloc, rest)?;
    let (generics, rest) = read_generics(alloc, rest)?;
    let (pairs, rest) = read_ascending_by(alloc, rest)?;
    Ok(((templates, (words, (generics, pairs))), rest))
}

/// The tables at the front, and the bytes behind them.
pub fn read_tables(alloc: Global, bytes: &[u8]) -> Result<(Tables, &[u8]), ReadFault>
    ensures { Gives (λ x. (x.0, x.1.now)) result (tables_format.read bytes.now) }
{
    let ((texts, (arrays, (kinds, sets))), rest) = read_first(alloc, bytes)?;
    let ((templates, (words, (generics, pairs))), rest) = read_last(alloc, rest)?;
    let texts = SharedTexts::new(alloc, texts)?;
    Ok((
        Tables {
            texts,
            arrays,
            kinds,
            sets,
            templates,
            words,
            generics,
            pairs,
        },
        rest,
    ))
}

// Adds the bytes of texts, literal arrays, kinds and class sets.
#[tactic(auto, using(crate::proofs::Written::row_four))]
fn write_first(image: &Image, out: &mut Bytes) -> Result<(), Memory>
    requires { first_tables.Fits (first_of (tables_of image.now)) }
    ensures { OnOk result (out.new ≡ out.old ++ first_tables.spell (first_of (tables_of image.now))) }
{
    write_list(image.texts.list(), out)?;
    write_list(&image.arrays, out)?;
    write_list(&image.kinds, out)?;
    write_list(&image.sets, out)
}

// Adds the bytes of templates, words, generics and the kinds of words.
#[tactic(auto, using(crate::proofs::Written::row_four))]
fn write_last(image: &Image, out: &mut Bytes) -> Result<(), Memory>
    requires { last_tables.Fits (last_of (tables_of image.now)) }
    ensures { OnOk result (out.new ≡ out.old ++ last_tables.spell (last_of (tables_of image.now))) }
{
    write_list(&image.templates, out)?;
    write_list(&image.words, out)?;
    write_generics(&image.generics, out)?;
    write_ascending_by(image.pairs.as_slice(), out)
}

/// Adds the bytes of an image's tables. Want of memory is the one error.
#[tactic(auto, using(std::proofs::lemmas::List::append_assoc))]
pub fn write_tables(image: &Image, out: &mut Bytes) -> Result<(), Memory>
    requires { tables_format.Fits (tables_of image.now) }
    ensures { OnOk result (out.new ≡ out.old ++ tables_format.spell (tables_of image.now)) }
{
    write_first(image, out)?;
    write_last(image, out)
}

// Texts, literal arrays, kinds and class sets have a spelling.
fn first_fit(image: &Image)
    requires { IsSpellable image.now }
    ensures { first_tables.Fits (first_of (tables_of image.now)) }
{
    list_fits(image.texts.list());
    list_fits(&image.arrays);
    list_fits(&image.kinds);
    list_fits(&image.sets);
}

// Templates, words, generics and the kinds of words have a spelling.
fn last_fit(image: &Image)
    requires { IsSpellable image.now }
    ensures { last_tables.Fits (last_of (tables_of image.now)) }
{
    list_fits(&image.templates);
    list_fits(&image.words);
    generics_fit(&image.generics);
    pairs_fit(&image.pairs);
}

/// An image's tables have a spelling.
pub fn tables_fit(image: &Image)
    requires { IsSpellable image.now }
    ensures { tables_format.Fits (tables_of image.now) }
{
    first_fit(image);
    last_fit(image);
}
