//! How many bytes an image has. Each part is written by itself, and only the number of its bytes is kept.
ghost use Rattle.std.specs.Prelude.{◌≡◌, ◌+◌, length, IfOk, OnOk};
ghost use Rattle.fac_spelling.specs.Formats.{each};
ghost use Rattle.fac_spelling.specs.Numbers.{number32, shortest};
ghost use Rattle.fac_spelling.specs.Lists.{counted, ascending_by};
ghost use Rattle.fac_code.specs.Images.{tables_of};
ghost use Rattle.fac_bytes.specs.GenericBytes.{generics};
ghost use Rattle.fac_bytes.specs.ImageBytes.{image as image_format, first_bytes, first_tables, last_tables, tables as tables_format, first_of, last_of, parts_of};

use crate::part::Writable;
use crate::parts::FIRST_BYTES;
use fac_base::{Bytes, List, Memory};
use fac_code::{GenericRow, Image};
use fac_spelling::{write_ascending_by, write_number};
use std::alloc::Global;

// Adds to a count of bytes. Who had so many that there is no number for them would want memory.
fn add(count: &mut u64, more: u64) -> Result<(), Memory>
    ensures { OnOk result (count.new ≡ count.old + more) }
{
    match (*count).checked_add(more) {
        Some(sum) => {
            *count = sum;
            Ok(())
        }
        None => Err(Memory),
    }
}

// How many bytes a part has.
fn part_length<T: Writable>(alloc: Global, part: &T) -> Result<u64, Memory>
    requires { T.format.Fits part.now }
    ensures { IfOk result (λ count. count ≡ length (T.format.spell part.now)) }
{
    let mut bytes = Bytes::new(alloc);
    part.write(&mut bytes)?;
    Ok(bytes.len() as u64)
}

// How many bytes a number has.
fn number_length(alloc: Global, number: u128) -> Result<u64, Memory>
    ensures { IfOk result (λ count. count ≡ length (shortest number)) }
{
    let mut bytes = Bytes::new(alloc);
    write_number(&mut bytes, number)?;
    Ok(bytes.len() as u64)
}

// How many bytes pairs have whose keys ascend, with their count.
fn pairs_length(alloc: Global, pairs: &[(u32, u32)]) -> Result<u64, Memory>
    requires { (ascending_by number32).Fits pairs.now }
    ensures { IfOk result (λ count. count ≡ length ((ascending_by number32).spell pairs.now)) }
{
    let mut bytes = Bytes::new(alloc);
    write_ascending_by(pairs, &mut bytes)?;
    Ok(bytes.len() as u64)
}

// Counts the bytes of a number.
fn count_number(alloc: Global, number: u128, count: &mut u64) -> Result<(), Memory>
    ensures { OnOk result (count.new ≡ count.old + length (shortest number)) }
{
    let more = number_length(alloc, number)?;
    add(count, more)
}

// Counts the bytes of a part.
fn count_part<T: Writable>(alloc: Global, part: &T, count: &mut u64) -> Result<(), Memory>
    requires { T.format.Fits part.now }
    ensures { OnOk result (count.new ≡ count.old + length (T.format.spell part.now)) }
{
    let more = part_length(alloc, part)?;
    add(count, more)
}

// Counts the bytes of parts one behind another.
fn count_each<T: Writable>(alloc: Global, parts: &[T], count: &mut u64) -> Result<(), Memory>
    requires { (each (length parts.now) T.format).Fits parts.now }
    ensures { OnOk result (count.new ≡ count.old + length ((each (length parts.now) T.format).spell parts.now)) }
{
    for part in parts {
        count_part(alloc, part, count)?;
    }
    Ok(())
}

// Counts the bytes of parts behind their number.
#[tactic(auto, using(crate::proofs::Counted::sum_two))]
fn count_list<T: Writable + Drop>(
    alloc: Global,
    parts: &List<T>,
    count: &mut u64,
) -> Result<(), Memory>
    requires { (counted T.format).Fits parts.now }
    ensures { OnOk result (count.new ≡ count.old + length ((counted T.format).spell parts.now)) }
{
    count_number(alloc, u128::from(parts.len()), count)?;
    count_each(alloc, parts.as_slice(), count)
}

// Counts the bytes of generics behind their number.
fn count_generics(alloc: Global, rows: &List<GenericRow>, count: &mut u64) -> Result<(), Memory>
    requires { generics.Fits rows.now }
    ensures { OnOk result (count.new ≡ count.old + length (generics.spell rows.now)) }
{
    count_list(alloc, rows, count)
}

// Counts the bytes of pairs whose keys ascend, behind their number.
fn count_pairs(alloc: Global, pairs: &[(u32, u32)], count: &mut u64) -> Result<(), Memory>
    requires { (ascending_by number32).Fits pairs.now }
    ensures { OnOk result (count.new ≡ count.old + length ((ascending_by number32).spell pairs.now)) }
{
    let more = pairs_length(alloc, pairs)?;
    add(count, more)
}

// Counts the bytes of texts, literal arrays, kinds and class sets.
#[tactic(auto, using(crate::proofs::Counted::sum_four))]
fn count_first(alloc: Global, image: &Image, count: &mut u64) -> Result<(), Memory>
    requires { first_tables.Fits (first_of (tables_of image.now)) }
    ensures { OnOk result (count.new ≡ count.old + length (first_tables.spell (first_of (tables_of image.now)))) }
{
    count_list(alloc, image.texts.list(), count)?;
    count_list(alloc, &image.arrays, count)?;
    count_list(alloc, &image.kinds, count)?;
    count_list(alloc, &image.sets, count)
}

// Counts the bytes of templates, words, generics and the kinds of words.
#[tactic(auto, using(crate::proofs::Counted::sum_four))]
fn count_last(alloc: Global, image: &Image, count: &mut u64) -> Result<(), Memory>
    requires { last_tables.Fits (last_of (tables_of image.now)) }
    ensures { OnOk result (count.new ≡ count.old + length (last_tables.spell (last_of (tables_of image.now)))) }
{
    count_list(alloc, &image.templates, count)?;
    count_list(alloc, &image.words, count)?;
    count_generics(alloc, &image.generics, count)?;
    count_pairs(alloc, image.pairs.as_slice(), count)
}

// Counts the bytes of an image's tables.
#[tactic(auto, using(crate::proofs::Counted::sum_two))]
fn count_tables(alloc: Global, image: &Image, count: &mut u64) -> Result<(), Memory>
    requires { tables_format.Fits (tables_of image.now) }
    ensures { OnOk result (count.new ≡ count.old + length (tables_format.spell (tables_of image.now))) }
{
    count_first(alloc, image, count)?;
    count_last(alloc, image, count)
}

// Counts the bytes with which all images begin.
fn count_front(count: &mut u64) -> Result<(), Memory>
    ensures { OnOk result (count.new ≡ count.old + length first_bytes) }
{
    add(count, FIRST_BYTES.len() as u64)
}

// Counts an image's bytes.
#[tactic(auto, using(crate::proofs::Counted::sum_four))]
fn count_image(alloc: Global, image: &Image, count: &mut u64) -> Result<(), Memory>
    requires { image_format.Fits (parts_of image.now) }
    ensures { OnOk result (count.new ≡ count.old + length (image_format.spell (parts_of image.now))) }
{
    count_front(count)?;
    count_tables(alloc, image, count)?;
    count_list(alloc, &image.code, count)?;
    count_number(alloc, u128::from(image.start), count)
}

/// How many bytes an image has. Want of memory is the one error.
pub fn length_of(alloc: Global, image: &Image) -> Result<u64, Memory>
    requires { image_format.Fits (parts_of image.now) }
    ensures { IfOk result (λ count. count ≡ length (image_format.spell (parts_of image.now))) }
{
    let mut count = 0u64;
    count_image(alloc, image, &mut count)?;
    Ok(count)
}
