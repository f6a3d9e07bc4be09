//! The numbers by which code names what words are.
ghost use Rattle.std.specs.Prelude.{◌≡◌, ◌<◌, ◌+◌, ◌^◌, length, Some, IfOk, if◌then◌else◌};
ghost use Rattle.fac_lang.specs.Whole.{is_generic};
ghost use Rattle.fac_emit.specs.ProgramTexts.{program_texts, text_number};
ghost use Rattle.fac_emit.specs.ProgramTables.{generic_number, sort_number, word_numbers};

use crate::texts::Texts;
use fac_base::{List, Memory};
use fac_lang::Sort;
use fac_locals::Closed;
use std::alloc::Global;

// The number of a word of this sort, behind so many generics.
fn number_of_sort(texts: &Texts, closed: &Closed, generics: u32, word: u32, sort: &Sort) -> u32
    requires texts { texts.now ≡ program_texts closed.now }
    requires generics { generics ≡ generic_number closed.now.program word }
    ensures { result ≡ sort_number closed.now word sort.now }
{
    match sort {
        Sort::Getter(slot) => texts.number(slot),
        Sort::Setter(slot) => texts.number(slot),
        Sort::Putter(slot) => texts.number(slot),
        Sort::Generic => generics,
        _ => 0,
    }
}

// How many generics there are behind so many and a word of this sort.
fn behind(generics: u32, sort: &Sort) -> u32
    requires { generics + 1 < 2 ^ 32 }
    ensures { result ≡ generics + (if is_generic (Some sort.now) then 1 else 0) }
{
    match sort {
        Sort::Generic => generics + 1,
        _ => generics,
    }
}

/// The numbers of all words.
pub fn numbers_of(alloc: Global, texts: &Texts, closed: &Closed) -> Result<List<u32>, Memory>
    requires { texts.now ≡ program_texts closed.now }
    ensures { IfOk result (λ numbers. numbers ≡ word_numbers closed.now) }
{
    let _count = closed.program.words.len();
    let mut numbers = List::new(alloc);
    let mut generics = 0u32;
    let mut number = 0u32;
    for word in closed.program.words.as_slice() {
        numbers.push(number_of_sort(texts, closed, generics, number, &word.sort))?;
        generics = behind(generics, &word.sort);
        number += 1;
    }
    Ok(numbers)
}
