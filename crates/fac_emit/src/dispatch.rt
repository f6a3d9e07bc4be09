//! The rows of generics and their methods.
ghost use Rattle.std.specs.Prelude.{◌≡◌, ◌<◌, ◌++◌, length, map, OnOk, IfOk};
ghost use Rattle.fac_generic.specs.Methods.{HasMethods};
ghost use Rattle.fac_emit.specs.ProgramTables.{method_row, generics_from};
ghost use Rattle.fac_emit.specs.ProgramCode.{code_place};
ghost use Rattle.fac_emit.specs.inner.Dispatch.{class_in, generic_rows};

use crate::word_rows::place_of;
use fac_base::{List, Memory};
use fac_code::{GenericRow, MethodRow, WordRow};
use fac_generic::Tables;
use fac_lang::{Program, Sort};
use std::alloc::Global;

// The class of a method.
fn class_of(program: &Program, method: u32) -> u32
    ensures { result ≡ class_in program.now method }
{
    match program.words.get(method as usize) {
        Some(word) => match &word.sort {
            Sort::Method { class, .. } => *class,
            _ => 0,
        },
        None => 0,
    }
}

// The rows of methods, where the words have these rows.
fn rows_of(
    alloc: Global,
    program: &Program,
    rows: &List<WordRow>,
    methods: &List<u32>,
) -> Result<List<MethodRow>, Memory>
    ensures { IfOk result (λ found. found ≡ map (λ m. method_row (code_place rows.now) (m, class_in program.now m)) methods.now) }
{
    let mut found = List::new(alloc);
    for method in methods.as_slice() {
        found.push(MethodRow {
            number: *method,
            set: class_of(program, *method),
            entry: place_of(rows, *method),
        })?;
    }
    Ok(found)
}

// Adds the row of a word of this sort, where it is generic.
fn add_generic(
    alloc: Global,
    generics: &mut List<GenericRow>,
    program: &Program,
    tables: &Tables,
    rows: &List<WordRow>,
    word: u32,
    sort: &Sort,
) -> Result<(), Memory>
    requires methods { HasMethods program.now }
    requires tables { tables.now ≡ program.now }
    requires word { word < length program.now.words }
    ensures { OnOk result (generics.new ≡ generics.old ++ generic_rows program.now (code_place rows.now) word sort.now) }
{
    match sort {
        Sort::Generic => {
            let methods = rows_of(alloc, program, rows, tables.methods(word))?;
            generics.push(GenericRow { word, methods })
        }
        _ => Ok(()),
    }
}

/// The rows of the generics of a program, where its words have these rows.
pub fn generics_of(
    alloc: Global,
    program: &Program,
    tables: &Tables,
    rows: &List<WordRow>,
) -> Result<List<GenericRow>, Memory>
    requires methods { HasMethods program.now }
    requires tables { tables.now ≡ program.now }
    ensures { IfOk result (λ generics. generics ≡ generics_from program.now (code_place rows.now) 0 program.now.words) }
{
    let _count = program.words.len();
    let mut generics = List::new(alloc);
    let mut number = 0u32;
    for word in program.words.as_slice() {
        add_generic(
            alloc,
            &mut generics,
            program,
            tables,
            rows,
            number,
            &word.sort,
        )?;
        number += 1;
    }
    Ok(generics)
}
