//! Images made of tables and code.
ghost use Rattle.fac_code.specs.Images.{IsImageWhere};

use crate::references::{are_built, refers};
use crate::{Image, Instr, Tables};
use fac_base::List;
use std::alloc::Global;

impl Image {
    /// The image of these tables and this code, which begins at the place `start`. None exactly where a number in them names nothing of
    /// its kind, or the machine lacks a primitive.
    pub fn new(alloc: Global, tables: Tables, code: List<Instr>, start: u32) -> Option<Image>
        ensures { IsImageWhere tables code start result }
    {
        if !are_built(code.as_slice()) || !refers(alloc, &tables, code.as_slice(), start) {
            return None;
        }
        Some(Image {
            texts: tables.texts,
            arrays: tables.arrays,
            kinds: tables.kinds,
            sets: tables.sets,
            templates: tables.templates,
            words: tables.words,
            generics: tables.generics,
            pairs: tables.pairs,
            code,
            start,
        })
    }
}
