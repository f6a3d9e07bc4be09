//! Code that was made in pieces is put one behind the other.
ghost use Rattle.std.specs.Prelude.{◌≡◌, ◌++◌, slice_get, OnOk};
ghost use Rattle.fac_store.specs.CallableHeights.{height_there};
ghost use Rattle.fac_emit.specs.inner.AddedTemplates.{AddsTemplate, AddsTemplates};
ghost use Rattle.fac_emit.specs.inner.Pieces.{code_there, template_code, template_codes};

use crate::emission::Emission;
use crate::pieces::codes_of_templates;
use fac_base::{Duplicate, Height, List, Memory};
use fac_code::{Instr, TemplateRow};
use fac_lang::Template;
use fac_par::Workers;
use std::alloc::Global;
use std::mem;
use std::thread::Threads;

/// Adds instructions at the end.
pub fn add_code(alloc: Global, code: &mut List<Instr>, more: &[Instr]) -> Result<(), Memory>
    ensures { OnOk result (code.new ≡ code.old ++ more.now) }
{
    let mut instrs = mem::replace(code, List::new(alloc)).into_vec();
    instrs.extend_from_slice(more)?;
    *code = List::from_vec(instrs)?;
    Ok(())
}

/// The code with this number, and none where there is no such number.
pub fn code_numbered(codes: &List<List<Instr>>, number: u32) -> &[Instr]
    ensures { result.now ≡ code_there (slice_get codes.now number) }
{
    match codes.get(number as usize) {
        Some(code) => code.as_slice(),
        None => &[],
    }
}

// The effect of the template with this number.
fn height_of(heights: &[Option<Height>], template: u32) -> Option<Height>
    ensures { result ≡ height_there (slice_get heights.now template) }
{
    match heights.get(template as usize) {
        Some(height) => *height,
        None => None,
    }
}

// Adds a template with this effect and this code of its own: its code and its row.
fn place_template(
    emission: &Emission<'_>,
    code: &mut List<Instr>,
    rows: &mut List<TemplateRow>,
    height: Option<Height>,
    template: &Template,
    own: &[Instr],
) -> Result<(), Memory>
    requires { own.now ≡ template_code emission.now template.now }
    ensures { OnOk result (AddsTemplate emission.now height template.now code.old code.new rows.old rows.new) }
{
    let entry = code.len();
    let cells = template.captures.copy(emission.alloc())?;
    rows.push(TemplateRow {
        entry,
        cells,
        holes: template.holes,
        height,
    })?;
    add_code(emission.alloc(), code, own)
}

// Adds these lists, which are the code of the templates, and their rows with these effects, in their order.
fn place_templates(
    emission: &Emission<'_>,
    code: &mut List<Instr>,
    rows: &mut List<TemplateRow>,
    codes: &List<List<Instr>>,
    heights: &[Option<Height>],
) -> Result<(), Memory>
    requires { codes.now ≡ template_codes emission.now }
    ensures { OnOk result (AddsTemplates emission.now heights.now code.old code.new rows.old rows.new) }
{
    let templates = emission.templates();
    let _count = templates.len();
    let mut number = 0u32;
    for template in templates.as_slice() {
        let height = height_of(heights, number);
        let own = code_numbered(codes, number);
        place_template(emission, code, rows, height, template, own)?;
        number += 1;
    }
    Ok(())
}

/// Adds the code of the templates, which these workers make, and their rows with these effects, in their order. The gate is told nothing of it.
pub fn add_templates<R: Threads + Sync, G>(
    workers: &Workers<'_, R, G>,
    emission: &Emission<'_>,
    code: &mut List<Instr>,
    rows: &mut List<TemplateRow>,
    heights: &[Option<Height>],
) -> Result<(), Memory>
    ensures { OnOk result (AddsTemplates emission.now heights.now code.old code.new rows.old rows.new) }
{
    let codes = codes_of_templates(workers, emission)?;
    place_templates(emission, code, rows, &codes, heights)
}
