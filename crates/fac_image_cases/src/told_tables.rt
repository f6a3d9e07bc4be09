//! The tables of an image, made of rows.
use crate::told_rows::{Generic, Kind, Rows};
use fac_base::{Duplicate, Height, List, Memory, Text};
use fac_code::{Elem, GenericRow, KindRow, Tables, TemplateRow, WordRow};
use fac_texts::SharedTexts;
use std::alloc::Global;

// Literal arrays of these elements.
fn arrays(alloc: Global, rows: &[Vec<Elem>]) -> Result<List<List<Elem>>, Memory> {
    let mut arrays = List::new(alloc);
    for elems in rows {
        arrays.push(List::from_vec(Vec::from_slice(alloc, elems.as_slice())?)?)?;
    }
    Ok(arrays)
}

// The template that numbers tell, with its height.
fn template(alloc: Global, numbers: &[u32], height: Option<Height>) -> Result<TemplateRow, Memory> {
    let cells = match numbers {
        [_, _, cells @ ..] => List::from_vec(Vec::from_slice(alloc, cells)?)?,
        _ => List::new(alloc),
    };
    Ok(TemplateRow {
        entry: numbers.first().copied().unwrap_or(0),
        cells,
        holes: numbers.get(1).copied().unwrap_or(0),
        height,
    })
}

// The templates that numbers tell, with their heights.
fn templates(
    alloc: Global,
    rows: &[Vec<u32>],
    heights: &[Option<Height>],
) -> Result<List<TemplateRow>, Memory> {
    let mut templates = List::new(alloc);
    for (number, numbers) in rows.iter().enumerate() {
        let height = heights.get(number).copied().unwrap_or(None);
        templates.push(template(alloc, numbers.as_slice(), height)?)?;
    }
    Ok(templates)
}

// Words whose names stand behind so many other texts.
fn words(alloc: Global, told: &[WordRow], first: u32) -> Result<List<WordRow>, Memory> {
    let mut words = List::new(alloc);
    for row in told {
        words.push(WordRow {
            vocab: first.saturating_add(row.vocab),
            name: first.saturating_add(row.name),
            action: row.action,
            height: row.height,
        })?;
    }
    Ok(words)
}

// The slots of a kind, whose names stand behind so many other texts.
fn slots(alloc: Global, names: &[u32], first: u32) -> Result<List<u32>, Memory> {
    let mut slots = List::new(alloc);
    for name in names {
        slots.push(first.saturating_add(*name))?;
    }
    Ok(slots)
}

// The row of a kind.
fn kind_row(alloc: Global, kind: &Kind, first: u32) -> Result<KindRow, Memory> {
    Ok(KindRow {
        vocab: first.saturating_add(kind.name),
        name: first.saturating_add(kind.name),
        slots: match &kind.slots {
            Some(names) => Some(slots(alloc, names.as_slice(), first)?),
            None => None,
        },
    })
}

// The rows of kinds.
fn kinds(alloc: Global, told: &[Kind], first: u32) -> Result<List<KindRow>, Memory> {
    let mut rows = List::new(alloc);
    for kind in told {
        rows.push(kind_row(alloc, kind, first)?)?;
    }
    Ok(rows)
}

// Class sets of these kinds.
fn sets(alloc: Global, told: &[Vec<u32>]) -> Result<List<List<u32>>, Memory> {
    let mut sets = List::new(alloc);
    for kinds in told {
        sets.push(List::from_vec(Vec::from_slice(alloc, kinds.as_slice())?)?)?;
    }
    Ok(sets)
}

// The row of a generic.
fn generic_row(alloc: Global, generic: &Generic) -> Result<GenericRow, Memory> {
    Ok(GenericRow {
        word: generic.word,
        methods: List::from_vec(Vec::from_slice(alloc, generic.methods.as_slice())?)?,
    })
}

// The rows of generics.
fn generics(alloc: Global, told: &[Generic]) -> Result<List<GenericRow>, Memory> {
    let mut rows = List::new(alloc);
    for generic in told {
        rows.push(generic_row(alloc, generic)?)?;
    }
    Ok(rows)
}

// Texts, and behind them names.
fn texts(alloc: Global, texts: &List<Text>, names: &List<Text>) -> Result<List<Text>, Memory> {
    let mut all = texts.copy(alloc)?;
    for name in names.as_slice() {
        all.push(name.copy(alloc)?)?;
    }
    Ok(all)
}

/// The tables of these rows.
pub fn tables(alloc: Global, rows: &Rows) -> Result<Tables, Memory> {
    let first = rows.texts.len();
    Ok(Tables {
        texts: SharedTexts::new(alloc, texts(alloc, &rows.texts, &rows.names)?)?,
        arrays: arrays(alloc, rows.arrays.as_slice())?,
        kinds: kinds(alloc, rows.kinds.as_slice(), first)?,
        sets: sets(alloc, rows.sets.as_slice())?,
        templates: templates(alloc, rows.templates.as_slice(), rows.heights.as_slice())?,
        words: words(alloc, rows.words.as_slice(), first)?,
        generics: generics(alloc, rows.generics.as_slice())?,
        pairs: List::from_vec(Vec::from_slice(alloc, rows.pairs.as_slice())?)?,
    })
}
