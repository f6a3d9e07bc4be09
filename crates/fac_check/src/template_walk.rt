//! Templates whose phrases are walked by themselves.
ghost use Rattle.std.specs.Prelude.{◌≡◌, ◌<◌, ◌≤◌, [], true, length, map, None, IfOk};
ghost use Rattle.fac_base.specs.declared.limits.TheConstants.{MOST_APPLICATIONS, MOST_ITEMS};
ghost use Rattle.fac_abs.specs.Marks.{unknowns};
ghost use Rattle.fac_abs.specs.MarkTrees.{Naming};
ghost use Rattle.fac_abs.specs.MarkPromises.{IsFrameOf};
ghost use Rattle.fac_abs.specs.SeenMarks.{Grows, IsFrame};
ghost use Rattle.fac_rows.specs.NumberedRows.{row_entry};
ghost use Rattle.fac_check.specs.CallableEffects.{no_word};
ghost use Rattle.fac_check.specs.Judged.{StandsForWhole};
ghost use Rattle.fac_check.specs.TemplateWalks.{IsFoundHeight, found_height};
ghost use Rattle.fac_check.specs.inner.Walking.{IsWalked, walked_seen};

use crate::subject::Subject;
use crate::walker::{Step, Walked, Walker, cells_of};
use fac_abs::{Marks, Reached};
use fac_base::limits::{MOST_APPLICATIONS, MOST_ITEMS};
use fac_base::{Height, Memory, Place};
use fac_locals::Closed;
use fac_rows::RowWords;
use std::alloc::Global;

// The frame of so many cells of which nothing is known.
fn unknown_cells(marks: &mut Marks, count: u64) -> Result<u32, Memory>
    ensures grows { Grows marks.old marks.new }
    ensures made { IfOk result (λ frame. IsFrameOf marks.new frame (λ N. unknowns count [])) }
{
    let mut frame = marks.no_cells();
    for _ in 0..count {
        let mark = marks.unknown();
        frame = marks.bind(frame, mark)?;
    }
    Ok(frame)
}

// Where the walk of a template by itself begins, with all that may be entered and walked.
fn first_step(place: Place, frame: u32, stack: u32) -> Step
    ensures { result ≡ record { place = place; nested = MOST_APPLICATIONS; base = None; stack = stack; frame = frame; left = MOST_ITEMS; alone = true } }
{
    Step {
        place,
        nested: MOST_APPLICATIONS,
        base: None,
        stack,
        frame,
        left: MOST_ITEMS,
        alone: true,
    }
}

// How many values the walked phrase takes and leaves.
fn height_of(marks: &Marks, inputs: u32, walked: Walked) -> Option<Height>
    requires { IsWalked marks.now walked }
    ensures { (N : Naming) → result ≡ found_height inputs (walked_seen N marks.now walked) }
{
    match walked {
        Walked::Refused(_) => None,
        Walked::Found(reached, _) => match reached {
            Reached::Dead => Some(Height {
                ins: inputs,
                outs: None,
            }),
            Reached::On { base: _, stack } => Some(Height {
                ins: inputs,
                outs: Some(marks.height(stack)),
            }),
        },
    }
}

// No list of words is as long as the number of no word.
fn few_words(closed: &Closed)
    ensures { length closed.now.program.words ≤ no_word }
{
    let _count = closed.program.words.len();
}

/// How many values the phrase of a template takes and leaves by itself, where it starts on so many values on no base and nothing is known of
/// them, nor of what its cells hold. None where it breaks a rule of the checker then. Its quotations are none of any word. It takes the time of
/// one walk. Want of memory is the one error.
pub fn walk_template<'a>(
    alloc: Global,
    closed: &'a Closed,
    rows: &'a RowWords,
    template: u32,
    inputs: u32,
) -> Result<Option<Height>, Memory>
    requires stands { StandsForWhole closed.now }
    requires rows { rows.now.entries ≡ map row_entry closed.now.program.words }
    requires template { template < length closed.now.templates }
    ensures { IfOk result (IsFoundHeight closed.now template inputs) }
{
    let _count = closed.templates.len();
    few_words(closed);
    let Some(found) = closed.templates.get(template as usize) else {
        unreachable!()
    };
    let own = None;
    let effect = None;
    let inner = template + 1;
    let mut walker = Walker::new(
        alloc,
        Subject {
            closed,
            rows,
            own,
            effect,
            inner,
        },
    )?;
    let frame = unknown_cells(&mut walker.marks, cells_of(found))?;
    let stack = walker.marks.unknowns(0, inputs as u64)?;
    let step = first_step(found.place, frame, stack);
    let walked = walker.walk_phrase(&found.body, step)?;
    Ok(height_of(&walker.marks, inputs, walked))
}
