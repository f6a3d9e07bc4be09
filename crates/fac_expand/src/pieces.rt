//! Pieces of code: that of a word, of a template or of the top-level phrase.
ghost use Rattle.std.specs.Prelude.{◌≡◌, true, IfOk};
ghost use Rattle.fac_lang.specs.Procedures.{places_from};
ghost use Rattle.fac_carry.specs.Stands.{ends_phrase};
ghost use Rattle.fac_expand.specs.inner.PieceCode.{StandsFor};
ghost use Rattle.fac_expand.specs.inner.Steps.{IsEmpty, MadePiece};

use crate::draft::Draft;
use crate::entries::Entries;
use crate::growing::Growing;
use crate::hints::Hints;
use crate::plan::{Plan, Use};
use crate::reach::{Reach, reach_of};
use crate::stopped::Stopped;
use fac_base::{List, Memory};
use fac_code::{Image, Instr};
use std::alloc::Global;

/// How many times a piece is gone through to find which quotations are to be made.
const MOST_ROUNDS: u32 = 8;

/// Which code of an image is expanded.
#[derive(Clone, Copy, Debug, PartialEq, Eq)]
pub enum Extent {
    /// All of it.
    All,
    /// That which a run can come to. It is found by what instructions name.
    Reached,
}

/// What makes pieces of code.
#[derive(Drop)]
pub struct Expander {
    hints: Hints,
    // What is to be expanded. None where all is.
    wanted: Option<Reach>,
    // How many items may still be gone over, in all pieces.
    left: u64,
}

// What is to be expanded. None where all is.
fn wanted(alloc: Global, plain: &Image, extent: Extent) -> Result<Option<Reach>, Memory> {
    match extent {
        Extent::All => Ok(None),
        Extent::Reached => Ok(Some(reach_of(alloc, plain)?)),
    }
}

/// What makes pieces of code from this plain image.
pub fn make_expander(alloc: Global, plain: &Image, extent: Extent) -> Result<Expander, Memory> {
    let wanted = wanted(alloc, plain, extent)?;
    Ok(Expander {
        hints: Hints::new(alloc),
        wanted,
        left: 8 * plain.code.len() as u64 + 100_000,
    })
}

// A draft with nothing in it, under a frame of so many cells.
fn empty_draft(alloc: Global, cells: u32) -> Draft
    ensures { IsEmpty cells result }
{
    Draft {
        code: Growing::new(alloc),
        owed: 0,
        stack: Entries::new(alloc),
        put_off: Growing::new(alloc),
        cells,
    }
}

/// The numbers from 0 on, so many.
pub fn numbers(alloc: Global, count: u32) -> Result<List<u32>, Memory>
    ensures { IfOk result (λ numbers. numbers ≡ places_from 0 count) }
{
    let mut numbers: List<u32> = List::new(alloc);
    for number in 0..count {
        numbers.push(number)?;
    }
    Ok(numbers)
}

impl<'a> Plan<'a> {
    // Code that stands for what plain code at a place stands for.
    fn drafted(
        &self,
        hints: &mut Hints,
        last: Instr,
        cells: u32,
        start: u32,
    ) -> Result<Growing<Instr>, Stopped>
        requires { ends_phrase last ≡ true }
        ensures { IfOk result (λ code. self.now.strict ≡ true → StandsFor self.now.plain.now last cells start self.now.base code) }
    {
        let mut draft = empty_draft(self.alloc, cells);
        let env = numbers(self.alloc, cells)?;
        let depth = hints.most_nested();
        self.phrase(&mut draft, hints, depth, start, env, Some(last))?;
        let Draft { code, .. } = draft;
        Ok(code)
    }
}

impl Expander {
    // Whether a piece was gone through so that nothing new is to be made.
    fn is_settled(
        &mut self,
        plan: &Plan<'_>,
        last: Instr,
        cells: u32,
        start: u32,
    ) -> Result<bool, Stopped>
        requires { ends_phrase last ≡ true }
    {
        let made = self.hints.made.len();
        self.hints.begin();
        plan.drafted(&mut self.hints, last, cells, start)?;
        if self.hints.hopeless {
            return Err(Stopped::Plain);
        }
        Ok(self.hints.made.len() == made)
    }

    // Finds which quotations of a piece are to be made.
    fn find_made(
        &mut self,
        plan: &Plan<'_>,
        last: Instr,
        cells: u32,
        start: u32,
    ) -> Result<(), Stopped>
        requires { ends_phrase last ≡ true }
    {
        for _ in 0..MOST_ROUNDS {
            if self.is_settled(plan, last, cells, start)? {
                return Ok(());
            }
        }
        Err(Stopped::Plain)
    }

    // Code for a piece: with nothing made where that can be, and else with what is found to be needed.
    fn made(
        &mut self,
        lenient: &Plan<'_>,
        strict: &Plan<'_>,
        last: Instr,
        cells: u32,
        start: u32,
    ) -> Result<Growing<Instr>, Stopped>
        requires { ends_phrase last ≡ true }
        ensures { IfOk result (λ code. strict.now.strict ≡ true → StandsFor strict.now.plain.now last cells start strict.now.base code) }
    {
        match strict.drafted(&mut self.hints, last, cells, start) {
            Ok(code) => return Ok(code),
            Err(Stopped::Memory) => return Err(Stopped::Memory),
            Err(Stopped::Plain) => {}
        }
        self.find_made(lenient, last, cells, start)?;
        self.hints.begin();
        strict.drafted(&mut self.hints, last, cells, start)
    }

    /// From now on no piece is made.
    pub fn stop(&mut self) {
        self.left = 0;
    }

    /// Whether what begins at a place is to be expanded.
    pub fn is_wanted(&self, start: u32) -> bool {
        match &self.wanted {
            None => true,
            Some(reach) => reach.has(start),
        }
    }

    /// Whether there is nothing to be expanded.
    pub fn is_idle(&self) -> bool {
        match &self.wanted {
            None => false,
            Some(reach) => !reach.has_quotations(),
        }
    }

    // Before a piece nothing is known of it.
    fn begin(&mut self) {
        self.hints.passed = 0;
        self.hints.hopeless = false;
        self.hints.begin();
    }

    // What was found of a piece is forgotten.
    fn forget(&mut self) {
        self.hints.made.clear();
        self.left -= self.left.min(self.hints.passed as u64);
    }

    // Code for a piece that begins with this place of plain code, and is to begin at a place: under a frame of so many cells, and with this instruction at its end. None where
    // the plain code is to stay.
    fn attempt(
        &mut self,
        alloc: Global,
        plain: &Image,
        uses: &[Use],
        last: Instr,
        cells: u32,
        start: u32,
        base: u32,
    ) -> Result<Option<Growing<Instr>>, Memory>
        requires { ends_phrase last ≡ true }
        ensures { MadePiece plain.now last cells start base result }
    {
        let lenient = Plan {
            alloc,
            plain,
            uses,
            strict: false,
            base,
        };
        let strict = Plan {
            alloc,
            plain,
            uses,
            strict: true,
            base,
        };
        self.begin();
        let made = self.made(&lenient, &strict, last, cells, start);
        self.forget();
        match made {
            Ok(code) => Ok(Some(code)),
            Err(stopped) => match stopped {
                Stopped::Plain => Ok(None),
                Stopped::Memory => Err(Memory),
            },
        }
    }

    /// Code for a piece that begins with this place of plain code, and is to begin at a place: under a frame of so many cells, and with this instruction at its end. None where
    /// the plain code is to stay.
    pub fn piece(
        &mut self,
        alloc: Global,
        plain: &Image,
        uses: &[Use],
        last: Instr,
        cells: u32,
        start: u32,
        base: u32,
    ) -> Result<Option<Growing<Instr>>, Memory>
        requires { ends_phrase last ≡ true }
        ensures { MadePiece plain.now last cells start base result }
    {
        if self.left == 0 || !self.is_wanted(start) {
            return Ok(None);
        }
        self.attempt(alloc, plain, uses, last, cells, start, base)
    }

    /// The same for a direct phrase, whatever it has of items and loops.
    pub fn direct_piece(
        &mut self,
        alloc: Global,
        plain: &Image,
        uses: &[Use],
        last: Instr,
        cells: u32,
        start: u32,
        base: u32,
    ) -> Result<Option<Growing<Instr>>, Memory>
        requires { ends_phrase last ≡ true }
        ensures { MadePiece plain.now last cells start base result }
    {
        self.hints.direct = true;
        let made = self.attempt(alloc, plain, uses, last, cells, start, base);
        self.hints.direct = false;
        made
    }
}
