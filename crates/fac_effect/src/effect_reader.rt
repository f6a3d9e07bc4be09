//! How the tokens of an effect are read, one behind the other, by what stands open.
ghost use Rattle.std.specs.Prelude.{◌≡◌, ◌<◌, suc};
ghost use Rattle.fac_effect.specs.EffectReading.{start, place_name as name_placed, behind_name as spot_behind_name, is_behind as stands_behind, may_end as ends_at};
ghost use Rattle.fac_effect.specs.EffectReading.{opened as opens_passed, name_step, opens_step, dashes_step, closed, closes_step, step, Takes};
ghost use Rattle.fac_effect.specs.RowlessEffects.{is_no_row as names_no_row};

use crate::spelling::{Spelling, begins_with_dots, ends_with_colon, text};
use fac_base::limits::MOST_NAMES;
use fac_base::{Memory, Stack};
use fac_source::Token;
use std::alloc::Global;

/// A side of an effect.
#[derive(Clone, Copy, Debug, PartialEq, Eq)]
pub enum Side {
    Inputs,
    Outputs,
}

/// Where the next token of an effect stands.
#[derive(Clone, Copy, Debug, PartialEq, Eq)]
pub enum Spot {
    /// Before the `(` of the whole effect.
    Start,
    /// At the beginning of a side.
    First,
    /// Behind an entry of a side.
    Behind,
    /// Behind a name that ends in a colon, which a class or an effect describes.
    Described,
}

/// Why no effect goes on with a token.
#[derive(Clone, Copy, Debug, PartialEq, Eq)]
pub enum EffectWhy {
    /// It is a row variable that isn't the first on its side.
    RowPlace,
    /// It is the 65th name, and no such row variable.
    TooWide,
    /// Anything else.
    Form,
}

/// What a token of an effect came to.
#[derive(Clone, Copy, Debug, PartialEq, Eq)]
pub enum EffectStep {
    /// The effect goes on behind it.
    More,
    /// It is the last token of the effect.
    Whole,
    /// No effect goes on with it.
    Refused(EffectWhy),
}

/// How far the tokens of an effect are read. It keeps what decides over the next token, and no token.
#[derive(Drop)]
pub struct EffectReader {
    /// The side on which the next token stands, of the innermost effect that is open.
    pub side: Side,
    pub spot: Spot,
    /// The sides of the effects around it, which it describes an entry of; the innermost is the top.
    pub outer: Stack<Side>,
    /// How many names were read.
    pub names: u64,
}

impl EffectReader {
    /// Before the first token of an effect, which is its `(`.
    pub fn new(alloc: Global) -> Self
        ensures { result ≡ start }
    {
        EffectReader {
            side: Side::Inputs,
            spot: Spot::Start,
            outer: Stack::new(alloc),
            names: 0,
        }
    }

    /// Behind the `(` of an effect.
    pub fn opened(alloc: Global) -> Self
        ensures { result ≡ opens_passed }
    {
        EffectReader {
            side: Side::Inputs,
            spot: Spot::First,
            outer: Stack::new(alloc),
            names: 0,
        }
    }

    // Goes on at a spot behind one more name.
    fn go_on(&mut self, spot: Spot) -> EffectStep
        requires { self.now.names < MOST_NAMES }
        ensures taken { result ≡ EffectStep.More }
        ensures now { self.new ≡ record { side = self.old.side; spot = spot; outer = self.old.outer; names = suc self.old.names } }
    {
        self.spot = spot;
        self.names += 1;
        EffectStep::More
    }

    // One more name.
    fn place_name(&mut self, colon: bool) -> EffectStep
        requires { self.now.names < MOST_NAMES }
        ensures { Takes (name_placed self.old.spot colon self.old) self.old self.new (Ok result) }
    {
        match self.spot {
            Spot::Start => EffectStep::Refused(EffectWhy::Form),
            Spot::First => self.go_on(behind_name(colon)),
            Spot::Behind => self.go_on(behind_name(colon)),
            Spot::Described => {
                if colon {
                    EffectStep::Refused(EffectWhy::Form)
                } else {
                    self.go_on(Spot::Behind)
                }
            }
        }
    }

    // Takes a name.
    fn take_name(&mut self, row: bool, colon: bool) -> EffectStep
        ensures { Takes (name_step self.old row colon) self.old self.new (Ok result) }
    {
        if is_behind(self.spot) && row {
            return EffectStep::Refused(EffectWhy::RowPlace);
        }
        if self.names < MOST_NAMES {
            self.place_name(colon)
        } else {
            EffectStep::Refused(EffectWhy::TooWide)
        }
    }

    // Takes a `(`.
    fn take_opens(&mut self) -> Result<EffectStep, Memory>
        ensures { Takes (opens_step self.old.spot self.old) self.old self.new result }
    {
        match self.spot {
            Spot::Start => {
                self.side = Side::Inputs;
                self.spot = Spot::First;
                Ok(EffectStep::More)
            }
            Spot::Described => {
                self.outer.push(self.side)?;
                self.side = Side::Inputs;
                self.spot = Spot::First;
                Ok(EffectStep::More)
            }
            Spot::First => Ok(EffectStep::Refused(EffectWhy::Form)),
            Spot::Behind => Ok(EffectStep::Refused(EffectWhy::Form)),
        }
    }

    // Takes a `--`.
    fn take_dashes(&mut self) -> EffectStep
        ensures { Takes (dashes_step (ends_at self.old.spot) self.old.side self.old) self.old self.new (Ok result) }
    {
        if !may_end(self.spot) {
            return EffectStep::Refused(EffectWhy::Form);
        }
        match self.side {
            Side::Inputs => {
                self.side = Side::Outputs;
                self.spot = Spot::First;
                EffectStep::More
            }
            Side::Outputs => EffectStep::Refused(EffectWhy::Form),
        }
    }

    // Goes on behind an effect, with the one around it.
    fn close(&mut self) -> EffectStep
        ensures { Takes (closed self.old.outer self.old.names) self.old self.new (Ok result) }
    {
        match self.outer.pop() {
            Some(side) => {
                self.side = side;
                self.spot = Spot::Behind;
                EffectStep::More
            }
            None => EffectStep::Whole,
        }
    }

    // Takes a `)`.
    fn take_closes(&mut self) -> EffectStep
        ensures { Takes (closes_step (ends_at self.old.spot) self.old.side self.old) self.old self.new (Ok result) }
    {
        if !may_end(self.spot) {
            return EffectStep::Refused(EffectWhy::Form);
        }
        match self.side {
            Side::Inputs => EffectStep::Refused(EffectWhy::Form),
            Side::Outputs => self.close(),
        }
    }

    /// Takes one more token, of this spelling. Where the answer isn't `More`, the reader is as it was.
    pub fn take(&mut self, spelling: Spelling, token: &Token) -> Result<EffectStep, Memory>
        ensures { Takes (step self.old spelling token.now) self.old self.new result }
    {
        match spelling {
            Spelling::Name => {
                let name = text(&token.kind);
                Ok(self.take_name(begins_with_dots(name), ends_with_colon(name)))
            }
            Spelling::Opens => self.take_opens(),
            Spelling::Dashes => Ok(self.take_dashes()),
            Spelling::Closes => Ok(self.take_closes()),
            _ => Ok(EffectStep::Refused(EffectWhy::Form)),
        }
    }
}

// The spot behind the name of an entry.
fn behind_name(colon: bool) -> Spot
    ensures { result ≡ spot_behind_name colon }
{
    if colon { Spot::Described } else { Spot::Behind }
}

fn is_behind(spot: Spot) -> bool
    ensures { result ≡ stands_behind spot }
{
    match spot {
        Spot::Behind => true,
        Spot::Start => false,
        Spot::First => false,
        Spot::Described => false,
    }
}

/// Whether a side may end at a spot.
pub fn may_end(spot: Spot) -> bool
    ensures { result ≡ ends_at spot }
{
    match spot {
        Spot::First => true,
        Spot::Behind => true,
        Spot::Start => false,
        Spot::Described => false,
    }
}

/// Whether a token of this spelling is no row variable where it goes on with an effect.
pub fn is_no_row(reader: &EffectReader, spelling: Spelling, token: &Token) -> bool
    ensures { result ≡ names_no_row reader.now spelling token.now }
{
    match spelling {
        Spelling::Name => !(may_end(reader.spot) && begins_with_dots(text(&token.kind))),
        _ => true,
    }
}
