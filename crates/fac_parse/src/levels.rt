//! The contexts of an element, from that of the innermost bracket to that of the items as a whole.
ghost use Rattle.std.specs.Prelude.{◌≡◌, ◌+◌, ◌∷◌, [], nat_le, Ok};
ghost use Rattle.fac_parse.specs.Contexts.{behind, item_behind, items_in, inside as before_first, counted, uncounted, bound, holed, opened, opens_in, opened_locals, locals_in, most_locals, closed};
ghost use Rattle.fac_parse.specs.inner.Reader.{contexts_of, is_open as open_there, is_there, Passes};

use crate::context::{Around, Context};
use fac_base::limits::{MOST_ELEMENTS, MOST_HOLES, MOST_LEVELS, MOST_LOCALS};
use fac_base::{Memory, Stack};
use fac_source::{Bracket, Element, Term};
use std::alloc::Global;

/// The contexts of an element.
#[derive(Drop)]
pub struct Levels {
    /// Where the next element stands.
    pub here: Context,
    /// Where the brackets stand that are open. The innermost is the top.
    pub outer: Stack<Context>,
}

// Before the first element of a bracket.
fn inside(bracket: Bracket, context: Context) -> Context
    ensures { result ≡ before_first bracket context }
{
    match bracket {
        Bracket::Quotation => Context {
            around: Around::Items,
            locals: context.locals,
            holes: context.holes,
        },
        Bracket::Array => Context {
            around: Around::Array(0),
            locals: context.locals,
            holes: None,
        },
        Bracket::Fry => Context {
            around: Around::Fry,
            locals: context.locals,
            holes: Some(0),
        },
    }
}

// How many locals are in scope.
fn locals_of(context: Context) -> usize
    ensures { result ≡ locals_in context.locals }
{
    match context.locals {
        Some(locals) => locals,
        None => 0,
    }
}

impl Levels {
    /// Items before the first element, with so many locals in scope, or where none may be bound.
    pub fn new(alloc: Global, locals: Option<usize>) -> Levels
        ensures { contexts_of result ≡ items_in locals ∷ [] }
    {
        Levels {
            here: Context {
                around: Around::Items,
                locals,
                holes: None,
            },
            outer: Stack::new(alloc),
        }
    }

    /// Whether a bracket is open.
    pub fn is_open(&self) -> bool
        ensures { result ≡ open_there (contexts_of self.now) }
    {
        self.outer.len() != 0
    }

    // Counts one more element. False where the innermost pair is an array that is full.
    fn count(&mut self) -> bool
        ensures { Passes (counted (contexts_of self.old)) (contexts_of self.new) (Ok result) }
    {
        match self.here.around {
            Around::Array(elements) => {
                if (elements as usize) < MOST_ELEMENTS {
                    self.here.around = Around::Array(elements + 1);
                    true
                } else {
                    false
                }
            }
            Around::Items => true,
            Around::Fry => true,
        }
    }

    /// Whether one more element may stand here: not where the innermost pair is an array that is full.
    pub fn may_count(&self) -> bool
        ensures { result ≡ is_there (counted (contexts_of self.now)) }
    {
        match self.here.around {
            Around::Array(elements) => (elements as usize) < MOST_ELEMENTS,
            Around::Items => true,
            Around::Fry => true,
        }
    }

    /// Whether an item that is no element may stand here: not directly in an array.
    pub fn takes_items(&self) -> bool
        ensures { Passes (uncounted (contexts_of self.now)) (contexts_of self.now) (Ok result) }
    {
        match self.here.around {
            Around::Array(_) => false,
            Around::Items => true,
            Around::Fry => true,
        }
    }

    /// Whether a local may be bound here.
    pub fn may_bind(&self) -> bool
        ensures { result ≡ is_there (bound (uncounted (contexts_of self.now))) }
    {
        if !self.takes_items() {
            return false;
        }
        match self.here.locals {
            Some(locals) => locals < MOST_LOCALS as usize,
            None => false,
        }
    }

    // Binds a local. False where none may be bound.
    fn bind(&mut self) -> bool
        ensures { Passes (bound (uncounted (contexts_of self.old))) (contexts_of self.new) (Ok result) }
    {
        if !self.takes_items() {
            return false;
        }
        match self.here.locals {
            Some(locals) => {
                if locals < MOST_LOCALS as usize {
                    self.here.locals = Some(locals + 1);
                    true
                } else {
                    false
                }
            }
            None => false,
        }
    }

    // Adds a hole to the fry around. False where there is none, or it has too many.
    fn add_hole(&mut self) -> bool
        ensures { Passes (holed (contexts_of self.old)) (contexts_of self.new) (Ok result) }
    {
        match self.here.holes {
            Some(holes) => {
                if holes < MOST_HOLES {
                    self.here.holes = Some(holes + 1);
                    true
                } else {
                    false
                }
            }
            None => false,
        }
    }

    // Goes on behind an item. False where it may not stand.
    fn pass_item(&mut self, term: &Term) -> bool
        ensures { Passes (item_behind (contexts_of self.old) term.now) (contexts_of self.new) (Ok result) }
    {
        match term {
            Term::NextMethod(_) => self.takes_items(),
            Term::EffectCall { .. } => self.takes_items(),
            Term::Bind { .. } => self.bind(),
            Term::Hole(_) => self.add_hole(),
            Term::CalledHole(_) => self.add_hole(),
            _ => self.count(),
        }
    }

    // Counts a bracket that opens here. False where it may not stand.
    fn count_bracket(&mut self, bracket: Bracket) -> bool
        ensures { Passes (opens_in bracket (contexts_of self.old)) (contexts_of self.new) (Ok result) }
    {
        match bracket {
            Bracket::Quotation => self.count(),
            Bracket::Array => self.count(),
            Bracket::Fry => self.takes_items(),
        }
    }

    // Opens a bracket. False where it may not open here, or too many are open.
    fn open(&mut self, bracket: Bracket) -> Result<bool, Memory>
        ensures { Passes (opened bracket (opens_in bracket (contexts_of self.old))) (contexts_of self.new) result }
    {
        if !self.count_bracket(bracket) {
            return Ok(false);
        }
        if self.outer.len() < MOST_LEVELS as usize {
            self.outer.push(self.here)?;
            self.here = inside(bracket, self.here);
            Ok(true)
        } else {
            Ok(false)
        }
    }

    /// Whether a quotation with so many inputs that are locals may open here.
    pub fn may_open_locals(&self, names: u32) -> bool
        ensures { result ≡ is_there (opened_locals names (uncounted (contexts_of self.now))) }
    {
        if !self.takes_items() {
            return false;
        }
        self.outer.len() < MOST_LEVELS as usize && has_room(self.here, names as usize)
    }

    // Opens a quotation with so many inputs that are locals. False where none may open.
    fn open_locals(&mut self, names: u32) -> Result<bool, Memory>
        ensures { Passes (opened_locals names (uncounted (contexts_of self.old))) (contexts_of self.new) result }
    {
        if !self.may_open_locals(names) {
            return Ok(false);
        }
        self.outer.push(self.here)?;
        self.here.around = Around::Items;
        self.here.locals = Some(locals_of(self.here) + names as usize);
        Ok(true)
    }

    // Closes the innermost pair. False where there is none, or it is of the other kind.
    fn close(&mut self, bracket: Bracket) -> bool
        ensures { Passes (closed (contexts_of self.old) bracket) (contexts_of self.new) (Ok result) }
    {
        match self.outer.pop() {
            None => false,
            Some(outer) => {
                let holes = self.here.holes;
                match self.here.around {
                    Around::Items => match bracket {
                        Bracket::Quotation => {
                            self.here = outer;
                            self.here.holes = holes;
                            true
                        }
                        Bracket::Array => false,
                        Bracket::Fry => false,
                    },
                    Around::Fry => match bracket {
                        Bracket::Quotation => {
                            self.here = outer;
                            true
                        }
                        Bracket::Array => false,
                        Bracket::Fry => false,
                    },
                    Around::Array(_) => match bracket {
                        Bracket::Quotation => false,
                        Bracket::Array => {
                            self.here = outer;
                            true
                        }
                        Bracket::Fry => false,
                    },
                }
            }
        }
    }

    /// Goes on behind an element. False where it may not stand.
    pub fn pass(&mut self, element: &Element) -> Result<bool, Memory>
        ensures { Passes (behind (contexts_of self.old) element.now) (contexts_of self.new) result }
    {
        match element {
            Element::Item(term) => Ok(self.pass_item(term)),
            Element::Opens(bracket, _) => self.open(*bracket),
            Element::OpensLocals { names, .. } => self.open_locals(names.len()),
            Element::Closes(bracket, _) => Ok(self.close(*bracket)),
        }
    }
}

// Whether so many more locals may be in scope.
fn has_room(context: Context, names: usize) -> bool
    ensures { result ≡ nat_le (locals_in context.locals + names) most_locals }
{
    let most = MOST_LOCALS as usize;
    names <= most && locals_of(context) <= most - names
}
