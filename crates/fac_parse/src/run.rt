//! Items as far as they are read.
ghost use Rattle.std.specs.Prelude.{◌≡◌, ◌∷◌, [], Ok, IfOk, OnOk};
ghost use Rattle.fac_parse.specs.Contexts.{behind, items_in};
ghost use Rattle.fac_source.specs.declared.tree.Element.TheVariants.{OpensLocals};
ghost use Rattle.fac_effect.specs.declared.spelling.Spelling.TheVariants.{Name};
ghost use Rattle.fac_effect.specs.Spellings.{token_spelling};
ghost use Rattle.fac_effect.specs.EffectReading.{reads as reading, whole as whole_effect};
ghost use Rattle.fac_effect.specs.RowlessEffects.{behind_opens};
ghost use Rattle.fac_parse.specs.inner.Reader.{element_of, grown, grown_if, is_local as local_there, begin_element, bind_step, heading_step, wrap_step, call_of, call_step, grow as grown_by};
ghost use Rattle.fac_parse.specs.inner.Reader.{may_end as ends_there, is_literal_half, contexts_of, half_of, IsHalfRead, IsGrowth, Grows, Adds, Holds};

use crate::levels::Levels;
use fac_base::{List, Memory, Place};
use fac_effect::{
    EffectReader, EffectStep, Spelling, declared_height, is_local_name, is_no_row, text,
};
use fac_source::{Bracket, Callee, Element, Term, Token};
use std::alloc::Global;
use std::mem;

/// How far an element is read that has several tokens.
#[derive(Clone, Copy)]
pub enum Unfinished {
    /// No element is begun.
    Nothing,
    /// Behind a `:>`, which stands here.
    Bind(Place),
    /// Behind a `[|`, which stands here, and names.
    Heading(Place),
    /// Behind a `\`, which stands here.
    Wrap(Place),
    /// Behind a `call(` or `execute(`, which stands here, and tokens of its effect.
    Call(Callee, Place),
}

/// What one more token makes of the element that is begun.
#[derive(Drop)]
pub enum Growth {
    /// No element goes on with it.
    Stuck,
    /// The element has more tokens.
    More,
    /// The element is whole.
    Whole(Element),
}

/// Items as far as they are read.
#[derive(Drop)]
pub struct Run {
    /// The elements that are whole.
    pub elements: List<Element>,
    /// Where the next element stands.
    pub levels: Levels,
    /// The element that is begun.
    pub unfinished: Unfinished,
    /// The names of locals, or the tokens of the effect, of the element that is begun.
    pub names: List<Token>,
    /// How far the effect of the element that is begun is read.
    pub effect: EffectReader,
}

// The element that a token of this spelling is.
fn element(spelling: Spelling, token: Token) -> Option<Element>
    ensures { result ≡ element_of spelling token }
{
    match spelling {
        Spelling::Literal(literal) => Some(Element::Item(Term::Literal(token, literal.kept()))),
        Spelling::Name => Some(Element::Item(Term::Name(token))),
        Spelling::NextMethod => Some(Element::Item(Term::NextMethod(token.place))),
        Spelling::Hole => Some(Element::Item(Term::Hole(token.place))),
        Spelling::CalledHole => Some(Element::Item(Term::CalledHole(token.place))),
        Spelling::OpensBracket(bracket) => Some(Element::Opens(bracket, token.place)),
        Spelling::ClosesBracket(bracket) => match bracket {
            Bracket::Quotation => Some(Element::Closes(bracket, token.place)),
            Bracket::Array => Some(Element::Closes(bracket, token.place)),
            Bracket::Fry => None,
        },
        _ => None,
    }
}

// The growth to an element, if there is one.
fn whole(element: Option<Element>) -> Growth
    ensures { IsGrowth (grown_if element) result }
{
    match element {
        Some(element) => Growth::Whole(element),
        None => Growth::Stuck,
    }
}

// Whether a name may be that of a local.
fn is_local(token: &Token) -> bool
    ensures { result ≡ local_there token.now }
{
    is_local_name(text(&token.kind))
}

impl Run {
    /// No items, with so many locals in scope, or where none may be bound.
    pub fn new(alloc: Global, locals: Option<usize>) -> Run
        ensures elements { result.elements ≡ [] }
        ensures contexts { contexts_of result.levels ≡ items_in locals ∷ [] }
        ensures unfinished { result.unfinished ≡ Unfinished.Nothing }
    {
        Run {
            elements: List::new(alloc),
            levels: Levels::new(alloc, locals),
            unfinished: Unfinished::Nothing,
            names: List::new(alloc),
            effect: EffectReader::new(alloc),
        }
    }

    /// Whether the items may end here: no bracket is open, and no element is begun.
    pub fn may_end(&self) -> bool
        ensures { result ≡ ends_there (contexts_of self.now.levels) (half_of self.now) }
    {
        if self.levels.is_open() {
            return false;
        }
        match self.unfinished {
            Unfinished::Nothing => true,
            Unfinished::Bind(_) => false,
            Unfinished::Heading(_) => false,
            Unfinished::Wrap(_) => false,
            Unfinished::Call(..) => false,
        }
    }

    /// Whether the element that is begun is a literal.
    pub fn begins_literal(&self) -> bool
        ensures { result ≡ is_literal_half (half_of self.now) }
    {
        match self.unfinished {
            Unfinished::Nothing => false,
            Unfinished::Bind(_) => false,
            Unfinished::Heading(_) => false,
            Unfinished::Wrap(_) => true,
            Unfinished::Call(..) => false,
        }
    }

    // Takes the first token of an element.
    fn begin_element(&mut self, alloc: Global, spelling: Spelling, token: Token) -> Growth
        requires { self.now.unfinished ≡ Unfinished.Nothing }
        ensures { Grows (begin_element (contexts_of self.old.levels) spelling token) self.old self.new (Ok result) }
    {
        match spelling {
            Spelling::Binds => {
                if self.levels.may_bind() {
                    self.unfinished = Unfinished::Bind(token.place);
                    Growth::More
                } else {
                    Growth::Stuck
                }
            }
            Spelling::OpensLocals => {
                if self.levels.may_open_locals(0) {
                    self.names = List::new(alloc);
                    self.unfinished = Unfinished::Heading(token.place);
                    Growth::More
                } else {
                    Growth::Stuck
                }
            }
            Spelling::Wraps => {
                if self.levels.may_count() {
                    self.unfinished = Unfinished::Wrap(token.place);
                    Growth::More
                } else {
                    Growth::Stuck
                }
            }
            Spelling::EffectCall(callee) => {
                if self.levels.takes_items() {
                    self.names = List::new(alloc);
                    self.effect = EffectReader::opened(alloc);
                    self.unfinished = Unfinished::Call(callee, token.place);
                    Growth::More
                } else {
                    Growth::Stuck
                }
            }
            _ => whole(element(spelling, token)),
        }
    }

    // Takes the name of a local that is bound.
    fn take_bound(&mut self, sign: Place, spelling: Spelling, token: Token) -> Growth
        ensures { Grows (bind_step sign spelling token) self.old self.new (Ok result) }
    {
        match spelling {
            Spelling::Name => {
                if is_local(&token) {
                    self.unfinished = Unfinished::Nothing;
                    Growth::Whole(Element::Item(Term::Bind { sign, name: token }))
                } else {
                    Growth::Stuck
                }
            }
            _ => Growth::Stuck,
        }
    }

    // Adds the name of an input that is a local.
    fn add_local(&mut self, opens: Place, token: Token) -> Result<Growth, Memory>
        requires { self.now.unfinished ≡ Unfinished.Heading opens }
        ensures { Grows (heading_step (contexts_of self.old.levels) opens self.old.names Name token) self.old self.new result }
    {
        if !is_local(&token) {
            return Ok(Growth::Stuck);
        }
        self.names.push(token)?;
        if self.levels.may_open_locals(self.names.len()) {
            Ok(Growth::More)
        } else {
            Ok(Growth::Stuck)
        }
    }

    // Ends the names of inputs that are locals.
    fn end_locals(&mut self, alloc: Global, opens: Place, bar: Place) -> Growth
        ensures { Grows (grown (OpensLocals opens self.old.names bar)) self.old self.new (Ok result) }
    {
        let names = mem::replace(&mut self.names, List::new(alloc)).cut();
        self.unfinished = Unfinished::Nothing;
        Growth::Whole(Element::OpensLocals { opens, names, bar })
    }

    // Takes a token among the names of inputs that are locals.
    fn take_local(
        &mut self,
        alloc: Global,
        opens: Place,
        spelling: Spelling,
        token: Token,
    ) -> Result<Growth, Memory>
        requires { self.now.unfinished ≡ Unfinished.Heading opens }
        ensures { Grows (heading_step (contexts_of self.old.levels) opens self.old.names spelling token) self.old self.new result }
    {
        match spelling {
            Spelling::Name => self.add_local(opens, token),
            Spelling::Bar => Ok(self.end_locals(alloc, opens, token.place)),
            _ => Ok(Growth::Stuck),
        }
    }

    // Takes the name of a word that is a value.
    fn take_wrapped(&mut self, sign: Place, spelling: Spelling, token: Token) -> Growth
        ensures { Grows (wrap_step sign spelling token) self.old self.new (Ok result) }
    {
        match spelling {
            Spelling::Name => {
                self.unfinished = Unfinished::Nothing;
                Growth::Whole(Element::Item(Term::Wrapped { sign, name: token }))
            }
            _ => Growth::Stuck,
        }
    }

    // Ends a call, whose effect has all of its tokens.
    fn end_call(&mut self, alloc: Global, callee: Callee, sign: Place) -> Result<Element, Memory>
        requires { behind_opens self.now.names ≡ whole_effect }
        ensures element { IfOk result (λ element. element ≡ call_of callee sign self.old.names) }
        ensures whole { OnOk result (self.new.unfinished ≡ Unfinished.Nothing) }
        ensures kept { (self.new.elements ≡ self.old.elements) × (self.new.levels ≡ self.old.levels) }
    {
        let height = declared_height(alloc, self.names.as_slice())?;
        let tokens = mem::replace(&mut self.names, List::new(alloc)).cut();
        self.unfinished = Unfinished::Nothing;
        Ok(Element::Item(Term::EffectCall {
            callee,
            sign,
            tokens,
            height,
        }))
    }

    // Takes a token of the effect of a call.
    fn take_in_call(
        &mut self,
        alloc: Global,
        callee: Callee,
        sign: Place,
        spelling: Spelling,
        token: Token,
    ) -> Result<Growth, Memory>
        requires begun { self.now.unfinished ≡ Unfinished.Call callee sign }
        requires read { behind_opens self.now.names ≡ reading self.now.effect }
        requires spelled { token_spelling token.kind ≡ spelling }
        ensures { Grows (call_step callee sign self.old.names self.old.effect spelling token) self.old self.new result }
    {
        if !is_no_row(&self.effect, spelling, &token) {
            return Ok(Growth::Stuck);
        }
        match self.effect.take(spelling, &token)? {
            EffectStep::More => {
                self.names.push(token)?;
                Ok(Growth::More)
            }
            EffectStep::Whole => {
                self.names.push(token)?;
                let element = self.end_call(alloc, callee, sign)?;
                Ok(Growth::Whole(element))
            }
            EffectStep::Refused(_) => Ok(Growth::Stuck),
        }
    }

    /// Takes one more token of an element, or its first.
    pub fn grow(
        &mut self,
        alloc: Global,
        spelling: Spelling,
        token: Token,
    ) -> Result<Growth, Memory>
        requires read { IsHalfRead (half_of self.now) }
        requires spelled { token_spelling token.kind ≡ spelling }
        ensures { Grows (grown_by (contexts_of self.old.levels) (half_of self.old) spelling token) self.old self.new result }
    {
        match self.unfinished {
            Unfinished::Nothing => Ok(self.begin_element(alloc, spelling, token)),
            Unfinished::Bind(sign) => Ok(self.take_bound(sign, spelling, token)),
            Unfinished::Heading(opens) => self.take_local(alloc, opens, spelling, token),
            Unfinished::Wrap(sign) => Ok(self.take_wrapped(sign, spelling, token)),
            Unfinished::Call(callee, sign) => {
                self.take_in_call(alloc, callee, sign, spelling, token)
            }
        }
    }

    /// Adds an element. False where it may not stand.
    pub fn push(&mut self, element: Element) -> Result<bool, Memory>
        ensures { Adds (behind (contexts_of self.old.levels) element) element self.old self.new result }
    {
        if self.levels.pass(&element)? {
            self.elements.push(element)?;
            Ok(true)
        } else {
            Ok(false)
        }
    }

    /// Takes a token. False where no items go on with it.
    pub fn take(&mut self, alloc: Global, spelling: Spelling, token: Token) -> Result<bool, Memory>
        requires read { IsHalfRead (half_of self.now) }
        requires spelled { token_spelling token.kind ≡ spelling }
        ensures { Holds (grown_by (contexts_of self.old.levels) (half_of self.old) spelling token) self.old self.new result }
    {
        match self.grow(alloc, spelling, token)? {
            Growth::Stuck => Ok(false),
            Growth::More => Ok(true),
            Growth::Whole(element) => self.push(element),
        }
    }

    /// The elements, with no room for more.
    pub fn take_elements(&mut self, alloc: Global) -> List<Element>
        ensures { result ≡ self.old.elements }
    {
        mem::replace(&mut self.elements, List::new(alloc)).cut()
    }
}
