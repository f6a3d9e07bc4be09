//! The forms of a source's tokens, token by token.
ghost use Rattle.std.specs.Prelude.{◌≡◌, ◌++◌, ◌∷◌, [], OnOk, IfOk};
ghost use Rattle.fac_parse.specs.Trees.{inputs_of};
ghost use Rattle.fac_parse.specs.Trees.{named as is_named, is_parent_sign as is_sign};
ghost use Rattle.fac_parse.specs.inner.Reader.{in_state, row, begin, begun_at, row_ended, go_on as goes_on, with_part, with_run, more, written, last_inputs};
ghost use Rattle.fac_parse.specs.inner.Reader.{begin_row as row_begins, begins, is_semi, end_items as items_end, mark_of, begins_literal as literal_begins, grown, literal_grown};
ghost use Rattle.fac_parse.specs.inner.Reader.{top_step, name_step, names_step, sign_step, add_slot as slot_added, slots_step, parent_step};
ghost use Rattle.fac_parse.specs.inner.Reader.{key_step, fixed_step, may_take as fits_taking, effect_step, items_step, literal_step};
ghost use Rattle.fac_parse.specs.inner.Reader.{may_follow as may_stand_behind, with_mark, marks_step, step, ended, ended_top, start};
ghost use Rattle.fac_parse.specs.inner.Reader.{contexts_of, half_of, run_ends, open_of, state_of, IsHalfRead, IsRead, Goes, Finishes, IsSyntax};
ghost use Rattle.fac_source.specs.declared.tree.Part.TheVariants as part;
ghost use Rattle.fac_effect.specs.Spellings.{token_spelling};
ghost use Rattle.fac_effect.specs.EffectReading.{reads as reading, whole, after};

use crate::form_parts::{Marked, Naming, Taking};
use crate::run::{Growth, Run, Unfinished};
use fac_base::limits::MOST_SLOTS;
use fac_base::{Boxed, List, Memory, Place};
use fac_effect::{EffectReader, EffectStep, Spelling, classify, effect_from, may_stand, text};
use fac_source::{
    Bracket, DefinitionMark, Element, Form, FormKind, Key, Literal, Parent, Part, Slot, Term,
    Token, WrittenEffect, slot_at,
};
use std::alloc::Global;
use std::mem;
use thiserror::Error;

/// Why a source gives no tree.
#[derive(Clone, Copy, Debug, PartialEq, Eq, Error)]
pub enum ParseFault {
    /// No tree has these tokens. `at` is the number of the token behind the longest beginning of a tree.
    #[error("the tokens are in no tree")]
    Syntax { at: u32, why: Why },
    #[error("out of memory")]
    Memory,
}

/// What is wrong with tokens that are in no tree.
#[derive(Clone, Copy, Debug, PartialEq, Eq)]
pub enum Why {
    /// All of them begin a tree, and they end too early.
    End,
    /// No tree begins with the token that is told and those before it.
    Other,
}

impl From<Memory> for ParseFault {
    ghost use Rattle.fac_parse.specs.declared.reader.ParseFault.TheVariants.{Memory};

    ghost from_gives = { λ _ fault. fault ≡ Memory };

    fn from(_: Memory) -> Self {
        ParseFault::Memory
    }
}

/// The first token of a row.
#[derive(Clone, Copy)]
pub struct Head {
    pub kind: FormKind,
    pub opens: Place,
}

/// Where the next token stands.
#[derive(Clone, Copy)]
pub enum At {
    /// Among items at the top level, or between two rows.
    Top,
    /// Where a row has a name.
    Name(Head, Naming),
    /// Among names.
    Names(Head, Naming),
    /// Among the slots of a tuple class, or in front of its parent.
    Slots(Head),
    /// Behind the sign before a parent, which stands here.
    Parent(Head, Place),
    /// Where a row has a fixed token.
    Fixed(Head, Key),
    /// In an effect, or before it.
    Effect(Head, Taking),
    /// Among the items of a row.
    Items(Head, Taking),
    /// Where a row has a literal, or among its elements.
    Literal(Head),
    /// Behind the `;` of a row that may have marks.
    Marks(Head, Marked),
}

/// What was read so far. What stands in a list counts where the next token stands among what the list has.
#[derive(Drop)]
pub struct Reader {
    /// The forms that are whole.
    pub forms: List<Form>,
    /// The parts of the row that are whole.
    pub parts: List<Part>,
    /// Names, slots, or the tokens of an effect.
    pub names: List<Token>,
    /// The parent of the tuple class.
    pub parent: Option<Parent>,
    /// How far the effect is read.
    pub effect: EffectReader,
    /// Items.
    pub run: Run,
    pub marks: List<DefinitionMark>,
    pub at: At,
}

// The row that a token of this spelling begins.
fn row_begun(spelling: Spelling) -> Option<FormKind>
    ensures { result ≡ begins spelling }
{
    match spelling {
        Spelling::Begins(kind) => Some(kind),
        _ => None,
    }
}

// Whether a token is `;`.
fn is_semicolon(spelling: Spelling) -> bool
    ensures { result ≡ is_semi spelling }
{
    match spelling {
        Spelling::Semi => true,
        _ => false,
    }
}

// What a token of this spelling is where a name stands.
fn named(naming: Naming, spelling: Spelling) -> Spelling
    ensures { result ≡ is_named naming spelling }
{
    match naming {
        Naming::Any => spelling,
        Naming::Class => match spelling {
            Spelling::Literal(Literal::True) => Spelling::Name,
            Spelling::Literal(Literal::False) => Spelling::Name,
            _ => spelling,
        },
    }
}

// Whether a name is the sign that stands before a parent.
fn is_parent_sign(token: &Token) -> bool
    ensures { result ≡ is_sign token.now }
{
    text(&token.kind) == "<"
}

// Whether an element begins a literal.
fn begins_literal(element: &Element) -> bool
    ensures { result ≡ literal_begins element.now }
{
    match element {
        Element::Item(term) => match term {
            Term::Literal(..) => true,
            Term::Wrapped { .. } => true,
            _ => false,
        },
        Element::Opens(bracket, _) => match bracket {
            Bracket::Quotation => true,
            Bracket::Array => true,
            Bracket::Fry => false,
        },
        _ => false,
    }
}

// The parent of a tuple class, where one is written, moved to the heap.
fn boxed_parent(alloc: Global, parent: Option<Parent>) -> Result<Option<Boxed<Parent>>, Memory>
    ensures { IfOk result (λ boxed. boxed ≡ parent) }
{
    match parent {
        Some(parent) => Ok(Some(Boxed::new(alloc, parent)?)),
        None => Ok(None),
    }
}

// The inputs of an effect, and of no other part.
fn inputs(part: &Part) -> usize
    ensures { result ≡ inputs_of part.now }
{
    match part {
        Part::Effect(written) => written.get().effect.inputs(),
        _ => 0,
    }
}

// The inputs of the last of these parts.
fn inputs_before(parts: &[Part]) -> usize
    ensures { result ≡ last_inputs 0 parts.now }
{
    match parts.split_last() {
        Some((part, _)) => inputs(part),
        None => 0,
    }
}

// Whether the inputs of an effect may be what they are taken for, behind one more token.
fn may_take(taking: Taking, reader: &EffectReader, spelling: Spelling, token: &Token) -> bool
    ensures { result ≡ fits_taking taking reader.now spelling token.now }
{
    match taking {
        Taking::Values => true,
        Taking::Locals => may_stand(reader, spelling, token),
    }
}

// The mark that a token of this spelling is.
fn mark(spelling: Spelling, place: Place) -> Option<DefinitionMark>
    ensures { result ≡ mark_of spelling place }
{
    match spelling {
        Spelling::Inline => Some(DefinitionMark::Inline(place)),
        Spelling::Recursive => Some(DefinitionMark::Recursive(place)),
        _ => None,
    }
}

// Whether a mark may stand behind these: none stands twice, and a method has only the one.
fn may_follow(marked: Marked, marks: &List<DefinitionMark>, mark: DefinitionMark) -> bool
    ensures { result ≡ may_stand_behind marked marks.now mark }
{
    match marked {
        Marked::Word => match marks.as_slice() {
            [] => true,
            [first] => match first {
                DefinitionMark::Inline(_) => match mark {
                    DefinitionMark::Inline(_) => false,
                    DefinitionMark::Recursive(_) => true,
                },
                DefinitionMark::Recursive(_) => match mark {
                    DefinitionMark::Inline(_) => true,
                    DefinitionMark::Recursive(_) => false,
                },
            },
            _ => false,
        },
        Marked::Method => match marks.as_slice() {
            [] => match mark {
                DefinitionMark::Inline(_) => true,
                DefinitionMark::Recursive(_) => false,
            },
            _ => false,
        },
    }
}

/// A refusal behind so many tokens.
pub fn syntax(count: usize, why: Why) -> ParseFault
    ensures { IsSyntax count why result }
{
    match u32::try_from(count) {
        Ok(count) if count < u32::MAX => ParseFault::Syntax { at: count + 1, why },
        _ => ParseFault::Memory,
    }
}

impl Reader {
    /// Before the first token.
    pub fn new(alloc: Global) -> Reader
        ensures { state_of result ≡ start }
    {
        Reader {
            forms: List::new(alloc),
            parts: List::new(alloc),
            names: List::new(alloc),
            parent: None,
            effect: EffectReader::new(alloc),
            run: Run::new(alloc, None),
            marks: List::new(alloc),
            at: At::Top,
        }
    }

    // Begins a slot of a row.
    fn begin_slot(&mut self, alloc: Global, head: Head, slot: Slot)
        ensures { state_of self.new ≡ in_state self.old.forms (row (begun_at head self.old.parts) (begin (last_inputs 0 self.old.parts) slot)) }
    {
        match slot {
            Slot::Name => {
                self.at = At::Name(head, Naming::Any);
            }
            Slot::Class => {
                self.at = At::Name(head, Naming::Class);
            }
            Slot::Names => {
                self.names = List::new(alloc);
                self.at = At::Names(head, Naming::Any);
            }
            Slot::Classes => {
                self.names = List::new(alloc);
                self.at = At::Names(head, Naming::Class);
            }
            Slot::Slots => {
                self.names = List::new(alloc);
                self.parent = None;
                self.at = At::Slots(head);
            }
            Slot::Fixed(key) => {
                self.at = At::Fixed(head, key);
            }
            Slot::Effect => {
                self.names = List::new(alloc);
                self.effect = EffectReader::new(alloc);
                self.at = At::Effect(head, Taking::Values);
            }
            Slot::LocalsEffect => {
                self.names = List::new(alloc);
                self.effect = EffectReader::new(alloc);
                self.at = At::Effect(head, Taking::Locals);
            }
            Slot::Items => {
                self.run = Run::new(alloc, None);
                self.at = At::Items(head, Taking::Values);
            }
            Slot::LocalsItems => {
                self.run = Run::new(alloc, Some(inputs_before(self.parts.as_slice())));
                self.at = At::Items(head, Taking::Locals);
            }
            Slot::Literal => {
                self.run = Run::new(alloc, None);
                self.at = At::Literal(head);
            }
            Slot::Marks => {
                self.marks = List::new(alloc);
                self.at = At::Marks(head, Marked::Word);
            }
            Slot::MethodMark => {
                self.marks = List::new(alloc);
                self.at = At::Marks(head, Marked::Method);
            }
        }
    }

    // Ends a row.
    fn end_row(&mut self, alloc: Global, head: Head) -> Result<(), Memory>
        ensures ended { OnOk result (state_of self.new ≡ row_ended self.old.forms (begun_at head self.old.parts)) }
        ensures none_begun { OnOk result (self.new.run.unfinished ≡ Unfinished.Nothing) }
    {
        let parts = mem::replace(&mut self.parts, List::new(alloc)).cut();
        self.run = Run::new(alloc, None);
        self.at = At::Top;
        self.forms.push(Form::Row {
            kind: head.kind,
            opens: head.opens,
            parts,
        })
    }

    // Goes on with a row behind its parts so far.
    fn go_on(&mut self, alloc: Global, head: Head) -> Result<(), Memory>
        ensures { OnOk result (state_of self.new ≡ goes_on self.old.forms (begun_at head self.old.parts)) }
    {
        match slot_at(head.kind, self.parts.len() as usize) {
            Some(slot) => {
                self.begin_slot(alloc, head, slot);
                Ok(())
            }
            None => self.end_row(alloc, head),
        }
    }

    // Adds a part to a row, and goes on.
    fn add_part(&mut self, alloc: Global, head: Head, part: Part) -> Result<(), Memory>
        ensures { OnOk result (state_of self.new ≡ with_part self.old.forms (begun_at head self.old.parts) part) }
    {
        self.parts.push(part)?;
        self.go_on(alloc, head)
    }

    // Ends a run of items, if there is one.
    fn end_run(&mut self, alloc: Global) -> Result<(), Memory>
        ensures { OnOk result (self.new.forms ≡ with_run self.old.forms self.old.run.elements) }
    {
        if self.run.elements.len() == 0 {
            Ok(())
        } else {
            let elements = self.run.take_elements(alloc);
            self.forms.push(Form::Items(elements))
        }
    }

    // Begins a row. False where the items before it may not end.
    fn begin_row(&mut self, alloc: Global, kind: FormKind, opens: Place) -> Result<bool, Memory>
        ensures { Goes (row_begins kind opens self.old.forms self.old.run.elements (run_ends self.old.run)) (state_of self.new) result }
    {
        if !self.run.may_end() {
            return Ok(false);
        }
        self.end_run(alloc)?;
        self.parts = List::new(alloc);
        self.go_on(alloc, Head { kind, opens })?;
        Ok(true)
    }

    // Takes a token at the top level.
    fn take_at_top(
        &mut self,
        alloc: Global,
        spelling: Spelling,
        token: Token,
    ) -> Result<bool, Memory>
        requires at { self.now.at ≡ At.Top }
        requires read { IsHalfRead (half_of self.now.run) }
        requires spelled { token_spelling token.kind ≡ spelling }
        ensures { Goes (top_step self.old.forms self.old.run.elements (contexts_of self.old.run.levels) (half_of self.old.run) spelling token) (state_of self.new) result }
    {
        match row_begun(spelling) {
            Some(kind) => self.begin_row(alloc, kind, token.place),
            None => self.run.take(alloc, spelling, token),
        }
    }

    // Takes a token where a row has a name.
    fn take_name(
        &mut self,
        alloc: Global,
        head: Head,
        spelling: Spelling,
        token: Token,
    ) -> Result<bool, Memory>
        ensures { Goes (name_step self.old.forms (begun_at head self.old.parts) spelling token) (state_of self.new) result }
    {
        match spelling {
            Spelling::Name => {
                self.add_part(alloc, head, Part::Name(token))?;
                Ok(true)
            }
            _ => Ok(false),
        }
    }

    // Ends names.
    fn end_names(&mut self, alloc: Global, head: Head, ends: Place) -> Result<(), Memory>
        ensures { OnOk result (state_of self.new ≡ with_part self.old.forms (begun_at head self.old.parts) (part.Names self.old.names ends)) }
    {
        let names = mem::replace(&mut self.names, List::new(alloc)).cut();
        self.add_part(alloc, head, Part::Names { names, ends })
    }

    // Takes a token among names.
    fn take_names(
        &mut self,
        alloc: Global,
        head: Head,
        naming: Naming,
        spelling: Spelling,
        token: Token,
    ) -> Result<bool, Memory>
        requires { self.now.at ≡ At.Names head naming }
        ensures { Goes (names_step self.old.forms (begun_at head self.old.parts) naming self.old.names spelling token) (state_of self.new) result }
    {
        match spelling {
            Spelling::Name => {
                self.names.push(token)?;
                Ok(true)
            }
            Spelling::Semi => {
                self.end_names(alloc, head, token.place)?;
                Ok(true)
            }
            _ => Ok(false),
        }
    }

    // Goes on behind the sign before a parent. False where the parent or a slot stands before it.
    fn take_sign(&mut self, head: Head, sign: Place) -> bool
        ensures { Goes (sign_step self.old.forms (begun_at head self.old.parts) self.old.parent self.old.names sign) (state_of self.new) (Ok result) }
    {
        match &self.parent {
            None => {
                if self.names.len() == 0 {
                    self.at = At::Parent(head, sign);
                    true
                } else {
                    false
                }
            }
            Some(_) => false,
        }
    }

    // Adds a slot. False where there are too many.
    fn add_slot(&mut self, head: Head, token: Token) -> Result<bool, Memory>
        requires { self.now.at ≡ At.Slots head }
        ensures { Goes (slot_added self.old.forms (begun_at head self.old.parts) self.old.parent self.old.names token) (state_of self.new) result }
    {
        if (self.names.len() as u64) < MOST_SLOTS {
            self.names.push(token)?;
            Ok(true)
        } else {
            Ok(false)
        }
    }

    // Ends the slots of a tuple class.
    fn end_slots(&mut self, alloc: Global, head: Head, ends: Place) -> Result<(), Memory>
        ensures { OnOk result (state_of self.new ≡ with_part self.old.forms (begun_at head self.old.parts) (part.Slots self.old.parent self.old.names ends)) }
    {
        let parent = boxed_parent(alloc, mem::replace(&mut self.parent, None))?;
        let names = mem::replace(&mut self.names, List::new(alloc)).cut();
        self.add_part(
            alloc,
            head,
            Part::Slots {
                parent,
                names,
                ends,
            },
        )
    }

    // Takes a token among the slots of a tuple class, or in front of its parent.
    fn take_slot(
        &mut self,
        alloc: Global,
        head: Head,
        spelling: Spelling,
        token: Token,
    ) -> Result<bool, Memory>
        requires { self.now.at ≡ At.Slots head }
        ensures { Goes (slots_step self.old.forms (begun_at head self.old.parts) self.old.parent self.old.names spelling token) (state_of self.new) result }
    {
        match spelling {
            Spelling::Name => {
                if is_parent_sign(&token) {
                    Ok(self.take_sign(head, token.place))
                } else {
                    self.add_slot(head, token)
                }
            }
            Spelling::Semi => {
                self.end_slots(alloc, head, token.place)?;
                Ok(true)
            }
            _ => Ok(false),
        }
    }

    // Takes the parent of a tuple class.
    fn take_parent(
        &mut self,
        alloc: Global,
        head: Head,
        sign: Place,
        spelling: Spelling,
        token: Token,
    ) -> bool
        ensures { Goes (parent_step self.old.forms (begun_at head self.old.parts) sign spelling token) (state_of self.new) (Ok result) }
    {
        match spelling {
            Spelling::Name => {
                self.names = List::new(alloc);
                self.parent = Some(Parent { sign, class: token });
                self.at = At::Slots(head);
                true
            }
            _ => false,
        }
    }

    // Takes a token where a row has a fixed one.
    fn take_fixed(
        &mut self,
        alloc: Global,
        head: Head,
        key: Key,
        spelling: Spelling,
        token: Token,
    ) -> Result<bool, Memory>
        ensures { Goes (fixed_step self.old.forms (begun_at head self.old.parts) key spelling token) (state_of self.new) result }
    {
        match spelling {
            Spelling::Fixed(other) => match key {
                Key::Arrow => match other {
                    Key::Arrow => {
                        self.add_part(alloc, head, Part::Fixed(key, token.place))?;
                        Ok(true)
                    }
                },
            },
            _ => Ok(false),
        }
    }

    // Ends an effect, whose tokens are all there.
    fn end_effect(&mut self, alloc: Global, head: Head) -> Result<(), Memory>
        requires { after self.now.names ≡ whole }
        ensures { OnOk result (state_of self.new ≡ with_part self.old.forms (begun_at head self.old.parts) (part.Effect (written self.old.names))) }
    {
        let effect = effect_from(alloc, self.names.as_slice())?;
        let tokens = mem::replace(&mut self.names, List::new(alloc)).cut();
        let written = Boxed::new(alloc, WrittenEffect { tokens, effect })?;
        self.add_part(alloc, head, Part::Effect(written))
    }

    // Takes a token of an effect.
    fn take_effect(
        &mut self,
        alloc: Global,
        head: Head,
        taking: Taking,
        spelling: Spelling,
        token: Token,
    ) -> Result<bool, Memory>
        requires at { self.now.at ≡ At.Effect head taking }
        requires read { after self.now.names ≡ reading self.now.effect }
        requires spelled { token_spelling token.kind ≡ spelling }
        ensures { Goes (effect_step self.old.forms (begun_at head self.old.parts) taking self.old.names self.old.effect spelling token) (state_of self.new) result }
    {
        if !may_take(taking, &self.effect, spelling, &token) {
            return Ok(false);
        }
        match self.effect.take(spelling, &token)? {
            EffectStep::More => {
                self.names.push(token)?;
                Ok(true)
            }
            EffectStep::Whole => {
                self.names.push(token)?;
                self.end_effect(alloc, head)?;
                Ok(true)
            }
            EffectStep::Refused(_) => Ok(false),
        }
    }

    // Ends the items of a row. False where they may not end.
    fn end_items(&mut self, alloc: Global, head: Head, ends: Place) -> Result<bool, Memory>
        ensures { Goes (items_end self.old.forms (begun_at head self.old.parts) self.old.run.elements (run_ends self.old.run) ends) (state_of self.new) result }
    {
        if !self.run.may_end() {
            return Ok(false);
        }
        let elements = self.run.take_elements(alloc);
        self.add_part(alloc, head, Part::Items { elements, ends })?;
        Ok(true)
    }

    // Ends a literal.
    fn end_literal(&mut self, alloc: Global, head: Head) -> Result<(), Memory>
        ensures { OnOk result (state_of self.new ≡ with_part self.old.forms (begun_at head self.old.parts) (part.Literal self.old.run.elements)) }
    {
        let elements = self.run.take_elements(alloc);
        self.add_part(alloc, head, Part::Literal(elements))
    }

    // Takes a token among the items of a row.
    fn take_in_items(
        &mut self,
        alloc: Global,
        head: Head,
        taking: Taking,
        spelling: Spelling,
        token: Token,
    ) -> Result<bool, Memory>
        requires at { self.now.at ≡ At.Items head taking }
        requires read { IsHalfRead (half_of self.now.run) }
        requires spelled { token_spelling token.kind ≡ spelling }
        ensures { Goes (items_step self.old.forms (begun_at head self.old.parts) taking self.old.run.elements (contexts_of self.old.run.levels) (half_of self.old.run) spelling token) (state_of self.new) result }
    {
        if is_semicolon(spelling) {
            self.end_items(alloc, head, token.place)
        } else {
            self.run.take(alloc, spelling, token)
        }
    }

    // Adds an element to a literal, which ends where no bracket is open then. False where it may not stand.
    fn add_to_literal(
        &mut self,
        alloc: Global,
        head: Head,
        element: Element,
    ) -> Result<bool, Memory>
        requires at { self.now.at ≡ At.Literal head }
        requires whole { self.now.run.unfinished ≡ Unfinished.Nothing }
        ensures { Goes (literal_grown self.old.forms (begun_at head self.old.parts) self.old.run.elements (contexts_of self.old.run.levels) (grown element)) (state_of self.new) result }
    {
        if !self.run.levels.is_open() && !begins_literal(&element) {
            return Ok(false);
        }
        if !self.run.push(element)? {
            return Ok(false);
        }
        if !self.run.levels.is_open() {
            self.end_literal(alloc, head)?;
        }
        Ok(true)
    }

    // Takes a token of a literal.
    fn take_in_literal(
        &mut self,
        alloc: Global,
        head: Head,
        spelling: Spelling,
        token: Token,
    ) -> Result<bool, Memory>
        requires at { self.now.at ≡ At.Literal head }
        requires read { IsHalfRead (half_of self.now.run) }
        requires spelled { token_spelling token.kind ≡ spelling }
        ensures { Goes (literal_step self.old.forms (begun_at head self.old.parts) self.old.run.elements (contexts_of self.old.run.levels) (half_of self.old.run) spelling token) (state_of self.new) result }
    {
        match self.run.grow(alloc, spelling, token)? {
            Growth::Stuck => Ok(false),
            Growth::More => {
                if self.run.levels.is_open() {
                    Ok(true)
                } else {
                    Ok(self.run.begins_literal())
                }
            }
            Growth::Whole(element) => self.add_to_literal(alloc, head, element),
        }
    }

    // Adds a mark to a row. False where it may not stand.
    fn add_mark(&mut self, head: Head, marked: Marked, mark: DefinitionMark) -> Result<bool, Memory>
        requires { self.now.at ≡ At.Marks head marked }
        ensures { Goes (with_mark self.old.forms (begun_at head self.old.parts) marked self.old.marks mark) (state_of self.new) result }
    {
        if may_follow(marked, &self.marks, mark) {
            self.marks.push(mark)?;
            Ok(true)
        } else {
            Ok(false)
        }
    }

    // Ends a row with its marks.
    fn end_marks(&mut self, alloc: Global, head: Head) -> Result<(), Memory>
        ensures ended { OnOk result (state_of self.new ≡ row_ended self.old.forms (more (begun_at head self.old.parts) (part.Marks self.old.marks))) }
        ensures none_begun { OnOk result (self.new.run.unfinished ≡ Unfinished.Nothing) }
    {
        let marks = mem::replace(&mut self.marks, List::new(alloc)).cut();
        self.parts.push(Part::Marks(marks))?;
        self.end_row(alloc, head)
    }

    // Takes a token where a row may have marks.
    fn take_mark(
        &mut self,
        alloc: Global,
        head: Head,
        marked: Marked,
        spelling: Spelling,
        token: Token,
    ) -> Result<bool, Memory>
        requires at { self.now.at ≡ At.Marks head marked }
        requires spelled { token_spelling token.kind ≡ spelling }
        ensures { Goes (marks_step self.old.forms (begun_at head self.old.parts) marked self.old.marks spelling token) (state_of self.new) result }
    {
        match mark(spelling, token.place) {
            Some(mark) => self.add_mark(head, marked, mark),
            None => {
                self.end_marks(alloc, head)?;
                self.take_at_top(alloc, spelling, token)
            }
        }
    }

    /// Takes a token. False where no tree goes on with it.
    pub fn take(&mut self, alloc: Global, token: Token) -> Result<bool, Memory>
        requires { IsRead (open_of self.now.at self.now) }
        ensures { Goes (step (state_of self.old) token) (state_of self.new) result }
    {
        let spelling = classify(&token.kind);
        match self.at {
            At::Top => self.take_at_top(alloc, spelling, token),
            At::Name(head, naming) => self.take_name(alloc, head, named(naming, spelling), token),
            At::Names(head, naming) => {
                self.take_names(alloc, head, naming, named(naming, spelling), token)
            }
            At::Slots(head) => self.take_slot(alloc, head, spelling, token),
            At::Parent(head, sign) => Ok(self.take_parent(alloc, head, sign, spelling, token)),
            At::Fixed(head, key) => self.take_fixed(alloc, head, key, spelling, token),
            At::Effect(head, taking) => self.take_effect(alloc, head, taking, spelling, token),
            At::Items(head, taking) => self.take_in_items(alloc, head, taking, spelling, token),
            At::Literal(head) => self.take_in_literal(alloc, head, spelling, token),
            At::Marks(head, marked) => self.take_mark(alloc, head, marked, spelling, token),
        }
    }

    // Ends a run of items where the tokens end. False where it may not end.
    fn finish_top(&mut self, alloc: Global) -> Result<bool, Memory>
        ensures { Finishes (ended_top self.old.forms self.old.run.elements (run_ends self.old.run)) self.new.forms result }
    {
        if !self.run.may_end() {
            return Ok(false);
        }
        self.end_run(alloc)?;
        Ok(true)
    }

    /// Ends what may end where the tokens end. False where something is open.
    pub fn finish(&mut self, alloc: Global) -> Result<bool, Memory>
        ensures { Finishes (ended (state_of self.old)) self.new.forms result }
    {
        match self.at {
            At::Top => self.finish_top(alloc),
            At::Marks(head, _) => {
                self.end_marks(alloc, head)?;
                Ok(true)
            }
            _ => Ok(false),
        }
    }
}
