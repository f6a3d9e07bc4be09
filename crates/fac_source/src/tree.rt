//! Trees: the forms of a file, with all of their tokens.
ghost use Rattle.std.specs.Prelude.{◌≡◌, IfOk};

use crate::Token;
use fac_base::{Boxed, Duplicate, Effect, Height, Integer, List, Memory, Place};
use std::alloc::Global;

/// A file's forms, in order.
#[derive(Drop)]
pub struct Tree {
    /// The number of the file.
    pub file: u32,
    pub forms: List<Form>,
}

/// A form of a file.
#[derive(Drop)]
pub enum Form {
    /// A form that begins with a token of its own, and the parts that fill its slots, in order.
    Row {
        kind: FormKind,
        opens: Place,
        parts: List<Part>,
    },
    /// A run of items at the top level: all those between two rows.
    Items(List<Element>),
}

/// Which form a row is.
#[derive(Clone, Copy, Debug, PartialEq, Eq)]
pub enum FormKind {
    /// `IN:` and a vocabulary.
    In,
    /// `USE:` and a vocabulary.
    Use,
    /// `USING:`, vocabularies, and `;`.
    Using,
    /// `FROM:`, a vocabulary, `=>`, names, and `;`.
    From,
    /// `QUALIFIED-WITH:`, a vocabulary and a prefix.
    QualifiedWith,
    /// `DEFER:` and a name.
    Defer,
    /// `SYMBOL:` and a name.
    Symbol,
    /// `CONSTANT:`, a name and a literal.
    Constant,
    /// `<PRIVATE`
    Private,
    /// `PRIVATE>`
    Public,
    /// `MAIN:` and a name.
    Main,
    /// The definition of a word: `:`, its name, its effect, its items, `;`, and marks.
    Define,
    /// The definition of a word whose inputs are locals: `::`, and then as `:`.
    DefineLocals,
    /// `TUPLE:`, a name, perhaps `<` and a parent, slots, and `;`.
    Tuple,
    /// `UNION:`, a name, classes, and `;`.
    Union,
    /// `SINGLETON:` and a name.
    Singleton,
    /// `GENERIC:`, a name and an effect.
    Generic,
    /// The definition of a method: `M:`, a class, a generic, its items, `;`, and perhaps `inline`.
    Method,
    /// `C:`, a name and a tuple class.
    Maker,
}

/// A token that stands at a fixed place of a form.
#[derive(Clone, Copy, Debug, PartialEq, Eq)]
pub enum Key {
    /// `=>`
    Arrow,
}

/// What fills a slot of a form.
#[derive(Drop)]
pub enum Part {
    /// A name.
    Name(Token),
    /// Names, and `;`.
    Names {
        names: List<Token>,
        ends: Place,
    },
    /// A fixed token.
    Fixed(Key, Place),
    /// An effect.
    Effect(Boxed<WrittenEffect>),
    /// Items, and `;`.
    Items {
        elements: List<Element>,
        ends: Place,
    },
    /// One item that is a literal.
    Literal(List<Element>),
    /// The parent of a tuple class, where one is written, its slots, and `;`.
    Slots {
        parent: Option<Boxed<Parent>>,
        names: List<Token>,
        ends: Place,
    },
    /// Marks.
    Marks(List<DefinitionMark>),
}

/// The parent of a tuple class as it is written.
#[derive(Drop)]
pub struct Parent {
    /// The place of its `<`.
    pub sign: Place,
    /// Its name.
    pub class: Token,
}

/// A mark behind the `;` of a definition.
#[derive(Clone, Copy, Debug, PartialEq, Eq)]
pub enum DefinitionMark {
    /// `inline`
    Inline(Place),
    /// `recursive`
    Recursive(Place),
}

/// A stack effect as it is written.
#[derive(Drop)]
pub struct WrittenEffect {
    /// All of its tokens, from its `(` to its `)`.
    pub tokens: List<Token>,
    /// What they say.
    pub effect: Effect,
}

/// What a call with a declared effect takes.
#[derive(Clone, Copy, Debug, PartialEq, Eq)]
pub enum Callee {
    /// A callable, by `call(`.
    Callable,
    /// A word, by `execute(`.
    Word,
}

/// What a literal of one token is. An integer of it is an `i128` where it is read, and an `Integer` where it is kept.
#[derive(Clone, Copy, Debug)]
pub enum Literal<Number> {
    /// This integer.
    Integer(Number),
    /// A string. Its token has the content.
    Text,
    /// `t`
    True,
    /// `f`
    False,
}

impl Literal<i128> {
    /// The same literal, to be kept.
    pub fn kept(self) -> Literal<Integer>
        ensures { result ≡ self }
    {
        match self {
            Literal::Integer(value) => Literal::Integer(Integer::new(value)),
            Literal::Text => Literal::Text,
            Literal::True => Literal::True,
            Literal::False => Literal::False,
        }
    }
}

/// An item without a bracket.
#[derive(Drop)]
pub enum Term {
    /// The name of a word.
    Name(Token),
    /// `\` and the name of a word, which is a value.
    Wrapped {
        /// The place of its `\`.
        sign: Place,
        /// The name.
        name: Token,
    },
    /// `call(` or `execute(` and the rest of a stack effect.
    EffectCall {
        callee: Callee,
        /// The place of its `call(` or `execute(`, which stands for the `(` of the effect.
        sign: Place,
        /// The other tokens of the effect, up to its `)`.
        tokens: List<Token>,
        /// How many values it declares to be taken and left.
        height: Height,
    },
    /// A literal, by its token and what it is.
    Literal(Token, Literal<Integer>),
    /// `call-next-method`
    NextMethod(Place),
    /// `:>` and the name of a local.
    Bind {
        /// The place of its `:>`.
        sign: Place,
        /// The name.
        name: Token,
    },
    /// `_`
    Hole(Place),
    /// `@`
    CalledHole(Place),
}

/// What a pair of brackets encloses.
#[derive(Clone, Copy, Debug, PartialEq, Eq)]
pub enum Bracket {
    /// A quotation, in `[` and `]`.
    Quotation,
    /// A literal array, in `{` and `}`.
    Array,
    /// A fry, in `'[` and `]`.
    Fry,
}

/// An element of items as they are written: an item without a bracket, or a bracket.
#[derive(Drop)]
pub enum Element {
    Item(Term),
    /// The bracket that opens a quotation, an array or a fry.
    Opens(Bracket, Place),
    /// What opens a quotation whose inputs are locals: `[|`, their names, and `|`.
    OpensLocals {
        /// The place of its `[|`.
        opens: Place,
        /// The names of its inputs, the deepest first.
        names: List<Token>,
        /// The place of its `|`.
        bar: Place,
    },
    /// The bracket that closes what the last one opened that isn't closed: a quotation's also closes a fry and a quotation with locals.
    Closes(Bracket, Place),
}

impl Duplicate for DefinitionMark {
    fn copy(&self, _alloc: Global) -> Result<DefinitionMark, Memory> {
        Ok(*self)
    }
}

impl Duplicate for Term {
    fn copy(&self, alloc: Global) -> Result<Term, Memory> {
        match self {
            Term::Name(token) => Ok(Term::Name(token.copy(alloc)?)),
            Term::Wrapped { sign, name } => Ok(Term::Wrapped {
                sign: *sign,
                name: name.copy(alloc)?,
            }),
            Term::EffectCall {
                callee,
                sign,
                tokens,
                height,
            } => Ok(Term::EffectCall {
                callee: *callee,
                sign: *sign,
                tokens: tokens.copy(alloc)?,
                height: *height,
            }),
            Term::Literal(token, literal) => Ok(Term::Literal(token.copy(alloc)?, *literal)),
            Term::NextMethod(place) => Ok(Term::NextMethod(*place)),
            Term::Bind { sign, name } => Ok(Term::Bind {
                sign: *sign,
                name: name.copy(alloc)?,
            }),
            Term::Hole(place) => Ok(Term::Hole(*place)),
            Term::CalledHole(place) => Ok(Term::CalledHole(*place)),
        }
    }
}

impl Duplicate for Element {
    fn copy(&self, alloc: Global) -> Result<Element, Memory> {
        match self {
            Element::Item(term) => Ok(Element::Item(term.copy(alloc)?)),
            Element::Opens(bracket, place) => Ok(Element::Opens(*bracket, *place)),
            Element::OpensLocals { opens, names, bar } => Ok(Element::OpensLocals {
                opens: *opens,
                names: names.copy(alloc)?,
                bar: *bar,
            }),
            Element::Closes(bracket, place) => Ok(Element::Closes(*bracket, *place)),
        }
    }
}

impl Duplicate for WrittenEffect {
    fn copy(&self, alloc: Global) -> Result<WrittenEffect, Memory> {
        let tokens = self.tokens.copy(alloc)?;
        let effect = self.effect.copy(alloc)?;
        Ok(WrittenEffect { tokens, effect })
    }
}

impl Duplicate for Parent {
    fn copy(&self, alloc: Global) -> Result<Parent, Memory> {
        let class = self.class.copy(alloc)?;
        Ok(Parent {
            sign: self.sign,
            class,
        })
    }
}

// A copy of the parent of a tuple class, where one is written.
fn copy_parent(
    alloc: Global,
    parent: &Option<Boxed<Parent>>,
) -> Result<Option<Boxed<Parent>>, Memory>
    ensures { IfOk result (λ copy. copy ≡ parent.now) }
{
    match parent {
        Some(parent) => Ok(Some(parent.copy(alloc)?)),
        None => Ok(None),
    }
}

impl Duplicate for Part {
    fn copy(&self, alloc: Global) -> Result<Part, Memory> {
        match self {
            Part::Name(name) => Ok(Part::Name(name.copy(alloc)?)),
            Part::Names { names, ends } => Ok(Part::Names {
                names: names.copy(alloc)?,
                ends: *ends,
            }),
            Part::Fixed(key, place) => Ok(Part::Fixed(*key, *place)),
            Part::Effect(effect) => Ok(Part::Effect(effect.copy(alloc)?)),
            Part::Items { elements, ends } => Ok(Part::Items {
                elements: elements.copy(alloc)?,
                ends: *ends,
            }),
            Part::Literal(elements) => Ok(Part::Literal(elements.copy(alloc)?)),
            Part::Slots {
                parent,
                names,
                ends,
            } => {
                let parent = copy_parent(alloc, parent)?;
                let names = names.copy(alloc)?;
                Ok(Part::Slots {
                    parent,
                    names,
                    ends: *ends,
                })
            }
            Part::Marks(marks) => Ok(Part::Marks(marks.copy(alloc)?)),
        }
    }
}

impl Duplicate for Form {
    fn copy(&self, alloc: Global) -> Result<Form, Memory> {
        match self {
            Form::Row { kind, opens, parts } => Ok(Form::Row {
                kind: *kind,
                opens: *opens,
                parts: parts.copy(alloc)?,
            }),
            Form::Items(elements) => Ok(Form::Items(elements.copy(alloc)?)),
        }
    }
}

impl Duplicate for Tree {
    fn copy(&self, alloc: Global) -> Result<Tree, Memory> {
        let forms = self.forms.copy(alloc)?;
        Ok(Tree {
            file: self.file,
            forms,
        })
    }
}
