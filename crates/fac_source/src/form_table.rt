//! The table of the forms that are rows. It has them in the order of `FormKind`.

use crate::{FormKind, Key};

/// A place of a row, by what fills it.
#[derive(Clone, Copy, Debug)]
pub enum Slot {
    /// A name.
    Name,
    /// The name of a class.
    Class,
    /// Names, and `;`.
    Names,
    /// Names of classes, and `;`.
    Classes,
    /// The parent of a tuple class, or none, its slots, and `;`.
    Slots,
    /// A fixed token.
    Fixed(Key),
    /// An effect.
    Effect,
    /// An effect whose inputs are locals.
    LocalsEffect,
    /// Items, and `;`.
    Items,
    /// Items in which the inputs before them are locals, and `;`.
    LocalsItems,
    /// One item that is a literal.
    Literal,
    /// Marks of a word, or none.
    Marks,
    /// The mark of a method, or none.
    MethodMark,
}

/// A form that is a row. Its text and its slots are of types of their own, since definitions can name no table of a type with a lifetime.
#[derive(Clone, Copy)]
pub struct FormRow<Head, Slots> {
    /// Which form it is.
    pub kind: FormKind,
    /// Its first token. None begins with a small letter or with what stands behind them in ASCII, which `kind_begun` needs.
    pub head: Head,
    /// Its slots, in order.
    pub slots: Slots,
    /// Whether it defines a word that has a phrase.
    pub has_phrase: bool,
}

/// The rows.
#[rattlefmt::skip]
pub static FORMS: [FormRow<&str, &[Slot]>; 19] = [
    FormRow { kind: FormKind::In, head: "IN:", slots: &[Slot::Name], has_phrase: false },
    FormRow { kind: FormKind::Use, head: "USE:", slots: &[Slot::Name], has_phrase: false },
    FormRow { kind: FormKind::Using, head: "USING:", slots: &[Slot::Names], has_phrase: false },
    FormRow { kind: FormKind::From, head: "FROM:", slots: &[Slot::Name, Slot::Fixed(Key::Arrow), Slot::Names], has_phrase: false },
    FormRow { kind: FormKind::QualifiedWith, head: "QUALIFIED-WITH:", slots: &[Slot::Name, Slot::Name], has_phrase: false },
    FormRow { kind: FormKind::Defer, head: "DEFER:", slots: &[Slot::Name], has_phrase: false },
    FormRow { kind: FormKind::Symbol, head: "SYMBOL:", slots: &[Slot::Name], has_phrase: false },
    FormRow { kind: FormKind::Constant, head: "CONSTANT:", slots: &[Slot::Name, Slot::Literal], has_phrase: true },
    FormRow { kind: FormKind::Private, head: "<PRIVATE", slots: &[], has_phrase: false },
    FormRow { kind: FormKind::Public, head: "PRIVATE>", slots: &[], has_phrase: false },
    FormRow { kind: FormKind::Main, head: "MAIN:", slots: &[Slot::Name], has_phrase: false },
    FormRow { kind: FormKind::Define, head: ":", slots: &[Slot::Name, Slot::Effect, Slot::Items, Slot::Marks], has_phrase: true },
    FormRow { kind: FormKind::DefineLocals, head: "::", slots: &[Slot::Name, Slot::LocalsEffect, Slot::LocalsItems, Slot::Marks], has_phrase: true },
    FormRow { kind: FormKind::Tuple, head: "TUPLE:", slots: &[Slot::Name, Slot::Slots], has_phrase: false },
    FormRow { kind: FormKind::Union, head: "UNION:", slots: &[Slot::Name, Slot::Classes], has_phrase: false },
    FormRow { kind: FormKind::Singleton, head: "SINGLETON:", slots: &[Slot::Name], has_phrase: false },
    FormRow { kind: FormKind::Generic, head: "GENERIC:", slots: &[Slot::Name, Slot::Effect], has_phrase: false },
    FormRow { kind: FormKind::Method, head: "M:", slots: &[Slot::Class, Slot::Name, Slot::Items, Slot::MethodMark], has_phrase: true },
    FormRow { kind: FormKind::Maker, head: "C:", slots: &[Slot::Name, Slot::Name], has_phrase: true },
];
