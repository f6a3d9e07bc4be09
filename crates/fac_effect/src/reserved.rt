//! The table of the reserved tokens that begin no row, by how many bytes they have.

use crate::spelling::Spelling;
use fac_source::{Bracket, Callee, Key, Literal};

/// The tokens of each length, the empty one first, and how each is spelled. Those that Factor has and this profile leaves out are `Other`.
#[rattlefmt::skip]
pub static RESERVED: [&[(&str, Spelling)]; 17] = [
    &[],
    &[
        (";", Spelling::Semi),
        ("(", Spelling::Opens),
        (")", Spelling::Closes),
        ("[", Spelling::OpensBracket(Bracket::Quotation)),
        ("]", Spelling::ClosesBracket(Bracket::Quotation)),
        ("{", Spelling::OpensBracket(Bracket::Array)),
        ("}", Spelling::ClosesBracket(Bracket::Array)),
        ("|", Spelling::Bar),
        ("\\", Spelling::Wraps),
        ("_", Spelling::Hole),
        ("@", Spelling::CalledHole),
        ("t", Spelling::Literal(Literal::True)),
        ("f", Spelling::Literal(Literal::False)),
    ],
    &[
        ("--", Spelling::Dashes),
        ("=>", Spelling::Fixed(Key::Arrow)),
        (":>", Spelling::Binds),
        ("[|", Spelling::OpensLocals),
        ("'[", Spelling::OpensBracket(Bracket::Fry)),
        ("V{", Spelling::Other), ("H{", Spelling::Other), ("T{", Spelling::Other), ("#!", Spelling::Other),
    ],
    &[
        ("M::", Spelling::Other),
    ],
    &[
        ("[let", Spelling::Other),
    ],
    &[
        ("call(", Spelling::EffectCall(Callee::Callable)),
        ("MEMO:", Spelling::Other), ("HOOK:", Spelling::Other), ("MATH:", Spelling::Other), ("CHAR:", Spelling::Other),
    ],
    &[
        ("inline", Spelling::Inline),
        ("MACRO:", Spelling::Other), ("MEMO::", Spelling::Other), ("MIXIN:", Spelling::Other), ("ERROR:", Spelling::Other),
        ("ALIAS:", Spelling::Other),
    ],
    &[
        ("SYNTAX:", Spelling::Other), ("MACRO::", Spelling::Other), ("RENAME:", Spelling::Other),
    ],
    &[
        ("execute(", Spelling::EffectCall(Callee::Word)),
        ("foldable", Spelling::Other), ("SYMBOLS:", Spelling::Other), ("EXCLUDE:", Spelling::Other),
    ],
    &[
        ("recursive", Spelling::Recursive),
        ("flushable", Spelling::Other), ("INSTANCE:", Spelling::Other), ("GENERIC#:", Spelling::Other), ("POSTPONE:", Spelling::Other),
    ],
    &[
        ("PREDICATE:", Spelling::Other), ("QUALIFIED:", Spelling::Other),
    ],
    &[
        ("SINGLETONS:", Spelling::Other),
    ],
    &[],
    &[],
    &[],
    &[],
    &[
        ("call-next-method", Spelling::NextMethod),
    ],
];
