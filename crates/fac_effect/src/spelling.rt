//! What a token is to the grammar.
ghost use Rattle.std.specs.Prelude.{◌≡◌, true, length, map, slice_get};
ghost use Rattle.std.specs.Str.{chars};
ghost use Rattle.fac_effect.specs.Spellings.{in_groups, sign_among, reserved_spelling, sign_spelling, word_spelling, spelling_of, string_spelling, token_spelling};
ghost use Rattle.fac_effect.specs.Spellings.{is_row_name, is_described_name, token_text};
ghost use Rattle.fac_effect.specs.inner.Groups.{are_by_length};

use crate::reserved::RESERVED;
use fac_base::limits::MOST_ELEMENTS;
use fac_num::{NumFault, read_int};
use fac_source::{Bracket, Callee, FormKind, Key, Literal, TokKind, kind_begun};

/// What a token is to the grammar, by how it is spelled.
#[derive(Clone, Copy, Debug)]
pub enum Spelling {
    /// The first token of a row.
    Begins(FormKind),
    /// A token at a fixed place of a row.
    Fixed(Key),
    /// `;`
    Semi,
    /// `(`
    Opens,
    /// `)`
    Closes,
    /// `--`
    Dashes,
    /// The token that opens a bracket: `[`, `{` or `'[`.
    OpensBracket(Bracket),
    /// The token that closes a bracket: `}`, or `]`, which is that of a quotation, and closes a fry too.
    ClosesBracket(Bracket),
    /// `[|`
    OpensLocals,
    /// `|`
    Bar,
    /// `:>`
    Binds,
    /// `_`
    Hole,
    /// `@`
    CalledHole,
    /// `inline`
    Inline,
    /// `recursive`
    Recursive,
    /// `call-next-method`
    NextMethod,
    /// `\`
    Wraps,
    /// `call(` or `execute(`, behind which the rest of an effect stands.
    EffectCall(Callee),
    /// A literal: `t`, `f`, a token in one of the integer forms, in range, or a string of at most 1,000,000 characters.
    Literal(Literal<i128>),
    /// A plain token that is in no integer form and isn't reserved.
    Name,
    /// A token that stands nowhere: a longer string, an integer that is too wide, or a reserved token of a form that isn't read.
    Other,
}

// A token with its spelling.
type Row = (&'static str, Spelling);

// The first of these tokens that is of this text.
fn sign_in(text: &str, rows: &[Row]) -> Option<Spelling>
    ensures { result ≡ sign_among (map (λ row. (row.0.now, row.1)) rows.now) text.now }
{
    for (sign, spelling) in rows {
        if text == *sign {
            return Some(*spelling);
        }
    }
    None
}

// The group of this number.
fn group_at(groups: &[&'static [Row]], number: usize) -> Option<&'static [Row]>
    ensures { result ≡ slice_get groups.now number }
{
    groups.get(number).copied()
}

// The first of the tokens of these groups that is of this text, where each group is of one length.
fn sign_among_groups(text: &str, groups: &[&'static [Row]]) -> Option<Spelling>
    requires { are_by_length 0 (map (λ group. map (λ row. (row.0.now, row.1)) group.now) groups.now) ≡ true }
    ensures { result ≡ sign_among (in_groups (map (λ group. map (λ row. (row.0.now, row.1)) group.now) groups.now)) text.now }
{
    match group_at(groups, text.len()) {
        Some(rows) => sign_in(text, rows),
        None => None,
    }
}

#[tactic(auto, unfolding(crate::specs::Spellings::reserved_spelling))]
fn reserved(text: &str) -> Option<Spelling>
    ensures { result ≡ reserved_spelling text.now }
{
    sign_among_groups(text, &RESERVED)
}

#[tactic(auto, unfolding(crate::specs::Spellings::sign_spelling))]
fn sign(text: &str) -> Option<Spelling>
    ensures { result ≡ sign_spelling text.now }
{
    match kind_begun(text) {
        Some(kind) => Some(Spelling::Begins(kind)),
        None => reserved(text),
    }
}

#[tactic(auto, unfolding(crate::specs::Spellings::word_spelling))]
fn spelled_word(text: &str) -> Spelling
    ensures { result ≡ word_spelling text.now }
{
    match sign(text) {
        Some(spelling) => spelling,
        None => Spelling::Name,
    }
}

#[tactic(auto, unfolding(crate::specs::Spellings::spelling_of, crate::specs::Spellings::has_integer_form))]
fn spelled(text: &str) -> Spelling
    ensures { result ≡ spelling_of text.now }
{
    match read_int(text) {
        Ok(value) => Spelling::Literal(Literal::Integer(value)),
        Err(NumFault::TooWide) => Spelling::Other,
        Err(NumFault::NotNumber) => spelled_word(text),
    }
}

// The number of characters.
fn characters(content: &str) -> usize
    ensures { result ≡ length (chars content.now) }
{
    content.chars().count()
}

#[tactic(auto, unfolding(crate::specs::Spellings::string_spelling))]
fn spelled_string(content: &str) -> Spelling
    ensures { result ≡ string_spelling content.now }
{
    if characters(content) <= MOST_ELEMENTS {
        Spelling::Literal(Literal::Text)
    } else {
        Spelling::Other
    }
}

/// What a token is.
pub fn classify(kind: &TokKind) -> Spelling
    ensures { result ≡ token_spelling kind.now }
{
    match kind {
        TokKind::Plain(text) => spelled(text.as_str()),
        TokKind::Str(content) => spelled_string(content.as_str()),
    }
}

/// A token's spelling, or a string's content.
pub fn text(kind: &TokKind) -> &str
    ensures { result.now ≡ token_text kind.now }
{
    match kind {
        TokKind::Plain(text) => text.as_str(),
        TokKind::Str(text) => text.as_str(),
    }
}

/// Whether a name begins with two dots, as that of a row variable.
pub fn begins_with_dots(text: &str) -> bool
    ensures { result ≡ is_row_name text.now }
{
    text.as_bytes().starts_with(b"..".as_slice())
}

/// Whether a name ends in a colon, so that a class or an effect describes it.
pub fn ends_with_colon(text: &str) -> bool
    ensures { result ≡ is_described_name text.now }
{
    text.as_bytes().ends_with(b":".as_slice())
}
