//! The scanner: it takes a file's characters one by one.
ghost use Rattle.std.specs.Prelude.{◌≡◌, ◌++◌, ◌∷◌, ◌+◌, [], List as Items, string_bytes, IfOk, OnOk};
ghost use Rattle.std.specs.Char.{encode_utf8};
ghost use Rattle.std.specs.Str.{chars, bytes_eq};
ghost use Rattle.fac_token.specs.Lexemes.{is_white, escaped};
ghost use Rattle.fac_token.specs.Tokens.{Tokenizes};
ghost use Rattle.fac_token.specs.inner.TokenSteps.{with_token, hold_plain_end, hold_white, hold_quote, hold_inner, hold_char, hold_end, hold_from, held, Holds, Ends};

use crate::TokenFault;
use fac_base::{List, Memory, Place, Text};
use fac_source::{TokKind, Token};
use std::alloc::Global;

/// What the next character stands in. Offsets count bytes from 0.
#[derive(Clone, Copy)]
pub enum Mode {
    /// Neither a token nor a comment.
    Between,
    /// A plain token, which a single `!` is so far.
    InPlain,
    InComment,
    /// A string, with the offset of its opening quote.
    InString { quote: u64 },
    /// An escape of a string, with the offset of its backslash too.
    InEscape { quote: u64, backslash: u64 },
    /// Directly behind a string.
    Closed,
}

fn is_space(c: char) -> bool
    ensures { result ≡ is_white c }
{
    matches!(c, '\t'..='\r' | ' ')
}

// What a backslash and this character stand for.
fn read_escape(c: char) -> Option<char>
    ensures { result ≡ escaped c }
{
    match c {
        'n' => Some('\n'),
        't' => Some('\t'),
        'r' => Some('\r'),
        '\\' => Some('\\'),
        '"' => Some('"'),
        _ => None,
    }
}

// Adds a character to a token's text.
fn add(text: &mut String, c: char) -> Result<(), Memory>
    ensures { OnOk result (string_bytes text.new ≡ string_bytes text.old ++ encode_utf8 c) }
{
    text.push(c)?;
    Ok(())
}

// The text of a token that ends. What it was read into is empty then, and keeps its room.
fn take_text(alloc: Global, text: &mut String) -> Result<Text, Memory>
    ensures taken { IfOk result (λ taken. taken ≡ string_bytes text.old) }
    ensures empty { OnOk result (string_bytes text.new ≡ []) }
{
    let taken = Text::from_str(alloc, text.as_str())?;
    text.clear();
    Ok(taken)
}

// Whether a plain token is a single `!`, which is no token but begins a comment.
fn is_exclamation(text: &String) -> bool
    ensures { result ≡ bytes_eq (string_bytes text.now) (33 ∷ []) }
{
    text.as_str() == "!"
}

// Adds a token.
fn add_token(tokens: &mut List<Token>, file: u32, kind: TokKind) -> Result<(), Memory>
    ensures { OnOk result (tokens.new ≡ with_token file tokens.old kind) }
{
    let token = tokens.len().checked_add(1).ok_or(Memory)?;
    tokens.push(Token {
        place: Place { file, token },
        kind,
    })?;
    Ok(())
}

// Takes white space behind a plain token.
fn take_plain_end(
    alloc: Global,
    file: u32,
    tokens: &mut List<Token>,
    text: &mut String,
    c: char,
) -> Result<Mode, TokenFault>
    ensures { Holds (hold_plain_end file tokens.old (string_bytes text.old) c) tokens.new (string_bytes text.new) result }
{
    if is_exclamation(text) {
        text.clear();
        if c == '\n' {
            return Ok(Mode::Between);
        }
        return Ok(Mode::InComment);
    }
    let spelling = take_text(alloc, text)?;
    add_token(tokens, file, TokKind::Plain(spelling))?;
    Ok(Mode::Between)
}

// Takes white space.
fn take_white(
    alloc: Global,
    file: u32,
    tokens: &mut List<Token>,
    text: &mut String,
    mode: Mode,
    c: char,
) -> Result<Mode, TokenFault>
    ensures { Holds (hold_white file tokens.old (string_bytes text.old) mode c) tokens.new (string_bytes text.new) result }
{
    match mode {
        Mode::Between => Ok(Mode::Between),
        Mode::InPlain => take_plain_end(alloc, file, tokens, text, c),
        Mode::InComment => {
            if c == '\n' {
                return Ok(Mode::Between);
            }
            Ok(Mode::InComment)
        }
        Mode::InString { quote } => {
            if c == '\n' {
                return Err(TokenFault::OpenString { at: quote });
            }
            add(text, c)?;
            Ok(Mode::InString { quote })
        }
        Mode::InEscape { quote, backslash } => {
            if c != '\n' {
                return Err(TokenFault::BadEscape { at: backslash });
            }
            Err(TokenFault::OpenString { at: quote })
        }
        Mode::Closed => {
            let content = take_text(alloc, text)?;
            add_token(tokens, file, TokKind::Str(content))?;
            Ok(Mode::Between)
        }
    }
}

// Takes a quote, with `at` bytes before it.
fn take_quote(text: &mut String, mode: Mode, at: u64) -> Result<Mode, TokenFault>
    ensures { (tokens : Items Token) → Holds (hold_quote at tokens (string_bytes text.old) mode) tokens (string_bytes text.new) result }
{
    match mode {
        Mode::Between => Ok(Mode::InString { quote: at }),
        Mode::InPlain => Err(TokenFault::StuckQuote { at }),
        Mode::InComment => Ok(Mode::InComment),
        Mode::InString { .. } => Ok(Mode::Closed),
        Mode::InEscape { quote, .. } => {
            add(text, '"')?;
            Ok(Mode::InString { quote })
        }
        Mode::Closed => Err(TokenFault::StuckQuote { at }),
    }
}

// Takes a character that is neither white space nor a quote, with `at` bytes before it.
fn take_inner(text: &mut String, mode: Mode, at: u64, c: char) -> Result<Mode, TokenFault>
    ensures { (tokens : Items Token) → Holds (hold_inner at tokens (string_bytes text.old) mode c) tokens (string_bytes text.new) result }
{
    match mode {
        Mode::Between => {
            add(text, c)?;
            Ok(Mode::InPlain)
        }
        Mode::InPlain => {
            add(text, c)?;
            Ok(Mode::InPlain)
        }
        Mode::InComment => Ok(Mode::InComment),
        Mode::InString { quote } => {
            if c == '\\' {
                return Ok(Mode::InEscape {
                    quote,
                    backslash: at,
                });
            }
            add(text, c)?;
            Ok(Mode::InString { quote })
        }
        Mode::InEscape { quote, backslash } => match read_escape(c) {
            Some(meant) => {
                add(text, meant)?;
                Ok(Mode::InString { quote })
            }
            None => Err(TokenFault::BadEscape { at: backslash }),
        },
        Mode::Closed => Err(TokenFault::StuckQuote { at }),
    }
}

/// Takes a character, with `at` bytes before it.
pub fn take_char(
    alloc: Global,
    file: u32,
    tokens: &mut List<Token>,
    text: &mut String,
    mode: Mode,
    at: u64,
    c: char,
) -> Result<Mode, TokenFault>
    ensures { Holds (hold_char file at (record { tokens = tokens.old; text = string_bytes text.old; mode = mode }) c) tokens.new (string_bytes text.new) result }
{
    if is_space(c) {
        return take_white(alloc, file, tokens, text, mode, c);
    }
    if c == '"' {
        return take_quote(text, mode, at);
    }
    take_inner(text, mode, at, c)
}

/// Takes the end.
pub fn take_end(
    file: u32,
    mut tokens: List<Token>,
    text: String,
    mode: Mode,
) -> Result<List<Token>, TokenFault>
    ensures { Ends (hold_end file tokens (string_bytes text) mode) result }
{
    match mode {
        Mode::Between => Ok(tokens),
        Mode::InPlain => {
            if is_exclamation(&text) {
                return Ok(tokens);
            }
            add_token(&mut tokens, file, TokKind::Plain(Text::from_string(text)))?;
            Ok(tokens)
        }
        Mode::InComment => Ok(tokens),
        Mode::InString { quote } => Err(TokenFault::OpenString { at: quote }),
        Mode::InEscape { quote, .. } => Err(TokenFault::OpenString { at: quote }),
        Mode::Closed => {
            add_token(&mut tokens, file, TokKind::Str(Text::from_string(text)))?;
            Ok(tokens)
        }
    }
}

// The tokens of a text.
fn read(alloc: Global, file: u32, source: &str) -> Result<List<Token>, TokenFault>
    ensures { Tokenizes file source.now result }
{
    let mut tokens = List::new(alloc);
    let mut text = String::new(alloc);
    let mut mode = Mode::Between;
    let mut at = 0u64;
    for c in source.chars() {
        match take_char(alloc, file, &mut tokens, &mut text, mode, at, c) {
            Ok(next) => mode = next,
            Err(fault) => return Err(fault),
        }
        at += c.len_utf8() as u64;
    }
    take_end(file, tokens, text, mode)
}

/// The tokens of a file's bytes, numbered from 1. White space and comments have no number. A plain token has its spelling, and a string
/// what it says, with its escapes read. Each byte of the file belongs to exactly one of these.
///
/// `NotUtf8` comes before the other faults, wherever it stands, and of the others the one that is met first. Their `at` counts bytes
/// from 0. A token with a number of 2^32 is want of memory.
pub fn tokens(alloc: Global, file: u32, bytes: &[u8]) -> Result<List<Token>, TokenFault>
    ensures { Tokenizes file bytes.now result }
{
    match str::from_utf8(bytes) {
        Ok(source) => read(alloc, file, source),
        Err(error) => Err(TokenFault::NotUtf8 {
            at: error.valid_up_to() as u64,
        }),
    }
}
