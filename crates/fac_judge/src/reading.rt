//! The forms of a text.
ghost use Rattle.std.specs.Prelude.{ℕ, List as Items, Ok as done, Err as failed};
ghost use Rattle.fac_parse.specs.Trees.{Parses};
ghost use Rattle.fac_source.specs.declared.token.Token.{Token};
ghost use Rattle.fac_token.specs.Tokens.{Tokenizes};
ghost use Rattle.fac_judge.specs.inner.ReadTexts.{ReadsText};

use fac_base::List;
use fac_notes::ByteFault;
use fac_parse::{ParseFault, Why};
use fac_source::Form;
use fac_token::TokenFault;
use fac_trees::{TextTree, tree_of};
use std::alloc::Global;

/// Why a text has no forms.
#[derive(Clone, Copy, Debug, PartialEq, Eq)]
pub enum Unread {
    /// It has no tokens.
    NoTokens { at: u64, why: ByteFault },
    /// It has no tree.
    NoTree { at: u32, why: Why },
    /// Memory was wanted.
    Memory,
}

// Why a text with this fault of its tokens has no forms.
fn no_tokens(fault: TokenFault) -> Unread
    ensures { (file : ℕ) (text : Items ℕ) → Tokenizes file text (failed fault) → ReadsText file text (failed result) }
{
    match fault {
        TokenFault::NotUtf8 { at } => Unread::NoTokens {
            at,
            why: ByteFault::NotUtf8,
        },
        TokenFault::OpenString { at } => Unread::NoTokens {
            at,
            why: ByteFault::OpenString,
        },
        TokenFault::BadEscape { at } => Unread::NoTokens {
            at,
            why: ByteFault::BadEscape,
        },
        TokenFault::StuckQuote { at } => Unread::NoTokens {
            at,
            why: ByteFault::StuckQuote,
        },
        TokenFault::Memory => Unread::Memory,
    }
}

// Why a text whose tokens have this fault has no forms.
fn no_tree(fault: ParseFault) -> Unread
    ensures { (file : ℕ) (text : Items ℕ) (tokens : Items Token) → Tokenizes file text (done tokens) → Parses tokens (failed fault) → ReadsText file text (failed result) }
{
    match fault {
        ParseFault::Syntax { at, why } => Unread::NoTree { at, why },
        ParseFault::Memory => Unread::Memory,
    }
}

/// The forms of the text of the file with this number.
pub fn forms_of(alloc: Global, file: u32, text: &[u8]) -> Result<List<Form>, Unread>
    ensures { ReadsText file text.now result }
{
    match tree_of(alloc, file, text) {
        Err(_) => Err(Unread::Memory),
        Ok(tree) => match tree {
            TextTree::Forms(forms) => Ok(forms),
            TextTree::NoTokens(fault) => Err(no_tokens(fault)),
            TextTree::NoTree(fault) => Err(no_tree(fault)),
        },
    }
}
