//! What the text of a file comes to: its tokens, and the tree of these.
ghost use Rattle.std.specs.Prelude.{◌≡◌, ◌++◌, List as Items, ℕ, IfOk, Ok, OnOk};
ghost use Rattle.fac_token.specs.Tokens.{Tokenizes};
ghost use Rattle.fac_trees.specs.TextTrees.{HasForms, IsTreeOf};

use fac_base::{List, Memory};
use fac_parse::{ParseFault, Parser};
use fac_source::{Form, Token};
use fac_token::{TokenFault, tokens};
use std::alloc::Global;

/// What a text comes to.
#[derive(Drop)]
pub enum TextTree {
    /// The forms of its tree.
    Forms(List<Form>),
    /// It has no tokens. Want of memory is none of these faults.
    NoTokens(TokenFault),
    /// Its tokens have no tree. Want of memory is none of these faults.
    NoTree(ParseFault),
}

// Puts forms behind others.
fn append(forms: &mut Vec<Form>, more: List<Form>) -> Result<(), Memory>
    ensures { OnOk result (forms.new.items ≡ forms.old.items ++ more) }
{
    let mut more = more.into_vec();
    forms.append(&mut more)?;
    Ok(())
}

// The forms of the tree of these tokens, or why they have none.
fn forms_of(alloc: Global, tokens: List<Token>) -> Result<List<Form>, ParseFault>
    ensures { HasForms tokens result }
{
    let mut parser = Parser::new(alloc, tokens);
    let mut forms = Vec::new(alloc);
    'handing: while let Some(more) = parser.next(alloc)? {
        append(&mut forms, more)?;
    }
    Ok(List::from_vec(forms)?)
}

// What tokens come to.
fn tree_of_tokens(alloc: Global, tokens: List<Token>) -> Result<TextTree, Memory>
    ensures { (file : ℕ) (text : Items ℕ) → Tokenizes file text (Ok tokens) → IfOk result (IsTreeOf file text) }
{
    match forms_of(alloc, tokens) {
        Err(ParseFault::Memory) => Err(Memory),
        Err(ParseFault::Syntax { at, why }) => {
            Ok(TextTree::NoTree(ParseFault::Syntax { at, why }))
        }
        Ok(forms) => Ok(TextTree::Forms(forms)),
    }
}

/// What the text of the file with this number comes to. Want of memory is the one error.
pub fn tree_of(alloc: Global, file: u32, text: &[u8]) -> Result<TextTree, Memory>
    ensures { IfOk result (IsTreeOf file text.now) }
{
    match tokens(alloc, file, text) {
        Err(TokenFault::Memory) => Err(Memory),
        Err(TokenFault::NotUtf8 { at }) => Ok(TextTree::NoTokens(TokenFault::NotUtf8 { at })),
        Err(TokenFault::OpenString { at }) => {
            Ok(TextTree::NoTokens(TokenFault::OpenString { at }))
        }
        Err(TokenFault::BadEscape { at }) => Ok(TextTree::NoTokens(TokenFault::BadEscape { at })),
        Err(TokenFault::StuckQuote { at }) => {
            Ok(TextTree::NoTokens(TokenFault::StuckQuote { at }))
        }
        Ok(tokens) => tree_of_tokens(alloc, tokens),
    }
}
