//! The steps of every command from the texts of its files to their names. Each file is read form by form, and its forms go to the names at once, so no tree
//! stands in memory. Where there are two workers or more, the texts are taken in parts: the files of one are read at once while those of the part before it go to
//! the names, and only their trees stand in memory.
ghost use Rattle.std.specs.Prelude.{◌≡◌, ◌<◌, ◌+◌, ◌^◌, List as Items, ℕ, Ok, [], length, IfOk, IfSome};
ghost use Rattle.std.specs.Thread.{IsSync};
ghost use Rattle.fac_source.specs.declared.token.Token.{Token as TokenSeen};
ghost use Rattle.fac_source.specs.declared.tree.Form.{Form as FormSeen};
ghost use Rattle.fac_token.specs.Tokens.{Tokenizes};
ghost use Rattle.fac_parse.specs.Trees.{AreForms};
ghost use Rattle.fac_parse.specs.Handed.{HasHandedOut, calls_left};
ghost use Rattle.fac_names.specs.TakenForms.{HasTaken};
ghost use Rattle.fac_trees.specs.TextTrees.{AreTreesOf, IsTreeOf, texts_in};
ghost use Rattle.fac_prelude.specs.PreludeText.{prelude_text};
ghost use Rattle.fac_notes.specs.declared.report.Report.TheVariants.{Bytes as bytes_report};
ghost use Rattle.fac_tool.specs.inner.StepEnds.{fault_ending, tree_ending, reported as reported_ending};
ghost use Rattle.fac_tool.specs.inner.FormsTaken.{HasTokens, HandsOn, AddsFile, TakesNext, TakesFile, TakesPart, TakesAndReads, TakesTexts, LastGrows, FileAdds};

use crate::definitions::definitions_of;
use crate::ended::{bare, reported};
use crate::{ByteFault, Ended, Report, every_text_is_a_source};
use fac_base::{Bytes, List, Memory, Queue};
use fac_names::Resolver;
use fac_notes::status::NO_MEMORY;
use fac_par::{NoGate, Workers};
use fac_parse::{ParseFault, Parser};
use fac_source::{Form, Token};
use fac_token::{TokenFault, tokens};
use fac_trees::{TextTree, parts_of, trees_of};
use std::alloc::Global;
use std::mem;
use std::thread::{Threads, join_mut};

// The ending by a fault of bytes.
fn byte_fault(file: u32, at: u64, why: ByteFault) -> Ended
    ensures { result ≡ reported_ending 0 (bytes_report file at why) }
{
    reported(0, Report::Bytes { file, at, why })
}

// The ending of a file that has no tokens.
fn no_tokens(file: u32, fault: TokenFault) -> Ended
    ensures { result ≡ fault_ending file fault }
{
    match fault {
        TokenFault::NotUtf8 { at } => byte_fault(file, at, ByteFault::NotUtf8),
        TokenFault::OpenString { at } => byte_fault(file, at, ByteFault::OpenString),
        TokenFault::BadEscape { at } => byte_fault(file, at, ByteFault::BadEscape),
        TokenFault::StuckQuote { at } => byte_fault(file, at, ByteFault::StuckQuote),
        TokenFault::Memory => bare(NO_MEMORY, 0),
    }
}

// The ending of a file that has no tree.
fn no_tree(file: u32, fault: ParseFault) -> Ended
    ensures { result ≡ tree_ending file fault }
{
    match fault {
        ParseFault::Syntax { at, why } => reported(0, Report::Syntax { file, at, why }),
        ParseFault::Memory => bare(NO_MEMORY, 0),
    }
}

// The tokens of the text of the file with this number.
fn tokens_of(alloc: Global, file: u32, text: &[u8]) -> Result<List<Token>, Ended>
    ensures { HasTokens file text.now result }
{
    every_text_is_a_source();
    match tokens(alloc, file, text) {
        Err(fault) => Err(no_tokens(file, fault)),
        Ok(tokens) => Ok(tokens),
    }
}

// The tokens of a text, which is given back to memory.
fn tokens_of_text(alloc: Global, file: u32, text: Bytes) -> Result<List<Token>, Ended>
    ensures { HasTokens file text result }
{
    tokens_of(alloc, file, text.as_slice())
}

// Gives forms to the names, and adds their definitions to a number.
fn hand_on(
    alloc: Global,
    forms: List<Form>,
    count: u64,
    resolver: &mut Resolver,
) -> Result<u64, Memory>
    requires { AreForms forms }
    ensures { HandsOn forms count resolver.old resolver.new result }
{
    match count.checked_add(definitions_of(&forms)) {
        None => Err(Memory),
        Some(sum) => {
            resolver.take(alloc, forms)?;
            Ok(sum)
        }
    }
}

// Gives the next forms of a file to the names, and adds their definitions to a number. None where the file ends.
fn take_next(
    alloc: Global,
    file: u32,
    count: u64,
    parser: &mut Parser,
    resolver: &mut Resolver,
) -> Result<Option<u64>, Ended>
    requires { (tokens : Items TokenSeen) × (so_far : Items FormSeen) × HasHandedOut tokens so_far parser.old }
    ensures takes { (tokens : Items TokenSeen) (so_far : Items FormSeen) → HasHandedOut tokens so_far parser.old → TakesNext file tokens so_far count parser.new resolver.old resolver.new result }
    ensures falls { IfOk result (λ given. IfSome given (λ sum. calls_left parser.new < calls_left parser.old)) }
{
    every_text_is_a_source();
    match parser.next(alloc) {
        Err(fault) => Err(no_tree(file, fault)),
        Ok(given) => match given {
            None => Ok(None),
            Some(forms) => match hand_on(alloc, forms, count, resolver) {
                Err(_) => Err(bare(NO_MEMORY, 0)),
                Ok(sum) => Ok(Some(sum)),
            },
        },
    }
}

// Gives the forms of a file's tokens to the names, where the file was begun, and adds their definitions to a number.
fn take_forms(
    alloc: Global,
    file: u32,
    tokens: List<Token>,
    count: u64,
    resolver: &mut Resolver,
) -> Result<u64, Ended>
    ensures { (text : Items ℕ) → Tokenizes file text (Ok tokens) → TakesFile file text count (λ forms. LastGrows [] forms resolver.old resolver.new) result }
{
    let mut parser = Parser::new(alloc, tokens);
    let mut sum = count;
    'forms: while let Some(more) = take_next(alloc, file, sum, &mut parser, resolver)? {
        sum = more;
    }
    Ok(sum)
}

// Gives a file of these tokens to the names, and adds its definitions to a number.
fn take_file(
    alloc: Global,
    file: u32,
    tokens: List<Token>,
    count: u64,
    resolver: &mut Resolver,
) -> Result<u64, Ended>
    ensures { (text : Items ℕ) → Tokenizes file text (Ok tokens) → TakesFile file text count (λ forms. FileAdds forms resolver.old resolver.new) result }
{
    every_text_is_a_source();
    match resolver.begin_file(alloc) {
        Err(_) => Err(bare(NO_MEMORY, 0)),
        Ok(()) => take_forms(alloc, file, tokens, count, resolver),
    }
}

// Gives the file of a text to the names, and adds its definitions to a number. The text is given back to memory before its forms are read.
fn take_text(
    alloc: Global,
    file: u32,
    text: Bytes,
    count: u64,
    resolver: &mut Resolver,
) -> Result<u64, Ended>
    ensures { TakesFile file text count (λ forms. FileAdds forms resolver.old resolver.new) result }
{
    let tokens = tokens_of_text(alloc, file, text)?;
    take_file(alloc, file, tokens, count, resolver)
}

// Gives the prelude to the names. How many definitions it has, which count for no command.
fn take_prelude(alloc: Global, resolver: &mut Resolver) -> Result<u64, Ended>
    ensures { TakesFile 0 prelude_text 0 (λ forms. FileAdds forms resolver.old resolver.new) result }
{
    let tokens = tokens_of(alloc, 0, fac_prelude::text().as_bytes())?;
    take_file(alloc, 0, tokens, 0, resolver)
}

// Gives the forms of a whole file to the names, and adds its definitions to a number.
fn take_whole(
    alloc: Global,
    forms: List<Form>,
    count: u64,
    resolver: &mut Resolver,
) -> Result<u64, Memory>
    requires { AreForms forms }
    ensures { AddsFile forms count resolver.old resolver.new result }
{
    resolver.begin_file(alloc)?;
    hand_on(alloc, forms, count, resolver)
}

// Gives a file whose text comes to this to the names, and adds its definitions to a number.
fn take_tree(
    alloc: Global,
    file: u32,
    tree: TextTree,
    count: u64,
    resolver: &mut Resolver,
) -> Result<u64, Ended>
    requires { (text : Items ℕ) × IsTreeOf file text tree }
    ensures { (text : Items ℕ) → IsTreeOf file text tree → TakesFile file text count (λ forms. FileAdds forms resolver.old resolver.new) result }
{
    every_text_is_a_source();
    match tree {
        TextTree::NoTokens(fault) => Err(no_tokens(file, fault)),
        TextTree::NoTree(fault) => Err(no_tree(file, fault)),
        TextTree::Forms(forms) => match take_whole(alloc, forms, count, resolver) {
            Err(_) => Err(bare(NO_MEMORY, 0)),
            Ok(sum) => Ok(sum),
        },
    }
}

// Gives the files of these texts to the names, one behind the other, where the last file before them has this number, and adds their definitions to a number. Each
// text is given back to memory before its forms are read.
fn take_in_turn(
    alloc: Global,
    before: u32,
    texts: List<Bytes>,
    count: u64,
    resolver: &mut Resolver,
) -> Result<u64, Ended>
    requires { before + length texts < 2 ^ 32 }
    ensures { TakesPart before texts count resolver.old resolver.new result }
{
    every_text_is_a_source();
    let mut left = Queue::new(texts.into_vec());
    let mut file = before;
    let mut sum = count;
    'texts: while let Some(text) = left.take() {
        file += 1;
        match take_text(alloc, file, text, sum, resolver) {
            Err(ended) => return Err(ended),
            Ok(more) => sum = more,
        }
    }
    Ok(sum)
}

// The same of what texts come to.
fn take_trees(
    alloc: Global,
    before: u32,
    trees: List<TextTree>,
    count: u64,
    resolver: &mut Resolver,
) -> Result<u64, Ended>
    requires short { before + length trees < 2 ^ 32 }
    requires come { (texts : Items (Items ℕ)) × AreTreesOf (before + 1) texts trees }
    ensures { (texts : Items (Items ℕ)) → AreTreesOf (before + 1) texts trees → TakesPart before texts count resolver.old resolver.new result }
{
    every_text_is_a_source();
    let mut left = Queue::new(trees.into_vec());
    let mut file = before;
    let mut sum = count;
    'trees: while let Some(tree) = left.take() {
        file += 1;
        match take_tree(alloc, file, tree, sum, resolver) {
            Err(ended) => return Err(ended),
            Ok(more) => sum = more,
        }
    }
    Ok(sum)
}

// What texts come to that are read at once by so many workers, where the last file before them has this number. Want of memory is the one error.
fn read_at_once<R: Threads + Sync>(
    threads: &R,
    alloc: Global,
    count: u32,
    before: u32,
    texts: &[Bytes],
) -> Result<List<TextTree>, Memory>
    requires { before + length texts.now < 2 ^ 32 }
    ensures { IfOk result (AreTreesOf (before + 1) texts.now) }
{
    let workers = Workers {
        threads,
        alloc,
        count,
        gate: &NoGate,
    };
    trees_of(&workers, before, texts)
}

// What texts come to, where the last file before them has this number, and what other work answers. This thread does the other work, while the texts are read at
// once by all workers but one. Want of memory is the one error of the reading.
fn read_beside<R: Threads + Sync, G, F: FnMut() -> B, B>(
    workers: &Workers<'_, R, G>,
    before: u32,
    texts: &[Bytes],
    other: &mut F,
) -> (Result<List<TextTree>, Memory>, B)
    requires room { before + length texts.now < 2 ^ 32 }
    requires other { F.pre other.old }
    ensures trees { IfOk result.0 (AreTreesOf (before + 1) texts.now) }
    ensures other { F.step other.old result.1 other.new }
{
    let threads = workers.threads;
    let alloc = workers.alloc;
    let count = workers.count.saturating_sub(1);
    let mut read = || -> Result<List<TextTree>, Memory>
        requires { IsSync R.row × (before + length texts.now < 2 ^ 32) }
        ensures { IfOk result (AreTreesOf (before + 1) texts.entry.now) }
    { read_at_once(threads, alloc, count, before, texts) };
    join_mut(threads, &mut read, other)
}

// The same of all that these texts come to, of which none is left.
fn take_all(
    alloc: Global,
    before: u32,
    trees: &mut List<TextTree>,
    count: u64,
    resolver: &mut Resolver,
) -> Result<u64, Ended>
    requires short { before + length trees.old < 2 ^ 32 }
    requires come { (texts : Items (Items ℕ)) × AreTreesOf (before + 1) texts trees.old }
    ensures { (texts : Items (Items ℕ)) → AreTreesOf (before + 1) texts trees.old → TakesPart before texts count resolver.old resolver.new result }
{
    let all = mem::replace(trees, List::new(alloc));
    take_trees(alloc, before, all, count, resolver)
}

// Gives the files of these trees to the names, where the last file before them has this number, and adds their definitions to a number. Meanwhile the texts behind
// them are read at once.
fn take_beside<R: Threads + Sync, G>(
    workers: &Workers<'_, R, G>,
    before: u32,
    trees: List<TextTree>,
    count: u64,
    next: &[Bytes],
    resolver: &mut Resolver,
) -> (Result<List<TextTree>, Memory>, Result<u64, Ended>)
    requires short { before + length trees + length next.now < 2 ^ 32 }
    requires come { (texts : Items (Items ℕ)) × AreTreesOf (before + 1) texts trees }
    ensures reads { IfOk result.0 (AreTreesOf (before + length trees + 1) next.now) }
    ensures takes { (texts : Items (Items ℕ)) → AreTreesOf (before + 1) texts trees → TakesPart before texts count resolver.old resolver.new result.1 }
{
    let alloc = workers.alloc;
    let behind = before + trees.len();
    let mut given = trees;
    let mut give = || -> Result<u64, Ended>
        requires { (before + length given < 2 ^ 32) × ((texts : Items (Items ℕ)) × AreTreesOf (before + 1) texts given) }
        ensures { (texts : Items (Items ℕ)) → AreTreesOf (before + 1) texts given.entry → TakesPart before texts count resolver.entry.now resolver.exit.now result }
    { take_all(alloc, before, &mut given, count, resolver) };
    read_beside(workers, behind, next, &mut give)
}

// The same, and the texts behind them are given back to memory.
fn take_and_read<R: Threads + Sync, G>(
    workers: &Workers<'_, R, G>,
    before: u32,
    trees: List<TextTree>,
    count: u64,
    next: List<Bytes>,
    resolver: &mut Resolver,
) -> Result<(u64, List<TextTree>), Ended>
    requires short { before + length trees + length next < 2 ^ 32 }
    requires come { (texts : Items (Items ℕ)) × AreTreesOf (before + 1) texts trees }
    ensures { (texts : Items (Items ℕ)) → AreTreesOf (before + 1) texts trees → TakesAndReads before texts (before + length trees) next count resolver.old resolver.new result }
{
    every_text_is_a_source();
    let (read, taken) = take_beside(workers, before, trees, count, next.as_slice(), resolver);
    match taken {
        Err(ended) => Err(ended),
        Ok(sum) => match read {
            Err(_) => Err(bare(NO_MEMORY, 0)),
            Ok(trees) => Ok((sum, trees)),
        },
    }
}

// Gives the files of texts in parts to the names, behind the prelude, each part while the next one is read. How many definitions they have.
fn take_parts<R: Threads + Sync, G>(
    workers: &Workers<'_, R, G>,
    parts: List<List<Bytes>>,
    resolver: &mut Resolver,
) -> Result<u64, Ended>
    requires { length (texts_in parts) < 2 ^ 32 }
    ensures { TakesPart 0 (texts_in parts) 0 resolver.old resolver.new result }
{
    let alloc = workers.alloc;
    let mut left = Queue::new(parts.into_vec());
    let mut trees = List::new(alloc);
    let mut before = 0u32;
    let mut count = 0u64;
    'parts: while let Some(part) = left.take() {
        let more = trees.len();
        match take_and_read(workers, before, trees, count, part, resolver) {
            Err(ended) => return Err(ended),
            Ok((sum, next)) => {
                count = sum;
                trees = next;
            }
        }
        before += more;
    }
    take_trees(alloc, before, trees, count, resolver)
}

// Gives the files of texts to the names, behind the prelude. How many definitions they have. Where there are two workers and two texts, or more, several texts are
// read at once.
fn take_behind_prelude<R: Threads + Sync, G>(
    workers: &Workers<'_, R, G>,
    texts: List<Bytes>,
    resolver: &mut Resolver,
) -> Result<u64, Ended>
    requires { length texts < 2 ^ 32 }
    ensures { TakesPart 0 texts 0 resolver.old resolver.new result }
{
    every_text_is_a_source();
    if workers.count < 2 || texts.len() < 2 {
        return take_in_turn(workers.alloc, 0, texts, 0, resolver);
    }
    match parts_of(workers.alloc, texts) {
        Err(_) => Err(bare(NO_MEMORY, 0)),
        Ok(parts) => take_parts(workers, parts, resolver),
    }
}

/// Gives the prelude, which is file 0, to the names, and the texts of a command's files, which are numbered from 1. How many definitions the texts have.
pub fn take_texts<R: Threads + Sync, G>(
    workers: &Workers<'_, R, G>,
    texts: List<Bytes>,
    resolver: &mut Resolver,
) -> Result<u64, Ended>
    requires { HasTaken [] resolver.old }
    ensures { TakesTexts texts resolver.new result }
{
    every_text_is_a_source();
    let _count = texts.len();
    let alloc = workers.alloc;
    match take_prelude(alloc, resolver) {
        Err(ended) => Err(ended),
        Ok(_) => take_behind_prelude(workers, texts, resolver),
    }
}
