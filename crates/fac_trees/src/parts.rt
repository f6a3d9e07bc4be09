//! Texts in parts, each of which is read at once.
ghost use Rattle.std.specs.Prelude.{◌≡◌, ◌++◌, ◌∷◌, [], IfOk, OnOk};
ghost use Rattle.fac_trees.specs.TextTrees.{texts_in};

use fac_base::{Bytes, List, Memory, Queue};
use std::alloc::Global;
use std::mem;

// A part has so many bytes at least before it is full, so that small texts are read at once.
const FEW_BYTES: u64 = 65_536;

// A part has at most this share of all bytes, or few, or it is one text: so the trees that stand in memory at once are few beside what all texts come to.
const PARTS: u64 = 4;

// How many bytes texts have together.
fn bytes_of(texts: &[Bytes]) -> u64 {
    let mut sum = 0u64;
    for text in texts {
        sum = sum.saturating_add(text.len() as u64);
    }
    sum
}

// Ends the last part where it would be too large with so many bytes more.
fn make_room(
    alloc: Global,
    parts: &mut Vec<List<Bytes>>,
    last: &mut List<Bytes>,
    bytes: &mut u64,
    more: u64,
    most: u64,
) -> Result<(), Memory>
    ensures { OnOk result (texts_in parts.new.items ++ last.new ≡ texts_in parts.old.items ++ last.old) }
{
    if bytes.saturating_add(more) <= most {
        return Ok(());
    }
    let full = mem::replace(last, List::new(alloc));
    parts.push(full)?;
    *bytes = 0;
    Ok(())
}

// Adds a text to the last part, or to a part of its own where the last one would be too large.
fn add_text(
    alloc: Global,
    parts: &mut Vec<List<Bytes>>,
    last: &mut List<Bytes>,
    bytes: &mut u64,
    text: Bytes,
    most: u64,
) -> Result<(), Memory>
    ensures { OnOk result (texts_in parts.new.items ++ last.new ≡ texts_in parts.old.items ++ last.old ++ text ∷ []) }
{
    let more = text.len() as u64;
    make_room(alloc, parts, last, bytes, more, most)?;
    *bytes = bytes.saturating_add(more);
    last.push(text)
}

/// The same texts in parts, in their order.
pub fn parts_of(alloc: Global, texts: List<Bytes>) -> Result<List<List<Bytes>>, Memory>
    ensures { IfOk result (λ parts. texts_in parts ≡ texts) }
{
    let most = bytes_of(texts.as_slice()) / PARTS;
    let most = if most < FEW_BYTES { FEW_BYTES } else { most };
    let mut parts = Vec::new(alloc);
    let mut last = List::new(alloc);
    let mut bytes = 0u64;
    let mut left = Queue::new(texts.into_vec());
    'texts: while let Some(text) = left.take() {
        add_text(alloc, &mut parts, &mut last, &mut bytes, text, most)?;
    }
    parts.push(last)?;
    List::from_vec(parts)
}
