//! What a table holds under a name, by the numbers of the entries of that name.
ghost use Rattle.std.specs.Prelude.{◌≡◌, ◌<◌, ◌+◌, ◌^◌, ◌∷◌, [], ℕ, Some, length, slice_get, take, IfNone, IfSome};
ghost use Rattle.std.specs.Str.{bytes_eq};
ghost use Rattle.fac_lang.specs.Classes.{bytes_before};
ghost use Rattle.fac_vocab.specs.Scopes.{companion, full_text, same_table as in_one_table, put_in_order};
ghost use Rattle.fac_vocab.specs.inner.Rows.{entries_at, word_if, word_among, defined_if, defined_among, number_if, first_among, byte_order, least_with, with_used_entry, kept_numbers};
ghost use Rattle.fac_vocab.specs.inner.Leasts.{KeptWithin};

use crate::entry::Entry;
use crate::least::Least;
use crate::text_set::TextSet;

// The word of the entry of a number, where it is one of a vocabulary.
fn word_at(entries: &[Entry], number: u32, vocab: &str) -> Option<u32>
    ensures { result ≡ word_if vocab.now (slice_get entries.now number) }
{
    match entries.get(number as usize) {
        Some(entry) => {
            if vocab == entry.vocab.as_str() {
                Some(entry.word)
            } else {
                None
            }
        }
        None => None,
    }
}

/// The word of a vocabulary.
pub fn word_in(entries: &[Entry], numbers: &[u32], vocab: &str) -> Option<u32>
    ensures { result ≡ word_among entries.now vocab.now numbers.now }
{
    for number in numbers {
        match word_at(entries, *number, vocab) {
            Some(word) => {
                return Some(word);
            }
            None => {}
        }
    }
    None
}

// Whether a text is the companion of a vocabulary.
fn is_companion(text: &str, vocab: &str) -> bool
    ensures { result ≡ bytes_eq text.now (companion vocab.now) }
{
    match text.strip_prefix(vocab) {
        Some(rest) => rest == ".private",
        None => false,
    }
}

// Whether two vocabularies are one table.
fn same_table(vocab: &str, other: &str) -> bool
    ensures { result ≡ in_one_table vocab.now other.now }
{
    vocab == other || is_companion(vocab, other) || is_companion(other, vocab)
}

// Whether the entry of a number defines its name in a table to which a vocabulary belongs.
fn is_defined_at(entries: &[Entry], number: u32, vocab: &str) -> bool
    ensures { result ≡ defined_if vocab.now (slice_get entries.now number) }
{
    match entries.get(number as usize) {
        Some(entry) => same_table(vocab, entry.vocab.as_str()) && entry.is_defined,
        None => false,
    }
}

/// Whether a name is defined in a table to which a vocabulary belongs.
pub fn is_defined_in(entries: &[Entry], numbers: &[u32], vocab: &str) -> bool
    ensures { result ≡ defined_among entries.now vocab.now numbers.now }
{
    for number in numbers {
        if is_defined_at(entries, *number, vocab) {
            return true;
        }
    }
    false
}

// A number, where its entry stands in a table to which a vocabulary belongs.
fn number_at(entries: &[Entry], number: u32, vocab: &str) -> Option<u32>
    ensures { result ≡ number_if vocab.now number (slice_get entries.now number) }
{
    match entries.get(number as usize) {
        Some(entry) => {
            if same_table(vocab, entry.vocab.as_str()) {
                Some(number)
            } else {
                None
            }
        }
        None => None,
    }
}

/// The number of the first entry in a table to which a vocabulary belongs.
pub fn first_number(entries: &[Entry], numbers: &[u32], vocab: &str) -> Option<u32>
    ensures { result ≡ first_among entries.now vocab.now numbers.now }
{
    for number in numbers {
        match number_at(entries, *number, vocab) {
            Some(first) => {
                return Some(first);
            }
            None => {}
        }
    }
    None
}

// The byte of a full name with this index. None where the text is too short.
fn byte_at(entry: &Entry, index: usize) -> Option<u8>
    ensures byte { result ≡ slice_get (full_text entry.now) index }
    ensures room { IfSome result (λ byte. index + 1 < 2 ^ 64) }
{
    let vocab = entry.vocab.as_bytes();
    if index < vocab.len() {
        return Some(vocab[index]);
    }
    let rest = index - vocab.len();
    if rest == 0 {
        return Some(b':');
    }
    entry.name.as_bytes().get(rest - 1).copied()
}

// The order of the bytes with this index, where it decides between two full names that are alike before it.
fn order_at(entry: &Entry, other: &Entry, index: usize) -> Option<bool>
    ensures order { result ≡ byte_order (slice_get (full_text entry.now) index) (slice_get (full_text other.now) index) }
    ensures within { IfNone result (index < length (full_text entry.now)) }
    ensures room { IfNone result (index + 1 < 2 ^ 64) }
{
    match byte_at(entry, index) {
        Some(byte) => match byte_at(other, index) {
            Some(later) => {
                if byte == later {
                    None
                } else {
                    Some(byte < later)
                }
            }
            None => Some(false),
        },
        None => Some(byte_at(other, index).is_some()),
    }
}

/// Whether the full name of one entry comes before that of another.
pub fn comes_before(entry: &Entry, other: &Entry) -> bool
    ensures { result ≡ bytes_before (full_text entry.now) (full_text other.now) }
{
    let mut index = 0;
    loop {
        match order_at(entry, other, index) {
            Some(before) => {
                return before;
            }
            None => {}
        }
        index += 1;
    }
}

// One entry more behind one that is kept.
fn beside_one(entries: &[Entry], first: u32, number: u32, entry: &Entry) -> Least
    requires { slice_get entries.now number ≡ Some entry.now }
    ensures first_two { entries_at entries.now (kept_numbers result) ≡ take 2 (put_in_order entry.now (entries_at entries.now (first ∷ []))) }
    ensures kept { (m : ℕ) → number < m → first < m → KeptWithin m result }
{
    match entries.get(first as usize) {
        Some(other) => {
            if comes_before(other, entry) {
                Least::Two(first, number)
            } else {
                Least::Two(number, first)
            }
        }
        None => Least::One(number),
    }
}

// One entry more beside two that are kept.
fn beside_two(entries: &[Entry], first: u32, second: u32, number: u32, entry: &Entry) -> Least
    requires { slice_get entries.now number ≡ Some entry.now }
    ensures first_two { entries_at entries.now (kept_numbers result) ≡ take 2 (put_in_order entry.now (entries_at entries.now (first ∷ second ∷ []))) }
    ensures kept { (m : ℕ) → number < m → first < m → second < m → KeptWithin m result }
{
    match entries.get(first as usize) {
        Some(other) => {
            if comes_before(other, entry) {
                match entries.get(second as usize) {
                    Some(later) => {
                        if comes_before(later, entry) {
                            Least::Two(first, second)
                        } else {
                            Least::Two(first, number)
                        }
                    }
                    None => Least::Two(first, number),
                }
            } else {
                Least::Two(number, first)
            }
        }
        None => beside_one(entries, second, number, entry),
    }
}

/// One entry more, of which the first two are kept.
pub fn with_one(entries: &[Entry], least: Least, number: u32, entry: &Entry) -> Least
    requires { slice_get entries.now number ≡ Some entry.now }
    ensures first_two { entries_at entries.now (kept_numbers result) ≡ take 2 (put_in_order entry.now (entries_at entries.now (kept_numbers least))) }
    ensures kept { (m : ℕ) → number < m → KeptWithin m least → KeptWithin m result }
{
    match least {
        Least::Nothing => Least::One(number),
        Least::One(first) => beside_one(entries, first, number, entry),
        Least::Two(first, second) => beside_two(entries, first, second, number, entry),
    }
}

// The entry of a number more, where its vocabulary is used.
fn with_number(entries: &[Entry], used: &TextSet, least: Least, number: u32) -> Least
    ensures { entries_at entries.now (kept_numbers result) ≡ with_used_entry used.now (slice_get entries.now number) (entries_at entries.now (kept_numbers least)) }
{
    match entries.get(number as usize) {
        Some(entry) => {
            if used.contains(entry.vocab.as_str()) {
                with_one(entries, least, number, entry)
            } else {
                least
            }
        }
        None => least,
    }
}

/// The first two entries of used vocabularies by the byte order of their full names, with some that are kept.
pub fn least_used(entries: &[Entry], numbers: &[u32], used: &TextSet, kept: Least) -> Least
    ensures { entries_at entries.now (kept_numbers result) ≡ least_with used.now entries.now numbers.now (entries_at entries.now (kept_numbers kept)) }
{
    let mut least = kept;
    let mut rest = numbers;
    while let Some((number, earlier)) = rest.split_last() {
        least = with_number(entries, used, least, *number);
        rest = earlier;
    }
    least
}
