//! What is found out of a piece of code before it is made. Nothing is promised of it: it only says where a value is made and where it is put off.
use crate::growing::Growing;
use crate::known::Entry;
use crate::put_off::{Curried, PutOff};
use fac_base::Memory;
use indexmap::IndexSet;
use std::alloc::Global;

/// How many items one piece of code may have. Beyond them it is left plain.
pub const MOST_ITEMS: u32 = 100_000;

// How many quotations and words may be run inside one another.
const MOST_NESTED: u32 = 200;

// How many may be in a direct phrase with loops: at most 256 quotations are in one another, and six of these are run for each, those of the loop's own phrase
// among them. Each takes about a thousand bytes of the stack.
const MOST_NESTED_DIRECT: u32 = 2_000;

// How many times a word may have code of its own within its own code, for other callables each time.
const MOST_LOOPS: u32 = 24;

// How many parts of a callable are looked at to find the quotations in it.
const MOST_PARTS: u32 = 64;

// A number by which a key is spread.
const SPREAD: u64 = 0x9E37_79B9_7F4A_7C15;

/// Which quotations are made where they are pushed, in one piece of code. A quotation is known by its place in the plain code, and by the places of the
/// calls that led to the phrase in which it stands: of these a key is made, and two quotations with one key are taken for one.
#[derive(Drop)]
pub struct Hints {
    /// The keys of quotations that are made.
    pub made: IndexSet<u64>,
    /// By the numbers of callables that were put off, the keys of quotations.
    pub keys: Growing<u64>,
    /// The keys of quotations that are being run, the innermost last.
    pub inside: Growing<u64>,
    /// The loops in whose code this is, by their numbers among what was put off, the innermost last.
    pub loops: Growing<u32>,
    /// The words of these loops.
    pub loop_words: Growing<u32>,
    /// The place of the item that is done.
    pub place: u32,
    /// The key of the calls that led to its phrase.
    pub calls: u64,
    /// How many items were gone over.
    pub passed: u32,
    /// Whether the piece can't be made so at all.
    pub hopeless: bool,
    /// Whether the piece is that of a direct phrase. Each quotation of it is run once, so there is no bound on its items and loops.
    pub direct: bool,
}

// The key of a place behind these calls.
fn mixed(calls: u64, place: u32) -> u64 {
    (calls.rotate_left(5) ^ (place as u64)).wrapping_mul(SPREAD)
}

impl Hints {
    /// Nothing is known.
    pub fn new(alloc: Global) -> Self {
        Hints {
            made: IndexSet::new(alloc),
            keys: Growing::new(alloc),
            inside: Growing::new(alloc),
            loops: Growing::new(alloc),
            loop_words: Growing::new(alloc),
            place: 0,
            calls: 0,
            passed: 0,
            hopeless: false,
            direct: false,
        }
    }

    // How many items the piece may have.
    fn most_items(&self) -> u32 {
        if self.direct {
            return u32::MAX;
        }
        MOST_ITEMS
    }

    /// How many quotations and words may be run inside one another.
    pub fn most_nested(&self) -> u32 {
        if self.direct {
            return MOST_NESTED_DIRECT;
        }
        MOST_NESTED
    }

    /// Whether the quotation at this place is made.
    pub fn is_made(&self) -> bool {
        let key = mixed(self.calls, self.place);
        self.made.contains(&key)
    }

    /// The quotation at this place is put off, and has this number.
    pub fn put_off(&mut self, number: usize) -> Result<(), Memory> {
        self.keys.shorten(number);
        for _ in self.keys.len()..number {
            self.keys.push(0)?;
        }
        let key = mixed(self.calls, self.place);
        self.keys.push(key)
    }

    /// The phrase of what is called or applied at this place begins. The calls that led here are answered, for its end.
    pub fn enter(&mut self) -> u64 {
        let calls = self.calls;
        self.calls = mixed(calls, self.place);
        calls
    }

    /// A quotation that was put off and has this number is run.
    pub fn begin_run(&mut self, number: u32) -> Result<(), Memory> {
        let key = match self.keys.get(number as usize) {
            Some(key) => *key,
            None => 0,
        };
        self.inside.push(key)
    }

    /// Counts an item. Whether it was one too many.
    pub fn count(&mut self) -> bool {
        if self.passed >= self.most_items() {
            self.hopeless = true;
            return true;
        }
        self.passed += 1;
        false
    }

    /// Counts so many items more. Whether they were too many.
    pub fn count_more(&mut self, count: usize) -> bool {
        let most = self.most_items();
        if count > (most - self.passed.min(most)) as usize {
            self.hopeless = true;
            return true;
        }
        self.passed += count as u32;
        false
    }

    /// What is in the innermost quotation was run.
    pub fn leave(&mut self) {
        let count = self.inside.len();
        if count > 0 {
            self.inside.shorten(count - 1);
        }
    }

    /// Whether a word has code of its own within its own code so often that it has no more.
    pub fn is_deep(&self, word: u32) -> bool {
        if self.direct {
            return false;
        }
        let mut count: u32 = 0;
        for own in self.loop_words.as_slice() {
            if *own == word {
                if count >= MOST_LOOPS {
                    return true;
                }
                count += 1;
            }
        }
        false
    }

    /// A word's own code begins, which has this number.
    pub fn enter_loop(&mut self, word: u32, number: u32) -> Result<(), Memory> {
        self.loops.push(number)?;
        self.loop_words.push(word)
    }

    /// The innermost loop ends.
    pub fn leave_loop(&mut self) {
        let count = self.loops.len();
        if count > 0 {
            self.loops.shorten(count - 1);
        }
        let words = self.loop_words.len();
        if words > 0 {
            self.loop_words.shorten(words - 1);
        }
    }

    /// A piece is gone through from its beginning.
    pub fn begin(&mut self) {
        self.keys.shorten(0);
        self.inside.shorten(0);
        self.loops.shorten(0);
        self.loop_words.shorten(0);
        self.calls = 0;
    }

    // From now on the quotation with this key is made.
    fn note(&mut self, key: u64) -> Result<(), Memory> {
        self.made.insert(key)?;
        Ok(())
    }

    /// From now on the quotation that is run is made, since what is in it can't be put off.
    pub fn note_inside(&mut self) -> Result<(), Memory> {
        match self.inside.as_slice().last() {
            Some(key) => {
                let key = *key;
                self.note(key)
            }
            None => {
                self.hopeless = true;
                Ok(())
            }
        }
    }

    /// From now on the quotations in a callable are made.
    pub fn note_callable(
        &mut self,
        alloc: Global,
        put_off: &[PutOff],
        callable: u32,
    ) -> Result<(), Memory> {
        let mut waiting: Growing<u32> = Growing::new(alloc);
        waiting.push(callable)?;
        for index in 0..MOST_PARTS {
            let number = match waiting.get(index as usize) {
                Some(number) => *number,
                None => return Ok(()),
            };
            match put_off.get(number as usize) {
                Some(PutOff::Quotation { .. }) => match self.keys.get(number as usize) {
                    Some(key) => {
                        let key = *key;
                        self.note(key)?;
                    }
                    None => self.hopeless = true,
                },
                Some(PutOff::Curry { value, callable }) => {
                    waiting.push(*callable)?;
                    match value {
                        Curried::Cell(_) => {}
                        Curried::Off(inner) => waiting.push(*inner)?,
                    }
                }
                Some(PutOff::Compose { first, second }) => {
                    waiting.push(*first)?;
                    waiting.push(*second)?;
                }
                Some(PutOff::Loop { .. }) => {}
                None => {}
            }
        }
        Ok(())
    }

    /// From now on the quotations in what an entry stands for are made.
    pub fn note_entry(
        &mut self,
        alloc: Global,
        put_off: &[PutOff],
        entry: Entry,
    ) -> Result<(), Memory> {
        match entry {
            Entry::Here => Ok(()),
            Entry::Off(callable) => self.note_callable(alloc, put_off, callable),
        }
    }
}
