//! Named files in memory.
ghost use Rattle.std.specs.Prelude.{◌≡◌, ◌+◌, ◌∷◌, ◌++◌, ◌<◌, List, OnOk, Some, ◌==◌, vec_len, vec_capacity};
ghost use Rattle.std.specs.Option.{option_copied};
ghost use Rattle.std.specs.List.{list_any};
ghost use Rattle.fac_io.specs.Names.{bytes_of};
ghost use Rattle.fac_io.specs.Told.{Stays};
ghost use Rattle.fac_io.specs.Files.{LoadAnswers, LoadAsks, LoadCounts, SaveLeaves, SaveAsks, SaveCounts};
ghost use Rattle.fac_io.specs.inner.Loading.{AnswersBytes};

use crate::{Asked, Files, LoadFault, SaveFault};
use fac_base::{Bytes, List, Memory, Text};
use std::alloc::Global;
use std::marker::Model;

/// Named bytes, the numbers of the calls that fail, the first call being 1, and the calls so far. Loads and saves share
/// the numbers, and a call that answers want of memory has none. For tests.
#[derive(Drop)]
pub struct MemFiles {
    saved: Vec<(Text, Bytes)>,
    files: List<(Text, Bytes)>,
    fails: List<u64>,
    asked: List<Asked>,
    faults: u64,
}

impl Model for MemFiles {
    ghost use Rattle.std.specs.Prelude.{◌++◌};
    ghost use Rattle.fac_io.specs.Mem.{MemFiles as Seen};

    ghost Value = { Seen };

    ghost view = { λ f. record { files = f.saved.items ++ f.files; fails = f.fails; asked = f.asked; faults = f.faults } };
}

// The bytes of the first file of this name.
fn find<'a>(files: &'a [(Text, Bytes)], name: &str) -> Option<&'a [u8]>
    ensures { option_copied result ≡ bytes_of files.now name.now }
{
    for file in files {
        if file.0.as_str() == name {
            return Some(file.1.as_slice());
        }
    }
    None
}

// The bytes of the name, in the files that were saved or else in those that were given.
#[tactic(auto, using(crate::proofs::NameLemmas::bytes_of_append))]
fn find_in<'a>(
    saved: &'a [(Text, Bytes)],
    files: &'a [(Text, Bytes)],
    name: &str,
) -> Option<&'a [u8]>
    ensures { option_copied result ≡ bytes_of (saved.now ++ files.now) name.now }
{
    match find(saved, name) {
        Some(bytes) => Some(bytes),
        None => find(files, name),
    }
}

// Puts a file before the others, where there is room for it.
fn put_first(files: &mut Vec<(Text, Bytes)>, name: Text, bytes: Bytes)
    requires { vec_len files.old < vec_capacity files.old }
    ensures { files.new.items ≡ (name, bytes) ∷ files.old.items }
{
    files.insert(0, (name, bytes)).unwrap();
}

// Makes room for one more file.
fn make_room(files: &mut Vec<(Text, Bytes)>) -> Result<(), Memory>
    ensures items { files.new.items ≡ files.old.items }
    ensures room { OnOk result (vec_len files.new < vec_capacity files.new) }
{
    files.reserve(1)?;
    Ok(())
}

impl MemFiles {
    ghost use Rattle.fac_io.specs.Mem.{IsNewFiles};
    ghost use Rattle.fac_io.specs.declared.files.Asked.{Asked};

    /// Files that hold these bytes under these names, whose calls of the listed numbers fail. Where a name stands twice
    /// its first bytes count.
    pub fn new(alloc: Global, files: List<(Text, Bytes)>, fails: List<u64>) -> Self
        ensures { IsNewFiles files fails result }
    {
        MemFiles {
            saved: Vec::new(alloc),
            files,
            fails,
            asked: List::new(alloc),
            faults: 0,
        }
    }

    /// The bytes of the name, or `None` exactly where no such name is held. It is no call: it isn't listed and can't fail.
    pub fn held(&self, name: &str) -> Option<&[u8]>
        ensures { option_copied result ≡ bytes_of self.now.files name.now }
    {
        find_in(self.saved.as_slice(), self.files.as_slice(), name)
    }

    /// The calls so far, the oldest first.
    pub fn asked(&self) -> &List<Asked>
        ensures { result.now ≡ self.now.asked }
    {
        &self.asked
    }
}

// Whether the call after so many is one of those that fail.
fn is_listed(fails: &[u64], asked: u32) -> bool
    ensures { result ≡ list_any (λ call. call == asked + 1) fails.now }
{
    fails.contains(&(asked as u64 + 1))
}

// A copy of the bytes of the name where they are at most the limit, and no call is listed.
fn answer(
    alloc: Global,
    is_listed: bool,
    found: Option<&[u8]>,
    limit: u64,
) -> Result<Bytes, LoadFault>
    ensures { AnswersBytes is_listed (option_copied found.entry) limit result }
{
    match found {
        Some(bytes) if !is_listed => {
            if bytes.len() as u64 > limit {
                return Err(LoadFault::TooLong);
            }
            Ok(Bytes::from_slice(alloc, bytes)?)
        }
        _ => Err(LoadFault::Failed),
    }
}

impl Files for MemFiles {
    ghost use Rattle.fac_io.specs.Mem.{LoadFails, SaveFails};

    ghost held = { λ f. Some (bytes_of f.files) };

    ghost asked = { λ f. Some f.asked };

    ghost faults = { λ f. f.faults };

    fn load(&mut self, alloc: Global, name: &str, limit: u64) -> Result<Bytes, LoadFault>
        ensures answer { LoadAnswers (Some (bytes_of self.old.files)) name.now limit result }
        ensures held { Stays (Some (bytes_of self.old.files)) (Some (bytes_of self.new.files)) }
        ensures asked { LoadAsks name.now (Some self.old.asked) (Some self.new.asked) result }
        ensures counts { LoadCounts self.old.faults self.new.faults result }
        ensures exact { LoadFails self.old name.now result self.new }
        ensures same { self.new.fails ≡ self.old.fails }
    {
        let call = Asked::Load(Text::from_str(alloc, name)?);
        let is_listed = is_listed(self.fails.as_slice(), self.asked.len());
        let found = find_in(self.saved.as_slice(), self.files.as_slice(), name);
        match answer(alloc, is_listed, found, limit) {
            Err(LoadFault::Memory) => Err(LoadFault::Memory),
            Err(LoadFault::Failed) => {
                self.asked.push(call)?;
                self.faults = self.faults.saturating_add(1);
                Err(LoadFault::Failed)
            }
            Err(LoadFault::TooLong) => {
                self.asked.push(call)?;
                Err(LoadFault::TooLong)
            }
            Ok(bytes) => {
                self.asked.push(call)?;
                Ok(bytes)
            }
        }
    }

    fn save(&mut self, alloc: Global, name: &str, bytes: &[u8]) -> Result<(), SaveFault>
        ensures held { SaveLeaves name.now bytes.now (Some (bytes_of self.old.files)) (Some (bytes_of self.new.files)) result }
        ensures asked { SaveAsks name.now (Some self.old.asked) (Some self.new.asked) result }
        ensures counts { SaveCounts self.old.faults self.new.faults result }
        ensures exact { SaveFails self.old result self.new }
        ensures same { self.new.fails ≡ self.old.fails }
    {
        let call = Asked::Save(Text::from_str(alloc, name)?);
        let is_listed = is_listed(self.fails.as_slice(), self.asked.len());
        if is_listed {
            self.asked.push(call)?;
            self.faults = self.faults.saturating_add(1);
            return Err(SaveFault::Failed);
        }
        let name = Text::from_str(alloc, name)?;
        let bytes = Bytes::from_slice(alloc, bytes)?;
        make_room(&mut self.saved)?;
        self.asked.push(call)?;
        put_first(&mut self.saved, name, bytes);
        Ok(())
    }
}
