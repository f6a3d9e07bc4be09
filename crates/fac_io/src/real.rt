//! The real forms: the files of the runtime, and any reader and writer of std.
//!
//! Nobody tells which file a name is and what it holds, so that is trusted and not proved. What is proved is that a load gives what it read of the
//! file that the runtime opened, all of it or that it is too long, and that a save writes its bytes to the file that the runtime made. Files and streams
//! tell what their reader or writer tells: the runtime's own tell nothing, and those in memory all.
ghost use Rattle.std.specs.Prelude.{◌≡◌, ◌+◌, ◌-◌, ◌^◌, ◌<◌, ◌≤◌, length, IsErr, IfOk, OnOk, OnErr, MatchResult, None, take};
ghost use Rattle.std.specs.Io.{ReadsAtMost};
ghost use Rattle.std.specs.Io.KnownBytes.{ReadConsumes, Appends, Keeps};
ghost use Rattle.fac_io.specs.Faults.{HasCause};
ghost use Rattle.fac_io.specs.Names.{Held};
ghost use Rattle.fac_io.specs.Told.{Stays, Grows, GrowsByPrefix, Took, sink_tells};
ghost use Rattle.fac_io.specs.Files.{LoadAnswers, LoadAsks, LoadCounts, SaveLeaves, SaveAsks, SaveCounts};
ghost use Rattle.fac_io.specs.Real.{ReadsUpTo, LoadsFile, SavesFile, CountsOnce};
ghost use Rattle.fac_io.specs.inner.Loading.{LoadsOpened, SavesOpened};

use crate::{Failed, Files, LoadFault, SaveFault, Sink, Source};
use fac_base::Bytes;
use std::alloc::Global;
use std::io::{ErrorKind, Read, Write};
use std::{fs, io, rt};

/// The files of the runtime. A name is a path. An error of any kind is a fault, and a save that fails may leave a part of
/// the bytes or an empty file.
#[derive(Drop)]
pub struct RealFiles<'a, R> {
    rt: &'a R,
    faults: u64,
}

/// A reader as a source. It gives at most 2^63 - 1 bytes and fails after that.
#[derive(Drop)]
pub struct RealSource<R> {
    reader: R,
    may_give: u64,
    faults: u64,
}

/// A writer as a sink. Each write hands its piece on at once; a write of the writer that takes nothing is a fault.
#[derive(Drop)]
pub struct RealSink<W> {
    writer: W,
    faults: u64,
}

impl<'a, R> RealFiles<'a, R> {
    /// The files of this runtime, with no fault so far.
    pub fn new(rt: &'a R) -> Self
        ensures { result.faults ≡ 0 }
    {
        RealFiles { rt, faults: 0 }
    }
}

impl<R> RealSource<R> {
    /// A source of the bytes of this reader, with no fault so far.
    pub fn new(reader: R) -> Self
        ensures reader { result.reader ≡ reader }
        ensures may_give { result.may_give ≡ 2 ^ 63 - 1 }
        ensures faults { result.faults ≡ 0 }
    {
        RealSource {
            reader,
            may_give: i64::MAX as u64,
            faults: 0,
        }
    }
}

impl<W> RealSink<W> {
    /// A sink into this writer, with no fault so far.
    pub fn new(writer: W) -> Self
        ensures writer { result.writer ≡ writer }
        ensures faults { result.faults ≡ 0 }
    {
        RealSink { writer, faults: 0 }
    }
}

// One read, tried again where a signal interrupts it.
#[tactic(auto, using(crate::proofs::Streams::read_after))]
fn read_some<R: Read>(reader: &mut R, buf: &mut [u8]) -> Result<usize, Failed>
    ensures bound { ReadsAtMost result buf.new }
    ensures bytes { ReadConsumes (R.remaining reader.old) (R.remaining reader.new) result buf.new }
{
    for _ in 0..u64::MAX {
        match reader.read(buf) {
            Ok(count) => return Ok(count),
            Err(error) if error.kind() == ErrorKind::Interrupted => {}
            Err(_) => return Err(Failed),
        }
    }
    Err(Failed)
}

// One write, tried again where a signal interrupts it. A write that takes nothing counts as an error.
#[tactic(auto, using(crate::proofs::Streams::appends_after, crate::proofs::Streams::keeps_after))]
fn write_some<W: Write>(writer: &mut W, piece: &[u8]) -> Result<usize, Failed>
    ensures bound { IfOk result (λ count. count ≤ length piece.now) }
    ensures ok { IfOk result (λ count. Appends (W.contents writer.old) (W.contents writer.new) (take count piece.now)) }
    ensures err { OnErr result (Keeps (W.contents writer.old) (W.contents writer.new)) }
{
    for _ in 0..u64::MAX {
        match writer.write(piece) {
            Ok(0) => return Err(Failed),
            Ok(count) => return Ok(count),
            Err(error) if error.kind() == ErrorKind::Interrupted => {}
            Err(_) => return Err(Failed),
        }
    }
    Err(Failed)
}

// Writes the whole piece.
#[tactic(auto, using(crate::proofs::Streams::grows_after, crate::proofs::Streams::prefix_of_take))]
fn write_whole<W: Write>(writer: &mut W, piece: &[u8]) -> Result<(), Failed>
    ensures ok { OnOk result (Grows (W.contents writer.old) (W.contents writer.new) piece.now) }
    ensures err { OnErr result (GrowsByPrefix (W.contents writer.old) (W.contents writer.new) piece.now) }
{
    let mut done = 0;
    for _ in 0..u64::MAX {
        if done == piece.len() {
            return Ok(());
        }
        done += write_some(writer, &piece[done..])?;
    }
    Err(Failed)
}

// All bytes of a reader, where they are at most the limit.
#[tactic(auto, using(crate::proofs::Streams::whole_was_read, crate::proofs::Streams::more_was_read))]
fn read_up_to<R: Read>(alloc: Global, reader: &mut R, limit: u64) -> Result<Bytes, LoadFault>
    ensures { ReadsUpTo (R.remaining reader.old) limit result }
{
    let mut bytes = Bytes::new(alloc);
    let mut buf = [0u8; 4096];
    for _ in 0..u64::MAX {
        let Ok(count) = read_some(reader, &mut buf) else {
            return Err(LoadFault::Failed);
        };
        if count == 0 {
            return Ok(bytes);
        }
        if count as u64 > limit.saturating_sub(bytes.len() as u64) {
            return Err(LoadFault::TooLong);
        }
        bytes.extend(&buf[..count])?;
    }
    Err(LoadFault::Failed)
}

// Reads the file, if one was opened.
fn load_opened<F: Read + Drop>(
    alloc: Global,
    opened: Option<F>,
    limit: u64,
) -> Result<Bytes, LoadFault>
    ensures bound { IfOk result (λ bytes. length bytes ≤ limit) }
    ensures file { LoadsOpened F.remaining opened limit result }
{
    match opened {
        Some(mut file) => read_up_to(alloc, &mut file, limit),
        None => Err(LoadFault::Failed),
    }
}

// Opens a file and reads it.
#[tactic(auto, using(crate::proofs::RealLemmas::loads_file))]
fn load_file<R: rt::Files>(
    rt: &R,
    alloc: Global,
    name: &str,
    limit: u64,
) -> Result<Bytes, LoadFault>
    ensures bound { IfOk result (λ bytes. length bytes ≤ limit) }
    ensures file { LoadsFile R.File.remaining limit result }
{
    load_opened(alloc, fs::open(rt, name).ok(), limit)
}

// Writes the bytes to the file, if one was made.
fn save_opened<F: Write + Drop>(made: Option<F>, bytes: &[u8]) -> Result<(), Failed>
    ensures { SavesOpened F.contents made bytes.now result }
{
    match made {
        Some(mut file) => match write_whole(&mut file, bytes) {
            Ok(()) => Ok(()),
            Err(Failed) => Err(Failed),
        },
        None => Err(Failed),
    }
}

// Makes a file, or empties the one that is there, and writes it.
#[tactic(auto, using(crate::proofs::RealLemmas::saved_whole))]
fn save_file<R: rt::Files>(rt: &R, name: &str, bytes: &[u8]) -> Result<(), SaveFault>
    ensures { SavesFile R.File.contents bytes.now result }
{
    match save_opened(fs::create(rt, name).ok(), bytes) {
        Ok(()) => Ok(()),
        Err(Failed) => Err(SaveFault::Failed),
    }
}

impl<'a, R: rt::Files> Files for RealFiles<'a, R> {
    ghost held = { λ _. None };

    ghost asked = { λ _. None };

    ghost faults = { λ f. f.faults };

    fn load(&mut self, alloc: Global, name: &str, limit: u64) -> Result<Bytes, LoadFault>
        ensures answer { LoadAnswers None name.now limit result }
        ensures held { Stays {A = Held} None None }
        ensures asked { LoadAsks name.now None None result }
        ensures counts { LoadCounts self.old.faults self.new.faults result }
        ensures file { LoadsFile R.File.remaining limit result }
    {
        match load_file(self.rt, alloc, name, limit) {
            Err(LoadFault::Failed) => {
                self.faults = self.faults.saturating_add(1);
                Err(LoadFault::Failed)
            }
            Err(fault) => Err(fault),
            Ok(bytes) => Ok(bytes),
        }
    }

    fn save(&mut self, _alloc: Global, name: &str, bytes: &[u8]) -> Result<(), SaveFault>
        ensures held { SaveLeaves name.now bytes.now None None result }
        ensures asked { SaveAsks name.now None None result }
        ensures counts { SaveCounts self.old.faults self.new.faults result }
        ensures file { SavesFile R.File.contents bytes.now result }
        ensures once { CountsOnce self.old.faults self.new.faults result }
    {
        match save_file(self.rt, name, bytes) {
            Ok(()) => Ok(()),
            Err(SaveFault::Failed) => {
                self.faults = self.faults.saturating_add(1);
                Err(SaveFault::Failed)
            }
            Err(SaveFault::Memory) => unreachable!(),
        }
    }
}

impl<R: Read> Source for RealSource<R> {
    ghost left = { λ s. R.remaining s.reader };

    ghost may_give = { λ s. s.may_give };

    ghost faults = { λ s. s.faults };

    fn read(&mut self, buf: &mut [u8]) -> Result<usize, Failed>
        requires { 0 < length buf.old }
        ensures bound { ReadsAtMost result buf.new }
        ensures bytes { ReadConsumes (R.remaining self.old.reader) (R.remaining self.new.reader) result buf.new }
        ensures falls { MatchResult result (λ n. self.new.may_give + n ≤ self.old.may_give) (λ _. self.new.may_give ≤ self.old.may_give) }
        ensures cause { HasCause self.old.faults self.new.faults (IsErr result) }
        ensures no_fault { OnOk result (self.new.faults ≡ self.old.faults) }
        ensures once { CountsOnce self.old.faults self.new.faults result }
        ensures exact { MatchResult result (λ n. self.new.may_give + n ≡ self.old.may_give) (λ _. self.new.may_give ≡ self.old.may_give) }
    {
        let room = buf.len().min(self.may_give as usize);
        if room == 0 {
            self.faults = self.faults.saturating_add(1);
            return Err(Failed);
        }
        match read_some(&mut self.reader, &mut buf[..room]) {
            Ok(count) => {
                self.may_give -= count as u64;
                Ok(count)
            }
            Err(Failed) => {
                self.faults = self.faults.saturating_add(1);
                Err(Failed)
            }
        }
    }
}

impl<W: Write> Sink for RealSink<W> {
    ghost taken = { λ s. W.contents s.writer };

    ghost pieces = { λ _. None };

    ghost faults = { λ s. s.faults };

    #[tactic(auto, using(crate::proofs::SinkLemmas::took_whole, crate::proofs::SinkLemmas::took_front))]
    fn write(&mut self, piece: &[u8]) -> Result<(), Failed>
        requires { 0 < length piece.now }
        ensures ok { OnOk result (Grows (W.contents self.old.writer) (W.contents self.new.writer) piece.now) }
        ensures err { OnErr result (GrowsByPrefix (W.contents self.old.writer) (W.contents self.new.writer) piece.now) }
        ensures took { Took (sink_tells (W.contents self.old.writer) None) (sink_tells (W.contents self.new.writer) None) piece.now result }
        ensures cause { HasCause self.old.faults self.new.faults (IsErr result) }
        ensures no_fault { OnOk result (self.new.faults ≡ self.old.faults) }
        ensures once { CountsOnce self.old.faults self.new.faults result }
    {
        match write_whole(&mut self.writer, piece) {
            Ok(()) => Ok(()),
            Err(Failed) => {
                self.faults = self.faults.saturating_add(1);
                Err(Failed)
            }
        }
    }
}
