//! Tests of the lines of an input.
use fac_base::{Bytes, List, Memory};
use fac_io::{MemSink, MemSource};
use fac_lines::{Channels, LineFault};
use std::alloc::Global;
use std::test::Fail;

// Channels whose input has these bytes, where the reads of the listed numbers fail.
fn channels_of(
    alloc: Global,
    bytes: Bytes,
    fails: &[u64],
) -> Result<Channels<MemSource, MemSink>, Memory> {
    let fails = List::from_vec(Vec::from_slice(alloc, fails)?)?;
    let output = MemSink::new(alloc, 0, List::new(alloc))?;
    Ok(Channels::new(alloc, MemSource::new(bytes, fails), output))
}

// What a call comes to: whether it gives this line, or why it gives none.
fn gives(channels: &mut Channels<MemSource, MemSink>, line: &[u8]) -> &'static str {
    match channels.line() {
        Ok(Some(given)) => if given.as_slice() == line {
            "this"
        } else {
            "other"
        },
        Ok(None) => "none",
        Err(LineFault::TooLong) => "too long",
        Err(LineFault::Failed) => "failed",
        Err(LineFault::Memory) => "memory",
    }
}

// Whether these lines come, and none behind them.
fn gives_all(channels: &mut Channels<MemSource, MemSink>, each: &[&str]) -> bool {
    for line in each {
        if gives(channels, line.as_bytes()) != "this" {
            return false;
        }
    }
    gives(channels, b"".as_slice()) == "none"
}

// Whether a text has these lines.
fn has_lines(alloc: Global, text: &str, each: &[&str]) -> Result<bool, Memory> {
    let bytes = Bytes::from_slice(alloc, text.as_bytes())?;
    Ok(gives_all(&mut channels_of(alloc, bytes, &[])?, each))
}

// Whether small texts have the lines that they should.
fn small(alloc: Global) -> Result<bool, Memory> {
    Ok(
        has_lines(alloc, "", &[])?
            && has_lines(alloc, "a", &["a"])?
            && has_lines(alloc, "a\n", &["a"])?
            && has_lines(alloc, "\n\n", &["", ""])?
            && has_lines(alloc, "ab\n\nc", &["ab", "", "c"])?,
    )
}

// So many `a`, and a text behind them.
fn many(alloc: Global, count: usize, behind: &str) -> Result<Bytes, Memory> {
    let mut bytes = Bytes::from_vec(vec![in alloc; b'a'; count]?);
    bytes.extend(behind.as_bytes())?;
    Ok(bytes)
}

// Whether a line of the most bytes is given.
fn longest(alloc: Global) -> Result<bool, Memory> {
    let line = many(alloc, 4_000_000, "")?;
    let mut channels = channels_of(alloc, many(alloc, 4_000_000, "\nb")?, &[])?;
    Ok(gives(&mut channels, line.as_slice()) == "this" && gives_all(&mut channels, &["b"]))
}

// Whether a line of one more is refused, and its newline is left.
fn too_long(alloc: Global) -> Result<bool, Memory> {
    let mut channels = channels_of(alloc, many(alloc, 4_000_001, "\nb")?, &[])?;
    Ok(gives(&mut channels, b"".as_slice()) == "too long" && gives_all(&mut channels, &["", "b"]))
}

// Whether a line goes on behind a read that fails, where the first read gives 65,536 bytes.
fn goes_on(alloc: Global) -> Result<bool, Memory> {
    let line = many(alloc, 65_536, "bc")?;
    let mut channels = channels_of(alloc, many(alloc, 65_536, "bc\nd")?, &[2])?;
    Ok(
        gives(&mut channels, b"".as_slice()) == "failed"
            && gives(&mut channels, line.as_slice()) == "this"
            && gives_all(&mut channels, &["d"]),
    )
}

#[test]
fn lines_are_cut(rt: HostRuntime) -> Result<(), Fail> {
    let alloc = rt.alloc();
    assert!(rt; small(alloc)?);
    assert!(rt; longest(alloc)?);
    assert!(rt; too_long(alloc)?);
    assert!(rt; goes_on(alloc)?);
    Ok(())
}
