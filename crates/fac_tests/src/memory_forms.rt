//! Tests of the files and streams in memory.
use fac_base::{Bytes, List, Memory, Text};
use fac_io::{Asked, Files, LoadFault, MemFiles, MemSink, MemSource, SaveFault, Sink, Source};
use std::alloc::Global;
use std::test::Fail;

fn numbers(alloc: Global, numbers: &[u64]) -> Result<List<u64>, Memory> {
    List::from_vec(Vec::from_slice(alloc, numbers)?)
}

fn sink(alloc: Global, room: u64, fails: &[(u64, u64)]) -> Result<MemSink, Memory> {
    MemSink::new(alloc, room, List::from_vec(Vec::from_slice(alloc, fails)?)?)
}

// Whether a read gives so many bytes, where 9 stands for a failure, and these are left behind it.
fn gives(source: &mut MemSource, buf: &mut [u8; 3], count: usize, left: &str) -> bool {
    let given = source.read(buf).unwrap_or(9);
    given == count && source.left() == left.as_bytes()
}

// Whether a source of `abcde` whose second and fourth read fail gives what it should.
fn gives_all(source: &mut MemSource, buf: &mut [u8; 3]) -> bool {
    gives(source, buf, 3, "de")
        && gives(source, buf, 9, "de")
        && gives(source, buf, 2, "")
        && gives(source, buf, 9, "")
        && gives(source, buf, 0, "")
}

#[test]
fn a_source_in_memory(rt: HostRuntime) -> Result<(), Fail> {
    let alloc = rt.alloc();
    let bytes = Bytes::from_slice(alloc, b"abcde".as_slice())?;
    let mut source = MemSource::new(bytes, numbers(alloc, &[4, 2])?);
    let mut buf = [0u8; 3];
    assert!(rt; gives_all(&mut source, &mut buf));
    assert!(rt; buf == *b"dec");
    Ok(())
}

// Whether a write of a piece is done or not, as it is said here, and behind it the sink has taken these bytes.
fn takes(sink: &mut MemSink, piece: &str, is_done: bool, taken: &str) -> bool {
    if piece.is_empty() {
        return false;
    }
    sink.write(piece.as_bytes()).is_ok() == is_done && sink.taken() == taken.as_bytes()
}

// Whether a sink with room for six bytes, whose second and fifth write fail, takes what it should.
fn takes_all(sink: &mut MemSink) -> bool {
    takes(sink, "ab", true, "ab")
        && takes(sink, "xy", false, "abx")
        && takes(sink, "cdef", false, "abx")
        && takes(sink, "c", true, "abxc")
        && takes(sink, "de", false, "abxcde")
        && takes(sink, "f", false, "abxcde")
}

#[test]
fn a_sink_in_memory(rt: HostRuntime) -> Result<(), Fail> {
    let mut out = sink(rt.alloc(), 6, &[(2, 1), (5, 9)])?;
    assert!(rt; takes_all(&mut out));
    assert!(rt; sink(rt.alloc(), u64::MAX, &[]).is_err());
    Ok(())
}

// Adds a file `a` with these bytes.
fn add(alloc: Global, files: &mut List<(Text, Bytes)>, bytes: &[u8]) -> Result<(), Memory> {
    let name = Text::from_str(alloc, "a")?;
    files.push((name, Bytes::from_slice(alloc, bytes)?))
}

// Files that hold two texts under one name, whose third and fifth call fail.
fn files(alloc: Global) -> Result<MemFiles, Memory> {
    let mut given = List::new(alloc);
    add(alloc, &mut given, b"abc".as_slice())?;
    add(alloc, &mut given, b"second".as_slice())?;
    Ok(MemFiles::new(alloc, given, numbers(alloc, &[3, 5])?))
}

// What a load comes to: whether its bytes are these, or why it gave none.
fn loads<F: Files>(
    alloc: Global,
    files: &mut F,
    name: &str,
    limit: u64,
    bytes: &str,
) -> &'static str {
    match files.load(alloc, name, limit) {
        Ok(loaded) => if loaded.as_slice() == bytes.as_bytes() {
            "these"
        } else {
            "others"
        },
        Err(LoadFault::Failed) => "failed",
        Err(LoadFault::TooLong) => "too long",
        Err(LoadFault::Memory) => "memory",
    }
}

// What a save comes to.
fn saves<F: Files>(alloc: Global, files: &mut F, name: &str, bytes: &str) -> &'static str {
    match files.save(alloc, name, bytes.as_bytes()) {
        Ok(()) => "done",
        Err(SaveFault::Failed) => "failed",
        Err(SaveFault::Memory) => "memory",
    }
}

// The calls so far, a load as `<` and a save as `>` before its name.
fn calls(alloc: Global, asked: &[Asked]) -> Result<Text, Memory> {
    let mut told = Text::new(alloc);
    for call in asked {
        let (mark, name) = match call {
            Asked::Load(name) => ("<", name),
            Asked::Save(name) => (">", name),
        };
        told.push_str(mark)?;
        told.push_str(name.as_str())?;
    }
    Ok(told)
}

// Whether the first loads come to what they should.
fn loads_all<F: Files>(alloc: Global, files: &mut F) -> bool {
    loads(alloc, files, "b", 9, "") == "failed"
        && loads(alloc, files, "a", 2, "") == "too long"
        && loads(alloc, files, "a", 3, "") == "failed"
        && loads(alloc, files, "a", 3, "abc") == "these"
}

// Whether the saves behind them do.
fn saves_all<F: Files>(alloc: Global, files: &mut F) -> bool {
    saves(alloc, files, "b", "xy") == "failed"
        && saves(alloc, files, "b", "xy") == "done"
        && saves(alloc, files, "a", "") == "done"
}

// Whether the files hold what they should then.
fn holds_all(files: &MemFiles) -> bool {
    files.held("a") == Some(b"".as_slice())
        && files.held("b") == Some(b"xy".as_slice())
        && files.held("c").is_none()
}

#[test]
fn files_in_memory(rt: HostRuntime) -> Result<(), Fail> {
    let mut files = files(rt.alloc())?;
    assert!(rt; loads_all(rt.alloc(), &mut files));
    assert!(rt; saves_all(rt.alloc(), &mut files));
    assert!(rt; holds_all(&files));
    let calls = calls(rt.alloc(), files.asked().as_slice())?;
    assert_eq!(rt; calls.as_str(), "<b<a<a<a>b>b>a");
    Ok(())
}
