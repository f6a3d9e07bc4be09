//! Tests of the real files and streams.
use fac_base::Memory;
use fac_io::{Files, LoadFault, RealFiles, RealSink, RealSource, SaveFault, Sink, Source};
use std::alloc::Global;
use std::io::{ErrorKind, Read, Write};
use std::test::Fail;
use std::{fs, io, process};

// What becomes of bytes that are saved, and loaded again within a limit.
fn kept<F: Files>(
    alloc: Global,
    files: &mut F,
    name: &str,
    bytes: &[u8],
    limit: u64,
) -> &'static str {
    match files.save(alloc, name, bytes) {
        Ok(()) => {}
        Err(SaveFault::Failed) => return "not saved",
        Err(SaveFault::Memory) => return "memory",
    }
    match files.load(alloc, name, limit) {
        Ok(loaded) => if loaded.as_slice() == bytes {
            "kept"
        } else {
            "changed"
        },
        Err(LoadFault::Failed) => "not loaded",
        Err(LoadFault::TooLong) => "too long",
        Err(LoadFault::Memory) => "memory",
    }
}

// Why there are no bytes under a name, or that there are some.
fn missing<F: Files>(alloc: Global, files: &mut F, name: &str) -> &'static str {
    match files.load(alloc, name, 9) {
        Ok(_) => "loaded",
        Err(LoadFault::Failed) => "not loaded",
        Err(LoadFault::TooLong) => "too long",
        Err(LoadFault::Memory) => "memory",
    }
}

// Whether files of this name and of two names of the system come to what they should.
fn keeps_all<F: Files>(alloc: Global, files: &mut F, name: &str, bytes: &[u8]) -> bool {
    missing(alloc, files, "/dev/null/missing") == "not loaded"
        && kept(alloc, files, "/dev/full", b"a".as_slice(), 9) == "not saved"
        && kept(alloc, files, name, bytes, 9999) == "too long"
        && kept(alloc, files, name, bytes, 10000) == "kept"
        && kept(alloc, files, name, b"abc".as_slice(), 9) == "kept"
        && kept(alloc, files, name, b"".as_slice(), 0) == "kept"
}

#[test]
fn real_files(rt: HostRuntime) -> Result<(), Fail> {
    let alloc = rt.alloc();
    let name = format!(in alloc; "/tmp/fac_io_{}", process::id(rt.process()))?;
    let bytes = vec![in alloc; 7u8; 10000]?;
    let mut files = RealFiles::new(&rt);
    assert!(rt; keeps_all(alloc, &mut files, name.as_str(), bytes.as_slice()));
    fs::remove_file(&rt, name.as_str())?;
    Ok(())
}

// So many bytes, which differ from one block of 4,096 to the next.
fn bytes_of(alloc: Global, count: usize) -> Result<Vec<u8>, Memory> {
    let mut bytes = Vec::new(alloc);
    for place in 0..count {
        bytes.push((place % 251) as u8)?;
    }
    Ok(bytes)
}

// What becomes of so many bytes, where so many may be loaded.
fn size_kept<F: Files>(
    alloc: Global,
    files: &mut F,
    name: &str,
    count: usize,
    limit: u64,
) -> Result<&'static str, Memory> {
    let bytes = bytes_of(alloc, count)?;
    Ok(kept(alloc, files, name, bytes.as_slice(), limit))
}

#[test]
fn real_files_of_all_sizes(rt: HostRuntime) -> Result<(), Fail> {
    let alloc = rt.alloc();
    let name = format!(in alloc; "/tmp/fac_io_sizes_{}", process::id(rt.process()))?;
    let mut files = RealFiles::new(&rt);
    for size in [1_000_000usize, 4_097, 4_096, 77, 1, 0].as_slice() {
        let told = size_kept(alloc, &mut files, name.as_str(), *size, *size as u64)?;
        assert_eq!(rt; told, "kept");
    }
    for size in [1usize, 77, 4_096, 4_097, 1_000_000].as_slice() {
        let limit = (*size as u64).saturating_sub(1);
        let told = size_kept(alloc, &mut files, name.as_str(), *size, limit)?;
        assert_eq!(rt; told, "too long");
    }
    fs::remove_file(&rt, name.as_str())?;
    Ok(())
}

// A stream that is interrupted at every other call, then moves one byte, and at its end fails or gives none.
#[derive(Drop)]
struct Grudging<'a> {
    bytes: &'a mut Vec<u8>,
    calls: u8,
    fails_with: Option<ErrorKind>,
}

impl<'a> Grudging<'a> {
    fn step(&mut self) -> io::Result<Option<u8>> {
        self.calls = self.calls.saturating_add(1);
        if self.calls % 2 == 1 {
            return Err(io::Error::from(ErrorKind::Interrupted));
        }
        if self.calls > 6 {
            return match self.fails_with {
                None => Ok(None),
                Some(kind) => Err(io::Error::from(kind)),
            };
        }
        Ok(Some(self.calls / 2))
    }
}

impl<'a> Write for Grudging<'a> {
    fn write(&mut self, buf: &[u8]) -> io::Result<usize> {
        let Some(_) = self.step()? else {
            return Ok(0);
        };
        let front = buf.get(..1).unwrap_or(&[]);
        self.bytes.extend_from_slice(front)?;
        Ok(front.len())
    }

    fn flush(&mut self) -> io::Result<()> {
        Ok(())
    }
}

impl<'a> Read for Grudging<'a> {
    fn read(&mut self, buf: &mut [u8]) -> io::Result<usize> {
        let Some(count) = self.step()? else {
            return Ok(0);
        };
        match buf.first_mut() {
            Some(byte) => {
                *byte = count;
                Ok(1)
            }
            None => Ok(0),
        }
    }
}

// What a sink on such a stream takes of two writes.
fn taken(alloc: Global, fails_with: Option<ErrorKind>) -> Result<Vec<u8>, Fail> {
    let mut bytes = Vec::new(alloc);
    let mut out = RealSink::new(Grudging {
        bytes: &mut bytes,
        calls: 0,
        fails_with,
    });
    let first = out.write(b"ab".as_slice());
    let second = out.write(b"cde".as_slice());
    bytes.push(b'0' + u8::from(first.is_ok()))?;
    bytes.push(b'0' + u8::from(second.is_ok()))?;
    Ok(bytes)
}

#[test]
fn real_sinks(rt: HostRuntime) -> Result<(), Fail> {
    let alloc = rt.alloc();
    assert_eq!(rt; taken(alloc, None)?.as_slice(), b"abc10".as_slice());
    let failing = taken(alloc, Some(ErrorKind::BrokenPipe))?;
    assert_eq!(rt; failing.as_slice(), b"abc10".as_slice());
    Ok(())
}

// What four reads of such a stream give: the byte that was read, 0 at the end, or 9 where the read failed.
fn given(alloc: Global, fails_with: Option<ErrorKind>) -> Result<Vec<u8>, Fail> {
    let mut bytes = Vec::new(alloc);
    let mut source = RealSource::new(Grudging {
        bytes: &mut bytes,
        calls: 0,
        fails_with,
    });
    let mut told = Vec::new(alloc);
    let mut buffer = [0u8; 2];
    for _ in 0..4 {
        told.push(match source.read(&mut buffer) {
            Ok(0) => 0,
            Ok(_) => buffer[0],
            Err(_) => 9,
        })?;
    }
    Ok(told)
}

#[test]
fn real_sources(rt: HostRuntime) -> Result<(), Fail> {
    let alloc = rt.alloc();
    assert_eq!(rt; given(alloc, None)?.as_slice(), [1, 2, 3, 0].as_slice());
    let failing = given(alloc, Some(ErrorKind::BrokenPipe))?;
    assert_eq!(rt; failing.as_slice(), [1, 2, 3, 9].as_slice());
    Ok(())
}
