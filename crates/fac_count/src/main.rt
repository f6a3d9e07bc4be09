//! A program for measurements: it writes how many tokens a file has. It ends with status 1 where the file can't be read, has a fault
//! or is too large for the memory that there is, and with status 2 where no file is named.
#![tactic(auto)]

use fac_base::Memory;
use fac_io::{Files, RealFiles, RealSink, Sink};
use fac_token::tokens;
use itoa::Buffer;
use std::alloc::Global;
use std::env;
use std::env::Env;
use std::process::ExitCode;

// The most bytes that are read.
const LIMIT: u64 = 268_435_456;

// The first word of the command line, after the program's name.
fn file_name<R: Env + AllocGlobal>(rt: &R) -> Option<String> {
    match env::args(rt) {
        Ok(args) => {
            for word in args.skip(1) {
                return Some(word);
            }
            None
        }
        Err(_) => None,
    }
}

// The number of tokens of a file, or None where it can't be read or has a fault.
fn count<F: Files>(alloc: Global, files: &mut F, name: &str) -> Option<u32> {
    let text = files.load(alloc, name, LIMIT).ok()?;
    let tokens = tokens(alloc, 1, text.as_slice()).ok()?;
    Some(tokens.len())
}

// Writes a number on a line.
fn write_line<K: Sink>(alloc: Global, out: &mut K, number: u32) -> Result<bool, Memory> {
    let mut buffer = Buffer::new();
    let digits = buffer.format(number);
    let line = format!(in alloc; "{digits}\n")?;
    if line.is_empty() {
        return Ok(false);
    }
    Ok(out.write(line.as_bytes()).is_ok())
}

fn main(rt: HostRuntime) -> ExitCode {
    let alloc = rt.alloc();
    let Some(name) = file_name(&rt) else {
        return ExitCode::from(2);
    };
    let mut files = RealFiles::new(&rt);
    let mut out = RealSink::new(rt.stdout());
    match count(alloc, &mut files, &name) {
        Some(number) => match write_line(alloc, &mut out, number) {
            Ok(true) => ExitCode::SUCCESS,
            _ => ExitCode::from(1),
        },
        None => ExitCode::from(1),
    }
}
