//! A program that tests integers: it reads lines of the form `read TEXT` or `SIGN INTEGER INTEGER`, where a sign is one of
//! `+ - * / % <<`, and tells behind each line what it comes to.
//!
//! `stdout` was written from the rules of the language, by hand, and where 64 bits end by integers of any size in another language. So it
//! shows that the definitions of integers mean what was meant.
#![tactic(auto)]

use fac_base::{Memory, Text};
use fac_num::{NumFault, add, mul, quot, read_int, rem, shl, sub, write_int};
use std::alloc::Global;
use std::io;
use std::io::ErrorKind;

// What a sign makes of two integers. None where it stands for no call.
fn computed(sign: &str, a: i128, b: i128) -> Option<Option<i128>> {
    match sign {
        "+" => Some(add(a, b)),
        "-" => Some(sub(a, b)),
        "*" => Some(mul(a, b)),
        "/" => Some(quot(a, b)),
        "%" => Some(rem(a, b)),
        "<<" => Some(shl(a, b)),
        _ => None,
    }
}

// What a sign makes of the integers of two texts.
fn computed_texts(sign: &str, texts: &str) -> Option<Option<i128>> {
    let (a, b) = texts.split_once(' ')?;
    computed(sign, read_int(a).ok()?, read_int(b).ok()?)
}

// Tells an integer.
fn tell(alloc: Global, value: i128) -> Result<Text, Memory> {
    let mut told = Text::new(alloc);
    write_int(value, &mut told)?;
    Ok(told)
}

// Tells the integer of a text, or why it has none.
fn read_told(alloc: Global, text: &str) -> Result<Text, Memory> {
    match read_int(text) {
        Ok(value) => tell(alloc, value),
        Err(NumFault::NotNumber) => Text::from_str(alloc, "no integer"),
        Err(NumFault::TooWide) => Text::from_str(alloc, "too wide"),
    }
}

// Tells what a line comes to.
fn told(alloc: Global, line: &str) -> Result<Text, Memory> {
    let Some((sign, texts)) = line.split_once(' ') else {
        return Text::from_str(alloc, "?");
    };
    if sign == "read" {
        return read_told(alloc, texts);
    }
    match computed_texts(sign, texts) {
        Some(Some(value)) => tell(alloc, value),
        Some(None) => Text::from_str(alloc, "none"),
        None => Text::from_str(alloc, "?"),
    }
}

fn main(rt: HostRuntime) -> io::Result<()> {
    let alloc = rt.alloc();
    for line in rt.lines(alloc) {
        let line = line?;
        let Ok(text) = told(alloc, line.as_str()) else {
            return Err(io::Error::from(ErrorKind::OutOfMemory));
        };
        println!(rt; "{line} -> {}", text.as_str())?;
    }
    Ok(())
}
