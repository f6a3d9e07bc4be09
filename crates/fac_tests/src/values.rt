//! Tests of the small types: that they grow and are copied where there is memory.
use fac_base::{Bytes, Duplicate, List, Memory, Text};
use std::alloc::Global;
use std::test::Fail;

// Whether bytes that grow and are copied are as they should be.
fn bytes_grow(alloc: Global) -> Result<bool, Memory> {
    let mut bytes = Bytes::from_slice(alloc, b"ab".as_slice())?;
    bytes.push(b'c')?;
    bytes.extend(b"de".as_slice())?;
    Ok(bytes.copy(alloc)?.as_slice() == b"abcde".as_slice())
}

// Whether a text that does is.
fn texts_grow(alloc: Global) -> Result<bool, Memory> {
    let mut text = Text::from_str(alloc, "ab")?;
    text.push_str("c")?;
    text.push_ascii(b'd')?;
    Ok(text.copy(alloc)?.as_str() == "abcd")
}

// Whether a list that grows is.
fn lists_grow(alloc: Global) -> Result<bool, Memory> {
    let mut list = List::from_vec(Vec::from_slice(alloc, &[4u32, 5])?)?;
    list.push(6)?;
    Ok(list.as_slice() == [4u32, 5, 6].as_slice())
}

#[test]
fn bytes_texts_and_lists_grow(rt: HostRuntime) -> Result<(), Fail> {
    let alloc = rt.alloc();
    assert!(rt; bytes_grow(alloc)?);
    assert!(rt; texts_grow(alloc)?);
    assert!(rt; lists_grow(alloc)?);
    Ok(())
}
