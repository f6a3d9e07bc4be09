//! Tests of how many bytes what is kept often takes.
use fac_store::Value;
use std::mem::size_of;

#[test]
fn a_value_takes_sixteen_bytes(rt: HostRuntime) {
    assert!(rt; size_of::<Value>() == 16);
}
