//! The program again, with a stored run of the library and its tests: all files of `data/`, which `lib` at the top is. It reads its input, to its end and
//! once more.
#![tactic(auto)]

use fac_io::{RealFiles, RealSink, RealSource};
use fac_lines::Channels;
use fac_program::program_on_streams;
use std::env;
use std::process::ExitCode;

fn main(rt: HostRuntime) -> ExitCode {
    let mut files = RealFiles::new(&rt);
    let mut channels = Channels::new(
        rt.alloc(),
        RealSource::new(rt.stdin()),
        RealSink::new(rt.stdout()),
    );
    let mut notes = RealSink::new(rt.stderr());
    program_on_streams(
        &rt,
        rt.alloc(),
        env::args(&rt),
        &mut files,
        &mut channels,
        &mut notes,
    )
}
