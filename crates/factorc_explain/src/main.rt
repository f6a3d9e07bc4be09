//! The program that explains refusals: the real files and streams round its one call.
#![tactic(auto)]

use fac_explainer::program_on_streams;
use fac_io::{RealFiles, RealSink};
use std::env;
use std::process::ExitCode;

fn main(rt: HostRuntime) -> ExitCode {
    let mut files = RealFiles::new(&rt);
    let mut out = RealSink::new(rt.stdout());
    let mut notes = RealSink::new(rt.stderr());
    program_on_streams(
        &rt,
        rt.alloc(),
        env::args(&rt),
        &mut files,
        &mut out,
        &mut notes,
    )
}
