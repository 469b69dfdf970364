//! The program `cuestore`: what operators run on the configuration store.
#![tactic(auto)]

use cue_command::run;
use cue_program::Output;
use std::io::BufWriter;
use std::process::ExitCode;

/// How many bytes of standard output are gathered before they are written.
const ROOM: usize = 65536;

fn main(mut rt: HostRuntime) -> ExitCode {
    let mut input = rt.stdin();
    let mut faults = Output::new(rt.stderr());
    let status = match BufWriter::with_capacity(rt.alloc(), ROOM, rt.stdout()) {
        Ok(out) => run(&mut rt, &mut input, &mut Output::new(out), &mut faults),
        // Without memory for that room each piece is written at once.
        Err(_) => {
            let mut out = Output::new(rt.stdout());
            run(&mut rt, &mut input, &mut out, &mut faults)
        }
    };
    ExitCode::from(status)
}
