//! The program `autbis`. Its function `main` passes the command line, the file system and the standard streams to the
//! library `autbis`.
#![tactic(auto)]

use autbis::{Disk, main_program};
use autfmt::{FromRead, ToWrite};
use std::env;
use std::process::ExitCode;

fn main(rt: HostRuntime) -> ExitCode {
    let words = env::args(&rt).and_then(|words| Ok(words.collect(rt.alloc())?));
    let (input, output) = (
        &mut FromRead::new(rt.stdin()),
        &mut ToWrite::new(rt.stdout()),
    );
    ExitCode::from(main_program(
        rt.alloc(),
        words,
        &mut Disk::new(&rt),
        input,
        output,
        &mut rt.stderr(),
    ))
}
