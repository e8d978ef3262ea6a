//! The program `s7`: what it tells of itself, and else the top call over the real files and standard
//! output.
#![tactic(auto)]

use plc_io::{OpenGate, RealFiles, RealSink};
use s7_cli::{question_in, s7_main, write_answer};
use std::alloc::{AllocError, Global};
use std::env;
use std::io::ErrorKind;
use std::process::ExitCode;

/// The exit status of a call for which memory is wanting before it begins.
const NO_MEMORY: u8 = 7;

/// The words of the call, without the program's name. Words that aren't text are none, which the
/// program refuses. Fails where memory is wanting.
fn words(rt: &HostRuntime, alloc: Global) -> Result<Vec<String>, AllocError> {
    match env::args(rt) {
        Ok(all) => all.skip(1).collect(alloc),
        Err(error) if error.kind() == ErrorKind::OutOfMemory => Err(AllocError),
        Err(_) => Ok(Vec::new(alloc)),
    }
}

fn main(rt: HostRuntime) -> ExitCode {
    let alloc = rt.alloc();
    let Ok(words) = words(&rt, alloc) else {
        return ExitCode::from(NO_MEMORY);
    };
    let mut files = RealFiles::new(rt);
    let mut out = RealSink::new(rt);
    let status = match question_in(&words) {
        Some(question) => write_answer(&mut out, question),
        None => s7_main(&rt, alloc, &words, &mut files, &mut out, &OpenGate),
    };
    ExitCode::from(status.code)
}
