//! Commands by themselves, with the names of their files in place of words, and the law of words.
use crate::calls::{NamedBytes, ONE_RUN, ONE_RUN_TEXT, RUNG, files_of};
use crate::compare::same;
use plc_io::{Files, MemSink, Sink};
use s7_cli::{cmd_check, cmd_go, law_of_words};
use std::alloc::Global;
use std::test::Fail;

static FILES: [NamedBytes; 2] = [("source", RUNG), ("history", ONE_RUN)];

fn check_status<F: Files, K: Sink>(alloc: Global, files: &mut F, out: &mut K) -> u8 {
    cmd_check(alloc, "source", None, false, files, out).code
}

fn go_status<F: Files, K: Sink>(alloc: Global, files: &mut F, out: &mut K) -> u8 {
    cmd_go(alloc, "source", "history", None, false, files, out).code
}

#[test]
fn check_by_itself(rt: HostRuntime) -> Result<(), Fail> {
    let mut files = files_of(rt.alloc(), &FILES)?;
    let mut out = MemSink::new(rt.alloc(), 64);
    let status = check_status(rt.alloc(), &mut files, &mut out);
    let answer = (status, out.taken.as_slice());
    same(&rt, "check", answer, (0, b"OK\n".as_slice()));
    Ok(())
}

#[test]
fn go_by_itself(rt: HostRuntime) -> Result<(), Fail> {
    let mut files = files_of(rt.alloc(), &FILES)?;
    let mut out = MemSink::new(rt.alloc(), 64);
    let status = go_status(rt.alloc(), &mut files, &mut out);
    let answer = (status, out.taken.as_slice());
    same(&rt, "go", answer, (0, ONE_RUN_TEXT));
    Ok(())
}

#[test]
fn words_have_their_law() {
    law_of_words();
}
