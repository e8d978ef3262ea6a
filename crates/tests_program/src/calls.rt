//! Calls of the program over files and a sink in memory.
use arrayvec::ArrayVec;
use plc_io::{Files, Gate, MemFiles, Sink};
use s7_cli::s7_main;
use std::alloc::{AllocError, Global};
use std::sync::Wait;
use std::test::Fail;
use std::thread::Threads;

/// OB 1 with one rung: output 4.0 is input 0.0 and not input 0.1.
pub(crate) const RUNG: &[u8] =
    b"ORGANIZATION_BLOCK OB 1\nBEGIN\nA I 0.0;\nAN I 0.1;\n= Q 4.0;\nEND_ORGANIZATION_BLOCK\n";

/// Input 0.0 comes on, then the program starts, runs once, and starts again.
pub(crate) const ONE_RUN: &[u8] = b"in 0 01\nstep 6\n";

/// What is written of that.
pub(crate) const ONE_RUN_TEXT: &[u8] = b"@7 PQ 4 = 01\nEND 7 RUN\n";

/// The calls that are to fail: the one of this number alone, or none where it is 0.
pub(crate) fn only(number: u64) -> ArrayVec<u64, 16> {
    let mut calls = ArrayVec::new();
    calls.push(number);
    calls
}

/// A file's name and its bytes.
pub(crate) type NamedBytes = (&'static str, &'static [u8]);

/// Puts each of these files.
fn put_all(files: &mut MemFiles, contents: &[NamedBytes]) -> Result<(), Fail> {
    for (name, bytes) in contents {
        files.put(*name, *bytes)?;
    }
    Ok(())
}

/// These files in memory.
pub(crate) fn files_of(alloc: Global, contents: &[NamedBytes]) -> Result<MemFiles, Fail> {
    let mut files = MemFiles::new(alloc);
    put_all(&mut files, contents)?;
    Ok(files)
}

/// The words of a call in the form that the program takes.
pub(crate) fn list_of(alloc: Global, words: &[&str]) -> Result<Vec<String>, AllocError> {
    let mut list = Vec::new(alloc);
    for word in words {
        list.push(String::from_str(alloc, *word)?)?;
    }
    Ok(list)
}

/// The status of a call with these words.
pub(crate) fn call<R: Threads + Wait + Sync, F: Files, K: Sink, G: Gate + Sync>(
    rt: &R,
    alloc: Global,
    words: &[&str],
    files: &mut F,
    out: &mut K,
    gate: &G,
) -> Result<u8, AllocError> {
    let list = list_of(alloc, words)?;
    Ok(s7_main(rt, alloc, &list, files, out, gate).code)
}
