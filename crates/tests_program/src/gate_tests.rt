//! The gate is for the workers of a live run: no other command passes it.
use crate::calls::{NamedBytes, ONE_RUN, RUNG, call, files_of};
use crate::compare::same;
use plc_io::{Gate, MemFiles, MemSink};
use std::alloc::Global;
use std::process::Abort;
use std::sync::Wait;
use std::sync::atomic::{AtomicBool, Ordering};
use std::test::Fail;
use std::thread::Threads;

/// A gate that remembers that somebody passed it.
#[derive(Drop)]
struct WatchedGate {
    passed: AtomicBool,
}

impl Gate for WatchedGate {
    fn pass(&self, _who: u8, _turn: u64) {
        self.passed.store(true, Ordering::SeqCst);
    }
}

static FILES: [NamedBytes; 2] = [("source", RUNG), ("history", ONE_RUN)];

// Those of images have the one that `compile` writes, and `recheck` the certificate of `bound`.
static COMMANDS: [&[&str]; 11] = [
    &["go", "source", "history"],
    &["check", "source"],
    &["german", "source", "german"],
    &["english", "german", "english"],
    &["compile", "source", "image"],
    &["run", "image", "history"],
    &["upgrade", "image", "image"],
    &["list", "image", "text", "names"],
    &["bound", "image", "certificate"],
    &["recheck", "image", "certificate"],
    &["gen", "1"],
];

/// Calls with these words, and compares whether the gate was passed.
fn passes<R: Abort + Threads + Wait + Sync>(
    rt: &R,
    alloc: Global,
    words: &[&str],
    files: &mut MemFiles,
    gate: &WatchedGate,
) {
    let mut out = MemSink::new(alloc, 1000);
    let code = call(rt, alloc, words, files, &mut out, gate);
    let passed = gate.passed.load(Ordering::SeqCst);
    same(rt, words, (code, passed), (Ok(0), false));
}

fn none_passes<R: Abort + Threads + Wait + Sync>(
    rt: &R,
    alloc: Global,
    commands: &[&[&str]],
    files: &mut MemFiles,
    gate: &WatchedGate,
) {
    for words in commands {
        passes(rt, alloc, *words, files, gate);
    }
}

#[test]
fn no_command_passes_the_gate(rt: HostRuntime) -> Result<(), Fail> {
    let mut files = files_of(rt.alloc(), &FILES)?;
    let gate = WatchedGate {
        passed: AtomicBool::new(false),
    };
    none_passes(&rt, rt.alloc(), &COMMANDS, &mut files, &gate);
    // the gate does remember
    gate.pass(1, 1);
    let passed = gate.passed.load(Ordering::SeqCst);
    same(&rt, "the pass by hand", passed, true);
    Ok(())
}
