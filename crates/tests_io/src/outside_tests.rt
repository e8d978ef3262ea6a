//! Files and sinks in memory and real ones, and the two loops.
use crate::compare::same;
use crate::count_tests::only;
use plc_io::{
    Bytes, Files, Gate, IoFault, MemFiles, MemSink, NamedFile, NamedFiles, OpenGate, RealFiles,
    RealSink, Sink, SureFiles, SureSink, push_all, read_to_limit,
};
use std::alloc::Global;
use std::process::Abort;
use std::test::Fail;

/// A file of the test's own, in the folder where the tests run.
const SCRATCH: &str = "outside_tests_scratch";

/// A name, a place, and what comes: as many bytes as there is room for at most, none from the end on.
type Read = (&'static str, u64, Result<usize, IoFault>);

/// Reads row by row into `into`.
fn are_read<F: Files>(rt: &impl Abort, files: &mut F, into: &mut [u8], reads: &[Read]) {
    for (name, at, answer) in reads {
        let count = files.read_some(*name, *at, into);
        same(rt, (*name, *at), count, *answer);
    }
}

/// A name, a text, and what comes of writing it there.
type Write = (&'static str, &'static str, Result<(), IoFault>);

/// Writes row by row.
fn are_written<F: Files>(rt: &impl Abort, files: &mut F, writes: &[Write]) {
    for (name, text, answer) in writes {
        let written = files.write_whole(*name, text.as_bytes());
        same(rt, (*name, *text), written, *answer);
    }
}

// The second write leaves nothing of the first: five lines of one digit, ten bytes.
static REAL_WRITES: [Write; 3] = [
    (SCRATCH, "a longer text", Ok(())),
    (SCRATCH, "1\n2\n3\n4\n5\n", Ok(())),
    ("no/such/file", "7", Err(IoFault::Failed)),
];

static REAL_READS: [Read; 5] = [
    (SCRATCH, 10, Ok(0)),
    (SCRATCH, 11, Ok(0)),
    (SCRATCH, 7, Ok(3)),
    ("no/such/file", 0, Err(IoFault::Failed)),
    (SCRATCH, 2, Ok(4)),
];

#[test]
fn real_files(rt: HostRuntime) -> Result<(), Fail> {
    let mut files = RealFiles::new(rt);
    let mut into = [0u8; 4];
    are_written(&rt, &mut files, &REAL_WRITES);
    are_read(&rt, &mut files, &mut into, &REAL_READS);
    same(&rt, "the bytes read last", into, *b"2\n3\n");
    std::fs::remove_file(&rt, SCRATCH)?;
    Ok(())
}

/// How many bytes of a file are read to a limit.
fn length_read<F: Files>(
    alloc: Global,
    files: &mut F,
    name: &str,
    limit: usize,
) -> Result<usize, IoFault> {
    match read_to_limit(alloc, files, name, limit) {
        Ok(bytes) => Ok(bytes.len()),
        Err(fault) => Err(fault),
    }
}

/// A large file of the test's own.
const LARGE: &str = "plc_io_tests_large";

/// Four mebibytes, the greatest file that is read.
const LARGEST: usize = 4_194_304;

/// Writes so many bytes.
fn write_large<F: Files>(alloc: Global, files: &mut F) -> Result<(), Fail> {
    let text = vec![in alloc; b'y'; LARGEST]?;
    files.write_whole(LARGE, &text)?;
    Ok(())
}

#[test]
fn large_real_file(rt: HostRuntime) -> Result<(), Fail> {
    let mut files = RealFiles::new(rt);
    write_large(rt.alloc(), &mut files)?;
    let length = length_read(rt.alloc(), &mut files, LARGE, LARGEST);
    std::fs::remove_file(&rt, LARGE)?;
    same(&rt, "the length", length, Ok(LARGEST));
    Ok(())
}

#[test]
fn standard_output(rt: HostRuntime) -> Result<(), Fail> {
    let mut out = RealSink::new(rt);
    same(&rt, "no bytes", out.push(&[]), Ok(0));
    let written = push_all(&mut out, b"written by a test of plc_io\n");
    same(&rt, "a line", written, Ok(()));
    Ok(())
}

#[test]
fn open_gate(rt: HostRuntime) -> Result<(), Fail> {
    let gate = OpenGate;
    gate.pass(4, u64::MAX);
    same(&rt, "the gate after a pass", gate, OpenGate);
    Ok(())
}

/// The files of the next test.
fn put_files(files: &mut MemFiles) -> Result<(), Fail> {
    files.put("a", b"old")?;
    files.put("b", b"")?;
    files.put("a", b"0123456")?;
    Ok(())
}

// The seventh read is to fail.
static READS: [Read; 8] = [
    ("a", 0, Ok(3)),
    ("a", 5, Ok(2)),
    ("a", 7, Ok(0)),
    ("a", u64::MAX, Ok(0)),
    ("b", 0, Ok(0)),
    ("c", 0, Err(IoFault::Failed)),
    ("a", 0, Err(IoFault::Failed)),
    ("a", 4, Ok(3)),
];

#[test]
fn files_in_memory(rt: HostRuntime) -> Result<(), Fail> {
    let mut into = [0u8; 3];
    let mut files = MemFiles::new(rt.alloc());
    put_files(&mut files)?;
    files.fail_reads(only(7));
    are_read(&rt, &mut files, &mut into, &READS);
    same(&rt, "the bytes read last", into, *b"456");
    let counts = (files.reads.made, files.reads.failed);
    same(&rt, "the counts of reads", counts, (8, 2));
    Ok(())
}

static WRITES: [Write; 2] = [("c", "new", Ok(())), ("c", "newer", Err(IoFault::Failed))];

#[test]
fn writes_in_memory(rt: HostRuntime) -> Result<(), Fail> {
    let mut files = MemFiles::new(rt.alloc());
    files.fail_writes(only(2));
    are_written(&rt, &mut files, &WRITES);
    same(&rt, "the file", files.files.get("c"), Some(&b"new"[..]));
    let counts = (files.writes.made, files.writes.failed);
    same(&rt, "the counts of writes", counts, (2, 1));
    Ok(())
}

#[test]
fn sure_files(rt: HostRuntime) -> Result<(), Fail> {
    let mut into = [0u8; 3];
    let mut files = SureFiles::new(rt.alloc());
    files.put("a", b"01234")?;
    same(&rt, "the write", files.write_whole("b", b"new"), Ok(()));
    let reads = [("a", 3, Ok(2)), ("b", 0, Ok(3)), ("c", 0, Ok(0))];
    are_read(&rt, &mut files, &mut into, &reads);
    same(&rt, "the bytes read last", into, *b"new");
    Ok(())
}

#[test]
fn files_from_a_vector(rt: HostRuntime) -> Result<(), Fail> {
    let mut files = NamedFiles::new(rt.alloc());
    files.put("a", b"x")?;
    let files = NamedFiles::from_vec(files.into_vec());
    same(&rt, "the file", files.get("a"), Some(&b"x"[..]));
    same(&rt, "the count of files", files.as_slice().len(), 1);
    Ok(())
}

#[test]
fn bytes_from_a_vector(rt: HostRuntime) -> Result<(), Fail> {
    let mut bytes = Bytes::from_vec(Vec::from_slice(rt.alloc(), b"ab")?);
    bytes.append(b"c")?;
    let bytes = bytes.into_vec();
    same(&rt, "the bytes", bytes.as_slice(), b"abc".as_slice());
    let empty = Bytes::new(rt.alloc()).into_vec();
    same(&rt, "no bytes", empty.as_slice(), b"".as_slice());
    Ok(())
}

#[test]
fn a_file_with_its_name(rt: HostRuntime) -> Result<(), Fail> {
    let file = NamedFile::new(rt.alloc(), "a", b"x")?;
    let found = (file.name(), file.bytes());
    same(&rt, "the file", found, ("a", b"x".as_slice()));
    Ok(())
}

// One byte a push: eleven bytes, eleven pushes.
#[test]
fn a_sink_that_takes_ones(rt: HostRuntime) -> Result<(), Fail> {
    let mut out = MemSink::new(rt.alloc(), 1);
    let text = b"END 10 RUN\n".as_slice();
    same(&rt, "the push", push_all(&mut out, text), Ok(()));
    same(&rt, "taken", out.taken.as_slice(), text);
    same(&rt, "the count of pushes", out.pushes.made, 11);
    Ok(())
}

// Three bytes a push, of which the third is to fail.
#[test]
fn a_sink_that_fails(rt: HostRuntime) -> Result<(), Fail> {
    let mut out = MemSink::new(rt.alloc(), 3);
    out.fail_pushes(only(3));
    let fault = push_all(&mut out, b"0123456789");
    same(&rt, "the push", fault, Err(IoFault::Failed));
    same(&rt, "taken", out.taken.as_slice(), b"012345".as_slice());
    Ok(())
}

#[test]
fn a_sure_sink(rt: HostRuntime) -> Result<(), Fail> {
    let mut out = SureSink::new(rt.alloc());
    let text = b"0123456789".as_slice();
    same(&rt, "the push", out.push(text), Ok(10));
    same(&rt, "taken", out.taken.as_slice(), text);
    Ok(())
}

/// A file of so many bytes.
fn long_file(alloc: Global, length: usize) -> Result<MemFiles, Fail> {
    let bytes = vec![in alloc; b'x'; length]?;
    let mut files = MemFiles::new(alloc);
    files.put("source", &bytes)?;
    Ok(files)
}

// The length of the file, the limit, and how many bytes come: those of the file, but at most one past the
// limit.
static LENGTHS: [(usize, usize, usize); 10] = [
    (0, 0, 0),
    (0, 5, 0),
    (5, 0, 1),
    (5, 4, 5),
    (5, 5, 5),
    (6, 4, 5),
    (65_536, 65_536, 65_536),
    (65_537, 65_536, 65_537),
    (200_000, 131_071, 131_072),
    (200_000, usize::MAX, 200_000),
];

fn have_lengths(
    rt: &impl Abort,
    alloc: Global,
    rows: &[(usize, usize, usize)],
) -> Result<(), Fail> {
    for (length, limit, count) in rows {
        let mut files = long_file(alloc, *length)?;
        let read = length_read(alloc, &mut files, "source", *limit);
        same(rt, (*length, *limit), read, Ok(*count));
    }
    Ok(())
}

#[test]
fn reading_to_a_limit(rt: HostRuntime) -> Result<(), Fail> {
    have_lengths(&rt, rt.alloc(), &LENGTHS)
}

// The first two reads give the text and its end, and the fourth is the end of the text again, which is to
// fail.
static FAILURES: [(&str, Result<usize, IoFault>); 3] = [
    ("source", Ok(8)),
    ("source", Err(IoFault::Failed)),
    ("symbols", Err(IoFault::Failed)),
];

fn are_answered(
    rt: &impl Abort,
    alloc: Global,
    files: &mut MemFiles,
    rows: &[(&str, Result<usize, IoFault>)],
) {
    for (name, answer) in rows {
        let read = length_read(alloc, files, *name, 100);
        same(rt, *name, read, *answer);
    }
}

#[test]
fn failures_while_reading_to_a_limit(rt: HostRuntime) -> Result<(), Fail> {
    let mut files = MemFiles::new(rt.alloc());
    files.put("source", b"A I 0.0;")?;
    files.fail_reads(only(4));
    are_answered(&rt, rt.alloc(), &mut files, &FAILURES);
    Ok(())
}
