//! Texts of certificates.
use crate::bench::loaded;
use crate::compare::same;
use image_file::Loaded;
use plc_base::Profile;
use stack_bound::{Bound, CertificateFault, Found, find, read_certificate, write_certificate};
use std::alloc::Global;
use std::process::Abort;
use std::test::Fail;

const PROGRAM: &str =
    "UC FC1; UC FC2 | OB 35 20 0 { NOP #0 | FC 1 4 0 { NOP #0 | FC 2 8 0 { UC FC1";

/// Texts, and the line and rule of each that isn't read; 0 and 0 of one that is.
static TEXTS: [(&str, u32, u16); 22] = [
    ("", 0, 0),
    ("OB 1 DEPTH 2 BYTES 24\n", 0, 0),
    ("OB 1 DEPTH 2 BYTES 24", 0, 0),
    ("OB 1 DEPTH 2 BYTES 24\r\nFC 2 DEPTH 0 BYTES 0\r\n", 0, 0),
    ("// as it was\n\n\tOB  1\tDEPTH 0002 BYTES 65535 \n", 0, 0),
    ("OB 35 DEPTH 1 BYTES 1\nFC 1 DEPTH 1 BYTES 1\n", 0, 0),
    ("\n\nOB 1", 3, 1),
    (" \n", 1, 1),
    (" // no comment\n", 1, 1),
    ("ob 1 DEPTH 1 BYTES 1\n", 1, 1),
    ("DB 1 DEPTH 1 BYTES 1\n", 1, 1),
    ("OB 1 depth 1 BYTES 1\n", 1, 1),
    ("OB 1 DEPTH 1 BYTE 1\n", 1, 1),
    ("OB 1 DEPTH 1 BYTES 1 1\n", 1, 1),
    ("OB 1 DEPTH +1 BYTES 1\n", 1, 1),
    ("OB 65536 DEPTH 1 BYTES x\n", 1, 1),
    ("OB 1 DEPTH 65536 BYTES 1\n", 1, 2),
    ("FC 9 DEPTH 1 BYTES 65536\n", 1, 2),
    ("FC 9 DEPTH 1 BYTES 1\n", 1, 3),
    ("OB 1 DEPTH 1 BYTES 1\nOB 1 DEPTH 1 BYTES 1\n", 2, 3),
    ("FC 1 DEPTH 1 BYTES 1\nOB 35 DEPTH 1 BYTES 1\n", 2, 3),
    ("FC 2 DEPTH 1 BYTES 1\n\nFC 1 DEPTH 1 BYTES 1\n", 3, 3),
];

/// The bounds of a text as short as those of tests are.
fn bounds_of(
    rt: &impl Abort,
    alloc: Global,
    l: &Loaded,
    text: &[u8],
) -> Result<Vec<Bound>, CertificateFault> {
    assert!(rt; text.len() <= 1_000);
    read_certificate(alloc, l, text)
}

fn fault_of(rt: &impl Abort, alloc: Global, l: &Loaded, text: &str) -> (u32, u16) {
    match bounds_of(rt, alloc, l, text.as_bytes()) {
        Ok(_) => (0, 0),
        Err(CertificateFault::BadLine { line, rule }) => (line, rule),
        Err(CertificateFault::NoMemory) => (0, 99),
    }
}

#[test]
fn texts_are_read_or_not(rt: HostRuntime) -> Result<(), Fail> {
    let l = loaded(rt.alloc(), PROGRAM, Profile::Small)?;
    for (text, line, rule) in &TEXTS {
        same(
            &rt,
            *text,
            fault_of(&rt, rt.alloc(), &l, text),
            (*line, *rule),
        );
    }
    Ok(())
}

/// What is written is read again.
fn read_again(rt: &impl Abort, alloc: Global, l: &Loaded) -> Result<(), Fail> {
    let Found::Fits { list } = find(alloc, l)? else {
        return Ok(());
    };
    let mut text = Vec::new(alloc);
    write_certificate(list.as_slice(), &mut text)?;
    let want =
        "OB 1 DEPTH 3 BYTES 32\nOB 35 DEPTH 1 BYTES 20\nFC 1 DEPTH 1 BYTES 4\nFC 2 DEPTH 2 BYTES 12\n";
    same(rt, "text", text.as_slice(), want.as_bytes());
    match bounds_of(rt, alloc, l, text.as_slice()) {
        Ok(again) => same(rt, "bounds", again.as_slice(), list.as_slice()),
        Err(fault) => same(rt, "fault", fault, CertificateFault::NoMemory),
    }
    Ok(())
}

#[test]
fn certificates_are_written(rt: HostRuntime) -> Result<(), Fail> {
    let l = loaded(rt.alloc(), PROGRAM, Profile::Small)?;
    read_again(&rt, rt.alloc(), &l)
}
