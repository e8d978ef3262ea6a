//! Programs written as images, and verified without one.

use crate::building::{Data, Parameter, db, fb, fc, image, ob};
use crate::compare::same;
use crate::images::EXAMPLE;
use flat_code::Program;
use image_file::{load, verify, write_image};
use std::alloc::Global;
use std::process::Abort;
use std::test::Fail;

/// A program is written as this image.
fn is_written_as(
    rt: &impl Abort,
    alloc: Global,
    what: &str,
    program: &Program,
    image: &[u8],
) -> Result<(), Fail> {
    let written = write_image(alloc, program)?;
    same(rt, what, written.as_slice(), image);
    Ok(())
}

/// The program of an image is written as that image.
fn is_written_again(rt: &impl Abort, alloc: Global, what: &str, image: &[u8]) -> Result<(), Fail> {
    let program = program_of(alloc, image)?;
    is_written_as(rt, alloc, what, &program, image)
}

/// The program of bytes.
fn program_of(alloc: Global, bytes: &[u8]) -> Result<Program, Fail> {
    let loaded = load(alloc, bytes)?;
    let program = loaded.program(alloc)?;
    Ok(program)
}

/// The program of bytes, once it was verified.
fn verified(alloc: Global, bytes: &[u8]) -> Result<Program, Fail> {
    let program = program_of(alloc, bytes)?;
    let loaded = verify(alloc, program)?;
    let program = loaded.program(alloc)?;
    Ok(program)
}

/// The example image is what its program is written as, and its program verifies.
#[test]
fn example_is_written(rt: HostRuntime) -> Result<(), Fail> {
    is_written_again(&rt, rt.alloc(), "loaded", &EXAMPLE)?;
    let program = verified(rt.alloc(), &EXAMPLE)?;
    is_written_as(&rt, rt.alloc(), "verified", &program, &EXAMPLE)
}

/// An image with each kind of record: parameters, an instance, names.
fn all_records(alloc: Global) -> Result<Vec<u8>, Fail> {
    let params: &'static [Parameter] = &[(1, 3, 0), (2, 4, 4), (3, 1, 8)];
    let blocks = [
        ob("F8 0D 03 07FF 0005; FB 00"),
        fc(0, &[(1, 1, 0), (2, 2, 0)], "90 05 00 01; FB 00"),
        fb(2047, 10, params, "A0 02 85 03 0000 00; FB 00"),
    ];
    let instance = Data {
        number: 5,
        instance: 2048,
        len: 300,
    };
    let names = [
        "02 41 42 81 01 0102 07",
        "03 41 43 44 82 03 0002 00",
        "01 FF 83 04 FFFF 00",
    ];
    let image = image(alloc, &blocks, &[instance, db(2047, 0)], &names)?;
    Ok(image)
}

/// An image with each kind of record, and one with no record at all, are written again byte by byte.
#[test]
fn records_are_written(rt: HostRuntime) -> Result<(), Fail> {
    let bytes = all_records(rt.alloc())?;
    is_written_again(&rt, rt.alloc(), "all records", bytes.as_slice())
}

#[test]
fn no_record_is_written(rt: HostRuntime) -> Result<(), Fail> {
    let bytes = image(rt.alloc(), &[], &[], &[])?;
    is_written_again(&rt, rt.alloc(), "no record", bytes.as_slice())
}
