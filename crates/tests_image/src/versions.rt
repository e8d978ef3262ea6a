//! The two versions of images, and the profiles that they give.

use crate::building::have_fault;
use crate::compare::same;
use crate::images::EXAMPLE;
use flat_code::Program;
use image_file::{Loaded, load, load_written, load_written2, verify, write_image, write_image2};
use plc_base::Profile;
use std::alloc::Global;
use std::process::Abort;
use std::test::Fail;

/// The example with this version and the field behind it.
fn example_of(version: u16, profile: u16) -> [u8; 80] {
    let mut bytes = EXAMPLE;
    let [a, b] = version.to_be_bytes();
    let [c, d] = profile.to_be_bytes();
    bytes[4] = a;
    bytes[5] = b;
    bytes[6] = c;
    bytes[7] = d;
    bytes
}

/// Version, the field behind it, and the fault: offset and code, 0 and 0 for none.
static VERSIONS: [(u16, u16, u32, u16); 12] = [
    (1, 0, 0, 0),
    (2, 1, 0, 0),
    (2, 2, 0, 0),
    (2, 0, 6, 4),
    (2, 3, 6, 4),
    (2, 0x0102, 6, 4),
    (1, 1, 6, 4),
    (1, 2, 6, 4),
    (0, 0, 4, 2),
    // After another version the field behind it has a fault too, which isn't the least.
    (3, 0, 4, 2),
    (3, 2, 4, 2),
    (0x0102, 1, 4, 2),
];

#[test]
fn versions(rt: HostRuntime) {
    for row in &VERSIONS {
        let (version, profile, at, code) = *row;
        let bytes = example_of(version, profile);
        have_fault(&rt, rt.alloc(), (version, profile), &bytes, (at, code));
    }
}

/// The profile with which bytes are loaded.
fn profile_in(alloc: Global, bytes: &[u8]) -> Result<Profile, Fail> {
    let loaded = load(alloc, bytes)?;
    Ok(loaded.profile())
}

/// Version, the field behind it, and the profile.
static PROFILES: [(u16, u16, Profile); 3] = [
    (1, 0, Profile::Small),
    (2, 1, Profile::Small),
    (2, 2, Profile::Large),
];

#[test]
fn profiles(rt: HostRuntime) -> Result<(), Fail> {
    for row in &PROFILES {
        let (version, field, profile) = *row;
        let found = profile_in(rt.alloc(), &example_of(version, field))?;
        same(&rt, (version, field), found, profile);
    }
    Ok(())
}

/// A program is the example's.
fn is_of_example(rt: &impl Abort, alloc: Global, program: &Program) -> Result<(), Fail> {
    let written = write_image(alloc, program)?;
    same(rt, "the example", written.as_slice(), EXAMPLE.as_slice());
    Ok(())
}

/// A loaded program is the example's, with a profile.
fn is_example(
    rt: &impl Abort,
    alloc: Global,
    loaded: &Loaded,
    profile: Profile,
) -> Result<(), Fail> {
    same(rt, "the profile", loaded.profile(), profile);
    let program = loaded.program(alloc)?;
    is_of_example(rt, alloc, &program)
}

/// The program of bytes.
fn program_of(alloc: Global, bytes: &[u8]) -> Result<Program, Fail> {
    let loaded = load(alloc, bytes)?;
    let program = loaded.program(alloc)?;
    Ok(program)
}

/// The image of version 2 with a profile is the example's with this field.
fn is_written_with(
    rt: &impl Abort,
    alloc: Global,
    program: &Program,
    profile: Profile,
    field: u16,
) -> Result<(), Fail> {
    let written = write_image2(alloc, program, profile)?;
    let wanted = example_of(2, field);
    same(rt, field, written.as_slice(), wanted.as_slice());
    Ok(())
}

/// Version 2 differs from version 1 in the bytes 5 and 7 alone.
#[test]
fn written_in_version_2(rt: HostRuntime) -> Result<(), Fail> {
    let program = program_of(rt.alloc(), &EXAMPLE)?;
    are_written(&rt, rt.alloc(), &program)
}

fn are_written(rt: &impl Abort, alloc: Global, program: &Program) -> Result<(), Fail> {
    is_written_with(rt, alloc, program, Profile::Small, 1)?;
    is_written_with(rt, alloc, program, Profile::Large, 2)
}

/// The image of version 1, loaded again.
fn is_loaded_again(rt: &impl Abort, alloc: Global, program: &Program) -> Result<(), Fail> {
    let loaded = load_written(alloc, program)?;
    is_example(rt, alloc, &loaded, Profile::Small)
}

/// The image of version 2 with a profile, loaded again.
fn is_loaded_with(
    rt: &impl Abort,
    alloc: Global,
    program: &Program,
    profile: Profile,
) -> Result<(), Fail> {
    let loaded = load_written2(alloc, program, profile)?;
    is_example(rt, alloc, &loaded, profile)
}

fn are_loaded(rt: &impl Abort, alloc: Global, program: &Program) -> Result<(), Fail> {
    is_loaded_again(rt, alloc, program)?;
    is_loaded_with(rt, alloc, program, Profile::Large)?;
    is_loaded_with(rt, alloc, program, Profile::Small)
}

#[test]
fn written_and_loaded(rt: HostRuntime) -> Result<(), Fail> {
    let program = program_of(rt.alloc(), &EXAMPLE)?;
    are_loaded(&rt, rt.alloc(), &program)
}

/// The program of an image with the profile Large, verified without it.
fn verified_alone(alloc: Global) -> Result<Loaded, Fail> {
    let program = program_of(alloc, &example_of(2, 2))?;
    let verified = verify(alloc, program)?;
    Ok(verified)
}

#[test]
fn verified_profile(rt: HostRuntime) -> Result<(), Fail> {
    let verified = verified_alone(rt.alloc())?;
    is_example(&rt, rt.alloc(), &verified, Profile::Small)
}

#[test]
fn another_profile(rt: HostRuntime) -> Result<(), Fail> {
    let large = verified_alone(rt.alloc())?.with_profile(Profile::Large);
    is_example(&rt, rt.alloc(), &large, Profile::Large)
}
