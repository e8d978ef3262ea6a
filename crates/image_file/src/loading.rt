//! Bytes checked as an image: read in one pass, and then the ops of each block.
ghost use Rattle.std.specs.Prelude.{ℕ, ◌≡◌, ◌++◌, ◌∷◌, [], ◌+◌, ◌<◌, ◌^◌, length, map, get_or, IfOk, IfErr, IsSome, None};
ghost use Rattle.std.specs.Option.{option_map};
ghost use Rattle.flat_code.specs.Blocks.{signature_of, block_faults};
ghost use Rattle.flat_code.specs.Image.{IsProgram, read_image};
ghost use Rattle.flat_code.specs.Loading.{lens_of, blocks_of, op_faults_of_blocks, faults_of, Verifies};
ghost use Rattle.flat_code.specs.Stamps.{profile_of};
ghost use Rattle.flat_code.specs.declared.stamps.Stamp.TheVariants as stamps;
ghost use Rattle.image_file.specs.Images.{GivesBack, IsImageOf};
ghost use Rattle.image_file.specs.OpChecking.{environment_of};
ghost use Rattle.image_file.specs.Least.{with_faults};
ghost use Rattle.image_file.specs.Refusing.{IsLoadError};
ghost use Rattle.image_file.specs.Running.{located_block, found_values, checked_faults, run_of_read, log_of, program_read, HoldsAll, IsCheckResult, IsFoundRun};
ghost use Rattle.image_file.specs.Typing.{HaveFewParameters};

use crate::environments::{BlockEnvironment, DataLens, SignatureRead, Signatures};
use crate::faults::LoadFault;
use crate::loaded::Loaded;
use crate::reader::Reader;
use crate::records::{BlockRead, FoundRead, LocatedBlock, NameRead};
use crate::refusing::LoadError;
use crate::stops::Stop;
use crate::typing::program;
use crate::verifying::check_block;
use crate::writing::write_stamped;
use flat_code::{DataBlock, Program, Stamp};
use plc_base::{NoMemory, Profile};
use std::alloc::{AllocError, Global};

/// What a CALL sees of a block.
fn signature(alloc: Global, block: &BlockRead) -> Result<SignatureRead, NoMemory>
    ensures { IfOk result (λ s. s ≡ signature_of block.now) }
{
    let params = Vec::from_slice(alloc, block.params.as_slice())?;
    Ok(SignatureRead {
        kind: block.kind,
        number: block.number,
        instance_len: block.instance_len,
        params,
    })
}

fn signatures(alloc: Global, blocks: &[LocatedBlock]) -> Result<Signatures, NoMemory>
    ensures { IfOk result
        (λ s. s ≡ map signature_of (blocks_of (map located_block blocks.now))) }
{
    let mut signatures = Vec::new(alloc);
    for started in blocks {
        let signature = signature(alloc, &started.block)?;
        signatures.push(signature)?;
    }
    let signatures = Signatures::new(alloc, signatures)?;
    Ok(signatures)
}

/// The number of a data block and its length.
fn key_of(block: &DataBlock) -> (u16, usize)
    ensures { result ≡ (block.now.number, length block.now.bytes) }
{
    (block.number, block.bytes.len())
}

pub(crate) fn lens_of(alloc: Global, blocks: &[DataBlock]) -> Result<DataLens, NoMemory>
    ensures { IfOk result (λ d. d ≡ lens_of blocks.now) }
{
    let mut lens = Vec::new(alloc);
    for block in blocks {
        lens.push(key_of(block))?;
    }
    let lens = DataLens::new(alloc, lens)?;
    Ok(lens)
}

/// The numbers and lengths of the data blocks, if all blocks were read.
fn data_lens(alloc: Global, datas: &Option<Vec<DataBlock>>) -> Result<Option<DataLens>, NoMemory>
    ensures { IfOk result (λ l. l ≡ option_map (λ v. lens_of v.items) datas.now) }
{
    match datas {
        None => Ok(None),
        Some(blocks) => {
            let lens = lens_of(alloc, blocks.as_slice())?;
            Ok(Some(lens))
        }
    }
}

/// The lengths of the data blocks, if they are there, by reference.
fn ref_of(lens: &Option<DataLens>) -> Option<&DataLens>
    ensures { option_map (λ d. d.now) result ≡ lens.now }
{
    match lens {
        None => None,
        Some(lens) => Some(lens),
    }
}

/// The lesser of the fault so far and those of the ops of blocks.
fn check_blocks(
    alloc: Global,
    signatures: &Signatures,
    lens: &Option<DataLens>,
    blocks: &[LocatedBlock],
    least: Option<LoadFault>,
) -> Result<Option<LoadFault>, NoMemory>
    requires { signatures.now ≡ map signature_of (blocks_of (map located_block blocks.now)) }
    ensures { IfOk result (λ l. l
        ≡ with_faults least (op_faults_of_blocks lens.now (blocks_of
        (map located_block blocks.now)) (map located_block blocks.now))) }
{
    let mut least = least;
    for started in blocks {
        least = check_located_block(alloc, signatures, lens, started, least)?;
    }
    Ok(least)
}

/// The lesser of the fault so far and those of the ops of a block.
fn check_located_block(
    alloc: Global,
    signatures: &Signatures,
    lens: &Option<DataLens>,
    started: &LocatedBlock,
    least: Option<LoadFault>,
) -> Result<Option<LoadFault>, NoMemory>
    ensures { IfOk result (λ l. l ≡ with_faults least (block_faults (record {
      kind = started.now.block.kind;
      local_len = started.now.block.local_len;
      params = started.now.block.params;
      blocks = signatures.now;
      data_lens = lens.now;
    }) started.now.start started.now.block.code)) }
{
    let block = &started.block;
    let environment = BlockEnvironment {
        kind: block.kind,
        local_len: block.local_len,
        params: block.params.as_slice(),
        blocks: signatures,
        data_lens: ref_of(lens),
    };
    check_block(
        alloc,
        &environment,
        started.start,
        block.code.as_slice(),
        least,
    )
}

/// The records of an image that was read whole, with its version and profile.
#[derive(Drop)]
pub(crate) struct ImageRead {
    pub stamp: Stamp,
    pub blocks: Vec<LocatedBlock>,
    pub data_blocks: Vec<DataBlock>,
    pub names: Vec<NameRead>,
}

/// Bytes that were read and checked: the least of their faults, or all that they hold.
#[derive(Drop)]
pub(crate) enum CheckResult {
    Faulty { fault: LoadFault },
    Clean { image: ImageRead },
}

/// The version and profile and the names, or none where reading ended at a fault.
fn found_by(alloc: Global, reader: &mut Reader) -> Result<Option<FoundRead>, NoMemory>
    requires { reader.old.at ≡ 0 }
    ensures { IfOk result (λ f. IsFoundRun (option_map found_values f) reader.new (run_of_read
        (read_image reader.old.rest.now) (log_of reader.old))) }
{
    match reader.image(alloc) {
        Ok(found) => Ok(Some(found)),
        Err(Stop::AtFault) => Ok(None),
        Err(Stop::NoMemory) => Err(AllocError),
    }
}

/// The least of the faults so far and those of the ops of the blocks that were read.
fn least_fault(alloc: Global, reader: &Reader) -> Result<Option<LoadFault>, NoMemory>
    ensures { IfOk result
        (λ l. l ≡ with_faults reader.now.least (checked_faults (log_of reader.now))) }
{
    let blocks = reader.blocks.as_slice();
    let signatures = signatures(alloc, blocks)?;
    let lens = data_lens(alloc, &reader.datas)?;
    check_blocks(alloc, &signatures, &lens, blocks, reader.least)
}

/// What was read, whose least fault is known. Where there is none, all was read.
fn outcome_of(
    least: Option<LoadFault>,
    blocks: Vec<LocatedBlock>,
    datas: Option<Vec<DataBlock>>,
    found: Option<FoundRead>,
) -> CheckResult
    requires found { least ≡ None → IsSome found }
    requires datas { least ≡ None → IsSome datas }
    ensures { HoldsAll least blocks.items (option_map (λ v. v.items) datas) found result }
{
    match least {
        Some(fault) => CheckResult::Faulty { fault },
        None => match found {
            None => unreachable!(),
            Some(found) => match datas {
                None => unreachable!(),
                Some(data_blocks) => CheckResult::Clean {
                    image: ImageRead {
                        stamp: found.stamp,
                        blocks,
                        data_blocks,
                        names: found.names,
                    },
                },
            },
        },
    }
}

/// Reads bytes as an image and checks them.
fn check(alloc: Global, bytes: &[u8]) -> Result<CheckResult, NoMemory>
    ensures { IfOk result (λ j. IsCheckResult bytes.now j) }
{
    let mut reader = Reader {
        rest: bytes,
        at: 0,
        least: None,
        blocks: Vec::new(alloc),
        datas: None,
    };
    let found = found_by(alloc, &mut reader)?;
    let least = least_fault(alloc, &reader)?;
    Ok(outcome_of(least, reader.blocks, reader.datas, found))
}

/// The program of an image without fault.
fn program_of_image(alloc: Global, image: ImageRead) -> Result<Loaded, NoMemory>
    requires program { IsProgram (program_read image) }
    requires few { HaveFewParameters (blocks_of (map located_block image.blocks.items)) }
    requires verifies { Verifies (program_read image) }
    ensures program { IfOk result (λ l. l.program ≡ program_read image) }
    ensures profile { IfOk result (λ l. l.profile ≡ profile_of image.stamp) }
{
    let profile = image.stamp.profile();
    let program = program(alloc, image.blocks, image.data_blocks, image.names)?;
    Loaded::new(alloc, program, profile)
}

/// Reads bytes as the image of a program that verifies, of version 1 or 2. An image of version 1
/// has the profile Small.
///
/// # Errors
///
/// `Fault` exactly where they aren't such an image, with the least of their faults by offset, then
/// code; `NoMemory`.
pub fn load(alloc: Global, bytes: &[u8]) -> Result<Loaded, LoadError>
    ensures gives { IfOk result (λ l. IsImageOf bytes.now l) }
    ensures refused { IfErr result (λ e. IsLoadError e (faults_of bytes.now)) }
{
    match check(alloc, bytes)? {
        CheckResult::Faulty { fault } => Err(LoadError::Fault { fault }),
        CheckResult::Clean { image } => {
            let loaded = program_of_image(alloc, image)?;
            Ok(loaded)
        }
    }
}

/// Nothing is done. The contract says what the type of a program keeps.
fn law_of_program(program: &Program)
    ensures { IsProgram program.now }
{
    let _ = &program.names;
}

/// Nothing is done. The contract says what the type of a slice keeps.
fn law_of_bytes(bytes: &[u8])
    ensures { (i : ℕ) → get_or bytes.now i 0 < 256 }
{}

/// A program that is written as its image of a version and profile, and loaded.
fn load_stamped(alloc: Global, program: &Program, stamp: Stamp) -> Result<Loaded, LoadError>
    ensures { GivesBack program.now stamp result }
{
    law_of_program(program);
    let image = write_stamped(alloc, program, stamp)?;
    let bytes = image.as_slice();
    law_of_bytes(bytes);
    load(alloc, bytes)
}

/// The program of its image of version 1, which is written and loaded.
///
/// # Errors
///
/// `Fault` exactly where it doesn't verify, with the least fault of that image; `NoMemory`.
pub fn load_written(alloc: Global, program: &Program) -> Result<Loaded, LoadError>
    ensures { GivesBack program.now stamps.One result }
{
    load_stamped(alloc, program, Stamp::One)
}

/// The program and the profile of its image of version 2, which is written and loaded.
///
/// # Errors
///
/// `Fault` exactly where it doesn't verify, with the least fault of that image; `NoMemory`.
pub fn load_written2(
    alloc: Global,
    program: &Program,
    profile: Profile,
) -> Result<Loaded, LoadError>
    ensures { GivesBack program.now (stamps.Two profile) result }
{
    load_stamped(alloc, program, Stamp::Two(profile))
}
