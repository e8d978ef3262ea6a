//! A program checked block by block, without its image.
ghost use Rattle.std.specs.Prelude.{◌≡◌, ◌<◌, length, map, All, IfOk, IfErr, IfSome, IfNone, None, Some, if◌then◌else◌};
ghost use Rattle.std.specs.Option.{option_map};
ghost use Rattle.plc_base.specs.declared.profiles.Profile.TheVariants as profiles;
ghost use Rattle.flat_code.specs.Blocks.{signature_of};
ghost use Rattle.flat_code.specs.Codes.{code_bytes, code_fault, ends_by_be, last_place, overlong_statement};
ghost use Rattle.flat_code.specs.Image.{record_of_block, record_of_param};
ghost use Rattle.flat_code.specs.Loading.{environment_of_block, Verifies};
ghost use Rattle.image_file.specs.OpChecking.{environment_of};
ghost use Rattle.image_file.specs.Least.{with_faults};
ghost use Rattle.image_file.specs.Verifying.{are_whole, count_faults, faults_of_block, lens_checked, lens_where, line_faults, AreClean, IsFaultOf, IsFirstOf, IsUnverified};
ghost use Rattle.image_file.specs.Writing.{BlockFitsFields};

use crate::blocks::end_mark_count;
use crate::checking::lesser_if;
use crate::codes::{count_behind_op, is_block_end};
use crate::environments::{BlockEnvironment, DataLens, SignatureRead, Signatures};
use crate::faults::{LoadFault, VerifyFault};
use crate::loaded::Loaded;
use crate::loading::lens_of;
use crate::refusing::VerifyError;
use crate::verifying::check_block;
use crate::writing::code_len;
use flat_code::{CodeBlock, DataBlock, Field, Op, Param, ParameterRecord, Program};
use plc_base::{NoMemory, Profile};
use std::alloc::Global;

/// The offset of the first op that is the 65th of its statement.
fn overlong_statement(ops: &[Op]) -> Option<u32>
    requires { length (code_bytes ops.now) < 4294967296 }
    ensures { result ≡ overlong_statement 0 0 ops.now }
{
    let mut at = 0;
    let mut count = 0;
    for op in ops {
        if count == 64 {
            return Some(at);
        }
        count = count_behind_op(op, count);
        at += op.size();
    }
    None
}

/// The offset of the last op, where it isn't BE with the end mark.
fn without_end(ops: &[Op]) -> Option<u32>
    requires { length (code_bytes ops.now) < 4294967296 }
    ensures { result ≡ (if ends_by_be ops.now then None else Some (last_place 0 ops.now)) }
{
    match ops {
        [] => Some(0),
        [front @ .., last] => {
            if is_block_end(last) {
                None
            } else {
                Some(code_len(front))
            }
        }
    }
}

/// The offset of the fault 5 of code, if it has one.
fn code_fault(ops: &[Op]) -> Option<u32>
    requires { length (code_bytes ops.now) < 4294967296 }
    ensures { result ≡ code_fault ops.now }
{
    match overlong_statement(ops) {
        Some(at) => Some(at),
        None => without_end(ops),
    }
}

/// Whether no code has a fault 5.
fn are_whole(blocks: &[CodeBlock]) -> bool
    requires { All BlockFitsFields blocks.now }
    ensures { result ≡ are_whole (map record_of_block blocks.now) }
{
    for block in blocks {
        if code_fault(block.code.as_slice()).is_some() {
            return false;
        }
    }
    true
}

fn record_of_param(param: &Param) -> ParameterRecord
    ensures { result ≡ record_of_param param.now }
{
    ParameterRecord {
        section: param.section,
        width: param.width.number(),
        byte: param.byte,
        bit: param.bit,
    }
}

fn records_of_params(alloc: Global, params: &[Param]) -> Result<Vec<ParameterRecord>, NoMemory>
    ensures { IfOk result (λ v. v.items ≡ map record_of_param params.now) }
{
    params
        .iter()
        .map(|param: &Param| record_of_param(param))
        .collect(alloc)
}

/// What a CALL sees of a block.
fn signature(alloc: Global, block: &CodeBlock) -> Result<SignatureRead, NoMemory>
    ensures { IfOk result (λ s. s ≡ signature_of (record_of_block block.now)) }
{
    let params = records_of_params(alloc, block.params.as_slice())?;
    Ok(SignatureRead {
        kind: block.id.kind.number(),
        number: block.id.number,
        instance_len: block.instance_len,
        params,
    })
}

fn signatures(alloc: Global, blocks: &[CodeBlock]) -> Result<Signatures, NoMemory>
    ensures { IfOk result (λ s. s ≡ map signature_of (map record_of_block blocks.now)) }
{
    let mut signatures = Vec::new(alloc);
    for block in blocks {
        let signature = signature(alloc, block)?;
        signatures.push(signature)?;
    }
    let signatures = Signatures::new(alloc, signatures)?;
    Ok(signatures)
}

/// The lesser of the fault so far and those of lines.
fn check_lines(lines: &[u32], least: Option<LoadFault>) -> Option<LoadFault>
    ensures { result ≡ with_faults least (line_faults 0 lines.now) }
{
    let mut least = least;
    let mut before = 0;
    for line in lines {
        let field = Field::Line {
            before,
            line: *line,
        };
        least = lesser_if(least, 0, field.fault());
        before = *line;
    }
    least
}

/// The fault 9 of the statement count, if it has one.
fn check_count(block: &CodeBlock) -> Option<LoadFault>
    requires { BlockFitsFields block.now }
    ensures { result ≡ with_faults None (count_faults (record_of_block block.now)) }
{
    let field = Field::StatementCount {
        end_marks: end_mark_count(block.code.as_slice()),
        count: block.lines.len() as u16,
    };
    lesser_if(None, 0, field.fault())
}

/// The least fault of a block.
#[tactic(auto, using(crate::proofs::ProgramFaultLemmas::fault_five_alone, crate::proofs::ProgramFaultLemmas::faults_without_five))]
fn check_code_block(
    alloc: Global,
    environment: &BlockEnvironment,
    block: &CodeBlock,
) -> Result<Option<LoadFault>, NoMemory>
    requires { BlockFitsFields block.now }
    ensures { IfOk result (λ l. l ≡ with_faults None
        (faults_of_block (environment_of environment.now) (record_of_block block.now))) }
{
    let code = block.code.as_slice();
    if let Some(at) = code_fault(code) {
        return Ok(Some(LoadFault { at, code: 5 }));
    }
    let least = check_count(block);
    let least = check_lines(block.lines.as_slice(), least);
    check_block(alloc, environment, 0, code, least)
}

/// The fault of a block among others, if it has one.
fn block_fault(
    alloc: Global,
    signatures: &Signatures,
    lens: Option<&DataLens>,
    block: &CodeBlock,
) -> Result<Option<LoadFault>, NoMemory>
    requires { BlockFitsFields block.now }
    ensures { IfOk result (λ l. l ≡ with_faults None (faults_of_block (record {
      kind = (record_of_block block.now).kind;
      local_len = block.now.local_len;
      params = (record_of_block block.now).params;
      blocks = signatures.now;
      data_lens = option_map (λ d. d.now) lens.entry;
    }) (record_of_block block.now))) }
{
    let params = records_of_params(alloc, block.params.as_slice())?;
    let environment = BlockEnvironment {
        kind: block.id.kind.number(),
        local_len: block.local_len,
        params: params.as_slice(),
        blocks: signatures,
        data_lens: lens,
    };
    check_code_block(alloc, &environment, block)
}

/// A fault of a block as one of its program.
fn fault_in(block: &CodeBlock, fault: LoadFault) -> VerifyFault
    ensures { result ≡ record { block = block.now.id; at = fault.at; code = fault.code } }
{
    VerifyFault {
        block: block.id,
        at: fault.at,
        code: fault.code,
    }
}

/// The fault of the first block that has one.
fn first_among(
    alloc: Global,
    signatures: &Signatures,
    lens: Option<&DataLens>,
    blocks: &[CodeBlock],
) -> Result<Option<VerifyFault>, NoMemory>
    requires fit { All BlockFitsFields blocks.now }
    requires all { signatures.now ≡ map signature_of (map record_of_block blocks.now) }
    ensures fault { IfOk result (λ f. IfSome f
        (IsFirstOf (option_map (λ d. d.now) lens.entry)
        (map record_of_block blocks.now) blocks.now)) }
    ensures none { IfOk result (λ f. IfNone f
        (AreClean (option_map (λ d. d.now) lens.entry)
        (map record_of_block blocks.now) blocks.now)) }
{
    for block in blocks {
        if let Some(fault) = block_fault(alloc, signatures, lens, block)? {
            return Ok(Some(fault_in(block, fault)));
        }
    }
    Ok(None)
}

/// The numbers and lengths of the data blocks, where calls are checked.
fn lens_where(
    alloc: Global,
    checked: bool,
    blocks: &[DataBlock],
) -> Result<Option<DataLens>, NoMemory>
    ensures { IfOk result (λ l. l ≡ lens_where checked blocks.now) }
{
    if !checked {
        return Ok(None);
    }
    let lens = lens_of(alloc, blocks)?;
    Ok(Some(lens))
}

/// The fault of a program, if it has one.
#[tactic(auto, unfolding(crate::specs::Verifying::IsFaultOf), using(crate::proofs::ProgramFaultLemmas::clean_verifies))]
fn program_fault(alloc: Global, program: &Program) -> Result<Option<VerifyFault>, NoMemory>
    ensures fault { IfOk result (λ f. IfSome f (IsFaultOf program.now)) }
    ensures none { IfOk result (λ f. IfNone f (Verifies program.now)) }
{
    let blocks = program.code_blocks.as_slice();
    let signatures = signatures(alloc, blocks)?;
    let lens = lens_where(alloc, are_whole(blocks), program.data_blocks.as_slice())?;
    match lens {
        None => first_among(alloc, &signatures, None, blocks),
        Some(lens) => first_among(alloc, &signatures, Some(&lens), blocks),
    }
}

/// Takes a program for one that verifies, with the profile Small.
///
/// # Errors
///
/// `Fault` exactly where it doesn't, with the least fault by offset, then code, of its first block
/// that has one: 5 a statement of more than 64 ops, or code that doesn't end with BE; 6 jump
/// targets, 7 operands and calls, 8 brackets and zones, 9 statement count and lines. `NoMemory`.
pub fn verify(alloc: Global, program: Program) -> Result<Loaded, VerifyError>
    ensures gives { IfOk result (λ l. l.program ≡ program) }
    ensures small { IfOk result (λ l. l.profile ≡ profiles.Small) }
    ensures refused { IfErr result (λ e. IsUnverified e program) }
{
    if let Some(fault) = program_fault(alloc, &program)? {
        return Err(VerifyError::Fault { fault });
    }
    let loaded = Loaded::new(alloc, program, Profile::Small)?;
    Ok(loaded)
}
