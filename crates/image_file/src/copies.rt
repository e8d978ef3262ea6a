//! A program once more.
ghost use Rattle.std.specs.Prelude.{◌≡◌, IfOk};
ghost use Rattle.flat_code.specs.Image.{IsProgram};

use crate::loaded_blocks::LoadedBlock;
use crate::loaded_code::LoadedCode;
use arrayvec::ArrayVec;
use flat_code::{CodeBlock, DataBlock, NameEntry, Names, Op, Param, Program};
use plc_base::NoMemory;
use std::alloc::Global;

pub(crate) fn params_again(params: &ArrayVec<Param, 60>) -> ArrayVec<Param, 60>
    ensures { result.items ≡ params.now.items }
{
    let mut again = ArrayVec::new();
    for param in params.as_slice() {
        again.push(*param);
    }
    again
}

/// The ops of a block, each decoded once more.
fn ops_again(alloc: Global, code: &LoadedCode<'_>) -> Result<Vec<Op>, NoMemory>
    ensures { IfOk result (λ v. v.items ≡ code.now.code) }
{
    let mut ops = Vec::new(alloc);
    let mut at = 0;
    while let Some(found) = code.op(at) {
        ops.push(found.0)?;
        at = found.1;
    }
    Ok(ops)
}

fn code_block_again(alloc: Global, block: &LoadedBlock) -> Result<CodeBlock, NoMemory>
    ensures { IfOk result (λ b. b ≡ block.now) }
{
    let code = ops_again(alloc, &LoadedCode::new(block))?;
    let lines = Vec::from_slice(alloc, block.lines.as_slice())?;
    Ok(CodeBlock {
        id: block.id,
        local_len: block.local_len,
        instance_len: block.instance_len,
        params: params_again(&block.params),
        code,
        lines,
    })
}

fn code_blocks_again(alloc: Global, blocks: &[LoadedBlock]) -> Result<Vec<CodeBlock>, NoMemory>
    ensures { IfOk result (λ v. v.items ≡ blocks.now) }
{
    let mut again = Vec::new(alloc);
    for block in blocks {
        let block = code_block_again(alloc, block)?;
        again.push(block)?;
    }
    Ok(again)
}

fn data_block_again(alloc: Global, block: &DataBlock) -> Result<DataBlock, NoMemory>
    ensures { IfOk result (λ d. d ≡ block.now) }
{
    let bytes = Vec::from_slice(alloc, block.bytes.as_slice())?;
    Ok(DataBlock {
        number: block.number,
        instance_of: block.instance_of,
        bytes,
    })
}

fn data_blocks_again(alloc: Global, blocks: &[DataBlock]) -> Result<Vec<DataBlock>, NoMemory>
    ensures { IfOk result (λ v. v.items ≡ blocks.now) }
{
    let mut again = Vec::new(alloc);
    for block in blocks {
        let block = data_block_again(alloc, block)?;
        again.push(block)?;
    }
    Ok(again)
}

fn name_again(alloc: Global, entry: &NameEntry) -> Result<NameEntry, NoMemory>
    ensures { IfOk result (λ e. e ≡ entry.now) }
{
    let name = Vec::from_slice(alloc, entry.name.as_slice())?;
    Ok(NameEntry {
        name,
        place: entry.place,
        width: entry.width,
    })
}

fn entries_again(alloc: Global, entries: &[NameEntry]) -> Result<Vec<NameEntry>, NoMemory>
    ensures { IfOk result (λ v. v.items ≡ entries.now) }
{
    let mut again = Vec::new(alloc);
    for entry in entries {
        let entry = name_again(alloc, entry)?;
        again.push(entry)?;
    }
    Ok(again)
}

/// The program of loaded blocks and of names.
pub(crate) fn program_again(
    alloc: Global,
    code_blocks: &[LoadedBlock],
    data_blocks: &[DataBlock],
    names: &Names,
) -> Result<Program, NoMemory>
    requires { IsProgram (record {
      code_blocks = code_blocks.now;
      data_blocks = data_blocks.now;
      names = names.now;
    }) }
    ensures { IfOk result (λ p. p ≡ record {
      code_blocks = code_blocks.now;
      data_blocks = data_blocks.now;
      names = names.now;
    }) }
{
    let code_blocks = code_blocks_again(alloc, code_blocks)?;
    let data_blocks = data_blocks_again(alloc, data_blocks)?;
    let entries = entries_again(alloc, names.as_slice())?;
    Ok(Program {
        code_blocks,
        data_blocks,
        names: Names::new(entries),
    })
}
