//! A program made of the records that were read.
ghost use Rattle.std.specs.Prelude.{◌≡◌, ◌≤◌, length, map, IfOk};
ghost use Rattle.flat_code.specs.Image.{param_of_record, block_of_record, entry_of_name, IsProgram};
ghost use Rattle.flat_code.specs.Loading.{blocks_of};
ghost use Rattle.image_file.specs.Running.{located_block};
ghost use Rattle.image_file.specs.Typing.{HaveFewParameters, program_from};

use crate::records::{BlockRead, LocatedBlock, NameRead};
use arrayvec::ArrayVec;
use flat_code::{
    CodeBlock, DataBlock, NameEntry, Names, Param, ParameterRecord, Program, area_of_number,
    kind_of_number, width_of_number,
};
use plc_base::{BlockId, NoMemory, Place};
use std::alloc::Global;

/// Parameters, if they are at most 60.
fn params_of(parameters: &[ParameterRecord]) -> ArrayVec<Param, 60>
    ensures { length parameters.now ≤ 60 → result.items ≡ map param_of_record parameters.now }
{
    let mut params = ArrayVec::new();
    for parameter in parameters {
        let _ = params.try_push(parameter.param());
    }
    params
}

fn block_of(block: BlockRead) -> CodeBlock
    ensures { length block.params ≤ 60 → result ≡ block_of_record block }
{
    CodeBlock {
        id: BlockId {
            kind: kind_of_number(block.kind),
            number: block.number,
        },
        local_len: block.local_len,
        instance_len: block.instance_len,
        params: params_of(block.params.as_slice()),
        code: block.code,
        lines: block.lines,
    }
}

/// The code blocks of a program, if none has more than 60 parameters.
pub(crate) fn code_blocks(
    alloc: Global,
    blocks: Vec<LocatedBlock>,
) -> Result<Vec<CodeBlock>, NoMemory>
    ensures { IfOk result (λ v. HaveFewParameters (blocks_of (map located_block blocks.items))
        → v.items ≡ map block_of_record (blocks_of (map located_block blocks.items))) }
{
    let mut typed = Vec::new(alloc);
    for started in blocks {
        typed.push(block_of(started.block))?;
    }
    Ok(typed)
}

fn entry_of_name(name: NameRead) -> NameEntry
    ensures { result ≡ entry_of_name name }
{
    let place = Place {
        area: area_of_number(name.area),
        number: 0,
        byte: name.byte,
        bit: name.bit,
    };
    NameEntry {
        name: name.name,
        place,
        width: width_of_number(name.width),
    }
}

/// The names of a program.
pub(crate) fn entries(alloc: Global, names: Vec<NameRead>) -> Result<Vec<NameEntry>, NoMemory>
    ensures { IfOk result (λ v. v.items ≡ map entry_of_name names.items) }
{
    names
        .into_iter()
        .map(|name| entry_of_name(name))
        .collect(alloc)
}

/// The program of what was read.
pub(crate) fn program(
    alloc: Global,
    blocks: Vec<LocatedBlock>,
    data_blocks: Vec<DataBlock>,
    names: Vec<NameRead>,
) -> Result<Program, NoMemory>
    requires program { IsProgram (program_from
        (map located_block blocks.items) data_blocks.items names.items) }
    requires few { HaveFewParameters (blocks_of (map located_block blocks.items)) }
    ensures { IfOk result (λ p. p
        ≡ program_from (map located_block blocks.items) data_blocks.items names.items) }
{
    let code_blocks = code_blocks(alloc, blocks)?;
    let names = Names::new(entries(alloc, names)?);
    Ok(Program {
        code_blocks,
        data_blocks,
        names,
    })
}
