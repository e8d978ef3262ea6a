//! The data blocks of a listing.
ghost use Rattle.std.specs.Prelude.{◌≡◌, ◌<◌, ◌++◌, [], Some, None, length, IfOk};
ghost use Rattle.std.specs.List.{All};
ghost use Rattle.image_file.specs.Writing.{DataFitsFields};
ghost use Rattle.std.specs.Option.{option_copied, option_map};
ghost use Rattle.stl_list.specs.DataBlocks.{
  data_block_tree,
  function_block,
  instance_signature,
  known_settings,
  listed_data,
  listed_data_blocks,
  structure_type,
};

use crate::initial::{settings_of, values_of};
use crate::links::is_same;
use crate::operands::data_block_name;
use crate::sections::{DATA_NAME, bytes_here};
use crate::signatures::Signature;
use flat_code::DataBlock;
use plc_base::{BlockId, BlockKind, NoMemory};
use std::alloc::Global;
use stl_ast::{Block, BlockName, Declarations, ElementType, Sequence, Setting, TypeTree};

/// A data block with its components, on a line.
fn own_block(alloc: Global, line: u32, number: u16, components: Declarations) -> Block
    ensures { result ≡ data_block_tree line number (Some structure_type) components None [] }
{
    Block {
        line,
        end_line: line,
        kind: BlockKind::Db,
        name: data_block_name(number),
        result: None,
        parts: Sequence::from_vec(Vec::new(alloc)),
        shape: Some(TypeTree {
            arrays: Sequence::from_vec(Vec::new(alloc)),
            of: ElementType::Structure,
        }),
        components,
        instance_of: None,
        settings: Sequence::from_vec(Vec::new(alloc)),
        body: Sequence::from_vec(Vec::new(alloc)),
    }
}

/// An instance of a function block with its settings, on a line.
fn instance_block(
    alloc: Global,
    line: u32,
    number: u16,
    of: BlockId,
    settings: Vec<Setting>,
) -> Block
    ensures { result ≡ data_block_tree line number None []
        (Some (BlockName.Number of)) settings.items }
{
    Block {
        line,
        end_line: line,
        kind: BlockKind::Db,
        name: data_block_name(number),
        result: None,
        parts: Sequence::from_vec(Vec::new(alloc)),
        shape: None,
        components: Declarations::from_vec(Vec::new(alloc)),
        instance_of: Some(BlockName::Number { id: of }),
        settings: Sequence::from_vec(settings),
        body: Sequence::from_vec(Vec::new(alloc)),
    }
}

fn function_block(number: u16) -> BlockId
    ensures { result ≡ function_block number }
{
    BlockId {
        kind: BlockKind::Fb,
        number,
    }
}

/// The signature of the function block of a number.
fn instance_signature(signatures: &[Signature], number: u16) -> Option<&Signature>
    ensures { option_map (λ s. s.now) result ≡ instance_signature signatures.now number }
{
    signatures
        .iter()
        .find(|signature| is_same(signature.id, function_block(number)))
}

/// The settings of an instance, where its function block is known.
fn known_settings(
    alloc: Global,
    line: u32,
    bytes: &[u8],
    signature: Option<&Signature>,
) -> Result<Vec<Setting>, NoMemory>
    ensures { IfOk result (λ v. v.items
        ≡ known_settings line bytes.now (option_copied signature.entry)) }
{
    match signature {
        None => Ok(Vec::new(alloc)),
        Some(signature) => settings_of(alloc, line, bytes, signature),
    }
}

/// A data block of its own.
fn listed_own(alloc: Global, line: u32, number: u16, bytes: &[u8]) -> Result<Block, NoMemory>
    requires { length bytes.now < 65536 }
    ensures { IfOk result (λ b. b ≡ listed_data [] line number bytes.now None) }
{
    let values = values_of(alloc, bytes)?;
    let components = bytes_here(alloc, line, DATA_NAME, bytes.len() as u16, values)?;
    Ok(own_block(alloc, line, number, components))
}

/// A data block of its own, or an instance.
fn listed_data(
    alloc: Global,
    signatures: &[Signature],
    line: u32,
    number: u16,
    bytes: &[u8],
    instance_of: Option<u16>,
) -> Result<Block, NoMemory>
    requires { length bytes.now < 65536 }
    ensures { IfOk result (λ b. b
        ≡ listed_data signatures.now line number bytes.now instance_of) }
{
    match instance_of {
        None => listed_own(alloc, line, number, bytes),
        Some(of) => {
            let signature = instance_signature(signatures, of);
            let settings = known_settings(alloc, line, bytes, signature)?;
            Ok(instance_block(alloc, line, number, function_block(of), settings))
        }
    }
}

/// A data block on a line.
fn listed_block(
    alloc: Global,
    signatures: &[Signature],
    line: u32,
    block: &DataBlock,
) -> Result<Block, NoMemory>
    requires { DataFitsFields block.now }
    ensures { IfOk result (λ b. b ≡ listed_data signatures.now line block.now.number
        block.now.bytes block.now.instance_of) }
{
    let bytes = block.bytes.as_slice();
    listed_data(
        alloc,
        signatures,
        line,
        block.number,
        bytes,
        block.instance_of,
    )
}

/// Adds the data blocks, which all stand on one line.
pub(crate) fn add_data_blocks(
    alloc: Global,
    listed: &mut Vec<Block>,
    signatures: &[Signature],
    line: u32,
    blocks: &[DataBlock],
) -> Result<(), NoMemory>
    requires { All DataFitsFields blocks.now }
    ensures { IfOk result (λ _. listed.new.items
        ≡ listed.old.items ++ listed_data_blocks signatures.now line blocks.now) }
{
    for block in blocks {
        listed.push(listed_block(alloc, signatures, line, block)?)?;
    }
    Ok(())
}
