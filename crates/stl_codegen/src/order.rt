//! The records of a program in the order of an image.
ghost use Rattle.std.specs.Prelude.{◌≡◌, OnOk};
ghost use Rattle.std.specs.Ordering.{is_lt};
ghost use Rattle.stl_codegen.specs.Order.{is_block_before, is_data_before, is_entry_before, sorted_list};

use flat_code::{CodeBlock, DataBlock, NameEntry};
use plc_base::NoMemory;
use std::cmp::Ordering;

fn order_of_blocks(a: &CodeBlock, b: &CodeBlock) -> Ordering
    ensures { is_lt result ≡ is_block_before a.now b.now }
{
    a.id.kind
        .number()
        .cmp(&b.id.kind.number())
        .then(a.id.number.cmp(&b.id.number))
}

fn order_of_data(a: &DataBlock, b: &DataBlock) -> Ordering
    ensures { is_lt result ≡ is_data_before a.now b.now }
{
    a.number.cmp(&b.number)
}

#[tactic(auto, using(flat_code::proofs::NameLemmas::before_is_less))]
fn order_of_names(a: &NameEntry, b: &NameEntry) -> Ordering
    ensures { is_lt result ≡ is_entry_before a.now b.now }
{
    a.name.as_slice().cmp(b.name.as_slice())
}

/// Puts code blocks in the order of an image: organization blocks, functions, function blocks, each
/// by number. On an error they stay as they stood.
pub fn sort_code_blocks(blocks: &mut Vec<CodeBlock>) -> Result<(), NoMemory>
    ensures { OnOk result (blocks.new.items ≡ sorted_list is_block_before blocks.old.items) }
{
    blocks.sort_by(|a: &CodeBlock, b: &CodeBlock| order_of_blocks(a, b))?;
    Ok(())
}

/// Puts data blocks in the order of their numbers. On an error they stay as they stood.
pub fn sort_data_blocks(blocks: &mut Vec<DataBlock>) -> Result<(), NoMemory>
    ensures { OnOk result (blocks.new.items ≡ sorted_list is_data_before blocks.old.items) }
{
    blocks.sort_by(|a: &DataBlock, b: &DataBlock| order_of_data(a, b))?;
    Ok(())
}

/// Puts names in the order of their bytes. On an error they stay as they stood.
pub fn sort_names(entries: &mut Vec<NameEntry>) -> Result<(), NoMemory>
    ensures { OnOk result (entries.new.items ≡ sorted_list is_entry_before entries.old.items) }
{
    entries.sort_by(|a: &NameEntry, b: &NameEntry| order_of_names(a, b))?;
    Ok(())
}
