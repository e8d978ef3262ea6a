//! Records in the order of an image.
use crate::compare::same;
use arrayvec::ArrayVec;
use flat_code::{CodeBlock, DataBlock, NameEntry};
use plc_base::{Area, BlockId, BlockKind, Place, Width};
use std::alloc::Global;
use std::process::Abort;
use std::test::Fail;
use stl_codegen::{sort_code_blocks, sort_data_blocks, sort_names};

fn code_block(alloc: Global, id: BlockId) -> CodeBlock {
    CodeBlock {
        id,
        local_len: 20,
        instance_len: 0,
        params: ArrayVec::new(),
        code: Vec::new(alloc),
        lines: Vec::new(alloc),
    }
}

fn code_blocks(alloc: Global, ids: &[BlockId]) -> Result<Vec<CodeBlock>, Fail> {
    let mut blocks = Vec::new(alloc);
    for id in ids {
        blocks.push(code_block(alloc, *id))?;
    }
    Ok(blocks)
}

fn are_code_blocks(rt: &impl Abort, blocks: &[CodeBlock], ids: &[BlockId]) {
    same(rt, "code blocks", blocks.len(), ids.len());
    for (block, id) in blocks.iter().zip(ids.iter()) {
        same(rt, *id, block.id, *id);
    }
}

const fn id(kind: BlockKind, number: u16) -> BlockId {
    BlockId { kind, number }
}

/// By kind, OB, FC, FB, then by number.
#[test]
fn code_blocks_are_sorted(rt: HostRuntime) -> Result<(), Fail> {
    let (ob, fc, fb) = (BlockKind::Ob, BlockKind::Fc, BlockKind::Fb);
    let mixed = [
        id(fb, 1),
        id(fc, 10),
        id(ob, 100),
        id(fc, 2),
        id(fb, 0),
        id(ob, 1),
    ];
    let order = [
        id(ob, 1),
        id(ob, 100),
        id(fc, 2),
        id(fc, 10),
        id(fb, 0),
        id(fb, 1),
    ];
    let mut blocks = code_blocks(rt.alloc(), &mixed)?;
    sort_code_blocks(&mut blocks)?;
    are_code_blocks(&rt, blocks.as_slice(), &order);
    Ok(())
}

fn data_blocks(alloc: Global, numbers: &[u16]) -> Result<Vec<DataBlock>, Fail> {
    let mut blocks = Vec::new(alloc);
    for number in numbers {
        blocks.push(DataBlock {
            number: *number,
            instance_of: None,
            bytes: Vec::new(alloc),
        })?;
    }
    Ok(blocks)
}

fn are_data_blocks(rt: &impl Abort, blocks: &[DataBlock], numbers: &[u16]) {
    same(rt, "data blocks", blocks.len(), numbers.len());
    for (block, number) in blocks.iter().zip(numbers.iter()) {
        same(rt, *number, block.number, *number);
    }
}

#[test]
fn data_blocks_are_sorted(rt: HostRuntime) -> Result<(), Fail> {
    let mut blocks = data_blocks(rt.alloc(), &[30, 2047, 4, 1])?;
    sort_data_blocks(&mut blocks)?;
    are_data_blocks(&rt, blocks.as_slice(), &[1, 4, 30, 2047]);
    Ok(())
}

const PLACE: Place = Place {
    area: Area::M,
    number: 0,
    byte: 0,
    bit: 0,
};

fn entry(alloc: Global, name: &[u8]) -> Result<NameEntry, Fail> {
    Ok(NameEntry {
        name: Vec::from_slice(alloc, name)?,
        place: PLACE,
        width: Width::Byte,
    })
}

fn entries(alloc: Global, names: &[&[u8]]) -> Result<Vec<NameEntry>, Fail> {
    let mut entries = Vec::new(alloc);
    for name in names {
        entries.push(entry(alloc, name)?)?;
    }
    Ok(entries)
}

fn are_entries(rt: &impl Abort, entries: &[NameEntry], names: &[&[u8]]) {
    same(rt, "names", entries.len(), names.len());
    for (entry, name) in entries.iter().zip(names.iter()) {
        same(rt, *name, entry.name.as_slice(), *name);
    }
}

/// By their bytes, a name before each longer one that begins with it.
#[test]
fn names_are_sorted(rt: HostRuntime) -> Result<(), Fail> {
    let mixed = [b"\xC4".as_slice(), b"B", b"AB", b"A"];
    let order = [b"A".as_slice(), b"AB", b"B", b"\xC4"];
    let mut names = entries(rt.alloc(), &mixed)?;
    sort_names(&mut names)?;
    are_entries(&rt, names.as_slice(), &order);
    Ok(())
}
