//! The records of an image as they were read, kinds, widths and areas as numbers.
ghost use Rattle.std.specs.Prelude.{◌+◌, ◌<◌, ◌^◌, length};
ghost use Rattle.flat_code.specs.Codes.{code_bytes};

use flat_code::{Op, ParameterRecord, Stamp};
use std::marker::Model;

/// The head of a code block.
#[derive(Clone, Copy)]
pub(crate) struct HeadRead {
    pub kind: u8,
    pub parameter_count: u8,
    pub number: u16,
    pub local_bytes: u16,
    pub instance_bytes: u16,
    pub statement_count: u16,
    pub reserved: u16,
    pub code_length: u32,
}

/// The header up to the total length.
#[derive(Clone, Copy)]
pub(crate) struct FrontRead {
    pub magic: u32,
    pub version: u16,
    pub profile: u16,
    pub total_length: u32,
}

/// How many records of each kind there are.
#[derive(Clone, Copy)]
pub(crate) struct CountsRead {
    pub code_blocks: u16,
    pub data_blocks: u16,
    pub names: u16,
    pub reserved: u16,
}

/// A code block.
#[derive(Drop)]
pub(crate) struct BlockRead {
    pub kind: u8,
    pub number: u16,
    pub local_len: u16,
    pub instance_len: u16,
    pub params: Vec<ParameterRecord>,
    pub code: Vec<Op>,
    pub lines: Vec<u32>,
}

impl Model for BlockRead {
    ghost use Rattle.flat_code.specs.Records.{BlockRecord};

    ghost Value = { BlockRecord };

    ghost view = { λ b. record {
      kind = b.kind;
      number = b.number;
      local_len = b.local_len;
      instance_len = b.instance_len;
      params = b.params.items;
      code = b.code.items;
      lines = b.lines.items;
    } };
}

/// A code block that was read whole, and the offset at which its code begins.
#[derive(Drop)]
pub(crate) struct LocatedBlock {
    pub start: u32,
    pub block: BlockRead,
    ghost fits: { start + length (code_bytes block.code) < 2 ^ 32 },
}

/// A name and the place of its variable.
#[derive(Drop)]
pub(crate) struct NameRead {
    pub name: Vec<u8>,
    pub area: u8,
    pub width: u8,
    pub byte: u16,
    pub bit: u8,
}

impl Model for NameRead {
    ghost use Rattle.flat_code.specs.Records.{NameRecord};

    ghost Value = { NameRecord };

    ghost view = { λ n. record {
      name = n.name.items;
      area = n.area;
      width = n.width;
      byte = n.byte;
      bit = n.bit;
    } };
}

/// The version and profile of an image that was read whole, and its names.
#[derive(Drop)]
pub(crate) struct FoundRead {
    pub stamp: Stamp,
    pub names: Vec<NameRead>,
}
