ghost use Rattle.std.specs.Prelude.{◌≡◌};
ghost use Rattle.flat_code.specs.Checking.{good_counts, good_records, makes_program};

use crate::good_blocks::are_good_blocks;
use crate::good_data::{are_good_data_blocks, are_good_names};
use crate::image_fields::SECTION_IN;
use crate::image_size::is_short;
use crate::names::{NameEntry, Names};
use crate::ops::Op;
use arrayvec::ArrayVec;
use plc_base::{BlockId, Width};
use std::marker::Model;

/// A parameter of a function or function block. `section` is 1 for IN, 2 for OUT, 3 for IN_OUT;
/// `byte` and `bit` are its place in the instance of a function block, 0 in a function.
#[derive(Clone, Copy, Debug, PartialEq, Eq)]
pub struct Param {
    pub section: u8,
    pub width: Width,
    pub byte: u16,
    pub bit: u8,
}

impl Default for Param {
    ghost use Rattle.std.specs.Prelude.{◌≡◌};
    ghost use Rattle.plc_base.specs.declared.places.Width.TheVariants.{Bit};
    ghost use Rattle.flat_code.specs.Records.{section_in};

    /// An IN parameter of one bit, with no place in an instance.
    fn default() -> Param
        ensures { result ≡ record { section = section_in; width = Bit; byte = 0; bit = 0 } }
    {
        Param {
            section: SECTION_IN,
            width: Width::Bit,
            byte: 0,
            bit: 0,
        }
    }
}

/// A code block: an organization block, function or function block, with the number of its local
/// bytes and of its instance's bytes, its parameters, its ops, and the source line of each
/// statement.
#[derive(Drop)]
pub struct CodeBlock {
    pub id: BlockId,
    pub local_len: u16,
    pub instance_len: u16,
    pub params: ArrayVec<Param, 60>,
    pub code: Vec<Op>,
    pub lines: Vec<u32>,
}

impl Model for CodeBlock {
    ghost use Rattle.flat_code.specs.Programs.{CodeBlock as CodeBlockData};

    ghost Value = { CodeBlockData };

    ghost view = { λ b. record {
      id = b.id;
      local_len = b.local_len;
      instance_len = b.instance_len;
      params = b.params.items;
      code = b.code.items;
      lines = b.lines.items;
    } };
}

/// A data block. `instance_of` is the number of the function block whose instance it is.
#[derive(Drop)]
pub struct DataBlock {
    pub number: u16,
    pub instance_of: Option<u16>,
    pub bytes: Vec<u8>,
}

impl Model for DataBlock {
    ghost use Rattle.flat_code.specs.Programs.{DataBlock as DataBlockData};

    ghost Value = { DataBlockData };

    ghost view = { λ b. record {
      number = b.number;
      instance_of = b.instance_of;
      bytes = b.bytes.items;
    } };
}

/// A program: its code blocks, its data blocks, and the names of its variables. Every number fits
/// its field of an image, no record has a fault 4, and the image has at most 8,388,608 bytes: so
/// every program has an image. That it verifies isn't kept.
#[derive(Drop)]
pub struct Program {
    pub code_blocks: Vec<CodeBlock>,
    pub data_blocks: Vec<DataBlock>,
    pub names: Names,
}

impl Model for Program {
    ghost use Rattle.flat_code.specs.Programs.{Program as ProgramData};

    ghost Value = { ProgramData };

    ghost view = { λ p. record {
      code_blocks = p.code_blocks.items;
      data_blocks = p.data_blocks.items;
      names = p.names;
    } };

    ghost use Rattle.flat_code.specs.Image.{IsProgram};

    ghost invariant = { λ p. IsProgram (record {
      code_blocks = p.code_blocks.items;
      data_blocks = p.data_blocks.items;
      names = p.names;
    }) };
}

/// Whether the counts fit their fields.
fn are_good_counts(code_blocks: usize, data_blocks: usize, names: usize) -> bool
    ensures { result ≡ good_counts code_blocks data_blocks names }
{
    code_blocks < 65_536 && data_blocks <= 256 && names < 65_536
}

/// Whether no record has a fault.
fn are_good_records(
    code_blocks: &[CodeBlock],
    data_blocks: &[DataBlock],
    names: &[NameEntry],
) -> bool
    ensures { result ≡ good_records (record {
      code_blocks = code_blocks.now;
      data_blocks = data_blocks.now;
      names = names.now;
    }) }
{
    are_good_counts(code_blocks.len(), data_blocks.len(), names.len())
        && are_good_blocks(code_blocks)
        && are_good_data_blocks(data_blocks)
        && are_good_names(names)
}

/// Whether these make a program.
fn is_program(code_blocks: &[CodeBlock], data_blocks: &[DataBlock], names: &[NameEntry]) -> bool
    ensures { result ≡ makes_program (record {
      code_blocks = code_blocks.now;
      data_blocks = data_blocks.now;
      names = names.now;
    }) }
{
    are_good_records(code_blocks, data_blocks, names) && is_short(code_blocks, data_blocks, names)
}

impl Program {
    ghost use Rattle.std.specs.Prelude.{◌≡◌, IfSome, IfNone};
    ghost use Rattle.flat_code.specs.Image.{IsProgram};

    /// The program of these blocks and names. `None` where they are none: a number doesn't fit its
    /// field of an image, a record has a fault 4, or the image has more than 8,388,608 bytes.
    pub fn new(
        code_blocks: Vec<CodeBlock>,
        data_blocks: Vec<DataBlock>,
        names: Vec<NameEntry>,
    ) -> Option<Program>
        ensures program { IfSome result (λ p. p ≡ record {
          code_blocks = code_blocks.items;
          data_blocks = data_blocks.items;
          names = names.items;
        }) }
        ensures none { IfNone result (IsProgram (record {
          code_blocks = code_blocks.items;
          data_blocks = data_blocks.items;
          names = names.items;
        }) → ⊥) }
    {
        if !is_program(
            code_blocks.as_slice(),
            data_blocks.as_slice(),
            names.as_slice(),
        ) {
            return None;
        }
        Some(Program {
            code_blocks,
            data_blocks,
            names: Names::new(names),
        })
    }
}
