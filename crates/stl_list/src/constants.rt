//! The constants of a source by their bits.
ghost use Rattle.std.specs.Prelude.{◌≡◌, ◌<◌, IfOk};
ghost use Rattle.stl_list.specs.Constants.{
  decimal_constant,
  instruction_constant,
  open_block_name,
  pointer_area,
  pointer_constant,
  pointer_letters,
  typed_constant,
  word_constant,
};

use flat_code::{AddConstant, Logic, Operation};
use plc_base::{NoMemory, has_bit};
use std::alloc::Global;
use stl_ast::{Letters, Literal, Name, Operand, Simple};

/// The area of a pointer constant by its number; P and 7 have no constant, and are left out.
fn pointer_area(number: u32) -> Option<Letters>
    ensures { result ≡ pointer_area number }
{
    match number {
        1 => Some(Letters::I),
        2 => Some(Letters::Q),
        3 => Some(Letters::M),
        4 => Some(Letters::Db),
        5 => Some(Letters::Di),
        6 => Some(Letters::L),
        _ => None,
    }
}

fn pointer_letters(bits: u32) -> Option<Letters>
    ensures { result ≡ pointer_letters bits }
{
    if has_bit(bits, 31) {
        pointer_area((bits >> 24) % 8)
    } else {
        None
    }
}

fn pointer_constant(bits: u32) -> Operand
    ensures { result ≡ pointer_constant bits }
{
    Operand::Pointer {
        area: pointer_letters(bits),
        byte: ((bits / 8) % 65_536) as u16,
        bit: (bits % 8) as u8,
    }
}

/// What L loads of an open data block.
fn open_block_name(which: u32) -> &'static [u8]
    ensures { result.now ≡ open_block_name which }
{
    match which {
        0 => b"DBLG",
        1 => b"DBNO",
        2 => b"DILG",
        _ => b"DINO",
    }
}

fn open_block_operand(alloc: Global, which: u32) -> Result<Operand, NoMemory>
    ensures { IfOk result (λ o. o ≡ Operand.Other (open_block_name which)) }
{
    Ok(Operand::Other {
        name: Name::new(alloc, open_block_name(which))?,
    })
}

fn constant(value: Literal) -> Operand
    ensures { result ≡ Operand.Constant value }
{
    Operand::Constant { value }
}

fn word_constant(bits: u32) -> Operand
    ensures { result ≡ word_constant bits }
{
    constant(Literal::Word {
        value: (bits % 65_536) as u16,
    })
}

fn decimal_constant(bits: u32) -> Operand
    ensures { result ≡ decimal_constant bits }
{
    constant(Literal::Number {
        value: (bits % 65_536) as i32,
    })
}

fn logic_constant(logic: Logic, bits: u32) -> Operand
    ensures { result ≡ instruction_constant (Operation.Logic logic) bits }
{
    match logic {
        Logic::Aw | Logic::Ow | Logic::Xow => word_constant(bits),
        Logic::Ad | Logic::Od | Logic::Xod => constant(Literal::Dword { value: bits }),
    }
}

fn adding_constant(adding: AddConstant, bits: u32) -> Operand
    ensures { result ≡ instruction_constant (Operation.Add adding) bits }
{
    match adding {
        AddConstant::Dword => constant(Literal::Long {
            value: bits.cast_signed(),
        }),
        _ => decimal_constant(bits),
    }
}

/// The constant of an instruction.
pub(crate) fn instruction_constant(
    alloc: Global,
    operation: Operation,
    bits: u32,
) -> Result<Operand, NoMemory>
    ensures { IfOk result (λ o. o ≡ instruction_constant operation bits) }
{
    match operation {
        Operation::LoadOpenBlock => open_block_operand(alloc, bits),
        Operation::Load => Ok(constant(Literal::Dword { value: bits })),
        Operation::Logic(logic) => Ok(logic_constant(logic, bits)),
        Operation::Add(adding) => Ok(adding_constant(adding, bits)),
        Operation::Pointer(_) => Ok(pointer_constant(bits)),
        _ => Ok(decimal_constant(bits)),
    }
}

/// A constant with these bits, written by the type of what takes it.
pub(crate) fn typed_constant(kind: Simple, bits: u32) -> Literal
    ensures { result ≡ typed_constant kind bits }
{
    match kind {
        Simple::Bool => Literal::Truth { value: bits > 0 },
        Simple::Byte => Literal::Byte {
            value: (bits % 256) as u8,
        },
        Simple::Word => Literal::Word {
            value: (bits % 65_536) as u16,
        },
        Simple::Int => Literal::Number {
            value: i32::from(((bits % 65_536) as u16).cast_signed()),
        },
        Simple::Time => Literal::Time {
            ms: bits.cast_signed(),
        },
        _ => Literal::Dword { value: bits },
    }
}
