ghost use Rattle.std.specs.Prelude.{◌≡◌, ◌++◌, ◌∷◌, [], codes, decimal, OnOk};
ghost use Rattle.stl_print.specs.Gaps.{gap_text};
ghost use Rattle.stl_print.specs.Operands.{
  address_pieces,
  bit_pieces,
  register_operand_pieces,
  direct_pieces,
  memory_pointer_pieces,
  register_pointer_pieces,
  instance_pieces,
  numbered_pieces,
  opened_block_pieces,
  operand_pieces,
  path_head_pieces,
  pointer_pieces,
  pointer_byte_pieces,
};
ghost use Rattle.stl_print.specs.Pieces.{with_pieces};
ghost use Rattle.stl_print.specs.Words.{letters_of_address};

use crate::gaps::Gap;
use crate::literals::append_literal;
use crate::names::{append_block_name, append_steps};
use crate::tokens::{
    append_local, append_mark, append_number, append_prefixed, append_quoted, append_token,
};
use crate::words::{area_letters, flag_text, numbered_letters, size_letter, width_letter};
use itoa::Buffer;
use plc_base::{NoMemory, Width};
use stl_ast::{BlockName, Letters, Operand, PathHead};
use stl_lexer::Mark;

fn append_letters(gap: Gap, area: Letters, width: Width, out: &mut Vec<u8>) -> Result<(), NoMemory>
    ensures { OnOk result (out.new.items
        ≡ (out.old.items ++ gap_text gap) ++ (letters_of_address area width)) }
{
    append_prefixed(gap, area_letters(area), size_letter(area, width), out)
}

fn append_numbered(gap: Gap, letters: &[u8], number: u16, out: &mut Vec<u8>) -> Result<(), NoMemory>
    ensures { OnOk result (out.new.items
        ≡ with_pieces out.old.items (numbered_pieces gap letters.now number)) }
{
    append_token(gap, letters, out)?;
    append_number(Gap::Blank, u32::from(number), out)
}

fn append_byte_address(
    gap: Gap,
    area: Letters,
    width: Width,
    byte: u16,
    out: &mut Vec<u8>,
) -> Result<(), NoMemory>
    ensures { OnOk result (out.new.items
        ≡ with_pieces out.old.items (numbered_pieces gap (letters_of_address area width) byte)) }
{
    append_letters(gap, area, width, out)?;
    append_number(Gap::Blank, u32::from(byte), out)
}

#[tactic(auto, unfolding(crate::specs::Operands::bit_pieces))]
fn append_bit(width: Width, bit: u8, out: &mut Vec<u8>) -> Result<(), NoMemory>
    ensures { OnOk result (out.new.items ≡ with_pieces out.old.items (bit_pieces width bit)) }
{
    match width {
        Width::Bit => {
            append_mark(Gap::Nothing, Mark::Dot, out)?;
            append_number(Gap::Nothing, u32::from(bit), out)
        }
        _ => Ok(()),
    }
}

/// Appends the address of a byte, word or bit of an area, `MW 2` or `M 0.3`.
pub fn append_address(
    gap: Gap,
    area: Letters,
    width: Width,
    byte: u16,
    bit: u8,
    out: &mut Vec<u8>,
) -> Result<(), NoMemory>
    ensures { OnOk result (out.new.items
        ≡ with_pieces out.old.items (address_pieces gap area width byte bit)) }
{
    append_byte_address(gap, area, width, byte, out)?;
    append_bit(width, bit, out)
}

#[tactic(auto, unfolding(crate::specs::Operands::path_head_pieces))]
fn append_path_head(gap: Gap, head: &PathHead, out: &mut Vec<u8>) -> Result<(), NoMemory>
    ensures { OnOk result
        (out.new.items ≡ with_pieces out.old.items (path_head_pieces gap head.now)) }
{
    match head {
        PathHead::Local { name } => append_local(gap, name.as_bytes(), out),
        PathHead::InBlock { name } => append_block_name(gap, name, out),
        PathHead::Symbol { name } => append_quoted(gap, name.as_bytes(), out),
    }
}

fn append_in_memory(
    from: Letters,
    width: Width,
    byte: u16,
    out: &mut Vec<u8>,
) -> Result<(), NoMemory>
    ensures { OnOk result
        (out.new.items ≡ with_pieces out.old.items (memory_pointer_pieces from width byte)) }
{
    append_mark(Gap::Blank, Mark::OpenBracket, out)?;
    append_byte_address(Gap::Nothing, from, width, byte, out)?;
    append_mark(Gap::Nothing, Mark::CloseBracket, out)
}

fn append_register(register: u8, out: &mut Vec<u8>) -> Result<(), NoMemory>
    ensures { OnOk result (out.new.items
        ≡ (out.old.items ++ []) ++ (codes "AR" ++ decimal register)) }
{
    let mut buffer = Buffer::new();
    append_prefixed(Gap::Nothing, b"AR", buffer.format(register).as_bytes(), out)
}

fn append_in_register(gap: Gap, register: u8, bits: u32, out: &mut Vec<u8>) -> Result<(), NoMemory>
    ensures { OnOk result (out.new.items
        ≡ with_pieces out.old.items (register_pointer_pieces gap register bits)) }
{
    append_mark(gap, Mark::OpenBracket, out)?;
    append_register(register, out)?;
    append_mark(Gap::Nothing, Mark::Comma, out)?;
    append_mark(Gap::Blank, Mark::Pointer, out)?;
    append_number(Gap::Nothing, bits / 8, out)?;
    append_mark(Gap::Nothing, Mark::Dot, out)?;
    append_number(Gap::Nothing, bits % 8, out)?;
    append_mark(Gap::Nothing, Mark::CloseBracket, out)
}

#[tactic(auto, unfolding(crate::specs::Operands::register_operand_pieces))]
fn append_by_register(
    gap: Gap,
    area: Option<Letters>,
    width: Width,
    register: u8,
    bits: u32,
    out: &mut Vec<u8>,
) -> Result<(), NoMemory>
    ensures { OnOk result (out.new.items
        ≡ with_pieces out.old.items (register_operand_pieces gap area width register bits)) }
{
    match (area, width) {
        (Some(area), _) => append_letters(gap, area, width, out)?,
        (None, Width::Bit) => return append_in_register(gap, register, bits, out),
        (None, _) => append_token(gap, width_letter(width), out)?,
    }
    append_in_register(Gap::Blank, register, bits, out)
}

#[tactic(auto, unfolding(crate::specs::Operands::pointer_byte_pieces))]
fn append_pointer_byte(area: Option<Letters>, byte: u16, out: &mut Vec<u8>) -> Result<(), NoMemory>
    ensures { OnOk result
        (out.new.items ≡ with_pieces out.old.items (pointer_byte_pieces area byte)) }
{
    match area {
        None => append_number(Gap::Nothing, u32::from(byte), out),
        Some(area) => append_byte_address(Gap::Nothing, area, Width::Bit, byte, out),
    }
}

fn append_pointer(
    gap: Gap,
    area: Option<Letters>,
    byte: u16,
    bit: u8,
    out: &mut Vec<u8>,
) -> Result<(), NoMemory>
    ensures { OnOk result
        (out.new.items ≡ with_pieces out.old.items (pointer_pieces gap area byte bit)) }
{
    append_mark(gap, Mark::Pointer, out)?;
    append_pointer_byte(area, byte, out)?;
    append_mark(Gap::Nothing, Mark::Dot, out)?;
    append_number(Gap::Nothing, u32::from(bit), out)
}

#[tactic(auto, unfolding(crate::specs::Operands::direct_pieces))]
fn append_direct(
    gap: Gap,
    block: &Option<BlockName>,
    area: Letters,
    width: Width,
    byte: u16,
    bit: u8,
    out: &mut Vec<u8>,
) -> Result<(), NoMemory>
    ensures { OnOk result (out.new.items
        ≡ with_pieces out.old.items (direct_pieces gap block.now area width byte bit)) }
{
    match block {
        None => append_address(gap, area, width, byte, bit, out),
        Some(name) => {
            append_block_name(gap, name, out)?;
            append_mark(Gap::Nothing, Mark::Dot, out)?;
            append_address(Gap::Nothing, area, width, byte, bit, out)
        }
    }
}

#[tactic(auto, unfolding(crate::specs::Operands::opened_block_pieces))]
fn append_opened(gap: Gap, di: bool, name: &BlockName, out: &mut Vec<u8>) -> Result<(), NoMemory>
    ensures { OnOk result
        (out.new.items ≡ with_pieces out.old.items (opened_block_pieces gap di name.now)) }
{
    if !di {
        return append_block_name(gap, name, out);
    }
    match name {
        BlockName::Number { id } => append_numbered(gap, b"DI", id.number, out),
        BlockName::Quoted { name } => append_quoted(gap, name.as_bytes(), out),
    }
}

#[tactic(auto, unfolding(crate::specs::Operands::instance_pieces))]
fn append_instance(instance: &Option<BlockName>, out: &mut Vec<u8>) -> Result<(), NoMemory>
    ensures { OnOk result
        (out.new.items ≡ with_pieces out.old.items (instance_pieces instance.now)) }
{
    match instance {
        None => Ok(()),
        Some(name) => {
            append_mark(Gap::Nothing, Mark::Comma, out)?;
            append_block_name(Gap::Blank, name, out)
        }
    }
}

/// Appends an operand behind a gap; nothing where there is none.
#[tactic(auto, unfolding(crate::specs::Operands::operand_pieces))]
pub(crate) fn append_operand(gap: Gap, operand: &Operand, out: &mut Vec<u8>) -> Result<(), NoMemory>
    ensures { OnOk result (out.new.items
        ≡ with_pieces out.old.items (operand_pieces gap operand.now)) }
{
    match operand {
        Operand::Nothing => Ok(()),
        Operand::Direct {
            block,
            area,
            width,
            byte,
            bit,
        } => append_direct(gap, block, *area, *width, *byte, *bit, out),
        Operand::Timer { number } => append_numbered(gap, b"T", *number, out),
        Operand::Counter { number } => append_numbered(gap, b"C", *number, out),
        Operand::Named { head, steps } => {
            append_path_head(gap, head, out)?;
            append_steps(steps.as_slice(), out)
        }
        Operand::ByMemory {
            area,
            width,
            from,
            byte,
        } => {
            append_letters(gap, *area, *width, out)?;
            append_in_memory(*from, Width::Dword, *byte, out)
        }
        Operand::NumberBy { what, from, byte } => {
            append_token(gap, numbered_letters(*what), out)?;
            append_in_memory(*from, Width::Word, *byte, out)
        }
        Operand::ByRegister {
            area,
            width,
            register,
            bits,
        } => append_by_register(gap, *area, *width, *register, *bits, out),
        Operand::Pointer { area, byte, bit } => append_pointer(gap, *area, *byte, *bit, out),
        Operand::Constant { value } => append_literal(gap, value, out),
        Operand::Label { name } => append_token(gap, name.as_bytes(), out),
        Operand::OfStatus { flag } => append_token(gap, flag_text(*flag), out),
        Operand::Other { name } => append_token(gap, name.as_bytes(), out),
        Operand::OpenBlock { di, name } => append_opened(gap, *di, name, out),
        Operand::Called { name, instance } => {
            append_block_name(gap, name, out)?;
            append_instance(instance, out)
        }
    }
}
