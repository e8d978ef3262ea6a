//! The operand of a statement by that of its op.
ghost use Rattle.std.specs.Prelude.{◌≡◌, option_map, IfOk};
ghost use Rattle.flat_code.specs.Operations.{operation_of};
ghost use Rattle.std.specs.List.Sorted.{IsStrictlySortedBy};
ghost use Rattle.std.specs.Ordering.{nat_cmp};
ghost use Rattle.stl_list.specs.Labels.{label_of_number};
ghost use Rattle.stl_list.specs.Runs.{statement_number_at};
ghost use Rattle.stl_parser.specs.Operands.{data_block_name};
ghost use Rattle.stl_list.specs.Operands.{
  condition_operand,
  direct_operand,
  implied_operand,
  instance_name,
  letters_for_area,
  name_at,
  numbered_by,
  block_opened_by_ops,
  operand_by,
  own_parameter,
  plain_operand,
  read_letters,
  data_block_register,
  timer_or_counter,
  operation_writes_operand,
};

use crate::constants::instruction_constant;
use crate::labels::label_of_number;
use crate::links::called_id;
use crate::parameters::parameter_name;
use crate::runs::statement_number_at;
use flat_code::{
    DB_REGISTER_NUMBER, DI_REGISTER_NUMBER, Op, Operand as FlatOperand, Operation,
    PointerOperation, TIMER_KIND, flag_of,
};
use plc_base::{Area, BlockId, BlockKind, NoMemory, Width};
use std::alloc::Global;
use stl_ast::{BlockName, Letters, Name, Numbered, Operand, PathHead, Sequence};
use stl_types::Formal;

/// The letters of an area; those of peripherals say which way they are used.
pub(crate) fn letters_of(writes: bool, area: Area) -> Letters
    ensures { result ≡ letters_for_area writes area }
{
    match area {
        Area::I => Letters::I,
        Area::Q => Letters::Q,
        Area::M => Letters::M,
        Area::Db => Letters::Db,
        Area::Di => Letters::Di,
        Area::L => Letters::L,
        Area::P => { if writes { Letters::Pq } else { Letters::Pi } }
    }
}

/// The letters of an area that isn't peripherals, or that is only read.
pub(crate) fn read_letters(area: Area) -> Letters
    ensures { result ≡ read_letters area }
{
    letters_of(false, area)
}

fn letters_left(area: Option<Area>) -> Option<Letters>
    ensures { result ≡ option_map read_letters area }
{
    match area {
        None => None,
        Some(area) => Some(read_letters(area)),
    }
}

/// Whether an instruction writes its operand.
fn writes(operation: Operation) -> bool
    ensures { result ≡ operation_writes_operand operation }
{
    matches!(
        operation,
        Operation::Transfer
            | Operation::Assign
            | Operation::Set
            | Operation::Reset
            | Operation::Edge { .. }
            | Operation::Pointer(PointerOperation::Tar1 | PointerOperation::Tar2)
    )
}

/// A data block by its number.
pub(crate) fn data_block_name(number: u16) -> BlockName
    ensures { result ≡ data_block_name number }
{
    BlockName::Number {
        id: BlockId {
            kind: BlockKind::Db,
            number,
        },
    }
}

/// The data block that a statement opens first, which its first op names.
pub(crate) fn opened_by(before: &[Op]) -> Option<u16>
    ensures { result ≡ block_opened_by_ops before.now }
{
    match before {
        [] => None,
        [op, ..] => match op.operand {
            FlatOperand::UseDb { number } => Some(number),
            _ => None,
        },
    }
}

/// The name of the parameter of an index.
fn name_at(alloc: Global, formals: &[Formal], index: u8) -> Result<Name, NoMemory>
    ensures { IfOk result (λ name. name ≡ name_at formals.now index) }
{
    match formals.get(index as usize) {
        None => parameter_name(alloc, index as usize),
        Some(formal) => Name::new(alloc, formal.name.as_bytes()),
    }
}

/// A parameter of the function itself.
pub(crate) fn own_parameter(
    alloc: Global,
    formals: &[Formal],
    index: u8,
) -> Result<Operand, NoMemory>
    ensures { IfOk result (λ o. o ≡ own_parameter formals.now index) }
{
    Ok(Operand::Named {
        head: PathHead::Local {
            name: name_at(alloc, formals, index)?,
        },
        steps: Sequence::from_vec(Vec::new(alloc)),
    })
}

fn other(alloc: Global, name: &[u8]) -> Result<Operand, NoMemory>
    ensures { IfOk result (λ o. o ≡ Operand.Other name.now) }
{
    Ok(Operand::Other {
        name: Name::new(alloc, name)?,
    })
}

/// What an instruction without operand in the code has in a source.
fn implied_operand(alloc: Global, operation: Operation) -> Result<Operand, NoMemory>
    ensures { IfOk result (λ o. o ≡ implied_operand operation) }
{
    match operation {
        Operation::LoadStatus | Operation::TransferStatus => other(alloc, b"STW"),
        Operation::Pointer(PointerOperation::Lar1Ar2 | PointerOperation::Tar1Ar2) => {
            other(alloc, b"AR2")
        }
        _ => Ok(Operand::Nothing),
    }
}

/// A timer, of kind 1, or a counter.
fn timer_or_counter(kind: u8, number: u16) -> Operand
    ensures { result ≡ timer_or_counter kind number }
{
    if kind == TIMER_KIND {
        Operand::Timer { number }
    } else {
        Operand::Counter { number }
    }
}

fn numbered_by(kind: u8) -> Numbered
    ensures { result ≡ numbered_by kind }
{
    if kind == TIMER_KIND {
        Numbered::Timer
    } else {
        Numbered::Counter
    }
}

/// The register of a data block, 1 DB or 2 DI.
fn data_block_register(register: u8) -> Numbered
    ensures { result ≡ data_block_register register }
{
    if register == DB_REGISTER_NUMBER {
        Numbered::Db
    } else {
        Numbered::Di
    }
}

fn instance_name(instance: u16) -> Option<BlockName>
    ensures { result ≡ instance_name instance }
{
    if instance == 0 {
        None
    } else {
        Some(data_block_name(instance))
    }
}

fn block_name(opened: Option<u16>) -> Option<BlockName>
    ensures { result ≡ option_map data_block_name opened }
{
    match opened {
        None => None,
        Some(number) => Some(data_block_name(number)),
    }
}

/// A fixed place, in the data block that is opened first, if one is.
pub(crate) fn direct_operand(
    opened: Option<u16>,
    writes: bool,
    area: Area,
    width: Width,
    byte: u16,
    bit: u8,
) -> Operand
    ensures { result ≡ direct_operand opened writes area width byte bit }
{
    Operand::Direct {
        block: block_name(opened),
        area: letters_of(writes, area),
        width,
        byte,
        bit,
    }
}

/// The label of the statement at an offset.
fn target(alloc: Global, starts: &[u32], offset: u32) -> Result<Operand, NoMemory>
    requires { IsStrictlySortedBy nat_cmp starts.now }
    ensures { IfOk result
        (λ o. o ≡ Operand.Label (label_of_number (statement_number_at starts.now offset))) }
{
    Ok(Operand::Label {
        name: label_of_number(alloc, statement_number_at(starts, offset))?,
    })
}

/// A condition of the status word.
#[tactic(auto, unfolding(flat_code::specs::Ops::is_op))]
fn condition_operand(op: &Op) -> Operand
    ensures { result ≡ condition_operand op.now.operand }
{
    match op.operand {
        FlatOperand::OfStatus { condition } => Operand::OfStatus {
            flag: flag_of(condition),
        },
        _ => Operand::Nothing,
    }
}

/// The operand of an op that names no parameter, no label and no constant.
#[tactic(auto, unfolding(crate::specs::Operands::plain_operand))]
fn plain_operand(opened: Option<u16>, op: &Op) -> Operand
    ensures { result ≡ plain_operand opened (operation_of op.now.code) op.now.operand }
{
    match op.operand {
        FlatOperand::Direct {
            area,
            width,
            byte,
            bit,
        } => direct_operand(opened, writes(op.operation()), area, width, byte, bit),
        FlatOperand::ByMemory {
            area,
            width,
            from,
            byte,
        } => Operand::ByMemory {
            area: read_letters(area),
            width,
            from: read_letters(from),
            byte,
        },
        FlatOperand::ByRegister {
            area,
            width,
            register,
            bits,
        } => Operand::ByRegister {
            area: letters_left(area),
            width,
            register,
            bits,
        },
        FlatOperand::Numbered { kind, number } => timer_or_counter(kind, number),
        FlatOperand::NumberedBy { kind, from, byte } => Operand::NumberBy {
            what: numbered_by(kind),
            from: read_letters(from),
            byte,
        },
        FlatOperand::Called {
            kind,
            number,
            instance,
        } => Operand::Called {
            name: BlockName::Number {
                id: called_id(kind, number),
            },
            instance: instance_name(instance),
        },
        FlatOperand::OpenBlock { register, number } => Operand::OpenBlock {
            di: register == DI_REGISTER_NUMBER,
            name: data_block_name(number),
        },
        FlatOperand::OpenBy {
            register,
            from,
            byte,
        } => Operand::NumberBy {
            what: data_block_register(register),
            from: read_letters(from),
            byte,
        },
        _ => condition_operand(op),
    }
}

/// The operand of an op. `formals` are the parameters of its block, `starts` the offsets of the
/// statements, `opened` is the data block that the statement opens first.
#[tactic(auto, unfolding(crate::specs::Operands::operand_by))]
pub(crate) fn operand_by(
    alloc: Global,
    formals: &[Formal],
    starts: &[u32],
    opened: Option<u16>,
    op: &Op,
) -> Result<Operand, NoMemory>
    requires { IsStrictlySortedBy nat_cmp starts.now }
    ensures { IfOk result (λ o. o ≡ operand_by formals.now starts.now opened
        (operation_of op.now.code) op.now.operand) }
{
    match op.operand {
        FlatOperand::Nothing => implied_operand(alloc, op.operation()),
        FlatOperand::Literal { value } => instruction_constant(alloc, op.operation(), value),
        FlatOperand::Parameter { index, .. } => own_parameter(alloc, formals, index),
        FlatOperand::Jump { target: offset, .. } => target(alloc, starts, offset),
        _ => Ok(plain_operand(opened, op)),
    }
}
