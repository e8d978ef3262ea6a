ghost use Rattle.std.specs.Prelude.{◌≡◌, ◌≤◌, IfSome};
ghost use Rattle.std.specs.Option.{IfNone};
ghost use Rattle.stl_codegen.specs.Fitting.{IsNoOperand, IsStill};
ghost use Rattle.stl_codegen.specs.Operands.{
  constant_bits,
  direct_flat_operand,
  is_in_named_block,
  numbered_operand,
  block_opened_by_operand,
  block_opened_by_place,
  flat_operand_of,
  pointer_bits,
  register_operand,
};

use block_layout::{bits_of, width_of};
use flat_code::{
    COUNTER_KIND, DB_REGISTER_NUMBER, DI_REGISTER_NUMBER, Operand as FlatOperand, TIMER_KIND,
    condition_number,
};
use plc_base::{Area, Place, Width};
use stl_ast::{Numbered, Operand};
use stl_types::{Register, ResolvedOperand};

/// Whether a place stands in a data block that is named, which the statement opens first.
pub(crate) fn is_in_named_block(place: Place) -> bool
    ensures { result ≡ is_in_named_block place }
{
    matches!(place.area, Area::Db) && place.number != 0
}

fn block_opened_by_place(place: Place) -> Option<u16>
    ensures { result ≡ block_opened_by_place place }
{
    if is_in_named_block(place) {
        Some(place.number)
    } else {
        None
    }
}

/// The data block that a statement opens first.
pub(crate) fn block_opened_by_operand(view: ResolvedOperand) -> Option<u16>
    ensures { result ≡ block_opened_by_operand view }
{
    match view {
        ResolvedOperand::Direct { place, .. } => block_opened_by_place(place),
        _ => None,
    }
}

fn direct(place: Place, width: Width) -> FlatOperand
    ensures { result ≡ direct_flat_operand place width }
{
    FlatOperand::Direct {
        area: place.area,
        width,
        byte: place.byte,
        bit: place.bit,
    }
}

/// The bits of a pointer constant, by its area where it has one.
fn pointer_bits(area: Option<Area>, byte: u16, bit: u8) -> u32
    ensures { result ≡ pointer_bits area byte bit }
{
    let within = 8 * byte as u32 + bit as u32;
    match area {
        None => within,
        Some(area) => 0x8000_0000 + 0x0100_0000 * u32::from(area.number()) + within,
    }
}

/// The bits of a constant.
pub(crate) fn constant_bits(operand: &Operand) -> u32
    ensures { result ≡ constant_bits operand.now }
{
    match operand {
        Operand::Constant { value } => bits_of(value),
        _ => 0,
    }
}

fn register_operand(register: Register) -> FlatOperand
    ensures { result ≡ register_operand register }
{
    match register {
        Register::Dblg => FlatOperand::Literal { value: 0 },
        Register::Dbno => FlatOperand::Literal { value: 1 },
        Register::Dilg => FlatOperand::Literal { value: 2 },
        Register::Dino => FlatOperand::Literal { value: 3 },
        _ => FlatOperand::Nothing,
    }
}

fn numbered_operand(what: Numbered, from: Area, byte: u16) -> FlatOperand
    ensures { result ≡ numbered_operand what from byte }
{
    match what {
        Numbered::Timer => FlatOperand::NumberedBy {
            kind: TIMER_KIND,
            from,
            byte,
        },
        Numbered::Counter => FlatOperand::NumberedBy {
            kind: COUNTER_KIND,
            from,
            byte,
        },
        Numbered::Db => FlatOperand::OpenBy {
            register: DB_REGISTER_NUMBER,
            from,
            byte,
        },
        Numbered::Di => FlatOperand::OpenBy {
            register: DI_REGISTER_NUMBER,
            from,
            byte,
        },
    }
}

/// An index of a parameter in an op, which has a byte for it.
pub(crate) fn index_byte(index: usize) -> Option<u8>
    ensures value { IfSome result (λ byte. byte ≡ index) }
    ensures large { IfNone result (256 ≤ index) }
{
    if index <= 255 {
        Some(index as u8)
    } else {
        None
    }
}

/// The operand of an instruction that goes on to the next statement. `None` where it is a parameter
/// of so high an index that no op has it.
#[tactic(auto, unfolding(crate::specs::Operands::flat_operand_of))]
pub(crate) fn flat_operand_of(operand: &Operand, view: ResolvedOperand) -> Option<FlatOperand>
    ensures value { IfSome result (λ o. o ≡ flat_operand_of operand.now view) }
    ensures still { IfSome result (λ o. IsStill o) }
    ensures none { IfNone result (IsNoOperand (flat_operand_of operand.now view)) }
{
    match view {
        ResolvedOperand::Direct { place, width, .. } => Some(direct(place, width)),
        ResolvedOperand::Parameter {
            index,
            declared,
            ..
        } => Some(FlatOperand::Parameter {
            index: index_byte(index)?,
            width: width_of(declared),
        }),
        ResolvedOperand::ByMemory {
            area,
            width,
            from,
            byte,
        } => Some(FlatOperand::ByMemory {
            area,
            width,
            from,
            byte,
        }),
        ResolvedOperand::ByRegister {
            area,
            width,
            register,
            bits,
        } => Some(FlatOperand::ByRegister {
            area,
            width,
            register,
            bits,
        }),
        ResolvedOperand::Timer { number } => Some(FlatOperand::Numbered {
            kind: TIMER_KIND,
            number,
        }),
        ResolvedOperand::Counter { number } => Some(FlatOperand::Numbered {
            kind: COUNTER_KIND,
            number,
        }),
        ResolvedOperand::NumberBy { what, from, byte } => Some(numbered_operand(what, from, byte)),
        ResolvedOperand::Constant => Some(FlatOperand::Literal {
            value: constant_bits(operand),
        }),
        ResolvedOperand::Pointer { area, byte, bit } => Some(FlatOperand::Literal {
            value: pointer_bits(area, byte, bit),
        }),
        ResolvedOperand::OfStatus { flag } => Some(FlatOperand::OfStatus {
            condition: condition_number(flag),
        }),
        ResolvedOperand::Register { which } => Some(register_operand(which)),
        ResolvedOperand::OpenBlock { di, number } => Some(FlatOperand::OpenBlock {
            register: if di {
                DI_REGISTER_NUMBER
            } else {
                DB_REGISTER_NUMBER
            },
            number,
        }),
        _ => Some(FlatOperand::Nothing),
    }
}
