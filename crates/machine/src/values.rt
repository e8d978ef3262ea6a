//! What an operand reads as, and writing to a place.
ghost use Rattle.std.specs.Prelude.{◌≡◌, ◌<◌, ◌^◌, ℕ, Err};
ghost use Rattle.plc_base.specs.Widths.{bit_count};
ghost use Rattle.flat_code.specs.Kinds.{flag_of as flag_of_condition};
ghost use Rattle.machine.specs.ExecState.{local_of};
ghost use Rattle.machine.specs.Outcomes.{ChangesLocalMemory};
ghost use Rattle.machine.specs.Values.{number_of_binding as number_of_binding_of, operand_number as number_of, bit_of_numbered as bit_of_numbered_of, value_of_numbered as value_of_numbered_of, bcd_of_numbered as bcd_of_numbered_of, number_named as number_named_of, bcd_loaded as bcd_loaded_of, with_timer_error, checked_bit as tested_of, load_value as loaded_of, bit_of_number, number_written_at as write_of};

use crate::places::{
    Access, Location, NO_OPERAND, area_location, operand_location, pointer_word, read,
};
use flat_code::{CONDITIONS, Operand, TIMER_KIND};
use frames::{Binding, Running};
use plc_base::{Area, Flag, Width, error_codes};
use plc_mem::Memory;
use timers_counters::{Counters, TimerFault, Timers};

fn number_of_binding(binding: Option<Binding>, s: &Running, m: &Memory) -> Result<u32, u8>
    ensures { result ≡ number_of_binding_of binding (local_of s.now) m.now }
{
    match binding {
        Some(
            Binding::AtPlace {
                place,
                width,
                frame,
            },
        ) => {
            let at = Location {
                place,
                width,
                frame,
            };
            read(&at, s, m)
        }
        Some(Binding::Constant { value }) => Ok(value),
        _ => Err(NO_OPERAND),
    }
}

/// The number of an operand that is a constant or has a place.
#[tactic(auto, unfolding(crate::specs::Values::operand_number))]
#[inline(never)]
pub(crate) fn number(operand: &Operand, s: &Running, m: &Memory) -> Result<u32, u8>
    ensures { result ≡ number_of operand.now (local_of s.now) m.now }
{
    match *operand {
        Operand::Literal { value } => Ok(value),
        Operand::Parameter { index, .. } => number_of_binding(s.frame.bindings.get(index), s, m),
        _ => {
            let at = operand_location(Access::Reading, operand, s, m)?;
            read(&at, s, m)
        }
    }
}

// The number of an operand with a fixed place.
#[tactic(auto, unfolding(crate::specs::Values::operand_number, crate::specs::Places::operand_location))]
#[inline(always)]
fn direct_operand_number(
    area: Area,
    width: Width,
    byte: u16,
    bit: u8,
    s: &Running,
    m: &Memory,
) -> Result<u32, u8>
    ensures { result ≡ number_of (Operand.Direct area width byte bit) (local_of s.now) m.now }
{
    let at = area_location(Access::Reading, area, byte, bit, width, s)?;
    let number = read(&at, s, m)?;
    Ok(number)
}

/// The code of a fault of a timer or counter, where `code` is that of a number that there isn't.
pub(crate) fn fault_code(fault: TimerFault, code: u8) -> u8
    ensures { with_timer_error {A = ℕ} code (Err fault) ≡ Err result }
{
    match fault {
        TimerFault::NoNumber => code,
        TimerFault::BadBcd => error_codes::BAD_BCD,
    }
}

fn bit_or(found: Result<bool, TimerFault>, code: u8) -> Result<bool, u8>
    ensures { result ≡ with_timer_error code found }
{
    match found {
        Ok(bit) => Ok(bit),
        Err(fault) => Err(fault_code(fault, code)),
    }
}

fn number_or(found: Result<u16, TimerFault>, code: u8) -> Result<u32, u8>
    ensures { result ≡ with_timer_error code found }
{
    match found {
        Ok(number) => Ok(u32::from(number)),
        Err(fault) => Err(fault_code(fault, code)),
    }
}

#[tactic(auto, unfolding(crate::specs::Values::bit_of_numbered))]
fn bit_of_numbered(kind: u8, number: u16, t: &Timers, n: &Counters) -> Result<bool, u8>
    ensures { result ≡ bit_of_numbered_of kind number t.now n.now }
{
    if kind == TIMER_KIND {
        bit_or(t.output(number), error_codes::NO_TIMER)
    } else {
        bit_or(n.output(number), error_codes::NO_COUNTER)
    }
}

#[tactic(auto, unfolding(crate::specs::Values::value_of_numbered))]
fn value_of_numbered(kind: u8, number: u16, t: &Timers, n: &Counters) -> Result<u32, u8>
    ensures { result ≡ value_of_numbered_of kind number t.now n.now }
{
    if kind == TIMER_KIND {
        number_or(t.value(number), error_codes::NO_TIMER)
    } else {
        number_or(n.value(number), error_codes::NO_COUNTER)
    }
}

#[tactic(auto, unfolding(crate::specs::Values::bcd_of_numbered))]
fn bcd_of_numbered(kind: u8, number: u16, t: &Timers, n: &Counters) -> Result<u32, u8>
    ensures { result ≡ bcd_of_numbered_of kind number t.now n.now }
{
    if kind == TIMER_KIND {
        number_or(t.bcd(number), error_codes::NO_TIMER)
    } else {
        number_or(n.bcd(number), error_codes::NO_COUNTER)
    }
}

/// The number of a timer or counter: the one in the operand, or the word at a place.
#[tactic(auto, unfolding(crate::specs::Values::number_named))]
pub(crate) fn number_named(operand: &Operand, s: &Running, m: &Memory) -> Result<u16, u8>
    ensures { result ≡ number_named_of operand.now (local_of s.now) m.now }
{
    match *operand {
        Operand::Numbered { number, .. } => Ok(number),
        Operand::NumberedBy { from, byte, .. } => pointer_word(from, byte, s, m),
        _ => Err(NO_OPERAND),
    }
}

// What a condition of the status word asks, by its number.
#[tactic(auto, unfolding(flat_code::specs::Kinds::flag_of))]
fn flag_of(condition: u8) -> Flag
    ensures { result ≡ flag_of_condition condition }
{
    let place = usize::from(condition).saturating_sub(1);
    CONDITIONS.get(place).copied().unwrap_or(Flag::Br)
}

#[inline(never)]
fn bit(operand: &Operand, s: &Running, m: &Memory) -> Result<bool, u8>
    ensures { result ≡ bit_of_number (number_of operand.now (local_of s.now) m.now) }
{
    Ok(number(operand, s, m)? == 1)
}

// The bit that a check reads where its operand has no fixed place.
#[tactic(auto, unfolding(crate::specs::Values::checked_bit))]
#[inline(never)]
fn checked_bit_elsewhere(
    operand: &Operand,
    s: &Running,
    m: &Memory,
    t: &Timers,
    n: &Counters,
) -> Result<bool, u8>
    ensures { result ≡ tested_of operand.now (local_of s.now) m.now t.now n.now }
{
    match *operand {
        Operand::Numbered { kind, number } => bit_of_numbered(kind, number, t, n),
        Operand::NumberedBy { kind, from, byte } => {
            let number = pointer_word(from, byte, s, m)?;
            bit_of_numbered(kind, number, t, n)
        }
        Operand::OfStatus { condition } => Ok(s.regs.flag(flag_of(condition))),
        _ => bit(operand, s, m),
    }
}

// The bit at a fixed place. Each area has its arm, so that the compiler joins it with the memory's
// own.
#[inline(always)]
fn direct_bit(area: Area, byte: u16, bit: u8, s: &Running, m: &Memory) -> Result<bool, u8>
    ensures { result ≡ bit_of_number (number_of (Operand.Direct area Width.Bit byte bit)
        (local_of s.now) m.now) }
{
    let number = match area {
        Area::I => direct_operand_number(Area::I, Width::Bit, byte, bit, s, m),
        Area::Q => direct_operand_number(Area::Q, Width::Bit, byte, bit, s, m),
        Area::M => direct_operand_number(Area::M, Width::Bit, byte, bit, s, m),
        Area::Db => direct_operand_number(Area::Db, Width::Bit, byte, bit, s, m),
        Area::Di => direct_operand_number(Area::Di, Width::Bit, byte, bit, s, m),
        Area::L => direct_operand_number(Area::L, Width::Bit, byte, bit, s, m),
        Area::P => direct_operand_number(Area::P, Width::Bit, byte, bit, s, m),
    };
    Ok(number? == 1)
}

/// The bit that a check reads.
#[tactic(auto, unfolding(crate::specs::Values::checked_bit))]
#[inline(always)]
pub(crate) fn checked_bit(
    operand: &Operand,
    s: &Running,
    m: &Memory,
    t: &Timers,
    n: &Counters,
) -> Result<bool, u8>
    ensures { result ≡ tested_of operand.now (local_of s.now) m.now t.now n.now }
{
    match *operand {
        Operand::Direct {
            area,
            width: Width::Bit,
            byte,
            bit,
        } => direct_bit(area, byte, bit, s, m),
        _ => checked_bit_elsewhere(operand, s, m, t, n),
    }
}

// The number that L reads where its operand has no fixed place.
#[tactic(auto, unfolding(crate::specs::Values::load_value))]
#[inline(never)]
fn load_value_elsewhere(
    operand: &Operand,
    s: &Running,
    m: &Memory,
    t: &Timers,
    n: &Counters,
) -> Result<u32, u8>
    ensures { result ≡ loaded_of operand.now (local_of s.now) m.now t.now n.now }
{
    match *operand {
        Operand::Numbered { kind, number } => value_of_numbered(kind, number, t, n),
        Operand::NumberedBy { kind, from, byte } => {
            let number = pointer_word(from, byte, s, m)?;
            value_of_numbered(kind, number, t, n)
        }
        _ => number(operand, s, m),
    }
}

/// The number that L reads.
#[tactic(auto, unfolding(crate::specs::Values::load_value))]
#[inline(always)]
pub(crate) fn load_value(
    operand: &Operand,
    s: &Running,
    m: &Memory,
    t: &Timers,
    n: &Counters,
) -> Result<u32, u8>
    ensures { result ≡ loaded_of operand.now (local_of s.now) m.now t.now n.now }
{
    match *operand {
        Operand::Direct {
            area,
            width,
            byte,
            bit,
        } => direct_operand_number(area, width, byte, bit, s, m),
        _ => load_value_elsewhere(operand, s, m, t, n),
    }
}

/// The number that LC reads.
#[tactic(auto, unfolding(crate::specs::Values::bcd_loaded))]
pub(crate) fn bcd_loaded(
    operand: &Operand,
    s: &Running,
    m: &Memory,
    t: &Timers,
    n: &Counters,
) -> Result<u32, u8>
    ensures { result ≡ bcd_loaded_of operand.now (local_of s.now) m.now t.now n.now }
{
    match *operand {
        Operand::Numbered { kind, number } => bcd_of_numbered(kind, number, t, n),
        Operand::NumberedBy { kind, from, byte } => {
            let number = pointer_word(from, byte, s, m)?;
            bcd_of_numbered(kind, number, t, n)
        }
        _ => Err(NO_OPERAND),
    }
}

/// Writes a number to a place.
#[tactic(auto, unfolding(crate::specs::Values::number_written_at))]
#[inline(always)]
pub(crate) fn write(at: &Location, value: u32, s: &mut Running, m: &mut Memory) -> Result<(), u8>
    requires { value < 2 ^ bit_count at.now.width }
    ensures written { ChangesLocalMemory (write_of at.now value (local_of s.old) m.old)
        s.old s.new m.old m.new result }
    ensures registers { s.new.regs ≡ s.old.regs }
{
    let place = at.place;
    match place.area {
        Area::L => match s
            .locals
            .put(at.frame, place.byte, place.bit, at.width, value)
        {
            Ok(()) => Ok(()),
            Err(_) => Err(Access::Writing.absent(place.area)),
        },
        _ => match m.write(place, at.width, value) {
            Ok(()) => Ok(()),
            Err(_) => Err(Access::Writing.absent(place.area)),
        },
    }
}
