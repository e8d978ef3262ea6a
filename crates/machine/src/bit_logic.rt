//! Bit logic with an operand: A AN O ON X XN, =, S, R, FP, FN.
ghost use Rattle.std.specs.Prelude.{◌≡◌, ◌<◌};
ghost use Rattle.machine.specs.ExecState.{local_of, then_ok};
ghost use Rattle.machine.specs.Outcomes.{ChangesLocalMemory, ChangesRunningRegs};
ghost use Rattle.status_word.specs.StatusNumber.{bit_as_number as number_of_bit};
ghost use Rattle.machine.specs.BitLogic.{regs_after_bit_check, put_bit as put_bit_of, bit_before as bit_before_of, bit_after_set as bit_after_of, bit_assigned, bit_assigned_at, bit_set_at as set_at_of, bit_set as bit_set_of, local_memory_after_edge as edge_of};

use crate::places::{Access, Location, area_location, location_number, operand_location};
use crate::relay::power_flow;
use crate::values::{checked_bit, write};
use flat_code::Operand;
use frames::Running;
use plc_base::{Area, Check, Width};
use plc_mem::Memory;
use status_word::Regs;
use timers_counters::{Counters, Timers};

/// A, AN, O, ON, X, XN.
#[tactic(auto, unfolding(crate::specs::BitLogic::regs_after_bit_check))]
#[inline(always)]
pub(crate) fn check(
    with: Check,
    operand: &Operand,
    s: &mut Running,
    m: &Memory,
    t: &Timers,
    n: &Counters,
) -> Result<(), u8>
    ensures { ChangesRunningRegs (regs_after_bit_check with operand.now (local_of s.old)
        m.now t.now n.now)
        s.old s.new result }
{
    let bit = checked_bit(operand, s, m, t, n)?;
    s.regs.check(with, bit);
    Ok(())
}

fn bit_as_number(bit: bool) -> u32
    ensures value { result ≡ number_of_bit bit }
    ensures fits { result < 2 }
{
    if bit { 1 } else { 0 }
}

// The bit at a place that is to be written.
#[tactic(auto, unfolding(crate::specs::BitLogic::bit_before))]
#[inline(always)]
fn bit_before(at: &Location, s: &Running, m: &Memory) -> Result<bool, u8>
    ensures { result ≡ bit_before_of at.now (local_of s.now) m.now }
{
    match location_number(at, &s.locals, m) {
        Some(number) => Ok(number == 1),
        None => Err(Access::Writing.absent(at.place.area)),
    }
}

// Writes a bit to a place, with other registers.
#[tactic(auto, unfolding(crate::specs::BitLogic::put_bit))]
#[inline(always)]
fn put_bit(at: &Location, bit: bool, regs: Regs, s: &mut Running, m: &mut Memory) -> Result<(), u8>
    ensures { ChangesLocalMemory (put_bit_of at.now bit regs (local_of s.old) m.old)
        s.old s.new m.old m.new result }
{
    write(at, bit_as_number(bit), s, m)?;
    s.regs = regs;
    Ok(())
}

// = at a place. The status bits change in place once the bit is written, so no register is copied.
#[tactic(auto, unfolding(crate::specs::BitLogic::put_bit))]
#[inline(always)]
fn assign_at(at: &Location, s: &mut Running, m: &mut Memory) -> Result<(), u8>
    ensures { ChangesLocalMemory (bit_assigned_at at.now (local_of s.old) m.old)
        s.old s.new m.old m.new result }
{
    let value = power_flow(s);
    write(at, bit_as_number(value), s, m)?;
    s.regs.store(value);
    Ok(())
}

// = with a fixed place. Each area has its arm, so that the compiler joins it with the memory's own.
#[inline(always)]
fn assign_direct(area: Area, byte: u16, bit: u8, s: &mut Running, m: &mut Memory) -> Result<(), u8>
    ensures { ChangesLocalMemory (bit_assigned (Operand.Direct area Width.Bit byte bit)
        (local_of s.old) m.old)
        s.old s.new m.old m.new result }
{
    match area {
        Area::I => assign_in(Area::I, byte, bit, s, m),
        Area::Q => assign_in(Area::Q, byte, bit, s, m),
        Area::M => assign_in(Area::M, byte, bit, s, m),
        Area::Db => assign_in(Area::Db, byte, bit, s, m),
        Area::Di => assign_in(Area::Di, byte, bit, s, m),
        Area::L => assign_in(Area::L, byte, bit, s, m),
        Area::P => assign_in(Area::P, byte, bit, s, m),
    }
}

// = with a fixed place in an area that is known where this is called.
#[tactic(auto, unfolding(crate::specs::BitLogic::bit_assigned, crate::specs::Places::operand_location))]
#[inline(always)]
fn assign_in(area: Area, byte: u16, bit: u8, s: &mut Running, m: &mut Memory) -> Result<(), u8>
    ensures { ChangesLocalMemory (bit_assigned (Operand.Direct area Width.Bit byte bit)
        (local_of s.old) m.old)
        s.old s.new m.old m.new result }
{
    let at = area_location(Access::Writing, area, byte, bit, Width::Bit, s)?;
    assign_at(&at, s, m)
}

// = where the operand has no fixed place.
#[tactic(auto, unfolding(crate::specs::BitLogic::bit_assigned))]
#[inline(never)]
fn assign_elsewhere(operand: &Operand, s: &mut Running, m: &mut Memory) -> Result<(), u8>
    ensures { ChangesLocalMemory (bit_assigned operand.now (local_of s.old) m.old)
        s.old s.new m.old m.new result }
{
    let at = operand_location(Access::Writing, operand, s, m)?;
    assign_at(&at, s, m)
}

/// =.
#[inline(always)]
pub(crate) fn assign(operand: &Operand, s: &mut Running, m: &mut Memory) -> Result<(), u8>
    ensures { ChangesLocalMemory (bit_assigned operand.now (local_of s.old) m.old)
        s.old s.new m.old m.new result }
{
    match *operand {
        Operand::Direct {
            area,
            width: Width::Bit,
            byte,
            bit,
        } => assign_direct(area, byte, bit, s, m),
        _ => assign_elsewhere(operand, s, m),
    }
}

fn bit_after(flow: bool, value: bool, before: bool) -> bool
    ensures { result ≡ bit_after_of flow value before }
{
    if flow { value } else { before }
}

// S and R of a bit at a place.
#[tactic(auto, unfolding(crate::specs::BitLogic::put_bit))]
#[inline(always)]
fn set_at(value: bool, at: &Location, s: &mut Running, m: &mut Memory) -> Result<(), u8>
    ensures { ChangesLocalMemory (then_ok (bit_before_of at.now (local_of s.old) m.old)
        (λ before. set_at_of value at.now before (local_of s.old) m.old))
        s.old s.new m.old m.new result }
{
    let before = bit_before(at, s, m)?;
    let mut regs = s.regs;
    let bit = bit_after(power_flow(s), value, before);
    regs.store(bit);
    put_bit(at, bit, regs, s, m)
}

// S and R with a fixed place.
#[tactic(auto, unfolding(crate::specs::BitLogic::bit_set, crate::specs::Places::operand_location))]
#[inline(never)]
fn set_direct(
    value: bool,
    area: Area,
    byte: u16,
    bit: u8,
    s: &mut Running,
    m: &mut Memory,
) -> Result<(), u8>
    ensures { ChangesLocalMemory (bit_set_of value (Operand.Direct area Width.Bit byte bit)
        (local_of s.old) m.old)
        s.old s.new m.old m.new result }
{
    let at = area_location(Access::Writing, area, byte, bit, Width::Bit, s)?;
    set_at(value, &at, s, m)
}

// S and R where the operand has no fixed place.
#[tactic(auto, unfolding(crate::specs::BitLogic::bit_set))]
#[inline(never)]
fn set_elsewhere(value: bool, operand: &Operand, s: &mut Running, m: &mut Memory) -> Result<(), u8>
    ensures { ChangesLocalMemory (bit_set_of value operand.now (local_of s.old) m.old)
        s.old s.new m.old m.new result }
{
    let at = operand_location(Access::Writing, operand, s, m)?;
    set_at(value, &at, s, m)
}

/// S and R of a bit, where `value` is what they write with RLO 1.
#[inline(always)]
pub(crate) fn set_bit(
    value: bool,
    operand: &Operand,
    s: &mut Running,
    m: &mut Memory,
) -> Result<(), u8>
    ensures { ChangesLocalMemory (bit_set_of value operand.now (local_of s.old) m.old)
        s.old s.new m.old m.new result }
{
    match *operand {
        Operand::Direct {
            area,
            width: Width::Bit,
            byte,
            bit,
        } => set_direct(value, area, byte, bit, s, m),
        _ => set_elsewhere(value, operand, s, m),
    }
}

/// FP and FN.
#[tactic(auto, unfolding(crate::specs::BitLogic::local_memory_after_edge))]
#[inline(never)]
pub(crate) fn edge(
    rising: bool,
    operand: &Operand,
    s: &mut Running,
    m: &mut Memory,
) -> Result<(), u8>
    ensures { ChangesLocalMemory (edge_of rising operand.now (local_of s.old) m.old)
        s.old s.new m.old m.new result }
{
    let at = operand_location(Access::Writing, operand, s, m)?;
    let before = bit_before(&at, s, m)?;
    let mut regs = s.regs;
    let bit = regs.edge(rising, before);
    put_bit(&at, bit, regs, s, m)
}
