//! L, T and LC, L STW and T STW.
ghost use Rattle.std.specs.Prelude.{◌≡◌, ◌<◌, ◌^◌, ◌%◌};
ghost use Rattle.plc_base.specs.Widths.{bit_count};
ghost use Rattle.machine.specs.ExecState.{local_of};
ghost use Rattle.machine.specs.Outcomes.{ChangesLocalMemory, ChangesRunningRegs};
ghost use Rattle.machine.specs.Loads.{regs_after_load, regs_after_bcd_load, number_transferred, local_memory_after_transfer, with_accu_loaded as with_loaded_of, status_loaded, status_transferred};

use crate::places::{Access, area_location, operand_location};
use crate::values::{bcd_loaded, load_value, write};
use flat_code::Operand;
use frames::Running;
use plc_base::{Area, Width};
use plc_mem::Memory;
use status_word::{Regs, Status};
use timers_counters::{Counters, Timers};

/// Accumulator 1 goes to accumulator 2, and a number to accumulator 1.
pub(crate) fn put_loaded(r: &mut Regs, number: u32)
    ensures { r.new ≡ with_loaded_of number r.old }
{
    r.a2 = r.a1;
    r.a1 = number;
}

/// L.
#[tactic(auto, unfolding(crate::specs::Loads::regs_after_load))]
#[inline(always)]
pub(crate) fn load(
    operand: &Operand,
    s: &mut Running,
    m: &Memory,
    t: &Timers,
    n: &Counters,
) -> Result<(), u8>
    ensures { ChangesRunningRegs (regs_after_load operand.now (local_of s.old) m.now t.now n.now)
        s.old s.new result }
{
    let number = load_value(operand, s, m, t, n)?;
    put_loaded(&mut s.regs, number);
    Ok(())
}

/// LC.
#[tactic(auto, unfolding(crate::specs::Loads::regs_after_bcd_load))]
#[inline(never)]
pub(crate) fn load_bcd(
    operand: &Operand,
    s: &mut Running,
    m: &Memory,
    t: &Timers,
    n: &Counters,
) -> Result<(), u8>
    ensures { ChangesRunningRegs (regs_after_bcd_load operand.now (local_of s.old)
        m.now t.now n.now)
        s.old s.new result }
{
    let number = bcd_loaded(operand, s, m, t, n)?;
    put_loaded(&mut s.regs, number);
    Ok(())
}

/// The lowest bits of a number.
pub(crate) fn low(width: Width, number: u32) -> u32
    ensures value { result ≡ number % 2 ^ bit_count width }
    ensures fits { result < 2 ^ bit_count width }
{
    match width {
        Width::Bit => number % 2,
        Width::Byte => number % 0x100,
        Width::Word => number % 0x1_0000,
        Width::Dword => number,
    }
}

/// The lowest bits of a number to the place of an operand.
#[tactic(auto, unfolding(crate::specs::Loads::number_transferred))]
#[inline(never)]
pub(crate) fn transfer_number(
    number: u32,
    operand: &Operand,
    s: &mut Running,
    m: &mut Memory,
) -> Result<(), u8>
    ensures { ChangesLocalMemory (number_transferred number operand.now (local_of s.old) m.old)
        s.old s.new m.old m.new result }
{
    let at = operand_location(Access::Writing, operand, s, m)?;
    write(&at, low(at.width, number), s, m)
}

// The lowest bits of a number to a fixed place.
#[tactic(auto, unfolding(crate::specs::Loads::number_transferred, crate::specs::Places::operand_location))]
#[inline(always)]
fn put_direct(
    number: u32,
    area: Area,
    width: Width,
    byte: u16,
    bit: u8,
    s: &mut Running,
    m: &mut Memory,
) -> Result<(), u8>
    ensures { ChangesLocalMemory (number_transferred number (Operand.Direct area width byte bit)
        (local_of s.old) m.old)
        s.old s.new m.old m.new result }
{
    let at = area_location(Access::Writing, area, byte, bit, width, s)?;
    write(&at, low(at.width, number), s, m)
}

/// T: accumulator 1, or 0 while the relay is closed.
#[inline(always)]
pub(crate) fn transfer(operand: &Operand, s: &mut Running, m: &mut Memory) -> Result<(), u8>
    ensures { ChangesLocalMemory (local_memory_after_transfer operand.now (local_of s.old) m.old)
        s.old s.new m.old m.new result }
{
    let number = if s.frame.relay.is_zone_closed() {
        0
    } else {
        s.regs.a1
    };
    match *operand {
        Operand::Direct {
            area,
            width,
            byte,
            bit,
        } => put_direct(number, area, width, byte, bit, s, m),
        _ => transfer_number(number, operand, s, m),
    }
}

/// L STW.
#[tactic(auto, unfolding(crate::specs::Loads::status_loaded))]
pub(crate) fn load_status(r: &mut Regs)
    ensures { r.new ≡ status_loaded r.old }
{
    let number = r.status.loaded_number();
    put_loaded(r, u32::from(number));
}

/// T STW.
#[tactic(auto, unfolding(crate::specs::Loads::status_transferred))]
pub(crate) fn transfer_status(r: &mut Regs)
    ensures { r.new ≡ status_transferred r.old }
{
    r.status = Status::transferred_status(r.a1);
}
