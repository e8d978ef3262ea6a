//! LAR1, LAR2, TAR1, TAR2, CAR, +AR1, +AR2.
ghost use Rattle.std.specs.Prelude.{◌≡◌, ◌<◌, ◌^◌};
ghost use Rattle.machine.specs.ExecState.{local_of};
ghost use Rattle.machine.specs.Outcomes.{ChangesLocalMemory};
ghost use Rattle.machine.specs.Pointers.{address_loaded, address_transferred, offset_added as offset_added_of, address_added as address_after_of, pointer_effect, sign_extended as sign_extended_of};

use crate::loads::{put_loaded, transfer_number};
use crate::values::number;
use flat_code::{Operand, PointerOperation};
use frames::Running;
use plc_mem::Memory;
use status_word::Regs;

fn load_address(operand: &Operand, s: &Running, m: &Memory) -> Result<u32, u8>
    ensures { result ≡ address_loaded operand.now (local_of s.now) m.now }
{
    match *operand {
        Operand::Nothing => Ok(s.regs.a1),
        _ => number(operand, s, m),
    }
}

fn transfer_address(
    address: u32,
    operand: &Operand,
    s: &mut Running,
    m: &mut Memory,
) -> Result<(), u8>
    ensures { ChangesLocalMemory (address_transferred address operand.now (local_of s.old) m.old)
        s.old s.new m.old m.new result }
{
    match *operand {
        Operand::Nothing => {
            put_loaded(&mut s.regs, address);
            Ok(())
        }
        _ => transfer_number(address, operand, s, m),
    }
}

fn offset_added(operand: &Operand, r: &Regs) -> u32
    ensures { result ≡ offset_added_of operand.now r.now }
{
    match *operand {
        Operand::Literal { value } => value,
        _ => sign_extended(r.a1 % 0x1_0000),
    }
}

// An integer of 16 bits in 24 bits.
fn sign_extended(word: u32) -> u32
    requires { word < 2 ^ 16 }
    ensures { result ≡ sign_extended_of word }
{
    if word < 0x8000 {
        word
    } else {
        word + 0xFF_0000
    }
}

#[tactic(auto, unfolding(crate::specs::Pointers::address_added, alu::specs::Accumulators::with_low))]
fn address_after(address: u32, offset: u32) -> u32
    ensures { result ≡ address_after_of address offset }
{
    let low = address % 0x100_0000;
    address - low + (low + offset % 0x100_0000) % 0x100_0000
}

/// An instruction on the address registers.
#[tactic(auto, unfolding(crate::specs::Pointers::pointer_effect))]
#[inline(never)]
pub(crate) fn point(
    what: PointerOperation,
    operand: &Operand,
    s: &mut Running,
    m: &mut Memory,
) -> Result<(), u8>
    ensures { ChangesLocalMemory (pointer_effect what operand.now (local_of s.old) m.old)
        s.old s.new m.old m.new result }
{
    match what {
        PointerOperation::Lar1 => {
            s.regs.ar1 = load_address(operand, s, m)?;
            Ok(())
        }
        PointerOperation::Lar2 => {
            s.regs.ar2 = load_address(operand, s, m)?;
            Ok(())
        }
        PointerOperation::Tar1 => transfer_address(s.regs.ar1, operand, s, m),
        PointerOperation::Tar2 => transfer_address(s.regs.ar2, operand, s, m),
        PointerOperation::Lar1Ar2 => {
            s.regs.ar1 = s.regs.ar2;
            Ok(())
        }
        PointerOperation::Tar1Ar2 => {
            s.regs.ar2 = s.regs.ar1;
            Ok(())
        }
        PointerOperation::Car => {
            let first = s.regs.ar1;
            s.regs.ar1 = s.regs.ar2;
            s.regs.ar2 = first;
            Ok(())
        }
        PointerOperation::AddAr1 => {
            s.regs.ar1 = address_after(s.regs.ar1, offset_added(operand, &s.regs));
            Ok(())
        }
        PointerOperation::AddAr2 => {
            s.regs.ar2 = address_after(s.regs.ar2, offset_added(operand, &s.regs));
            Ok(())
        }
    }
}
