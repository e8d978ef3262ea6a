//! Instructions on the accumulators.
ghost use Rattle.std.specs.Prelude.{◌≡◌, ◌<◌, ◌^◌, ◌%◌, Ok, Err};
ghost use Rattle.machine.specs.Outcomes.{ChangesRegs};
ghost use Rattle.machine.specs.Numbers.{number_effect, constant_in, constant_or_zero as literal_of, with_constant, word_logic_effect, shift_effect};

use flat_code::{AccuOperation, AddConstant, Logic, Operand, Shift};
use plc_base::error_codes;
use status_word::Regs;

/// An instruction on the accumulators without operand.
#[tactic(auto, unfolding(crate::specs::Numbers::number_effect))]
#[inline(never)]
pub(crate) fn number(what: AccuOperation, r: &mut Regs) -> Result<(), u8>
    ensures { ChangesRegs (number_effect what r.old) r.old r.new result }
{
    match what {
        AccuOperation::Tak => {
            alu::tak(r);
            Ok(())
        }
        AccuOperation::Push => {
            alu::push(r);
            Ok(())
        }
        AccuOperation::Pop => {
            alu::pop(r);
            Ok(())
        }
        AccuOperation::Caw => {
            alu::caw(r);
            Ok(())
        }
        AccuOperation::Cad => {
            alu::cad(r);
            Ok(())
        }
        AccuOperation::AddI => {
            alu::add_i(r);
            Ok(())
        }
        AccuOperation::SubI => {
            alu::sub_i(r);
            Ok(())
        }
        AccuOperation::MulI => {
            alu::mul_i(r);
            Ok(())
        }
        AccuOperation::DivI => {
            alu::div_i(r);
            Ok(())
        }
        AccuOperation::AddD => {
            alu::add_d(r);
            Ok(())
        }
        AccuOperation::SubD => {
            alu::sub_d(r);
            Ok(())
        }
        AccuOperation::MulD => {
            alu::mul_d(r);
            Ok(())
        }
        AccuOperation::DivD => {
            alu::div_d(r);
            Ok(())
        }
        AccuOperation::Mod => {
            alu::mod_d(r);
            Ok(())
        }
        AccuOperation::Bti => match alu::bti(r) {
            Ok(()) => Ok(()),
            Err(_) => Err(error_codes::BAD_BCD),
        },
        AccuOperation::Itb => {
            alu::itb(r);
            Ok(())
        }
        AccuOperation::Btd => match alu::btd(r) {
            Ok(()) => Ok(()),
            Err(_) => Err(error_codes::BAD_BCD),
        },
        AccuOperation::Dtb => {
            alu::dtb(r);
            Ok(())
        }
        AccuOperation::Itd => {
            alu::itd(r);
            Ok(())
        }
        AccuOperation::Invi => {
            alu::inv_i(r);
            Ok(())
        }
        AccuOperation::Invd => {
            alu::inv_d(r);
            Ok(())
        }
        AccuOperation::Negi => {
            alu::neg_i(r);
            Ok(())
        }
        AccuOperation::Negd => {
            alu::neg_d(r);
            Ok(())
        }
        AccuOperation::Rlda => {
            alu::rlda(r);
            Ok(())
        }
        AccuOperation::Rrda => {
            alu::rrda(r);
            Ok(())
        }
    }
}

fn constant8(operand: &Operand) -> Option<u8>
    ensures { result ≡ constant_in 8 operand.now }
{
    match *operand {
        Operand::Literal { value } => Some((value % 0x100) as u8),
        _ => None,
    }
}

fn constant16(operand: &Operand) -> Option<u16>
    ensures { result ≡ constant_in 16 operand.now }
{
    match *operand {
        Operand::Literal { value } => Some((value % 0x1_0000) as u16),
        _ => None,
    }
}

fn whole(value: u32) -> u32
    ensures { result ≡ value % 2 ^ 32 }
{
    value
}

fn constant32(operand: &Operand) -> Option<u32>
    ensures { result ≡ constant_in 32 operand.now }
{
    match *operand {
        Operand::Literal { value } => Some(whole(value)),
        _ => None,
    }
}

fn literal(operand: &Operand) -> u32
    ensures { result ≡ literal_of 32 operand.now }
{
    match *operand {
        Operand::Literal { value } => value,
        _ => 0,
    }
}

fn literal16(operand: &Operand) -> u16
    ensures { result ≡ literal_of 16 operand.now }
{
    match *operand {
        Operand::Literal { value } => (value % 0x1_0000) as u16,
        _ => 0,
    }
}

fn literal8(operand: &Operand) -> u8
    ensures { result ≡ literal_of 8 operand.now }
{
    match *operand {
        Operand::Literal { value } => (value % 0x100) as u8,
        _ => 0,
    }
}

/// INC, DEC and +.
#[tactic(auto, unfolding(crate::specs::Numbers::with_constant))]
#[inline(never)]
pub(crate) fn add(what: AddConstant, operand: &Operand, r: &mut Regs)
    ensures { r.new ≡ with_constant what operand.now r.old }
{
    match what {
        AddConstant::Inc => alu::inc(r, literal8(operand)),
        AddConstant::Dec => alu::dec(r, literal8(operand)),
        AddConstant::Word => alu::add_const(r, literal16(operand)),
        AddConstant::Dword => alu::add_const_wide(r, literal(operand)),
    }
}

/// AW, OW, XOW, AD, OD, XOD.
#[tactic(auto, unfolding(crate::specs::Numbers::word_logic_effect))]
#[inline(never)]
pub(crate) fn combine(what: Logic, operand: &Operand, r: &mut Regs)
    ensures { r.new ≡ word_logic_effect what operand.now r.old }
{
    match what {
        Logic::Aw => alu::and_w(r, constant16(operand)),
        Logic::Ow => alu::or_w(r, constant16(operand)),
        Logic::Xow => alu::xor_w(r, constant16(operand)),
        Logic::Ad => alu::and_d(r, constant32(operand)),
        Logic::Od => alu::or_d(r, constant32(operand)),
        Logic::Xod => alu::xor_d(r, constant32(operand)),
    }
}

/// SSI to RRD.
#[tactic(auto, unfolding(crate::specs::Numbers::shift_effect))]
#[inline(never)]
pub(crate) fn shift(what: Shift, operand: &Operand, r: &mut Regs)
    ensures { r.new ≡ shift_effect what operand.now r.old }
{
    match what {
        Shift::Ssi => alu::ssi(r, constant8(operand)),
        Shift::Ssd => alu::ssd(r, constant8(operand)),
        Shift::Slw => alu::slw(r, constant8(operand)),
        Shift::Srw => alu::srw(r, constant8(operand)),
        Shift::Sld => alu::sld(r, constant8(operand)),
        Shift::Srd => alu::srd(r, constant8(operand)),
        Shift::Rld => alu::rld(r, constant8(operand)),
        Shift::Rrd => alu::rrd(r, constant8(operand)),
    }
}
