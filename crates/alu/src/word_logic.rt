ghost use Rattle.std.specs.Prelude.{◌≡◌, ◌<◌, ◌%◌, ◌^◌};
ghost use Rattle.alu.specs.Signed.{format_width};
ghost use Rattle.alu.specs.WordLogic.{logic_operand, with_combined, accumulator_anded, accumulator_ored, accumulator_xored};

use crate::codes::Codes;
use crate::formats::{Format, accumulator_word};
use status_word::Regs;

/// The lowest bits of accumulator 1 and the second operand.
fn operands(r: &Regs, constant: Option<u16>) -> (u16, u16)
    ensures first { result.0 ≡ r.now.a1 % 2 ^ 16 }
    ensures second { result.1 ≡ logic_operand 16 constant r.now }
{
    (
        accumulator_word(r.a1),
        constant.unwrap_or(accumulator_word(r.a2)),
    )
}

/// The bits of accumulator 1 and the second operand.
fn wide_operands(r: &Regs, constant: Option<u32>) -> (u32, u32)
    ensures first { result.0 ≡ r.now.a1 % 2 ^ 32 }
    ensures second { result.1 ≡ logic_operand 32 constant r.now }
{
    let own = Format::Dint.low_bits(r.a2);
    (Format::Dint.low_bits(r.a1), constant.unwrap_or(own))
}

/// Puts combined bits into accumulator 1 and shows whether they are 0.
#[tactic(auto, unfolding(crate::specs::WordLogic::with_combined))]
fn put_combined(r: &mut Regs, format: Format, bits: u32)
    requires { bits < 2 ^ format_width format }
    ensures { r.new ≡ with_combined (format_width format) bits r.old }
{
    r.a1 = format.replace(r.a1, bits);
    let codes = Codes::new(bits != 0, false, false);
    codes.show(&mut r.status);
}

/// AW: combines ACCU 1-L with the constant, or else with ACCU 2-L, by AND.
pub fn and_w(r: &mut Regs, k: Option<u16>)
    ensures { r.new ≡ accumulator_anded 16 k r.old }
{
    let (first, second) = operands(r, k);
    put_combined(r, Format::Int, u32::from(first & second));
}

/// OW: combines ACCU 1-L with the constant, or else with ACCU 2-L, by OR.
pub fn or_w(r: &mut Regs, k: Option<u16>)
    ensures { r.new ≡ accumulator_ored 16 k r.old }
{
    let (first, second) = operands(r, k);
    put_combined(r, Format::Int, u32::from(first | second));
}

/// XOW: combines ACCU 1-L with the constant, or else with ACCU 2-L, by exclusive OR.
pub fn xor_w(r: &mut Regs, k: Option<u16>)
    ensures { r.new ≡ accumulator_xored 16 k r.old }
{
    let (first, second) = operands(r, k);
    put_combined(r, Format::Int, u32::from(first ^ second));
}

/// AD: combines accumulator 1 with the constant, or else with accumulator 2, by AND.
pub fn and_d(r: &mut Regs, k: Option<u32>)
    ensures { r.new ≡ accumulator_anded 32 k r.old }
{
    let (first, second) = wide_operands(r, k);
    put_combined(r, Format::Dint, first & second);
}

/// OD: combines accumulator 1 with the constant, or else with accumulator 2, by OR.
pub fn or_d(r: &mut Regs, k: Option<u32>)
    ensures { r.new ≡ accumulator_ored 32 k r.old }
{
    let (first, second) = wide_operands(r, k);
    put_combined(r, Format::Dint, first | second);
}

/// XOD: combines accumulator 1 with the constant, or else with accumulator 2, by exclusive OR.
pub fn xor_d(r: &mut Regs, k: Option<u32>)
    ensures { r.new ≡ accumulator_xored 32 k r.old }
{
    let (first, second) = wide_operands(r, k);
    put_combined(r, Format::Dint, first ^ second);
}
