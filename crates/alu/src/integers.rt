ghost use Rattle.std.specs.Prelude.{◌≡◌, ◌<◌, ◌≤◌, ◌+◌, ◌*◌, ◌^◌, ◌*ℤ◌, unsigned_abs, is_none, IfSome};
ghost use Rattle.alu.specs.Signed.{format_width, signed_value};
ghost use Rattle.alu.specs.Sums.{with_sum, accumulators_added, accumulators_subtracted, accu_negated};
ghost use Rattle.alu.specs.Products.{with_product, accumulators_multiplied};
ghost use Rattle.alu.specs.Division.{quotient, remainder, is_zero, is_least_by_minus_one, with_result, accumulators_divided_by_zero, accumulators_divided_i, accumulators_divided_d, remainder_d};

use crate::codes::Codes;
use crate::formats::{Format, low_dword, low_word};
use status_word::Regs;

/// Puts a true sum into accumulator 1 and shows its codes.
#[tactic(auto, unfolding(crate::specs::Sums::with_sum))]
fn put_sum(r: &mut Regs, format: Format, sum: i64)
    ensures { r.new ≡ with_sum (format_width format) sum r.old }
{
    r.a1 = format.put(r.a1, sum);
    Codes::of_sum(format, sum).show(&mut r.status);
}

/// +I: adds ACCU 1-L to ACCU 2-L as integers of 16 bits.
pub fn add_i(r: &mut Regs)
    ensures { r.new ≡ accumulators_added 16 r.old }
{
    let sum = Format::Int.read(r.a2) + Format::Int.read(r.a1);
    put_sum(r, Format::Int, sum);
}

/// +D: adds accumulator 1 to accumulator 2 as integers of 32 bits.
pub fn add_d(r: &mut Regs)
    ensures { r.new ≡ accumulators_added 32 r.old }
{
    let sum = Format::Dint.read(r.a2) + Format::Dint.read(r.a1);
    put_sum(r, Format::Dint, sum);
}

/// -I: subtracts ACCU 1-L from ACCU 2-L as integers of 16 bits.
pub fn sub_i(r: &mut Regs)
    ensures { r.new ≡ accumulators_subtracted 16 r.old }
{
    let difference = Format::Int.read(r.a2) - Format::Int.read(r.a1);
    put_sum(r, Format::Int, difference);
}

/// -D: subtracts accumulator 1 from accumulator 2 as integers of 32 bits.
pub fn sub_d(r: &mut Regs)
    ensures { r.new ≡ accumulators_subtracted 32 r.old }
{
    let difference = Format::Dint.read(r.a2) - Format::Dint.read(r.a1);
    put_sum(r, Format::Dint, difference);
}

/// NEGI: the two's complement of ACCU 1-L.
pub fn neg_i(r: &mut Regs)
    ensures { r.new ≡ accu_negated 16 r.old }
{
    let negative = -Format::Int.read(r.a1);
    put_sum(r, Format::Int, negative);
}

/// NEGD: the two's complement of accumulator 1.
pub fn neg_d(r: &mut Regs)
    ensures { r.new ≡ accu_negated 32 r.old }
{
    let negative = -Format::Dint.read(r.a1);
    put_sum(r, Format::Dint, negative);
}

/// The product of two integers of at most 32 bits.
#[tactic(auto, using(crate::proofs::Products::product_code))]
fn product(left: i64, right: i64) -> i64
    requires left_size { unsigned_abs left ≤ 2 ^ 31 }
    requires right_size { unsigned_abs right ≤ 2 ^ 31 }
    ensures { result ≡ left *ℤ right }
{
    left * right
}

/// Puts a product into accumulator 1 and shows its codes.
#[tactic(auto, unfolding(crate::specs::Products::with_product))]
fn put_product(r: &mut Regs, format: Format, product: i64)
    ensures { r.new ≡ with_product (format_width format) product r.old }
{
    r.a1 = low_dword(product);
    Codes::of_sign(product, !format.holds(product)).show(&mut r.status);
}

/// *I: multiplies ACCU 2-L by ACCU 1-L as integers of 16 bits; the product has 32.
pub fn mul_i(r: &mut Regs)
    ensures { r.new ≡ accumulators_multiplied 16 r.old }
{
    let product = product(Format::Int.read(r.a2), Format::Int.read(r.a1));
    put_product(r, Format::Int, product);
}

/// *D: multiplies accumulator 2 by accumulator 1 as integers of 32 bits.
pub fn mul_d(r: &mut Regs)
    ensures { r.new ≡ accumulators_multiplied 32 r.old }
{
    let product = product(Format::Dint.read(r.a2), Format::Dint.read(r.a1));
    put_product(r, Format::Dint, product);
}

/// A quotient cut toward zero, and the remainder, which has the sign of the dividend.
#[derive(Clone, Copy)]
struct Ratio {
    quotient: i64,
    remainder: i64,
}

impl Ratio {
    /// Divides integers of at most 32 bits; `None` for a division by zero.
    #[tactic(auto, using(crate::proofs::Division::is_zero_lem, crate::proofs::Division::quotient_code, crate::proofs::Division::remainder_code))]
    fn of(dividend: i64, divisor: i64) -> Option<Ratio>
        requires { unsigned_abs dividend ≤ 2 ^ 31 }
        ensures zero { is_none result ≡ is_zero divisor }
        ensures quotient { IfSome result (λ r. r.quotient ≡ quotient dividend divisor) }
        ensures remainder { IfSome result (λ r. r.remainder ≡ remainder dividend divisor) }
    {
        if divisor == 0 {
            return None;
        }
        Some(Ratio {
            quotient: dividend / divisor,
            remainder: dividend % divisor,
        })
    }
}

/// Whether this is the one pair of integers whose quotient is no such integer.
fn is_least_by_minus_one(format: Format, dividend: i64, divisor: i64) -> bool
    ensures { result ≡ is_least_by_minus_one (format_width format) dividend divisor }
{
    dividend < 0
        && dividend.unsigned_abs() == format.modulus() / 2
        && divisor < 0
        && divisor.unsigned_abs() == 1
}

/// Puts the result of a division into accumulator 1 and shows its codes.
fn put_result(r: &mut Regs, accumulator: u32, codes: Codes)
    ensures { r.new ≡ with_result accumulator codes r.old }
{
    r.a1 = accumulator;
    codes.show(&mut r.status);
}

/// Shows a division by zero, which leaves accumulator 1.
fn divide_by_zero(r: &mut Regs)
    ensures { r.new ≡ accumulators_divided_by_zero r.old }
{
    Codes::unordered_codes().show(&mut r.status);
}

/// /I: divides ACCU 2-L by ACCU 1-L as integers of 16 bits: the quotient goes to ACCU 1-L, the
/// remainder to ACCU 1-H.
#[tactic(auto, unfolding(crate::specs::Division::with_words))]
pub fn div_i(r: &mut Regs)
    ensures { r.new ≡ accumulators_divided_i r.old }
{
    let dividend = Format::Int.read(r.a2);
    let divisor = Format::Int.read(r.a1);
    let Some(ratio) = Ratio::of(dividend, divisor) else {
        divide_by_zero(r);
        return;
    };
    if is_least_by_minus_one(Format::Int, dividend, divisor) {
        put_result(r, 0x8000, Codes::quotient_overflow());
        return;
    }
    let accumulator = two_words(low_word(ratio.remainder), low_word(ratio.quotient));
    put_result(r, accumulator, Codes::of_sign(ratio.quotient, false));
}

fn two_words(high: u16, low: u16) -> u32
    ensures { result ≡ high * 2 ^ 16 + low }
{
    u32::from(high) * 0x1_0000 + u32::from(low)
}

/// /D: divides accumulator 2 by accumulator 1 as integers of 32 bits: the quotient goes to
/// accumulator 1.
#[tactic(auto, unfolding(crate::specs::Division::with_quotient))]
pub fn div_d(r: &mut Regs)
    ensures { r.new ≡ accumulators_divided_d r.old }
{
    let dividend = Format::Dint.read(r.a2);
    let divisor = Format::Dint.read(r.a1);
    let Some(ratio) = Ratio::of(dividend, divisor) else {
        divide_by_zero(r);
        return;
    };
    if is_least_by_minus_one(Format::Dint, dividend, divisor) {
        put_result(r, 0x8000_0000, Codes::quotient_overflow());
        return;
    }
    let codes = Codes::of_sign(ratio.quotient, false);
    put_result(r, low_dword(ratio.quotient), codes);
}

/// MOD: divides accumulator 2 by accumulator 1 as integers of 32 bits: the remainder goes to
/// accumulator 1.
#[tactic(auto, unfolding(crate::specs::Division::with_remainder))]
pub fn mod_d(r: &mut Regs)
    ensures { r.new ≡ remainder_d r.old }
{
    let dividend = Format::Dint.read(r.a2);
    let divisor = Format::Dint.read(r.a1);
    let Some(ratio) = Ratio::of(dividend, divisor) else {
        divide_by_zero(r);
        return;
    };
    let codes = Codes::of_sign(ratio.remainder, false);
    put_result(r, low_dword(ratio.remainder), codes);
}
