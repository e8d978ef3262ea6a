ghost use Rattle.std.specs.Prelude.{◌≡◌};
ghost use Rattle.alu.specs.Signed.{format_width, signed_value};
ghost use Rattle.alu.specs.Codes.{codes_shown};
ghost use Rattle.alu.specs.Comparison.{holds_between, order_codes, with_comparison, accumulators_compared};

use crate::codes::Codes;
use crate::formats::Format;
use plc_base::Compare;
use status_word::Regs;

fn compares(how: Compare, left: i64, right: i64) -> bool
    ensures { result ≡ holds_between how left right }
{
    match how {
        Compare::Eq => left <= right && right <= left,
        Compare::Ne => left < right || right < left,
        Compare::Gt => left > right,
        Compare::Lt => left < right,
        Compare::Ge => left >= right,
        Compare::Le => left <= right,
    }
}

#[tactic(auto, unfolding(crate::specs::Comparison::with_comparison))]
fn answer(r: &mut Regs, how: Compare, left: i64, right: i64)
    ensures { r.new ≡ with_comparison how left right r.old }
{
    let holds = compares(how, left, right);
    let codes = Codes::new(left > right, left < right, false);
    codes.show(&mut r.status);
    r.status.rlo = holds;
    r.status.sta = holds;
    r.status.or = false;
    r.status.fc = true;
}

/// ==I, <>I, >I, <I, >=I and <=I: compares ACCU 2-L with ACCU 1-L as integers of 16 bits.
pub fn compare_i(r: &mut Regs, how: Compare)
    ensures { r.new ≡ accumulators_compared 16 how r.old }
{
    let left = Format::Int.read(r.a2);
    let right = Format::Int.read(r.a1);
    answer(r, how, left, right);
}

/// ==D, <>D, >D, <D, >=D and <=D: compares accumulator 2 with accumulator 1 as integers of 32
/// bits.
pub fn compare_d(r: &mut Regs, how: Compare)
    ensures { r.new ≡ accumulators_compared 32 how r.old }
{
    let left = Format::Dint.read(r.a2);
    let right = Format::Dint.read(r.a1);
    answer(r, how, left, right);
}
