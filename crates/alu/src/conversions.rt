ghost use Rattle.std.specs.Prelude.{◌≡◌, ◌<◌, ◌^◌};
ghost use Rattle.std.specs.Option.{ForSome};
ghost use Rattle.alu.specs.Signed.{format_width};
ghost use Rattle.plc_base.specs.Changes.{ChangesOrStays};
ghost use Rattle.alu.specs.Conversions.{accumulator_inverted, accumulator_widened, from_bcd_word, from_bcd_dword, to_bcd_word, to_bcd_dword, with_bcd, with_overflow};

use crate::formats::{Format, accumulator_word, dint_of, int_of, low_dword};
use plc_base::{BadBcd, bcd_to_int, bcd7_to_dint, dint_to_bcd7, int_to_bcd};
use status_word::{Regs, Status};

/// INVI: the ones' complement of ACCU 1-L.
#[tactic(auto, unfolding(crate::specs::Conversions::accumulator_inverted))]
pub fn inv_i(r: &mut Regs)
    ensures { r.new ≡ accumulator_inverted 16 r.old }
{
    let word = accumulator_word(r.a1);
    r.a1 = Format::Int.replace(r.a1, u32::from(!word));
}

/// INVD: the ones' complement of accumulator 1.
#[tactic(auto, unfolding(crate::specs::Conversions::accumulator_inverted, crate::specs::Accumulators::with_low))]
pub fn inv_d(r: &mut Regs)
    ensures { r.new ≡ accumulator_inverted 32 r.old }
{
    r.a1 = !r.a1;
}

/// ITD: the integer of 16 bits in ACCU 1-L as an integer of 32 bits in accumulator 1.
#[tactic(auto, unfolding(crate::specs::Conversions::accumulator_widened))]
pub fn itd(r: &mut Regs)
    ensures { r.new ≡ accumulator_widened r.old }
{
    r.a1 = low_dword(Format::Int.read(r.a1));
}

/// BTI: the BCD number in ACCU 1-L, three digits and a sign digit, as an integer of 16 bits.
///
/// # Errors
///
/// `BadBcd` exactly where a digit is above 9 or the sign digit is neither 0 nor 15; nothing has
/// changed then.
#[tactic(auto, unfolding(crate::specs::Conversions::from_bcd_word))]
pub fn bti(r: &mut Regs) -> Result<(), BadBcd>
    ensures { ChangesOrStays (from_bcd_word r.old) r.old r.new result }
{
    let number = bcd_to_int(accumulator_word(r.a1))?;
    r.a1 = Format::Int.put(r.a1, i64::from(number));
    Ok(())
}

/// BTD: the BCD number in accumulator 1, seven digits and a sign digit, as an integer of 32 bits.
///
/// # Errors
///
/// `BadBcd` exactly where a digit is above 9 or the sign digit is neither 0 nor 15; nothing has
/// changed then.
#[tactic(auto, unfolding(crate::specs::Conversions::from_bcd_dword))]
pub fn btd(r: &mut Regs) -> Result<(), BadBcd>
    ensures { ChangesOrStays (from_bcd_dword r.old) r.old r.new result }
{
    let number = bcd7_to_dint(r.a1)?;
    r.a1 = low_dword(i64::from(number));
    Ok(())
}

/// Sets OV, and OS where OV is 1.
fn show_overflow(status: &mut Status, ov: bool)
    ensures { status.new ≡ with_overflow ov status.old }
{
    status.ov = ov;
    status.os = status.os || ov;
}

/// Puts a BCD form into accumulator 1, or shows an overflow where there is none.
fn put_bcd(r: &mut Regs, format: Format, bcd: Option<u32>)
    requires { ForSome bcd (λ bits. bits < 2 ^ format_width format) }
    ensures { r.new ≡ with_bcd (format_width format) bcd r.old }
{
    if let Some(bits) = bcd {
        r.a1 = format.replace(r.a1, bits);
    }
    show_overflow(&mut r.status, bcd.is_none());
}

/// ITB: the integer of 16 bits in ACCU 1-L as a BCD number of three digits and a sign digit. Beyond
/// -999 to 999 it sets OV and OS, and ACCU 1 stays.
#[tactic(auto, unfolding(crate::specs::Conversions::to_bcd_word))]
pub fn itb(r: &mut Regs)
    ensures { r.new ≡ to_bcd_word r.old }
{
    let bcd = int_to_bcd(int_of(r.a1)).map(u32::from);
    put_bcd(r, Format::Int, bcd);
}

/// DTB: the integer of 32 bits in accumulator 1 as a BCD number of seven digits and a sign digit.
/// Beyond -9,999,999 to 9,999,999 it sets OV and OS, and ACCU 1 stays.
#[tactic(auto, unfolding(crate::specs::Conversions::to_bcd_dword))]
pub fn dtb(r: &mut Regs)
    ensures { r.new ≡ to_bcd_dword r.old }
{
    let bcd = dint_to_bcd7(dint_of(r.a1));
    put_bcd(r, Format::Dint, bcd);
}
