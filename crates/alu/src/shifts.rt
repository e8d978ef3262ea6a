ghost use Rattle.std.specs.Prelude.{◌≡◌, ◌<◌, ◌≤◌, ◌%◌, ◌^◌, ◌*◌, ◌+◌, ◌-◌, ◌/◌};
ghost use Rattle.alu.specs.Signed.{format_width};
ghost use Rattle.alu.specs.Shifts.{places_of, with_shifted, accumulator_shifted_left, accumulator_shifted_right, accumulator_shifted_signed};
ghost use Rattle.alu.specs.Rotations.{accumulator_rotated_left, accumulator_rotated_right, accumulator_rotated_left_through, accumulator_rotated_right_through, turn_of};

use crate::codes::Codes;
use crate::formats::Format;
use plc_base::has_bit;
use status_word::Regs;

/// The number of places: the literal, or else ACCU 2-L-L.
fn places(r: &Regs, count: Option<u8>) -> u32
    ensures value { result ≡ places_of count r.now }
    ensures bound { result < 256 }
{
    let own = (r.a2 % 0x100) as u8;
    u32::from(count.unwrap_or(own))
}

/// Puts shifted bits into accumulator 1, and the last bit that was shifted out into CC 1.
#[tactic(auto, unfolding(crate::specs::Shifts::with_shifted))]
fn put_shifted(r: &mut Regs, format: Format, bits: u32, last: bool)
    requires { bits < 2 ^ format_width format }
    ensures { r.new ≡ with_shifted (format_width format) bits last r.old }
{
    r.a1 = format.replace(r.a1, bits);
    let codes = Codes::new(last, false, false);
    codes.show(&mut r.status);
}

/// The lowest 32 bits.
fn low_half(wide: u64) -> u32
    ensures { result ≡ wide % 2 ^ 32 }
{
    (wide % 0x1_0000_0000) as u32
}

#[tactic(auto, unfolding(crate::specs::Shifts::accumulator_shifted_left))]
fn shift_left(r: &mut Regs, format: Format, places: u32)
    ensures { r.new ≡ accumulator_shifted_left (format_width format) places r.old }
{
    let bits = format.low_bits(r.a1);
    let width = format.width();
    if places == 0 {
        return;
    }
    if places > width {
        put_shifted(r, format, 0, false);
        return;
    }
    let shifted = format.low_bits(low_half(u64::from(bits) << places));
    put_shifted(r, format, shifted, has_bit(bits, width - places));
}

#[tactic(auto, unfolding(crate::specs::Shifts::accumulator_shifted_right))]
fn shift_right(r: &mut Regs, format: Format, places: u32)
    ensures { r.new ≡ accumulator_shifted_right (format_width format) places r.old }
{
    let bits = format.low_bits(r.a1);
    if places == 0 {
        return;
    }
    if places > format.width() {
        put_shifted(r, format, 0, false);
        return;
    }
    let shifted = (u64::from(bits) >> places) as u32;
    put_shifted(r, format, shifted, has_bit(bits, places - 1));
}

#[tactic(auto, unfolding(crate::specs::Shifts::accumulator_shifted_signed))]
fn shift_signed(r: &mut Regs, format: Format, places: u32)
    ensures { r.new ≡ accumulator_shifted_signed (format_width format) places r.old }
{
    let bits = format.low_bits(r.a1);
    let number = format.read(r.a1);
    let places = places.min(format.width());
    if places == 0 {
        return;
    }
    let shifted = format.bits(number >> places);
    put_shifted(r, format, shifted, has_bit(bits, places - 1));
}

/// SSI: shifts ACCU 1-L right as an integer of 16 bits.
pub fn ssi(r: &mut Regs, count: Option<u8>)
    ensures { r.new ≡ accumulator_shifted_signed 16 (places_of count r.old) r.old }
{
    let places = places(r, count);
    shift_signed(r, Format::Int, places);
}

/// SSD: shifts accumulator 1 right as an integer of 32 bits.
pub fn ssd(r: &mut Regs, count: Option<u8>)
    ensures { r.new ≡ accumulator_shifted_signed 32 (places_of count r.old) r.old }
{
    let places = places(r, count);
    shift_signed(r, Format::Dint, places);
}

/// SLW: shifts ACCU 1-L left.
pub fn slw(r: &mut Regs, count: Option<u8>)
    ensures { r.new ≡ accumulator_shifted_left 16 (places_of count r.old) r.old }
{
    let places = places(r, count);
    shift_left(r, Format::Int, places);
}

/// SRW: shifts ACCU 1-L right.
pub fn srw(r: &mut Regs, count: Option<u8>)
    ensures { r.new ≡ accumulator_shifted_right 16 (places_of count r.old) r.old }
{
    let places = places(r, count);
    shift_right(r, Format::Int, places);
}

/// SLD: shifts accumulator 1 left.
pub fn sld(r: &mut Regs, count: Option<u8>)
    ensures { r.new ≡ accumulator_shifted_left 32 (places_of count r.old) r.old }
{
    let places = places(r, count);
    shift_left(r, Format::Dint, places);
}

/// SRD: shifts accumulator 1 right.
pub fn srd(r: &mut Regs, count: Option<u8>)
    ensures { r.new ≡ accumulator_shifted_right 32 (places_of count r.old) r.old }
{
    let places = places(r, count);
    shift_right(r, Format::Dint, places);
}

/// Of a number of places that is not 0, the places of the turn that it comes to, 1 to 32.
fn turn(places: u32) -> u32
    requires { 0 < places }
    ensures value { result ≡ turn_of places }
    ensures low { 0 < result }
    ensures high { result ≤ 32 }
{
    (places - 1) % 32 + 1
}

/// The bits shifted left, with room for those that leave.
#[tactic(auto, using(crate::proofs::Rotations::shifted_fits))]
fn bits_shifted_wide(bits: u32, places: u32) -> u64
    requires { places ≤ 32 }
    ensures { result ≡ bits * 2 ^ places }
{
    u64::from(bits) << places
}

/// The bits turned left by `places`: what leaves on the left moves in from the right.
#[tactic(auto, using(crate::proofs::Rotations::turned_bound, crate::proofs::Rotations::turned_left_lem))]
fn bits_turned_left(bits: u32, places: u32) -> u32
    requires { places ≤ 32 }
    ensures { result ≡ bits * 2 ^ places % 2 ^ 32 + bits / 2 ^ (32 - places) }
{
    let wide = bits_shifted_wide(bits, places);
    low_half(wide) + (wide >> 32) as u32
}

/// The bits turned right by `places`: what leaves on the right moves in from the left.
#[tactic(auto, using(crate::proofs::Rotations::turned_bound, crate::proofs::Rotations::turned_right_lem))]
fn bits_turned_right(bits: u32, places: u32) -> u32
    requires { places ≤ 32 }
    ensures { result ≡ bits / 2 ^ places + bits % 2 ^ places * 2 ^ (32 - places) }
{
    let wide = bits_shifted_wide(bits, 32 - places);
    low_half(wide) + (wide >> 32) as u32
}

/// RLD: rotates accumulator 1 left.
#[tactic(auto, unfolding(crate::specs::Rotations::accumulator_rotated_left))]
pub fn rld(r: &mut Regs, count: Option<u8>)
    ensures { r.new ≡ accumulator_rotated_left (places_of count r.old) r.old }
{
    let places = places(r, count);
    if places == 0 {
        return;
    }
    let places = turn(places);
    let bits = r.a1;
    put_shifted(
        r,
        Format::Dint,
        bits_turned_left(bits, places),
        has_bit(bits, 32 - places),
    );
}

/// RRD: rotates accumulator 1 right.
#[tactic(auto, unfolding(crate::specs::Rotations::accumulator_rotated_right))]
pub fn rrd(r: &mut Regs, count: Option<u8>)
    ensures { r.new ≡ accumulator_rotated_right (places_of count r.old) r.old }
{
    let places = places(r, count);
    if places == 0 {
        return;
    }
    let places = turn(places);
    let bits = r.a1;
    put_shifted(
        r,
        Format::Dint,
        bits_turned_right(bits, places),
        has_bit(bits, places - 1),
    );
}

/// RLDA: rotates accumulator 1 left by one place through CC 1.
#[tactic(auto, unfolding(crate::specs::Rotations::accumulator_rotated_left_through))]
pub fn rlda(r: &mut Regs)
    ensures { r.new ≡ accumulator_rotated_left_through r.old }
{
    let bits = r.a1;
    let shifted = low_half(u64::from(bits) * 2) + u32::from(r.status.cc1);
    put_shifted(r, Format::Dint, shifted, has_bit(bits, 31));
}

/// RRDA: rotates accumulator 1 right by one place through CC 1.
#[tactic(auto, unfolding(crate::specs::Rotations::accumulator_rotated_right_through))]
pub fn rrda(r: &mut Regs)
    ensures { r.new ≡ accumulator_rotated_right_through r.old }
{
    let bits = r.a1;
    let shifted = bits / 2 + u32::from(r.status.cc1) * 0x8000_0000;
    put_shifted(r, Format::Dint, shifted, has_bit(bits, 0));
}
