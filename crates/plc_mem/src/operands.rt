//! Operands in bytes that stand next to each other.
ghost use Rattle.std.specs.Prelude.{◌≡◌, ◌+◌, ◌*◌, ◌^◌, ◌<◌, ◌≤◌, length, slice_index, IfSome, IsTrue, slice_get, if◌then◌else◌};
ghost use Rattle.plc_base.specs.Changes.{ChangesOrStays};
ghost use Rattle.plc_base.specs.Widths.{bit_count};
ghost use Rattle.plc_mem.specs.Run.{number_of_bytes, number_over};
ghost use Rattle.plc_mem.specs.Writing.{is_within as is_within_spec, put_number as put_spec, bytes_with_number, byte_with_bit as byte_with_bit_of};

use crate::faults::Missing;
use plc_base::Width;

/// How many bits a byte has.
const BYTE_BITS: u8 = 8;

/// The unsigned number in the operand from byte `at` on, whose first byte weighs most; a bit
/// operand is bit `bit` of the byte. `None` exactly where not each bit of the operand exists.
#[inline(always)]
pub fn number(bytes: &[u8], at: usize, bit: u8, width: Width) -> Option<u32>
    requires { at < 2 ^ 16 }
    ensures value { result ≡ number_over (slice_get bytes.now) at bit width }
    ensures fits { IfSome result (λ n. n < 2 ^ bit_count width) }
{
    if !is_within(bytes, at, bit, width) {
        return None;
    }
    Some(load(bytes, at, bit, width))
}

/// Writes a number to the operand from byte `at` on, the highest byte first; of a bit operand to
/// its bit.
///
/// # Errors
///
/// `Missing`, with nothing changed, exactly where not each bit of the operand exists.
#[tactic(auto, unfolding(crate::specs::Writing::put_number))]
#[inline(always)]
pub fn put(bytes: &mut [u8], at: usize, bit: u8, width: Width, value: u32) -> Result<(), Missing>
    requires near { at < 2 ^ 16 }
    requires fits { value < 2 ^ bit_count width }
    ensures { ChangesOrStays (put_spec bytes.old at bit width value) bytes.old bytes.new result }
{
    if !is_within(bytes, at, bit, width) {
        return Err(Missing);
    }
    store(bytes, at, bit, width, value);
    Ok(())
}

// Whether each byte of the operand exists, and the bit of a bit operand.
#[inline(always)]
fn is_within(bytes: &[u8], at: usize, bit: u8, width: Width) -> bool
    requires { at < 2 ^ 16 }
    ensures { result ≡ is_within_spec bytes.now at bit width }
{
    match width {
        Width::Bit => at < bytes.len() && bit < BYTE_BITS,
        _ => at + width.byte_count() <= bytes.len(),
    }
}

// The number in an operand, the highest byte first.
#[inline(always)]
fn load(bytes: &[u8], at: usize, bit: u8, width: Width) -> u32
    requires near { at < 2 ^ 16 }
    requires within { IsTrue (is_within_spec bytes.now at bit width) }
    ensures { result ≡ number_of_bytes bytes.now at bit width }
{
    match width {
        Width::Bit => u32::from(bytes[at] >> bit & 1),
        Width::Byte => u32::from(bytes[at]),
        Width::Word => load_word(bytes, at),
        Width::Dword => load_word(bytes, at) << 16 | load_word(bytes, at + 2),
    }
}

// The number in two bytes, the highest first.
#[inline(always)]
fn load_word(bytes: &[u8], at: usize) -> u32
    requires near { at < 2 ^ 17 }
    requires within { at + 2 ≤ length bytes.now }
    ensures value { result ≡ slice_index bytes.now at * 2 ^ 8 + slice_index bytes.now (at + 1) }
    ensures small { result < 2 ^ 16 }
{
    u32::from(bytes[at]) << 8 | u32::from(bytes[at + 1])
}

// Writes a number to an operand, the highest byte first.
#[inline(always)]
fn store(bytes: &mut [u8], at: usize, bit: u8, width: Width, value: u32)
    requires near { at < 2 ^ 16 }
    requires within { IsTrue (is_within_spec bytes.old at bit width) }
    requires fits { value < 2 ^ bit_count width }
    ensures { bytes.new ≡ bytes_with_number bytes.old at bit width value }
{
    match width {
        Width::Bit => bytes[at] = byte_with_bit(bytes[at], bit, value == 1),
        Width::Byte => bytes[at] = value as u8,
        Width::Word => {
            bytes[at] = (value >> 8) as u8;
            bytes[at + 1] = (value % 0x100) as u8;
        }
        Width::Dword => {
            bytes[at] = (value >> 24) as u8;
            bytes[at + 1] = (value >> 16 & 0xFF) as u8;
            bytes[at + 2] = (value >> 8 & 0xFF) as u8;
            bytes[at + 3] = (value & 0xFF) as u8;
        }
    }
}

// The byte with another value of one bit.
#[tactic(auto, using(crate::proofs::OneBit::bit_set, crate::proofs::OneBit::bit_clear))]
#[inline(always)]
fn byte_with_bit(byte: u8, bit: u8, one: bool) -> u8
    requires { bit < 8 }
    ensures { result ≡ byte_with_bit_of byte bit (if one then 1 else 0) }
{
    let mask = 1 << bit;
    if one { byte | mask } else { byte & !mask }
}
