ghost use Rattle.std.specs.Prelude.{◌≡◌, ◌≤◌, length};
ghost use Rattle.plc_base.specs.S5Time.{s5time_of_ms};
ghost use Rattle.block_layout.specs.Fits.{
  bits_of,
  fits_elementary_type,
  fits_binary,
  fits_characters,
  fits_decimal,
  fits_word,
  is_bool_type,
  is_byte_type,
  is_dint_type,
  is_dword_type,
  is_s5time_type,
  is_time_type,
  is_word_type,
  number_from,
  number_or_zero,
  twos_complement_bits,
};

use plc_base::{s5time_of_ms, unsigned_to_bcd};
use stl_ast::{Literal, Simple};

fn fits_decimal(value: i32, kind: Simple) -> bool
    ensures { result ≡ fits_decimal value kind }
{
    match kind {
        Simple::Int => value >= -32768 && value <= 32767,
        Simple::Word => value >= 0 && value <= 65535,
        Simple::Byte => value >= 0 && value <= 255,
        _ => false,
    }
}

fn fits_binary(value: u32, kind: Simple) -> bool
    ensures { result ≡ fits_binary value kind }
{
    match kind {
        Simple::Byte => value <= 255,
        Simple::Word => value <= 65535,
        Simple::Dword => true,
        _ => false,
    }
}

fn fits_word(value: u16, kind: Simple) -> bool
    ensures { result ≡ fits_word value kind }
{
    match kind {
        Simple::Byte => value <= 255,
        Simple::Word => true,
        _ => false,
    }
}

fn fits_characters(count: usize, kind: Simple) -> bool
    ensures { result ≡ fits_characters count kind }
{
    match kind {
        Simple::Char => count == 1,
        Simple::Word => count == 2,
        Simple::Dword => count == 4,
        _ => false,
    }
}

/// Whether a constant fits an elementary type: as the initial value of a component, as an actual
/// parameter, and as the constant of AW, OW, XOW, AD, OD and XOD.
#[tactic(auto, unfolding(crate::specs::Fits::fits_elementary_type))]
pub fn fits(value: &Literal, kind: Simple) -> bool
    ensures { result ≡ fits_elementary_type value.now kind }
{
    match value {
        Literal::Truth { .. } => matches!(kind, Simple::Bool),
        Literal::Number { value } => fits_decimal(*value, kind),
        Literal::Binary { value } => fits_binary(*value, kind),
        Literal::Byte { .. } => matches!(kind, Simple::Byte),
        Literal::Word { value } => fits_word(*value, kind),
        Literal::Dword { .. } => matches!(kind, Simple::Dword | Simple::Dint),
        Literal::Long { .. } => matches!(kind, Simple::Dint),
        Literal::Count { .. } => matches!(kind, Simple::Word),
        Literal::Time { .. } => matches!(kind, Simple::Time),
        Literal::S5time { .. } => matches!(kind, Simple::S5time | Simple::Word),
        Literal::Characters { bytes } => fits_characters(bytes.as_slice().len(), kind),
        Literal::Bytes { .. } => false,
    }
}

/// Two's complement of 16 bits.
fn low_word_bits(value: i32) -> u32
    ensures { result ≡ twos_complement_bits 16 value }
{
    if value >= 0 {
        value as u32
    } else {
        65_536u32.saturating_sub(value.unsigned_abs())
    }
}

/// Two's complement of 32 bits.
fn dword_bits(value: i32) -> u32
    ensures { result ≡ twos_complement_bits 32 value }
{
    if value >= 0 {
        value as u32
    } else {
        (4_294_967_296 - value.unsigned_abs() as u64) as u32
    }
}

/// One to four bytes as a number, the first one the highest.
fn number_from(bytes: &[u8]) -> u32
    requires { length bytes.now ≤ 4 }
    ensures { result ≡ number_from 0 bytes.now }
{
    let mut number = 0;
    for b in bytes {
        number = 256 * number + *b as u32;
    }
    number
}

/// The bits of a constant in a component of a type that it fits.
#[tactic(auto, unfolding(crate::specs::Fits::bits_of))]
pub fn bits_of(value: &Literal) -> u32
    ensures { result ≡ bits_of value.now }
{
    match value {
        Literal::Truth { value } => *value as u32,
        Literal::Number { value } => low_word_bits(*value),
        Literal::Binary { value } | Literal::Dword { value } => *value,
        Literal::Byte { value } => *value as u32,
        Literal::Word { value } => *value as u32,
        Literal::Long { value } => dword_bits(*value),
        Literal::Count { value } => unsigned_to_bcd(*value as u32, 3),
        Literal::Time { ms } => dword_bits(*ms),
        Literal::S5time { ms } => s5time_word(*ms),
        Literal::Characters { bytes } | Literal::Bytes { bytes } => number_from(bytes.as_slice()),
    }
}

/// The S5TIME of so many milliseconds, 0 where they are too many.
fn s5time_word(ms: u32) -> u32
    ensures { result ≡ number_or_zero (s5time_of_ms ms) }
{
    match s5time_of_ms(ms) {
        Ok(word) => word as u32,
        Err(_) => 0,
    }
}
