//! Variables as texts spell them.
ghost use Rattle.std.specs.Prelude.{◌≡◌, ◌==◌, ◌∷◌, ◌++◌, ◌^◌, ◌≤◌, ◌<◌, [], length, take, drop, codes, if◌then◌else◌, bytes_eq, IfOk, IfSome, IsTrue, MatchOption};
ghost use Rattle.std.specs.List.{position_or_len, prefix_len, slice_split};
ghost use Rattle.plc_base.specs.Widths.{bit_count};
ghost use Rattle.flat_code.specs.Names.{find};
ghost use Rattle.var_access.specs.Entry.{is_var};
ghost use Rattle.var_access.specs.Readings.{no_line};
ghost use Rattle.var_access.specs.Variables.{area_of_letters, behind_letters, bit_number_reading, bit_value, bit_var, block_bit, block_var, db_width_of, is_letter, is_point, is_quote, leading_letters, named_var, symbol_var, two_parts, var_at, var_of, var_of_parts, wide_of, wide_var, width_of_letters, width_value};

use crate::readings::{address_number, behind_blanks, both, hex_of, is_hex, number_reading};
use crate::requests::Var;
use crate::text_rules::{NOT_IN_GRAMMAR, OUT_OF_RANGE, UNKNOWN_NAME};
use flat_code::Names;
use plc_base::{Area, Place, Width};

/// Whether a byte is a capital letter.
fn is_letter(byte: u8) -> bool
    ensures { result ≡ is_letter byte }
{
    byte >= b'A' && byte <= b'Z'
}

/// How many capital letters stand at the front.
fn letters_len(text: &[u8]) -> usize
    ensures value { result ≡ prefix_len is_letter text.now }
    ensures within { result ≤ length text.now }
{
    text.iter().take_while(|byte| is_letter(**byte)).count()
}

/// The letters at the front, and what stands behind them and blanks.
fn split_letters(part: &[u8]) -> (&[u8], &[u8])
    ensures letters { result.0.now ≡ leading_letters part.now }
    ensures behind { result.1.now ≡ behind_letters part.now }
{
    let (letters, rest) = part.split_at(letters_len(part));
    (letters, behind_blanks(rest))
}

/// The area that letters name: I, Q or M.
#[tactic(auto, unfolding(crate::specs::Variables::area_of_letters))]
fn area_of_letters(letters: &[u8]) -> Option<Area>
    ensures { result ≡ area_of_letters letters.now }
{
    if letters == b"I".as_slice() {
        Some(Area::I)
    } else if letters == b"Q".as_slice() {
        Some(Area::Q)
    } else if letters == b"M".as_slice() {
        Some(Area::M)
    } else {
        None
    }
}

/// The width that letters name: B, W or D.
#[tactic(auto, unfolding(crate::specs::Variables::width_of_letters))]
fn width_of_letters(letters: &[u8]) -> Option<Width>
    ensures { result ≡ width_of_letters letters.now }
{
    if letters == b"B".as_slice() {
        Some(Width::Byte)
    } else if letters == b"W".as_slice() {
        Some(Width::Word)
    } else if letters == b"D".as_slice() {
        Some(Width::Dword)
    } else {
        None
    }
}

/// The area and the width that letters name together, as `MW`.
fn wide_of(letters: &[u8]) -> Option<(Area, Width)>
    ensures { result ≡ wide_of letters.now }
{
    let (area, width) = letters.split_at(letters.len().min(1));
    Some((area_of_letters(area)?, width_of_letters(width)?))
}

/// The width that letters name in a data block, as `DBW`.
fn db_width_of(letters: &[u8]) -> Option<Width>
    ensures { result ≡ db_width_of letters.now }
{
    width_of_letters(letters.strip_prefix(b"DB".as_slice())?)
}

fn var_at(area: Area, number: u16, byte: u16, bit: u8, width: Width) -> Var
    ensures { result ≡ var_at area number byte bit width }
{
    Var {
        place: Place {
            number,
            byte,
            area,
            bit,
        },
        width,
    }
}

/// The number of a bit in its byte.
fn bit_number_reading(word: &[u8]) -> Result<u8, u16>
    ensures { result ≡ bit_number_reading word.now }
{
    let number = number_reading(word, 0, 7, OUT_OF_RANGE)?;
    Ok(number as u8)
}

/// `MW n`, which has no point.
fn wide_var(part: &[u8]) -> Result<Var, u16>
    ensures { result ≡ wide_var (wide_of (leading_letters part.now)) (behind_letters part.now) }
{
    let (letters, byte) = split_letters(part);
    let Some((area, width)) = wide_of(letters) else {
        return Err(NOT_IN_GRAMMAR);
    };
    let byte = address_number(byte)?;
    Ok(var_at(area, 0, byte, 0, width))
}

/// `M n.b`, by its area and its numbers.
fn bit_var(area: Area, byte: &[u8], bit: &[u8]) -> Result<Var, u16>
    ensures { result ≡ bit_var area byte.now bit.now }
{
    let (byte, bit) = both(address_number(byte), bit_number_reading(bit))?;
    Ok(var_at(area, 0, byte, bit, Width::Bit))
}

/// `DBn.DBW n`, by its width and its numbers.
fn block_var(width: Option<Width>, number: &[u8], byte: &[u8]) -> Result<Var, u16>
    ensures { result ≡ block_var width number.now byte.now }
{
    let Some(width) = width else {
        return Err(NOT_IN_GRAMMAR);
    };
    let (number, byte) = both(address_number(number), address_number(byte))?;
    Ok(var_at(Area::Db, number, byte, 0, width))
}

/// `DBn.DBX n.b`, by its numbers.
fn block_bit(number: &[u8], byte: &[u8], bit: &[u8]) -> Result<Var, u16>
    ensures { result ≡ block_bit number.now byte.now bit.now }
{
    let (number, (byte, bit)) = both(
        address_number(number),
        both(address_number(byte), bit_number_reading(bit)),
    )?;
    Ok(var_at(Area::Db, number, byte, bit, Width::Bit))
}

/// Two parts with a point between.
fn two_parts(first: &[u8], second: &[u8]) -> Result<Var, u16>
    ensures { result
        ≡ two_parts (area_of_letters (leading_letters first.now)) first.now second.now }
{
    let (letters, number) = split_letters(first);
    if let Some(area) = area_of_letters(letters) {
        return bit_var(area, number, second);
    }
    if letters != b"DB".as_slice() {
        return Err(NOT_IN_GRAMMAR);
    }
    let (letters, byte) = split_letters(second);
    block_var(db_width_of(letters), number, byte)
}

/// Three parts with points between.
fn three_parts(first: &[u8], second: &[u8], third: &[u8]) -> Result<Var, u16>
    ensures { result ≡ var_of_parts (first.now ∷ second.now ∷ third.now ∷ []) }
{
    let (block, number) = split_letters(first);
    let (width, byte) = split_letters(second);
    if block == b"DB".as_slice() && width == b"DBX".as_slice() {
        block_bit(number, byte, third)
    } else {
        Err(NOT_IN_GRAMMAR)
    }
}

/// How many bytes stand before the first point.
fn point_len(text: &[u8]) -> usize
    ensures value { result ≡ position_or_len is_point text.now }
    ensures within { result ≤ length text.now }
{
    text.iter().take_while(|byte| **byte != b'.').count()
}

/// What stands before the first point, and what follows it, if there is one.
#[tactic(auto, using(crate::proofs::PartLemmas::split_last))]
fn at_point(text: &[u8]) -> (&[u8], Option<&[u8]>)
    ensures { MatchOption result.1 (slice_split is_point text.now ≡ result.0.now ∷ [])
        (λ rest. slice_split is_point text.now
        ≡ result.0.now ∷ slice_split is_point rest.now) }
{
    let (part, rest) = text.split_at(point_len(text));
    match rest {
        [] => (part, None),
        [_, rest @ ..] => (part, Some(rest)),
    }
}

/// The variable of a place: an area with its numbers, or a data block.
#[tactic(auto, using(crate::proofs::PartLemmas::many_parts))]
fn place_var(text: &[u8]) -> Result<Var, u16>
    ensures { result ≡ var_of_parts (slice_split is_point text.now) }
{
    let (first, behind) = at_point(text);
    let Some(behind) = behind else {
        return wide_var(first);
    };
    let (second, behind) = at_point(behind);
    let Some(behind) = behind else {
        return two_parts(first, second);
    };
    let (third, behind) = at_point(behind);
    match behind {
        None => three_parts(first, second, third),
        Some(_) => Err(NOT_IN_GRAMMAR),
    }
}

/// The variable that a name stands for.
fn named_var(found: Option<(Place, Width)>) -> Result<Var, u16>
    ensures { result ≡ named_var found }
{
    let Some((place, width)) = found else {
        return Err(UNKNOWN_NAME);
    };
    let var = Var { place, width };
    if var.is_valid() {
        Ok(var)
    } else {
        Err(UNKNOWN_NAME)
    }
}

/// How many bytes stand before the first quote.
fn quote_len(text: &[u8]) -> usize
    ensures value { result ≡ position_or_len is_quote text.now }
    ensures within { result ≤ length text.now }
{
    text.iter().take_while(|byte| **byte != b'"').count()
}

/// The variable of a symbol, by what stands behind its first quote.
fn symbol_var(names: &Names, text: &[u8]) -> Result<Var, u16>
    ensures { result ≡ symbol_var (find names.now) text.now }
{
    let (name, rest) = text.split_at(quote_len(text));
    match (name, rest) {
        ([_, ..], [_]) => named_var(names.find(name)),
        _ => Err(NOT_IN_GRAMMAR),
    }
}

/// The variable that a text spells: a symbol in quotes or a place.
///
/// # Errors
///
/// The least rule that it breaks: `NOT_IN_GRAMMAR`, `OUT_OF_RANGE` or `UNKNOWN_NAME`.
#[tactic(auto, unfolding(crate::specs::Variables::var_of))]
pub(crate) fn var_of(names: &Names, text: &[u8]) -> Result<Var, u16>
    ensures { result ≡ var_of (find names.now) text.now }
{
    match text {
        [] => Err(NOT_IN_GRAMMAR),
        [b'"', rest @ ..] => symbol_var(names, rest),
        _ => place_var(text),
    }
}

/// The value of a bit: one digit, 0 or 1.
fn bit_value(word: &[u8]) -> Result<u32, u16>
    ensures { result ≡ bit_value word.now }
{
    if !is_hex(word) {
        Err(NOT_IN_GRAMMAR)
    } else if word == b"0".as_slice() {
        Ok(0)
    } else if word == b"1".as_slice() {
        Ok(1)
    } else {
        Err(OUT_OF_RANGE)
    }
}

/// A value at a width: two hexadecimal digits a byte, one for a bit.
///
/// # Errors
///
/// `OUT_OF_RANGE` where the value is wider or narrower, `NOT_IN_GRAMMAR` where the word is something
/// else.
#[tactic(auto, unfolding(crate::specs::Variables::width_value))]
pub(crate) fn width_value(width: Width, word: &[u8]) -> Result<u32, u16>
    ensures { result ≡ width_value width word.now }
{
    match width {
        Width::Bit => bit_value(word),
        Width::Byte => hex_of(word, 2),
        Width::Word => hex_of(word, 4),
        Width::Dword => hex_of(word, 8),
    }
}
