ghost use Rattle.std.specs.Prelude.{◌≡◌, ◌≤◌, ◌<◌, ◌^◌, ◌+◌, ◌*◌, ◌&&◌, nat_lt, nat_le, if◌then◌else◌, IfSome, Some, None, pos, ◌-ℤ◌};
ghost use Rattle.std.specs.Char.{digit_value};
ghost use Rattle.stl_parser.specs.Values.{
  value_from,
  based_literal,
  based_value,
  long_value,
  long_or_count,
  time_value,
  duration_literal,
};

use plc_base::decimal_up_to;
use stl_ast::Literal;
use stl_lexer::{
    GREATEST_COUNT, GREATEST_LONG, GREATEST_NEGATED_LONG, GREATEST_S5TIME, behind_prefix,
    first_letter, milliseconds_within,
};

/// The greatest value of `B#16#`.
pub const GREATEST_BYTE: u32 = 255;

/// The greatest value of `W#16#`.
pub const GREATEST_WORD: u32 = 65_535;

/// The greatest value of `DW#16#` and of `2#`.
pub const GREATEST_DWORD: u32 = 4_294_967_295;

/// The value of digits of a base, `_` left out, where it is at most `greatest`.
#[tactic(auto, unfolding(crate::specs::Values::value_from))]
fn value(greatest: u32, base: u32, digits: &[u8]) -> Option<u32>
    requires low { 2 ≤ base }
    requires high { base ≤ 36 }
    ensures value { result ≡ value_from greatest base 0 digits.now }
    ensures within { IfSome result (λ n. n ≤ greatest) }
{
    let mut value: u32 = 0;
    let mut rest = digits;
    while let [b, more @ ..] = rest {
        if *b != b'_' {
            value = with_digit(greatest, base, value, *b)?;
        }
        rest = more;
    }
    Some(value)
}

/// The value with one digit more, where it is at most `greatest`.
fn with_digit(greatest: u32, base: u32, value: u32, b: u8) -> Option<u32>
    requires low { 2 ≤ base }
    requires high { base ≤ 36 }
    requires within { value ≤ greatest }
    ensures { result ≡ (if nat_lt (digit_value b) base && nat_le
        (base * value + digit_value b) greatest then Some
        (base * value + digit_value b) else None) }
{
    let digit = char::from(b).to_digit(base)?;
    let next = u64::from(base) * u64::from(value) + u64::from(digit);
    if next <= u64::from(greatest) {
        Some(next as u32)
    } else {
        None
    }
}

/// The constant of a binary or hexadecimal literal: its first letter and its digits.
#[tactic(auto, unfolding(crate::specs::Values::based_literal))]
fn based_literal(letter: u8, digits: &[u8]) -> Option<Literal>
    ensures { result ≡ based_literal letter digits.now }
{
    if letter == b'2' {
        let value = value(GREATEST_DWORD, 2, digits)?;
        Some(Literal::Binary { value })
    } else if letter == b'b' {
        let value = value(GREATEST_BYTE, 16, digits)?;
        Some(Literal::Byte { value: value as u8 })
    } else if letter == b'w' {
        let value = value(GREATEST_WORD, 16, digits)?;
        Some(Literal::Word {
            value: value as u16,
        })
    } else {
        let value = value(GREATEST_DWORD, 16, digits)?;
        Some(Literal::Dword { value })
    }
}

/// `2#`, `B#16#`, `W#16#` or `DW#16#` and digits.
#[tactic(auto, unfolding(crate::specs::Values::based_value))]
pub(crate) fn based_value(text: &[u8]) -> Option<Literal>
    ensures { result ≡ based_value text.now }
{
    based_literal(first_letter(text), behind_prefix(text))
}

/// A number as a signed one.
fn positive(number: u32) -> i32
    requires { number < 2 ^ 31 }
    ensures { result ≡ pos number }
{
    number as i32
}

/// A number behind a `-`.
fn negated_number(number: u32) -> i32
    requires { number ≤ 2 ^ 31 }
    ensures { result ≡ pos 0 -ℤ pos number }
{
    (0 - i64::from(number)) as i32
}

/// A decimal number of 32 bits with a sign or none.
#[tactic(auto, using(plc_base::proofs::DecimalLemmas::decimal_range), unfolding(crate::specs::Values::long_value, stl_lexer::specs::Limits::greatest_long))]
fn long(text: &[u8]) -> Option<i32>
    ensures { result ≡ long_value text.now }
{
    match text {
        [] => None,
        [b'-', digits @ ..] => {
            let number = decimal_up_to(digits, GREATEST_NEGATED_LONG)?;
            Some(negated_number(number))
        }
        [b'+', digits @ ..] => {
            let number = decimal_up_to(digits, GREATEST_LONG)?;
            Some(positive(number))
        }
        [_, ..] => {
            let number = decimal_up_to(text, GREATEST_LONG)?;
            Some(positive(number))
        }
    }
}

/// `C#` or `L#` and a number.
#[tactic(auto, using(plc_base::proofs::DecimalLemmas::decimal_range), unfolding(crate::specs::Values::long_or_count))]
pub(crate) fn long_or_count(text: &[u8]) -> Option<Literal>
    ensures { result ≡ long_or_count text.now }
{
    if first_letter(text) == b'c' {
        let value = decimal_up_to(behind_prefix(text), GREATEST_COUNT)?;
        Some(Literal::Count {
            value: value as u16,
        })
    } else {
        let value = long(behind_prefix(text))?;
        Some(Literal::Long { value })
    }
}

/// The milliseconds of `T#`, with a sign or none.
#[tactic(auto, unfolding(crate::specs::Values::time_value, stl_lexer::specs::Limits::greatest_long))]
fn time(text: &[u8]) -> Option<i32>
    ensures { result ≡ time_value text.now }
{
    match text {
        [] => None,
        [b'-', parts @ ..] => {
            let ms = milliseconds_within(GREATEST_NEGATED_LONG, parts)?;
            Some(negated_number(ms))
        }
        [_, ..] => {
            let ms = milliseconds_within(GREATEST_LONG, text)?;
            Some(positive(ms))
        }
    }
}

/// `S5T#` or `T#` and the parts of a time.
#[tactic(auto, unfolding(crate::specs::Values::duration_literal))]
pub(crate) fn duration(text: &[u8]) -> Option<Literal>
    ensures { result ≡ duration_literal text.now }
{
    if first_letter(text) == b's' {
        let ms = milliseconds_within(GREATEST_S5TIME, behind_prefix(text))?;
        Some(Literal::S5time { ms })
    } else {
        let ms = time(behind_prefix(text))?;
        Some(Literal::Time { ms })
    }
}
