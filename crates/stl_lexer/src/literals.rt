ghost use Rattle.std.specs.Prelude.{◌≡◌, ◌<◌, ◌≤◌, ℕ, Option, IfSome, min, option_map};
ghost use Rattle.std.specs.List.{list_all};
ghost use Rattle.std.specs.Char.{is_digit};
ghost use Rattle.stl_lexer.specs.Forms.{is_number};
ghost use Rattle.stl_lexer.specs.Limits.{greatest_long, greatest_number, value_cap};
ghost use Rattle.stl_lexer.specs.Rules.{
  are_digits_of_base,
  are_grouped_digits,
  base_of,
  based_rule,
  behind_prefix,
  value_of_digits,
  decimal_rule,
  digit_count,
  is_negative,
  most_digits,
  number_rule,
  time_rule,
  value_rule,
  value_up_to,
};
ghost use Rattle.stl_lexer.specs.TimeLiteral.{milliseconds, time_units};

use crate::bytes::{behind, digit_run, first_letter};
use crate::entries::sign_length;
use crate::rules::{
    GREATEST_COUNT, GREATEST_LONG, GREATEST_NEGATED, GREATEST_NEGATED_LONG, GREATEST_NUMBER,
    GREATEST_S5TIME, OUT_OF_RANGE, VALUE_CAP, WRONG_LITERAL,
};
use crate::times::{UNITS, milliseconds};
use plc_base::capped_decimal;

/// What stands behind the prefix of a literal, which ends with `#`.
pub fn behind_prefix(token: &[u8]) -> &[u8]
    ensures { result.now ≡ behind_prefix token.now }
{
    let mut start = token.len();
    while start > 0 && token[start - 1] != b'#' {
        start -= 1;
    }
    behind(token, start)
}

/// Whether a text begins with `-`.
#[tactic(auto, unfolding(crate::specs::Rules::is_negative))]
fn is_negative(text: &[u8]) -> bool
    ensures { result ≡ is_negative text.now }
{
    matches!(text, [b'-', ..])
}

/// Rule 4 above the greatest value, rule 3 where there is no value; a value may be cut off above
/// every limit.
#[tactic(auto, unfolding(crate::specs::Rules::value_rule))]
fn value_rule(greatest: u32, value: Option<u64>) -> Option<u16>
    ensures { (exact : Option ℕ) → value ≡ option_map (λ n. min n value_cap) exact
        → result ≡ value_rule greatest exact }
{
    match value {
        None => Some(WRONG_LITERAL),
        Some(n) => {
            if n > u64::from(greatest) {
                Some(OUT_OF_RANGE)
            } else {
                None
            }
        }
    }
}

/// Whether a text is decimal digits, one at least.
#[tactic(auto, using(crate::proofs::RuleLemmas::number_is))]
fn is_number(text: &[u8]) -> bool
    ensures { result ≡ is_number text.now }
{
    !text.is_empty() && digit_run(text) == text.len()
}

/// The value of decimal digits, cut off above every limit.
#[tactic(auto, unfolding(crate::specs::Rules::value_of_digits))]
fn decimal(text: &[u8]) -> Option<u64>
    ensures { result ≡ option_map (λ n. min n value_cap) (value_of_digits text.now) }
{
    if is_number(text) {
        Some(capped_decimal(text, VALUE_CAP))
    } else {
        None
    }
}

/// Whether a byte is a digit of a base.
fn is_digit(base: u32, b: u8) -> bool
    requires low { 2 ≤ base }
    requires high { base ≤ 36 }
    ensures { result ≡ is_digit b base }
{
    char::from(b).is_digit(base)
}

/// Whether each byte of a text is a digit of a base.
fn all_digits(base: u32, text: &[u8]) -> bool
    requires low { 2 ≤ base }
    requires high { base ≤ 36 }
    ensures { result ≡ list_all (λ b. is_digit b base) text.now }
{
    text.iter().all(|b| is_digit(base, *b))
}

/// Whether a text is digits of a base, one at least.
#[tactic(auto, unfolding(crate::specs::Rules::are_digits_of_base))]
fn are_digits_of_base(base: u32, text: &[u8]) -> bool
    requires low { 2 ≤ base }
    requires high { base ≤ 36 }
    ensures { result ≡ are_digits_of_base base text.now }
{
    !text.is_empty() && all_digits(base, text)
}

/// Whether a text is digits of a base with single `_` between them.
#[tactic(auto, unfolding(crate::specs::Rules::are_grouped_digits))]
fn are_grouped_digits(base: u32, text: &[u8]) -> bool
    requires low { 2 ≤ base }
    requires high { base ≤ 36 }
    ensures { result ≡ are_grouped_digits base text.now }
{
    text.split(|b| *b == b'_')
        .all(|part| are_digits_of_base(base, part))
}

/// How many digits a text has; `_` is none.
#[tactic(auto, unfolding(crate::specs::Rules::digit_count))]
fn digit_count(text: &[u8]) -> usize
    ensures { result ≡ digit_count text.now }
{
    text.iter().filter(|b| **b != b'_').count()
}

/// The base of a literal: binary behind `2#`, else hexadecimal.
#[tactic(auto, unfolding(crate::specs::Rules::base_of))]
fn base_of(token: &[u8]) -> u32
    ensures value { result ≡ base_of token.now }
    ensures low { 2 ≤ result }
    ensures high { result ≤ 36 }
{
    if first_letter(token) == b'2' { 2 } else { 16 }
}

/// The most digits of a binary or hexadecimal literal.
#[tactic(auto, unfolding(crate::specs::Rules::most_digits))]
fn most_digits(token: &[u8]) -> usize
    ensures { result ≡ most_digits token.now }
{
    match first_letter(token) {
        b'2' => 32,
        b'b' => 2,
        b'w' => 4,
        _ => 8,
    }
}

/// The rule that a binary or hexadecimal literal breaks.
#[tactic(auto, unfolding(crate::specs::Rules::based_rule))]
pub(crate) fn based_rule(token: &[u8]) -> Option<u16>
    ensures { result ≡ based_rule token.now }
{
    let digits = behind_prefix(token);
    if !are_grouped_digits(base_of(token), digits) {
        Some(WRONG_LITERAL)
    } else if digit_count(digits) > most_digits(token) {
        Some(OUT_OF_RANGE)
    } else {
        None
    }
}

/// The greatest value of 32 bits with a sign, without the sign.
#[tactic(auto, unfolding(crate::specs::Limits::greatest_long))]
fn greatest_long(negative: bool) -> u32
    ensures { result ≡ greatest_long negative }
{
    if negative {
        GREATEST_NEGATED_LONG
    } else {
        GREATEST_LONG
    }
}

/// The rule that a literal `L#` or `C#` breaks.
#[tactic(auto, unfolding(crate::specs::Rules::number_rule))]
pub(crate) fn number_rule(token: &[u8]) -> Option<u16>
    ensures { result ≡ number_rule token.now }
{
    let text = behind_prefix(token);
    if first_letter(token) == b'c' {
        value_rule(GREATEST_COUNT, decimal(text))
    } else {
        let digits = behind(text, sign_length(text));
        value_rule(greatest_long(is_negative(text)), decimal(digits))
    }
}

/// The rule that a time literal breaks.
#[tactic(auto, unfolding(crate::specs::Rules::time_rule, crate::specs::TimeLiteral::time_units))]
pub(crate) fn time_rule(token: &[u8]) -> Option<u16>
    ensures { result ≡ time_rule token.now }
{
    let text = behind_prefix(token);
    if first_letter(token) == b's' {
        value_rule(GREATEST_S5TIME, milliseconds(&UNITS, text))
    } else if is_negative(text) {
        let parts = behind(text, sign_length(text));
        value_rule(greatest_long(true), milliseconds(&UNITS, parts))
    } else {
        value_rule(greatest_long(false), milliseconds(&UNITS, text))
    }
}

/// The greatest decimal number, behind the mark `-` or not.
fn greatest_number(minus: bool) -> u32
    ensures { result ≡ greatest_number minus }
{
    if minus {
        GREATEST_NEGATED
    } else {
        GREATEST_NUMBER
    }
}

/// The rule that a number of its own breaks.
#[tactic(auto, unfolding(crate::specs::Rules::decimal_rule, crate::specs::Rules::value_rule))]
pub(crate) fn decimal_rule(token: &[u8], minus: bool) -> Option<u16>
    ensures { result ≡ decimal_rule token.now minus }
{
    if capped_decimal(token, VALUE_CAP) > u64::from(greatest_number(minus)) {
        Some(OUT_OF_RANGE)
    } else {
        None
    }
}

/// A value where it is at most `greatest`; a value may be cut off above every limit.
#[tactic(auto, unfolding(crate::specs::Rules::value_up_to))]
fn value_up_to(greatest: u32, value: Option<u64>) -> Option<u32>
    ensures { (exact : Option ℕ) → value ≡ option_map (λ n. min n value_cap) exact
        → result ≡ value_up_to greatest exact }
{
    match value {
        None => None,
        Some(n) => {
            if n <= u64::from(greatest) {
                Some(n as u32)
            } else {
                None
            }
        }
    }
}

/// The milliseconds of the parts of a time literal, where they are at most `greatest`.
#[tactic(auto, unfolding(crate::specs::TimeLiteral::time_units, crate::specs::Rules::value_up_to))]
pub fn milliseconds_within(greatest: u32, parts: &[u8]) -> Option<u32>
    ensures value { result ≡ value_up_to greatest (milliseconds time_units parts.now) }
    ensures bound { IfSome result (λ n. n ≤ greatest) }
{
    value_up_to(greatest, milliseconds(&UNITS, parts))
}
