ghost use Rattle.std.specs.Prelude.{◌≡◌, ◌<◌, ◌≤◌, min, option_map};
ghost use Rattle.stl_lexer.specs.Limits.{value_cap};
ghost use Rattle.stl_lexer.specs.TimeLiteral.{
  behind_digits,
  behind_part,
  behind_underscore,
  is_part,
  milliseconds_of_unit,
  letters_of_unit,
  milliseconds,
  part_digits,
  part_letters,
};

use crate::bytes::{behind, digit_run, letter_run, same_text};
use crate::rules::VALUE_CAP;
use plc_base::capped_decimal;

/// A unit of a time literal.
#[derive(Clone, Copy, Debug)]
pub(crate) enum TimeUnit {
    Day,
    Hour,
    Minute,
    Second,
    Millisecond,
}

/// The units of a time literal, in falling order.
pub(crate) const UNITS: [TimeUnit; 5] = [
    TimeUnit::Day,
    TimeUnit::Hour,
    TimeUnit::Minute,
    TimeUnit::Second,
    TimeUnit::Millisecond,
];

/// The letters of a unit.
#[tactic(auto, unfolding(crate::specs::TimeLiteral::letters_of_unit))]
fn letters_of(unit: TimeUnit) -> &'static [u8]
    ensures { result.now ≡ letters_of_unit unit }
{
    match unit {
        TimeUnit::Day => b"D",
        TimeUnit::Hour => b"H",
        TimeUnit::Minute => b"M",
        TimeUnit::Second => b"S",
        TimeUnit::Millisecond => b"MS",
    }
}

/// The milliseconds of a unit.
#[tactic(auto, unfolding(crate::specs::TimeLiteral::milliseconds_of_unit))]
fn length_of(unit: TimeUnit) -> u64
    ensures value { result ≡ milliseconds_of_unit unit }
    ensures some { 0 < result }
    ensures within { result ≤ 86_400_000 }
{
    match unit {
        TimeUnit::Day => 86_400_000,
        TimeUnit::Hour => 3_600_000,
        TimeUnit::Minute => 60_000,
        TimeUnit::Second => 1_000,
        TimeUnit::Millisecond => 1,
    }
}

/// The digits at the front of a text.
fn part_digits(text: &[u8]) -> &[u8]
    ensures { result.now ≡ part_digits text.now }
{
    &text[..digit_run(text)]
}

/// What stands behind the digits at the front of a text.
fn behind_digits(text: &[u8]) -> &[u8]
    ensures { result.now ≡ behind_digits text.now }
{
    behind(text, digit_run(text))
}

/// The letters behind the digits at the front of a text.
fn part_letters(text: &[u8]) -> &[u8]
    ensures { result.now ≡ part_letters text.now }
{
    let rest = behind_digits(text);
    &rest[..letter_run(rest)]
}

/// What stands behind the first part.
fn behind_part(text: &[u8]) -> &[u8]
    ensures { result.now ≡ behind_part text.now }
{
    let rest = behind_digits(text);
    behind(rest, letter_run(rest))
}

/// Whether a text begins with digits and the letters of a unit.
#[tactic(auto, unfolding(crate::specs::TimeLiteral::is_part))]
fn is_part(unit: TimeUnit, text: &[u8]) -> bool
    ensures { result ≡ is_part unit text.now }
{
    !part_digits(text).is_empty() && same_text(letters_of(unit), part_letters(text))
}

/// A text without the `_` in front of it.
#[tactic(auto, unfolding(crate::specs::TimeLiteral::behind_underscore))]
fn behind_underscore(text: &[u8]) -> &[u8]
    ensures { result.now ≡ behind_underscore text.now }
{
    match text {
        [b'_', rest @ ..] => rest,
        _ => text,
    }
}

/// The milliseconds of a text that is parts of these units, cut off at `VALUE_CAP`.
#[tactic(auto, unfolding(crate::specs::TimeLiteral::milliseconds))]
pub(crate) fn milliseconds(units: &[TimeUnit], text: &[u8]) -> Option<u64>
    ensures { result ≡ option_map (λ n. min n value_cap) (milliseconds units.now text.now) }
{
    let [unit, smaller @ ..] = units else {
        return None;
    };
    if !is_part(*unit, text) {
        return milliseconds(smaller, text);
    }
    let rest = behind_part(text);
    let value = capped_decimal(part_digits(text), VALUE_CAP) * length_of(*unit);
    if rest.is_empty() {
        return Some(value.min(VALUE_CAP));
    }
    let others = milliseconds(smaller, behind_underscore(rest))?;
    Some((value + others).min(VALUE_CAP))
}
