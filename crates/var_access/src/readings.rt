//! Parts of lines: what each spells, or the least rule of texts that it breaks.
ghost use Rattle.std.specs.Prelude.{◌≡◌, ◌==◌, ◌∷◌, ◌^◌, ◌*◌, ◌+◌, ◌≤◌, ◌<◌, [], None, Some, length, reverse, take, drop, IfOk, MatchOption, IsTrue, if◌then◌else◌};
ghost use Rattle.std.specs.Char.{digit_value, is_ascii_hexdigit};
ghost use Rattle.std.specs.List.{list_all, position_or_len, prefix_len};
ghost use Rattle.std.specs.Str.Parse.{digits_value};
ghost use Rattle.plc_base.specs.Decimal.{is_decimal};
ghost use Rattle.plc_base.specs.Texts.{is_blank};
ghost use Rattle.var_access.specs.Readings.{address_number, before_blanks, behind_blanks, both_readings, first_word, hex_of, is_hex, number_reading, trim, words_of};
ghost use Rattle.var_access.specs.TextRules.{not_in_grammar};

use crate::text_rules::{NOT_IN_GRAMMAR, OUT_OF_RANGE};
use plc_base::{are_digits, decimal_up_to, is_blank};

/// Two parts of a line together; of two broken rules the lesser is reported.
///
/// # Errors
///
/// The least rule that one of them breaks.
pub fn both<A: Drop, B: Drop>(a: Result<A, u16>, b: Result<B, u16>) -> Result<(A, B), u16>
    ensures { result ≡ both_readings a b }
{
    match (a, b) {
        (Ok(a), Ok(b)) => Ok((a, b)),
        (Ok(_), Err(rule)) => Err(rule),
        (Err(rule), Ok(_)) => Err(rule),
        (Err(rule), Err(other)) => Err(rule.min(other)),
    }
}

/// The number that a word spells in decimal digits, from `low` to `high`.
///
/// # Errors
///
/// `rule` where it is another number, `NOT_IN_GRAMMAR` where it is none.
#[tactic(auto, using(crate::proofs::NumberLemmas::number_below, crate::proofs::NumberLemmas::number_above, plc_base::proofs::DecimalLemmas::decimal_range))]
pub fn number_reading(word: &[u8], low: u32, high: u32, rule: u16) -> Result<u32, u16>
    ensures value { result ≡ number_reading low high rule word.now }
    ensures range { IfOk result (λ n. (low ≤ n) × (n ≤ high)) }
{
    let Some(value) = decimal_up_to(word, high) else {
        return Err(rule_of_other(word, rule));
    };
    if value < low {
        return Err(rule);
    }
    Ok(value)
}

/// The rule that a word breaks which is no number in its range.
fn rule_of_other(word: &[u8], rule: u16) -> u16
    ensures { result ≡ (if is_decimal word.now then rule else not_in_grammar) }
{
    match word {
        [] => NOT_IN_GRAMMAR,
        [_, ..] => {
            if are_digits(word) {
                rule
            } else {
                NOT_IN_GRAMMAR
            }
        }
    }
}

/// The number of an address or a block, 0 to 65,535.
///
/// # Errors
///
/// `OUT_OF_RANGE` where it is above, `NOT_IN_GRAMMAR` where the word is no number.
pub fn address_number(word: &[u8]) -> Result<u16, u16>
    ensures { result ≡ address_number word.now }
{
    let number = number_reading(word, 0, 65_535, OUT_OF_RANGE)?;
    Ok(number as u16)
}

/// Whether each of these bytes is a hexadecimal digit.
fn are_hex_digits(bytes: &[u8]) -> bool
    ensures { result ≡ list_all is_ascii_hexdigit bytes.now }
{
    bytes.iter().all(|byte| byte.is_ascii_hexdigit())
}

/// Whether a word is one or more hexadecimal digits.
pub(crate) fn is_hex(word: &[u8]) -> bool
    ensures { result ≡ is_hex word.now }
{
    match word {
        [] => false,
        [_, ..] => are_hex_digits(word),
    }
}

/// The value of a hexadecimal digit.
fn hex_digit_value(digit: u8) -> u8
    requires { IsTrue (is_ascii_hexdigit digit) }
    ensures value { result ≡ digit_value digit }
    ensures few { result < 16 }
{
    match digit {
        b'0'..=b'9' => digit - b'0',
        b'A'..=b'F' => digit - b'A' + 10,
        _ => digit - b'a' + 10,
    }
}

/// The value of at most eight hexadecimal digits.
fn hex_value(word: &[u8]) -> u32
    requires digits { IsTrue (list_all is_ascii_hexdigit word.now) }
    requires few { length word.now ≤ 8 }
    ensures value { result ≡ digits_value 16 word.now }
    ensures below { result < 16 ^ length word.now }
{
    let mut value: u32 = 0;
    for digit in word {
        value = 16 * value + u32::from(hex_digit_value(*digit));
    }
    value
}

/// The value that a word spells in so many hexadecimal digits, in upper or lower case.
///
/// # Errors
///
/// `OUT_OF_RANGE` where there are fewer or more of them, `NOT_IN_GRAMMAR` where the word is something
/// else.
#[tactic(auto, unfolding(crate::specs::Readings::hex_of))]
pub fn hex_of(word: &[u8], digits: usize) -> Result<u32, u16>
    requires { digits ≤ 8 }
    ensures value { result ≡ hex_of digits word.now }
    ensures below { IfOk result (λ n. n < 16 ^ digits) }
{
    if !is_hex(word) {
        return Err(NOT_IN_GRAMMAR);
    }
    if word.len() != digits {
        return Err(OUT_OF_RANGE);
    }
    Ok(hex_value(word))
}

/// How many blanks and tabs stand at the front.
fn blanks_len(text: &[u8]) -> usize
    ensures value { result ≡ prefix_len is_blank text.now }
    ensures within { result ≤ length text.now }
{
    text.iter().take_while(|byte| is_blank(**byte)).count()
}

/// How many bytes stand before the first blank or tab.
fn word_len(text: &[u8]) -> usize
    ensures value { result ≡ position_or_len is_blank text.now }
    ensures within { result ≤ length text.now }
{
    text.iter().take_while(|byte| !is_blank(**byte)).count()
}

/// How many bytes stand behind the last blank or tab.
fn last_word_len(text: &[u8]) -> usize
    ensures value { result ≡ position_or_len is_blank (reverse text.now) }
    ensures within { result ≤ length text.now }
{
    text.iter()
        .rev()
        .take_while(|byte| !is_blank(**byte))
        .count()
}

/// What stands behind the blanks at the front.
#[tactic(auto, unfolding(crate::specs::Readings::behind_blanks))]
pub(crate) fn behind_blanks(text: &[u8]) -> &[u8]
    ensures { result.now ≡ behind_blanks text.now }
{
    text.split_at(blanks_len(text)).1
}

/// The text without the blanks at its end.
#[tactic(auto, using(crate::proofs::WordLemmas::before_blank, crate::proofs::WordLemmas::before_none))]
fn before_blanks(text: &[u8]) -> &[u8]
    ensures { result.now ≡ before_blanks text.now }
{
    let mut left = text;
    while let [front @ .., last] = left {
        if !is_blank(*last) {
            return left;
        }
        left = front;
    }
    left
}

/// The text without blanks at either end.
pub(crate) fn trim(text: &[u8]) -> &[u8]
    ensures { result.now ≡ trim text.now }
{
    behind_blanks(before_blanks(text))
}

/// The first word of a text, and what follows it; `None` where no word is left.
#[tactic(auto, unfolding(crate::specs::Readings::first_word))]
pub fn first_word(text: &[u8]) -> Option<(&[u8], &[u8])>
    ensures value { MatchOption result (first_word text.now ≡ None)
        (λ found. first_word text.now ≡ Some (found.0.now, found.1.now)) }
    ensures words { MatchOption result (words_of text.now ≡ [])
        (λ found. words_of text.now ≡ found.0.now ∷ words_of found.1.now) }
{
    let text = behind_blanks(text);
    if text.is_empty() {
        return None;
    }
    Some(text.split_at(word_len(text)))
}

/// What stands before the last word of a text, and this word: the bytes behind the last blank.
pub(crate) fn last_word(text: &[u8]) -> (&[u8], &[u8])
    ensures front { let back = reverse text.now in
        result.0.now ≡ reverse (drop (position_or_len is_blank back) back) }
    ensures word { let back = reverse text.now in
        result.1.now ≡ reverse (take (position_or_len is_blank back) back) }
{
    text.split_at(text.len() - last_word_len(text))
}
