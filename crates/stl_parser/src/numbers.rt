ghost use Rattle.std.specs.Prelude.{◌≡◌, ◌≤◌, true, false};
ghost use Rattle.plc_base.specs.Decimal.{decimal_up_to};
ghost use Rattle.stl_lexer.specs.Limits.{greatest_number};
ghost use Rattle.stl_parser.specs.Numbers.{number_up_to, number_of_token, signed_number_at, int_at};

use crate::keywords::{has_kind, is_mark};
use crate::parsed_items::ParsedItem;
use stl_lexer::{GREATEST_NEGATED, GREATEST_NUMBER, Mark, Token, TokenKind};

/// The number of one or more decimal digits, where it is at most `most`.
#[tactic(auto, using(plc_base::proofs::DecimalLemmas::decimal_range))]
fn decimal_up_to(digits: &[u8], most: u32) -> Option<u16>
    requires { most ≤ 65535 }
    ensures { result ≡ decimal_up_to most digits.now }
{
    let number = plc_base::decimal_up_to(digits, most)?;
    Some(number as u16)
}

/// The number of one or more decimal digits, up to 65,535.
pub(crate) fn decimal(digits: &[u8]) -> Option<u16>
    ensures { result ≡ decimal_up_to (greatest_number false) digits.now }
{
    decimal_up_to(digits, GREATEST_NUMBER)
}

/// The number of a number token, where it is at most `most`.
#[tactic(auto, unfolding(crate::specs::Numbers::number_up_to))]
fn number_up_to(source: &[u8], token: &Token, most: u32) -> Option<u16>
    requires { most ≤ 65535 }
    ensures { result ≡ number_up_to most source.now token.now }
{
    if has_kind(token, TokenKind::Number) {
        decimal_up_to(token.text(source), most)
    } else {
        None
    }
}

/// The number of a number token; none where the token is another one, or above the greatest number.
#[tactic(auto, unfolding(crate::specs::Numbers::number_of_token))]
pub(crate) fn number(source: &[u8], token: &Token) -> Option<u16>
    ensures { result ≡ number_of_token source.now token.now }
{
    number_up_to(source, token, GREATEST_NUMBER)
}

/// A number behind its sign, and what follows.
#[tactic(auto, unfolding(crate::specs::Numbers::signed_number_at))]
pub(crate) fn signed_number<'a>(
    source: &[u8],
    sign: &Token,
    tokens: &'a [Token],
) -> Option<ParsedItem<'a, i32>>
    ensures { result ≡ signed_number_at source.now sign.now tokens.now }
{
    let [token, rest @ ..] = tokens else {
        return None;
    };
    if is_mark(source, sign, Mark::Minus) {
        let number = number_up_to(source, token, GREATEST_NEGATED)?;
        Some(ParsedItem(0 - i32::from(number), rest))
    } else if is_mark(source, sign, Mark::Plus) {
        let number = number(source, token)?;
        Some(ParsedItem(i32::from(number), rest))
    } else {
        None
    }
}

/// A decimal number with or without a sign, and what follows.
#[tactic(auto, unfolding(crate::specs::Numbers::int_at))]
pub(crate) fn int<'a>(source: &[u8], tokens: &'a [Token]) -> Option<ParsedItem<'a, i32>>
    ensures { result ≡ int_at source.now tokens.now }
{
    let [token, rest @ ..] = tokens else {
        return None;
    };
    match number(source, token) {
        Some(number) => Some(ParsedItem(i32::from(number), rest)),
        None => signed_number(source, token, rest),
    }
}
