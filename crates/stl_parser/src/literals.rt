ghost use Rattle.std.specs.Prelude.{◌≡◌, ◌≤◌, length};
ghost use Rattle.stl_ast.specs.declared.literals.Literal.TheVariants as literals;
ghost use Rattle.stl_parser.specs.Literals.{
  text_between_quotes,
  characters_of,
  truth_of,
  literal_token,
  byte_of,
  last_bytes,
  bytes_behind,
  bytes_at,
  long_literal,
  literal_at,
  literal_of,
};

use crate::keywords::{ClauseWord, is_key, is_mark};
use crate::numbers::{number, signed_number};
use crate::parsed_items::ParsedItem;
use crate::values::{based_value, duration, long_or_count};
use arrayvec::ArrayVec;
use stl_ast::{Characters, Literal};
use stl_lexer::{Mark, Token, TokenKind};

/// A token without its first and its last byte.
#[tactic(auto, unfolding(crate::specs::Literals::text_between_quotes))]
pub(crate) fn text_between_quotes(text: &[u8]) -> &[u8]
    ensures { result.now ≡ text_between_quotes text.now }
{
    let end = text.len().saturating_sub(1);
    text.get(1..end).unwrap_or(&[])
}

/// Up to four bytes as a list of their own.
fn list_of(bytes: &[u8]) -> ArrayVec<u8, 4>
    requires { length bytes.now ≤ 4 }
    ensures { result.items ≡ bytes.now }
{
    let mut list = ArrayVec::new();
    for b in bytes {
        list.push(*b);
    }
    list
}

/// One to four bytes.
#[tactic(auto, unfolding(crate::specs::Literals::characters_of))]
fn characters(bytes: &[u8]) -> Option<Characters>
    ensures { result ≡ characters_of bytes.now }
{
    match bytes {
        [] => None,
        [_, ..] if bytes.len() <= 4 => Some(Characters::new(list_of(bytes))),
        _ => None,
    }
}

/// TRUE or FALSE.
#[tactic(auto, unfolding(crate::specs::Literals::truth_of))]
fn truth(source: &[u8], token: &Token) -> Option<Literal>
    ensures { result ≡ truth_of source.now token.now }
{
    if is_key(source, token, ClauseWord::True) {
        Some(Literal::Truth { value: true })
    } else if is_key(source, token, ClauseWord::False) {
        Some(Literal::Truth { value: false })
    } else {
        None
    }
}

/// The constant that one token is.
#[tactic(auto, unfolding(crate::specs::Literals::literal_token))]
fn literal_token(source: &[u8], token: &Token) -> Option<Literal>
    ensures { result ≡ literal_token source.now token.now token.now.kind }
{
    match token.kind {
        TokenKind::Word => truth(source, token),
        TokenKind::Number => {
            let value = i32::from(number(source, token)?);
            Some(Literal::Number { value })
        }
        TokenKind::Characters => {
            let bytes = characters(text_between_quotes(token.text(source)))?;
            Some(Literal::Characters { bytes })
        }
        TokenKind::Based => based_value(token.text(source)),
        TokenKind::NumberLiteral => long_or_count(token.text(source)),
        TokenKind::TimeLiteral => duration(token.text(source)),
        _ => None,
    }
}

/// A number up to 255.
#[tactic(auto, unfolding(crate::specs::Literals::byte_of))]
fn byte(source: &[u8], token: &Token) -> Option<u8>
    ensures { result ≡ byte_of source.now token.now }
{
    let number = number(source, token)?;
    if number <= 255 {
        Some(number as u8)
    } else {
        None
    }
}

/// Bytes of a literal.
fn bytes_literal(bytes: ArrayVec<u8, 4>) -> Literal
    ensures { result ≡ literals.Bytes bytes.items }
{
    Literal::Bytes {
        bytes: Characters::new(bytes),
    }
}

/// Two more bytes and the `)` of `B#(a,b,c,d)`.
#[tactic(auto, unfolding(crate::specs::Literals::last_bytes))]
fn last_bytes<'a>(
    source: &[u8],
    a: u8,
    b: u8,
    tokens: &'a [Token],
) -> Option<ParsedItem<'a, Literal>>
    ensures { result ≡ last_bytes source.now a b tokens.now }
{
    let [c, comma, d, close, rest @ ..] = tokens else {
        return None;
    };
    if is_mark(source, comma, Mark::Comma) && is_mark(source, close, Mark::CloseParen) {
        let c = byte(source, c)?;
        let d = byte(source, d)?;
        Some(ParsedItem(bytes_literal(list_of(&[a, b, c, d])), rest))
    } else {
        None
    }
}

/// What stands behind the second byte of `B#(..)`: its end, or two more bytes.
#[tactic(auto, unfolding(crate::specs::Literals::bytes_behind))]
fn bytes_behind<'a>(
    source: &[u8],
    a: u8,
    b: u8,
    token: &Token,
    rest: &'a [Token],
) -> Option<ParsedItem<'a, Literal>>
    ensures { result ≡ bytes_behind source.now a b token.now rest.now }
{
    if is_mark(source, token, Mark::CloseParen) {
        Some(ParsedItem(bytes_literal(list_of(&[a, b])), rest))
    } else if is_mark(source, token, Mark::Comma) {
        last_bytes(source, a, b, rest)
    } else {
        None
    }
}

/// The bytes of `B#(a,b)` or `B#(a,b,c,d)`, behind the mark `B#(`.
#[tactic(auto, unfolding(crate::specs::Literals::bytes_at))]
fn bytes_at<'a>(source: &[u8], tokens: &'a [Token]) -> Option<ParsedItem<'a, Literal>>
    ensures { result ≡ bytes_at source.now tokens.now }
{
    let [a, comma, b, next, rest @ ..] = tokens else {
        return None;
    };
    if is_mark(source, comma, Mark::Comma) {
        let first = byte(source, a)?;
        let second = byte(source, b)?;
        bytes_behind(source, first, second, next, rest)
    } else {
        None
    }
}

/// A constant of more than one token: a number with its sign, or `B#(..)`.
#[tactic(auto, unfolding(crate::specs::Literals::long_literal))]
fn long_literal<'a>(
    source: &[u8],
    token: &Token,
    rest: &'a [Token],
) -> Option<ParsedItem<'a, Literal>>
    ensures { result ≡ long_literal source.now token.now rest.now }
{
    if is_mark(source, token, Mark::Bytes) {
        bytes_at(source, rest)
    } else {
        let ParsedItem(value, rest) = signed_number(source, token, rest)?;
        Some(ParsedItem(Literal::Number { value }, rest))
    }
}

/// A constant, and what follows it.
#[tactic(auto, unfolding(crate::specs::Literals::literal_at))]
pub(crate) fn literal_at<'a>(source: &[u8], tokens: &'a [Token]) -> Option<ParsedItem<'a, Literal>>
    ensures { result ≡ literal_at source.now tokens.now }
{
    let [token, rest @ ..] = tokens else {
        return None;
    };
    match literal_token(source, token) {
        Some(literal) => Some(ParsedItem(literal, rest)),
        None => long_literal(source, token, rest),
    }
}

/// A constant that is all of the tokens.
#[tactic(auto, unfolding(crate::specs::Literals::literal_of))]
pub(crate) fn literal(source: &[u8], tokens: &[Token]) -> Option<Literal>
    ensures { result ≡ literal_of source.now tokens.now }
{
    match literal_at(source, tokens) {
        Some(ParsedItem(literal, [])) => Some(literal),
        _ => None,
    }
}
