ghost use Rattle.std.specs.Prelude.{◌≡◌, ◌≤◌, map, length, not, IfOk};
ghost use Rattle.std.specs.List.{prefix_len};
ghost use Rattle.std.specs.Char.{is_ascii_digit};
ghost use Rattle.stl_parser.specs.Addresses.{
  glued_letters_and_number,
  separate_letters_and_number,
  letters_and_number_at,
  address_at,
  block_number_at,
  quoted_block_at,
  block_at,
  bit_of,
  is_address_word,
};

use crate::keywords::{has_kind, is_mark};
use crate::literals::text_between_quotes;
use crate::lookups::{address_kind_of, look_up};
use crate::numbers::{decimal, number};
use crate::parsed_items::{NumberedItem, ParsedItem};
use crate::tables::{ADDRESSES, AddressKind, BLOCK_KINDS};
use plc_base::{BlockId, BlockKind, are_digits};
use std::alloc::{AllocError, Global};
use stl_ast::{BlockName, Name};
use stl_lexer::{Mark, Token, TokenKind};

/// How many bytes stand before the first digit.
fn letter_count(text: &[u8]) -> usize
    ensures value { result ≡ prefix_len (λ b. not (is_ascii_digit b)) text.now }
    ensures within { result ≤ length text.now }
{
    text.iter().take_while(|b| !b.is_ascii_digit()).count()
}

/// Letters and number in one word.
#[tactic(auto, unfolding(crate::specs::Addresses::glued_letters_and_number))]
fn glued_letters_and_number<'a, X: Copy + Drop>(
    table: &[(&[u8], X)],
    text: &[u8],
    rest: &'a [Token],
) -> Option<NumberedItem<'a, X>>
    ensures { result
        ≡ glued_letters_and_number (map (λ e. (e.0.now, e.1)) table.now) text.now rest.now }
{
    let count = letter_count(text);
    let (letters, digits) = text.split_at(count);
    let named = look_up(table, letters)?;
    let number = decimal(digits)?;
    Some(NumberedItem(named, number, rest))
}

/// Letters and number in two tokens.
#[tactic(auto, unfolding(crate::specs::Addresses::separate_letters_and_number))]
fn separate_letters_and_number<'a, X: Copy + Drop>(
    table: &[(&[u8], X)],
    source: &[u8],
    text: &[u8],
    tokens: &'a [Token],
) -> Option<NumberedItem<'a, X>>
    ensures { result
        ≡ separate_letters_and_number
        (map (λ e. (e.0.now, e.1)) table.now) source.now text.now tokens.now }
{
    let [token, rest @ ..] = tokens else {
        return None;
    };
    let named = look_up(table, text)?;
    let number = number(source, token)?;
    Some(NumberedItem(named, number, rest))
}

/// What the letters name, the number behind them, and what follows.
#[tactic(auto, unfolding(crate::specs::Addresses::letters_and_number_at))]
fn letters_and_number<'a, X: Copy + Drop>(
    table: &[(&[u8], X)],
    source: &[u8],
    tokens: &'a [Token],
) -> Option<NumberedItem<'a, X>>
    ensures { result
        ≡ letters_and_number_at (map (λ e. (e.0.now, e.1)) table.now) source.now tokens.now }
{
    let [token, rest @ ..] = tokens else {
        return None;
    };
    if !has_kind(token, TokenKind::Word) {
        return None;
    }
    let word = token.text(source);
    match glued_letters_and_number(table, word, rest) {
        Some(found) => Some(found),
        None => separate_letters_and_number(table, source, word, rest),
    }
}

/// An address, as `MW 2`, with what follows.
#[tactic(auto, unfolding(crate::specs::Addresses::address_at, crate::specs::Tables::addresses))]
pub(crate) fn address<'a>(
    source: &[u8],
    tokens: &'a [Token],
) -> Option<NumberedItem<'a, AddressKind>>
    ensures { result ≡ address_at source.now tokens.now }
{
    letters_and_number(&ADDRESSES, source, tokens)
}

/// A block by kind and number, as `DB 10`, with what follows.
#[tactic(auto, unfolding(crate::specs::Addresses::block_number_at, crate::specs::Tables::block_kinds))]
fn block_number<'a>(source: &[u8], tokens: &'a [Token]) -> Option<NumberedItem<'a, BlockKind>>
    ensures { result ≡ block_number_at source.now tokens.now }
{
    letters_and_number(&BLOCK_KINDS, source, tokens)
}

/// A quoted name as the name of a block.
#[tactic(auto, unfolding(crate::specs::Addresses::quoted_block_at))]
pub(crate) fn quoted_block<'a>(
    alloc: Global,
    source: &[u8],
    tokens: &'a [Token],
) -> Result<Option<ParsedItem<'a, BlockName>>, AllocError>
    ensures { IfOk result (λ found. found ≡ quoted_block_at source.now tokens.now) }
{
    let [token, rest @ ..] = tokens else {
        return Ok(None);
    };
    if !has_kind(token, TokenKind::Quoted) {
        return Ok(None);
    }
    let name = Name::new(alloc, text_between_quotes(token.text(source)))?;
    Ok(Some(ParsedItem(BlockName::Quoted { name }, rest)))
}

/// A block by kind and number or by its quoted name, and what follows.
#[tactic(auto, unfolding(crate::specs::Addresses::block_at))]
pub(crate) fn block<'a>(
    alloc: Global,
    source: &[u8],
    tokens: &'a [Token],
) -> Result<Option<ParsedItem<'a, BlockName>>, AllocError>
    ensures { IfOk result (λ found. found ≡ block_at source.now tokens.now) }
{
    match block_number(source, tokens) {
        Some(NumberedItem(kind, number, rest)) => {
            let id = BlockId { kind, number };
            Ok(Some(ParsedItem(BlockName::Number { id }, rest)))
        }
        None => quoted_block(alloc, source, tokens),
    }
}

/// `.` and a bit number, 0 to 7.
#[tactic(auto, unfolding(crate::specs::Addresses::bit_of))]
pub(crate) fn bit(source: &[u8], tokens: &[Token]) -> Option<u8>
    ensures { result ≡ bit_of source.now tokens.now }
{
    let [dot, token] = tokens else {
        return None;
    };
    if !is_mark(source, dot, Mark::Dot) {
        return None;
    }
    let number = number(source, token)?;
    if number <= 7 {
        Some(number as u8)
    } else {
        None
    }
}

/// Whether a word is letters of an address, alone or with digits.
#[tactic(auto, unfolding(crate::specs::Addresses::is_address_word))]
pub(crate) fn is_address_word(text: &[u8]) -> bool
    ensures { result ≡ is_address_word text.now }
{
    let count = letter_count(text);
    let (letters, digits) = text.split_at(count);
    address_kind_of(letters).is_some() && are_digits(digits)
}
