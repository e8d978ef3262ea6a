ghost use Rattle.std.specs.Prelude.{◌≡◌, ◌≤◌, IfOk, length};
ghost use Rattle.std.specs.Option.{option_map};
ghost use Rattle.stl_parser.specs.Parts.{parts_from};
ghost use Rattle.stl_parser.specs.Statements.{
  value_ends,
  value_length,
  value_of,
  actual_at,
  next_actual,
  actuals_end,
  actuals_behind,
  actuals_of,
};

use crate::keywords::{has_kind, is_mark};
use crate::operands::operand;
use crate::parsed_items::ParsedItem;
use std::alloc::{AllocError, Global};
use stl_ast::{Actual, Name, Operand, Sequence};
use stl_lexer::{Mark, Token, TokenKind};

/// Whether the value of an actual parameter ends here: before a `)` that is last, and before a
/// comma with the next parameter.
#[tactic(auto, unfolding(crate::specs::Statements::value_ends))]
fn value_ends(source: &[u8], tokens: &[Token]) -> bool
    ensures { result ≡ value_ends source.now tokens.now }
{
    match tokens {
        [close] => is_mark(source, close, Mark::CloseParen),
        [comma, word, assign, ..] => {
            is_mark(source, comma, Mark::Comma)
                && has_kind(word, TokenKind::Word)
                && is_mark(source, assign, Mark::Assign)
        }
        _ => false,
    }
}

/// How many tokens the value at the front has.
#[tactic(auto, unfolding(crate::specs::Statements::value_length))]
fn value_length(source: &[u8], tokens: &[Token]) -> usize
    ensures value { result ≡ value_length source.now tokens.now }
    ensures within { result ≤ length tokens.now }
{
    let mut count = 0;
    let mut rest = tokens;
    while let [_, more @ ..] = rest {
        if value_ends(source, rest) {
            return count;
        }
        count += 1;
        rest = more;
    }
    count
}

/// The value of an actual parameter: any operand but none.
#[tactic(auto, unfolding(crate::specs::Statements::value_of))]
fn value(alloc: Global, source: &[u8], tokens: &[Token]) -> Result<Option<Operand>, AllocError>
    ensures { IfOk result (λ found. found ≡ value_of source.now tokens.now) }
{
    match tokens {
        [] => Ok(None),
        [_, ..] => operand(alloc, source, tokens),
    }
}

/// An actual parameter, `word := value`, and what follows.
#[tactic(auto, unfolding(crate::specs::Statements::actual_at))]
fn actual<'a>(
    alloc: Global,
    source: &[u8],
    tokens: &'a [Token],
) -> Result<Option<ParsedItem<'a, Actual>>, AllocError>
    ensures { IfOk result (λ found. found ≡ actual_at source.now tokens.now) }
{
    let [word, assign, rest @ ..] = tokens else {
        return Ok(None);
    };
    if !(has_kind(word, TokenKind::Word) && is_mark(source, assign, Mark::Assign)) {
        return Ok(None);
    }
    let (value_tokens, rest) = rest.split_at(value_length(source, rest));
    let Some(value) = value(alloc, source, value_tokens)? else {
        return Ok(None);
    };
    let name = Name::new(alloc, word.text(source))?;
    let actual = Actual {
        line: word.line,
        name,
        value,
    };
    Ok(Some(ParsedItem(actual, rest)))
}

/// A further actual parameter, behind its comma.
#[tactic(auto, unfolding(crate::specs::Statements::next_actual))]
fn next_actual<'a>(
    alloc: Global,
    source: &[u8],
    tokens: &'a [Token],
) -> Result<Option<ParsedItem<'a, Actual>>, AllocError>
    ensures { IfOk result (λ found. found ≡ next_actual source.now tokens.now) }
{
    let [token, rest @ ..] = tokens else {
        return Ok(None);
    };
    if is_mark(source, token, Mark::Comma) {
        actual(alloc, source, rest)
    } else {
        Ok(None)
    }
}

/// The end of actual parameters: `)` as the last token.
#[tactic(auto, unfolding(crate::specs::Statements::actuals_end))]
fn actuals_end<'a>(source: &[u8], tokens: &'a [Token]) -> Option<&'a [Token]>
    ensures { option_map (λ r. r.now) result ≡ actuals_end source.now tokens.now }
{
    match tokens {
        [close] => {
            if is_mark(source, close, Mark::CloseParen) {
                Some(&[])
            } else {
                None
            }
        }
        _ => None,
    }
}

/// Further actual parameters behind the first ones, up to the `)`.
#[tactic(auto, using(crate::proofs::PartLemmas::parts_from_end, crate::proofs::PartLemmas::parts_from_stuck, crate::proofs::PartLemmas::parts_from_part, crate::proofs::PartLemmas::parts_from_over))]
fn further_actuals<'a>(
    alloc: Global,
    source: &[u8],
    first: Vec<Actual>,
    tokens: &'a [Token],
) -> Result<Option<ParsedItem<'a, Sequence<Actual>>>, AllocError>
    ensures { IfOk result (λ found. found
        ≡ parts_from (actuals_end source.now) (next_actual source.now) first.items
        (length tokens.now) tokens.now) }
{
    let mut read = first;
    let mut rest = tokens;
    for _done in 0..tokens.len() {
        if let Some(end) = actuals_end(source, rest) {
            return Ok(Some(ParsedItem(Sequence::from_vec(read), end)));
        }
        let Some(ParsedItem(actual, more)) = next_actual(alloc, source, rest)? else {
            return Ok(None);
        };
        read.push(actual)?;
        rest = more;
    }
    match actuals_end(source, rest) {
        Some(end) => Ok(Some(ParsedItem(Sequence::from_vec(read), end))),
        None => Ok(None),
    }
}

/// The actual parameters behind `(`, with its `)` as the last token.
#[tactic(auto, unfolding(crate::specs::Statements::actuals_behind))]
fn actuals_behind(
    alloc: Global,
    source: &[u8],
    tokens: &[Token],
) -> Result<Option<Sequence<Actual>>, AllocError>
    ensures { IfOk result (λ found. found ≡ actuals_behind source.now tokens.now) }
{
    let Some(ParsedItem(actual, rest)) = actual(alloc, source, tokens)? else {
        return Ok(None);
    };
    let mut first = Vec::new(alloc);
    first.push(actual)?;
    match further_actuals(alloc, source, first, rest)? {
        Some(ParsedItem(actuals, [])) => Ok(Some(actuals)),
        _ => Ok(None),
    }
}

/// The actual parameters of a call: none, or those in parentheses.
#[tactic(auto, unfolding(crate::specs::Statements::actuals_of))]
pub(crate) fn actuals(
    alloc: Global,
    source: &[u8],
    tokens: &[Token],
) -> Result<Option<Sequence<Actual>>, AllocError>
    ensures { IfOk result (λ found. found ≡ actuals_of source.now tokens.now) }
{
    let [token, rest @ ..] = tokens else {
        return Ok(Some(Sequence::from_vec(Vec::new(alloc))));
    };
    if is_mark(source, token, Mark::OpenParen) {
        actuals_behind(alloc, source, rest)
    } else {
        Ok(None)
    }
}
