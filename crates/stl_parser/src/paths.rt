ghost use Rattle.std.specs.Prelude.{◌≡◌, IfOk, []};
ghost use Rattle.std.specs.Option.{option_map, option_and_then};
ghost use Rattle.stl_parser.specs.Numbers.{int_at};
ghost use Rattle.stl_parser.specs.Operands.{index_end, name_step, step_at, path_end, steps_from, path_of};
ghost use Rattle.stl_parser.specs.Parts.{complete_reading};

use crate::keywords::{has_kind, is_mark};
use crate::numbers::int;
use crate::parsed_items::ParsedItem;
use std::alloc::{AllocError, Global};
use stl_ast::{Name, Operand, PathHead, PathStep, Sequence};
use stl_lexer::{Mark, Token, TokenKind};

/// `]` behind the index of a step.
#[tactic(auto, unfolding(crate::specs::Operands::index_end))]
fn index_end<'a>(source: &[u8], at: i32, tokens: &'a [Token]) -> Option<ParsedItem<'a, PathStep>>
    ensures { result ≡ index_end source.now at tokens.now }
{
    let [token, rest @ ..] = tokens else {
        return None;
    };
    if is_mark(source, token, Mark::CloseBracket) {
        Some(ParsedItem(PathStep::Index { at }, rest))
    } else {
        None
    }
}

/// The name of a step, behind its `.`.
#[tactic(auto, unfolding(crate::specs::Operands::name_step))]
fn name_step<'a>(
    alloc: Global,
    source: &[u8],
    tokens: &'a [Token],
) -> Result<Option<ParsedItem<'a, PathStep>>, AllocError>
    ensures { IfOk result (λ found. found ≡ name_step source.now tokens.now) }
{
    let [token, rest @ ..] = tokens else {
        return Ok(None);
    };
    if !has_kind(token, TokenKind::Word) {
        return Ok(None);
    }
    let name = Name::new(alloc, token.text(source))?;
    Ok(Some(ParsedItem(PathStep::Named { name }, rest)))
}

/// An index in brackets, behind its `[`.
fn index_step<'a>(source: &[u8], tokens: &'a [Token]) -> Option<ParsedItem<'a, PathStep>>
    ensures { result
        ≡ option_and_then (λ r. index_end source.now r.0 r.1) (int_at source.now tokens.now) }
{
    let ParsedItem(at, rest) = int(source, tokens)?;
    index_end(source, at, rest)
}

/// A step of a path, `.` and a word or an index in brackets, and what follows.
#[tactic(auto, unfolding(crate::specs::Operands::step_at))]
fn step<'a>(
    alloc: Global,
    source: &[u8],
    tokens: &'a [Token],
) -> Result<Option<ParsedItem<'a, PathStep>>, AllocError>
    ensures { IfOk result (λ found. found ≡ step_at source.now tokens.now) }
{
    let [token, rest @ ..] = tokens else {
        return Ok(None);
    };
    if is_mark(source, token, Mark::Dot) {
        name_step(alloc, source, rest)
    } else if is_mark(source, token, Mark::OpenBracket) {
        Ok(index_step(source, rest))
    } else {
        Ok(None)
    }
}

/// A path ends with its clause or before `:=`.
#[tactic(auto, unfolding(crate::specs::Operands::path_end))]
fn path_end<'a>(source: &[u8], tokens: &'a [Token]) -> Option<&'a [Token]>
    ensures { option_map (λ r. r.now) result ≡ path_end source.now tokens.now }
{
    match tokens {
        [] => Some(tokens),
        [token, ..] => {
            if is_mark(source, token, Mark::Assign) {
                Some(tokens)
            } else {
                None
            }
        }
    }
}

/// The steps of a path behind its first ones, and what stands behind its end.
#[tactic(auto, using(crate::proofs::PartLemmas::parts_from_end, crate::proofs::PartLemmas::parts_from_stuck, crate::proofs::PartLemmas::parts_from_part, crate::proofs::PartLemmas::parts_from_over), unfolding(crate::specs::Operands::steps_from))]
pub(crate) fn steps<'a>(
    alloc: Global,
    source: &[u8],
    first: Vec<PathStep>,
    tokens: &'a [Token],
) -> Result<Option<ParsedItem<'a, Sequence<PathStep>>>, AllocError>
    ensures { IfOk result (λ found. found ≡ steps_from source.now first.items tokens.now) }
{
    let mut read = first;
    let mut rest = tokens;
    for _done in 0..tokens.len() {
        if let Some(end) = path_end(source, rest) {
            return Ok(Some(ParsedItem(Sequence::from_vec(read), end)));
        }
        let Some(ParsedItem(step, more)) = step(alloc, source, rest)? else {
            return Ok(None);
        };
        read.push(step)?;
        rest = more;
    }
    match path_end(source, rest) {
        Some(end) => Ok(Some(ParsedItem(Sequence::from_vec(read), end))),
        None => Ok(None),
    }
}

/// The steps of a path that is all of the tokens, behind its first ones.
pub(crate) fn all_steps(
    alloc: Global,
    source: &[u8],
    first: Vec<PathStep>,
    tokens: &[Token],
) -> Result<Option<Sequence<PathStep>>, AllocError>
    ensures { IfOk result (λ found. found
        ≡ complete_reading (steps_from source.now first.items tokens.now)) }
{
    match steps(alloc, source, first, tokens)? {
        Some(ParsedItem(steps, [])) => Ok(Some(steps)),
        _ => Ok(None),
    }
}

/// A path that is all of the tokens, behind its head.
#[tactic(auto, unfolding(crate::specs::Operands::path_of))]
pub(crate) fn path(
    alloc: Global,
    source: &[u8],
    head: PathHead,
    tokens: &[Token],
) -> Result<Option<Operand>, AllocError>
    ensures { IfOk result (λ found. found ≡ path_of source.now head tokens.now) }
{
    let Some(steps) = all_steps(alloc, source, Vec::new(alloc), tokens)? else {
        return Ok(None);
    };
    Ok(Some(Operand::Named { head, steps }))
}
