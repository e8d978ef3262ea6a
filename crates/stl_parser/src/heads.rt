ghost use Rattle.std.specs.Prelude.{◌≡◌, IfOk};
ghost use Rattle.std.specs.Option.{option_and_then, option_map};
ghost use Rattle.stl_parser.specs.Declarations.{after_colon};
ghost use Rattle.stl_parser.specs.Clauses.{
  skip_semicolon,
  behind_note,
  is_of_kind,
  block_of_kind_at,
  result_type,
  result_at,
  head_clause,
  version_at,
  colon_and_word_at,
  head_word_at,
  head_word_clause,
  is_base_block,
  base_block_at,
};

use crate::addresses::block;
use crate::clauses::{Clause, ReadClause};
use crate::declarations::after_colon;
use crate::keywords::{ClauseWord, has_kind, is_key, is_mark};
use crate::lookups::simple_type_of;
use crate::parsed_items::ParsedItem;
use crate::places::{ClausePlace, in_head};
use crate::tables::HeadWord;
use plc_base::BlockKind;
use std::alloc::{AllocError, Global};
use stl_ast::{BlockName, Simple};
use stl_lexer::{Mark, Token, TokenKind};

/// What is left behind a `;` where one stands at the front.
#[tactic(auto, unfolding(crate::specs::Clauses::skip_semicolon))]
pub(crate) fn skip_semicolon<'a>(source: &[u8], tokens: &'a [Token]) -> &'a [Token]
    ensures { result.now ≡ skip_semicolon source.now tokens.now }
{
    match tokens {
        [] => tokens,
        [token, rest @ ..] => {
            if is_mark(source, token, Mark::Semicolon) {
                rest
            } else {
                tokens
            }
        }
    }
}

/// What follows a clause that may end with a `;` in a head.
#[tactic(auto, unfolding(crate::specs::Clauses::behind_note))]
pub(crate) fn behind_note<'a>(source: &[u8], at: ClausePlace, tokens: &'a [Token]) -> &'a [Token]
    ensures { result.now ≡ behind_note source.now at tokens.now }
{
    if in_head(at) {
        skip_semicolon(source, tokens)
    } else {
        tokens
    }
}

/// Whether a block of this kind may have this name: it has the kind, or it is a quoted name.
#[tactic(auto, unfolding(crate::specs::Clauses::is_of_kind))]
fn is_of_kind(kind: BlockKind, name: &BlockName) -> bool
    ensures { result ≡ is_of_kind kind name.now }
{
    match name {
        BlockName::Number { id } => id.kind.order() == kind.order(),
        BlockName::Quoted { name: _ } => true,
    }
}

/// The name of a block of this kind, and what follows.
#[tactic(auto, unfolding(crate::specs::Clauses::block_of_kind_at))]
fn block_of_kind<'a>(
    alloc: Global,
    source: &[u8],
    kind: BlockKind,
    tokens: &'a [Token],
) -> Result<Option<ParsedItem<'a, BlockName>>, AllocError>
    ensures { IfOk result (λ found. found ≡ block_of_kind_at source.now kind tokens.now) }
{
    let Some(ParsedItem(name, rest)) = block(alloc, source, tokens)? else {
        return Ok(None);
    };
    if is_of_kind(kind, &name) {
        Ok(Some(ParsedItem(name, rest)))
    } else {
        Ok(None)
    }
}

/// VOID or the elementary type of a return value, and what follows.
#[tactic(auto, unfolding(crate::specs::Clauses::result_type))]
fn result_type<'a>(source: &[u8], tokens: &'a [Token]) -> Option<ParsedItem<'a, Option<Simple>>>
    ensures { result ≡ result_type source.now tokens.now }
{
    let [token, rest @ ..] = tokens else {
        return None;
    };
    if is_key(source, token, ClauseWord::Void) {
        return Some(ParsedItem(None, rest));
    }
    let kind = simple_type_of(token.text(source))?;
    Some(ParsedItem(Some(kind), rest))
}

/// `:` and the type of a return value, and what follows.
fn typed_result<'a>(source: &[u8], tokens: &'a [Token]) -> Option<ParsedItem<'a, Option<Simple>>>
    ensures { result
        ≡ option_and_then (λ rest. result_type source.now rest)
        (after_colon source.now tokens.now) }
{
    let rest = after_colon(source, tokens)?;
    result_type(source, rest)
}

/// What stands behind the name of a block: the type of a function's return value, and else nothing.
#[tactic(auto, unfolding(crate::specs::Clauses::result_at))]
fn result_of<'a>(
    source: &[u8],
    kind: BlockKind,
    tokens: &'a [Token],
) -> Option<ParsedItem<'a, Option<Simple>>>
    ensures { result ≡ result_at source.now kind tokens.now }
{
    match kind {
        BlockKind::Fc => typed_result(source, tokens),
        _ => Some(ParsedItem(None, tokens)),
    }
}

/// The first clause of a block, behind its keyword.
#[tactic(auto, unfolding(crate::specs::Clauses::head_clause))]
pub(crate) fn head<'a>(
    alloc: Global,
    source: &[u8],
    line: u32,
    kind: BlockKind,
    tokens: &'a [Token],
) -> Result<Option<ReadClause<'a>>, AllocError>
    ensures { IfOk result (λ found. found ≡ head_clause source.now line kind tokens.now) }
{
    let Some(ParsedItem(name, rest)) = block_of_kind(alloc, source, kind, tokens)? else {
        return Ok(None);
    };
    let Some(ParsedItem(result, rest)) = result_of(source, kind, rest) else {
        return Ok(None);
    };
    let head = Clause::Head {
        line,
        kind,
        name,
        result,
    };
    Ok(Some(ReadClause(head, rest, false)))
}

/// `: n.n` behind VERSION, and what follows.
#[tactic(auto, unfolding(crate::specs::Clauses::version_at))]
fn version<'a>(source: &[u8], tokens: &'a [Token]) -> Option<&'a [Token]>
    ensures { option_map (λ r. r.now) result ≡ version_at source.now tokens.now }
{
    let [colon, major, dot, minor, rest @ ..] = tokens else {
        return None;
    };
    if is_mark(source, colon, Mark::Colon)
        && has_kind(major, TokenKind::Number)
        && is_mark(source, dot, Mark::Dot)
        && has_kind(minor, TokenKind::Number)
    {
        Some(rest)
    } else {
        None
    }
}

/// `: word`, and what follows.
#[tactic(auto, unfolding(crate::specs::Clauses::colon_and_word_at))]
fn named_word<'a>(source: &[u8], tokens: &'a [Token]) -> Option<&'a [Token]>
    ensures { option_map (λ r. r.now) result ≡ colon_and_word_at source.now tokens.now }
{
    let [colon, word, rest @ ..] = tokens else {
        return None;
    };
    if is_mark(source, colon, Mark::Colon) && has_kind(word, TokenKind::Word) {
        Some(rest)
    } else {
        None
    }
}

/// What stands behind a word of the head, and what follows.
#[tactic(auto, unfolding(crate::specs::Clauses::head_word_at))]
fn behind_head_word<'a>(source: &[u8], word: HeadWord, tokens: &'a [Token]) -> Option<&'a [Token]>
    ensures { option_map (λ r. r.now) result ≡ head_word_at source.now word tokens.now }
{
    match word {
        HeadWord::Version => version(source, tokens),
        HeadWord::Named => named_word(source, tokens),
        HeadWord::Alone => Some(tokens),
    }
}

/// The clause that begins with a word of the head, read from the tokens behind that word.
#[tactic(auto, unfolding(crate::specs::Clauses::head_word_clause))]
pub(crate) fn head_word_clause<'a>(
    source: &[u8],
    at: ClausePlace,
    word: HeadWord,
    tokens: &'a [Token],
) -> Option<ReadClause<'a>>
    ensures { result ≡ head_word_clause source.now at word tokens.now }
{
    let rest = behind_head_word(source, word, tokens)?;
    Some(ReadClause(Clause::Note, behind_note(source, at, rest), false))
}

/// Whether a data block may be based on this: a function block, or a user-defined data type.
fn is_base(name: &BlockName) -> bool
    ensures { result ≡ is_base_block name.now }
{
    match name {
        BlockName::Number { id } => matches!(id.kind, BlockKind::Fb | BlockKind::Udt),
        BlockName::Quoted { name: _ } => true,
    }
}

/// What a data block is based on.
#[tactic(auto, unfolding(crate::specs::Clauses::base_block_at))]
pub(crate) fn base_block<'a>(
    alloc: Global,
    source: &[u8],
    tokens: &'a [Token],
) -> Result<Option<ReadClause<'a>>, AllocError>
    ensures { IfOk result (λ found. found ≡ base_block_at source.now tokens.now) }
{
    let Some(ParsedItem(name, rest)) = block(alloc, source, tokens)? else {
        return Ok(None);
    };
    if is_base(&name) {
        Ok(Some(ReadClause(Clause::Based { name }, rest, false)))
    } else {
        Ok(None)
    }
}
