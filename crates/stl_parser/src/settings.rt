ghost use Rattle.std.specs.Prelude.{◌≡◌, IfOk};
ghost use Rattle.stl_parser.specs.Clauses.{first_step, value_behind, setting_of};

use crate::keywords::is_mark;
use crate::literals::literal;
use crate::operands::local_name;
use crate::parsed_items::ParsedItem;
use crate::paths::steps;
use std::alloc::{AllocError, Global};
use stl_ast::{Name, PathStep, Sequence, Setting};
use stl_lexer::{Mark, Token, TokenKind};

/// The first step of a setting's path: a word, with or without `#`.
#[tactic(auto, unfolding(crate::specs::Clauses::first_step))]
fn first_step(alloc: Global, source: &[u8], token: &Token) -> Result<Option<PathStep>, AllocError>
    ensures { IfOk result (λ found. found ≡ first_step source.now token.now token.now.kind) }
{
    match token.kind {
        TokenKind::Word => {
            let name = Name::new(alloc, token.text(source))?;
            Ok(Some(PathStep::Named { name }))
        }
        TokenKind::Local => {
            let name = local_name(alloc, source, token)?;
            Ok(Some(PathStep::Named { name }))
        }
        _ => Ok(None),
    }
}

/// The value of a setting, behind its path.
#[tactic(auto, unfolding(crate::specs::Clauses::value_behind))]
fn value_behind(
    source: &[u8],
    line: u32,
    path: Sequence<PathStep>,
    tokens: &[Token],
) -> Option<Setting>
    ensures { result ≡ value_behind source.now line path tokens.now }
{
    let [assign, rest @ ..] = tokens else {
        return None;
    };
    if !is_mark(source, assign, Mark::Assign) {
        return None;
    }
    let value = literal(source, rest)?;
    Some(Setting { line, path, value })
}

/// A setting that is all of the tokens before its `;`.
#[tactic(auto, unfolding(crate::specs::Clauses::setting_of))]
pub(crate) fn setting_of(
    alloc: Global,
    source: &[u8],
    line: u32,
    tokens: &[Token],
) -> Result<Option<Setting>, AllocError>
    ensures { IfOk result (λ found. found ≡ setting_of source.now line tokens.now) }
{
    let [token, rest @ ..] = tokens else {
        return Ok(None);
    };
    let Some(step) = first_step(alloc, source, token)? else {
        return Ok(None);
    };
    let mut first = Vec::new(alloc);
    first.push(step)?;
    let Some(ParsedItem(path, rest)) = steps(alloc, source, first, rest)? else {
        return Ok(None);
    };
    Ok(value_behind(source, line, path, rest))
}
