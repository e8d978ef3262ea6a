ghost use Rattle.std.specs.Prelude.{◌≡◌, IfOk};
ghost use Rattle.std.specs.Option.{option_map};
ghost use Rattle.stl_parser.specs.Declarations.{
  after_attribute,
  after_colon,
  declared_name_at,
  after_struct,
  declaration_from_parts,
  structure_at,
  init_behind,
  declaration_of,
};

use crate::keywords::{ClauseWord, has_kind, is_key, is_mark};
use crate::parsed_items::ParsedItem;
use crate::types::{arrays, element, inits};
use std::alloc::{AllocError, Global};
use stl_ast::{Bounds, Declaration, ElementType, Init, Name, Sequence, TypeTree};
use stl_lexer::{Mark, Token, TokenKind};

/// The tokens behind an attribute, where one stands at the front.
#[tactic(auto, unfolding(crate::specs::Declarations::after_attribute))]
fn after_attribute(tokens: &[Token]) -> &[Token]
    ensures { result.now ≡ after_attribute tokens.now }
{
    match tokens {
        [] => tokens,
        [token, rest @ ..] => {
            if has_kind(token, TokenKind::Attribute) {
                rest
            } else {
                tokens
            }
        }
    }
}

/// The tokens behind a `:`.
#[tactic(auto, unfolding(crate::specs::Declarations::after_colon))]
pub(crate) fn after_colon<'a>(source: &[u8], tokens: &'a [Token]) -> Option<&'a [Token]>
    ensures { option_map (λ r. r.now) result ≡ after_colon source.now tokens.now }
{
    let [token, rest @ ..] = tokens else {
        return None;
    };
    if is_mark(source, token, Mark::Colon) {
        Some(rest)
    } else {
        None
    }
}

/// A declared name, `word [attribute] :`, and the tokens of its type.
#[tactic(auto, unfolding(crate::specs::Declarations::declared_name_at))]
fn declared_name<'a>(source: &[u8], tokens: &'a [Token]) -> Option<ParsedItem<'a, Token>>
    ensures { result ≡ declared_name_at source.now tokens.now }
{
    let [token, rest @ ..] = tokens else {
        return None;
    };
    if !has_kind(token, TokenKind::Word) {
        return None;
    }
    let behind = after_colon(source, after_attribute(rest))?;
    Some(ParsedItem(*token, behind))
}

/// The tokens behind STRUCT.
#[tactic(auto, unfolding(crate::specs::Declarations::after_struct))]
fn after_struct<'a>(source: &[u8], tokens: &'a [Token]) -> Option<&'a [Token]>
    ensures { option_map (λ r. r.now) result ≡ after_struct source.now tokens.now }
{
    let [token, rest @ ..] = tokens else {
        return None;
    };
    if is_key(source, token, ClauseWord::Struct) {
        Some(rest)
    } else {
        None
    }
}

/// A declaration with this type and these initial values.
fn declaration_from_parts(
    alloc: Global,
    source: &[u8],
    level: u32,
    word: &Token,
    arrays: Sequence<Bounds>,
    of: ElementType,
    init: Sequence<Init>,
) -> Result<Declaration, AllocError>
    ensures { IfOk result (λ d. d
        ≡ declaration_from_parts source.now level word.now arrays of init) }
{
    let name = Name::new(alloc, word.text(source))?;
    Ok(Declaration {
        line: word.line,
        name,
        level,
        of: TypeTree { arrays, of },
        init,
    })
}

/// A declaration that opens a structure, up to STRUCT, and what follows.
#[tactic(auto, unfolding(crate::specs::Declarations::structure_at))]
pub(crate) fn structure<'a>(
    alloc: Global,
    source: &[u8],
    level: u32,
    tokens: &'a [Token],
) -> Result<Option<ParsedItem<'a, Declaration>>, AllocError>
    ensures { IfOk result (λ found. found ≡ structure_at source.now level tokens.now) }
{
    let Some(ParsedItem(word, rest)) = declared_name(source, tokens) else {
        return Ok(None);
    };
    let Some(ParsedItem(arrays, rest)) = arrays(alloc, source, rest)? else {
        return Ok(None);
    };
    let Some(rest) = after_struct(source, rest) else {
        return Ok(None);
    };
    let none = Sequence::from_vec(Vec::new(alloc));
    let declaration = declaration_from_parts(
        alloc,
        source,
        level,
        &word,
        arrays,
        ElementType::Structure,
        none,
    )?;
    Ok(Some(ParsedItem(declaration, rest)))
}

/// The initial values behind a type: none, or `:=` and the values.
#[tactic(auto, unfolding(crate::specs::Declarations::init_behind))]
fn init_behind(
    alloc: Global,
    source: &[u8],
    arrays: &[Bounds],
    element: &ElementType,
    tokens: &[Token],
) -> Result<Option<Sequence<Init>>, AllocError>
    ensures { IfOk result (λ found. found
        ≡ init_behind source.now arrays.now element.now tokens.now) }
{
    let [token, rest @ ..] = tokens else {
        return Ok(Some(Sequence::from_vec(Vec::new(alloc))));
    };
    if is_mark(source, token, Mark::Assign) {
        inits(alloc, source, arrays, element, rest)
    } else {
        Ok(None)
    }
}

/// A declaration that is all of the tokens.
#[tactic(auto, unfolding(crate::specs::Declarations::declaration_of))]
pub(crate) fn declaration(
    alloc: Global,
    source: &[u8],
    level: u32,
    tokens: &[Token],
) -> Result<Option<Declaration>, AllocError>
    ensures { IfOk result (λ found. found ≡ declaration_of source.now level tokens.now) }
{
    let Some(ParsedItem(word, rest)) = declared_name(source, tokens) else {
        return Ok(None);
    };
    let Some(ParsedItem(arrays, rest)) = arrays(alloc, source, rest)? else {
        return Ok(None);
    };
    let Some(ParsedItem(of, rest)) = element(alloc, source, rest)? else {
        return Ok(None);
    };
    let Some(init) = init_behind(alloc, source, arrays.as_slice(), &of, rest)? else {
        return Ok(None);
    };
    let declaration = declaration_from_parts(alloc, source, level, &word, arrays, of, init)?;
    Ok(Some(declaration))
}
