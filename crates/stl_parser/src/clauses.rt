ghost use Rattle.std.specs.Prelude.{◌≡◌, ◌<◌, length, IfOk, IfSome};
ghost use Rattle.std.specs.Option.{option_map};
ghost use Rattle.stl_lexer.specs.Tokens.{text_of};
ghost use Rattle.stl_ast.specs.Declarations.{is_elementary_type, is_elementary};
ghost use Rattle.stl_parser.specs.Tables.{look_up, keywords, head_words};
ghost use Rattle.stl_parser.specs.Clauses.{
  semicolon_place,
  until_semicolon,
  inner_end,
  structure_end,
  keyword_clause,
  structure_clause,
  declaration_clause,
  statement_clause,
  setting_clause,
  inside_clause,
  semicolon_clause,
  plain_clause,
  other_clause,
  free_word_clause,
  word_clause,
  clause_by_kind,
  clause_at,
};

use crate::declarations::{declaration, structure};
use crate::heads::{base_block, behind_note, head, head_word_clause, skip_semicolon};
use crate::keywords::is_mark;
use crate::lookups::{head_word_of, keyword_of};
use crate::parsed_items::ParsedItem;
use crate::places::{ClausePlace, in_data_head, is_outer, level_at, takes_parameters};
use crate::settings::setting_of;
use crate::statements::statement;
use crate::tables::{HeadWord, Keyword};
use plc_base::BlockKind;
use std::alloc::{AllocError, Global};
use std::marker::Model;
use stl_ast::{BlockName, Bounds, Declaration, ElementType, PartKind, Setting, Simple, Statement};
use stl_lexer::{Mark, Token, TokenKind};

/// A clause of a source.
#[derive(Drop)]
pub enum Clause {
    /// The first clause of a block; `result` is the type of the return value of a function.
    Head {
        line: u32,
        kind: BlockKind,
        name: BlockName,
        result: Option<Simple>,
    },
    /// The END clause of a block.
    Ends {
        line: u32,
        kind: BlockKind,
    },
    /// `VAR..`.
    Section {
        line: u32,
        kind: PartKind,
    },
    /// `END_VAR`.
    EndSection,
    /// `BEGIN`.
    Begins,
    /// `NETWORK`.
    Network,
    /// `STRUCT` of a data block or of a `TYPE` block.
    Structure,
    /// `END_STRUCT`.
    EndStructure,
    /// The function block of an instance data block, or the data type of a data block.
    Based {
        name: BlockName,
    },
    /// An attribute, or a word of the head; read and ignored.
    Note,
    /// A title; read and ignored.
    Title,
    /// A declaration, or one that opens a structure.
    Declares {
        declaration: Declaration,
    },
    /// A setting of a data block.
    Sets {
        setting: Setting,
    },
    /// A statement.
    Runs {
        statement: Statement,
    },
}

/// A clause with what follows it, and whether a label in it is too long.
#[derive(Drop)]
pub(crate) struct ReadClause<'a>(pub Clause, pub &'a [Token], pub bool);

impl<'a> Model for ReadClause<'a> {
    ghost use Rattle.std.specs.Prelude.{Bool, List};
    ghost use Rattle.stl_lexer.specs.declared.kinds.Token.{Token};
    ghost use Rattle.stl_parser.specs.declared.clauses.Clause.{Clause};

    ghost Value = { Clause × List Token × Bool };

    ghost view = { λ r. (r.0, r.1.now, r.2) };
}

/// How many tokens stand before the first `;`, or None where there is none.
#[tactic(auto, unfolding(crate::specs::Clauses::semicolon_place))]
fn semicolon_place(source: &[u8], tokens: &[Token]) -> Option<usize>
    ensures value { result ≡ semicolon_place source.now tokens.now }
    ensures within { IfSome result (λ count. count < length tokens.now) }
{
    tokens
        .iter()
        .position(|token| is_mark(source, token, Mark::Semicolon))
}

/// The tokens before the first `;`, and those behind it.
#[tactic(auto, unfolding(crate::specs::Clauses::until_semicolon))]
fn until_semicolon<'a>(source: &[u8], tokens: &'a [Token]) -> Option<(&'a [Token], &'a [Token])>
    ensures { option_map (λ r. (r.0.now, r.1.now)) result
        ≡ until_semicolon source.now tokens.now }
{
    let count = semicolon_place(source, tokens)?;
    Some((&tokens[..count], &tokens[count + 1..]))
}

/// END_STRUCT of an inner structure, behind the word: its `;`.
#[tactic(auto, unfolding(crate::specs::Clauses::inner_end))]
fn inner_end<'a>(source: &[u8], tokens: &'a [Token]) -> Option<ReadClause<'a>>
    ensures { result ≡ inner_end source.now tokens.now }
{
    let [token, rest @ ..] = tokens else {
        return None;
    };
    if is_mark(source, token, Mark::Semicolon) {
        Some(ReadClause(Clause::EndStructure, rest, false))
    } else {
        None
    }
}

/// END_STRUCT, behind the word: with a `;` for an inner structure, and else with or without one.
#[tactic(auto, unfolding(crate::specs::Clauses::structure_end))]
fn structure_end<'a>(source: &[u8], at: ClausePlace, tokens: &'a [Token]) -> Option<ReadClause<'a>>
    ensures { result ≡ structure_end source.now at tokens.now }
{
    if level_at(at) > 0 {
        inner_end(source, tokens)
    } else {
        Some(ReadClause(Clause::EndStructure, skip_semicolon(source, tokens), false))
    }
}

/// The clause that begins with a keyword, read from the tokens behind that keyword.
#[tactic(auto, unfolding(crate::specs::Clauses::keyword_clause))]
fn keyword_clause<'a>(
    alloc: Global,
    source: &[u8],
    at: ClausePlace,
    line: u32,
    keyword: Keyword,
    rest: &'a [Token],
) -> Result<Option<ReadClause<'a>>, AllocError>
    ensures { IfOk result (λ found. found ≡ keyword_clause source.now at line keyword rest.now) }
{
    match keyword {
        Keyword::Opens { kind } => head(alloc, source, line, kind, rest),
        Keyword::Ends { kind } => Ok(Some(ReadClause(Clause::Ends { line, kind }, rest, false))),
        Keyword::Section { kind } => Ok(Some(ReadClause(
            Clause::Section { line, kind },
            rest,
            false,
        ))),
        Keyword::EndSection => Ok(Some(ReadClause(Clause::EndSection, rest, false))),
        Keyword::Begin => Ok(Some(ReadClause(Clause::Begins, rest, false))),
        Keyword::Network => Ok(Some(ReadClause(Clause::Network, rest, false))),
        Keyword::Structure => Ok(Some(ReadClause(Clause::Structure, rest, false))),
        Keyword::EndStructure => Ok(structure_end(source, at, rest)),
    }
}

/// A declaration that opens a structure; a parameter is no structure.
#[tactic(auto, unfolding(crate::specs::Clauses::structure_clause))]
fn structure_clause<'a>(
    alloc: Global,
    source: &[u8],
    at: ClausePlace,
    tokens: &'a [Token],
) -> Result<Option<ReadClause<'a>>, AllocError>
    ensures { IfOk result (λ found. found ≡ structure_clause source.now at tokens.now) }
{
    if takes_parameters(at) {
        return Ok(None);
    }
    let Some(ParsedItem(declaration, rest)) = structure(alloc, source, level_at(at), tokens)? else {
        return Ok(None);
    };
    Ok(Some(ReadClause(Clause::Declares { declaration }, rest, false)))
}

/// Whether the type is an elementary one.
fn is_plain(arrays: &[Bounds], of: &ElementType) -> bool
    ensures { result ≡ is_elementary_type arrays.now of.now }
{
    match arrays {
        [] => matches!(of, ElementType::Plain { kind: _ }),
        [_, ..] => false,
    }
}

/// Whether the declaration is of an elementary type.
fn is_elementary(declaration: &Declaration) -> bool
    ensures { result ≡ is_elementary declaration.now }
{
    is_plain(declaration.of.arrays.as_slice(), &declaration.of.of)
}

/// A declaration before its `;`; a parameter has an elementary type.
#[tactic(auto, unfolding(crate::specs::Clauses::declaration_clause))]
fn declaration_clause(
    alloc: Global,
    source: &[u8],
    at: ClausePlace,
    inside: &[Token],
) -> Result<Option<(Clause, bool)>, AllocError>
    ensures { IfOk result (λ found. found ≡ declaration_clause source.now at inside.now) }
{
    let Some(declaration) = declaration(alloc, source, level_at(at), inside)? else {
        return Ok(None);
    };
    if takes_parameters(at) && !is_elementary(&declaration) {
        return Ok(None);
    }
    Ok(Some((Clause::Declares { declaration }, false)))
}

/// A statement before its `;`, and whether a label in it is too long.
#[tactic(auto, unfolding(crate::specs::Clauses::statement_clause))]
fn statement_clause(
    alloc: Global,
    source: &[u8],
    line: u32,
    inside: &[Token],
) -> Result<Option<(Clause, bool)>, AllocError>
    ensures { IfOk result (λ found. found ≡ statement_clause source.now line inside.now) }
{
    let Some((statement, long)) = statement(alloc, source, line, inside)? else {
        return Ok(None);
    };
    Ok(Some((Clause::Runs { statement }, long)))
}

/// A setting before its `;`.
#[tactic(auto, unfolding(crate::specs::Clauses::setting_clause))]
fn setting_clause(
    alloc: Global,
    source: &[u8],
    line: u32,
    inside: &[Token],
) -> Result<Option<(Clause, bool)>, AllocError>
    ensures { IfOk result (λ found. found ≡ setting_clause source.now line inside.now) }
{
    let Some(setting) = setting_of(alloc, source, line, inside)? else {
        return Ok(None);
    };
    Ok(Some((Clause::Sets { setting }, false)))
}

/// A clause before its `;`: a declaration, a statement or a setting.
#[tactic(auto, unfolding(crate::specs::Clauses::inside_clause))]
fn inside_clause(
    alloc: Global,
    source: &[u8],
    at: ClausePlace,
    line: u32,
    inside: &[Token],
) -> Result<Option<(Clause, bool)>, AllocError>
    ensures { IfOk result (λ found. found ≡ inside_clause source.now at line inside.now) }
{
    if let Some(found) = declaration_clause(alloc, source, at, inside)? {
        return Ok(Some(found));
    }
    if let Some(found) = statement_clause(alloc, source, line, inside)? {
        return Ok(Some(found));
    }
    setting_clause(alloc, source, line, inside)
}

/// A clause that runs to its `;`.
#[tactic(auto, unfolding(crate::specs::Clauses::semicolon_clause))]
fn semicolon_clause<'a>(
    alloc: Global,
    source: &[u8],
    at: ClausePlace,
    line: u32,
    tokens: &'a [Token],
) -> Result<Option<ReadClause<'a>>, AllocError>
    ensures { IfOk result (λ found. found ≡ semicolon_clause source.now at line tokens.now) }
{
    let Some((inside, rest)) = until_semicolon(source, tokens) else {
        return Ok(None);
    };
    let Some((clause, long)) = inside_clause(alloc, source, at, line, inside)? else {
        return Ok(None);
    };
    Ok(Some(ReadClause(clause, rest, long)))
}

/// A clause that opens a structure or runs to its `;`.
#[tactic(auto, unfolding(crate::specs::Clauses::plain_clause))]
fn plain_clause<'a>(
    alloc: Global,
    source: &[u8],
    at: ClausePlace,
    line: u32,
    tokens: &'a [Token],
) -> Result<Option<ReadClause<'a>>, AllocError>
    ensures { IfOk result (λ found. found ≡ plain_clause source.now at line tokens.now) }
{
    if let Some(found) = structure_clause(alloc, source, at, tokens)? {
        return Ok(Some(found));
    }
    semicolon_clause(alloc, source, at, line, tokens)
}

/// A clause that begins with no keyword; in the head of a data block it may name what the block is
/// based on.
#[tactic(auto, unfolding(crate::specs::Clauses::other_clause))]
fn other_clause<'a>(
    alloc: Global,
    source: &[u8],
    at: ClausePlace,
    line: u32,
    tokens: &'a [Token],
) -> Result<Option<ReadClause<'a>>, AllocError>
    ensures { IfOk result (λ found. found ≡ other_clause source.now at line tokens.now) }
{
    if !in_data_head(at) {
        return plain_clause(alloc, source, at, line, tokens);
    }
    if let Some(found) = base_block(alloc, source, tokens)? {
        return Ok(Some(found));
    }
    plain_clause(alloc, source, at, line, tokens)
}

/// A clause that begins with a word which is no keyword; `tokens` are the word and the rest.
#[tactic(auto, unfolding(crate::specs::Clauses::free_word_clause))]
fn free_word_clause<'a>(
    alloc: Global,
    source: &[u8],
    at: ClausePlace,
    token: &Token,
    rest: &'a [Token],
    tokens: &'a [Token],
) -> Result<Option<ReadClause<'a>>, AllocError>
    ensures { IfOk result (λ found. found
        ≡ free_word_clause source.now at token.now rest.now tokens.now (look_up head_words
        (text_of source.now token.now))) }
{
    match head_word_of(token.text(source)) {
        Some(word) => {
            if is_outer(at) {
                Ok(head_word_clause(source, at, word, rest))
            } else {
                other_clause(alloc, source, at, token.line, tokens)
            }
        }
        None => other_clause(alloc, source, at, token.line, tokens),
    }
}

/// A clause that begins with a word; `tokens` are the word and the rest.
#[tactic(auto, unfolding(crate::specs::Clauses::word_clause))]
fn word_clause<'a>(
    alloc: Global,
    source: &[u8],
    at: ClausePlace,
    token: &Token,
    rest: &'a [Token],
    tokens: &'a [Token],
) -> Result<Option<ReadClause<'a>>, AllocError>
    ensures { IfOk result (λ found. found
        ≡ word_clause source.now at token.now rest.now tokens.now (look_up keywords
        (text_of source.now token.now))) }
{
    match keyword_of(token.text(source)) {
        Some(keyword) => keyword_clause(alloc, source, at, token.line, keyword, rest),
        None => free_word_clause(alloc, source, at, token, rest, tokens),
    }
}

/// A clause, by the kind of its first token; `tokens` are it and the rest.
#[tactic(auto, unfolding(crate::specs::Clauses::clause_by_kind))]
fn clause_by_kind<'a>(
    alloc: Global,
    source: &[u8],
    at: ClausePlace,
    token: &Token,
    rest: &'a [Token],
    tokens: &'a [Token],
) -> Result<Option<ReadClause<'a>>, AllocError>
    ensures { IfOk result (λ found. found
        ≡ clause_by_kind source.now at token.now rest.now tokens.now token.now.kind) }
{
    match token.kind {
        TokenKind::Word => word_clause(alloc, source, at, token, rest, tokens),
        TokenKind::Attribute => Ok(Some(ReadClause(
            Clause::Note,
            behind_note(source, at, rest),
            false,
        ))),
        TokenKind::Title => Ok(Some(ReadClause(
            Clause::Title,
            behind_note(source, at, rest),
            false,
        ))),
        _ => other_clause(alloc, source, at, token.line, tokens),
    }
}

/// The clause at the front, what follows it, and whether a label in it is too long; None where it
/// isn't in the grammar.
#[tactic(auto, unfolding(crate::specs::Clauses::clause_at))]
pub(crate) fn clause_at<'a>(
    alloc: Global,
    source: &[u8],
    at: ClausePlace,
    tokens: &'a [Token],
) -> Result<Option<ReadClause<'a>>, AllocError>
    ensures { IfOk result (λ found. found ≡ clause_at source.now at tokens.now) }
{
    let [token, rest @ ..] = tokens else {
        return Ok(None);
    };
    clause_by_kind(alloc, source, at, token, rest, tokens)
}
