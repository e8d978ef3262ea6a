ghost use Rattle.std.specs.Prelude.{◌≡◌, ◌≤◌, ◌∷◌, [], ◌++◌, map, filter, length, false, true, IfOk, IfErr};
ghost use Rattle.std.specs.List.{flat_map};
ghost use Rattle.stl_lexer.specs.Limits.{source_limit};
ghost use Rattle.stl_parser.specs.declared.clauses.Clause.TheVariants as spelled;
ghost use Rattle.stl_parser.specs.declared.places.ClausePlace.TheVariants as place;
ghost use Rattle.stl_parser.specs.Clauses.{level_at};
ghost use Rattle.stl_parser.specs.BlockReading.{
  ReadsContent,
  ReadsShape,
  behind_inside,
  declarations_of_clause,
  is_inside,
  opened_place,
  opens_content,
  opens_part,
  opens_shape,
  settings_of_clause,
  spelled_content,
  spelled_shape_or_body,
  statements_of_clause,
};
ghost use Rattle.stl_parser.specs.Source.{ReadsKeptClauses, IsBrokenBehind};
ghost use Rattle.stl_parser.specs.Spelling.{
  is_kept_by_tree,
  is_udt,
  spelled_block,
  spelled_behind_head,
  spelled_part,
  spelled_shape,
};

use crate::clauses::Clause;
use crate::places::ClausePlace;
use crate::steps::next_clause;
use plc_base::{BlockKind, SourceFault};
use std::alloc::{AllocError, Global};
use stl_ast::{
    Block, BlockName, Declaration, Declarations, ElementType, Part, Sequence, Setting, Simple,
    Statement, TypeTree,
};
use stl_lexer::Token;

/// Whether a place lies inside a section or a structure.
fn is_inside(at: ClausePlace) -> bool
    ensures { result ≡ is_inside at }
{
    match at {
        ClausePlace::Section {
            kind: _,
            part: _,
            level: _,
        } => true,
        ClausePlace::Shape { kind: _, level: _ } => true,
        _ => false,
    }
}

/// Keeps a declaration, where the clause is one.
fn keep_declaration(items: &mut Vec<Declaration>, clause: Clause) -> Result<(), AllocError>
    ensures { IfOk result (λ _. items.new.items
        ≡ items.old.items ++ declarations_of_clause clause) }
{
    match clause {
        Clause::Declares { declaration } => {
            items.push(declaration)?;
            Ok(())
        }
        _ => Ok(()),
    }
}

/// Keeps a setting, where the clause is one.
fn keep_setting(settings: &mut Vec<Setting>, clause: Clause) -> Result<(), AllocError>
    ensures { IfOk result (λ _. settings.new.items
        ≡ settings.old.items ++ settings_of_clause clause) }
{
    match clause {
        Clause::Sets { setting } => {
            settings.push(setting)?;
            Ok(())
        }
        _ => Ok(()),
    }
}

/// Keeps a statement, where the clause is one.
fn keep_statement(body: &mut Vec<Statement>, clause: Clause) -> Result<(), AllocError>
    ensures { IfOk result (λ _. body.new.items ≡ body.old.items ++ statements_of_clause clause) }
{
    match clause {
        Clause::Runs { statement } => {
            body.push(statement)?;
            Ok(())
        }
        _ => Ok(()),
    }
}

/// The declarations of a section or of a structure, and what follows its end.
fn declarations<'a>(
    alloc: Global,
    source: &[u8],
    last: u32,
    from: ClausePlace,
    tokens: &'a [Token],
) -> Result<(Declarations, &'a [Token]), SourceFault>
    requires inside { is_inside from ≡ true }
    requires outer { level_at from ≡ 0 }
    requires few { length tokens.now ≤ source_limit }
    ensures read { IfOk result (λ r. ReadsKeptClauses source.now from tokens.now
        (map spelled.Declares r.0) (behind_inside from) r.1.now) }
    ensures broken { IfErr result (IsBrokenBehind source.now from tokens.now last) }
{
    let mut items: Vec<Declaration> = Vec::new(alloc);
    let mut at = from;
    let mut rest = tokens;
    loop {
        let (clause, behind, next) = next_clause(alloc, source, last, at, rest)?;
        if !is_inside(next) {
            return Ok((Declarations::from_vec(items), behind));
        }
        keep_declaration(&mut items, clause)?;
        at = next;
        rest = behind;
    }
}

/// The statements of a block, the line of its END clause, and what follows it.
fn body<'a>(
    alloc: Global,
    source: &[u8],
    last: u32,
    kind: BlockKind,
    tokens: &'a [Token],
) -> Result<(Sequence<Statement>, u32, &'a [Token]), SourceFault>
    ensures read { IfOk result (λ r. ReadsKeptClauses source.now (place.Body kind) tokens.now
        (map spelled.Runs r.0 ++ spelled.Ends r.1 kind ∷ []) place.Outside r.2.now) }
    ensures broken { IfErr result (IsBrokenBehind source.now (place.Body kind) tokens.now last) }
{
    let mut statements: Vec<Statement> = Vec::new(alloc);
    let mut rest = tokens;
    loop {
        let (clause, behind, _) = next_clause(
            alloc,
            source,
            last,
            ClausePlace::Body { kind },
            rest,
        )?;
        match clause {
            Clause::Ends { line, kind: _ } => {
                return Ok((Sequence::from_vec(statements), line, behind));
            }
            other => {
                keep_statement(&mut statements, other)?;
                rest = behind;
            }
        }
    }
}

/// The settings behind the type of a block, the line of its END clause, and what follows it.
fn settings<'a>(
    alloc: Global,
    source: &[u8],
    last: u32,
    kind: BlockKind,
    tokens: &'a [Token],
) -> Result<(Sequence<Setting>, u32, &'a [Token]), SourceFault>
    ensures read { IfOk result (λ r. ReadsKeptClauses source.now (place.Shaped kind) tokens.now
        (map spelled.Sets r.0 ++ spelled.Ends r.1 kind ∷ []) place.Outside r.2.now) }
    ensures broken { IfErr result (IsBrokenBehind source.now (place.Shaped kind) tokens.now last) }
{
    let mut settings: Vec<Setting> = Vec::new(alloc);
    let mut at = ClausePlace::Shaped { kind };
    let mut rest = tokens;
    loop {
        let (clause, behind, next) = next_clause(alloc, source, last, at, rest)?;
        match clause {
            Clause::Ends { line, kind: _ } => {
                return Ok((Sequence::from_vec(settings), line, behind));
            }
            other => {
                keep_setting(&mut settings, other)?;
                at = next;
                rest = behind;
            }
        }
    }
}

/// The first clause behind the head of a block that opens a section, a structure or the body, and
/// what follows it.
fn opening<'a>(
    alloc: Global,
    source: &[u8],
    last: u32,
    kind: BlockKind,
    tokens: &'a [Token],
) -> Result<(Clause, &'a [Token]), SourceFault>
    ensures read { IfOk result (λ r. ReadsKeptClauses source.now (place.Head kind) tokens.now
        (filter is_kept_by_tree (r.0 ∷ [])) (opened_place kind r.0) r.1.now) }
    ensures opens { IfOk result (λ r. opens_part r.0 ≡ true) }
    ensures broken { IfErr result (IsBrokenBehind source.now (place.Head kind) tokens.now last) }
{
    let mut rest = tokens;
    loop {
        let (clause, behind, _) = next_clause(
            alloc,
            source,
            last,
            ClausePlace::Head { kind },
            rest,
        )?;
        match clause {
            Clause::Note | Clause::Title => rest = behind,
            other => return Ok((other, behind)),
        }
    }
}

/// The sections behind the head of a block, the clause that opens its structure or its body, and
/// what follows that.
fn sections<'a>(
    alloc: Global,
    source: &[u8],
    last: u32,
    kind: BlockKind,
    tokens: &'a [Token],
) -> Result<(Sequence<Part>, Clause, &'a [Token]), SourceFault>
    requires few { length tokens.now ≤ source_limit }
    ensures read { IfOk result (λ r. ReadsKeptClauses source.now (place.Head kind) tokens.now
        (flat_map spelled_part r.0 ++ filter is_kept_by_tree (r.1 ∷ []))
        (opened_place kind r.1) r.2.now) }
    ensures opens { IfOk result (λ r. opens_content r.1 ≡ true) }
    ensures few { IfOk result (λ r. length r.2.now ≤ source_limit) }
    ensures broken { IfErr result (IsBrokenBehind source.now (place.Head kind) tokens.now last) }
{
    let mut parts: Vec<Part> = Vec::new(alloc);
    let (mut clause, mut rest) = opening(alloc, source, last, kind, tokens)?;
    loop {
        match clause {
            Clause::Section { line, kind: part } => {
                let first = ClausePlace::Section {
                    kind,
                    part,
                    level: 0,
                };
                let (items, behind) = declarations(alloc, source, last, first, rest)?;
                parts.push(Part {
                    line,
                    kind: part,
                    items,
                })?;
                let between = ClausePlace::Between { kind, last: part };
                let found = next_clause(alloc, source, last, between, behind)?;
                clause = found.0;
                rest = found.1;
            }
            other => return Ok((Sequence::from_vec(parts), other, rest)),
        }
    }
}

/// A type that is no array.
fn single_type(alloc: Global, of: ElementType) -> TypeTree
    ensures { result ≡ record { arrays = []; of = of } }
{
    TypeTree {
        arrays: Sequence::from_vec(Vec::new(alloc)),
        of,
    }
}

/// No declarations.
fn no_components(alloc: Global) -> Declarations
    ensures { result ≡ [] }
{
    Declarations::from_vec(Vec::new(alloc))
}

/// The shape of a block with its components, or the function block of an instance.
#[derive(Drop)]
struct ParsedShape {
    shape: Option<TypeTree>,
    instance_of: Option<BlockName>,
    components: Declarations,
}

/// Whether this is the name of a user-defined data type, by its number.
fn is_udt(name: &BlockName) -> bool
    ensures { result ≡ is_udt name.now }
{
    match name {
        BlockName::Number { id } => id.kind.is_data_type(),
        BlockName::Quoted { name: _ } => false,
    }
}

/// The shape that a name stands for: a data type, or else the function block of an instance.
fn based_shape(alloc: Global, name: BlockName) -> ParsedShape
    ensures { spelled_shape result.shape result.instance_of result.components
        ≡ spelled.Based name ∷ [] }
{
    let components = no_components(alloc);
    if is_udt(&name) {
        let shape = Some(single_type(alloc, ElementType::Udt { name }));
        ParsedShape {
            shape,
            instance_of: None,
            components,
        }
    } else {
        ParsedShape {
            shape: None,
            instance_of: Some(name),
            components,
        }
    }
}

/// What a clause behind the sections of a block opens.
#[derive(Drop)]
enum ShapeOrBody {
    Body,
    Structure { components: Declarations },
    Based { name: BlockName },
}

/// The shape that is a structure with these components.
fn structure_shape(alloc: Global, components: Declarations) -> ParsedShape
    ensures { spelled_shape result.shape result.instance_of result.components
        ≡ spelled.Structure ∷ map spelled.Declares components }
{
    let shape = Some(single_type(alloc, ElementType::Structure));
    ParsedShape {
        shape,
        instance_of: None,
        components,
    }
}

/// The shape of a block that has a body.
fn no_shape(alloc: Global) -> ParsedShape
    ensures { spelled_shape result.shape result.instance_of result.components ≡ [] }
{
    ParsedShape {
        shape: None,
        instance_of: None,
        components: no_components(alloc),
    }
}

/// The shape of what was opened.
fn shape_of(alloc: Global, opened: ShapeOrBody) -> ParsedShape
    ensures { spelled_shape result.shape result.instance_of result.components
        ≡ spelled_shape_or_body opened }
{
    match opened {
        ShapeOrBody::Body => no_shape(alloc),
        ShapeOrBody::Structure { components } => structure_shape(alloc, components),
        ShapeOrBody::Based { name } => based_shape(alloc, name),
    }
}

/// The shape that a clause opens, and what follows it.
fn opened_shape<'a>(
    alloc: Global,
    source: &[u8],
    last: u32,
    kind: BlockKind,
    opening: Clause,
    tokens: &'a [Token],
) -> Result<(ShapeOrBody, &'a [Token]), SourceFault>
    requires opens { opens_shape opening ≡ true }
    requires few { length tokens.now ≤ source_limit }
    ensures read { IfOk result (λ r. ReadsShape source.now kind opening tokens.now
        (spelled_shape_or_body r.0) r.1.now) }
    ensures broken { IfErr result
        (IsBrokenBehind source.now (opened_place kind opening) tokens.now last) }
{
    match opening {
        Clause::Structure => {
            let first = ClausePlace::Shape { kind, level: 0 };
            let (components, behind) = declarations(alloc, source, last, first, tokens)?;
            Ok((ShapeOrBody::Structure { components }, behind))
        }
        Clause::Based { name } => Ok((ShapeOrBody::Based { name }, tokens)),
        _ => unreachable!(),
    }
}

/// What stands behind the sections of a block.
#[derive(Drop)]
struct Content {
    opened: ShapeOrBody,
    settings: Sequence<Setting>,
    body: Sequence<Statement>,
    end_line: u32,
}

/// The content that is a body, behind the clause that opens it, and what follows it.
fn code_content<'a>(
    alloc: Global,
    source: &[u8],
    last: u32,
    kind: BlockKind,
    tokens: &'a [Token],
) -> Result<(Content, &'a [Token]), SourceFault>
    ensures read { IfOk result (λ r. ReadsContent source.now kind spelled.Begins tokens.now
        (spelled_content kind r.0) r.1.now) }
    ensures broken { IfErr result (IsBrokenBehind source.now (place.Body kind) tokens.now last) }
{
    let (body, end_line, rest) = body(alloc, source, last, kind, tokens)?;
    let content = Content {
        opened: ShapeOrBody::Body,
        settings: Sequence::from_vec(Vec::new(alloc)),
        body,
        end_line,
    };
    Ok((content, rest))
}

/// The content that a shape opens, with the settings behind it, and what follows it.
fn data_content<'a>(
    alloc: Global,
    source: &[u8],
    last: u32,
    kind: BlockKind,
    opening: Clause,
    tokens: &'a [Token],
) -> Result<(Content, &'a [Token]), SourceFault>
    requires opens { opens_shape opening ≡ true }
    requires few { length tokens.now ≤ source_limit }
    ensures read { IfOk result (λ r. ReadsContent source.now kind opening tokens.now
        (spelled_content kind r.0) r.1.now) }
    ensures broken { IfErr result
        (IsBrokenBehind source.now (opened_place kind opening) tokens.now last) }
{
    let (opened, rest) = opened_shape(alloc, source, last, kind, opening, tokens)?;
    let (settings, end_line, rest) = settings(alloc, source, last, kind, rest)?;
    let content = Content {
        opened,
        settings,
        body: Sequence::from_vec(Vec::new(alloc)),
        end_line,
    };
    Ok((content, rest))
}

/// What a clause opens behind the sections of a block, and what follows it.
fn opened_content<'a>(
    alloc: Global,
    source: &[u8],
    last: u32,
    kind: BlockKind,
    opening: Clause,
    tokens: &'a [Token],
) -> Result<(Content, &'a [Token]), SourceFault>
    requires opens { opens_content opening ≡ true }
    requires few { length tokens.now ≤ source_limit }
    ensures read { IfOk result (λ r. ReadsContent source.now kind opening tokens.now
        (spelled_content kind r.0) r.1.now) }
    ensures broken { IfErr result
        (IsBrokenBehind source.now (opened_place kind opening) tokens.now last) }
{
    match opening {
        Clause::Begins => code_content(alloc, source, last, kind, tokens),
        other => data_content(alloc, source, last, kind, other, tokens),
    }
}

/// The head of a block: what its first clause says.
#[derive(Drop)]
struct HeadClause {
    line: u32,
    kind: BlockKind,
    name: BlockName,
    result: Option<Simple>,
}

/// The block with this head, these sections and this content.
fn assembled_block(
    alloc: Global,
    head: HeadClause,
    parts: Sequence<Part>,
    content: Content,
) -> Block
    ensures head { spelled_block result
        ≡ spelled.Head head.line head.kind head.name head.result ∷ spelled_behind_head result }
    ensures behind { spelled_behind_head result
        ≡ flat_map spelled_part parts ++ spelled_content head.kind content }
{
    let shape = shape_of(alloc, content.opened);
    Block {
        line: head.line,
        end_line: content.end_line,
        kind: head.kind,
        name: head.name,
        result: head.result,
        parts,
        shape: shape.shape,
        components: shape.components,
        instance_of: shape.instance_of,
        settings: content.settings,
        body: content.body,
    }
}

/// The block with this head, and what follows it.
fn block<'a>(
    alloc: Global,
    source: &[u8],
    last: u32,
    head: HeadClause,
    tokens: &'a [Token],
) -> Result<(Block, &'a [Token]), SourceFault>
    requires few { length tokens.now ≤ source_limit }
    ensures head { IfOk result (λ r. spelled_block r.0
        ≡ spelled.Head head.line head.kind head.name head.result ∷ spelled_behind_head r.0) }
    ensures read { IfOk result (λ r. ReadsKeptClauses source.now (place.Head head.kind) tokens.now
        (spelled_behind_head r.0) place.Outside r.1.now) }
    ensures broken { IfErr result
        (IsBrokenBehind source.now (place.Head head.kind) tokens.now last) }
{
    let kind = head.kind;
    let (parts, opening, rest) = sections(alloc, source, last, kind, tokens)?;
    let (content, rest) = opened_content(alloc, source, last, kind, opening, rest)?;
    Ok((assembled_block(alloc, head, parts, content), rest))
}

/// The blocks of a source.
pub(crate) fn source_blocks(
    alloc: Global,
    source: &[u8],
    last: u32,
    tokens: &[Token],
) -> Result<Vec<Block>, SourceFault>
    requires few { length tokens.now ≤ source_limit }
    ensures read { IfOk result (λ blocks. ReadsKeptClauses source.now place.Outside tokens.now
        (flat_map spelled_block blocks.items) place.Outside []) }
    ensures broken { IfErr result (IsBrokenBehind source.now place.Outside tokens.now last) }
{
    let mut blocks: Vec<Block> = Vec::new(alloc);
    let mut rest = tokens;
    while let [_, ..] = rest {
        let (clause, behind, _) = next_clause(alloc, source, last, ClausePlace::Outside, rest)?;
        let Clause::Head {
            line,
            kind,
            name,
            result,
        } = clause
        else {
            unreachable!();
        };
        let head = HeadClause {
            line,
            kind,
            name,
            result,
        };
        let (block, behind) = block(alloc, source, last, head, behind)?;
        blocks.push(block)?;
        rest = behind;
    }
    Ok(blocks)
}
