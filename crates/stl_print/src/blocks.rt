//! Blocks, clause by clause.
ghost use Rattle.std.specs.Prelude.{◌≡◌, ◌∷◌, [], ◌++◌, map, IfOk};
ghost use Rattle.std.specs.List.{flat_map};
ghost use Rattle.stl_ast.specs.Outline.{level_behind as deepest_behind};
ghost use Rattle.stl_parser.specs.declared.clauses.Clause.TheVariants as clause;
ghost use Rattle.stl_print.specs.Clauses.{with_clauses};
ghost use Rattle.stl_print.specs.Trees.{
  begin_clauses,
  block_clauses,
  declaration_clauses_from,
  instance_clauses,
  part_clauses,
  shape_clauses,
  type_clauses,
};

use crate::clauses::{
    append_base, append_begin, append_declares, append_end, append_head, append_runs,
    append_section_end, append_section_word, append_sets, append_structure, append_structure_end,
    append_structure_ends,
};
use plc_base::{BlockKind, NoMemory};
use stl_ast::{Block, BlockName, Declaration, ElementType, Part, Setting, Statement, TypeTree};

/// How many structures are open behind a declaration.
fn level_behind(level: u32, of: &ElementType) -> u64
    ensures { result ≡ deepest_behind level of.now }
{
    match of {
        ElementType::Structure => u64::from(level) + 1,
        _ => u64::from(level),
    }
}

/// Appends declarations, where no structure is open around the first.
fn append_declarations(
    declarations: &[Declaration],
    reached: u32,
    out: &mut Vec<u8>,
) -> Result<u32, NoMemory>
    ensures { IfOk result (λ behind. (behind, out.new.items)
        ≡ with_clauses (reached, out.old.items) (declaration_clauses_from 0 declarations.now)) }
{
    let mut line = reached;
    let mut level: u64 = 0;
    let mut left = declarations;
    while let [declaration, rest @ ..] = left {
        let closed = level.saturating_sub(u64::from(declaration.level));
        line = append_structure_ends(closed, line, out)?;
        line = append_declares(declaration, line, out)?;
        level = level_behind(declaration.level, &declaration.of.of);
        left = rest;
    }
    append_structure_ends(level, line, out)
}

#[tactic(auto, using(crate::proofs::LineLemmas::clauses_then), unfolding(crate::specs::Trees::part_clauses))]
fn append_part(part: &Part, reached: u32, out: &mut Vec<u8>) -> Result<u32, NoMemory>
    ensures { IfOk result (λ behind. (behind, out.new.items)
        ≡ with_clauses (reached, out.old.items) (part_clauses part.now)) }
{
    let line = append_section_word(part.kind, part.line, reached, out)?;
    let line = append_declarations(part.items.as_slice(), line, out)?;
    let line = append_section_end(line, out)?;
    Ok(line)
}

fn append_parts(parts: &[Part], reached: u32, out: &mut Vec<u8>) -> Result<u32, NoMemory>
    ensures { IfOk result (λ behind. (behind, out.new.items)
        ≡ with_clauses (reached, out.old.items) (flat_map part_clauses parts.now)) }
{
    let mut line = reached;
    let mut left = parts;
    while let [part, rest @ ..] = left {
        line = append_part(part, line, out)?;
        left = rest;
    }
    Ok(line)
}

fn append_components(
    components: &[Declaration],
    reached: u32,
    out: &mut Vec<u8>,
) -> Result<u32, NoMemory>
    ensures { IfOk result (λ behind. (behind, out.new.items)
        ≡ with_clauses (reached, out.old.items)
        (clause.Structure
        ∷ (declaration_clauses_from 0 components.now ++ clause.EndStructure ∷ []))) }
{
    let line = append_structure(reached, out)?;
    let line = append_declarations(components, line, out)?;
    append_structure_end(line, out)
}

#[tactic(auto, unfolding(crate::specs::Trees::type_clauses))]
fn append_type(
    of: &ElementType,
    components: &[Declaration],
    reached: u32,
    out: &mut Vec<u8>,
) -> Result<u32, NoMemory>
    ensures { IfOk result (λ behind. (behind, out.new.items)
        ≡ with_clauses (reached, out.old.items) (type_clauses of.now components.now)) }
{
    match of {
        ElementType::Structure => append_components(components, reached, out),
        ElementType::Udt { name } => append_base(name, reached, out),
        _ => Ok(reached),
    }
}

fn append_shape(
    shape: &Option<TypeTree>,
    components: &[Declaration],
    reached: u32,
    out: &mut Vec<u8>,
) -> Result<u32, NoMemory>
    ensures { IfOk result (λ behind. (behind, out.new.items)
        ≡ with_clauses (reached, out.old.items) (shape_clauses shape.now components.now)) }
{
    match shape {
        None => Ok(reached),
        Some(shape) => append_type(&shape.of, components, reached, out),
    }
}

fn append_instance_of(
    name: &Option<BlockName>,
    reached: u32,
    out: &mut Vec<u8>,
) -> Result<u32, NoMemory>
    ensures { IfOk result (λ behind. (behind, out.new.items)
        ≡ with_clauses (reached, out.old.items) (instance_clauses name.now)) }
{
    match name {
        None => Ok(reached),
        Some(name) => append_base(name, reached, out),
    }
}

fn append_begin_of(kind: BlockKind, reached: u32, out: &mut Vec<u8>) -> Result<u32, NoMemory>
    ensures { IfOk result (λ behind. (behind, out.new.items)
        ≡ with_clauses (reached, out.old.items) (begin_clauses kind)) }
{
    if kind.is_data_type() {
        Ok(reached)
    } else {
        append_begin(reached, out)
    }
}

fn append_settings(settings: &[Setting], reached: u32, out: &mut Vec<u8>) -> Result<u32, NoMemory>
    ensures { IfOk result (λ behind. (behind, out.new.items)
        ≡ with_clauses (reached, out.old.items) (map clause.Sets settings.now)) }
{
    let mut line = reached;
    let mut left = settings;
    while let [setting, rest @ ..] = left {
        line = append_sets(setting, line, out)?;
        left = rest;
    }
    Ok(line)
}

fn append_body(statements: &[Statement], reached: u32, out: &mut Vec<u8>) -> Result<u32, NoMemory>
    ensures { IfOk result (λ behind. (behind, out.new.items)
        ≡ with_clauses (reached, out.old.items) (map clause.Runs statements.now)) }
{
    let mut line = reached;
    let mut left = statements;
    while let [statement, rest @ ..] = left {
        line = append_runs(statement, line, out)?;
        left = rest;
    }
    Ok(line)
}

/// Appends a block.
#[tactic(auto, using(crate::proofs::LineLemmas::clauses_then), unfolding(crate::specs::Trees::block_clauses))]
fn append_block(block: &Block, reached: u32, out: &mut Vec<u8>) -> Result<u32, NoMemory>
    ensures { IfOk result (λ behind. (behind, out.new.items)
        ≡ with_clauses (reached, out.old.items) (block_clauses block.now)) }
{
    let line = append_head(block, reached, out)?;
    let line = append_parts(block.parts.as_slice(), line, out)?;
    let line = append_shape(&block.shape, block.components.as_slice(), line, out)?;
    let line = append_instance_of(&block.instance_of, line, out)?;
    let line = append_begin_of(block.kind, line, out)?;
    let line = append_settings(block.settings.as_slice(), line, out)?;
    let line = append_body(block.body.as_slice(), line, out)?;
    let line = append_end(block.kind, block.end_line, line, out)?;
    Ok(line)
}

/// Appends blocks.
pub(crate) fn append_blocks(
    blocks: &[Block],
    reached: u32,
    out: &mut Vec<u8>,
) -> Result<u32, NoMemory>
    ensures { IfOk result (λ behind. (behind, out.new.items)
        ≡ with_clauses (reached, out.old.items) (flat_map block_clauses blocks.now)) }
{
    let mut line = reached;
    let mut left = blocks;
    while let [block, rest @ ..] = left {
        line = append_block(block, line, out)?;
        left = rest;
    }
    Ok(line)
}
