//! The code blocks of a listing.
ghost use Rattle.std.specs.Prelude.{◌≡◌, ◌++◌, max, IfOk};
ghost use Rattle.std.specs.List.{All};
ghost use Rattle.stl_list.specs.Lines.{lines_from as lines_behind};
ghost use Rattle.stl_list.specs.Lines.{first_statement_line as first_line_of};
ghost use Rattle.stl_list.specs.Sections.{section_parts as sections_of};
ghost use Rattle.stl_list.specs.Signatures.{formals_of_block as formals_in};
ghost use Rattle.stl_list.specs.Statements.{body_of as body_on};
ghost use Rattle.image_file.specs.Writing.{BlockFitsFields};
ghost use Rattle.stl_list.specs.CodeBlocks.{line_reached, listed_block, listed_blocks, result_of};

use crate::lines::{first_statement_line, line_behind_statements, lines_from};
use crate::parameters::is_return;
use crate::sections::sections;
use crate::signatures::{Signature, formals_of};
use crate::statements::body_of;
use flat_code::CodeBlock;
use plc_base::NoMemory;
use std::alloc::Global;
use stl_ast::{Block, BlockName, Declarations, Part, Sequence, Simple, Statement};
use stl_types::Formal;

/// The type of the return value; a function without one is VOID.
fn result_of(formals: &[Formal]) -> Option<Simple>
    ensures { result ≡ result_of formals.now }
{
    let returned = formals.iter().find(|formal| is_return(formal))?;
    Some(returned.kind)
}

/// The body of a block behind what reaches to a line.
fn body_behind(
    alloc: Global,
    signatures: &[Signature],
    reached: u32,
    block: &CodeBlock,
) -> Result<Vec<Statement>, NoMemory>
    requires { BlockFitsFields block.now }
    ensures { IfOk result (λ v. v.items
        ≡ body_on signatures.now (lines_behind reached block.now.lines) block.now) }
{
    let lines = lines_from(alloc, reached, block.lines.as_slice())?;
    body_of(alloc, signatures, lines.as_slice(), block)
}

/// A code block with these sections and this body, behind what reaches to a line.
fn block_with_parts(
    alloc: Global,
    signatures: &[Signature],
    reached: u32,
    block: &CodeBlock,
    parts: Vec<Part>,
    body: Vec<Statement>,
) -> Block
    requires parts { parts.items ≡ sections_of (max reached (first_line_of block.now))
        (formals_in signatures.now block.now.id) block.now }
    requires body { body.items
        ≡ body_on signatures.now (lines_behind reached block.now.lines) block.now }
    ensures { result ≡ listed_block signatures.now reached block.now }
{
    Block {
        line: reached.max(first_statement_line(block)),
        end_line: line_behind_statements(reached, block.lines.as_slice()),
        kind: block.id.kind,
        name: BlockName::Number { id: block.id },
        result: result_of(formals_of(signatures, block.id)),
        parts: Sequence::from_vec(parts),
        shape: None,
        components: Declarations::from_vec(Vec::new(alloc)),
        instance_of: None,
        settings: Sequence::from_vec(Vec::new(alloc)),
        body: Sequence::from_vec(body),
    }
}

/// A code block behind what reaches to a line.
fn listed_block(
    alloc: Global,
    signatures: &[Signature],
    reached: u32,
    block: &CodeBlock,
) -> Result<Block, NoMemory>
    requires { BlockFitsFields block.now }
    ensures { IfOk result (λ b. b ≡ listed_block signatures.now reached block.now) }
{
    let line = reached.max(first_statement_line(block));
    let parts = sections(alloc, line, formals_of(signatures, block.id), block)?;
    let body = body_behind(alloc, signatures, reached, block)?;
    Ok(block_with_parts(alloc, signatures, reached, block, parts, body))
}

/// Adds code blocks one behind the other, from line 1 on, and gives the line that they reach.
pub(crate) fn add_code_blocks(
    alloc: Global,
    listed: &mut Vec<Block>,
    signatures: &[Signature],
    blocks: &[CodeBlock],
) -> Result<u32, NoMemory>
    requires { All BlockFitsFields blocks.now }
    ensures listed { IfOk result (λ _. listed.new.items
        ≡ listed.old.items ++ listed_blocks signatures.now 1 blocks.now) }
    ensures line { IfOk result (λ line. line ≡ line_reached 1 blocks.now) }
{
    let mut reached = 1;
    for block in blocks {
        listed.push(listed_block(alloc, signatures, reached, block)?)?;
        reached = line_behind_statements(reached, block.lines.as_slice());
    }
    Ok(reached)
}
