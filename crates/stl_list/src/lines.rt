//! The lines on which a listing prints its pieces.
ghost use Rattle.std.specs.Prelude.{◌≡◌, IfOk};
ghost use Rattle.std.specs.List.Sorted.{IsPermutation};
ghost use Rattle.std.specs.Ordering.{is_lt};
ghost use Rattle.stl_list.specs.CodeBlocks.{in_lines};
ghost use Rattle.stl_list.specs.Lines.{first_statement_line, last_statement_line, line_of_statement, line_behind_statements, lines_from, stands_before};

use flat_code::CodeBlock;
use plc_base::NoMemory;
use std::alloc::Global;
use std::cmp::Ordering;

/// The lines of statements, behind what reaches to a line.
pub(crate) fn lines_from(alloc: Global, reached: u32, lines: &[u32]) -> Result<Vec<u32>, NoMemory>
    ensures { IfOk result (λ v. v.items ≡ lines_from reached lines.now) }
{
    let mut printed = Vec::with_capacity(alloc, lines.len())?;
    let mut reached = reached;
    for line in lines {
        reached = reached.max(*line);
        printed.push(reached)?;
    }
    Ok(printed)
}

/// The line that is reached behind statements on these lines.
pub(crate) fn line_behind_statements(reached: u32, lines: &[u32]) -> u32
    ensures { result ≡ line_behind_statements reached lines.now }
{
    let mut line = reached;
    for next in lines {
        line = line.max(*next);
    }
    line
}

/// The line at a place; 0 past the end.
pub(crate) fn line_of_statement(lines: &[u32], n: usize) -> u32
    ensures { result ≡ line_of_statement lines.now n }
{
    lines.get(n).copied().unwrap_or(0)
}

/// The line of the first statement of a block.
pub(crate) fn first_statement_line(block: &CodeBlock) -> u32
    ensures { result ≡ first_statement_line block.now }
{
    line_of_statement(block.lines.as_slice(), 0)
}

/// The line of the last statement of a block.
pub(crate) fn last_statement_line(block: &CodeBlock) -> u32
    ensures { result ≡ last_statement_line block.now }
{
    line_of_statement(block.lines.as_slice(), block.lines.len().saturating_sub(1))
}

fn order_of(a: &CodeBlock, b: &CodeBlock) -> Ordering
    ensures { is_lt result ≡ stands_before a.now b.now }
{
    first_statement_line(a)
        .cmp(&first_statement_line(b))
        .then(last_statement_line(a).cmp(&last_statement_line(b)))
}

/// Code blocks in the order in which a listing has them: by their first lines, then by their last,
/// then in the image's order.
pub(crate) fn in_lines(blocks: Vec<CodeBlock>) -> Result<Vec<CodeBlock>, NoMemory>
    ensures sorted { IfOk result (λ v. v.items ≡ in_lines blocks.items) }
    ensures same { IfOk result (λ v. IsPermutation blocks.items v.items) }
{
    let mut blocks = blocks;
    blocks.sort_by(|a: &CodeBlock, b: &CodeBlock| order_of(a, b))?;
    Ok(blocks)
}
