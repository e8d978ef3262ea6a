ghost use Rattle.std.specs.Prelude.{◌≡◌, ◌++◌, OnOk};
ghost use Rattle.stl_print.specs.Names.{block_name_pieces, first_step_pieces, index_pieces, path_pieces, step_pieces, steps_pieces};
ghost use Rattle.stl_print.specs.Pieces.{with_pieces};

use crate::gaps::Gap;
use crate::tokens::{
    append_mark, append_number, append_quoted, append_signed_number, append_token,
};
use crate::words::block_letters;
use plc_base::NoMemory;
use stl_ast::{BlockName, PathStep};
use stl_lexer::Mark;

/// Appends the name of a block behind a gap.
#[tactic(auto, unfolding(crate::specs::Names::block_name_pieces))]
pub(crate) fn append_block_name(
    gap: Gap,
    name: &BlockName,
    out: &mut Vec<u8>,
) -> Result<(), NoMemory>
    ensures { OnOk result
        (out.new.items ≡ with_pieces out.old.items (block_name_pieces gap name.now)) }
{
    match name {
        BlockName::Number { id } => {
            append_token(gap, block_letters(id.kind), out)?;
            append_number(Gap::Blank, u32::from(id.number), out)
        }
        BlockName::Quoted { name } => append_quoted(gap, name.as_bytes(), out),
    }
}

fn append_index(gap: Gap, at: i32, out: &mut Vec<u8>) -> Result<(), NoMemory>
    ensures { OnOk result (out.new.items ≡ with_pieces out.old.items (index_pieces gap at)) }
{
    append_mark(gap, Mark::OpenBracket, out)?;
    append_signed_number(Gap::Nothing, at, out)?;
    append_mark(Gap::Nothing, Mark::CloseBracket, out)
}

#[tactic(auto, unfolding(crate::specs::Names::step_pieces))]
fn append_step(step: &PathStep, out: &mut Vec<u8>) -> Result<(), NoMemory>
    ensures { OnOk result (out.new.items ≡ with_pieces out.old.items (step_pieces step.now)) }
{
    match step {
        PathStep::Named { name } => {
            append_mark(Gap::Nothing, Mark::Dot, out)?;
            append_token(Gap::Nothing, name.as_bytes(), out)
        }
        PathStep::Index { at } => append_index(Gap::Nothing, *at, out),
    }
}

/// Appends the steps of a path.
pub(crate) fn append_steps(steps: &[PathStep], out: &mut Vec<u8>) -> Result<(), NoMemory>
    ensures { OnOk result (out.new.items ≡ with_pieces out.old.items (steps_pieces steps.now)) }
{
    let mut left = steps;
    while let [step, rest @ ..] = left {
        append_step(step, out)?;
        left = rest;
    }
    Ok(())
}

#[tactic(auto, unfolding(crate::specs::Names::first_step_pieces))]
fn append_first_step(gap: Gap, step: &PathStep, out: &mut Vec<u8>) -> Result<(), NoMemory>
    ensures { OnOk result
        (out.new.items ≡ with_pieces out.old.items (first_step_pieces gap step.now)) }
{
    match step {
        PathStep::Named { name } => append_token(gap, name.as_bytes(), out),
        PathStep::Index { at } => append_index(gap, *at, out),
    }
}

/// Appends a path that begins with its first step.
pub(crate) fn append_path(gap: Gap, steps: &[PathStep], out: &mut Vec<u8>) -> Result<(), NoMemory>
    ensures { OnOk result
        (out.new.items ≡ with_pieces out.old.items (path_pieces gap steps.now)) }
{
    match steps {
        [] => Ok(()),
        [first, rest @ ..] => {
            append_first_step(gap, first, out)?;
            append_steps(rest, out)
        }
    }
}
