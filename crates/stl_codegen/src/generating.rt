ghost use Rattle.std.specs.Prelude.{◌≡◌, IfOk, IfSome};
ghost use Rattle.std.specs.Option.{IfNone};
ghost use Rattle.flat_code.specs.Image.{IsProgram};
ghost use Rattle.stl_codegen.specs.GeneratedProgram.{data_blocks_of, name_entries_of, program_of};
ghost use Rattle.stl_codegen.specs.Order.{is_block_before, is_code_before, sorted_list};

use crate::code_blocks::code_blocks;
use crate::data_blocks::data_blocks;
use crate::names::names_of;
use crate::order::{sort_code_blocks, sort_data_blocks, sort_names};
use block_layout::Layouts;
use flat_code::{CodeBlock, DataBlock, NameEntry, Program};
use plc_base::NoMemory;
use std::alloc::Global;
use stl_ast::Tree;
use stl_symbols::Symbols;
use stl_types::{CheckedSource, Context};

/// The code blocks of a source in the order of an image.
fn ordered_code_blocks(
    alloc: Global,
    tree: &Tree,
    layouts: &Layouts,
    symbols: &Symbols,
) -> Result<Option<Vec<CodeBlock>>, NoMemory>
    ensures blocks { IfOk result (λ made. IfSome made (λ list. list.items
        ≡ (program_of tree.now symbols.now layouts.now).code_blocks)) }
    ensures none { IfOk result (λ made. IfNone made
        (IsProgram (program_of tree.now symbols.now layouts.now) → ⊥)) }
{
    let context = Context::new(symbols, tree, layouts);
    let blocks = tree.blocks.as_slice();
    let Some(mut list) = code_blocks(alloc, &context, blocks, layouts.list())? else {
        return Ok(None);
    };
    sort_code_blocks(&mut list)?;
    Ok(Some(list))
}

#[tactic(auto, unfolding(crate::specs::GeneratedProgram::data_blocks_of))]
fn ordered_data_blocks(
    alloc: Global,
    tree: &Tree,
    layouts: &Layouts,
    symbols: &Symbols,
) -> Result<Vec<DataBlock>, NoMemory>
    ensures { IfOk result (λ list. list.items
        ≡ data_blocks_of tree.now symbols.now layouts.now) }
{
    let context = Context::new(symbols, tree, layouts);
    let mut list = data_blocks(alloc, &context, tree.blocks.as_slice(), layouts.list())?;
    sort_data_blocks(&mut list)?;
    Ok(list)
}

fn ordered_names(alloc: Global, symbols: &Symbols) -> Result<Vec<NameEntry>, NoMemory>
    ensures { IfOk result (λ list. list.items ≡ name_entries_of symbols.now) }
{
    let mut list = names_of(alloc, symbols.list())?;
    sort_names(&mut list)?;
    Ok(list)
}

/// The program of a source, if it is one: `None` where an op isn't of the table, a number doesn't
/// fit its field of an image, or the image is too long.
fn program_in(
    alloc: Global,
    checked: &CheckedSource,
    layouts: &Layouts,
    symbols: &Symbols,
) -> Result<Option<Program>, NoMemory>
    ensures program { IfOk result (λ made. IfSome made (λ p. p
        ≡ program_of checked.now symbols.now layouts.now)) }
    ensures none { IfOk result (λ made. IfNone made
        (IsProgram (program_of checked.now symbols.now layouts.now) → ⊥)) }
{
    let tree = checked.tree();
    let Some(code_blocks) = ordered_code_blocks(alloc, tree, layouts, symbols)? else {
        return Ok(None);
    };
    let data_blocks = ordered_data_blocks(alloc, tree, layouts, symbols)?;
    let names = ordered_names(alloc, symbols)?;
    Ok(Program::new(code_blocks, data_blocks, names))
}

/// The program of a source that breaks no rule: its code blocks with the line of each statement, its
/// data blocks with their initial bytes, and the names of its variables in I, Q and M. It has an
/// image (`IsProgram`): so it is with every source that breaks no rule, by a law of `sem_kept`.
///
/// # Errors
///
/// Want of memory.
pub fn generate(
    alloc: Global,
    checked: &CheckedSource,
    layouts: &Layouts,
    symbols: &Symbols,
) -> Result<Program, NoMemory>
    requires { IsProgram (program_of checked.now symbols.now layouts.now) }
    ensures { IfOk result (λ p. p ≡ program_of checked.now symbols.now layouts.now) }
{
    match program_in(alloc, checked, layouts, symbols)? {
        Some(program) => Ok(program),
        None => unreachable!(),
    }
}
