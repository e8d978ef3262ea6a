ghost use Rattle.std.specs.Prelude.{◌≡◌, ◌<◌, ◌≤◌, ◌⊎◌, nat_lt, length, IfOk, IfSome};
ghost use Rattle.std.specs.List.{All, list_any};
ghost use Rattle.std.specs.Option.{IfNone};
ghost use Rattle.image_file.specs.Writing.{BlockFitsFields, DataFitsFields};
ghost use Rattle.stl_list.specs.CodeBlocks.{in_lines as sorted_by_lines};
ghost use Rattle.stl_list.specs.JoinedParameters.{chains_of};
ghost use Rattle.stl_list.specs.Listing.{
  blocks_by as blocks_from,
  listed_source as source_of,
  listed_tree as tree_of,
};
ghost use Rattle.stl_list.specs.Lines.{last_statement_line as last_line_of};
ghost use Rattle.stl_list.specs.Signatures.{signatures as signatures_in};
ghost use Rattle.stl_list.specs.Symbols.{listed_names as text_of_names};

use crate::chains::PassingChains;
use crate::code_blocks::add_code_blocks;
use crate::data_blocks::add_data_blocks;
use crate::lines::{in_lines, last_statement_line};
use crate::signatures::{Signature, signatures};
use crate::symbols::listed_names;
use flat_code::{CodeBlock, DataBlock, Program};
use image_file::Loaded;
use plc_base::NoMemory;
use std::alloc::Global;
use stl_ast::{Block, Sequence, Tree};
use stl_print::print;

/// What a program is listed as: a source and a symbols file.
#[derive(Drop)]
pub struct Listing {
    pub source: Vec<u8>,
    pub symbols: Vec<u8>,
}

/// The blocks of the source: the code blocks by their lines, then the data blocks.
fn blocks_by(
    alloc: Global,
    signatures: &[Signature],
    code_blocks: &[CodeBlock],
    data_blocks: &[DataBlock],
) -> Result<Vec<Block>, NoMemory>
    requires code { All BlockFitsFields code_blocks.now }
    requires data { All DataFitsFields data_blocks.now }
    ensures { IfOk result (λ v. v.items
        ≡ blocks_from signatures.now code_blocks.now data_blocks.now) }
{
    let mut blocks = Vec::new(alloc);
    let line = add_code_blocks(alloc, &mut blocks, signatures, code_blocks)?;
    add_data_blocks(alloc, &mut blocks, signatures, line, data_blocks)?;
    Ok(blocks)
}

/// The signatures of the code blocks of a program.
fn signatures_of(alloc: Global, blocks: &[CodeBlock]) -> Result<Vec<Signature>, NoMemory>
    requires { length blocks.now < 65536 }
    ensures { IfOk result (λ v. v.items ≡ signatures_in (chains_of blocks.now) blocks.now) }
{
    let chains = PassingChains::of(alloc, blocks)?;
    signatures(alloc, &chains, blocks)
}

/// The tree of the source of these blocks.
fn tree_by(
    alloc: Global,
    code_blocks: Vec<CodeBlock>,
    data_blocks: &[DataBlock],
) -> Result<Tree, NoMemory>
    requires few { length code_blocks.items < 65536 }
    requires code { All BlockFitsFields code_blocks.items }
    requires data { All DataFitsFields data_blocks.now }
    ensures { IfOk result (λ t. t.blocks ≡ blocks_from
        (signatures_in (chains_of code_blocks.items) code_blocks.items)
        (sorted_by_lines code_blocks.items) data_blocks.now) }
{
    let signatures = signatures_of(alloc, code_blocks.as_slice())?;
    let code_blocks = in_lines(code_blocks)?;
    let blocks = blocks_by(
        alloc,
        signatures.as_slice(),
        code_blocks.as_slice(),
        data_blocks,
    )?;
    Ok(Tree {
        blocks: Sequence::from_vec(blocks),
    })
}

/// The tree of the source of a program.
#[tactic(auto, unfolding(crate::specs::Listing::listed_tree))]
fn listed_tree(alloc: Global, program: Program) -> Result<Tree, NoMemory>
    ensures { IfOk result (λ t. t ≡ tree_of program) }
{
    let Program {
        code_blocks,
        data_blocks,
        ..
    } = program;
    tree_by(alloc, code_blocks, data_blocks.as_slice())
}

fn listed_source(alloc: Global, program: Program) -> Result<Vec<u8>, NoMemory>
    ensures { IfOk result (λ v. v.items ≡ source_of program) }
{
    let tree = listed_tree(alloc, program)?;
    print(alloc, &tree)
}

fn listing_of(alloc: Global, program: Program) -> Result<Listing, NoMemory>
    ensures source { IfOk result (λ x. x.source.items ≡ source_of program) }
    ensures symbols { IfOk result (λ x. x.symbols.items ≡ text_of_names program.names) }
{
    let symbols = listed_names(alloc, program.names.as_slice())?;
    Ok(Listing {
        source: listed_source(alloc, program)?,
        symbols,
    })
}

/// The source and the symbols file of a program.
///
/// # Errors
///
/// Want of memory.
pub fn list(alloc: Global, l: &Loaded) -> Result<Listing, NoMemory>
    ensures source { IfOk result (λ x. x.source.items ≡ source_of l.now.program) }
    ensures symbols { IfOk result (λ x. x.symbols.items ≡ text_of_names l.now.program.names) }
{
    listing_of(alloc, l.program(alloc)?)
}

/// Whether a code block ends past a line.
fn ends_past(blocks: &[CodeBlock], line: usize) -> bool
    ensures { result ≡ list_any (λ b. nat_lt line (last_line_of b)) blocks.now }
{
    blocks.iter().any(|block: &CodeBlock| last_statement_line(block) as usize > line)
}

/// A listing of which neither text has more bytes than `most`.
fn within(listing: Listing, most: usize) -> Option<Listing>
    ensures same { IfSome result (λ x. x ≡ listing) }
    ensures source { IfSome result (λ x. length x.source.items ≤ most) }
    ensures symbols { IfSome result (λ x. length x.symbols.items ≤ most) }
    ensures none { IfNone result ((most < length listing.source.items)
        ⊎ (most < length listing.symbols.items)) }
{
    if listing.source.len() > most || listing.symbols.len() > most {
        None
    } else {
        Some(listing)
    }
}

/// The source and the symbols file of a program, if neither has more bytes than `most`: `None`
/// exactly where one has. Where a line of the program is past that, no text is made.
///
/// # Errors
///
/// Want of memory.
pub fn list_within(alloc: Global, l: &Loaded, most: usize) -> Result<Option<Listing>, NoMemory>
    ensures source { IfOk result (λ found. IfSome found (λ x. x.source.items
        ≡ source_of l.now.program)) }
    ensures symbols { IfOk result (λ found. IfSome found (λ x. x.symbols.items
        ≡ text_of_names l.now.program.names)) }
    ensures short { IfOk result (λ found. IfSome found (λ x.
        (length x.source.items ≤ most) × (length x.symbols.items ≤ most))) }
    ensures none { IfOk result (λ found. IfNone found
        ((most < length (source_of l.now.program))
        ⊎ (most < length (text_of_names l.now.program.names)))) }
{
    let program = l.program(alloc)?;
    if ends_past(program.code_blocks.as_slice(), most) {
        return Ok(None);
    }
    Ok(within(listing_of(alloc, program)?, most))
}
