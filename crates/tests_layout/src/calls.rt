use block_layout::{Layouts, Path, lay_out, lay_out_sound};
use plc_base::{Area, Place, SourceFault, Width};
use std::alloc::{AllocError, Global};
use stl_ast::{Name, PathStep, Tree};
use stl_lexer::{SOURCE_LIMIT, lex};
use stl_parser::parse;
use stl_symbols::{SYMBOLS_LIMIT, Symbols, read_symbols};

/// A source with the line and the rule of its refusal, worked out by hand; 0 and 0 where the layout
/// breaks no rule.
pub(crate) type Row = (&'static [u8], u32, u16);

/// A step of a path: a name, or the index of an element where it has none.
pub(crate) type Step = (&'static [u8], i32);

fn tree_of_source(alloc: Global, source: &[u8]) -> Result<Tree, SourceFault> {
    if source.len() > SOURCE_LIMIT {
        return Err(SourceFault::NoMemory);
    }
    let tokens = lex(alloc, source)?;
    parse(alloc, &tokens)
}

/// The layouts of a tree without symbols, or its refusal.
fn laid_tree(alloc: Global, tree: &Tree) -> Result<Layouts, SourceFault> {
    let symbols = read_symbols(alloc, b"")?;
    lay_out(alloc, tree, &symbols)
}

/// The layouts of a source without symbols, or its refusal.
pub(crate) fn laid(alloc: Global, source: &[u8]) -> Result<Layouts, SourceFault> {
    let tree = tree_of_source(alloc, source)?;
    laid_tree(alloc, &tree)
}

/// The layouts of what is right in a tree without symbols.
fn laid_sound_tree(alloc: Global, tree: &Tree) -> Result<Layouts, SourceFault> {
    let symbols = read_symbols(alloc, b"")?;
    Ok(lay_out_sound(alloc, tree, &symbols)?)
}

/// The layouts of what is right in a source without symbols.
pub(crate) fn laid_sound(alloc: Global, source: &[u8]) -> Result<Layouts, SourceFault> {
    let tree = tree_of_source(alloc, source)?;
    laid_sound_tree(alloc, &tree)
}

/// The line and the rule of a refusal; (0, 0) for layouts and (0, 1) for want of memory.
pub(crate) fn check_result(alloc: Global, source: &[u8]) -> (u32, u16) {
    match laid(alloc, source) {
        Ok(_) => (0, 0),
        Err(SourceFault::Refused { refusal }) => (refusal.line, refusal.rule),
        Err(SourceFault::NoMemory) => (0, 1),
    }
}

fn add_pieces(
    source: &mut Vec<u8>,
    before: &[u8],
    text: &[u8],
    behind: &[u8],
) -> Result<(), AllocError> {
    source.extend_from_slice(before)?;
    source.extend_from_slice(text)?;
    source.extend_from_slice(behind)
}

/// A text between two pieces.
fn in_block(
    alloc: Global,
    before: &[u8],
    text: &[u8],
    behind: &[u8],
) -> Result<Vec<u8>, AllocError> {
    let mut source = Vec::new(alloc);
    add_pieces(&mut source, before, text, behind)?;
    Ok(source)
}

/// What the check finds of a text between two pieces.
pub(crate) fn check_result_in(
    alloc: Global,
    before: &[u8],
    text: &[u8],
    behind: &[u8],
) -> Result<(u32, u16), AllocError> {
    let source = in_block(alloc, before, text, behind)?;
    Ok(check_result(alloc, source.as_slice()))
}

fn first_bytes_of(alloc: Global, tree: &Tree) -> Result<Vec<u8>, SourceFault> {
    let layouts = laid_tree(alloc, tree)?;
    Ok(layouts.initial_bytes(alloc, tree, 0)?)
}

/// The initial bytes of the data block that is the first block of a source.
pub(crate) fn first_bytes(alloc: Global, source: &[u8]) -> Result<Vec<u8>, SourceFault> {
    let tree = tree_of_source(alloc, source)?;
    first_bytes_of(alloc, &tree)
}

/// The symbols of a file, or its refusal; a longer file than the limit is told as want of memory.
pub(crate) fn symbols_of(alloc: Global, file: &[u8]) -> Result<Symbols, SourceFault> {
    if file.len() > SYMBOLS_LIMIT {
        return Err(SourceFault::NoMemory);
    }
    read_symbols(alloc, file)
}

fn step_of(alloc: Global, name: &[u8], at: i32) -> Result<PathStep, AllocError> {
    if name.is_empty() {
        Ok(PathStep::Index { at })
    } else {
        Ok(PathStep::Named {
            name: Name::new(alloc, name)?,
        })
    }
}

fn add_steps(alloc: Global, steps: &mut Vec<PathStep>, path: &[Step]) -> Result<(), AllocError> {
    for (name, at) in path {
        steps.push(step_of(alloc, name, *at)?)?;
    }
    Ok(())
}

/// The path of these steps.
pub(crate) fn path_of(alloc: Global, path: &[Step]) -> Result<Path, AllocError> {
    let mut steps = Vec::new(alloc);
    add_steps(alloc, &mut steps, path)?;
    Path::new(alloc, steps.as_slice())
}

/// A place that was found, with the width there.
pub(crate) fn at(
    area: Area,
    number: u16,
    byte: u16,
    bit: u8,
    width: Width,
) -> Option<(Place, Width)> {
    let place = Place {
        area,
        number,
        byte,
        bit,
    };
    Some((place, width))
}
