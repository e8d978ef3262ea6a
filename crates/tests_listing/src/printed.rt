use crate::compare::same;
use plc_base::SourceFault;
use std::alloc::Global;
use std::process::Abort;
use std::test::Fail;
use stl_lexer::{SOURCE_LIMIT, lex};
use stl_parser::parse;
use stl_print::print;

/// The tree of a source as text.
fn printed_source(alloc: Global, source: &[u8]) -> Result<Vec<u8>, SourceFault> {
    if source.len() > SOURCE_LIMIT {
        return Err(SourceFault::NoMemory);
    }
    let tokens = lex(alloc, source)?;
    let tree = parse(alloc, &tokens)?;
    Ok(print(alloc, &tree)?)
}

/// Whether the tree of a source is printed as this text.
fn is_printed_as(alloc: Global, source: &[u8], text: &[u8]) -> bool {
    match printed_source(alloc, source) {
        Ok(got) => got.as_slice() == text,
        Err(_) => false,
    }
}

/// Compares the printed tree of each source with the text worked out by hand.
pub(crate) fn all_printed(
    rt: &impl Abort,
    alloc: Global,
    rows: &[(&str, &str)],
) -> Result<(), Fail> {
    for row in rows {
        same(
            rt,
            row.0,
            is_printed_as(alloc, row.0.as_bytes(), row.1.as_bytes()),
            true,
        );
    }
    Ok(())
}

/// Compares the printed tree of each source with the source itself.
pub(crate) fn all_come_back(rt: &impl Abort, alloc: Global, rows: &[&str]) -> Result<(), Fail> {
    for row in rows {
        same(
            rt,
            *row,
            is_printed_as(alloc, row.as_bytes(), row.as_bytes()),
            true,
        );
    }
    Ok(())
}
