use crate::compare::same;
use block_layout::lay_out_sound;
use plc_base::SourceFault;
use std::alloc::{AllocError, Global};
use std::process::Abort;
use std::str::from_utf8;
use std::test::Fail;
use stl_ast::Tree;
use stl_lexer::{SOURCE_LIMIT, lex};
use stl_parser::parse;
use stl_symbols::{SYMBOLS_LIMIT, Symbols, read_symbols};
use stl_types::check;

/// What stands on the first line of each source of a body: blocks that it can name, and the head of
/// its function with its declarations. The body itself begins on the second line.
static BEFORE: [&[u8]; 11] = [
    b"TYPE UDT 1 STRUCT num : INT; inner : STRUCT flag : BOOL; END_STRUCT; list : ARRAY [1 .. 3] OF INT; END_STRUCT END_TYPE ",
    b"DATA_BLOCK DB 1 UDT 1 BEGIN END_DATA_BLOCK ",
    b"FUNCTION_BLOCK FB 1 VAR_INPUT num : INT; END_VAR VAR_OUTPUT flag : BOOL; END_VAR VAR_IN_OUT wide : DWORD; END_VAR VAR kept : INT; END_VAR BEGIN END_FUNCTION_BLOCK ",
    b"FUNCTION_BLOCK FB 2 BEGIN END_FUNCTION_BLOCK ",
    b"DATA_BLOCK DB 2 FB 1 BEGIN END_DATA_BLOCK DATA_BLOCK DB 3 FB 2 BEGIN END_DATA_BLOCK ",
    b"FUNCTION FC 2 : INT VAR_INPUT num : INT; END_VAR VAR_OUTPUT flag : BOOL; END_VAR VAR_IN_OUT wide : DWORD; END_VAR BEGIN END_FUNCTION ",
    b"FUNCTION FC 3 : VOID BEGIN END_FUNCTION ",
    b"FUNCTION FC 4 : VOID VAR_INPUT one : INT; one : INT; END_VAR BEGIN END_FUNCTION ",
    b"FUNCTION FC 5 : VOID VAR_INPUT long : DWORD; END_VAR BEGIN END_FUNCTION ",
    b"FUNCTION FC 1 : VOID VAR_INPUT num : INT; bit : BOOL; long : DWORD; END_VAR VAR_OUTPUT res : INT; END_VAR VAR_IN_OUT wide : DWORD; END_VAR ",
    b"VAR_TEMP tmp : INT; way : BOOL; own : UDT 1; row : ARRAY [1 .. 2] OF INT; when : DATE_AND_TIME; END_VAR BEGIN\n",
];

static BEHIND: &[u8] = b"\nEND_FUNCTION";

/// The symbols of the sources of bodies.
pub(crate) static SYMBOLS: &[u8] = b"\"Motor\",\"M 0.0\",\"BOOL\",\"\"
\"Speed\",\"MW 2\",\"INT\",\"\"
\"Outside\",\"PIW 4\",\"WORD\",\"\"
\"Delay\",\"T 5\",\"TIMER\",\"\"
\"Parts\",\"C 5\",\"COUNTER\",\"\"
\"Fun\",\"FC 2\",\"FC 2\",\"\"
\"Block\",\"FB 1\",\"FB 1\",\"\"
\"Data\",\"DB 2\",\"FB 1\",\"\"
\"Stop\",\"SFC 46\",\"SFC 46\",\"\"";

/// A body with the line and the rule of its least refusal, worked out by hand, as it stands from the
/// second line on; 0 and 0 where it breaks no rule of statements.
pub(crate) type Row = (&'static [u8], u32, u16);

/// The tree of a source, or its refusal; a longer source than the limit is told as want of memory.
pub(crate) fn tree_of_source(alloc: Global, source: &[u8]) -> Result<Tree, SourceFault> {
    if source.len() > SOURCE_LIMIT {
        return Err(SourceFault::NoMemory);
    }
    let tokens = lex(alloc, source)?;
    parse(alloc, &tokens)
}

/// The symbols of a file, or its refusal; a longer file than the limit is told as want of memory.
pub(crate) fn symbols_of(alloc: Global, file: &[u8]) -> Result<Symbols, SourceFault> {
    if file.len() > SYMBOLS_LIMIT {
        return Err(SourceFault::NoMemory);
    }
    read_symbols(alloc, file)
}

fn tree_checked(alloc: Global, tree: &Tree, symbols: &Symbols) -> Result<(), SourceFault> {
    let layouts = lay_out_sound(alloc, tree, symbols)?;
    let _ = check(alloc, tree, symbols, &layouts)?;
    Ok(())
}

fn check_of_source(alloc: Global, symbols: &[u8], source: &[u8]) -> Result<(), SourceFault> {
    let tree = tree_of_source(alloc, source)?;
    let symbols = symbols_of(alloc, symbols)?;
    tree_checked(alloc, &tree, &symbols)
}

/// The line and the rule of the refusal of a source; 0 and 0 where there is none, and 0 and 1 for want
/// of memory.
pub(crate) fn check_result(alloc: Global, symbols: &[u8], source: &[u8]) -> (u32, u16) {
    match check_of_source(alloc, symbols, source) {
        Ok(()) => (0, 0),
        Err(SourceFault::Refused { refusal }) => (refusal.line, refusal.rule),
        Err(SourceFault::NoMemory) => (0, 1),
    }
}

/// The source of a body.
pub(crate) fn with_body(alloc: Global, body: &[u8]) -> Result<Vec<u8>, AllocError> {
    let mut source = Vec::new(alloc);
    for piece in &BEFORE {
        source.extend_from_slice(piece)?;
    }
    source.extend_from_slice(body)?;
    source.extend_from_slice(BEHIND)?;
    Ok(source)
}

/// Each body is refused as its row says.
pub(crate) fn bodies_agree(rt: &impl Abort, alloc: Global, rows: &[Row]) -> Result<(), Fail> {
    for row in rows {
        let source = with_body(alloc, row.0)?;
        let found = check_result(alloc, SYMBOLS, source.as_slice());
        same(rt, from_utf8(row.0), found, (row.1, row.2));
    }
    Ok(())
}

/// Each whole source is refused as its row says.
pub(crate) fn sources_agree(rt: &impl Abort, alloc: Global, rows: &[Row]) -> Result<(), Fail> {
    for row in rows {
        same(
            rt,
            from_utf8(row.0),
            check_result(alloc, b"", row.0),
            (row.1, row.2),
        );
    }
    Ok(())
}
