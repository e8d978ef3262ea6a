ghost use Rattle.std.specs.Prelude.{IfOk};
ghost use Rattle.stl_ast.specs.WellFormed.{IsWellFormed};

use crate::compare::same;
use crate::describe::described;
use plc_base::SourceFault;
use std::alloc::{AllocError, Global};
use std::process::Abort;
use std::test::Fail;
use stl_ast::Tree;
use stl_lexer::{SOURCE_LIMIT, lex};
use stl_parser::parse;

/// The tree of a source, or its refusal.
pub(crate) fn tree_of_source(alloc: Global, source: &[u8]) -> Result<Tree, SourceFault>
    ensures { IfOk result IsWellFormed }
{
    if source.len() > SOURCE_LIMIT {
        return Err(SourceFault::NoMemory);
    }
    let tokens = lex(alloc, source)?;
    parse(alloc, &tokens)
}

/// The line and the rule of a refusal; (0, 0) for a tree and (0, 1) for want of memory.
pub(crate) fn check_result(alloc: Global, source: &[u8]) -> (u32, u16) {
    match tree_of_source(alloc, source) {
        Ok(_) => (0, 0),
        Err(SourceFault::Refused { refusal }) => (refusal.line, refusal.rule),
        Err(SourceFault::NoMemory) => (0, 1),
    }
}

/// Where a clause of the table stands: it is a whole source, or line 2 of a block.
#[derive(Clone, Copy)]
pub(crate) enum Frame {
    Source,
    Body,
    Section,
    Temporary,
    Settings,
}

impl Frame {
    /// What stands before the clause.
    fn before(self) -> &'static str {
        match self {
            Frame::Source => "",
            Frame::Body => "FUNCTION FC 1 : VOID BEGIN\n",
            Frame::Section => "FUNCTION_BLOCK FB 1 VAR\n",
            Frame::Temporary => "ORGANIZATION_BLOCK OB 1 VAR_TEMP\n",
            Frame::Settings => "DATA_BLOCK DB 1 FB 2 BEGIN\n",
        }
    }

    /// What stands behind it.
    fn behind(self) -> &'static str {
        match self {
            Frame::Source => "",
            Frame::Body => "\nEND_FUNCTION",
            Frame::Section => "\nEND_VAR BEGIN END_FUNCTION_BLOCK",
            Frame::Temporary => "\nEND_VAR BEGIN END_ORGANIZATION_BLOCK",
            Frame::Settings => "\nEND_DATA_BLOCK",
        }
    }

    /// What the tree shows before the clause's own part.
    fn tree(self) -> &'static str {
        match self {
            Frame::Source => "",
            Frame::Body => "1 to 3 Fc Fc 1\n",
            Frame::Section => "1 to 3 Fb Fb 1\n1 Section Static\n",
            Frame::Temporary => "1 to 3 Ob Ob 1\n1 Section Temp\n",
            Frame::Settings => "1 to 3 Db Db 1\nInstance of Fb 2\n",
        }
    }
}

/// A clause and the tree that it gives.
pub(crate) type Row = (Frame, &'static str, &'static str);

fn write_in_frame(out: &mut String, frame: Frame, clause: &str) -> Result<(), AllocError> {
    out.push_str(frame.before())?;
    out.push_str(clause)?;
    out.push_str(frame.behind())
}

/// The source of a clause in its frame.
fn in_frame(alloc: Global, frame: Frame, clause: &str) -> Result<String, AllocError> {
    let mut source = String::new(alloc);
    write_in_frame(&mut source, frame, clause)?;
    Ok(source)
}

/// What the check finds of a clause in its frame.
pub(crate) fn check_result_in(
    alloc: Global,
    frame: Frame,
    clause: &str,
) -> Result<(u32, u16), AllocError> {
    let source = in_frame(alloc, frame, clause)?;
    Ok(check_result(alloc, source.as_bytes()))
}

/// The tree of a source as text.
fn description_of(alloc: Global, source: &[u8]) -> Result<String, SourceFault> {
    let tree = tree_of_source(alloc, source)?;
    Ok(described(alloc, &tree)?)
}

/// The tree of a clause in its frame as text, or the fault that stands in its place.
fn shown_in(alloc: Global, frame: Frame, clause: &str) -> Result<String, SourceFault> {
    let source = in_frame(alloc, frame, clause)?;
    description_of(alloc, source.as_bytes())
}

/// A clause gives its tree.
fn agrees(rt: &impl Abort, alloc: Global, row: &Row) -> Result<(), Fail> {
    let (frame, clause, tree) = *row;
    let got = shown_in(alloc, frame, clause)?;
    let shown = got.as_str();
    same(
        rt,
        (clause, shown),
        shown.strip_prefix(frame.tree()),
        Some(tree),
    );
    Ok(())
}

/// Each clause gives its tree.
pub(crate) fn all_agree(rt: &impl Abort, alloc: Global, rows: &[Row]) -> Result<(), Fail> {
    for row in rows {
        agrees(rt, alloc, row)?;
    }
    Ok(())
}
