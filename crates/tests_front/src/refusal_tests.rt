use crate::compare::same;
use crate::rows::{Frame, check_result, check_result_in};
use std::alloc::{AllocError, Global};
use std::process::Abort;
use std::test::Fail;
use stl_ast::law_of_components;
use stl_parser::law_of_clauses;

/// A source with the line and the rule of its refusal, worked out by hand from the grammar and
/// docs/REFUSALS.md.
type RefusedSource = (&'static str, u32, u16);

/// Rule 10: not in the grammar.
static OUTSIDE_GRAMMAR: [RefusedSource; 24] = [
    (
        "FUNCTION FC 1 : VOID\nBEGIN\nL DB10.DBW 2.x;\nEND_FUNCTION",
        3,
        10,
    ),
    (
        "ORGANIZATION_BLOCK OB 1\nBEGIN\nL M 0.8;\nEND_ORGANIZATION_BLOCK",
        3,
        10,
    ),
    (
        "ORGANIZATION_BLOCK OB 1\nBEGIN\nL P#0.8;\nEND_ORGANIZATION_BLOCK",
        3,
        10,
    ),
    (
        "ORGANIZATION_BLOCK OB 1\nBEGIN\nA [AR1, P#0.8];\nEND_ORGANIZATION_BLOCK",
        3,
        10,
    ),
    (
        "ORGANIZATION_BLOCK FC 1\nBEGIN\nEND_ORGANIZATION_BLOCK",
        1,
        10,
    ),
    ("FUNCTION FC 1\nBEGIN\nEND_FUNCTION", 1, 10),
    (
        "ORGANIZATION_BLOCK OB 1\nBEGIN\nx:= Q 4.0;\nEND_ORGANIZATION_BLOCK",
        3,
        10,
    ),
    (
        "ORGANIZATION_BLOCK OB 1\nBEGIN\nCALL FC 1, DB 5;\nEND_ORGANIZATION_BLOCK",
        3,
        10,
    ),
    (
        "ORGANIZATION_BLOCK OB 1\nBEGIN\nUC FC 1 (a := 5);\nEND_ORGANIZATION_BLOCK",
        3,
        10,
    ),
    (
        "ORGANIZATION_BLOCK OB 1\nBEGIN\nCALL FC 1 (a := 5,);\nEND_ORGANIZATION_BLOCK",
        3,
        10,
    ),
    (
        "ORGANIZATION_BLOCK OB 1\nBEGIN\nCALL FC 1 ();\nEND_ORGANIZATION_BLOCK",
        3,
        10,
    ),
    (
        "ORGANIZATION_BLOCK OB 1\nBEGIN\nx: ;\nEND_ORGANIZATION_BLOCK",
        3,
        10,
    ),
    (
        "ORGANIZATION_BLOCK OB 1\nBEGIN\nSET\nEND_ORGANIZATION_BLOCK",
        3,
        10,
    ),
    (
        "ORGANIZATION_BLOCK OB 1\nBEGIN\nL M 5;\nEND_ORGANIZATION_BLOCK",
        3,
        10,
    ),
    (
        "ORGANIZATION_BLOCK OB 1\nBEGIN\nL MW [MW 4];\nEND_ORGANIZATION_BLOCK",
        3,
        10,
    ),
    (
        "ORGANIZATION_BLOCK OB 1\nBEGIN\nL B#(1,256);\nEND_ORGANIZATION_BLOCK",
        3,
        10,
    ),
    (
        "ORGANIZATION_BLOCK OB 1\nBEGIN\nL B#(1,2,3);\nEND_ORGANIZATION_BLOCK",
        3,
        10,
    ),
    (
        "FUNCTION_BLOCK FB 1\nVAR_INPUT\na : ARRAY[0..1] OF INT;\nEND_VAR\nBEGIN\nEND_FUNCTION_BLOCK",
        3,
        10,
    ),
    (
        "FUNCTION_BLOCK FB 1\nVAR_INPUT\na : STRUCT\nb : INT;\nEND_STRUCT;\nEND_VAR\nBEGIN\nEND_FUNCTION_BLOCK",
        3,
        10,
    ),
    (
        "FUNCTION_BLOCK FB 1\nVAR_INPUT\na : DATE_AND_TIME;\nEND_VAR\nBEGIN\nEND_FUNCTION_BLOCK",
        3,
        10,
    ),
    (
        "FUNCTION_BLOCK FB 1\nVAR\na : STRUCT\nb : INT;\nEND_STRUCT\nEND_VAR\nBEGIN\nEND_FUNCTION_BLOCK",
        5,
        10,
    ),
    (
        "FUNCTION_BLOCK FB 1\nVAR\na : INT := 1, 2;\nEND_VAR\nBEGIN\nEND_FUNCTION_BLOCK",
        3,
        10,
    ),
    (
        "DATA_BLOCK DB 1\nSTRUCT\na : INT;\nEND_STRUCT;\nBEGIN\nDB 5.a := 1;\nEND_DATA_BLOCK",
        6,
        10,
    ),
    (
        "FUNCTION FC 1 : VOID\nVAR_IN_OUT\na : STRUCT\nb : INT;\nEND_STRUCT;\nEND_VAR\nBEGIN\nEND_FUNCTION",
        3,
        10,
    ),
];

/// The other rules of clauses, and one of tokens.
static OTHERS: [RefusedSource; 28] = [
    // Rule 11: where its kind may not follow.
    (
        "ORGANIZATION_BLOCK OB 1\nBEGIN\na : INT;\nEND_ORGANIZATION_BLOCK",
        3,
        11,
    ),
    (
        "FUNCTION_BLOCK FB 1\nVAR\nSET;\nEND_VAR\nBEGIN\nEND_FUNCTION_BLOCK",
        3,
        11,
    ),
    (
        "FUNCTION_BLOCK FB 1\nVAR_OUTPUT\nEND_VAR\nVAR_INPUT\nEND_VAR\nBEGIN\nEND_FUNCTION_BLOCK",
        4,
        11,
    ),
    (
        "FUNCTION_BLOCK FB 1\nVAR\nEND_VAR\nVAR\nEND_VAR\nBEGIN\nEND_FUNCTION_BLOCK",
        4,
        11,
    ),
    (
        "FUNCTION_BLOCK FB 1\nVAR\nEND_VAR;\nBEGIN\nEND_FUNCTION_BLOCK",
        3,
        11,
    ),
    (
        "ORGANIZATION_BLOCK OB 1\nVAR\nEND_VAR\nBEGIN\nEND_ORGANIZATION_BLOCK",
        2,
        11,
    ),
    (
        "FUNCTION FC 1 : VOID\nVAR\nEND_VAR\nBEGIN\nEND_FUNCTION",
        2,
        11,
    ),
    (
        "FUNCTION FC 1 : VOID\nVAR_INPUT\na : INT := 5;\nEND_VAR\nBEGIN\nEND_FUNCTION",
        3,
        11,
    ),
    (
        "ORGANIZATION_BLOCK OB 1\nVAR_TEMP\na : INT := 5;\nEND_VAR\nBEGIN\nEND_ORGANIZATION_BLOCK",
        3,
        11,
    ),
    (
        "FUNCTION_BLOCK FB 1\nVAR_TEMP\na : INT := 5;\nEND_VAR\nBEGIN\nEND_FUNCTION_BLOCK",
        3,
        11,
    ),
    (
        "FUNCTION_BLOCK FB 1\nVAR_TEMP\na : STRUCT\nb : INT := 5;\nEND_STRUCT;\nEND_VAR\nBEGIN\nEND_FUNCTION_BLOCK",
        4,
        11,
    ),
    (
        "ORGANIZATION_BLOCK OB 1\nVAR_TEMP\na : ARRAY[0..1] OF DATE_AND_TIME;\nEND_VAR\nBEGIN\nEND_ORGANIZATION_BLOCK",
        3,
        11,
    ),
    (
        "FUNCTION_BLOCK FB 1\nVAR\na : STRUCT\nEND_VAR\nBEGIN\nEND_FUNCTION_BLOCK",
        4,
        11,
    ),
    ("ORGANIZATION_BLOCK OB 1\nBEGIN\nEND_FUNCTION", 3, 11),
    ("DATA_BLOCK DB 1\nBEGIN\nEND_DATA_BLOCK", 2, 11),
    ("SET;", 1, 11),
    // Rule 12: a label is too long, in a clause that would be right with a shorter one.
    (
        "ORGANIZATION_BLOCK OB 1\nBEGIN\nabcde: SET;\nL M 0.8;\nEND_ORGANIZATION_BLOCK",
        3,
        12,
    ),
    (
        "ORGANIZATION_BLOCK OB 1\nBEGIN\nJU abcde;\nEND_ORGANIZATION_BLOCK",
        3,
        12,
    ),
    ("ORGANIZATION_BLOCK OB 1\nBEGIN\nabcde: JU abcd;\n", 3, 12),
    (
        "ORGANIZATION_BLOCK OB 1\nBEGIN\nabcde: L M 0.8;\nEND_ORGANIZATION_BLOCK",
        3,
        10,
    ),
    (
        "FUNCTION_BLOCK FB 1\nVAR\nabcde: SET;\nEND_VAR\nBEGIN\nEND_FUNCTION_BLOCK",
        3,
        11,
    ),
    // Rule 13: the source ends inside a block, and every clause is right.
    ("ORGANIZATION_BLOCK OB 1\nBEGIN\nSET;\n", 3, 13),
    (
        "DATA_BLOCK DB 1\nSTRUCT a : STRUCT\nb : INT;\nEND_STRUCT;\n",
        4,
        13,
    ),
    ("ORGANIZATION_BLOCK OB 1\n\nTITLE = x", 3, 13),
    ("ORGANIZATION_BLOCK OB 1\nBEGIN\nL M 0.8;\n", 3, 10),
    ("ORGANIZATION_BLOCK OB 1\nBEGIN\nL M 0.8;\nSET;\n", 3, 10),
    // A rule of tokens.
    (
        "ORGANIZATION_BLOCK OB 1\nBEGIN\nL S5T#2H46M31S;\nEND_ORGANIZATION_BLOCK",
        3,
        4,
    ),
    (
        "ORGANIZATION_BLOCK FC 1\nBEGIN\nL 65536;\nEND_ORGANIZATION_BLOCK",
        3,
        4,
    ),
];

fn are_refused(rt: &impl Abort, alloc: Global, rows: &[RefusedSource]) {
    for (source, line, rule) in rows {
        let got = check_result(alloc, source.as_bytes());
        same(rt, *source, got, (*line, *rule));
    }
}

#[test]
fn outside_the_grammar(rt: HostRuntime) {
    are_refused(&rt, rt.alloc(), &OUTSIDE_GRAMMAR);
}

#[test]
fn names_the_first_violation(rt: HostRuntime) {
    are_refused(&rt, rt.alloc(), &OTHERS);
    law_of_clauses();
    law_of_components();
}

/// Statements that are near to those of the master control relay, with the rule that each breaks:
/// `MCR` alone is no instruction word.
static NEAR_RELAY: [(&str, u16); 10] = [
    ("MCR;", 10),
    ("MCR 1;", 10),
    ("x: MCR;", 10),
    ("MCR();", 10),
    ("MCR((;", 10),
    ("MCR(MCR(;", 10),
    ("MCRA(;", 10),
    (")MCR(;", 10),
    ("#MCR(;", 10),
    ("abcde: )MCR;", 12),
];

#[test]
fn statements_near_the_relay(rt: HostRuntime) -> Result<(), Fail> {
    for (statement, rule) in &NEAR_RELAY {
        let got = check_result_in(rt.alloc(), Frame::Body, statement)?;
        same(&rt, *statement, got, (2, *rule));
    }
    Ok(())
}

/// What stands before the nesting, what opens and what closes each of so many levels, what stands
/// behind, and the line and the rule of the refusal; 0 and 0 for a tree.
type Nesting = (
    &'static [u8],
    &'static [u8],
    &'static [u8],
    u32,
    &'static [u8],
    u32,
    u16,
);

// Structures, open and closed, and arrays as deep as 1 MiB allows: no step goes down them by a call.
static NESTINGS: [Nesting; 3] = [
    (
        b"DATA_BLOCK DB 1 STRUCT ",
        b"a:STRUCT ",
        b"",
        100_000,
        b"",
        1,
        13,
    ),
    (
        b"DATA_BLOCK DB 1 STRUCT ",
        b"a:STRUCT ",
        b"END_STRUCT;",
        52_000,
        b"END_STRUCT BEGIN END_DATA_BLOCK",
        0,
        0,
    ),
    (
        b"DATA_BLOCK DB 1 STRUCT a:",
        b"ARRAY[0..0]OF ",
        b"",
        74_000,
        b"INT;END_STRUCT BEGIN END_DATA_BLOCK",
        0,
        0,
    ),
];

/// Adds a piece so many times.
fn add(source: &mut Vec<u8>, piece: &[u8], count: u32) -> Result<(), AllocError> {
    for _ in 0..count {
        source.extend_from_slice(piece)?;
    }
    Ok(())
}

/// Adds the source of a row.
fn add_nested(source: &mut Vec<u8>, row: &Nesting) -> Result<(), AllocError> {
    let (head, open, close, count, tail, ..) = row;
    add(source, head, 1)?;
    add(source, open, *count)?;
    add(source, close, *count)?;
    add(source, tail, 1)
}

/// What the check finds of the source of a row.
fn nested_check_result(alloc: Global, row: &Nesting) -> Result<(u32, u16), AllocError> {
    let mut source = Vec::new(alloc);
    add_nested(&mut source, row)?;
    Ok(check_result(alloc, source.as_slice()))
}

#[test]
fn deep_nestings(rt: HostRuntime) -> Result<(), Fail> {
    for row in &NESTINGS {
        let got = nested_check_result(rt.alloc(), row)?;
        same(&rt, (row.1, row.2), got, (row.5, row.6));
    }
    Ok(())
}
