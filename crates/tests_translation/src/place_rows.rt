use crate::bodies::{both_ways, translates};
use std::test::Fail;
use stl_symbols::Language;

/// Places of words, with the same place in the other language.
static PLACES: [(&str, &str); 23] = [
    ("A(; A I 0.0; AN( ; );", "U(; U E 0.0; UN( ; );"),
    ("L IW [MD 4];", "L EW [MD 4];"),
    ("A Q [AR1, P#0.0];", "U A [AR1, P#0.0];"),
    ("L C [MW 2];", "L Z [MW 2];"),
    ("LAR1 P#I 1.0; LAR2 P#Q2.0;", "LAR1 P#E 1.0; LAR2 P#A2.0;"),
    (
        "L P#M 1.0; L P#DBX 2.0; L P#3.0;",
        "L P#M 1.0; L P#DBX 2.0; L P#3.0;",
    ),
    ("x: A I 0.0;", "x: U E 0.0;"),
    ("A: A I 0.0; JU A;", "A: U E 0.0; SPA A;"),
    ("E: BEU; JC E;", "E: BEA; SPB E;"),
    ("JU I5;", "SPA I5;"),
    ("x: JU I5;", "x: SPA I5;"),
    ("JU P#I 0.0;", "SPA P#I 0.0;"),
    (
        "CALL FC 1 (I1 := M 0.0, BR := M 0.1);",
        "CALL FC 1 (I1 := M 0.0, BR := M 0.1);",
    ),
    (
        "CALL FC 1 (I := IW 2, Q := Q 4.0);",
        "CALL FC 1 (I := EW 2, Q := A 4.0);",
    ),
    (
        "CALL SFC 64 (RET_VAL := QD 4);",
        "CALL SFC 64 (RET_VAL := AD 4);",
    ),
    (
        "L DB 1.I; L #x.Q; A \"a\".BR;",
        "L DB 1.I; L #x.Q; U \"a\".BR;",
    ),
    ("A\nI\n0.0 ; // A I 0.0", "U\nE\n0.0 ; // A I 0.0"),
    (
        "NETWORK\nTITLE = A I 0.0;\nA I 0.0;",
        "NETWORK\nTITLE = A I 0.0;\nU E 0.0;",
    ),
    ("{ A := 'I' } A I 0.0;", "{ A := 'I' } U E 0.0;"),
    (
        "A I 0.0; { A := 'I' } A I 0.0;",
        "U E 0.0; { A := 'I' } U E 0.0;",
    ),
    (
        "NETWORK { A := 'I' } A I 0.0;",
        "NETWORK { A := 'I' } U E 0.0;",
    ),
    (
        "A I 0.0;\nTITLE = A I 0.0\nA I 0.0;",
        "U E 0.0;\nTITLE = A I 0.0\nU E 0.0;",
    ),
    // a second label is an instruction word that no language has, and what follows it is no instruction
    ("x: y: A I 0.0;", "x: y: A E 0.0;"),
];

/// Whole sources, English and German: the bodies of blocks of statements alone change.
static SOURCES: [(&str, &str); 10] = [
    ("", ""),
    ("A I 0.0;", "A I 0.0;"),
    (
        "DATA_BLOCK DB 1 STRUCT A : INT; I : INT; END_STRUCT; BEGIN A := 5; I := 6; END_DATA_BLOCK\nFUNCTION FC 1 : VOID BEGIN A I 0.0; END_FUNCTION",
        "DATA_BLOCK DB 1 STRUCT A : INT; I : INT; END_STRUCT; BEGIN A := 5; I := 6; END_DATA_BLOCK\nFUNCTION FC 1 : VOID BEGIN U E 0.0; END_FUNCTION",
    ),
    (
        "FUNCTION_BLOCK FB 1 VAR_INPUT I : BOOL; Q : BOOL; END_VAR BEGIN A #I; END_FUNCTION_BLOCK A",
        "FUNCTION_BLOCK FB 1 VAR_INPUT I : BOOL; Q : BOOL; END_VAR BEGIN U #I; END_FUNCTION_BLOCK A",
    ),
    (
        "DATA_BLOCK DB 1 NAME : FUNCTION STRUCT A : INT; END_STRUCT; BEGIN A := 6; END_DATA_BLOCK",
        "DATA_BLOCK DB 1 NAME : FUNCTION STRUCT A : INT; END_STRUCT; BEGIN A := 6; END_DATA_BLOCK",
    ),
    (
        "FUNCTION FC 1 : VOID AUTHOR : BEGIN VAR_TEMP Q : BOOL; A : BOOL; END_VAR BEGIN A #Q; END_FUNCTION",
        "FUNCTION FC 1 : VOID AUTHOR : BEGIN VAR_TEMP Q : BOOL; A : BOOL; END_VAR BEGIN U #Q; END_FUNCTION",
    ),
    (
        "FUNCTION FC 1 : VOID BEGIN A I 0.0; END_FUNCTION DATA_BLOCK DB 1 STRUCT A : INT; END_STRUCT; BEGIN A := 5; END_DATA_BLOCK",
        "FUNCTION FC 1 : VOID BEGIN U E 0.0; END_FUNCTION DATA_BLOCK DB 1 STRUCT A : INT; END_STRUCT; BEGIN A := 5; END_DATA_BLOCK",
    ),
    // an END word within a statement ends nothing; one at the start of a statement does, whichever block it is of
    (
        "FUNCTION FC 1 : VOID BEGIN A END_FUNCTION; A I 0.0; END_FUNCTION A I 0.0;",
        "FUNCTION FC 1 : VOID BEGIN U END_FUNCTION; U E 0.0; END_FUNCTION A I 0.0;",
    ),
    (
        "FUNCTION FC 1 : VOID BEGIN A I 0.0; END_ORGANIZATION_BLOCK A I 0.0;",
        "FUNCTION FC 1 : VOID BEGIN U E 0.0; END_ORGANIZATION_BLOCK A I 0.0;",
    ),
    (
        "DATA_BLOCK DB 1 STRUCT A : INT; END_STRUCT; BEGIN a.FUNCTION := 1; a.BEGIN := 2; A := 3; END_DATA_BLOCK",
        "DATA_BLOCK DB 1 STRUCT A : INT; END_STRUCT; BEGIN a.FUNCTION := 1; a.BEGIN := 2; A := 3; END_DATA_BLOCK",
    ),
];

#[test]
fn places_are_told_apart(rt: HostRuntime) -> Result<(), Fail> {
    both_ways(&rt, rt.alloc(), &PLACES)
}

#[test]
fn bodies_alone_change(rt: HostRuntime) -> Result<(), Fail> {
    for row in &SOURCES {
        translates(&rt, rt.alloc(), Language::German, row.0, row.1)?;
        translates(&rt, rt.alloc(), Language::English, row.1, row.0)?;
    }
    Ok(())
}
