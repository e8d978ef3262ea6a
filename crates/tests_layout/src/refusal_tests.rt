use crate::calls::{Row, check_result_in};
use crate::compare::same;
use std::alloc::Global;
use std::process::Abort;
use std::test::Fail;

/// Declarations of the structure of DB 1, from line 3 on.
static NAMES: [Row; 8] = [
    (b"a : INT;\nb : INT;", 0, 0),
    (b"a : INT;\nA : INT;", 4, 21),
    (b"a : INT;\nb : INT;\nc : INT;\na : BOOL;\nb : INT;", 6, 21),
    // Each structure is a list of its own.
    (
        b"a : STRUCT\na : INT;\nb : INT;\nEND_STRUCT;\nb : STRUCT\na : INT;\nEND_STRUCT;",
        0,
        0,
    ),
    (
        b"a : STRUCT\nb : INT;\nB : INT;\nEND_STRUCT;\na : INT;",
        5,
        21,
    ),
    (b"a : STRUCT\nb : INT;\nEND_STRUCT;\nA : INT;", 6, 21),
    // Each rule is checked by itself, whatever else is broken.
    (
        b"a : ARRAY [5 .. 1] OF STRUCT b : INT; b : INT; END_STRUCT;",
        3,
        21,
    ),
    (b"a : INT; a : UDT 9;\nb : BYTE := 256;", 3, 21),
];

static INITIAL: [Row; 14] = [
    (b"a : ARRAY [1 .. 3] OF INT := 1, 2, 3;", 0, 0),
    (b"a : ARRAY [1 .. 3] OF INT := 1, 2, 3, 4;", 3, 41),
    (b"a : ARRAY [1 .. 3] OF INT := 2 (7);", 0, 0),
    (b"a : ARRAY [1 .. 3] OF INT := 2 (7), 1;", 0, 0),
    (b"a : ARRAY [1 .. 3] OF INT := 2 (7), 2 (1);", 3, 41),
    (b"a : ARRAY [1 .. 3] OF INT := 3 (7), 0 (1);", 0, 0),
    (b"a : ARRAY [1 .. 3] OF INT := 1, 40000;", 3, 41),
    (b"a : ARRAY [1 .. 3] OF INT := 1;", 0, 0),
    (b"a : ARRAY [1 .. 3] OF BYTE := 300;", 3, 41),
    (b"a : ARRAY [1 .. 2] OF ARRAY [1 .. 2] OF INT := 5;", 3, 41),
    (b"a : ARRAY [5 .. 1] OF INT := 7;", 3, 41),
    (b"a : ARRAY [5 .. 1] OF INT := 0 (7);", 3, 42),
    (
        b"a : STRUCT\nb : INT := 1;\nc : BYTE := 256;\nEND_STRUCT;",
        5,
        41,
    ),
    (b"a : INT;\nb : UDT 9 := 5;", 4, 23),
];

static ARRAYS: [Row; 7] = [
    (b"a : ARRAY [1 .. 1] OF INT;", 0, 0),
    (b"a : ARRAY [-2 .. -2] OF INT;", 0, 0),
    (b"a : ARRAY [2 .. 1] OF INT;", 3, 42),
    (b"a : ARRAY [1 .. -1] OF INT;", 3, 42),
    (
        b"a : INT;\nb : ARRAY [1 .. 2] OF ARRAY [1 .. 0] OF INT;",
        4,
        42,
    ),
    (
        b"a : STRUCT\nb : STRUCT\nc : ARRAY [1 .. 0] OF INT;\nEND_STRUCT;\nEND_STRUCT;",
        5,
        42,
    ),
    (b"a : ARRAY [2 .. 1] OF UDT 9;", 3, 23),
];

static DEPTHS: [Row; 7] = [
    // With the structure of the data block itself eight are open, and nine.
    (
        b"a : STRUCT\nb : STRUCT\nc : STRUCT\nd : STRUCT\ne : STRUCT\nf : STRUCT\ng : STRUCT\nh : INT;\nEND_STRUCT;\nEND_STRUCT;\nEND_STRUCT;\nEND_STRUCT;\nEND_STRUCT;\nEND_STRUCT;\nEND_STRUCT;",
        0,
        0,
    ),
    (
        b"a : STRUCT\nb : STRUCT\nc : STRUCT\nd : STRUCT\ne : STRUCT\nf : STRUCT\ng : STRUCT\nh : ARRAY [1 .. 2] OF INT;\nEND_STRUCT;\nEND_STRUCT;\nEND_STRUCT;\nEND_STRUCT;\nEND_STRUCT;\nEND_STRUCT;\nEND_STRUCT;",
        10,
        56,
    ),
    (
        b"a : STRUCT\nb : STRUCT\nc : STRUCT\nd : STRUCT\ne : STRUCT\nf : STRUCT\ng : STRUCT\nh : STRUCT\ni : INT;\nEND_STRUCT;\nEND_STRUCT;\nEND_STRUCT;\nEND_STRUCT;\nEND_STRUCT;\nEND_STRUCT;\nEND_STRUCT;\nEND_STRUCT;",
        10,
        56,
    ),
    (
        b"a : ARRAY [1 .. 1] OF ARRAY [1 .. 1] OF ARRAY [1 .. 1] OF ARRAY [1 .. 1] OF ARRAY [1 .. 1] OF ARRAY [1 .. 1] OF ARRAY [1 .. 1] OF INT;",
        0,
        0,
    ),
    (
        b"a : INT;\nb : ARRAY [1 .. 1] OF ARRAY [1 .. 1] OF ARRAY [1 .. 1] OF ARRAY [1 .. 1] OF ARRAY [1 .. 1] OF ARRAY [1 .. 1] OF ARRAY [1 .. 1] OF ARRAY [1 .. 1] OF INT;",
        4,
        56,
    ),
    // What stands behind isn't in them.
    (
        b"a : ARRAY [1 .. 1] OF ARRAY [1 .. 1] OF ARRAY [1 .. 1] OF ARRAY [1 .. 1] OF ARRAY [1 .. 1] OF ARRAY [1 .. 1] OF ARRAY [1 .. 1] OF INT;\nb : STRUCT\nc : INT;\nEND_STRUCT;",
        0,
        0,
    ),
    // A name twice in the ninth structure: the lesser rule of the line.
    (
        b"a : STRUCT b : STRUCT c : STRUCT d : STRUCT e : STRUCT f : STRUCT g : STRUCT h : STRUCT i : INT; i : INT; END_STRUCT; END_STRUCT; END_STRUCT; END_STRUCT; END_STRUCT; END_STRUCT; END_STRUCT; END_STRUCT;",
        3,
        21,
    ),
];

/// Settings of DB 1 with the components `n : INT`, `s` a structure with `n : BYTE`, and `l`, an array
/// of two INT from 1 on; they stand from line 4 on.
static SETTINGS: [Row; 12] = [
    (b"n := 32767;\nN := -32768;", 0, 0),
    (b"n := 1;\nn := 32768;", 5, 41),
    (b"s.n := 255;", 0, 0),
    (b"s.n := 256;", 4, 41),
    (b"s := 1;", 4, 41),
    (b"l := 1;", 4, 41),
    (b"l[1] := 1;\nl[2] := 1;", 0, 0),
    (b"l[0] := 1;", 4, 42),
    (b"l[3] := 1;", 4, 42),
    (b"l[1] := TRUE;", 4, 41),
    // Both are broken: the lesser rule.
    (b"l[3] := TRUE;", 4, 41),
    // An unknown component is checked with the statements.
    (b"m := 1;", 0, 0),
];

/// Whole sources.
static BLOCKS: [Row; 45] = [
    // A name in the sections of a block, and the return value.
    (
        b"FUNCTION FC 1 : VOID\nVAR_INPUT\na : BOOL;\nEND_VAR\nVAR_TEMP\nA : INT;\nEND_VAR\nBEGIN\nEND_FUNCTION",
        6,
        21,
    ),
    (
        b"FUNCTION_BLOCK FB 1\nVAR_OUTPUT\na : BOOL;\nEND_VAR\nVAR\nb : INT;\na : INT;\nEND_VAR\nBEGIN\nEND_FUNCTION_BLOCK",
        7,
        21,
    ),
    (
        b"FUNCTION FC 1 : INT\nVAR_TEMP\nret_val : INT;\nEND_VAR\nBEGIN\nEND_FUNCTION",
        3,
        21,
    ),
    (
        b"FUNCTION FC 1 : VOID\nVAR_TEMP\nret_val : INT;\nEND_VAR\nBEGIN\nEND_FUNCTION",
        0,
        0,
    ),
    (
        b"FUNCTION FC 1 : INT\nVAR_TEMP\na : STRUCT\nret_val : INT;\nEND_STRUCT;\nEND_VAR\nBEGIN\nEND_FUNCTION\nFUNCTION FC 2 : VOID\nVAR_TEMP\na : INT;\nEND_VAR\nBEGIN\nEND_FUNCTION",
        0,
        0,
    ),
    // A block twice.
    (
        b"FUNCTION FC 1 : VOID\nBEGIN\nEND_FUNCTION\nFUNCTION FC 1 : VOID\nBEGIN\nEND_FUNCTION",
        4,
        22,
    ),
    (
        b"FUNCTION FC 1 : VOID\nBEGIN\nEND_FUNCTION\nFUNCTION FC 2 : VOID\nBEGIN\nEND_FUNCTION\nFUNCTION FC 2 : INT\nBEGIN\nEND_FUNCTION\nFUNCTION FC 1 : VOID\nBEGIN\nEND_FUNCTION",
        7,
        22,
    ),
    (
        b"DATA_BLOCK DB 1 STRUCT a : INT; END_STRUCT BEGIN END_DATA_BLOCK\nTYPE UDT 1 STRUCT a : INT; END_STRUCT END_TYPE\nDATA_BLOCK DB 1 UDT 1 BEGIN END_DATA_BLOCK",
        3,
        22,
    ),
    (
        b"DATA_BLOCK DB 1 STRUCT a : INT; END_STRUCT BEGIN END_DATA_BLOCK\nTYPE UDT 1 STRUCT a : INT; END_STRUCT END_TYPE\nFUNCTION FC 1 : VOID BEGIN END_FUNCTION\nFUNCTION_BLOCK FB 1 BEGIN END_FUNCTION_BLOCK\nORGANIZATION_BLOCK OB 1 BEGIN END_ORGANIZATION_BLOCK",
        0,
        0,
    ),
    // Unknown blocks and data types.
    (
        b"DATA_BLOCK DB 1\nSTRUCT\na : UDT 1;\nEND_STRUCT\nBEGIN\nEND_DATA_BLOCK",
        3,
        23,
    ),
    (
        b"DATA_BLOCK DB 1\nSTRUCT\na : ARRAY [1 .. 2] OF STRUCT\nb : UDT 1;\nEND_STRUCT;\nEND_STRUCT\nBEGIN\nEND_DATA_BLOCK\nTYPE UDT 1 STRUCT c : INT; END_STRUCT END_TYPE",
        0,
        0,
    ),
    (b"DATA_BLOCK DB 1\nFB 1\nBEGIN\nEND_DATA_BLOCK", 1, 23),
    (b"DATA_BLOCK DB 1\nUDT 1\nBEGIN\nEND_DATA_BLOCK", 1, 23),
    (b"\n\nFUNCTION \"Fun\" : VOID\nBEGIN\nEND_FUNCTION", 3, 23),
    // A data type in itself; one that only uses such a one; the use of one that has no end.
    (
        b"TYPE UDT 1\nSTRUCT\na : UDT 1;\nEND_STRUCT\nEND_TYPE",
        1,
        43,
    ),
    (
        b"TYPE UDT 1\nSTRUCT\na : UDT 2;\nEND_STRUCT\nEND_TYPE\nTYPE UDT 2\nSTRUCT\na : UDT 1;\nEND_STRUCT\nEND_TYPE",
        1,
        43,
    ),
    (
        b"TYPE UDT 3\nSTRUCT\na : INT;\nEND_STRUCT\nEND_TYPE\nTYPE UDT 2 STRUCT a : ARRAY [1 .. 2] OF STRUCT b : UDT 1; END_STRUCT; END_STRUCT END_TYPE\nTYPE UDT 1\nSTRUCT\na : UDT 3;\nb : UDT 2;\nEND_STRUCT\nEND_TYPE",
        6,
        43,
    ),
    (
        b"TYPE UDT 3\nSTRUCT\na : UDT 1;\nEND_STRUCT\nEND_TYPE\nTYPE UDT 1\nSTRUCT\na : UDT 1;\nEND_STRUCT\nEND_TYPE",
        3,
        56,
    ),
    (
        b"TYPE UDT 1 STRUCT a : UDT 2; b : UDT 3; END_STRUCT END_TYPE\nTYPE UDT 2 STRUCT a : UDT 3; b : UDT 3; END_STRUCT END_TYPE\nTYPE UDT 3 STRUCT a : INT; END_STRUCT END_TYPE",
        0,
        0,
    ),
    // A data type counts as deep as its structure: seven here.
    (
        b"TYPE UDT 1 STRUCT a : ARRAY [1 .. 1] OF ARRAY [1 .. 1] OF ARRAY [1 .. 1] OF ARRAY [1 .. 1] OF ARRAY [1 .. 1] OF ARRAY [1 .. 1] OF INT; END_STRUCT END_TYPE\nDATA_BLOCK DB 1 STRUCT\na : UDT 1;\nEND_STRUCT BEGIN END_DATA_BLOCK",
        0,
        0,
    ),
    (
        b"TYPE UDT 1 STRUCT a : ARRAY [1 .. 1] OF ARRAY [1 .. 1] OF ARRAY [1 .. 1] OF ARRAY [1 .. 1] OF ARRAY [1 .. 1] OF ARRAY [1 .. 1] OF INT; END_STRUCT END_TYPE\nDATA_BLOCK DB 1 STRUCT\na : ARRAY [1 .. 1] OF UDT 1;\nEND_STRUCT BEGIN END_DATA_BLOCK",
        3,
        56,
    ),
    (
        b"TYPE UDT 1 STRUCT a : ARRAY [1 .. 1] OF ARRAY [1 .. 1] OF ARRAY [1 .. 1] OF ARRAY [1 .. 1] OF ARRAY [1 .. 1] OF ARRAY [1 .. 1] OF INT; END_STRUCT END_TYPE\nFUNCTION FC 1 : VOID VAR_TEMP\na : ARRAY [1 .. 1] OF UDT 1;\nEND_VAR BEGIN END_FUNCTION",
        0,
        0,
    ),
    // Local data, of the declarations and of the operands.
    (
        b"FUNCTION FC 1 : VOID\nVAR_TEMP\na : ARRAY [1 .. 1024] OF BYTE;\nEND_VAR\nBEGIN\nEND_FUNCTION",
        0,
        0,
    ),
    (
        b"FUNCTION FC 1 : VOID\nVAR_TEMP\na : ARRAY [1 .. 1025] OF BYTE;\nEND_VAR\nBEGIN\nEND_FUNCTION",
        1,
        50,
    ),
    (
        b"FUNCTION FC 1 : VOID\nBEGIN\nA L 1023.7;\nL LB 1023;\nL LW 1022;\nL LD 1020;\nL MW [LD 2000];\nEND_FUNCTION",
        0,
        0,
    ),
    (
        b"FUNCTION FC 1 : VOID\nBEGIN\nL LB 1024;\nEND_FUNCTION",
        1,
        50,
    ),
    (
        b"FUNCTION FC 1 : VOID\nBEGIN\nT LD 1021;\nEND_FUNCTION",
        1,
        50,
    ),
    (
        b"FUNCTION FC 2 : VOID VAR_INPUT a : INT; END_VAR BEGIN END_FUNCTION\n\nFUNCTION FC 1 : VOID\nBEGIN\nCALL FC 2 (a := LW 1023);\nEND_FUNCTION",
        3,
        50,
    ),
    // The bytes of a data block, a data type and an instance.
    (
        b"DATA_BLOCK DB 1\nSTRUCT\na : ARRAY [1 .. 16384] OF BYTE;\nEND_STRUCT\nBEGIN\nEND_DATA_BLOCK",
        0,
        0,
    ),
    (
        b"DATA_BLOCK DB 1\nSTRUCT\na : ARRAY [1 .. 16385] OF BYTE;\nEND_STRUCT\nBEGIN\nEND_DATA_BLOCK",
        1,
        51,
    ),
    (
        b"\nTYPE UDT 1\nSTRUCT\na : ARRAY [1 .. 8192] OF INT;\nb : BOOL;\nEND_STRUCT\nEND_TYPE",
        2,
        51,
    ),
    (
        b"FUNCTION_BLOCK FB 1\nVAR_INPUT\na : BOOL;\nEND_VAR\nVAR\nb : ARRAY [1 .. 16382] OF BYTE;\nEND_VAR\nBEGIN\nEND_FUNCTION_BLOCK\nDATA_BLOCK DB 1 FB 1 BEGIN END_DATA_BLOCK",
        0,
        0,
    ),
    (
        b"FUNCTION_BLOCK FB 1\nVAR_INPUT\na : BOOL;\nEND_VAR\nVAR\nb : ARRAY [1 .. 16383] OF BYTE;\nEND_VAR\nBEGIN\nEND_FUNCTION_BLOCK",
        1,
        51,
    ),
    (
        b"\nDATA_BLOCK DB 1 FB 1 BEGIN END_DATA_BLOCK\nFUNCTION_BLOCK FB 1\nVAR\nb : ARRAY [1 .. 16385] OF BYTE;\nEND_VAR\nBEGIN\nEND_FUNCTION_BLOCK",
        2,
        51,
    ),
    // An index of an operand; none that rests on a broken declaration, or on the broken block itself.
    (
        b"DATA_BLOCK DB 1\nSTRUCT\na : ARRAY [1 .. 2] OF INT;\nEND_STRUCT\nBEGIN\nEND_DATA_BLOCK\nFUNCTION FC 1 : VOID\nBEGIN\nL DB1.a[1];\nL DB1.a[2];\nL DB1.a[0];\nEND_FUNCTION",
        11,
        42,
    ),
    (
        b"FUNCTION FC 1 : VOID\nBEGIN\nL DB1.a[3];\nEND_FUNCTION\nDATA_BLOCK DB 1\nSTRUCT\na : ARRAY [1 .. 2] OF INT := 40000;\nEND_STRUCT\nBEGIN\nEND_DATA_BLOCK",
        7,
        41,
    ),
    (
        b"FUNCTION FC 1 : VOID\nVAR_TEMP\na : ARRAY [1 .. 2] OF INT;\nEND_VAR\nBEGIN\nL #a[3];\nEND_FUNCTION",
        6,
        42,
    ),
    // Of two rules that are broken on one line the lesser one, whichever is found first.
    (
        b"DATA_BLOCK DB 0 STRUCT a : INT; END_STRUCT BEGIN END_DATA_BLOCK DATA_BLOCK DB 0 STRUCT a : INT; END_STRUCT BEGIN END_DATA_BLOCK",
        1,
        22,
    ),
    (
        b"TYPE UDT 0 STRUCT a : INT; A : INT; END_STRUCT END_TYPE",
        1,
        21,
    ),
    (b"TYPE UDT 1 STRUCT a : UDT 1; END_STRUCT END_TYPE", 1, 43),
    (
        b"ORGANIZATION_BLOCK OB 2 BEGIN L LB 1024; END_ORGANIZATION_BLOCK",
        1,
        44,
    ),
    (
        b"FUNCTION_BLOCK FB 1 VAR a : ARRAY [1 .. 16385] OF BYTE; END_VAR BEGIN L LB 1024; END_FUNCTION_BLOCK",
        1,
        50,
    ),
    (
        b"TYPE UDT 1 STRUCT a : ARRAY [1 .. 16385] OF BYTE; b : ARRAY [1 .. 1] OF ARRAY [1 .. 1] OF ARRAY [1 .. 1] OF ARRAY [1 .. 1] OF ARRAY [1 .. 1] OF ARRAY [1 .. 1] OF ARRAY [1 .. 1] OF ARRAY [1 .. 1] OF INT; END_STRUCT END_TYPE",
        1,
        51,
    ),
    // Of two blocks that break the same rule the first one.
    (
        b"\nFUNCTION FC 2048 : VOID BEGIN END_FUNCTION\nFUNCTION FC 2049 : VOID BEGIN END_FUNCTION",
        2,
        44,
    ),
    (
        b"\nFUNCTION FC 1 : VOID BEGIN L LB 1024; END_FUNCTION\nFUNCTION FC 2 : VOID BEGIN L LB 1024; END_FUNCTION",
        2,
        50,
    ),
];

/// Statements of FC 1, from line 3 on, beside DB 1, FB 1 and FC 2 with an input `a : INT`.
static BODIES: [Row; 17] = [
    (
        b"OPN DB 1;\nL DB1.DBW 0;\nL DB1.a;\nCALL FB 1, DB 2;\nUC FC 1;\nCALL SFC 99;\nUC SFC 0;",
        0,
        0,
    ),
    (b"OPN DB 9;", 3, 23),
    (b"OPN DI 9;", 3, 23),
    (b"L DB9.DBW 0;", 3, 23),
    (b"L DB9.a;", 3, 23),
    (b"UC FC 9;", 3, 23),
    (b"CC FB 9;", 3, 23),
    (b"CALL FB 9, DB 2;", 3, 23),
    (b"CALL FB 1, DB 9;", 3, 23),
    (b"CALL OB 9;", 3, 23),
    (b"CALL \"Fun\";", 3, 23),
    (b"OPN \"Data\";", 3, 23),
    (b"L \"Data\".a;", 3, 23),
    (b"L \"Data\".DBW 0;", 3, 23),
    // The line of the actual parameter.
    (b"CALL FC 2 (\na := DB9.DBW 0);", 4, 23),
    // A symbol as an operand, and an unknown component, are checked with the statements.
    (b"A \"Motor\";\nL DB1.z;", 0, 0),
    (b"SET;\nSET; L DB9.z; L DB1.z;", 4, 23),
];

/// Each row stands between these pieces.
fn all_agree_in(
    rt: &impl Abort,
    alloc: Global,
    before: &[u8],
    rows: &[Row],
    behind: &[u8],
) -> Result<(), Fail> {
    for row in rows {
        let found = check_result_in(alloc, before, row.0, behind)?;
        same(rt, row, found, (row.1, row.2));
    }
    Ok(())
}

const DB: &[u8] = b"DATA_BLOCK DB 1\nSTRUCT\n";

const END_DB: &[u8] = b"\nEND_STRUCT\nBEGIN\nEND_DATA_BLOCK";

#[test]
fn names(rt: HostRuntime) -> Result<(), Fail> {
    all_agree_in(&rt, rt.alloc(), DB, &NAMES, END_DB)
}

#[test]
fn initial_values(rt: HostRuntime) -> Result<(), Fail> {
    all_agree_in(&rt, rt.alloc(), DB, &INITIAL, END_DB)
}

#[test]
fn bounds(rt: HostRuntime) -> Result<(), Fail> {
    all_agree_in(&rt, rt.alloc(), DB, &ARRAYS, END_DB)
}

#[test]
fn depths(rt: HostRuntime) -> Result<(), Fail> {
    all_agree_in(&rt, rt.alloc(), DB, &DEPTHS, END_DB)
}

#[test]
fn settings(rt: HostRuntime) -> Result<(), Fail> {
    let before =
        b"DATA_BLOCK DB 1\nSTRUCT n : INT; s : STRUCT n : BYTE; END_STRUCT; l : ARRAY [1 .. 2] OF INT; END_STRUCT\nBEGIN\n";
    all_agree_in(&rt, rt.alloc(), before, &SETTINGS, b"\nEND_DATA_BLOCK")
}

#[test]
fn blocks(rt: HostRuntime) -> Result<(), Fail> {
    all_agree_in(&rt, rt.alloc(), b"", &BLOCKS, b"")
}

#[test]
fn bodies(rt: HostRuntime) -> Result<(), Fail> {
    let before =
        b"DATA_BLOCK DB 1 STRUCT a : INT; END_STRUCT BEGIN END_DATA_BLOCK FUNCTION_BLOCK FB 1 BEGIN END_FUNCTION_BLOCK DATA_BLOCK DB 2 FB 1 BEGIN END_DATA_BLOCK FUNCTION FC 2 : VOID VAR_INPUT a : INT; END_VAR BEGIN END_FUNCTION\nFUNCTION FC 1 : VOID BEGIN\n";
    all_agree_in(&rt, rt.alloc(), before, &BODIES, b"\nEND_FUNCTION")
}
