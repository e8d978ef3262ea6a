use crate::calls::{Row, bodies_agree, check_result, with_body};
use std::alloc::{AllocError, Global};
use std::process::Abort;
use std::test::Fail;

static NAMES: [Row; 24] = [
    (b"L #num;", 0, 0),
    (b"L #NUM;", 0, 0),
    (b"L #other;", 2, 20),
    (b"L num;", 0, 0),
    (b"L #RET_VAL;", 2, 20),
    (b"L DB1.num;", 0, 0),
    (b"L DB1.other;", 2, 20),
    (b"A DB1.inner.flag;", 0, 0),
    (b"A DB1.inner.other;", 2, 20),
    (b"L DB1.list[3];", 0, 0),
    (b"L DB1.list[3][1];", 2, 20),
    (b"L DB1.num[1];", 2, 20),
    (b"A DB1.inner.flag.deep;", 2, 20),
    (b"A #own.list.flag;", 2, 20),
    (b"L #own.num;\nL #own.list[2];", 0, 0),
    (b"L #row[2];", 0, 0),
    (b"L DB2.kept;", 0, 0),
    (b"L DB1.DBX2;", 2, 20),
    (b"A \"Motor\";\nA \"motor\";", 0, 0),
    (b"A \"Engine\";", 2, 20),
    // An unknown name comes before the form of the operand.
    (b"JU #other;", 2, 20),
    (b"L #other; L M 0.0;", 2, 20),
    (b"L M 0.0;\nL #other;", 2, 24),
    (
        b"CALL FC 2 (num := 5,\nflag := #other,\nwide := MD 0,\nRET_VAL := MW 4);",
        3,
        20,
    ),
];

static WIDTHS: [Row; 18] = [
    (b"A M 0.0;", 0, 0),
    (b"A MW 0;", 2, 24),
    (b"A #bit;", 0, 0),
    (b"A #num;", 2, 24),
    (b"L MB 0;\nL MW 0;\nL MD 0;", 0, 0),
    (b"L M 0.0;", 2, 24),
    (b"L #bit;", 2, 24),
    (b"L #own;", 2, 24),
    (b"L #row;", 2, 24),
    (b"L #when;", 2, 24),
    (b"L DB1.inner;", 2, 24),
    (b"A PIB 0;", 2, 24),
    (b"LAR1 MD 2;", 0, 0),
    (b"LAR1 MW 2;", 2, 24),
    (b"TAR2 MW 2;", 2, 24),
    (b"L \"Motor\";", 2, 24),
    (b"L \"Speed\";", 0, 0),
    (b"= MB [MD 4];", 2, 24),
];

static FORMS: [Row; 28] = [
    (b"SET;\nCLR;\n+I;", 0, 0),
    (b"SET M 0.0;", 2, 25),
    (b"A;", 2, 25),
    (b"R T 1;\nR C 1;\nS C 1;", 0, 0),
    (b"S T 1;", 2, 25),
    (b"= T 1;", 2, 25),
    (b"L DB 1;", 2, 25),
    (b"UC DB 1;", 2, 25),
    (b"CALL DB 1;", 2, 25),
    (b"CALL UDT 1;", 2, 25),
    (b"CC UDT 1;", 2, 25),
    (b"CALL \"Fun\", DB 2;", 2, 25),
    (b"T PQW 0;\nL PIW 0;", 0, 0),
    (b"T PIW 0;", 2, 25),
    (b"L PQW 0;", 2, 25),
    (b"L \"Outside\";\nT \"Outside\";", 0, 0),
    (b"LAR1 P#M 2.0;\n+AR1 P#2.0;", 0, 0),
    (b"LAR1 MD [MD 4];", 2, 25),
    (b"TAR1 #wide;", 2, 25),
    (b"T STW;\nL STW;", 0, 0),
    (b"T DBNO;", 2, 25),
    (b"JU M 0.0;", 2, 25),
    (b"SP T 1;\nSP \"Delay\";\nCU \"Parts\";", 0, 0),
    (b"SP C 1;", 2, 25),
    (b"A \"Fun\";", 2, 25),
    (b"OPN \"Data\";\nOPN DI 2;", 0, 0),
    // Two faults on one line, and one behind another.
    (b"SET M 0.0; A MW 0;", 2, 24),
    (b"NOP 2;\nA MW 0;", 2, 25),
];

static CONSTANTS: [Row; 23] = [
    (b"SLW 15;\nSSI 0;", 0, 0),
    (b"SLW 16;", 2, 25),
    (b"SLD 32;", 0, 0),
    (b"SLD 33;", 2, 25),
    (b"SLW W#16#1;", 2, 25),
    (b"NOP 0;\nNOP 1;", 0, 0),
    (b"NOP 2;", 2, 25),
    (b"INC 255;\nBLD 0;", 0, 0),
    (b"INC 256;", 2, 25),
    (b"DEC -1;", 2, 25),
    (b"+ 5;\n+ L#70000;", 0, 0),
    (b"+ W#16#5;", 2, 25),
    (b"AW 65535;\nAW C#9;\nAW 'ab';", 0, 0),
    (b"AW -1;", 2, 25),
    (b"AW DW#16#1;", 2, 25),
    (b"AD DW#16#5;\nAD 'abcd';", 0, 0),
    (b"AD 5;", 2, 25),
    (b"L 5;\nL P#2.0;\nL T#1S;\nL B#(1, 2);\nL 'abc';", 0, 0),
    (b"L TRUE;", 2, 25),
    (b"A 5;", 2, 25),
    (b"A TRUE;", 2, 25),
    (b"T 5;", 2, 25),
    (b"LAR1 5;", 2, 25),
];

static INPUTS: [Row; 8] = [
    (b"L #num;\nA #bit;", 0, 0),
    (b"T #num;", 2, 39),
    (b"= #bit;", 2, 39),
    (b"S #bit;", 2, 39),
    (b"T #res;\nT #wide;\nT #tmp;", 0, 0),
    (b"A #bit;\nR #bit;", 3, 39),
    (b"= #num;", 2, 24),
    (b"T #num; A 5;", 2, 25),
];

static LABELS: [Row; 23] = [
    (b"JU a1;\na1: SET;", 0, 0),
    (b"a1: SET;\nJC a1;", 0, 0),
    (b"JU a1;", 2, 26),
    (b"JU A1;\na1: SET;", 2, 26),
    (b"a1: SET;\nLOOP a2;", 3, 26),
    (b"a1: SET;\nA1: SET;", 0, 0),
    (b"a1: SET;\na1: SET;", 3, 27),
    (b"a1: SET;\nSET;\na1: SET;\na1: SET;", 4, 27),
    (b"a1: SET;\na1: JU a2;", 3, 26),
    (b"JU a1;\na1: SET;\na1: SET;", 4, 27),
    // The list of a JL: JUs alone, up to a label that comes later.
    (b"JL a9;\nJU a1;\nJU a9;\na9: SET;\na1: SET;", 0, 0),
    (b"JL a9;\na9: SET;", 0, 0),
    (b"JL a9;\n;\nJU a9;\n;\na9: SET;", 0, 0),
    (b"JL a9;\nSET;\na9: SET;", 2, 32),
    (b"JL a9;\nJC a9;\na9: SET;", 2, 32),
    (b"JL a9;\nJU a9;\nNOP 0;\na9: SET;", 2, 32),
    // Another label in capital letters doesn't end the list.
    (b"JL a9;\nJU a9;\nA9: SET;\na9: SET;", 2, 32),
    (b"a9: SET;\nJL a9;", 3, 32),
    (b"a9: JL a9;", 2, 32),
    (b"JL a9;\nJU a9;", 2, 26),
    (b"JL a9;\nJL a9;\na9: SET;", 2, 32),
    (b"SET;\nJL a9;\nJU a9;\nSET;\na9: SET;", 3, 32),
    (b"JL a9;\na1: JU a1;\na9: SET;", 0, 0),
];

static BRACKETS: [Row; 20] = [
    (b"A(;\nO M 0.0;\n);", 0, 0),
    (b");", 2, 29),
    (b"A(;\n);\n);", 4, 29),
    (b"ON(;\n);\nXN(;\n);", 0, 0),
    (b"A(;\nO M 0.0;", 2, 30),
    (b"A(;\nO(;\n);", 2, 30),
    (b"A(;\n);\nO(;\n", 4, 30),
    (b");\nA(;", 2, 29),
    (b"A(; A(; A(; A(; A(; A(; A(;\n); ); ); ); ); ); );", 0, 0),
    (
        b"A(; A(; A(; A(; A(; A(; A(;\nO(;\n); ); ); ); ); ); ); );",
        3,
        31,
    ),
    (
        b"A(; A(; A(; A(; A(; A(; A(;\nO(;\n); ); ); ); ); ); ); ); );",
        3,
        31,
    ),
    (
        b"A(; A(; A(; A(; A(; A(; A(;\nO(;\n); ); ); ); ); ); );",
        2,
        30,
    ),
    (
        b"A(; A(; A(; A(; A(; A(; A(; );\nO(;\n); ); ); ); ); ); );",
        0,
        0,
    ),
    // A jump and its label have the same brackets open.
    (b"JU a1;\nA(;\na1: O M 0.0;\n);", 2, 33),
    (b"A(;\nJU a1;\n);\na1: SET;", 3, 33),
    (b"A(;\nJU a1;\na1: O M 0.0;\n);", 0, 0),
    (b"A(;\nJU a1;\n);\nA(;\na1: O M 0.0;\n);", 0, 0),
    (b"A(;\nJU a1;\n);\nO(;\na1: O M 0.0;\n);", 3, 33),
    (b"A(;\nO(;\na1: O M 0.0;\n);\nJU a1;\n);", 6, 33),
    (b"A(;\nJU a1;\n);\na1: );", 3, 33),
];

static ZONES: [Row; 17] = [
    (b"MCRA;\nMCR(;\nSET;\n)MCR;\nMCRD;", 0, 0),
    (b"MCRD;\nMCRA;\nMCRA;", 0, 0),
    (b"MCR (;\n) MCR;", 0, 0),
    (b"MCR(;\nMCR(;\n)MCR;\n)MCR;", 0, 0),
    (b")MCR;", 2, 47),
    (b"MCRA;\n)MCR;", 3, 47),
    (b"MCR(;\n)MCR;\n)MCR;", 4, 47),
    (b"MCR(;\nSET;", 2, 48),
    (b"MCR(;\nMCR(;\n)MCR;", 2, 48),
    (b"MCR(;\n)MCR;\nMCR(;\nMCRD;", 4, 48),
    (b")MCR;\nMCR(;", 2, 47),
    (
        b"MCR(; MCR(; MCR(; MCR(; MCR(; MCR(; MCR(; MCR(;\n)MCR; )MCR; )MCR; )MCR; )MCR; )MCR; )MCR; )MCR;",
        0,
        0,
    ),
    (
        b"MCR(;\nMCR(;\nMCR(;\nMCR(;\nMCR(;\nMCR(;\nMCR(;\nMCR(;\nMCR(;\n)MCR;\n)MCR;\n)MCR;\n)MCR;\n)MCR;\n)MCR;\n)MCR;\n)MCR;\n)MCR;",
        10,
        49,
    ),
    (
        b"MCR(; MCR(; MCR(; MCR(; MCR(; MCR(; MCR(; MCR(;\nMCR(;\nMCR(;\n)MCR; )MCR; )MCR; )MCR; )MCR; )MCR; )MCR; )MCR; )MCR; )MCR;",
        3,
        49,
    ),
    (
        b"MCR(; MCR(; MCR(; MCR(; MCR(; MCR(; MCR(; MCR(;\nMCR(;\n)MCR; )MCR; )MCR; )MCR; )MCR; )MCR; )MCR; )MCR;",
        2,
        48,
    ),
    (
        b"MCR(; MCR(; MCR(; MCR(; MCR(; MCR(; MCR(; MCR(; )MCR;\nMCR(;\n)MCR; )MCR; )MCR; )MCR; )MCR; )MCR; )MCR; )MCR;",
        0,
        0,
    ),
    (b"JL a9;\nMCRA;\na9: SET;", 2, 32),
];

static ZONES_AND_BRACKETS: [Row; 11] = [
    // Brackets and zones may end in any order.
    (b"MCR(;\nA(;\n)MCR;\n);", 0, 0),
    (b"A(;\nMCR(;\n);\n)MCR;", 0, 0),
    (b"A(;\n)MCR;\n);", 3, 47),
    (b"A(;\nMCR(;\n);", 3, 48),
    (b"MCR(;\nA(;\n)MCR;", 3, 30),
    (b"MCR(;\n);\n)MCR;", 3, 29),
    (
        b"A(; A(; A(; A(; A(; A(; A(;\nMCR(; MCR(; MCR(; MCR(; MCR(; MCR(; MCR(; MCR(;\n)MCR; )MCR; )MCR; )MCR; )MCR; )MCR; )MCR; )MCR;\n); ); ); ); ); ); );",
        0,
        0,
    ),
    (
        b"MCR(; MCR(; MCR(; MCR(; MCR(; MCR(; MCR(; MCR(;\nA(; A(; A(; A(; A(; A(; A(;\nA(;\n); ); ); ); ); ); ); );\n)MCR; )MCR; )MCR; )MCR; )MCR; )MCR; )MCR; )MCR;",
        4,
        31,
    ),
    (
        b"A(; A(; A(; A(; A(; A(; A(;\nMCR(; MCR(; MCR(; MCR(; MCR(; MCR(; MCR(; MCR(;\nMCR(;\n)MCR; )MCR; )MCR; )MCR; )MCR; )MCR; )MCR; )MCR; )MCR;\n); ); ); ); ); ); );",
        4,
        49,
    ),
    // Each by itself on one line, the least rule is named.
    (b"MCR(; )MCR; )MCR; A(;", 2, 30),
    (b")MCR; );", 2, 29),
];

static JUMPS_AND_ZONES: [Row; 17] = [
    // A jump and its label have as many zones open.
    (b"JU a1;\nMCR(;\na1: SET;\n)MCR;", 2, 33),
    (b"MCR(;\nJU a1;\n)MCR;\na1: SET;", 3, 33),
    (b"MCR(;\nJC a1;\na1: SET;\n)MCR;", 0, 0),
    (b"MCR(;\nJU a1;\n)MCR;\nMCR(;\na1: SET;\n)MCR;", 0, 0),
    (b"MCR(;\nMCR(;\na1: SET;\n)MCR;\nJU a1;\n)MCR;", 6, 33),
    (b"MCR(;\nJU a1;\na1: )MCR;", 0, 0),
    (b"MCR(;\nJU a1;\n)MCR;\na1: MCR(;\n)MCR;", 3, 33),
    (b"JU a1;\na1: MCR(;\n)MCR;", 0, 0),
    (b"JL a9;\nJU a1;\na9: MCR(;\na1: SET;\n)MCR;", 3, 33),
    (
        b"MCR(;\nJU a1;\n)MCR;\na1: SET;\nMCR(;\na1: SET;\n)MCR;",
        3,
        33,
    ),
    // The list of brackets and the number of zones both.
    (b"A(;\nJU a1;\nMCR(;\na1: O M 0.0;\n)MCR;\n);", 3, 33),
    (b"MCR(;\nJU a1;\nA(;\na1: O M 0.0;\n);\n)MCR;", 3, 33),
    (b"A(;\nJU a1;\n);\nMCR(;\na1: SET;\n)MCR;", 3, 33),
    (
        b"A(;\nMCR(;\nJU a1;\n)MCR;\n);\nMCR(;\nA(;\na1: O M 0.0;\n);\n)MCR;",
        0,
        0,
    ),
    (
        b"A(;\nMCR(;\nJU a1;\n)MCR;\n);\nMCR(;\nO(;\na1: O M 0.0;\n);\n)MCR;",
        4,
        33,
    ),
    // Of more zones than eight too: 33 comes before 49.
    (
        b"MCR(; MCR(; MCR(; MCR(; MCR(; MCR(; MCR(; MCR(;\nMCR(; JU a1; MCR(;\na1: SET;\n)MCR; )MCR; )MCR; )MCR; )MCR; )MCR; )MCR; )MCR; )MCR; )MCR;",
        3,
        33,
    ),
    (
        b"MCR(; MCR(; MCR(; MCR(; MCR(; MCR(; MCR(; MCR(;\nMCR(; JU a1;\na1: SET;\n)MCR; )MCR; )MCR; )MCR; )MCR; )MCR; )MCR; )MCR; )MCR;",
        3,
        49,
    ),
];

#[test]
fn names(rt: HostRuntime) -> Result<(), Fail> {
    bodies_agree(&rt, rt.alloc(), &NAMES)
}

#[test]
fn widths(rt: HostRuntime) -> Result<(), Fail> {
    bodies_agree(&rt, rt.alloc(), &WIDTHS)
}

#[test]
fn forms(rt: HostRuntime) -> Result<(), Fail> {
    bodies_agree(&rt, rt.alloc(), &FORMS)
}

#[test]
fn constants(rt: HostRuntime) -> Result<(), Fail> {
    bodies_agree(&rt, rt.alloc(), &CONSTANTS)
}

#[test]
fn inputs(rt: HostRuntime) -> Result<(), Fail> {
    bodies_agree(&rt, rt.alloc(), &INPUTS)
}

#[test]
fn labels(rt: HostRuntime) -> Result<(), Fail> {
    bodies_agree(&rt, rt.alloc(), &LABELS)
}

#[test]
fn brackets(rt: HostRuntime) -> Result<(), Fail> {
    bodies_agree(&rt, rt.alloc(), &BRACKETS)
}

#[test]
fn zones(rt: HostRuntime) -> Result<(), Fail> {
    bodies_agree(&rt, rt.alloc(), &ZONES)
}

#[test]
fn zones_and_brackets(rt: HostRuntime) -> Result<(), Fail> {
    bodies_agree(&rt, rt.alloc(), &ZONES_AND_BRACKETS)
}

#[test]
fn jumps_and_zones(rt: HostRuntime) -> Result<(), Fail> {
    bodies_agree(&rt, rt.alloc(), &JUMPS_AND_ZONES)
}

/// A body with a jump list of so many jumps.
fn jump_list(alloc: Global, jumps: u32) -> Result<Vec<u8>, AllocError> {
    let mut body = Vec::new(alloc);
    body.extend_from_slice(b"JL a9;\n")?;
    for _ in 0..jumps {
        body.extend_from_slice(b"JU a9; ")?;
    }
    body.extend_from_slice(b"\na9: SET;")?;
    Ok(body)
}

#[test]
fn longest_jump_list(rt: HostRuntime) -> Result<(), Fail> {
    let alloc = rt.alloc();
    for (jumps, line, rule) in [(255, 0, 0), (256, 2, 32)] {
        let body = jump_list(alloc, jumps)?;
        let source = with_body(alloc, body.as_slice())?;
        assert_eq!(rt; check_result(alloc, b"", source.as_slice()), (line, rule));
    }
    Ok(())
}
