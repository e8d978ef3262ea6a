use crate::calls::{check_result, check_result_in};
use crate::compare::same;
use std::alloc::{AllocError, Global};
use std::process::Abort;
use std::test::Fail;

/// What stands before and behind the number of a block, the numbers that are right, and others.
type Numbers = (
    &'static [u8],
    &'static [u8],
    &'static [&'static [u8]],
    &'static [&'static [u8]],
);

static NUMBERS: [Numbers; 5] = [
    (
        b"ORGANIZATION_BLOCK OB ",
        b" BEGIN END_ORGANIZATION_BLOCK",
        &[
            b"1", b"10", b"17", b"20", b"23", b"30", b"38", b"40", b"47", b"80", b"85", b"100",
            b"121", b"122",
        ],
        &[
            b"0", b"2", b"9", b"18", b"19", b"24", b"29", b"39", b"48", b"79", b"81", b"84", b"86",
            b"90", b"99", b"101", b"120", b"123", b"65535",
        ],
    ),
    (
        b"FUNCTION FC ",
        b" : VOID BEGIN END_FUNCTION",
        &[b"0", b"1", b"2047"],
        &[b"2048", b"65535"],
    ),
    (
        b"FUNCTION_BLOCK FB ",
        b" BEGIN END_FUNCTION_BLOCK",
        &[b"0", b"1", b"2047"],
        &[b"2048", b"65535"],
    ),
    (
        b"DATA_BLOCK DB ",
        b" STRUCT a : INT; END_STRUCT BEGIN END_DATA_BLOCK",
        &[b"1", b"2047"],
        &[b"0", b"2048", b"65535"],
    ),
    (
        b"TYPE UDT ",
        b" STRUCT a : INT; END_STRUCT END_TYPE",
        &[b"1", b"2047"],
        &[b"0", b"2048", b"65535"],
    ),
];

fn check_numbers(
    rt: &impl Abort,
    alloc: Global,
    before: &[u8],
    behind: &[u8],
    numbers: &[&[u8]],
    expected: (u32, u16),
) -> Result<(), Fail> {
    for number in numbers {
        let found = check_result_in(alloc, before, number, behind)?;
        same(rt, (before, number), found, expected);
    }
    Ok(())
}

#[test]
fn numbers_of_blocks(rt: HostRuntime) -> Result<(), Fail> {
    let alloc = rt.alloc();
    for (before, behind, right, wrong) in &NUMBERS {
        check_numbers(&rt, alloc, before, behind, right, (0, 0))?;
        check_numbers(&rt, alloc, before, behind, wrong, (1, 44))?;
    }
    Ok(())
}

/// A type, and a constant that fits it or doesn't.
type Fit = (&'static str, &'static str, bool);

static FITS: [Fit; 79] = [
    ("BOOL", "TRUE", true),
    ("BOOL", "FALSE", true),
    ("BOOL", "1", false),
    ("BOOL", "2#1", false),
    ("BYTE", "0", true),
    ("BYTE", "255", true),
    ("BYTE", "256", false),
    ("BYTE", "-1", false),
    ("BYTE", "B#16#FF", true),
    ("BYTE", "W#16#FF", true),
    ("BYTE", "W#16#100", false),
    ("BYTE", "2#1111_1111", true),
    ("BYTE", "2#1_0000_0000", false),
    ("BYTE", "DW#16#1", false),
    ("BYTE", "'a'", false),
    ("BYTE", "C#1", false),
    ("BYTE", "TRUE", false),
    ("CHAR", "'a'", true),
    ("CHAR", "'ab'", false),
    ("CHAR", "65", false),
    ("CHAR", "B#16#41", false),
    ("WORD", "0", true),
    ("WORD", "65535", true),
    ("WORD", "-1", false),
    ("WORD", "B#16#1", false),
    ("WORD", "W#16#FFFF", true),
    ("WORD", "DW#16#1", false),
    ("WORD", "2#1111_1111_1111_1111", true),
    ("WORD", "2#1_0000_0000_0000_0000", false),
    ("WORD", "S5T#1S", true),
    ("WORD", "T#1S", false),
    ("WORD", "C#999", true),
    ("WORD", "L#1", false),
    ("WORD", "'a'", false),
    ("WORD", "'ab'", true),
    ("WORD", "'abc'", false),
    ("WORD", "B#(1, 2)", false),
    ("INT", "32767", true),
    ("INT", "32768", false),
    ("INT", "-32768", true),
    ("INT", "L#1", false),
    ("INT", "W#16#1", false),
    ("INT", "B#16#1", false),
    ("INT", "2#1", false),
    ("INT", "C#1", false),
    ("INT", "'ab'", false),
    ("S5TIME", "S5T#1S", true),
    ("S5TIME", "T#1S", false),
    ("S5TIME", "W#16#1", false),
    ("S5TIME", "1", false),
    ("DWORD", "1", false),
    ("DWORD", "DW#16#FFFF_FFFF", true),
    ("DWORD", "W#16#1", false),
    ("DWORD", "2#1111_1111_1111_1111_1111_1111_1111_1111", true),
    ("DWORD", "L#1", false),
    ("DWORD", "T#1S", false),
    ("DWORD", "'ab'", false),
    ("DWORD", "'abc'", false),
    ("DWORD", "'abcd'", true),
    ("DWORD", "B#(1, 2, 3, 4)", false),
    ("DINT", "1", false),
    ("DINT", "L#2147483647", true),
    ("DINT", "L#-2147483648", true),
    ("DINT", "DW#16#FFFF_FFFF", true),
    ("DINT", "W#16#1", false),
    ("DINT", "2#1", false),
    ("DINT", "T#1S", false),
    ("DINT", "'abcd'", false),
    ("TIME", "T#-1S", true),
    ("TIME", "S5T#1S", false),
    ("TIME", "L#1", false),
    ("TIME", "DW#16#1", false),
    ("TIME", "1", false),
    ("ARRAY [1 .. 2] OF BYTE", "255", true),
    ("ARRAY [1 .. 2] OF BYTE", "256", false),
    ("ARRAY [1 .. 2] OF BYTE", "1, 2 (2)", false),
    ("ARRAY [1 .. 2] OF BYTE", "1, 1 (2)", true),
    ("ARRAY [1 .. 2] OF DINT", "L#1, L#2", true),
    ("ARRAY [1 .. 2] OF DINT", "L#1, 2", false),
];

/// What the check finds of a component of a type with this initial value, which stands in line 2.
fn check_result_of_initial(
    alloc: Global,
    kind: &str,
    constant: &str,
) -> Result<(u32, u16), AllocError> {
    let mut source = String::new(alloc);
    write!(
        source,
        "TYPE UDT 1 STRUCT\na : {kind} := {constant};\nEND_STRUCT END_TYPE"
    )?;
    Ok(check_result(alloc, source.as_bytes()))
}

#[test]
fn constants_that_fit(rt: HostRuntime) -> Result<(), Fail> {
    let alloc = rt.alloc();
    for (kind, constant, fits) in &FITS {
        let expected = if *fits { (0, 0) } else { (2, 41) };
        let found = check_result_of_initial(alloc, kind, constant)?;
        same(&rt, (kind, constant), found, expected);
    }
    Ok(())
}

/// What is repeated in a source.
#[derive(Clone, Copy)]
enum Piece {
    /// The same text each time.
    Alike {
        text: &'static str,
    },
    /// A number from 1 on between two texts.
    Numbered {
        before: &'static str,
        behind: &'static str,
    },
}

/// A source that repeats a piece so many times between its head and its tail, with the line and the
/// rule of its refusal; 0 and 0 where the layout breaks no rule.
type Repeats = (&'static str, Piece, u32, &'static str, u32, u16);

const PARAMETER: Piece = Piece::Numbered {
    before: "p",
    behind: " : BOOL;\n",
};

const STATEMENT: Piece = Piece::Alike { text: "SET;" };

const DATA_BLOCK: Piece = Piece::Numbered {
    before: "DATA_BLOCK DB ",
    behind: " STRUCT a : BOOL; END_STRUCT BEGIN END_DATA_BLOCK\n",
};

/// A data block of a data type, which stands in the first line.
const OF_UDT_1: Piece = Piece::Numbered {
    before: "DATA_BLOCK DB ",
    behind: " UDT 1 BEGIN END_DATA_BLOCK\n",
};

const LARGE: &str = "TYPE UDT 1 STRUCT a : ARRAY [1 .. 16384] OF BYTE; END_STRUCT END_TYPE\n";

const HALF: &str = "TYPE UDT 1 STRUCT a : ARRAY [1 .. 8192] OF BYTE; END_STRUCT END_TYPE\n";

const MORE: &str = "TYPE UDT 1 STRUCT a : ARRAY [1 .. 8194] OF BYTE; END_STRUCT END_TYPE\n";

const END: &str = "END_VAR BEGIN END_FUNCTION";

// The return value is one of the parameters.
static PARAMETERS: [Repeats; 5] = [
    (
        "\nFUNCTION FC 1 : VOID VAR_INPUT\n",
        PARAMETER,
        60,
        END,
        0,
        0,
    ),
    (
        "\nFUNCTION FC 1 : VOID VAR_INPUT\n",
        PARAMETER,
        61,
        END,
        2,
        52,
    ),
    (
        "\nFUNCTION FC 1 : INT VAR_OUTPUT\n",
        PARAMETER,
        59,
        END,
        0,
        0,
    ),
    (
        "\nFUNCTION FC 1 : INT VAR_IN_OUT\n",
        PARAMETER,
        60,
        END,
        2,
        52,
    ),
    ("\nFUNCTION FC 1 : INT VAR_TEMP\n", PARAMETER, 61, END, 0, 0),
];

static DATA_BLOCKS: [Repeats; 3] = [
    ("", DATA_BLOCK, 256, "", 0, 0),
    ("", DATA_BLOCK, 257, "", 257, 53),
    ("", DATA_BLOCK, 258, "", 257, 53),
];

// 128 blocks of 16,384 bytes, and 256 of 8,192.
static DATA_BYTES: [Repeats; 7] = [
    (LARGE, OF_UDT_1, 128, "", 0, 0),
    (LARGE, OF_UDT_1, 129, "", 130, 54),
    (LARGE, OF_UDT_1, 130, "", 130, 54),
    (HALF, OF_UDT_1, 256, "", 0, 0),
    // The 257th breaks both rules.
    (HALF, OF_UDT_1, 257, "", 258, 53),
    (MORE, OF_UDT_1, 255, "", 0, 0),
    (MORE, OF_UDT_1, 256, "", 257, 54),
];

// Empty statements don't count.
static STATEMENTS: [Repeats; 2] = [
    (
        "\nFUNCTION FC 1 : VOID BEGIN\n;;;",
        STATEMENT,
        65_534,
        ";\nEND_FUNCTION",
        0,
        0,
    ),
    (
        "\nFUNCTION FC 1 : VOID BEGIN\n;;;",
        STATEMENT,
        65_535,
        ";\nEND_FUNCTION",
        2,
        55,
    ),
];

/// Texts without an end of line, each of which breaks one rule.
static LINES: [Repeats; 5] = [
    (
        "TYPE UDT 1 STRUCT ",
        Piece::Alike {
            text: "a : ARRAY [1 .. 16385] OF BYTE; ",
        },
        1,
        "END_STRUCT END_TYPE ",
        1,
        51,
    ),
    (
        "FUNCTION FC 1 : VOID VAR_INPUT ",
        Piece::Numbered {
            before: "p",
            behind: " : BOOL; ",
        },
        61,
        "END_VAR BEGIN END_FUNCTION ",
        1,
        52,
    ),
    (
        "",
        Piece::Numbered {
            before: "DATA_BLOCK DB ",
            behind: " STRUCT a : BOOL; END_STRUCT BEGIN END_DATA_BLOCK ",
        },
        257,
        "",
        1,
        53,
    ),
    (
        "FUNCTION FC 2 : VOID BEGIN ",
        STATEMENT,
        65_535,
        " END_FUNCTION ",
        1,
        55,
    ),
    (
        "FUNCTION FC 3 : VOID VAR_TEMP a : ",
        Piece::Alike {
            text: "ARRAY [1 .. 1] OF ",
        },
        9,
        "INT; END_VAR BEGIN END_FUNCTION ",
        1,
        56,
    ),
];

/// Adds a piece with its number.
fn add(source: &mut String, piece: Piece, n: u32) -> Result<(), AllocError> {
    match piece {
        Piece::Alike { text } => source.push_str(text),
        Piece::Numbered { before, behind } => write!(source, "{before}{n}{behind}"),
    }
}

/// Adds the source of a row.
fn add_row(source: &mut String, row: &Repeats) -> Result<(), AllocError> {
    let (head, piece, count, tail, ..) = row;
    source.push_str(head)?;
    for n in 1..=*count {
        add(source, *piece, n)?;
    }
    source.push_str(tail)
}

fn add_rows(source: &mut String, rows: &[&Repeats]) -> Result<(), AllocError> {
    for row in rows {
        add_row(source, row)?;
    }
    Ok(())
}

/// What the check finds of the sources of rows, one behind the other.
fn check_result_of(alloc: Global, rows: &[&Repeats]) -> Result<(u32, u16), AllocError> {
    let mut source = String::new(alloc);
    add_rows(&mut source, rows)?;
    Ok(check_result(alloc, source.as_bytes()))
}

fn all_agree(rt: &impl Abort, alloc: Global, rows: &[Repeats]) -> Result<(), Fail> {
    for row in rows {
        let found = check_result_of(alloc, &[row])?;
        same(rt, (row.0, row.2), found, (row.4, row.5));
    }
    Ok(())
}

#[test]
fn a_block_has_60_parameters(rt: HostRuntime) -> Result<(), Fail> {
    all_agree(&rt, rt.alloc(), &PARAMETERS)
}

#[test]
fn a_source_has_256_data_blocks(rt: HostRuntime) -> Result<(), Fail> {
    all_agree(&rt, rt.alloc(), &DATA_BLOCKS)
}

#[test]
fn data_blocks_have_2097152_bytes(rt: HostRuntime) -> Result<(), Fail> {
    all_agree(&rt, rt.alloc(), &DATA_BYTES)
}

#[test]
fn a_block_has_65534_statements(rt: HostRuntime) -> Result<(), Fail> {
    all_agree(&rt, rt.alloc(), &STATEMENTS)
}

#[test]
fn lines_that_break_one_rule(rt: HostRuntime) -> Result<(), Fail> {
    all_agree(&rt, rt.alloc(), &LINES)
}

// Behind a text that breaks a greater rule, on one line, the lesser rule is named.
#[test]
fn the_least_rule_of_a_line(rt: HostRuntime) -> Result<(), Fail> {
    let alloc = rt.alloc();
    for at in 1..LINES.len() {
        let (lesser, greater) = (&LINES[at - 1], &LINES[at]);
        let found = check_result_of(alloc, &[greater, lesser])?;
        same(&rt, lesser.5, found, (1, lesser.5));
    }
    Ok(())
}
