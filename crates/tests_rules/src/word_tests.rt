use crate::calls::check_result;
use std::alloc::{AllocError, Global};
use std::process::Abort;
use std::test::Fail;

/// What stands on the first line of each source; the statement stands on the second.
static HEAD: &[u8] = b"TYPE UDT 1 STRUCT num : INT; END_STRUCT END_TYPE \
DATA_BLOCK DB 1 UDT 1 BEGIN END_DATA_BLOCK \
FUNCTION FC 1 : VOID VAR_INPUT num : INT; bit : BOOL; END_VAR VAR_IN_OUT wide : DWORD; END_VAR \
VAR_TEMP way : BOOL; own : UDT 1; when : DATE_AND_TIME; END_VAR BEGIN\n";

static SYMBOLS: &[u8] = b"Motor,M 0.0,BOOL,\nFun,FC 1,,";

/// Operands of every form, in groups with a blank between them. A jump takes a word that stands alone
/// for its label.
static OPERANDS: [&[u8]; 52] = [
    // none; a label, which names nothing elsewhere
    b"",
    b"a1",
    b" ",
    // places: bit, byte, word, double word; in a data block that the statement opens; a symbol;
    // peripheral inputs and outputs
    b"M 0.0",
    b"MB 0",
    b"MW 0",
    b"MD 0",
    b"DB1.DBX 0.0",
    b"DB1.DBW 0",
    b"\"Motor\"",
    b"PIB 0",
    b"PID 0",
    b"PQB 0",
    b"PQD 0",
    b" ",
    // pointers in memory and in address registers
    b"M [MD 4]",
    b"MW [MD 4]",
    b"[AR1, P#0.0]",
    b"D [AR2, P#0.0]",
    b"PIW [MD 4]",
    b" ",
    // inputs of the function: a bit, a word; an IN_OUT double word; a temporary bit; a word of a data
    // block; a structure; a DATE_AND_TIME
    b"#bit",
    b"#num",
    b"#wide",
    b"#way",
    b"DB1.num",
    b"#own",
    b"#when",
    b" ",
    // timers, counters, data blocks, by number and by a number in memory; a symbol of a block
    b"T 1",
    b"C 1",
    b"T [MW 4]",
    b"C [MW 4]",
    b"DB 1",
    b"DI [MW 4]",
    b"\"Fun\"",
    b" ",
    // a condition, and registers
    b"BR",
    b"STW",
    b"DBNO",
    b"AR2",
    b" ",
    // constants
    b"P#2.0",
    b"1",
    b"40",
    b"300",
    b"L#5",
    b"W#16#5",
    b"DW#16#5",
    b"'ab'",
    b"TRUE",
    b"B#(1, 2)",
];

/// Instruction words that take the same operands, with what stands before and behind each statement
/// on its line, and what they say to each of the operands: `.` right, `n` rule 20, the name; `w` rule
/// 24, the width; `f` rule 25, the form; `l` rule 26, the label; `i` rule 39, an input; `-` not checked
/// with the statements.
type Words = (
    &'static [&'static [u8]],
    &'static [u8],
    &'static [u8],
    &'static [u8],
);

static READING: [Words; 8] = [
    (
        &[b"A", b"AN", b"ON", b"X", b"XN"],
        b"",
        b"",
        b"fn .www.w.wwww .w.ww .ww.www ....fff .fff ffffffffff",
    ),
    (
        &[b"O"],
        b"",
        b"",
        b".n .www.w.wwww .w.ww .ww.www ....fff .fff ffffffffff",
    ),
    (
        &[b"L"],
        b"",
        b"",
        b"fn w...w.w..ff w.w.f w..w.ww ....fff f..f ........f.",
    ),
    (
        &[b"LC", b"FR"],
        b"",
        b"",
        b"fn fffffffffff fffff ffffffw ....fff ffff ffffffffff",
    ),
    (
        &[b"LAR1"],
        b"",
        b"",
        b".n www.wwww.wf fffff fffwwww fffffff fff. .fffffffff",
    ),
    (
        &[b"LAR2"],
        b"",
        b"",
        b".n www.wwww.wf fffff fffwwww fffffff ffff .fffffffff",
    ),
    (
        &[b"+AR1", b"+AR2"],
        b"",
        b"",
        b".n fffffffffff fffff ffffffw fffffff ffff .fffffffff",
    ),
    (
        &[b"OPN"],
        b"",
        b"",
        b"fn ffffff-ffff fffff ffffffw ffff..- ffff ffffffffff",
    ),
];

static WRITING: [Words; 8] = [
    (
        &[b"=", b"FP", b"FN"],
        b"",
        b"",
        b"fn .www.w.wwww .w.ww iww.www fffffff ffff ffffffffff",
    ),
    (
        &[b"S"],
        b"",
        b"",
        b"fn .www.w.wwww .w.ww iww.www f.f.fff ffff ffffffffff",
    ),
    (
        &[b"R"],
        b"",
        b"",
        b"fn .www.w.wwww .w.ww iww.www ....fff ffff ffffffffff",
    ),
    (
        &[b"T"],
        b"",
        b"",
        b"fn w...w.wff.. w.w.f wi.w.ww fffffff f.ff ffffffffff",
    ),
    (
        &[b"TAR1"],
        b"",
        b"",
        b".n www.wwwwfw. fffff fffwwww fffffff fff. ffffffffff",
    ),
    (
        &[b"TAR2"],
        b"",
        b"",
        b".n www.wwwwfw. fffff fffwwww fffffff ffff ffffffffff",
    ),
    (
        &[b"SP", b"SE", b"SD", b"SS", b"SF"],
        b"",
        b"",
        b"fn fffffffffff fffff ffffffw .f.ffff ffff ffffffffff",
    ),
    (
        &[b"CU", b"CD"],
        b"",
        b"",
        b"fn fffffffffff fffff ffffffw f.f.fff ffff ffffffffff",
    ),
];

static COUNTING: [Words; 6] = [
    (
        &[b"NOP"],
        b"",
        b"",
        b"fn fffffffffff fffff ffffffw fffffff ffff f.ffffffff",
    ),
    (
        &[b"BLD", b"INC", b"DEC"],
        b"",
        b"",
        b"fn fffffffffff fffff ffffffw fffffff ffff f..fffffff",
    ),
    (
        &[b"+"],
        b"",
        b"",
        b"fn fffffffffff fffff ffffffw fffffff ffff f....fffff",
    ),
    (
        &[
            b"SSI", b"SLW", b"SRW", b"SSD", b"SLD", b"SRD", b"RLD", b"RRD",
        ],
        b"",
        b"",
        b".n fffffffffff fffff ffffffw fffffff ffff f.ffffffff",
    ),
    (
        &[b"AW", b"OW", b"XOW"],
        b"",
        b"",
        b".n fffffffffff fffff ffffffw fffffff ffff f...f.f.ff",
    ),
    (
        &[b"AD", b"OD", b"XOD"],
        b"",
        b"",
        b".n fffffffffff fffff ffffffw fffffff ffff ffffff.fff",
    ),
];

static BARE: [Words; 1] = [(
    &[
        b"SET", b"CLR", b"NOT", b"SAVE", b"CAR", b"TAK", b"PUSH", b"POP", b"CAW", b"CAD", b"+I",
        b"-I", b"*I", b"/I", b"+D", b"-D", b"*D", b"/D", b"MOD", b"BE", b"BEC", b"BEU", b"CDB",
        b"MCRA", b"MCRD",
    ],
    b"",
    b"",
    b".n fffffffffff fffff ffffffw fffffff ffff ffffffffff",
)];

static COMPARING: [Words; 1] = [(
    &[
        b"==I", b"<>I", b">I", b"<I", b">=I", b"<=I", b"==D", b"<>D", b">D", b"<D", b">=D", b"<=D",
        b"BTI", b"ITB", b"BTD", b"DTB", b"ITD", b"INVI", b"INVD", b"NEGI", b"NEGD", b"RLDA",
        b"RRDA",
    ],
    b"",
    b"",
    b".n fffffffffff fffff ffffffw fffffff ffff ffffffffff",
)];

static BRACKETS: [Words; 4] = [
    (
        &[b"A(", b"AN(", b"O(", b"ON(", b"X(", b"XN("],
        b"",
        b" );",
        b".n fffffffffff fffff ffffffw fffffff ffff ffffffffff",
    ),
    (
        &[b")"],
        b"A(; ",
        b"",
        b".n fffffffffff fffff ffffffw fffffff ffff ffffffffff",
    ),
    (
        &[b"MCR("],
        b"",
        b" )MCR;",
        b".n fffffffffff fffff ffffffw fffffff ffff ffffffffff",
    ),
    (
        &[b")MCR"],
        b"MCR(; ",
        b"",
        b".n fffffffffff fffff ffffffw fffffff ffff ffffffffff",
    ),
];

static JUMPS: [Words; 1] = [(
    &[
        b"JU", b"JL", b"JC", b"JCN", b"JCB", b"JNB", b"JBI", b"JNBI", b"JO", b"JOS", b"JZ", b"JN",
        b"JP", b"JM", b"JPZ", b"JMZ", b"JUO", b"LOOP",
    ],
    b"",
    b" a1: SET;",
    b"f. fffffffffff fffff ffffffw fffffff llll fffffffflf",
)];

fn rule_of(letter: u8) -> u16 {
    match letter {
        b'n' => 20,
        b'w' => 24,
        b'f' => 25,
        b'l' => 26,
        b'i' => 39,
        _ => 0,
    }
}

/// A source of one statement, with what stands before and behind it.
fn source_of(
    alloc: Global,
    before: &[u8],
    word: &[u8],
    operand: &[u8],
    behind: &[u8],
) -> Result<Vec<u8>, AllocError> {
    let mut source = Vec::new(alloc);
    for piece in [
        HEAD,
        before,
        word,
        b" ",
        operand,
        b";",
        behind,
        b"\nEND_FUNCTION",
    ] {
        source.extend_from_slice(piece)?;
    }
    Ok(source)
}

/// A word says to each operand what its row says.
fn word_agrees(
    rt: &impl Abort,
    alloc: Global,
    word: &[u8],
    before: &[u8],
    behind: &[u8],
    letters: &[u8],
) -> Result<(), Fail> {
    assert_eq!(rt; letters.len(), OPERANDS.len());
    for (operand, letter) in OPERANDS.iter().zip(letters.iter()) {
        if *letter == b' ' {
            continue;
        }
        let source = source_of(alloc, before, word, operand, behind)?;
        let rule = rule_of(*letter);
        let line = if rule == 0 { 0 } else { 2 };
        let found = check_result(alloc, SYMBOLS, source.as_slice());
        assert_eq!(rt; found, (line, rule), "{word:?} {operand:?}");
    }
    Ok(())
}

fn words_agree(rt: &impl Abort, alloc: Global, rows: &[Words]) -> Result<(), Fail> {
    for (words, before, behind, letters) in rows {
        for word in *words {
            word_agrees(rt, alloc, word, before, behind, letters)?;
        }
    }
    Ok(())
}

#[test]
fn words_that_read(rt: HostRuntime) -> Result<(), Fail> {
    words_agree(&rt, rt.alloc(), &READING)
}

#[test]
fn words_that_write(rt: HostRuntime) -> Result<(), Fail> {
    words_agree(&rt, rt.alloc(), &WRITING)
}

#[test]
fn words_with_a_constant(rt: HostRuntime) -> Result<(), Fail> {
    words_agree(&rt, rt.alloc(), &COUNTING)
}

#[test]
fn words_that_stand_alone(rt: HostRuntime) -> Result<(), Fail> {
    words_agree(&rt, rt.alloc(), &BARE)
}

#[test]
fn words_that_compare_and_convert(rt: HostRuntime) -> Result<(), Fail> {
    words_agree(&rt, rt.alloc(), &COMPARING)
}

#[test]
fn brackets_and_zones(rt: HostRuntime) -> Result<(), Fail> {
    words_agree(&rt, rt.alloc(), &BRACKETS)
}

#[test]
fn jumps(rt: HostRuntime) -> Result<(), Fail> {
    words_agree(&rt, rt.alloc(), &JUMPS)
}
