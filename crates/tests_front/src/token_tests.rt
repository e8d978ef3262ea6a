use crate::compare::same;
use plc_base::{Refusal, SourceFault};
use std::alloc::Global;
use std::process::Abort;
use std::test::Fail;
use stl_lexer::TokenKind::{
    Attribute, Based, Characters, Local, Mark, Number, NumberLiteral, Quoted, SignWord,
    TimeLiteral, Title, Word,
};
use stl_lexer::{
    SOURCE_LIMIT, TokenKind, Tokens, behind_prefix, first_letter, law_of_time_literals,
    law_of_tokens, lex, mark_text, milliseconds_within,
};

/// The kind of a token, its text and its line.
type TokenRow = (TokenKind, &'static [u8], u32);

struct Cut {
    source: &'static [u8],
    tokens: &'static [TokenRow],
}

// Cut by hand after the table of tokens in docs/LANGUAGE.md.
static CUTS: [Cut; 12] = [
    Cut {
        source: b" \t\r\n// only a comment",
        tokens: &[],
    },
    Cut {
        source: b"l1:A DB1.x;",
        tokens: &[
            (Word, b"l1", 1),
            (Mark, b":", 1),
            (Word, b"A", 1),
            (Word, b"DB1", 1),
            (Mark, b".", 1),
            (Word, b"x", 1),
            (Mark, b";", 1),
        ],
    },
    Cut {
        source: b"x:=-32768\n[0..65535]",
        tokens: &[
            (Word, b"x", 1),
            (Mark, b":=", 1),
            (Mark, b"-", 1),
            (Number, b"32768", 1),
            (Mark, b"[", 2),
            (Number, b"0", 2),
            (Mark, b"..", 2),
            (Number, b"65535", 2),
            (Mark, b"]", 2),
        ],
    },
    Cut {
        source: b"\"M\xc3\xb6 1\"#_in A#a 'a\x80\"' '1234'",
        tokens: &[
            (Quoted, b"\"M\xc3\xb6 1\"", 1),
            (Local, b"#_in", 1),
            (Word, b"A", 1),
            (Local, b"#a", 1),
            (Characters, b"'a\x80\"'", 1),
            (Characters, b"'1234'", 1),
        ],
    },
    Cut {
        source: b"W#16#1_F byte#16#aB DW#16#0000_FFFF 2#1_0",
        tokens: &[
            (Based, b"W#16#1_F", 1),
            (Based, b"byte#16#aB", 1),
            (Based, b"DW#16#0000_FFFF", 1),
            (Based, b"2#1_0", 1),
        ],
    },
    Cut {
        source: b"L#-2147483648 l#+0000000002147483647 C#0999",
        tokens: &[
            (NumberLiteral, b"L#-2147483648", 1),
            (NumberLiteral, b"l#+0000000002147483647", 1),
            (NumberLiteral, b"C#0999", 1),
        ],
    },
    Cut {
        source: b"T#24D20H31M23S647MS TIME#-24D_20H_31M_23S_648MS s5t#2h46m30s S5TIME#99MS",
        tokens: &[
            (TimeLiteral, b"T#24D20H31M23S647MS", 1),
            (TimeLiteral, b"TIME#-24D_20H_31M_23S_648MS", 1),
            (TimeLiteral, b"s5t#2h46m30s", 1),
            (TimeLiteral, b"S5TIME#99MS", 1),
        ],
    },
    Cut {
        source: b"+I -d==0>=i<>D +AR1 *I /D",
        tokens: &[
            (SignWord, b"+I", 1),
            (SignWord, b"-d", 1),
            (SignWord, b"==0", 1),
            (SignWord, b">=i", 1),
            (SignWord, b"<>D", 1),
            (SignWord, b"+AR1", 1),
            (SignWord, b"*I", 1),
            (SignWord, b"/D", 1),
        ],
    },
    // A letter, a digit or `_` behind a sign word: then it is none.
    Cut {
        source: b"+Ia (P#B#(b p#,",
        tokens: &[
            (Mark, b"+", 1),
            (Word, b"Ia", 1),
            (Mark, b"(", 1),
            (Mark, b"P#", 1),
            (Mark, b"B#(", 1),
            (Word, b"b", 1),
            (Mark, b"p#", 1),
            (Mark, b",", 1),
        ],
    },
    Cut {
        source: b"{ a\n'\"\n }x // \xff\r\ny",
        tokens: &[
            (Attribute, b"{ a\n'\"\n }", 1),
            (Word, b"x", 3),
            (Word, b"y", 4),
        ],
    },
    Cut {
        source: b"TITLES #TITLE title = x // y\r\n TITLE",
        tokens: &[
            (Word, b"TITLES", 1),
            (Local, b"#TITLE", 1),
            (Title, b"title = x // y\r", 1),
            (Title, b"TITLE", 2),
        ],
    },
    Cut {
        source: b"T S5T_1",
        tokens: &[(Word, b"T", 1), (Word, b"S5T_1", 1)],
    },
];

/// The tokens of a source, or its refusal; a longer source than the limit is refused for want of memory.
fn tokens_of(alloc: Global, source: &[u8]) -> Result<Tokens, SourceFault> {
    if source.len() > SOURCE_LIMIT {
        return Err(SourceFault::NoMemory);
    }
    lex(alloc, source)
}

/// The kind of a token, its bytes by the list and by the source, and its line.
fn token_at<'a>(
    tokens: &'a Tokens,
    at: usize,
    source: &'a [u8],
) -> Option<(TokenKind, &'a [u8], &'a [u8], u32)> {
    if at >= tokens.list.len() {
        return None;
    }
    let token = tokens.token(at);
    Some((token.kind, tokens.text(at), token.text(source), token.line))
}

/// The source was cut into these tokens.
fn are_tokens(rt: &impl Abort, cut: &Tokens, source: &[u8], tokens: &[TokenRow]) {
    same(rt, source, cut.list.len(), tokens.len());
    for (i, (kind, text, line)) in tokens.iter().enumerate() {
        let want = Some((*kind, *text, *text, *line));
        same(rt, (i, source), token_at(cut, i, source), want);
    }
}

#[test]
fn cuts_sources(rt: HostRuntime) -> Result<(), Fail> {
    for Cut { source, tokens } in &CUTS {
        let cut = tokens_of(rt.alloc(), source)?;
        are_tokens(&rt, &cut, source, tokens);
    }
    law_of_tokens();
    law_of_time_literals();
    Ok(())
}

// The line and the rule of the first violation, by hand after docs/REFUSALS.md.
static REFUSALS: [(&[u8], u32, u16); 45] = [
    // rule 1: a byte begins no token
    (b"A\n$", 2, 1),
    (b"\"\"", 1, 1),
    (b"x #1", 1, 1),
    (b"\n\n\x80", 3, 1),
    (b"// \x01", 1, 1),
    (b"{ a\n\x7f }", 2, 1),
    (b"\"a\x01b\"", 1, 1),
    (b"TITLE\n>0a", 2, 1),
    (b"P#b#2", 1, 1),
    // rule 2: no end
    (b"\"abc\n\"", 1, 2),
    (b"A\n'x", 2, 2),
    (b"{ a\n\n", 1, 2),
    (b"\"", 1, 2),
    (b"'\x01\n'", 1, 2),
    // rule 3: wrong digits, parts or length
    (b"''", 1, 3),
    (b"A\n'abcde'", 2, 3),
    (b"'abcde\x01'", 1, 3),
    (b"W#16#", 1, 3),
    (b"W#16#12G", 1, 3),
    (b"W#16#1__2", 1, 3),
    (b"W#16#_1", 1, 3),
    (b"W#16#1_", 1, 3),
    (b"W#16#12345G", 1, 3),
    (b"2#12", 1, 3),
    (b"L#a", 1, 3),
    (b"L#1_0", 1, 3),
    (b"C#-1", 1, 3),
    (b"T#5", 1, 3),
    (b"T#S", 1, 3),
    (b"T#+5S", 1, 3),
    (b"T#1S2M", 1, 3),
    (b"T#1S_1S", 1, 3),
    (b"T#1D__2H", 1, 3),
    (b"T#1D_", 1, 3),
    (b"S5T#-1S", 1, 3),
    // rule 4: beyond the range
    (b"65536", 1, 4),
    (b"-\n32769", 2, 4),
    (b"W#16#12345", 1, 4),
    (b"B#16#001", 1, 4),
    (b"2#000000000000000000000000000000001", 1, 4),
    (b"L#2147483648", 1, 4),
    (b"C#1000", 1, 4),
    (b"T#24D20H31M23S648MS", 1, 4),
    (b"S5T#2H46M31S", 1, 4),
    // the first in the text decides
    (b"A 99999 'abcde' \"", 1, 4),
];

fn fault_of(alloc: Global, source: &[u8]) -> Option<SourceFault> {
    tokens_of(alloc, source).err()
}

#[test]
fn names_the_first_violation(rt: HostRuntime) {
    for (source, line, rule) in &REFUSALS {
        let refusal = Refusal {
            line: *line,
            rule: *rule,
        };
        let wanted = Some(SourceFault::Refused { refusal });
        same(&rt, *source, fault_of(rt.alloc(), source), wanted);
    }
}

// By hand after the table of tokens in docs/LANGUAGE.md.
static MARKS: [(stl_lexer::Mark, &[u8]); 4] = [
    (stl_lexer::Mark::Assign, b":="),
    (stl_lexer::Mark::Semicolon, b";"),
    (stl_lexer::Mark::Pointer, b"P#"),
    (stl_lexer::Mark::Bytes, b"B#("),
];

#[test]
fn writes_marks(rt: HostRuntime) {
    for (mark, want) in &MARKS {
        same(&rt, *mark, mark_text(*mark), *want);
    }
}

// The first letter of a literal, in lower case.
static FIRST_LETTERS: [(&[u8], u8); 3] = [(b"S5T#1S", b's'), (b"c#12", b'c'), (b"L#-5", b'l')];

// What stands behind the prefix of a literal.
static BEHIND_PREFIXES: [(&[u8], &[u8]); 3] = [
    (b"T#-1S", b"-1S"),
    (b"DW#16#1_F", b"1_F"),
    (b"S5TIME#2H", b"2H"),
];

// The most milliseconds, the parts of a time and how many milliseconds they are. By hand: 2 h 46 min
// 30 s are 7,200 + 2,760 + 30 = 9,990 s; a day and two hours are 93,600 s.
static TIMES: [(u32, &[u8], Option<u32>); 6] = [
    (9_990_000, b"2H46M30S", Some(9_990_000)),
    (9_989_999, b"2H46M30S", None),
    (2_147_483_647, b"1d_2H", Some(93_600_000)),
    (100_000, b"90S5MS", Some(90_005)),
    (100_000, b"5", None),
    (100_000, b"1S2M", None),
];

#[test]
fn reads_parts_of_literals(rt: HostRuntime) {
    for (token, letter) in &FIRST_LETTERS {
        same(&rt, *token, first_letter(token), *letter);
    }
    for (token, want) in &BEHIND_PREFIXES {
        same(&rt, *token, behind_prefix(token), *want);
    }
    for (greatest, parts, want) in &TIMES {
        let found = milliseconds_within(*greatest, parts);
        same(&rt, (*greatest, *parts), found, *want);
    }
}
