use crate::bodies::{bodies_translate, both_ways};
use std::test::Fail;
use stl_symbols::Language;

/// English statements with names that are German operand words.
static TO_GERMAN: [(&str, &str); 10] = [
    ("L E;", "L #E;"),
    ("A Z;", "U #Z;"),
    ("L aw;", "L #aw;"),
    ("T E.x;", "T #E.x;"),
    ("A( E;", "U( #E;"),
    ("= A;", "= #A;"),
    ("x: = A;", "x: = #A;"),
    (
        "CALL FC 1 (p := E, E := Z);",
        "CALL FC 1 (p := #E, E := #Z);",
    ),
    ("JU E;", "SPA E;"),
    ("L #E;", "L #E;"),
];

/// German statements with names that are English operand words.
static TO_ENGLISH: [(&str, &str); 7] = [
    ("L I;", "L #I;"),
    ("LOOP I;", "LOOP I;"),
    ("U Q.x;", "A #Q.x;"),
    ("O c;", "O #c;"),
    ("SPA I;", "JU I;"),
    (
        "CALL FC 1 (p := I, I := C);",
        "CALL FC 1 (p := #I, I := #C);",
    ),
    (") Q; )MCR I;", ") #Q; )MCR #I;"),
];

/// Names that no language has as a word, and others with digits that stand for nothing.
static NAMES: [(&str, &str); 4] = [
    ("L br5; L BIE5;", "L br5; L BIE5;"),
    ("L EX; L I_1; L E2x;", "L EX; L I_1; L E2x;"),
    ("A speed; L U;", "U speed; L U;"),
    ("L \"I 0.0\"; L \"E 0.0\";", "L \"I 0.0\"; L \"E 0.0\";"),
];

/// German words in small letters.
static SMALL_GERMAN: [(&str, &str); 3] = [
    ("u e 0.0;", "A I 0.0;"),
    ("l ew2; x m 0.0;", "l IW2; x m 0.0;"),
    ("o bie; spb x1;", "o BR; JC x1;"),
];

/// Words in small letters: what is exchanged is written in capital letters, and what stays as it was.
static SMALL: [(&str, &str); 3] = [
    ("a i 0.0;", "U E 0.0;"),
    ("l iw2; x m 0.0;", "l EW2; x m 0.0;"),
    ("o br; jc x1;", "o BIE; SPB x1;"),
];

#[test]
fn names_are_marked_in_german(rt: HostRuntime) -> Result<(), Fail> {
    bodies_translate(&rt, rt.alloc(), Language::German, &TO_GERMAN)
}

#[test]
fn names_are_marked_in_english(rt: HostRuntime) -> Result<(), Fail> {
    bodies_translate(&rt, rt.alloc(), Language::English, &TO_ENGLISH)
}

#[test]
fn other_names_stay(rt: HostRuntime) -> Result<(), Fail> {
    both_ways(&rt, rt.alloc(), &NAMES)
}

#[test]
fn small_letters_are_read(rt: HostRuntime) -> Result<(), Fail> {
    bodies_translate(&rt, rt.alloc(), Language::German, &SMALL)?;
    bodies_translate(&rt, rt.alloc(), Language::English, &SMALL_GERMAN)
}
