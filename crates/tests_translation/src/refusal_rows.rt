use crate::bodies::translates;
use de_mnemonics::{law_of_translated_words, law_of_translations};
use std::test::Fail;
use stl_symbols::Language;

/// Sources that have no translation to English, and by what.
static TO_ENGLISH: [(&str, &str); 11] = [
    (
        "FUNCTION FC 1 : VOID BEGIN\nJU x;\nEND_FUNCTION",
        "line 2 rule 17",
    ),
    (
        "FUNCTION FC 1 : VOID BEGIN\nA E 0.0;\nEND_FUNCTION",
        "line 2 rule 17",
    ),
    (
        "FUNCTION FC 1 : VOID BEGIN\nU\nI\n0.0;\nEND_FUNCTION",
        "line 3 rule 17",
    ),
    (
        "FUNCTION FC 1 : VOID BEGIN\nL IW2;\nEND_FUNCTION",
        "line 2 rule 17",
    ),
    (
        "FUNCTION FC 1 : VOID BEGIN\nLAR1 P#Q 0.0;\nEND_FUNCTION",
        "line 2 rule 17",
    ),
    (
        "FUNCTION FC 1 : VOID BEGIN\nU BR;\nEND_FUNCTION",
        "line 2 rule 17",
    ),
    (
        "FUNCTION FC 1 : VOID BEGIN\nU\tE 0.0;\nSP T 1; SD T 2;\nEND_FUNCTION",
        "line 3 rule 17",
    ),
    // the first in the text, and rules of tokens before it
    (
        "FUNCTION FC 1 : VOID BEGIN\nCU Z 1;\nA E 0.0;\nEND_FUNCTION",
        "line 2 rule 17",
    ),
    (
        "FUNCTION FC 1 : VOID BEGIN\nCU Z 1;\nL 65536;\nEND_FUNCTION",
        "line 3 rule 4",
    ),
    (
        "FUNCTION FC 1 : VOID BEGIN\nU E 0.0 %\n;\nEND_FUNCTION",
        "line 2 rule 1",
    ),
    (
        "FUNCTION FC 1 : VOID BEGIN\nU \"a\n;\nEND_FUNCTION",
        "line 2 rule 2",
    ),
];

/// Sources that have no translation to German, and by what.
static TO_GERMAN: [(&str, &str); 9] = [
    (
        "FUNCTION FC 1 : VOID BEGIN\nLAR1 P#E 1.0;\nEND_FUNCTION",
        "line 2 rule 17",
    ),
    (
        "FUNCTION FC 1 : VOID BEGIN\nSPA x;\nEND_FUNCTION",
        "line 2 rule 17",
    ),
    (
        "FUNCTION FC 1 : VOID BEGIN\nx: U I 0.0;\nEND_FUNCTION",
        "line 2 rule 17",
    ),
    (
        "FUNCTION FC 1 : VOID BEGIN\nA E 0.0;\nEND_FUNCTION",
        "line 2 rule 17",
    ),
    (
        "FUNCTION FC 1 : VOID BEGIN\nL E5;\nEND_FUNCTION",
        "line 2 rule 17",
    ),
    (
        "FUNCTION FC 1 : VOID BEGIN\nL E[1];\nEND_FUNCTION",
        "line 2 rule 17",
    ),
    (
        "FUNCTION FC 1 : VOID BEGIN\nA BIE;\nEND_FUNCTION",
        "line 2 rule 17",
    ),
    (
        "FUNCTION FC 1 : VOID BEGIN\nL 'abcde';\nU E 0.0;\nEND_FUNCTION",
        "line 2 rule 3",
    ),
    (
        "FUNCTION FC 1 : VOID BEGIN\nCALL FC 2 (p :=\nEW 2);\nEND_FUNCTION",
        "line 3 rule 17",
    ),
];

#[test]
fn english_words_are_refused(rt: HostRuntime) -> Result<(), Fail> {
    for row in &TO_ENGLISH {
        translates(&rt, rt.alloc(), Language::English, row.0, row.1)?;
    }
    Ok(())
}

#[test]
fn german_words_are_refused(rt: HostRuntime) -> Result<(), Fail> {
    for row in &TO_GERMAN {
        translates(&rt, rt.alloc(), Language::German, row.0, row.1)?;
    }
    Ok(())
}

#[test]
fn laws_are_called() {
    law_of_translations();
    law_of_translated_words();
}
