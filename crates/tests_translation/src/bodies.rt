use crate::compare::same;
use de_mnemonics::{to_english, to_german};
use plc_base::SourceFault;
use std::alloc::{AllocError, Global};
use std::process::Abort;
use std::test::Fail;
use stl_lexer::SOURCE_LIMIT;
use stl_symbols::Language;

/// The translation of a source, or what it is refused by, as a text.
fn translated(alloc: Global, language: Language, source: &[u8]) -> Result<Vec<u8>, AllocError> {
    if source.len() > SOURCE_LIMIT {
        return Err(AllocError);
    }
    let answer = match language {
        Language::English => to_english(alloc, source),
        Language::German => to_german(alloc, source),
    };
    match answer {
        Ok(text) => Ok(text),
        Err(SourceFault::Refused { refusal }) => {
            let text = format!(in alloc; "line {} rule {}", refusal.line, refusal.rule)?;
            Vec::from_slice(alloc, text.as_bytes())
        }
        Err(SourceFault::NoMemory) => Err(AllocError),
    }
}

/// Compares the translation of a source with the one worked out by hand.
pub(crate) fn translates(
    rt: &impl Abort,
    alloc: Global,
    language: Language,
    source: &str,
    want: &str,
) -> Result<(), Fail> {
    let got = translated(alloc, language, source.as_bytes())?;
    same(rt, source, got.as_slice() == want.as_bytes(), true);
    Ok(())
}

/// A statement as the second line of a body.
fn in_body(alloc: Global, statement: &str) -> Result<String, AllocError> {
    format!(in alloc; "ORGANIZATION_BLOCK OB 1 BEGIN\n{statement}\nEND_ORGANIZATION_BLOCK")
}

/// Compares the translation of each statement in a body with the one worked out by hand.
pub(crate) fn bodies_translate(
    rt: &impl Abort,
    alloc: Global,
    language: Language,
    rows: &[(&str, &str)],
) -> Result<(), Fail> {
    for row in rows {
        let source = in_body(alloc, row.0)?;
        let want = in_body(alloc, row.1)?;
        translates(rt, alloc, language, source.as_str(), want.as_str())?;
    }
    Ok(())
}

/// Statements are translated both ways: in each row first the English one, then the German one.
pub(crate) fn both_ways(rt: &impl Abort, alloc: Global, rows: &[(&str, &str)]) -> Result<(), Fail> {
    for row in rows {
        let english = in_body(alloc, row.0)?;
        let german = in_body(alloc, row.1)?;
        translates(
            rt,
            alloc,
            Language::German,
            english.as_str(),
            german.as_str(),
        )?;
        translates(
            rt,
            alloc,
            Language::English,
            german.as_str(),
            english.as_str(),
        )?;
    }
    Ok(())
}
