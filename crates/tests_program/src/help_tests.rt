//! What the program tells of itself.
use crate::calls::{list_of, only};
use crate::compare::same;
use plc_io::MemSink;
use s7_cli::{Question, question_in, write_answer};
use std::alloc::Global;
use std::process::Abort;
use std::test::Fail;

/// Words, and the question that they are.
type Row = (&'static [&'static str], Option<Question>);

// A question is the only word.
static QUESTIONS: [Row; 10] = [
    (&["--help"], Some(Question::Help)),
    (&["--version"], Some(Question::Version)),
    (&[], None),
    (&["help"], None),
    (&["-h"], Some(Question::Help)),
    (&["-V"], Some(Question::Version)),
    (&["-v"], None),
    (&["-h", "-h"], None),
    (&["--help", "go"], None),
    (&["go", "--version"], None),
];

fn are_questions(rt: &impl Abort, alloc: Global, rows: &[Row]) -> Result<(), Fail> {
    for (words, question) in rows {
        let list = list_of(alloc, *words)?;
        same(rt, *words, question_in(&list), *question);
    }
    Ok(())
}

#[test]
fn questions(rt: HostRuntime) -> Result<(), Fail> {
    are_questions(&rt, rt.alloc(), &QUESTIONS)
}

// The sink takes three bytes of each piece.
#[test]
fn the_version(rt: HostRuntime) {
    let mut out = MemSink::new(rt.alloc(), 3);
    let status = write_answer(&mut out, Question::Version).code;
    let answer = (status, out.taken.as_slice());
    same(&rt, "the version", answer, (0, b"s7 0.1.0\n".as_slice()));
}

// The second push fails.
#[test]
fn an_answer_that_fails(rt: HostRuntime) {
    let mut out = MemSink::new(rt.alloc(), 3);
    out.fail_pushes(only(2));
    let status = write_answer(&mut out, Question::Version).code;
    let answer = (status, out.taken.as_slice());
    same(&rt, "what is cut off", answer, (6, b"s7 ".as_slice()));
}

#[test]
fn the_help(rt: HostRuntime) {
    let mut out = MemSink::new(rt.alloc(), 1000);
    let status = write_answer(&mut out, Question::Help).code;
    let begins = out.taken.as_slice().starts_with(b"s7: a proved controller");
    same(&rt, "the help", (status, begins), (0, true));
}
