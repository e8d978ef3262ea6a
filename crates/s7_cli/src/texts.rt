ghost use Rattle.std.specs.Prelude.{◌≡◌, ◌≤◌, ◌+◌, ◌++◌, length};
ghost use Rattle.s7_cli.specs.Lines.{
  file_text,
  image_refused_text,
  line_of_failure,
  no_listing_text,
  read_fault_text,
  refusal_text,
  says_no_text,
  too_long_text,
  words_refused_text,
};

use crate::failures::{Failure, File};
use image_file::LoadFault;
use monitor::Line;
use plc_base::Refusal;

/// Appends the word for a file; a script's has the operator's number. It wants room for 47 bytes.
#[tactic(auto, unfolding(crate::specs::Lines::file_text))]
fn add_file(line: &mut Line, file: File)
    requires { length line.old + 47 ≤ 256 }
    ensures value { line.new ≡ line.old ++ file_text file }
    ensures len { length line.new ≤ length line.old + 47 }
{
    match file {
        File::Source => line.add(b"source"),
        File::Translation => line.add(b"result"),
        File::Symbols => line.add(b"symbols"),
        File::Image => line.add(b"image"),
        File::Listing => line.add(b"list"),
        File::History => line.add(b"history"),
        File::Stimuli => line.add(b"stimuli"),
        File::Vars => line.add(b"vars"),
        File::Script { number } => {
            line.add(b"script ");
            line.add_number(u64::from(number));
        }
        File::Certificate => line.add(b"certificate"),
    }
}

/// The line of a refused file: the line and the rule that it breaks.
#[tactic(auto, unfolding(crate::specs::Lines::refusal_text))]
fn refusal_line(file: File, refusal: Refusal) -> Line
    ensures { result ≡ refusal_text file refusal }
{
    let mut line = Line::new();
    add_file(&mut line, file);
    line.add(b" refused: line ");
    line.add_number(u64::from(refusal.line));
    line.add(b" rule ");
    line.add_number(u64::from(refusal.rule));
    line.add(b"\n");
    line
}

/// The line of a refused image: the offset of its least fault, and the fault's code.
#[tactic(auto, unfolding(crate::specs::Lines::image_refused_text))]
fn image_refused_line(fault: LoadFault) -> Line
    ensures { result ≡ image_refused_text fault }
{
    let mut line = Line::new();
    line.add(b"image refused: offset ");
    line.add_number(u64::from(fault.at));
    line.add(b" code ");
    line.add_number(u64::from(fault.code));
    line.add(b"\n");
    line
}

/// The line of a file that holds a byte past its limit.
#[tactic(auto, unfolding(crate::specs::Lines::too_long_text))]
fn too_long_line(file: File) -> Line
    ensures { result ≡ too_long_text file }
{
    let mut line = Line::new();
    line.add(b"too long: ");
    add_file(&mut line, file);
    line.add(b"\n");
    line
}

/// A line of a fixed text.
fn fixed_line(text: &[u8]) -> Line
    requires { length text.now ≤ 40 }
    ensures { result ≡ text.now }
{
    let mut line = Line::new();
    line.add(text);
    line
}

/// The line of a failure; none where a write failed or memory is wanting, and where the line of a
/// chain was written.
#[tactic(auto, unfolding(crate::specs::Lines::words_refused_text, crate::specs::Lines::read_fault_text, crate::specs::Lines::no_listing_text, crate::specs::Lines::says_no_text))]
pub fn failure_line(failure: Failure) -> Option<Line>
    ensures { result ≡ line_of_failure failure }
{
    match failure {
        Failure::WordsRefused => Some(fixed_line(b"words refused\n")),
        Failure::ReadFault => Some(fixed_line(b"read fault\n")),
        Failure::TooLong { file } => Some(too_long_line(file)),
        Failure::Refused { file, refusal } => Some(refusal_line(file, refusal)),
        Failure::ImageRefused { fault } => Some(image_refused_line(fault)),
        Failure::NoListing => Some(fixed_line(b"image has no listing\n")),
        Failure::SaysNo => Some(fixed_line(b"certificate says no\n")),
        Failure::TooDeep | Failure::WriteFault | Failure::NoMemory => None,
    }
}
