ghost use Rattle.std.specs.Prelude.{◌≡◌, ◌+◌, ◌*◌, ◌≤◌, ◌++◌, length, codes, decimal, OnOk, IfOk};
ghost use Rattle.std.specs.List.{flat_map};
ghost use Rattle.generator.specs.Draws.{random_draws as draws_of};
ghost use Rattle.generator.specs.Source.{source_end, source_head, source_text, statement_line, drawn_memory_word};

use crate::draws::Draws;
use monitor::Line;
use plc_base::NoMemory;
use std::alloc::Global;

/// How many draws the source takes, one for each line of organization block 1.
pub(crate) const SOURCE_DRAWS: u32 = 2_000;

/// How a source begins.
#[tactic(auto, unfolding(crate::specs::Source::source_head))]
fn source_head() -> &'static [u8]
    ensures value { result.now ≡ source_head }
    ensures short { length result.now ≤ 100 }
{
    b"ORGANIZATION_BLOCK OB 1\nBEGIN\n"
}

/// How a source ends: organization block 1 does, and the whole of organization block 35.
#[tactic(auto, unfolding(crate::specs::Source::source_end))]
fn source_end() -> &'static [u8]
    ensures value { result.now ≡ source_end }
    ensures short { length result.now ≤ 200 }
{
    b"END_ORGANIZATION_BLOCK
ORGANIZATION_BLOCK OB 35
BEGIN
L MW 0;
+ 1;
T MW 0;
END_ORGANIZATION_BLOCK
"
}

/// A statement with no operand, by its line.
fn plain_line(text: &[u8]) -> Line
    requires { length text.now ≤ 5 }
    ensures value { result ≡ text.now }
    ensures short { length result ≤ 100 }
{
    let mut line = Line::new();
    line.add(text);
    line
}

/// The line of a statement with a number behind its operation.
fn numbered_line(operation: &[u8], number: u32) -> Line
    requires { length operation.now ≤ 5 }
    ensures value { result ≡ operation.now ++ decimal number ++ codes ";\n" }
    ensures short { length result ≤ 100 }
{
    let mut line = Line::new();
    line.add(operation);
    line.add_number(u64::from(number));
    line.add(b";\n");
    line
}

/// The line that copies bit 1 of a byte of bit memory to its bit 2.
fn bits_line(byte: u32) -> Line
    ensures value { result
        ≡ codes "A M " ++ decimal byte ++ codes ".1; = M " ++ decimal byte ++ codes ".2;\n" }
    ensures short { length result ≤ 100 }
{
    let mut line = Line::new();
    line.add(b"A M ");
    line.add_number(u64::from(byte));
    line.add(b".1; = M ");
    line.add_number(u64::from(byte));
    line.add(b".2;\n");
    line
}

/// The word of bit memory that a draw's statement is about, by its first byte.
fn drawn_memory_word(draw: u32) -> u32
    ensures { result ≡ drawn_memory_word draw }
{
    2 * (draw / 8 % 100)
}

/// The line of statements that a draw gives.
#[tactic(auto, unfolding(crate::specs::Source::statement_line))]
fn statement_line(draw: u32) -> Line
    ensures value { result ≡ statement_line draw }
    ensures short { length result ≤ 100 }
{
    match draw % 8 {
        0 => numbered_line(b"L MW ", drawn_memory_word(draw)),
        1 => numbered_line(b"T MW ", drawn_memory_word(draw)),
        2 => plain_line(b"+I;\n"),
        3 => plain_line(b"-I;\n"),
        4 => numbered_line(b"L ", draw),
        5 => plain_line(b"*I;\n"),
        6 => plain_line(b"XOW;\n"),
        _ => bits_line(drawn_memory_word(draw)),
    }
}

/// Appends the lines of so many draws.
#[tactic(auto, using(crate::proofs::DrawLemmas::pieces_all, crate::proofs::DrawLemmas::pieces_more))]
fn append_lines(draws: &mut Draws, count: u32, out: &mut Vec<u8>) -> Result<(), NoMemory>
    ensures text { OnOk result (out.new.items
        ≡ out.old.items ++ flat_map statement_line (draws_of count draws.old)) }
    ensures short { OnOk result (length out.new.items ≤ length out.old.items + 100 * count) }
{
    for _ in 0..count {
        out.extend_from_slice(statement_line(draws.draw()).as_slice())?;
    }
    Ok(())
}

/// The source that a number gives. The command `gen` takes 1 to 10,000; the rule is the same for
/// all.
///
/// Organization block 1 has 2,000 lines, each of one draw: an instruction on words of bit memory or
/// the accumulators, or one that copies a bit. Organization block 35 adds 1 to the first word of
/// bit memory.
///
/// # Errors
///
/// `NoMemory` for want of memory.
#[tactic(auto, unfolding(crate::specs::Source::source_text))]
pub fn source_text(alloc: Global, number: u32) -> Result<Vec<u8>, NoMemory>
    ensures text { IfOk result (λ text. text.items ≡ source_text number) }
    ensures short { IfOk result (λ text. length text.items ≤ 1048576) }
{
    let mut draws = Draws::new(number);
    let mut text = Vec::from_slice(alloc, source_head())?;
    append_lines(&mut draws, SOURCE_DRAWS, &mut text)?;
    text.extend_from_slice(source_end())?;
    Ok(text)
}
