ghost use Rattle.std.specs.Prelude.{◌≡◌, ◌++◌, replicate, OnOk};
ghost use Rattle.stl_lexer.specs.Bytes.{newline};
ghost use Rattle.stl_print.specs.Gaps.{gap_text, clause_gap, line_behind};

use plc_base::NoMemory;

/// What stands before a token.
#[derive(Clone, Copy)]
pub enum Gap {
    /// Nothing: the token stands directly behind the one before it.
    Nothing,
    /// One blank.
    Blank,
    /// So many ends of lines.
    LineEnds { count: u32 },
}

fn append_line_ends(count: u32, out: &mut Vec<u8>) -> Result<(), NoMemory>
    ensures { OnOk result (out.new.items ≡ out.old.items ++ replicate count newline) }
{
    for _ in 0..count {
        out.push(b'\n')?;
    }
    Ok(())
}

/// Appends a gap.
pub(crate) fn append_gap(gap: Gap, out: &mut Vec<u8>) -> Result<(), NoMemory>
    ensures { OnOk result (out.new.items ≡ out.old.items ++ gap_text gap) }
{
    match gap {
        Gap::Nothing => Ok(()),
        Gap::Blank => out.extend_from_slice(b" "),
        Gap::LineEnds { count } => append_line_ends(count, out),
    }
}

/// The gap before a clause that is to stand on `line`, where the text has reached a line, or 0
/// where nothing is printed yet.
#[tactic(auto, unfolding(crate::specs::Gaps::clause_gap))]
pub(crate) fn clause_gap(reached: u32, line: u32) -> Gap
    ensures { result ≡ clause_gap reached line }
{
    if reached == 0 {
        Gap::LineEnds {
            count: line.saturating_sub(1),
        }
    } else if reached < line {
        Gap::LineEnds {
            count: line - reached,
        }
    } else {
        Gap::Blank
    }
}

/// The line that the text has reached behind a clause that is to stand on `line`.
#[tactic(auto, unfolding(crate::specs::Gaps::line_behind))]
pub(crate) fn line_behind(reached: u32, line: u32) -> u32
    ensures { result ≡ line_behind reached line }
{
    reached.max(line).max(1)
}
