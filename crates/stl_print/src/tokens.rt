ghost use Rattle.std.specs.Prelude.{◌≡◌, ◌++◌, ◌∷◌, [], decimal, OnOk};
ghost use Rattle.stl_lexer.specs.Bytes.{double_quote, hash};
ghost use Rattle.stl_lexer.specs.Marks.{mark_text as text_of_mark};
ghost use Rattle.stl_print.specs.Gaps.{gap_text};
ghost use Rattle.stl_print.specs.Pieces.{signed_number_pieces, with_pieces};

use crate::gaps::{Gap, append_gap};
use itoa::Buffer;
use plc_base::NoMemory;
use stl_lexer::{Mark, mark_text};

/// Appends a token behind a gap, as all functions of this module do.
pub(crate) fn append_token(gap: Gap, text: &[u8], out: &mut Vec<u8>) -> Result<(), NoMemory>
    ensures { OnOk result (out.new.items ≡ (out.old.items ++ gap_text gap) ++ text.now) }
{
    append_gap(gap, out)?;
    out.extend_from_slice(text)
}

/// Appends a mark.
pub(crate) fn append_mark(gap: Gap, mark: Mark, out: &mut Vec<u8>) -> Result<(), NoMemory>
    ensures { OnOk result
        (out.new.items ≡ (out.old.items ++ gap_text gap) ++ (text_of_mark mark)) }
{
    append_token(gap, mark_text(mark), out)
}

/// Appends a token that is a prefix and what stands behind it.
#[tactic(auto, using(crate::proofs::PieceLemmas::parts_joined))]
pub(crate) fn append_prefixed(
    gap: Gap,
    prefix: &[u8],
    text: &[u8],
    out: &mut Vec<u8>,
) -> Result<(), NoMemory>
    ensures { OnOk result (out.new.items
        ≡ (out.old.items ++ gap_text gap) ++ (prefix.now ++ text.now)) }
{
    append_token(gap, prefix, out)?;
    out.extend_from_slice(text)
}

/// Appends a token that is a text between two others.
pub(crate) fn append_enclosed(
    gap: Gap,
    front: &[u8],
    text: &[u8],
    behind: &[u8],
    out: &mut Vec<u8>,
) -> Result<(), NoMemory>
    ensures { OnOk result (out.new.items
        ≡ (out.old.items ++ gap_text gap) ++ (front.now ++ (text.now ++ behind.now))) }
{
    append_prefixed(gap, front, text, out)?;
    out.extend_from_slice(behind)
}

/// Appends a number.
pub(crate) fn append_number(gap: Gap, number: u32, out: &mut Vec<u8>) -> Result<(), NoMemory>
    ensures { OnOk result (out.new.items ≡ (out.old.items ++ gap_text gap) ++ decimal number) }
{
    let mut buffer = Buffer::new();
    append_token(gap, buffer.format(number).as_bytes(), out)
}

/// Appends a number with its sign.
#[tactic(auto, using(crate::proofs::PieceLemmas::signed_piece))]
pub(crate) fn append_signed_number(gap: Gap, number: i32, out: &mut Vec<u8>) -> Result<(), NoMemory>
    ensures { OnOk result (out.new.items
        ≡ with_pieces out.old.items (signed_number_pieces gap number)) }
{
    let mut buffer = Buffer::new();
    append_token(gap, buffer.format(number).as_bytes(), out)
}

/// Appends a name in double quotes.
pub(crate) fn append_quoted(gap: Gap, name: &[u8], out: &mut Vec<u8>) -> Result<(), NoMemory>
    ensures { OnOk result (out.new.items
        ≡ (out.old.items ++ gap_text gap)
        ++ (double_quote ∷ (name.now ++ double_quote ∷ []))) }
{
    append_enclosed(gap, b"\"", name, b"\"", out)
}

/// Appends a name behind `#`.
pub(crate) fn append_local(gap: Gap, name: &[u8], out: &mut Vec<u8>) -> Result<(), NoMemory>
    ensures { OnOk result (out.new.items
        ≡ (out.old.items ++ gap_text gap) ++ (hash ∷ name.now)) }
{
    append_prefixed(gap, b"#", name, out)
}
