ghost use Rattle.std.specs.Prelude.{◌≡◌, ◌≤◌, ◌++◌, ◌∷◌, [], codes, decimal, OnOk};
ghost use Rattle.std.specs.Fmt.{signed_decimal};
ghost use Rattle.stl_lexer.specs.Bytes.{single_quote};
ghost use Rattle.stl_print.specs.Digits.{digits_in_base};
ghost use Rattle.stl_print.specs.Gaps.{gap_text};
ghost use Rattle.stl_print.specs.Literals.{further_bytes, listed_bytes, literal_pieces};
ghost use Rattle.stl_print.specs.Pieces.{with_pieces};

use crate::digits::{append_binary_digits, append_hex_digits};
use crate::gaps::Gap;
use crate::tokens::{
    append_enclosed, append_mark, append_number, append_prefixed, append_signed_number,
    append_token,
};
use crate::words::truth_word;
use itoa::Buffer;
use plc_base::NoMemory;
use stl_ast::Literal;
use stl_lexer::Mark;

fn append_hexadecimal(
    gap: Gap,
    prefix: &[u8],
    count: u32,
    value: u32,
    out: &mut Vec<u8>,
) -> Result<(), NoMemory>
    requires { count ≤ 8 }
    ensures { OnOk result (out.new.items
        ≡ (out.old.items ++ gap_text gap) ++ (prefix.now ++ digits_in_base 16 count value)) }
{
    append_token(gap, prefix, out)?;
    append_hex_digits(count, value, out)
}

fn append_binary(gap: Gap, value: u32, out: &mut Vec<u8>) -> Result<(), NoMemory>
    ensures { OnOk result (out.new.items
        ≡ (out.old.items ++ gap_text gap) ++ (codes "2#" ++ digits_in_base 2 32 value)) }
{
    append_token(gap, b"2#", out)?;
    append_binary_digits(32, value, out)
}

fn append_long(gap: Gap, value: i32, out: &mut Vec<u8>) -> Result<(), NoMemory>
    ensures { OnOk result (out.new.items
        ≡ (out.old.items ++ gap_text gap) ++ (codes "L#" ++ signed_decimal value)) }
{
    let mut buffer = Buffer::new();
    append_prefixed(gap, b"L#", buffer.format(value).as_bytes(), out)
}

fn append_count(gap: Gap, value: u16, out: &mut Vec<u8>) -> Result<(), NoMemory>
    ensures { OnOk result (out.new.items
        ≡ (out.old.items ++ gap_text gap) ++ (codes "C#" ++ decimal value)) }
{
    let mut buffer = Buffer::new();
    append_prefixed(gap, b"C#", buffer.format(value).as_bytes(), out)
}

fn append_time(gap: Gap, ms: i32, out: &mut Vec<u8>) -> Result<(), NoMemory>
    ensures { OnOk result (out.new.items
        ≡ (out.old.items ++ gap_text gap) ++ (codes "T#" ++ (signed_decimal ms ++ codes "MS"))) }
{
    let mut buffer = Buffer::new();
    append_enclosed(gap, b"T#", buffer.format(ms).as_bytes(), b"MS", out)
}

fn append_s5time(gap: Gap, ms: u32, out: &mut Vec<u8>) -> Result<(), NoMemory>
    ensures { OnOk result (out.new.items
        ≡ (out.old.items ++ gap_text gap) ++ (codes "S5T#" ++ (decimal ms ++ codes "MS"))) }
{
    let mut buffer = Buffer::new();
    append_enclosed(gap, b"S5T#", buffer.format(ms).as_bytes(), b"MS", out)
}

fn append_characters(gap: Gap, bytes: &[u8], out: &mut Vec<u8>) -> Result<(), NoMemory>
    ensures { OnOk result (out.new.items
        ≡ (out.old.items ++ gap_text gap)
        ++ (single_quote ∷ (bytes.now ++ single_quote ∷ []))) }
{
    append_enclosed(gap, b"'", bytes, b"'", out)
}

fn append_further_bytes(bytes: &[u8], out: &mut Vec<u8>) -> Result<(), NoMemory>
    ensures { OnOk result (out.new.items ≡ with_pieces out.old.items (further_bytes bytes.now)) }
{
    let mut left = bytes;
    while let [byte, rest @ ..] = left {
        append_mark(Gap::Nothing, Mark::Comma, out)?;
        append_number(Gap::Blank, u32::from(*byte), out)?;
        left = rest;
    }
    append_mark(Gap::Nothing, Mark::CloseParen, out)
}

fn append_bytes(bytes: &[u8], out: &mut Vec<u8>) -> Result<(), NoMemory>
    ensures { OnOk result (out.new.items ≡ with_pieces out.old.items (listed_bytes bytes.now)) }
{
    match bytes {
        [] => append_mark(Gap::Nothing, Mark::CloseParen, out),
        [first, rest @ ..] => {
            append_number(Gap::Nothing, u32::from(*first), out)?;
            append_further_bytes(rest, out)
        }
    }
}

/// Appends a constant behind a gap.
#[tactic(auto, unfolding(crate::specs::Literals::literal_pieces))]
pub(crate) fn append_literal(gap: Gap, literal: &Literal, out: &mut Vec<u8>) -> Result<(), NoMemory>
    ensures { OnOk result (out.new.items
        ≡ with_pieces out.old.items (literal_pieces gap literal.now)) }
{
    match literal {
        Literal::Truth { value } => append_token(gap, truth_word(*value), out),
        Literal::Number { value } => append_signed_number(gap, *value, out),
        Literal::Binary { value } => append_binary(gap, *value, out),
        Literal::Byte { value } => append_hexadecimal(gap, b"B#16#", 2, u32::from(*value), out),
        Literal::Word { value } => append_hexadecimal(gap, b"W#16#", 4, u32::from(*value), out),
        Literal::Dword { value } => append_hexadecimal(gap, b"DW#16#", 8, *value, out),
        Literal::Long { value } => append_long(gap, *value, out),
        Literal::Count { value } => append_count(gap, *value, out),
        Literal::Time { ms } => append_time(gap, *ms, out),
        Literal::S5time { ms } => append_s5time(gap, *ms, out),
        Literal::Characters { bytes } => append_characters(gap, bytes.as_slice(), out),
        Literal::Bytes { bytes } => {
            append_mark(gap, Mark::Bytes, out)?;
            append_bytes(bytes.as_slice(), out)
        }
    }
}
