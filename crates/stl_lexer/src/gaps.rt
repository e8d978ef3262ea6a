ghost use Rattle.std.specs.Prelude.{◌≡◌, ◌≤◌, ℕ, true, List, length, drop, sum_by, take};
ghost use Rattle.std.specs.List.{prefix_len};
ghost use Rattle.stl_lexer.specs.declared.gaps.GapPart.TheVariants.{Blanks};
ghost use Rattle.stl_lexer.specs.Forms.{has_form};
ghost use Rattle.stl_lexer.specs.Gap.{
  ContinuesGap,
  after_gap,
  is_inline_separator,
  is_comment_byte,
  line_at,
  newlines_of,
};
ghost use Rattle.stl_lexer.specs.Limits.{source_limit};

use crate::bytes::{behind, is_separator, is_source_byte, opens_comment};
use crate::kinds::{TokenKind, is_plain};

/// A place in a source: how many bytes stand before it, and its line.
#[derive(Clone, Copy, Debug, PartialEq, Eq)]
pub(crate) struct Position {
    pub(crate) offset: usize,
    pub(crate) line: u32,
}

/// A part of what stands between tokens.
#[derive(Clone, Copy, Debug, PartialEq, Eq)]
pub(crate) enum GapPart {
    /// Separators.
    Blanks,
    /// A comment, up to its line's end.
    Comment,
}

/// 1 for the byte that ends a line, else 0.
fn newline(b: u8) -> u32
    ensures { result ≡ newlines_of b }
{
    if b == b'\n' { 1 } else { 0 }
}

/// How many lines end in a text.
pub(crate) fn newlines(text: &[u8]) -> u32
    requires { length text.now ≤ source_limit }
    ensures { result ≡ sum_by newlines_of text.now }
{
    text.iter().map(|b| newline(*b)).sum()
}

/// How many lines end in a token.
pub(crate) fn token_lines(kind: TokenKind, token: &[u8]) -> u32
    requires limit { length token.now ≤ source_limit }
    requires form { (after : List ℕ) × (has_form kind token.now after ≡ true) }
    ensures { result ≡ sum_by newlines_of token.now }
{
    if is_plain(kind) {
        return 0;
    }
    newlines(token)
}

/// The part of the gap that goes on behind the first byte, or None where the gap ends before it.
#[tactic(auto, unfolding(crate::specs::Bytes::is_separator))]
fn gap_byte(part: GapPart, text: &[u8]) -> Option<GapPart>
    ensures { ContinuesGap part text.now result }
{
    match (part, text) {
        (_, []) => None,
        (_, [b'\n', ..]) => Some(GapPart::Blanks),
        (GapPart::Comment, [first, ..]) => {
            if is_source_byte(*first) {
                Some(GapPart::Comment)
            } else {
                None
            }
        }
        (GapPart::Blanks, [first, ..]) => {
            if is_separator(*first) {
                Some(GapPart::Blanks)
            } else if opens_comment(text) {
                Some(GapPart::Comment)
            } else {
                None
            }
        }
    }
}

/// Whether a byte separates tokens and ends no line.
#[tactic(auto, unfolding(crate::specs::Gap::is_inline_separator))]
fn is_inline_separator(b: u8) -> bool
    ensures { result ≡ is_inline_separator b }
{
    is_separator(b) && b != b'\n'
}

/// Whether a byte may stand in a comment and ends no line.
#[tactic(auto, unfolding(crate::specs::Gap::is_comment_byte))]
fn is_comment_byte(b: u8) -> bool
    ensures { result ≡ is_comment_byte b }
{
    is_source_byte(b) && b != b'\n'
}

/// How many bytes at the front are separators that end no line.
fn blank_run(text: &[u8]) -> usize
    ensures value { result ≡ prefix_len is_inline_separator text.now }
    ensures within { result ≤ length text.now }
{
    text.iter().take_while(|b| is_inline_separator(**b)).count()
}

/// How many bytes at the front may stand in a comment and end no line.
fn comment_run(text: &[u8]) -> usize
    ensures value { result ≡ prefix_len is_comment_byte text.now }
    ensures within { result ≤ length text.now }
{
    text.iter().take_while(|b| is_comment_byte(**b)).count()
}

/// How many bytes at the front go on a part of a gap and end no line.
fn part_run(part: GapPart, text: &[u8]) -> usize
    ensures rest { after_gap part text.now ≡ after_gap part (drop result text.now) }
    ensures line { sum_by newlines_of (take result text.now) ≡ 0 }
    ensures within { result ≤ length text.now }
{
    match part {
        GapPart::Blanks => blank_run(text),
        GapPart::Comment => comment_run(text),
    }
}

/// The position behind separators and comments.
#[tactic(auto, using(crate::proofs::LineLemmas::line_at_more, crate::proofs::LineLemmas::line_at_limit, crate::proofs::LineLemmas::drop_more))]
pub(crate) fn skip_gap(source: &[u8], from: Position) -> Position
    requires limit { length source.now ≤ source_limit }
    requires within { from.offset ≤ length source.now }
    requires line { from.line ≡ line_at source.now from.offset }
    ensures forward { from.offset ≤ result.offset }
    ensures within { result.offset ≤ length source.now }
    ensures rest { drop result.offset source.now
        ≡ after_gap Blanks (drop from.offset source.now) }
    ensures line { result.line ≡ line_at source.now result.offset }
{
    let mut at = from.offset;
    let mut line = from.line;
    let mut part = GapPart::Blanks;
    while let Some(next) = gap_byte(part, behind(source, at)) {
        line += newline(source[at]);
        part = next;
        at += 1 + part_run(next, behind(source, at + 1));
    }
    Position { offset: at, line }
}
