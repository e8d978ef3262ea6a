ghost use Rattle.std.specs.Prelude.{◌≤◌, length, IfSome};
ghost use Rattle.stl_lexer.specs.Forms.{is_local_name, is_number, is_word};
ghost use Rattle.stl_lexer.specs.Longest.{FindsLongest};

use crate::bytes::{digit_run, is_word_start, word_run};

/// The length of the longest word at the front of the text.
pub(crate) fn longest_word(text: &[u8]) -> Option<usize>
    ensures longest { FindsLongest (λ s after. is_word s) text.now result }
    ensures within { IfSome result (λ n. n ≤ length text.now) }
{
    match text {
        [first, rest @ ..] if is_word_start(*first) => Some(word_run(rest) + 1),
        _ => None,
    }
}

/// The length of the longest run of decimal digits at the front of the text.
pub(crate) fn longest_number(text: &[u8]) -> Option<usize>
    ensures { FindsLongest (λ s after. is_number s) text.now result }
{
    match text {
        [first, rest @ ..] if first.is_ascii_digit() => Some(digit_run(rest) + 1),
        _ => None,
    }
}

/// The length of the longest local name at the front of the text.
pub(crate) fn longest_local(text: &[u8]) -> Option<usize>
    ensures { FindsLongest (λ s after. is_local_name s) text.now result }
{
    match text {
        [b'#', rest @ ..] => match longest_word(rest) {
            Some(length) => Some(length + 1),
            None => None,
        },
        _ => None,
    }
}
