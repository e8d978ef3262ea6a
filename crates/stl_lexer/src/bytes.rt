ghost use Rattle.std.specs.Prelude.{◌≡◌, ◌≤◌, length, drop};
ghost use Rattle.std.specs.List.{prefix_len};
ghost use Rattle.std.specs.Char.{is_ascii_alphabetic, is_ascii_digit};
ghost use Rattle.std.specs.Str.{str_eq_ignore_ascii_case};
ghost use Rattle.stl_lexer.specs.Forms.{first_letter};
ghost use Rattle.stl_lexer.specs.Bytes.{
  is_source_byte,
  is_line_byte,
  is_separator,
  is_sign,
  is_word_byte,
  is_word_start,
  opens_comment,
};

/// Whether a word may begin with this byte: a letter or `_`.
#[tactic(auto, unfolding(crate::specs::Bytes::is_word_start))]
pub(crate) fn is_word_start(b: u8) -> bool
    ensures { result ≡ is_word_start b }
{
    b.is_ascii_alphabetic() || b == b'_'
}

/// Whether a word may go on with this byte: a letter, a digit or `_`.
#[tactic(auto, unfolding(crate::specs::Bytes::is_word_byte))]
pub(crate) fn is_word_byte(b: u8) -> bool
    ensures { result ≡ is_word_byte b }
{
    is_word_start(b) || b.is_ascii_digit()
}

/// Whether this byte separates tokens: blank, tab, 13 or 10.
#[tactic(auto, unfolding(crate::specs::Bytes::is_separator))]
pub(crate) fn is_separator(b: u8) -> bool
    ensures { result ≡ is_separator b }
{
    matches!(b, b' ' | b'\t' | b'\r' | b'\n')
}

/// Whether this byte is `+` or `-`.
#[tactic(auto, unfolding(crate::specs::Bytes::is_sign))]
pub(crate) fn is_sign(b: u8) -> bool
    ensures { result ≡ is_sign b }
{
    b == b'+' || b == b'-'
}

/// Whether a source may hold this byte.
#[tactic(auto, unfolding(crate::specs::Bytes::is_source_byte))]
pub(crate) fn is_source_byte(b: u8) -> bool
    ensures { result ≡ is_source_byte b }
{
    is_separator(b) || (b >= b' ' && b != 127)
}

/// The first byte of a text, in lower case, or 0 where there is none.
#[tactic(auto, unfolding(crate::specs::Forms::first_letter))]
pub fn first_letter(text: &[u8]) -> u8
    ensures { result ≡ first_letter text.now }
{
    match text {
        [first, ..] => first.to_ascii_lowercase(),
        [] => 0,
    }
}

/// Whether a comment begins here.
#[tactic(auto, unfolding(crate::specs::Bytes::opens_comment))]
pub(crate) fn opens_comment(text: &[u8]) -> bool
    ensures { result ≡ opens_comment text.now }
{
    matches!(text, [b'/', b'/', ..])
}

/// How many bytes at the front are letters, digits or `_`.
pub(crate) fn word_run(text: &[u8]) -> usize
    ensures value { result ≡ prefix_len is_word_byte text.now }
    ensures within { result ≤ length text.now }
{
    text.iter().take_while(|b| is_word_byte(**b)).count()
}

/// How many bytes at the front are decimal digits.
pub(crate) fn digit_run(text: &[u8]) -> usize
    ensures value { result ≡ prefix_len is_ascii_digit text.now }
    ensures within { result ≤ length text.now }
{
    text.iter().take_while(|b| b.is_ascii_digit()).count()
}

/// How many bytes at the front are letters.
pub(crate) fn letter_run(text: &[u8]) -> usize
    ensures value { result ≡ prefix_len is_ascii_alphabetic text.now }
    ensures within { result ≤ length text.now }
{
    text.iter().take_while(|b| b.is_ascii_alphabetic()).count()
}

/// How many bytes at the front stand on the first line.
pub(crate) fn line_run(text: &[u8]) -> usize
    ensures value { result ≡ prefix_len is_line_byte text.now }
    ensures within { result ≤ length text.now }
{
    text.iter().take_while(|b| **b != b'\n').count()
}

/// The text from a place on.
pub(crate) fn behind(text: &[u8], at: usize) -> &[u8]
    requires { at ≤ length text.now }
    ensures { result.now ≡ drop at text.now }
{
    &text[at..]
}

/// Whether two texts are the same without case of ASCII letters.
pub(crate) fn same_text(a: &[u8], b: &[u8]) -> bool
    ensures { result ≡ str_eq_ignore_ascii_case a.now b.now }
{
    a.eq_ignore_ascii_case(b)
}
