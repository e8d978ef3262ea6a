ghost use Rattle.std.specs.Prelude.{◌≡◌, ◌≤◌, length};
ghost use Rattle.std.specs.List.{prefix_len};
ghost use Rattle.stl_lexer.specs.Forms.{is_attribute, is_characters, is_enclosed, is_inner, is_quoted};
ghost use Rattle.stl_lexer.specs.Longest.{FindsLongest};

/// Whether a byte may stand before the closing one.
#[tactic(auto, unfolding(crate::specs::Forms::is_inner))]
fn is_inner(close: u8, one_line: bool, b: u8) -> bool
    ensures { result ≡ is_inner close one_line b }
{
    b != close && !(one_line && b == b'\n')
}

/// How many bytes at the front may stand before the closing one.
fn inner_run(close: u8, one_line: bool, text: &[u8]) -> usize
    ensures value { result ≡ prefix_len (is_inner close one_line) text.now }
    ensures within { result ≤ length text.now }
{
    text.iter()
        .take_while(|b| is_inner(close, one_line, **b))
        .count()
}

/// The length of the token that begins with an opening byte and ends with the first closing one.
fn longest_enclosed_token(opening: u8, close: u8, one_line: bool, text: &[u8]) -> Option<usize>
    ensures { FindsLongest (λ s after. is_enclosed opening close one_line s) text.now result }
{
    let [first, rest @ ..] = text else {
        return None;
    };
    if *first != opening {
        return None;
    }
    let inner = inner_run(close, one_line, rest);
    if inner < rest.len() && rest[inner] == close {
        Some(inner + 2)
    } else {
        None
    }
}

/// The length of the quoted name at the front of the text.
pub(crate) fn longest_quoted_name(text: &[u8]) -> Option<usize>
    ensures { FindsLongest (λ s after. is_quoted s) text.now result }
{
    let length = longest_enclosed_token(b'"', b'"', true, text)?;
    if length > 2 { Some(length) } else { None }
}

/// The length of the characters at the front of the text.
pub(crate) fn longest_characters(text: &[u8]) -> Option<usize>
    ensures { FindsLongest (λ s after. is_characters s) text.now result }
{
    longest_enclosed_token(b'\'', b'\'', true, text)
}

/// The length of the attribute at the front of the text.
pub(crate) fn longest_attribute(text: &[u8]) -> Option<usize>
    ensures { FindsLongest (λ s after. is_attribute s) text.now result }
{
    longest_enclosed_token(b'{', b'}', false, text)
}
