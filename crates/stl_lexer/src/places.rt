ghost use Rattle.std.specs.Prelude.{◌≡◌, ◌≤◌, length};
ghost use Rattle.stl_lexer.specs.Forms.{is_number, is_word};
ghost use Rattle.stl_lexer.specs.Gap.{line_at};
ghost use Rattle.stl_lexer.specs.Limits.{source_limit};
ghost use Rattle.stl_lexer.specs.Longest.{FindsToken, HasNoneOfForm, IsLongestOfForm, better_of};
ghost use Rattle.stl_lexer.specs.Tokens.{FindsNextToken, is_minus};

use crate::bytes::{behind, first_letter};
use crate::entries::{
    longest_based_literal, longest_mark, longest_number_literal, longest_sign_word,
    longest_time_literal, longest_title,
};
use crate::gaps::{Position, newlines, skip_gap};
use crate::kinds::{Token, TokenKind};
use crate::quotes::{longest_attribute, longest_characters, longest_quoted_name};
use crate::rules::{fault_of, rule_without_form};
use crate::words::{longest_local, longest_number, longest_word};
use plc_base::Refusal;

/// The kind and the length of a token.
#[derive(Clone, Copy, Debug, PartialEq, Eq)]
pub(crate) struct FoundToken {
    pub(crate) kind: TokenKind,
    pub(crate) length: usize,
}

/// The better of the token found so far and one of a further kind.
fn better(best: Option<FoundToken>, kind: TokenKind, length: Option<usize>) -> Option<FoundToken>
    ensures { result ≡ better_of best kind length }
{
    let Some(length) = length else {
        return best;
    };
    match best {
        Some(found) if length < found.length => Some(found),
        _ => Some(FoundToken { kind, length }),
    }
}

/// The longest token at the front of the text, of all kinds.
fn longest_of_all(text: &[u8]) -> Option<FoundToken>
    ensures { FindsToken text.now result }
{
    let word = better(None, TokenKind::Word, longest_word(text));
    let number = better(word, TokenKind::Number, longest_number(text));
    let quoted = better(number, TokenKind::Quoted, longest_quoted_name(text));
    let local = better(quoted, TokenKind::Local, longest_local(text));
    let characters = better(local, TokenKind::Characters, longest_characters(text));
    let based = better(characters, TokenKind::Based, longest_based_literal(text));
    let literal = better(
        based,
        TokenKind::NumberLiteral,
        longest_number_literal(text),
    );
    let time = better(literal, TokenKind::TimeLiteral, longest_time_literal(text));
    let mark = better(time, TokenKind::Mark, longest_mark(text));
    let sign_word = better(mark, TokenKind::SignWord, longest_sign_word(text));
    let attribute = better(sign_word, TokenKind::Attribute, longest_attribute(text));
    better(attribute, TokenKind::Title, longest_title(text))
}

/// The longest token where a word of this size stands at the front: with no `#` behind it, the word
/// or a title.
fn word_token(text: &[u8], size: usize) -> Option<FoundToken>
    requires word { IsLongestOfForm (λ s after. is_word s) text.now size }
    requires within { size ≤ length text.now }
    ensures { FindsToken text.now result }
{
    if first_letter(behind(text, size)) == b'#' {
        return longest_of_all(text);
    }
    let word = Some(FoundToken {
        kind: TokenKind::Word,
        length: size,
    });
    better(word, TokenKind::Title, longest_title(text))
}

/// The longest token where a number of this size stands at the front: the number, or a binary
/// literal.
fn number_token(text: &[u8], size: usize) -> Option<FoundToken>
    requires { IsLongestOfForm (λ s after. is_number s) text.now size }
    ensures { FindsToken text.now result }
{
    let number = Some(FoundToken {
        kind: TokenKind::Number,
        length: size,
    });
    better(number, TokenKind::Based, longest_based_literal(text))
}

/// The longest token where neither a word nor a number stands at the front.
fn sign_token(text: &[u8]) -> Option<FoundToken>
    requires word { HasNoneOfForm (λ s after. is_word s) text.now }
    requires number { HasNoneOfForm (λ s after. is_number s) text.now }
    ensures { FindsToken text.now result }
{
    let [first, ..] = text else {
        return None;
    };
    if *first == b'"' {
        return better(None, TokenKind::Quoted, longest_quoted_name(text));
    }
    if *first == b'#' {
        return better(None, TokenKind::Local, longest_local(text));
    }
    if *first == b'\'' {
        return better(None, TokenKind::Characters, longest_characters(text));
    }
    if *first == b'{' {
        return better(None, TokenKind::Attribute, longest_attribute(text));
    }
    let mark = better(None, TokenKind::Mark, longest_mark(text));
    better(mark, TokenKind::SignWord, longest_sign_word(text))
}

/// The longest token at the front of the text.
fn longest_token(text: &[u8]) -> Option<FoundToken>
    ensures { FindsToken text.now result }
{
    if let Some(size) = longest_word(text) {
        return word_token(text, size);
    }
    match longest_number(text) {
        Some(size) => number_token(text, size),
        None => sign_token(text),
    }
}

/// Whether bytes of this kind are the mark `-`.
#[tactic(auto, unfolding(crate::specs::Tokens::is_minus))]
pub(crate) fn is_minus(kind: TokenKind, token: &[u8]) -> bool
    ensures { result ≡ is_minus kind token.now }
{
    match kind {
        TokenKind::Mark => matches!(token, [b'-']),
        _ => false,
    }
}

/// The next token behind a position, or None at the end of the source.
///
/// # Errors
///
/// The rule that is broken there, with its line.
pub(crate) fn next_token(
    source: &[u8],
    from: Position,
    minus: bool,
) -> Result<Option<Token>, Refusal>
    requires limit { length source.now ≤ source_limit }
    requires within { from.offset ≤ length source.now }
    requires line { from.line ≡ line_at source.now from.offset }
    ensures { FindsNextToken source.now from.offset minus result }
{
    let start = skip_gap(source, from);
    let text = behind(source, start.offset);
    if text.is_empty() {
        return Ok(None);
    }
    let Some(found) = longest_token(text) else {
        return Err(Refusal {
            line: start.line,
            rule: rule_without_form(text),
        });
    };
    let token = &text[..found.length];
    match fault_of(found.kind, token, minus) {
        Some(fault) => {
            let line = start.line + newlines(&token[..fault.offset]);
            Err(Refusal {
                line,
                rule: fault.rule,
            })
        }
        None => Ok(Some(Token {
            kind: found.kind,
            start: start.offset as u32,
            end: (start.offset + found.length) as u32,
            line: start.line,
        })),
    }
}
