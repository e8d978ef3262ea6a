ghost use Rattle.std.specs.Prelude.{◌≡◌};
ghost use Rattle.de_mnemonics.specs.Places.{token_class, class_of_mark, is_mark_text};

use stl_lexer::{Mark, TokenKind, mark_text};

/// What a token is to the words beside it.
#[derive(Clone, Copy, Debug, PartialEq, Eq)]
pub enum TokenClass {
    Word,
    Number,
    /// An attribute or a title.
    Note,
    Semicolon,
    Dot,
    /// `:=`.
    Assign,
    Colon,
    OpenBracket,
    OpenParen,
    CloseParen,
    /// `P#`.
    Pointer,
    /// Any other token.
    Other,
}

/// Whether a mark is written so.
fn is_text(text: &[u8], mark: Mark) -> bool
    ensures { result ≡ is_mark_text text.now mark }
{
    text.eq_ignore_ascii_case(mark_text(mark))
}

/// The class of a mark: its own where the role of a word or the place behind it goes by the mark,
/// and one for all other marks.
#[tactic(auto, unfolding(crate::specs::Places::class_of_mark))]
fn class_of_mark(text: &[u8]) -> TokenClass
    ensures { result ≡ class_of_mark text.now }
{
    if is_text(text, Mark::Semicolon) {
        return TokenClass::Semicolon;
    }
    if is_text(text, Mark::Dot) {
        return TokenClass::Dot;
    }
    if is_text(text, Mark::Assign) {
        return TokenClass::Assign;
    }
    if is_text(text, Mark::Colon) {
        return TokenClass::Colon;
    }
    if is_text(text, Mark::OpenBracket) {
        return TokenClass::OpenBracket;
    }
    if is_text(text, Mark::OpenParen) {
        return TokenClass::OpenParen;
    }
    if is_text(text, Mark::CloseParen) {
        return TokenClass::CloseParen;
    }
    if is_text(text, Mark::Pointer) {
        return TokenClass::Pointer;
    }
    TokenClass::Other
}

/// The class of a token.
#[tactic(auto, unfolding(crate::specs::Places::token_class))]
pub(crate) fn token_class(kind: TokenKind, text: &[u8]) -> TokenClass
    ensures { result ≡ token_class kind text.now }
{
    match kind {
        TokenKind::Word => TokenClass::Word,
        TokenKind::Number => TokenClass::Number,
        TokenKind::Attribute => TokenClass::Note,
        TokenKind::Title => TokenClass::Note,
        TokenKind::Mark => class_of_mark(text),
        _ => TokenClass::Other,
    }
}
