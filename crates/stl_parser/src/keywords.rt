ghost use Rattle.std.specs.Prelude.{◌≡◌};
ghost use Rattle.stl_parser.specs.Terminals.{key_text, is_mark, is_key, has_kind};

use stl_lexer::{Mark, Token, TokenKind, mark_text};

/// A word of the language that stands inside a clause.
#[derive(Clone, Copy)]
pub enum ClauseWord {
    True,
    False,
    Array,
    Of,
    Struct,
    Void,
    DateAndTime,
    /// `AR1`, the first address register.
    Ar1,
    /// `AR2`, the second address register.
    Ar2,
    /// `B`, before a pointer to a byte.
    B,
    /// `W`, before a pointer to a word.
    W,
    /// `D`, before a pointer to a double word.
    D,
    /// `MCR`, behind the `)` that ends a zone of the master control relay.
    Mcr,
}

/// How a word of the language is written.
#[tactic(auto, unfolding(crate::specs::Terminals::key_text))]
fn key_text(key: ClauseWord) -> &'static [u8]
    ensures { result.now ≡ key_text key }
{
    match key {
        ClauseWord::True => b"TRUE",
        ClauseWord::False => b"FALSE",
        ClauseWord::Array => b"ARRAY",
        ClauseWord::Of => b"OF",
        ClauseWord::Struct => b"STRUCT",
        ClauseWord::Void => b"VOID",
        ClauseWord::DateAndTime => b"DATE_AND_TIME",
        ClauseWord::Ar1 => b"AR1",
        ClauseWord::Ar2 => b"AR2",
        ClauseWord::B => b"B",
        ClauseWord::W => b"W",
        ClauseWord::D => b"D",
        ClauseWord::Mcr => b"MCR",
    }
}

/// Whether the token is of this kind.
#[tactic(auto, unfolding(crate::specs::Terminals::has_kind))]
pub(crate) fn has_kind(token: &Token, kind: TokenKind) -> bool
    ensures { result ≡ has_kind token.now kind }
{
    token.kind == kind
}

/// Whether the token is this mark.
#[tactic(auto, unfolding(crate::specs::Terminals::is_mark))]
pub(crate) fn is_mark(source: &[u8], token: &Token, mark: Mark) -> bool
    ensures { result ≡ is_mark source.now token.now mark }
{
    has_kind(token, TokenKind::Mark) && token.text(source).eq_ignore_ascii_case(mark_text(mark))
}

/// Whether the token is this word, without case.
#[tactic(auto, unfolding(crate::specs::Terminals::is_key))]
pub(crate) fn is_key(source: &[u8], token: &Token, key: ClauseWord) -> bool
    ensures { result ≡ is_key source.now token.now key }
{
    has_kind(token, TokenKind::Word) && token.text(source).eq_ignore_ascii_case(key_text(key))
}
