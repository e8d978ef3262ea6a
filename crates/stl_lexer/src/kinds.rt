ghost use Rattle.std.specs.Prelude.{◌≡◌, ℕ, true, List};
ghost use Rattle.std.specs.Bool.{OnTrue};
ghost use Rattle.std.specs.List.{list_all};
ghost use Rattle.stl_lexer.specs.Forms.{has_form};
ghost use Rattle.stl_lexer.specs.Gap.{is_comment_byte};

/// The kind of a token, in the order of the table of tokens (docs/LANGUAGE.md, "Tokens").
#[derive(Clone, Copy, Debug, PartialEq, Eq)]
pub enum TokenKind {
    /// A letter or `_`, then letters, digits and `_`.
    Word,
    /// Decimal digits.
    Number,
    /// A name in double quotes.
    Quoted,
    /// A local name: `#` and a word.
    Local,
    /// Bytes in single quotes.
    Characters,
    /// A binary or hexadecimal literal.
    Based,
    /// A literal of 32 bits `L#` or a count value `C#`.
    NumberLiteral,
    /// A time `T#` or `S5T#`.
    TimeLiteral,
    /// A mark.
    Mark,
    /// A word that begins with a sign, as `+I` or `==0`.
    SignWord,
    /// Bytes in braces.
    Attribute,
    /// `TITLE` and what follows it on its line.
    Title,
}

/// A token: the slice `start..end` of the source.
#[derive(Clone, Copy, Debug, PartialEq, Eq)]
pub struct Token {
    pub kind: TokenKind,
    /// The place of its first byte.
    pub start: u32,
    /// The place behind its last byte.
    pub end: u32,
    /// The line of its first byte, counted from 1.
    pub line: u32,
}

impl Token {
    ghost use Rattle.std.specs.Prelude.{◌≡◌};
    ghost use Rattle.stl_lexer.specs.Tokens.{text_of};

    /// The bytes of the token in its source; in another text, what of its slice lies there.
    pub fn text<'a>(&self, source: &'a [u8]) -> &'a [u8]
        ensures { result.now ≡ text_of source.now self.now }
    {
        let length = self.end.saturating_sub(self.start) as usize;
        let behind = source.get(self.start as usize..).unwrap_or(&[]);
        behind.get(..length).unwrap_or(behind)
    }
}

/// Whether the form of a kind has room for no foreign byte and no line's end.
#[tactic(auto, using(crate::proofs::PlainLemmas::plain_word, crate::proofs::PlainLemmas::plain_number, crate::proofs::PlainLemmas::plain_mark))]
pub(crate) fn is_plain(kind: TokenKind) -> bool
    ensures { OnTrue result ((s after : List ℕ) → has_form kind s after ≡ true
        → list_all is_comment_byte s ≡ true) }
{
    match kind {
        TokenKind::Word => true,
        TokenKind::Number => true,
        TokenKind::Mark => true,
        _ => false,
    }
}
