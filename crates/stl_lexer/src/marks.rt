ghost use Rattle.std.specs.Prelude.{◌≡◌, IsTrue, map};
ghost use Rattle.std.specs.List.{list_all};
ghost use Rattle.stl_lexer.specs.Forms.{entries_from, is_some_text};
ghost use Rattle.stl_lexer.specs.Marks.{mark_text, marks};

/// A mark of the language (docs/LANGUAGE.md, "Tokens").
#[derive(Clone, Copy, Debug, PartialEq, Eq)]
pub enum Mark {
    /// `:=`.
    Assign,
    Colon,
    Semicolon,
    Comma,
    Dot,
    DotDot,
    OpenParen,
    CloseParen,
    OpenBracket,
    CloseBracket,
    Equals,
    Plus,
    Minus,
    /// `P#`, before a pointer constant.
    Pointer,
    /// `B#(`, before the bytes of a constant.
    Bytes,
}

/// How a mark is written; its letter may stand in either case.
#[tactic(auto, unfolding(crate::specs::Marks::mark_text))]
pub fn mark_text(mark: Mark) -> &'static [u8]
    ensures { result.now ≡ mark_text mark }
{
    match mark {
        Mark::Assign => b":=",
        Mark::Colon => b":",
        Mark::Semicolon => b";",
        Mark::Comma => b",",
        Mark::Dot => b".",
        Mark::DotDot => b"..",
        Mark::OpenParen => b"(",
        Mark::CloseParen => b")",
        Mark::OpenBracket => b"[",
        Mark::CloseBracket => b"]",
        Mark::Equals => b"=",
        Mark::Plus => b"+",
        Mark::Minus => b"-",
        Mark::Pointer => b"P#",
        Mark::Bytes => b"B#(",
    }
}

// The marks that begin with the same letter.
static COLON: [&[u8]; 2] = [b":=", b":"];

static SEMICOLON: [&[u8]; 1] = [b";"];

static COMMA: [&[u8]; 1] = [b","];

static DOT: [&[u8]; 2] = [b".", b".."];

static OPEN_PAREN: [&[u8]; 1] = [b"("];

static CLOSE_PAREN: [&[u8]; 1] = [b")"];

static OPEN_BRACKET: [&[u8]; 1] = [b"["];

static CLOSE_BRACKET: [&[u8]; 1] = [b"]"];

static EQUALS: [&[u8]; 1] = [b"="];

static PLUS: [&[u8]; 1] = [b"+"];

static MINUS: [&[u8]; 1] = [b"-"];

static POINTER: [&[u8]; 1] = [b"P#"];

static BYTES: [&[u8]; 1] = [b"B#("];

static NONE: [&[u8]; 0] = [];

/// The marks that begin with this letter.
#[tactic(auto, unfolding(crate::specs::Forms::entries_from, crate::specs::Forms::first_letter, crate::specs::Marks::mark_text, crate::specs::Marks::marks))]
pub(crate) fn marks_from(letter: u8) -> &'static [&'static [u8]]
    ensures value { map (λ entry. entry.now) result.now ≡ entries_from letter marks }
    ensures some { IsTrue (list_all is_some_text (map (λ entry. entry.now) result.now)) }
{
    match letter {
        b':' => &COLON,
        b';' => &SEMICOLON,
        b',' => &COMMA,
        b'.' => &DOT,
        b'(' => &OPEN_PAREN,
        b')' => &CLOSE_PAREN,
        b'[' => &OPEN_BRACKET,
        b']' => &CLOSE_BRACKET,
        b'=' => &EQUALS,
        b'+' => &PLUS,
        b'-' => &MINUS,
        b'p' => &POINTER,
        b'b' => &BYTES,
        _ => &NONE,
    }
}
