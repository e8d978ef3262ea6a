ghost use Rattle.std.specs.Prelude.{◌≡◌, IsTrue, map};
ghost use Rattle.std.specs.List.{list_all};
ghost use Rattle.stl_lexer.specs.Forms.{entries_from, is_some_text, sign_words};

/// What belongs to a token behind the entry of a table.
#[derive(Clone, Copy, Debug, PartialEq, Eq)]
pub(crate) enum Tail {
    /// Nothing.
    Nothing,
    /// Nothing, and no letter, digit or `_` may follow.
    Apart,
    /// Letters, digits and `_`.
    Run,
    /// An optional sign, then letters, digits and `_`.
    SignedRun,
    /// All up to the line's end; no letter, digit or `_` may follow the entry.
    Line,
}

/// The prefixes of binary and hexadecimal literals.
pub(crate) static BASED_PREFIXES: [&[u8]; 7] = [
    b"2#",
    b"B#16#",
    b"BYTE#16#",
    b"W#16#",
    b"WORD#16#",
    b"DW#16#",
    b"DWORD#16#",
];

/// The prefix of a literal of 32 bits, behind which a sign may stand.
pub(crate) static LONG_PREFIXES: [&[u8]; 1] = [b"L#"];

/// The prefix of a count value.
pub(crate) static COUNT_PREFIXES: [&[u8]; 1] = [b"C#"];

/// The prefixes of a time of 32 bits, behind which a sign may stand.
pub(crate) static TIME_PREFIXES: [&[u8]; 2] = [b"T#", b"TIME#"];

/// The prefixes of a time in the format S5TIME.
pub(crate) static S5TIME_PREFIXES: [&[u8]; 2] = [b"S5T#", b"S5TIME#"];

/// The word that begins a title.
pub(crate) static TITLE_WORDS: [&[u8]; 1] = [b"TITLE"];

// The sign words that begin with the same sign: arithmetic and comparison instructions, and
// conditions of the status word.
static PLUS_WORDS: [&[u8]; 4] = [b"+I", b"+D", b"+AR1", b"+AR2"];

static MINUS_WORDS: [&[u8]; 2] = [b"-I", b"-D"];

static TIMES_WORDS: [&[u8]; 2] = [b"*I", b"*D"];

static DIVIDE_WORDS: [&[u8]; 2] = [b"/I", b"/D"];

static EQUAL_WORDS: [&[u8]; 3] = [b"==I", b"==D", b"==0"];

static LESS_WORDS: [&[u8]; 9] = [
    b"<>I", b"<I", b"<=I", b"<>D", b"<D", b"<=D", b"<>0", b"<0", b"<=0",
];

static GREATER_WORDS: [&[u8]; 6] = [b">I", b">=I", b">D", b">=D", b">0", b">=0"];

static NO_WORDS: [&[u8]; 0] = [];

/// The sign words that begin with this sign.
#[tactic(auto, unfolding(crate::specs::Forms::entries_from, crate::specs::Forms::first_letter, crate::specs::Forms::sign_words))]
pub(crate) fn sign_words_from(letter: u8) -> &'static [&'static [u8]]
    ensures value { map (λ entry. entry.now) result.now ≡ entries_from letter sign_words }
    ensures some { IsTrue (list_all is_some_text (map (λ entry. entry.now) result.now)) }
{
    match letter {
        b'+' => &PLUS_WORDS,
        b'-' => &MINUS_WORDS,
        b'*' => &TIMES_WORDS,
        b'/' => &DIVIDE_WORDS,
        b'=' => &EQUAL_WORDS,
        b'<' => &LESS_WORDS,
        b'>' => &GREATER_WORDS,
        _ => &NO_WORDS,
    }
}
