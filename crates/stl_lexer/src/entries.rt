ghost use Rattle.std.specs.Prelude.{◌≡◌, ◌<◌, ◌≤◌, ◌∷◌, [], IsTrue, drop, get_or, length, map};
ghost use Rattle.std.specs.Bool.{OnTrue};
ghost use Rattle.std.specs.List.{list_all};
ghost use Rattle.stl_lexer.specs.declared.tables.Tail.{Tail};
ghost use Rattle.stl_lexer.specs.declared.tables.Tail.TheVariants.{Nothing, Apart, Run, Line};
ghost use Rattle.stl_lexer.specs.Forms.{
  based_prefixes,
  begins_with,
  behind_sign,
  count_prefixes,
  entries_from,
  first_letter,
  continues_word,
  is_entry,
  is_listed,
  is_number_literal,
  is_some_text,
  is_time_literal,
  long_prefixes,
  opens_entry,
  s5time_prefixes,
  sign_words,
  time_prefixes,
  title_words,
};
ghost use Rattle.stl_lexer.specs.Marks.{marks};
ghost use Rattle.stl_lexer.specs.Longest.{FindsLongest, FindsTail, longer_of};

use crate::bytes::{behind, first_letter, is_sign, is_word_byte, line_run, word_run};
use crate::marks::marks_from;
use crate::tables::{
    BASED_PREFIXES, COUNT_PREFIXES, LONG_PREFIXES, S5TIME_PREFIXES, TIME_PREFIXES, TITLE_WORDS,
    Tail, sign_words_from,
};

/// Whether a letter, a digit or `_` stands here.
#[tactic(auto, unfolding(crate::specs::Forms::continues_word))]
fn goes_on(text: &[u8]) -> bool
    ensures { result ≡ continues_word text.now }
{
    match text {
        [first, ..] => is_word_byte(*first),
        [] => false,
    }
}

/// The length of the sign at the front of the text, 0 or 1.
#[tactic(auto, unfolding(crate::specs::Forms::behind_sign))]
pub(crate) fn sign_length(text: &[u8]) -> usize
    ensures rest { drop result text.now ≡ behind_sign text.now }
    ensures within { result ≤ length text.now }
{
    match text {
        [first, ..] if is_sign(*first) => 1,
        _ => 0,
    }
}

/// The length of the longest tail at the front of the text.
fn tail_length(tail: Tail, text: &[u8]) -> Option<usize>
    ensures { FindsTail tail text.now result }
{
    match tail {
        Tail::Nothing => Some(0),
        Tail::Apart => { if goes_on(text) { None } else { Some(0) } }
        Tail::Run => Some(word_run(text)),
        Tail::SignedRun => {
            let sign = sign_length(text);
            Some(sign + word_run(behind(text, sign)))
        }
        Tail::Line => {
            if goes_on(text) {
                None
            } else {
                Some(line_run(text))
            }
        }
    }
}

/// Whether a text begins with an entry, without case of ASCII letters.
#[tactic(auto, unfolding(crate::specs::Forms::begins_with), using(crate::proofs::EntryLemmas::entry_within, crate::proofs::EntryLemmas::too_short, crate::proofs::EntryLemmas::no_beginning))]
fn begins_with(entry: &[u8], text: &[u8]) -> bool
    requires { 0 < length entry.now }
    ensures value { result ≡ begins_with entry.now text.now }
    ensures within { OnTrue result (length entry.now ≤ length text.now) }
{
    if first_letter(entry) != first_letter(text) {
        return false;
    }
    entry.len() <= text.len() && entry.eq_ignore_ascii_case(&text[..entry.len()])
}

/// The length of an entry of a table with its tail at the front of the text.
fn entry_length(tail: Tail, entry: &[u8], text: &[u8]) -> Option<usize>
    requires { 0 < length entry.now }
    ensures { FindsLongest (is_entry tail entry.now) text.now result }
{
    if !begins_with(entry, text) {
        return None;
    }
    match tail_length(tail, behind(text, entry.len())) {
        Some(length) => Some(entry.len() + length),
        None => None,
    }
}

/// The greater of two lengths, where there are any.
fn longer(a: Option<usize>, b: Option<usize>) -> Option<usize>
    ensures { result ≡ longer_of a b }
{
    match (a, b) {
        (Some(m), Some(n)) => Some(m.max(n)),
        (None, found) => found,
        (found, None) => found,
    }
}

/// The length of the longest entry of a table, with its tail, at the front of the text.
fn longest_entry(tail: Tail, table: &[&[u8]], text: &[u8]) -> Option<usize>
    requires { IsTrue (list_all is_some_text (map (λ entry. entry.now) table.now)) }
    ensures { FindsLongest (is_listed tail (map (λ entry. entry.now) table.now)) text.now result }
{
    let mut longest = None;
    for entry in table {
        longest = longer(longest, entry_length(tail, entry, text));
    }
    longest
}

/// The length of the longest entry of a table, with its tail, at the front of the text; `opened`
/// says whether an entry of the table begins with the text's first letter.
fn longest_opened_entry(tail: Tail, table: &[&[u8]], opened: bool, text: &[u8]) -> Option<usize>
    requires some { IsTrue (list_all is_some_text (map (λ entry. entry.now) table.now)) }
    requires opened { opened
        ≡ opens_entry (map (λ entry. entry.now) table.now) (first_letter text.now) }
    ensures { FindsLongest (is_listed tail (map (λ entry. entry.now) table.now)) text.now result }
{
    if opened {
        longest_entry(tail, table, text)
    } else {
        None
    }
}

/// Whether the prefix of a binary or hexadecimal literal begins with this letter.
#[tactic(auto, unfolding(crate::specs::Forms::opens_entry, crate::specs::Forms::first_letter, crate::specs::Forms::based_prefixes))]
fn opens_based(letter: u8) -> bool
    ensures { result ≡ opens_entry based_prefixes letter }
{
    matches!(letter, b'2' | b'b' | b'w' | b'd')
}

/// Whether the prefix of a literal of 32 bits begins with this letter.
#[tactic(auto, unfolding(crate::specs::Forms::opens_entry, crate::specs::Forms::first_letter, crate::specs::Forms::long_prefixes))]
fn opens_long(letter: u8) -> bool
    ensures { result ≡ opens_entry long_prefixes letter }
{
    letter == b'l'
}

/// Whether the prefix of a count value begins with this letter.
#[tactic(auto, unfolding(crate::specs::Forms::opens_entry, crate::specs::Forms::first_letter, crate::specs::Forms::count_prefixes))]
fn opens_count(letter: u8) -> bool
    ensures { result ≡ opens_entry count_prefixes letter }
{
    letter == b'c'
}

/// Whether the prefix of a time of 32 bits begins with this letter.
#[tactic(auto, unfolding(crate::specs::Forms::opens_entry, crate::specs::Forms::first_letter, crate::specs::Forms::time_prefixes))]
fn opens_time(letter: u8) -> bool
    ensures { result ≡ opens_entry time_prefixes letter }
{
    letter == b't'
}

/// Whether the prefix of a time in the format S5TIME begins with this letter.
#[tactic(auto, unfolding(crate::specs::Forms::opens_entry, crate::specs::Forms::first_letter, crate::specs::Forms::s5time_prefixes))]
fn opens_s5time(letter: u8) -> bool
    ensures { result ≡ opens_entry s5time_prefixes letter }
{
    letter == b's'
}

/// Whether the word of a title begins with this letter.
#[tactic(auto, unfolding(crate::specs::Forms::opens_entry, crate::specs::Forms::first_letter, crate::specs::Forms::title_words))]
fn opens_title(letter: u8) -> bool
    ensures { result ≡ opens_entry title_words letter }
{
    letter == b't'
}

/// The second byte of a text, or 0 where there is none.
fn second_byte(text: &[u8]) -> u8
    ensures { result ≡ get_or text.now 1 0 }
{
    match text {
        [_, second, ..] => *second,
        _ => 0,
    }
}

/// Whether the only mark that begins with this letter is the letter itself.
#[tactic(auto, unfolding(crate::specs::Forms::entries_from, crate::specs::Forms::first_letter, crate::specs::Marks::mark_text, crate::specs::Marks::marks))]
fn is_lone_mark(letter: u8) -> bool
    ensures { OnTrue result (entries_from letter marks ≡ (letter ∷ []) ∷ []) }
{
    matches!(
        letter,
        b';' | b',' | b'(' | b')' | b'[' | b']' | b'=' | b'+' | b'-'
    )
}

/// The length of the longest mark at the front of the text.
pub(crate) fn longest_mark(text: &[u8]) -> Option<usize>
    ensures { FindsLongest (is_listed Nothing marks) text.now result }
{
    let letter = first_letter(text);
    if is_lone_mark(letter) {
        return Some(1);
    }
    if letter == b'.' {
        if second_byte(text) == b'.' {
            return Some(2);
        }
        return Some(1);
    }
    longest_entry(Tail::Nothing, marks_from(letter), text)
}

/// The length of the longest sign word at the front of the text.
pub(crate) fn longest_sign_word(text: &[u8]) -> Option<usize>
    ensures { FindsLongest (is_listed Apart sign_words) text.now result }
{
    let letter = first_letter(text);
    if letter == b'=' {
        if second_byte(text) != b'=' {
            return None;
        }
    }
    let words = sign_words_from(letter);
    if words.is_empty() {
        return None;
    }
    longest_entry(Tail::Apart, words, text)
}

/// The length of the longest binary or hexadecimal literal at the front of the text, right or
/// wrong.
#[tactic(auto, unfolding(crate::specs::Forms::based_prefixes))]
pub(crate) fn longest_based_literal(text: &[u8]) -> Option<usize>
    ensures { FindsLongest (is_listed Run based_prefixes) text.now result }
{
    let opened = opens_based(first_letter(text));
    longest_opened_entry(Tail::Run, &BASED_PREFIXES, opened, text)
}

/// The length of the longest literal `L#` or `C#` at the front of the text, right or wrong.
#[tactic(auto, unfolding(crate::specs::Forms::long_prefixes, crate::specs::Forms::count_prefixes), using(crate::proofs::LongestLemmas::either_longest))]
pub(crate) fn longest_number_literal(text: &[u8]) -> Option<usize>
    ensures { FindsLongest is_number_literal text.now result }
{
    let letter = first_letter(text);
    let long = longest_opened_entry(Tail::SignedRun, &LONG_PREFIXES, opens_long(letter), text);
    let count = longest_opened_entry(Tail::Run, &COUNT_PREFIXES, opens_count(letter), text);
    longer(long, count)
}

/// The length of the longest time literal at the front of the text, right or wrong.
#[tactic(auto, unfolding(crate::specs::Forms::time_prefixes, crate::specs::Forms::s5time_prefixes), using(crate::proofs::LongestLemmas::either_longest))]
pub(crate) fn longest_time_literal(text: &[u8]) -> Option<usize>
    ensures { FindsLongest is_time_literal text.now result }
{
    let letter = first_letter(text);
    let time = longest_opened_entry(Tail::SignedRun, &TIME_PREFIXES, opens_time(letter), text);
    let s5time = longest_opened_entry(Tail::Run, &S5TIME_PREFIXES, opens_s5time(letter), text);
    longer(time, s5time)
}

/// The length of the title at the front of the text.
#[tactic(auto, unfolding(crate::specs::Forms::title_words))]
pub(crate) fn longest_title(text: &[u8]) -> Option<usize>
    ensures { FindsLongest (is_listed Line title_words) text.now result }
{
    longest_opened_entry(
        Tail::Line,
        &TITLE_WORDS,
        opens_title(first_letter(text)),
        text,
    )
}
