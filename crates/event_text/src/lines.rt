ghost use Rattle.std.specs.Prelude.{◌≡◌, ◌+◌, ◌≤◌, true, Some, IfOk};
ghost use Rattle.plc_base.specs.AreaBytes.{is_peripheral_byte as is_peripheral_byte_of};
ghost use Rattle.flat_code.specs.Names.{find};
ghost use Rattle.var_access.specs.Entry.{is_arrivable as is_arrivable_of, IsRequest};
ghost use Rattle.var_access.specs.Readings.{address_number as address_number_of, number_reading, words_of};
ghost use Rattle.var_access.specs.Requests.{request_line};
ghost use Rattle.event_text.specs.LineEntries.{entries_read, IsScriptLine, IsOtherEntry, IsOtherLine, IsLineAllowed};
ghost use Rattle.event_text.specs.Workers.{feeder_entry as feeder_entry_of};
ghost use Rattle.event_text.specs.Lines.{arrival_line, input_line, is_script, is_entry_line_skipped as is_skipped_line, line_read, line_with, most_steps, number_among, one_where_allowed, operator_line, script_line, script_worker, where_allowed as where_allowed_of, step_count, step_line, tick_line};

use crate::kinds::TextKind;
use flat_code::Names;
use plc_base::is_peripheral_byte;
use var_access::text_rules::{
    NO_OPERATOR, NOT_IN_GRAMMAR, OTHER_FILE, OUT_OF_RANGE, TOO_MANY_STEPS,
};
use var_access::{
    Entry, Request, What, address_number, both, first_word, hex_of, is_arrivable, number_reading,
    request_of,
};

/// The most steps of a history.
const MOST_STEPS: u32 = 1_000_000;

/// The most milliseconds of a tick.
const LONGEST_TICK: u32 = 60_000;

/// How many operators there are.
const OPERATORS: u32 = 4;

/// The worker that feeds inputs, arrivals and ticks.
const FEEDER: u8 = 2;

/// The worker of operator 1.
const FIRST_OPERATOR: u8 = 3;

/// What one line spells.
#[derive(Clone, Copy, Debug, PartialEq, Eq)]
pub(crate) enum LineEntries {
    /// Nothing: the line is skipped.
    Nothing,
    /// That many steps.
    Steps { count: u32 },
    /// An entry that is no step.
    One { entry: Entry },
}

/// An entry of the feeder.
fn feeder_entry(what: What) -> Entry
    ensures { result ≡ feeder_entry_of what }
{
    Entry { who: FEEDER, what }
}

/// How many steps the words behind `step` say.
fn read_step_count(words: &[u8]) -> Result<u32, u16>
    ensures value { result ≡ step_count (words_of words.now) }
    ensures range { IfOk result (λ n. (1 ≤ n) × (n ≤ most_steps)) }
{
    let Some((number, rest)) = first_word(words) else {
        return Ok(1);
    };
    if first_word(rest).is_some() {
        return Err(NOT_IN_GRAMMAR);
    }
    number_reading(number, 1, MOST_STEPS, OUT_OF_RANGE)
}

/// How many steps the words behind `step` say, where so many stand before the line.
#[tactic(auto, unfolding(crate::specs::Lines::step_line))]
fn read_steps(before: u32, words: &[u8]) -> Result<u32, u16>
    requires { before ≤ most_steps }
    ensures value { result ≡ step_line before (words_of words.now) }
    ensures range { IfOk result (λ count. (1 ≤ count) × (before + count ≤ most_steps)) }
{
    let count = read_step_count(words)?;
    if before + count > MOST_STEPS {
        return Err(TOO_MANY_STEPS);
    }
    Ok(count)
}

/// The number of a peripheral byte that exists.
fn read_byte(word: &[u8]) -> Result<u16, u16>
    ensures value { result ≡ number_among is_peripheral_byte_of (address_number_of word.now) }
    ensures exists { IfOk result (λ byte. is_peripheral_byte_of byte ≡ true) }
{
    let byte = address_number(word)?;
    if is_peripheral_byte(byte) {
        Ok(byte)
    } else {
        Err(OUT_OF_RANGE)
    }
}

/// The input of the words behind `in`: a peripheral byte and its value.
#[tactic(auto, unfolding(crate::specs::Lines::input_line))]
fn read_input(words: &[u8]) -> Result<Entry, u16>
    ensures value { result ≡ input_line (words_of words.now) }
    ensures other { IfOk result IsOtherEntry }
{
    let Some((byte, rest)) = first_word(words) else {
        return Err(NOT_IN_GRAMMAR);
    };
    let Some((value, rest)) = first_word(rest) else {
        return Err(NOT_IN_GRAMMAR);
    };
    if first_word(rest).is_some() {
        return Err(NOT_IN_GRAMMAR);
    }
    let (byte, value) = both(read_byte(byte), hex_of(value, 2))?;
    Ok(feeder_entry(What::Input {
        byte,
        value: value as u8,
    }))
}

/// The number of an organization block that an arrival may request.
fn read_ob(word: &[u8]) -> Result<u16, u16>
    ensures value { result ≡ number_among is_arrivable_of (address_number_of word.now) }
    ensures arrivable { IfOk result (λ ob. is_arrivable_of ob ≡ true) }
{
    let ob = address_number(word)?;
    if is_arrivable(ob) {
        Ok(ob)
    } else {
        Err(OUT_OF_RANGE)
    }
}

/// The arrival of the words behind `arrive`: an organization block, and a value or 0.
#[tactic(auto, unfolding(crate::specs::Lines::arrival_line))]
fn read_arrival(words: &[u8]) -> Result<Entry, u16>
    ensures value { result ≡ arrival_line (words_of words.now) }
    ensures other { IfOk result IsOtherEntry }
{
    let Some((ob, rest)) = first_word(words) else {
        return Err(NOT_IN_GRAMMAR);
    };
    let Some((value, rest)) = first_word(rest) else {
        let ob = read_ob(ob)?;
        return Ok(feeder_entry(What::Arrive { ob, value: 0 }));
    };
    if first_word(rest).is_some() {
        return Err(NOT_IN_GRAMMAR);
    }
    let (ob, value) = both(read_ob(ob), hex_of(value, 8))?;
    Ok(feeder_entry(What::Arrive { ob, value }))
}

/// The tick of the words behind `tick`: its milliseconds.
#[tactic(auto, unfolding(crate::specs::Lines::tick_line))]
fn read_tick(words: &[u8]) -> Result<Entry, u16>
    ensures value { result ≡ tick_line (words_of words.now) }
    ensures other { IfOk result IsOtherEntry }
{
    let Some((number, rest)) = first_word(words) else {
        return Err(NOT_IN_GRAMMAR);
    };
    if first_word(rest).is_some() {
        return Err(NOT_IN_GRAMMAR);
    }
    let ms = number_reading(number, 1, LONGEST_TICK, OUT_OF_RANGE)?;
    Ok(feeder_entry(What::Tick { ms }))
}

/// The operator's number that a word spells, 1 to 4.
fn read_operator(word: &[u8]) -> Result<u8, u16>
    ensures value { result ≡ number_reading 1 4 5 word.now }
    ensures range { IfOk result (λ operator. (1 ≤ operator) × (operator ≤ 4)) }
{
    let operator = number_reading(word, 1, OPERATORS, NO_OPERATOR)?;
    Ok(operator as u8)
}

/// The request that a text spells.
#[tactic(auto, unfolding(var_access::specs::Requests::request_line))]
fn read_request(names: &Names, text: &[u8]) -> Result<Request, u16>
    ensures value { result ≡ request_line (find names.now) text.now }
    ensures valid { IfOk result IsRequest }
{
    let Some((word, rest)) = first_word(text) else {
        return Err(NOT_IN_GRAMMAR);
    };
    request_of(names, word, rest)
}

/// The request of an operator, from the words behind `op`.
#[tactic(auto, using(crate::proofs::LineLemmas::both_second), unfolding(crate::specs::Lines::operator_line))]
fn read_operator_line(names: &Names, words: &[u8]) -> Result<Entry, u16>
    ensures value { result ≡ operator_line (find names.now) words.now }
    ensures other { IfOk result IsOtherEntry }
{
    let Some((operator, rest)) = first_word(words) else {
        return Err(NOT_IN_GRAMMAR);
    };
    let (operator, request) = both(read_operator(operator), read_request(names, rest))?;
    Ok(Entry {
        who: operator + FIRST_OPERATOR - 1,
        what: What::Ask { request },
    })
}

/// What is read of a line, where such lines stand in the text; else rule 4, or a lesser one.
fn where_allowed<T: Drop>(stands: bool, reading: Result<T, u16>) -> Result<T, u16>
    ensures { result ≡ where_allowed_of stands reading }
{
    if stands {
        return reading;
    }
    match reading {
        Ok(_) => Err(OTHER_FILE),
        Err(rule) => Err(rule.min(OTHER_FILE)),
    }
}

/// Whether a line is skipped: it is empty, or begins with `//`.
fn is_skipped(line: &[u8]) -> bool
    ensures { result ≡ is_skipped_line line.now }
{
    line.is_empty() || line.starts_with(b"//")
}

/// A line with one entry, where such lines stand in the text.
fn with_one_entry(stands: bool, reading: Result<Entry, u16>) -> Result<LineEntries, u16>
    requires { IfOk reading IsOtherEntry }
    ensures value { entries_read result ≡ one_where_allowed stands reading }
    ensures line { IfOk result IsOtherLine }
{
    match where_allowed(stands, reading) {
        Ok(entry) => Ok(LineEntries::One { entry }),
        Err(rule) => Err(rule),
    }
}

/// The request of a script's worker, by its first word and what follows.
#[tactic(auto, unfolding(crate::specs::Lines::script_line))]
fn read_script_line(
    kind: TextKind,
    names: &Names,
    word: &[u8],
    rest: &[u8],
) -> Result<LineEntries, u16>
    ensures value { entries_read result ≡ one_where_allowed (is_script kind)
        (script_line (find names.now) (script_worker kind) word.now rest.now) }
    ensures line { IfOk result (IsScriptLine kind) }
{
    let request = where_allowed(kind.is_script(), request_of(names, word, rest))?;
    Ok(LineEntries::One {
        entry: Entry {
            who: kind.script_worker(),
            what: What::Ask { request },
        },
    })
}

/// A line by its first word and what follows, where so many steps stand before it.
fn read_words(
    kind: TextKind,
    names: &Names,
    before: u32,
    word: &[u8],
    rest: &[u8],
) -> Result<LineEntries, u16>
    requires { before ≤ most_steps }
    ensures value { entries_read result
        ≡ line_with kind (find names.now) before (Some (word.now, rest.now)) }
    ensures line { IfOk result (IsLineAllowed kind before) }
{
    if word == b"step".as_slice() {
        let count = where_allowed(kind.is_history(), read_steps(before, rest))?;
        return Ok(LineEntries::Steps { count });
    }
    if word == b"in".as_slice() {
        return with_one_entry(kind.has_feeder_lines(), read_input(rest));
    }
    if word == b"arrive".as_slice() {
        return with_one_entry(kind.has_feeder_lines(), read_arrival(rest));
    }
    if word == b"tick".as_slice() {
        return with_one_entry(kind.has_feeder_lines(), read_tick(rest));
    }
    if word == b"op".as_slice() {
        return with_one_entry(kind.is_history(), read_operator_line(names, rest));
    }
    read_script_line(kind, names, word, rest)
}

/// What a line spells, without its line end, where so many steps stand before it; else the least
/// rule that it breaks.
#[tactic(auto, unfolding(crate::specs::Lines::line_read))]
pub(crate) fn read_line(
    kind: TextKind,
    names: &Names,
    before: u32,
    line: &[u8],
) -> Result<LineEntries, u16>
    requires { before ≤ most_steps }
    ensures value { entries_read result ≡ line_read kind (find names.now) before line.now }
    ensures line { IfOk result (IsLineAllowed kind before) }
{
    if is_skipped(line) {
        return Ok(LineEntries::Nothing);
    }
    let Some((word, rest)) = first_word(line) else {
        return Err(NOT_IN_GRAMMAR);
    };
    read_words(kind, names, before, word, rest)
}
