//! Requests as texts spell them.
ghost use Rattle.std.specs.Prelude.{◌≡◌, ◌∷◌, ◌++◌, ◌≤◌, ◌<◌, [], length, false, IfOk, MatchOption};
ghost use Rattle.flat_code.specs.Names.{find};
ghost use Rattle.var_access.specs.Entry.{IsRequest};
ghost use Rattle.var_access.specs.Readings.{both_readings as both_of, reading_map, words_of};
ghost use Rattle.var_access.specs.RequestFault.{request_or_fault};
ghost use Rattle.var_access.specs.Requests.{kind_of_word, monitor_request, monitor_on, one_word, part_len, comma_parts, read_request, request_line, request_of, vars_of, write_request, write_to};

use crate::readings::{address_number, both, first_word, is_hex, last_word, trim};
use crate::requests::{MOST_VARS, Request, Var, Vars};
use crate::text_rules::NOT_IN_GRAMMAR;
use crate::variable_texts::{var_of, width_value};
use flat_code::Names;
use plc_base::{BlockId, BlockKind};
use std::alloc::Global;

/// Why a request isn't read.
#[derive(Clone, Copy, Debug, PartialEq, Eq)]
pub enum RequestFault {
    /// It breaks this rule of texts, and none that is less.
    BadRequest { rule: u16 },
    /// Memory ran out.
    NoMemory,
}

/// How many bytes stand before the first comma that doesn't stand between quotes.
fn part_len(text: &[u8]) -> usize
    ensures value { result ≡ part_len false text.now }
    ensures within { result ≤ length text.now }
{
    let mut quoted = false;
    let mut len = 0;
    for byte in text {
        if *byte == b',' && !quoted {
            return len;
        }
        if *byte == b'"' {
            quoted = !quoted;
        }
        len += 1;
    }
    len
}

/// What stands before the first comma outside of quotes, and what follows it, if there is one.
#[tactic(auto, using(crate::proofs::PartLemmas::part_last))]
fn first_part(text: &[u8]) -> (&[u8], Option<&[u8]>)
    ensures { MatchOption result.1 (comma_parts false text.now ≡ result.0.now ∷ [])
        (λ rest. comma_parts false text.now ≡ result.0.now ∷ comma_parts false rest.now) }
{
    let (part, rest) = text.split_at(part_len(text));
    match rest {
        [] => (part, None),
        [_, rest @ ..] => (part, Some(rest)),
    }
}

/// Variables with one more behind them, or the least rule that one of these parts breaks.
fn with_var(vars: Result<Vars, u16>, var: Result<Var, u16>) -> Result<Vars, u16>
    requires { IfOk vars (λ vs. length vs < 8) }
    ensures { result ≡ reading_map (λ p. p.0 ++ p.1 ∷ []) (both_of vars var) }
{
    let (mut vars, var) = both(vars, var)?;
    vars.push(var);
    Ok(vars)
}

/// The variables of a read, with commas between.
fn vars_of(names: &Names, text: &[u8]) -> Result<Vars, u16>
    ensures { result ≡ vars_of (find names.now) text.now }
{
    let mut vars = Ok(Vars::new());
    let mut left = text;
    for _ in 0..MOST_VARS {
        let (part, behind) = first_part(left);
        vars = with_var(vars, var_of(names, trim(part)));
        match behind {
            None => return vars,
            Some(rest) => left = rest,
        }
    }
    Err(NOT_IN_GRAMMAR)
}

/// `read V, V ..`, behind its first word.
#[tactic(auto, unfolding(crate::specs::Requests::read_request))]
fn read_request(names: &Names, text: &[u8]) -> Result<Request, u16>
    ensures { result ≡ read_request (find names.now) text.now }
{
    let vars = vars_of(names, text)?;
    Ok(Request::ReadVars { vars })
}

/// A write of the value that a word spells; for a variable that breaks a rule it is any hexadecimal
/// number.
fn write_to(var: Result<Var, u16>, word: &[u8]) -> Result<Request, u16>
    ensures { result ≡ write_to var word.now }
{
    match var {
        Ok(var) => {
            let value = width_value(var.width, word)?;
            Ok(Request::WriteVar { var, value })
        }
        Err(rule) => {
            if is_hex(word) {
                Err(rule)
            } else {
                Err(NOT_IN_GRAMMAR)
            }
        }
    }
}

/// `write V h`, behind its first word.
#[tactic(auto, unfolding(crate::specs::Requests::write_request))]
fn write_request(names: &Names, text: &[u8]) -> Result<Request, u16>
    ensures { result ≡ write_request (find names.now) text.now }
{
    let (var, value) = last_word(trim(text));
    write_to(var_of(names, trim(var)), value)
}

/// The kind of a code block, by its word: `OB`, `FC` or `FB`.
///
/// # Errors
///
/// `NOT_IN_GRAMMAR` where it is another word.
#[tactic(auto, unfolding(crate::specs::Requests::kind_of_word))]
pub fn kind_of_word(word: &[u8]) -> Result<BlockKind, u16>
    ensures { result ≡ kind_of_word word.now }
{
    if word == b"OB".as_slice() {
        Ok(BlockKind::Ob)
    } else if word == b"FC".as_slice() {
        Ok(BlockKind::Fc)
    } else if word == b"FB".as_slice() {
        Ok(BlockKind::Fb)
    } else {
        Err(NOT_IN_GRAMMAR)
    }
}

/// `on KIND n`, by its words.
fn monitor_on(how: &[u8], kind: &[u8], number: &[u8]) -> Result<Request, u16>
    ensures { result ≡ monitor_on how.now kind.now number.now }
{
    if how != b"on".as_slice() {
        return Err(NOT_IN_GRAMMAR);
    }
    let (kind, number) = both(kind_of_word(kind), address_number(number))?;
    Ok(Request::MonitorOn {
        block: BlockId { kind, number },
    })
}

/// `monitor on KIND n` or `monitor off`, behind its first word.
#[tactic(auto, unfolding(crate::specs::Requests::monitor_request))]
fn monitor_request(text: &[u8]) -> Result<Request, u16>
    ensures { result ≡ monitor_request (words_of text.now) }
{
    let Some((how, rest)) = first_word(text) else {
        return Err(NOT_IN_GRAMMAR);
    };
    let Some((kind, rest)) = first_word(rest) else {
        return if how == b"off".as_slice() {
            Ok(Request::MonitorOff)
        } else {
            Err(NOT_IN_GRAMMAR)
        };
    };
    let Some((number, rest)) = first_word(rest) else {
        return Err(NOT_IN_GRAMMAR);
    };
    if first_word(rest).is_some() {
        return Err(NOT_IN_GRAMMAR);
    }
    monitor_on(how, kind, number)
}

/// A request of one word, behind which no other stands.
fn one_word(request: Request, text: &[u8]) -> Result<Request, u16>
    ensures { result ≡ one_word request (words_of text.now) }
{
    if first_word(text).is_some() {
        Err(NOT_IN_GRAMMAR)
    } else {
        Ok(request)
    }
}

/// The request that its first word and what follows it spell.
///
/// # Errors
///
/// The least rule that they break: `NOT_IN_GRAMMAR`, `OUT_OF_RANGE` or `UNKNOWN_NAME`.
#[tactic(auto, using(crate::proofs::ValidLemmas::request_valid))]
pub fn request_of(names: &Names, word: &[u8], text: &[u8]) -> Result<Request, u16>
    ensures value { result ≡ request_of (find names.now) word.now text.now }
    ensures valid { IfOk result IsRequest }
{
    request_by_word(names, word, text)
}

/// The request that its first word and what follows it spell; `request_of` says besides that it is valid.
#[tactic(auto, unfolding(crate::specs::Requests::request_of))]
fn request_by_word(names: &Names, word: &[u8], text: &[u8]) -> Result<Request, u16>
    ensures { result ≡ request_of (find names.now) word.now text.now }
{
    if word == b"read".as_slice() {
        read_request(names, text)
    } else if word == b"write".as_slice() {
        write_request(names, text)
    } else if word == b"stop".as_slice() {
        one_word(Request::Stop, text)
    } else if word == b"restart".as_slice() {
        one_word(Request::Restart, text)
    } else if word == b"monitor".as_slice() {
        monitor_request(text)
    } else if word == b"diag".as_slice() {
        one_word(Request::Diag, text)
    } else {
        Err(NOT_IN_GRAMMAR)
    }
}

/// The request that a text spells.
#[tactic(auto, unfolding(crate::specs::Requests::request_line))]
fn request_line(names: &Names, text: &[u8]) -> Result<Request, u16>
    ensures { result ≡ request_line (find names.now) text.now }
{
    let Some((word, rest)) = first_word(text) else {
        return Err(NOT_IN_GRAMMAR);
    };
    request_of(names, word, rest)
}

/// The request that a text spells: `read V, V ..` with one to eight variables, `write V h`, `stop`,
/// `restart`, `monitor on KIND n` with OB, FC or FB, `monitor off`, or `diag`.
///
/// A variable is `I`, `Q` or `M` with a byte and a bit, as `M 0.3`, or with `B`, `W` or `D` and a byte,
/// as `MW 2`; or `DBX`, `DBB`, `DBW` or `DBD` of a data block, as `DB10.DBX 0.1` and `DB10.DBW 2`; or a
/// symbol in quotes. A value has two hexadecimal digits for each byte of its variable, and is 0 or 1
/// for a bit.
///
/// No memory is taken, so `NoMemory` doesn't come.
///
/// # Errors
///
/// `BadRequest` with the least rule that the text breaks.
#[tactic(auto, using(crate::proofs::ValidLemmas::line_valid))]
pub fn parse_request(_alloc: Global, text: &[u8], names: &Names) -> Result<Request, RequestFault>
    ensures value { result ≡ request_or_fault (request_line (find names.now) text.now) }
    ensures valid { IfOk result IsRequest }
{
    match request_line(names, text) {
        Ok(request) => Ok(request),
        Err(rule) => Err(RequestFault::BadRequest { rule }),
    }
}
