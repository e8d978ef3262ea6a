ghost use Rattle.std.specs.Prelude.{◌≡◌, ◌<◌, ◌≤◌, ℕ, true, List, length, not, position, IfSome};
ghost use Rattle.stl_lexer.specs.declared.kinds.TokenKind.{TokenKind};
ghost use Rattle.stl_lexer.specs.Bytes.{is_source_byte as is_source_byte_of};
ghost use Rattle.stl_lexer.specs.Forms.{has_form};
ghost use Rattle.stl_lexer.specs.Rules.{characters_rule, fault_of, rule_broken_by_token, rule_without_form};

use crate::bytes::is_source_byte;
use crate::kinds::{TokenKind, is_plain};
use crate::literals::{based_rule, decimal_rule, number_rule, time_rule};

/// Rule 1: a byte begins no token.
pub(crate) const NO_TOKEN: u16 = 1;

/// Rule 2: a quoted name, characters or an attribute without end.
pub(crate) const NO_END: u16 = 2;

/// Rule 3: a literal with wrong digits, parts or length.
pub(crate) const WRONG_LITERAL: u16 = 3;

/// Rule 4: a literal beyond its range.
pub(crate) const OUT_OF_RANGE: u16 = 4;

/// The greatest decimal number.
pub const GREATEST_NUMBER: u32 = 65_535;

/// The greatest decimal number behind the mark `-`.
pub const GREATEST_NEGATED: u32 = 32_768;

/// The greatest number of 32 bits with a sign.
pub const GREATEST_LONG: u32 = 2_147_483_647;

/// The greatest number of 32 bits behind a `-`.
pub const GREATEST_NEGATED_LONG: u32 = 2_147_483_648;

/// The greatest count value.
pub const GREATEST_COUNT: u32 = 999;

/// The greatest time in the format S5TIME, in milliseconds.
pub const GREATEST_S5TIME: u32 = 9_990_000;

/// Where numbers are cut off: above each limit of a literal.
pub(crate) const VALUE_CAP: u64 = 4_294_967_296;

/// The most bytes between the quotes of characters.
pub(crate) const MOST_CHARACTERS: usize = 4;

/// A broken rule of tokens, and the place in the token where it is broken.
#[derive(Clone, Copy, Debug, PartialEq, Eq)]
pub(crate) struct Fault {
    pub(crate) offset: usize,
    pub(crate) rule: u16,
}

/// The rule that characters break by their length.
#[tactic(auto, unfolding(crate::specs::Rules::characters_rule))]
fn characters_rule(token: &[u8]) -> Option<u16>
    ensures { result ≡ characters_rule token.now }
{
    if token.len() > 2 && token.len() <= MOST_CHARACTERS + 2 {
        None
    } else {
        Some(WRONG_LITERAL)
    }
}

/// The rule that a token of this kind breaks by its digits, parts, length or range; `minus` says
/// that the mark `-` stands before it.
#[tactic(auto, unfolding(crate::specs::Rules::rule_broken_by_token))]
fn rule_of(kind: TokenKind, token: &[u8], minus: bool) -> Option<u16>
    ensures { result ≡ rule_broken_by_token kind token.now minus }
{
    match kind {
        TokenKind::Number => decimal_rule(token, minus),
        TokenKind::Characters => characters_rule(token),
        TokenKind::Based => based_rule(token),
        TokenKind::NumberLiteral => number_rule(token),
        TokenKind::TimeLiteral => time_rule(token),
        _ => None,
    }
}

/// The place of the first byte that no source holds.
fn foreign_byte(kind: TokenKind, token: &[u8]) -> Option<usize>
    requires { (after : List ℕ) × (has_form kind token.now after ≡ true) }
    ensures value { result ≡ position (λ b. not (is_source_byte_of b)) token.now }
    ensures within { IfSome result (λ offset. offset < length token.now) }
{
    if is_plain(kind) {
        return None;
    }
    token.iter().position(|b| !is_source_byte(*b))
}

/// The first thing that is wrong with a token: its own rule, else a byte that no source holds.
#[tactic(auto, unfolding(crate::specs::Rules::fault_of))]
pub(crate) fn fault_of(kind: TokenKind, token: &[u8], minus: bool) -> Option<Fault>
    requires { (after : List ℕ) × (has_form kind token.now after ≡ true) }
    ensures value { result ≡ fault_of kind token.now minus }
    ensures within { IfSome result (λ fault. fault.offset ≤ length token.now) }
{
    match rule_of(kind, token, minus) {
        Some(rule) => Some(Fault { offset: 0, rule }),
        None => match foreign_byte(kind, token) {
            Some(offset) => Some(Fault {
                offset,
                rule: NO_TOKEN,
            }),
            None => None,
        },
    }
}

/// The rule that is broken where no token begins.
#[tactic(auto, unfolding(crate::specs::Rules::rule_without_form))]
pub(crate) fn rule_without_form(text: &[u8]) -> u16
    ensures { result ≡ rule_without_form text.now }
{
    match text {
        [b'"', b'"', ..] => NO_TOKEN,
        [b'"' | b'\'' | b'{', ..] => NO_END,
        _ => NO_TOKEN,
    }
}
