ghost use Rattle.std.specs.Prelude.{◌≡◌, ◌≤◌, ◌^◌, min};
ghost use Rattle.std.specs.Char.{is_ascii_digit};
ghost use Rattle.std.specs.List.{list_all};
ghost use Rattle.plc_base.specs.Decimal.{decimal_value, decimal_up_to, is_decimal};

/// The number that decimal digits of ASCII write, or `cap` where it is greater.
#[tactic(auto, using(crate::proofs::DecimalLemmas::decimal_value_more, crate::proofs::DecimalLemmas::decimal_value_none))]
pub fn capped_decimal(digits: &[u8], cap: u64) -> u64
    requires { cap ≤ 10 ^ 18 }
    ensures { result ≡ min (decimal_value digits.now) cap }
{
    let mut value = 0;
    for digit in digits {
        value = (10 * value + u64::from(digit.saturating_sub(b'0'))).min(cap);
    }
    value
}

/// Whether each of these bytes is a decimal digit of ASCII.
pub fn are_digits(bytes: &[u8]) -> bool
    ensures { result ≡ list_all is_ascii_digit bytes.now }
{
    bytes.iter().all(|byte| byte.is_ascii_digit())
}

/// Whether a word is one or more decimal digits, and nothing else.
fn is_decimal(word: &[u8]) -> bool
    ensures { result ≡ is_decimal word.now }
{
    match word {
        [] => false,
        [_, ..] => are_digits(word),
    }
}

/// The number that a word writes in decimal digits, with no sign. `None` exactly where it is above
/// `most`, or the word is something else.
#[tactic(auto, unfolding(crate::specs::Decimal::decimal_up_to))]
pub fn decimal_up_to(word: &[u8], most: u32) -> Option<u32>
    ensures { result ≡ decimal_up_to most word.now }
{
    let value = capped_decimal(word, u64::from(most) + 1);
    if is_decimal(word) && value <= u64::from(most) {
        Some(value as u32)
    } else {
        None
    }
}
