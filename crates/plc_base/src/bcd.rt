ghost use Rattle.std.specs.Prelude.{◌≡◌, ◌≤◌, ◌<◌, ◌^◌, ◌↔◌, IsNone, MatchResult, IfSome, nat_abs};
ghost use Rattle.plc_base.specs.Bcd.{unsigned_of_bcd, signed_of_bcd, bcd_of_signed, bcd_digits};

/// A digit of a BCD number is above 9, or its sign digit is neither 0 nor 15.
#[derive(Clone, Copy, Debug, PartialEq, Eq)]
pub struct BadBcd;

/// The greatest number of three decimal digits.
const MOST_OF_3_DIGITS: u16 = 999;

/// The greatest number of seven decimal digits.
const MOST_OF_7_DIGITS: u32 = 9_999_999;

/// The number of the lowest `count` digits of `word`, with no sign, as a counter value or the
/// digits of an S5TIME. `None` exactly where a digit is above 9.
#[tactic(auto, unfolding(crate::specs::Bcd::unsigned_of_bcd))]
pub fn bcd_to_unsigned(word: u32, count: u32) -> Option<u32>
    requires { count ≤ 7 }
    ensures number { result ≡ unsigned_of_bcd count word }
    ensures bound { IfSome result (λ n. n < 10 ^ count) }
{
    let mut number = 0;
    for i in (0..count).rev() {
        let digit = (word >> (4 * i)) % 16;
        if digit > 9 {
            return None;
        }
        number = 10 * number + digit;
    }
    Some(number)
}

/// The BCD word of the lowest `count` decimal digits of `number`, with no sign.
pub fn unsigned_to_bcd(number: u32, count: u32) -> u32
    requires { count ≤ 7 }
    ensures digits { result ≡ bcd_digits count number }
    ensures bound { result < 16 ^ count }
{
    let mut word = 0;
    for i in (0..count).rev() {
        let digit = number / 10u32.pow(i) % 10;
        word = 16 * word + digit;
    }
    word
}

/// The number of a signed BCD word of `count` digits. `None` exactly where a digit is above 9, or
/// the sign digit is neither 0 nor 15.
#[tactic(auto, unfolding(crate::specs::Bcd::signed_of_bcd))]
fn signed_number(word: u32, count: u32) -> Option<i32>
    requires { count ≤ 7 }
    ensures number { result ≡ signed_of_bcd count word }
    ensures bound { IfSome result (λ n. nat_abs n < 10 ^ count) }
{
    let size = bcd_to_unsigned(word, count)? as i32;
    match (word >> (4 * count)) % 16 {
        0 => Some(size),
        15 => Some(-size),
        _ => None,
    }
}

/// The number of a signed BCD word of three digits, as `BTI` reads it.
///
/// # Errors
///
/// `BadBcd` exactly where a digit is above 9, or the sign digit is neither 0 nor 15.
pub fn bcd_to_int(word: u16) -> Result<i16, BadBcd>
    ensures { MatchResult result
        (λ n. signed_of_bcd 3 word ≡ Some n)
        (λ _. signed_of_bcd 3 word ≡ None) }
{
    match signed_number(u32::from(word), 3) {
        Some(number) => Ok(number as i16),
        None => Err(BadBcd),
    }
}

/// The number of a signed BCD word of seven digits, as `BTD` reads it.
///
/// # Errors
///
/// `BadBcd` exactly where a digit is above 9, or the sign digit is neither 0 nor 15.
pub fn bcd7_to_dint(word: u32) -> Result<i32, BadBcd>
    ensures { MatchResult result
        (λ n. signed_of_bcd 7 word ≡ Some n)
        (λ _. signed_of_bcd 7 word ≡ None) }
{
    signed_number(word, 7).ok_or(BadBcd)
}

/// The signed BCD word of `number`, as `ITB` makes it. `None` exactly beyond -999 to 999.
#[tactic(auto, unfolding(crate::specs::Bcd::bcd_of_signed))]
pub fn int_to_bcd(number: i16) -> Option<u16>
    ensures value { result ≡ bcd_of_signed 3 number }
    ensures none { IsNone result ↔ (999 < nat_abs number) }
{
    let size = number.unsigned_abs();
    if size > MOST_OF_3_DIGITS {
        return None;
    }
    let digits = unsigned_to_bcd(u32::from(size), 3) as u16;
    if number < 0 {
        Some(0xF000 + digits)
    } else {
        Some(digits)
    }
}

/// The signed BCD word of `number`, as `DTB` makes it. `None` exactly beyond -9,999,999 to
/// 9,999,999.
#[tactic(auto, unfolding(crate::specs::Bcd::bcd_of_signed))]
pub fn dint_to_bcd7(number: i32) -> Option<u32>
    ensures value { result ≡ bcd_of_signed 7 number }
    ensures none { IsNone result ↔ (9999999 < nat_abs number) }
{
    let size = number.unsigned_abs();
    if size > MOST_OF_7_DIGITS {
        return None;
    }
    let digits = unsigned_to_bcd(size, 7);
    if number < 0 {
        Some(0xF000_0000 + digits)
    } else {
        Some(digits)
    }
}
