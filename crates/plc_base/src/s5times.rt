ghost use Rattle.std.specs.Prelude.{◌≡◌, ◌≤◌, ◌<◌, ◌*◌, ◌+◌, ◌↔◌, MatchResult, IfOk, IsErr};
ghost use Rattle.plc_base.specs.S5Time.{unit_of, base_number, base_of_s5time, s5time_of_units, s5time_of_ms, ms_of_s5time};

use crate::bcd::{BadBcd, bcd_to_unsigned, unsigned_to_bcd};

/// The time base of an S5TIME: what one unit of its count is.
#[derive(Clone, Copy, Debug, PartialEq, Eq)]
pub enum TimeBase {
    TenMs,
    HundredMs,
    OneSecond,
    TenSeconds,
}

/// The time is above 2H_46M_30S, the longest S5TIME.
#[derive(Clone, Copy, Debug, PartialEq, Eq)]
pub struct TooLong;

/// The greatest count of units that the three digits of an S5TIME hold.
pub const MOST_UNITS: u32 = 999;

/// The longest S5TIME in milliseconds, 2H_46M_30S.
const LONGEST_MS: u32 = 9_990_000;

impl TimeBase {
    /// The milliseconds of one unit.
    pub fn unit_ms(self) -> u32
        ensures { result ≡ unit_of self }
    {
        match self {
            TimeBase::TenMs => 10,
            TimeBase::HundredMs => 100,
            TimeBase::OneSecond => 1_000,
            TimeBase::TenSeconds => 10_000,
        }
    }

    /// The time base in bits 12 and 13 of an S5TIME.
    pub fn of_s5time(word: u16) -> TimeBase
        ensures { result ≡ base_of_s5time word }
    {
        match (word >> 12) % 4 {
            0 => TimeBase::TenMs,
            1 => TimeBase::HundredMs,
            2 => TimeBase::OneSecond,
            _ => TimeBase::TenSeconds,
        }
    }

    /// The S5TIME of `units` units of this base.
    pub fn s5time(self, units: u32) -> u16
        requires { units ≤ 999 }
        ensures { result ≡ s5time_of_units self units }
    {
        let digits = unsigned_to_bcd(units, 3) as u16;
        match self {
            TimeBase::TenMs => digits,
            TimeBase::HundredMs => 0x1000 + digits,
            TimeBase::OneSecond => 0x2000 + digits,
            TimeBase::TenSeconds => 0x3000 + digits,
        }
    }
}

/// The S5TIME of `ms` milliseconds: the smallest base that holds it, cut down to whole units.
///
/// # Errors
///
/// `TooLong` exactly above 9,990,000.
#[tactic(auto, unfolding(crate::specs::S5Time::s5time_of_ms, crate::specs::S5Time::smallest_base))]
pub fn s5time_of_ms(ms: u32) -> Result<u16, TooLong>
    ensures value { MatchResult result
        (λ word. s5time_of_ms ms ≡ Some word)
        (λ _. s5time_of_ms ms ≡ None) }
    ensures refused { IsErr result ↔ (9990000 < ms) }
{
    let base = match ms {
        0..=9_990 => TimeBase::TenMs,
        9_991..=99_900 => TimeBase::HundredMs,
        99_901..=999_000 => TimeBase::OneSecond,
        999_001..=LONGEST_MS => TimeBase::TenSeconds,
        _ => return Err(TooLong),
    };
    Ok(base.s5time(ms / base.unit_ms()))
}

/// The milliseconds of an S5TIME. Bits 14 and 15 mean nothing.
///
/// # Errors
///
/// `BadBcd` exactly where one of its three digits is above 9.
#[tactic(auto, unfolding(crate::specs::S5Time::ms_of_s5time))]
pub fn ms_of_s5time(word: u16) -> Result<u32, BadBcd>
    ensures value { MatchResult result (λ ms. ms_of_s5time word ≡ Some ms)
        (λ _. ms_of_s5time word ≡ None) }
    ensures bound { IfOk result (λ ms. ms ≤ 999 * unit_of (base_of_s5time word)) }
{
    match bcd_to_unsigned(u32::from(word), 3) {
        Some(units) => Ok(units * TimeBase::of_s5time(word).unit_ms()),
        None => Err(BadBcd),
    }
}
