ghost use Rattle.std.specs.Prelude.{◌≡◌};
ghost use Rattle.alu.specs.Signed.{format_width};
ghost use Rattle.alu.specs.Codes.{of_sign, unordered_codes, codes_shown};
ghost use Rattle.alu.specs.Sums.{sum_codes};
ghost use Rattle.alu.specs.Division.{quotient_overflow};

use crate::formats::Format;
use status_word::Status;

/// What a number instruction shows of its result: the condition codes and the overflow.
#[derive(Clone, Copy)]
pub(crate) struct Codes {
    pub(crate) cc1: bool,
    pub(crate) cc0: bool,
    pub(crate) ov: bool,
}

impl Codes {
    /// The codes with these values of CC 1, CC 0 and OV.
    pub(crate) fn new(cc1: bool, cc0: bool, ov: bool) -> Codes
        ensures { result ≡ record { cc1 = cc1; cc0 = cc0; ov = ov } }
    {
        Codes { cc1, cc0, ov }
    }

    /// The codes of a result by its sign, with OV as given.
    pub(crate) fn of_sign(number: i64, ov: bool) -> Codes
        ensures { result ≡ of_sign number ov }
    {
        Codes::new(number > 0, number < 0, ov)
    }

    /// The codes of a true sum, by the range in which it lies.
    #[tactic(auto, unfolding(crate::specs::Sums::sum_codes))]
    pub(crate) fn of_sum(format: Format, sum: i64) -> Codes
        ensures { result ≡ sum_codes (format_width format) sum }
    {
        if format.holds(sum) {
            Codes::of_sign(sum, false)
        } else if sum > 0 {
            Codes::new(false, true, true)
        } else {
            Codes::new(sum.unsigned_abs() != format.modulus(), false, true)
        }
    }

    /// The codes of a division by zero.
    pub(crate) fn unordered_codes() -> Codes
        ensures { result ≡ unordered_codes }
    {
        Codes::new(true, true, true)
    }

    /// The codes of an overflow of the quotient.
    pub(crate) fn quotient_overflow() -> Codes
        ensures { result ≡ quotient_overflow }
    {
        Codes::new(true, false, true)
    }

    /// Sets CC 1, CC 0 and OV, and OS where OV is 1.
    #[tactic(auto, unfolding(crate::specs::Codes::codes_shown))]
    pub(crate) fn show(self, status: &mut Status)
        ensures { status.new ≡ codes_shown self status.old }
    {
        status.cc1 = self.cc1;
        status.cc0 = self.cc0;
        status.ov = self.ov;
        status.os = status.os || self.ov;
    }
}
