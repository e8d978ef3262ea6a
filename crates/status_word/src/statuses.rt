ghost use Rattle.std.specs.Prelude.{◌≡◌, ◌<◌, ◌%◌, ◌*◌, ◌≤◌};
ghost use Rattle.status_word.specs.Flags.{flag_value};
ghost use Rattle.status_word.specs.Registers.{status_at_rest};
ghost use Rattle.status_word.specs.StatusNumber.{bit_as_number, status_number, status_of, status_shown};

use plc_base::{Flag, has_bit};

/// The status word of the CPU, from bit 0 on: /FC (first check, 0 where the next check is the
/// first of a logic string), RLO (result of logic operation), STA (status), OR, OS (stored
/// overflow), OV (overflow), CC 0 and CC 1 (condition codes), BR (binary result).
#[derive(Clone, Copy, Debug, PartialEq, Eq)]
pub struct Status {
    pub fc: bool,
    pub rlo: bool,
    pub sta: bool,
    pub or: bool,
    pub os: bool,
    pub ov: bool,
    pub cc0: bool,
    pub cc1: bool,
    pub br: bool,
}

impl Status {
    /// The status word 0.
    pub fn new() -> Status
        ensures { result ≡ status_at_rest }
    {
        Status {
            fc: false,
            rlo: false,
            sta: false,
            or: false,
            os: false,
            ov: false,
            cc0: false,
            cc1: false,
            br: false,
        }
    }

    /// The value of a condition as bit logic instructions read it.
    #[tactic(auto, using(crate::proofs::ExclusiveOr::differs), unfolding(crate::specs::Flags::flag_value))]
    pub fn flag(self, flag: Flag) -> bool
        ensures { result ≡ flag_value flag self }
    {
        match flag {
            Flag::Br => self.br,
            Flag::Ov => self.ov,
            Flag::Os => self.os,
            Flag::EqZero => !self.cc1 && !self.cc0,
            Flag::NeZero => self.cc1 ^ self.cc0,
            Flag::GtZero => self.cc1 && !self.cc0,
            Flag::LtZero => !self.cc1 && self.cc0,
            Flag::GeZero => !self.cc0,
            Flag::LeZero => !self.cc1,
            Flag::Uo => self.cc1 && self.cc0,
        }
    }

    /// All nine bits as a number below 512, as a monitoring line shows them.
    #[tactic(auto, using(crate::proofs::StatusNumberLaws::status_of_number_lem), unfolding(crate::specs::StatusNumber::status_number))]
    pub fn number(self) -> u16
        ensures value { result ≡ status_number self }
        ensures kept { status_of (status_number self) ≡ self }
        ensures bound { result < 512 }
    {
        weight(self.fc, 1)
            + weight(self.rlo, 2)
            + weight(self.sta, 4)
            + weight(self.or, 8)
            + weight(self.os, 16)
            + weight(self.ov, 32)
            + weight(self.cc0, 64)
            + weight(self.cc1, 128)
            + weight(self.br, 256)
    }

    /// The number that `L STW` loads: RLO, OS, OV, CC 0, CC 1 and BR at their bits, 0 elsewhere.
    pub fn loaded_number(self) -> u16
        ensures value { result ≡ status_number (status_shown self) }
        ensures lost { status_of result ≡ status_shown self }
        ensures bound { result < 512 }
    {
        let shown = Status {
            fc: false,
            sta: false,
            or: false,
            ..self
        };
        shown.number()
    }

    /// The status word that `T STW` makes of the lowest nine bits of accumulator 1.
    #[tactic(auto, using(crate::proofs::StatusNumberLaws::number_of_status_lem), unfolding(crate::specs::StatusNumber::status_of))]
    pub fn transferred_status(accumulator: u32) -> Status
        ensures value { result ≡ status_of accumulator }
        ensures number { status_number result ≡ accumulator % 512 }
    {
        Status {
            fc: has_bit(accumulator, 0),
            rlo: has_bit(accumulator, 1),
            sta: has_bit(accumulator, 2),
            or: has_bit(accumulator, 3),
            os: has_bit(accumulator, 4),
            ov: has_bit(accumulator, 5),
            cc0: has_bit(accumulator, 6),
            cc1: has_bit(accumulator, 7),
            br: has_bit(accumulator, 8),
        }
    }
}

fn weight(bit: bool, weight: u16) -> u16
    ensures value { result ≡ weight * bit_as_number bit }
    ensures bound { result ≤ weight }
{
    if bit { weight } else { 0 }
}
