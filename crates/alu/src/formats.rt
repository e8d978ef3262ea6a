ghost use Rattle.std.specs.Prelude.{◌≡◌, ◌<◌, ◌≤◌, ◌-◌, ◌%◌, ◌^◌, negsuc, pos, ◌≤ℤ◌, ◌<ℤ◌, unsigned_abs};
ghost use Rattle.alu.specs.Signed.{format_width, signed_value, modulo, in_range};
ghost use Rattle.alu.specs.Accumulators.{with_low};

/// The format of the integers that an instruction works on: INT, 16 bits in the low word of an
/// accumulator, or DINT, 32 bits.
#[derive(Clone, Copy)]
pub(crate) enum Format {
    Int,
    Dint,
}

impl Format {
    /// The integer in an accumulator.
    pub(crate) fn read(self, accumulator: u32) -> i64
        ensures value { result ≡ signed_value (format_width self) accumulator }
        ensures size { unsigned_abs result ≤ 2 ^ 31 }
        ensures low { negsuc (2 ^ 31 - 1) ≤ℤ result }
        ensures high { result <ℤ pos (2 ^ 31) }
    {
        match self {
            Format::Int => i64::from(int_of(accumulator)),
            Format::Dint => i64::from(dint_of(accumulator)),
        }
    }

    /// The accumulator with the lowest bits of `number` at its lowest bits.
    pub(crate) fn put(self, accumulator: u32, number: i64) -> u32
        ensures { result
            ≡ with_low (format_width self) accumulator (modulo (format_width self) number) }
    {
        self.replace(accumulator, self.bits(number))
    }

    /// The number of bits.
    pub(crate) fn width(self) -> u32
        ensures { result ≡ format_width self }
    {
        match self {
            Format::Int => 16,
            Format::Dint => 32,
        }
    }

    /// The bits of this format in an accumulator.
    pub(crate) fn low_bits(self, accumulator: u32) -> u32
        ensures { result ≡ accumulator % 2 ^ format_width self }
    {
        match self {
            Format::Int => accumulator % 0x1_0000,
            Format::Dint => accumulator,
        }
    }

    /// The accumulator with these bits at its lowest bits.
    #[tactic(auto, unfolding(crate::specs::Accumulators::with_low))]
    pub(crate) fn replace(self, accumulator: u32, bits: u32) -> u32
        requires { bits < 2 ^ format_width self }
        ensures { result ≡ with_low (format_width self) accumulator bits }
    {
        match self {
            Format::Int => accumulator - accumulator % 0x1_0000 + bits,
            Format::Dint => bits,
        }
    }

    /// The lowest bits of a number in two's complement.
    #[tactic(auto, unfolding(crate::specs::Signed::modulo))]
    pub(crate) fn bits(self, number: i64) -> u32
        ensures value { result ≡ modulo (format_width self) number }
        ensures bound { result < 2 ^ format_width self }
    {
        match self {
            Format::Int => u32::from(low_word(number)),
            Format::Dint => low_dword(number),
        }
    }

    /// How many integers there are of this format.
    pub(crate) fn modulus(self) -> u64
        ensures { result ≡ 2 ^ format_width self }
    {
        match self {
            Format::Int => 0x1_0000,
            Format::Dint => 0x1_0000_0000,
        }
    }

    /// Whether an integer of this format can be `number`.
    #[tactic(auto, unfolding(crate::specs::Signed::in_range))]
    pub(crate) fn holds(self, number: i64) -> bool
        ensures { result ≡ in_range (format_width self) number }
    {
        match self {
            Format::Int => -0x8000 <= number && number < 0x8000,
            Format::Dint => -0x8000_0000 <= number && number < 0x8000_0000,
        }
    }
}

/// The lowest 16 bits of a number in two's complement.
#[tactic(auto, unfolding(crate::specs::Signed::modulo))]
pub(crate) fn low_word(number: i64) -> u16
    ensures { result ≡ modulo 16 number }
{
    number.rem_euclid(0x1_0000) as u16
}

/// The lowest 32 bits of a number in two's complement.
#[tactic(auto, unfolding(crate::specs::Signed::modulo))]
pub(crate) fn low_dword(number: i64) -> u32
    ensures { result ≡ modulo 32 number }
{
    number.rem_euclid(0x1_0000_0000) as u32
}

/// The low word of an accumulator.
pub(crate) fn accumulator_word(accumulator: u32) -> u16
    ensures { result ≡ accumulator % 2 ^ 16 }
{
    (accumulator % 0x1_0000) as u16
}

/// The integer of 16 bits in the low word of an accumulator.
#[tactic(auto, unfolding(crate::specs::Signed::signed_value))]
pub(crate) fn int_of(accumulator: u32) -> i16
    ensures { result ≡ signed_value 16 accumulator }
{
    accumulator_word(accumulator).cast_signed()
}

/// The integer of 32 bits in an accumulator.
#[tactic(auto, unfolding(crate::specs::Signed::signed_value))]
pub(crate) fn dint_of(accumulator: u32) -> i32
    ensures { result ≡ signed_value 32 accumulator }
{
    accumulator.cast_signed()
}
