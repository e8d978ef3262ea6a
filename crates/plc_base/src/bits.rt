ghost use Rattle.std.specs.Prelude.{◌≡◌, ◌<◌};
ghost use Rattle.plc_base.specs.Bits.{has_bit};

/// Whether a bit of a number is 1; bit 0 is the lowest.
pub fn has_bit(number: u32, place: u32) -> bool
    requires { place < 32 }
    ensures { result ≡ has_bit number place }
{
    (number >> place) % 2 == 1
}
