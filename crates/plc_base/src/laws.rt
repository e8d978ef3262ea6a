//! Laws of the definitions that contracts cite: each function does nothing, and its contract is the
//! law.

ghost use Rattle.std.specs.Prelude.{◌≡◌, ◌≤◌, ◌*◌, ◌/◌, List, [], None, Some, nat_abs, option_and_then};
ghost use Rattle.plc_base.specs.Bcd.{signed_of_bcd, bcd_of_signed};
ghost use Rattle.plc_base.specs.Least.{least, IsLeastRefusal};
ghost use Rattle.plc_base.specs.Pointer.{place_at_pointer, pointer_of};
ghost use Rattle.plc_base.specs.declared.refusals.Refusal.{Refusal};
ghost use Rattle.plc_base.specs.S5Time.{ms_of_s5time, s5time_of_ms, smallest_base, unit_of};

use crate::places::Place;
use crate::s5times::TimeBase;

/// A number in range comes back from its three BCD digits and sign.
pub fn int_and_back(number: i16)
    requires { nat_abs number ≤ 999 }
    ensures { option_and_then (signed_of_bcd 3) (bcd_of_signed 3 number) ≡ Some number }
{}

/// A number in range comes back from its seven BCD digits and sign.
pub fn dint_and_back(number: i32)
    requires { nat_abs number ≤ 9999999 }
    ensures { option_and_then (signed_of_bcd 7) (bcd_of_signed 7 number) ≡ Some number }
{}

/// A place with no data block number comes back from its pointer.
pub fn place_and_back(place: &Place)
    requires no_number { place.now.number ≡ 0 }
    requires bit { place.now.bit ≤ 7 }
    ensures { place_at_pointer (pointer_of place.now) ≡ Some place.now }
{
    let _byte = place.byte;
}

/// A time comes back from its S5TIME, cut down to whole units of its base.
pub fn ms_and_back(ms: u32, base: TimeBase)
    requires { smallest_base ms ≡ Some base }
    ensures { option_and_then ms_of_s5time (s5time_of_ms ms)
        ≡ Some (ms / unit_of base * unit_of base) }
{}

/// The least refusal of a list is one of the list, and none of the list comes before it; only the
/// empty list has none.
pub fn law_of_least()
    ensures none { (rs : List Refusal) → least rs ≡ None → rs ≡ [] }
    ensures some { (rs : List Refusal) (r : Refusal) → least rs ≡ Some r
        → IsLeastRefusal rs r }
{}
