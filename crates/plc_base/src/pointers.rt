ghost use Rattle.std.specs.Prelude.{◌≡◌, ◌≤◌, MatchResult};
ghost use Rattle.plc_base.specs.Pointer.{place_at_pointer, pointer_of};

use crate::places::{Area, Place};

/// A pointer names no area: its bit 31 is 0, or its area bits are 7.
#[derive(Clone, Copy, Debug, PartialEq, Eq)]
pub struct BadArea;

/// The place that an area-crossing pointer names. Its `number` is 0.
///
/// # Errors
///
/// `BadArea` exactly where bit 31 is 0 or the area bits are 7.
#[tactic(auto, unfolding(crate::specs::Pointer::place_at_pointer))]
pub fn place_of_pointer(pointer: u32) -> Result<Place, BadArea>
    ensures { MatchResult result
        (λ place. place_at_pointer pointer ≡ Some place)
        (λ _. place_at_pointer pointer ≡ None) }
{
    if pointer >> 31 == 0 {
        return Err(BadArea);
    }
    match Area::from_number(((pointer >> 24) % 8) as u8) {
        Some(area) => Ok(Place {
            area,
            number: 0,
            byte: ((pointer >> 3) % 0x1_0000) as u16,
            bit: (pointer % 8) as u8,
        }),
        None => Err(BadArea),
    }
}

/// The area-crossing pointer to a place. The number of a data block is not in it.
pub fn pointer_of_place(place: &Place) -> u32
    requires { place.now.bit ≤ 7 }
    ensures { result ≡ pointer_of place.now }
{
    0x8000_0000
        + (u32::from(place.area.number()) << 24)
        + (u32::from(place.byte) << 3)
        + u32::from(place.bit)
}
