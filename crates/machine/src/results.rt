//! RET_VAL of a system function.
ghost use Rattle.machine.specs.Results.{GivesResult};

use crate::copies::put;
use crate::places::Location;
use frames::{Activation, Binding};
use plc_mem::Memory;

/// Writes RET_VAL where it was bound, in the width of that place. Nothing changes where nothing is
/// bound, or where no such place exists, neither of which comes of the `result` of a system call in
/// an activation that fits.
pub fn give_result(m: &mut Memory, a: &mut Activation, to: &Binding, value: u32)
    ensures { GivesResult to.now value a.old a.new m.old m.new }
{
    match *to {
        Binding::AtPlace {
            place,
            width,
            frame,
        } => {
            let at = Location {
                place,
                width,
                frame,
            };
            put(&at, value, &mut a.running, m);
        }
        _ => {}
    }
}
