//! A( to XN( and ).
ghost use Rattle.machine.specs.ExecState.{local_of};
ghost use Rattle.machine.specs.Outcomes.{ChangesLocal};
ghost use Rattle.machine.specs.Nesting.{nesting_opened, nesting_closed};

use crate::places::NO_OPERAND;
use frames::Running;
use plc_base::Check;

/// A(, AN(, O(, ON(, X(, XN(.
#[tactic(auto, unfolding(crate::specs::Nesting::nesting_opened))]
#[inline(never)]
pub(crate) fn nest(with: Check, s: &mut Running) -> Result<(), u8>
    ensures { ChangesLocal (nesting_opened with (local_of s.old)) s.old s.new result }
{
    if s.frame.brackets.begin(&mut s.regs, with) {
        Ok(())
    } else {
        Err(NO_OPERAND)
    }
}

/// ).
#[tactic(auto, unfolding(crate::specs::Nesting::nesting_closed))]
#[inline(never)]
pub(crate) fn unnest(s: &mut Running) -> Result<(), u8>
    ensures { ChangesLocal (nesting_closed (local_of s.old)) s.old s.new result }
{
    if s.frame.brackets.close(&mut s.regs) {
        Ok(())
    } else {
        Err(NO_OPERAND)
    }
}
