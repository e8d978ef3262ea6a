//! The master control relay: MCRA, MCRD, MCR( and )MCR.
ghost use Rattle.std.specs.Prelude.{◌≡◌};
ghost use Rattle.machine.specs.ExecState.{local_of};
ghost use Rattle.machine.specs.Outcomes.{ChangesLocal};
ghost use Rattle.machine.specs.Relay.{opening_zone, ending_zone, power_flow as power_flow_of, relay_effect};

use crate::places::NO_OPERAND;
use flat_code::RelayOperation;
use frames::Running;

/// RLO as the relay of the innermost frame lets it through: 0 while it is closed.
#[inline(always)]
pub(crate) fn power_flow(s: &Running) -> bool
    ensures { result ≡ power_flow_of (local_of s.now) }
{
    s.regs.status.rlo && !s.frame.relay.is_zone_closed()
}

// MCR(. The status bits change once the zone is open.
#[tactic(auto, unfolding(crate::specs::Relay::opening_zone))]
fn open_zone(s: &mut Running) -> Result<(), u8>
    ensures { ChangesLocal (opening_zone (local_of s.old)) s.old s.new result }
{
    if !s.frame.relay.open(s.regs.status.rlo) {
        return Err(NO_OPERAND);
    }
    s.regs.store(true);
    Ok(())
}

// )MCR.
#[tactic(auto, unfolding(crate::specs::Relay::ending_zone))]
fn end_zone(s: &mut Running) -> Result<(), u8>
    ensures { ChangesLocal (ending_zone (local_of s.old)) s.old s.new result }
{
    if !s.frame.relay.end() {
        return Err(NO_OPERAND);
    }
    s.regs.store(true);
    Ok(())
}

/// An instruction on the relay of the innermost frame.
#[inline(never)]
pub(crate) fn relay(which: RelayOperation, s: &mut Running) -> Result<(), u8>
    ensures { ChangesLocal (relay_effect which (local_of s.old)) s.old s.new result }
{
    match which {
        RelayOperation::Activate => {
            s.frame.relay.active = true;
            Ok(())
        }
        RelayOperation::Deactivate => {
            s.frame.relay.active = false;
            Ok(())
        }
        RelayOperation::Open => open_zone(s),
        RelayOperation::Close => end_zone(s),
    }
}
