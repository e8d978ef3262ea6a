ghost use Rattle.std.specs.Prelude.{◌≡◌, ◌≤◌, ◌<◌, IsTrue};
ghost use Rattle.ob_sched.specs.OrganizationBlock.{is_interrupt};
ghost use Rattle.ob_sched.specs.StartInformation.{IsEvent, event_ob, ob_of_error, event_class, interrupt_code, start_code, event_block_kind, event_number, event_value, start_info};

use crate::organization_blocks::is_asynchronous_error;
use plc_base::error_codes;

/// The start information of an organization block: its first 20 local bytes.
#[derive(Clone, Copy, Debug, Default, PartialEq, Eq)]
pub struct StartInfo {
    /// The local bytes 0 to 19 of the organization block at its start.
    pub bytes: [u8; 20],
}

/// What starts an organization block.
#[derive(Clone, Copy, Debug, PartialEq, Eq)]
pub enum StartEvent {
    /// OB 1: the program cycle, the first one after a start or a later one.
    Cycle {
        first: bool,
    },
    /// OB 100: a start of the controller.
    Startup,
    /// OB 10 to 17 and 40 to 47: a time-of-day or hardware interrupt from outside, with its value.
    Arrival {
        ob: u16,
        value: u32,
    },
    /// OB 20 to 23: the delay of this time-delay interrupt has ended.
    Delay {
        ob: u16,
    },
    /// OB 30 to 38: the period of this cyclic interrupt has ended.
    Period {
        ob: u16,
    },
    /// OB 80: the cycle time was exceeded.
    CycleTime,
    /// OB 80: a request of this OB, which is no hardware interrupt, came while it was still
    /// pending or active.
    Missed {
        ob: u16,
    },
    /// OB 80: a request of this hardware interrupt found its queue full.
    QueueFull {
        ob: u16,
    },
    /// OB 85: this OB isn't loaded.
    NotLoaded {
        ob: u16,
    },
    /// OB 121 and 122: a synchronous error with its code, in the block of this kind and number, at a
    /// source line. The kinds are 1 OB, 2 FC and 3 FB.
    Synchronous {
        code: u8,
        kind: u8,
        number: u16,
        line: u32,
    },
}

/// The organization block that a synchronous error starts: OB 122 for an access error to
/// peripherals, else OB 121.
fn ob_of_error(code: u8) -> u16
    ensures { result ≡ ob_of_error code }
{
    if code == error_codes::NO_PERIPHERAL || code == error_codes::NO_PERIPHERAL_TO_WRITE {
        122
    } else {
        121
    }
}

/// Byte 0 of the start information, the event class, by the organization block that starts.
fn event_class(ob: u16) -> u8
    ensures { result ≡ event_class ob }
{
    if is_asynchronous_error(ob) {
        return 0x35;
    }
    match ob {
        100 => 0x13,
        121 => 0x25,
        122 => 0x29,
        _ => 0x11,
    }
}

/// The start code of an interrupt OB: 16#11, 16#21, 16#31 or 16#41 by its group, and one more for
/// each further OB of the group.
fn interrupt_code(ob: u16) -> u8
    requires { IsTrue (is_interrupt ob) }
    ensures { result ≡ interrupt_code ob }
{
    match ob {
        0..=19 => 0x11 + (ob - 10) as u8,
        20..=29 => 0x21 + (ob - 20) as u8,
        30..=39 => 0x31 + (ob - 30) as u8,
        _ => 0x41 + (ob - 40) as u8,
    }
}

impl StartEvent {
    /// The organization block that the event starts.
    pub fn ob(self) -> u16
        ensures { result ≡ event_ob self }
    {
        match self {
            StartEvent::Cycle { .. } => 1,
            StartEvent::Startup => 100,
            StartEvent::Arrival { ob, .. } | StartEvent::Delay { ob } | StartEvent::Period { ob } =>
                ob,
            StartEvent::CycleTime | StartEvent::Missed { .. } | StartEvent::QueueFull { .. } => 80,
            StartEvent::NotLoaded { .. } => 85,
            StartEvent::Synchronous { code, .. } => ob_of_error(code),
        }
    }

    /// Byte 1 of the start information, the start code.
    fn start_code(self) -> u8
        requires { IsEvent self }
        ensures { result ≡ start_code self }
    {
        match self {
            StartEvent::Cycle { first } => if first { 0x01 } else { 0x03 },
            StartEvent::Startup => 0x81,
            StartEvent::Arrival { ob, .. } | StartEvent::Delay { ob } | StartEvent::Period { ob } =>
                interrupt_code(ob),
            StartEvent::CycleTime => 0x01,
            StartEvent::Missed { .. } => 0x02,
            StartEvent::QueueFull { .. } => 0x07,
            StartEvent::NotLoaded { .. } => 0xA1,
            StartEvent::Synchronous { code, .. } => code,
        }
    }

    /// Byte 5 of the start information: the kind of the block in which a synchronous error came,
    /// else 0.
    fn kind(self) -> u8
        ensures { result ≡ event_block_kind self }
    {
        match self {
            StartEvent::Synchronous { kind, .. } => kind,
            _ => 0,
        }
    }

    /// Bytes 6 and 7 of the start information: the OB that a time error concerns or that isn't
    /// loaded, or the number of the block in which a synchronous error came, else 0.
    fn number(self) -> u16
        ensures { result ≡ event_number self }
    {
        match self {
            StartEvent::CycleTime => 1,
            StartEvent::Missed { ob }
            | StartEvent::QueueFull { ob }
            | StartEvent::NotLoaded { ob } => ob,
            StartEvent::Synchronous { number, .. } => number,
            _ => 0,
        }
    }

    /// Bytes 8 to 11 of the start information: the value of an arrival, or the source line of the
    /// statement at which a synchronous error came, else 0.
    fn value(self) -> u32
        ensures { result ≡ event_value self }
    {
        match self {
            StartEvent::Arrival { value, .. } => value,
            StartEvent::Synchronous { line, .. } => line,
            _ => 0,
        }
    }
}

impl StartInfo {
    /// The start information of an event's organization block, with its priority class.
    #[tactic(auto, unfolding(crate::specs::StartInformation::start_info))]
    pub fn new(event: StartEvent, class: u8) -> StartInfo
        requires { IsEvent event }
        ensures { result ≡ start_info event class }
    {
        let ob = event.ob();
        let number = event.number();
        let value = event.value();
        StartInfo {
            bytes: [
                event_class(ob),
                event.start_code(),
                class,
                (ob % 256) as u8,
                0,
                event.kind(),
                (number / 256 % 256) as u8,
                (number % 256) as u8,
                (value / 65536 / 256 % 256) as u8,
                (value / 65536 % 256) as u8,
                (value / 256 % 256) as u8,
                (value % 256) as u8,
                0,
                0,
                0,
                0,
                0,
                0,
                0,
                0,
            ],
        }
    }
}
