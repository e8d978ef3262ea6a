ghost use Rattle.std.specs.Prelude.{◌≡◌, ◌<◌, IsTrue};
ghost use Rattle.ob_sched.specs.OrganizationBlock.{is_ob, has_priority_class, is_asynchronous_error, is_hardware, can_wait, priority_class, priority_class_in, queue_length, period_of};

use plc_base::Mode;

/// Whether an organization block can wait for its start: OB 1, the interrupts OB 10 to 17, 20 to 23,
/// 30 to 38 and 40 to 47, and the error OBs 80 and 85.
pub fn can_wait(ob: u16) -> bool
    ensures { result ≡ can_wait ob }
{
    matches!(ob, 1 | 10..=17 | 20..=23 | 30..=38 | 40..=47 | 80 | 85)
}

/// Whether there is an organization block of this number: one that can wait, OB 100, 121 or 122.
pub fn is_ob(ob: u16) -> bool
    ensures { result ≡ is_ob ob }
{
    can_wait(ob) || matches!(ob, 100 | 121 | 122)
}

/// Whether it is the organization block of an asynchronous error, OB 80 or OB 85.
pub(crate) fn is_asynchronous_error(ob: u16) -> bool
    ensures { result ≡ is_asynchronous_error ob }
{
    ob == 80 || ob == 85
}

/// Whether it is a hardware interrupt, OB 40 to 47.
pub(crate) fn is_hardware(ob: u16) -> bool
    ensures { result ≡ is_hardware ob }
{
    matches!(ob, 40..=47)
}

/// The priority class of an organization block in RUN.
pub(crate) fn class_of(ob: u16) -> u8
    requires { IsTrue (has_priority_class ob) }
    ensures class { result ≡ priority_class ob }
    ensures bound { result < 32 }
{
    match ob {
        0..=9 => 1,
        10..=19 => 2,
        20..=29 => (ob - 17) as u8,
        30..=39 => (ob - 23) as u8,
        40..=79 => (ob - 24) as u8,
        100 => 27,
        _ => 26,
    }
}

/// The priority class in an operating mode, of an organization block that has one of its own: one that
/// can wait, or OB 100.
pub fn class_in(mode: Mode, ob: u16) -> u8
    requires { IsTrue (has_priority_class ob) }
    ensures { result ≡ priority_class_in mode ob }
{
    match mode {
        Mode::Startup if is_asynchronous_error(ob) => 28,
        _ => class_of(ob),
    }
}

/// How many requests of an organization block can be pending at once.
pub(crate) fn queue_length(ob: u16) -> usize
    ensures { result ≡ queue_length ob }
{
    if is_hardware(ob) { 8 } else { 1 }
}

/// The period of a cyclic interrupt, OB 30 to 38, in milliseconds.
pub(crate) fn period_of(ob: u16) -> u32
    ensures { result ≡ period_of ob }
{
    match ob {
        30 => 5000,
        31 => 2000,
        32 => 1000,
        33 => 500,
        34 => 200,
        35 => 100,
        36 => 50,
        37 => 20,
        _ => 10,
    }
}
