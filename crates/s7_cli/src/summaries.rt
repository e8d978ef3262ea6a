ghost use Rattle.std.specs.Prelude.{◌≡◌, ◌≤◌, ◌<◌, ◌+◌, ◌^◌, ◌++◌, length, map, sum as sum_of};
ghost use Rattle.std.specs.List.{range_with_len};
ghost use Rattle.controller.specs.ReplayResult.{final_state};
ghost use Rattle.s7_cli.specs.GenText.{bit_memory_sum, memory_byte, mode_words, sum_of_eight, summary_of};

use controller::Controller;
use monitor::Line;
use plc_base::{Area, Mode, Place, Width};
use var_access::{Reply, Request, Var, Vars};

/// A byte of bit memory.
fn memory_byte(byte: u16) -> Var
    ensures { result ≡ memory_byte byte }
{
    Var {
        place: Place {
            number: 0,
            byte,
            area: Area::M,
            bit: 0,
        },
        width: Width::Byte,
    }
}

/// Eight bytes of bit memory, from this one on.
fn eight_bytes(first: u16) -> Vars
    requires { first ≤ 248 }
    ensures { result ≡ map memory_byte (range_with_len first 8) }
{
    let mut vars = Vars::new();
    for byte in first..first + 8 {
        vars.push(memory_byte(byte));
    }
    vars
}

/// The numbers, added up.
fn sum(numbers: &[u32]) -> u64
    requires { length numbers.now ≤ 8 }
    ensures value { result ≡ sum_of numbers.now }
    ensures small { result < 2 ^ 36 }
{
    let mut sum = 0;
    for number in numbers {
        sum += u64::from(*number);
    }
    sum
}

/// What eight bytes of bit memory hold, from this one on, added up.
fn sum_of_eight(controller: &Controller, first: u16) -> u64
    requires { first ≤ 248 }
    ensures value { result ≡ sum_of_eight (final_state controller.now) first }
    ensures small { result < 2 ^ 36 }
{
    controller.law_of_memory();
    match controller.answer(&Request::ReadVars {
        vars: eight_bytes(first),
    }) {
        Reply::Values { values } => sum(values.as_slice()),
        _ => unreachable!(),
    }
}

/// What the bytes MB 0 to MB 255 hold, added up.
fn bit_memory_sum(controller: &Controller) -> u64
    ensures { result ≡ bit_memory_sum (final_state controller.now) }
{
    let mut sum = 0;
    for part in 0..32 {
        sum += sum_of_eight(controller, 8 * part);
    }
    sum
}

/// Appends a mode; a stop's with its cause.
#[tactic(auto, unfolding(crate::specs::GenText::mode_words))]
fn add_mode(line: &mut Line, mode: Mode)
    requires { length line.old + 45 ≤ 256 }
    ensures value { line.new ≡ line.old ++ mode_words mode }
    ensures len { length line.new ≤ length line.old + 45 }
{
    match mode {
        Mode::Run => line.add(b"RUN"),
        Mode::Startup => line.add(b"STARTUP"),
        Mode::Stop { cause, .. } => {
            line.add(b"STOP ");
            line.add_number(u64::from(cause));
        }
    }
}

/// The line `GEN NUMBER ENTRIES e MODE m SUM s` of a controller behind its history: how many
/// entries that has, the mode, and what the bytes MB 0 to MB 255 hold, added up.
#[tactic(auto, unfolding(crate::specs::GenText::summary_of))]
pub(crate) fn summary_line(number: u32, controller: &Controller) -> Line
    ensures { result
        ≡ summary_of number (length controller.now.history) (final_state controller.now) }
{
    let mut line = Line::new();
    line.add(b"GEN ");
    line.add_number(u64::from(number));
    line.add(b" ENTRIES ");
    line.add_number(controller.history_len());
    line.add(b" MODE ");
    add_mode(&mut line, controller.mode());
    line.add(b" SUM ");
    line.add_number(bit_memory_sum(controller));
    line.add(b"\n");
    line
}
