//! The parameters of a function block: copied in at the call, and out at the return.
ghost use Rattle.std.specs.Prelude.{◌≡◌, ◌≤◌, length};
ghost use Rattle.machine.specs.ExecState.{local_memory_of};
ghost use Rattle.machine.specs.Outcomes.{BecomesLocalMemory};
ghost use Rattle.machine.specs.Copies.{is_copied_in as comes_in_of, is_copied_out as goes_out_of, instance_parameter_location as in_instance_of, number_stored as put_of, number_copied, actual_copied_to as passed_to_of, copied_to_actual as given_to_of, param_in as param_in_of, param_out as param_out_of, params_copied_in as params_in_of, params_out as params_out_of};

use crate::loads::low;
use crate::places::{Location, location_number};
use crate::values::write;
use flat_code::{Param, SECTION_IN, SECTION_IN_OUT, SECTION_OUT};
use frames::{Binding, Bindings, Running};
use plc_base::{Area, Place};
use plc_mem::Memory;

// Whether the call copies a parameter into the instance: IN, IN_OUT.
fn comes_in(param: &Param) -> bool
    ensures { result ≡ comes_in_of param.now }
{
    param.section == SECTION_IN || param.section == SECTION_IN_OUT
}

// Whether the return copies a parameter out of the instance: OUT, IN_OUT.
fn goes_out(param: &Param) -> bool
    ensures { result ≡ goes_out_of param.now }
{
    param.section == SECTION_OUT || param.section == SECTION_IN_OUT
}

fn in_instance(param: &Param, instance: u16) -> Location
    ensures { result ≡ in_instance_of param.now instance }
{
    Location {
        place: Place {
            area: Area::Db,
            number: instance,
            byte: param.byte,
            bit: param.bit,
        },
        width: param.width,
        frame: 0,
    }
}

// Writes a number to a place.
pub(crate) fn put(to: &Location, number: u32, s: &mut Running, m: &mut Memory)
    ensures { BecomesLocalMemory (put_of to.now number (local_memory_of s.old m.old))
        s.old s.new m.new }
{
    // a place that a parameter was bound to exists
    match write(to, low(to.width, number), s, m) {
        Ok(()) => {}
        Err(_) => {}
    }
}

// Copies the number at one place to another.
#[tactic(auto, unfolding(crate::specs::Copies::number_copied))]
fn copy(from: &Location, to: &Location, s: &mut Running, m: &mut Memory)
    ensures { BecomesLocalMemory (number_copied from.now to.now (local_memory_of s.old m.old))
        s.old s.new m.new }
{
    let number = location_number(from, &s.locals, m).unwrap_or(0);
    put(to, number, s, m);
}

#[tactic(auto, unfolding(crate::specs::Copies::actual_copied_to))]
fn copy_actual_to(binding: Option<Binding>, to: &Location, s: &mut Running, m: &mut Memory)
    ensures { BecomesLocalMemory (passed_to_of binding to.now (local_memory_of s.old m.old))
        s.old s.new m.new }
{
    match binding {
        Some(
            Binding::AtPlace {
                place,
                width,
                frame,
            },
        ) => {
            let from = Location {
                place,
                width,
                frame,
            };
            copy(&from, to, s, m);
        }
        Some(Binding::Constant { value }) => put(to, value, s, m),
        _ => {}
    }
}

#[tactic(auto, unfolding(crate::specs::Copies::copied_to_actual))]
fn copy_to_actual(from: &Location, binding: Option<Binding>, s: &mut Running, m: &mut Memory)
    ensures { BecomesLocalMemory (given_to_of from.now binding (local_memory_of s.old m.old))
        s.old s.new m.new }
{
    match binding {
        Some(
            Binding::AtPlace {
                place,
                width,
                frame,
            },
        ) => {
            let to = Location {
                place,
                width,
                frame,
            };
            copy(from, &to, s, m);
        }
        _ => {}
    }
}

fn param_in(param: &Param, binding: Option<Binding>, instance: u16, s: &mut Running, m: &mut Memory)
    ensures { BecomesLocalMemory (param_in_of param.now binding instance
        (local_memory_of s.old m.old))
        s.old s.new m.new }
{
    if comes_in(param) {
        copy_actual_to(binding, &in_instance(param, instance), s, m);
    }
}

fn param_out(
    param: &Param,
    binding: Option<Binding>,
    instance: u16,
    s: &mut Running,
    m: &mut Memory,
)
    ensures { BecomesLocalMemory (param_out_of param.now binding instance
        (local_memory_of s.old m.old))
        s.old s.new m.new }
{
    if goes_out(param) {
        copy_to_actual(&in_instance(param, instance), binding, s, m);
    }
}

/// Copies the parameters of a function block into its instance.
pub(crate) fn copy_params_in(
    params: &[Param],
    bindings: &Bindings,
    instance: u16,
    s: &mut Running,
    m: &mut Memory,
)
    requires { length params.now ≤ 60 }
    ensures { BecomesLocalMemory (params_in_of params.now 0 bindings.now instance
        (local_memory_of s.old m.old))
        s.old s.new m.new }
{
    let mut index = 0u8;
    for param in params {
        param_in(param, bindings.get(index), instance, s, m);
        index += 1;
    }
}

/// Copies the parameters of a function block out of its instance.
pub(crate) fn copy_params_out(
    params: &[Param],
    bindings: &Bindings,
    instance: u16,
    s: &mut Running,
    m: &mut Memory,
)
    requires { length params.now ≤ 60 }
    ensures { BecomesLocalMemory (params_out_of params.now 0 bindings.now instance
        (local_memory_of s.old m.old))
        s.old s.new m.new }
{
    let mut index = 0u8;
    for param in params {
        param_out(param, bindings.get(index), instance, s, m);
        index += 1;
    }
}
