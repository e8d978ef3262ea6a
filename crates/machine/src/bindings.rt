//! CALL: what each parameter of the called block stands for.
ghost use Rattle.std.specs.Prelude.{◌≡◌, ◌≤◌, ◌<◌, length, slice_get, Ok, Err};
ghost use Rattle.machine.specs.ExecState.{local_of};
ghost use Rattle.machine.specs.Bindings.{param_access as access_of_param, bound_place as bound_place_of, binding_of_caller as passed_on_of, bound_actual as bound_actual_of, binding_for_param as binding_for_param_of, no_bindings as unsupplied_of};

use crate::data_blocks::is_loaded;
use crate::places::{Access, Location, NO_OPERAND, area_location, location_number};
use flat_code::{Param, Passed, SECTION_OUT};
use frames::{Binding, Bindings, Running};
use plc_base::{Area, Place, error_codes};
use plc_mem::Memory;

fn param_access(param: &Param) -> Access
    ensures { result ≡ access_of_param param.now }
{
    if param.section == SECTION_OUT {
        Access::Writing
    } else {
        Access::Reading
    }
}

#[tactic(auto, unfolding(crate::specs::Bindings::bound_place))]
fn bound_place(access: Access, at: &Location, s: &Running, m: &Memory) -> Result<Binding, u8>
    ensures { result ≡ bound_place_of access at.now (local_of s.now) m.now }
{
    match location_number(at, &s.locals, m) {
        Some(_) => Ok(Binding::AtPlace {
            place: at.place,
            width: at.width,
            frame: at.frame,
        }),
        None => Err(access.absent(at.place.area)),
    }
}

fn binding_of_caller(binding: Option<Binding>) -> Result<Binding, u8>
    ensures { result ≡ passed_on_of binding }
{
    match binding {
        Some(binding) => Ok(binding),
        None => Err(NO_OPERAND),
    }
}

#[tactic(auto, unfolding(crate::specs::Bindings::bound_actual))]
fn bound_actual(access: Access, actual: Passed, s: &Running, m: &Memory) -> Result<Binding, u8>
    ensures { result ≡ bound_actual_of access actual (local_of s.now) m.now }
{
    match actual {
        Passed::Literal { value } => Ok(Binding::Constant { value }),
        Passed::Direct {
            area,
            width,
            byte,
            bit,
        } => {
            let at = area_location(access, area, byte, bit, width, s)?;
            bound_place(access, &at, s, m)
        }
        Passed::Parameter { index, .. } => binding_of_caller(s.frame.bindings.get(index)),
        Passed::InBlock {
            number,
            width,
            byte,
            bit,
            ..
        } => {
            if !is_loaded(number, m) {
                return Err(error_codes::NO_DATA_BLOCK);
            }
            let at = Location {
                place: Place {
                    area: Area::Db,
                    number,
                    byte,
                    bit,
                },
                width,
                frame: 0,
            };
            bound_place(access, &at, s, m)
        }
    }
}

/// What the parameter of an index stands for where this is passed for it.
pub(crate) fn binding_for_param(
    params: &[Param],
    index: u8,
    actual: Passed,
    s: &Running,
    m: &Memory,
) -> Result<Binding, u8>
    ensures { result
        ≡ binding_for_param_of (slice_get params.now index) actual (local_of s.now) m.now }
{
    match params.get(usize::from(index)) {
        Some(param) => bound_actual(param_access(param), actual, s, m),
        None => Err(NO_OPERAND),
    }
}

/// Bindings of as many parameters, of which none is supplied.
pub(crate) fn bind_none(params: &[Param], bindings: &mut Bindings)
    requires { length params.now ≤ 60 }
    ensures { bindings.new ≡ unsupplied_of params.now }
{
    bindings.clear();
    for _ in 0..params.len() {
        bindings.push(Binding::Unsupplied);
    }
}
