//! Calls of system functions: what they are given, and where their result goes.
ghost use Rattle.std.specs.Prelude.{◌≡◌, ◌≤◌, ◌++◌, ◌<◌, [], ◌∷◌, length, IfSome};
ghost use Rattle.std.specs.Option.{option_map};
ghost use Rattle.machine.specs.ExecState.{local_of};
ghost use Rattle.machine.specs.SystemCalls.{system_function as system_function_of, input_of as input_of_binding, count_inputs, inputs_from as inputs_of, result_from as result_of};

use crate::places::{Location, location_number};
use arrayvec::ArrayVec;
use flat_code::{Param, SECTION_IN, SECTION_OUT, system_function_params};
use frames::{Binding, Bindings, Running};
use plc_base::Width;
use plc_mem::Memory;
use std::marker::Model;

/// The IN parameters of a system call in their order, three at most. A contract sees the list.
#[derive(Drop)]
pub struct Inputs {
    numbers: ArrayVec<u32, 3>,
}

impl Model for Inputs {
    ghost use Rattle.std.specs.Prelude.{ℕ, List};

    ghost Value = { List ℕ };

    ghost view = { λ i. i.numbers.items };
}

impl Inputs {
    fn new() -> Inputs
        ensures { result ≡ [] }
    {
        Inputs {
            numbers: ArrayVec::new(),
        }
    }

    fn push(&mut self, number: u32)
        requires { length self.old < 3 }
        ensures { self.new ≡ self.old ++ number ∷ [] }
    {
        self.numbers.push(number);
    }

    /// The numbers of the IN parameters, in their order.
    pub fn as_slice(&self) -> &[u32]
        ensures { result.now ≡ self.now }
    {
        self.numbers.as_slice()
    }
}

/// The parameters of a system function, three of them IN at most. `None` exactly where there is
/// none of the number.
#[tactic(auto, using(crate::proofs::FunctionLemmas::few_inputs))]
pub(crate) fn system_function(number: u16) -> Option<ArrayVec<Param, 4>>
    ensures params { option_map (λ p. p.items) result ≡ system_function_of number }
    ensures inputs { IfSome result (λ p. count_inputs p.items ≤ 3) }
    ensures count { IfSome result (λ p. length p.items ≤ 4) }
{
    system_function_params(number)
}

fn input_of(binding: Option<Binding>, s: &Running, m: &Memory) -> u32
    ensures { result ≡ input_of_binding binding (local_of s.now) m.now }
{
    match binding {
        Some(
            Binding::AtPlace {
                place,
                width,
                frame,
            },
        ) => {
            let at = Location {
                place,
                width,
                frame,
            };
            location_number(&at, &s.locals, m).unwrap_or(0)
        }
        Some(Binding::Constant { value }) => value,
        _ => 0,
    }
}

/// The numbers of the IN parameters.
pub(crate) fn inputs_from(params: &[Param], bindings: &Bindings, s: &Running, m: &Memory) -> Inputs
    requires few { length params.now ≤ 4 }
    requires inputs { count_inputs params.now ≤ 3 }
    ensures { result ≡ inputs_of params.now 0 bindings.now (local_of s.now) m.now }
{
    let mut inputs = Inputs::new();
    let mut index = 0u8;
    for param in params {
        if param.section == SECTION_IN {
            inputs.push(input_of(bindings.get(index), s, m));
        }
        index += 1;
    }
    inputs
}

/// What RET_VAL is bound to.
pub(crate) fn result_from(params: &[Param], bindings: &Bindings) -> Option<Binding>
    requires { length params.now ≤ 4 }
    ensures { result ≡ result_of params.now 0 bindings.now }
{
    let mut index = 0u8;
    for param in params {
        if param.section == SECTION_OUT {
            return bindings.get(index);
        }
        index += 1;
    }
    None
}
