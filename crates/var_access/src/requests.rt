ghost use Rattle.std.specs.Prelude.{◌≡◌, ◌<◌, ◌≤◌, ◌^◌, ◌++◌, ◌↔◌, [], ◌∷◌, length, IsTrue};
ghost use Rattle.std.specs.List.{list_all};
ghost use Rattle.plc_base.specs.Widths.{bit_count};
ghost use Rattle.var_access.specs.Entry.{is_var, IsRequest};

use plc_base::{Area, BlockId, Place, Width};
use std::marker::Model;

/// The most variables of one read.
pub const MOST_VARS: usize = 8;

/// A variable: a place with its width.
#[derive(Clone, Copy, Debug, PartialEq, Eq)]
pub struct Var {
    pub place: Place,
    pub width: Width,
}

impl Var {
    /// Whether an operator may read and write it: it lies in I, Q or M, with the number 0, or in a data
    /// block, as area `Db`; its bit is at most 7, and 0 unless its width is one bit.
    pub fn is_valid(&self) -> bool
        ensures { result ≡ is_var self.now }
    {
        let has_area = match self.place.area {
            Area::I | Area::Q | Area::M => self.place.number == 0,
            Area::Db => true,
            _ => false,
        };
        let has_bit = match self.width {
            Width::Bit => self.place.bit <= 7,
            _ => self.place.bit == 0,
        };
        has_area && has_bit
    }
}

/// What stands in a place of a list that no variable takes.
const NO_VAR: Var = Var {
    place: Place {
        number: 0,
        byte: 0,
        area: Area::I,
        bit: 0,
    },
    width: Width::Bit,
};

/// The variables of one read, 8 at most. A contract sees the list.
#[derive(Clone, Copy, Debug, PartialEq, Eq)]
pub struct Vars {
    list: [Var; MOST_VARS],
    count: u8,
}

impl Model for Vars {
    ghost use Rattle.std.specs.Prelude.{◌-◌, ◌++◌, List, take, replicate};
    ghost use Rattle.std.proofs.Common.{ap, sym, ◌∙◌, take-append-drop, length-take-le};
    ghost use Rattle.var_access.specs.declared.requests.Var.{Var};

    ghost Value = { List Var };

    ghost use Rattle.var_access.specs.Vars.{IsFilled, places_of_variables, no_var};

    ghost view = { λ v. take v.count v.list };

    ghost invariant = { IsFilled };

    ghost inverse = { places_of_variables };

    ghost inverse_ok = { λ a h i. record {
      list = (ap (λ n. take a.count a.list ++ replicate (8 - n) no_var)
          (length-take-le a.count a.list h.few)
          ∙ ap (λ rest. take a.count a.list ++ rest) (sym h.rest)
          ∙ take-append-drop a.count a.list) i;
      count = length-take-le a.count a.list h.few i;
    } };
}

impl Vars {
    /// No variable.
    pub fn new() -> Vars
        ensures { result ≡ [] }
    {
        Vars {
            list: [NO_VAR; MOST_VARS],
            count: 0,
        }
    }

    /// How many there are.
    pub fn len(&self) -> usize
        ensures value { result ≡ length self.now }
        ensures few { result ≤ 8 }
    {
        usize::from(self.count)
    }

    /// One more variable.
    pub fn push(&mut self, var: Var)
        requires { length self.old < 8 }
        ensures { self.new ≡ self.old ++ var ∷ [] }
    {
        self.list[usize::from(self.count)] = var;
        self.count += 1;
    }

    /// The variables as a slice.
    pub fn as_slice(&self) -> &[Var]
        ensures { result.now ≡ self.now }
    {
        &self.list[..usize::from(self.count)]
    }
}

/// A request of an operator.
#[derive(Clone, Copy, Debug, PartialEq, Eq)]
pub enum Request {
    /// Read the values of one to eight variables.
    ReadVars { vars: Vars },
    /// A variable takes a value, which fits its width.
    WriteVar { var: Var, value: u32 },
    /// STOP, with the operator's cause.
    Stop,
    /// A warm restart.
    Restart,
    /// Monitor this block, an OB, FC or FB, and no other.
    MonitorOn { block: BlockId },
    /// Monitor no block.
    MonitorOff,
    /// The last records of diagnostics.
    Diag,
}

/// Whether each of these variables is valid.
fn are_valid(vars: &[Var]) -> bool
    ensures { result ≡ list_all is_var vars.now }
{
    vars.iter().all(|var| var.is_valid())
}

/// Whether a value fits a width: it is below 2 to the number of its bits.
fn fits(value: u32, width: Width) -> bool
    ensures { IsTrue result ↔ (value < 2 ^ bit_count width) }
{
    match width {
        Width::Bit => value <= 1,
        Width::Byte => value <= 0xFF,
        Width::Word => value <= 0xFFFF,
        Width::Dword => true,
    }
}

impl Request {
    /// Whether its numbers are in their ranges: one to eight variables that are valid, a value that fits
    /// its variable, a block of a kind that can be monitored.
    pub fn is_valid(&self) -> bool
        ensures { IsTrue result ↔ IsRequest self.now }
    {
        match self {
            Request::ReadVars { vars } => vars.len() >= 1 && are_valid(vars.as_slice()),
            Request::WriteVar { var, value } => var.is_valid() && fits(*value, var.width),
            Request::MonitorOn { block } => block.kind.is_code(),
            Request::Stop | Request::Restart | Request::MonitorOff | Request::Diag => true,
        }
    }
}
