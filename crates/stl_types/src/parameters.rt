use plc_base::BlockId;
use std::marker::Model;
use stl_ast::{Name, PartKind, Simple};

/// A parameter of a block: its name in upper case, its section and its type.
#[derive(Drop)]
pub struct Formal {
    pub name: Name,
    pub section: PartKind,
    pub kind: Simple,
}

/// A block that is called, with its parameters; `place` is that of a block of the source. The
/// result RET_VAL is the first parameter of a function of the source, and the last of a system
/// function.
#[derive(Drop)]
pub struct Callee {
    pub id: BlockId,
    pub place: Option<usize>,
    pub formals: Vec<Formal>,
}

impl Model for Callee {
    ghost use Rattle.stl_types.specs.Parameters.{Callee as CalleeData};

    ghost Value = { CalleeData };

    ghost view = { λ c. record {
      id = c.id;
      place = c.place;
      formals = c.formals.items;
    } };
}
