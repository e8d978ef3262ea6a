ghost use Rattle.frames.specs.ParameterBindings.{binding_set};
ghost use Rattle.std.specs.Prelude.{◌≡◌, ◌+◌, ◌<◌, ◌≤◌, ◌++◌, [], ◌∷◌, length, slice_get};

use arrayvec::ArrayVec;
use plc_base::{Place, Width};
use std::marker::Model;

/// How many parameters a block has at most.
const PARAMETERS: usize = 60;

/// What a parameter of a block stands for, fixed at the call.
#[derive(Clone, Copy, Debug, PartialEq, Eq)]
pub enum Binding {
    /// An operand in memory. For local data (L) `frame` says whose local bytes are meant, by the
    /// place in the list of frames, counted from 0 at the outermost one.
    AtPlace {
        place: Place,
        width: Width,
        frame: u8,
    },
    /// The value of a constant.
    Constant {
        value: u32,
    },
    /// A parameter of a function block that its call doesn't supply.
    Unsupplied,
}

impl Default for Binding {
    /// A parameter that its call does not supply.
    fn default() -> Binding {
        Binding::Unsupplied
    }
}

/// The bindings of a frame: what each parameter of its block stands for, by the index of the
/// parameter, 60 at most. A contract sees the list of them.
#[derive(Drop)]
pub struct Bindings {
    /// The bindings by the index of the parameter.
    all: ArrayVec<Binding, PARAMETERS>,
}

impl Model for Bindings {
    ghost use Rattle.std.specs.Prelude.{List};
    ghost use Rattle.frames.specs.declared.bindings.Binding.{Binding};

    ghost Value = { List Binding };

    ghost view = { λ b. b.all.items };
}

// The bindings with more behind them.
fn append(all: &mut ArrayVec<Binding, PARAMETERS>, more: &[Binding])
    requires { length all.old.items + length more.now ≤ 60 }
    ensures { all.new.items ≡ all.old.items ++ more.now }
{
    match all.try_extend_from_slice(more) {
        Ok(()) => {}
        Err(_) => {}
    }
}

impl Bindings {
    /// No bindings, as of a block without parameters.
    pub fn new() -> Bindings
        ensures { result ≡ [] }
    {
        Bindings {
            all: ArrayVec::new(),
        }
    }

    /// Takes all bindings away.
    pub fn clear(&mut self)
        ensures { self.new ≡ [] }
    {
        self.all.clear();
    }

    /// How many parameters have a binding.
    pub fn len(&self) -> usize
        ensures { result ≡ length self.now }
    {
        self.all.len()
    }

    /// What the parameter with an index stands for; `None` exactly where there is no such
    /// parameter.
    pub fn get(&self, index: u8) -> Option<Binding>
        ensures { result ≡ slice_get self.now index }
    {
        self.all.as_slice().get(usize::from(index)).copied()
    }

    /// Adds the binding of the next parameter.
    pub fn push(&mut self, binding: Binding)
        requires { length self.old < 60 }
        ensures { self.new ≡ self.old ++ binding ∷ [] }
    {
        self.all.push(binding);
    }

    /// Sets what the parameter with an index stands for, if there is such a parameter.
    pub fn set(&mut self, index: u8, binding: Binding)
        ensures { self.new ≡ binding_set self.old index binding }
    {
        let at = usize::from(index);
        if at < self.all.len() {
            self.all.as_mut_slice()[at] = binding;
        }
    }

    /// Makes the bindings a copy of others; only those that there are are copied.
    pub fn copy_from(&mut self, other: &Bindings)
        ensures { self.new ≡ other.now }
    {
        self.all.clear();
        append(&mut self.all, other.all.as_slice());
    }

    /// A copy of the bindings.
    pub fn copied(&self) -> Bindings
        ensures { result ≡ self.now }
    {
        let mut all = ArrayVec::new();
        for binding in self.all.as_slice() {
            all.push(*binding);
        }
        Bindings { all }
    }
}
