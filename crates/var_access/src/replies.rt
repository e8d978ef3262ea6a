ghost use Rattle.std.specs.Prelude.{◌≡◌, ◌<◌, ◌≤◌, ◌++◌, [], ◌∷◌, length};

use crate::requests::MOST_VARS;
use arrayvec::ArrayVec;
use monitor::Records;
use std::marker::Model;

/// The values that one read gives, 8 at most. A contract sees the list.
#[derive(Debug, Drop, PartialEq, Eq)]
pub struct Numbers {
    list: ArrayVec<u32, MOST_VARS>,
}

impl Model for Numbers {
    ghost use Rattle.std.specs.Prelude.{List, ℕ};

    ghost Value = { List ℕ };

    ghost view = { λ n. n.list.items };

    ghost inverse = { λ values. record { list = record { items = values } } };
}

impl Numbers {
    /// No value.
    pub fn new() -> Numbers
        ensures { result ≡ [] }
    {
        Numbers {
            list: ArrayVec::new(),
        }
    }

    /// One more value.
    pub fn push(&mut self, value: u32)
        requires { length self.old < 8 }
        ensures { self.new ≡ self.old ++ value ∷ [] }
    {
        self.list.push(value);
    }

    /// The values as a slice.
    pub fn as_slice(&self) -> &[u32]
        ensures { result.now ≡ self.now }
    {
        self.list.as_slice()
    }

    /// The same values once more. It takes no memory.
    pub fn copied(&self) -> Numbers
        ensures { result ≡ self.now }
    {
        let mut list = ArrayVec::new();
        for value in self.list.as_slice() {
            list.push(*value);
        }
        Numbers { list }
    }
}

/// What the controller answers to one entry.
#[derive(Debug, Drop, PartialEq, Eq)]
pub enum Reply {
    /// The values of the variables of a read, in their order.
    Values { values: Numbers },
    /// It is done.
    Done,
    /// There is no such variable, or no such block: the number of the first variable that is absent,
    /// counted from 1, or 1.
    NoSuch { index: u8 },
    /// The mode isn't STOP, so there is no restart.
    NotStopped,
    /// The last records of diagnostics, the oldest first.
    Diag { list: Records },
}

impl Reply {
    /// The same reply once more. It takes no memory.
    pub fn copied(&self) -> Reply
        ensures { result ≡ self.now }
    {
        match self {
            Reply::Values { values } => Reply::Values {
                values: values.copied(),
            },
            Reply::Done => Reply::Done,
            Reply::NoSuch { index } => Reply::NoSuch { index: *index },
            Reply::NotStopped => Reply::NotStopped,
            Reply::Diag { list } => Reply::Diag {
                list: list.copied(),
            },
        }
    }
}
