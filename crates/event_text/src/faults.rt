ghost use Rattle.std.specs.Prelude.{◌≡◌};

use std::alloc::AllocError;

/// Why a text isn't read.
#[derive(Clone, Copy, Debug, PartialEq, Eq)]
pub enum TextFault {
    /// The first bad line, counted from 1, and the least rule that it breaks: 1 it isn't in the
    /// grammar, 2 a number is out of its range or a value is wider or narrower than its variable, 3
    /// a name is unknown, 4 such lines stand in another file, 5 the operator isn't 1 to 4, 6 there
    /// are more than 1,000,000 steps so far.
    BadLine { line: u32, rule: u16 },
    /// Memory ran out.
    NoMemory,
}

impl From<AllocError> for TextFault {
    ghost use Rattle.event_text.specs.declared.faults.TextFault.TheVariants.{NoMemory};

    ghost from_gives = { λ _ fault. fault ≡ NoMemory };

    fn from(_error: AllocError) -> TextFault {
        TextFault::NoMemory
    }
}
