use plc_io::{IoFault, Sink};

/// A sink that lets go of all that it takes, and never fails.
#[derive(Drop)]
pub(crate) struct Nowhere;

impl Sink for Nowhere {
    ghost use Rattle.std.specs.Prelude.{None};

    ghost shown = { λ _. record { taken = None; faults = 0 } };

    fn push(&mut self, bytes: &[u8]) -> Result<usize, IoFault> {
        Ok(bytes.len())
    }
}
