/// A memory access is refused: a bit of the operand, or the byte, does not exist.
#[derive(Clone, Copy, Debug, PartialEq, Eq)]
pub struct Missing;
