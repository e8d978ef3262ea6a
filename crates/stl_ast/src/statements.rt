use crate::mnemonics::Mnemonic;
use crate::names::Name;
use crate::operands::Operand;
use crate::sequences::Sequence;

/// An actual parameter of a CALL, `name := value`. The value is never `Called`.
#[derive(Drop)]
pub struct Actual {
    pub line: u32,
    pub name: Name,
    pub value: Operand,
}

/// A statement of a body.
#[derive(Drop)]
pub struct Statement {
    pub line: u32,
    /// The instruction word.
    pub code: Mnemonic,
    pub label: Option<Name>,
    pub operand: Operand,
    /// The actual parameters of a CALL; empty for every other statement.
    pub actuals: Sequence<Actual>,
}
