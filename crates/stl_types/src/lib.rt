//! The rules of statements: what an operand names, which operands an instruction takes, labels,
//! brackets, zones, jumps and calls.
#![tactic(auto)]

mod actuals;
mod brackets;
mod call_walks;
mod callees;
mod calls;
mod checking;
mod constants;
mod contexts;
mod instances;
mod kinds;
mod labels;
mod landings;
mod lists;
mod misfits;
mod operand_rules;
mod operands;
mod parameters;
mod resolution;
mod resolved_operands;
mod resolving;
mod system_functions;
mod unknown;
mod variables;
mod zones;

pub use brackets::SourceBracket;
pub use checking::{CheckedSource, check};
pub use contexts::Context;
pub use operand_rules::OperandRule;
pub use parameters::{Callee, Formal};
pub use resolved_operands::{Register, Resolution, ResolvedOperand, Side};
pub use system_functions::system_formals;
