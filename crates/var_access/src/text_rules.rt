//! The rules that a line of a text can break: of a history, of stimuli, of a script, or a request by
//! itself. Of several the least is reported.

/// The line isn't in the grammar.
pub const NOT_IN_GRAMMAR: u16 = 1;

/// A number is out of its range, or a value is wider or narrower than its variable.
pub const OUT_OF_RANGE: u16 = 2;

/// No variable has this name.
pub const UNKNOWN_NAME: u16 = 3;

/// The line is of a kind that stands in another file.
pub const OTHER_FILE: u16 = 4;

/// The operator isn't one of 1 to 4.
pub const NO_OPERATOR: u16 = 5;

/// There are more than 1,000,000 steps so far.
pub const TOO_MANY_STEPS: u16 = 6;
