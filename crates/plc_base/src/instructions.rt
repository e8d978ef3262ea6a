/// The bit logic instructions that check a bit: A (And), AN (And Not), O (Or), ON (Or Not),
/// X (Exclusive Or) and XN (Exclusive Or Not). The nesting instructions `A(` to `XN(` keep one of
/// them as their function code.
#[derive(Clone, Copy, Debug, Default, PartialEq, Eq)]
pub enum Check {
    #[default]
    A,
    An,
    O,
    On,
    X,
    Xn,
}

/// What a comparison instruction asks of accumulator 2 and accumulator 1: ==, <>, >, <, >=, <=.
#[derive(Clone, Copy, Debug, PartialEq, Eq)]
pub enum Compare {
    Eq,
    Ne,
    Gt,
    Lt,
    Ge,
    Le,
}

/// The start instructions of a timer: pulse (`SP`), extended pulse (`SE`), on-delay (`SD`),
/// retentive on-delay (`SS`) and off-delay (`SF`).
#[derive(Clone, Copy, Debug, PartialEq, Eq)]
pub enum TimerKind {
    Sp,
    Se,
    Sd,
    Ss,
    Sf,
}
