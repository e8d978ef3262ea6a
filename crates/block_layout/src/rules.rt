//! The rules that are checked with the layout, each with the least refusal by it.
pub(crate) mod rule_21; // a name declared twice in one list
pub(crate) mod rule_22; // a block twice
pub(crate) mod rule_23; // an unknown block or user-defined data type
pub(crate) mod rule_41; // an initial value that doesn't fit
pub(crate) mod rule_42; // an array whose upper bound is below the lower, or an index outside it
pub(crate) mod rule_43; // a user-defined data type that contains itself
pub(crate) mod rule_44; // a block number beyond the limits
pub(crate) mod rule_50; // local data above 1,024 bytes
pub(crate) mod rule_51; // a data block, data type or instance above 16,384 bytes
pub(crate) mod rule_52; // more than 60 parameters
pub(crate) mod rule_53; // the 257th data block
pub(crate) mod rule_54; // data blocks above 2,097,152 bytes together
pub(crate) mod rule_55; // more than 65,534 statements
pub(crate) mod rule_56; // types nested deeper than 8
