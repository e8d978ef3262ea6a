//! Ops, programs and their names: the code that the compiler makes and the controller runs.
#![tactic(auto)]

mod decoding;
mod encoding;
mod fields;
mod fitting;
mod good_blocks;
mod good_data;
mod image_fields;
mod image_size;
mod kinds;
pub mod laws;
mod names;
mod op_codes;
mod operands;
mod operations;
mod ops;
mod programs;
mod record_numbers;
mod stamps;
mod system_functions;
mod table;
mod unchecked_decoding;

pub use decoding::{BadOp, decode_op};
pub use encoding::encode_op;
pub use image_fields::{
    Field, OpenBracket, ParameterRecord, SECTION_IN, SECTION_IN_OUT, SECTION_OUT,
};
pub use kinds::{
    AR1_NUMBER, CONDITIONS, COUNTER_KIND, DB_REGISTER_NUMBER, DI_REGISTER_NUMBER, FUNCTION,
    FUNCTION_BLOCK, JUMPS, JumpOperation, SYSTEM_FUNCTION, TIMER_KIND, condition_number, flag_of,
    jump_of_number,
};
pub use names::{NameEntry, Names, ends_blank, is_name_before, is_upper_case, order_of};
pub use operands::{Operand, Passed};
pub use operations::{
    AccuOperation, AddConstant, CallOperation, EndOperation, Logic, OPERATIONS, Operation,
    PointerOperation, RelayOperation, Shift, operation_of,
};
pub use ops::Op;
pub use programs::{CodeBlock, DataBlock, Param, Program};
pub use record_numbers::{
    area_of_number, kind_of_code, kind_of_number, number_of_area, width_of_number,
};
pub use stamps::Stamp;
pub use system_functions::{system_function_params, system_function_records};
pub use table::{OperandForms, taken_by, taken_by_operation};
pub use unchecked_decoding::{decode_op_unchecked, decode_part_unchecked};
