//! The parameters of the system functions.
ghost use Rattle.std.specs.Prelude.{◌≡◌, ◌≤◌, length, map, IfSome};
ghost use Rattle.std.specs.Option.{option_map};
ghost use Rattle.flat_code.specs.Blocks.{system_params};
ghost use Rattle.flat_code.specs.Image.{param_of_record};

use crate::image_fields::{ParameterRecord, SECTION_IN, SECTION_OUT};
use crate::programs::Param;
use crate::record_numbers::width_of_number;
use arrayvec::ArrayVec;

const BYTE_IN: ParameterRecord = ParameterRecord {
    section: SECTION_IN,
    width: 2,
    byte: 0,
    bit: 0,
};

const WORD_IN: ParameterRecord = ParameterRecord {
    section: SECTION_IN,
    width: 3,
    byte: 0,
    bit: 0,
};

const DWORD_IN: ParameterRecord = ParameterRecord {
    section: SECTION_IN,
    width: 4,
    byte: 0,
    bit: 0,
};

const WORD_OUT: ParameterRecord = ParameterRecord {
    section: SECTION_OUT,
    width: 3,
    byte: 0,
    bit: 0,
};

const DWORD_OUT: ParameterRecord = ParameterRecord {
    section: SECTION_OUT,
    width: 4,
    byte: 0,
    bit: 0,
};

/// OB_NR, DTIME, SIGN, RET_VAL.
static SRT_DINT: [ParameterRecord; 4] = [WORD_IN, DWORD_IN, WORD_IN, WORD_OUT];

/// OB_NR, RET_VAL.
static CAN_DINT: [ParameterRecord; 2] = [WORD_IN, WORD_OUT];

/// MODE, OB_NR, RET_VAL; of EN_IRT too.
static DIS_IRT: [ParameterRecord; 3] = [BYTE_IN, WORD_IN, WORD_OUT];

/// RET_VAL; of EN_AIRT too.
static DIS_AIRT: [ParameterRecord; 1] = [WORD_OUT];

/// RET_VAL.
static TIME_TCK: [ParameterRecord; 1] = [DWORD_OUT];

/// The parameters of a system function, as an image has those of a function: `None` exactly where
/// there is none of the number. There are SFC 32, 33, 39 to 43, 46 and 64.
pub fn system_function_records(number: u16) -> Option<&'static [ParameterRecord]>
    ensures records { option_map (λ p. p.now) result ≡ system_params number }
    ensures few { IfSome result (λ p. length p.now ≤ 4) }
{
    match number {
        32 => Some(&SRT_DINT),
        33 => Some(&CAN_DINT),
        39 | 40 => Some(&DIS_IRT),
        41 | 42 => Some(&DIS_AIRT),
        43 | 46 => Some(&[]),
        64 => Some(&TIME_TCK),
        _ => None,
    }
}

impl ParameterRecord {
    /// The parameter of the record. A width of another number than 1 to 4 is a fault, and read as a
    /// bit.
    pub fn param(&self) -> Param
        ensures { result ≡ param_of_record self.now }
    {
        Param {
            section: self.section,
            width: width_of_number(self.width),
            byte: self.byte,
            bit: self.bit,
        }
    }
}

fn params_of(records: &[ParameterRecord]) -> ArrayVec<Param, 4>
    requires { length records.now ≤ 4 }
    ensures { result.items ≡ map param_of_record records.now }
{
    let mut params = ArrayVec::new();
    for record in records {
        params.push(record.param());
    }
    params
}

/// The parameters of a system function as those of a program's block: `None` exactly where there is
/// none of the number.
pub fn system_function_params(number: u16) -> Option<ArrayVec<Param, 4>>
    ensures { option_map (λ p. p.items) result
        ≡ option_map (map param_of_record) (system_params number) }
{
    Some(params_of(system_function_records(number)?))
}
