ghost use Rattle.std.specs.Prelude.{◌≡◌, ◌<◌, ◌∷◌, ◌++◌, OnOk, OnErr};
ghost use Rattle.flat_code.specs.Forms.{crossing_code, form_of_operand, payload, pass_bytes};
ghost use Rattle.flat_code.specs.Ops.{op_bytes, code_byte};

use crate::operands::{Operand, Passed};
use crate::ops::Op;
use crate::record_numbers::code_of_area;
use plc_base::{Area, NoMemory};

fn code_of_crossing(area: Option<Area>) -> u8
    ensures { result ≡ crossing_code area }
{
    match area {
        None => 0,
        Some(area) => code_of_area(area),
    }
}

fn first_byte(code: u8, last: bool) -> u8
    requires { code < 128 }
    ensures { result ≡ code_byte code last }
{
    if last { code + 128 } else { code }
}

#[tactic(auto, unfolding(crate::specs::Forms::direct_coding))]
fn put(out: &mut Vec<u8>, first: u8, operand: &Operand) -> Result<(), NoMemory>
    ensures ok { OnOk result (out.new.items
        ≡ out.old.items ++ first ∷ form_of_operand operand.now ∷ payload operand.now) }
    ensures err { OnErr result (out.new.items ≡ out.old.items) }
{
    match *operand {
        Operand::Nothing => out.extend_from_slice(&[first, 0]),
        Operand::Literal { value } => {
            let [a, b, c, d] = value.to_be_bytes();
            out.extend_from_slice(&[first, 1, a, b, c, d])
        }
        Operand::Direct {
            area,
            width,
            byte,
            bit,
        } => {
            let [a, b] = byte.to_be_bytes();
            out.extend_from_slice(&[first, 2, code_of_area(area), width.number(), a, b, bit])
        }
        Operand::ByMemory {
            area,
            width,
            from,
            byte,
        } => {
            let [a, b] = byte.to_be_bytes();
            out.extend_from_slice(&[
                first,
                3,
                code_of_area(area),
                width.number(),
                code_of_area(from),
                a,
                b,
            ])
        }
        Operand::ByRegister {
            area,
            width,
            register,
            bits,
        } => {
            let [a, b, c, d] = bits.to_be_bytes();
            out.extend_from_slice(&[
                first,
                4,
                code_of_crossing(area),
                width.number(),
                register,
                a,
                b,
                c,
                d,
            ])
        }
        Operand::Parameter { index, width } => {
            out.extend_from_slice(&[first, 5, index, width.number()])
        }
        Operand::Numbered { kind, number } => {
            let [a, b] = number.to_be_bytes();
            out.extend_from_slice(&[first, 6, kind, a, b])
        }
        Operand::NumberedBy { kind, from, byte } => {
            let [a, b] = byte.to_be_bytes();
            out.extend_from_slice(&[first, 7, kind, code_of_area(from), a, b])
        }
        Operand::Jump { kind, target } => {
            let [a, b, c, d] = target.to_be_bytes();
            out.extend_from_slice(&[first, 8, kind, a, b, c, d])
        }
        Operand::OfStatus { condition } => out.extend_from_slice(&[first, 9, condition]),
        Operand::UseDb { number } => {
            let [a, b] = number.to_be_bytes();
            out.extend_from_slice(&[first, 10, a, b])
        }
        Operand::Pass { index, actual } => put_pass(out, first, index, actual),
        Operand::Called {
            kind,
            number,
            instance,
        } => {
            let [a, b] = number.to_be_bytes();
            let [c, d] = instance.to_be_bytes();
            out.extend_from_slice(&[first, 13, kind, a, b, c, d])
        }
        Operand::OpenBlock { register, number } => {
            let [a, b] = number.to_be_bytes();
            out.extend_from_slice(&[first, 14, register, a, b])
        }
        Operand::OpenBy {
            register,
            from,
            byte,
        } => {
            let [a, b] = byte.to_be_bytes();
            out.extend_from_slice(&[first, 15, register, code_of_area(from), a, b])
        }
    }
}

#[tactic(auto, unfolding(crate::specs::Forms::direct_coding, crate::specs::Forms::passed_coding))]
fn put_pass(out: &mut Vec<u8>, first: u8, index: u8, actual: Passed) -> Result<(), NoMemory>
    ensures ok { OnOk result
        (out.new.items ≡ out.old.items ++ first ∷ pass_bytes index actual) }
    ensures err { OnErr result (out.new.items ≡ out.old.items) }
{
    match actual {
        Passed::Literal { value } => {
            let [a, b, c, d] = value.to_be_bytes();
            out.extend_from_slice(&[first, 11, index, 1, a, b, c, d])
        }
        Passed::Direct {
            area,
            width,
            byte,
            bit,
        } => {
            let [a, b] = byte.to_be_bytes();
            out.extend_from_slice(&[
                first,
                11,
                index,
                2,
                code_of_area(area),
                width.number(),
                a,
                b,
                bit,
            ])
        }
        Passed::Parameter { index: of, width } => {
            out.extend_from_slice(&[first, 11, index, 5, of, width.number()])
        }
        Passed::InBlock {
            number,
            area,
            width,
            byte,
            bit,
        } => {
            let [c, d] = number.to_be_bytes();
            let [a, b] = byte.to_be_bytes();
            out.extend_from_slice(&[
                first,
                11,
                index,
                12,
                c,
                d,
                code_of_area(area),
                width.number(),
                a,
                b,
                bit,
            ])
        }
    }
}

/// Appends the bytes of an op. Where memory is wanting nothing is appended.
#[tactic(auto, unfolding(crate::specs::Ops::op_bytes, crate::specs::Ops::is_op))]
pub fn encode_op(op: &Op, out: &mut Vec<u8>) -> Result<(), NoMemory>
    ensures ok { OnOk result (out.new.items ≡ out.old.items ++ op_bytes op.now) }
    ensures err { OnErr result (out.new.items ≡ out.old.items) }
{
    let first = first_byte(op.code, op.last);
    put(out, first, &op.operand)
}
