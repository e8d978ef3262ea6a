ghost use Rattle.std.specs.Prelude.{◌≡◌, ◌<◌, ◌≤◌, ◌^◌, ◌%◌, nat_le, true, length, drop, Some, None, IfSome, IfNone, MatchResult};
ghost use Rattle.std.specs.Option.{option_map};
ghost use Rattle.flat_code.specs.Forms.{payload_in, payload_fits};
ghost use Rattle.flat_code.specs.Ops.{op_of, op_at, is_op, DecodesOp};

use crate::fields::{
    actual_at, area_at, callable_at, crossing_at, direct_at, memory_area_at, pointer_area_at,
    u8_at, u16_at, u32_at, width_at, within_at,
};
use crate::operands::Operand;
use crate::ops::Op;
use crate::table::taken_by;

/// No op begins at the offset.
#[derive(Clone, Copy, Debug, PartialEq, Eq)]
pub struct BadOp;

#[tactic(auto, unfolding(crate::specs::Forms::payload_in))]
fn payload_at(form: u8, bytes: &[u8]) -> Option<(Operand, &[u8])>
    ensures { option_map (λ r. (r.0, r.1.now)) result ≡ payload_in form bytes.now }
{
    match form {
        0 => Some((Operand::Nothing, bytes)),
        1 => {
            let (value, rest) = u32_at(bytes)?;
            Some((Operand::Literal { value }, rest))
        }
        2 => {
            let (area, width, byte, bit, rest) = direct_at(bytes)?;
            Some((
                Operand::Direct {
                    area,
                    width,
                    byte,
                    bit,
                },
                rest,
            ))
        }
        3 => {
            let (area, rest) = memory_area_at(bytes)?;
            let (width, rest) = width_at(rest)?;
            let (from, rest) = pointer_area_at(rest)?;
            let (byte, rest) = u16_at(rest)?;
            Some((
                Operand::ByMemory {
                    area,
                    width,
                    from,
                    byte,
                },
                rest,
            ))
        }
        4 => {
            let (area, rest) = crossing_at(bytes)?;
            let (width, rest) = width_at(rest)?;
            let (register, rest) = within_at(rest, 1, 2)?;
            let (bits, rest) = u32_at(rest)?;
            Some((
                Operand::ByRegister {
                    area,
                    width,
                    register,
                    bits,
                },
                rest,
            ))
        }
        5 => {
            let (index, rest) = u8_at(bytes)?;
            let (width, rest) = width_at(rest)?;
            Some((Operand::Parameter { index, width }, rest))
        }
        6 => {
            let (kind, rest) = within_at(bytes, 1, 2)?;
            let (number, rest) = u16_at(rest)?;
            Some((Operand::Numbered { kind, number }, rest))
        }
        7 => {
            let (kind, rest) = within_at(bytes, 1, 2)?;
            let (from, rest) = pointer_area_at(rest)?;
            let (byte, rest) = u16_at(rest)?;
            Some((Operand::NumberedBy { kind, from, byte }, rest))
        }
        8 => {
            let (kind, rest) = within_at(bytes, 0, 17)?;
            let (target, rest) = u32_at(rest)?;
            Some((Operand::Jump { kind, target }, rest))
        }
        9 => {
            let (condition, rest) = within_at(bytes, 1, 10)?;
            Some((Operand::OfStatus { condition }, rest))
        }
        10 => {
            let (number, rest) = u16_at(bytes)?;
            Some((Operand::UseDb { number }, rest))
        }
        11 => {
            let (index, rest) = u8_at(bytes)?;
            let (actual, rest) = actual_at(rest)?;
            Some((Operand::Pass { index, actual }, rest))
        }
        13 => {
            let (kind, rest) = callable_at(bytes)?;
            let (number, rest) = u16_at(rest)?;
            let (instance, rest) = u16_at(rest)?;
            Some((
                Operand::Called {
                    kind,
                    number,
                    instance,
                },
                rest,
            ))
        }
        14 => {
            let (register, rest) = within_at(bytes, 1, 2)?;
            let (number, rest) = u16_at(rest)?;
            Some((Operand::OpenBlock { register, number }, rest))
        }
        15 => {
            let (register, rest) = within_at(bytes, 1, 2)?;
            let (from, rest) = pointer_area_at(rest)?;
            let (byte, rest) = u16_at(rest)?;
            Some((
                Operand::OpenBy {
                    register,
                    from,
                    byte,
                },
                rest,
            ))
        }
        _ => None,
    }
}

pub(crate) fn operand_at(form: u8, bytes: &[u8]) -> Option<(Operand, &[u8])>
    ensures read { option_map (λ r. (r.0, r.1.now)) result ≡ payload_in form bytes.now }
    ensures fits { IfSome result (λ r. payload_fits r.0 ≡ true) }
{
    payload_at(form, bytes)
}

/// The parts of the op that bytes begin with, and the bytes after it.
#[tactic(auto, unfolding(crate::specs::Ops::op_at, crate::specs::Ops::is_op))]
fn op_from(bytes: &[u8]) -> Option<(u8, bool, Operand, &[u8])>
    ensures read { option_map (λ r. (op_of r.0 r.1 r.2, r.3.now)) result ≡ op_at bytes.now }
    ensures op { IfSome result (λ r. is_op r.0 r.2 ≡ true) }
{
    match bytes {
        [b, n, rest @ ..] => {
            let (operand, rest) = operand_at(*n, rest)?;
            let code = *b % 128;
            if taken_by(code).admits(&operand) {
                Some((code, *b >= 128, operand, rest))
            } else {
                None
            }
        }
        _ => None,
    }
}

pub(crate) fn behind(bytes: &[u8], at: usize) -> &[u8]
    requires { at ≤ length bytes.now }
    ensures { result.now ≡ drop at bytes.now }
{
    &bytes[at..]
}

fn op_behind(bytes: &[u8], at: u32) -> Option<(Op, u32)>
    requires short { length bytes.now < 2 ^ 32 }
    requires within { at ≤ length bytes.now }
    ensures found { IfSome result (λ r. (op_at (drop at bytes.now)
        ≡ Some (r.0, drop r.1 bytes.now))
        × (at < r.1) × (r.1 ≤ length bytes.now)) }
    ensures none { IfNone result (op_at (drop at bytes.now) ≡ None) }
{
    let (code, last, operand, rest) = op_from(behind(bytes, at as usize))?;
    let end = (bytes.len() - rest.len()) as u32;
    Some((
        Op {
            code,
            last,
            operand,
        },
        end,
    ))
}

/// The op at an offset, and the offset after it.
///
/// # Errors
///
/// `BadOp` exactly where the bytes from there begin with no op, whatever follows.
pub fn decode_op(bytes: &[u8], at: u32) -> Result<(Op, u32), BadOp>
    requires { length bytes.now < 2 ^ 32 }
    ensures { DecodesOp bytes.now at result }
{
    if at as usize > bytes.len() {
        return Err(BadOp);
    }
    match op_behind(bytes, at) {
        Some(found) => Ok(found),
        None => Err(BadOp),
    }
}
