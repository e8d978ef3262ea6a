//! The first bytes of data blocks as initial values.
ghost use Rattle.std.specs.Prelude.{◌≡◌, ◌<◌, ◌==◌, ◌++◌, ◌∷◌, List, ℕ, IfOk};
ghost use Rattle.std.specs.List.{list_all};
ghost use Rattle.stl_list.specs.Initial.{
  byte_at,
  byte_here,
  byte_setting,
  byte_settings,
  initial_run,
  inits_from,
  inits_of,
  parameter_here,
  parameter_setting,
  parameter_settings,
  settings_of,
  value_in,
  values_of,
  word_in_bytes,
};

use crate::constants::typed_constant;
use crate::sections::{STATIC_NAME, static_len, static_start};
use crate::signatures::Signature;
use flat_code::Param;
use plc_base::{NoMemory, Width};
use std::alloc::Global;
use stl_ast::{Init, Literal, Name, PathStep, Sequence, Setting};
use stl_types::Formal;

/// The most elements that one initial value stands for.
const MOST_EQUAL: u16 = 65_535;

/// `value`, or `count (value)` of several.
fn init(value: u8, count: u16) -> Init
    ensures { result ≡ initial_run value count }
{
    Init {
        count: if count == 1 { None } else { Some(count) },
        value: Literal::Byte { value },
    }
}

/// So many bytes of one value.
#[derive(Clone, Copy)]
struct EqualBytes {
    value: u8,
    count: u16,
}

/// What the bytes are with one more: where it goes on with no more equal ones, those before it are
/// added.
fn with_next(inits: &mut Vec<Init>, equal: &EqualBytes, next: u8) -> Result<EqualBytes, NoMemory>
    ensures { IfOk result (λ e. (rest : List ℕ)
        → inits.new.items ++ inits_from e.value e.count rest
        ≡ inits.old.items ++ inits_from equal.now.value equal.now.count (next ∷ rest)) }
{
    if next == equal.value && equal.count < MOST_EQUAL {
        return Ok(EqualBytes {
            value: next,
            count: equal.count + 1,
        });
    }
    inits.push(init(equal.value, equal.count))?;
    Ok(EqualBytes {
        value: next,
        count: 1,
    })
}

/// The runs of a byte and those behind it.
fn inits_behind(alloc: Global, first: u8, bytes: &[u8]) -> Result<Vec<Init>, NoMemory>
    ensures { IfOk result (λ v. v.items ≡ inits_from first 1 bytes.now) }
{
    let mut inits = Vec::new(alloc);
    let mut equal = EqualBytes {
        value: first,
        count: 1,
    };
    for next in bytes {
        equal = with_next(&mut inits, &equal, *next)?;
    }
    inits.push(init(equal.value, equal.count))?;
    Ok(inits)
}

/// The runs of equal bytes.
fn inits_of(alloc: Global, bytes: &[u8]) -> Result<Vec<Init>, NoMemory>
    ensures { IfOk result (λ v. v.items ≡ inits_of bytes.now) }
{
    match bytes {
        [] => Ok(Vec::new(alloc)),
        [first, rest @ ..] => inits_behind(alloc, *first, rest),
    }
}

fn are_zero(bytes: &[u8]) -> bool
    ensures { result ≡ list_all (λ b. b == 0) bytes.now }
{
    bytes.iter().all(|byte: &u8| *byte == 0)
}

/// The initial values of a data block; bytes that are all 0 need none.
#[tactic(auto, unfolding(crate::specs::Initial::values_of))]
pub(crate) fn values_of(alloc: Global, bytes: &[u8]) -> Result<Vec<Init>, NoMemory>
    ensures { IfOk result (λ v. v.items ≡ values_of bytes.now) }
{
    if are_zero(bytes) {
        Ok(Vec::new(alloc))
    } else {
        inits_of(alloc, bytes)
    }
}

/// The byte at a place; 0 past the end.
fn byte_at(bytes: &[u8], at: usize) -> u8
    ensures { result ≡ byte_at bytes.now at }
{
    bytes.get(at).copied().unwrap_or(0)
}

fn word_at(bytes: &[u8], at: usize) -> u32
    requires { at < 65540 }
    ensures { result ≡ word_in_bytes bytes.now at }
{
    256 * u32::from(byte_at(bytes, at)) + u32::from(byte_at(bytes, at + 1))
}

/// The bits of a parameter in an instance.
fn value_in(bytes: &[u8], width: Width, byte: u16, bit: u8) -> u32
    ensures { result ≡ value_in bytes.now width byte bit }
{
    let at = byte as usize;
    match width {
        Width::Bit => u32::from(byte_at(bytes, at) >> (bit % 8)) % 2,
        Width::Byte => u32::from(byte_at(bytes, at)),
        Width::Word => word_at(bytes, at),
        Width::Dword => 65_536 * word_at(bytes, at) + word_at(bytes, at + 2),
    }
}

/// `name := value;`.
fn parameter_setting(
    alloc: Global,
    line: u32,
    formal: &Formal,
    bits: u32,
) -> Result<Setting, NoMemory>
    ensures { IfOk result (λ s. s ≡ parameter_setting line formal.now bits) }
{
    let mut path = Vec::with_capacity(alloc, 1)?;
    path.push(PathStep::Named {
        name: Name::new(alloc, formal.name.as_bytes())?,
    })?;
    Ok(Setting {
        line,
        path: Sequence::from_vec(path),
        value: typed_constant(formal.kind, bits),
    })
}

/// Adds the setting of a parameter that isn't 0.
fn add_parameter(
    alloc: Global,
    settings: &mut Vec<Setting>,
    line: u32,
    formal: &Formal,
    bits: u32,
) -> Result<(), NoMemory>
    ensures { IfOk result (λ _. settings.new.items
        ≡ settings.old.items ++ parameter_here line formal.now bits) }
{
    if bits > 0 {
        settings.push(parameter_setting(alloc, line, formal, bits)?)?;
    }
    Ok(())
}

/// Adds the settings of parameters, by name and by place.
fn add_parameters(
    alloc: Global,
    settings: &mut Vec<Setting>,
    line: u32,
    bytes: &[u8],
    formals: &[Formal],
    params: &[Param],
) -> Result<(), NoMemory>
    ensures { IfOk result (λ _. settings.new.items
        ≡ settings.old.items ++ parameter_settings line bytes.now formals.now params.now) }
{
    for place in 0..formals.len().min(params.len()) {
        let param = &params[place];
        let bits = value_in(bytes, param.width, param.byte, param.bit);
        add_parameter(alloc, settings, line, &formals[place], bits)?;
    }
    Ok(())
}

/// `s[index] := value;`.
fn byte_setting(alloc: Global, line: u32, index: u16, value: u8) -> Result<Setting, NoMemory>
    ensures { IfOk result (λ s. s ≡ byte_setting line index value) }
{
    let mut path = Vec::with_capacity(alloc, 2)?;
    path.push(PathStep::Named {
        name: Name::new(alloc, STATIC_NAME)?,
    })?;
    path.push(PathStep::Index {
        at: i32::from(index),
    })?;
    Ok(Setting {
        line,
        path: Sequence::from_vec(path),
        value: Literal::Byte { value },
    })
}

/// Adds the setting of a byte of VAR that isn't 0.
fn add_byte(
    alloc: Global,
    settings: &mut Vec<Setting>,
    line: u32,
    index: u16,
    value: u8,
) -> Result<(), NoMemory>
    ensures { IfOk result (λ _. settings.new.items
        ≡ settings.old.items ++ byte_here line index value) }
{
    if value > 0 {
        settings.push(byte_setting(alloc, line, index, value)?)?;
    }
    Ok(())
}

/// Adds the settings of the bytes of VAR, of which the first stands at a place.
fn add_bytes(
    alloc: Global,
    settings: &mut Vec<Setting>,
    line: u32,
    bytes: &[u8],
    start: u32,
    count: u16,
) -> Result<(), NoMemory>
    ensures { IfOk result (λ _. settings.new.items
        ≡ settings.old.items ++ byte_settings line bytes.now start count) }
{
    for index in 0..count {
        let value = byte_at(bytes, start as usize + index as usize);
        add_byte(alloc, settings, line, index, value)?;
    }
    Ok(())
}

/// The settings of an instance of a function block: each component that isn't 0, in order.
#[tactic(auto, unfolding(crate::specs::Initial::settings_of))]
pub(crate) fn settings_of(
    alloc: Global,
    line: u32,
    bytes: &[u8],
    signature: &Signature,
) -> Result<Vec<Setting>, NoMemory>
    ensures { IfOk result (λ v. v.items ≡ settings_of line bytes.now signature.now) }
{
    let formals = signature.formals.as_slice();
    let params = signature.params.as_slice();
    let mut settings = Vec::new(alloc);
    add_parameters(alloc, &mut settings, line, bytes, formals, params)?;
    let count = static_len(signature.instance_len, params);
    add_bytes(
        alloc,
        &mut settings,
        line,
        bytes,
        static_start(params),
        count,
    )?;
    Ok(settings)
}
