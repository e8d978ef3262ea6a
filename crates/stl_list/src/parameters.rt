//! The parameters of a code block as a source declares them.
ghost use Rattle.std.specs.Prelude.{◌≡◌, option_map, slice_get, IfOk};
ghost use Rattle.stl_list.specs.Parameters.{is_return, name_of, parameter_name, kind_of_width, section_of};

use flat_code::{SECTION_IN, SECTION_OUT};
use itoa::Buffer;
use plc_base::{NoMemory, Width};
use std::alloc::Global;
use stl_ast::{Name, PartKind, Simple};
use stl_types::Formal;

/// The name of the return value.
const RETURN_NAME: &[u8] = b"RET_VAL";

/// The name of the parameter of an index.
pub(crate) fn parameter_name(alloc: Global, index: usize) -> Result<Name, NoMemory>
    ensures { IfOk result (λ name. name ≡ parameter_name index) }
{
    let mut bytes = Vec::from_slice(alloc, b"p")?;
    bytes.extend_from_slice(Buffer::new().format(index).as_bytes())?;
    Ok(Name::from_vec(bytes))
}

/// The name of a parameter, which is the return value or has an index.
pub(crate) fn name_of(alloc: Global, returns: bool, index: usize) -> Result<Name, NoMemory>
    ensures { IfOk result (λ name. name ≡ name_of returns index) }
{
    if returns {
        Name::new(alloc, RETURN_NAME)
    } else {
        parameter_name(alloc, index)
    }
}

/// The parameter of an index.
pub(crate) fn formal_at(formals: &[Formal], index: u8) -> Option<&Formal>
    ensures { option_map (λ f. f.now) result ≡ slice_get formals.now index }
{
    formals.get(index as usize)
}

/// Whether a parameter is the return value of its function.
pub(crate) fn is_return(formal: &Formal) -> bool
    ensures { result ≡ is_return formal.now }
{
    formal.name.as_bytes() == RETURN_NAME
}

/// The type that a width has by itself.
pub(crate) fn kind_of_width(width: Width) -> Simple
    ensures { result ≡ kind_of_width width }
{
    match width {
        Width::Bit => Simple::Bool,
        Width::Byte => Simple::Byte,
        Width::Word => Simple::Word,
        Width::Dword => Simple::Dword,
    }
}

/// The section by its number in an image.
pub(crate) fn section_of(section: u8) -> PartKind
    ensures { result ≡ section_of section }
{
    if section == SECTION_IN {
        PartKind::Input
    } else if section == SECTION_OUT {
        PartKind::Output
    } else {
        PartKind::InOut
    }
}
