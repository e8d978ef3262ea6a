//! Declarations and sections.
ghost use Rattle.std.specs.Prelude.{◌≡◌, ◌-◌, ◌++◌, [], ◌∷◌, pos, IfOk};
ghost use Rattle.stl_ast.specs.Blocks.{part_rank};
ghost use Rattle.stl_list.specs.Sections.{
  byte_array,
  bytes_here,
  declared_here,
  declarations_of_section,
  even_end,
  is_declared_in,
  plain_declaration,
  section_part,
  section_parts,
  static_bytes,
  static_len,
  static_start,
};

use crate::parameters::is_return;
use flat_code::{CodeBlock, Param};
use plc_base::NoMemory;
use std::alloc::Global;
use stl_ast::{
    Bounds, Declaration, Declarations, ElementType, Init, Name, Part, PartKind, Sequence, Simple,
    TypeTree,
};
use stl_types::Formal;

/// The name of what VAR holds.
pub(crate) const STATIC_NAME: &[u8] = b"s";

/// The name of what VAR_TEMP holds.
const TEMPORARY_NAME: &[u8] = b"t";

/// The name of what a data block holds.
pub(crate) const DATA_NAME: &[u8] = b"x";

/// A parameter, `name : type;`.
fn plain_declaration(alloc: Global, line: u32, formal: &Formal) -> Result<Declaration, NoMemory>
    ensures { IfOk result (λ d. d ≡ plain_declaration line formal.now) }
{
    Ok(Declaration {
        line,
        name: Name::new(alloc, formal.name.as_bytes())?,
        level: 0,
        of: TypeTree {
            arrays: Sequence::from_vec(Vec::new(alloc)),
            of: ElementType::Plain { kind: formal.kind },
        },
        init: Sequence::from_vec(Vec::new(alloc)),
    })
}

/// Bounds of so many elements.
fn bounds(alloc: Global, count: u16) -> Result<Vec<Bounds>, NoMemory>
    ensures { IfOk result
        (λ v. v.items ≡ record { low = pos 0; high = pos (count - 1) } ∷ []) }
{
    Vec::from_slice(
        alloc,
        &[Bounds {
            low: 0,
            high: i32::from(count.saturating_sub(1)),
        }],
    )
}

/// So many bytes, `name : ARRAY [0..count - 1] OF BYTE := values;`.
fn byte_array(
    alloc: Global,
    line: u32,
    name: &[u8],
    count: u16,
    values: Vec<Init>,
) -> Result<Declaration, NoMemory>
    ensures { IfOk result (λ d. d ≡ byte_array line name.now count values.items) }
{
    let name = Name::new(alloc, name)?;
    let arrays = bounds(alloc, count)?;
    Ok(Declaration {
        line,
        name,
        level: 0,
        of: TypeTree {
            arrays: Sequence::from_vec(arrays),
            of: ElementType::Plain { kind: Simple::Byte },
        },
        init: Sequence::from_vec(values),
    })
}

/// The declaration of so many bytes; none where the count is 0.
pub(crate) fn bytes_here(
    alloc: Global,
    line: u32,
    name: &[u8],
    count: u16,
    values: Vec<Init>,
) -> Result<Declarations, NoMemory>
    ensures { IfOk result (λ v. v ≡ bytes_here line name.now count values.items) }
{
    let mut items = Vec::new(alloc);
    if count > 0 {
        items.push(byte_array(alloc, line, name, count, values)?)?;
    }
    Ok(Declarations::from_vec(items))
}

/// The place of a section among those of a block.
fn rank(kind: PartKind) -> u8
    ensures { result ≡ part_rank kind }
{
    kind as u8
}

/// Whether a parameter is declared in a section; a return value is in the head.
fn is_declared_in(kind: PartKind, formal: &Formal) -> bool
    ensures { result ≡ is_declared_in kind formal.now }
{
    rank(formal.section) == rank(kind) && !is_return(formal)
}

/// Adds the declaration of a parameter, if the parameter is declared in this section.
fn add_declared(
    alloc: Global,
    items: &mut Vec<Declaration>,
    line: u32,
    kind: PartKind,
    formal: &Formal,
) -> Result<(), NoMemory>
    ensures { IfOk result (λ _. items.new.items
        ≡ items.old.items ++ declared_here line kind formal.now) }
{
    if is_declared_in(kind, formal) {
        items.push(plain_declaration(alloc, line, formal)?)?;
    }
    Ok(())
}

/// The declarations of the parameters of a section.
fn declared_in(
    alloc: Global,
    line: u32,
    formals: &[Formal],
    kind: PartKind,
) -> Result<Declarations, NoMemory>
    ensures { IfOk result (λ v. v ≡ declarations_of_section line formals.now kind) }
{
    let mut items = Vec::new(alloc);
    for formal in formals {
        add_declared(alloc, &mut items, line, kind, formal)?;
    }
    Ok(Declarations::from_vec(items))
}

/// Adds a section with these declarations, if there are any.
fn add_section(
    parts: &mut Vec<Part>,
    line: u32,
    kind: PartKind,
    items: Declarations,
) -> Result<(), NoMemory>
    ensures { IfOk result
        (λ _. parts.new.items ≡ parts.old.items ++ section_part line kind items) }
{
    if !items.as_slice().is_empty() {
        parts.push(Part { line, kind, items })?;
    }
    Ok(())
}

/// The first even byte at or past the end of a parameter.
fn even_end(param: &Param) -> u32
    ensures { result ≡ even_end param.now }
{
    let end = 8 * u32::from(param.byte) + u32::from(param.bit) + param.width.bit_count();
    (end + 15) / 16 * 2
}

/// Where VAR begins: behind the last parameter, or at 0.
pub(crate) fn static_start(params: &[Param]) -> u32
    ensures { result ≡ static_start params.now }
{
    match params.last() {
        None => 0,
        Some(param) => even_end(param),
    }
}

/// How many bytes VAR has, up to the end of an instance.
pub(crate) fn static_len(instance_len: u16, params: &[Param]) -> u16
    ensures { result ≡ static_len instance_len params.now }
{
    u32::from(instance_len).saturating_sub(static_start(params)) as u16
}

/// How many bytes VAR has in a code block.
fn static_bytes(block: &CodeBlock) -> u16
    ensures { result ≡ static_bytes block.now }
{
    if block.id.kind.is_function_block() {
        static_len(block.instance_len, block.params.as_slice())
    } else {
        0
    }
}

/// Adds a section of parameters.
fn add_parameters(
    alloc: Global,
    parts: &mut Vec<Part>,
    line: u32,
    formals: &[Formal],
    kind: PartKind,
) -> Result<(), NoMemory>
    ensures { IfOk result (λ _. parts.new.items
        ≡ parts.old.items
        ++ section_part line kind (declarations_of_section line formals.now kind)) }
{
    let items = declared_in(alloc, line, formals, kind)?;
    add_section(parts, line, kind, items)
}

/// Adds a section of so many bytes.
fn add_bytes(
    alloc: Global,
    parts: &mut Vec<Part>,
    line: u32,
    kind: PartKind,
    name: &[u8],
    count: u16,
) -> Result<(), NoMemory>
    ensures { IfOk result (λ _. parts.new.items
        ≡ parts.old.items ++ section_part line kind (bytes_here line name.now count [])) }
{
    let items = bytes_here(alloc, line, name, count, Vec::new(alloc))?;
    add_section(parts, line, kind, items)
}

/// The sections of a code block with these parameters.
#[tactic(auto, unfolding(crate::specs::Sections::section_parts))]
pub(crate) fn sections(
    alloc: Global,
    line: u32,
    formals: &[Formal],
    block: &CodeBlock,
) -> Result<Vec<Part>, NoMemory>
    ensures { IfOk result (λ v. v.items ≡ section_parts line formals.now block.now) }
{
    let mut parts = Vec::new(alloc);
    add_parameters(alloc, &mut parts, line, formals, PartKind::Input)?;
    add_parameters(alloc, &mut parts, line, formals, PartKind::Output)?;
    add_parameters(alloc, &mut parts, line, formals, PartKind::InOut)?;
    let count = static_bytes(block);
    add_bytes(
        alloc,
        &mut parts,
        line,
        PartKind::Static,
        STATIC_NAME,
        count,
    )?;
    let count = block.local_len;
    add_bytes(
        alloc,
        &mut parts,
        line,
        PartKind::Temp,
        TEMPORARY_NAME,
        count,
    )?;
    Ok(parts)
}
