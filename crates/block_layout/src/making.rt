ghost use Rattle.std.specs.Prelude.{◌≡◌, length, IfOk, map, ◌++◌};
ghost use Rattle.block_layout.specs.Cells.{layout_element, preset_of, udt_element};
ghost use Rattle.block_layout.specs.DeclarationFacts.{cell_with, cells_by};

use crate::cells::{Cell, Element, Preset};
use crate::constants::bits_of;
use crate::declaration_facts::DeclarationFacts;
use crate::declarations::number_at;
use crate::types::Types;
use std::alloc::{AllocError, Global};
use stl_ast::{Declaration, ElementType, Init, Name, PartKind, Sequence};

/// What an element type comes to.
fn layout_element(types: &Types, of: &ElementType) -> Element
    ensures { result ≡ layout_element types.now of.now }
{
    match of {
        ElementType::Plain { kind } => Element::Plain { kind: *kind },
        ElementType::Structure => Element::Structure,
        ElementType::DateAndTime => Element::DateAndTime,
        ElementType::Udt { name } => match types.data_type(name) {
            None => Element::Unknown,
            Some(block) => Element::Udt {
                block,
                bits: number_at(&types.bits, block),
            },
        },
    }
}

/// The initial values of a declaration.
fn presets(alloc: Global, init: &[Init]) -> Result<Vec<Preset>, AllocError>
    ensures { IfOk result (λ v. v.items ≡ map preset_of init.now) }
{
    let mut presets = Vec::new(alloc);
    for i in init {
        presets.push(Preset {
            count: i.count.unwrap_or(1),
            value: bits_of(&i.value),
        })?;
    }
    Ok(presets)
}

/// The cell of a declaration.
#[tactic(auto, unfolding(crate::specs::DeclarationFacts::cell_with))]
pub(crate) fn cell_with(
    alloc: Global,
    types: &Types,
    section: PartKind,
    sound: bool,
    opens: bool,
    declaration: &Declaration,
) -> Result<Cell, AllocError>
    ensures { IfOk result (λ c. c ≡ cell_with types.now section sound opens declaration.now) }
{
    let name = declaration.name.as_bytes().to_ascii_uppercase(alloc)?;
    let bounds = declaration.of.arrays.as_slice().to_vec(alloc)?;
    let presets = presets(alloc, declaration.init.as_slice())?;
    Ok(Cell {
        name: Name::from_vec(name),
        section,
        level: declaration.level,
        opens,
        sound,
        bounds: Sequence::from_vec(bounds),
        of: layout_element(types, &declaration.of.of),
        presets: Sequence::from_vec(presets),
    })
}

/// Adds the cells of declarations behind others; `begun` says that a sound one of the section is
/// among those.
#[tactic(auto, using(crate::proofs::CellLemmas::cells_next))]
pub(crate) fn add_cells(
    alloc: Global,
    types: &Types,
    section: PartKind,
    begun: bool,
    declarations: &[Declaration],
    all_facts: &[DeclarationFacts],
    cells: &mut Vec<Cell>,
) -> Result<(), AllocError>
    requires { length all_facts.now ≡ length declarations.now }
    ensures { IfOk result (λ _. cells.new.items ≡ cells.old.items
        ++ cells_by types.now section begun all_facts.now declarations.now) }
{
    let mut begun = begun;
    for i in 0..declarations.len() {
        let sound = all_facts[i].sound;
        let one = cell_with(
            alloc,
            types,
            section,
            sound,
            !begun && sound,
            &declarations[i],
        )?;
        cells.push(one)?;
        begun = begun || sound;
    }
    Ok(())
}
