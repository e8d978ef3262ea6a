ghost use Rattle.std.specs.Prelude.{◌≡◌, ◌<◌, List, length, [], ◌++◌, IfOk, true, false, if◌then◌else◌};
ghost use Rattle.stl_ast.specs.declared.declarations.Declaration.{Declaration};
ghost use Rattle.block_layout.specs.Around.{
  Outside,
  of_sections,
  of_structure,
  declarations_before_next,
  ret_val,
  returned_names,
};
ghost use Rattle.block_layout.specs.Cells.{is_temp, returned_cells};
ghost use Rattle.block_layout.specs.DeclarationFacts.{
  IsDeclaredByBlock,
  AreOpen,
  IsDeclaredBySections,
  SectionAdded,
  cells_by,
  open_list_of,
  facts_of_declarations,
};

use crate::cells::{Cell, Element};
use crate::declaration_facts::{DeclarationFacts, OpenList, check_all};
use crate::making::add_cells;
use crate::rules::rule_21::least_twice;
use crate::rules::rule_56::least_deep;
use crate::types::Types;
use plc_base::{Refusal, lesser};
use std::alloc::{AllocError, Global};
use stl_ast::{Block, Name, Part, PartKind, Sequence, Simple};
use stl_symbols::NameIndex;

/// What the declarations of a block come to: the cells of its components and of its temporary
/// variables, and the least refusals by names that stand twice and by types nested too deep.
#[derive(Drop)]
pub(crate) struct BlockCells {
    pub(crate) components: Vec<Cell>,
    pub(crate) temps: Vec<Cell>,
    pub(crate) twice: Option<Refusal>,
    pub(crate) deep: Option<Refusal>,
}

fn is_temp(kind: PartKind) -> bool
    ensures { result ≡ is_temp kind }
{
    matches!(kind, PartKind::Temp)
}

/// Adds the cells of a section.
fn add_section(
    alloc: Global,
    types: &Types,
    part: &Part,
    all_facts: &[DeclarationFacts],
    into: &mut BlockCells,
) -> Result<(), AllocError>
    requires { length all_facts.now ≡ length part.now.items }
    ensures components { IfOk result (λ _. into.new.components.items ≡ into.old.components.items
        ++ (if is_temp part.now.kind then []
        else cells_by types.now part.now.kind false all_facts.now part.now.items)) }
    ensures temps { IfOk result (λ _. into.new.temps.items ≡ into.old.temps.items
        ++ (if is_temp part.now.kind
        then cells_by types.now part.now.kind false all_facts.now part.now.items else [])) }
    ensures twice { IfOk result (λ _. into.new.twice ≡ into.old.twice) }
    ensures deep { IfOk result (λ _. into.new.deep ≡ into.old.deep) }
{
    let declarations = part.items.as_slice();
    if is_temp(part.kind) {
        add_cells(
            alloc,
            types,
            part.kind,
            false,
            declarations,
            all_facts,
            &mut into.temps,
        )
    } else {
        add_cells(
            alloc,
            types,
            part.kind,
            false,
            declarations,
            all_facts,
            &mut into.components,
        )
    }
}

/// Adds what a section comes to.
fn section(
    alloc: Global,
    types: &Types,
    part: &Part,
    open_: &mut Vec<OpenList>,
    into: &mut BlockCells,
) -> Result<(), AllocError>
    requires { 0 < length open_.old.items }
    ensures open { IfOk result (λ _. 0 < length open_.new.items) }
    ensures added { IfOk result (λ _. (o : Outside) (before : List Declaration)
        → AreOpen types.now o before open_.old.items
        → SectionAdded types.now o before part.now into.old into.new open_.new.items) }
{
    let declarations = part.items.as_slice();
    let all_facts = check_all(alloc, types, open_, declarations)?;
    add_section(alloc, types, part, &all_facts, into)?;
    into.twice = lesser(into.twice, least_twice(declarations, &all_facts));
    into.deep = lesser(into.deep, least_deep(declarations, &all_facts));
    Ok(())
}

/// The list that a block's sections begin in.
fn first_list(alloc: Global, returned: Option<Simple>) -> Result<OpenList, AllocError>
    ensures names { IfOk result (λ f. f.names ≡ returned_names returned) }
    ensures depth { IfOk result (λ f. f.depth ≡ 0) }
    ensures sound { IfOk result (λ f. f.sound ≡ true) }
{
    let mut names = NameIndex::new(alloc);
    if returned.is_some() {
        names.add(alloc, b"RET_VAL")?;
    }
    Ok(OpenList {
        names,
        depth: 0,
        sound: true,
    })
}

/// What the sections of a block come to.
fn sections(alloc: Global, types: &Types, block: &Block) -> Result<BlockCells, AllocError>
    ensures { IfOk result (λ made. IsDeclaredBySections types.now block.now made) }
{
    let mut open_ = Vec::new(alloc);
    open_.push(first_list(alloc, block.result)?)?;
    let mut made = BlockCells {
        components: returned_cells(alloc, block.result)?,
        temps: Vec::new(alloc),
        twice: None,
        deep: None,
    };
    for part in block.parts.as_slice() {
        section(alloc, types, part, &mut open_, &mut made)?;
    }
    Ok(made)
}

/// The cell of a return value.
fn returned_cells(alloc: Global, returned: Option<Simple>) -> Result<Vec<Cell>, AllocError>
    ensures { IfOk result (λ cells. cells.items ≡ returned_cells returned) }
{
    let mut cells = Vec::new(alloc);
    if let Some(kind) = returned {
        cells.push(Cell {
            name: Name::new(alloc, b"RET_VAL")?,
            section: PartKind::Output,
            level: 0,
            opens: false,
            sound: true,
            bounds: Sequence::from_vec(Vec::new(alloc)),
            of: Element::Plain { kind },
            presets: Sequence::from_vec(Vec::new(alloc)),
        })?;
    }
    Ok(cells)
}

/// The list that the structure of a block opens.
fn structure_list(alloc: Global) -> OpenList
    ensures names { result.names ≡ [] }
    ensures depth { result.depth ≡ 1 }
    ensures sound { result.sound ≡ true }
{
    OpenList {
        names: NameIndex::new(alloc),
        depth: 1,
        sound: true,
    }
}

/// What the rules find of the components of the structure of a block.
pub(crate) fn structure_facts(
    alloc: Global,
    types: &Types,
    block: &Block,
) -> Result<Vec<DeclarationFacts>, AllocError>
    ensures count { IfOk result (λ v. length v.items ≡ length block.now.components) }
    ensures facts { IfOk result (λ v. v.items
        ≡ facts_of_declarations types.now of_structure [] block.now.components) }
{
    let mut open_ = Vec::new(alloc);
    open_.push(structure_list(alloc))?;
    check_all(alloc, types, &mut open_, block.components.as_slice())
}

/// What the declarations of a block come to.
pub(crate) fn declarations_of(
    alloc: Global,
    types: &Types,
    block: &Block,
) -> Result<BlockCells, AllocError>
    ensures { IfOk result (λ made. IsDeclaredByBlock types.now block.now made) }
{
    let mut made = sections(alloc, types, block)?;
    let declarations = block.components.as_slice();
    let all_facts = structure_facts(alloc, types, block)?;
    add_cells(
        alloc,
        types,
        PartKind::Static,
        true,
        declarations,
        &all_facts,
        &mut made.components,
    )?;
    made.twice = lesser(made.twice, least_twice(declarations, &all_facts));
    made.deep = lesser(made.deep, least_deep(declarations, &all_facts));
    Ok(made)
}
