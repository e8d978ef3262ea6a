ghost use Rattle.std.specs.Prelude.{◌≡◌, ◌++◌, IfOk};
ghost use Rattle.std.specs.List.{list_all};
ghost use Rattle.std.specs.Option.{option_map};
ghost use Rattle.stl_types.specs.Parameters.{
  callee_at,
  callee_by,
  callee_of,
  formal_here,
  formals_of,
  is_sound_formal,
  sound_formals,
  source_callee,
  system_callee,
};

use crate::contexts::Context;
use crate::parameters::{Callee, Formal};
use crate::system_functions::system_formals;
use block_layout::{Cell, Element, is_parameter, named_block};
use plc_base::{BlockId, BlockKind};
use std::alloc::{AllocError, Global};
use stl_ast::{Name, Operand};

/// Adds the parameter that a component is, if it is one.
fn add_formal(formals: &mut Vec<Formal>, alloc: Global, cell: &Cell) -> Result<(), AllocError>
    ensures { IfOk result (λ _. formals.new.items ≡ formals.old.items ++ formal_here cell.now) }
{
    if !is_parameter(cell.section) {
        return Ok(());
    }
    if let Element::Plain { kind } = cell.of {
        formals.push(Formal {
            name: Name::new(alloc, cell.name.as_bytes())?,
            section: cell.section,
            kind,
        })?;
        return Ok(());
    }
    Ok(())
}

fn formals_of(alloc: Global, cells: &[Cell]) -> Result<Vec<Formal>, AllocError>
    ensures { IfOk result (λ formals. formals.items ≡ formals_of cells.now) }
{
    let mut formals = Vec::new(alloc);
    for cell in cells {
        add_formal(&mut formals, alloc, cell)?;
    }
    Ok(formals)
}

fn is_sound_formal(cell: &Cell) -> bool
    ensures { result ≡ is_sound_formal cell.now }
{
    !is_parameter(cell.section) || cell.sound
}

fn are_sound(cells: &[Cell]) -> bool
    ensures { result ≡ list_all is_sound_formal cells.now }
{
    cells.iter().all(|c| is_sound_formal(c))
}

/// The parameters among components, where none of them breaks a rule.
fn sound_formals(alloc: Global, cells: &[Cell]) -> Result<Option<Vec<Formal>>, AllocError>
    ensures { IfOk result (λ found. option_map (λ v. v.items) found ≡ sound_formals cells.now) }
{
    if are_sound(cells) {
        Ok(Some(formals_of(alloc, cells)?))
    } else {
        Ok(None)
    }
}

/// A system function of the nine.
fn system_callee(alloc: Global, id: BlockId) -> Result<Option<Callee>, AllocError>
    ensures { IfOk result (λ c. c ≡ system_callee id) }
{
    match system_formals(alloc, id.number)? {
        None => Ok(None),
        Some(formals) => Ok(Some(Callee {
            id,
            place: None,
            formals,
        })),
    }
}

impl<'a> Context<'a> {
    /// A block of the source at its place. Only its first components are gone through, which have
    /// all parameters among them.
    #[tactic(auto, using(crate::proofs::CalleeLemmas::of_first))]
    fn callee_at(
        &self,
        alloc: Global,
        id: BlockId,
        place: usize,
    ) -> Result<Option<Callee>, AllocError>
        ensures { IfOk result (λ c. c ≡ callee_at self.now id place) }
    {
        match sound_formals(alloc, self.layouts().parameters(place))? {
            None => Ok(None),
            Some(formals) => Ok(Some(Callee {
                id,
                place: Some(place),
                formals,
            })),
        }
    }

    /// A block of the source that breaks no rule itself.
    fn source_callee(&self, alloc: Global, id: BlockId) -> Result<Option<Callee>, AllocError>
        ensures { IfOk result (λ c. c ≡ source_callee self.now id) }
    {
        match self.whole_place(id) {
            None => Ok(None),
            Some(place) => self.callee_at(alloc, id, place),
        }
    }

    /// A block by its kind; the others can't be called.
    fn callee_by(&self, alloc: Global, id: BlockId) -> Result<Option<Callee>, AllocError>
        ensures { IfOk result (λ c. c ≡ callee_by self.now id id.kind) }
    {
        match id.kind {
            BlockKind::Sfc => system_callee(alloc, id),
            BlockKind::Fc | BlockKind::Fb => self.source_callee(alloc, id),
            _ => Ok(None),
        }
    }

    /// The block that a call is checked by, with its parameters: a system function of the nine, or
    /// a function or function block of the source that breaks no rule itself or by a parameter.
    ///
    /// # Errors
    ///
    /// Want of memory.
    #[tactic(auto, unfolding(crate::specs::Parameters::callee_of))]
    pub fn callee(&self, alloc: Global, operand: &Operand) -> Result<Option<Callee>, AllocError>
        ensures { IfOk result (λ c. c ≡ callee_of self.now operand.now) }
    {
        match operand {
            Operand::Called { name, .. } => match named_block(self.symbols(), name) {
                None => Ok(None),
                Some(id) => self.callee_by(alloc, id),
            },
            _ => Ok(None),
        }
    }
}
