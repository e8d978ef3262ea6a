ghost use Rattle.std.specs.Prelude.{◌≡◌, IfOk, [], ◌∷◌, is_some};
ghost use Rattle.std.specs.Option.{option_map};
ghost use Rattle.stl_types.specs.Parameters.{
  dtime_formal,
  formal,
  is_one_of,
  mode_formal,
  ob_nr_formal,
  return_value_formal,
  sign_formal,
  system_formals,
};

use crate::parameters::Formal;
use std::alloc::{AllocError, Global};
use stl_ast::{Name, PartKind, Simple};

fn formal(alloc: Global, name: &[u8], section: PartKind, kind: Simple) -> Result<Formal, AllocError>
    ensures { IfOk result (λ f. f ≡ formal name.now section kind) }
{
    Ok(Formal {
        name: Name::new(alloc, name)?,
        section,
        kind,
    })
}

fn ob_nr(alloc: Global) -> Result<Formal, AllocError>
    ensures { IfOk result (λ f. f ≡ ob_nr_formal) }
{
    formal(alloc, b"OB_NR", PartKind::Input, Simple::Int)
}

fn mode(alloc: Global) -> Result<Formal, AllocError>
    ensures { IfOk result (λ f. f ≡ mode_formal) }
{
    formal(alloc, b"MODE", PartKind::Input, Simple::Byte)
}

fn dtime(alloc: Global) -> Result<Formal, AllocError>
    ensures { IfOk result (λ f. f ≡ dtime_formal) }
{
    formal(alloc, b"DTIME", PartKind::Input, Simple::Time)
}

fn sign(alloc: Global) -> Result<Formal, AllocError>
    ensures { IfOk result (λ f. f ≡ sign_formal) }
{
    formal(alloc, b"SIGN", PartKind::Input, Simple::Word)
}

fn returns(alloc: Global, kind: Simple) -> Result<Formal, AllocError>
    ensures { IfOk result (λ f. f ≡ return_value_formal kind) }
{
    formal(alloc, b"RET_VAL", PartKind::Output, kind)
}

/// The parameters of the start of a delay.
fn of_start(alloc: Global) -> Result<Vec<Formal>, AllocError>
    ensures { IfOk result (λ v. v.items
        ≡ ob_nr_formal ∷ dtime_formal ∷ sign_formal ∷ return_value_formal Simple.Int
        ∷ []) }
{
    let mut formals = Vec::with_capacity(alloc, 4)?;
    formals.push(ob_nr(alloc)?)?;
    formals.push(dtime(alloc)?)?;
    formals.push(sign(alloc)?)?;
    formals.push(returns(alloc, Simple::Int)?)?;
    Ok(formals)
}

/// The parameters of the cancelling of a delay.
fn of_cancel(alloc: Global) -> Result<Vec<Formal>, AllocError>
    ensures { IfOk result
        (λ v. v.items ≡ ob_nr_formal ∷ return_value_formal Simple.Int ∷ []) }
{
    let mut formals = Vec::with_capacity(alloc, 2)?;
    formals.push(ob_nr(alloc)?)?;
    formals.push(returns(alloc, Simple::Int)?)?;
    Ok(formals)
}

/// The parameters of the switching off and on of interrupts.
fn of_switch(alloc: Global) -> Result<Vec<Formal>, AllocError>
    ensures { IfOk result (λ v. v.items
        ≡ mode_formal ∷ ob_nr_formal ∷ return_value_formal Simple.Int ∷ []) }
{
    let mut formals = Vec::with_capacity(alloc, 3)?;
    formals.push(mode(alloc)?)?;
    formals.push(ob_nr(alloc)?)?;
    formals.push(returns(alloc, Simple::Int)?)?;
    Ok(formals)
}

/// A return value alone.
fn return_value_alone(alloc: Global, kind: Simple) -> Result<Vec<Formal>, AllocError>
    ensures { IfOk result (λ v. v.items ≡ return_value_formal kind ∷ []) }
{
    let mut formals = Vec::with_capacity(alloc, 1)?;
    formals.push(returns(alloc, kind)?)?;
    Ok(formals)
}

/// Whether a system function is one of the nine.
#[tactic(auto, unfolding(crate::specs::Parameters::system_formals))]
pub(crate) fn is_known(number: u16) -> bool
    ensures { result ≡ is_some (system_formals number) }
{
    matches!(number, 32 | 33 | 39..=43 | 46 | 64)
}

/// The parameters of one of the nine system functions, in their order.
#[tactic(auto, unfolding(crate::specs::Parameters::system_formals))]
pub fn system_formals(alloc: Global, number: u16) -> Result<Option<Vec<Formal>>, AllocError>
    ensures { IfOk result (λ found. option_map (λ v. v.items) found ≡ system_formals number) }
{
    match number {
        32 => Ok(Some(of_start(alloc)?)),
        33 => Ok(Some(of_cancel(alloc)?)),
        39 | 40 => Ok(Some(of_switch(alloc)?)),
        41 | 42 => Ok(Some(return_value_alone(alloc, Simple::Int)?)),
        43 | 46 => Ok(Some(Vec::new(alloc))),
        64 => Ok(Some(return_value_alone(alloc, Simple::Time)?)),
        _ => Ok(None),
    }
}
