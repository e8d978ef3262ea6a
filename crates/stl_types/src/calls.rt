ghost use Rattle.std.specs.Prelude.{◌≡◌, ◌++◌, [], ◌∷◌, IfOk};
ghost use Rattle.std.specs.List.{list_all};
ghost use Rattle.std.specs.Str.{bytes_eq};
ghost use Rattle.plc_base.specs.Folding.{upper_case_name};
ghost use Rattle.plc_base.specs.Least.{broken_if, least};
ghost use Rattle.stl_types.specs.Calls.{
  has_formal,
  is_supplied,
  is_supplied_twice,
  lacks_actual,
  names_no_formal,
  supplied_names,
  actuals_supplied_twice,
  actuals_without_formal,
};

use crate::parameters::{Callee, Formal};
use plc_base::{BlockKind, Refusal, broken_if, lesser, try_least_of};
use std::alloc::{AllocError, Global};
use stl_ast::{Actual, Mnemonic, Statement};
use stl_symbols::NameIndex;

pub(crate) fn is_named(upper: &[u8], formal: &Formal) -> bool
    ensures { result ≡ bytes_eq upper.now formal.now.name }
{
    upper == formal.name.as_bytes()
}

/// Whether a parameter has this name, in upper case.
fn has_formal(formals: &[Formal], upper: &[u8]) -> bool
    ensures { result ≡ has_formal formals.now upper.now }
{
    formals.iter().any(|f| is_named(upper, f))
}

/// Whether a call has no parameter of the name that an actual has.
fn names_none(formals: &[Formal], alloc: Global, actual: &Actual) -> Result<bool, AllocError>
    ensures { IfOk result (λ none. none ≡ names_no_formal formals.now actual.now) }
{
    let upper = actual.name.as_bytes().to_ascii_uppercase(alloc)?;
    Ok(!has_formal(formals, upper.as_slice()))
}

fn unnamed_here(
    formals: &[Formal],
    alloc: Global,
    actual: &Actual,
) -> Result<Option<Refusal>, AllocError>
    ensures { IfOk result (λ found. found
        ≡ least (broken_if (names_no_formal formals.now actual.now) actual.now.line 34)) }
{
    let none = names_none(formals, alloc, actual)?;
    Ok(broken_if(none, actual.line, 34))
}

/// The least refusal of a call by rule 34, of its actuals.
pub(crate) fn least_unnamed(
    formals: &[Formal],
    alloc: Global,
    actuals: &[Actual],
) -> Result<Option<Refusal>, AllocError>
    ensures { IfOk result (λ found. found
        ≡ least (actuals_without_formal formals.now actuals.now)) }
{
    try_least_of(actuals, |a: &Actual| unnamed_here(formals, alloc, a))
}

/// Adds the name of an actual behind those before it.
fn add_name(names: &mut NameIndex, alloc: Global, actual: &Actual) -> Result<(), AllocError>
    ensures { IfOk result
        (λ _. names.new ≡ names.old ++ upper_case_name actual.now.name ∷ []) }
{
    let upper = actual.name.as_bytes().to_ascii_uppercase(alloc)?;
    names.add(alloc, upper.as_slice())
}

fn is_supplied_twice(
    formals: &[Formal],
    alloc: Global,
    before: &NameIndex,
    actual: &Actual,
) -> Result<bool, AllocError>
    ensures { IfOk result (λ twice. twice
        ≡ is_supplied_twice formals.now before.now actual.now) }
{
    if names_none(formals, alloc, actual)? {
        return Ok(false);
    }
    let upper = actual.name.as_bytes().to_ascii_uppercase(alloc)?;
    Ok(before.place(upper.as_slice()).is_some())
}

/// The least refusal of a call by rule 35, of its actuals.
pub(crate) fn least_supplied_twice(
    formals: &[Formal],
    alloc: Global,
    actuals: &[Actual],
) -> Result<Option<Refusal>, AllocError>
    ensures { IfOk result (λ found. found
        ≡ least (actuals_supplied_twice formals.now [] actuals.now)) }
{
    let mut before = NameIndex::new(alloc);
    let mut found = None;
    for actual in actuals {
        let twice = is_supplied_twice(formals, alloc, &before, actual)?;
        found = lesser(found, broken_if(twice, actual.line, 35));
        add_name(&mut before, alloc, actual)?;
    }
    Ok(found)
}

fn supplied_names(alloc: Global, actuals: &[Actual]) -> Result<NameIndex, AllocError>
    ensures { IfOk result (λ names. names ≡ supplied_names actuals.now) }
{
    let mut names = NameIndex::new(alloc);
    for actual in actuals {
        add_name(&mut names, alloc, actual)?;
    }
    Ok(names)
}

fn is_supplied(names: &NameIndex, formal: &Formal) -> bool
    ensures { result ≡ is_supplied names.now formal.now }
{
    names.place(formal.name.as_bytes()).is_some()
}

fn are_supplied(names: &NameIndex, formals: &[Formal]) -> bool
    ensures { result ≡ list_all (is_supplied names.now) formals.now }
{
    formals.iter().all(|f| is_supplied(names, f))
}

/// Whether a CALL of a function or system function leaves out a parameter.
pub(crate) fn lacks_actual(
    callee: &Callee,
    alloc: Global,
    statement: &Statement,
) -> Result<bool, AllocError>
    ensures { IfOk result (λ lacks. lacks ≡ lacks_actual callee.now statement.now) }
{
    if !matches!(statement.code, Mnemonic::Call) || matches!(callee.id.kind, BlockKind::Fb) {
        return Ok(false);
    }
    let names = supplied_names(alloc, statement.actuals.as_slice())?;
    Ok(!are_supplied(&names, callee.formals.as_slice()))
}
