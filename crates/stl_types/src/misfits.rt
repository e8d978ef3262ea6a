ghost use Rattle.std.specs.Prelude.{◌≡◌, IfOk, find};
ghost use Rattle.std.specs.List.{flat_map};
ghost use Rattle.std.specs.Option.{option_copied};
ghost use Rattle.std.specs.Str.{bytes_eq};
ghost use Rattle.plc_base.specs.Least.{broken_if, least};
ghost use Rattle.stl_types.specs.Actuals.{fits_operand, fits_resolution, formal_named};
ghost use Rattle.stl_types.specs.Calls.{misfits_formal, is_resolved_date};
ghost use Rattle.stl_types.specs.Resolution.{resolution_of};

use crate::actuals::{fits_resolved_operand, is_input_section};
use crate::calls::is_named;
use crate::contexts::Context;
use crate::kinds::is_date;
use crate::parameters::Formal;
use crate::resolved_operands::Resolution;
use block_layout::fits;
use plc_base::{Refusal, broken_if, try_least_of};
use std::alloc::{AllocError, Global};
use stl_ast::{Actual, Operand};

/// The parameter of this name, in upper case.
fn formal_named<'f>(formals: &'f [Formal], upper: &[u8]) -> Option<&'f Formal>
    ensures { option_copied result ≡ find (λ f. bytes_eq upper.now f.name) formals.now }
{
    formals.iter().find(|f| is_named(upper, f))
}

/// An operand that isn't there or isn't checked breaks no further rule.
fn fits_resolution(formal: &Formal, resolution: Resolution) -> bool
    ensures { result ≡ fits_resolution formal.now resolution }
{
    match resolution {
        Resolution::Resolved { view } => fits_resolved_operand(formal, view),
        Resolution::Unknown | Resolution::Unjudged => true,
    }
}

/// Whether the value of an actual fits a parameter.
#[tactic(auto, unfolding(crate::specs::Actuals::fits_operand))]
fn fits_operand(
    context: &Context,
    alloc: Global,
    formal: &Formal,
    operand: &Operand,
) -> Result<bool, AllocError>
    ensures { IfOk result (λ fit. fit ≡ fits_operand context.now formal.now operand.now) }
{
    match operand {
        Operand::Constant { value } => {
            Ok(is_input_section(formal.section) && fits(value, formal.kind))
        }
        _ => Ok(fits_resolution(formal, context.resolution(alloc, operand)?)),
    }
}

fn misfits(
    context: &Context,
    alloc: Global,
    formals: &[Formal],
    actual: &Actual,
) -> Result<bool, AllocError>
    ensures { IfOk result (λ wrong. wrong
        ≡ misfits_formal context.now actual.now (formal_named formals.now actual.now.name)) }
{
    let upper = actual.name.as_bytes().to_ascii_uppercase(alloc)?;
    match formal_named(formals, upper.as_slice()) {
        None => Ok(false),
        Some(formal) => Ok(!fits_operand(context, alloc, formal, &actual.value)?),
    }
}

fn misfit_here(
    context: &Context,
    alloc: Global,
    formals: &[Formal],
    actual: &Actual,
) -> Result<Option<Refusal>, AllocError>
    ensures { IfOk result (λ found. found
        ≡ least (broken_if
        (misfits_formal context.now actual.now (formal_named formals.now actual.now.name))
        actual.now.line 37)) }
{
    let wrong = misfits(context, alloc, formals, actual)?;
    Ok(broken_if(wrong, actual.line, 37))
}

/// The least refusal of a call by rule 37, of its actuals.
pub(crate) fn least_misfit(
    context: &Context,
    alloc: Global,
    formals: &[Formal],
    actuals: &[Actual],
) -> Result<Option<Refusal>, AllocError>
    ensures { IfOk result (λ found. found ≡ least (flat_map
        (λ a. broken_if (misfits_formal context.now a (formal_named formals.now a.name)) a.line 37)
        actuals.now)) }
{
    try_least_of(
        actuals,
        |a: &Actual| misfit_here(context, alloc, formals, a),
    )
}

fn is_resolved_date(resolution: Resolution) -> bool
    ensures { result ≡ is_resolved_date resolution }
{
    match resolution {
        Resolution::Resolved { view } => is_date(view),
        _ => false,
    }
}

fn date_here(
    context: &Context,
    alloc: Global,
    actual: &Actual,
) -> Result<Option<Refusal>, AllocError>
    ensures { IfOk result (λ found. found
        ≡ least
        (broken_if (is_resolved_date (resolution_of context.now actual.now.value))
        actual.now.line 24)) }
{
    let date = is_resolved_date(context.resolution(alloc, &actual.value)?);
    Ok(broken_if(date, actual.line, 24))
}

/// The least refusal of a statement by rule 24, of its actuals.
pub(crate) fn least_date(
    context: &Context,
    alloc: Global,
    actuals: &[Actual],
) -> Result<Option<Refusal>, AllocError>
    ensures { IfOk result (λ found. found ≡ least (flat_map
        (λ a. broken_if (is_resolved_date (resolution_of context.now a.value)) a.line 24)
        actuals.now)) }
{
    try_least_of(actuals, |a: &Actual| date_here(context, alloc, a))
}
