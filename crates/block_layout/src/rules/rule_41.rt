ghost use Rattle.std.specs.Prelude.{◌≡◌, IfOk};
ghost use Rattle.plc_base.specs.Least.{least};
ghost use Rattle.block_layout.specs.Rule41.{rule_41, fits_kind, misfits_component};

use crate::alone::{DeclarationFault, least_alone};
use crate::blocks::BlockLayout;
use crate::constants::fits;
use crate::path_ends::PathEnd;
use crate::routes::elementary_at;
use crate::settings::{SettingFault, least_of_settings};
use crate::types::Types;
use plc_base::{Refusal, lesser};
use std::alloc::{AllocError, Global};
use stl_ast::{Block, Literal, Simple};

/// The least refusal by rule 41.
pub(crate) fn least_unfit(
    alloc: Global,
    types: &Types,
    layouts: &[BlockLayout],
    blocks: &[Block],
) -> Result<Option<Refusal>, AllocError>
    ensures { IfOk result (λ r. r ≡ least (rule_41 layouts.now blocks.now)) }
{
    let declared = least_alone(types, DeclarationFault::UnfitValue, blocks);
    let set = least_of_settings(alloc, layouts, SettingFault::UnfitValue, blocks)?;
    Ok(lesser(declared, set))
}

fn fits_kind(value: &Literal, kind: Option<Simple>) -> bool
    ensures { result ≡ fits_kind value.now kind }
{
    match kind {
        None => false,
        Some(kind) => fits(value, kind),
    }
}

/// Whether the value doesn't fit what a path leads to.
pub(crate) fn misfits(layouts: &[BlockLayout], value: &Literal, target: PathEnd) -> bool
    ensures { result ≡ misfits_component layouts.now value.now target }
{
    match target {
        PathEnd::Reaches { component } => !fits_kind(value, elementary_at(layouts, component)),
        _ => false,
    }
}
