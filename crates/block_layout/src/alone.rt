ghost use Rattle.std.specs.Prelude.{◌≡◌};
ghost use Rattle.std.specs.List.{flat_map};
ghost use Rattle.plc_base.specs.Least.{least};
ghost use Rattle.block_layout.specs.Alone.{breaks_by, refusals_by, rule_by};
ghost use Rattle.block_layout.specs.Around.{refusals_in_block, refusals_in_blocks};

use crate::declarations::{has_upside_down, init_fits, is_unknown_type};
use crate::types::Types;
use plc_base::{Refusal, broken_if, least_of, lesser};
use stl_ast::{Block, Declaration, Part};

/// What a declaration can break by itself: its data type is unknown, its initial value doesn't fit,
/// or a bound of an array is upside down.
#[derive(Clone, Copy, Debug, PartialEq, Eq)]
pub(crate) enum DeclarationFault {
    UnknownType,
    UnfitValue,
    UpsideDown,
}

fn breaks_by(types: &Types, which: DeclarationFault, declaration: &Declaration) -> bool
    ensures { result ≡ breaks_by types.now which declaration.now }
{
    match which {
        DeclarationFault::UnknownType => is_unknown_type(types, &declaration.of.of),
        DeclarationFault::UnfitValue => !init_fits(declaration),
        DeclarationFault::UpsideDown => has_upside_down(declaration),
    }
}

fn rule_by(which: DeclarationFault) -> u16
    ensures { result ≡ rule_by which }
{
    match which {
        DeclarationFault::UnknownType => 23,
        DeclarationFault::UnfitValue => 41,
        DeclarationFault::UpsideDown => 42,
    }
}

fn refusals_by(types: &Types, which: DeclarationFault, declaration: &Declaration) -> Option<Refusal>
    ensures { result ≡ least (refusals_by types.now which declaration.now) }
{
    broken_if(
        breaks_by(types, which, declaration),
        declaration.line,
        rule_by(which),
    )
}

fn least_in_list(types: &Types, which: DeclarationFault, list: &[Declaration]) -> Option<Refusal>
    ensures { result ≡ least (flat_map (refusals_by types.now which) list.now) }
{
    least_of(list, |declaration: &Declaration| {
        refusals_by(types, which, declaration)
    })
}

fn least_in_parts(types: &Types, which: DeclarationFault, parts: &[Part]) -> Option<Refusal>
    ensures { result
        ≡ least (flat_map (λ p. flat_map (refusals_by types.now which) p.items) parts.now) }
{
    least_of(parts, |part: &Part| {
        least_in_list(types, which, part.items.as_slice())
    })
}

#[tactic(auto, using(crate::proofs::AloneLemmas::least_of_block))]
fn least_in_block(types: &Types, which: DeclarationFault, block: &Block) -> Option<Refusal>
    ensures { result
        ≡ least (refusals_in_block (λ o before d. refusals_by types.now which d) block.now) }
{
    lesser(
        least_in_parts(types, which, block.parts.as_slice()),
        least_in_list(types, which, block.components.as_slice()),
    )
}

/// The least refusal of declarations by what they break by themselves.
pub(crate) fn least_alone(
    types: &Types,
    which: DeclarationFault,
    blocks: &[Block],
) -> Option<Refusal>
    ensures { result
        ≡ least (refusals_in_blocks (λ o before d. refusals_by types.now which d) blocks.now) }
{
    least_of(blocks, |block: &Block| least_in_block(types, which, block))
}
