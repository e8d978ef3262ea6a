ghost use Rattle.std.specs.Prelude.{◌≡◌, IfOk, List, map};
ghost use Rattle.std.specs.List.{flat_map};
ghost use Rattle.plc_base.specs.declared.refusals.Refusal.{Refusal};
ghost use Rattle.plc_base.specs.Least.{least};
ghost use Rattle.block_layout.specs.Facts.{AreFacts};
ghost use Rattle.block_layout.specs.Rule21.{rule_21};
ghost use Rattle.block_layout.specs.Rule56.{rule_56};
ghost use Rattle.block_layout.specs.Table.{refusals_of_blocks};

use crate::blocks::BlockLayout;
use crate::building::Facts;
use crate::rules::rule_22::least_block_twice;
use crate::rules::rule_23::least_unknown;
use crate::rules::rule_41::least_unfit;
use crate::rules::rule_42::least_outside;
use crate::rules::rule_43::least_in_itself;
use crate::rules::rule_44::least_wrong_number;
use crate::rules::rule_50::least_too_much_local;
use crate::rules::rule_51::least_too_long;
use crate::rules::rule_52::least_too_many_parameters;
use crate::rules::rule_53::least_data_block_too_many;
use crate::rules::rule_54::least_exceeding;
use crate::rules::rule_55::least_too_many_statements;
use crate::types::Types;
use plc_base::{Refusal, least_of};
use std::alloc::{AllocError, Global};
use stl_ast::Block;

/// The least of what some rules find.
fn least_among(found: &[Option<Refusal>]) -> Option<Refusal>
    ensures { (rules : List (List Refusal)) → found.now ≡ map least rules
        → result ≡ least (flat_map (λ r. r) rules) }
{
    least_of(found, |one: &Option<Refusal>| *one)
}

/// The least refusal by the rules that are checked with the layout, where those by rules 21 and 56
/// were found with the declarations.
pub(crate) fn least_refusal(
    alloc: Global,
    types: &Types,
    layouts: &[BlockLayout],
    blocks: &[Block],
    facts: &Facts,
    twice: Option<Refusal>,
    deep: Option<Refusal>,
) -> Result<Option<Refusal>, AllocError>
    requires facts { AreFacts types.now blocks.now facts.now }
    requires twice { twice ≡ least (rule_21 blocks.now) }
    requires deep { deep ≡ least (rule_56 types.now blocks.now) }
    ensures { IfOk result
        (λ r. r ≡ least (refusals_of_blocks types.now layouts.now blocks.now)) }
{
    let unfit = least_unfit(alloc, types, layouts, blocks)?;
    let outside = least_outside(alloc, types, layouts, blocks)?;
    Ok(least_among(&[
        twice,
        least_block_twice(types, blocks),
        least_unknown(types, blocks),
        unfit,
        outside,
        least_in_itself(&facts.in_itself, blocks),
        least_wrong_number(types.symbols, blocks),
        least_too_much_local(&facts.local_lens, blocks),
        least_too_long(&facts.lengths, blocks),
        least_too_many_parameters(blocks),
        least_data_block_too_many(blocks),
        least_exceeding(&facts.lengths, blocks),
        least_too_many_statements(blocks),
        deep,
    ]))
}
