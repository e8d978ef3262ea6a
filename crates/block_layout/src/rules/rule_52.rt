ghost use Rattle.std.specs.Prelude.{◌≡◌, ◌^◌, ◌-◌, min, sum_by};
ghost use Rattle.stl_ast.specs.Blocks.{is_parameter};
ghost use Rattle.plc_base.specs.Least.{least};
ghost use Rattle.block_layout.specs.Rule52.{parameters_in_section, has_too_many_parameters, return_value_count, rule_52};

use plc_base::{Refusal, broken_if, least_of};
use stl_ast::{Block, Part, PartKind, Simple};

/// The most parameters of a block.
const MOST_PARAMETERS: u64 = 60;

/// Whether a section declares parameters: VAR_INPUT, VAR_OUTPUT, VAR_IN_OUT.
pub fn is_parameter(kind: PartKind) -> bool
    ensures { result ≡ is_parameter kind }
{
    matches!(kind, PartKind::Input | PartKind::Output | PartKind::InOut)
}

/// The parameters that a section declares.
fn parameters_in_section(part: &Part) -> usize
    ensures { result ≡ parameters_in_section part.now }
{
    if is_parameter(part.kind) {
        part.items
            .as_slice()
            .iter()
            .filter(|d| d.level == 0)
            .count()
    } else {
        0
    }
}

/// The return value of a function is one parameter.
fn return_value_count(of: Option<Simple>) -> u64
    ensures { result ≡ return_value_count of }
{
    match of {
        None => 0,
        Some(_) => 1,
    }
}

/// The parameters of sections, or the greatest number where they are more.
fn parameters_in(parts: &[Part]) -> u64
    ensures { result ≡ min (sum_by parameters_in_section parts.now) (2 ^ 64 - 1) }
{
    let mut count = 0u64;
    for part in parts {
        count = count.saturating_add(parameters_in_section(part) as u64);
    }
    count
}

pub(crate) fn has_too_many_parameters(block: &Block) -> bool
    ensures { result ≡ has_too_many_parameters block.now }
{
    let declared = parameters_in(block.parts.as_slice());
    declared.saturating_add(return_value_count(block.result)) > MOST_PARAMETERS
}

/// The least refusal by rule 52.
#[tactic(auto, unfolding(crate::specs::Rule52::rule_52), using(crate::proofs::HeadLemmas::by_itself))]
pub(crate) fn least_too_many_parameters(blocks: &[Block]) -> Option<Refusal>
    ensures { result ≡ least (rule_52 blocks.now) }
{
    least_of(blocks, |block: &Block| {
        broken_if(has_too_many_parameters(block), block.line, 52)
    })
}
