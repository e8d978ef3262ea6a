ghost use Rattle.std.specs.Prelude.{◌≡◌, length};
ghost use Rattle.plc_base.specs.Least.{least};
ghost use Rattle.block_layout.specs.DeclarationFacts.{refusals_by_facts, twice_by};

use crate::declaration_facts::DeclarationFacts;
use plc_base::{Refusal, broken_if, lesser};
use stl_ast::Declaration;

/// The least refusal of declarations by names that stand twice.
#[tactic(auto, using(crate::proofs::CellLemmas::refusals_by_facts_next, crate::proofs::CellLemmas::refusals_by_facts_done))]
pub(crate) fn least_twice(
    declarations: &[Declaration],
    all_facts: &[DeclarationFacts],
) -> Option<Refusal>
    requires { length all_facts.now ≡ length declarations.now }
    ensures { result ≡ least (refusals_by_facts twice_by all_facts.now declarations.now) }
{
    let mut found = None;
    for i in 0..declarations.len() {
        let one = broken_if(all_facts[i].twice, declarations[i].line, 21);
        found = lesser(found, one);
    }
    found
}
