ghost use Rattle.std.specs.Prelude.{◌≡◌, ℕ, List, Option, Ok, IfOk};
ghost use Rattle.std.specs.List.{flat_map};
ghost use Rattle.std.specs.Fn.{FnReturnsAt};
ghost use Rattle.plc_base.specs.Least.{least, lesser, broken_if};
ghost use Rattle.plc_base.specs.declared.refusals.Refusal.{Refusal};

use crate::refusals::Refusal;
use std::alloc::AllocError;

/// The lesser of two refusals, by line, then rule.
#[tactic(auto, unfolding(crate::specs::Least::lesser))]
pub fn lesser(a: Option<Refusal>, b: Option<Refusal>) -> Option<Refusal>
    ensures { result ≡ lesser a b }
{
    match (a, b) {
        (None, other) => other,
        (Some(first), None) => Some(first),
        (Some(first), Some(second)) => {
            if second.line < first.line || second.line == first.line && second.rule < first.rule {
                Some(second)
            } else {
                Some(first)
            }
        }
    }
}

/// The refusal of a line by a rule, where the line breaks it.
#[tactic(auto, unfolding(crate::specs::Least::lesser))]
pub fn broken_if(breaks: bool, line: u32, rule: u16) -> Option<Refusal>
    ensures { result ≡ least (broken_if breaks line rule) }
{
    if breaks {
        Some(Refusal { line, rule })
    } else {
        None
    }
}

/// The least refusal of all items, by the least that `rules` finds of each.
pub fn least_of<T, F: Fn(&T) -> Option<Refusal>>(items: &[T], rules: F) -> Option<Refusal>
    requires { F.IsAlwaysCallable rules }
    ensures { (broken : T → List Refusal)
        → ((x : T) (r : Option Refusal) → FnReturnsAt F.Fn rules x r → r ≡ least (broken x))
        → result ≡ least (flat_map broken items.now) }
{
    let mut found = None;
    for item in items {
        found = lesser(found, rules(item));
    }
    found
}

/// The least refusal of all items, by the least that `rules` finds of each, where that takes
/// memory.
///
/// # Errors
///
/// The first error of `rules`.
pub fn try_least_of<T, F: Fn(&T) -> Result<Option<Refusal>, AllocError>>(
    items: &[T],
    rules: F,
) -> Result<Option<Refusal>, AllocError>
    requires { F.IsAlwaysCallable rules }
    ensures { IfOk result (λ found. (broken : T → List Refusal)
        → ((x : T) (r : Option Refusal) → FnReturnsAt F.Fn rules x (Ok r)
        → r ≡ least (broken x))
        → found ≡ least (flat_map broken items.now)) }
{
    let mut found = None;
    for item in items {
        let one = rules(item)?;
        found = lesser(found, one);
    }
    Ok(found)
}
