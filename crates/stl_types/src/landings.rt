ghost use Rattle.std.specs.Prelude.{◌≡◌, ◌++◌, IfOk, take};
ghost use Rattle.plc_base.specs.Least.{least};
ghost use Rattle.stl_types.specs.Labels.{labels_of};
ghost use Rattle.stl_types.specs.Landings.{
  are_unequal,
  crosses_nesting,
  crossing_jumps,
  landings_differ,
  functions_of,
  landing_at,
  landing_here,
  landing_of,
  landings_at_labels,
  lands_elsewhere,
  nesting_behind,
  empty_nesting,
  rule_33,
};

use crate::brackets::{SourceBracket, pass};
use crate::labels::add_label;
use crate::zones::pass_zones;
use plc_base::{Refusal, broken_if, lesser, try_least_of};
use std::alloc::{AllocError, Global};
use std::marker::Model;
use stl_ast::{Block, Name, Operand, Statement};
use stl_symbols::NameIndex;

/// Of more open brackets than seven so many are kept: the eighth has broken a rule.
const MOST_KEPT: usize = 8;

/// The brackets that are open, and the zones by the lines of their `MCR(`.
#[derive(Drop)]
struct SourceNesting {
    brackets: Vec<SourceBracket>,
    zones: Vec<u32>,
}

impl Model for SourceNesting {
    ghost use Rattle.stl_types.specs.Landings.{SourceNesting as NestingData};

    ghost Value = { NestingData };

    ghost view = { λ n. record { brackets = n.brackets.items; zones = n.zones.items } };
}

impl SourceNesting {
    /// What is open before the first statement of a body.
    fn new(alloc: Global) -> SourceNesting
        ensures { result ≡ empty_nesting }
    {
        SourceNesting {
            brackets: Vec::new(alloc),
            zones: Vec::new(alloc),
        }
    }

    /// Opens or closes a bracket or a zone by a statement.
    fn pass(&mut self, statement: &Statement) -> Result<(), AllocError>
        ensures { IfOk result (λ _. self.new ≡ nesting_behind self.old statement.now) }
    {
        pass(&mut self.brackets, statement)?;
        pass_zones(&mut self.zones, statement)
    }
}

/// What a jump and its label have alike: the function codes of the open brackets, the outermost
/// first, and how many zones are open.
#[derive(Drop)]
struct Landing {
    functions: Vec<u8>,
    zones: usize,
}

impl Model for Landing {
    ghost use Rattle.stl_types.specs.Landings.{Landing as LandingData};

    ghost Value = { LandingData };

    ghost view = { λ l. record { functions = l.functions.items; zones = l.zones } };
}

/// The labels of a body, and what is open before the statement of each.
#[derive(Drop)]
struct Targets {
    labels: NameIndex,
    landings: Vec<Landing>,
}

fn outermost_brackets(brackets: &[SourceBracket]) -> &[SourceBracket]
    ensures { result.now ≡ take 8 brackets.now }
{
    if brackets.len() > MOST_KEPT {
        &brackets[..MOST_KEPT]
    } else {
        brackets
    }
}

fn functions_of(alloc: Global, brackets: &[SourceBracket]) -> Result<Vec<u8>, AllocError>
    ensures { IfOk result (λ functions. functions.items ≡ functions_of brackets.now) }
{
    let mut functions = Vec::new(alloc);
    for bracket in outermost_brackets(brackets) {
        functions.push(bracket.function)?;
    }
    Ok(functions)
}

fn landing_of(alloc: Global, nesting: &SourceNesting) -> Result<Landing, AllocError>
    ensures { IfOk result (λ landing. landing ≡ landing_of nesting.now) }
{
    Ok(Landing {
        functions: functions_of(alloc, nesting.brackets.as_slice())?,
        zones: nesting.zones.len(),
    })
}

fn add_landing(
    landings: &mut Vec<Landing>,
    alloc: Global,
    nesting: &SourceNesting,
    label: &Option<Name>,
) -> Result<(), AllocError>
    ensures { IfOk result (λ _. landings.new.items
        ≡ landings.old.items ++ landing_here nesting.now label.now) }
{
    if label.is_some() {
        landings.push(landing_of(alloc, nesting)?)?;
    }
    Ok(())
}

fn targets_of(alloc: Global, body: &[Statement]) -> Result<Targets, AllocError>
    ensures labels { IfOk result (λ t. t.labels ≡ labels_of body.now) }
    ensures landings { IfOk result (λ t. t.landings.items
        ≡ landings_at_labels empty_nesting body.now) }
{
    let mut labels = NameIndex::new(alloc);
    let mut landings = Vec::new(alloc);
    let mut nesting = SourceNesting::new(alloc);
    for statement in body {
        add_label(&mut labels, alloc, &statement.label)?;
        add_landing(&mut landings, alloc, &nesting, &statement.label)?;
        nesting.pass(statement)?;
    }
    Ok(Targets { labels, landings })
}

fn are_unequal(here: &[u8], there: &[u8]) -> bool
    ensures { result ≡ are_unequal here.now there.now }
{
    let too_many = here.len() == MOST_KEPT && there.len() == MOST_KEPT;
    !too_many && here != there
}

fn differ(here: &Landing, there: &Landing) -> bool
    ensures { result ≡ landings_differ here.now there.now }
{
    are_unequal(here.functions.as_slice(), there.functions.as_slice()) || here.zones != there.zones
}

/// Whether other brackets or zones are open at this label.
fn lands_elsewhere(
    targets: &Targets,
    alloc: Global,
    nesting: &SourceNesting,
    name: &Name,
) -> Result<bool, AllocError>
    ensures { IfOk result (λ wrong. wrong ≡ lands_elsewhere (landing_of nesting.now)
        (landing_at targets.now.labels targets.now.landings.items name.now)) }
{
    let Some(place) = targets.labels.place(name.as_bytes()) else {
        return Ok(false);
    };
    let Some(there) = targets.landings.get(place) else {
        return Ok(false);
    };
    let here = landing_of(alloc, nesting)?;
    Ok(differ(&here, there))
}

fn crosses(
    targets: &Targets,
    alloc: Global,
    nesting: &SourceNesting,
    operand: &Operand,
) -> Result<bool, AllocError>
    ensures { IfOk result (λ wrong. wrong
        ≡ crosses_nesting targets.now.labels targets.now.landings.items
        nesting.now operand.now) }
{
    match operand {
        Operand::Label { name } => lands_elsewhere(targets, alloc, nesting, name),
        _ => Ok(false),
    }
}

fn crossing_jumps(
    targets: &Targets,
    alloc: Global,
    body: &[Statement],
) -> Result<Option<Refusal>, AllocError>
    ensures { IfOk result (λ found. found ≡ least (crossing_jumps targets.now.labels
        targets.now.landings.items body.now)) }
{
    let mut nesting = SourceNesting::new(alloc);
    let mut found = None;
    for statement in body {
        let wrong = crosses(targets, alloc, &nesting, &statement.operand)?;
        found = lesser(found, broken_if(wrong, statement.line, 33));
        nesting.pass(statement)?;
    }
    Ok(found)
}

fn crossing_in(alloc: Global, body: &[Statement]) -> Result<Option<Refusal>, AllocError>
    ensures { IfOk result (λ found. found ≡ least (crossing_jumps (labels_of body.now)
        (landings_at_labels empty_nesting body.now) body.now)) }
{
    let targets = targets_of(alloc, body)?;
    crossing_jumps(&targets, alloc, body)
}

/// The least refusal by rule 33.
#[tactic(auto, unfolding(crate::specs::Landings::rule_33))]
pub(crate) fn least_crossing_jump(
    alloc: Global,
    blocks: &[Block],
) -> Result<Option<Refusal>, AllocError>
    ensures { IfOk result (λ found. found ≡ least (rule_33 blocks.now)) }
{
    try_least_of(blocks, |b: &Block| crossing_in(alloc, b.body.as_slice()))
}
