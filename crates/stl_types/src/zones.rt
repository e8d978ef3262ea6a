ghost use Rattle.std.specs.Prelude.{◌≡◌, [], IfOk};
ghost use Rattle.plc_base.specs.Least.{broken_if, least};
ghost use Rattle.stl_types.specs.Zones.{
  ends_no_zone,
  ends_zone,
  is_ninth_zone,
  opens_zone,
  rule_47,
  rule_48,
  rule_49,
  with_zones,
  zones_behind,
  zones_behind_all,
  zones_left_open,
};

use plc_base::{Refusal, broken_if, least_of, lesser, try_least_of};
use std::alloc::{AllocError, Global};
use stl_ast::{Block, Mnemonic, Statement};

#[tactic(auto, unfolding(crate::specs::Zones::opens_zone))]
fn opens_zone(code: Mnemonic) -> bool
    ensures { result ≡ opens_zone code }
{
    matches!(code, Mnemonic::McrOpen)
}

#[tactic(auto, unfolding(crate::specs::Zones::ends_zone))]
fn ends_zone(code: Mnemonic) -> bool
    ensures { result ≡ ends_zone code }
{
    matches!(code, Mnemonic::McrClose)
}

/// Opens or ends a zone by a statement. Zones are the lines of their `MCR(`, the outermost first.
pub(crate) fn pass_zones(zones: &mut Vec<u32>, statement: &Statement) -> Result<(), AllocError>
    ensures { IfOk result (λ _. zones.new.items ≡ zones_behind zones.old.items statement.now) }
{
    if opens_zone(statement.code) {
        zones.push(statement.line)?;
        return Ok(());
    }
    if ends_zone(statement.code) {
        let _ = zones.pop();
    }
    Ok(())
}

fn ends_none(zones: &[u32], statement: &Statement) -> bool
    ensures { result ≡ ends_no_zone zones.now statement.now }
{
    ends_zone(statement.code) && zones.is_empty()
}

fn is_ninth(zones: &[u32], statement: &Statement) -> bool
    ensures { result ≡ is_ninth_zone zones.now statement.now }
{
    opens_zone(statement.code) && zones.len() >= 8
}

fn zones_ended_without(alloc: Global, body: &[Statement]) -> Result<Option<Refusal>, AllocError>
    ensures { IfOk result (λ found. found ≡ least
        (with_zones (λ zones s. broken_if (ends_no_zone zones s) s.line 47) [] body.now)) }
{
    let mut zones = Vec::new(alloc);
    let mut found = None;
    for statement in body {
        let wrong = ends_none(zones.as_slice(), statement);
        found = lesser(found, broken_if(wrong, statement.line, 47));
        pass_zones(&mut zones, statement)?;
    }
    Ok(found)
}

/// The least refusal by rule 47.
#[tactic(auto, unfolding(crate::specs::Zones::rule_47))]
pub(crate) fn least_ended_without(
    alloc: Global,
    blocks: &[Block],
) -> Result<Option<Refusal>, AllocError>
    ensures { IfOk result (λ found. found ≡ least (rule_47 blocks.now)) }
{
    try_least_of(
        blocks,
        |b: &Block| zones_ended_without(alloc, b.body.as_slice()),
    )
}

fn ninth(alloc: Global, body: &[Statement]) -> Result<Option<Refusal>, AllocError>
    ensures { IfOk result (λ found. found ≡ least
        (with_zones (λ zones s. broken_if (is_ninth_zone zones s) s.line 49) [] body.now)) }
{
    let mut zones = Vec::new(alloc);
    let mut found = None;
    for statement in body {
        let wrong = is_ninth(zones.as_slice(), statement);
        found = lesser(found, broken_if(wrong, statement.line, 49));
        pass_zones(&mut zones, statement)?;
    }
    Ok(found)
}

/// The least refusal by rule 49.
#[tactic(auto, unfolding(crate::specs::Zones::rule_49))]
pub(crate) fn least_ninth(alloc: Global, blocks: &[Block]) -> Result<Option<Refusal>, AllocError>
    ensures { IfOk result (λ found. found ≡ least (rule_49 blocks.now)) }
{
    try_least_of(blocks, |b: &Block| ninth(alloc, b.body.as_slice()))
}

fn zones_at_end(alloc: Global, body: &[Statement]) -> Result<Vec<u32>, AllocError>
    ensures { IfOk result (λ zones. zones.items ≡ zones_behind_all [] body.now) }
{
    let mut zones = Vec::new(alloc);
    for statement in body {
        pass_zones(&mut zones, statement)?;
    }
    Ok(zones)
}

fn zones_left_open(alloc: Global, body: &[Statement]) -> Result<Option<Refusal>, AllocError>
    ensures { IfOk result (λ found. found ≡ least (zones_left_open body.now)) }
{
    let zones = zones_at_end(alloc, body)?;
    Ok(least_of(&zones, |line: &u32| broken_if(true, *line, 48)))
}

/// The least refusal by rule 48.
#[tactic(auto, unfolding(crate::specs::Zones::rule_48))]
pub(crate) fn least_zone_left_open(
    alloc: Global,
    blocks: &[Block],
) -> Result<Option<Refusal>, AllocError>
    ensures { IfOk result (λ found. found ≡ least (rule_48 blocks.now)) }
{
    try_least_of(
        blocks,
        |b: &Block| zones_left_open(alloc, b.body.as_slice()),
    )
}
