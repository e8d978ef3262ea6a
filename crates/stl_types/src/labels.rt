ghost use Rattle.std.specs.Prelude.{◌≡◌, ◌++◌, [], IfOk};
ghost use Rattle.plc_base.specs.Least.{least};
ghost use Rattle.stl_types.specs.Labels.{
  is_repeated_label,
  is_unknown_label,
  label_of,
  labels_of,
  labels_twice,
  rule_26,
  rule_27,
  unknown_labels,
};

use plc_base::{Refusal, broken_if, least_of, lesser, try_least_of};
use std::alloc::{AllocError, Global};
use stl_ast::{Block, Name, Operand, Statement};
use stl_symbols::NameIndex;

/// Adds the label of a statement behind those before it.
pub(crate) fn add_label(
    labels: &mut NameIndex,
    alloc: Global,
    label: &Option<Name>,
) -> Result<(), AllocError>
    ensures { IfOk result (λ _. labels.new ≡ labels.old ++ label_of label.now) }
{
    match label {
        None => Ok(()),
        Some(name) => labels.add(alloc, name.as_bytes()),
    }
}

/// The labels of a body.
fn labels_of(alloc: Global, body: &[Statement]) -> Result<NameIndex, AllocError>
    ensures { IfOk result (λ labels. labels ≡ labels_of body.now) }
{
    let mut labels = NameIndex::new(alloc);
    for statement in body {
        add_label(&mut labels, alloc, &statement.label)?;
    }
    Ok(labels)
}

fn is_unknown_label(labels: &NameIndex, operand: &Operand) -> bool
    ensures { result ≡ is_unknown_label labels.now operand.now }
{
    match operand {
        Operand::Label { name } => labels.place(name.as_bytes()).is_none(),
        _ => false,
    }
}

fn unknown_labels(alloc: Global, body: &[Statement]) -> Result<Option<Refusal>, AllocError>
    ensures { IfOk result (λ found. found
        ≡ least (unknown_labels (labels_of body.now) body.now)) }
{
    let labels = labels_of(alloc, body)?;
    Ok(least_of(body, |s: &Statement| {
        broken_if(is_unknown_label(&labels, &s.operand), s.line, 26)
    }))
}

/// The least refusal by rule 26.
#[tactic(auto, unfolding(crate::specs::Labels::rule_26))]
pub(crate) fn least_unknown_label(
    alloc: Global,
    blocks: &[Block],
) -> Result<Option<Refusal>, AllocError>
    ensures { IfOk result (λ found. found ≡ least (rule_26 blocks.now)) }
{
    try_least_of(blocks, |b: &Block| unknown_labels(alloc, b.body.as_slice()))
}

fn is_repeated_label(before: &NameIndex, label: &Option<Name>) -> bool
    ensures { result ≡ is_repeated_label before.now label.now }
{
    match label {
        None => false,
        Some(name) => before.place(name.as_bytes()).is_some(),
    }
}

fn labels_twice(alloc: Global, body: &[Statement]) -> Result<Option<Refusal>, AllocError>
    ensures { IfOk result (λ found. found ≡ least (labels_twice [] body.now)) }
{
    let mut before = NameIndex::new(alloc);
    let mut found = None;
    for statement in body {
        let twice = is_repeated_label(&before, &statement.label);
        found = lesser(found, broken_if(twice, statement.line, 27));
        add_label(&mut before, alloc, &statement.label)?;
    }
    Ok(found)
}

/// The least refusal by rule 27.
#[tactic(auto, unfolding(crate::specs::Labels::rule_27))]
pub(crate) fn least_label_twice(
    alloc: Global,
    blocks: &[Block],
) -> Result<Option<Refusal>, AllocError>
    ensures { IfOk result (λ found. found ≡ least (rule_27 blocks.now)) }
{
    try_least_of(blocks, |b: &Block| labels_twice(alloc, b.body.as_slice()))
}
