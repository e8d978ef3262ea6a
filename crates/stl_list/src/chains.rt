//! Which parameters a chain of passings joins to an INT or a TIME of a system function.
ghost use Rattle.std.specs.Prelude.{◌≡◌, ◌<◌, false, length, map, unwrap_or, IfOk, slice_get};
ghost use Rattle.std.specs.List.{range_with_len};
ghost use Rattle.stl_list.specs.JoinedParameters.{
  chains_by,
  chains_of,
  is_int_kind,
  is_time_kind,
  chain_labels,
  mark_at,
  marks_after_link,
  marks_of,
  total_parameter_count,
  labels_after_link,
  replaced_label,
  set_label,
};

use crate::links::{Link, links};
use crate::parameters::kind_of_width;
use flat_code::CodeBlock;
use plc_base::{NoMemory, Width};
use std::alloc::Global;
use std::marker::Model;
use stl_ast::Simple;

/// How many parameters blocks have.
fn total_parameter_count(blocks: &[CodeBlock]) -> usize
    requires { length blocks.now < 65536 }
    ensures { result ≡ total_parameter_count blocks.now }
{
    let mut count = 0;
    for block in blocks {
        count += block.params.len();
    }
    count
}

fn replaced_label(from: usize, to: usize, label: usize) -> usize
    ensures { result ≡ replaced_label from to label }
{
    if label == from { to } else { label }
}

/// Gives all parameters that have the label `from` the label `to`.
fn relabel(labels: &mut [usize], from: usize, to: usize)
    ensures { labels.new ≡ map (replaced_label from to) labels.old }
{
    for label in labels.iter_mut() {
        *label = replaced_label(from, to, *label);
    }
}

fn parameter_label(labels: &[usize], parameter: usize) -> Option<usize>
    ensures { result ≡ slice_get labels.now parameter }
{
    labels.get(parameter).copied()
}

/// Joins two parameters, and all that are joined to one of them.
#[tactic(auto, using(crate::proofs::ChainLemmas::replaced_by_itself))]
fn join(labels: &mut [usize], own: usize, other: usize)
    ensures { labels.new ≡ labels_after_link labels.old (Link.Joins own other) }
{
    let Some(from) = parameter_label(labels, own) else {
        return;
    };
    let Some(to) = parameter_label(labels, other) else {
        return;
    };
    if from != to {
        relabel(labels, from, to);
    }
}

fn relink(labels: &mut [usize], link: Link)
    ensures { labels.new ≡ labels_after_link labels.old link }
{
    match link {
        Link::Joins { own, other } => join(labels, own, other),
        Link::Has { .. } => {}
    }
}

/// A label for each of so many parameters.
fn first_labels(alloc: Global, count: usize) -> Result<Vec<usize>, NoMemory>
    ensures { IfOk result (λ v. v.items ≡ range_with_len 0 count) }
{
    let mut labels = Vec::with_capacity(alloc, count)?;
    for number in 0..count {
        labels.push(number)?;
    }
    Ok(labels)
}

/// Labels of so many parameters: those that a chain of passings joins have the same.
#[tactic(auto, unfolding(crate::specs::JoinedParameters::chain_labels))]
fn chain_labels(alloc: Global, count: usize, links: &[Link]) -> Result<Vec<usize>, NoMemory>
    ensures { IfOk result (λ v. v.items ≡ chain_labels count links.now) }
{
    let mut labels = first_labels(alloc, count)?;
    for link in links {
        relink(&mut labels, *link);
    }
    Ok(labels)
}

fn is_int(kind: Simple) -> bool
    ensures { result ≡ is_int_kind kind }
{
    matches!(kind, Simple::Int)
}

fn is_time(kind: Simple) -> bool
    ensures { result ≡ is_time_kind kind }
{
    matches!(kind, Simple::Time)
}

/// Marks the label of a parameter.
fn mark_label(marks: &mut [bool], labels: &[usize], own: usize)
    ensures { marks.new ≡ set_label marks.old (slice_get labels.now own) }
{
    if let Some(label) = parameter_label(labels, own) {
        if label < marks.len() {
            marks[label] = true;
        }
    }
}

/// Marks the label of a parameter that is passed for an INT of a system function.
fn mark_int(marks: &mut [bool], labels: &[usize], link: Link)
    ensures { marks.new ≡ marks_after_link is_int_kind labels.now marks.old link }
{
    match link {
        Link::Joins { .. } => {}
        Link::Has { own, kind } => {
            if is_int(kind) {
                mark_label(marks, labels, own);
            }
        }
    }
}

/// Marks the label of a parameter that is passed for a TIME of a system function.
fn mark_time(marks: &mut [bool], labels: &[usize], link: Link)
    ensures { marks.new ≡ marks_after_link is_time_kind labels.now marks.old link }
{
    match link {
        Link::Joins { .. } => {}
        Link::Has { own, kind } => {
            if is_time(kind) {
                mark_label(marks, labels, own);
            }
        }
    }
}

/// The labels that a chain joins to INT.
#[tactic(auto, unfolding(crate::specs::JoinedParameters::marks_of))]
fn int_marks(alloc: Global, labels: &[usize], links: &[Link]) -> Result<Vec<bool>, NoMemory>
    ensures { IfOk result (λ v. v.items ≡ marks_of is_int_kind labels.now links.now) }
{
    let mut marks = vec![in alloc; false; labels.len()]?;
    for link in links {
        mark_int(&mut marks, labels, *link);
    }
    Ok(marks)
}

/// The labels that a chain joins to TIME.
#[tactic(auto, unfolding(crate::specs::JoinedParameters::marks_of))]
fn time_marks(alloc: Global, labels: &[usize], links: &[Link]) -> Result<Vec<bool>, NoMemory>
    ensures { IfOk result (λ v. v.items ≡ marks_of is_time_kind labels.now links.now) }
{
    let mut marks = vec![in alloc; false; labels.len()]?;
    for link in links {
        mark_time(&mut marks, labels, *link);
    }
    Ok(marks)
}

/// The labels of all parameters, and which labels are INT or TIME.
#[derive(Drop)]
pub(crate) struct PassingChains {
    labels: Vec<usize>,
    ints: Vec<bool>,
    times: Vec<bool>,
}

impl Model for PassingChains {
    ghost use Rattle.stl_list.specs.JoinedParameters.{PassingChains as PassingChainsData};

    ghost Value = { PassingChainsData };

    ghost view = { λ c. record {
      labels = c.labels.items;
      ints = c.ints.items;
      times = c.times.items;
    } };
}

fn is_marked(marks: &[bool], label: usize) -> bool
    ensures { result ≡ unwrap_or (slice_get marks.now label) false }
{
    marks.get(label).copied().unwrap_or(false)
}

fn mark_at(marks: &[bool], label: Option<usize>) -> bool
    ensures { result ≡ mark_at marks.now label }
{
    match label {
        None => false,
        Some(label) => is_marked(marks, label),
    }
}

/// The chains of these links.
fn chains_by(alloc: Global, count: usize, links: &[Link]) -> Result<PassingChains, NoMemory>
    ensures { IfOk result (λ c. c ≡ chains_by (chain_labels count links.now) links.now) }
{
    let labels = chain_labels(alloc, count, links)?;
    let ints = int_marks(alloc, labels.as_slice(), links)?;
    let times = time_marks(alloc, labels.as_slice(), links)?;
    Ok(PassingChains {
        labels,
        ints,
        times,
    })
}

impl PassingChains {
    ghost use Rattle.std.specs.Prelude.{◌≡◌, ◌<◌, length, IfOk};
    ghost use Rattle.stl_list.specs.JoinedParameters.{chains_of, kind_at};

    /// The chains of a program.
    #[tactic(auto, unfolding(crate::specs::JoinedParameters::chains_of))]
    pub(crate) fn of(alloc: Global, blocks: &[CodeBlock]) -> Result<PassingChains, NoMemory>
        requires { length blocks.now < 65536 }
        ensures { IfOk result (λ c. c ≡ chains_of blocks.now) }
    {
        let links = links(alloc, blocks)?;
        chains_by(alloc, total_parameter_count(blocks), links.as_slice())
    }

    /// The type of the parameter of a number.
    #[tactic(auto, unfolding(crate::specs::JoinedParameters::kind_at))]
    pub(crate) fn kind_at(&self, parameter: usize, width: Width) -> Simple
        ensures { result ≡ kind_at self.now parameter width }
    {
        let label = parameter_label(self.labels.as_slice(), parameter);
        if mark_at(self.ints.as_slice(), label) {
            Simple::Int
        } else if mark_at(self.times.as_slice(), label) {
            Simple::Time
        } else {
            kind_of_width(width)
        }
    }
}
