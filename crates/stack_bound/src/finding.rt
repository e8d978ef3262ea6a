//! The least certificate of a program, or a chain that is too deep.
ghost use Rattle.std.specs.Prelude.{IfOk};
ghost use Rattle.stack_bound.specs.Finding.{IsFindingFor};

use crate::callers::callers;
use crate::certificates::{Bound, Bounds};
use crate::deepest::{chain_from, first_over};
use crate::layers::{first_layer, highest_layer};
use crate::marks::{marked_bounds, marks};
use image_file::Loaded;
use plc_base::{BlockId, NoMemory};
use std::alloc::Global;

/// What is found of a program.
#[derive(Drop)]
pub enum Found {
    /// No chain of calls is too deep: the least certificate.
    Fits { list: Vec<Bound> },
    /// A chain that is too deep, and no shorter front of it is.
    Deep { chain: Vec<BlockId> },
}

/// Finds the least certificate of a loaded program, in the image's order, or a chain of calls that is too
/// deep for its profile: one of them exactly.
#[tactic(auto, using(crate::proofs::CertificateLemmas::least, crate::proofs::OnChainLemmas::first_is_over))]
pub fn find(alloc: Global, l: &Loaded) -> Result<Found, NoMemory>
    ensures { IfOk result (λ found. IsFindingFor l.now.profile l.now.program found) }
{
    let most = l.profile().most_frames() as u32;
    let first = first_layer(alloc, l)?;
    let callers = callers(alloc, l, &Bounds::new(first.as_slice()))?;
    let layer = highest_layer(alloc, callers.as_slice(), first, most)?;
    let bounds = Bounds::new(layer.as_slice());
    if let Some(over) = first_over(l, &bounds) {
        let chain = chain_from(alloc, l, &bounds, over)?;
        return Ok(Found::Deep { chain });
    }
    let marks = marks(alloc, callers.as_slice(), layer.as_slice(), most)?;
    let list = marked_bounds(alloc, layer.as_slice(), marks.as_slice())?;
    Ok(Found::Fits { list })
}
