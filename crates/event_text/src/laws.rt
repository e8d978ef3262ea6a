//! Laws of texts: each function does nothing, and its contract is the law.
ghost use Rattle.event_text.specs.RoundTrip.{WrittenIsRead};

/// What is written of a regular history with at most 1,000,000 steps is read as that history.
#[tactic(auto, using(crate::proofs::RoundTripLemmas::written_is_read))]
pub fn written_is_read()
    ensures { WrittenIsRead }
{}
