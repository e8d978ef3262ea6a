//! A pass that was dropped.
use crate::bench::{is_answered, still_open, with_two_passes};
use std::test::Fail;
use var_access::{Reply, Request};

#[test]
fn a_dropped_pass_keeps_its_number_out(rt: HostRuntime) -> Result<(), Fail> {
    let (station, first, second) = with_two_passes(rt.alloc())?;
    drop(second);
    let (station, mut first) = still_open(&rt, station, first);
    // station and pass go on as before
    is_answered(
        &rt,
        "it asks",
        &station,
        &mut first,
        Request::Stop,
        Ok(Reply::Done),
    );
    still_open(&rt, station, first);
    Ok(())
}
