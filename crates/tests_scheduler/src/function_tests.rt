//! The nine system functions, with every return value.
use crate::compare::same;
use crate::function_tools::cycle;
use ob_sched::{Arrived, Sched, StartInfo};
use plc_base::Mode;
use std::test::Fail;
use sys_funcs::{can_dint, dis_airt, dis_irt, en_airt, en_irt, re_trigr, srt_dint, stp, time_tck};

#[test]
fn interrupts_are_delayed_and_enabled_again(rt: HostRuntime) -> Result<(), Fail> {
    let mut s = Sched::new(rt.alloc(), &[1, 40])?;
    let mut a = cycle();
    same(&rt, "first DIS_AIRT", dis_airt(&mut s, &mut a), 1);
    same(&rt, "second DIS_AIRT", dis_airt(&mut s, &mut a), 2);
    same(&rt, "BR of DIS_AIRT", a.regs().status.br, true);
    same(&rt, "first EN_AIRT", en_airt(&mut s, &mut a), 1);
    same(&rt, "second EN_AIRT", en_airt(&mut s, &mut a), 0);
    same(&rt, "BR of EN_AIRT", a.regs().status.br, true);
    same(&rt, "third EN_AIRT", en_airt(&mut s, &mut a), 0x8080);
    same(&rt, "BR of its error code", a.regs().status.br, false);
    same(&rt, "delays left", a.delay(), 0);
    a.set_delay(32_766);
    same(&rt, "the last one", dis_airt(&mut s, &mut a), 32_767);
    same(&rt, "one more", dis_airt(&mut s, &mut a), 32_767);
    same(&rt, "BR of one more", a.regs().status.br, true);
    same(&rt, "priority class", a.class(), 1);
    same(&rt, "organization block", a.ob(), 1);
    same(&rt, "frames", a.depth(), 1);
    Ok(())
}

#[test]
fn modes_of_disabling_and_their_refusals(rt: HostRuntime) -> Result<(), Fail> {
    let mut s = Sched::new(rt.alloc(), &[1, 10, 20, 40, 41])?;
    let mut a = cycle();
    // MODE, OB_NR, RET_VAL of DIS_IRT and EN_IRT
    let table = [
        (0, 9, 0),
        (1, 10, 0),
        (1, 20, 0),
        (1, 30, 0),
        (1, 40, 0),
        (1, 41, 0x8090),
        (1, 35, 0x8090),
        (1, 50, 0x8090),
        (1, 0, 0x8090),
        (2, 17, 0),
        (2, 18, 0x8090),
        (2, 23, 0),
        (2, 24, 0x8090),
        (2, 38, 0),
        (2, 39, 0x8090),
        (2, 47, 0),
        (2, 48, 0x8090),
        (2, 1, 0x8090),
        (2, 80, 0x8090),
        (3, 40, 0x8091),
        (255, 9, 0x8091),
    ];
    for (mode, ob_nr, value) in table {
        let dis = (dis_irt(&mut s, &mut a, mode, ob_nr), a.regs().status.br);
        let en = (en_irt(&mut s, &mut a, mode, ob_nr), a.regs().status.br);
        let answer = (value, value == 0);
        same(&rt, (mode, ob_nr), (dis, en), (answer, answer));
    }
    Ok(())
}

#[test]
fn requests_of_disabled_blocks_are_dropped(rt: HostRuntime) -> Result<(), Fail> {
    let mut s = Sched::new(rt.alloc(), &[1, 10, 20, 40, 41])?;
    let mut a = cycle();
    let info = StartInfo::default();
    let (dropped, queued) = (Arrived::Dropped, Arrived::Queued);
    same(&rt, "all disabled", dis_irt(&mut s, &mut a, 0, 0), 0);
    same(&rt, "OB 10 of all", s.arrive(10, info), dropped);
    same(&rt, "OB 41 of all", s.arrive(41, info), dropped);
    // the group of OB 40 again, then OB 41 not
    same(&rt, "OB 40 to 47", en_irt(&mut s, &mut a, 1, 40), 0);
    same(&rt, "without OB 41", dis_irt(&mut s, &mut a, 2, 41), 0);
    same(&rt, "OB 40", s.arrive(40, info), queued);
    same(&rt, "OB 41", s.arrive(41, info), dropped);
    same(&rt, "OB 10", s.arrive(10, info), dropped);
    // another group's first number changes nothing here
    same(&rt, "OB 20 to 23", en_irt(&mut s, &mut a, 1, 20), 0);
    same(&rt, "OB 10 beside them", s.arrive(10, info), dropped);
    same(&rt, "OB 20 of them", s.arrive(20, info), queued);
    Ok(())
}

#[test]
fn delays_start_and_end(rt: HostRuntime) -> Result<(), Fail> {
    let mut s = Sched::new(rt.alloc(), &[1, 20, 23])?;
    let mut a = cycle();
    // OB_NR, DTIME, RET_VAL of SRT_DINT
    let table = [
        (19, 1, 0x8090),
        (24, 1, 0x8090),
        (19, 0, 0x8090),
        (20, 0, 0x8091),
        (20, 60_001, 0x8091),
        (20, 0xFFFF_FFFF, 0x8091),
        (20, 60_000, 0),
        (23, 1, 0),
        // a running delay starts anew
        (20, 5, 0),
    ];
    for (ob_nr, dtime, value) in table {
        let returned = srt_dint(&mut s, &mut a, ob_nr, dtime, 0xFFFF);
        let found = (returned, a.regs().status.br);
        same(&rt, (ob_nr, dtime), found, (value, value == 0));
    }
    // OB_NR, RET_VAL of CAN_DINT
    let table = [
        (19, 0x8090),
        (24, 0x8090),
        (21, 0x80A0),
        (20, 0),
        (20, 0x80A0),
        (23, 0),
    ];
    for (ob_nr, value) in table {
        let returned = can_dint(&mut s, &mut a, ob_nr);
        let found = (returned, a.regs().status.br);
        same(&rt, ob_nr, found, (value, value == 0));
    }
    Ok(())
}

#[test]
fn a_delay_that_starts_anew_ends_after_its_new_time(rt: HostRuntime) -> Result<(), Fail> {
    let mut s = Sched::new(rt.alloc(), &[1, 20])?;
    let mut a = cycle();
    same(&rt, "3 ms", srt_dint(&mut s, &mut a, 20, 3, 0), 0);
    s.pass_ms(2, Mode::Run, &[]);
    same(&rt, "5 ms anew", srt_dint(&mut s, &mut a, 20, 5, 0), 0);
    s.pass_ms(4, Mode::Run, &[]);
    same(&rt, "after 4 ms", s.best(Mode::Run).is_some(), false);
    s.pass_ms(1, Mode::Run, &[]);
    same(&rt, "after 5 ms", s.best(Mode::Run).is_some(), true);
    Ok(())
}

#[test]
fn cycle_time_stop_and_clock(rt: HostRuntime) -> Result<(), Fail> {
    let mut s = Sched::new(rt.alloc(), &[1])?;
    let mut a = cycle();
    same(&rt, "TIME_TCK at first", time_tck(&mut s, &mut a), 0);
    s.pass_ms(150, Mode::Run, &[]);
    same(&rt, "TIME_TCK", time_tck(&mut s, &mut a), 150);
    same(&rt, "BR of TIME_TCK", a.regs().status.br, true);
    // the cycle counter begins anew, so 150 ms more are no time error
    re_trigr(&mut s, &mut a);
    same(&rt, "150 ms", s.pass_ms(150, Mode::Run, &[]).stop, None);
    same(&rt, "TIME_TCK then", time_tck(&mut s, &mut a), 300);
    same(&rt, "1 ms more", s.pass_ms(1, Mode::Run, &[]).stop, Some(9));
    same(&rt, "stop cause of STP", stp(&mut s, &mut a), 1);
    same(&rt, "BR of STP", a.regs().status.br, true);
    Ok(())
}
