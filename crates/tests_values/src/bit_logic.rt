use crate::compare::same;
use plc_base::Flag;
use status_word::{Brackets, Check, NESTING_DEPTH, Regs, Status};

/// Code, /FC, RLO, OR and the bit read; then RLO and OR afterwards.
const CHECKS: [(Check, bool, bool, bool, bool, bool, bool); 13] = [
    // The first check of a string: the RLO is the bit, or its inverse.
    (Check::A, false, false, false, true, true, false),
    (Check::An, false, true, false, true, false, false),
    (Check::O, false, true, false, false, false, false),
    // Within a string it is combined with the RLO.
    (Check::A, true, true, false, false, false, false),
    (Check::O, true, false, false, true, true, false),
    (Check::On, true, false, false, false, true, false),
    (Check::X, true, true, false, true, false, false),
    (Check::Xn, true, true, false, false, false, false),
    // OR 1 makes the RLO 1. A and AN keep it, the others clear it.
    (Check::A, false, true, true, false, true, true),
    (Check::An, true, false, true, true, true, true),
    (Check::O, true, false, true, false, true, false),
    // X looks at it at the beginning of a string alone.
    (Check::X, false, false, true, false, true, false),
    (Check::X, true, false, true, false, false, false),
];

#[test]
fn checks(rt: HostRuntime) {
    for (code, fc, rlo, or, read, rlo_after, or_after) in CHECKS {
        let mut regs = Regs::new();
        regs.status.fc = fc;
        regs.status.rlo = rlo;
        regs.status.or = or;
        regs.check(code, read);
        let row = (code, fc, rlo, or, read);
        let after = regs.status;
        let got = (after.rlo, after.or, after.sta, after.fc);
        same(&rt, row, got, (rlo_after, or_after, read, true));
    }
}

#[test]
fn strings(rt: HostRuntime) {
    // A 0, A 1, O, A 1, A 1, = : the second AND is 1, so that the OR of the two is. After the
    // assignment RLO and STA are 1, which weigh 2 and 4.
    let mut regs = Regs::new();
    regs.check(Check::A, false);
    regs.check(Check::A, true);
    regs.or_bare();
    regs.check(Check::A, true);
    regs.check(Check::A, true);
    same(&rt, "RLO where the second AND is 1", regs.status.rlo, true);
    regs.store(true);
    same(&rt, "status word after =", regs.status.number(), 0x006);

    // A 1, A 1, O, A 0, A 0: the first AND is 1, and both checks of the second keep it in OR.
    regs.check(Check::A, true);
    regs.check(Check::A, true);
    regs.or_bare();
    regs.check(Check::A, false);
    regs.check(Check::A, false);
    same(&rt, "RLO where the first AND is 1", regs.status.rlo, true);
    same(&rt, "OR where the first AND is 1", regs.status.or, true);
    regs.store(true);

    // SET, SAVE, NOT, CLR: RLO and STA, then BR besides, then STA and BR, then BR.
    regs.set();
    regs.save();
    same(&rt, "status word after SAVE", regs.status.number(), 0x106);
    regs.not();
    same(&rt, "status word after NOT", regs.status.number(), 0x104);
    regs.clr();
    same(&rt, "status word after CLR", regs.status.number(), 0x100);

    // RLO 1 after 0 is a rising edge, and 0 after 1 a falling one. The RLO is the answer, and the
    // edge bit becomes the RLO before.
    regs.set();
    let got = (regs.edge(true, false), regs.status.rlo);
    same(&rt, "FP with RLO 1 after 0", got, (true, true));
    regs.clr();
    let got = (regs.edge(true, true), regs.status.rlo);
    same(&rt, "FP with RLO 0 after 1", got, (false, false));
    let got = (regs.edge(false, true), regs.status.rlo);
    same(&rt, "FN with RLO 0 after 1", got, (false, true));
    let got = (regs.edge(false, true), regs.status.rlo);
    same(&rt, "FN with RLO 1 after 1", got, (true, false));
}

#[test]
fn brackets(rt: HostRuntime) {
    // Seven brackets are taken and the eighth is not; a 1 in the innermost comes out of all seven.
    let mut regs = Regs::new();
    let mut open = Brackets::new();
    for before in 0..NESTING_DEPTH {
        let taken = open.begin(&mut regs, Check::A);
        same(&rt, ("A( within", before), taken, true);
    }
    same(&rt, "an eighth A(", open.begin(&mut regs, Check::A), false);
    same(&rt, "open brackets", open.copied().len(), 7);
    regs.check(Check::A, true);
    for closed in 0..NESTING_DEPTH {
        same(&rt, (") after", closed), open.close(&mut regs), true);
    }
    same(&rt, "an eighth )", open.close(&mut regs), false);
    same(&rt, "no open bracket", open.is_empty(), true);
    same(&rt, "RLO after seven )", regs.status.rlo, true);

    // 1 X( 1 ) is 0, and 0 O( 1 ) is 1: RLO 1 at the bracket, and 1 inside.
    regs.set();
    regs.check(Check::A, true);
    same(&rt, "X(", open.begin(&mut regs, Check::X), true);
    same(&rt, "/FC after X(", regs.status.fc, false);
    regs.check(Check::A, true);
    same(&rt, ") of X(", open.close(&mut regs), true);
    same(&rt, "RLO after 1 X( 1 )", regs.status.rlo, false);
    same(&rt, "O(", open.begin(&mut regs, Check::O), true);
    regs.check(Check::An, false);
    same(&rt, ") of O(", open.close(&mut regs), true);
    same(&rt, "RLO after 0 O( 1 )", regs.status.rlo, true);
    same(&rt, "STA after 0 O( 1 )", regs.status.sta, true);
}

/// CC 1, CC 0; then ==0, <>0, >0, <0, >=0, <=0 and UO.
const CONDITIONS: [(bool, bool, [bool; 7]); 4] = [
    (false, false, [true, false, false, false, true, true, false]),
    (false, true, [false, true, false, true, false, true, false]),
    (true, false, [false, true, true, false, true, false, false]),
    (true, true, [false, false, false, false, false, false, true]),
];

#[test]
fn conditions(rt: HostRuntime) {
    for (cc1, cc0, hold) in CONDITIONS {
        let mut regs = Regs::new();
        regs.status.cc1 = cc1;
        regs.status.cc0 = cc0;
        let got = [
            regs.flag(Flag::EqZero),
            regs.flag(Flag::NeZero),
            regs.flag(Flag::GtZero),
            regs.flag(Flag::LtZero),
            regs.flag(Flag::GeZero),
            regs.flag(Flag::LeZero),
            regs.flag(Flag::Uo),
        ];
        same(&rt, ("CC 1 and CC 0", cc1, cc0), got, hold);
    }
    let all = Status::transferred_status(0xFFFF_FFFF);
    same(&rt, "BR of all bits", all.flag(Flag::Br), true);
    same(&rt, "OV of all bits", all.flag(Flag::Ov), true);
    same(&rt, "OS of no bit", Status::new().flag(Flag::Os), false);
}

#[test]
fn numbers(rt: HostRuntime) {
    // Monitoring lines after 32767 + 1, -32768 + -32768, 13 / 4 and 3 / 0 on fresh registers, the
    // last with RLO 0 throughout.
    for number in [0x0070, 0x0030, 0x0080, 0x00F0] {
        let status = Status::transferred_status(number);
        let got = (u32::from(status.number()), status.rlo);
        same(&rt, ("number and RLO", number), got, (number, false));
    }
    same(
        &rt,
        "CC 0 of 16#70",
        Status::transferred_status(0x0070).cc0,
        true,
    );
    same(
        &rt,
        "CC 1 of 16#80",
        Status::transferred_status(0x0080).cc1,
        true,
    );
    same(
        &rt,
        "BR of 16#100",
        Status::transferred_status(0x0100).br,
        true,
    );
    // Of all nine bits L STW shows bits 1 and 4 to 8.
    let all = Status::transferred_status(0xFFFF_FFFF);
    same(&rt, "all bits", all.number(), 0x1FF);
    same(&rt, "L STW of all bits", all.loaded_number(), 0x1F2);
}
