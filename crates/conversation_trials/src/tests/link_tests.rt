// Link tests, driven by hand over a few pages of bytes.
use super::lane_pages::{Pages, board};
use arrayvec::ArrayVec;
use conversations::{Conversation, NeedsPages, Next, Patience, Timed, try_take};
use lane_controls::{
    Control, LanePair, LinkTest, Loopback, PatientTestProcedure, PatternUnit, ResultSet, STOP,
    Side, Switch, TestEnd, TestFault, TestPlan, patient_test_procedure,
};
use std::test::Fail;

fn enable(unit: PatternUnit) -> Switch {
    Switch {
        control: Control::Enable(unit),
        mask: 0x03,
        bits: 0x03,
    }
}

fn pattern(unit: PatternUnit, code: u8) -> Switch {
    Switch {
        control: Control::Pattern(unit, LanePair::First),
        mask: 0xff,
        bits: code,
    }
}

fn loopback(loopback: Loopback) -> Switch {
    Switch {
        control: Control::Loopback(loopback),
        mask: 0x03,
        bits: 0x03,
    }
}

fn plan_of(switches: &[Switch]) -> TestPlan {
    let mut list = ArrayVec::new();
    for switch in switches.iter() {
        let _room = list.try_push(*switch);
    }
    TestPlan {
        switches: list,
        permitted: 0,
        media_paths: [0xff; 8],
        tries: 2,
        results: ResultSet::ErrorRatio,
        rounds: 2,
        period: 1000,
    }
}

// A host generator and checker of PRBS-31Q on lanes 1 and 2, which are looped back.
fn looped() -> [Switch; 5] {
    [
        pattern(PatternUnit::HostGenerator, 0),
        enable(PatternUnit::HostGenerator),
        pattern(PatternUnit::HostChecker, 0),
        enable(PatternUnit::HostChecker),
        loopback(Loopback::MediaSideOutput),
    ]
}

// How it ended within so many turns, if it did, and for how many milliseconds it waited; after so many turns it is stopped.
fn carry_out(test: &mut LinkTest, board: &mut Pages, stop_after: u32) -> (Option<TestEnd>, u32) {
    let mut waited: u32 = 0;
    for turn in 0..1000u32 {
        if turn == stop_after {
            test.asked(STOP);
        }
        match test.next() {
            Next::Do(op) => {
                let page = test.page().unwrap_or(0) as u8;
                let reply = board.answer(page, &op);
                let _fits = try_take(test, &reply);
            }
            Next::Wait(time) => {
                waited = waited.wrapping_add(time);
                test.waited();
            }
            Next::End(end) => return (Some(end), waited),
        }
    }
    (None, waited)
}

// The same on a real bus: pages are selected, and what is refused is followed by a pause. How long it waited, if it ended in time.
fn carry_out_on(procedure: &mut PatientTestProcedure, board: &mut Pages) -> Option<u32> {
    let mut waited: u32 = 0;
    for _ in 0..2000u32 {
        match procedure.next() {
            Next::Do(op) => {
                let page = board.shown;
                let reply = board.answer(page, &op);
                let _fits = try_take(procedure, &reply);
            }
            Next::Wait(time) => {
                waited = waited.wrapping_add(time);
                procedure.waited();
            }
            Next::End(spent) => {
                return match spent.end {
                    Some(Timed::InTime(TestEnd { fault: None, .. })) => Some(waited),
                    _ => None,
                };
            }
        }
    }
    None
}

fn named(end: &Option<TestEnd>) -> usize {
    match end {
        Some(end) => end.still_on.len(),
        None => 99,
    }
}

#[test]
fn all_is_off_again_whatever_is_refused(rt: HostRuntime) -> Result<(), Fail> {
    for refuses_each in [0, 3, 5u32] {
        let mut board = board();
        board.refuses_each = refuses_each;
        board.set(0x14, 192, 0x5a);
        let before = board.pages[3];
        let mut test = LinkTest::of(plan_of(&looped()));
        let (end, waited) = carry_out(&mut test, &mut board, 9999);
        assert!(rt; matches!(&end, Some(TestEnd { fault: None, .. })));
        assert_eq!(rt; named(&end), 0);
        assert_eq!(rt; waited, 2000);
        assert_eq!(rt; board.pages[3], before);
        assert!(rt; board.stores >= 9);
        assert_eq!(rt; test.results.first().copied(), Some(0x5a));
    }
    Ok(())
}

#[test]
fn all_is_off_again_on_a_real_bus(rt: HostRuntime) -> Result<(), Fail> {
    let patience = Patience {
        pause: 10,
        limit: 1000,
    };
    for refuses_each in [0, 5, 7, 11u32] {
        let mut board = board();
        board.refuses_each = refuses_each;
        let before = board.pages[3];
        let mut procedure = patient_test_procedure(plan_of(&looped()), patience, 1000);
        let waited = carry_out_on(&mut procedure, &mut board);
        assert!(rt; matches!(waited, Some(2000..=4000)));
        assert_eq!(rt; board.pages[3], before);
        assert!(rt; board.stores >= 9);
    }
    Ok(())
}

// After 30 operations, with selections, the host generator is on.
#[test]
fn a_test_that_gives_up_names_what_may_be_on(rt: HostRuntime) -> Result<(), Fail> {
    let patience = Patience {
        pause: 10,
        limit: 1000,
    };
    let mut board = board();
    let mut procedure = patient_test_procedure(plan_of(&looped()), patience, 30);
    assert_eq!(rt; carry_out_on(&mut procedure, &mut board), None);
    let test = &procedure.conversation.conversation.conversation;
    assert_eq!(rt; board.byte(0x13, 144), 0x03);
    assert!(rt; test.may_be_on(Control::Enable(PatternUnit::HostGenerator)));
    assert!(rt; !test.may_be_on(Control::Loopback(Loopback::HostSideInput)));
    assert_eq!(rt; test.changes().len(), 4);
    Ok(())
}

#[test]
fn what_stays_on_is_named(rt: HostRuntime) -> Result<(), Fail> {
    let mut board = board();
    board.stuck = Some(160);
    let mut test = LinkTest::of(plan_of(&looped()));
    let (end, _waited) = carry_out(&mut test, &mut board, 9999);
    assert_eq!(rt; named(&end), 1);
    assert!(rt; test.may_be_on(Control::Enable(PatternUnit::HostChecker)));
    assert!(rt; !test.may_be_on(Control::Enable(PatternUnit::HostGenerator)));
    assert_eq!(rt; board.byte(0x13, 160), 0x03);
    assert_eq!(rt; board.byte(0x13, 144), 0);
    Ok(())
}

// At each turn: what was on is off again, or a test that hadn't stored anything stores nothing.
#[test]
fn a_test_can_be_stopped_at_any_turn(rt: HostRuntime) -> Result<(), Fail> {
    for turn in 0..24u32 {
        let mut board = board();
        let before = board.pages[3];
        let mut test = LinkTest::of(plan_of(&looped()));
        let (end, _waited) = carry_out(&mut test, &mut board, turn);
        assert_eq!(rt; named(&end), 0);
        assert_eq!(rt; board.pages[3], before);
        assert!(rt;
            matches!(
                &end,
                Some(TestEnd {
                    fault: Some(TestFault::Stopped),
                    ..
                })
            )
        );
    }
    Ok(())
}

// The faults of plans that are refused, before anything is stored.
#[test]
fn a_refused_plan_stores_nothing(rt: HostRuntime) -> Result<(), Fail> {
    let twice = [
        enable(PatternUnit::HostChecker),
        enable(PatternUnit::HostChecker),
    ];
    let sides = [
        loopback(Loopback::MediaSideOutput),
        loopback(Loopback::HostSideInput),
    ];
    for (case, switches) in [
        (0u8, looped().as_slice()),
        (1, looped().as_slice()),
        (2, twice.as_slice()),
        (3, sides.as_slice()),
        (4, [pattern(PatternUnit::MediaChecker, 0x0c)].as_slice()),
        (5, looped().as_slice()),
        (6, looped().as_slice()),
    ] {
        let mut board = board();
        let mut plan = plan_of(switches);
        match case {
            0 => board.set(0x11, 128, 0x41),
            1 => board.set(0x01, 142, 0xdf),
            5 => plan.results = ResultSet::SignalToNoise(Side::Host),
            6 => board.set(0x13, 128, 0x0f),
            _ => {}
        }
        let mut test = LinkTest::of(plan);
        let (end, _waited) = carry_out(&mut test, &mut board, 9999);
        let fault = match &end {
            Some(end) => end.fault,
            None => None,
        };
        let number = match fault {
            Some(TestFault::NotPermitted(_)) => 0u8,
            Some(TestFault::NoDiagnostics) => 1,
            Some(TestFault::Twice(_)) => 2,
            Some(TestFault::LoopbacksOnBothSides) => 3,
            Some(TestFault::Unsupported(Control::Loopback(_))) => 6,
            Some(TestFault::Unsupported(_)) => 4,
            Some(TestFault::UnsupportedResults) => 5,
            _ => 99,
        };
        assert_eq!(rt; number, case);
        assert_eq!(rt; board.stores, 0);
    }
    Ok(())
}

// Lane 2 is up. A media lane whose path isn't known concerns all eight.
#[test]
fn a_lane_that_is_up_is_disturbed_with_permission(rt: HostRuntime) -> Result<(), Fail> {
    for (paths, permitted, is_fine) in [
        ([0xff; 8], 0x00, false),
        ([0xff; 8], 0x02, true),
        ([0x01, 0x04, 0x08, 0x10, 0, 0, 0, 0], 0x00, true),
        ([0x01, 0x02, 0x08, 0x10, 0, 0, 0, 0], 0x00, false),
    ] {
        let mut board = board();
        board.set(0x11, 128, 0x41);
        let mut plan = plan_of(&[enable(PatternUnit::MediaGenerator)]);
        plan.media_paths = paths;
        plan.permitted = permitted;
        let mut test = LinkTest::of(plan);
        let (end, _waited) = carry_out(&mut test, &mut board, 9999);
        assert_eq!(rt; matches!(&end, Some(TestEnd { fault: None, .. })), is_fine);
    }
    Ok(())
}
