// Provisioning with settings, driven by hand over a few pages of bytes.
use super::lane_pages::{Pages, board};
use control_sets::{ProvisionFault, Work};
use conversations::{Conversation, NeedsPages, Next, try_take};
use explicit_provisioning::{ExplicitFault, explicit_bytes, explicit_tasks, fault_of};
use field_tables::LaneSet;
use lane_controls::SettingsChange;
use std::test::Fail;

// Application 1 on lanes 1 to 4.
const CONTROL: [u8; 8] = [0x10, 0x10, 0x10, 0x10, 0, 0, 0, 0];

// Settings AAh are staged and active, and lanes 1 to 4 are to get 55h.
fn plugged() -> Pages {
    let mut board = board();
    board.provisions = true;
    for place in 202..206u8 {
        board.set(0x11, place, 0x11);
    }
    for place in 0..21u8 {
        board.set(0x10, 153u8.wrapping_add(place), 0xaa);
        board.set(0x11, 214u8.wrapping_add(place), 0xaa);
    }
    board
}

// Answers how it ended, in brackets if it did.
fn provision(board: &mut Pages, applied: LaneSet, tries: u8) -> Option<Option<ExplicitFault>> {
    let change = SettingsChange {
        lanes: LaneSet::run(1, 4),
        settings: [0x55; 21],
        tries,
    };
    let work = Work::Provisioning {
        control: explicit_bytes(CONTROL, change.lanes),
        lanes: applied,
    };
    let mut tasks = explicit_tasks(&change, work);
    for _ in 0..80u8 {
        match tasks.next() {
            Next::Do(op) => {
                let page = tasks.page().unwrap_or(0) as u8;
                let reply = board.answer(page, &op);
                let _fits = try_take(&mut tasks, &reply);
            }
            Next::Wait(_time) => {}
            Next::End(end) => return Some(fault_of(end)),
        }
    }
    None
}

// The settings of lanes 1 to 4 are active under explicit control, and those of the others stay.
#[test]
fn lanes_are_provisioned_with_settings(rt: HostRuntime) -> Result<(), Fail> {
    for refuses_each in [0, 3, 5u32] {
        let mut board = plugged();
        board.refuses_each = refuses_each;
        assert_eq!(rt; provision(&mut board, LaneSet::run(1, 8), 2), Some(None));
        for lane in 0..8u8 {
            let byte = if lane < 4 { 0x11 } else { 0 };
            assert_eq!(rt; board.byte(0x11, 206u8.wrapping_add(lane)), byte);
        }
        assert_eq!(rt; board.byte(0x11, 214), 0xa5);
        assert_eq!(rt; board.byte(0x11, 215), 0x55);
        assert_eq!(rt; board.byte(0x11, 216), 0xaa);
        assert_eq!(rt; board.byte(0x11, 217), 0x55);
        assert_eq!(rt; board.byte(0x11, 219), 0xaa);
        assert_eq!(rt; board.byte(0x11, 231), 0x55);
        assert_eq!(rt; board.byte(0x11, 234), 0xaa);
        assert_eq!(rt; board.byte(0x10, 143), 0xff);
    }
    Ok(())
}

// Lanes that are kept have to have their settings; nothing of them is applied.
#[test]
fn kept_lanes_have_their_settings(rt: HostRuntime) -> Result<(), Fail> {
    for (settings, end) in [(0xaa, Some(ExplicitFault::NotActive(1))), (0x55u8, None)] {
        let mut board = plugged();
        for lane in 0..4u8 {
            board.set(0x11, 206u8.wrapping_add(lane), 0x11);
        }
        for place in 0..21u8 {
            board.set(0x11, 214u8.wrapping_add(place), settings);
        }
        assert_eq!(rt; provision(&mut board, LaneSet::run(5, 4), 1), Some(end));
        assert_eq!(rt; board.byte(0x10, 143), 0xf0);
    }
    Ok(())
}

#[test]
fn settings_that_do_not_arrive_are_faults(rt: HostRuntime) -> Result<(), Fail> {
    let not_ready = ExplicitFault::Provision(ProvisionFault::ModuleState(1));
    let differs = ExplicitFault::Provision(ProvisionFault::ActiveDiffers(1));
    for (case, end, stores) in [
        (0u8, not_ready, 0u32),
        (1, ExplicitFault::NotStaged, 9),
        (2, differs, 6),
        (3, ExplicitFault::NotActive(1), 6),
    ] {
        let mut board = plugged();
        match case {
            0 => board.state = 0x02,
            1 => board.stuck = Some(153),
            2 => board.provisions = false,
            _ => board.applies = false,
        }
        assert_eq!(rt;
            provision(&mut board, LaneSet::run(1, 8), 2),
            Some(Some(end))
        );
        assert_eq!(rt; board.stores, stores);
    }
    Ok(())
}
