// Changes of controls and of settings of lanes, driven by hand over a few pages of bytes.
use super::lane_pages::{Pages, board};
use conversations::{Conversation, NeedsPages, Next, try_take};
use field_tables::LaneSet;
use lane_controls::{
    ChangingSettings, LaneChange, LaneEnd, LaneRegister, SettingsChange, SettingsEnd,
};
use std::test::Fail;

// Lanes 3 and 4 of a transmitter that may be disturbed are these.
fn outputs_off(permitted: u8, media_paths: [u8; 8]) -> LaneChange {
    LaneChange {
        register: LaneRegister::OutputDisableTx,
        lanes: LaneSet::run(3, 2),
        on: true,
        max_stores: 3,
        permitted,
        media_paths,
    }
}

fn change(board: &mut Pages, change: LaneChange) -> Option<LaneEnd> {
    let mut changing = change.begin();
    for _ in 0..30u8 {
        match changing.next() {
            Next::Do(op) => {
                let page = changing.page().unwrap_or(0) as u8;
                let reply = board.answer(page, &op);
                let _fits = try_take(&mut changing, &reply);
            }
            Next::Wait(_time) => {}
            Next::End(end) => return Some(end),
        }
    }
    None
}

// Of each three transactions the third is a store, so that all stores are refused in the second case.
#[test]
fn outputs_are_switched_off(rt: HostRuntime) -> Result<(), Fail> {
    for (refuses_each, end, byte) in [
        (0, LaneEnd::Changed(0x8d), 0x8d),
        (3, LaneEnd::Refused(0x81), 0x81),
        (4u32, LaneEnd::Changed(0x8d), 0x8d),
    ] {
        let mut board = board();
        board.refuses_each = refuses_each;
        board.set(0x10, 130, 0x81);
        assert_eq!(rt; change(&mut board, outputs_off(0, [0xff; 8])), Some(end));
        assert_eq!(rt; board.byte(0x10, 130), byte);
    }
    Ok(())
}

// Lane 5 is up, and carries media lane 4 in the last two cases.
#[test]
fn outputs_of_paths_that_are_up_need_permission(rt: HostRuntime) -> Result<(), Fail> {
    for (permitted, media_paths, end) in [
        (
            0xef,
            [0xff; 8],
            LaneEnd::NotPermitted {
                byte: 0x81,
                lanes: 0x10,
            },
        ),
        (0x10, [0xff; 8], LaneEnd::Changed(0x8d)),
        (
            0,
            [0, 0, 0, 0x10, 0, 0, 0, 0],
            LaneEnd::NotPermitted {
                byte: 0x81,
                lanes: 0x10,
            },
        ),
        (
            0,
            [0x10, 0x10, 0, 0, 0x10, 0x10, 0x10, 0x10],
            LaneEnd::Changed(0x8d),
        ),
    ] {
        let mut board = board();
        board.set(0x10, 130, 0x81);
        board.set(0x11, 130, 0x14);
        assert_eq!(rt;
            change(&mut board, outputs_off(permitted, media_paths)),
            Some(end)
        );
        let byte = if end == LaneEnd::Changed(0x8d) {
            0x8d
        } else {
            0x81
        };
        assert_eq!(rt; board.byte(0x10, 130), byte);
    }
    Ok(())
}

// Where the lanes are as wanted, no path stands against that.
#[test]
fn outputs_that_are_off_are_left_alone(rt: HostRuntime) -> Result<(), Fail> {
    let mut board = board();
    board.set(0x10, 130, 0x8c);
    board.set(0x11, 129, 0x44);
    let end = change(&mut board, outputs_off(0, [0xff; 8]));
    assert_eq!(rt; end, Some(LaneEnd::Unchanged(0x8c)));
    assert_eq!(rt; board.stores, 0);
    Ok(())
}

// A module with lanes 1 and 2 up and under explicit control, and settings AAh.
fn tuned() -> Pages {
    let mut board = board();
    board.set(0x11, 128, 0x44);
    for place in 0..8u8 {
        board.set(0x10, 145u8.wrapping_add(place), 0x11);
        board.set(0x11, 206u8.wrapping_add(place), 0x11);
    }
    for place in 0..4u8 {
        board.set(0x11, 202u8.wrapping_add(place), 0x11);
    }
    for place in 0..21u8 {
        board.set(0x10, 153u8.wrapping_add(place), 0xaa);
        board.set(0x11, 214u8.wrapping_add(place), 0xaa);
    }
    board
}

fn tune(board: &mut Pages, lanes: LaneSet) -> Option<SettingsEnd> {
    let change = SettingsChange {
        lanes,
        settings: [0x55; 21],
        tries: 2,
    };
    let mut changing: ChangingSettings = change.begin();
    for _ in 0..60u8 {
        match changing.next() {
            Next::Do(op) => {
                let page = changing.page().unwrap_or(0) as u8;
                let reply = board.answer(page, &op);
                let _fits = try_take(&mut changing, &reply);
            }
            Next::Wait(_time) => {}
            Next::End(end) => return Some(end),
        }
    }
    None
}

// The settings of lanes 1 and 2 change, and those of the others stay.
#[test]
fn lanes_that_are_up_are_tuned(rt: HostRuntime) -> Result<(), Fail> {
    for refuses_each in [0, 3, 5u32] {
        let mut board = tuned();
        board.refuses_each = refuses_each;
        assert_eq!(rt;
            tune(&mut board, LaneSet::run(1, 2)),
            Some(SettingsEnd::Active)
        );
        assert_eq!(rt; board.byte(0x11, 214), 0xa9);
        assert_eq!(rt; board.byte(0x11, 215), 0xa5);
        assert_eq!(rt; board.byte(0x11, 216), 0xaa);
        assert_eq!(rt; board.byte(0x11, 217), 0x55);
        assert_eq!(rt; board.byte(0x11, 218), 0xaa);
        assert_eq!(rt; board.byte(0x11, 234), 0xaa);
        assert_eq!(rt; board.byte(0x10, 144), 0x03);
    }
    Ok(())
}

#[test]
fn lanes_that_cannot_be_tuned_are_named(rt: HostRuntime) -> Result<(), Fail> {
    for (case, end, stores) in [
        (0u8, SettingsEnd::NotUp(3), 0u32),
        (1, SettingsEnd::NotExplicit(2), 0),
        (2, SettingsEnd::NotExplicit(1), 0),
        (3, SettingsEnd::Rejected(2), 4),
        (4, SettingsEnd::NotActive(1), 4),
        (5, SettingsEnd::NotStaged, 9),
    ] {
        let mut board = tuned();
        let mut lanes = LaneSet::run(1, 2);
        match case {
            0 => lanes = LaneSet::run(1, 3),
            1 => board.set(0x10, 146, 0x21),
            2 => {
                board.set(0x10, 145, 0x10);
                board.set(0x11, 206, 0x10);
            }
            3 => board.set(0x11, 202, 0x31),
            4 => board.applies = false,
            _ => board.stuck = Some(161),
        }
        let told = tune(&mut board, lanes);
        assert_eq!(rt; told, Some(end));
        assert_eq!(rt; board.stores, stores);
    }
    Ok(())
}
