// How lanes move by ticks.
use super::modules::{FOURS, PAIRS, Row, first_wrong, image, module_of, pass, read, select, write};
use super::plans::bus_of;
use arrayvec::ArrayVec;
use bus_model::{Bus, Dev, Device, Op, Reply};
use datapath_states::PathState;
use paged_memory::Key;
use sample_modules::with;
use sim_module::{Delays, SimModule};
use std::test::Fail;

const ONES: Delays = Delays {
    apply: 1,
    init: 1,
    turn_on: 1,
    turn_off: 1,
    deinit: 1,
    power_up: 1,
    power_down: 1,
};

// The state of the first lane's path, tick by tick.
fn course(module: &mut SimModule) -> [PathState; 6] {
    let mut states = [PathState::Deactivated; 6];
    for state in states.iter_mut() {
        module.tick();
        let [first, ..] = module.path_states();
        *state = first;
    }
    states
}

// A directive may say more ticks than any delay has. The first transaction takes one, which leaves DPDeactivated; DPInit takes a
// thousand.
#[test]
fn each_tick_of_a_script_counts(rt: HostRuntime) -> Result<(), Fail> {
    let slow = Delays { init: 1000, ..ONES };
    for (script, states) in [
        (b"ok 1\ntick 999\n".as_slice(), [0x22; 4]),
        (b"ok 1\ntick 1000\n".as_slice(), [0x77; 4]),
        (b"ok 1\ntick 1001\n".as_slice(), [0x55; 4]),
    ] {
        let mut bus = bus_of(rt.alloc(), module_of(PAIRS, slow)?, script, 2)?;
        let selected = ArrayVec::try_from([0x00, 0x11].as_slice());
        let op = Op::Store {
            dev: Dev::A0,
            offset: 126,
            bytes: selected.ok().ok_or("too many bytes")?,
        };
        assert_eq!(rt; bus.transact(op)?, Reply::Done);
        let told = bus.fetch(Dev::A0, 128, 4)?;
        assert_eq!(rt; told, ArrayVec::try_from(states.as_slice()).ok());
    }
    Ok(())
}

#[test]
fn a_path_comes_up_and_goes_down(rt: HostRuntime) -> Result<(), Fail> {
    let mut module = module_of(PAIRS, ONES)?;
    assert_eq!(rt;
        course(&mut module),
        [
            PathState::Init,
            PathState::Initialized,
            PathState::TxTurnOn,
            PathState::Activated,
            PathState::Activated,
            PathState::Activated,
        ]
    );
    select(&mut module, 0x11);
    // The flags of all lanes: entering DPInitialized and DPActivated raised them.
    assert_eq!(rt; read::<1>(&mut module, 134), [0xFF]);
    select(&mut module, 0x10);
    write(&mut module, 128, &[0x02]);
    assert_eq!(rt;
        course(&mut module),
        [
            PathState::TxTurnOff,
            PathState::Initialized,
            PathState::Deinit,
            PathState::Deactivated,
            PathState::Deactivated,
            PathState::Deactivated,
        ]
    );
    // Lane 2 holds its pair down, and no other lane.
    let [first, second, third, ..] = module.path_states();
    assert_eq!(rt;
        (first, second, third),
        (
            PathState::Deactivated,
            PathState::Deactivated,
            PathState::Activated
        )
    );
    select(&mut module, 0x11);
    assert_eq!(rt; read::<1>(&mut module, 134), [0x03]);
    Ok(())
}

#[test]
fn a_thousand_ticks_are_waited_for(rt: HostRuntime) -> Result<(), Fail> {
    let mut delays = ONES;
    delays.apply = 1000;
    delays.init = 1000;
    let mut module = SimModule::new(image()?, delays)?;
    select(&mut module, 0x10);
    write(&mut module, 145, &PAIRS);
    write(&mut module, 143, &[0xFF]);
    pass(&mut module, 999);
    assert_eq!(rt; module.active(), [0; 8]);
    module.tick();
    assert_eq!(rt; module.active(), PAIRS);
    assert_eq!(rt; module.path_states(), [PathState::Deactivated; 8]);
    pass(&mut module, 1000);
    assert_eq!(rt; module.path_states(), [PathState::Init; 8]);
    module.tick();
    assert_eq!(rt; module.path_states(), [PathState::Initialized; 8]);
    Ok(())
}

#[test]
fn low_power_waits_for_the_paths(rt: HostRuntime) -> Result<(), Fail> {
    let mut module = module_of(PAIRS, ONES)?;
    module.low_power_pin(true);
    let rows: &[Row] = &[
        (0, 126, &[0, 0x11], &[0, 0x11]),
        // The pin counts if bit 6 of byte 26 allows it.
        (5, 128, &[], &[0x44; 4]),
        (0, 26, &[0x40], &[0x40]),
        (1, 3, &[], &[0x06]),
        (1, 3, &[], &[0x06]),
        (1, 3, &[], &[0x06]),
        (1, 3, &[], &[0x06]),
        (0, 128, &[], &[0x11; 4]),
        (1, 3, &[], &[0x08]),
        (1, 3, &[], &[0x02]),
        (1, 3, &[], &[0x02]),
    ];
    assert_eq!(rt; first_wrong(&mut module, rows), None);
    module.low_power_pin(false);
    let rows: &[Row] = &[
        (1, 3, &[], &[0x04]),
        (1, 3, &[], &[0x06]),
        // The paths look at the state before the tick.
        (0, 128, &[], &[0x11; 4]),
        (1, 128, &[], &[0x22; 4]),
    ];
    assert_eq!(rt; first_wrong(&mut module, rows), None);
    Ok(())
}

#[test]
fn the_pin_counts_where_it_is_allowed(rt: HostRuntime) -> Result<(), Fail> {
    let allowing = with(image()?, Key::lower(Dev::A0), &[(26, 0x40)])?;
    let mut module = SimModule::new(allowing, FOURS)?;
    module.low_power_pin(true);
    for code in [4, 4, 4, 4, 1, 1] {
        module.tick();
        assert_eq!(rt; read::<1>(&mut module, 3), [2 * code]);
    }
    Ok(())
}
