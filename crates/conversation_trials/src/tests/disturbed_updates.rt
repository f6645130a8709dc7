// Firmware updates on the simulated module, with each transaction refused, and with power lost at each.
use arrayvec::ArrayVec;
use firmware_update::{Bank, UpdateRun, run_update};
use simulated_updates::{
    Banks, Before, Chance, Fate, MAX_CHANCES, SimulatedBus, SimulatedModule, Slot,
};
use std::test::Fail;

const OLD: [u8; 3] = [1, 2, 3];

// Eight bytes go with the Start, the others in a block.
const FILE: [u8; 12] = [9, 8, 7, 6, 5, 4, 3, 2, 1, 0, 255, 254];

// More transactions than an undisturbed update makes.
const PLACES: usize = 96;

fn slot(used: bool) -> Slot {
    let mut image = ArrayVec::new();
    if used {
        let _full = image.try_extend_from_slice(&OLD);
    }
    Slot {
        valid: used,
        committed: used,
        image,
    }
}

// Bank A runs and is committed, bank B is empty, and chance does this at one place.
fn bus(background: bool, place: usize, chance: Chance) -> SimulatedBus {
    let firmware = Banks {
        a: slot(true),
        b: slot(false),
        running: Bank::A,
        download: None,
        reset: None,
    };
    let mut chances = ArrayVec::new();
    for _ in 0..place {
        let _full = chances.try_push(Chance::undisturbed());
    }
    let _full = chances.try_push(chance);
    SimulatedBus {
        module: SimulatedModule::of(firmware, background),
        chances,
    }
}

fn came_to_its_end(run: &UpdateRun<()>) -> bool {
    matches!(run, UpdateRun::Over { end: Ok(()), .. })
}

fn is_new(banks: &Banks) -> bool {
    banks.b.valid && banks.b.committed && banks.b.image.as_slice() == FILE.as_slice()
}

fn is_old(banks: &Banks) -> bool {
    banks.a.valid && banks.a.committed && banks.a.image.as_slice() == OLD.as_slice()
}

// The old image or the whole file is committed, and where the update came to its end, that runs.
fn is_right(bus: &SimulatedBus, run: &UpdateRun<()>) -> bool {
    let banks = &bus.module.firmware;
    if came_to_its_end(run) {
        is_new(banks) && !is_old(banks) && matches!(banks.running, Bank::B)
    } else {
        is_new(banks) != is_old(banks)
    }
}

// An update that chance disturbs at each place in turn: whether each leaves the module right, and how many come to their end.
fn disturbed(chance: Chance) -> (bool, u32) {
    let mut right = true;
    let mut ended: u32 = 0;
    for place in 0..PLACES {
        let mut bus = bus(true, place, chance);
        let run = run_update(&mut bus, &FILE);
        right = right && is_right(&bus, &run);
        if came_to_its_end(&run) {
            ended = ended.saturating_add(1);
        }
    }
    (right, ended)
}

#[test]
fn an_undisturbed_update_comes_to_its_end(rt: HostRuntime) -> Result<(), Fail> {
    let mut bus = bus(true, 0, Chance::undisturbed());
    let run = run_update(&mut bus, &FILE);
    assert!(rt; came_to_its_end(&run));
    assert!(rt; is_right(&bus, &run));
    Ok(())
}

#[test]
fn refusals_leave_an_image(rt: HostRuntime) -> Result<(), Fail> {
    let (right, ended) = disturbed(Chance {
        kept: Some(0),
        ..Chance::undisturbed()
    });
    assert!(rt; right);
    assert!(rt; ended > 48);
    Ok(())
}

// Each byte of the store reaches the module, which isn't heard of.
#[test]
fn stores_that_are_not_heard_of_leave_an_image(rt: HostRuntime) -> Result<(), Fail> {
    let (right, ended) = disturbed(Chance {
        kept: Some(8),
        ..Chance::undisturbed()
    });
    assert!(rt; right);
    assert!(rt; ended > 48);
    Ok(())
}

#[test]
fn losses_of_power_leave_an_image(rt: HostRuntime) -> Result<(), Fail> {
    let (right, _ended) = disturbed(Chance {
        before: Before::PowerLoss,
        ..Chance::undisturbed()
    });
    assert!(rt; right);
    Ok(())
}

#[test]
fn losses_of_power_within_a_message_leave_an_image(rt: HostRuntime) -> Result<(), Fail> {
    let (done, _ended) = disturbed(Chance {
        fate: Fate::CutShort { done: true },
        ..Chance::undisturbed()
    });
    let (undone, _ended) = disturbed(Chance {
        fate: Fate::CutShort { done: false },
        ..Chance::undisturbed()
    });
    assert!(rt; done && undone);
    Ok(())
}

#[test]
fn messages_that_fail_leave_an_image(rt: HostRuntime) -> Result<(), Fail> {
    let (right, ended) = disturbed(Chance {
        fate: Fate::Fails,
        ..Chance::undisturbed()
    });
    assert!(rt; right);
    assert!(rt; ended > 48);
    Ok(())
}

// Whether it answers meanwhile or refuses everything.
#[test]
fn a_module_that_is_busy_is_waited_for(rt: HostRuntime) -> Result<(), Fail> {
    let slow = Chance {
        busy: 500,
        ..Chance::undisturbed()
    };
    for place in 0..PLACES {
        let mut answering = bus(true, place, slow);
        let mut refusing = bus(false, place, slow);
        let heard = run_update(&mut answering, &FILE);
        let unheard = run_update(&mut refusing, &FILE);
        assert!(rt; came_to_its_end(&heard) && is_right(&answering, &heard));
        assert!(rt; came_to_its_end(&unheard) && is_right(&refusing, &unheard));
    }
    Ok(())
}

// The module falls back to the committed one.
#[test]
fn an_image_that_does_not_boot_is_not_committed(rt: HostRuntime) -> Result<(), Fail> {
    let mut bus = bus(true, 0, Chance::undisturbed());
    bus.chances.clear();
    for _ in 0..MAX_CHANCES {
        let _full = bus.chances.try_push(Chance {
            before: Before::Reset { boots: false },
            ..Chance::undisturbed()
        });
    }
    let run = run_update(&mut bus, &FILE);
    assert!(rt; !came_to_its_end(&run));
    assert!(rt; is_old(&bus.module.firmware) && !bus.module.firmware.b.committed);
    assert!(rt; matches!(bus.module.firmware.running, Bank::A));
    Ok(())
}
