// A module at the start, and why there is none.
use super::modules::{FOURS, PAIRS, Row, first_wrong, image, image_of, module_of, upper};
use applications::AdvertFault;
use bus_model::Dev;
use datapath_states::PathState;
use module_states::ModuleState;
use paged_memory::{Key, LargeImage, Page};
use sample_modules::with;
use sim_module::{Delays, SimFault, SimModule};
use std::test::Fail;

#[test]
fn a_new_module_has_what_its_image_says(rt: HostRuntime) -> Result<(), Fail> {
    let mut started = module_of(PAIRS, FOURS)?;
    assert_eq!(rt; started.active(), PAIRS);
    assert_eq!(rt; started.path_states(), [PathState::Deactivated; 8]);
    assert_eq!(rt; started.state(), ModuleState::Ready);
    let rows: &[Row] = &[
        (0, 126, &[0, 0x11], &[0, 0x11]),
        (0, 128, &[], &[0x11; 4]),
        (0, 202, &[], &[0; 4]),
        (0, 206, &[], &PAIRS),
    ];
    assert_eq!(rt; first_wrong(&mut started, rows), None);

    // The pin is off, so a permission alone doesn't ask for low power.
    for (control, state) in [(0x10, ModuleState::LowPwr), (0x40, ModuleState::Ready)] {
        let image = with(image()?, Key::lower(Dev::A0), &[(26, control)])?;
        assert_eq!(rt; SimModule::new(image, FOURS)?.state(), state);
    }
    Ok(())
}

fn fault_of(image: &LargeImage, turn_off: u16) -> Option<SimFault> {
    let delays = Delays { turn_off, ..FOURS };
    SimModule::new(image.copy(), delays).err()
}

#[test]
fn the_first_reason_is_named(rt: HostRuntime) -> Result<(), Fail> {
    let mut wrong = LargeImage::new();
    for absent in [
        Key::lower(Dev::A0),
        upper(0, 0x00),
        upper(0, 0x01),
        upper(0, 0x10),
        upper(0, 0x11),
    ] {
        assert_eq!(rt; fault_of(&wrong, 0), Some(SimFault::Absent(absent)));
        wrong.put(absent, Page::default())?;
    }
    let fault = SimFault::Advert(AdvertFault::NotCmis(0));
    assert_eq!(rt; fault_of(&wrong, 0), Some(fault));

    let astray = image_of([0x22, 0, 0, 0, 0, 0, 0, 0])?;
    let summed = with(astray.copy(), upper(0, 0x01), &[(255, 0x18)])?;
    let fault = SimFault::Advert(AdvertFault::BadSum(1));
    assert_eq!(rt; fault_of(&summed, 0), Some(fault));
    for (turn_off, fault) in [
        (0, SimFault::BadDelay),
        (1001, SimFault::BadDelay),
        (1000, SimFault::ActiveNotPaths(1)),
    ] {
        assert_eq!(rt; fault_of(&astray, turn_off), Some(fault));
    }
    assert_eq!(rt; fault_of(&image()?, 1000), None);
    Ok(())
}
