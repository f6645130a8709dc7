// Provisioning and activation of modules that take long, or that are stuck.
use super::modules::{FOURS, image, module, upper};
use super::plans::{FOUR_PAIRS, activated, bus_of, plan_of, provisioned};
use applications::Advert;
use bus_model::{BusFault, Dev};
use control_sets::{Activated, ProvisionFault, Provisioned};
use paged_memory::{Image, Key, Window};
use sample_modules::{with, with_run};
use sim_module::{Delays, SimModule};
use std::alloc::Global;
use std::test::Fail;

// An apply of 1000 ticks, which no more than 1013 steps wait for, and a list that is full before.
#[test]
fn an_apply_is_waited_for_as_long_as_there_is_room(rt: HostRuntime) -> Result<(), Fail> {
    let slow = Delays {
        apply: 1000,
        ..FOURS
    };
    let advert = Advert::of(&image()?.view())?;
    let plan = plan_of(&FOUR_PAIRS)?;
    for (room, steps, answer) in [
        (5000, 1013, Ok(Provisioned { steps: 1013 })),
        (5, 5, Err(ProvisionFault::Bus(BusFault::TraceFull))),
    ] {
        let module = SimModule::new(image()?, slow)?;
        let mut bus = bus_of(rt.alloc(), module, b"", room)?;
        let told = provisioned(&mut bus, &advert, &plan);
        assert_eq!(rt; told, (steps, Some(answer)), "{room}");
    }
    Ok(())
}

// Over a module that takes each store and keeps nothing of it but selections.
fn over_window(
    alloc: Global,
    image: &Image,
    paths: &[[u8; 3]],
) -> Result<(usize, Option<Result<Provisioned, ProvisionFault>>), Fail> {
    let mut bus = bus_of(alloc, Window::<16>::of(image)?, b"", 5000)?;
    Ok(provisioned(&mut bus, &Advert::of(image)?, &plan_of(paths)?))
}

#[test]
fn a_stuck_module_is_given_up(rt: HostRuntime) -> Result<(), Fail> {
    let gave_up = (4096, Some(Err(ProvisionFault::GaveUp)));
    let never_applied = over_window(rt.alloc(), &image()?.view(), &[])?;
    assert_eq!(rt; never_applied, gave_up);
    let never_down = with(image()?, upper(0, 0x11), &[(128, 0x31)])?;
    assert_eq!(rt; over_window(rt.alloc(), &never_down.view(), &[])?, gave_up);
    Ok(())
}

#[test]
fn faults_are_named_at_the_step_that_shows_them(rt: HostRuntime) -> Result<(), Fail> {
    let unstaged = over_window(rt.alloc(), &image()?.view(), &FOUR_PAIRS)?;
    assert_eq!(rt; unstaged, (11, Some(Err(ProvisionFault::StagedDiffers(1)))));
    let (lower, control, status) = (Key::lower(Dev::A0), upper(0, 0x10), upper(0, 0x11));
    let rows: [(Key, &[(u8, u8)], usize, ProvisionFault); 8] = [
        (lower, &[(3, 0x00)], 1, ProvisionFault::Reserved(0)),
        (lower, &[(3, 0x0A)], 1, ProvisionFault::ModuleState(5)),
        (status, &[(131, 0x91)], 7, ProvisionFault::Reserved(9)),
        (
            control,
            &[(152, 0x02)],
            11,
            ProvisionFault::StagedDiffers(8),
        ),
        (
            status,
            &[(202, 0xCC), (203, 0x3C), (204, 0x61), (205, 0x11)],
            15,
            ProvisionFault::Rejected(4, 3),
        ),
        (
            status,
            &[(202, 0xDC), (203, 0x3C), (204, 0x61), (205, 0x11)],
            15,
            ProvisionFault::Rejected(2, 13),
        ),
        (
            status,
            &[(202, 0x8C), (203, 0x3C), (204, 0x61), (205, 0x11)],
            15,
            ProvisionFault::Reserved(8),
        ),
        (
            status,
            &[
                (202, 0x11),
                (203, 0x11),
                (204, 0x11),
                (205, 0x11),
                (213, 0x01),
            ],
            16,
            ProvisionFault::ActiveDiffers(8),
        ),
    ];
    for (key, changes, steps, fault) in rows {
        let image = with(image()?, key, changes)?;
        let told = over_window(rt.alloc(), &image.view(), &[])?;
        assert_eq!(rt; told, (steps, Some(Err(fault))), "{fault:?}");
    }
    Ok(())
}

#[test]
fn paths_come_up_where_the_bytes_are_active(rt: HostRuntime) -> Result<(), Fail> {
    let mut bus = bus_of(rt.alloc(), module()?, b"", 5000)?;
    let told = activated(
        &mut bus,
        &Advert::of(&image()?.view())?,
        &plan_of(&FOUR_PAIRS)?,
    );
    assert_eq!(rt; told, (4, Some(Err(ProvisionFault::ActiveDiffers(1)))));
    Ok(())
}

// Lanes 1 to 4 are up, whatever is stored. A reserved code counts in whatever lane.
#[test]
fn lanes_of_the_plan_are_waited_for(rt: HostRuntime) -> Result<(), Fail> {
    let active = with_run(image()?, upper(0, 0x11), 206, &[0x20, 0x20, 0x24, 0x24])?;
    for (last_lanes, answer) in [
        (0x11, Ok(Activated { steps: 10 })),
        (0x81, Err(ProvisionFault::Reserved(8))),
    ] {
        let states = [(128, 0x44), (129, 0x44), (131, last_lanes)];
        let shown = with(active.copy(), upper(0, 0x11), &states)?;
        let told = activated_over_window(rt.alloc(), &shown.view(), &[[2, 1, 1], [2, 3, 2]])?;
        assert_eq!(rt; told, (10, Some(answer)));
    }
    Ok(())
}

fn activated_over_window(
    alloc: Global,
    image: &Image,
    paths: &[[u8; 3]],
) -> Result<(usize, Option<Result<Activated, ProvisionFault>>), Fail> {
    let mut bus = bus_of(alloc, Window::<16>::of(image)?, b"", 5000)?;
    Ok(activated(&mut bus, &Advert::of(image)?, &plan_of(paths)?))
}
