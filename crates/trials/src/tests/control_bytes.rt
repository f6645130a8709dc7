// The control bytes of plans, and what control bytes tell.
use super::modules::{PAIRS, image, upper};
use super::plans::{FOUR_PAIRS, plan_of};
use applications::Advert;
use bus_model::Dev;
use control_sets::{ControlFault, HostPath, bytes_of, paths_of};
use paged_memory::Key;
use plan_certificate::admissible;
use sample_modules::{with, with_run};
use std::test::Fail;

// The control bytes of paths, if they are a plan.
fn asked(advert: &Advert, paths: &[[u8; 3]]) -> Result<Option<[u8; 8]>, Fail> {
    let plan = plan_of(paths)?;
    if admissible(advert, &plan) {
        Ok(Some(bytes_of(advert, &plan)))
    } else {
        Ok(None)
    }
}

#[test]
fn the_lanes_of_a_path_are_told(rt: HostRuntime) -> Result<(), Fail> {
    let advert = Advert::of(&image()?.view())?;
    assert_eq!(rt; asked(&advert, &[[1, 1, 1]])?, Some([0x10; 8]));
    assert_eq!(rt; asked(&advert, &FOUR_PAIRS)?, Some(PAIRS));
    assert_eq!(rt; asked(&advert, &[])?, Some([0; 8]));

    // The first Application takes one lane, and begins anywhere.
    let narrow = with_run(image()?, Key::lower(Dev::A0), 88, &[0x11, 0xFF])?;
    let narrow = with(narrow, upper(0, 0x01), &[(176, 0xFF), (255, 0x15)])?;
    let advert = Advert::of(&narrow.view())?;
    let mut paths = [[1; 3]; 8];
    for (before, path) in paths.iter_mut().enumerate() {
        let lane = before as u8 + 1;
        *path = [1, lane, lane];
    }
    assert_eq!(rt;
        asked(&advert, &paths)?,
        Some([0x10, 0x12, 0x14, 0x16, 0x18, 0x1A, 0x1C, 0x1E])
    );
    Ok(())
}

fn host_path(app: u8, host: u8, lanes: u8) -> HostPath {
    HostPath { app, host, lanes }
}

#[test]
fn lanes_that_agree_are_a_path(rt: HostRuntime) -> Result<(), Fail> {
    let pairs = paths_of(PAIRS)?;
    let told = [
        host_path(2, 1, 2),
        host_path(2, 3, 2),
        host_path(2, 5, 2),
        host_path(2, 7, 2),
    ];
    assert_eq!(rt; pairs.as_slice(), told.as_slice());

    // ExplicitControl of lane 1, and all but AppSelCode of lanes 3 to 8, are not looked at.
    let one = paths_of([0x11, 0x10, 0x02, 0x03, 0x04, 0x05, 0x0E, 0x0F])?;
    assert_eq!(rt; one.as_slice(), [host_path(1, 1, 2)].as_slice());
    Ok(())
}

#[test]
fn the_lowest_wrong_lane_is_named(rt: HostRuntime) {
    for (bytes, lane) in [
        ([0x22, 0x20, 0x24, 0x24, 0x28, 0x28, 0x2C, 0x2C], 1),
        ([0x20, 0x24, 0, 0, 0, 0, 0, 0], 2),
        ([0x10, 0, 0x10, 0, 0, 0, 0, 0], 3),
    ] {
        let fault = paths_of(bytes).err();
        assert_eq!(rt; fault, Some(ControlFault::NotPaths(lane)), "{lane}");
    }
}
