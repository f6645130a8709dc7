// What an apply says of the lanes.
use super::modules::{
    FOURS, PAIRS, Row, first_wrong, image, module, module_of, pass, read, select, write,
};
use bus_model::Dev;
use paged_memory::Key;
use sample_modules::with;
use sim_module::SimModule;
use std::test::Fail;

// Stages bytes, from lane 1 on, and applies the lanes of a mask; page 10h is selected then.
fn apply(module: &mut SimModule, staged: &[u8], mask: u8) {
    select(module, 0x10);
    write(module, 145, &[0; 8]);
    write(module, 145, staged);
    write(module, 143, &[mask]);
}

fn statuses(module: &mut SimModule) -> [u8; 4] {
    select(module, 0x11);
    read::<4>(module, 202)
}

#[test]
fn each_refusal_has_its_code(rt: HostRuntime) -> Result<(), Fail> {
    let rows: &[(&[u8], u8, [u8; 4])] = &[
        (&[0x20, 0x20], 0x01, [0x07, 0, 0, 0]),
        (&[0x20, 0x24], 0x03, [0x44, 0, 0, 0]),
        (&[0x22, 0x22], 0x03, [0x44, 0, 0, 0]),
        (&[0x21, 0x21], 0x03, [0x55, 0, 0, 0]),
        (&[0x20, 0x20, 0x30], 0x07, [0x22, 0x03, 0, 0]),
        // Lanes 9 and above, lanes of another path, and DataPathID alone.
        (&[0, 0, 0, 0, 0, 0, 0, 0x2E], 0x80, [0, 0, 0, 0x40]),
        (&[0, 0, 0x20], 0x04, [0, 0x04, 0, 0]),
        (&[0x0E, 0, 0, 0], 0x01, [0x0C, 0, 0, 0]),
    ];
    for (staged, mask, wanted) in rows {
        let mut module = module()?;
        apply(&mut module, staged, *mask);
        let found = statuses(&mut module);
        assert_eq!(rt; found, *wanted, "{wanted:?}");
    }
    Ok(())
}

// Registers have host lanes alone, and yet an Application without media lanes can't be used.
#[test]
fn an_application_needs_media_lanes(rt: HostRuntime) -> Result<(), Fail> {
    // 100GBASE-DR has one media lane; media interface 0 is undefined, so nothing replaces a count of 0.
    let rows = [
        (0, 0x20, 0x33),
        (0, 0x29, 0x33),
        (0, 0x21, 0xCC),
        (0, 0x28, 0xCC),
        (0x14, 0x20, 0xCC),
    ];
    for (media_id, counts, code) in rows {
        let changed = with(
            image()?,
            Key::lower(Dev::A0),
            &[(91, media_id), (92, counts)],
        )?;
        let mut module = SimModule::new(changed, FOURS)?;
        apply(&mut module, &[0x20, 0x20], 0x03);
        let [first, ..] = statuses(&mut module);
        assert_eq!(rt; first, code, "{media_id} {counts}");
    }
    Ok(())
}

#[test]
fn the_first_code_that_applies_is_given(rt: HostRuntime) -> Result<(), Fail> {
    // Lane 1 meets two conditions at a time; for a lane in use the Active Control Set has pairs.
    let rows: &[(bool, u8, u8)] = &[
        // 6 before 3, 5, 4 and 7
        (true, 0x30, 6),
        (true, 0x21, 6),
        (true, 0x22, 6),
        (true, 0x20, 6),
        // 3 before 5; a lane without an Application has no path that could be wrong or partial
        (false, 0x31, 3),
        // 5 before 4, 5 before 7, 4 before 7
        (false, 0x23, 5),
        (false, 0x21, 5),
        (false, 0x22, 4),
    ];
    for (in_use, byte, code) in rows {
        let active = if *in_use { PAIRS } else { [0; 8] };
        let mut module = module_of(active, FOURS)?;
        pass(&mut module, 1);
        apply(&mut module, &[*byte], 0x01);
        let [first, ..] = statuses(&mut module);
        assert_eq!(rt; first, *code, "{byte}");
    }
    // 3 before 7: by the lanes of its active path, which DPDeinit keeps deactivated.
    let mut module = module_of(PAIRS, FOURS)?;
    select(&mut module, 0x10);
    write(&mut module, 128, &[0xFF]);
    for (byte, code) in [(0x30, 0x03), (0x00, 0x07), (0x10, 0x04)] {
        apply(&mut module, &[byte], 0x01);
        let [first, ..] = statuses(&mut module);
        assert_eq!(rt; first, code, "{byte}");
    }
    Ok(())
}

#[test]
fn a_further_apply_ends_the_one_in_progress(rt: HostRuntime) -> Result<(), Fail> {
    let mut module = module()?;
    apply(&mut module, &PAIRS, 0x0F);
    let rows: &[Row] = &[
        // Nothing is applied if no lane is asked for.
        (3, 143, &[0x00], &[0]),
        (0, 126, &[0, 0x11], &[0, 0x11]),
        (0, 202, &[], &[0xCC, 0xCC, 0, 0]),
        // The second apply leaves out lanes 1 and 2, and takes its whole time.
        (0, 126, &[0, 0x10], &[0, 0x10]),
        (0, 143, &[0x3C], &[0]),
        (0, 126, &[0, 0x11], &[0, 0x11]),
        (0, 202, &[], &[0x22, 0xCC, 0xCC, 0]),
        (3, 206, &[], &[0; 8]),
        (1, 202, &[], &[0x22, 0x11, 0x11, 0, 0, 0, 0x24, 0x24]),
        // A refused apply ends it too.
        (0, 126, &[0, 0x10], &[0, 0x10]),
        (0, 143, &[0x03], &[0]),
        (0, 143, &[0x40], &[0]),
        (9, 126, &[0, 0x11], &[0, 0x11]),
        (0, 202, &[], &[0x22, 0x11, 0x11, 0x07, 0, 0, 0x24, 0x24]),
    ];
    assert_eq!(rt; first_wrong(&mut module, rows), None);
    assert_eq!(rt; module.active(), [0, 0, 0x24, 0x24, 0x28, 0x28, 0, 0]);
    Ok(())
}

#[test]
fn what_was_staged_then_is_applied(rt: HostRuntime) -> Result<(), Fail> {
    let mut module = module()?;
    apply(&mut module, &PAIRS, 0xFF);
    let rows: &[Row] = &[
        (0, 145, &[0x10; 8], &[0x10; 8]),
        (4, 145, &[], &[0x10; 8]),
        (0, 126, &[0, 0x11], &[0, 0x11]),
        (0, 202, &[], &[0x11; 4]),
        (0, 206, &[], &PAIRS),
    ];
    assert_eq!(rt; first_wrong(&mut module, rows), None);
    Ok(())
}
