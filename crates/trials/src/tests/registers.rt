// What is read and stored at the addresses of a module.
use super::modules::{FOURS, PAIRS, Row, first_wrong, image, module, read, select, upper};
use arrayvec::ArrayVec;
use bus_model::{Bus, Dev, Device, Script, ScriptBus};
use sample_modules::{with, with_run};
use sim_module::SimModule;
use std::test::Fail;

#[test]
fn a_latched_byte_is_kept_until_it_is_read(rt: HostRuntime) -> Result<(), Fail> {
    let script = Script::read(b"nack 1\n")?;
    let mut bus = ScriptBus::new(rt.alloc(), module()?, script, 8)?;
    assert_eq!(rt; bus.fetch(Dev::A0, 9, 1)?.is_none(), true);
    for byte in [0x04, 0x00] {
        let told = bus.fetch(Dev::A0, 9, 1)?;
        assert_eq!(rt; told, ArrayVec::try_from([byte].as_slice()).ok());
    }
    Ok(())
}

#[test]
fn a_fetch_clears_the_latched_bytes_that_it_read(rt: HostRuntime) -> Result<(), Fail> {
    let flagged = with_run(image()?, upper(0, 0x11), 134, &[0xFF; 19])?;
    let mut module = SimModule::new(flagged, FOURS)?;
    let rows: &[Row] = &[
        // With another page selected nothing latched is read.
        (0, 134, &[], b"LE    "),
        (0, 126, &[0, 0x11], &[0, 0x11]),
    ];
    assert_eq!(rt; first_wrong(&mut module, rows), None);
    assert_eq!(rt; module.fetch(Dev::A2, 134, 19).is_none(), true);
    let rows: &[Row] = &[
        // It begins outside of the latched bytes and ends inside.
        (0, 132, &[], &[0, 0, 0xFF, 0xFF]),
        (0, 134, &[], &[0, 0, 0xFF, 0xFF]),
        (0, 134, &[], &[0; 4]),
        // It begins inside and ends outside.
        (0, 151, &[], &[0xFF, 0xFF, 0, 0x27]),
        (0, 150, &[], &[0xFF, 0, 0]),
        // Byte 9 of lower memory is another one.
        (0, 8, &[], &[0, 0x04, 0]),
        (0, 8, &[], &[0; 3]),
    ];
    assert_eq!(rt; first_wrong(&mut module, rows), None);
    Ok(())
}

#[test]
fn a_fetch_of_a_whole_half_clears_all_of_them(rt: HostRuntime) -> Result<(), Fail> {
    let flagged = with_run(image()?, upper(0, 0x11), 134, &[0xFF; 19])?;
    let mut module = SimModule::new(flagged, FOURS)?;
    let lower: [[u8; 128]; 2] = [read(&mut module, 0), read(&mut module, 0)];
    assert_eq!(rt; (lower[0][9], lower[1][9]), (0x04, 0x00));
    select(&mut module, 0x11);
    let page: [[u8; 128]; 2] = [read(&mut module, 128), read(&mut module, 128)];
    assert!(rt; page[0][6..25] == [0xFF; 19]);
    assert!(rt; page[1][6..25] == [0x00; 19]);
    Ok(())
}

#[test]
fn stores_change_a_few_registers_alone(rt: HostRuntime) -> Result<(), Fail> {
    let mut module = module()?;
    assert_eq!(rt; module.store(Dev::A2, 26, &[0x10]), false);
    let rows: &[Row] = &[
        // Read only: the identifier, the module state, the flags.
        (0, 0, &[0xFF], &[0x18, 0x50, 0, 0x06]),
        (0, 3, &[0xFF], &[0x06]),
        (0, 9, &[0xFF], &[0x04]),
        // Byte 26 keeps what is stored but for SoftwareReset.
        (0, 26, &[0xEF], &[0xE7]),
        (0, 126, &[0, 0x10], &[0, 0x10]),
        (0, 144, &[1, 2, 3, 4], &[0, 2, 3, 4]),
        (0, 152, &[5, 6], &[5, 0]),
        (0, 144, &[], &[0, 2, 3, 4, 0, 0, 0, 0, 5, 0]),
        (0, 128, &[0xAA], &[0xAA, 0]),
        (0, 143, &[0x80], &[0]),
        // Page 11h takes nothing.
        (0, 126, &[0, 0x11], &[0, 0x11]),
        (0, 206, &[0x10], &[0; 8]),
    ];
    assert_eq!(rt; first_wrong(&mut module, rows), None);
    Ok(())
}

#[test]
fn pages_of_other_banks_are_the_images(rt: HostRuntime) -> Result<(), Fail> {
    let banked = with(
        image()?,
        upper(1, 0x10),
        &[(128, 0x55), (143, 0x66), (145, 0x77)],
    )?;
    let mut module = SimModule::new(banked, FOURS)?;
    let rows: &[Row] = &[
        (0, 126, &[1, 0x10], &[1, 0x10]),
        (0, 128, &[0xAA], &[0x55]),
        (0, 145, &PAIRS, &[0x77]),
        (0, 143, &[0xFF], &[0x66, 0, 0x77]),
        (0, 126, &[0, 0x10], &[0, 0x10]),
        (0, 128, &[], &[0]),
        (0, 145, &[], &[0; 8]),
        (4, 126, &[0, 0x11], &[0, 0x11]),
        (0, 206, &[], &[0; 8]),
        // A page that isn't there selects page 00h.
        (0, 126, &[1, 0x11], &[0, 0]),
    ];
    assert_eq!(rt; first_wrong(&mut module, rows), None);
    Ok(())
}
