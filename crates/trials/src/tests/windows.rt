mod reading;

use arrayvec::ArrayVec;
use bus_model::{Bus, BusFault, Dev, Device, Op, Reply, Script, ScriptBus};
use paged_memory::{Image, ImageFault, Key, Page, SmallImage, Window, WindowFault};
use reading::{select, select_on_window};
use std::alloc::Global;
use std::test::Fail;

// An image with these halves, each with a first byte and else zeros.
fn image(halves: &[(Key, u8)]) -> Result<SmallImage, ImageFault> {
    let mut image = SmallImage::new();
    for (key, first) in halves {
        let mut bytes = [0; 128];
        bytes[0] = *first;
        image.put(*key, Page::from(bytes))?;
    }
    Ok(image)
}

// Halves with the pages of device A0 that a manager of data paths needs.
fn paths() -> [(Key, u8); 6] {
    [
        (Key::lower(Dev::A0), 0x18),
        (Key::upper(Dev::A0, 0, 0x00), 0xa0),
        (Key::upper(Dev::A0, 0, 0x01), 0xa1),
        (Key::upper(Dev::A0, 0, 0x02), 0xa2),
        (Key::upper(Dev::A0, 0, 0x10), 0xb0),
        (Key::upper(Dev::A0, 0, 0x11), 0xb1),
    ]
}

// Bytes stored on A0 from an address upwards, and the bytes 126, 127 and 128 then; `None` if any of this is refused.
type Row<'a> = (u8, &'a [u8], Option<[u8; 3]>);

fn shown_after(
    bus: &mut ScriptBus<Window<16>>,
    offset: u8,
    bytes: &[u8],
) -> Result<Option<[u8; 3]>, Fail> {
    let bytes = ArrayVec::try_from(bytes).ok().ok_or("too many bytes")?;
    let op = Op::Store {
        dev: Dev::A0,
        offset,
        bytes,
    };
    if bus.transact(op)? != Reply::Done {
        return Ok(None);
    }
    let Some(selected) = bus.fetch(Dev::A0, 126, 2)? else {
        return Ok(None);
    };
    let Some(shown) = bus.fetch(Dev::A0, 128, 1)? else {
        return Ok(None);
    };
    Ok(Some([selected[0], selected[1], shown[0]]))
}

// The number of the first row that isn't so.
fn first_wrong(alloc: Global, image: &Image, rows: &[Row]) -> Result<Option<usize>, Fail> {
    let window = Window::<16>::of(image)?;
    let mut bus = ScriptBus::new(alloc, window, Script::read(b"")?, 64)?;
    for (number, (offset, bytes, shown)) in rows.iter().enumerate() {
        if shown_after(&mut bus, *offset, bytes)? != *shown {
            return Ok(Some(number));
        }
    }
    Ok(None)
}

#[test]
fn selects_a_bank_and_a_page(rt: HostRuntime) -> Result<(), Fail> {
    let rows: &[Row] = &[
        (126, &[0x00, 0x11], Some([0x00, 0x11, 0xb1])),
        (126, &[0x00, 0x03], Some([0x00, 0x00, 0xa0])),
        (127, &[0x10], Some([0x00, 0x10, 0xb0])),
        (126, &[0x01], Some([0x00, 0x10, 0xb0])),
        (127, &[0x10], Some([0x00, 0x00, 0xa0])),
        // the waiting bank is 0 again
        (127, &[0x10], Some([0x00, 0x10, 0xb0])),
        // stores elsewhere select nothing
        (124, &[0x00, 0x00, 0x00], Some([0x00, 0x10, 0xb0])),
        (254, &[0x01, 0x01], Some([0x00, 0x10, 0xb0])),
    ];
    assert_eq!(rt;
        first_wrong(rt.alloc(), &image(&paths())?.view(), rows)?,
        None
    );

    // a page of another bank, which stays the waiting one
    let mut two_banks = image(&paths())?;
    two_banks.put(Key::upper(Dev::A0, 1, 0x10), Page::from([0xc0; 128]))?;
    let rows: &[Row] = &[
        (126, &[0x01, 0x10], Some([0x01, 0x10, 0xc0])),
        (127, &[0x10], Some([0x01, 0x10, 0xc0])),
        (127, &[0x11], Some([0x00, 0x00, 0xa0])),
    ];
    assert_eq!(rt; first_wrong(rt.alloc(), &two_banks.view(), rows)?, None);
    Ok(())
}

#[test]
fn an_sff_8636_module_selects_a_page_alone(rt: HostRuntime) -> Result<(), Fail> {
    let module = image(&[
        (Key::lower(Dev::A0), 0x11),
        (Key::upper(Dev::A0, 0, 0x00), 0xa0),
        (Key::upper(Dev::A0, 0, 0x03), 0xa3),
        (Key::upper(Dev::A0, 1, 0x03), 0xc3),
    ])?;
    let rows: &[Row] = &[
        (126, &[0x01, 0x03], Some([0x00, 0x03, 0xa3])),
        (126, &[0x01], Some([0x00, 0x03, 0xa3])),
        (127, &[0x02], Some([0x00, 0x00, 0xa0])),
    ];
    assert_eq!(rt; first_wrong(rt.alloc(), &module.view(), rows)?, None);
    Ok(())
}

#[test]
fn device_a0_of_an_sfp_selects_nothing(rt: HostRuntime) -> Result<(), Fail> {
    let module = image(&[
        (Key::lower(Dev::A0), 0x03),
        (Key::upper(Dev::A0, 0, 0x00), 0xa0),
        (Key::upper(Dev::A0, 0, 0x02), 0xa2),
    ])?;
    let rows: &[Row] = &[(126, &[0x00, 0x02], Some([0x00, 0x00, 0xa0]))];
    assert_eq!(rt; first_wrong(rt.alloc(), &module.view(), rows)?, None);
    Ok(())
}

#[test]
fn device_a2_selects_nothing_without_device_a0(rt: HostRuntime) -> Result<(), Fail> {
    let diagnostics = image(&[
        (Key::lower(Dev::A2), 0x00),
        (Key::upper(Dev::A2, 0, 0x00), 0xe0),
        (Key::upper(Dev::A2, 0, 0x02), 0xe2),
    ])?;
    let mut window = Window::<3>::of(&diagnostics.view())?;
    assert_eq!(rt; window.store(Dev::A2, 127, &[0x02]), true);
    let shown = window.fetch(Dev::A2, 128, 1);
    assert_eq!(rt; shown, ArrayVec::try_from([0xe0].as_slice()).ok());
    Ok(())
}

// An identifier that is neither one's.
#[test]
fn an_unknown_module_selects_a_bank_and_a_page(rt: HostRuntime) -> Result<(), Fail> {
    let module = image(&[
        (Key::lower(Dev::A0), 0x0b),
        (Key::upper(Dev::A0, 0, 0x00), 0xa0),
        (Key::upper(Dev::A0, 1, 0x02), 0xc2),
    ])?;
    let rows: &[Row] = &[(126, &[0x01, 0x02], Some([0x01, 0x02, 0xc2]))];
    assert_eq!(rt; first_wrong(rt.alloc(), &module.view(), rows)?, None);
    Ok(())
}

#[test]
fn without_a_lower_half_nothing_is_taken(rt: HostRuntime) -> Result<(), Fail> {
    let module = image(&[(Key::upper(Dev::A0, 0, 0x00), 0xa0)])?;
    let rows: &[Row] = &[(127, &[0x00], None)];
    assert_eq!(rt; first_wrong(rt.alloc(), &module.view(), rows)?, None);
    Ok(())
}

// What is stored on device A2 selects nothing on A0.
#[test]
fn each_device_selects_for_itself(rt: HostRuntime) -> Result<(), Fail> {
    let mut both = image(&paths())?;
    both.put(Key::lower(Dev::A2), Page::from([0xe0; 128]))?;
    both.put(Key::upper(Dev::A2, 0, 0x00), Page::from([0xe1; 128]))?;
    let mut window = Window::<16>::of(&both.view())?;
    assert!(rt; window.store(Dev::A2, 126, &[0x00, 0x11]));
    let selected = window.fetch(Dev::A0, 126, 2);
    assert_eq!(rt; selected, ArrayVec::try_from([0x00, 0x00].as_slice()).ok());
    let shown = window.fetch(Dev::A0, 128, 1);
    assert_eq!(rt; shown, ArrayVec::try_from([0xa0].as_slice()).ok());
    Ok(())
}

// Page 91h is not page 11h.
#[test]
fn a_page_has_eight_bits(rt: HostRuntime) -> Result<(), Fail> {
    let mut high = image(&paths())?;
    high.put(Key::upper(Dev::A0, 0, 0x91), Page::from([0x19; 128]))?;
    let rows: &[Row] = &[
        (126, &[0x00, 0x91], Some([0x00, 0x91, 0x19])),
        (126, &[0x00, 0x11], Some([0x00, 0x11, 0xb1])),
        (127, &[0x90], Some([0x00, 0x00, 0xa0])),
    ];
    assert_eq!(rt; first_wrong(rt.alloc(), &high.view(), rows)?, None);
    Ok(())
}

#[test]
fn a_byte_is_of_its_device(rt: HostRuntime) -> Result<(), Fail> {
    let both = image(&[
        (Key::lower(Dev::A0), 0x03),
        (Key::upper(Dev::A0, 0, 0x02), 0xa2),
        (Key::lower(Dev::A2), 0xe0),
        (Key::upper(Dev::A2, 0, 0x02), 0xe2),
    ])?;
    for (device, page, offset, byte) in [
        (Dev::A0, 0x02, 0, Some(0x03)),
        (Dev::A0, 0x02, 128, Some(0xa2)),
        (Dev::A2, 0x02, 0, Some(0xe0)),
        (Dev::A2, 0x02, 128, Some(0xe2)),
        (Dev::A2, 0x00, 127, Some(0x00)),
        (Dev::A2, 0x00, 128, None),
    ] {
        assert_eq!(rt;
            both.view().byte(device, page, offset),
            byte,
            "{page} {offset}"
        );
    }
    Ok(())
}

#[test]
fn has_room_for_so_many_pages(rt: HostRuntime) -> Result<(), Fail> {
    let image = image(&paths())?;
    assert_eq!(rt; Window::<6>::of(&image.view()).err(), None);
    assert_eq!(rt;
        Window::<4>::of(&image.view()).err(),
        Some(WindowFault::MorePages)
    );
    Ok(())
}

fn fetch(offset: u8, count: u8) -> Op {
    Op::Fetch {
        dev: Dev::A0,
        offset,
        count,
    }
}

fn store(offset: u8, bytes: &[u8]) -> Op {
    Op::Store {
        dev: Dev::A0,
        offset,
        bytes: ArrayVec::try_from(bytes).unwrap_or_default(),
    }
}

// A broken shape is reported whether or not the list of steps has room.
#[test]
fn refuses_a_broken_shape_before_a_full_list(rt: HostRuntime) -> Result<(), Fail> {
    let window = Window::<16>::of(&image(&paths())?.view())?;
    let mut bus = ScriptBus::new(rt.alloc(), window, Script::read(b"")?, 1)?;
    for has_room in [true, false] {
        for op in [
            fetch(0, 0),
            fetch(0, 129),
            fetch(120, 10),
            fetch(250, 7),
            store(3, &[]),
            store(125, &[1; 4]),
        ] {
            assert_eq!(rt; bus.transact(op).err(), Some(BusFault::BadShape));
        }
        assert_eq!(rt; bus.transact(fetch(0, 128)).is_ok(), has_room);
    }
    let full = bus.transact(store(255, &[1]));
    assert_eq!(rt; full.err(), Some(BusFault::TraceFull));
    Ok(())
}

// A list may be longer than two procedures need.
#[test]
fn a_list_has_the_room_that_is_asked_for(rt: HostRuntime) -> Result<(), Fail> {
    let image = image(&paths())?;
    for room in [8193, 10000] {
        let window = Window::<16>::of(&image.view())?;
        let mut bus = ScriptBus::new(rt.alloc(), window, Script::read(b"")?, room)?;
        for _ in 0..room {
            assert!(rt; bus.transact(fetch(0, 1)).is_ok());
        }
        assert_eq!(rt; bus.steps().len(), room);
        assert_eq!(rt; bus.transact(fetch(0, 1)).err(), Some(BusFault::TraceFull));
    }
    Ok(())
}

// A procedure for every bus, over a bus with a window.
#[test]
fn stands_behind_a_bus(rt: HostRuntime) -> Result<(), Fail> {
    let script = Script::read(b"cut 1\nok 1\nnack 1\n")?;
    let window = Window::<16>::of(&image(&paths())?.view())?;
    let mut bus = ScriptBus::new(rt.alloc(), window, script, 6)?;
    let first_page = ArrayVec::try_from([0x00, 0x00].as_slice()).ok();
    let status_page = ArrayVec::try_from([0x00, 0x11].as_slice()).ok();
    assert_eq!(rt; select(&mut bus, 0x11)?, first_page, "the store is cut");
    assert_eq!(rt; select(&mut bus, 0x11)?, first_page, "the store is refused");
    assert_eq!(rt; select_on_window(&mut bus, 0x11)?, status_page);
    assert_eq!(rt; select(&mut bus, 0x11).err(), Some(BusFault::TraceFull));
    Ok(())
}
