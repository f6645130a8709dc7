// Readings of statistics, driven by hand over a module that freezes them, behind a bus that refuses what a test wants refused.
use bus_model::{Bus, Dev, Op, Reply, Script, ScriptBus, Step};
use conversations::{Conversation, Next, try_take};
use observables::advertised_pages;
use paged_memory::{Key, LARGE, LargeImage, Window};
use sample_modules::with;
use simulated_statistics::FreezingModule;
use std::alloc::Global;
use std::test::Fail;
use vdm_reading::{Release, Statistics, VdmEnd, VdmReading, VdmRequest};

type ModuleBus = ScriptBus<FreezingModule>;

const OF_FIRST_BANK: VdmRequest = VdmRequest { pause: 10, bank: 0 };

const FIRST_TWO: [u8; 7] = [0x20, 0x21, 0x28, 0x29, 0x24, 0x25, 0x2C];

// With two groups of statistics, byte 142 of page 01h as given, and without one page, if it is one of those below.
fn image(advert: u8, lacking: u8) -> Result<LargeImage, Fail> {
    let mut image = with(LargeImage::new(), Key::lower(Dev::A0), &[(0, 0x18)])?;
    image = with(image, Key::upper(Dev::A0, 0, 0x01), &[(142, advert)])?;
    if lacking != 0x2F {
        image = with(
            image,
            Key::upper(Dev::A0, 0, 0x2F),
            &[(128, 0x01), (144, 0x55)],
        )?;
    }
    for page in FIRST_TWO {
        if page != lacking {
            image = with(image, Key::upper(Dev::A0, 0, page), &[(200, page)])?;
        }
    }
    Ok(image)
}

// The module of an image, whose requests are done with the transaction that is so many behind them.
fn bus(alloc: Global, image: LargeImage, delay: u16, script: &[u8]) -> Result<ModuleBus, Fail> {
    let module = FreezingModule::of(image, delay);
    Ok(ScriptBus::new(alloc, module, Script::read(script)?, 1000)?)
}

// That of all pages, which shows a request as undone three times.
fn hindered_bus(alloc: Global, script: &[u8]) -> Result<ModuleBus, Fail> {
    bus(alloc, image(0x40, 0)?, 4, script)
}

// How a reading ended, and for how many milliseconds it waited.
fn carry_out<B: Bus>(reading: &mut VdmReading, bus: &mut B) -> (Option<VdmEnd>, u32) {
    let mut waited: u32 = 0;
    for _ in 0..2000u32 {
        match reading.next() {
            Next::Do(op) => {
                let Ok(reply) = bus.transact(op) else {
                    return (None, waited);
                };
                let _fits = try_take(reading, &reply);
            }
            Next::Wait(time) => {
                waited = waited.wrapping_add(time);
                reading.waited();
            }
            Next::End(end) => return (Some(end), waited),
        }
    }
    (None, waited)
}

fn is_ended(
    end: &Option<VdmEnd>,
    statistics: Statistics,
    release: Release,
    missing: &[u16],
) -> bool {
    match end {
        Some(end) => {
            end.statistics == statistics
                && end.release == release
                && end.missing.as_slice() == missing
        }
        None => false,
    }
}

// Byte 200 of a page that was read.
fn shown(reading: &VdmReading, page: u8) -> Option<u8> {
    reading.image.view().byte(Dev::A0, page, 200)
}

// Byte 144 of page 2Fh as it was stored last.
fn control(bus: &ModuleBus) -> Option<u8> {
    bus.device().request.map(|request| request.control)
}

// What was stored there by a step that was taken.
fn requested(step: &Step) -> Option<u8> {
    match (&step.op, &step.reply) {
        (
            Op::Store {
                offset: 144,
                bytes,
                ..
            },
            Reply::Done,
        ) => bytes.first().copied(),
        _ => None,
    }
}

// How many halves were read between a request to freeze and the next one.
fn halves_read_while_frozen(bus: &ModuleBus) -> u8 {
    let mut halves: u8 = 0;
    let mut frozen = false;
    for step in bus.steps() {
        match (requested(step), &step.op) {
            (Some(control), _) => frozen = control == 0xD5,
            (None, Op::Fetch { count: 128, .. }) if frozen => halves = halves.wrapping_add(1),
            _ => {}
        }
    }
    halves
}

#[test]
fn all_is_read_while_it_is_frozen(rt: HostRuntime) -> Result<(), Fail> {
    let mut bus = hindered_bus(rt.alloc(), b"")?;
    let mut reading = VdmReading::begin(OF_FIRST_BANK);
    let (end, waited) = carry_out(&mut reading, &mut bus);
    assert!(rt; is_ended(&end, Statistics::Frozen, Release::Released, &[]));
    assert_eq!(rt; waited, 60);
    assert_eq!(rt; control(&bus), Some(0x55));
    assert_eq!(rt; bus.steps().len(), 39);
    assert_eq!(rt; halves_read_while_frozen(&bus), 7);
    assert!(rt; advertised_pages(&reading.image.view(), 0) == FIRST_TWO.as_slice());
    for page in FIRST_TWO {
        assert_eq!(rt; shown(&reading, page), Some(page));
    }
    assert!(rt; !reading.image.view().has(Key::upper(Dev::A0, 0, 0x22)));
    Ok(())
}

// Its half is refused, its selection, or page 00h shown in its place.
#[test]
fn a_refused_page_is_lost_alone(rt: HostRuntime) -> Result<(), Fail> {
    for way in 0..3u8 {
        let mut bus = match way {
            0 => hindered_bus(rt.alloc(), b"ok 19\nnack 1\nok 2\nnack 1\nok 2\nnack 1\n")?,
            1 => hindered_bus(rt.alloc(), b"ok 17\nnack 3\n")?,
            _ => bus(rt.alloc(), image(0x40, 0x28)?, 4, b"")?,
        };
        let mut reading = VdmReading::begin(OF_FIRST_BANK);
        let (end, _waited) = carry_out(&mut reading, &mut bus);
        assert!(rt; is_ended(&end, Statistics::Frozen, Release::Released, &[0x28]));
        assert_eq!(rt; shown(&reading, 0x28), None);
        assert_eq!(rt; shown(&reading, 0x29), Some(0x29));
        assert_eq!(rt; control(&bus), Some(0x55));
    }
    Ok(())
}

#[test]
fn what_is_not_frozen_is_read_as_such(rt: HostRuntime) -> Result<(), Fail> {
    let mut slow = bus(rt.alloc(), image(0x40, 0)?, 200, b"")?;
    let mut reading = VdmReading::begin(OF_FIRST_BANK);
    let (end, _waited) = carry_out(&mut reading, &mut slow);
    assert!(rt; is_ended(&end, Statistics::Pending, Release::Accepted, &[]));
    assert_eq!(rt; control(&slow), Some(0x55));

    // Requests to freeze are refused, though taken.
    let script = b"ok 6\ncut 1\nok 2\ncut 1\nok 2\ncut 1\n";
    let mut refusing = hindered_bus(rt.alloc(), script)?;
    let mut other = VdmReading::begin(OF_FIRST_BANK);
    let (end, _waited) = carry_out(&mut other, &mut refusing);
    assert!(rt; is_ended(&end, Statistics::Refused, Release::Released, &[]));
    assert_eq!(rt; control(&refusing), Some(0x55));
    Ok(())
}

// The bus refuses the request that ends it.
#[test]
fn a_freeze_that_is_left_on_is_named(rt: HostRuntime) -> Result<(), Fail> {
    let script = b"ok 34\nnack 1\nok 2\nnack 1\nok 2\nnack 1\n";
    let mut bus = hindered_bus(rt.alloc(), script)?;
    let mut reading = VdmReading::begin(OF_FIRST_BANK);
    let (end, _waited) = carry_out(&mut reading, &mut bus);
    assert!(rt; is_ended(&end, Statistics::Frozen, Release::MayBeFrozen, &[]));
    assert_eq!(rt; control(&bus), Some(0xD5));
    Ok(())
}

#[test]
fn a_module_without_statistics_stores_nothing(rt: HostRuntime) -> Result<(), Fail> {
    let mut none = bus(rt.alloc(), image(0xBF, 0)?, 4, b"")?;
    let mut reading = VdmReading::begin(OF_FIRST_BANK);
    let (end, _waited) = carry_out(&mut reading, &mut none);
    assert!(rt; is_ended(&end, Statistics::Unsupported, Release::NotNeeded, &[]));
    assert_eq!(rt; control(&none), None);
    assert_eq!(rt; none.steps().len(), 3);

    let mut unread = bus(rt.alloc(), image(0x40, 0x2F)?, 4, b"")?;
    let mut other = VdmReading::begin(OF_FIRST_BANK);
    let (end, _waited) = carry_out(&mut other, &mut unread);
    assert!(rt; is_ended(&end, Statistics::Unknown, Release::NotNeeded, &[]));
    assert_eq!(rt; control(&unread), None);
    Ok(())
}

fn refusing(alloc: Global, answers: u32, refuses: u32) -> Result<ModuleBus, Fail> {
    let script = if answers > 0 {
        format!(in alloc; "ok {answers}\nnack {refuses}\n")?
    } else {
        format!(in alloc; "nack {refuses}\n")?
    };
    hindered_bus(alloc, script.as_bytes())
}

// The image of a module whose requests are always done, with one group of statistics in bank 1 and two in bank 0.
fn image_of_two_banks() -> Result<LargeImage, Fail> {
    let mut image = with(
        image(0x41, 0)?,
        Key::upper(Dev::A0, 1, 0x2F),
        &[(144, 0x55), (145, 0xC0)],
    )?;
    for page in [0x20, 0x28, 0x24, 0x2C] {
        image = with(image, Key::upper(Dev::A0, 1, page), &[(200, page + 0x40)])?;
    }
    Ok(image)
}

// Byte 200 of a page of this number that was read.
fn shown_at(reading: &VdmReading, number: u16) -> Option<u8> {
    match reading.image.view().page(Key::of_page(number)) {
        Some(half) => Some(half.bytes()[72]),
        None => None,
    }
}

// Its own pages, and its own request; what is refused of it is named by its number.
#[test]
fn a_further_bank_is_read_by_itself(rt: HostRuntime) -> Result<(), Fail> {
    let request = VdmRequest { pause: 10, bank: 1 };
    for (script, missing) in [
        (b"".as_slice(), [].as_slice()),
        (b"ok 10\nnack 3\n".as_slice(), [0x120].as_slice()),
    ] {
        let window = Window::<LARGE>::of(&image_of_two_banks()?.view())?;
        let mut bus = ScriptBus::new(rt.alloc(), window, Script::read(script)?, 1000)?;
        let mut reading = VdmReading::begin(request);
        let (end, _waited) = carry_out(&mut reading, &mut bus);
        assert!(rt; is_ended(&end, Statistics::Frozen, Release::Released, missing));
        assert_eq!(rt;
            reading.pages.as_slice(),
            [0x120, 0x128, 0x124, 0x12C].as_slice()
        );
        for number in [0x128, 0x124, 0x12C] {
            assert_eq!(rt; shown_at(&reading, number), Some((number - 0xC0) as u8));
        }
        assert_eq!(rt; shown_at(&reading, 0x120).is_some(), missing.is_empty());
        assert_eq!(rt; shown_at(&reading, 0x20), None);
    }
    Ok(())
}

// Whatever is refused in one go, wherever: no other bit changes, and a freeze that is left on is named.
#[test]
fn refusals_anywhere_leave_no_freeze_unnamed(rt: HostRuntime) -> Result<(), Fail> {
    for answers in 0..48u32 {
        for refuses in [1, 2, 3, 12, 999u32] {
            let mut bus = refusing(rt.alloc(), answers, refuses)?;
            let mut reading = VdmReading::begin(VdmRequest { pause: 1, bank: 0 });
            let (end, _waited) = carry_out(&mut reading, &mut bus);
            let ended = end.is_some();
            assert!(rt; ended);
            let stored = control(&bus).unwrap_or(0x55);
            assert_eq!(rt; stored % 128, 0x55);
            assert!(rt; bus.steps().len() <= 759);
            let named = reading.release.may_be_frozen();
            assert!(rt; named || stored < 128);
            if refuses < 3 {
                assert!(rt; is_ended(&end, Statistics::Frozen, Release::Released, &[]));
            }
        }
    }
    Ok(())
}
