// Modules that the tests share, and what is done to them.
use arrayvec::ArrayVec;
use bus_model::{Dev, Device, MAX_FETCH, Op};
use paged_memory::{Key, LargeImage};
use sample_modules::{QSFP_DD, with_run};
use sim_module::{Delays, SimModule};
use std::test::Fail;

pub const FOURS: Delays = Delays {
    apply: 4,
    init: 4,
    turn_on: 4,
    turn_off: 4,
    deinit: 4,
    power_up: 4,
    power_down: 4,
};

// Four pairs of lanes, each in a path of Application 2.
pub const PAIRS: [u8; 8] = [0x20, 0x20, 0x24, 0x24, 0x28, 0x28, 0x2C, 0x2C];

// A module of two Applications: 1 on all eight lanes, 2 on pairs of lanes.
pub fn image() -> Result<LargeImage, Fail> {
    Ok(LargeImage::read(QSFP_DD.as_bytes())?)
}

pub fn upper(bank: u8, page: u8) -> Key {
    Key::upper(Dev::A0, bank, page)
}

pub fn module() -> Result<SimModule, Fail> {
    Ok(SimModule::new(image()?, FOURS)?)
}

// The image with other active bytes.
pub fn image_of(active: [u8; 8]) -> Result<LargeImage, Fail> {
    Ok(with_run(image()?, upper(0, 0x11), 206, &active)?)
}

// A module whose lanes are active in these paths at the start.
pub fn module_of(active: [u8; 8], delays: Delays) -> Result<SimModule, Fail> {
    Ok(SimModule::new(image_of(active)?, delays)?)
}

// What a fetch on device A0 answers; a refusal as zeros.
pub fn read<const N: usize>(module: &mut SimModule, address: u8) -> [u8; N] {
    let mut bytes = [0; N];
    let op = Op::Fetch {
        dev: Dev::A0,
        offset: address,
        count: u8::try_from(N).unwrap_or(0),
    };
    if let Some(answer) = fetched(module, &op) {
        for (byte, told) in bytes.iter_mut().zip(answer.as_slice()) {
            *byte = *told;
        }
    }
    bytes
}

fn fetched(module: &mut SimModule, op: &Op) -> Option<ArrayVec<u8, MAX_FETCH>> {
    match op {
        Op::Fetch { dev, offset, count } if op.is_well_shaped() => {
            module.fetch(*dev, *offset, *count)
        }
        _ => None,
    }
}

// Stores bytes on device A0; whether they were taken.
pub fn write(module: &mut SimModule, address: u8, bytes: &[u8]) -> bool {
    let Ok(given) = ArrayVec::try_from(bytes) else {
        return false;
    };
    let op = Op::Store {
        dev: Dev::A0,
        offset: address,
        bytes: given,
    };
    op.is_well_shaped() && module.store(Dev::A0, address, bytes)
}

// What is done to a module, and what it tells then: so many ticks pass, the bytes are stored at the address, if there are any,
// and as many bytes as are wanted are fetched from there.
pub type Row<'a> = (u16, u8, &'a [u8], &'a [u8]);

// The number of the first row that isn't so, if its store isn't taken or another answer comes.
pub fn first_wrong(module: &mut SimModule, rows: &[Row]) -> Option<usize> {
    for (number, (ticks, address, given, wanted)) in rows.iter().enumerate() {
        pass(module, *ticks);
        let is_taken = given.is_empty() || write(module, *address, given);
        if !is_taken || !tells(module, *address, wanted) {
            return Some(number);
        }
    }
    None
}

fn tells(module: &mut SimModule, address: u8, wanted: &[u8]) -> bool {
    let op = Op::Fetch {
        dev: Dev::A0,
        offset: address,
        count: u8::try_from(wanted.len()).unwrap_or(0),
    };
    match fetched(module, &op) {
        Some(answer) => answer.as_slice() == wanted,
        None => wanted.is_empty(),
    }
}

// Selects a page of bank 0.
pub fn select(module: &mut SimModule, page: u8) {
    write(module, 126, &[0, page]);
}

pub fn pass(module: &mut SimModule, ticks: u16) {
    for _ in 0..ticks {
        module.tick();
    }
}
