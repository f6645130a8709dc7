ghost use Rattle.std.specs.Prelude.{◌≡◌, ◌≢◌, IfOk, Ok, Some, map, length, option_map};
ghost use Rattle.sim_module.specs.declared.fixed.Fixed.{Fixed};
ghost use Rattle.sim_module.specs.declared.module.SimModule.{SimModule};
ghost use Rattle.sim_module.specs.Lanes.{active_bytes};
ghost use Rattle.sim_module.specs.Record.{moving_of};
ghost use Rattle.sim_module.specs.SavedModules.{restored};
ghost use Rattle.sim_module.specs.Ticks.{pinned, ticked};
ghost use Rattle.firmware_api.specs.Halves.{device_of};
ghost use Rattle.firmware_api.specs.SimulatedModules as spec;
ghost use Rattle.firmware_api.specs.Statuses.{by_status, done, status_by, status_in};

use crate::half::{HalfBytes, large_image_of, simulated_status};
use crate::status::{DONE, NO_MODULE, NO_RANGE, NOT_TAKEN, advert_status, start_status};
use bus_model::{Dev, Device, MAX_STORE};
use control_sets::ControlSet;
use sim_module::{Delays, Moving, SavedModule, SimModule, own_advert};

/// Puts into `simulated` what changes of the module that has these halves and delays, as it is at the start.
#[unsafe(no_mangle)]
pub extern "C" fn dovecounter_module_begin(
    halves: &[HalfBytes],
    delays: &Delays,
    simulated: &mut SavedModule,
) -> u32
    ensures status { result ≡ status_in (spec.begun halves.now delays.now) }
    ensures done { IfOk (spec.begun halves.now delays.now) (λ sim. restored simulated.new ≡ Some (moving_of sim)) }
    ensures numbers { result ≡ done → spec.AreSaved simulated.new }
    ensures refused { result ≢ done → simulated.new ≡ simulated.old }
{
    let status = simulated_status(halves);
    if status != DONE {
        return status;
    }
    match SimModule::new(large_image_of(halves), *delays) {
        Ok(begun) => {
            *simulated = begun.save();
            DONE
        }
        Err(fault) => start_status(fault),
    }
}

/// Fetches as many bytes as `bytes` has room for.
#[unsafe(no_mangle)]
pub extern "C" fn dovecounter_module_fetch(
    halves: &[HalfBytes],
    simulated: &mut SavedModule,
    device: u8,
    offset: u8,
    bytes: &mut [u8],
) -> u32
    ensures status { result ≡ status_in (spec.fetched_by (spec.held halves.now simulated.old) device offset (length bytes.old)) }
    ensures done { IfOk (spec.fetched_by (spec.held halves.now simulated.old) device offset (length bytes.old))
        (λ answer. (bytes.new ≡ answer.0) × (restored simulated.new ≡ Some (moving_of answer.1))) }
    ensures numbers { result ≡ done → spec.AreSaved simulated.new }
    ensures refused { result ≢ done → (simulated.new ≡ simulated.old) × (bytes.new ≡ bytes.old) }
{
    let mut held = match held(halves, simulated) {
        Ok(held) => held,
        Err(status) => return status,
    };
    if !is_range(device, offset, bytes.len()) {
        return NO_RANGE;
    }
    match held.fetch(dev_of(device), offset, bytes.len() as u8) {
        Some(fetched) => {
            bytes.copy_from_slice(&fetched);
            *simulated = held.save();
            DONE
        }
        None => NOT_TAKEN,
    }
}

/// Stores bytes.
#[unsafe(no_mangle)]
pub extern "C" fn dovecounter_module_store(
    halves: &[HalfBytes],
    simulated: &mut SavedModule,
    device: u8,
    offset: u8,
    bytes: &[u8],
) -> u32
    ensures status { result ≡ status_in (spec.stored_by (spec.held halves.now simulated.old) device offset bytes.now) }
    ensures done { IfOk (spec.stored_by (spec.held halves.now simulated.old) device offset bytes.now)
        (λ sim. restored simulated.new ≡ Some (moving_of sim)) }
    ensures numbers { result ≡ done → spec.AreSaved simulated.new }
    ensures refused { result ≢ done → simulated.new ≡ simulated.old }
{
    let mut held = match held(halves, simulated) {
        Ok(held) => held,
        Err(status) => return status,
    };
    if bytes.len() > MAX_STORE || !is_range(device, offset, bytes.len()) {
        return NO_RANGE;
    }
    if !held.store(dev_of(device), offset, bytes) {
        return NOT_TAKEN;
    }
    *simulated = held.save();
    DONE
}

/// Lets one tick pass, whichever halves the module has.
#[unsafe(no_mangle)]
pub extern "C" fn dovecounter_module_tick(simulated: &mut SavedModule) -> u32
    ensures status { result ≡ status_by (spec.refusal_in (restored simulated.old)) }
    ensures done { (fixed : Fixed) → spec.module_in fixed simulated.new ≡ option_map ticked (spec.module_in fixed simulated.old) }
    ensures numbers { result ≡ done → spec.AreSaved simulated.new }
    ensures refused { result ≢ done → simulated.new ≡ simulated.old }
{
    match Moving::restore(simulated) {
        Some(mut moving) => {
            moving.tick();
            *simulated = moving.save();
            DONE
        }
        None => NO_MODULE,
    }
}

/// The host holds the low power pin, or leaves it if `on` is 0.
#[unsafe(no_mangle)]
pub extern "C" fn dovecounter_module_pin(simulated: &mut SavedModule, on: u8) -> u32
    ensures status { result ≡ status_by (spec.refusal_in (restored simulated.old)) }
    ensures done { (fixed : Fixed) → spec.module_in fixed simulated.new
        ≡ option_map (λ (sim : SimModule). pinned sim (spec.is_on on)) (spec.module_in fixed simulated.old) }
    ensures numbers { result ≡ done → spec.AreSaved simulated.new }
    ensures refused { result ≢ done → simulated.new ≡ simulated.old }
{
    match Moving::restore(simulated) {
        Some(mut moving) => {
            moving.low_power_pin(on != 0);
            *simulated = moving.save();
            DONE
        }
        None => NO_MODULE,
    }
}

/// Puts into `active` the control bytes of the Active Control Set, lane 1 first.
#[unsafe(no_mangle)]
pub extern "C" fn dovecounter_module_active(simulated: &SavedModule, active: &mut ControlSet) -> u32
    ensures status { result ≡ status_by (spec.refusal_in (restored simulated.now)) }
    ensures done { (fixed : Fixed) (sim : SimModule) → spec.module_in fixed simulated.now ≡ Some sim → active.new ≡ active_bytes sim }
    ensures refused { result ≢ done → active.new ≡ active.old }
{
    match Moving::restore(simulated) {
        Some(moving) => {
            *active = moving.active();
            DONE
        }
        None => NO_MODULE,
    }
}

// The module that has these halves and these numbers, or the status of its refusal.
fn held(halves: &[HalfBytes], saved: &SavedModule) -> Result<SimModule, u32>
    ensures { result ≡ by_status (spec.held halves.now saved.now) }
{
    let status = simulated_status(halves);
    if status != DONE {
        return Err(status);
    }
    let image = large_image_of(halves);
    match own_advert(&image.view()) {
        Ok(advert) => match SimModule::restore(image, advert, saved) {
            Some(held) => Ok(held),
            None => Err(NO_MODULE),
        },
        Err(fault) => Err(advert_status(fault)),
    }
}

// Whether there is such a device, and so many bytes, at least one, lie in one half.
fn is_range(device: u8, offset: u8, count: usize) -> bool
    ensures { result ≡ spec.is_range device offset count }
{
    let offset = usize::from(offset);
    (device == 0xA0 || device == 0xA2)
        && 0 < count
        && count <= 128
        && (offset + count <= 128 || 128 <= offset && offset + count <= 256)
}

fn dev_of(device: u8) -> Dev
    ensures { result ≡ device_of device }
{
    if device == 0xA2 { Dev::A2 } else { Dev::A0 }
}
