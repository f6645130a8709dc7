ghost use Rattle.std.specs.Prelude.{◌≡◌, ◌≢◌, map};
ghost use Rattle.std.specs.List.{range_with_len};
ghost use Rattle.std.specs.Option.{option_or};
ghost use Rattle.firmware_api.specs.Halves.{memory_of};
ghost use Rattle.firmware_api.specs.ObservableNumbers as spec;
ghost use Rattle.firmware_api.specs.ObservableNumbers.{IsNext, byte_at, flag_numbers, known_numbers, limit_numbers, observable_in, observables_refusal, written_name};
ghost use Rattle.firmware_api.specs.SimulatedModules.{half_refusal};
ghost use Rattle.firmware_api.specs.Statuses.{done, status_by};

use crate::flags::LevelFlags;
use crate::half::{HalfBytes, half_status, image_of};
use crate::read_module::number_of;
use crate::status::{DONE, module_status};
use field_tables::PerLimit;
use module_decoding::detail_family_of;
use observables::{
    Amount, Observation, Side, Subject, figure_name, figure_number, lane_of, next_observation,
    quantity_name, quantity_number, scope_name, side_number, unit_name, unit_number,
};
use paged_memory::Image;

/// An amount exactly: `mantissa` times a power of ten, shared by `divisor`. What is not known is 0.
#[repr(C)]
#[derive(Clone, Copy)]
pub struct AmountNumbers {
    pub mantissa: i64,
    pub divisor: u16,
    pub exponent: i8,
    pub is_known: u8,
}

/// The limits of what is measured.
#[repr(C)]
#[derive(Clone, Copy)]
pub struct LimitNumbers {
    pub high_alarm: AmountNumbers,
    pub low_alarm: AmountNumbers,
    pub high_warning: AmountNumbers,
    pub low_warning: AmountNumbers,
}

/// What a module measures at one place, with its limits and flags.
#[repr(C)]
#[derive(Clone, Copy)]
pub struct ObservableNumbers {
    pub amount: AmountNumbers,
    pub limits: LimitNumbers,
    pub quantity: u8,
    pub figure: u8,
    pub side: u8,
    pub scope: u8,
    /// 0 for the module.
    pub lane: u8,
    pub unit: u8,
    pub advertised: u8,
    pub has_flags: u8,
    pub flags: LevelFlags,
    pub quantity_name: [u8; 28],
    pub figure_name: [u8; 28],
    pub scope_name: [u8; 28],
    pub unit_name: [u8; 28],
}

/// Puts into `observable` what the module whose memory has these halves measures at the first place of the list from `place` on, and
/// into `place` the place after it; or 0 into `place` if there is nothing more.
#[unsafe(no_mangle)]
pub extern "C" fn dovecounter_observables(
    halves: &[HalfBytes],
    place: &mut u16,
    observable: &mut ObservableNumbers,
) -> u32
    ensures status { result ≡ status_by (option_or (half_refusal halves.now) (observables_refusal (memory_of halves.now))) }
    ensures done { result ≡ done → IsNext (memory_of halves.now) place.old place.new observable.old observable.new }
    ensures refused { result ≢ done → (place.new ≡ place.old) × (observable.new ≡ observable.old) }
{
    let status = half_status(halves);
    if status != DONE {
        return status;
    }
    put_decoded(&image_of(halves).view(), place, observable)
}

#[tactic(auto, unfolding(crate::specs::ObservableNumbers::observables_refusal))]
fn put_decoded(image: &Image, place: &mut u16, observable: &mut ObservableNumbers) -> u32
    ensures status { result ≡ status_by (observables_refusal image.now) }
    ensures done { result ≡ done → IsNext image.now place.old place.new observable.old observable.new }
    ensures refused { result ≢ done → (place.new ≡ place.old) × (observable.new ≡ observable.old) }
{
    match detail_family_of(image) {
        Err(fault) => module_status(fault),
        Ok(_family) => {
            put_next(image, place, observable);
            DONE
        }
    }
}

#[tactic(auto, using(crate::proofs::NextObservables::filled, crate::proofs::NextObservables::last))]
fn put_next(image: &Image, place: &mut u16, observable: &mut ObservableNumbers)
    ensures { IsNext image.now place.old place.new observable.old observable.new }
{
    match next_observation(image, *place) {
        None => *place = 0,
        Some((found, seen)) => {
            put_observation(seen, observable);
            *place = found + 1;
        }
    }
}

fn put_observation(seen: Observation, observable: &mut ObservableNumbers)
    ensures { observable.new ≡ observable_in seen }
{
    let what = seen.observable;
    observable.amount = known_numbers(seen.amount);
    observable.limits = limit_numbers(seen.limits);
    observable.quantity = quantity_number(what.quantity);
    observable.figure = figure_number(what.figure);
    observable.side = side_number(what.side);
    observable.scope = scope_number(seen.subject, what.side);
    observable.lane = lane_of(seen.subject).unwrap_or(0);
    observable.unit = unit_number(seen.unit);
    observable.advertised = number_of(seen.advertised);
    observable.has_flags = number_of(seen.flags.is_some());
    observable.flags = flag_numbers(seen.flags);
    put_name(quantity_name(what.quantity), &mut observable.quantity_name);
    put_name(figure_name(what.figure), &mut observable.figure_name);
    put_name(
        scope_name(seen.subject, what.side),
        &mut observable.scope_name,
    );
    put_name(unit_name(seen.unit), &mut observable.unit_name);
}

fn known_numbers(amount: Option<Amount>) -> AmountNumbers
    ensures { result ≡ known_numbers amount }
{
    match amount {
        None => AmountNumbers {
            mantissa: 0,
            divisor: 0,
            exponent: 0,
            is_known: 0,
        },
        Some(amount) => AmountNumbers {
            mantissa: amount.mantissa,
            divisor: amount.divisor,
            exponent: amount.exponent,
            is_known: 1,
        },
    }
}

fn limit_numbers(limits: PerLimit<Option<Amount>>) -> LimitNumbers
    ensures { result ≡ limit_numbers limits }
{
    LimitNumbers {
        high_alarm: known_numbers(limits.high_alarm),
        low_alarm: known_numbers(limits.low_alarm),
        high_warning: known_numbers(limits.high_warning),
        low_warning: known_numbers(limits.low_warning),
    }
}

// Flags that are not known are 0.
fn flag_numbers(flags: Option<PerLimit<bool>>) -> LevelFlags
    ensures { result ≡ flag_numbers flags }
{
    match flags {
        None => LevelFlags {
            high_alarm: 0,
            low_alarm: 0,
            high_warning: 0,
            low_warning: 0,
        },
        Some(flags) => LevelFlags {
            high_alarm: number_of(flags.high_alarm),
            low_alarm: number_of(flags.low_alarm),
            high_warning: number_of(flags.high_warning),
            low_warning: number_of(flags.low_warning),
        },
    }
}

// The number by which C knows of what something is measured.
fn scope_number(subject: Subject, side: Side) -> u8
    ensures { result ≡ spec.scope_number subject side }
{
    match subject {
        Subject::Module => 1,
        Subject::HostLane(_) => 2,
        Subject::MediaLane(_) => 3,
        Subject::DataPath(_) => match side {
            Side::Host => 4,
            Side::Media => 5,
        },
    }
}

// Puts a name into letters, and NUL after the last one.
#[tactic(auto, unfolding(crate::specs::ObservableNumbers::written_name))]
fn put_name(name: &str, letters: &mut [u8; 28])
    ensures { letters.new ≡ written_name name.now }
{
    put_bytes(name.as_bytes(), letters);
}

fn put_bytes(bytes: &[u8], letters: &mut [u8; 28])
    ensures { letters.new ≡ map (byte_at bytes.now) (range_with_len 0 28) }
{
    for (place, letter) in letters.iter_mut().enumerate() {
        *letter = byte_at(bytes, place);
    }
}

fn byte_at(bytes: &[u8], place: usize) -> u8
    ensures { result ≡ byte_at bytes.now place }
{
    bytes.get(place).copied().unwrap_or(0)
}
