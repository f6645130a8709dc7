//! What a module measures, as one list.
ghost use Rattle.std.specs.Prelude.{◌≡◌, ◌≤◌, ◌<◌, IfSome};
ghost use Rattle.observables.specs.Monitors.{MonitorFits};
ghost use Rattle.observables.specs.Observations as spec;

use crate::amount::Amount;
use crate::banks::{bank_count, lanes_of_bank};
use crate::instance::{Instance, instance_at};
use crate::monitor::Monitor;
use crate::monitored::{amount_at, flags_in_lane, is_advertised, is_present, limit_amounts};
use crate::observable::{Figure, Observable, Side, observable_of};
use crate::pages::{has_observables, is_cmis};
use crate::quantity::{Quantity, Scope, Unit, quantity_row};
use crate::tables::{cmis_monitor, qsfp_monitor, sfp_monitor};
use field_tables::{PerLimit, field, number, row};
use paged_memory::{Family, Image};

/// How many places of the list are of monitors, sixteen of 32 lanes. Those of four banks of instances follow.
pub const MONITOR_PLACES: u16 = 512;

/// How many of them each monitor has, one for each lane of four banks.
pub const LANES: u16 = 32;

// How many places the list has.
const PLACES: u16 = MONITOR_PLACES + 4 * 256;

/// Where something is measured. Lanes and data paths are counted from 1, a data path by its first lane.
#[derive(Clone, Copy, Debug, PartialEq, Eq)]
pub enum Subject {
    Module,
    HostLane(u8),
    MediaLane(u8),
    DataPath(u8),
}

/// What a module measures at one place, with its limits and flags.
#[derive(Clone, Copy, Debug, PartialEq, Eq)]
pub struct Observation {
    pub observable: Observable,
    pub subject: Subject,
    pub unit: Unit,
    /// None if its half is absent, or if no amount can be computed.
    pub amount: Option<Amount>,
    pub limits: PerLimit<Option<Amount>>,
    /// Which limits were passed since the flags were last read.
    pub flags: Option<PerLimit<bool>>,
    /// Whether the module advertises it, or each module of the standard has it.
    pub advertised: bool,
}

/// The observation at a place of the list.
#[tactic(auto, unfolding(crate::specs::Observations::observation_at))]
pub fn observation_at(image: &Image, place: u16) -> Option<Observation>
    ensures { result ≡ spec.observation_at image.now place }
{
    if place < MONITOR_PLACES {
        return monitored(image, (place / LANES) as u8, (place % LANES) as u8 + 1);
    }
    if place < PLACES {
        let instance = place - MONITOR_PLACES;
        return observed(image, (instance / 256) as u8, (instance % 256) as u8);
    }
    None
}

// What a monitor of the module's family measures in a lane.
fn monitored(image: &Image, monitor: u8, lane: u8) -> Option<Observation>
    requires first { 1 ≤ lane }
    requires last { lane ≤ 32 }
    ensures { result ≡ spec.monitored image.now monitor lane }
{
    let monitor = monitor_of(image, monitor)?;
    measured(image, monitor, lane)
}

pub(crate) fn monitor_of(image: &Image, monitor: u8) -> Option<Monitor>
    ensures row { result ≡ spec.monitor_of image.now monitor }
    ensures fits { IfSome result MonitorFits }
{
    match Family::managing(number(image, field!(Cmis Identifier)))? {
        Family::Cmis => cmis_monitor(image, monitor),
        Family::Sff8636 => qsfp_monitor(monitor),
        Family::Sff8472 => sfp_monitor(monitor),
    }
}

// What is measured in a lane: one above 8 is of a further bank, if the module has that.
pub(crate) fn measured(image: &Image, monitor: Monitor, lane: u8) -> Option<Observation>
    requires fits { MonitorFits monitor }
    requires first { 1 ≤ lane }
    requires last { lane ≤ 32 }
    ensures { result ≡ spec.measured image.now monitor lane }
{
    if lane <= 8 {
        return measured_in_bank(image, monitor, 0, lane);
    }
    let bank = (lane - 1) / 8;
    if bank >= bank_count(image) {
        return None;
    }
    let lanes = lanes_of_bank(image, bank);
    measured_in_bank(&lanes.view(), monitor, bank, (lane - 1) % 8 + 1)
}

// What is measured in a lane of a bank, if the monitor has that lane and its half is there.
fn measured_in_bank(image: &Image, monitor: Monitor, bank: u8, lane: u8) -> Option<Observation>
    requires fits { MonitorFits monitor }
    requires bank { bank < 4 }
    requires first { 1 ≤ lane }
    ensures { result ≡ spec.measured_in_bank image.now monitor bank lane }
{
    let count = row(monitor.values).count;
    if count < lane || !is_present(image, monitor.values) {
        return None;
    }
    Some(Observation {
        observable: Observable {
            quantity: monitor.quantity,
            figure: Figure::Now,
            side: Side::Media,
        },
        subject: subject_of(monitor.scope, Side::Media, 8 * bank + lane),
        unit: quantity_row(monitor.quantity).unit,
        amount: amount_at(image, monitor, monitor.values, lane),
        limits: limit_amounts(image, monitor),
        flags: flags_in_lane(image, monitor.bounds, lane, count),
        advertised: is_advertised(image, monitor.advert),
    })
}

// What an instance of a CMIS module observes, if it is used and its type is decoded.
fn observed(image: &Image, bank: u8, instance: u8) -> Option<Observation>
    requires { bank < 4 }
    ensures { result ≡ spec.observed image.now bank instance }
{
    if !is_cmis(image) {
        return None;
    }
    decoded(image, bank, instance)
}

fn decoded(image: &Image, bank: u8, number: u8) -> Option<Observation>
    requires { bank < 4 }
    ensures { result ≡ spec.decoded image.now bank number }
{
    let instance = instance_at(image, bank, number)?;
    let observable = observable_of(instance.descriptor.kind)?;
    Some(with_instance(image, bank, instance, observable))
}

fn with_instance(image: &Image, bank: u8, instance: Instance, observable: Observable) -> Observation
    requires bank { bank < 4 }
    requires lane { instance.descriptor.lane ≤ 16 }
    ensures { result ≡ spec.with_instance image.now bank instance observable }
{
    let row = quantity_row(observable.quantity);
    let lane = 8 * bank + instance.descriptor.lane;
    Observation {
        observable,
        subject: subject_of(row.scope, observable.side, lane),
        unit: row.unit,
        amount: sample_amount(observable.quantity, instance.sample),
        limits: limits_of_words(observable.quantity, instance.limits),
        flags: instance.flags,
        advertised: has_observables(image),
    }
}

fn subject_of(scope: Scope, side: Side, lane: u8) -> Subject
    ensures { result ≡ spec.subject_of scope side lane }
{
    match scope {
        Scope::Module => Subject::Module,
        Scope::DataPath => Subject::DataPath(lane),
        Scope::Lane => match side {
            Side::Media => Subject::MediaLane(lane),
            Side::Host => Subject::HostLane(lane),
        },
    }
}

fn sample_amount(quantity: Quantity, sample: Option<u16>) -> Option<Amount>
    ensures { result ≡ spec.sample_amount quantity sample }
{
    let word = sample?;
    if quantity == Quantity::LevelTransition && word == 0xFFFF {
        return None;
    }
    Some(Amount::of(quantity, word))
}

fn limits_of_words(quantity: Quantity, limits: Option<PerLimit<u16>>) -> PerLimit<Option<Amount>>
    ensures { result ≡ spec.limits_of_words quantity limits }
{
    match limits {
        None => PerLimit {
            high_alarm: None,
            low_alarm: None,
            high_warning: None,
            low_warning: None,
        },
        Some(words) => PerLimit {
            high_alarm: Some(Amount::of(quantity, words.high_alarm)),
            low_alarm: Some(Amount::of(quantity, words.low_alarm)),
            high_warning: Some(Amount::of(quantity, words.high_warning)),
            low_warning: Some(Amount::of(quantity, words.low_warning)),
        },
    }
}
