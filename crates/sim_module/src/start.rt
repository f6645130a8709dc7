//! A module at the start.
ghost use Rattle.std.specs.Prelude.{◌≡◌, ◌≤◌, ◌+◌, map};
ghost use Rattle.std.specs.List.{range_with_len};
ghost use Rattle.sim_module.specs.Lanes.{all_lanes};
ghost use Rattle.sim_module.specs.OwnAdverts.{own_advert};
ghost use Rattle.field_tables.specs.Registers.{first_byte};
ghost use Rattle.sim_module.specs.Registers.{lane_flag_bytes};
ghost use Rattle.sim_module.specs.Record.{module_of};
ghost use Rattle.sim_module.specs.Starts as spec;

use crate::SimModule;
use crate::delays::Delays;
use crate::down::asks_low_power;
use crate::fault::SimFault;
use crate::fixed::Fixed;
use crate::lane::Lane;
use crate::moving::{LANE_FLAGS, Moving};
use crate::own_adverts::own_advert;
use crate::registers::{control_page, status_page};
use applications::LaneSet;
use bus_model::Dev;
use control_sets::{ControlFault, ControlSet, paths_of};
use datapath_states::{ConfigStatus, PathState};
use field_tables::{LaneNumber, Register, register};
use module_states::ModuleState;
use paged_memory::{Image, Key, LargeImage, MappedPage};
use std::array;

impl SimModule {
    ghost use Rattle.std.specs.Prelude.{◌≡◌, MatchOption};
    ghost use Rattle.sim_module.specs.Starts as spec;

    /// The module of an image, with the delays of its work. Nothing of it has moved yet.
    #[tactic(auto, unfolding(crate::specs::Starts::start))]
    pub fn new(image: LargeImage, delays: Delays) -> Result<SimModule, SimFault>
        ensures { MatchOption (spec.start_fault image delays) (result ≡ Ok (spec.start image delays)) (λ fault. result ≡ Err fault) }
    {
        let view = image.view();
        if let Some(key) = absent_half(&view) {
            return Err(SimFault::Absent(key));
        }
        let advert = match own_advert(&view) {
            Ok(advert) => advert,
            Err(fault) => return Err(SimFault::Advert(fault)),
        };
        if !delays.are_allowed() {
            return Err(SimFault::BadDelay);
        }
        if let Err(ControlFault::NotPaths(lane)) = paths_of(active_at_start(&view)) {
            return Err(SimFault::ActiveNotPaths(lane));
        }
        let moving = moving_at_start(&view, delays);
        Ok(SimModule {
            fixed: Fixed { image, advert },
            moving,
            rests: false,
        })
    }
}

// Of the halves that a module needs, the first that an image lacks.
fn absent_half(image: &Image) -> Option<Key>
    ensures { result ≡ spec.absent_half image.now }
{
    let needed = [
        Key::lower(Dev::A0),
        Key::upper(Dev::A0, 0, 0x00),
        Key::upper(Dev::A0, 0, 0x01),
        Key::upper(Dev::A0, 0, control_page()),
        Key::upper(Dev::A0, 0, status_page()),
    ];
    needed.iter().copied().find(|key| !image.has(*key))
}

// A byte of a register in an image, by its place from the first one.
fn byte_of_register(image: &Image, of: Register, index: u8) -> u8
    requires { first_byte of + index ≤ 255 }
    ensures { result ≡ spec.byte_of_register image.now of index }
{
    let span = register(of);
    image
        .byte(Dev::A0, span.page, span.first + index)
        .unwrap_or(0)
}

fn active_at_start(image: &Image) -> ControlSet
    ensures { result ≡ spec.active_at_start image.now }
{
    array::from_fn(|index| byte_of_register(image, Register::ActiveControl, index as u8))
}

fn lane_flags(image: &Image) -> [u8; LANE_FLAGS]
    ensures { result ≡ map (spec.byte_of_register image.now Register.LaneFlags) (range_with_len 0 lane_flag_bytes) }
{
    let mut flags = [0; LANE_FLAGS];
    for (index, flag) in flags.iter_mut().enumerate() {
        *flag = byte_of_register(image, Register::LaneFlags, index as u8);
    }
    flags
}

fn start_lane(image: &Image, lane: LaneNumber) -> Lane
    ensures { result ≡ spec.start_lane image.now lane }
{
    Lane {
        path: PathState::Deactivated,
        ticks_left: 0,
        status: ConfigStatus::Undefined,
        staged: byte_of_register(image, Register::StagedControl, lane.number() - 1),
        active: byte_of_register(image, Register::ActiveControl, lane.number() - 1),
        applying: None,
    }
}

fn start_lanes(image: &Image) -> [Lane; 8]
    ensures { result ≡ map (spec.start_lane image.now) all_lanes }
{
    let mut lanes = [start_lane(image, LaneNumber::at(0)); 8];
    for (index, lane) in lanes.iter_mut().enumerate() {
        *lane = start_lane(image, LaneNumber::at(index as u8));
    }
    lanes
}

fn start_state(control: u8) -> ModuleState
    ensures { result ≡ spec.start_state control }
{
    if asks_low_power(control, false) {
        ModuleState::LowPwr
    } else {
        ModuleState::Ready
    }
}

#[tactic(auto, unfolding(crate::specs::Starts::start))]
fn moving_at_start(image: &Image, delays: Delays) -> Moving
    ensures { module_of (record { image = image.now; advert = own_advert image.now }) result ≡ spec.start image.now delays }
{
    let control = byte_of_register(image, Register::GlobalControls, 0);
    Moving {
        delays,
        selection: MappedPage::first_page(),
        pin: false,
        control,
        state: start_state(control),
        ticks_left: 0,
        lanes: start_lanes(image),
        deinit: LaneSet::from(byte_of_register(image, Register::DPDeinit, 0)),
        apply_left: 0,
        module_flags: byte_of_register(image, Register::ModuleFlags, 0),
        lane_flags: lane_flags(image),
    }
}
