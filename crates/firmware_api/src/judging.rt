// What a change to a plan does to the lanes, as C is told.
ghost use Rattle.std.specs.Prelude.{◌≡◌, ◌≢◌, IfOk};
ghost use Rattle.port_manager.specs.Changes.{judged};
ghost use Rattle.firmware_api.specs.Changes as spec;
ghost use Rattle.firmware_api.specs.Halves.{memory_of};
ghost use Rattle.firmware_api.specs.Statuses.{done, status_by};

use crate::half::{HalfBytes, half_status, image_of};
use crate::read_module::number_of;
use crate::status::{DONE, advert_status};
use applications::AdvertFault;
use control_sets::ControlSet;
use field_tables::LaneSet;
use port_manager::{Change, Effect, Goal, Hindrance, Permission, judge};

/// A change to a plan. Of its numbers that say yes or no, each but 0 says yes.
#[repr(C)]
#[derive(Clone, Copy)]
pub struct PlanChange {
    /// The control bytes of the plan, the host lanes of its paths, and those that no kept path takes.
    pub control: ControlSet,
    pub lanes: u8,
    pub outside: u8,
    /// A path of the plan that is active, and not down, stays as it is, even if it isn't kept.
    pub spares: u8,
    /// The lanes of the plan are to come up.
    pub activates: u8,
    /// A module in low power is to be woken up first.
    pub wakes: u8,
    /// The host lanes that may be taken down although they aren't down.
    pub may_take_down: u8,
    /// The host lanes that may come up although nobody wants them up.
    pub may_bring_up: u8,
    /// The plan may have no path.
    pub may_have_no_path: u8,
}

/// What a change does, and what stands against it.
#[repr(C)]
#[derive(Clone, Copy)]
pub struct ChangeEffect {
    pub taken: u8,
    pub goes_down: u8,
    pub comes_up: u8,
    pub stays: u8,
    pub is_active: u8,
    pub is_done: u8,
    /// 0 if nothing stands against it, else the number of what does.
    pub hindrance: u8,
    /// The lanes on which that is, or 0.
    pub lanes: u8,
    /// The state that the module is in, if that stands against it, else 0.
    pub state: u8,
}

impl PlanChange {
    /// The same for the manager.
    fn change(&self) -> Change
        ensures { result ≡ spec.change_in self.now }
    {
        Change {
            goal: Goal {
                control: self.control,
                lanes: LaneSet::from(self.lanes),
                outside: LaneSet::from(self.outside),
            },
            spares: self.spares != 0,
            activates: self.activates != 0,
            wakes: self.wakes != 0,
            may: Permission {
                take_down: LaneSet::from(self.may_take_down),
                bring_up: LaneSet::from(self.may_bring_up),
                no_path: self.may_have_no_path != 0,
            },
        }
    }
}

/// Puts into `effect` what a change of the module whose memory has these halves does, and the first of what stands against it.
#[unsafe(no_mangle)]
pub extern "C" fn dovecounter_judge(
    halves: &[HalfBytes],
    change: &PlanChange,
    effect: &mut ChangeEffect,
) -> u32
    ensures status { result ≡ status_by (spec.judge_refusal halves.now change.now) }
    ensures done { result ≡ done → IfOk (judged (memory_of halves.now) (spec.change_in change.now)) (λ judged. effect.new ≡ spec.effect_of judged) }
    ensures refused { result ≢ done → effect.new ≡ effect.old }
{
    let status = half_status(halves);
    if status != DONE {
        return status;
    }
    match judge(&image_of(halves).view(), &change.change()) {
        Ok(judged) => {
            *effect = effect_of(&judged);
            DONE
        }
        Err(half) => advert_status(AdvertFault::Absent(half)),
    }
}

fn effect_of(judged: &Effect) -> ChangeEffect
    ensures { result ≡ spec.effect_of judged.now }
{
    let (hindrance, lanes, state) = hindrance_of(judged.against);
    ChangeEffect {
        taken: judged.taken.byte(),
        goes_down: judged.goes_down.byte(),
        comes_up: judged.comes_up.byte(),
        stays: judged.stays.byte(),
        is_active: number_of(judged.is_active),
        is_done: number_of(judged.is_done),
        hindrance,
        lanes,
        state,
    }
}

// Its number, its lanes and the module's state.
fn hindrance_of(against: Option<Hindrance>) -> (u8, u8, u8)
    ensures { result ≡ spec.hindrance_of against }
{
    match against {
        Some(hindrance) => numbers_of(hindrance),
        None => (0, 0, 0),
    }
}

fn numbers_of(hindrance: Hindrance) -> (u8, u8, u8)
    ensures { result ≡ spec.numbers_of hindrance }
{
    match hindrance {
        Hindrance::OtherBytes(lanes) => (1, lanes.byte(), 0),
        Hindrance::State(state) => (2, 0, state),
        Hindrance::ComesUp(lanes) => (3, lanes.byte(), 0),
        Hindrance::NoPath => (4, 0, 0),
        Hindrance::GoesDown(lanes) => (5, lanes.byte(), 0),
    }
}
