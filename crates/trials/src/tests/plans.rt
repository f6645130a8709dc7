// Plans that the tests share, and the procedures on a bus with any device.
use applications::Advert;
use arrayvec::ArrayVec;
use bus_model::{Device, Script, ScriptBus};
use control_sets::{Activated, ProvisionFault, Provisioned, activate, provision};
use plan_certificate::{Path, Plan, admissible};
use std::alloc::Global;
use std::test::Fail;

// Each path is an Application with its first host lane and its first media lane.
pub const FOUR_PAIRS: [[u8; 3]; 4] = [[2, 1, 1], [2, 3, 2], [2, 5, 3], [2, 7, 4]];

pub fn plan_of(paths: &[[u8; 3]]) -> Result<Plan, Fail> {
    let mut plan = Plan {
        paths: ArrayVec::new(),
    };
    for path in paths {
        let [app, host, media] = *path;
        let path = Path { app, host, media };
        plan.paths.try_push(path).ok().ok_or("too many paths")?;
    }
    Ok(plan)
}

pub fn bus_of<D: Device + Drop>(
    alloc: Global,
    device: D,
    script: &[u8],
    room: usize,
) -> Result<ScriptBus<D>, Fail> {
    Ok(ScriptBus::new(alloc, device, Script::read(script)?, room)?)
}

// The steps of provisioning, and its answer; none if this is no plan for the module.
pub fn provisioned<D: Device + Drop>(
    bus: &mut ScriptBus<D>,
    advert: &Advert,
    plan: &Plan,
) -> (usize, Option<Result<Provisioned, ProvisionFault>>) {
    let answer = if admissible(advert, plan) {
        Some(provision(bus, advert, plan))
    } else {
        None
    };
    (bus.steps().len(), answer)
}

// The same for activation.
pub fn activated<D: Device + Drop>(
    bus: &mut ScriptBus<D>,
    advert: &Advert,
    plan: &Plan,
) -> (usize, Option<Result<Activated, ProvisionFault>>) {
    let answer = if admissible(advert, plan) {
        Some(activate(bus, advert, plan))
    } else {
        None
    };
    (bus.steps().len(), answer)
}
