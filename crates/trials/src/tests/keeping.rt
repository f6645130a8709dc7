// Kept data paths: while the others of a plan are provisioned, whatever the bus refuses, their lanes stay up.
use super::modules::{FOURS, PAIRS, image, image_of, module_of, pass, upper};
use super::plans::{FOUR_PAIRS, bus_of, plan_of};
use applications::{Advert, AppWeights, Weights};
use control_sets::{ProvisionFault, Provisioned, provision_keeping};
use datapath_states::PathState;
use lane_planner::{certificate_text, plan_keeping};
use plan_certificate::{Plan, kept_fault};
use sample_modules::with_run;
use sim_module::{Delays, SimModule};
use std::alloc::{AllocError, Global};
use std::test::Fail;

// What is told and seen if paths are kept: the answer, and then the path states and the active bytes.
#[derive(Drop)]
struct Kept {
    answer: Option<Result<Provisioned, ProvisionFault>>,
    states: [PathState; 8],
    active: [u8; 8],
}

// Provisions, under a script, the heaviest plan that keeps the paths: the four pairs of lanes.
fn provisioned_keeping(
    alloc: Global,
    module: SimModule,
    script: &[u8],
    kept: &Plan,
) -> Result<Kept, Fail> {
    let advert = Advert::of(&image()?.view())?;
    let listed = Weights::read(alloc, b"[host]\n0Dh = 101\n11h = 400\n")?;
    let weights = AppWeights::of(&advert, &listed);
    let mut bus = bus_of(alloc, module, script, 5000)?;
    let answer = match kept_fault(&advert, kept) {
        Some(_) => None,
        None => {
            let plan = plan_keeping(&advert, &weights, kept).plan;
            Some(provision_keeping(&mut bus, &advert, &plan, kept))
        }
    };
    Ok(Kept {
        answer,
        states: bus.device().path_states(),
        active: bus.device().active(),
    })
}

#[test]
fn kept_lanes_come_up_while_others_are_provisioned(rt: HostRuntime) -> Result<(), Fail> {
    let module = module_of([0x20, 0x20, 0x24, 0x24, 0, 0, 0, 0], FOURS)?;
    let kept = plan_of(&[[2, 1, 1], [2, 3, 2]])?;
    let ended = provisioned_keeping(rt.alloc(), module, b"tick 20\n", &kept)?;
    assert_eq!(rt; ended.answer, Some(Ok(Provisioned { steps: 17 })));
    assert_eq!(rt; ended.active, PAIRS);
    assert_eq!(rt;
        ended.states.split_at(4).0,
        [PathState::Activated; 4].as_slice()
    );
    Ok(())
}

// Numbers that follow one another by a rule.
#[derive(Drop)]
struct Numbers {
    last: u32,
}

impl Numbers {
    // A number below 2^16.
    fn next(&mut self) -> u32 {
        self.last = self
            .last
            .wrapping_mul(1_664_525)
            .wrapping_add(1_013_904_223);
        self.last / 65536
    }

    fn is_even(&mut self) -> bool {
        self.next() % 2 == 0
    }

    fn delay(&mut self) -> u16 {
        (self.next() % 7 + 1) as u16
    }

    // Refusals and passing time, in lines of a script.
    fn script(&mut self, alloc: Global) -> Result<Vec<u8>, AllocError> {
        let mut script = Vec::new(alloc);
        for _ in 0..12 {
            let line: &[u8] = match self.next() % 10 {
                0 => b"ok 1\n",
                1 => b"ok 3\n",
                2 => b"nack 1\n",
                3 => b"nack 4\n",
                4 => b"cut 0\n",
                5 => b"cut 1\n",
                6 => b"cut 2\n",
                7 => b"cut 6\n",
                8 => b"tick 2\n",
                _ => b"tick 9\n",
            };
            script.extend_from_slice(line)?;
        }
        Ok(script)
    }
}

// A module with some of the four pairs up, and with any bytes staged.
fn module_with(numbers: &mut Numbers, active: [u8; 8]) -> Result<SimModule, Fail> {
    let mut staged = [0; 8];
    for byte in staged.iter_mut() {
        *byte = (numbers.next() % 256) as u8;
    }
    let image = with_run(image_of(active)?, upper(0, 0x10), 145, &staged)?;
    let delays = Delays {
        apply: numbers.delay(),
        init: numbers.delay(),
        turn_on: numbers.delay(),
        turn_off: numbers.delay(),
        deinit: numbers.delay(),
        power_up: numbers.delay(),
        power_down: numbers.delay(),
    };
    let mut module = SimModule::new(image, delays)?;
    pass(&mut module, 40);
    Ok(module)
}

// Which of the four pairs are kept, which lanes these are, and the active bytes: theirs, and those of some other pairs.
#[derive(Drop)]
struct Drawn {
    kept: Plan,
    is_kept: [bool; 8],
    active: [u8; 8],
}

fn draw(numbers: &mut Numbers) -> Result<Drawn, Fail> {
    let mut drawn = Drawn {
        kept: plan_of(&[])?,
        is_kept: [false; 8],
        active: [0; 8],
    };
    let pairs = plan_of(&FOUR_PAIRS)?;
    for (pair, path) in pairs.paths.iter().enumerate().take(4) {
        let (is_kept, is_active) = (numbers.is_even(), numbers.is_even());
        for lane in [2 * pair, 2 * pair + 1] {
            drawn.is_kept[lane] = is_kept;
            if is_kept || is_active {
                drawn.active[lane] = PAIRS[lane];
            }
        }
        if is_kept {
            drawn
                .kept
                .paths
                .try_push(*path)
                .ok()
                .ok_or("too many paths")?;
        }
    }
    Ok(drawn)
}

#[test]
fn kept_lanes_stay_up_whatever_is_refused(rt: HostRuntime) -> Result<(), Fail> {
    let mut successes = 0u32;
    for seed in 1..2001 {
        let mut numbers = Numbers { last: seed };
        let drawn = draw(&mut numbers)?;
        let module = module_with(&mut numbers, drawn.active)?;
        let script = numbers.script(rt.alloc())?;
        let ended = provisioned_keeping(rt.alloc(), module, &script, &drawn.kept)?;
        for lane in 0..8 {
            if drawn.is_kept[lane] {
                assert_eq!(rt; ended.states[lane], PathState::Activated, "{seed}");
                assert_eq!(rt; ended.active[lane], PAIRS[lane], "{seed}");
            }
        }
        if matches!(ended.answer, Some(Ok(_))) {
            assert_eq!(rt; ended.active, PAIRS, "{seed}");
            successes = successes.saturating_add(1);
        }
    }
    assert_eq!(rt; successes, 2000);
    Ok(())
}

// Whether the certificate of a plan has the text that is made without it.
fn has_its_text(alloc: Global, kept: &Plan) -> Result<bool, Fail> {
    let advert = Advert::of(&image()?.view())?;
    let listed = Weights::read(alloc, b"[host]\n0Dh = 101\n11h = 400\n")?;
    let weights = AppWeights::of(&advert, &listed);
    if kept_fault(&advert, kept).is_some() {
        return Ok(false);
    }
    let written = plan_keeping(&advert, &weights, kept).write(alloc)?;
    let text = certificate_text(alloc, &advert, &weights, kept)?;
    Ok(written.as_slice() == text.as_slice())
}

#[test]
fn a_certificate_has_the_text_that_is_made_without_it(rt: HostRuntime) -> Result<(), Fail> {
    assert!(rt; has_its_text(rt.alloc(), &plan_of(&[])?)?);
    assert!(rt; has_its_text(rt.alloc(), &plan_of(&[[2, 1, 1], [2, 3, 2]])?)?);
    Ok(())
}
