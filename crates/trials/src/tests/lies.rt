// Provisioning over a device that lies.
ghost use Rattle.std.specs.Prelude.{◌<◌};

use super::modules::{PAIRS, image};
use super::plans::{FOUR_PAIRS, bus_of, plan_of, provisioned};
use applications::Advert;
use bus_model::{Op, Reply, Step};
use control_sets::{ProvisionFault, Provisioned};
use sample_modules::LyingDevice;
use std::test::Fail;

fn address_of(step: &Step) -> u8 {
    match &step.op {
        Op::Fetch { offset, .. } => *offset,
        Op::Store { offset, .. } => *offset,
    }
}

// Whether a step is a fetch from this address that gave these bytes.
fn gave(step: &Step, address: u8, wanted: &[u8]) -> bool {
    match (&step.op, &step.reply) {
        (Op::Fetch { offset, .. }, Reply::Bytes(bytes)) => {
            *offset == address && bytes.as_slice() == wanted
        }
        _ => false,
    }
}

// Whether the last step gave the control bytes as active, and before it page 11h was read back, with no selection since.
fn read_active(steps: &[Step]) -> bool {
    let Some((last, before)) = steps.split_last() else {
        return false;
    };
    let selected = before.iter().rev().find(|step| address_of(step) == 126);
    gave(last, 206, &PAIRS) && selected.is_some_and(|step| gave(step, 126, &[0x00, 0x11]))
}

// A number for each answer.
fn kind(answer: &Option<Result<Provisioned, ProvisionFault>>) -> usize
    ensures { result < 8 }
{
    match answer {
        Some(Ok(_)) => 0,
        Some(Err(ProvisionFault::Rejected(..))) => 1,
        Some(Err(ProvisionFault::StagedDiffers(_))) => 2,
        Some(Err(ProvisionFault::ActiveDiffers(_))) => 3,
        Some(Err(ProvisionFault::GaveUp)) => 4,
        Some(Err(ProvisionFault::ModuleState(_))) => 5,
        Some(Err(ProvisionFault::Reserved(_))) => 6,
        Some(Err(ProvisionFault::Bus(_))) | None => 7,
    }
}

// Each answer but a full list comes, and a success was read.
#[test]
fn a_success_was_read_whatever_the_device_tells(rt: HostRuntime) -> Result<(), Fail> {
    let advert = Advert::of(&image()?.view())?;
    let plan = plan_of(&FOUR_PAIRS)?;
    let mut answers = [0u32; 8];
    for seed in 1..10001u32 {
        let device = LyingDevice {
            number: seed,
            refusals: if seed % 100 == 0 {
                16
            } else {
                (seed % 13) as u8
            },
            lies: (seed / 13 % 8) as u8,
        };
        let mut bus = bus_of(rt.alloc(), device, b"", 5000)?;
        let (steps, answer) = provisioned(&mut bus, &advert, &plan);
        assert!(rt; steps <= 4096, "{seed}");
        let kind = kind(&answer);
        if kind == 0 {
            assert!(rt; read_active(bus.steps()), "{seed}");
        }
        answers[kind] = answers[kind].saturating_add(1);
    }
    assert!(rt; answers[0] >= 2000, "{answers:?}");
    for (kind, count) in answers.iter().enumerate() {
        assert_eq!(rt; *count > 0, kind != 7, "{answers:?}");
    }
    Ok(())
}
