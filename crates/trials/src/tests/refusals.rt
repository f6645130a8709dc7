// Two transactions of provisioning refused: whichever they are, the plan is active in the end.
use super::modules::{FOURS, PAIRS, image};
use super::plans::{FOUR_PAIRS, bus_of, plan_of, provisioned};
use applications::Advert;
use paged_memory::LargeImage;
use plan_certificate::Plan;
use sim_module::SimModule;
use std::alloc::{AllocError, Global};
use std::test::Fail;

// The script that refuses two transactions.
fn refusing(alloc: Global, first: u8, second: u8, refusal: &[u8]) -> Result<Vec<u8>, AllocError> {
    let mut script = Vec::new(alloc);
    for transaction in 1..=second {
        let is_refused = transaction == first || transaction == second;
        let line: &[u8] = if is_refused { refusal } else { b"ok 1\n" };
        script.extend_from_slice(line)?;
    }
    Ok(script)
}

// How many steps are made under a script, if the plan is active in the end.
fn steps_under(
    alloc: Global,
    image: &LargeImage,
    plan: &Plan,
    script: &[u8],
) -> Result<Option<usize>, Fail> {
    let mut bus = bus_of(alloc, SimModule::new(image.copy(), FOURS)?, script, 100)?;
    let (steps, answer) = provisioned(&mut bus, &Advert::of(&image.view())?, plan);
    let is_success = matches!(answer, Some(Ok(_)));
    Ok((is_success && bus.device().active() == PAIRS).then_some(steps))
}

// The most steps if two transactions are refused so, whichever they are.
fn most_steps(alloc: Global, refusal: &[u8]) -> Result<Option<usize>, Fail> {
    let image = image()?;
    let plan = plan_of(&FOUR_PAIRS)?;
    let mut most = 0;
    for first in 1..18u8 {
        for second in first + 1..20 {
            let script = refusing(alloc, first, second, refusal)?;
            match steps_under(alloc, &image, &plan, &script)? {
                Some(steps) => most = most.max(steps),
                None => return Ok(None),
            }
        }
    }
    Ok(Some(most))
}

// One refusal costs two steps at most, if a selection did not reach the module; so two cost four. The second may be of any
// transaction that comes after the first, of which there are 19 in all at most.
#[test]
fn two_refusals_are_made_good(rt: HostRuntime) -> Result<(), Fail> {
    assert_eq!(rt; most_steps(rt.alloc(), b"nack 1\n")?, Some(21));
    assert_eq!(rt; most_steps(rt.alloc(), b"cut 2\n")?, Some(19));
    Ok(())
}
