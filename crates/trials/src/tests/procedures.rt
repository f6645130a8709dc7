// A procedure that is driven by hand.
use super::modules::{PAIRS, image, upper};
use super::plans::bus_of;
use applications::LaneSet;
use arrayvec::ArrayVec;
use bus_model::{Bus, BusFault, Device, Reply, ScriptBus};
use control_sets::{
    PatientFault, PatientProcedure, Procedure, ProvisionFault, TaskList, Work, answer_in_time,
    answer_of,
};
use conversations::{Conversation, Next, Patience, try_take};
use paged_memory::Window;
use sample_modules::{with, with_run};
use std::test::Fail;

fn provisioning(lanes: LaneSet) -> Procedure {
    TaskList::of(Work::Provisioning {
        control: PAIRS,
        lanes,
    })
}

// The answer, if each reply of the bus was one that the procedure takes.
fn driven<D: Device + Drop>(
    mut procedure: Procedure,
    bus: &mut ScriptBus<D>,
) -> Result<Option<Result<u16, ProvisionFault>>, BusFault> {
    for _ in 0..5000u16 {
        match procedure.next() {
            Next::Do(op) => {
                let reply = bus.transact(op)?;
                if !try_take(&mut procedure, &reply) {
                    return Ok(None);
                }
            }
            Next::Wait(_time) => return Ok(None),
            Next::End(spent) => return Ok(Some(answer_of(spent))),
        }
    }
    Ok(None)
}

// Lanes 1 to 4 are in no apply: their data paths are up, and no status is theirs. Their DPDeinit bits are stored as 0.
#[test]
fn other_lanes_are_not_looked_at(rt: HostRuntime) -> Result<(), Fail> {
    let staged = with_run(image()?, upper(0, 0x10), 145, &PAIRS)?;
    let active = with_run(staged, upper(0, 0x11), 206, &PAIRS)?;
    let half_up = [(128, 0x44), (129, 0x44), (204, 0x11), (205, 0x11)];
    let image = with(active, upper(0, 0x11), &half_up)?;
    for lanes in [0xF0, 0x00] {
        let mut bus = bus_of(rt.alloc(), Window::<16>::of(&image.view())?, b"", 5000)?;
        let told = driven(provisioning(LaneSet::from(lanes)), &mut bus)?;
        assert_eq!(rt; told, Some(Ok(16)), "{lanes}");
    }
    Ok(())
}

fn patient(lanes: LaneSet) -> PatientProcedure {
    let work = Work::Provisioning {
        control: PAIRS,
        lanes,
    };
    let patience = Patience {
        pause: 100,
        limit: 1000,
    };
    TaskList::patient(work, patience)
}

// How it ended, if it has.
fn answered(procedure: &PatientProcedure) -> Option<Result<u16, PatientFault<BusFault>>> {
    match procedure.next() {
        Next::Do(_op) => None,
        Next::Wait(_time) => None,
        Next::End(spent) => Some(answer_in_time(spent)),
    }
}

fn bytes_read(bytes: &[u8]) -> Reply {
    match ArrayVec::try_from(bytes) {
        Ok(bytes) => Reply::Bytes(bytes),
        Err(_) => Reply::Refused,
    }
}

#[test]
fn only_fitting_replies_are_taken(rt: HostRuntime) {
    let mut procedure = patient(LaneSet::run(1, 8));
    let first = TaskList::save(&procedure);
    assert!(rt; !try_take(&mut procedure, &Reply::Done));
    assert!(rt; !try_take(&mut procedure, &bytes_read(&[6, 0])));
    assert_eq!(rt; TaskList::save(&procedure), first);
    assert_eq!(rt; answered(&procedure), None);
    assert!(rt; try_take(&mut procedure, &bytes_read(&[0])));
    assert_eq!(rt;
        answered(&procedure),
        Some(Err(PatientFault::Failed(ProvisionFault::Reserved(0))))
    );
    assert!(rt; !try_take(&mut procedure, &Reply::Refused));
}
