// How far tasks have come, as numbers: what a reply made of them shows in them.
ghost use Rattle.std.specs.Prelude.{◌≡◌, ◌<◌, ◌+◌, Some, true};
ghost use Rattle.control_sets.specs.SavedNumbers.{saved_fault};
ghost use Rattle.saved_provisioning.specs.Standings.{CameFrom, StandsFor};

use control_sets::{ProvisionFault, SavedFault, SavedProcedure, TaskList};
use conversations::{Conversation, Next};

/// The numbers of tasks that were told a reply, or weren't, from those before it.
pub fn numbers_after(
    numbers: &SavedProcedure,
    before: &TaskList,
    after: &TaskList,
) -> SavedProcedure
    requires before { StandsFor numbers.now before.now }
    requires after { CameFrom before.now after.now }
    ensures { StandsFor result after.now }
{
    match fault_of(after) {
        Some(fault) => with_fault(numbers, fault),
        None if is_same(before, after) => *numbers,
        None => with_met(numbers),
    }
}

fn with_fault(numbers: &SavedProcedure, fault: ProvisionFault) -> SavedProcedure
    ensures { result ≡ record numbers.now { fault = saved_fault (Some fault) } }
{
    let mut found = *numbers;
    found.fault = SavedFault::of(Some(fault));
    found
}

// One task more was met.
fn with_met(numbers: &SavedProcedure) -> SavedProcedure
    requires { numbers.now.met < 8 }
    ensures { result ≡ record numbers.now { met = numbers.now.met + 1 } }
{
    let mut found = *numbers;
    found.met += 1;
    found
}

fn is_same(before: &TaskList, after: &TaskList) -> bool
    ensures met { result ≡ true → after.now.met ≡ before.now.met }
    ensures same { after.now ≡ before.now → result ≡ true }
{
    before == after
}

fn fault_of(list: &TaskList) -> Option<ProvisionFault>
    ensures { result ≡ list.now.fault }
{
    match list.next() {
        Next::End(fault) => fault,
        Next::Do(_op) => None,
        Next::Wait(_time) => None,
    }
}
