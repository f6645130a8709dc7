ghost use Rattle.bus_model.specs.Runs.{IsFull};
ghost use Rattle.control_sets.specs.OutcomeOfPower.{IsPowerChange};
ghost use Rattle.control_sets.specs.Procedures.{MakesHistory};

use super::{Power, PowerChange, answer_of};
use crate::fault::ProvisionFault;
use bus_model::Bus;
use conversations::run;

/// Wakes a module up or puts it to sleep, whatever the bus refuses on the way; answers the number of steps.
pub fn change_power<B: Bus>(bus: &mut B, power: Power) -> Result<u16, ProvisionFault>
    ensures { MakesHistory B.rules (B.seen bus.old) (B.seen bus.new) (λ history.
        IsPowerChange power (IsFull (B.seen bus.new)) history result) }
{
    let mut change = PowerChange::to(power);
    match run(bus, &mut change) {
        Ok(spent) => answer_of(spent),
        Err(fault) => Err(ProvisionFault::Bus(fault)),
    }
}
