//! The simulated module on a bus of which the caller says what chance does.
ghost use Rattle.std.specs.Prelude.{◌≡◌, drop};
ghost use Rattle.simulated_updates.specs.Undisturbed.{first_chance};

use crate::chance::Chance;
use crate::module::SimulatedModule;
use arrayvec::ArrayVec;
use bus_model::{Op, Reply};
use conversations::TimedBus;

/// How many transactions chance may do something with.
pub const MAX_CHANCES: usize = 128;

/// A simulated module, and what chance does with the next transactions; those behind them are undisturbed.
#[derive(Debug, PartialEq, Eq, Drop)]
pub struct SimulatedBus {
    pub module: SimulatedModule,
    pub chances: ArrayVec<Chance, MAX_CHANCES>,
}

impl SimulatedBus {
    fn next_chance(&mut self) -> Chance
        ensures chance { result ≡ first_chance self.old.chances.items }
        ensures left { self.new.chances.items ≡ drop 1 self.old.chances.items }
        ensures module { self.new.module ≡ self.old.module }
    {
        if self.chances.is_empty() {
            Chance::undisturbed()
        } else {
            self.chances.remove(0)
        }
    }
}

impl TimedBus for SimulatedBus {
    ghost use Rattle.simulated_updates.specs.Buses.{LetsPass, MakesStep, NeverFails};

    type Fault = ();

    ghost makes = { MakesStep };

    ghost passes = { LetsPass };

    ghost fails = { NeverFails };

    fn transact(&mut self, op: Op) -> Result<Reply, ()> {
        let chance = self.next_chance();
        Ok(self.module.transact(&chance, &op))
    }

    fn pause(&mut self, milliseconds: u32) {
        self.module.pass(milliseconds);
    }
}
