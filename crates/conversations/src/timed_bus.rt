use bus_model::{Bus, Op, Reply};

/// A bus that makes a transaction at a time, and can let time pass between two. It keeps no list of them.
pub trait TimedBus {
    ghost use Rattle.std.specs.Prelude.{ℕ, IfErr, IfOk};
    ghost use Rattle.bus_model.specs.declared.operation.Step.{Step};
    ghost use Rattle.bus_model.specs.Operations.{Answers, IsWellShaped};

    /// Why it makes no transaction.
    type Fault;

    /// What a transaction makes of it.
    ghost makes: { Self → Step → Self → Type 0 };

    /// What so many milliseconds make of it.
    ghost passes: { Self → ℕ → Self → Type 0 };

    /// What is left where it makes no transaction.
    ghost fails: { Self → Self.Fault → Self → Type 0 };

    /// Makes a transaction, or fails.
    fn transact(&mut self, op: Op) -> Result<Reply, Self::Fault>
        requires { IsWellShaped op }
        ensures made { IfOk result (λ reply. makes self.old (record { op = op; reply = reply }) self.new) }
        ensures answers { IfOk result (Answers op) }
        ensures failed { IfErr result (λ fault. fails self.old fault self.new) };

    /// Lets so many milliseconds pass.
    fn pause(&mut self, milliseconds: u32)
        ensures { passes self.old milliseconds self.new };
}

/// On a bus that keeps a list of its steps, time passes by itself.
impl<B: Bus> TimedBus for B {
    ghost use Rattle.conversations.specs.Carried.{FillsUp, MakesStep, StaysSame};

    type Fault = bus_model::BusFault;

    ghost makes = { MakesStep B.rules (λ bus. B.seen bus) };

    ghost passes = { StaysSame };

    ghost fails = { FillsUp (λ bus. B.seen bus) };

    fn transact(&mut self, op: Op) -> Result<Reply, bus_model::BusFault> {
        Bus::transact(self, op)
    }

    fn pause(&mut self, _milliseconds: u32) {}
}
