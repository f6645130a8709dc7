//! A bus with one device that does as a script says.
ghost use Rattle.std.specs.Prelude.{◌≡◌};

use crate::bus::{Bus, BusFault};
use crate::device::Device;
use crate::exchange::exchange;
use crate::operation::{Op, Reply, Step};
use crate::script::Script;
use std::alloc::{AllocError, Global};
use std::marker::Model;

/// A bus with one device that does as a script says. The room for its steps is taken when it is made, so that no
/// transaction takes memory.
#[derive(Drop)]
pub struct ScriptBus<D> {
    device: D,
    script: Script,
    steps: Vec<Step>,
    room: usize,
}

impl<D> Model for ScriptBus<D> {
    ghost use Rattle.std.specs.Prelude.{◌≡◌, ◌≤◌, length};
    ghost use Rattle.std.specs.Vec.{vec_capacity};
    ghost use Rattle.bus_model.specs.ScriptBuses.{Scripted};

    ghost Value = { Scripted D };

    ghost view = { λ bus. record {
      device = bus.device;
      script = bus.script;
      steps = bus.steps.items;
      room = bus.room;
    } };

    ghost invariant = { λ bus. (length bus.steps.items ≤ bus.room) × (vec_capacity bus.steps ≡ bus.room) };
}

impl<D: Device + Drop> ScriptBus<D> {
    ghost use Rattle.std.specs.Prelude.{[], IfOk};

    /// A bus with room for so many steps. Want of memory alone refuses; device and script are then dropped.
    pub fn new(alloc: Global, device: D, script: Script, room: usize) -> Result<Self, AllocError>
        ensures { IfOk result (λ bus. bus ≡ record { device = device; script = script; steps = []; room = room }) }
    {
        Ok(ScriptBus {
            device,
            script,
            steps: Vec::with_capacity(alloc, room)?,
            room,
        })
    }

    /// The steps made, from the first.
    pub fn steps(&self) -> &[Step]
        ensures { result.now ≡ self.now.steps }
    {
        self.steps.as_slice()
    }

    /// The device as it stands.
    pub fn device(&self) -> &D
        ensures { result.now ≡ self.now.device }
    {
        &self.device
    }
}

impl<D: Device> Bus for ScriptBus<D> {
    ghost use Rattle.bus_model.specs.ScriptedBus.{script_rules};

    type State = (Script, D::State);

    ghost seen = { λ bus. record { steps = bus.steps; room = bus.room; state = (bus.script, D.state bus.device) } };

    ghost rules = { script_rules D.conduct };

    fn transact(&mut self, op: Op) -> Result<Reply, BusFault> {
        if !op.is_well_shaped() {
            return Err(BusFault::BadShape);
        }
        if self.steps.len() == self.room {
            return Err(BusFault::TraceFull);
        }
        let reply = exchange(&mut self.script, &mut self.device, &op);
        self.steps.push_reserved(Step {
            op,
            reply: reply.copy(),
        });
        Ok(reply)
    }
}
