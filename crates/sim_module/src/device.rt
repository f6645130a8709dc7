use crate::SimModule;
use arrayvec::ArrayVec;
use bus_model::{Dev, Device, MAX_FETCH};

/// A module answers on device A0.
impl Device for SimModule {
    ghost use Rattle.sim_module.specs.Modules.{conduct};

    type State = SimModule;

    ghost state = { λ sim. sim };

    ghost conduct = { conduct };

    #[tactic(auto, unfolding(crate::specs::ShownBytes::fetched))]
    fn fetch(&mut self, dev: Dev, offset: u8, count: u8) -> Option<ArrayVec<u8, MAX_FETCH>> {
        match dev {
            Dev::A0 => {
                let answer = self.moving.shown(&self.fixed, offset, count);
                if answer.is_some() {
                    self.rests = false;
                    self.moving.clear(offset, count);
                }
                answer
            }
            Dev::A2 => None,
        }
    }

    #[tactic(auto, unfolding(crate::specs::Stores::stored))]
    fn store(&mut self, dev: Dev, offset: u8, bytes: &[u8]) -> bool {
        match dev {
            Dev::A0
                if self
                    .fixed
                    .image
                    .view()
                    .has(self.moving.selection.key(dev, offset)) => {
                self.rests = false;
                self.moving.store_bytes(&self.fixed, offset, bytes);
                true
            }
            _ => false,
        }
    }

    // What rests stays as it is.
    fn tick(&mut self) {
        if !self.rests {
            self.rests = self.moving.tick();
        }
    }

    fn low_power_pin(&mut self, on: bool) {
        self.rests = false;
        self.moving.pin = on;
    }
}
