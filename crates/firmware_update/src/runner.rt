ghost use Rattle.std.specs.Prelude.{◌≡◌, ◌<◌, ◌^◌, length};
ghost use Rattle.conversations.specs.Carried.{MakesEvents};
ghost use Rattle.firmware_update.specs.Runs.{IsRunOf};

use crate::known::Known;
use crate::session::Session;
use crate::update::Cause;
use command_block::MAX_STEPS;
use conversations::{TimedBus, Within, run};

/// How an update on a bus ended.
#[derive(Drop)]
pub enum UpdateRun<F> {
    /// The bus made no more transactions, in the midst of a command.
    Stopped(F),
    /// It came to its end, or why not, and what is known of the module.
    Over {
        known: Known,
        end: Result<(), Cause>,
    },
}

/// Updates a module's firmware to this file: its commands are delivered one after another.
pub fn run_update<B: TimedBus>(bus: &mut B, file: &[u8]) -> UpdateRun<B::Fault>
    requires { length file.now < 2 ^ 32 }
    ensures { MakesEvents B.makes B.passes bus.old (λ last events.
        IsRunOf file.now events (last ≡ bus.new) (λ fault. B.fails last fault bus.new) result) }
{
    let mut session = Session::of(file);
    'delivered: loop {
        match session.delivery.take() {
            Some(delivery) => {
                let mut within = Within::new(delivery, MAX_STEPS);
                match run(bus, &mut within) {
                    Ok(_spent) => session.go_on(file, within.conversation),
                    Err(fault) => return UpdateRun::Stopped(fault),
                }
            }
            None => {
                let known = session.update.known();
                let end = session.end();
                return UpdateRun::Over { known, end };
            }
        }
    }
}
