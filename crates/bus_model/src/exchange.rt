//! One transaction between a bus and its device, as a script says.
ghost use Rattle.std.specs.Prelude.{◌≡◌};
ghost use Rattle.bus_model.specs.Operations.{IsWellShaped, Answers};
ghost use Rattle.bus_model.specs.ScriptedBus.{ticked_times, settled, passed_on, given, obeyed, transacted};

use crate::device::Device;
use crate::operation::{Op, Reply};
use crate::script::{Directive, Script};

// Lets so many units of time pass.
fn tick_all<D: Device>(device: &mut D, count: u16)
    ensures { D.state device.new ≡ ticked_times D.conduct count (D.state device.old) }
{
    for _ in 0..count {
        device.tick();
    }
}

// Lets the directives come that stand before the next transaction.
fn run_idle_directives<D: Device>(script: &mut Script, device: &mut D)
    ensures { (script.new, D.state device.new) ≡ settled D.conduct script.old (D.state device.old) }
{
    while let Some(directive) = script.first() {
        match directive {
            Directive::Tick(count) => tick_all(device, count),
            Directive::LowPower(on) => device.low_power_pin(on),
            _ => return,
        }
        script.skip();
    }
}

fn pass_on<D: Device>(device: &mut D, op: &Op) -> Reply
    requires { IsWellShaped op.now }
    ensures gives { (result, D.state device.new) ≡ passed_on D.conduct op.now (D.state device.old) }
    ensures answers { Answers op.now result }
{
    match op {
        Op::Fetch { dev, offset, count } => match device.fetch(*dev, *offset, *count) {
            Some(bytes) => Reply::Bytes(bytes),
            None => Reply::Refused,
        },
        Op::Store { dev, offset, bytes } => {
            if device.store(*dev, *offset, bytes.as_slice()) {
                Reply::Done
            } else {
                Reply::Refused
            }
        }
    }
}

// Gives the device the first bytes of a store.
fn store_prefix<D: Device>(device: &mut D, op: &Op, kept: u8)
    requires { IsWellShaped op.now }
    ensures { D.state device.new ≡ given D.conduct op.now kept (D.state device.old) }
{
    if let Op::Store { dev, offset, bytes } = op {
        let kept = bytes.len().min(usize::from(kept));
        if kept > 0 {
            let _ = device.store(*dev, *offset, &bytes.as_slice()[..kept]);
        }
    }
}

// What comes of a transaction under the next directive.
fn apply_directive<D: Device>(script: &Script, device: &mut D, op: &Op) -> Reply
    requires { IsWellShaped op.now }
    ensures gives { (result, D.state device.new) ≡ obeyed D.conduct op.now script.now (D.state device.old) }
    ensures answers { Answers op.now result }
{
    match script.first() {
        Some(Directive::Nack(_)) => Reply::Refused,
        Some(Directive::Cut(kept)) => {
            store_prefix(device, op, kept);
            Reply::Refused
        }
        _ => pass_on(device, op),
    }
}

// A transaction with the device, as the script says.
pub(crate) fn exchange<D: Device>(script: &mut Script, device: &mut D, op: &Op) -> Reply
    requires { IsWellShaped op.now }
    ensures gives { (result, (script.new, D.state device.new))
        ≡ transacted D.conduct op.now (script.old, D.state device.old) }
    ensures answers { Answers op.now result }
{
    run_idle_directives(script, device);
    let reply = apply_directive(script, device, op);
    script.spend();
    device.tick();
    reply
}
