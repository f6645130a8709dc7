// The manager of a port, which C keeps.
ghost use Rattle.std.specs.Prelude.{◌≡◌, ◌≢◌, ◌↔◌, IfSome, IsTrue, None, Some, false};
ghost use Rattle.bus_model.specs.declared.operation.Reply.{Reply};
ghost use Rattle.port_manager.specs.declared.port.Outcome.{Outcome};
ghost use Rattle.port_manager.specs.declared.port.Outstanding.TheVariants.{Nothing};
ghost use Rattle.port_manager.specs.declared.port.Port.{Port as Held};
ghost use Rattle.port_manager.specs.Flags.{no_flags};
ghost use Rattle.port_manager.specs.Jobs.{IsReplyTo};
ghost use Rattle.port_manager.specs.Ports.{IsAwaited, IsTaken, absent, acknowledged_to, asked_for, asked_in, asking, heard, holding, next_at, plugged, presence_by, pulled, rechecked, reconsidered};
ghost use Rattle.saved_port.specs.Outcomes.{AreNumbersOf};
ghost use Rattle.saved_port.specs.SavedPorts.{request_in, times_in};
ghost use Rattle.firmware_api.specs.KeptPorts.{IsKept, IsTakeTold, kept_in, refusal_in};
ghost use Rattle.firmware_api.specs.Operations.{reply_of};
ghost use Rattle.firmware_api.specs.PortsTold.{next_told, number_of_presence, wanted_in};
ghost use Rattle.firmware_api.specs.SimulatedModules.{is_on};
ghost use Rattle.firmware_api.specs.Statuses.{done, status_by};

mod kept;
mod next;
mod wanted;

use crate::operation::reply_of;
use crate::status::{DONE, NO_CONVERSATION, NO_REPLY};
use bus_model::Reply;
use conversations::can_have;
use kept::KeptPort;
use next::NextOfPort;
use port_manager::{Outstanding, Port, Presence, Stage, Times};
use saved_port::{SavedOutcome, SavedTimes, request_in};
use wanted::PortWanted;

/// Puts an empty port into `port`.
#[unsafe(no_mangle)]
pub extern "C" fn dovecounter_port_new(times: &SavedTimes, port: &mut KeptPort)
    ensures { IsKept port.new (absent (times_in times.now) Nothing no_flags false) }
{
    let empty = Port::new(Times {
        settle: times.settle,
        period: times.period,
        first: times.first,
        most: times.most,
        recheck: times.recheck,
    });
    *port = kept::kept(&empty);
}

/// A module was plugged, which may need time to answer.
#[unsafe(no_mangle)]
pub extern "C" fn dovecounter_port_plug(port: &mut KeptPort, now: u64) -> u32
    ensures status { result ≡ status_by (refusal_in (kept_in port.old)) }
    ensures plugged { (held : Held) → IsKept port.old held → IsKept port.new (plugged now held) }
    ensures refused { result ≢ done → port.new ≡ port.old }
{
    let held = &mut kept::blank();
    if !kept::restore(port, held) {
        return NO_CONVERSATION;
    }
    held.plug(now);
    kept::put(held, port);
    DONE
}

/// The module was pulled.
#[unsafe(no_mangle)]
pub extern "C" fn dovecounter_port_pull(port: &mut KeptPort) -> u32
    ensures status { result ≡ status_by (refusal_in (kept_in port.old)) }
    ensures pulled { (held : Held) → IsKept port.old held → IsKept port.new (pulled held) }
    ensures refused { result ≢ done → port.new ≡ port.old }
{
    let held = &mut kept::blank();
    if !kept::restore(port, held) {
        return NO_CONVERSATION;
    }
    held.pull();
    kept::put(held, port);
    DONE
}

/// Other weights are wanted, or somebody asks: the module is read and judged anew.
#[unsafe(no_mangle)]
pub extern "C" fn dovecounter_port_reconsider(port: &mut KeptPort) -> u32
    ensures status { result ≡ status_by (refusal_in (kept_in port.old)) }
    ensures reconsidered { (held : Held) → IsKept port.old held → IsKept port.new (reconsidered held) }
    ensures refused { result ≢ done → port.new ≡ port.old }
{
    let held = &mut kept::blank();
    if !kept::restore(port, held) {
        return NO_CONVERSATION;
    }
    held.reconsider();
    kept::put(held, port);
    DONE
}

/// The port is to hold still, or isn't to if `hold` is 0.
#[unsafe(no_mangle)]
pub extern "C" fn dovecounter_port_hold(port: &mut KeptPort, hold: u8) -> u32
    ensures status { result ≡ status_by (refusal_in (kept_in port.old)) }
    ensures holds { (held : Held) → IsKept port.old held → IsKept port.new (holding (is_on hold) held) }
    ensures refused { result ≢ done → port.new ≡ port.old }
{
    let held = &mut kept::blank();
    if !kept::restore(port, held) {
        return NO_CONVERSATION;
    }
    held.hold(hold != 0);
    kept::put(held, port);
    DONE
}

/// Somebody asks something of the port, by its number and lanes, in place of what was asked before.
#[unsafe(no_mangle)]
pub extern "C" fn dovecounter_port_request(port: &mut KeptPort, request: u8, lanes: u8) -> u32
    ensures status { result ≡ status_by (refusal_in (kept_in port.old)) }
    ensures asked { (held : Held) → IsKept port.old held → IsKept port.new (asked_for (request_in request lanes) held) }
    ensures refused { result ≢ done → port.new ≡ port.old }
{
    let held = &mut kept::blank();
    if !kept::restore(port, held) {
        return NO_CONVERSATION;
    }
    held.ask(request_in(request, lanes));
    kept::put(held, port);
    DONE
}

/// A transaction at the port, which began at a moment, was answered or refused at this one. Puts into `presence` whether the module was
/// plugged or pulled by that.
#[unsafe(no_mangle)]
pub extern "C" fn dovecounter_port_hear(
    port: &mut KeptPort,
    answered: u8,
    began: u64,
    now: u64,
    presence: &mut u8,
) -> u32
    ensures status { result ≡ status_by (refusal_in (kept_in port.old)) }
    ensures told { (held : Held) → kept_in port.old ≡ Some held → presence.new ≡ number_of_presence (presence_by held (is_on answered) began now) }
    ensures heard { (held : Held) → IsKept port.old held → IsKept port.new (heard held (is_on answered) began now) }
    ensures refused { result ≢ done → (port.new ≡ port.old) × (presence.new ≡ presence.old) }
{
    let held = &mut kept::blank();
    if !kept::restore(port, held) {
        return NO_CONVERSATION;
    }
    let heard = held.hear(answered != 0, began, now);
    tell(heard, presence);
    kept::put(held, port);
    DONE
}

fn tell(presence: Presence, number: &mut u8)
    ensures { number.new ≡ number_of_presence presence }
{
    *number = match presence {
        Presence::Same => 0,
        Presence::Plugged => 1,
        Presence::Pulled => 2,
    };
}

/// The flags that were last read as raised at this moment or before it are known.
#[unsafe(no_mangle)]
pub extern "C" fn dovecounter_port_acknowledge(port: &mut KeptPort, moment: u64) -> u32
    ensures status { result ≡ status_by (refusal_in (kept_in port.old)) }
    ensures acknowledged { (held : Held) → IsKept port.old held → IsKept port.new (acknowledged_to moment held) }
    ensures refused { result ≢ done → port.new ≡ port.old }
{
    let held = &mut kept::blank();
    if !kept::restore(port, held) {
        return NO_CONVERSATION;
    }
    held.acknowledge(moment);
    kept::put(held, port);
    DONE
}

/// Puts into `next` what is to be done at this moment. If it is an operation, its reply is awaited then. A module that was left alone for
/// long enough is read and judged anew.
#[unsafe(no_mangle)]
pub extern "C" fn dovecounter_port_next(port: &mut KeptPort, now: u64, next: &mut NextOfPort) -> u32
    ensures status { result ≡ status_by (refusal_in (kept_in port.old)) }
    ensures told { (held : Held) → kept_in port.old ≡ Some held → next.new ≡ next_told (rechecked now held) (next_at (rechecked now held) now) }
    ensures asked { (held : Held) → IsKept port.old held → IsKept port.new (asking (rechecked now held) (next_at (rechecked now held) now)) }
    ensures refused { result ≢ done → (port.new ≡ port.old) × (next.new ≡ next.old) }
{
    let held = &mut kept::blank();
    if !kept::restore(port, held) {
        return NO_CONVERSATION;
    }
    let wants = held.next(now);
    next.fill(held, wants);
    kept::put(held, port);
    DONE
}

/// Takes the reply to that operation, which came at this moment, and puts into `outcome` what it led to.
#[unsafe(no_mangle)]
pub extern "C" fn dovecounter_port_take(
    port: &mut KeptPort,
    reply: u8,
    bytes: &[u8],
    wanted: &PortWanted,
    now: u64,
    outcome: &mut SavedOutcome,
) -> u32
    ensures told { IsTakeTold result (reply_of reply bytes.now) (kept_in port.old) }
    ensures taken { result ≡ done → (held : Held) (given : Reply) → kept_in port.old ≡ Some held → reply_of reply bytes.now ≡ Some given →
        (led : Outcome) × (later : Held) × IsTaken held given (wanted_in wanted.now) now led later × AreNumbersOf led outcome.new
        × (IsKept port.old held → IsKept port.new later) }
    ensures refused { result ≢ done → (port.new ≡ port.old) × (outcome.new ≡ outcome.old) }
{
    let held = &mut kept::blank();
    if !kept::restore(port, held) {
        return NO_CONVERSATION;
    }
    let Some(reply) = awaited(held, reply, bytes) else {
        return NO_REPLY;
    };
    *outcome = kept::take(held, &reply, &wanted.wanted(), now, port);
    DONE
}

// The reply, if it is one that may come.
fn awaited(port: &Port, number: u8, bytes: &[u8]) -> Option<Reply>
    ensures given { IfSome result (λ reply. (reply_of number bytes.now ≡ Some reply) × IsAwaited port.now reply) }
    ensures none { result ≡ None → (reply : Reply) → reply_of number bytes.now ≡ Some reply → ¬ (IsAwaited port.now reply) }
{
    match reply_of(number, bytes) {
        Some(reply) if may_come(port, &reply) => Some(reply),
        _ => None,
    }
}

fn may_come(port: &Port, reply: &Reply) -> bool
    ensures { IsTrue result ↔ IsAwaited port.now reply.now }
{
    match port.outstanding {
        Outstanding::Nothing => false,
        Outstanding::Awaited | Outstanding::Stale => answers(&port.stage, reply),
        Outstanding::Forsaken => true,
    }
}

fn answers(stage: &Stage, reply: &Reply) -> bool
    ensures { IsTrue result ↔ IsReplyTo (asked_in stage.now) reply.now }
{
    match stage {
        Stage::Absent | Stage::Left(_) => false,
        Stage::Working(job) => match job.op() {
            Some(op) => can_have(&op, reply),
            None => false,
        },
    }
}
