// A command on its way, from its numbers and as numbers.
ghost use Rattle.std.specs.Prelude.{◌≡◌, ◌≤◌, Some, length, take};
ghost use Rattle.command_block.specs.declared.outcome.Outcome.TheVariants.{Succeeded};
ghost use Rattle.saved_update.specs.SavedDeliveries as spec;

use crate::numbers::SavedDelivery;
use arrayvec::ArrayVec;
use bus_model::MAX_FETCH;
use command_block::{Delivery, Message, Outcome, Phase};
use paged_memory::KnownPage;

// ---- from numbers

/// The delivery of this message that has these numbers.
pub fn delivery_in(message: Message, duration: u32, delay: u32, saved: &SavedDelivery) -> Delivery
    ensures { result ≡ spec.delivery_in message duration delay saved.now }
{
    let mut delivery = Delivery::of(message, duration, delay);
    let patient = &mut delivery.patient;
    patient.steps = saved.steps;
    patient.conversation.due = saved.due == 1;
    patient.conversation.idle = saved.idle;
    let on_page = &mut patient.conversation.conversation;
    on_page.selection = page_in(saved.selection, saved.page);
    on_page.taken = taken_in(saved.taken, saved.taken_page);
    on_page.conversation.phase = phase_in(saved.phase, saved.at, saved.check);
    on_page.conversation.outcome = outcome_in(saved);
    delivery
}

fn page_in(number: u8, page: u16) -> KnownPage
    ensures { result ≡ spec.page_in number page }
{
    match number {
        2 => KnownPage::Page(page),
        1 => KnownPage::Open,
        _ => KnownPage::Unknown,
    }
}

fn taken_in(number: u8, page: u16) -> Option<u16>
    ensures { result ≡ spec.taken_in number page }
{
    if number == 1 { Some(page) } else { None }
}

fn phase_in(number: u8, at: u8, check: u8) -> Phase
    ensures { result ≡ spec.phase_in number at check }
{
    match number {
        0 => Phase::Delayed,
        1 => Phase::Idle,
        2 => Phase::Filling { at },
        3 => Phase::Triggering,
        4 => Phase::Resting,
        5 => Phase::Awaiting,
        6 => Phase::Counting,
        7 => Phase::Reading { count: at, check },
        _ => Phase::Checking { at },
    }
}

fn outcome_in(saved: &SavedDelivery) -> Option<Outcome>
    ensures { result ≡ spec.outcome_in saved.now }
{
    if saved.outcome == 0 {
        None
    } else if saved.outcome == 1 && saved.count <= 128 {
        Some(Outcome::Succeeded(reply_in(saved)))
    } else if saved.outcome == 2 {
        Some(Outcome::Failed(saved.status))
    } else if saved.outcome == 3 {
        Some(Outcome::Unsent)
    } else {
        Some(Outcome::Unknown)
    }
}

fn reply_in(saved: &SavedDelivery) -> ArrayVec<u8, MAX_FETCH>
    requires { saved.now.count ≤ 128 }
    ensures { result ≡ record { items = take saved.now.count saved.now.reply } }
{
    ArrayVec::try_from(&saved.reply[..usize::from(saved.count)]).unwrap()
}

// ---- to numbers

/// The numbers of a delivery.
pub fn numbers_of(delivery: &Delivery) -> SavedDelivery
    ensures { spec.AreNumbers result delivery.now }
{
    let patient = &delivery.patient;
    let on_page = &patient.conversation.conversation;
    let page = numbers_of_page(on_page.selection);
    let phase = numbers_of_phase(on_page.conversation.phase);
    let known = numbers_of_outcome(&on_page.conversation.outcome);
    let due = number_of(patient.conversation.due);
    let taken = numbers_of_taken(on_page.taken);
    let reply = known.reply;
    SavedDelivery {
        idle: patient.conversation.idle,
        steps: patient.steps,
        phase: phase.0,
        at: phase.1,
        check: phase.2,
        due,
        selection: page.0,
        page: page.1,
        taken: taken.0,
        taken_page: taken.1,
        outcome: known.outcome,
        status: known.status,
        count: known.count,
        reply,
    }
}

/// Of no command.
pub fn no_delivery() -> SavedDelivery
    ensures { result ≡ spec.no_delivery }
{
    SavedDelivery {
        idle: 0,
        steps: 0,
        phase: 0,
        at: 0,
        check: 0,
        due: 0,
        selection: 0,
        page: 0,
        taken: 0,
        taken_page: 0,
        outcome: 0,
        status: 0,
        count: 0,
        reply: [0; MAX_FETCH],
    }
}

// What came of a command, as numbers.
#[derive(Clone, Copy)]
struct OutcomeNumbers {
    pub outcome: u8,
    pub status: u8,
    pub count: u8,
    pub reply: [u8; MAX_FETCH],
}

fn numbers_of_outcome(outcome: &Option<Outcome>) -> OutcomeNumbers
    ensures { spec.outcome_by result.outcome result.status result.count result.reply ≡ outcome.now }
{
    match outcome {
        None => without_reply(0, 0),
        Some(outcome) => numbers_of_known(outcome),
    }
}

fn numbers_of_known(outcome: &Outcome) -> OutcomeNumbers
    ensures { spec.outcome_by result.outcome result.status result.count result.reply ≡ Some outcome.now }
{
    match outcome {
        Outcome::Succeeded(reply) => with_reply(reply),
        Outcome::Failed(status) => without_reply(2, *status),
        Outcome::Unsent => without_reply(3, 0),
        Outcome::Unknown => without_reply(4, 0),
    }
}

fn with_reply(reply: &ArrayVec<u8, MAX_FETCH>) -> OutcomeNumbers
    ensures { spec.outcome_by result.outcome result.status result.count result.reply ≡ Some (Succeeded reply.now) }
{
    let bytes = padded(reply);
    OutcomeNumbers {
        outcome: 1,
        status: 0,
        count: reply.len() as u8,
        reply: bytes,
    }
}

fn without_reply(outcome: u8, status: u8) -> OutcomeNumbers
    ensures number { result.outcome ≡ outcome }
    ensures status { result.status ≡ status }
{
    OutcomeNumbers {
        outcome,
        status,
        count: 0,
        reply: [0; MAX_FETCH],
    }
}

/// The bytes of a reply, and zeros after them.
pub fn padded(reply: &ArrayVec<u8, MAX_FETCH>) -> [u8; MAX_FETCH]
    ensures value { result ≡ spec.padded reply.now.items }
    ensures few { length reply.now.items ≤ 128 }
{
    let mut all = [0; MAX_FETCH];
    all[..reply.len()].copy_from_slice(reply);
    all
}

/// 1 if it is so, else 0.
pub fn number_of(yes: bool) -> u8
    ensures { result ≡ spec.number_of yes }
{
    if yes { 1 } else { 0 }
}

fn numbers_of_page(selected: KnownPage) -> (u8, u16)
    ensures { spec.page_in result.0 result.1 ≡ selected }
{
    match selected {
        KnownPage::Unknown => (0, 0),
        KnownPage::Open => (1, 0),
        KnownPage::Page(page) => (2, page),
    }
}

fn numbers_of_taken(taken: Option<u16>) -> (u8, u16)
    ensures { spec.taken_in result.0 result.1 ≡ taken }
{
    match taken {
        None => (0, 0),
        Some(page) => (1, page),
    }
}

fn numbers_of_phase(phase: Phase) -> (u8, u8, u8)
    ensures { spec.phase_in result.0 result.1 result.2 ≡ phase }
{
    match phase {
        Phase::Delayed => (0, 0, 0),
        Phase::Idle => (1, 0, 0),
        Phase::Filling { at } => (2, at, 0),
        Phase::Triggering => (3, 0, 0),
        Phase::Resting => (4, 0, 0),
        Phase::Awaiting => (5, 0, 0),
        Phase::Counting => (6, 0, 0),
        Phase::Reading { count, check } => (7, count, check),
        Phase::Checking { at } => (8, at, 0),
    }
}
