//! The simulated module at the bus.
ghost use Rattle.std.specs.Prelude.{◌≡◌, ◌≤◌, ◌<◌, ◌+◌, ◌*◌, [], ◌∷◌, Some, length, option_map, sum, take, IfSome};
ghost use Rattle.bus_model.specs.declared.device.Dev.TheVariants.{A0};
ghost use Rattle.bus_model.specs.declared.operation.Op.TheVariants.{Fetch, Store};
ghost use Rattle.command_block.specs.Messages.{complement};
ghost use Rattle.bus_model.specs.Operations.{Answers, IsWellShaped, IsWellShapedStore};
ghost use Rattle.simulated_updates.specs.declared.chance.Before.TheVariants.{PowerLoss};
ghost use Rattle.simulated_updates.specs.Modules as spec;
ghost use Rattle.simulated_updates.specs.Seen.{IsMessage, firmware_of, module_of};

use crate::banks::{Banks, failure};
use crate::chance::{Before, Chance, Fate};
use arrayvec::ArrayVec;
use bus_model::{Dev, MAX_FETCH, MAX_STORE, Op, Reply};
use command_block::{MAX_BODY, Message, Outcome};

const PAGE: u8 = 0x9f;

const EXECUTING: u8 = 0x83;

const SUCCESS: u8 = 0x01;

const WRONG_CHECK_CODE: u8 = 0x45;

/// A simulated module that has a command data block and two firmware banks.
#[derive(Debug, PartialEq, Eq, Drop)]
pub struct SimulatedModule {
    pub firmware: Banks,
    /// The page of bank 0 that is selected.
    pub page: u8,
    /// What was stored on page 9Fh from byte 130 on: the lengths and the check code.
    pub head: ArrayVec<u8, MAX_STORE>,
    /// And from byte 136 on.
    pub body: ArrayVec<u8, MAX_BODY>,
    /// What came of the last message.
    pub status: u8,
    pub reply: ArrayVec<u8, MAX_FETCH>,
    /// For how many milliseconds it is busy with that.
    pub busy: u32,
    /// Whether it answers while it is busy.
    pub background: bool,
}

impl SimulatedModule {
    /// It has just come up with this firmware.
    pub fn of(firmware: Banks, background: bool) -> SimulatedModule
        ensures value { module_of result ≡ spec.come_up (firmware_of firmware) (module_of result) }
        ensures mode { result.background ≡ background }
    {
        SimulatedModule {
            firmware,
            page: 0,
            head: ArrayVec::new(),
            body: ArrayVec::new(),
            status: 0,
            reply: ArrayVec::new(),
            busy: 0,
            background,
        }
    }

    /// Makes a transaction, with what chance does.
    pub fn transact(&mut self, chance: &Chance, op: &Op) -> Reply
        requires { IsWellShaped op.now }
        ensures step { spec.stepped chance.now op.now (module_of self.old) ≡ (result, module_of self.new) }
        ensures answers { Answers op.now result }
    {
        self.befall(chance.before);
        match op {
            Op::Fetch {
                dev: Dev::A0,
                offset,
                count,
            } => self.fetch(chance, *offset, *count),
            Op::Store {
                dev: Dev::A0,
                offset,
                bytes,
            } => self.store(chance, *offset, bytes.as_slice()),
            _ => Reply::Refused,
        }
    }

    /// Lets so many milliseconds pass.
    pub fn pass(&mut self, milliseconds: u32)
        ensures { module_of self.new ≡ spec.passed milliseconds (module_of self.old) }
    {
        self.busy = self.busy.saturating_sub(milliseconds);
    }

    fn befall(&mut self, before: Before)
        ensures { module_of self.new ≡ spec.befallen before (module_of self.old) }
    {
        match before {
            Before::Nothing => {}
            Before::PowerLoss => self.lose_power(),
            Before::Reset { boots } => {
                if let Some(bank) = self.firmware.reset {
                    self.firmware.reset_to(boots, bank);
                    self.come_up();
                }
            }
        }
    }

    fn lose_power(&mut self)
        ensures { module_of self.new ≡ spec.befallen PowerLoss (module_of self.old) }
    {
        self.firmware.lose_power();
        self.come_up();
    }

    // Page 00h is selected, and page 9Fh is empty.
    fn come_up(&mut self)
        ensures { module_of self.new ≡ spec.come_up (firmware_of self.old.firmware) (module_of self.old) }
    {
        self.page = 0;
        self.head.clear();
        self.body.clear();
        self.status = 0;
        self.reply.clear();
        self.busy = 0;
    }

    fn is_busy(&self) -> bool
        ensures { result ≡ spec.is_busy (module_of self.now) }
    {
        self.busy > 0
    }

    fn has_page(&self) -> bool
        ensures { result ≡ spec.has_page (module_of self.now) }
    {
        self.page == PAGE && !self.is_busy()
    }

    fn is_deaf(&self) -> bool
        ensures { result ≡ spec.is_deaf (module_of self.now) }
    {
        self.is_busy() && !self.background
    }

    fn fetch(&self, chance: &Chance, offset: u8, count: u8) -> Reply
        ensures step { spec.transacted chance.now (Fetch A0 offset count) (module_of self.now) ≡ (result, module_of self.now) }
        ensures answers { Answers (Fetch A0 offset count) result }
    {
        if self.is_deaf() {
            return Reply::Refused;
        }
        match (chance.kept, self.read(offset, count)) {
            (None, Some(bytes)) => Reply::Bytes(bytes),
            _ => Reply::Refused,
        }
    }

    // What a fetch reads, if it is answered.
    fn read(&self, offset: u8, count: u8) -> Option<ArrayVec<u8, MAX_FETCH>>
        ensures bytes { option_map (λ bytes. bytes.items) result ≡ spec.read offset count (module_of self.now) }
        ensures count { IfSome result (λ bytes. length bytes.items ≡ count) }
    {
        let payload = self.payload();
        if offset == 37 && count == 1 {
            Some(one(self.status_shown()))
        } else if offset == 126 && count == 2 {
            Some(two(0, self.page))
        } else if self.has_page() && (offset == 134 && count == 2) {
            let reply = self.reply.as_slice();
            Some(two(reply.len() as u8, check_code(reply)))
        } else if self.has_page() && (offset == 136 && usize::from(count) <= payload.len()) {
            let bytes = &payload[..usize::from(count)];
            Some(ArrayVec::try_from(bytes).unwrap())
        } else {
            None
        }
    }

    // The reply, or the body as far as it was stored.
    fn payload(&self) -> &[u8]
        ensures payload { result.now ≡ spec.payload (module_of self.now) }
        ensures few { length result.now ≤ 128 }
    {
        if self.reply.is_empty() {
            self.body.as_slice()
        } else {
            self.reply.as_slice()
        }
    }

    fn status_shown(&self) -> u8
        ensures { result ≡ spec.status_shown (module_of self.now) }
    {
        if self.is_busy() {
            EXECUTING
        } else {
            self.status
        }
    }

    fn store(&mut self, chance: &Chance, offset: u8, bytes: &[u8]) -> Reply
        requires { IsWellShapedStore offset bytes.now }
        ensures step { spec.transacted chance.now (Store A0 offset (record { items = bytes.now })) (module_of self.old) ≡ (result, module_of self.new) }
        ensures answers { Answers (Store A0 offset (record { items = bytes.now })) result }
    {
        if self.is_deaf() {
            return Reply::Refused;
        }
        match chance.kept {
            None => {
                if self.stored(chance, offset, bytes) {
                    Reply::Done
                } else {
                    Reply::Refused
                }
            }
            Some(kept) => {
                let _ = self.stored(chance, offset, front(bytes, usize::from(kept)));
                Reply::Refused
            }
        }
    }

    // Whether a store was taken.
    fn stored(&mut self, chance: &Chance, offset: u8, bytes: &[u8]) -> bool
        requires few { length bytes.now ≤ 8 }
        requires within { offset + length bytes.now ≤ 256 }
        ensures { spec.stored chance.now offset bytes.now (module_of self.old) ≡ (result, module_of self.new) }
    {
        if offset == 126 {
            return self.select(bytes);
        }
        if !self.has_page() {
            return false;
        }
        if offset == 128 {
            self.store_id(chance, bytes)
        } else if offset == 130 {
            self.head = ArrayVec::try_from(bytes).unwrap();
            self.reply.clear();
            true
        } else if offset >= 136 {
            self.store_body(usize::from(offset) - 136, bytes)
        } else {
            false
        }
    }

    fn select(&mut self, bytes: &[u8]) -> bool
        ensures { spec.select bytes.now (module_of self.old) ≡ (result, module_of self.new) }
    {
        match bytes {
            [bank, page] => {
                self.page = if *bank == 0 && *page == PAGE { PAGE } else { 0 };
                true
            }
            _ => false,
        }
    }

    fn store_body(&mut self, at: usize, bytes: &[u8]) -> bool
        requires { at + length bytes.now ≤ 120 }
        ensures { spec.store_body at bytes.now (module_of self.old) ≡ (result, module_of self.new) }
    {
        if at <= self.body.len() {
            self.body.truncate(at);
            self.body.try_extend_from_slice(bytes).unwrap();
            self.reply.clear();
            true
        } else {
            false
        }
    }

    fn store_id(&mut self, chance: &Chance, bytes: &[u8]) -> bool
        ensures { spec.store_id chance.now bytes.now (module_of self.old) ≡ (result, module_of self.new) }
    {
        match bytes {
            [high, low] => {
                self.take(chance, u16::from(*high) * 256 + u16::from(*low));
                true
            }
            _ => false,
        }
    }

    // The id was stored.
    fn take(&mut self, chance: &Chance, id: u16)
        ensures { module_of self.new ≡ spec.taken chance.now id (module_of self.old) }
    {
        match self.message(id) {
            Some(message) => self.carry_out(chance, &message),
            None => self.show(chance.busy, &Outcome::Failed(WRONG_CHECK_CODE)),
        }
    }

    // The message that was stored, if it is whole.
    fn message(&self, id: u16) -> Option<Message>
        ensures { IsMessage id (module_of self.now) result }
    {
        let [0, 0, count, check, ..] = self.head.as_slice() else {
            return None;
        };
        let count = usize::from(*count);
        if count > self.body.len() {
            return None;
        }
        let body = ArrayVec::try_from(&self.body.as_slice()[..count]).unwrap();
        let message = Message {
            id,
            body,
            replies: false,
        };
        if message.check_code() == *check {
            Some(message)
        } else {
            None
        }
    }

    fn carry_out(&mut self, chance: &Chance, message: &Message)
        ensures { module_of self.new ≡ spec.comes_to chance.now.busy
            (spec.fated chance.now.fate message.now.id message.now.body.items (firmware_of self.old.firmware)) (module_of self.old) }
    {
        match chance.fate {
            Fate::Carried => {
                let outcome = self.firmware.perform(message.id, message.body.as_slice());
                self.show(chance.busy, &outcome);
            }
            Fate::Fails => self.show(chance.busy, &failure()),
            Fate::CutShort { done } => {
                if done {
                    let _ = self.firmware.perform(message.id, message.body.as_slice());
                }
                self.lose_power();
            }
        }
    }

    // What it shows is that of this message from now on, in place of the body.
    fn show(&mut self, busy: u32, outcome: &Outcome)
        ensures { module_of self.new ≡ spec.answers busy (Some outcome.now) (firmware_of self.old.firmware) (module_of self.old) }
    {
        self.body.clear();
        self.reply.clear();
        self.busy = busy;
        match outcome {
            Outcome::Succeeded(reply) => {
                self.status = SUCCESS;
                self.reply.try_extend_from_slice(reply.as_slice()).unwrap();
            }
            Outcome::Failed(code) => self.status = *code,
            _ => self.status = 0,
        }
    }
}

fn one(byte: u8) -> ArrayVec<u8, MAX_FETCH>
    ensures { result.items ≡ byte ∷ [] }
{
    let mut bytes = ArrayVec::new();
    bytes.push(byte);
    bytes
}

fn two(first: u8, second: u8) -> ArrayVec<u8, MAX_FETCH>
    ensures { result.items ≡ first ∷ second ∷ [] }
{
    let mut bytes = ArrayVec::new();
    bytes.push(first);
    bytes.push(second);
    bytes
}

// So many of the first bytes.
fn front(bytes: &[u8], count: usize) -> &[u8]
    ensures { result.now ≡ take count bytes.now }
{
    &bytes[..count.min(bytes.len())]
}

// The check code of a reply.
fn check_code(reply: &[u8]) -> u8
    requires { length reply.now < 256 }
    ensures { result ≡ complement (sum reply.now) }
{
    (255 - total(reply) % 256) as u8
}

fn total(bytes: &[u8]) -> u32
    requires { length bytes.now < 256 }
    ensures value { result ≡ sum bytes.now }
    ensures bound { result ≤ 255 * length bytes.now }
{
    let mut sum: u32 = 0;
    for byte in bytes {
        sum += u32::from(*byte);
    }
    sum
}
