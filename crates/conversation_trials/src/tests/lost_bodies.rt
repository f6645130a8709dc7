// Messages to a module that resets itself amid them, and over a bus that refuses a third of all transactions.
use arrayvec::ArrayVec;
use bus_model::{MAX_FETCH, MAX_STORE, Op, Reply};
use command_block::{Delivery, MAX_STEPS, Message, Outcome};
use conversations::{TimedBus, Within, run};
use std::test::Fail;

const PAGE: u8 = 0x9f;

// A check code doesn't tell eight of these bytes from zeros.
const BODY: [u8; 120] = [32; 120];

// A module that carries out each command at once, and resets itself before one transaction, which it refuses.
#[derive(Drop)]
struct Forgetful {
    lower: [u8; 128],
    page: [u8; 128],
    // How many transactions come before the reset.
    left: u16,
    // What the next refusal is drawn from, or 0: there is none.
    seed: u32,
    // How many commands it carried out with the body, and how many with another.
    right: u8,
    wrong: u8,
}

impl Forgetful {
    ghost use Rattle.std.specs.Prelude.{◌≡◌, length};
    ghost use Rattle.bus_model.specs.Operations.{IsInHalf};

    fn of(left: u16, seed: u32) -> Forgetful {
        Forgetful {
            lower: [0; 128],
            page: [0; 128],
            left,
            seed,
            right: 0,
            wrong: 0,
        }
    }

    fn resets(&mut self) -> bool {
        if self.left > 0 {
            self.left -= 1;
            return false;
        }
        self.left = u16::MAX;
        self.lower = [0; 128];
        self.page = [0; 128];
        true
    }

    fn refuses(&mut self) -> bool {
        self.seed = self.seed.wrapping_mul(1_103_515_245);
        (self.seed / 65_536) % 3 == 1
    }

    fn shows_page(&self) -> bool {
        self.lower[127] == PAGE
    }

    fn upper(&self) -> [u8; 128] {
        if self.shows_page() {
            self.page
        } else {
            [0; 128]
        }
    }

    fn fetch(&self, offset: u8, count: u8) -> ArrayVec<u8, MAX_FETCH>
        requires { IsInHalf offset count }
        ensures { length result.items ≡ count }
    {
        let from = usize::from(offset);
        let count = usize::from(count);
        if from < 128 {
            ArrayVec::try_from(&self.lower[from..from + count]).unwrap()
        } else {
            let upper = self.upper();
            ArrayVec::try_from(&upper[from - 128..from - 128 + count]).unwrap()
        }
    }

    fn store(&mut self, offset: u8, bytes: &ArrayVec<u8, MAX_STORE>)
        requires { IsInHalf offset (length bytes.now.items) }
    {
        if offset == 126 {
            for byte in bytes.iter() {
                self.lower[127] = *byte;
            }
        } else if offset >= 128 && self.shows_page() {
            let from = usize::from(offset) - 128;
            self.page[from..from + bytes.len()].copy_from_slice(bytes);
            if offset == 128 {
                self.carry_out();
            }
        }
    }

    // If the check code is right.
    fn carry_out(&mut self) {
        let count = usize::from(self.page[4].min(120));
        let body = ArrayVec::try_from(&self.page[8..8 + count]).unwrap();
        let message = Message {
            id: u16::from(self.page[0]) * 256 + u16::from(self.page[1]),
            body,
            replies: false,
        };
        if message.check_code() != self.page[5] {
            self.lower[37] = 0x45;
        } else {
            self.lower[37] = 0x01;
            if message.body.as_slice() == BODY.as_slice() {
                self.right = self.right.saturating_add(1);
            } else {
                self.wrong = self.wrong.saturating_add(1);
            }
        }
    }
}

impl TimedBus for Forgetful {
    type Fault = ();

    ghost makes = { λ old step new. Unit {0} };

    ghost passes = { λ old time new. Unit {0} };

    ghost fails = { λ old fault new. Unit {0} };

    fn transact(&mut self, op: Op) -> Result<Reply, ()> {
        if self.resets() || self.refuses() {
            return Ok(Reply::Refused);
        }
        match op {
            Op::Fetch { offset, count, .. } => Ok(Reply::Bytes(self.fetch(offset, count))),
            Op::Store { offset, bytes, .. } => {
                self.store(offset, &bytes);
                Ok(Reply::Done)
            }
        }
    }

    fn pause(&mut self, _milliseconds: u32) {}
}

fn delivered(module: &mut Forgetful) -> Outcome {
    let message = Message {
        id: 0x0103,
        body: ArrayVec::try_from(BODY.as_slice()).unwrap(),
        replies: false,
    };
    let mut within = Within::new(Delivery::of(message, 1000, 0), MAX_STEPS);
    match run(module, &mut within) {
        Ok(spent) => spent.end.unwrap_or(Outcome::Unknown),
        Err(()) => Outcome::Unknown,
    }
}

fn has_succeeded(outcome: &Outcome) -> bool {
    matches!(outcome, Outcome::Succeeded(_))
}

fn is_unknown(outcome: &Outcome) -> bool {
    matches!(outcome, Outcome::Unknown)
}

// After 3 transactions the body is stored by 15, the header by one, and then the id.
#[test]
fn a_body_that_is_lost_in_part_is_stored_anew(rt: HostRuntime) -> Result<(), Fail> {
    for left in 0..19 {
        let mut module = Forgetful::of(left, 0);
        let outcome = delivered(&mut module);
        assert!(rt; has_succeeded(&outcome));
        assert_eq!(rt; (module.right, module.wrong), (1, 0));
    }
    Ok(())
}

// The id is lost, or what came of the command.
#[test]
fn a_reset_from_the_id_on_leaves_the_outcome_unknown(rt: HostRuntime) -> Result<(), Fail> {
    for left in 19..21 {
        let mut module = Forgetful::of(left, 0);
        let outcome = delivered(&mut module);
        assert!(rt; is_unknown(&outcome));
        assert_eq!(rt; module.wrong, 0);
    }
    Ok(())
}

#[test]
fn a_long_body_gets_through_a_bus_that_refuses_a_third(rt: HostRuntime) -> Result<(), Fail> {
    let mut succeeded: u32 = 0;
    for seed in 1..64u8 {
        let odd = u32::from(seed) * 2 + 1;
        let mut module = Forgetful::of(u16::MAX, odd);
        let outcome = delivered(&mut module);
        assert!(rt; has_succeeded(&outcome) || is_unknown(&outcome));
        assert_eq!(rt; module.wrong, 0);
        if has_succeeded(&outcome) {
            succeeded = succeeded.saturating_add(1);
        }
    }
    assert!(rt; succeeded > 30);
    Ok(())
}
