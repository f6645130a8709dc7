// Conversations that pause, and that fetch halves in pieces, driven by hand.
use super::modules::{FOURS, image, module};
use super::plans::{FOUR_PAIRS, bus_of, plan_of};
use applications::Advert;
use arrayvec::ArrayVec;
use bus_model::{Bus, Dev, Device, ScriptBus};
use control_sets::{PatientFault, Power, PowerChange, activate_on, change_power_on, provision_on};
use conversations::{Conversation, InPieces, Next, Patience, Timed, run};
use module_reading::{Halves, Reading, Request};
use paged_memory::{Key, Window};
use plan_certificate::{Plan, admissible};
use sample_modules::with;
use sim_module::SimModule;
use std::alloc::Global;
use std::test::Fail;

// How many milliseconds it waited, if it has ended. A word comes after each operation, if there is one.
fn waited<C: Conversation, D: Device + Drop>(
    conversation: &mut C,
    bus: &mut ScriptBus<D>,
    word: Option<u32>,
) -> Result<Option<u32>, Fail>
where
    C::End: Drop,
{
    let mut waited: u32 = 0;
    for _ in 0..9000u16 {
        match conversation.next() {
            Next::Do(op) => {
                let reply = bus.transact(op)?;
                conversation.take(&reply);
                if let Some(number) = word {
                    conversation.asked(number);
                }
            }
            Next::Wait(time) => {
                waited = waited.saturating_add(time);
                conversation.waited();
            }
            Next::End(_end) => return Ok(Some(waited)),
        }
    }
    Ok(None)
}

const LASTING: Patience = Patience {
    pause: 7,
    limit: u32::MAX,
};

// Three refusals, of which the last is of a store; what the caller says lifts no pause, and makes none.
#[test]
fn each_refusal_is_followed_by_a_pause(rt: HostRuntime) -> Result<(), Fail> {
    for (script, says, time) in [
        (b"".as_slice(), false, 0),
        (b"nack 2\nok 1\nnack 1\n", false, 21),
        (b"nack 2\nok 1\nnack 1\n", true, 21),
    ] {
        let mut change = PowerChange::patient(Power::Awake, LASTING);
        if says {
            change.asked(1);
        }
        let mut bus = bus_of(rt.alloc(), Window::<16>::of(&image()?.view())?, script, 50)?;
        assert_eq!(rt; waited(&mut change, &mut bus, None)?, Some(time));
    }
    Ok(())
}

// The module stays in ModuleLowPwr, so its state is read again after each pause of 7 ms.
#[test]
fn a_state_that_never_comes_is_overdue(rt: HostRuntime) -> Result<(), Fail> {
    for (limit, time) in [(0, 7), (48, 49), (49, 56)] {
        let asleep = with(image()?, Key::lower(Dev::A0), &[(3, 0x02)])?;
        let mut bus = bus_of(rt.alloc(), Window::<16>::of(&asleep.view())?, b"", 50)?;
        let patience = Patience { pause: 7, limit };
        let mut change = PowerChange::patient(Power::Awake, patience);
        assert_eq!(rt; waited(&mut change, &mut bus, None)?, Some(time));
        assert!(rt; matches!(change.conversation.next(), Next::End(Timed::Overdue)));
        let mut bus = bus_of(rt.alloc(), Window::<16>::of(&asleep.view())?, b"", 50)?;
        let told = change_power_on(&mut bus, Power::Awake, patience);
        assert!(rt; matches!(told, Err(PatientFault::Overdue)));
    }
    Ok(())
}

#[test]
fn pauses_change_no_answer(rt: HostRuntime) -> Result<(), Fail> {
    let (advert, plan) = (Advert::of(&image()?.view())?, plan_of(&FOUR_PAIRS)?);
    let none = Plan {
        paths: ArrayVec::new(),
    };
    let mut bus = bus_of(rt.alloc(), module()?, b"nack 2\n", 5000)?;
    assert!(rt; change_power_on(&mut bus, Power::Awake, LASTING).is_ok());
    assert!(rt; admissible(&advert, &plan));
    assert!(rt; provision_on(&mut bus, &advert, &plan, &none, LASTING).is_ok());
    assert!(rt; activate_on(&mut bus, &advert, &plan, LASTING).is_ok());
    Ok(())
}

// The module goes to low power while it is provisioned, refuses once, and shows that after the pause.
#[test]
fn a_module_that_leaves_ready_is_named(rt: HostRuntime) -> Result<(), Fail> {
    let (advert, plan) = (Advert::of(&image()?.view())?, plan_of(&FOUR_PAIRS)?);
    let none = Plan {
        paths: ArrayVec::new(),
    };
    let follows_pin = with(image()?, Key::lower(Dev::A0), &[(26, 0x40)])?;
    let module = SimModule::new(follows_pin, FOURS)?;
    let script = b"ok 5\nlpmode 1\ntick 50\nnack 1\n";
    let mut bus = bus_of(rt.alloc(), module, script, 5000)?;
    assert!(rt; admissible(&advert, &plan));
    let told = provision_on(&mut bus, &advert, &plan, &none, LASTING);
    assert!(rt; matches!(told, Err(PatientFault::Reset(1))));
    Ok(())
}

// The reading of so much of the image in a window, and how many transactions it made.
fn read(
    alloc: Global,
    request: Request,
    piece: u8,
    word: Option<u32>,
) -> Result<(Reading, usize), Fail> {
    let mut bus = bus_of(alloc, Window::<16>::of(&image()?.view())?, b"nack 1\n", 500)?;
    let mut pieces = InPieces {
        conversation: Halves::reading(request),
        piece,
        part: ArrayVec::new(),
    };
    let _time = waited(&mut pieces, &mut bus, word)?;
    Ok((pieces.conversation, bus.steps().len()))
}

// Five halves in pieces of 128, 50 or 32 bytes, with eight transactions for selections and one that is refused. A word amid a half has none of it
// read again.
#[test]
fn pieces_give_the_same_image(rt: HostRuntime) -> Result<(), Fail> {
    for (piece, word, steps) in [
        (128, None, 14),
        (50, None, 24),
        (50, Some(1), 24),
        (32, None, 29),
    ] {
        let (reading, made) = read(rt.alloc(), Request::everything(), piece, word)?;
        assert_eq!(rt; made, steps);
        let mut bus = bus_of(rt.alloc(), Window::<16>::of(&image()?.view())?, b"", 500)?;
        let mut whole = Halves::reading(Request::everything());
        let spent = run(&mut bus, &mut whole)?;
        assert_eq!(rt; spent.steps, 13);
        assert!(rt; spent.end.is_some());
        let image = reading
            .conversation
            .conversation
            .image
            .view()
            .write(rt.alloc())?;
        let other = whole
            .conversation
            .conversation
            .image
            .view()
            .write(rt.alloc())?;
        assert_eq!(rt; image, other);
    }
    Ok(())
}

// The lower half, one half more, or two; each transaction of a page's selection counts, and the one that is refused. Bits for modules of
// other families request nothing.
#[test]
fn what_is_requested_is_read_alone(rt: HostRuntime) -> Result<(), Fail> {
    for (halves, steps, pages) in [
        (0x00, 2, b"".as_slice()),
        (0xF0, 2, b""),
        (0x08, 5, b"\x11"),
        (0x05, 8, b"\x00\x02"),
    ] {
        let (reading, made) = read(rt.alloc(), Request { halves }, 128, None)?;
        assert_eq!(rt; made, steps);
        let halves = &reading.conversation.conversation;
        assert_eq!(rt; halves.settled, 1 + pages.len());
        assert!(rt; halves.image.view().has(Key::lower(Dev::A0)));
        for page in [0x00, 0x01, 0x02, 0x11] {
            let read = halves.image.view().has(Key::upper(Dev::A0, 0, page));
            assert_eq!(rt; read, pages.contains(&page));
        }
    }
    Ok(())
}
