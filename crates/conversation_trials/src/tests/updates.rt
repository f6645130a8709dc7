// Firmware updates, on a module that carries out each command at once.
use arrayvec::ArrayVec;
use bus_model::{MAX_FETCH, MAX_STORE, Op, Reply};
use conversations::TimedBus;
use firmware_update::{Cause, Known, UpdateRun, run_update};
use std::test::Fail;

// A module whose page 9Fh is always selected. At first bank A runs and is committed, and bank B is empty.
#[derive(Drop)]
struct TwoBanks {
    lower: [u8; 128],
    page: [u8; 128],
    // What was stored of a body.
    body: ArrayVec<u8, 120>,
    // The image that was received.
    image: ArrayVec<u8, 120>,
    new_runs: bool,
    new_committed: bool,
    // Whether the new image boots, and whether the store of the id of a Run is refused although it is taken.
    boots: bool,
    hides_run: bool,
    // How often it says that it is busy with a command, and still will.
    slowness: u16,
    busy: u16,
    // With which status it refuses a Start while an earlier download is open, or 0; how it ended the last command.
    refusal: u8,
    status: u8,
    starts: u8,
    aborts: u8,
    runs: u8,
    commits: u8,
    waited: u32,
}

impl TwoBanks {
    ghost use Rattle.std.specs.Prelude.{◌≡◌, length};
    ghost use Rattle.bus_model.specs.Operations.{IsInHalf};

    fn standing() -> TwoBanks {
        let mut lower = [0; 128];
        lower[127] = 0x9f;
        TwoBanks {
            lower,
            page: [0; 128],
            body: ArrayVec::new(),
            image: ArrayVec::new(),
            new_runs: false,
            new_committed: false,
            boots: true,
            hides_run: false,
            slowness: 0,
            busy: 0,
            refusal: 0,
            status: 0,
            starts: 0,
            aborts: 0,
            runs: 0,
            commits: 0,
            waited: 0,
        }
    }

    // Bits 0 to 2 and 4 to 6: which bank runs, is committed and is not valid.
    fn info(&self) -> u8 {
        match (self.new_runs, self.new_committed) {
            (false, _) if self.runs == 0 => 0x43,
            (false, _) => 0x03,
            (true, false) => 0x12,
            (true, true) => 0x30,
        }
    }

    // Replies come with their lengths and check codes.
    fn carry_out(&mut self, id: u16) {
        self.status = 0x01;
        match id {
            0x0041 => {
                self.page[6] = 18;
                self.page[7] = 253;
                self.page[8] = 0;
                self.page[10] = 1;
                self.page[13] = 1;
            }
            0x0100 => {
                let info = self.info();
                self.page[6] = 1;
                self.page[7] = 255 - info;
                self.page[8] = info;
            }
            0x0101 if self.refusal != 0 => self.status = self.refusal,
            0x0102 => {
                self.aborts = self.aborts.saturating_add(1);
                self.refusal = 0;
            }
            0x0101 => {
                self.starts = self.starts.saturating_add(1);
                self.image.clear();
                self.receive(8);
            }
            0x0103 => self.receive(4),
            0x0109 => {
                self.runs = self.runs.saturating_add(1);
                self.new_runs = self.boots;
            }
            0x010a => {
                self.commits = self.commits.saturating_add(1);
                self.new_committed = self.new_runs;
            }
            _ => {}
        }
        self.busy = self.slowness;
        self.show_status();
    }

    fn show_status(&mut self) {
        self.lower[37] = if self.busy > 0 { 0x83 } else { self.status };
    }

    // The bytes of the body behind its first ones.
    fn receive(&mut self, from: usize) {
        for byte in self.body.iter().skip(from) {
            let _full = self.image.try_push(*byte);
        }
    }

    fn fetch(&self, offset: u8, count: u8) -> ArrayVec<u8, MAX_FETCH>
        requires { IsInHalf offset count }
        ensures { length result.items ≡ count }
    {
        let from = usize::from(offset);
        let count = usize::from(count);
        if from < 128 {
            ArrayVec::try_from(&self.lower[from..from + count]).unwrap()
        } else {
            ArrayVec::try_from(&self.page[from - 128..from - 128 + count]).unwrap()
        }
    }

    // Whether the store is said to be taken.
    fn store(&mut self, offset: u8, bytes: &ArrayVec<u8, MAX_STORE>) -> bool {
        if offset == 128 {
            let id = match bytes.as_slice() {
                [high, low] => u16::from(*high) * 256 + u16::from(*low),
                _ => 0,
            };
            self.carry_out(id);
            if id == 0x0109 && self.hides_run {
                return false;
            }
        } else if offset >= 136 {
            if offset == 136 {
                self.body.clear();
            }
            let _full = self.body.try_extend_from_slice(bytes.as_slice());
        } else if offset == 130 {
            self.page[6] = 0;
        }
        true
    }
}

impl TimedBus for TwoBanks {
    type Fault = ();

    ghost makes = { λ old step new. Unit {0} };

    ghost passes = { λ old time new. Unit {0} };

    ghost fails = { λ old fault new. Unit {0} };

    fn transact(&mut self, op: Op) -> Result<Reply, ()> {
        match op {
            Op::Fetch { offset, count, .. } => {
                if offset == 37 {
                    self.show_status();
                    self.busy = self.busy.saturating_sub(1);
                }
                Ok(Reply::Bytes(self.fetch(offset, count)))
            }
            Op::Store { offset, bytes, .. } => {
                if self.store(offset, &bytes) {
                    Ok(Reply::Done)
                } else {
                    Ok(Reply::Refused)
                }
            }
        }
    }

    fn pause(&mut self, milliseconds: u32) {
        self.waited = self.waited.saturating_add(milliseconds);
    }
}

const FILE: [u8; 5] = [9, 8, 7, 6, 5];

// The first byte goes with the Start, the others in a block.
#[test]
fn a_file_becomes_the_committed_image(rt: HostRuntime) -> Result<(), Fail> {
    let mut module = TwoBanks::standing();
    let run = run_update(&mut module, &FILE);
    assert!(rt;
        matches!(
            run,
            UpdateRun::Over {
                known: Known::Committed,
                end: Ok(())
            }
        )
    );
    assert_eq!(rt; module.image.as_slice(), FILE.as_slice());
    assert!(rt; module.new_committed);
    assert_eq!(rt; (module.starts, module.runs, module.commits), (1, 1, 1));
    Ok(())
}

// It is asked 33 times which bank runs, a second apart, and nothing is committed.
#[test]
fn an_image_that_does_not_boot_is_not_committed(rt: HostRuntime) -> Result<(), Fail> {
    let mut module = TwoBanks::standing();
    module.boots = false;
    let run = run_update(&mut module, &FILE);
    assert!(rt;
        matches!(
            run,
            UpdateRun::Over {
                known: Known::MayRun,
                end: Err(Cause::GaveUp)
            }
        )
    );
    assert_eq!(rt; (module.starts, module.runs, module.commits), (1, 1, 0));
    assert!(rt; module.waited >= 32_000);
    Ok(())
}

#[test]
fn no_download_begins_over_a_committed_image(rt: HostRuntime) -> Result<(), Fail> {
    let mut module = TwoBanks::standing();
    module.new_runs = true;
    let run = run_update(&mut module, &FILE);
    assert!(rt;
        matches!(
            run,
            UpdateRun::Over {
                known: Known::Untouched,
                end: Err(Cause::NotStanding)
            }
        )
    );
    assert_eq!(rt; (module.starts, module.runs, module.commits), (0, 0, 0));
    Ok(())
}

fn ended(run: UpdateRun<()>) -> Option<(Known, Result<(), Cause>)> {
    match run {
        UpdateRun::Over { known, end } => Some((known, end)),
        UpdateRun::Stopped(()) => None,
    }
}

// An earlier download is open: the update gives it up, and the next one begins.
#[test]
fn an_earlier_download_is_given_up(rt: HostRuntime) -> Result<(), Fail> {
    for status in [0x43, 0x47] {
        let mut module = TwoBanks::standing();
        module.refusal = status;
        assert_eq!(rt;
            ended(run_update(&mut module, &FILE)),
            Some((Known::Aborted, Err(Cause::LeftOpen(status))))
        );
        assert_eq!(rt; (module.starts, module.aborts, module.runs), (0, 1, 0));
        assert_eq!(rt;
            ended(run_update(&mut module, &FILE)),
            Some((Known::Committed, Ok(())))
        );
        assert_eq!(rt; (module.starts, module.aborts, module.commits), (1, 1, 1));
    }
    Ok(())
}

// It is refused for another reason.
#[test]
fn another_refusal_of_a_start_aborts_nothing(rt: HostRuntime) -> Result<(), Fail> {
    let mut module = TwoBanks::standing();
    module.refusal = 0x42;
    assert_eq!(rt;
        ended(run_update(&mut module, &FILE)),
        Some((Known::Untouched, Err(Cause::Refused(0x42))))
    );
    assert_eq!(rt; (module.starts, module.aborts), (0, 0));
    Ok(())
}

// The module took the Run, though it refused the store; so it is asked which bank runs.
#[test]
fn a_run_is_not_sent_again(rt: HostRuntime) -> Result<(), Fail> {
    let mut module = TwoBanks::standing();
    module.hides_run = true;
    let run = run_update(&mut module, &FILE);
    assert!(rt;
        matches!(
            run,
            UpdateRun::Over {
                known: Known::Committed,
                end: Ok(())
            }
        )
    );
    assert_eq!(rt; (module.starts, module.runs, module.commits), (1, 1, 1));
    Ok(())
}

// It is busy for some nine seconds with each command, and is looked at each ten milliseconds.
#[test]
fn a_busy_module_is_waited_for(rt: HostRuntime) -> Result<(), Fail> {
    let mut module = TwoBanks::standing();
    module.slowness = 900;
    let run = run_update(&mut module, &FILE);
    assert!(rt;
        matches!(
            run,
            UpdateRun::Over {
                known: Known::Committed,
                end: Ok(())
            }
        )
    );
    assert_eq!(rt; module.image.as_slice(), FILE.as_slice());
    assert_eq!(rt; (module.starts, module.runs, module.commits), (1, 1, 1));
    assert!(rt; module.waited > 9 * 9000);
    assert!(rt; module.waited < 9 * 9100);
    Ok(())
}

// With each command it is busy for longer than ten seconds, and says nothing of that; so nothing is begun.
#[test]
fn a_module_that_stays_busy_is_left_alone(rt: HostRuntime) -> Result<(), Fail> {
    let mut module = TwoBanks::standing();
    module.slowness = 2000;
    let run = run_update(&mut module, &FILE);
    assert!(rt;
        matches!(
            run,
            UpdateRun::Over {
                known: Known::Untouched,
                end: Err(Cause::GaveUp)
            }
        )
    );
    assert_eq!(rt; (module.starts, module.runs, module.commits), (0, 0, 0));
    Ok(())
}
