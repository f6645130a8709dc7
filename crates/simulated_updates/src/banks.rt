//! The firmware of the simulated module, and what its messages do with that.
ghost use Rattle.std.specs.Prelude.{◌≡◌, ◌≤◌, [], Some, true, false, drop, length, slice_index};
ghost use Rattle.command_block.specs.declared.outcome.Outcome.TheVariants.{Failed, Succeeded};
ghost use Rattle.firmware_laws.specs.SampleModules.{begun, can_other, committed, fill_other, info, read32, weighed};
ghost use Rattle.simulated_updates.specs.Performed as spec;
ghost use Rattle.simulated_updates.specs.Resets as resets;
ghost use Rattle.simulated_updates.specs.Seen.{firmware_of};

use arrayvec::ArrayVec;
use command_block::Outcome;
use firmware_update::Bank;

/// How many bytes of a file can be stored behind those that go with the Start.
pub const MEMORY: usize = 1024;

/// How many bytes an image has at most: those, and those that go with the Start.
pub const MAX_IMAGE: usize = 1136;

/// What a bank holds.
#[derive(Debug, PartialEq, Eq, Drop)]
pub struct Slot {
    /// Whether it is an image that can run.
    pub valid: bool,
    /// Whether that is to run after each reset.
    pub committed: bool,
    pub image: ArrayVec<u8, MAX_IMAGE>,
}

/// An open download.
#[derive(Debug, PartialEq, Eq, Drop)]
pub struct Receiving {
    /// How many bytes the file has.
    pub size: u32,
    /// Those that came with the Start.
    pub first: ArrayVec<u8, 112>,
    /// Those that came in blocks.
    pub rest: ArrayVec<u8, MEMORY>,
}

/// The two banks, and what is open.
#[derive(Debug, PartialEq, Eq, Drop)]
pub struct Banks {
    pub a: Slot,
    pub b: Slot,
    pub running: Bank,
    pub download: Option<Receiving>,
    /// The bank that runs after a reset that is still to come.
    pub reset: Option<Bank>,
}

const FAILED: u8 = 0x40;

const UNKNOWN_COMMAND: u8 = 0x41;

const OUT_OF_RANGE: u8 = 0x42;

const NOT_NOW: u8 = 0x47;

impl Banks {
    /// Carries a message out, if that can be.
    pub fn perform(&mut self, id: u16, body: &[u8]) -> Outcome
        requires { length body.now ≤ 120 }
        ensures { spec.performed id body.now (firmware_of self.old) ≡ record { outcome = Some result; after = firmware_of self.new } }
    {
        if id == 0x0001 {
            done()
        } else if id == 0x0041 {
            features()
        } else if id == 0x0100 {
            self.info()
        } else if id == 0x0101 {
            self.start(body);
            done()
        } else if id == 0x0102 {
            self.abort()
        } else if id == 0x0103 {
            self.store(body)
        } else if id == 0x0107 {
            self.complete()
        } else if id == 0x0109 {
            self.run()
        } else if id == 0x010a {
            self.commit();
            done()
        } else {
            Outcome::Failed(UNKNOWN_COMMAND)
        }
    }

    fn info(&self) -> Outcome
        ensures { result ≡ Succeeded (record { items = info (firmware_of self.now) }) }
    {
        let runs_a = weighed(matches!(self.running, Bank::A), 1);
        let runs_b = weighed(matches!(self.running, Bank::B), 16);
        let a = runs_a + weighed(self.a.committed, 2) + weighed(!self.a.valid, 4);
        let mut reply = ArrayVec::new();
        reply.push(a + runs_b + weighed(self.b.committed, 32) + weighed(!self.b.valid, 64));
        Outcome::Succeeded(reply)
    }

    // The bank that doesn't run is erased, and a download is open.
    fn start(&mut self, body: &[u8])
        requires { length body.now ≤ 120 }
        ensures { firmware_of self.new ≡ begun body.now (firmware_of self.old) }
    {
        self.fill_other(false, ArrayVec::new());
        self.download = Some(Receiving {
            size: read32(body),
            first: ArrayVec::try_from(behind(body, 8)).unwrap(),
            rest: ArrayVec::new(),
        });
    }

    fn abort(&mut self) -> Outcome
        ensures { spec.aborting (firmware_of self.old).download (firmware_of self.old) ≡ record { outcome = Some result; after = firmware_of self.new } }
    {
        match self.download.take() {
            Some(_download) => done(),
            None => Outcome::Failed(NOT_NOW),
        }
    }

    // The bytes of a block are stored behind those before its address.
    fn store(&mut self, body: &[u8]) -> Outcome
        requires { length body.now ≤ 120 }
        ensures { spec.storing body.now (firmware_of self.old).download (firmware_of self.old) ≡ record { outcome = Some result; after = firmware_of self.new } }
    {
        let Some(mut download) = self.download.take() else {
            return Outcome::Failed(NOT_NOW);
        };
        let address = read32(body) as usize;
        let outcome = if MEMORY < address + body.len().saturating_sub(4) {
            Outcome::Failed(OUT_OF_RANGE)
        } else {
            download.rest.truncate(address);
            download
                .rest
                .try_extend_from_slice(behind(body, 4))
                .unwrap();
            done()
        };
        self.download = Some(download);
        outcome
    }

    // What was received is the image of the bank that doesn't run.
    fn complete(&mut self) -> Outcome
        ensures { spec.completing (firmware_of self.old).download (firmware_of self.old) ≡ record { outcome = Some result; after = firmware_of self.new } }
    {
        let Some(download) = self.download.take() else {
            return Outcome::Failed(NOT_NOW);
        };
        let first = download.first.as_slice();
        let rest = download.rest.as_slice();
        let left = (download.size as usize).saturating_sub(first.len());
        let mut image = ArrayVec::new();
        image.try_extend_from_slice(first).unwrap();
        image
            .try_extend_from_slice(&rest[..left.min(rest.len())])
            .unwrap();
        self.fill_other(true, image);
        done()
    }

    // The bank that doesn't run is to run after a reset, if it can.
    fn run(&mut self) -> Outcome
        ensures { spec.running (firmware_of self.old) ≡ record { outcome = Some result; after = firmware_of self.new } }
    {
        let (other, can) = match self.running {
            Bank::A => (Bank::B, self.b.valid),
            Bank::B => (Bank::A, self.a.valid),
        };
        if can {
            self.reset = Some(other);
            done()
        } else {
            Outcome::Failed(NOT_NOW)
        }
    }

    fn commit(&mut self)
        ensures { firmware_of self.new ≡ committed (firmware_of self.old) }
    {
        self.a.committed = matches!(self.running, Bank::A);
        self.b.committed = matches!(self.running, Bank::B);
    }

    fn fill_other(&mut self, valid: bool, image: ArrayVec<u8, MAX_IMAGE>)
        ensures { firmware_of self.new ≡ fill_other valid image.items (firmware_of self.old) }
    {
        match self.running {
            Bank::A => {
                self.b.valid = valid;
                self.b.image = image;
            }
            Bank::B => {
                self.a.valid = valid;
                self.a.image = image;
            }
        }
    }

    /// Loses power, and comes up again.
    pub fn lose_power(&mut self)
        ensures { firmware_of self.new ≡ resets.lost (firmware_of self.old) }
    {
        let bank = self.booted();
        self.come_up(bank);
    }

    /// The reset comes that was for this bank.
    pub fn reset_to(&mut self, boots: bool, bank: Bank)
        ensures { firmware_of self.new ≡ resets.reset_to boots bank (firmware_of self.old) }
    {
        let valid = match bank {
            Bank::A => self.a.valid,
            Bank::B => self.b.valid,
        };
        if boots && valid {
            self.come_up(bank);
        } else {
            self.lose_power();
        }
    }

    // A committed image that can run, if there is one.
    fn booted(&self) -> Bank
        ensures { result ≡ resets.booted (firmware_of self.now) }
    {
        if self.a.committed && self.a.valid {
            Bank::A
        } else if self.b.committed && self.b.valid {
            Bank::B
        } else {
            self.running
        }
    }

    fn come_up(&mut self, bank: Bank)
        ensures { firmware_of self.new ≡ resets.up bank (firmware_of self.old) }
    {
        self.running = bank;
        self.download = None;
        self.reset = None;
    }
}

/// What a message comes to that fails by chance.
pub(crate) fn failure() -> Outcome
    ensures { result ≡ Failed spec.failed }
{
    Outcome::Failed(FAILED)
}

fn done() -> Outcome
    ensures { result ≡ Succeeded (record { items = [] }) }
{
    Outcome::Succeeded(ArrayVec::new())
}

// A download can be aborted, 8 bytes go with a Start, and blocks are written by the local payload.
fn features() -> Outcome
    ensures { result ≡ Succeeded (record { items = spec.features }) }
{
    let mut reply = ArrayVec::new();
    let bytes: [u8; 18] = [
        1, 0, 8, 255, 0, 1, 0, 0, 7, 208, 7, 208, 7, 208, 7, 208, 0, 0,
    ];
    reply.try_extend_from_slice(&bytes).unwrap();
    Outcome::Succeeded(reply)
}

fn weighed(is: bool, weight: u8) -> u8
    ensures value { result ≡ weighed is weight }
    ensures most { result ≤ weight }
{
    if is { weight } else { 0 }
}

// The number of the first four bytes.
fn read32(bytes: &[u8]) -> u32
    ensures { result ≡ read32 bytes.now }
{
    let high = byte_at(bytes, 0) * 0x0100_0000 + byte_at(bytes, 1) * 0x0001_0000;
    high + byte_at(bytes, 2) * 0x0100 + byte_at(bytes, 3)
}

// The byte at an index, or 0.
fn byte_at(bytes: &[u8], index: usize) -> u32
    ensures value { result ≡ slice_index bytes.now index }
    ensures most { result ≤ 255 }
{
    if index < bytes.len() {
        u32::from(bytes[index])
    } else {
        0
    }
}

// What stands behind so many bytes.
fn behind(bytes: &[u8], count: usize) -> &[u8]
    ensures { result.now ≡ drop count bytes.now }
{
    if count < bytes.len() {
        &bytes[count..]
    } else {
        &bytes[..0]
    }
}
