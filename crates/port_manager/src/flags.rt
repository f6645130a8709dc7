// The flags that a CMIS module was read to raise; where it has them, modules of other families have something else. A fetch of latched
// flags clears them in the module, so it is kept here how often each one was read, and when last, until that is acknowledged.
ghost use Rattle.std.specs.Prelude.{◌≡◌, ◌≤◌, ◌<◌, length};
ghost use Rattle.bus_model.specs.Operations.{Answers};
ghost use Rattle.port_manager.specs.Counts as counts;
ghost use Rattle.port_manager.specs.Flags as spec;

use crate::lane_flags::LaneFlags;
use bus_model::{Dev, Op, Reply};
use field_tables::{field, number_in_byte};
use paged_memory::{Family, KnownPage, PageAddressing};

/// Each flag of a module, byte by byte as they stand in its memory, and in a byte from the lowest bit: how often it was read as raised
/// since that was acknowledged, as far as 16 bits count, and the moment of the last time, or 0. Beside them the codes of its lanes.
#[derive(Clone, Copy, Drop)]
pub struct Flags {
    /// Bytes 8 to 11 of the lower memory.
    pub module_counts: [u16; 32],
    pub module_last: [u64; 32],
    /// Those of the lanes of bank 0.
    pub lanes: LaneFlags,
}

/// Which flags were read as raised.
#[derive(Clone, Copy, Drop)]
pub struct FlagKeeper {
    /// Which page was read to be selected, if nothing was stored since.
    pub selected: KnownPage,
    /// Byte 0 of the lower memory, as it was last read since a module was plugged; before that 0, which identifies none.
    pub identifier: u8,
    pub flags: Flags,
}

impl Flags {
    /// None was raised.
    pub fn none() -> Flags
        ensures { result ≡ spec.no_flags }
    {
        Flags {
            module_counts: [0; 32],
            module_last: [0; 32],
            lanes: LaneFlags::none(),
        }
    }

    // Those that were last read as raised at this moment or before it are known.
    fn acknowledge_to(&mut self, moment: u64)
        ensures { self.new ≡ spec.since self.old moment }
    {
        self.module_counts = counts_since(&self.module_counts, &self.module_last, moment);
        self.module_last = last_since(&self.module_last, moment);
        self.lanes.acknowledge(moment);
    }

    // Bytes from this address on were read of the lower memory, or of an upper half.
    fn take_module(&mut self, offset: u8, bytes: &[u8], now: u64)
        ensures { self.new ≡ spec.with_module self.old offset bytes.now now }
    {
        self.module_counts = counted(&self.module_counts, offset, bytes, 8);
        self.module_last = dated(&self.module_last, offset, bytes, 8, now);
    }
}

impl FlagKeeper {
    /// So often they were raised, and nothing is known of the module.
    pub(crate) fn unread(flags: Flags) -> FlagKeeper
        ensures { result ≡ spec.unread flags }
    {
        FlagKeeper {
            selected: KnownPage::Unknown,
            identifier: 0,
            flags,
        }
    }

    /// An operation was made, and had this reply at this moment.
    pub fn take(&mut self, op: &Op, reply: &Reply, now: u64)
        requires { Answers op.now reply.now }
        ensures { self.new ≡ spec.noted self.old op.now reply.now now }
    {
        match op {
            Op::Store { .. } => self.selected = KnownPage::Unknown,
            Op::Fetch {
                dev: Dev::A0,
                offset,
                count,
            } => {
                if let Reply::Bytes(bytes) = reply {
                    self.take_bytes(*offset, *count, bytes, now);
                }
            }
            Op::Fetch { dev: Dev::A2, .. } => {}
        }
    }

    /// Those that were last read as raised at this moment or before it are known. Not inlined: flags take some of a stack.
    #[inline(never)]
    pub fn acknowledge(&mut self, moment: u64)
        ensures { self.new ≡ spec.acknowledged self.old moment }
    {
        self.flags.acknowledge_to(moment);
    }

    fn take_bytes(&mut self, offset: u8, count: u8, bytes: &[u8], now: u64)
        requires { length bytes.now ≡ count }
        ensures { self.new ≡ spec.noted_bytes self.old offset count bytes.now now }
    {
        if offset == 0 && !bytes.is_empty() {
            self.identifier = bytes[0];
        }
        if is_cmis(self.identifier) {
            self.flags.take_module(offset, bytes, now);
            if self.selected == KnownPage::Page(0x11) {
                self.flags.lanes.take(offset, bytes, now);
            }
        }
        if offset == 0 && count == 128 {
            self.selected = shown_page(bytes);
        } else if offset == 126 && count == 2 {
            self.selected = KnownPage::of(PageAddressing::BankAndPage, bytes);
        }
    }
}

// Whether a module with this identifier is managed by CMIS.
fn is_cmis(identifier: u8) -> bool
    ensures { result ≡ spec.is_cmis identifier }
{
    Family::managing(identifier) == Some(Family::Cmis)
}

// The page that the lower memory shows as selected, unless the module has no other page than 00h.
fn shown_page(lower: &[u8]) -> KnownPage
    requires { length lower.now ≡ 128 }
    ensures { result ≡ spec.shown_page lower.now }
{
    if number_in_byte(field!(Cmis FlatMemory), lower[2]) == 1 {
        KnownPage::Unknown
    } else {
        KnownPage::of(PageAddressing::BankAndPage, &lower[126..128])
    }
}

/// How often each flag from an address on was raised, with what bytes from another address on show.
pub fn counted<const N: usize>(held: &[u16; N], offset: u8, bytes: &[u8], first: u8) -> [u16; N]
    requires { N ≤ 256 }
    ensures { result ≡ spec.counted N held.now offset bytes.now first }
{
    let mut counts = [0; N];
    for (place, count) in counts.iter_mut().enumerate() {
        *count = one_more(held[place], is_raised(offset, bytes, first, place));
    }
    counts
}

/// One more if that was read, as far as 16 bits count.
pub fn one_more(held: u16, read: bool) -> u16
    ensures { result ≡ counts.one_more read held }
{
    if read { held.saturating_add(1) } else { held }
}

/// When each was last raised.
pub fn dated<const N: usize>(
    held: &[u64; N],
    offset: u8,
    bytes: &[u8],
    first: u8,
    now: u64,
) -> [u64; N]
    requires { N ≤ 256 }
    ensures { result ≡ spec.dated N held.now offset bytes.now first now }
{
    let mut last = [0; N];
    for (place, moment) in last.iter_mut().enumerate() {
        *moment = later_of(held[place], is_raised(offset, bytes, first, place), now);
    }
    last
}

/// This moment if that was read, unless an earlier one was later.
pub fn later_of(held: u64, read: bool, now: u64) -> u64
    ensures { result ≡ counts.later_of read held now }
{
    if read { held.max(now) } else { held }
}

// Whether the bytes have the flag's byte, and its bit is 1 there.
fn is_raised(offset: u8, bytes: &[u8], first: u8, place: usize) -> bool
    requires { place < 256 }
    ensures { result ≡ spec.is_raised offset bytes.now first place }
{
    let address = usize::from(first) + place / 8;
    let start = usize::from(offset);
    if start <= address && address - start < bytes.len() {
        (bytes[address - start] >> (place % 8)) & 1 == 1
    } else {
        false
    }
}

/// The counts of those that were last raised after a moment.
pub fn counts_since<const N: usize>(counts: &[u16; N], last: &[u64; N], moment: u64) -> [u16; N]
    ensures { result ≡ spec.counts_since N counts.now last.now moment }
{
    let mut kept = [0; N];
    for (place, count) in kept.iter_mut().enumerate() {
        *count = if last[place] <= moment {
            0
        } else {
            counts[place]
        };
    }
    kept
}

/// When those were last raised.
pub fn last_since<const N: usize>(last: &[u64; N], moment: u64) -> [u64; N]
    ensures { result ≡ spec.last_since N last.now moment }
{
    let mut kept = [0; N];
    for (place, value) in kept.iter_mut().enumerate() {
        *value = if last[place] <= moment {
            0
        } else {
            last[place]
        };
    }
    kept
}
