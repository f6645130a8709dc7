// A few pages of bytes that answer as a module with controls of lanes.
use arrayvec::ArrayVec;
use bus_model::{Op, Reply};

/// Pages 01h, 10h, 11h, 13h and 14h, of which the bytes of the upper half.
#[derive(Drop)]
pub(crate) struct Pages {
    pub pages: [[u8; 128]; 5],
    /// Each so many-th transaction is refused; none if 0.
    pub refuses_each: u32,
    pub transactions: u32,
    pub stores: u32,
    /// A byte of page 13h that is stored once, and then stays.
    pub stuck: Option<u8>,
    /// The page that the upper half shows.
    pub shown: u8,
    /// Whether staged settings become active at once.
    pub applies: bool,
    /// Whether staged control bytes do.
    pub provisions: bool,
    /// Byte 3 of the lower half.
    pub state: u8,
}

fn index_of(page: Option<u8>) -> usize {
    match page {
        Some(0x01) => 0,
        Some(0x10) => 1,
        Some(0x11) => 2,
        Some(0x13) => 3,
        _ => 4,
    }
}

impl Pages {
    pub(crate) fn byte(&self, page: u8, address: u8) -> u8 {
        let bytes = self.pages.get(index_of(Some(page)));
        let byte = bytes.and_then(|bytes| bytes.get(usize::from(address.wrapping_sub(128))));
        byte.copied().unwrap_or(0)
    }

    pub(crate) fn set(&mut self, page: u8, address: u8, byte: u8) {
        if let Some(bytes) = self.pages.get_mut(index_of(Some(page))) {
            if let Some(place) = bytes.get_mut(usize::from(address.wrapping_sub(128))) {
                *place = byte;
            }
        }
    }

    // Byte 3 has the module's state, and bytes 126 and 127 are the selection.
    fn read(&self, page: u8, address: u8) -> u8 {
        match address {
            3 => self.state,
            126 => 0,
            127 => self.shown,
            _ => self.byte(page, address),
        }
    }

    // What is stored at ApplyImmediate makes all staged settings active; at ApplyDPInit, the control bytes of its lanes too.
    fn store(&mut self, page: u8, offset: u8, bytes: &[u8]) {
        let mut address = offset;
        for byte in bytes.iter() {
            self.set(page, address, *byte);
            address = address.wrapping_add(1);
        }
        if page == 0x10 && offset == 144 {
            self.apply_settings();
        }
        if page == 0x10 && offset == 143 && self.byte(0x10, 143) == 0xff {
            self.provision();
            self.apply_settings();
        }
    }

    fn apply_settings(&mut self) {
        for place in 0..21u8 {
            let staged = self.byte(0x10, 153u8.wrapping_add(place));
            if self.applies {
                self.set(0x11, 214u8.wrapping_add(place), staged);
            }
        }
    }

    fn provision(&mut self) {
        for place in 0..8u8 {
            let staged = self.byte(0x10, 145u8.wrapping_add(place));
            if self.provisions {
                self.set(0x11, 206u8.wrapping_add(place), staged);
            }
        }
    }

    pub(crate) fn answer(&mut self, page: u8, op: &Op) -> Reply {
        self.transactions = self.transactions.wrapping_add(1);
        if self.refuses_each > 0 && self.transactions % self.refuses_each == 0 {
            return Reply::Refused;
        }
        match op {
            Op::Fetch { offset, count, .. } => {
                let mut bytes = ArrayVec::new();
                for i in 0..*count {
                    let _room = bytes.try_push(self.read(page, offset.wrapping_add(i)));
                }
                Reply::Bytes(bytes)
            }
            Op::Store {
                offset: 126,
                bytes,
                ..
            } => {
                self.shown = bytes.get(1).copied().unwrap_or(0);
                Reply::Done
            }
            Op::Store { offset, bytes, .. } => {
                self.stores = self.stores.wrapping_add(1);
                let is_stuck = self.stuck == Some(*offset) && self.byte(page, *offset) != 0;
                if !is_stuck {
                    self.store(page, *offset, bytes);
                }
                Reply::Done
            }
        }
    }
}

// A module with all paths down that advertises PRBS-31Q, loopbacks lane by lane, ratios and counters.
pub(crate) fn board() -> Pages {
    let mut board = Pages {
        pages: [[0; 128]; 5],
        refuses_each: 0,
        transactions: 0,
        stores: 0,
        stuck: None,
        shown: 0,
        applies: true,
        provisions: false,
        state: 0x06,
    };
    board.set(0x01, 142, 0x20);
    for address in 128..132u8 {
        board.set(0x11, address, 0x11);
    }
    board.set(0x13, 128, 0x3f);
    board.set(0x13, 130, 0x03);
    board.set(0x13, 132, 0x01);
    board.set(0x13, 134, 0x01);
    board.set(0x13, 136, 0x01);
    board.set(0x13, 138, 0x01);
    board.set(0x13, 148, 0xcb);
    board.set(0x13, 180, 0x80);
    board
}
