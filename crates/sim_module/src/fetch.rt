//! What a module shows, and what a fetch makes of it.
use crate::fixed::Fixed;
use crate::moving::{LANE_FLAGS, Moving};
use crate::registers::{control_page, index_in, is_at, is_field_at, is_from, status_page};
use arrayvec::ArrayVec;
use bus_model::Dev;
use field_tables::{LaneNumber, Register, field, register};
use paged_memory::PAGE_LEN;

impl Moving {
    ghost use Rattle.std.specs.Prelude.{◌≡◌, ◌≤◌, ◌<◌, ◌+◌, length, map, option_map, IfSome};
    ghost use Rattle.std.specs.List.{range_with_len};
    ghost use Rattle.bus_model.specs.declared.device.Dev.{Dev};
    ghost use Rattle.sim_module.specs.Registers as registers;
    ghost use Rattle.sim_module.specs.Record.{bare, module_of};
    ghost use Rattle.sim_module.specs.declared.fixed.Fixed.{Fixed};
    ghost use Rattle.sim_module.specs.ShownBytes as spec;

    // Whether a page of bank 0 is mapped.
    pub(crate) fn is_mapped(&self, page: u8) -> bool
        ensures { result ≡ spec.is_mapped (bare self.now) page }
    {
        self.selection.bank == 0 && self.selection.page == page
    }

    fn path_pair(&self, index: u8) -> u8
        requires { index < 4 }
        ensures { result ≡ spec.pair_byte (spec.path_code (bare self.now)) index }
    {
        let odd = self.lane(LaneNumber::at(2 * index)).path;
        let even = self.lane(LaneNumber::at(2 * index + 1)).path;
        odd.code() + 16 * even.code()
    }

    fn status_pair(&self, index: u8) -> u8
        requires { index < 4 }
        ensures { result ≡ spec.pair_byte (spec.status_code (bare self.now)) index }
    {
        let odd = self.lane(LaneNumber::at(2 * index)).status;
        let even = self.lane(LaneNumber::at(2 * index + 1)).status;
        odd.code() % 16 + 16 * (even.code() % 16)
    }

    // A byte of lower memory, given the image's.
    fn lower_byte(&self, byte: u8, address: u8) -> u8
        ensures { result ≡ spec.first_shown (spec.lower_bytes (bare self.now) byte address) byte }
    {
        if is_at(Register::GlobalStatus, address) {
            (byte & 0xF1) + 2 * self.state.code()
        } else if is_at(Register::ModuleFlags, address) {
            self.module_flags
        } else if is_at(Register::GlobalControls, address) {
            self.control & 0xF7
        } else if is_field_at(field!(Cmis BankSelect), address) {
            self.selection.bank
        } else if is_field_at(field!(Cmis PageSelect), address) {
            self.selection.page
        } else {
            byte
        }
    }

    // A byte of the page of lane control, given the image's.
    fn configuration_byte(&self, byte: u8, address: u8) -> u8
        ensures { result ≡ spec.first_shown (spec.configuration_bytes (bare self.now) address) byte }
    {
        if is_at(Register::DPDeinit, address) {
            self.deinit.byte()
        } else if is_at(Register::ApplyDPInit, address) {
            0
        } else if let Some(index) = index_in(Register::StagedControl, address) {
            self.lane(LaneNumber::at(index)).staged
        } else {
            byte
        }
    }

    // A byte of the page of lane status, given the image's.
    fn status_byte(&self, byte: u8, address: u8) -> u8
        ensures { result ≡ spec.first_shown (spec.status_bytes (bare self.now) address) byte }
    {
        if let Some(index) = index_in(Register::PathStates, address) {
            self.path_pair(index)
        } else if let Some(index) = index_in(Register::LaneFlags, address) {
            self.lane_flags[usize::from(index)]
        } else if let Some(index) = index_in(Register::ConfigStatus, address) {
            self.status_pair(index)
        } else if let Some(index) = index_in(Register::ActiveControl, address) {
            self.lane(LaneNumber::at(index)).active
        } else {
            byte
        }
    }

    #[tactic(auto, unfolding(crate::specs::ShownBytes::shown_byte))]
    fn shown_byte(&self, page: &[u8; PAGE_LEN], address: u8) -> u8
        ensures { result ≡ spec.shown_byte (bare self.now) page.now address }
    {
        if address < 128 {
            return self.lower_byte(page[usize::from(address)], address);
        }
        let byte = page[usize::from(address) - 128];
        if self.is_mapped(control_page()) {
            self.configuration_byte(byte, address)
        } else if self.is_mapped(status_page()) {
            self.status_byte(byte, address)
        } else {
            byte
        }
    }

    fn shown_bytes(&self, page: &[u8; PAGE_LEN], first: u8, count: u8) -> ArrayVec<u8, 128>
        requires half { first + count ≤ 256 }
        requires room { count ≤ 128 }
        ensures bytes { result.items ≡ map (spec.shown_byte (bare self.now) page.now) (range_with_len first count) }
        ensures count { length result.items ≡ count }
    {
        let mut bytes = ArrayVec::new();
        for index in 0..count {
            bytes.push(self.shown_byte(page, first + index));
        }
        bytes
    }

    // What a fetch on device A0 answers.
    #[tactic(auto, unfolding(crate::specs::ShownBytes::fetched, crate::specs::ShownBytes::shown_byte))]
    pub(crate) fn shown(&self, fixed: &Fixed, first: u8, count: u8) -> Option<ArrayVec<u8, 128>>
        requires half { first + count ≤ 256 }
        requires room { count ≤ 128 }
        ensures answer { option_map (λ bytes. bytes.items) result ≡ (spec.fetched (module_of fixed.now self.now) Dev.A0 first count).0 }
        ensures count { IfSome result (λ bytes. length bytes.items ≡ count) }
    {
        match fixed.image.view().page(self.selection.key(Dev::A0, first)) {
            Some(page) => Some(self.shown_bytes(page.bytes(), first, count)),
            None => None,
        }
    }

    // A latched flag of the lanes, by its place from the first one, after some addresses were read.
    fn left_lane_flag(&self, first: u8, count: u8, index: u8) -> u8
        requires half { first + count ≤ 256 }
        requires index { index < LANE_FLAGS }
        ensures { result ≡ spec.left_lane_flag (bare self.now) (registers.is_from first count) index }
    {
        let flag = self.lane_flags[usize::from(index)];
        let address = register(Register::LaneFlags).first + index;
        if self.is_mapped(status_page()) && is_from(first, count, address) {
            0
        } else {
            flag
        }
    }

    fn left_lane_flags(&self, first: u8, count: u8) -> [u8; LANE_FLAGS]
        requires { first + count ≤ 256 }
        ensures { result ≡ spec.left_lane_flags (bare self.now) (registers.is_from first count) }
    {
        let mut flags = [0; LANE_FLAGS];
        for (index, flag) in flags.iter_mut().enumerate() {
            *flag = self.left_lane_flag(first, count, index as u8);
        }
        flags
    }

    // The latched flags that were read become 0.
    #[tactic(auto, unfolding(crate::specs::ShownBytes::cleared))]
    pub(crate) fn clear(&mut self, first: u8, count: u8)
        requires { first + count ≤ 256 }
        ensures { (fixed : Fixed) → module_of fixed self.new ≡ spec.cleared (module_of fixed self.old) (registers.is_from first count) }
    {
        self.lane_flags = self.left_lane_flags(first, count);
        if is_from(first, count, register(Register::ModuleFlags).first) {
            self.module_flags = 0;
        }
    }
}
