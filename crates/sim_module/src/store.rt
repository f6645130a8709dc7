//! What a store makes of a module.
use crate::fixed::Fixed;
use crate::moving::Moving;
use crate::registers::{control_page, index_in, is_at};
use applications::LaneSet;
use field_tables::Register;
use paged_memory::PageAddressing;

impl Moving {
    ghost use Rattle.std.specs.Prelude.{◌≡◌, ◌≤◌, ◌+◌, length};
    ghost use Rattle.sim_module.specs.Record.{module_of};
    ghost use Rattle.sim_module.specs.Stores as spec;

    // In lower memory.
    fn store_low(&mut self, fixed: &Fixed, address: u8, byte: u8)
        ensures { module_of fixed.now self.new ≡ spec.stored_low (module_of fixed.now self.old) address byte }
    {
        self.selection = self.selection.selected(
            Some(PageAddressing::BankAndPage),
            &fixed.image.view(),
            address,
            byte,
        );
        if is_at(Register::GlobalControls, address) {
            self.control = byte;
        }
    }

    // On the page of lane control.
    fn store_high(&mut self, fixed: &Fixed, address: u8, byte: u8)
        ensures { module_of fixed.now self.new ≡ spec.stored_high (module_of fixed.now self.old) address byte }
    {
        if is_at(Register::DPDeinit, address) {
            self.deinit = LaneSet::from(byte);
        } else if is_at(Register::ApplyDPInit, address) {
            self.apply(fixed, LaneSet::from(byte));
        } else if let Some(index) = index_in(Register::StagedControl, address) {
            self.lanes[usize::from(index)].staged = byte;
        }
    }

    #[tactic(auto, unfolding(crate::specs::Stores::stored_byte))]
    fn store_byte(&mut self, fixed: &Fixed, address: u8, byte: u8)
        ensures { module_of fixed.now self.new ≡ spec.stored_byte (module_of fixed.now self.old) address byte }
    {
        if address < 128 {
            self.store_low(fixed, address, byte);
        } else if self.is_mapped(control_page()) {
            self.store_high(fixed, address, byte);
        }
    }

    // Stores bytes one by one, by rising address.
    pub(crate) fn store_bytes(&mut self, fixed: &Fixed, address: u8, bytes: &[u8])
        requires { address + length bytes.now ≤ 256 }
        ensures { module_of fixed.now self.new ≡ spec.stored_bytes (module_of fixed.now self.old) address bytes.now }
    {
        for (index, byte) in bytes.iter().enumerate() {
            self.store_byte(fixed, address + index as u8, *byte);
        }
    }
}
