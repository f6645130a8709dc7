//! A procedure for every bus, and what it tells of a window on that bus.
ghost use Rattle.std.specs.Prelude.{Some, ◌≡◌, [], ◌∷◌, Bool, IfOk, IfSome};
ghost use Rattle.bus_model.specs.declared.device.Dev.TheVariants.{A0};
ghost use Rattle.bus_model.specs.Operations.{fetch_step, store_step};
ghost use Rattle.bus_model.specs.Runs.{Makes};
ghost use Rattle.paged_memory.specs.declared.page_addressing.PageAddressing.TheVariants.{BankAndPage};
ghost use Rattle.paged_memory.specs.MappedPages.{selecting_on};

use arrayvec::ArrayVec;
use bus_model::{Bus, BusFault, Dev, MAX_FETCH, ScriptBus};
use paged_memory::Window;

/// Selects a page of bank 0, whether or not that is taken, and reads what is selected.
pub fn select<B: Bus>(bus: &mut B, page: u8) -> Result<Option<ArrayVec<u8, MAX_FETCH>>, BusFault>
    ensures { Makes B.rules (B.seen bus.old) (B.seen bus.new) (λ made. IfOk result (λ answer. (taken : Bool)
        × (made ≡ store_step A0 126 (0 ∷ page ∷ []) taken ∷ fetch_step A0 126 2 answer ∷ []))) }
{
    bus.store(Dev::A0, 126, &[0, page])?;
    bus.fetch(Dev::A0, 126, 2)
}

/// The same over a window of a CMIS module: what is read is what the window then has selected.
pub fn select_on_window(
    bus: &mut ScriptBus<Window<16>>,
    page: u8,
) -> Result<Option<ArrayVec<u8, MAX_FETCH>>, BusFault>
    ensures { selecting_on bus.old.device.memory A0 ≡ Some BankAndPage
        → IfOk result (λ answer. IfSome answer (λ bytes. bytes.items ≡ bus.new.device.selection.bank ∷ bus.new.device.selection.page ∷ [])) }
{
    select(bus, page)
}
