//! What holds of the module, over all of its states. Each function is a theorem: its contract says it, and its body is empty.
ghost use Rattle.std.specs.Prelude.{◌≡◌, ◌≢◌, ◌⊎◌, ◌≤◌, ◌<◌, ◌+◌, ◌-◌, ℕ, [], ◌∷◌, false, true, length, List, Some, None, reverse, slice_index};
ghost use Rattle.std.specs.FinMap as map;
ghost use Rattle.std.specs.List.{AllByRecursion};
ghost use Rattle.arrayvec.specs.ArrayVec.{ArrayVec};
ghost use Rattle.bus_model.specs.declared.device.Dev.{Dev};
ghost use Rattle.bus_model.specs.declared.device.Dev.TheVariants.{A0};
ghost use Rattle.bus_model.specs.declared.script.Directive.{Directive};
ghost use Rattle.bus_model.specs.Operations.{fetch_step};
ghost use Rattle.bus_model.specs.Runs.{MayInTurn};
ghost use Rattle.bus_model.specs.ScriptedBus.{script_rules, ticked_times};
ghost use Rattle.paged_memory.specs.declared.page_addressing.PageAddressing.{PageAddressing};
ghost use Rattle.paged_memory.specs.Images.{Memory};
ghost use Rattle.paged_memory.specs.ImageText.{IsImage};
ghost use Rattle.paged_memory.specs.Keys.{page_key};
ghost use Rattle.paged_memory.specs.MappedPages.{selecting_on};
ghost use Rattle.paged_memory.specs.PageAddressing.{History, is_page_confirmed};
ghost use Rattle.paged_memory.specs.Windows.{half_at, window_fetched, window_stored};
ghost use Rattle.simulated_statistics.specs.declared.module.FreezingModule.{FreezingModule};
ghost use Rattle.simulated_statistics.specs.declared.request.Request.{Request};
ghost use Rattle.simulated_statistics.specs.FreezingModules.{begun, conduct, fetched, may_request, shows_control, stored, window_of};
ghost use Rattle.simulated_statistics.specs.Requests.{done_byte};

/// Stores select pages and are taken as those of a window, and no store changes what the memory holds.
pub fn stores_are_those_of_a_window()
    ensures taken { (sim : FreezingModule) (dev : Dev) (address : ℕ) (bytes : List ℕ) →
        (stored sim dev address bytes).0 ≡ (window_stored (window_of sim) dev address bytes).0 }
    ensures window { (sim : FreezingModule) (dev : Dev) (address : ℕ) (bytes : List ℕ) →
        window_of (stored sim dev address bytes).1 ≡ (window_stored (window_of sim) dev address bytes).1 }
    ensures memory { (sim : FreezingModule) (dev : Dev) (address : ℕ) (bytes : List ℕ) →
        (stored sim dev address bytes).1.image ≡ sim.image }
{}

/// Until something is asked of it, and on all pages but 2Fh at any time, it answers fetches as a window.
pub fn fetches_are_those_of_a_window()
    ensures unasked { (sim : FreezingModule) (dev : Dev) (address count : ℕ) → sim.request ≡ None →
        (fetched sim dev address count).0 ≡ (window_fetched (window_of sim) dev address count).0 }
    ensures elsewhere { (sim : FreezingModule) (dev : Dev) (address count : ℕ) → shows_control sim dev ≡ false →
        (fetched sim dev address count).0 ≡ (window_fetched (window_of sim) dev address count).0 }
{}

/// Only a store of byte 144 on page 2Fh is a request.
pub fn no_other_store_is_a_request()
    ensures byte { (sim : FreezingModule) (dev : Dev) (address : ℕ) (bytes : List ℕ) → (address + length bytes ≤ 144) ⊎ (144 < address) →
        (stored sim dev address bytes).1.request ≡ sim.request }
    ensures page { (sim : FreezingModule) (dev : Dev) (address : ℕ) (bytes : List ℕ) → 128 ≤ address → shows_control sim dev ≡ false →
        (stored sim dev address bytes).1.request ≡ sim.request }
{}

/// A request that is taken is the last one from then on. It is done once as many units of time have passed as a request takes, and byte
/// 145 shows whether it is.
pub fn a_request_is_done_in_time()
    ensures taken { (sim : FreezingModule) (control ticks : ℕ) → shows_control sim A0 ≡ true → (stored sim A0 144 (control ∷ [])).0 ≡ true →
        (ticked_times conduct ticks (stored sim A0 144 (control ∷ [])).1).request ≡ Some (record { control = control; left = sim.delay - ticks }) }
    ensures shown { (sim : FreezingModule) (request : Request) (half : List ℕ) → shows_control sim A0 ≡ true → sim.request ≡ Some request →
        half_at (window_of sim) A0 145 ≡ Some half → (fetched sim A0 145 1).0 ≡ Some (done_byte request (slice_index half 17) ∷ []) }
{}

/// Whatever a bus refuses: a page that the steps on the bus confirm (the newest first) is read as the image has it, 2Fh until something is
/// asked of the module, and each other page at any time.
pub fn confirmed_pages_are_read_as_they_are()
    ensures elsewhere { (image : Memory) (delay : ℕ) (addressing : PageAddressing) (script : List Directive) (before : History) (page : ℕ) (bytes : ArrayVec ℕ) →
        IsImage image → selecting_on image A0 ≡ Some addressing →
        MayInTurn (script_rules conduct) (script, begun image delay) (reverse (fetch_step A0 128 128 (Some bytes) ∷ before)) →
        is_page_confirmed addressing page before ≡ true → page ≢ 0x2F → map.get image (page_key page) ≡ Some bytes.items }
    ensures unasked { (image : Memory) (delay : ℕ) (addressing : PageAddressing) (script : List Directive) (before : History) (page : ℕ) (bytes : ArrayVec ℕ) →
        IsImage image → selecting_on image A0 ≡ Some addressing →
        MayInTurn (script_rules conduct) (script, begun image delay) (reverse (fetch_step A0 128 128 (Some bytes) ∷ before)) →
        is_page_confirmed addressing page before ≡ true → AllByRecursion (λ step. may_request step.op ≡ false) before →
        map.get image (page_key page) ≡ Some bytes.items }
{}
