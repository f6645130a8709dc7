//! What holds of readings of statistics, whatever a bus refuses. Each function is a theorem: its contract says it, and its body is
//! empty.
ghost use Rattle.std.specs.Prelude.{◌≡◌, ◌≤◌, ◌+◌, ℕ, true, List, [], Some, length};
ghost use Rattle.std.specs.FinMap as map;
ghost use Rattle.bus_model.specs.declared.script.Directive.{Directive};
ghost use Rattle.bus_model.specs.Runs.{Seen};
ghost use Rattle.bus_model.specs.declared.device.Dev.TheVariants.{A0};
ghost use Rattle.observables.specs.Pages.{has_observables};
ghost use Rattle.paged_memory.specs.Images.{Memory};
ghost use Rattle.paged_memory.specs.Keys.{lower_key};
ghost use Rattle.paged_memory.specs.Windows.{Windowed};
ghost use Rattle.paged_memory.specs.PageAddressing.{EachStep};
ghost use Rattle.conversations.specs.Events.{Events, steps_of};
ghost use Rattle.vdm_reading.specs.declared.reading.VdmReading.{VdmReading};
ghost use Rattle.vdm_reading.specs.declared.reading.VdmStage.TheVariants.{Over};
ghost use Rattle.vdm_reading.specs.BankPages.{AreOfBank};
ghost use Rattle.vdm_reading.specs.FrozenSteps as steps;
ghost use Rattle.vdm_reading.specs.VdmAccounts.{IsAmong, IsLostAlone, IsTold, IsWhole, is_frozen};
ghost use Rattle.vdm_reading.specs.VdmStages.{key_of, may_be_frozen, most_polls, most_retries, most_transactions};
ghost use Rattle.vdm_reading.specs.WindowStatistics.{AreAllRead, AreOverWindow, NoneRefused};

/// However far a reading has come: it names exactly where a request to freeze was made, taken or refused, and no release was accepted
/// since.
pub fn what_may_be_frozen_is_named()
    ensures { (events : Events) (reading : VdmReading) → IsTold events reading →
        may_be_frozen reading.release ≡ steps.may_be_frozen (steps_of events) }
{}

/// A reading makes 759 transactions at most.
pub fn readings_end()
    ensures { (events : Events) (reading : VdmReading) → IsTold events reading → length (steps_of events) ≤ most_transactions }
{}

/// Each step is a fetch, the selection of a page, or a store of the control byte of page 2Fh of the bank as it was read, but for its
/// bit 7.
pub fn only_the_freeze_bit_is_stored()
    ensures { (events : Events) (reading : VdmReading) → IsTold events reading → EachStep (steps.IsReadingStep reading.request.bank) (steps_of events) }
{}

/// What is called frozen was read after the module had shown that it has frozen it, and before anything else was stored in the control
/// byte: all pages in the same such time. Each page was read as it is in the image.
pub fn what_is_called_frozen_belongs_together()
    ensures read { (events : Events) (reading : VdmReading) → IsTold events reading → (page : ℕ) (bytes : List ℕ) →
        map.get reading.image (key_of page) ≡ Some bytes → steps.WasRead page bytes (steps_of events) }
    ensures frozen { (events : Events) (reading : VdmReading) → IsTold events reading →
        steps.WereSet reading.request.bank (is_frozen reading.statistics) reading.image (steps_of events) }
{}

/// However far a reading has come: each half of its image is page 01h, or page 2Fh or one of 20h to 2Ch of its own bank.
pub fn only_pages_of_the_bank_are_kept()
    ensures { (events : Events) (reading : VdmReading) → IsTold events reading → AreOfBank reading.request.bank reading.image }
{}

/// At the end each page that is advertised was read, or was refused on its own account, by more transactions than may be fruitless.
pub fn a_refusal_loses_its_page_alone()
    ensures { (events : Events) (reading : VdmReading) → IsTold events reading → reading.stage ≡ Over → IsLostAlone reading (steps_of events) }
{}

/// If no more transactions were hindered than may be fruitless for one page, nor all polls in vain, then all was read while it was
/// frozen, and released; or the module advertises no statistics.
pub fn readings_that_are_little_hindered_are_whole()
    ensures { (events : Events) (reading : VdmReading) → IsTold events reading → reading.stage ≡ Over →
        steps.hindrances (steps_of events) ≤ most_retries → steps.hindrances (steps_of events) + steps.polls (steps_of events) ≤ most_polls → IsWhole reading }
{}

/// Over a scripted bus with a window of a memory, whatever the script refuses or cuts short: each page that was read is the memory's. If
/// nothing was refused, each page that is advertised is as in the memory, or absent if it is there.
pub fn what_is_read_of_a_window_is_its_memory()
    ensures same { (old new : Seen (List Directive × Windowed)) (memory : Memory) (events : Events) (reading : VdmReading) → AreOverWindow old new memory events
        → IsTold events reading → (page : ℕ) (bytes : List ℕ) → map.get reading.image (key_of page) ≡ Some bytes → map.get memory (key_of page) ≡ Some bytes }
    ensures whole { (old new : Seen (List Directive × Windowed)) (memory : Memory) (events : Events) (reading : VdmReading) → AreOverWindow old new memory events
        → IsTold events reading → reading.stage ≡ Over → NoneRefused (steps_of events) → (page : ℕ) → IsAmong page reading.pages.items
        → map.get reading.image (key_of page) ≡ map.get memory (key_of page) }
{}

/// Over a bus without a script, with a window of a memory that has its lower half and advertises statistics: at the end each page of those of the
/// bank that the memory has was read, and is listed.
pub fn a_window_that_nothing_hinders_is_read_whole()
    ensures { (old new : Seen (List Directive × Windowed)) (memory : Memory) (events : Events) (reading : VdmReading) → AreOverWindow old new memory events
        → old.state.0 ≡ [] → map.contains_key memory (lower_key A0) ≡ true → has_observables memory ≡ true → IsTold events reading → reading.stage ≡ Over
        → AreAllRead memory reading }
{}
