//! What holds of the simulated module. Each function is a theorem: its contract says it, and its body is empty.
ghost use Rattle.std.specs.Prelude.{◌≡◌, ◌<◌, ◌≤◌, ◌+◌, ℕ, Bool, List, length, Ok, Option, true, ⊤};
ghost use Rattle.bus_model.specs.declared.operation.Op.{Op};
ghost use Rattle.command_block.specs.declared.attempt.Timing.{Timing};
ghost use Rattle.command_block.specs.declared.message.Message.{Message};
ghost use Rattle.command_block.specs.AttemptEvents.{EachIsWanted};
ghost use Rattle.command_block.specs.Deliveries.{needed_after};
ghost use Rattle.conversations.specs.declared.pausing.Patience.{Patience};
ghost use Rattle.conversations.specs.Events.{Events, steps_of};
ghost use Rattle.conversations.specs.Pauses.{AddsPauses};
ghost use Rattle.conversations.specs.Selecting.{AddsSelections};
ghost use Rattle.paged_memory.specs.declared.page_addressing.PageAddressing.TheVariants.{BankAndPage};
ghost use Rattle.firmware_laws.specs.AtTheBus.{StandsAfter};
ghost use Rattle.firmware_update.specs.declared.bank.Bank.{Bank};
ghost use Rattle.firmware_update.specs.declared.known.Known.{Known};
ghost use Rattle.firmware_update.specs.declared.runner.UpdateRun.{UpdateRun};
ghost use Rattle.firmware_update.specs.declared.runner.UpdateRun.TheVariants.{Over};
ghost use Rattle.firmware_update.specs.declared.update.Update.{Update};
ghost use Rattle.firmware_update.specs.declared.update.UpdateNext.TheVariants.{Done};
ghost use Rattle.firmware_update.specs.Exchanges.{History};
ghost use Rattle.firmware_update.specs.Progress.{IsAt, next};
ghost use Rattle.firmware_update.specs.Replies.{other_bank};
ghost use Rattle.firmware_laws.specs.SampleModules.{fresh};
ghost use Rattle.firmware_laws.specs.Contents.{IsOldOrNew, StoresContents};
ghost use Rattle.firmware_laws.specs.Modules.{ComesTo, Firmware, HasImage, HasTwoBanks, IsImage, IsQuiet, IsStanding, Loses, held};
ghost use Rattle.simulated_updates.specs.declared.bus.SimulatedBus.{SimulatedBus};
ghost use Rattle.simulated_updates.specs.Buses.{IsUpdated};
ghost use Rattle.simulated_updates.specs.Modules.{Module};
ghost use Rattle.simulated_updates.specs.OnTheBus.{Becomes};
ghost use Rattle.simulated_updates.specs.Performed.{conduct, memory};
ghost use Rattle.simulated_updates.specs.Seen.{firmware_of};

/// What is presumed of modules with two banks, and of what they store, holds of this one.
pub fn the_simulated_module_has_two_banks()
    ensures banks { HasTwoBanks conduct }
    ensures contents { StoresContents conduct }
{}

/// And what is presumed of a module at the bus: it is busy, or shows its new status, before it answers the store of an id. So it is
/// after all events of an attempt to have a message carried out, with selections of its page and with pauses, whatever is refused,
/// and whenever power is lost or a reset comes.
pub fn the_simulated_module_shows_what_is_its_own()
    ensures { (sent : Message) (timing : Timing) (patience : Patience) (own paged events : Events) (wanted : Option Op) (due : Bool) (idle : ℕ)
        (old new : Module) → EachIsWanted sent timing own →
        AddsSelections true true BankAndPage (λ before. needed_after sent timing before) own paged →
        AddsPauses patience paged events wanted due idle → Becomes old events new →
        StandsAfter conduct sent old.firmware (steps_of own) new.firmware }
{}

/// So whatever is refused and whenever power is lost while an update runs, afterwards the module has a committed image that can run,
/// and when power is lost once more such an image runs. It was committed at the beginning, or is the whole file; and where the update
/// answers that it came to its end, the whole file runs and is committed, alone.
pub fn the_simulated_module_always_has_an_image()
    ensures always { (file : List ℕ) (old new : SimulatedBus) (run : UpdateRun ⊤) → IsUpdated file old new run →
        HasImage (firmware_of old.module.firmware) → IsQuiet (firmware_of old.module.firmware) → HasImage (firmware_of new.module.firmware) }
    ensures boots { (file : List ℕ) (old new : SimulatedBus) (run : UpdateRun ⊤) (after : Firmware) → IsUpdated file old new run →
        HasImage (firmware_of old.module.firmware) → IsQuiet (firmware_of old.module.firmware) →
        Loses (firmware_of new.module.firmware) after → IsImage after after.running }
    ensures whole { (file : List ℕ) (old new : SimulatedBus) (run : UpdateRun ⊤) → IsUpdated file old new run →
        IsQuiet (firmware_of old.module.firmware) → IsOldOrNew (firmware_of old.module.firmware) file (firmware_of new.module.firmware) }
    ensures ends { (file : List ℕ) (old new : SimulatedBus) (run : UpdateRun ⊤) (known : Known) → IsUpdated file old new run →
        IsQuiet (firmware_of old.module.firmware) → run ≡ Over known (Ok tt) →
        (bank : Bank) × IsStanding bank (firmware_of new.module.firmware) × ((held (firmware_of new.module.firmware) bank).image ≡ file) }
{}

/// And updates of it can succeed: from a beginning where one bank runs and is committed, and the other is empty, with each file for which
/// it has memory. (Each of the messages can be delivered: `each_message_can_be_delivered`.)
pub fn the_simulated_module_can_be_updated()
    ensures { (old : Bank) (image file : List ℕ) → 8 < length file → length file ≤ 8 + memory → (history : History) × (update : Update) ×
        (last : Firmware) × IsAt (length file) history update × (next update ≡ Done (Ok tt)) × ComesTo conduct file (fresh old image) history last ×
        IsStanding (other_bank old) last × ((held last (other_bank old)).image ≡ file) }
{}
