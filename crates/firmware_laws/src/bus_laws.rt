//! What holds of updates over a bus, by the transactions. Each function is a theorem: its contract says it, and its body is empty.
ghost use Rattle.std.specs.Prelude.{◌≡◌, ◌<◌, ◌≤◌, ◌*◌, ℕ, List, [], length, Ok, Some, true, false};
ghost use Rattle.arrayvec.specs.ArrayVec.{ArrayVec};
ghost use Rattle.bus_model.specs.declared.operation.Step.{Step};
ghost use Rattle.command_block.specs.declared.message.Message.{Message};
ghost use Rattle.command_block.specs.declared.outcome.Outcome.{Outcome};
ghost use Rattle.command_block.specs.declared.outcome.Outcome.TheVariants.{Succeeded};
ghost use Rattle.command_block.specs.declared.attempt.Timing.{Timing};
ghost use Rattle.command_block.specs.AttemptEvents.{EachIsWanted, attempt_after};
ghost use Rattle.command_block.specs.Attempts.{IsAttempt};
ghost use Rattle.command_block.specs.Deliveries.{patience_for};
ghost use Rattle.conversations.specs.Events.{Events, steps_of};
ghost use Rattle.firmware_update.specs.declared.bank.Bank.{Bank};
ghost use Rattle.firmware_update.specs.declared.session.Session.{Session};
ghost use Rattle.firmware_update.specs.declared.update.Update.{Update};
ghost use Rattle.firmware_update.specs.declared.update.UpdateNext.TheVariants.{Done};
ghost use Rattle.firmware_update.specs.Courses.{IsCourse, IsOnBus};
ghost use Rattle.firmware_update.specs.Exchanges.{History};
ghost use Rattle.firmware_update.specs.KnownStates.{known_at};
ghost use Rattle.firmware_update.specs.Progress.{IsAt, next};
ghost use Rattle.firmware_update.specs.Runs.{IsShort};
ghost use Rattle.firmware_update.specs.Safety.{IsSafe};
ghost use Rattle.firmware_laws.specs.Again.{HasRunNothing};
ghost use Rattle.firmware_laws.specs.AtTheBus.{BeginsWithStatus, ComesOnBus, StandsAfter};
ghost use Rattle.firmware_laws.specs.Contents.{IsOldOrNew, StoresContents};
ghost use Rattle.firmware_laws.specs.Heard.{heard};
ghost use Rattle.firmware_laws.specs.Modules.{Conduct, Endures, Firmware, HasImage, HasTwoBanks, IsImage, IsQuiet, IsStanding, Loses, Passes, held};

/// At each moment of an update, in the midst of a command too, what happened on the bus is a course of commands that might be sent.
pub fn each_moment_is_a_course()
    ensures { (file : List ℕ) (events : Events) (session : Session) → IsOnBus file events session →
        (history : History) × IsCourse file history events × IsSafe (length file) history }
{}

/// What an attempt on the bus shows of a message is what the module did with it, as far as that is heard of, if what the module shows
/// once it took the message is its own: it is busy, or shows its new status, before it answers the store of the id.
pub fn outcomes_are_what_happened()
    ensures { (conduct : Conduct) (sent : Message) (steps : List Step) (outcome : Outcome) (first last : Firmware) →
        IsAttempt sent steps outcome → StandsAfter conduct sent first steps last →
        (before : Firmware) × (choice : ℕ) × Endures first before × Passes (heard conduct sent choice before) outcome last }
{}

/// On such a bus a module with two banks and a committed image that can run always has one, also in the midst of a message, and when
/// power comes back such an image runs. The image is one that was committed at the beginning, or the whole file; and where an update
/// has come to its end, the whole file runs and is committed, alone. Where one has run nothing, another may follow.
pub fn power_loss_on_the_bus_leaves_an_image()
    ensures always { (conduct : Conduct) (file : List ℕ) (history : History) (events : Events) (first last : Firmware) → HasTwoBanks conduct →
        HasImage first → IsQuiet first → IsSafe (length file) history → ComesOnBus conduct file first history events last → HasImage last }
    ensures boots { (conduct : Conduct) (file : List ℕ) (history : History) (events : Events) (first last after : Firmware) →
        HasTwoBanks conduct → HasImage first → IsQuiet first → IsSafe (length file) history →
        ComesOnBus conduct file first history events last → Loses last after → IsImage after after.running }
    ensures whole { (conduct : Conduct) (file : List ℕ) (history : History) (events : Events) (first last : Firmware) → HasTwoBanks conduct →
        StoresContents conduct → IsQuiet first → IsSafe (length file) history → ComesOnBus conduct file first history events last →
        IsOldOrNew first file last }
    ensures ends { (conduct : Conduct) (file : List ℕ) (history : History) (events : Events) (update : Update) (first last : Firmware) →
        HasTwoBanks conduct → StoresContents conduct → IsQuiet first → IsAt (length file) history update → next update ≡ Done (Ok tt) →
        ComesOnBus conduct file first history events last → (bank : Bank) × IsStanding bank last × ((held last bank).image ≡ file) }
    ensures again { (conduct : Conduct) (file : List ℕ) (history : History) (events : Events) (update : Update) (first last : Firmware) →
        HasTwoBanks conduct → HasImage first → IsQuiet first → IsAt (length file) history update → HasRunNothing (known_at update) →
        ComesOnBus conduct file first history events last → HasImage last × IsQuiet last }
    ensures courses { (conduct : Conduct) (file : List ℕ) (history : History) (events : Events) (first last : Firmware) →
        ComesOnBus conduct file first history events last → IsCourse file history events }
{}

/// No update makes more transactions than its file's length allows, however the module and the bus answer.
pub fn transactions_are_few()
    ensures { (file : List ℕ) (events : Events) (session : Session) → IsOnBus file events session → IsShort (length file) events }
{}

/// What is presumed of a module at the bus can be met, and attempts come to success: for each message that a module carries out there are
/// events that an attempt wants, one by one, and by which it ends so, with the reply if one is expected, whatever the status shows
/// before, also if that is the success of an earlier message.
pub fn each_message_can_be_delivered()
    ensures silent { (conduct : Conduct) (sent : Message) (timing : Timing) (before : Firmware) (reply : ArrayVec ℕ) (status : ℕ) →
        status < 128 → sent.replies ≡ false → (conduct sent 0 before).outcome ≡ Some (Succeeded reply) →
        (own : Events) × EachIsWanted sent timing own × BeginsWithStatus status (steps_of own) × ((attempt_after sent timing own).outcome ≡ Some (Succeeded (record { items = [] }))) ×
        StandsAfter conduct sent before (steps_of own) (conduct sent 0 before).after }
    ensures replied { (conduct : Conduct) (sent : Message) (timing : Timing) (before : Firmware) (reply : ArrayVec ℕ) (status : ℕ) →
        status < 128 → sent.replies ≡ true → (conduct sent 0 before).outcome ≡ Some (Succeeded reply) →
        0 < length reply.items → length reply.items ≤ 120 →
        (own : Events) × EachIsWanted sent timing own × BeginsWithStatus status (steps_of own) × ((attempt_after sent timing own).outcome ≡ Some (Succeeded reply)) ×
        StandsAfter conduct sent before (steps_of own) (conduct sent 0 before).after }
{}

/// A delivery waits for as long as the module may need, and 1,000 pauses last so long, a quarter of the transactions that it may make.
pub fn a_module_has_its_time()
    ensures longer { (duration : ℕ) → duration ≤ (patience_for duration).limit }
    ensures polls { (duration : ℕ) → (patience_for duration).limit ≤ 1000 * (patience_for duration).pause }
{}
