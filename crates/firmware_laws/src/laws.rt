//! What holds of updates over all histories. Each function is a theorem: its contract says it, and its body is empty.
ghost use Rattle.std.specs.Prelude.{◌≡◌, ◌<◌, ◌++◌, ℕ, List, length, take, drop, Ok};
ghost use Rattle.firmware_update.specs.declared.bank.Bank.{Bank};
ghost use Rattle.firmware_update.specs.declared.command.Command.{Command};
ghost use Rattle.firmware_update.specs.declared.command.Command.TheVariants.{Complete, Run, Start};
ghost use Rattle.firmware_update.specs.declared.update.Update.{Update};
ghost use Rattle.firmware_update.specs.declared.update.UpdateNext.TheVariants.{Done};
ghost use Rattle.firmware_laws.specs.Again.{HasRunNothing};
ghost use Rattle.firmware_laws.specs.Contents.{BlocksAreStored, BlocksKeepOthers, CompletesMakeImages, IsOldOrNew, StartsAreKept, StoresContents};
ghost use Rattle.firmware_update.specs.Exchanges.{History, Stands};
ghost use Rattle.firmware_laws.specs.Looser.{IsUnseen};
ghost use Rattle.firmware_laws.specs.Losses.{CanBeLost, CanBeMixed};
ghost use Rattle.firmware_laws.specs.Modules.{ComesTo, CommitIsAtomic, Conduct, DownloadsGoAside, Firmware, HasImage, HasTwoBanks, InfoIsTrue, IsImage, IsQuiet, IsStanding, Loses, QuestionsChangeNothing, Resets, RunsKeepBanks, held};
ghost use Rattle.firmware_update.specs.KnownStates.{known_at};
ghost use Rattle.firmware_update.specs.Payloads.{accepted, message_of};
ghost use Rattle.firmware_update.specs.Progress.{IsAt, next};
ghost use Rattle.firmware_update.specs.Replies.{other_bank};
ghost use Rattle.firmware_update.specs.Safety.{IsSafe, IsStart, MaySend, Received};
ghost use Rattle.firmware_laws.specs.SampleModules.{fresh, resets_later, works};

/// A module with two banks and a committed image that can run always has one, whatever it is sent of what may be sent,
/// whatever comes of it, and whenever power is lost, in the midst of a command too; and when power comes back, such an
/// image runs.
pub fn power_loss_leaves_an_image()
    ensures always { (conduct : Conduct) (file : List ℕ) (history : History) (first last : Firmware) → HasTwoBanks conduct →
        HasImage first → IsQuiet first → IsSafe (length file) history → ComesTo conduct file first history last → HasImage last }
    ensures within { (conduct : Conduct) (file : List ℕ) (history : History) (first last : Firmware) (command : Command) (choice : ℕ) →
        HasTwoBanks conduct → HasImage first → IsQuiet first → IsSafe (length file) history → ComesTo conduct file first history last →
        MaySend (length file) command history → HasImage (conduct (message_of file command) choice last).after }
    ensures cut_short { (conduct : Conduct) (file : List ℕ) (history : History) (first last after : Firmware) (command : Command) (choice : ℕ) →
        HasTwoBanks conduct → HasImage first → IsQuiet first → IsSafe (length file) history → ComesTo conduct file first history last →
        MaySend (length file) command history → Loses (conduct (message_of file command) choice last).after after →
        IsImage after after.running }
    ensures reset_short { (conduct : Conduct) (file : List ℕ) (history : History) (first last after : Firmware) (command : Command) (choice : ℕ) →
        HasTwoBanks conduct → HasImage first → IsQuiet first → IsSafe (length file) history → ComesTo conduct file first history last →
        MaySend (length file) command history → Resets (conduct (message_of file command) choice last).after after → HasImage after }
    ensures boots { (conduct : Conduct) (file : List ℕ) (history : History) (first last after : Firmware) → HasTwoBanks conduct →
        HasImage first → IsQuiet first → IsSafe (length file) history → ComesTo conduct file first history last → Loses last after →
        IsImage after after.running }
    ensures updates { (conduct : Conduct) (file : List ℕ) (history : History) (update : Update) (first last : Firmware) →
        HasTwoBanks conduct → HasImage first → IsQuiet first → IsAt (length file) history update →
        ComesTo conduct file first history last → HasImage last }
{}

/// What is presumed of modules can be met: by one where each update of a file can come to its end, from a start where one bank
/// runs and is committed, and then the file is the image that runs and is committed.
pub fn a_module_works()
    ensures banks { HasTwoBanks works }
    ensures contents { StoresContents works }
    ensures later { HasTwoBanks resets_later }
    ensures starts { (old : Bank) (image : List ℕ) → IsStanding old (fresh old image) × IsQuiet (fresh old image) }
    ensures ends { (old : Bank) (image file : List ℕ) → 1 < length file → (history : History) × (update : Update) × (last : Firmware) ×
        IsAt (length file) history update × (next update ≡ Done (Ok tt)) × ComesTo works file (fresh old image) history last ×
        IsStanding (other_bank old) last × ((held last (other_bank old)).image ≡ file) }
{}

/// The look at which image runs and which is committed is needed before a Start: without it there are a module with two banks
/// that has a committed image, and a history after which it has none.
pub fn a_look_is_needed()
    ensures { (conduct : Conduct) × (file : List ℕ) × (history : History) × (first : Firmware) × (last : Firmware) ×
        HasTwoBanks conduct × HasImage first × IsQuiet first × IsUnseen (length file) history × ComesTo conduct file first history last ×
        (HasImage last → ⊥) }
{}

/// It is needed that no reset is still to come at the beginning.
pub fn a_quiet_start_is_needed()
    ensures { (conduct : Conduct) × (file : List ℕ) × (history : History) × (first : Firmware) × (last : Firmware) ×
        HasTwoBanks conduct × HasImage first × IsSafe (length file) history × ComesTo conduct file first history last ×
        (HasImage last → ⊥) }
{}

/// Each of the five that are presumed of a module with two banks is needed: without it the committed image can be lost.
pub fn each_of_two_banks_is_needed()
    ensures questions { CanBeLost (λ conduct. InfoIsTrue conduct × DownloadsGoAside conduct × RunsKeepBanks conduct × CommitIsAtomic conduct) }
    ensures info { CanBeLost (λ conduct. QuestionsChangeNothing conduct × DownloadsGoAside conduct × RunsKeepBanks conduct × CommitIsAtomic conduct) }
    ensures downloads { CanBeLost (λ conduct. QuestionsChangeNothing conduct × InfoIsTrue conduct × RunsKeepBanks conduct × CommitIsAtomic conduct) }
    ensures runs { CanBeLost (λ conduct. QuestionsChangeNothing conduct × InfoIsTrue conduct × DownloadsGoAside conduct × CommitIsAtomic conduct) }
    ensures commits { CanBeLost (λ conduct. QuestionsChangeNothing conduct × InfoIsTrue conduct × DownloadsGoAside conduct × RunsKeepBanks conduct) }
{}

/// And each of the four that are presumed of contents: without it a committed image can be neither an old one nor the file.
pub fn each_of_contents_is_needed()
    ensures starts { CanBeMixed (λ conduct. BlocksAreStored conduct × BlocksKeepOthers conduct × CompletesMakeImages conduct) }
    ensures blocks { CanBeMixed (λ conduct. StartsAreKept conduct × BlocksKeepOthers conduct × CompletesMakeImages conduct) }
    ensures others { CanBeMixed (λ conduct. StartsAreKept conduct × BlocksAreStored conduct × CompletesMakeImages conduct) }
    ensures completes { CanBeMixed (λ conduct. StartsAreKept conduct × BlocksAreStored conduct × BlocksKeepOthers conduct) }
{}

/// The bytes of the file that the module accepted are, in their order, the file's, and when it is to be told that they are
/// complete they are the whole file.
pub fn accepted_bytes_are_the_file()
    ensures part { (file : List ℕ) (history : History) (header address : ℕ) → IsSafe (length file) history →
        Received (length file) header address history →
        accepted file history ≡ take header file ++ take address (drop header file) }
    ensures whole { (file : List ℕ) (history : History) → IsSafe (length file) history → MaySend (length file) Complete history →
        accepted file history ≡ file }
{}

/// At each moment the committed image is one that was committed at the beginning, or the whole file; and where an update has
/// come to its end, the whole file runs and is committed, alone.
pub fn the_committed_image_is_whole()
    ensures always { (conduct : Conduct) (file : List ℕ) (history : History) (first last : Firmware) → HasTwoBanks conduct →
        StoresContents conduct → IsQuiet first → IsSafe (length file) history → ComesTo conduct file first history last →
        IsOldOrNew first file last }
    ensures within { (conduct : Conduct) (file : List ℕ) (history : History) (first last : Firmware) (command : Command) (choice : ℕ) →
        HasTwoBanks conduct → StoresContents conduct → IsQuiet first → IsSafe (length file) history →
        ComesTo conduct file first history last → MaySend (length file) command history →
        IsOldOrNew first file (conduct (message_of file command) choice last).after }
    ensures ends { (conduct : Conduct) (file : List ℕ) (history : History) (update : Update) (first last : Firmware) →
        HasTwoBanks conduct → StoresContents conduct → IsQuiet first → IsAt (length file) history update → next update ≡ Done (Ok tt) →
        ComesTo conduct file first history last →
        (bank : Bank) × IsStanding bank last × ((held last bank).image ≡ file) }
{}

/// An update that ran nothing may be followed by another: as at the beginning, there is a committed image that can run, and no reset is
/// still to come. So is one that the module refused to begin, since an earlier download was open, which was given up or not.
pub fn another_update_may_follow()
    ensures { (conduct : Conduct) (file : List ℕ) (history : History) (update : Update) (first last : Firmware) → HasTwoBanks conduct →
        HasImage first → IsQuiet first → IsAt (length file) history update → HasRunNothing (known_at update) →
        ComesTo conduct file first history last → HasImage last × IsQuiet last }
{}

/// What is not harmless twice is sent once: a Start, and a Run.
pub fn some_commands_are_sent_once()
    ensures starts { (size header : ℕ) (history : History) → MaySend size (Start header) history →
        Stands (λ x. IsStart x.command) history → ⊥ }
    ensures runs { (size : ℕ) (history : History) → IsSafe size history → MaySend size Run history →
        Stands (λ x. x.command ≡ Run) history → ⊥ }
{}
