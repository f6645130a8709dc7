//! What holds of control bytes, over all plans. Each function is a theorem: its contract says it, and its body is empty. In those over
//! histories, `made` is the length of the whole list of steps that the bus keeps, and `room` how many steps that list takes.
ghost use Rattle.std.specs.Prelude.{◌≡◌, ◌≢◌, ℕ, ◌<◌, ◌≤◌, Bool, true, List, Option, None, Some, All, Any, IsTrue, length, ◌+◌, ◌*◌, [], ◌∷◌, Ok, Err, false};
ghost use Rattle.std.specs.List.{AllByRecursion};
ghost use Rattle.applications.specs.Advertised.{Advertised, InOrder};
ghost use Rattle.plan_certificate.specs.declared.path.Path.{Path};
ghost use Rattle.plan_certificate.specs.Plans.{IsAdmissible};
ghost use Rattle.control_sets.specs.ControlBytes.{IsOfEitherSet, control_bytes};
ghost use Rattle.control_sets.specs.HostPaths.{control_at, host_paths, is_used, wrong_lane};
ghost use Rattle.control_sets.specs.LanesOfPaths.{IsOnLane, TakesWhatAgrees};
ghost use Rattle.control_sets.specs.PlanPaths.{AreHostPathsOf};
ghost use Rattle.bus_model.specs.declared.bus.BusFault.TheVariants.{TraceFull};
ghost use Rattle.bus_model.specs.declared.operation.Step.{Step};
ghost use Rattle.field_tables.specs.LaneSets.{IsLane, byte_of, every_lane, Lanes, run_of};
ghost use Rattle.control_sets.specs.declared.fault.ProvisionFault.TheVariants.{ActiveDiffers, Bus, GaveUp, ModuleState, Reserved, StagedDiffers};
ghost use Rattle.bus_model.specs.SameOperation.{same_op};
ghost use Rattle.control_sets.specs.Pages.{EachStep, read_selection, selection, History};
ghost use Rattle.control_sets.specs.OutcomeSteps.{Gives, IsAccepted, IsAnswered, Stands};
ghost use Rattle.control_sets.specs.OutcomeOperations.{IsAtRegister, IsAtRegisterBy, apply, control_page, read_active, read_module_state, read_path_states, read_staged, read_statuses, stage, status_page};
ghost use Rattle.control_sets.specs.OutcomeExamples.{activated, almost_pairs, gave, low_power, on_controls, on_status_at_once, other_bank, pairs, provisioned, provisioned_beside_reserved_codes, ready, refused, refused_reads, refused_selection, repeated_selection, took};
ghost use Rattle.control_sets.specs.Tasks.{activation, provisioning};
ghost use Rattle.control_sets.specs.Procedures.{HasEndedBy, IsUnfinishedBy};
ghost use Rattle.control_sets.specs.OutcomeAnswers.{Answer, most_steps};
ghost use Rattle.control_sets.specs.OutcomeOfProvisioning.{IsProvisioning, IsProvisioningBy, IsUnfinishedProvisioningBy};
ghost use Rattle.control_sets.specs.OutcomeOfActivation.{IsActivation, IsActivationBy, IsUnfinishedActivationBy, release};
ghost use Rattle.control_sets.specs.OutcomeCodes.{IsOf, IsReservedPathState};
ghost use Rattle.datapath_states.specs.Lanes.{code_in};
ghost use Rattle.control_sets.specs.OutcomeOfPower.{IsPowerChange};
ghost use Rattle.control_sets.specs.OutcomeSuccess.{ReadsActive};
ghost use Rattle.control_sets.specs.PowerControls.{set_controls, read_controls};
ghost use Rattle.control_sets.specs.declared.fault.ProvisionFault.{ProvisionFault};
ghost use Rattle.conversations.specs.declared.within.Within.{Within};
ghost use Rattle.conversations.specs.declared.within.Spent.{Spent};
ghost use Rattle.conversations.specs.declared.next.Next.TheVariants.{End};
ghost use Rattle.conversations.specs.Budgets.{next_within};
ghost use Rattle.conversations.specs.Events.{Events, made, steps_of};
ghost use Rattle.bus_model.specs.declared.operation.Op.{Op};
ghost use Rattle.bus_model.specs.declared.operation.Reply.{Reply};
ghost use Rattle.paged_memory.specs.declared.page_addressing.KnownPage.TheVariants.{Unknown};
ghost use Rattle.control_sets.specs.Progress.{Ends, Follows, GoesOn, IsAt, Procedure, list_at, needed_after, procedure_of, tasks_of};
ghost use Rattle.control_sets.specs.declared.procedures.task.Task.{Task};
ghost use Rattle.control_sets.specs.declared.procedures.procedure.Work.{Work};
ghost use Rattle.control_sets.specs.PowerProgress.{GoesOnAt, IsEndedIn, IsPowerAt, answer_of, power_wants};
ghost use Rattle.control_sets.specs.declared.procedures.power.Power.{Power};
ghost use Rattle.control_sets.specs.declared.procedures.power.Power.TheVariants.{Asleep, Awake};
ghost use Rattle.control_sets.specs.declared.procedures.power.PowerChange.{PowerChange};
ghost use Rattle.control_sets.specs.declared.procedures.power.PowerStage.TheVariants.{Unread};
ghost use Rattle.control_sets.specs.StoredBits.{HasBitsOf, LeavesOthers};
ghost use Rattle.control_sets.specs.Durations.{patience_for, polls, states_in_a_row, states_of};
ghost use Rattle.conversations.specs.declared.pausing.Patience.{Patience};
ghost use Rattle.conversations.specs.declared.pausing.Timed.{Timed};
ghost use Rattle.conversations.specs.declared.pausing.Timed.TheVariants.{InTime, Overdue};
ghost use Rattle.conversations.specs.Pauses.{AddsPauses, AreMade, AreSpaced, EndsPausing, GoesOnPausing, paused_for};
ghost use Rattle.conversations.specs.Selecting.{ConfirmsStores};
ghost use Rattle.paged_memory.specs.declared.page_addressing.PageAddressing.TheVariants.{BankAndPage};
ghost use Rattle.paged_memory.specs.Images.{Memory};
ghost use Rattle.conversations.specs.declared.watching.Look.{Look};
ghost use Rattle.conversations.specs.declared.watching.Look.TheVariants.{Left};
ghost use Rattle.conversations.specs.declared.watching.Watched.{Watched};
ghost use Rattle.conversations.specs.declared.watching.Watched.TheVariants as watched;
ghost use Rattle.control_sets.specs.PatientProcedures.{EndsPatiently, EndsWatched};
ghost use Rattle.conversations.specs.Watching.{AddsLooks, EachLooks};

use crate::procedures::{PowerChange, Procedure};
use conversations::{Conversation, Within};

/// A control byte says the same in Staged Control Set 0 and in the Active Control Set.
pub fn both_sets_have_the_same_bits()
    ensures { (byte : ℕ) → IsOfEitherSet byte }
{}

/// If control bytes are host paths, each path takes the lanes that agree with its first one, and each lane with an
/// AppSelCode other than 0 is in one of them.
pub fn lanes_that_agree_are_a_path()
    ensures lanes { (bytes : List ℕ) → wrong_lane bytes ≡ None → All (TakesWhatAgrees bytes) (host_paths bytes) }
    ensures each { (bytes : List ℕ) (lane : ℕ) → wrong_lane bytes ≡ None → IsLane lane →
        IsTrue (is_used (control_at bytes lane)) → Any (IsOnLane bytes lane) (host_paths bytes) }
{}

/// The control bytes of a plan are host paths, and tell the host paths of that plan. Of what a module advertises this
/// needs only that its Applications are numbered in order and at most 15, as `Advert::apps` ensures.
pub fn plans_are_read_back()
    ensures right { (advert : Advertised) (paths : List Path) →
        InOrder advert.apps → length advert.apps ≤ 15 → IsAdmissible advert paths →
        wrong_lane (control_bytes advert paths) ≡ None }
    ensures paths { (advert : Advertised) (paths : List Path) →
        InOrder advert.apps → length advert.apps ≤ 15 → IsAdmissible advert paths →
        AreHostPathsOf advert paths (host_paths (control_bytes advert paths)) }
{}

/// If provisioning succeeds, its last step has read the control bytes as active, on a confirmed page 11h. With doubts, the
/// steps since the newest refusal confirm it.
pub fn a_success_was_read()
    ensures { (doubts : Bool) (control : List ℕ) (lanes : Lanes) (made room : ℕ) (history : History) (steps : ℕ) →
        IsProvisioningBy doubts control lanes (made ≡ room) history (Ok steps) → ReadsActive doubts control history }
{}

/// Each store of provisioning to DPDeinit and to ApplyDPInit, accepted or refused, has the bits of its lanes, and no others, however far
/// provisioning has come, with doubts and without. So it sets no bit of another lane, and it clears a DPDeinit bit of another lane that
/// was set.
pub fn bits_are_those_of_the_lanes()
    ensures each { (doubts : Bool) (control : List ℕ) (lanes : Lanes) (made room : ℕ) (history : History) (answer : Answer) →
        IsProvisioningBy doubts control lanes (made ≡ room) history answer → AllByRecursion (HasBitsOf lanes) history }
    ensures others { (doubts : Bool) (control : List ℕ) (lanes : Lanes) (made room : ℕ) (history : History) (answer : Answer) →
        IsProvisioningBy doubts control lanes (made ≡ room) history answer → AllByRecursion (LeavesOthers lanes) history }
    ensures unfinished { (doubts : Bool) (control : List ℕ) (lanes : Lanes) (history : History) →
        IsUnfinishedProvisioningBy doubts control lanes history → AllByRecursion (HasBitsOf lanes) history }
    ensures others_unfinished { (doubts : Bool) (control : List ℕ) (lanes : Lanes) (history : History) →
        IsUnfinishedProvisioningBy doubts control lanes history → AllByRecursion (LeavesOthers lanes) history }
{}

/// Each operation of provisioning, activation and changes of power, whatever it answers and however far that has come, reads all bytes of a
/// register of the memory map or stores all of them, and the page of the register is confirmed before it: with doubts, by the steps since
/// the newest refusal.
pub fn operations_are_at_registers()
    ensures provisioning { (doubts : Bool) (control : List ℕ) (lanes : Lanes) (made room : ℕ) (history : History) (answer : Answer) →
        length control ≡ 8 → IsProvisioningBy doubts control lanes (made ≡ room) history answer → EachStep (IsAtRegisterBy doubts) history }
    ensures activation { (doubts : Bool) (control : List ℕ) (lanes : Lanes) (made room : ℕ) (history : History) (answer : Answer) →
        IsActivationBy doubts control lanes (made ≡ room) history answer → EachStep (IsAtRegisterBy doubts) history }
    ensures unfinished_provisioning { (doubts : Bool) (control : List ℕ) (lanes : Lanes) (history : History) →
        length control ≡ 8 → IsUnfinishedProvisioningBy doubts control lanes history → EachStep (IsAtRegisterBy doubts) history }
    ensures unfinished_activation { (doubts : Bool) (control : List ℕ) (lanes : Lanes) (history : History) →
        IsUnfinishedActivationBy doubts control lanes history → EachStep (IsAtRegisterBy doubts) history }
    ensures power { (power : Power) (made room : ℕ) (history : History) (answer : Answer) →
        IsPowerChange power (made ≡ room) history answer → EachStep IsAtRegister history }
{}

/// Procedures that were told their replies, without a bus, have the outcomes of provisioning, activation and changes of power. A
/// procedure asks for what comes next after the steps that it was told, and a reply that it takes is one step more. So it is with a
/// change of power.
pub fn procedures_have_their_outcomes()
    ensures provisioning { (doubts : Bool) (control : List ℕ) (lanes : Lanes) (made room : ℕ) (history : History) (answer : Answer) →
        length control ≡ 8 → HasEndedBy doubts (provisioning control lanes) history answer →
        IsProvisioningBy doubts control lanes (made ≡ room) history answer }
    ensures activation { (doubts : Bool) (control : List ℕ) (lanes : Lanes) (made room : ℕ) (history : History) (answer : Answer) →
        length control ≡ 8 → HasEndedBy doubts (activation control lanes) history answer →
        IsActivationBy doubts control lanes (made ≡ room) history answer }
    ensures unfinished_provisioning { (doubts : Bool) (control : List ℕ) (lanes : Lanes) (history : History) →
        length control ≡ 8 → IsUnfinishedBy doubts (provisioning control lanes) history → IsUnfinishedProvisioningBy doubts control lanes history }
    ensures unfinished_activation { (doubts : Bool) (control : List ℕ) (lanes : Lanes) (history : History) →
        length control ≡ 8 → IsUnfinishedBy doubts (activation control lanes) history → IsUnfinishedActivationBy doubts control lanes history }
    ensures begun { (work : Work) → IsAt (tasks_of work) [] (procedure_of (list_at work (0, None)) Unknown 0) }
    ensures follows { (tasks : List Task) (history : History) (procedure : Procedure) → IsAt tasks history procedure →
        Follows tasks history (⟦<Procedure as Conversation>⟧.wants procedure) }
    ensures told { (tasks : List Task) (history : History) (old new : Procedure) (op : Op) (reply : Reply) →
        ⟦<Procedure as Conversation>⟧.topic new ≡ ⟦<Procedure as Conversation>⟧.topic old →
        ((events : Events) → ⟦<Procedure as Conversation>⟧.told events old → ⟦<Procedure as Conversation>⟧.told (made op reply ∷ events) new) →
        IsAt tasks history old → IsAt tasks (record { op = op; reply = reply } ∷ history) new }
    ensures power_begun { (power : Power) →
        IsPowerAt [] (record { conversation = record { power = power; stage = Unread; fault = None }; steps = 0; limit = most_steps }) }
    ensures power_told { (history : History) (old new : Within PowerChange) (op : Op) (reply : Reply) →
        ⟦<Within<PowerChange> as Conversation>⟧.topic new ≡ ⟦<Within<PowerChange> as Conversation>⟧.topic old →
        ((events : Events) → ⟦<Within<PowerChange> as Conversation>⟧.told events old → ⟦<Within<PowerChange> as Conversation>⟧.told (made op reply ∷ events) new) →
        IsPowerAt history old → IsPowerAt (record { op = op; reply = reply } ∷ history) new }
    ensures power { (change : Within PowerChange) (made room : ℕ) (history : History) (spent : Spent (Option ProvisionFault)) →
        IsPowerAt history change → next_within change.steps change.limit (power_wants change.conversation) ≡ End spent →
        IsPowerChange change.conversation.power (made ≡ room) history (answer_of spent) }
{}

/// Steps and answers that look right, but are no provisioning, whatever the control bytes, the lanes and the bus.
pub fn what_provisioning_refuses()
    ensures success_of_nothing { (control : List ℕ) (lanes : Lanes) (made room : ℕ) →
        ¬ (IsProvisioning control lanes (made ≡ room) [] (Ok 0)) }
    ensures success_by_another_read { (control : List ℕ) (lanes : Lanes) (made room : ℕ) (step : Step)
        (before : History) (steps : ℕ) → same_op step.op read_active ≡ false →
        ¬ (IsProvisioning control lanes (made ≡ room) (step ∷ before) (Ok steps)) }
    ensures other_count { (control : List ℕ) (lanes : Lanes) (made room : ℕ) (history : History) →
        ¬ (IsProvisioning control lanes (made ≡ room) history (Ok (length history + 1))) }
    ensures early_giving_up { (control : List ℕ) (lanes : Lanes) (made room : ℕ) (step : Step) →
        ¬ (IsProvisioning control lanes (made ≡ room) (step ∷ []) (Err GaveUp)) }
    ensures store_on_unread_page { (control : List ℕ) (lanes : Lanes) (made room : ℕ) (answer : Answer) →
        let history = took (stage control) ∷ took (selection control_page) ∷ ready ∷ [] in
        ¬ (IsProvisioning control lanes (made ≡ room) history answer) }
    ensures unread_selection { (control : List ℕ) (lanes : Lanes) (made room : ℕ) (answer : Answer) →
        let history = took (selection control_page) ∷ took (selection control_page) ∷ ready ∷ [] in
        ¬ (IsProvisioning control lanes (made ≡ room) history answer) }
    ensures selection_of_confirmed_page { (control : List ℕ) (lanes : Lanes) (made room : ℕ) (answer : Answer) →
        ¬ (IsProvisioning control lanes (made ≡ room) (took (selection control_page) ∷ on_controls) answer) }
    ensures unread_selection_made_again { (control : List ℕ) (lanes : Lanes) (made room : ℕ) (answer : Answer) →
        let history = took (selection control_page) ∷ refused read_selection ∷ took (selection control_page) ∷ ready ∷ [] in
        ¬ (IsProvisioning control lanes (made ≡ room) history answer) }
    ensures selection_of_no_use { (control : List ℕ) (lanes : Lanes) (made room : ℕ) (answer : Answer) →
        ¬ (IsProvisioning control lanes (made ≡ room) (took (selection status_page) ∷ ready ∷ []) answer) }
    ensures other_bytes_staged { (control others : List ℕ) (lanes : Lanes) (made room : ℕ) (step : Step)
        (before : History) (answer : Answer) → step.op ≡ stage others → others ≢ control →
        ¬ (IsProvisioning control lanes (made ≡ room) (step ∷ before) answer) }
    ensures other_lanes_applied { (control : List ℕ) (lanes : Lanes) (made room bits : ℕ) (step : Step)
        (before : History) (answer : Answer) → step.op ≡ apply bits → bits ≢ byte_of lanes →
        ¬ (IsProvisioning control lanes (made ≡ room) (step ∷ before) answer) }
    ensures step_after_the_end { (control : List ℕ) (lanes : Lanes) (made room : ℕ) (step : Step)
        (before : History) (answer : Answer) →
        ¬ (IsProvisioning control lanes (made ≡ room) (step ∷ low_power ∷ before) answer) }
    ensures room_left { (control : List ℕ) (lanes : Lanes) (made room : ℕ) (history : History) → made ≢ room →
        ¬ (IsProvisioning control lanes (made ≡ room) history (Err (Bus TraceFull))) }
    ensures too_many_steps { (control : List ℕ) (lanes : Lanes) (made room : ℕ) (history : History)
        (answer : Answer) → most_steps < length history →
        ¬ (IsProvisioning control lanes (made ≡ room) history answer) }
    ensures store_before_ready { (control : List ℕ) (lanes : Lanes) (made room : ℕ) (answer : Answer) →
        let history = took (selection control_page) ∷ refused read_module_state ∷ [] in
        ¬ (IsProvisioning control lanes (made ≡ room) history answer) }
    ensures repeated_answered_read { (control : List ℕ) (lanes : Lanes) (made room : ℕ) (answer : Answer) →
        ¬ (IsProvisioning control lanes (made ≡ room) (ready ∷ ready ∷ []) answer) }
    ensures refused_apply_believed { (control : List ℕ) (lanes : Lanes) (made room : ℕ) (step : Step)
        (before : History) (answer : Answer) → step.op ≡ read_statuses → ¬ (Stands (IsAccepted (apply (byte_of lanes))) before) →
        ¬ (IsProvisioning control lanes (made ≡ room) (step ∷ before) answer) }
    ensures highest_lane { (lanes : Lanes) (made room : ℕ) (before : History) →
        ¬ (IsProvisioning pairs lanes (made ≡ room) (gave read_staged almost_pairs ∷ before) (Err (StagedDiffers 5))) }
{}

/// Steps and answers that look right, but are no activation, whatever the control bytes, the lanes and the bus.
pub fn what_activation_refuses()
    ensures success_by_another_read { (control : List ℕ) (lanes : Lanes) (made room : ℕ) (step : Step)
        (before : History) (steps : ℕ) → same_op step.op read_path_states ≡ false →
        ¬ (IsActivation control lanes (made ≡ room) (step ∷ before) (Ok steps)) }
    ensures lane_overlooked { (control bytes : List ℕ) (lanes : Lanes) (made room lane : ℕ)
        (before : History) (steps : ℕ) → IsOf lanes lane → code_in bytes lane ≢ 4 →
        ¬ (IsActivation control lanes (made ≡ room) (gave read_path_states bytes ∷ before) (Ok steps)) }
    ensures reserved_code_overlooked { (control bytes : List ℕ) (lanes : Lanes) (made room lane : ℕ)
        (before : History) (steps : ℕ) → IsOf every_lane lane → IsReservedPathState (code_in bytes lane) →
        ¬ (IsActivation control lanes (made ≡ room) (gave read_path_states bytes ∷ before) (Ok steps)) }
    ensures release_of_what_is_not_active { (control : List ℕ) (lanes : Lanes) (made room : ℕ) (step : Step)
        (before : History) (answer : Answer) → step.op ≡ release lanes → ¬ (Stands (Gives read_active control) before) →
        ¬ (IsActivation control lanes (made ≡ room) (step ∷ before) answer) }
    ensures refused_release_believed { (control : List ℕ) (lanes : Lanes) (made room : ℕ) (step : Step)
        (before : History) (answer : Answer) → step.op ≡ read_path_states → ¬ (Stands (IsAccepted (release lanes)) before) →
        ¬ (IsActivation control lanes (made ≡ room) (step ∷ before) answer) }
    ensures second_release { (control : List ℕ) (lanes : Lanes) (made room : ℕ) (before : History) (answer : Answer) →
        Stands (IsAccepted (release lanes)) before →
        ¬ (IsActivation control lanes (made ≡ room) (took (release lanes) ∷ before) answer) }
    ensures repeated_answered_read { (control bytes : List ℕ) (lanes : Lanes) (made room : ℕ)
        (before : History) (answer : Answer) → Stands (IsAnswered read_active) before →
        ¬ (IsActivation control lanes (made ≡ room) (gave read_active bytes ∷ before) answer) }
    ensures selection_of_no_use { (control : List ℕ) (lanes : Lanes) (made room : ℕ) (answer : Answer) →
        ¬ (IsActivation control lanes (made ≡ room) (took (selection control_page) ∷ ready ∷ []) answer) }
{}

/// Steps and answers that are provisioning and activation: those that end because the bus's list is full, if it has room for as
/// many steps as there are; the others on every bus.
pub fn what_procedures_may_do()
    ensures no_room { (room : ℕ) → IsProvisioning pairs every_lane (room ≡ room) [] (Err (Bus TraceFull)) }
    ensures low_power { (made room : ℕ) →
        IsProvisioning pairs every_lane (made ≡ room) (low_power ∷ []) (Err (ModuleState 1)) }
    ensures refused_reads { (made room : ℕ) →
        let history = low_power ∷ refused read_module_state ∷ refused read_module_state ∷ [] in
        IsProvisioning pairs every_lane (made ≡ room) history (Err (ModuleState 1)) }
    ensures reserved_state { (made room : ℕ) →
        IsProvisioning pairs every_lane (made ≡ room) (gave read_module_state (0x0E ∷ []) ∷ []) (Err (Reserved 7)) }
    ensures given_up { (made room : ℕ) →
        IsProvisioning pairs every_lane (made ≡ room) (refused_reads most_steps) (Err GaveUp) }
    ensures selected { (room : ℕ) →
        IsProvisioning pairs every_lane (room ≡ room) on_controls (Err (Bus TraceFull)) }
    ensures refused_selection { (room : ℕ) →
        IsProvisioning pairs every_lane (room ≡ room) refused_selection (Err (Bus TraceFull)) }
    ensures repeated_selection { (room : ℕ) →
        IsProvisioning pairs every_lane (room ≡ room) repeated_selection (Err (Bus TraceFull)) }
    ensures other_bank { (room : ℕ) →
        IsProvisioning pairs every_lane (room ≡ room) other_bank (Err (Bus TraceFull)) }
    ensures provisioned { (made room : ℕ) →
        IsProvisioning pairs every_lane (made ≡ room) provisioned (Ok 17) }
    ensures provisioned_beside_reserved_codes { (made room : ℕ) →
        IsProvisioning pairs (run_of 5 4) (made ≡ room) provisioned_beside_reserved_codes (Ok 17) }
    ensures activation_without_room { (room : ℕ) →
        IsActivation pairs every_lane (room ≡ room) on_status_at_once (Err (Bus TraceFull)) }
    ensures active_differs { (made room : ℕ) →
        IsActivation pairs every_lane (made ≡ room) (gave read_active almost_pairs ∷ on_status_at_once) (Err (ActiveDiffers 2)) }
    ensures activated { (made room : ℕ) → IsActivation pairs every_lane (made ≡ room) activated (Ok 11) }
{}

/// Steps and answers of waking up and going to sleep on every bus, and some that look right, but are none.
pub fn what_changes_of_power_may_do()
    ensures woken { (made room : ℕ) →
        let history = ready ∷ gave read_module_state (0x04 ∷ []) ∷ took (set_controls 0xA5) ∷ refused (set_controls 0xA5)
        ∷ gave read_controls (0xFD ∷ []) ∷ refused read_controls ∷ [] in
        IsPowerChange Awake (made ≡ room) history (Ok 6) }
    ensures asleep { (made room : ℕ) →
        let history = low_power ∷ took (set_controls 0xB5) ∷ gave read_controls (0xAD ∷ []) ∷ [] in
        IsPowerChange Asleep (made ≡ room) history (Ok 3) }
    ensures faulty { (made room : ℕ) →
        let history = gave read_module_state (0x0A ∷ []) ∷ took (set_controls 0x00) ∷ gave read_controls (0x40 ∷ []) ∷ [] in
        IsPowerChange Awake (made ≡ room) history (Err (ModuleState 5)) }
    ensures no_success_without_a_store { (made room : ℕ) (steps : ℕ) →
        ¬ (IsPowerChange Awake (made ≡ room) (ready ∷ gave read_controls (0x00 ∷ []) ∷ []) (Ok steps)) }
    ensures no_other_byte { (power : Power) (made room byte : ℕ) (answer : Answer) → byte ≢ 0x00 → byte ≢ 0x10 →
        ¬ (IsPowerChange power (made ≡ room) (took (set_controls byte) ∷ gave read_controls (0x00 ∷ []) ∷ []) answer) }
    ensures no_second_store { (power : Power) (made room byte other : ℕ) (before : History) (answer : Answer) →
        ¬ (IsPowerChange power (made ≡ room) (took (set_controls byte) ∷ took (set_controls other) ∷ before) answer) }
{}

/// A conversation with a module's patience waits for three times as long as each state that the module advertises before it gives up, so
/// for as long as any three of them, which may follow each other. Its steps leave room for that: as many pauses as there may be polls last
/// as long, and no more than two pauses more are made in a row.
pub fn patience_outlasts_states()
    ensures longer { (memory : Memory) → AllByRecursion (λ time. states_in_a_row * time ≤ (patience_for memory).limit) (states_of memory) }
    ensures within { (memory : Memory) → (patience_for memory).limit ≤ polls * (patience_for memory).pause }
    ensures room { polls + 96 ≤ most_steps }
    ensures fruitless { (memory : Memory) (own events : Events) (wanted : Option Op) (due : Bool) (idle : ℕ) →
        AddsPauses (patience_for memory) own events wanted due idle → AreMade own →
        paused_for (patience_for memory).pause wanted (steps_of events) ≤ (polls + 2) * (patience_for memory).pause }
{}

/// Provisioning and activation on a real bus, however they end, do what they may without pauses, with the selections of those who doubt.
/// Those that ended in time, or gave up, have the outcome; the steps of those that are overdue, or whose bus failed, are the first ones of
/// such a procedure, and determine no answer.
pub fn patient_procedures_have_their_outcomes()
    ensures ended { (patience : Patience) (work : Work) (events : Events) (fault : Option ProvisionFault) → length (steps_of events) ≤ most_steps →
        EndsPausing patience (GoesOn true work) (Ends true work) events (InTime fault) →
        HasEndedBy true (tasks_of work) (steps_of events) (answer_of (record { steps = length (steps_of events); end = Some fault })) }
    ensures gave_up { (patience : Patience) (work : Work) (events : Events) → length (steps_of events) ≡ most_steps →
        GoesOnPausing patience (GoesOn true work) events → HasEndedBy true (tasks_of work) (steps_of events) (Err GaveUp) }
    ensures overdue { (patience : Patience) (work : Work) (events : Events) →
        EndsPausing patience (GoesOn true work) (Ends true work) events Overdue → IsUnfinishedBy true (tasks_of work) (steps_of events) }
    ensures stopped { (patience : Patience) (work : Work) (events : Events) →
        GoesOnPausing patience (GoesOn true work) events → IsUnfinishedBy true (tasks_of work) (steps_of events) }
{}

/// So it is with changes of power, which need no page.
pub fn patient_changes_of_power_have_their_outcomes()
    ensures ended { (patience : Patience) (power : Power) (made room : ℕ) (events : Events) (fault : Option ProvisionFault) → length (steps_of events) ≤ most_steps →
        EndsPausing patience (λ own. GoesOnAt power (steps_of own)) (λ own fault. IsEndedIn power fault (steps_of own)) events (InTime fault) →
        IsPowerChange power (made ≡ room) (steps_of events) (answer_of (record { steps = length (steps_of events); end = Some fault })) }
    ensures gave_up { (patience : Patience) (power : Power) (made room : ℕ) (events : Events) → length (steps_of events) ≡ most_steps →
        GoesOnPausing patience (λ own. GoesOnAt power (steps_of own)) events → IsPowerChange power (made ≡ room) (steps_of events) (Err GaveUp) }
    ensures overdue { (patience : Patience) (power : Power) (events : Events) →
        EndsPausing patience (λ own. GoesOnAt power (steps_of own)) (λ own fault. IsEndedIn power fault (steps_of own)) events Overdue → GoesOnAt power (steps_of events) }
    ensures stopped { (patience : Patience) (power : Power) (events : Events) →
        GoesOnPausing patience (λ own. GoesOnAt power (steps_of own)) events → GoesOnAt power (steps_of events) }
{}

/// Whatever a real bus answers to provisioning, activation and changes of power: between a fruitless transaction and the next one there is
/// a wait, also where they are out of patience.
pub fn procedures_pause()
    ensures work { (patience : Patience) (work : Work) (events : Events) → GoesOnPausing patience (GoesOn true work) events → AreSpaced patience.pause events }
    ensures work_ended { (patience : Patience) (work : Work) (events : Events) (end : Timed (Option ProvisionFault)) →
        EndsPausing patience (GoesOn true work) (Ends true work) events end → AreSpaced patience.pause events }
    ensures power { (patience : Patience) (power : Power) (events : Events) →
        GoesOnPausing patience (λ own. GoesOnAt power (steps_of own)) events → AreSpaced patience.pause events }
    ensures power_ended { (patience : Patience) (power : Power) (events : Events) (end : Timed (Option ProvisionFault)) →
        EndsPausing patience (λ own. GoesOnAt power (steps_of own)) (λ own fault. IsEndedIn power fault (steps_of own)) events end → AreSpaced patience.pause events }
{}

/// Provisioning and activation on a real bus that look at the module's state: what they do besides is what they may do without looks,
/// where refused looks stand for refusals; also where the module left ModuleReady.
pub fn watchful_procedures_have_their_outcomes()
    ensures ended { (patience : Patience) (work : Work) (events : Events) (spent : Spent (Timed (Option ProvisionFault))) →
        EndsWatched patience work events (watched.InOrder spent) →
        (own : Events) × (look : Look) × AddsLooks true own events look None × EndsPatiently patience work own spent }
    ensures left { (patience : Patience) (work : Work) (events : Events) (code : ℕ) →
        EndsWatched patience work events (watched.Left code) →
        (own : Events) × (op : Op) × AddsLooks true own events (Left code) (Some op) × IsUnfinishedBy true (tasks_of work) (steps_of own) }
    ensures spaced { (patience : Patience) (work : Work) (events : Events) (end : Watched (Spent (Timed (Option ProvisionFault)))) →
        EndsWatched patience work events end → AreSpaced patience.pause events × EachLooks events }
{}

/// On a real bus provisioning and activation store nothing on a page that wasn't read back since the newest refusal.
pub fn procedures_doubt()
    ensures going { (work : Work) (events : Events) → GoesOn true work events →
        ConfirmsStores false BankAndPage (λ own. needed_after (tasks_of work) (steps_of own)) events }
    ensures ended { (work : Work) (events : Events) (fault : Option ProvisionFault) → Ends true work events fault →
        ConfirmsStores false BankAndPage (λ own. needed_after (tasks_of work) (steps_of own)) events }
{}
