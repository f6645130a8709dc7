//! What holds of two runs: one command after the other, and one command with a flag and without it; and of all faults.
ghost use Rattle.std.specs.Prelude.{◌≡◌, ℕ, ◌≤◌, true, false, IsTrue, List, [], ◌∷◌, length, None, Ok};
ghost use Rattle.command_line.specs.Commands.{IsAnswerOf};
ghost use Rattle.command_line.specs.FaultTexts.{has_sentence};
ghost use Rattle.command_line.specs.Limits.{input_limit};
ghost use Rattle.command_line.specs.Parts.{parts_of};
ghost use Rattle.command_line.specs.PlanThenCheck.{input_with, plan_request, IsEnded, IsGoodBehind, IsGoodBehindInput, IsGoodInPlace};
ghost use Rattle.command_line.specs.SameOverBus.{AreReportedAlike, AreReportedBefore, IsReportedAlike, details_with, metrics_with, over_bus};
ghost use Rattle.command_line.specs.declared.choice.commands.CommandName.TheVariants.{Details, Metrics, Observables, Report};
ghost use Rattle.module_metrics.specs.VdmMetrics.{vdm_seen};
ghost use Rattle.observable_reports.specs.ListedInstances.{all_listed};
ghost use Rattle.command_line.specs.declared.choice.commands.ReportName.{ReportName};
ghost use Rattle.command_line.specs.declared.choice.options.Options.{Options};
ghost use Rattle.command_line.specs.declared.fault.Fault.{Fault};
ghost use Rattle.command_line.specs.declared.remark.opening.Opening.{Opening};

/// What `plan` writes, `check` calls good, and writes the plan: after the input of `plan`, whose last line is ended, and a
/// line `---`, if all of it is within the limit. With `--keep` it does so after the image and the weights, and in the place
/// of the kept paths, whose last line need not be ended. Both commands have the same of the flags `--paired`,
/// `--counts-by-id` and `--now`.
/// With `--first` it says that the plan is the first of the best, and with `--json` it says the same as JSON.
pub fn what_is_planned_is_good()
    ensures nothing_kept { (options : Options) (input text : List ℕ) → IsEnded input → IsAnswerOf (plan_request false options) input (Ok (text, None))
        → length (input_with input text) ≤ input_limit → IsGoodBehindInput options.conventions input text }
    ensures kept { (options : Options) (image weights kept text input : List ℕ) → parts_of input ≡ image ∷ weights ∷ kept ∷ []
        → IsAnswerOf (plan_request true options) input (Ok (text, None)) → IsGoodBehind options.conventions image weights kept text }
    ensures in_place { (options : Options) (input kept text : List ℕ) → IsEnded input → length (parts_of input) ≡ 2
        → IsAnswerOf (plan_request true options) (input_with input kept) (Ok (text, None))
        → length (input_with input text) ≤ input_limit → IsGoodInPlace options.conventions input kept text }
{}

/// What a report prints with `--bus`, and how it ends, is what it prints without and how it ends then, with `--json` and without
/// it, in colors or not, unless the module was not read whole, or an allocation or a read was refused. So it is with details, with observables, and with
/// metrics, whatever labels they have, and whether all flags are reported or those that are raised, if the image has no other statistics (VDM) than those
/// that its banks advertise. If it has others, details and metrics differ in them alone.
pub fn a_bus_changes_no_report()
    ensures reports { (report : ReportName) (options : Options) → IsReportedAlike (over_bus (Report report) options) }
    ensures details { (options : Options) → AreReportedAlike (over_bus Details options) }
    ensures other_details { (options : Options) → AreReportedBefore all_listed (details_with options) (over_bus Details options) }
    ensures observables { (options : Options) → AreReportedAlike (over_bus Observables options) }
    ensures metrics { (options : Options) → AreReportedAlike (over_bus Metrics options) }
    ensures other_metrics { (options : Options) → AreReportedBefore vdm_seen (metrics_with options.labels) (over_bus Metrics options) }
{}

/// Each fault has a sentence, however the input begins.
pub fn each_fault_has_a_sentence()
    ensures { (fault : Fault) (opening : Opening) → IsTrue (has_sentence fault opening) }
{}
