//! What holds of provisioning with settings, whatever a module answers. Each function is a theorem: its contract says it, and its body is
//! empty.
ghost use Rattle.std.specs.Prelude.{◌≡◌, ◌+◌, ◌++◌, ℕ, Bool, List, None, Option, Ok, Some, length};
ghost use Rattle.conversations.specs.declared.pausing.Patience.{Patience};
ghost use Rattle.conversations.specs.declared.pausing.Timed.{Timed};
ghost use Rattle.conversations.specs.declared.pausing.Timed.TheVariants.{InTime};
ghost use Rattle.conversations.specs.declared.watching.Watched.{Watched};
ghost use Rattle.conversations.specs.declared.within.Spent.{Spent};
ghost use Rattle.conversations.specs.Events.{Events, steps_of};
ghost use Rattle.conversations.specs.Pauses.{EndsPausing};
ghost use Rattle.field_tables.specs.declared.field.Field.TheVariants as fields;
ghost use Rattle.field_tables.specs.declared.table.cmis.CmisField.TheVariants as cmis;
ghost use Rattle.field_tables.specs.FieldValues.{number_in_byte};
ghost use Rattle.field_tables.specs.LaneSets.{Lanes};
ghost use Rattle.control_sets.specs.declared.control_byte.ControlByte.{ControlByte};
ghost use Rattle.control_sets.specs.declared.procedures.procedure.Work.TheVariants.{Provisioning};
ghost use Rattle.control_sets.specs.ControlBytes.{byte_saying, control_of};
ghost use Rattle.lane_controls.specs.declared.settings_change.SettingsChange.{SettingsChange};
ghost use Rattle.explicit_provisioning.specs.declared.fault.ExplicitFault.{ExplicitFault};
ghost use Rattle.explicit_provisioning.specs.Comparing.{ComparingEnds};
ghost use Rattle.explicit_provisioning.specs.ExplicitBytes.{with_explicit};
ghost use Rattle.explicit_provisioning.specs.ExplicitProcedures.{Ends, EndsPatiently, EndsWatched, ExplicitEnd, GoesOn, answer_in_time, answer_watched, fault_of};
ghost use Rattle.explicit_provisioning.specs.Following.{first_part, second_part};
ghost use Rattle.explicit_provisioning.specs.LastReads.{ReadsExplicit};
ghost use Rattle.explicit_provisioning.specs.SettingsFound.{ComparingFound, StagingFound};
ghost use Rattle.explicit_provisioning.specs.Staging.{StagingEnds};

/// A control byte under explicit control asks for the same path, with ExplicitControl 1. For a byte of a plan it is one more.
pub fn explicit_control_keeps_the_path()
    ensures path { (byte : ℕ) → control_of (with_explicit byte) ≡ control_of byte }
    ensures explicit { (byte : ℕ) → number_in_byte (fields.Cmis cmis.StagedExplicit) (with_explicit byte) ≡ 1 }
    ensures more { (control : ControlByte) → with_explicit (byte_saying control) ≡ byte_saying control + 1 }
{}

/// Each event of two conversations is of the first, or after all of them and of the second.
pub fn events_are_of_the_first_and_then_of_the_second()
    ensures { (over : Events → Bool) (events : Events) → second_part over events ++ first_part over events ≡ events }
{}

/// Settings are staged only where they were read back; and each fault of staging and comparing comes from what was read, after all tries.
pub fn settings_are_as_they_were_read()
    ensures staged { (change : SettingsChange) (events : Events) (fault : Option ExplicitFault) → StagingEnds change events fault → StagingFound change fault (steps_of events) }
    ensures active { (change : SettingsChange) (events : Events) (fault : Option ExplicitFault) → ComparingEnds change events fault → ComparingFound change fault (steps_of events) }
{}

/// If provisioning with settings succeeds, the Active Control Set, as it was read last, has the control bytes under explicit control, and
/// each lane its settings; and nothing was stored since both were read. So it is with pauses, and with looks at the module's state.
pub fn a_success_with_settings_was_read()
    ensures read { (change : SettingsChange) (control : List ℕ) (lanes : Lanes) (events : Events) (end : ExplicitEnd) → length control ≡ 8 → fault_of end ≡ None →
        Ends change (Provisioning control lanes) events end → ReadsExplicit control change (steps_of events) }
    ensures patiently { (patience : Patience) (change : SettingsChange) (control : List ℕ) (lanes : Lanes) (events : Events) (end : ExplicitEnd) → length control ≡ 8 → fault_of end ≡ None →
        EndsPausing patience (GoesOn change (Provisioning control lanes)) (Ends change (Provisioning control lanes)) events (InTime end) → ReadsExplicit control change (steps_of events) }
    ensures answered { (patience : Patience) (change : SettingsChange) (control : List ℕ) (lanes : Lanes) (events : Events) (spent : Spent (Timed ExplicitEnd)) (steps : ℕ) → length control ≡ 8 →
        EndsPatiently patience change (Provisioning control lanes) events spent → answer_in_time {F = Unit {0}} spent.steps spent.end ≡ Ok steps → ReadsExplicit control change (steps_of events) }
    ensures watched { (patience : Patience) (change : SettingsChange) (control : List ℕ) (lanes : Lanes) (events : Events) (end : Watched (Spent (Timed ExplicitEnd))) (steps : ℕ) → length control ≡ 8 →
        EndsWatched patience change (Provisioning control lanes) events end → answer_watched {F = Unit {0}} (Some end) ≡ Ok steps → ReadsExplicit control change (steps_of events) }
{}
