//! What holds of ports. Each function is a theorem: its contract says it, and its body is empty.
ghost use Rattle.std.specs.Prelude.{◌≡◌, ◌⊎◌, List, None, ℕ, false, true};
ghost use Rattle.std.specs.FinSet as set;
ghost use Rattle.field_tables.specs.LaneSets.{IsLane, lanes_in};
ghost use Rattle.control_sets.specs.StoredBits.{Sets};
ghost use Rattle.control_sets.specs.PlanLanes.{is_taken};
ghost use Rattle.bus_model.specs.declared.operation.Op.{Op};
ghost use Rattle.conversations.specs.declared.next.Next.TheVariants.{Do};
ghost use Rattle.paged_memory.specs.Images.{Memory};
ghost use Rattle.applications.specs.Advertised.{Advertised};
ghost use Rattle.plan_certificate.specs.declared.path.Path.{Path};
ghost use Rattle.port_manager.specs.declared.change.Change.{Change};
ghost use Rattle.port_manager.specs.declared.deciding.Decision.{Decision};
ghost use Rattle.port_manager.specs.declared.deciding.Goal.{Goal};
ghost use Rattle.port_manager.specs.declared.deciding.Wanted.{Wanted};
ghost use Rattle.port_manager.specs.declared.port.Port.{Port};
ghost use Rattle.port_manager.specs.CameUp.{CameUpAsWanted};
ghost use Rattle.port_manager.specs.Changes.{IsStoreOfChange, first_hindrance, judged_by};
ghost use Rattle.port_manager.specs.Decisions.{IsDecision};
ghost use Rattle.port_manager.specs.Goals.{IsGoalBy, is_deactivated, kept_of, wanted_of};
ghost use Rattle.port_manager.specs.Idle.{LeavesWhatIsUp};
ghost use Rattle.port_manager.specs.KeptFlags.{NoFlagIsLost};
ghost use Rattle.port_manager.specs.KeptLanes.{NoLaneFlagIsLost};
ghost use Rattle.port_manager.specs.LeftAlone.{IsReadAgain};
ghost use Rattle.port_manager.specs.LeftReasons.{LeftAsFound};
ghost use Rattle.port_manager.specs.Ports.{next_at};
ghost use Rattle.port_manager.specs.Presences.{IsPulledBySilence};
ghost use Rattle.port_manager.specs.Progress.{ComesUp, ComesUpAnew, NeverStops};
ghost use Rattle.port_manager.specs.ReadAnew.{ReadsAnew};
ghost use Rattle.port_manager.specs.Requested.{IsRequestDone};
ghost use Rattle.port_manager.specs.Runs.{Reaches};
ghost use Rattle.port_manager.specs.Stores.{IsStoreOf, MayMakeIn, StoresNothing, TakesPermitted};
ghost use Rattle.port_manager.specs.Stories.{Story, held_in, settled_in, vain_in};
ghost use Rattle.port_manager.specs.Standing.{IsAt};
ghost use Rattle.port_manager.specs.Wakings.{MayBeToldAgain, WasTold};

/// What a port asks for, after any story, names its weights. It fetches, selects a page, or is a store of the first best plan of the
/// image that the last reading gave since the module was plugged, by the weights that were given with its last reply, without the
/// lanes that somebody asked to be down. Or it wakes the module up, which the last reading showed to need no more power than it may
/// have, and which was not woken up in vain since it was plugged or somebody asked. Or it puts the module to sleep, since somebody
/// asked, and the last reading showed no lane as up that may not be taken down.
pub fn stores_name_their_weights()
    ensures { (story : Story) (port : Port) (op : Op) (now : ℕ) → Reaches story port → next_at port now ≡ Do op → MayMakeIn story op }
{}

/// After any story, no operation takes a lane down, or applies it, that the last reading showed to be up, unless that is permitted by
/// what was wanted with its last reply, or asked by then.
pub fn no_lane_goes_down_unpermitted()
    ensures { (story : Story) (port : Port) (op : Op) (now : ℕ) → Reaches story port → next_at port now ≡ Do op → TakesPermitted story op }
{}

/// After any story, a port that found its module to be as it is wanted stores nothing until something changes. So does one whose
/// reading shows that all of the module's plan is up, as after a restart.
pub fn what_is_up_is_left_alone()
    ensures settled { (story : Story) (port : Port) (op : Op) (now : ℕ) → Reaches story port → settled_in story ≡ true → next_at port now ≡ Do op →
        StoresNothing op }
    ensures image { LeavesWhatIsUp }
{}

/// After any story, an apply that was refused led to a failure, or to nothing if the module was to be read anew in any case: so nothing
/// is stored before the module is read and judged anew, and an apply that the module took, and the bus refused, isn't stored again to
/// lanes that came up by it. Of several that are refused, before the control bytes are active, or the module is as wanted or left alone,
/// that holds of the first.
pub fn a_refused_apply_is_not_repeated_unread()
    ensures { (story : Story) (port : Port) → Reaches story port → ReadsAnew story }
{}

/// After any story, a module is taken as woken up in vain, and so isn't woken up again, only if it was told to wake up since it was
/// plugged and since somebody asked: the store that clears its low power requests was accepted. If the bus refused all before that, the
/// module is read anew, and may be woken up again.
pub fn a_module_is_not_given_up_unasked()
    ensures told { (story : Story) (port : Port) → Reaches story port → vain_in story ≡ true → WasTold story }
    ensures again { MayBeToldAgain }
{}

/// After any story, each time that the port said that its module came up, page 11h as it had just fetched it, by a look on its confirmed
/// page or as the last of a reading, had the control bytes of the last reading's goal as active, and its lanes as up.
pub fn a_module_that_came_up_is_as_wanted()
    ensures { (story : Story) (port : Port) → Reaches story port → CameUpAsWanted story }
{}

/// After any story, each time that the port left its module alone, for whatever reason, a reading had just read the module, and by what was
/// wanted and asked that was decided of it. Or the module was put to sleep by the last reading, and its state was just read as low power.
pub fn a_module_is_left_alone_as_it_was_found()
    ensures { (story : Story) (port : Port) → Reaches story port → LeftAsFound story }
{}

/// What the calls of a port give, one after the other, is a story of which all that is said of stories holds: one operation at a
/// time, none before the moment that the pause after an operation in vain, or a failure, leads to, and flags as they were read and
/// acknowledged.
pub fn stories_are_lawful()
    ensures { (story : Story) (port : Port) → Reaches story port → IsAt story port }
{}

/// After a module was plugged, or began to be read anew, as after each failure, unless something fails, it is left alone, pulled or
/// wanted otherwise: once more operations were made than 65, and 3 for each that was followed by a pause, it is up as it is wanted.
pub fn a_module_comes_up()
    ensures plugged { ComesUp }
    ensures anew { ComesUpAnew }
{}

/// After any story, a port that is to hold still asks for nothing.
pub fn a_held_port_asks_for_nothing()
    ensures { (story : Story) (port : Port) (op : Op) (now : ℕ) → Reaches story port → held_in story ≡ true → ¬ (next_at port now ≡ Do op) }
{}

/// After any story, a port that works at a module, and isn't to hold still, asks for an operation as soon as none is outstanding and it
/// may.
pub fn a_port_never_stops()
    ensures { NeverStops }
{}

/// After any story, a port that has left its module alone for long enough, and isn't to hold still, has it read and judged anew, and asks
/// for an operation as soon as none is outstanding and it may; unless it is to wait until somebody asks.
pub fn a_module_left_alone_is_read_again()
    ensures { IsReadAgain }
{}

/// Of an image and weights there is one decision, and `decide` gives it.
pub fn one_decision()
    ensures { (wanted : Wanted) (image : Memory) (one other : Decision) → IsDecision wanted image one → IsDecision wanted image other → one ≡ other }
{}

/// Each flag that a reply of a CMIS module shows as raised is counted, and dated no earlier, until what was read at that moment is
/// acknowledged, whatever comes between, also if the module is pulled. A reply of a module of another family, by byte 0 as it was last
/// read, counts and dates nothing.
pub fn no_flag_is_lost()
    ensures { NoFlagIsLost }
{}

/// Each flag that what is read of a bank's page 11h shows as raised is counted, and dated no earlier, until what was read at that moment is
/// acknowledged, whatever is read meanwhile.
pub fn no_flag_of_a_bank_is_lost()
    ensures { NoLaneFlagIsLost }
{}

/// No store of a goal has a bit of DPDeinit or ApplyDPInit of a lane that a kept path takes.
pub fn kept_lanes_are_left()
    ensures { (advert : Advertised) (wanted : Wanted) (page : List ℕ) (plan : List Path) (goal : Goal) (op : Op) (bits lane : ℕ) →
        IsGoalBy advert wanted page plan goal → is_taken advert (kept_of advert page goal.control (wanted_of advert wanted.down plan)) lane ≡ true →
        IsStoreOf goal op → Sets bits op → IsLane lane →
        set.contains (lanes_in bits) lane ≡ false }
{}

/// What is heard of a module is that it was plugged, that it was pulled, or neither. It is pulled if, and only if, more than three
/// transactions in a row were refused over more than a second, and plugged if it answers and wasn't there.
pub fn a_silent_module_is_pulled()
    ensures { IsPulledBySilence }
{}

/// After somebody asked something of a port with a module and nothing outstanding, unless something fails, it is left alone, pulled or
/// wanted otherwise: once more operations were made than 65, and 3 for each that was followed by a pause, it is up as it is wanted.
/// If it was to be in low power, it is left alone before that.
pub fn what_is_asked_is_done()
    ensures { IsRequestDone }
{}

/// No path of a goal has a lane that is to be down.
pub fn lanes_that_are_to_be_down_have_no_path()
    ensures { (advert : Advertised) (wanted : Wanted) (page : List ℕ) (plan : List Path) (goal : Goal) (lane : ℕ) →
        IsGoalBy advert wanted page plan goal → set.contains wanted.down lane ≡ true → set.contains goal.lanes lane ≡ false }
{}

/// A change that nothing stands against, by `judge`, stores no bit of DPDeinit or ApplyDPInit of a lane that isn't DPDeactivated,
/// unless that lane may be taken down.
pub fn a_change_takes_no_lane_down_unpermitted()
    ensures { (page : List ℕ) (change : Change) (state : ℕ) (op : Op) (bits lane : ℕ) →
        first_hindrance change state page ≡ None → IsStoreOfChange page change op → Sets bits op → IsLane lane →
        set.contains (lanes_in bits) lane ≡ true →
        (is_deactivated page lane ≡ true) ⊎ (set.contains change.may.take_down lane ≡ true) }
{}

/// A change stores no bit of DPDeinit or ApplyDPInit of a lane that stays, by `judge`, also if something stands against it.
pub fn a_change_leaves_what_stays()
    ensures { (page : List ℕ) (change : Change) (state : ℕ) (op : Op) (bits lane : ℕ) →
        IsStoreOfChange page change op → Sets bits op → IsLane lane →
        set.contains (judged_by change state page).stays lane ≡ true → set.contains (lanes_in bits) lane ≡ false }
{}
