//! The conversations on a bus of which nothing is known: on confirmed pages, of so many operations at most. On a real bus they
//! pause, end if they do that for too long, and doubt the page selection after a refusal.
ghost use Rattle.std.specs.Prelude.{◌≡◌, []};
ghost use Rattle.conversations.specs.Carried.{MakesEvents};
ghost use Rattle.lane_controls.specs.LaneChanges as changes;
ghost use Rattle.lane_controls.specs.LaneRuns.{ChangesLanes, ChangesLanesPatiently};
ghost use Rattle.lane_controls.specs.SettingsChanges as settings;
ghost use Rattle.lane_controls.specs.TestOperations as tests;
ghost use Rattle.lane_controls.specs.Unconfirmed.{patient, trusting, unconfirmed};

use crate::lane_change::{ChangingLanes, LaneChange, LaneEnd};
use crate::link_test::LinkTest;
use crate::settings_change::{ChangingSettings, SettingsChange};
use crate::test_plan::TestPlan;
use conversations::{Conversation, OnPage, Patience, Pausing, Spent, Timed, TimedBus, Within, run};
use paged_memory::KnownPage;

/// A change of lanes, to be carried out.
pub type LaneProcedure = Within<OnPage<ChangingLanes>>;

/// A change of lanes, to be carried out on a real bus.
pub type PatientLaneProcedure = Within<Pausing<OnPage<ChangingLanes>>>;

/// A link test, to be carried out.
pub type TestProcedure = Within<OnPage<LinkTest>>;

/// A link test, to be carried out on a real bus.
pub type PatientTestProcedure = Within<Pausing<OnPage<LinkTest>>>;

/// A change of settings, to be carried out.
pub type SettingsProcedure = Within<OnPage<ChangingSettings>>;

/// A change of settings, to be carried out on a real bus.
pub type PatientSettingsProcedure = Within<Pausing<OnPage<ChangingSettings>>>;

/// A change of lanes within so many operations.
pub fn lane_procedure(change: LaneChange, limit: u16) -> LaneProcedure
    ensures value { result ≡ trusting (changes.begun change) limit }
    ensures begun { ⟦<LaneProcedure as Conversation>⟧.told [] result }
{
    Within::new(on_page(change.begin(), false), limit)
}

/// A change of lanes on a real bus, within so many operations and with so much patience.
pub fn patient_lane_procedure(
    change: LaneChange,
    patience: Patience,
    limit: u16,
) -> PatientLaneProcedure
    ensures value { result ≡ patient (changes.begun change) patience limit }
    ensures begun { ⟦<PatientLaneProcedure as Conversation>⟧.told [] result }
{
    Within::new(Pausing::new(on_page(change.begin(), true), patience), limit)
}

/// A link test within so many operations.
pub fn test_procedure(plan: TestPlan, limit: u16) -> TestProcedure
    ensures value { result ≡ trusting (tests.begun plan) limit }
    ensures begun { ⟦<TestProcedure as Conversation>⟧.told [] result }
{
    Within::new(on_page(LinkTest::of(plan), false), limit)
}

/// A link test on a real bus, within so many operations and with so much patience.
pub fn patient_test_procedure(
    plan: TestPlan,
    patience: Patience,
    limit: u16,
) -> PatientTestProcedure
    ensures value { result ≡ patient (tests.begun plan) patience limit }
    ensures begun { ⟦<PatientTestProcedure as Conversation>⟧.told [] result }
{
    Within::new(
        Pausing::new(on_page(LinkTest::of(plan), true), patience),
        limit,
    )
}

/// A change of settings within so many operations.
pub fn settings_procedure(change: SettingsChange, limit: u16) -> SettingsProcedure
    ensures value { result ≡ trusting (settings.begun change) limit }
    ensures begun { ⟦<SettingsProcedure as Conversation>⟧.told [] result }
{
    Within::new(on_page(change.begin(), false), limit)
}

/// A change of settings on a real bus, within so many operations and with so much patience.
pub fn patient_settings_procedure(
    change: SettingsChange,
    patience: Patience,
    limit: u16,
) -> PatientSettingsProcedure
    ensures value { result ≡ patient (settings.begun change) patience limit }
    ensures begun { ⟦<PatientSettingsProcedure as Conversation>⟧.told [] result }
{
    Within::new(Pausing::new(on_page(change.begin(), true), patience), limit)
}

fn on_page<C>(conversation: C, doubts: bool) -> OnPage<C>
    ensures { result ≡ unconfirmed conversation doubts }
{
    OnPage {
        conversation,
        selection: KnownPage::Unknown,
        taken: None,
        doubts,
    }
}

/// Changes lanes. Whatever the bus refuses, no other bit is stored.
pub fn change_lanes<B: TimedBus>(
    bus: &mut B,
    change: LaneChange,
    limit: u16,
) -> Result<Spent<LaneEnd>, B::Fault>
    ensures { MakesEvents B.makes B.passes bus.old (λ last events. ChangesLanes change limit (last ≡ bus.new) (λ fault. B.fails last fault bus.new) events result) }
{
    let mut procedure = lane_procedure(change, limit);
    run(bus, &mut procedure)
}

/// Changes lanes on a real bus.
pub fn change_lanes_on<B: TimedBus>(
    bus: &mut B,
    change: LaneChange,
    patience: Patience,
    limit: u16,
) -> Result<Spent<Timed<LaneEnd>>, B::Fault>
    ensures { MakesEvents B.makes B.passes bus.old (λ last events. ChangesLanesPatiently change patience limit (last ≡ bus.new) (λ fault. B.fails last fault bus.new) events result) }
{
    let mut procedure = patient_lane_procedure(change, patience, limit);
    run(bus, &mut procedure)
}
