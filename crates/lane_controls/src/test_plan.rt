//! What a link test is to do: bits of controls that are switched, and results that are read.
ghost use Rattle.std.specs.Prelude.{◌≡◌, ◌≤◌, count_by, find, length, not};
ghost use Rattle.std.specs.List.{list_any};
ghost use Rattle.lane_controls.specs.TestPlans as spec;
ghost use Rattle.lane_controls.specs.TestOperations as tests;

use crate::capabilities::{reports, supports, supports_both_sides};
use crate::control::{Control, Loopback};
use crate::link_test::TestFault;
use crate::merging::merged;
use crate::result_set::ResultSet;
use arrayvec::ArrayVec;

/// How many controls a test may switch.
pub const MAX_SWITCHES: usize = 16;

/// Bits of a control that are to be switched.
#[derive(Clone, Copy)]
pub struct Switch {
    pub control: Control,
    /// Which bits.
    pub mask: u8,
    /// To what.
    pub bits: u8,
}

/// A control that was switched.
#[derive(Clone, Copy)]
pub struct Change {
    pub switch: Switch,
    /// Its byte before.
    pub original: u8,
}

/// What a link test is to do.
#[derive(Drop)]
pub struct TestPlan {
    pub switches: ArrayVec<Switch, MAX_SWITCHES>,
    /// Host lanes that it may disturb though their path is up: bit i-1 is lane i.
    pub permitted: u8,
    /// The host lanes of each media lane's path; all eight where that isn't known.
    pub media_paths: [u8; 8],
    /// How often a control may be stored again, on the way up and on the way down.
    pub tries: u8,
    /// Which results are read.
    pub results: ResultSet,
    /// How often, but at least once.
    pub rounds: u8,
    /// How many milliseconds pass before each time.
    pub period: u32,
}

impl Default for Switch {
    ghost use Rattle.std.specs.Prelude.{◌≡◌};
    ghost use Rattle.lane_controls.specs.TestPlans.{no_bit};

    ghost is_default = { λ switch. switch ≡ no_bit };

    /// No bit of a control.
    fn default() -> Switch {
        Switch {
            control: Control::Loopback(Loopback::HostSideInput),
            mask: 0,
            bits: 0,
        }
    }
}

impl Default for Change {
    ghost use Rattle.std.specs.Prelude.{◌≡◌};
    ghost use Rattle.lane_controls.specs.TestPlans.{no_change};

    ghost is_default = { λ change. change ≡ no_change };

    /// No bit of a control, which was 0.
    fn default() -> Change {
        Change {
            switch: Switch::default(),
            original: 0,
        }
    }
}

impl Switch {
    pub fn address(&self) -> u8
        ensures value { result ≡ spec.address self.now }
        ensures from { 144 ≤ result }
    {
        self.control.address()
    }

    pub fn switched(&self, byte: u8) -> u8
        ensures { result ≡ spec.switched self.now byte }
    {
        merged(self.mask, self.bits, byte)
    }

    fn shares_byte(&self, other: &Switch) -> bool
        ensures { result ≡ spec.shares_byte self.now other.now }
    {
        self.address() == other.address()
    }

    fn is_supported(&self, capabilities: &[u8]) -> bool
        requires { length capabilities.now ≡ 12 }
        ensures { result ≡ spec.supports capabilities.now self.now }
    {
        supports(capabilities, self.control, self.mask, self.bits)
    }

    fn loops_media(&self) -> bool
        ensures { result ≡ spec.loops_media self.now }
    {
        self.control.is_loopback() && self.control.is_media() && self.bits & self.mask > 0
    }

    fn loops_host(&self) -> bool
        ensures { result ≡ spec.loops_host self.now }
    {
        self.control.is_loopback() && !self.control.is_media() && self.bits & self.mask > 0
    }
}

impl TestPlan {
    /// Why the module can't do what is wanted, by bytes 128 to 139 of its page 13h.
    pub fn incapability(&self, capabilities: &[u8]) -> Option<TestFault>
        requires { length capabilities.now ≡ 12 }
        ensures { result ≡ spec.incapability capabilities.now self.now }
    {
        let unsupported = self.unsupported(capabilities);
        self.incapability_by(unsupported, capabilities)
    }

    fn unsupported(&self, capabilities: &[u8]) -> Option<Switch>
        requires { length capabilities.now ≡ 12 }
        ensures { result ≡ find (λ switch. not (spec.supports capabilities.now switch)) self.now.switches.items }
    {
        first_unsupported(&self.switches, capabilities)
    }

    fn incapability_by(&self, unsupported: Option<Switch>, capabilities: &[u8]) -> Option<TestFault>
        requires { length capabilities.now ≡ 12 }
        ensures { result ≡ spec.incapability_by unsupported capabilities.now self.now }
    {
        match unsupported {
            Some(switch) => Some(TestFault::Unsupported(switch.control)),
            None => self.incapability_of_results(capabilities),
        }
    }

    fn incapability_of_results(&self, capabilities: &[u8]) -> Option<TestFault>
        requires { length capabilities.now ≡ 12 }
        ensures { result ≡ spec.incapability_of_results capabilities.now self.now }
    {
        if !reports(capabilities, self.results) {
            return Some(TestFault::UnsupportedResults);
        }
        if loops_both(&self.switches) && !supports_both_sides(capabilities) {
            return Some(TestFault::LoopbacksOnBothSides);
        }
        None
    }

    /// The first switch that concerns a lane which is up, and isn't permitted.
    pub fn forbidden(&self, up: u8) -> Option<Switch>
        ensures { result ≡ spec.forbidden self.now up }
    {
        first_forbidden(self, &self.switches, up)
    }

    #[tactic(auto, unfolding(crate::specs::TestPlans::allows))]
    fn allows(&self, up: u8, switch: &Switch) -> bool
        ensures { result ≡ spec.allows self.now up switch.now }
    {
        let lanes = switch.control.host_lanes(&self.media_paths, switch.mask);
        lanes & up & !self.permitted == 0
    }
}

fn first_forbidden(plan: &TestPlan, switches: &[Switch], up: u8) -> Option<Switch>
    ensures { result ≡ find (λ switch. not (spec.allows plan.now up switch)) switches.now }
{
    switches
        .iter()
        .copied()
        .find(|switch| !plan.allows(up, switch))
}

fn first_unsupported(switches: &[Switch], capabilities: &[u8]) -> Option<Switch>
    requires { length capabilities.now ≡ 12 }
    ensures { result ≡ find (λ switch. not (spec.supports capabilities.now switch)) switches.now }
{
    switches
        .iter()
        .copied()
        .find(|switch| !switch.is_supported(capabilities))
}

fn loops_both(switches: &[Switch]) -> bool
    ensures { result ≡ spec.loops_both switches.now }
{
    loop_media(switches) && loop_host(switches)
}

fn loop_media(switches: &[Switch]) -> bool
    ensures { result ≡ list_any spec.loops_media switches.now }
{
    switches.iter().any(|switch| switch.loops_media())
}

fn loop_host(switches: &[Switch]) -> bool
    ensures { result ≡ list_any spec.loops_host switches.now }
{
    switches.iter().any(|switch| switch.loops_host())
}

/// The first switch whose byte another one shares.
pub fn repeated(switches: &[Switch]) -> Option<Switch>
    requires { length switches.now ≤ 16 }
    ensures { result ≡ spec.repeated switches.now }
{
    switches
        .iter()
        .copied()
        .find(|switch| sharing(switches, switch) > 1)
}

fn sharing(switches: &[Switch], switch: &Switch) -> usize
    requires { length switches.now ≤ 16 }
    ensures { result ≡ count_by (spec.shares_byte switch.now) switches.now }
{
    switches
        .iter()
        .filter(|other| switch.shares_byte(other))
        .count()
}

impl Change {
    pub fn restored(&self, byte: u8) -> u8
        ensures { result ≡ spec.restored self.now byte }
    {
        merged(self.switch.mask, self.original, byte)
    }

    pub fn is_of(&self, address: u8) -> bool
        ensures { result ≡ tests.is_of address self.now }
    {
        self.switch.address() == address
    }
}

pub fn is_among(changes: &[Change], address: u8) -> bool
    ensures { result ≡ tests.is_among changes.now address }
{
    changes.iter().any(|one| one.is_of(address))
}

pub fn copy_of(changes: &[Change]) -> ArrayVec<Change, MAX_SWITCHES>
    requires { length changes.now ≤ 16 }
    ensures { result.items ≡ changes.now }
{
    ArrayVec::try_from(changes).unwrap()
}
