//! What a link is tested for: a pattern that is made and checked on lanes of one side, and a loopback.
ghost use Rattle.std.specs.Prelude.{◌≡◌, ◌≤◌, ◌<◌, ◌+◌, length, true};
ghost use Rattle.lane_controls.specs.declared.control.Control.TheVariants.{Enable, Measurement, Loopback as Looped};
ghost use Rattle.saved_tests.specs.LinkPlans as spec;

use crate::controls::loopback_in;
use crate::selections::{is_selection, results_in};
use arrayvec::ArrayVec;
use lane_controls::{Control, LanePair, MAX_SWITCHES, PatternUnit, Switch, TestPlan};

/// A pattern that is made and checked on lanes of one side, a loopback, and the results that are read meanwhile.
#[repr(C)]
#[derive(Clone, Copy)]
pub struct LinkPlan {
    /// How many milliseconds pass before each time that results are read.
    pub period: u32,
    /// How often they are read, but at least once.
    pub rounds: u8,
    /// The code that selects them on page 14h.
    pub results: u8,
    /// The code of the time for which they are gated, 0 to 7: page 13h, byte 177, bits 3 to 1.
    pub gate: u8,
    /// Where the pattern is made and checked: 0 on the host side, 1 on the media side.
    pub side: u8,
    /// On which lanes of that side: bit i-1 is lane i.
    pub lanes: u8,
    /// The code of the pattern that is made, 0 to 15; 255 if none is.
    pub generator: u8,
    /// The code of the pattern that is checked, 0 to 15; 255 if none is.
    pub checker: u8,
    /// Where lanes are looped back: 1 to 4, in the order of the bytes on page 13h; 0 if nowhere.
    pub loopback: u8,
    /// Which lanes of the loopback's side.
    pub looped: u8,
    /// Host lanes that it may disturb though their path is up.
    pub permitted: u8,
    /// How often a control may be stored again.
    pub tries: u8,
    /// The host lanes of each media lane's path; all eight where that isn't known.
    pub media_paths: [u8; 8],
}

/// Whether there are such results, such a gate time, such a side, such patterns and such a loopback.
pub fn is_plan(plan: &LinkPlan) -> bool
    ensures { result ≡ spec.is_plan plan.now }
{
    is_selection(plan.results)
        && plan.gate <= 7
        && plan.side <= 1
        && is_pattern(plan.generator)
        && is_pattern(plan.checker)
        && plan.loopback <= 4
}

fn is_pattern(code: u8) -> bool
    ensures { result ≡ spec.is_pattern code }
{
    code <= 15 || code == 255
}

/// What the test is to do.
pub fn test_plan(plan: &LinkPlan) -> TestPlan
    requires { spec.is_plan plan.now ≡ true }
    ensures { result ≡ spec.plan_of plan.now }
{
    TestPlan {
        switches: switches_of(plan),
        permitted: plan.permitted,
        media_paths: plan.media_paths,
        tries: plan.tries,
        results: results_in(plan.results),
        rounds: plan.rounds,
        period: plan.period,
    }
}

fn switches_of(plan: &LinkPlan) -> ArrayVec<Switch, MAX_SWITCHES>
    requires { plan.now.gate ≤ 7 }
    ensures { result.items ≡ spec.switches_of plan.now }
{
    let mut switches = ArrayVec::new();
    add(&mut switches, Control::Measurement, 14, 2 * plan.gate);
    add_loopback(&mut switches, plan.loopback, plan.looped);
    add_patterns(
        &mut switches,
        generator_of(plan.side),
        plan.generator,
        plan.lanes,
    );
    add_patterns(
        &mut switches,
        checker_of(plan.side),
        plan.checker,
        plan.lanes,
    );
    add_enable(
        &mut switches,
        generator_of(plan.side),
        plan.generator,
        plan.lanes,
    );
    add_enable(
        &mut switches,
        checker_of(plan.side),
        plan.checker,
        plan.lanes,
    );
    switches
}

fn generator_of(side: u8) -> PatternUnit
    ensures { result ≡ spec.generator_of side }
{
    if side == 0 {
        PatternUnit::HostGenerator
    } else {
        PatternUnit::MediaGenerator
    }
}

fn checker_of(side: u8) -> PatternUnit
    ensures { result ≡ spec.checker_of side }
{
    if side == 0 {
        PatternUnit::HostChecker
    } else {
        PatternUnit::MediaChecker
    }
}

fn add(switches: &mut ArrayVec<Switch, MAX_SWITCHES>, control: Control, mask: u8, bits: u8)
    requires { length switches.old.items < 16 }
    ensures value { switches.new.items ≡ spec.with_switch switches.old.items control mask bits }
    ensures room { length switches.new.items ≤ length switches.old.items + 1 }
{
    if mask > 0 {
        switches.push(Switch {
            control,
            mask,
            bits,
        });
    }
}

fn add_loopback(switches: &mut ArrayVec<Switch, MAX_SWITCHES>, loopback: u8, lanes: u8)
    requires { length switches.old.items < 16 }
    ensures value { switches.new.items ≡ spec.with_loopback switches.old.items loopback lanes }
    ensures room { length switches.new.items ≤ length switches.old.items + 1 }
{
    if loopback > 0 {
        let control = Control::Loopback(loopback_in(loopback - 1));
        add(switches, control, lanes, lanes);
    }
}

// The code stands in both halves of a byte, of which the mask takes those of these lanes.
fn add_patterns(
    switches: &mut ArrayVec<Switch, MAX_SWITCHES>,
    unit: PatternUnit,
    code: u8,
    lanes: u8,
)
    requires { length switches.old.items ≤ 12 }
    ensures value { switches.new.items ≡ spec.with_patterns switches.old.items unit code lanes }
    ensures room { length switches.new.items ≤ length switches.old.items + 4 }
{
    if code <= 15 {
        let both = 17 * code;
        add(
            switches,
            Control::Pattern(unit, LanePair::First),
            half_mask(lanes, 0),
            both,
        );
        add(
            switches,
            Control::Pattern(unit, LanePair::Second),
            half_mask(lanes, 1),
            both,
        );
        add(
            switches,
            Control::Pattern(unit, LanePair::Third),
            half_mask(lanes, 2),
            both,
        );
        add(
            switches,
            Control::Pattern(unit, LanePair::Fourth),
            half_mask(lanes, 3),
            both,
        );
    }
}

// The halves of a byte that are of these lanes, of two lanes by their number, counted from 0.
fn half_mask(lanes: u8, pair: u8) -> u8
    requires { pair < 4 }
    ensures { result ≡ spec.half_mask lanes pair }
{
    half_at(lanes, 2 * pair, 15) + half_at(lanes, 2 * pair + 1, 240)
}

#[tactic(auto, using(std::proofs::lemmas::Nat::Bits::shr_and_one))]
fn half_at(lanes: u8, index: u8, half: u8) -> u8
    requires { index < 8 }
    ensures value { result ≡ spec.half_at lanes index half }
    ensures most { result ≤ half }
{
    if lanes >> index & 1 == 1 { half } else { 0 }
}

fn add_enable(switches: &mut ArrayVec<Switch, MAX_SWITCHES>, unit: PatternUnit, code: u8, lanes: u8)
    requires { length switches.old.items < 16 }
    ensures value { switches.new.items ≡ spec.with_enable switches.old.items unit code lanes }
    ensures room { length switches.new.items ≤ length switches.old.items + 1 }
{
    if code <= 15 {
        add(switches, Control::Enable(unit), lanes, lanes);
    }
}
