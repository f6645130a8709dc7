//! What holds of all observables. Each function is a theorem: its contract says it, and its body is empty.
ghost use Rattle.observables.specs.Amounts.{EachAmountIsExact};
ghost use Rattle.observables.specs.Fixed.{FixedIsExact};
ghost use Rattle.observables.specs.Observations.{EachInstanceHasAPlace, EachMonitorHasAPlace};
ghost use Rattle.observables.specs.Scientific.{ScientificIsExact};

/// The text of a number of eleven bits writes exactly that number.
#[tactic(auto, using(crate::proofs::ExactTexts::is_exact))]
pub fn scientific_is_exact()
    ensures { ScientificIsExact }
{}

/// The text of a decimal fraction writes exactly that number.
#[tactic(auto, using(crate::proofs::ExactFractions::is_exact))]
pub fn fixed_is_exact()
    ensures { FixedIsExact }
{}

/// The list of observations leaves out no monitor of the family, in any lane.
#[tactic(auto, using(crate::proofs::PlacesOfList::each_monitor))]
pub fn each_monitor_has_a_place()
    ensures { EachMonitorHasAPlace }
{}

/// The list of observations leaves out no instance of four banks.
#[tactic(auto, using(crate::proofs::PlacesOfList::each_instance))]
pub fn each_instance_has_a_place()
    ensures { EachInstanceHasAPlace }
{}

/// Each amount of a word is exactly the number that its steps, or its float, are.
pub fn each_amount_is_exact()
    ensures { EachAmountIsExact }
{}
