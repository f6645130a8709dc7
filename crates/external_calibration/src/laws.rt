//! What holds of all readings. Each function is a theorem: its contract says it, and its body is empty.
ghost use Rattle.external_calibration.specs.GreatestThousandths.{ThousandthsAreTheGreatest};
ghost use Rattle.external_calibration.specs.Neutral.{NeutralConstantsChangeNothing};

/// With slopes of 1 and offsets of 0, a reading amounts to what it does if the module calibrates it itself.
pub fn neutral_constants_change_nothing()
    ensures { NeutralConstantsChangeNothing }
{}

/// An amount is the greatest thousandth that is not above the exact value.
pub fn thousandths_are_the_greatest()
    ensures { ThousandthsAreTheGreatest }
{}
