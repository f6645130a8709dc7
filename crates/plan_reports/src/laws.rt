//! What holds of the keys of JSON. The function is a theorem: its contract says it, and its body is empty.

ghost use Rattle.plan_reports.specs.UniqueKeys.{FaultsHaveUniqueKeys, PlansHaveUniqueKeys, VerdictsHaveUniqueKeys};

/// No object in the JSON of a plan, a fault or a verdict has a key twice.
pub fn no_object_has_a_key_twice()
    ensures plans { PlansHaveUniqueKeys }
    ensures faults { FaultsHaveUniqueKeys }
    ensures verdicts { VerdictsHaveUniqueKeys }
{}
