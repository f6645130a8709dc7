//! What holds of the names in details. Each function is a theorem: its contract says it, and its body is empty.
ghost use Rattle.observable_reports.specs.UniqueInstances.{InstancesHaveUniqueKeys};

/// No two instances that a module lists itself (VDM) have the same key, and none has that of another line.
#[tactic(auto, using(crate::proofs::UniqueInstances::instances_have_unique_keys))]
pub fn no_instance_has_a_key_twice()
    ensures { InstancesHaveUniqueKeys }
{}
