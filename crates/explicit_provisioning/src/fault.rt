use control_sets::{PatientFault, ProvisionFault};

/// Why provisioning with settings ended without success.
#[derive(Clone, Copy, Debug, PartialEq, Eq)]
pub enum ExplicitFault {
    /// As without settings.
    Provision(ProvisionFault),
    /// Other settings are staged after all tries: nothing else was stored.
    NotStaged,
    /// This host lane has other settings in the active set, after all tries; it is the lowest that has.
    NotActive(u8),
}

/// Why provisioning with settings on a real bus failed.
#[derive(Clone, Copy, Debug, PartialEq, Eq, Drop)]
pub enum ExplicitFailure<F> {
    /// As without settings.
    Provision(PatientFault<F>),
    /// As `ExplicitFault` has them.
    NotStaged,
    NotActive(u8),
}
