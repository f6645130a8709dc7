use arrayvec::ArrayVec;
use bus_model::MAX_FETCH;

/// What is known of a message after an attempt to have it carried out.
#[derive(Debug, PartialEq, Eq, Drop)]
pub enum Outcome {
    /// The module says that it was carried out, with this reply.
    Succeeded(ArrayVec<u8, MAX_FETCH>),
    /// The module says that it failed, with this status.
    Failed(u8),
    /// It was not sent: its id was not stored.
    Unsent,
    /// Its id was stored, perhaps, and what came of it is not known.
    Unknown,
}

impl Outcome {
    ghost use Rattle.std.specs.Prelude.{◌≡◌};

    /// The same outcome.
    pub(crate) fn copy(&self) -> Outcome
        ensures { result ≡ self.now }
    {
        match self {
            Outcome::Succeeded(reply) => {
                Outcome::Succeeded(ArrayVec::try_from(reply.as_slice()).unwrap())
            }
            Outcome::Failed(status) => Outcome::Failed(*status),
            Outcome::Unsent => Outcome::Unsent,
            Outcome::Unknown => Outcome::Unknown,
        }
    }
}
