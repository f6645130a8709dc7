// Whether a module is there, by whether it answers.
ghost use Rattle.std.specs.Prelude.{◌≡◌};
ghost use Rattle.port_manager.specs.Silences as spec;

/// How often in a row a port's transactions were refused, and when the first of these began.
#[derive(Clone, Copy, Debug, PartialEq, Eq)]
pub struct Silence {
    pub refusals: u32,
    pub since: u64,
}

/// What was heard of a module.
#[derive(Clone, Copy, Debug, PartialEq, Eq)]
pub enum Presence {
    /// It is there as before, or isn't.
    Same,
    /// It was plugged.
    Plugged,
    /// It counts as pulled.
    Pulled,
}

/// A module counts as pulled once more than so many transactions in a row were refused,
const MOST_REFUSALS: u32 = 3;

/// over more than so many milliseconds.
const LONGEST: u64 = 1000;

impl Silence {
    /// None.
    pub fn none() -> Silence
        ensures { result ≡ spec.none }
    {
        Silence {
            refusals: 0,
            since: 0,
        }
    }

    /// After a transaction that was answered or refused, and began at this moment.
    pub fn after(self, answered: bool, began: u64) -> Silence
        ensures { result ≡ spec.after self answered began }
    {
        if answered {
            Silence::none()
        } else {
            Silence {
                refusals: self.refusals.saturating_add(1),
                since: if self.refusals == 0 {
                    began
                } else {
                    self.since
                },
            }
        }
    }

    /// Whether a module that is so silent counts as pulled at this moment.
    pub fn is_gone(self, now: u64) -> bool
        ensures { result ≡ spec.is_gone self now }
    {
        self.refusals > MOST_REFUSALS && now.saturating_sub(self.since) > LONGEST
    }
}
