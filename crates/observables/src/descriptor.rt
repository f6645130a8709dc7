/// What an instance of the list observes, and where its limits stand.
#[derive(Clone, Copy, Debug, PartialEq, Eq)]
pub struct Descriptor {
    /// Which set of limits of its group applies, from 0 to 15.
    pub set: u8,
    /// The lane or data path that it observes, from 1 to 16; 1 for the module.
    pub lane: u8,
    /// The number of the type of the observable, which is not 0.
    pub kind: u8,
}

impl Descriptor {
    ghost use Rattle.std.specs.Prelude.{◌≡◌, ◌<◌, ◌≤◌, IfSome, MatchOption};
    ghost use Rattle.observables.specs.Descriptors.{Describes, descriptor_of};

    /// The descriptor that two bytes are, unless the instance is unused.
    pub fn of(first: u8, second: u8) -> Option<Descriptor>
        ensures describes { MatchOption result (second ≡ 0) (Describes first second) }
        ensures value { result ≡ descriptor_of first second }
        ensures set { IfSome result (λ descriptor. descriptor.set < 16) }
        ensures lane { IfSome result (λ descriptor. descriptor.lane ≤ 16) }
    {
        if second == 0 {
            return None;
        }
        Some(Descriptor {
            set: first / 16,
            lane: first % 16 + 1,
            kind: second,
        })
    }
}
