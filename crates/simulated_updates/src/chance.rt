ghost use Rattle.std.specs.Prelude.{◌≡◌};
ghost use Rattle.simulated_updates.specs.Undisturbed.{undisturbed};

/// What comes before a transaction.
#[derive(Clone, Copy, Debug, PartialEq, Eq, Drop)]
pub enum Before {
    /// Nothing; a reset that is still to come comes later.
    Nothing,
    /// Power is lost, and comes back.
    PowerLoss,
    /// The reset of a Run, if one is still to come; the new image boots, or doesn't.
    Reset { boots: bool },
}

/// What a message comes to whose id is stored.
#[derive(Clone, Copy, Debug, PartialEq, Eq, Drop)]
pub enum Fate {
    /// It is carried out, if it can be.
    Carried,
    /// It fails.
    Fails,
    /// Power is lost in its midst, when it is done or before.
    CutShort { done: bool },
}

/// What the bus and chance do with one transaction.
#[derive(Clone, Copy, Debug, PartialEq, Eq, Drop)]
pub struct Chance {
    pub before: Before,
    /// It is refused, and so many bytes of a store reach the module.
    pub kept: Option<u8>,
    pub fate: Fate,
    /// For how many milliseconds a message that it brings keeps the module busy.
    pub busy: u32,
}

impl Chance {
    /// The reset of a Run comes as soon as it may, and its image boots; the transaction reaches the module, which carries out what it
    /// brings at once.
    pub fn undisturbed() -> Chance
        ensures { result ≡ undisturbed }
    {
        Chance {
            before: Before::Reset { boots: true },
            kept: None,
            fate: Fate::Carried,
            busy: 0,
        }
    }
}

impl Default for Chance {
    ghost is_default = { λ chance. chance ≡ undisturbed };

    fn default() -> Chance {
        Chance::undisturbed()
    }
}
