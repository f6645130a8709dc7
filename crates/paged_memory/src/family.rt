ghost use Rattle.std.specs.Prelude.{◌≡◌};
ghost use Rattle.paged_memory.specs.Families.{is_other_cmis};

/// The families of modules: each has a standard of its own for what stands where in its memory.
#[derive(Clone, Copy, Debug, PartialEq, Eq)]
pub enum Family {
    /// OIF-CMIS-05.0.
    Cmis,
    /// SFF-8636.
    Sff8636,
    /// SFF-8472.
    Sff8472,
}

impl Family {
    ghost use Rattle.paged_memory.specs.Families.{family_by, is_of, managed_by};

    /// The family by whose standard a module with this identifier (SFF-8024) is managed, if it is one of these.
    #[tactic(auto, unfolding(crate::specs::Families::managed_by))]
    pub fn managing(identifier: u8) -> Option<Family>
        ensures { result ≡ managed_by identifier }
    {
        match identifier {
            0x18 | 0x19 | 0x1E => Some(Family::Cmis),
            _ if is_other_cmis(identifier) => Some(Family::Cmis),
            0x0C | 0x0D | 0x11 => Some(Family::Sff8636),
            0x03 => Some(Family::Sff8472),
            _ => None,
        }
    }

    /// The same, if plans and all reports may speak of the module.
    #[tactic(auto, unfolding(crate::specs::Families::family_by))]
    pub fn of(identifier: u8) -> Option<Family>
        ensures { result ≡ family_by identifier }
    {
        if is_other_cmis(identifier) {
            return None;
        }
        Family::managing(identifier)
    }

    /// Whether a module with this identifier is of this family.
    pub fn has(self, identifier: u8) -> bool
        ensures { result ≡ is_of self identifier }
    {
        Family::of(identifier) == Some(self)
    }
}

// Whether a module with this identifier is one of CMIS that only its details speak of.
fn is_other_cmis(identifier: u8) -> bool
    ensures { result ≡ is_other_cmis identifier }
{
    matches!(identifier, 0x1B | 0x1F..=0x25)
}
