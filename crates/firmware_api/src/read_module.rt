ghost use Rattle.std.specs.Prelude.{◌≡◌};
ghost use Rattle.firmware_api.specs.Statuses.{family_number, number_of};

use paged_memory::Family;

/// The number by which C knows a family.
pub fn family_number(family: Family) -> u8
    ensures { result ≡ family_number family }
{
    match family {
        Family::Cmis => 1,
        Family::Sff8636 => 2,
        Family::Sff8472 => 3,
    }
}

/// 1 for yes, 0 for no.
pub fn number_of(flag: bool) -> u8
    ensures { result ≡ number_of flag }
{
    if flag { 1 } else { 0 }
}
