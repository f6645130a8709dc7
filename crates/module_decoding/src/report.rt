// Which module has a report, and why another has none.
ghost use Rattle.std.specs.Prelude.{◌≡◌, MatchOption, Ok, Err, option_map};
ghost use Rattle.field_tables.specs.declared.sff_fault.SffFault.{SffFault};
ghost use Rattle.module_decoding.specs.Reports as spec;
ghost use Rattle.module_decoding.specs.Reports.{fault_in, fault_of, pages_of};
ghost use Rattle.module_decoding.specs.ModuleFamilies.{family_of};
ghost use Rattle.module_decoding.specs.CmisPages.{is_flat};

use crate::cmis_pages::{absent_page, unless_flat};
use crate::module_family::{ModuleFault, family_of};
use field_tables::SffFault;
use paged_memory::{Family, Image, Key};
use thiserror::Error;

/// What is decoded of a module: what it is, what it measures, or what it warns of.
#[derive(Clone, Copy, Debug, PartialEq, Eq)]
pub enum Report {
    Inventory,
    Monitors,
    Flags,
}

/// Why there is no report of a module.
#[derive(Clone, Copy, Debug, PartialEq, Eq, Drop, Error)]
#[error("there is no report of the module")]
pub enum DecodeFault {
    /// The module is not read, or lacks a page.
    Module(ModuleFault),
    /// The memory of the SFF module is not read.
    Sff(SffFault),
}

/// The family of the module of an image, if it has the report.
#[tactic(auto, unfolding(crate::specs::Reports::fault_of))]
pub fn family_with(report: Report, image: &Image) -> Result<Family, DecodeFault>
    ensures { MatchOption (fault_of report image.now) (result ≡ Ok (family_of image.now)) (λ fault. result ≡ Err fault) }
{
    match family_of(image) {
        Ok(family) => match fault(report, family, image) {
            Some(fault) => Err(fault),
            None => Ok(family),
        },
        Err(fault) => Err(DecodeFault::Module(fault)),
    }
}

fn fault(report: Report, family: Family, image: &Image) -> Option<DecodeFault>
    ensures { result ≡ fault_in report family image.now }
{
    match family {
        Family::Cmis => lacked(absent_page(image, pages(report, image))),
        Family::Sff8636 => of_sff(match report {
            Report::Inventory => sff8636_map::identity_refusal(image),
            Report::Monitors => sff8636_map::measured_refusal(image),
            Report::Flags => sff8636_map::module_refusal(image),
        }),
        Family::Sff8472 => of_sff(match report {
            Report::Inventory => sff8472_map::module_refusal(image),
            Report::Monitors => sff8472_map::measured_refusal(image),
            Report::Flags => sff8472_map::flags_refusal(image),
        }),
    }
}

fn lacked(page: Option<Key>) -> Option<DecodeFault>
    ensures { result ≡ spec.lacked page }
{
    match page {
        Some(key) => Some(DecodeFault::Module(ModuleFault::Absent(key))),
        None => None,
    }
}

fn of_sff(fault: Option<SffFault>) -> Option<DecodeFault>
    ensures { result ≡ spec.of_sff fault }
{
    match fault {
        Some(fault) => Some(DecodeFault::Sff(fault)),
        None => None,
    }
}

// The pages of bank 0 that a CMIS module has the report on.
fn pages(report: Report, image: &Image) -> &'static [u8]
    ensures { result.now ≡ pages_of report (is_flat image.now) }
{
    match report {
        Report::Inventory => &[0x00],
        Report::Monitors => unless_flat(image, &[0x01, 0x02, 0x11]),
        Report::Flags => unless_flat(image, &[0x11]),
    }
}
