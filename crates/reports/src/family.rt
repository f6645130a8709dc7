ghost use Rattle.std.specs.Prelude.{◌≡◌, MatchOption, Ok, Err};
ghost use Rattle.module_decoding.specs.ModuleFamilies.{detail_family_of, family_of};
ghost use Rattle.reports.specs.Families.{detail_fault, reported, unread};
ghost use Rattle.reports.specs.Reports.{report_fault};

use crate::fault::ReportFault;
use module_decoding::{DecodeFault, ModuleFault, Report};
use paged_memory::{Family, Image};

/// The family of the module of an image, or why it has no such report.
#[tactic(auto, unfolding(crate::specs::Reports::report_fault))]
pub fn family_with(report: Report, image: &Image) -> Result<Family, ReportFault>
    ensures { MatchOption (report_fault report image.now) (result ≡ Ok (family_of image.now)) (λ fault. result ≡ Err fault) }
{
    match module_decoding::family_with(report, image) {
        Ok(family) => Ok(family),
        Err(fault) => Err(reported(fault)),
    }
}

/// The family, or why not even the module's details are told.
#[tactic(auto, unfolding(crate::specs::Families::detail_fault))]
pub fn detail_family_of(image: &Image) -> Result<Family, ReportFault>
    ensures { MatchOption (detail_fault image.now) (result ≡ Ok (detail_family_of image.now)) (λ fault. result ≡ Err fault) }
{
    match module_decoding::detail_family_of(image) {
        Ok(family) => Ok(family),
        Err(fault) => Err(unread(fault)),
    }
}

fn reported(fault: DecodeFault) -> ReportFault
    ensures { result ≡ reported fault }
{
    match fault {
        DecodeFault::Module(fault) => unread(fault),
        DecodeFault::Sff(fault) => ReportFault::Sff(fault),
    }
}

fn unread(fault: ModuleFault) -> ReportFault
    ensures { result ≡ unread fault }
{
    match fault {
        ModuleFault::Absent(key) => ReportFault::Absent(key),
        ModuleFault::Unknown(identifier) => ReportFault::Unknown(identifier),
        ModuleFault::Revision(revision) => ReportFault::Revision(revision),
    }
}
