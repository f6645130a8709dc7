// The details of modules of each family, once the halves that are needed are known to be there.
ghost use Rattle.std.specs.Prelude.{◌≡◌, IfOk};
ghost use Rattle.report_entries.specs.Entries.{as_entries};
ghost use Rattle.module_details.specs.Families.{cmis_entries, lacks_diagnostics, qsfp_entries, sfp_entries};

use crate::apps::add_apps;
use crate::read_rows::add_rows;
use crate::tables::{cmis_table, qsfp_table, sfp_table};
use field_tables::{bit, field};
use module_decoding::is_flat;
use paged_memory::Image;
use report_entries::{Entry, further_banks};
use std::alloc::{AllocError, Global};

/// All that a CMIS module says of itself.
#[tactic(auto, unfolding(crate::specs::Families::cmis_entries, report_entries::specs::Entries::as_entries))]
pub fn cmis_details(alloc: Global, image: &Image) -> Result<Vec<Entry>, AllocError>
    ensures { IfOk result (λ entries. as_entries entries ≡ cmis_entries image.now) }
{
    let flat = is_flat(image);
    let banks = further_banks(image, flat);
    let mut entries = Vec::new(alloc);
    add_rows(&mut entries, image, banks, flat, cmis_table::identity())?;
    add_rows(
        &mut entries,
        image,
        banks,
        flat,
        cmis_table::characteristics(),
    )?;
    add_rows(&mut entries, image, banks, flat, cmis_table::controls())?;
    add_rows(&mut entries, image, banks, flat, cmis_table::status())?;
    add_rows(&mut entries, image, banks, flat, cmis_table::lanes())?;
    add_apps(&mut entries, image)?;
    Ok(entries)
}

/// All that a module of SFF-8636 says of itself.
#[tactic(auto, unfolding(crate::specs::Families::qsfp_entries, report_entries::specs::Entries::as_entries))]
pub fn qsfp_details(alloc: Global, image: &Image) -> Result<Vec<Entry>, AllocError>
    ensures { IfOk result (λ entries. as_entries entries ≡ qsfp_entries image.now) }
{
    let mut entries = Vec::new(alloc);
    add_rows(&mut entries, image, &[], false, qsfp_table::identity())?;
    add_rows(&mut entries, image, &[], false, qsfp_table::compliance())?;
    add_rows(&mut entries, image, &[], false, qsfp_table::options())?;
    add_rows(&mut entries, image, &[], false, qsfp_table::status())?;
    Ok(entries)
}

/// All that a module of SFF-8472 says of itself.
#[tactic(auto, unfolding(crate::specs::Families::sfp_entries, report_entries::specs::Entries::as_entries))]
pub fn sfp_details(alloc: Global, image: &Image) -> Result<Vec<Entry>, AllocError>
    ensures { IfOk result (λ entries. as_entries entries ≡ sfp_entries image.now) }
{
    let undiagnosed = lacks_diagnostics(image);
    let mut entries = Vec::new(alloc);
    add_rows(&mut entries, image, &[], undiagnosed, sfp_table::identity())?;
    add_rows(
        &mut entries,
        image,
        &[],
        undiagnosed,
        sfp_table::compliance(),
    )?;
    add_rows(&mut entries, image, &[], undiagnosed, sfp_table::options())?;
    add_rows(&mut entries, image, &[], undiagnosed, sfp_table::status())?;
    add_rows(
        &mut entries,
        image,
        &[],
        undiagnosed,
        sfp_table::calibrated(),
    )?;
    Ok(entries)
}

/// Whether device A2 of a module of SFF-8472 has no diagnostics that are read.
pub fn lacks_diagnostics(image: &Image) -> bool
    ensures { result ≡ lacks_diagnostics image.now }
{
    !(bit(image, field!(Sff8472 DiagPresent)) && !bit(image, field!(Sff8472 AddressChange)))
}
