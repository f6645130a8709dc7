ghost use Rattle.std.specs.Prelude.{◌≡◌, ◌≢◌};
ghost use Rattle.module_decoding.specs.declared.report.Report.TheVariants.{Inventory};
ghost use Rattle.firmware_api.specs.Halves.{memory_of, report_refusal};
ghost use Rattle.firmware_api.specs.Identities as spec;
ghost use Rattle.firmware_api.specs.Identities.{identity_in, shared_identity};
ghost use Rattle.std.specs.Option.{option_or};
ghost use Rattle.firmware_api.specs.SimulatedModules.{half_refusal};
ghost use Rattle.firmware_api.specs.Statuses.{done, status_by};

use crate::half::{HalfBytes, half_status, image_of};
use crate::read_module::{family_number, number_of};
use crate::shown_texts::put_text;
use crate::status::{DONE, decode_status};
use field_tables::{Sum, all_numbers, field, is_sum_right, number};
use module_decoding::{Report, amount_at, family_with, is_flat, length_in, shared_fields};
use paged_memory::{Family, Image};

/// What a module is. Amounts are in thousandths of a watt and of a metre. What only CMIS has is 0 for other modules.
#[repr(C)]
#[derive(Clone, Copy)]
pub struct ModuleIdentity {
    pub max_power: i64,
    pub length: i64,
    pub family: u8,
    /// By SFF-8024.
    pub identifier: u8,
    pub revision: u8,
    pub flat: u8,
    pub media_type: u8,
    /// From 1 on.
    pub power_class: u8,
    /// By SFF-8024.
    pub connector: u8,
    pub technology: u8,
    pub sum_base: u8,
    pub sum_ext: u8,
    pub oui: [u8; 3],
    pub vendor: [u8; 17],
    pub part: [u8; 17],
    pub part_revision: [u8; 17],
    pub serial: [u8; 17],
    pub date: [u8; 17],
}

/// Puts into `identity` what the module whose memory has these halves is.
#[unsafe(no_mangle)]
pub extern "C" fn dovecounter_identity(halves: &[HalfBytes], identity: &mut ModuleIdentity) -> u32
    ensures status { result ≡ status_by (option_or (half_refusal halves.now) (report_refusal Inventory (memory_of halves.now))) }
    ensures done { result ≡ done → identity.new ≡ identity_in (memory_of halves.now) }
    ensures refused { result ≢ done → identity.new ≡ identity.old }
{
    let status = half_status(halves);
    if status != DONE {
        return status;
    }
    put_identity(&image_of(halves).view(), identity)
}

#[tactic(auto, unfolding(crate::specs::Halves::report_refusal, crate::specs::Identities::identity_in))]
fn put_identity(image: &Image, identity: &mut ModuleIdentity) -> u32
    ensures status { result ≡ status_by (report_refusal Inventory image.now) }
    ensures done { result ≡ done → identity.new ≡ identity_in image.now }
    ensures refused { result ≢ done → identity.new ≡ identity.old }
{
    match family_with(Report::Inventory, image) {
        Ok(family) => {
            put_identity_of(family, image, identity);
            DONE
        }
        Err(fault) => decode_status(fault),
    }
}

fn put_identity_of(family: Family, image: &Image, identity: &mut ModuleIdentity)
    ensures { identity.new ≡ spec.identity_of family image.now }
{
    match family {
        Family::Cmis => put_cmis(image, identity),
        _ => put_shared(image, family, identity),
    }
}

fn put_cmis(image: &Image, identity: &mut ModuleIdentity)
    ensures { identity.new ≡ spec.cmis_identity image.now }
{
    put_shared(image, Family::Cmis, identity);
    identity.max_power = amount_at(image, field!(Cmis MaxPower), None, 1);
    identity.length = length_in(
        image,
        field!(Cmis LengthBase),
        field!(Cmis LengthMultiplier),
    );
    identity.revision = number(image, field!(Cmis Revision));
    identity.flat = number_of(is_flat(image));
    identity.media_type = number(image, field!(Cmis MediaType));
    identity.power_class = number(image, field!(Cmis PowerClass)) + 1;
    identity.technology = number(image, field!(Cmis Technology));
}

const NO_IDENTITY: ModuleIdentity = ModuleIdentity {
    max_power: 0,
    length: 0,
    family: 0,
    identifier: 0,
    revision: 0,
    flat: 0,
    media_type: 0,
    power_class: 0,
    connector: 0,
    technology: 0,
    sum_base: 0,
    sum_ext: 0,
    oui: [0; 3],
    vendor: [0; 17],
    part: [0; 17],
    part_revision: [0; 17],
    serial: [0; 17],
    date: [0; 17],
};

// What modules of every family say; all else is 0, also what stands between the members.
#[inline(never)]
fn put_shared(image: &Image, family: Family, identity: &mut ModuleIdentity)
    ensures { identity.new ≡ shared_identity image.now family }
{
    let fields = shared_fields(family);
    *identity = NO_IDENTITY;
    identity.family = family_number(family);
    identity.identifier = number(image, fields.identifier);
    identity.connector = number(image, fields.connector);
    identity.sum_base = number_of(is_sum_right(image, fields.sum_base));
    identity.sum_ext = sum_number(image, fields.sum_ext);
    identity.oui = all_numbers(image, fields.oui);
    put_text(image, fields.vendor, &mut identity.vendor);
    put_text(image, fields.part, &mut identity.part);
    put_text(image, fields.part_revision, &mut identity.part_revision);
    put_text(image, fields.serial, &mut identity.serial);
    put_text(image, fields.date, &mut identity.date);
}

// Whether a sum is right, if there is one.
fn sum_number(image: &Image, sum: Option<Sum>) -> u8
    ensures { result ≡ spec.sum_number image.now sum }
{
    match sum {
        Some(sum) => number_of(is_sum_right(image, sum)),
        None => 0,
    }
}
