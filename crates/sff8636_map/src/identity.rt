use crate::refusal::identity_refusal;
use arrayvec::ArrayVec;
use field_tables::{SffFault, all_numbers, field, is_sum_right, number, sum_of, text, text_of};
use paged_memory::Image;

/// What a module is, and who made it (SFF-8636, "Upper Page 00h"). Texts stand with their padding.
#[derive(Debug, Drop)]
pub struct Identity {
    /// By SFF-8024.
    pub identifier: u8,
    pub vendor: ArrayVec<u8, 16>,
    /// The vendor's organizationally unique identifier.
    pub oui: [u8; 3],
    pub part: ArrayVec<u8, 16>,
    pub part_revision: ArrayVec<u8, 16>,
    pub serial: ArrayVec<u8, 16>,
    pub date: ArrayVec<u8, 16>,
    /// By SFF-8024.
    pub connector: u8,
    /// Whether the sum of bytes 128 to 190 (CC_BASE) is right.
    pub sum_base: bool,
    /// Whether the sum of bytes 192 to 222 (CC_EXT) is right.
    pub sum_ext: bool,
}

impl Identity {
    ghost use Rattle.std.specs.Prelude.{◌≡◌, MatchOption};
    ghost use Rattle.sff8636_map.specs.Identity.{identity_of};
    ghost use Rattle.sff8636_map.specs.Refusals.{identity_fault};

    /// The identity of the module of an image.
    pub fn of(image: &Image) -> Result<Identity, SffFault>
        ensures { MatchOption (identity_fault image.now) (result ≡ Ok (identity_of image.now)) (λ fault. result ≡ Err fault) }
    {
        if let Some(fault) = identity_refusal(image) {
            return Err(fault);
        }
        Ok(Identity {
            identifier: number(image, field!(Sff8636 Identifier)),
            vendor: text(image, text_of!(Sff8636 Vendor)),
            oui: all_numbers(image, field!(Sff8636 Oui)),
            part: text(image, text_of!(Sff8636 Part)),
            part_revision: text(image, text_of!(Sff8636 PartRevision)),
            serial: text(image, text_of!(Sff8636 Serial)),
            date: text(image, text_of!(Sff8636 Date)),
            connector: number(image, field!(Sff8636 Connector)),
            sum_base: is_sum_right(image, sum_of!(Sff8636 SumBase)),
            sum_ext: is_sum_right(image, sum_of!(Sff8636 SumExt)),
        })
    }
}
