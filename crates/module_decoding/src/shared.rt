ghost use Rattle.std.specs.Prelude.{◌≡◌};
ghost use Rattle.module_decoding.specs.SharedFields.{SharedFieldsFit, shared_fields};

use field_tables::{Field, Sum, TextField, field, sum_of, text_of};
use paged_memory::Family;

/// Where a family keeps what modules of every family say of themselves.
#[derive(Clone, Copy)]
pub struct SharedFields {
    pub identifier: Field,
    pub connector: Field,
    pub oui: Field,
    /// Of the base fields.
    pub sum_base: Sum,
    /// Of those after them, if the family has such a sum.
    pub sum_ext: Option<Sum>,
    pub vendor: TextField,
    pub part: TextField,
    pub part_revision: TextField,
    pub serial: TextField,
    pub date: TextField,
}

macro_rules! sum_after {
    ($name:ident) => {
        None
    };
    ($name:ident $sum:ident) => {
        Some(sum_of!($name $sum))
    };
}

macro_rules! shared {
    ($family:ident; $($name:ident: $base:ident $($ext:ident)?;)*) => {
        match $family {
            $(Family::$name => SharedFields {
                identifier: field!($name Identifier),
                connector: field!($name Connector),
                oui: field!($name Oui),
                sum_base: sum_of!($name $base),
                sum_ext: sum_after!($name $($ext)?),
                vendor: text_of!($name Vendor),
                part: text_of!($name Part),
                part_revision: text_of!($name PartRevision),
                serial: text_of!($name Serial),
                date: text_of!($name Date),
            },)*
        }
    };
}

/// The fields of modules of this family.
pub fn shared_fields(family: Family) -> SharedFields
    ensures fields { result ≡ shared_fields family }
    ensures fit { SharedFieldsFit result }
{
    // the sum of the base fields, and of those after them
    shared! { family;
        Cmis: Sum00;
        Sff8636: SumBase SumExt;
        Sff8472: SumBase SumExt;
    }
}
