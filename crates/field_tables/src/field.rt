use crate::table::cmis::CmisField;
use crate::table::sff8472::Sff8472Field;
use crate::table::sff8636::Sff8636Field;

/// A field of a standard's memory map.
#[derive(Clone, Copy, Debug, PartialEq, Eq)]
pub enum Field {
    Cmis(CmisField),
    Sff8636(Sff8636Field),
    Sff8472(Sff8472Field),
}

/// A field by its standard and its name, as in `field!(Cmis ModuleState)`.
#[macro_export]
macro_rules! field {
    ($standard:ident $name:ident) => {
        $crate::Field::$standard($crate::fields::$standard::$name)
    };
}

/// A text by its standard and its name, as in `text_of!(Sff8636 Vendor)`.
#[macro_export]
macro_rules! text_of {
    (Cmis $name:ident) => {
        $crate::TextField::Cmis($crate::CmisText::$name)
    };
    ($standard:ident $name:ident) => {
        $crate::TextField::$standard($crate::SffText::$name)
    };
}

/// A sum by its standard and its name, as in `sum_of!(Sff8636 SumBase)`. A standard without an arm of its own has the sums of SFF-8636.
#[macro_export]
macro_rules! sum_of {
    (Cmis $name:ident) => {
        $crate::Sum::Cmis($crate::CmisSum::$name)
    };
    (Sff8472 $name:ident) => {
        $crate::Sum::Sff8472($crate::Sff8472Sum::$name)
    };
    ($standard:ident $name:ident) => {
        $crate::Sum::$standard($crate::Sff8636Sum::$name)
    };
}

/// A text in the memory map of a standard, padded with spaces.
#[derive(Clone, Copy, Debug, PartialEq, Eq)]
pub enum TextField {
    Cmis(CmisText),
    Sff8636(SffText),
    Sff8472(SffText),
}

/// A text of CMIS.
#[derive(Clone, Copy, Debug, PartialEq, Eq)]
pub enum CmisText {
    Vendor,
    Part,
    PartRevision,
    Serial,
    Date,
    Clei,
}

/// A text that SFF-8636 and SFF-8472 have.
#[derive(Clone, Copy, Debug, PartialEq, Eq)]
pub enum SffText {
    Vendor,
    Part,
    PartRevision,
    Serial,
    Date,
}

/// A byte that is to be the low 8 bits of the sum of bytes before it.
#[derive(Clone, Copy, Debug, PartialEq, Eq)]
pub enum Sum {
    Cmis(CmisSum),
    Sff8636(Sff8636Sum),
    Sff8472(Sff8472Sum),
}

/// A sum of CMIS: of a page.
#[derive(Clone, Copy, Debug, PartialEq, Eq)]
pub enum CmisSum {
    Sum00,
    Sum01,
    Sum02,
}

/// A sum of SFF-8636: of the base fields, or of those after them.
#[derive(Clone, Copy, Debug, PartialEq, Eq)]
pub enum Sff8636Sum {
    SumBase,
    SumExt,
}

/// A sum of SFF-8472: of the base fields, of those after them, or of the diagnostics.
#[derive(Clone, Copy, Debug, PartialEq, Eq)]
pub enum Sff8472Sum {
    SumBase,
    SumExt,
    SumDmi,
}

/// Bytes of the memory map of CMIS that a host reads or stores as a whole, and that fields are parts of.
#[derive(Clone, Copy, Debug, PartialEq, Eq)]
pub enum Register {
    // CMIS, lower memory
    GlobalStatus,
    ModuleFlags,
    GlobalControls,
    PageMapping,

    // CMIS, page 10h; of several bytes the first is that of lane 1
    DPDeinit,
    ApplyDPInit,
    StagedControl,

    // CMIS, page 11h
    PathStates,
    LaneFlags,
    ConfigStatus,
    ActiveControl,
}
