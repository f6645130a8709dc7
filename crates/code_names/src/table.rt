//! What codes name.

/// A table of names, by what it names.
#[derive(Clone, Copy, Debug, PartialEq, Eq)]
pub enum Table {
    /// SFF-8024, Table 4-1 Identifier Values.
    Identifiers,
    /// SFF-8024, Table 4-3 Connector Types.
    Connectors,
    /// SFF-8024, Table 4-2 Encoding Values, the column of SFF-8472.
    Sff8472Encodings,
    /// SFF-8024, Table 4-2 Encoding Values, the column of SFF-8636.
    Sff8636Encodings,
    /// SFF-8024, Table 4-4 Extended Specification Compliance Codes.
    ExtendedCompliance,
    /// SFF-8024, Table 4-5 Host Electrical Interface IDs.
    HostInterfaces,
    /// SFF-8024, Table 4-6 MM Media Interface IDs.
    MultiModeMedia,
    /// SFF-8024, Table 4-7 SM Media Interface IDs.
    SingleModeMedia,
    /// SFF-8024, Table 4-8 Passive Copper Cable Media Interface IDs.
    PassiveCopper,
    /// SFF-8024, Table 4-9 Active Cable Assembly Media Interface IDs.
    ActiveCables,
    /// SFF-8024, Table 4-10 BASE-T Media Interface IDs.
    BaseTMedia,
    /// OIF-CMIS-05.0, Media Type Encodings.
    MediaTypes,
    /// OIF-CMIS-05.0, Media Interface Technology Encodings.
    MediaTechnologies,
    /// OIF-CMIS-05.0, Module Fault Information.
    ModuleFaults,
    /// OIF-CMIS-05.0, Durations Advertising.
    Durations,
    /// OIF-CMIS-05.0, Supported Controls Advertisement.
    SquelchMethods,
    /// OIF-CMIS-05.0, Supported Signal Integrity Controls Advertisement.
    OutputEqualizers,
    /// SFF-8636, Revision Compliance.
    Sff8636Revisions,
    /// SFF-8636, Extended Rate Select Compliance.
    Sff8636RateSelects,
    /// SFF-8636, Specification Compliance; a code is a bit, counted from bit 0 of byte 131.
    Sff8636Compliance,
    /// SFF-8636, Extended Module Codes; a code is a bit of byte 164.
    InfinibandSpeeds,
    /// SFF-8472, Extended Identifier.
    Sff8472ExtendedIdentifiers,
    /// SFF-8472, SFF-8472 Compliance.
    Sff8472Revisions,
    /// SFF-8472, Rate Identifiers.
    Sff8472RateSelects,
    /// SFF-8472, Transceiver Compliance Codes and Fibre Channel Speed 2; a code is a bit, counted from bit 0 of byte 3, after
    /// those of bytes 3 to 10 from bit 0 of byte 62.
    Sff8472Compliance,
    /// SFF-8472, Passive Cable Specification Compliance.
    SfpPassiveCables,
    /// SFF-8472, Active Cable Specification Compliance.
    SfpActiveCables,
}
