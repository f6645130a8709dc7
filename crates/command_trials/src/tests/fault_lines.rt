use applications::AdvertFault;
use bus_model::BusFault;
use command_line::Fault;
use control_sets::ProvisionFault;
use field_tables::SffFault;
use reports::ReportFault;
use sim_module::SimFault;
use text_lines::ToWords;

/// The faults that no module or bus within reach of a command line shows.
#[test]
fn a_fault_has_its_line(rt: HostRuntime) {
    let lines: &[(Fault, &str)] = &[
        (
            Fault::Report(ReportFault::Sff(SffFault::WrongIdentifier(24))),
            "fault SF1 24\n",
        ),
        (
            Fault::Report(ReportFault::Sff(SffFault::FlatMemory)),
            "fault SF2\n",
        ),
        (
            Fault::Module(SimFault::Advert(AdvertFault::BadSum(1))),
            "fault SM2 AD5 1\n",
        ),
        (Fault::Module(SimFault::BadDelay), "fault SM3\n"),
        (
            Fault::Provision(ProvisionFault::Rejected(1, 15)),
            "fault PV1 1 15\n",
        ),
        (
            Fault::Provision(ProvisionFault::StagedDiffers(2)),
            "fault PV2 2\n",
        ),
        (
            Fault::Provision(ProvisionFault::ActiveDiffers(3)),
            "fault PV3 3\n",
        ),
        (
            Fault::Provision(ProvisionFault::Bus(BusFault::TraceFull)),
            "fault PV5 BU1\n",
        ),
        (
            Fault::Provision(ProvisionFault::Reserved(8)),
            "fault PV7 8\n",
        ),
    ];
    for (fault, line) in lines {
        let spelled = fault.to_words().line_after(fault.word());
        assert_eq!(rt; spelled.as_slice(), line.as_bytes());
    }
}
