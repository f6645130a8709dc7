//! What help says beside the commands and flags: what a command reads, examples, and how it may end.
ghost use Rattle.std.specs.Prelude.{◌≡◌};
ghost use Rattle.command_line.specs.Help.{help_of};

use super::commands::{CommandName, ReportName};

/// The end of the program's own help.
pub const OF_PROGRAM: &str = "An image is a module's memory as text, in lines of hexadecimal digits.
'tools/module-image PORT' makes one of the module in a network port,
'tools/module-image FILE' of a dump (eeprom, hexdump, i2cdump ..).
'cmisctl COMMAND --help' lists what else a command reads. docs/formats.md
describes all texts, docs/faults.md all faults.
'plan' prints a certificate; 'check' prints its plan in words, 'draw' as a
picture, and 'provision' the control bytes.";

// The end of a command's help: the parts of its input, its examples and a status of its own, if it has one. Each part is taken off
// the first list, and its text put on the second.
macro_rules! end {
    ([image $($more:ident)*] [$($text:literal)*] $($rest:tt)*) => {
        end!([$($more)*] [$($text)* "the image text of a module"] $($rest)*)
    };
    ([weights $($more:ident)*] [$($text:literal)*] $($rest:tt)*) => {
        end!([$($more)*]
            [$($text)* "then, after a line '---', weights: '[host]', then lines such as '0Dh = 101', by HostInterfaceID;"
                "  there may be '[media]', by MediaInterfaceID, '[app]', by number, and 'stay = 50' above all"]
            $($rest)*)
    };
    ([kept $($more:ident)*] [$($text:literal)*] $($rest:tt)*) => {
        end!([$($more)*]
            [$($text)* "with --keep then, after a line '---', data paths to keep: lines such as 'keep 2 3 2',"
                "  Application 2 from host lane 3 and media lane 2 on"]
            $($rest)*)
    };
    ([certificate $($more:ident)*] [$($text:literal)*] $($rest:tt)*) => {
        end!([$($more)*] [$($text)* "then, after a line '---', a certificate, as 'cmisctl plan' prints it"] $($rest)*)
    };
    ([script $($more:ident)*] [$($text:literal)*] $($rest:tt)*) => {
        end!([$($more)*] [$($text)* "then, after a line '---', a script of the bus: lines such as 'ok 4' and 'nack 1', or no line"] $($rest)*)
    };
    ([] [$($text:literal)*] [$($example:literal)*] $($status:literal)?) => {
        concat!(
            "INPUT is read from standard input:",
            $("\n  ", $text,)*
            "\n\nExamples, in the repository's folder:",
            $("\n  ./cmisctl ", $example,)*
            "\n\nStatus: 0 answered, 1 input refused, 2 command line refused,\n",
            $($status, ", ",)?
            "5 out of memory, 6 a read or write failed.\ndocs/faults.md says what a line 'fault ..' means and what to do."
        )
    };
}

/// The end of the command's help.
pub fn of_command(command: CommandName) -> &'static str
    ensures { result.now ≡ help_of command }
{
    match command {
        CommandName::Report(report) => of_report(report),
        CommandName::Details => of_details(),
        CommandName::Observables => of_observables(),
        CommandName::Metrics => end!([image] []
            ["metrics < examples/osfp_800g_dr8.txt" "metrics --bus --label port=Ethernet0 < examples/qsfp28_100g_sr4.txt"
                "metrics --flags all < examples/sfp_10g_lr_dim.txt"]),
        CommandName::Plan => end!([image weights kept] []
            ["plan < examples/breakouts_400g_dr4.txt" "plan --keep < examples/keep_800g_dr8.txt"
                "plan --json < examples/breakouts_400g_dr4.txt"]),
        CommandName::Draw => end!([image weights kept] []
            ["draw < examples/breakouts_400g_dr4.txt" "draw --svg --keep < examples/keep_800g_dr8.txt"]),
        CommandName::Check => end!([image weights certificate] []
            ["check < examples/check_800g_one_path.txt" "check --first < examples/check_800g_one_path.txt"
                "check --first --json < examples/check_800g_one_path.txt"]
            "4 the certificate is bad"),
        CommandName::Provision => end!([image weights kept script] []
            ["provision --activate < examples/provision_400g_dr4.txt" "provision --keep < examples/add_800g_dr8.txt"
                "provision --json < examples/provision_400g_dr4.txt"]
            "3 not provisioned or not activated"),
        CommandName::Trace => end!([image weights kept script] []
            ["trace --activate < examples/provision_400g_dr4.txt" "trace --keep < examples/add_800g_dr8.txt"
                "trace --json < examples/provision_400g_dr4.txt"]
            "3 not provisioned or not activated"),
    }
}

fn of_report(report: ReportName) -> &'static str
    ensures { result.now ≡ help_of (CommandName.Report report) }
{
    match report {
        ReportName::Inventory => end!([image] []
            ["inventory < examples/qsfp_dd_400g_dr4.txt" "inventory --bus < examples/qsfp28_100g_sr4.txt"
                "inventory --json < examples/qsfp_dd_400g_dr4.txt"]),
        ReportName::Apps => end!([image] []
            ["apps < examples/osfp_800g_many_apps.txt" "apps --bus < examples/osfp_800g_many_apps.txt"
                "apps --json < examples/osfp_800g_many_apps.txt"]),
        ReportName::Monitors => end!([image] []
            ["monitors < examples/osfp_800g_dr8.txt" "monitors --bus < examples/osfp_800g_dr8.txt"
                "monitors --json < examples/osfp_800g_dr8.txt" "monitors --color always < examples/osfp_800g_overheated.txt"]),
        ReportName::Flags => end!([image] []
            ["flags < examples/osfp_800g_overheated.txt" "flags --bus < examples/sfp_10g_lr_dim.txt"
                "flags --json < examples/sfp_10g_lr_dim.txt"]),
    }
}

fn of_details() -> &'static str
    ensures { result.now ≡ help_of CommandName.Details }
{
    end!([image] []
        ["details < examples/qsfp28_100g_sr4.txt" "details --bus < examples/osfp_800g_vdm.txt"
            "details --json < examples/sfp_10g_lr.txt"])
}

fn of_observables() -> &'static str
    ensures { result.now ≡ help_of CommandName.Observables }
{
    end!([image] []
        ["observables < examples/osfp_800g_vdm.txt" "observables --bus < examples/qsfp28_100g_sr4.txt"
            "observables --json < examples/osfp_800g_vdm.txt"])
}
