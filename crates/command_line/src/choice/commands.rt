//! The commands of the program and their flags, one line each.
ghost use Rattle.std.specs.Prelude.{◌≡◌, map, option_copied, option_map};
ghost use Rattle.command_line.specs.Choice.{commands, entry_named, entry_of};
ghost use Rattle.command_line.specs.Coloring.{request_on_screen};

use super::options::Options;

/// A report of a module.
#[derive(Clone, Copy)]
pub enum ReportName {
    Inventory,
    Apps,
    Monitors,
    Flags,
}

/// What the program is asked to do.
#[derive(Clone, Copy)]
pub enum CommandName {
    Report(ReportName),
    Details,
    Observables,
    Metrics,
    Plan,
    Draw,
    Check,
    Provision,
    Trace,
}

/// What the command line asks for.
#[derive(Drop)]
pub struct Request {
    pub command: CommandName,
    pub options: Options,
}

impl Request {
    /// The same, now that it is known whether the program writes to a terminal that shows colors.
    pub fn on_screen(mut self, shows_colors: bool) -> Request
        ensures { result ≡ request_on_screen shows_colors self }
    {
        self.options.coloring = self.options.coloring.on_screen(shows_colors);
        self
    }
}

/// What follows a flag.
#[derive(Clone, Copy)]
pub enum Takes {
    /// Nothing: it is given as `--name`.
    Nothing,
    /// A word: it is given as `--name WORD`.
    Word,
    /// The same, and it may be given any number of times.
    Words,
}

/// A flag.
#[derive(Clone, Copy)]
pub struct Flag {
    pub name: &'static str,
    pub takes: Takes,
    /// What help calls the word that follows.
    pub word: &'static str,
    /// What help says of it.
    pub help: &'static str,
}

/// A command of the command line.
#[derive(Clone, Copy)]
pub struct CommandEntry {
    pub name: &'static str,
    pub command: CommandName,
    pub flags: &'static [Flag],
    /// How help says that it is called.
    pub usage: &'static str,
    /// What help says of it.
    pub about: &'static str,
}

// The flags: the name of each, how help calls the word that follows it, if one does, and what help says of it.
macro_rules! flag {
    (BUS) => { flag!("bus": "Read the module over a simulated bus, as a host does") };
    (JSON) => { flag!("json": "Print the answer, or the fault, as JSON") };
    (WAKE) => { flag!("wake": "First wake the module, by clearing its low power requests") };
    (ACTIVATE) => { flag!("activate": "Also bring the plan's data paths up") };
    (KEEP) => { flag!("keep":
        "Keep the data paths that a part of the input after the weights names") };
    (PAIRED) => { flag!("paired":
        "The module joins the nth host start of an Application only with its nth media start") };
    (COUNTS_BY_ID) => { flag!("counts-by-id":
        "Look up a lane count of 0 by interface ID, if the count is known") };
    (NOW) => { flag!("now":
        "A data path in the image's Active Control Set weighs more, by 'stay' of the weights") };
    (SVG) => { flag!("svg": "Draw the plan as an SVG") };
    (COLOR) => { flag!("color" Word "WHEN":
        "Color what is beyond a limit, and raised flags: 'always', 'never', or 'auto', on a terminal unless NO_COLOR is set") };
    (LABEL) => { flag!("label" Words "KEY=VALUE":
        "Add a label to each sample; may be given several times") };
    (FLAGS) => { flag!("flags" Word "all":
        "Print every flag, 1 or 0, and not only those that are raised") };
    (FIRST) => { flag!("first":
        "Also say whether the plan is the first best one, which 'plan' prints") };
    ($name:literal: $help:literal) => { flag!($name Nothing "": $help) };
    ($name:literal $takes:ident $word:literal: $help:literal) => {
        Flag { name: $name, takes: Takes::$takes, word: $word, help: $help }
    };
}

// The table: a command's name, its variant, its flags and what help says of it.
macro_rules! table {
    ($($name:literal $command:ident $(($report:ident))? [$($flag:ident)*] $about:literal;)*) => {
        &[$(CommandEntry {
            name: $name,
            command: CommandName::$command $((ReportName::$report))?,
            flags: &[$(flag!($flag)),*],
            usage: concat!("cmisctl ", $name, " [OPTIONS] < INPUT"),
            about: $about,
        }),*]
    };
}

/// The commands, in the order in which help shows them.
pub fn commands() -> &'static [CommandEntry]
    ensures { map entry_of result.now ≡ commands }
{
    table! {
        "inventory" Report(Inventory) [BUS JSON] "Print what the module is";
        "apps" Report(Apps) [BUS JSON] "Print the Applications that the module advertises";
        "monitors" Report(Monitors) [BUS JSON COLOR] "Print what the module measures";
        "flags" Report(Flags) [BUS JSON COLOR] "Print the states of the module and its lanes, and the raised flags";
        "details" Details [BUS JSON] "Print everything that the module has about itself, with names";
        "observables" Observables [BUS JSON COLOR] "Print everything that the module measures, VDM too, with limits and flags";
        "metrics" Metrics [BUS LABEL FLAGS] "Print inventory, monitors and flags as metrics for Prometheus";
        "plan" Plan [KEEP PAIRED COUNTS_BY_ID NOW JSON] "Print the best plan for an image and weights, with its certificate";
        "draw" Draw [SVG KEEP PAIRED COUNTS_BY_ID NOW] "Draw the plan, and show what each other choice would cost";
        "check" Check [FIRST PAIRED COUNTS_BY_ID NOW JSON] "Judge a certificate for an image and weights, and print its plan if it is good";
        "provision" Provision [WAKE ACTIVATE KEEP PAIRED COUNTS_BY_ID NOW JSON] "Put the plan into the Active Control Set of a simulated module, over a scripted bus";
        "trace" Trace [WAKE ACTIVATE KEEP PAIRED COUNTS_BY_ID NOW JSON] "Do what 'provision' does, and print each transaction";
    }
}

/// The command of this name.
pub fn command_named(name: &str) -> Option<&'static CommandEntry>
    ensures { option_map entry_of (option_copied result) ≡ entry_named name.now }
{
    commands().iter().find(|entry| entry.name == name)
}
