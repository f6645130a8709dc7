// Flags that modules of any family raise.
ghost use Rattle.std.specs.Prelude.{◌≡◌, Some};
ghost use Rattle.report_entries.specs.FlagNames.{condition_name, flag_name, limit_name};
ghost use Rattle.report_entries.specs.Flags.{flag_text};

use crate::quantity::Quantity;
use std::fmt;

/// A limit of what is measured.
#[derive(Clone, Copy)]
pub enum LimitKind {
    HighAlarm,
    LowAlarm,
    HighWarning,
    LowWarning,
}

/// What a flag can tell of a lane besides what is measured there.
#[derive(Clone, Copy)]
pub enum Condition {
    PathStateChanged,
    TxFailure,
    TxFault,
    /// Loss of signal.
    TxLos,
    /// Loss of lock.
    TxLol,
    /// The equalizer of the transmitter's input failed.
    TxEqFail,
    RxLos,
    RxLol,
}

/// What a flag is about.
#[derive(Clone, Copy)]
pub enum FlagName {
    /// What is measured has passed a limit.
    Passed(Quantity, LimitKind),
    Holds(Condition),
}

/// A flag of the module, or of one of its lanes.
#[derive(Clone, Copy)]
pub struct Flag {
    pub name: FlagName,
    pub lane: Option<u8>,
}

impl LimitKind {
    #[tactic(auto, unfolding(crate::specs::FlagNames::limit_name))]
    pub fn name(self) -> &'static str
        ensures { result.now ≡ limit_name self }
    {
        match self {
            LimitKind::HighAlarm => "high-alarm",
            LimitKind::LowAlarm => "low-alarm",
            LimitKind::HighWarning => "high-warning",
            LimitKind::LowWarning => "low-warning",
        }
    }
}

impl Condition {
    #[tactic(auto, unfolding(crate::specs::FlagNames::condition_name))]
    fn name(self) -> &'static str
        ensures { result.now ≡ condition_name self }
    {
        match self {
            Condition::PathStateChanged => "path-state-changed",
            Condition::TxFailure => "tx-failure",
            Condition::TxFault => "tx-fault",
            Condition::TxLos => "tx-los",
            Condition::TxLol => "tx-lol",
            Condition::TxEqFail => "tx-eq-fail",
            Condition::RxLos => "rx-los",
            Condition::RxLol => "rx-lol",
        }
    }
}

impl fmt::Display for FlagName {
    ghost output = { λ name. Some (flag_name name) };

    #[tactic(auto, unfolding(crate::specs::FlagNames::flag_name))]
    fn fmt<W: fmt::Write>(&self, f: &mut fmt::Formatter<W>) -> fmt::Result {
        match self {
            FlagName::Passed(quantity, limit) => {
                let (quantity, limit) = (quantity.name(), limit.name());
                write!(f, "{quantity}-{limit}")
            }
            FlagName::Holds(condition) => {
                let condition = condition.name();
                write!(f, "{condition}")
            }
        }
    }
}

/// The name, and the number of the lane if it is a lane's.
impl fmt::Display for Flag {
    ghost output = { λ flag. Some (flag_text flag) };

    #[tactic(auto, unfolding(crate::specs::Flags::flag_text))]
    fn fmt<W: fmt::Write>(&self, f: &mut fmt::Formatter<W>) -> fmt::Result {
        let name = self.name;
        match self.lane {
            Some(lane) => write!(f, "{name} {lane}"),
            None => write!(f, "{name}"),
        }
    }
}
