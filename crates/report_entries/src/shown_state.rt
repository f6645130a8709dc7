// How states and statuses are shown in reports, by their codes: a code that has none shows as `reserved-` and the code.
ghost use Rattle.std.specs.Prelude.{Some};
ghost use Rattle.report_entries.specs.States.{lane_codes_text, module_state_text, path_state_text, status_text};

use std::fmt;

/// The state of a module by its code.
#[derive(Clone, Copy)]
pub struct ModuleStateCode(pub u8);

impl fmt::Display for ModuleStateCode {
    ghost output = { λ shown. Some (module_state_text shown.0) };

    #[tactic(auto, unfolding(crate::specs::States::module_state_text))]
    fn fmt<W: fmt::Write>(&self, f: &mut fmt::Formatter<W>) -> fmt::Result {
        let code = self.0;
        match module_states::state_of(code) {
            Ok(state) => write!(f, "{state}"),
            Err(_) => write!(f, "reserved-{code}"),
        }
    }
}

/// A lane with the state of its data path and the status of its configuration, by their codes.
#[derive(Clone, Copy)]
pub struct LaneCodes {
    pub lane: u8,
    pub state: u8,
    pub status: u8,
}

impl fmt::Display for LaneCodes {
    ghost output = { λ shown. Some (lane_codes_text shown.lane shown.state shown.status) };

    #[tactic(auto, unfolding(crate::specs::States::lane_codes_text))]
    fn fmt<W: fmt::Write>(&self, f: &mut fmt::Formatter<W>) -> fmt::Result {
        let (lane, state, status) = (
            self.lane,
            PathStateCode(self.state),
            StatusCode(self.status),
        );
        write!(f, "{lane} {state} {status}")
    }
}

/// The state of a data path by its code.
#[derive(Clone, Copy)]
pub struct PathStateCode(pub u8);

impl fmt::Display for PathStateCode {
    ghost output = { λ shown. Some (path_state_text shown.0) };

    #[tactic(auto, unfolding(crate::specs::States::path_state_text))]
    fn fmt<W: fmt::Write>(&self, f: &mut fmt::Formatter<W>) -> fmt::Result {
        let code = self.0;
        match datapath_states::state_of(code) {
            Ok(state) => write!(f, "{state}"),
            Err(_) => write!(f, "reserved-{code}"),
        }
    }
}

/// The status of a configuration by its code.
#[derive(Clone, Copy)]
pub struct StatusCode(pub u8);

impl fmt::Display for StatusCode {
    ghost output = { λ shown. Some (status_text shown.0) };

    #[tactic(auto, unfolding(crate::specs::States::status_text))]
    fn fmt<W: fmt::Write>(&self, f: &mut fmt::Formatter<W>) -> fmt::Result {
        let code = self.0;
        match datapath_states::status_of(code) {
            Ok(status) => write!(f, "{status}"),
            Err(_) => write!(f, "reserved-{code}"),
        }
    }
}
