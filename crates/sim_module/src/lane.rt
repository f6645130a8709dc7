ghost use Rattle.std.specs.Prelude.{◌≡◌};
ghost use Rattle.sim_module.specs.Ticks as ticks;

use crate::delays::Delays;
use datapath_states::{ConfigStatus, PathState};

/// What the module knows of one host lane.
#[derive(Clone, Copy, Debug, PartialEq, Eq)]
pub struct Lane {
    /// The state of the lane's data path.
    pub path: PathState,
    /// The ticks until the work of a transient state is done, and 0 if none runs.
    pub ticks_left: u16,
    /// What became of the last apply.
    pub status: ConfigStatus,
    /// The lane's control byte of Staged Control Set 0.
    pub staged: u8,
    /// The lane's control byte of the Active Control Set.
    pub active: u8,
    /// The control byte that an apply in progress keeps for the lane.
    pub applying: Option<u8>,
}

impl Lane {
    ghost use Rattle.std.specs.Prelude.{◌≡◌};
    ghost use Rattle.sim_module.specs.Lanes as lanes;
    ghost use Rattle.sim_module.specs.Ticks as ticks;
    ghost use Rattle.sim_module.specs.Applies as applies;
    ghost use Rattle.sim_module.specs.Resting as resting;

    // Whether an apply of the lane has begun and is not done.
    pub(crate) fn is_in_progress(self) -> bool
        ensures { result ≡ lanes.is_in_progress self }
    {
        self.status.code() == ConfigStatus::InProgress.code()
    }

    // The lane with its next state.
    pub(crate) fn moved(self, delays: Delays, path: PathState) -> Lane
        ensures { result ≡ ticks.moved_lane delays self path }
    {
        Lane {
            path,
            ticks_left: next_left(path == self.path, self.ticks_left, delays.of_path(path)),
            ..self
        }
    }

    // Whether it keeps its state and its counter in the lane afterwards.
    pub(crate) fn stays(self, after: Lane) -> bool
        ensures { result ≡ resting.stays self after }
    {
        after.path == self.path && after.ticks_left == self.ticks_left
    }

    // The lane after its apply is done.
    pub(crate) fn applied(self) -> Lane
        ensures { result ≡ ticks.applied_lane self }
    {
        match self.applying {
            Some(byte) => Lane {
                active: byte,
                status: ConfigStatus::Success,
                applying: None,
                ..self
            },
            None => self,
        }
    }

    // The lane after an apply in progress has ended without effect.
    pub(crate) fn dropped(self) -> Lane
        ensures { result ≡ applies.dropped_lane self }
    {
        if self.applying.is_some() {
            Lane {
                status: ConfigStatus::Rejected,
                applying: None,
                ..self
            }
        } else {
            self
        }
    }

    // The lane as an apply of it begins.
    pub(crate) fn begun(self) -> Lane
        ensures { result ≡ applies.begun_lane self }
    {
        Lane {
            status: ConfigStatus::InProgress,
            applying: Some(self.staged),
            ..self
        }
    }

    // The lane after an apply of it was refused.
    pub(crate) fn refused(self, status: ConfigStatus) -> Lane
        ensures { result ≡ applies.refused_lane self status }
    {
        Lane {
            status,
            applying: None,
            ..self
        }
    }
}

/// A counter after a tick: it goes on, or begins if a state was entered.
pub fn next_left(stays: bool, left: u16, delay: u16) -> u16
    ensures { result ≡ ticks.next_left stays left delay }
{
    if stays { left.saturating_sub(1) } else { delay }
}
