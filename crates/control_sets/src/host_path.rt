ghost use Rattle.std.specs.Prelude.{◌≡◌, IsOk, IfOk, MatchOption, count_by};
ghost use Rattle.std.specs.List.{range_with_len};
ghost use Rattle.control_sets.specs.HostPaths.{agree, all_agree, begins, control_at, host_paths, is_reached, is_right, path_from, wrong_lane};

use crate::control_byte::ControlByte;
use crate::control_set::ControlSet;
use crate::fault::ControlFault;
use arrayvec::ArrayVec;
use field_tables::LaneNumber;

/// A data path as host lanes tell it.
#[derive(Clone, Copy, Debug, PartialEq, Eq, Default)]
pub struct HostPath {
    /// The Application's number.
    pub app: u8,
    /// The first host lane, 1 to 8.
    pub host: u8,
    /// How many host lanes it takes.
    pub lanes: u8,
}

/// The host paths that the control bytes of host lanes 1 to 8 tell, by rising host lane.
pub fn paths_of(bytes: ControlSet) -> Result<ArrayVec<HostPath, 8>, ControlFault>
    ensures refused { MatchOption (wrong_lane bytes) (IsOk result) (λ lane. result ≡ Err (ControlFault.NotPaths lane)) }
    ensures paths { IfOk result (λ paths. paths.items ≡ host_paths bytes) }
{
    match wrong_lane(&bytes) {
        Some(lane) => Err(ControlFault::NotPaths(lane.number())),
        None => Ok(host_paths(&bytes)),
    }
}

#[tactic(auto, unfolding(crate::specs::HostPaths::wrong_lane))]
fn wrong_lane(bytes: &ControlSet) -> Option<LaneNumber>
    ensures { result ≡ wrong_lane bytes.now }
{
    LaneNumber::all()
        .iter()
        .copied()
        .find(|lane| !is_right(bytes, *lane))
}

#[tactic(auto, unfolding(crate::specs::HostPaths::is_right))]
fn is_right(bytes: &ControlSet, lane: LaneNumber) -> bool
    ensures { result ≡ is_right bytes.now lane }
{
    !control_at(bytes, lane).is_used() || is_reached(bytes, lane)
}

fn is_reached(bytes: &ControlSet, lane: LaneNumber) -> bool
    ensures { result ≡ is_reached bytes.now lane }
{
    let first = control_at(bytes, lane).first_lane();
    first.number() <= lane.number() && all_agree(bytes, first, lane)
}

fn all_agree(bytes: &ControlSet, first: LaneNumber, lane: LaneNumber) -> bool
    ensures { result ≡ all_agree bytes.now first lane }
{
    (first.number()..lane.number() + 1).all(|other| agree(bytes, lane, LaneNumber::at(other - 1)))
}

/// Whether two lanes are told the same, but for ExplicitControl.
pub fn agree(bytes: &ControlSet, lane: LaneNumber, other: LaneNumber) -> bool
    ensures { result ≡ agree bytes.now lane other }
{
    control_at(bytes, lane) == control_at(bytes, other)
}

/// What a lane is told.
pub fn control_at(bytes: &ControlSet, lane: LaneNumber) -> ControlByte
    ensures { result ≡ control_at bytes.now lane }
{
    ControlByte::from(bytes[lane.index()])
}

#[tactic(auto, unfolding(crate::specs::HostPaths::host_paths))]
fn host_paths(bytes: &ControlSet) -> ArrayVec<HostPath, 8>
    ensures { result.items ≡ host_paths bytes.now }
{
    let mut paths = ArrayVec::new();
    for place in 0..8 {
        let lane = LaneNumber::at(place);
        if begins(bytes, lane) {
            paths.push(path_from(bytes, lane));
        }
    }
    paths
}

fn begins(bytes: &ControlSet, lane: LaneNumber) -> bool
    ensures { result ≡ begins bytes.now lane }
{
    let control = control_at(bytes, lane);
    control.is_used() && control.first_lane() == lane
}

#[tactic(auto, unfolding(crate::specs::HostPaths::path_from))]
fn path_from(bytes: &ControlSet, lane: LaneNumber) -> HostPath
    ensures { result ≡ path_from bytes.now lane }
{
    HostPath {
        app: control_at(bytes, lane).app_sel_code,
        host: lane.number(),
        lanes: agreeing(bytes, lane),
    }
}

fn agreeing(bytes: &ControlSet, lane: LaneNumber) -> u8
    ensures { result ≡ count_by (agree bytes.now lane) (range_with_len 1 8) }
{
    LaneNumber::all()
        .iter()
        .filter(|other| agree(bytes, lane, **other))
        .count() as u8
}
