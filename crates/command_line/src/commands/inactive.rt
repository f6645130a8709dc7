// Kept paths that the module has not in its Active Control Set.
ghost use Rattle.std.specs.Prelude.{◌≡◌, ◌-◌, find, not, slice_index};
ghost use Rattle.plan_certificate.specs.Plans.{IsAdmissible};
ghost use Rattle.command_line.specs.InactivePaths as spec;
ghost use Rattle.command_line.specs.InactivePaths.{is_in_set, is_same_at};

use applications::Advert;
use control_sets::{ControlSet, bytes_of};
use plan_certificate::{Path, Plan};

/// The first kept path of which a host lane has another control byte than the path asks for.
pub fn first_inactive(advert: &Advert, kept: &Plan, active: &ControlSet) -> Option<Path>
    requires { IsAdmissible advert.now kept.now }
    ensures { result ≡ spec.first_inactive advert.now kept.now active.now }
{
    first_other(
        advert,
        kept.paths.as_slice(),
        &bytes_of(advert, kept),
        active,
    )
}

fn first_other(
    advert: &Advert,
    paths: &[Path],
    control: &ControlSet,
    active: &ControlSet,
) -> Option<Path>
    ensures { result ≡ find (λ path. not (is_in_set advert.now control.now active.now path)) paths.now }
{
    paths
        .iter()
        .copied()
        .find(|path| !is_in_set(advert, control, active, *path))
}

#[tactic(auto, unfolding(crate::specs::InactivePaths::is_in_set))]
fn is_in_set(advert: &Advert, control: &ControlSet, active: &ControlSet, path: Path) -> bool
    ensures { result ≡ is_in_set advert.now control.now active.now path }
{
    let host = usize::from(path.host);
    let lanes = usize::from(path.application(advert).host_lanes);
    (host..host + lanes).all(|lane| is_same_at(control, active, lane))
}

fn is_same_at(control: &ControlSet, active: &ControlSet, lane: usize) -> bool
    ensures { result ≡ is_same_at control.now active.now lane }
{
    byte_at(control, lane) == byte_at(active, lane)
}

fn byte_at(bytes: &ControlSet, lane: usize) -> u8
    ensures { result ≡ slice_index bytes.now (lane - 1) }
{
    match bytes.get(lane.saturating_sub(1)) {
        Some(byte) => *byte,
        None => 0,
    }
}
