// The picture of a plan's lanes.
ghost use Rattle.std.specs.Prelude.{◌≡◌, ◌++◌, ◌∷◌, [], ◌≤◌, length, OnOk};
ghost use Rattle.text_lines.specs.Lines.{text_of};
ghost use Rattle.plan_certificate.specs.Plans.{IsAdmissible};
ghost use Rattle.plan_drawing.specs.Picture.{label_of, labels_of, numbers_of, picture_lines, side_lines};

use crate::owners::{Side, owners};
use crate::row::{Row, RowContents, push_row};
use arrayvec::ArrayVec;
use control_sets::bytes_of;
use lane_planner::Problem;
use plan_certificate::{Path, Plan, is_among};
use std::alloc::AllocError;

/// Adds the picture of a plan, in which kept paths have a star.
pub fn push_picture(out: &mut Vec<u8>, problem: &Problem, plan: &Plan) -> Result<(), AllocError>
    requires { IsAdmissible problem.now.advert.now plan.now }
    ensures { OnOk result (out.new.items ≡ out.old.items ++ text_of (picture_lines problem.now.advert.now problem.now.kept.now plan.now)) }
{
    let (advert, kept) = (problem.advert, problem.kept);
    let paths = plan.paths.as_slice();
    let contents = RowContents {
        labels: labels_of(kept.paths.as_slice(), paths),
        control: bytes_of(advert, plan),
    };
    push_side(
        out,
        Side::Host,
        &contents,
        &owners(advert, Side::Host, paths),
    )?;
    push_side(
        out,
        Side::Media,
        &contents,
        &owners(advert, Side::Media, paths),
    )
}

#[tactic(auto, unfolding(crate::specs::Picture::side_lines))]
fn push_side(
    out: &mut Vec<u8>,
    side: Side,
    contents: &RowContents,
    lanes: &[u8],
) -> Result<(), AllocError>
    ensures { OnOk result (out.new.items ≡ out.old.items ++ text_of (side_lines side contents.now.labels.items contents.now.control lanes.now)) }
{
    push_numbers(out, side)?;
    push_row(out, Row::Frame, contents, lanes)?;
    push_row(out, Row::Names, contents, lanes)?;
    match side {
        Side::Host => push_row(out, Row::Control, contents, lanes)?,
        Side::Media => (),
    }
    push_row(out, Row::Frame, contents, lanes)
}

#[tactic(auto, unfolding(crate::specs::Picture::numbers_of))]
fn push_numbers(out: &mut Vec<u8>, side: Side) -> Result<(), AllocError>
    ensures { OnOk result (out.new.items ≡ out.old.items ++ (numbers_of side ++ 10 ∷ [])) }
{
    out.extend_from_slice(match side {
        Side::Host => b"host lanes ",
        Side::Media => b"media lanes",
    })?;
    out.extend_from_slice(b"       1       2       3       4       5       6       7       8\n")
}

#[tactic(auto, unfolding(crate::specs::Picture::labels_of))]
fn labels_of(kept: &[Path], paths: &[Path]) -> ArrayVec<[u8; 7], 8>
    requires { length paths.now ≤ 8 }
    ensures { result.items ≡ labels_of kept.now paths.now }
{
    let mut labels = ArrayVec::new();
    for (index, path) in paths.iter().enumerate() {
        labels.push(label_of(kept, index as u8 + 1, *path));
    }
    labels
}

pub fn label_of(kept: &[Path], number: u8, path: Path) -> [u8; 7]
    requires { number ≤ 8 }
    ensures { result ≡ label_of kept.now (number, path) }
{
    let mark = if is_among(kept, path) { b'*' } else { b' ' };
    let (first, second) = if path.app < 10 {
        (48 + path.app, b' ')
    } else {
        (48 + path.app / 10 % 10, 48 + path.app % 10)
    };
    [64 + number, mark, b'a', b'p', b'p', first, second]
}
