// The drawing of the plan that is given.
ghost use Rattle.std.specs.Prelude.{◌≡◌, ◌++◌, length, nat_lt, IfOk, OnOk};
ghost use Rattle.text_lines.specs.Lines.{text_of};
ghost use Rattle.plan_certificate.specs.Plans.{AreAllowed, IsAdmissible};
ghost use Rattle.lane_planner.specs.Tables.{IsTable};
ghost use Rattle.plan_drawing.specs.Drawings.{IsDrawing, legend_lines, lines_as};
ghost use Rattle.plan_drawing.specs.Walks.{basis_of};

use crate::picture::push_picture;
use crate::svg::svg_of;
use crate::used_apps::push_apps;
use crate::why::push_why;
use field_tables::LaneNumber;
use lane_planner::{Problem, Solution};
use plan_certificate::Plan;
use plan_reports::plan_text;
use std::alloc::{AllocError, Global};

/// The drawing of a plan.
#[derive(Drop)]
pub struct Drawing {
    /// Lines, or an SVG.
    pub text: Vec<u8>,
    /// Whether the plan has a path.
    pub has_paths: bool,
}

/// The drawing of the plan that `plan_keeping` gives, as text or as an SVG. The module's MediaType says which table names media
/// interfaces.
pub fn draw(
    alloc: Global,
    as_svg: bool,
    media_type: u8,
    problem: &Problem,
) -> Result<Drawing, AllocError>
    requires { IsAdmissible problem.now.advert.now problem.now.kept.now }
    ensures { IfOk result (λ drawn. IsDrawing as_svg media_type problem.now.advert.now problem.now.weights.now problem.now.kept.now drawn.text.items drawn.has_paths) }
{
    let mut solution = Solution::blank();
    solution.solve(problem);
    let text = drawn_as(alloc, as_svg, media_type, problem, &solution)?;
    Ok(Drawing {
        text,
        has_paths: has_paths(&solution.plan),
    })
}

fn has_paths(plan: &Plan) -> bool
    ensures { result ≡ nat_lt 0 (length plan.now) }
{
    !plan.paths.is_empty()
}

fn drawn_as(
    alloc: Global,
    as_svg: bool,
    media_type: u8,
    problem: &Problem,
    solution: &Solution,
) -> Result<Vec<u8>, AllocError>
    requires plan { IsAdmissible problem.now.advert.now solution.now.plan }
    requires kept { AreAllowed problem.now.advert.now problem.now.kept.now }
    requires gains { IsTable solution.now.gains }
    ensures { IfOk result (λ text. text.items ≡ text_of (lines_as as_svg media_type (basis_of problem.now solution.now.gains) solution.now.plan)) }
{
    let mut out = plan_text(alloc, problem.advert, problem.weights, &solution.plan)?;
    if as_svg {
        push_legend(&mut out, media_type, problem, solution)?;
        return svg_of(alloc, problem, &solution.plan, &out);
    }
    out.push(b'\n')?;
    push_picture(&mut out, problem, &solution.plan)?;
    push_legend(&mut out, media_type, problem, solution)?;
    Ok(out)
}

// The Applications, and why no plan weighs more.
fn push_legend(
    out: &mut Vec<u8>,
    media_type: u8,
    problem: &Problem,
    solution: &Solution,
) -> Result<(), AllocError>
    requires plan { AreAllowed problem.now.advert.now solution.now.plan }
    requires kept { AreAllowed problem.now.advert.now problem.now.kept.now }
    requires gains { IsTable solution.now.gains }
    ensures { OnOk result (out.new.items ≡ out.old.items ++ text_of (legend_lines media_type (basis_of problem.now solution.now.gains) solution.now.plan)) }
{
    let paths = solution.plan.paths.as_slice();
    push_apps(out, media_type, problem.advert, paths)?;
    out.push(b'\n')?;
    push_why(out, problem, &solution.gains, paths, &LaneNumber::all())
}
