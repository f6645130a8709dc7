ghost use Rattle.std.specs.Prelude.{◌≡◌, ◌+◌, ◌++◌, ◌∷◌, [], ◌≤◌, true, All, IfOk, OnOk, map};
ghost use Rattle.text_lines.specs.Lines.{text_of};
ghost use Rattle.plan_certificate.specs.Paths.{is_allowed};
ghost use Rattle.plan_certificate.specs.Plans.{IsAdmissible};
ghost use Rattle.plan_reports.specs.PlanText.{lanes_of, path_line, plan_lines, span_of};

use crate::shown_plan::{LaneSpan, PathLanes};
use applications::{Advert, AppWeights};
use control_sets::bytes_of;
use plan_certificate::{Path, Plan, weight_of};
use report_entries::ReportText;
use std::alloc::{AllocError, Global};

/// What a plan weighs, its paths, and the control bytes that ask for it, line by line.
#[tactic(auto, unfolding(crate::specs::PlanText::weight_line, crate::specs::PlanText::control_line))]
pub fn plan_text(
    alloc: Global,
    advert: &Advert,
    weights: &AppWeights,
    plan: &Plan,
) -> Result<Vec<u8>, AllocError>
    requires { IsAdmissible advert.now plan.now }
    ensures { IfOk result (λ text. text.items ≡ text_of (plan_lines advert.now weights.now plan.now)) }
{
    let mut report = ReportText::new(alloc);
    report.line("weight", weight_of(weights, plan))?;
    push_paths(&mut report, advert, plan.paths.as_slice())?;
    report.bytes("control", &bytes_of(advert, plan))?;
    Ok(report.into_bytes())
}

fn push_paths(report: &mut ReportText, advert: &Advert, paths: &[Path]) -> Result<(), AllocError>
    requires { All (λ path. is_allowed advert.now path ≡ true) paths.now }
    ensures { OnOk result (report.new ≡ report.old ++ text_of (map (path_line advert.now) paths.now)) }
{
    for path in paths {
        push_path(report, advert, *path)?;
    }
    Ok(())
}

#[tactic(auto, unfolding(crate::specs::PlanText::path_line))]
fn push_path(report: &mut ReportText, advert: &Advert, path: Path) -> Result<(), AllocError>
    requires { is_allowed advert.now path ≡ true }
    ensures { OnOk result (report.new ≡ report.old ++ (path_line advert.now path ++ 10 ∷ [])) }
{
    report.line("path", lanes_of(advert, path))
}

#[tactic(auto, unfolding(plan_certificate::specs::Paths::is_allowed))]
fn lanes_of(advert: &Advert, path: Path) -> PathLanes
    requires { is_allowed advert.now path ≡ true }
    ensures { result ≡ lanes_of advert.now path }
{
    let app = path.application(advert);
    PathLanes {
        app: path.app,
        host: span_of(path.host, app.host_lanes),
        media: span_of(path.media, app.media_lanes),
    }
}

fn span_of(first: u8, count: u8) -> LaneSpan
    requires some { 1 ≤ count }
    requires to_eight { first + count ≤ 9 }
    ensures { result ≡ span_of first count }
{
    LaneSpan {
        first,
        last: first + count - 1,
    }
}
