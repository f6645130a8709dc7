// A plan as JSON.
ghost use Rattle.std.specs.Prelude.{◌≡◌, ◌+◌, ◌++◌, ◌≤◌, All, IfOk, OnOk, map, true};
ghost use Rattle.std.specs.List.{range_with_len};
ghost use Rattle.json.specs.Tree.{json_tokens};
ghost use Rattle.plan_certificate.specs.Paths.{app_of, is_allowed};
ghost use Rattle.plan_certificate.specs.Plans.{IsAdmissible};
ghost use Rattle.report_entries.specs.EntryJson.{count_json, count_members, IsJsonText};
ghost use Rattle.report_entries.specs.JsonTrees.{all_member_tokens, all_tokens};
ghost use Rattle.plan_reports.specs.PlanJson.{control_members, host_run_members, kept_members, media_run_members, numbers_json, numbers_members, path_json, paths_json, paths_members, plan_json, plan_members, run_members, weight_members};

use applications::Advert;
use control_sets::bytes_of;
use lane_planner::Problem;
use plan_certificate::{Path, Plan, weight_of};
use report_entries::json_document::{begin, end};
use report_entries::{JsonWriter, put_count};
use std::alloc::{AllocError, Global};

/// What a plan weighs, the paths that it keeps, all its paths, and the control bytes that ask for it, as JSON.
pub fn plan_json(alloc: Global, problem: &Problem, plan: &Plan) -> Result<Vec<u8>, AllocError>
    requires { IsAdmissible problem.now.advert.now plan.now }
    ensures { IfOk result (λ text.
        IsJsonText (plan_json problem.now.advert.now problem.now.weights.now problem.now.kept.now plan.now) text.items) }
{
    let mut out = begin(alloc)?;
    put_plan(&mut out, problem, plan)?;
    end(out)
}

#[tactic(auto, unfolding(crate::specs::PlanJson::plan_members))]
pub fn put_plan(out: &mut JsonWriter, problem: &Problem, plan: &Plan) -> Result<(), AllocError>
    requires { IsAdmissible problem.now.advert.now plan.now }
    ensures { OnOk result (out.new
        ≡ out.old ++ all_member_tokens (plan_members problem.now.advert.now problem.now.weights.now problem.now.kept.now plan.now)) }
{
    let (advert, kept) = (problem.advert, problem.kept);
    put_weight(out, weight_of(problem.weights, plan))?;
    put_kept(out, advert, kept.paths.as_slice())?;
    put_paths(out, "paths", advert, plan.paths.as_slice())?;
    put_control(out, advert, plan)
}

#[tactic(auto, unfolding(crate::specs::PlanJson::weight_members, report_entries::specs::EntryJson::count_members))]
fn put_weight(out: &mut JsonWriter, weight: u64) -> Result<(), AllocError>
    ensures { OnOk result (out.new ≡ out.old ++ all_member_tokens (weight_members weight)) }
{
    out.key("weight")?;
    out.number(weight)
}

#[tactic(auto, unfolding(crate::specs::PlanJson::kept_members))]
fn put_kept(out: &mut JsonWriter, advert: &Advert, kept: &[Path]) -> Result<(), AllocError>
    ensures { OnOk result (out.new ≡ out.old ++ all_member_tokens (kept_members advert.now kept.now)) }
{
    put_paths(out, "kept_paths", advert, kept)
}

#[tactic(auto, unfolding(crate::specs::PlanJson::control_members))]
fn put_control(out: &mut JsonWriter, advert: &Advert, plan: &Plan) -> Result<(), AllocError>
    requires { IsAdmissible advert.now plan.now }
    ensures { OnOk result (out.new ≡ out.old ++ all_member_tokens (control_members advert.now plan.now)) }
{
    put_bytes(out, "control_bytes", &bytes_of(advert, plan))
}

#[tactic(auto, unfolding(crate::specs::PlanJson::paths_members))]
fn put_paths(
    out: &mut JsonWriter,
    key: &str,
    advert: &Advert,
    paths: &[Path],
) -> Result<(), AllocError>
    ensures { OnOk result (out.new ≡ out.old ++ all_member_tokens (paths_members key.now advert.now paths.now)) }
{
    out.key(key)?;
    put_path_list(out, advert, paths)
}

fn put_path_list(out: &mut JsonWriter, advert: &Advert, paths: &[Path]) -> Result<(), AllocError>
    ensures { OnOk result (out.new ≡ out.old ++ json_tokens (paths_json advert.now paths.now)) }
{
    out.begin_array()?;
    put_each_path(out, advert, paths)?;
    out.end_array()
}

fn put_each_path(out: &mut JsonWriter, advert: &Advert, paths: &[Path]) -> Result<(), AllocError>
    ensures { OnOk result (out.new ≡ out.old ++ all_tokens (map (path_json advert.now) paths.now)) }
{
    for path in paths {
        put_path(out, advert, *path)?;
    }
    Ok(())
}

fn put_path(out: &mut JsonWriter, advert: &Advert, path: Path) -> Result<(), AllocError>
    ensures { OnOk result (out.new ≡ out.old ++ json_tokens (path_json advert.now path)) }
{
    out.begin_object()?;
    put_count(out, "app_number", path.app)?;
    put_host_run(out, advert, path)?;
    put_media_run(out, advert, path)?;
    out.end_object()
}

#[tactic(auto, unfolding(crate::specs::PlanJson::host_run_members))]
fn put_host_run(out: &mut JsonWriter, advert: &Advert, path: Path) -> Result<(), AllocError>
    ensures { OnOk result (out.new ≡ out.old ++ all_member_tokens (host_run_members advert.now path)) }
{
    let app = path.application(advert);
    put_run(out, "host_lane_numbers", path.host, app.host_lanes)
}

#[tactic(auto, unfolding(crate::specs::PlanJson::media_run_members))]
fn put_media_run(out: &mut JsonWriter, advert: &Advert, path: Path) -> Result<(), AllocError>
    ensures { OnOk result (out.new ≡ out.old ++ all_member_tokens (media_run_members advert.now path)) }
{
    let app = path.application(advert);
    put_run(out, "media_lane_numbers", path.media, app.media_lanes)
}

// So many lanes from the first on, by their numbers.
#[tactic(auto, unfolding(crate::specs::PlanJson::numbers_members))]
fn put_run(out: &mut JsonWriter, key: &str, first: u8, count: u8) -> Result<(), AllocError>
    ensures { OnOk result (out.new ≡ out.old ++ all_member_tokens (run_members key.now first count)) }
{
    out.key(key)?;
    put_lanes(out, first, count)
}

fn put_lanes(out: &mut JsonWriter, first: u8, count: u8) -> Result<(), AllocError>
    ensures { OnOk result (out.new ≡ out.old ++ json_tokens (numbers_json (range_with_len first count))) }
{
    out.begin_array()?;
    put_each_lane(out, first, count)?;
    out.end_array()
}

fn put_each_lane(out: &mut JsonWriter, first: u8, count: u8) -> Result<(), AllocError>
    ensures { OnOk result (out.new ≡ out.old ++ all_tokens (map count_json (range_with_len first count))) }
{
    for index in 0..count {
        out.number(u64::from(first) + u64::from(index))?;
    }
    Ok(())
}

/// Bytes under a key, as numbers.
#[tactic(auto, unfolding(crate::specs::PlanJson::numbers_members))]
pub fn put_bytes(out: &mut JsonWriter, key: &str, bytes: &[u8]) -> Result<(), AllocError>
    ensures { OnOk result (out.new ≡ out.old ++ all_member_tokens (numbers_members key.now bytes.now)) }
{
    out.key(key)?;
    put_numbers(out, bytes)
}

fn put_numbers(out: &mut JsonWriter, bytes: &[u8]) -> Result<(), AllocError>
    ensures { OnOk result (out.new ≡ out.old ++ json_tokens (numbers_json bytes.now)) }
{
    out.begin_array()?;
    put_each_number(out, bytes)?;
    out.end_array()
}

fn put_each_number(out: &mut JsonWriter, bytes: &[u8]) -> Result<(), AllocError>
    ensures { OnOk result (out.new ≡ out.old ++ all_tokens (map count_json bytes.now)) }
{
    for byte in bytes {
        out.number(u64::from(*byte))?;
    }
    Ok(())
}
