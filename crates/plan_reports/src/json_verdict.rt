// A verdict on a certificate as JSON.
ghost use Rattle.std.specs.Prelude.{◌≡◌, ◌++◌, IfOk, OnOk, false, map, true};
ghost use Rattle.plan_certificate.specs.Plans.{IsAdmissible};
ghost use Rattle.report_entries.specs.EntryJson.{IsJsonText};
ghost use Rattle.report_entries.specs.JsonTrees.{all_member_tokens};
ghost use Rattle.plan_reports.specs.VerdictJson.{bad_json, boolean_members, first_members, good_json, good_members, why_members};

use crate::json_fault::put_reason;
use crate::json_plan::put_plan;
use lane_planner::Problem;
use plan_certificate::Plan;
use report_entries::JsonWriter;
use report_entries::json_document::{begin, end};
use std::alloc::{AllocError, Global};
use text_lines::Word;

/// That a certificate of this plan is good, and if that is asked for, whether the plan is the first of the best, as JSON.
pub fn good_json(
    alloc: Global,
    first: Option<bool>,
    problem: &Problem,
    plan: &Plan,
) -> Result<Vec<u8>, AllocError>
    requires { IsAdmissible problem.now.advert.now plan.now }
    ensures { IfOk result (λ text.
        IsJsonText (good_json first problem.now.advert.now problem.now.weights.now problem.now.kept.now plan.now) text.items) }
{
    let mut out = begin(alloc)?;
    put_good(&mut out, true)?;
    put_first(&mut out, first)?;
    put_plan(&mut out, problem, plan)?;
    end(out)
}

/// That a certificate is bad, and why, as JSON. The words are the reason's code and its number.
pub fn bad_json(alloc: Global, words: &[Word], sentence: &str) -> Result<Vec<u8>, AllocError>
    ensures { IfOk result (λ text.
        IsJsonText (bad_json (map (λ word. word.items) words.now) sentence.now) text.items) }
{
    let mut out = begin(alloc)?;
    put_good(&mut out, false)?;
    put_why(&mut out, words, sentence)?;
    end(out)
}

#[tactic(auto, unfolding(crate::specs::VerdictJson::good_members))]
fn put_good(out: &mut JsonWriter, is_good: bool) -> Result<(), AllocError>
    ensures { OnOk result (out.new ≡ out.old ++ all_member_tokens (good_members is_good)) }
{
    put_boolean(out, "good", is_good)
}

fn put_first(out: &mut JsonWriter, first: Option<bool>) -> Result<(), AllocError>
    ensures { OnOk result (out.new ≡ out.old ++ all_member_tokens (first_members first)) }
{
    match first {
        Some(is_first) => put_boolean(out, "first", is_first),
        None => Ok(()),
    }
}

#[tactic(auto, unfolding(crate::specs::VerdictJson::boolean_members))]
fn put_boolean(out: &mut JsonWriter, key: &str, value: bool) -> Result<(), AllocError>
    ensures { OnOk result (out.new ≡ out.old ++ all_member_tokens (boolean_members key.now value)) }
{
    out.key(key)?;
    out.boolean(value)
}

#[tactic(auto, unfolding(crate::specs::VerdictJson::why_members))]
fn put_why(out: &mut JsonWriter, words: &[Word], sentence: &str) -> Result<(), AllocError>
    ensures { OnOk result (out.new
        ≡ out.old ++ all_member_tokens (why_members (map (λ word. word.items) words.now) sentence.now)) }
{
    put_reason(out, "reason", words, sentence)
}
