// What waking up, provisioning and activation came to, as JSON.
ghost use Rattle.std.specs.Prelude.{◌≡◌, ◌++◌, IfOk, OnOk, map};
ghost use Rattle.json.specs.Tree.{json_tokens};
ghost use Rattle.report_entries.specs.EntryJson.{IsJsonText, string_members};
ghost use Rattle.report_entries.specs.JsonTrees.{all_member_tokens, all_tokens};
ghost use Rattle.plan_reports.specs.ProcedureJson.{active_members, answer_members, kind_members, op_members, operations_members, outcome_fault_members, outcome_members, place_members, procedure_json, reply_members, step_json, steps_json, steps_members, taken_members};

use crate::json_fault::put_fault;
use crate::json_plan::put_bytes;
use bus_model::{Dev, Op, Reply, Step};
use control_sets::ControlSet;
use report_entries::json_document::{begin, end};
use report_entries::{JsonWriter, put_count, put_shown};
use std::alloc::{AllocError, Global};
use text_lines::Word;

/// What waking up, provisioning and activation came to.
#[derive(Clone, Copy)]
pub struct Outcome {
    /// The steps of waking up, if it was made and succeeded.
    pub woken: Option<u16>,
    /// The steps of provisioning, if it was made and succeeded.
    pub provisioned: Option<u16>,
    /// The steps of activation, if it was made and succeeded.
    pub activated: Option<u16>,
    /// The active control bytes, host lane 1 first.
    pub active: Option<ControlSet>,
}

/// The steps made on a bus, if they are shown, and what came of them, as JSON. A fault is given by its words, none if there is no
/// fault, and by what a person is told of it.
pub fn procedure_json(
    alloc: Global,
    is_traced: bool,
    steps: &[Step],
    outcome: Outcome,
    fault: &[Word],
    sentence: &str,
) -> Result<Vec<u8>, AllocError>
    ensures { IfOk result (λ text.
        IsJsonText (procedure_json is_traced steps.now outcome (map (λ word. word.items) fault.now) sentence.now)
        text.items) }
{
    let mut out = begin(alloc)?;
    put_operations(&mut out, is_traced, steps)?;
    put_outcome(&mut out, outcome)?;
    put_outcome_fault(&mut out, fault, sentence)?;
    end(out)
}

fn put_operations(out: &mut JsonWriter, is_traced: bool, steps: &[Step]) -> Result<(), AllocError>
    ensures { OnOk result (out.new ≡ out.old ++ all_member_tokens (operations_members is_traced steps.now)) }
{
    if is_traced {
        put_named_steps(out, "operations", steps)
    } else {
        Ok(())
    }
}

#[tactic(auto, unfolding(crate::specs::ProcedureJson::steps_members))]
fn put_named_steps(out: &mut JsonWriter, key: &str, steps: &[Step]) -> Result<(), AllocError>
    ensures { OnOk result (out.new ≡ out.old ++ all_member_tokens (steps_members key.now steps.now)) }
{
    out.key(key)?;
    put_steps(out, steps)
}

fn put_steps(out: &mut JsonWriter, steps: &[Step]) -> Result<(), AllocError>
    ensures { OnOk result (out.new ≡ out.old ++ json_tokens (steps_json steps.now)) }
{
    out.begin_array()?;
    put_each_step(out, steps)?;
    out.end_array()
}

fn put_each_step(out: &mut JsonWriter, steps: &[Step]) -> Result<(), AllocError>
    ensures { OnOk result (out.new ≡ out.old ++ all_tokens (map step_json steps.now)) }
{
    for step in steps {
        put_step(out, step)?;
    }
    Ok(())
}

fn put_step(out: &mut JsonWriter, step: &Step) -> Result<(), AllocError>
    ensures { OnOk result (out.new ≡ out.old ++ json_tokens (step_json step.now)) }
{
    out.begin_object()?;
    put_op(out, &step.op)?;
    put_reply(out, &step.reply)?;
    out.end_object()
}

#[tactic(auto, unfolding(crate::specs::ProcedureJson::op_members))]
fn put_op(out: &mut JsonWriter, op: &Op) -> Result<(), AllocError>
    ensures { OnOk result (out.new ≡ out.old ++ all_member_tokens (op_members op.now)) }
{
    match op {
        Op::Fetch { dev, offset, count } => {
            put_kind(out, "fetch")?;
            put_place(out, *dev, *offset)?;
            put_count(out, "count", *count)
        }
        Op::Store { dev, offset, bytes } => {
            put_kind(out, "store")?;
            put_place(out, *dev, *offset)?;
            put_bytes(out, "stored", bytes.as_slice())
        }
    }
}

#[tactic(auto, unfolding(crate::specs::ProcedureJson::kind_members))]
fn put_kind(out: &mut JsonWriter, kind: &str) -> Result<(), AllocError>
    ensures { OnOk result (out.new ≡ out.old ++ all_member_tokens (kind_members kind.now)) }
{
    put_string(out, "operation", kind)
}

#[tactic(auto, unfolding(crate::specs::ProcedureJson::place_members))]
fn put_place(out: &mut JsonWriter, dev: Dev, offset: u8) -> Result<(), AllocError>
    ensures { OnOk result (out.new ≡ out.old ++ all_member_tokens (place_members dev offset)) }
{
    put_shown(out, "device", dev)?;
    put_count(out, "offset", offset)
}

#[tactic(auto, unfolding(crate::specs::ProcedureJson::reply_members))]
fn put_reply(out: &mut JsonWriter, reply: &Reply) -> Result<(), AllocError>
    ensures { OnOk result (out.new ≡ out.old ++ all_member_tokens (reply_members reply.now)) }
{
    match reply {
        Reply::Bytes(bytes) => {
            put_answer(out, "bytes")?;
            put_bytes(out, "read", bytes.as_slice())
        }
        Reply::Done => put_answer(out, "done"),
        Reply::Refused => put_answer(out, "refused"),
    }
}

#[tactic(auto, unfolding(crate::specs::ProcedureJson::answer_members))]
fn put_answer(out: &mut JsonWriter, word: &str) -> Result<(), AllocError>
    ensures { OnOk result (out.new ≡ out.old ++ all_member_tokens (answer_members word.now)) }
{
    put_string(out, "reply", word)
}

#[tactic(auto, unfolding(crate::specs::ProcedureJson::outcome_members))]
fn put_outcome(out: &mut JsonWriter, outcome: Outcome) -> Result<(), AllocError>
    ensures { OnOk result (out.new ≡ out.old ++ all_member_tokens (outcome_members outcome)) }
{
    put_taken(out, "woken_steps", outcome.woken)?;
    put_taken(out, "provisioned_steps", outcome.provisioned)?;
    put_taken(out, "activated_steps", outcome.activated)?;
    put_active(out, outcome.active)
}

#[tactic(auto, unfolding(report_entries::specs::EntryJson::count_members))]
fn put_taken(out: &mut JsonWriter, key: &str, steps: Option<u16>) -> Result<(), AllocError>
    ensures { OnOk result (out.new ≡ out.old ++ all_member_tokens (taken_members key.now steps)) }
{
    let Some(steps) = steps else {
        return Ok(());
    };
    out.key(key)?;
    out.number(u64::from(steps))
}

fn put_active(out: &mut JsonWriter, active: Option<ControlSet>) -> Result<(), AllocError>
    ensures { OnOk result (out.new ≡ out.old ++ all_member_tokens (active_members active)) }
{
    match active {
        Some(bytes) => put_bytes(out, "active_bytes", &bytes),
        None => Ok(()),
    }
}

fn put_outcome_fault(out: &mut JsonWriter, fault: &[Word], sentence: &str) -> Result<(), AllocError>
    ensures { OnOk result (out.new
        ≡ out.old ++ all_member_tokens (outcome_fault_members (map (λ word. word.items) fault.now) sentence.now)) }
{
    if fault.is_empty() {
        return Ok(());
    }
    put_fault(out, fault, sentence)
}

#[tactic(auto, unfolding(report_entries::specs::EntryJson::string_members))]
fn put_string(out: &mut JsonWriter, key: &str, value: &str) -> Result<(), AllocError>
    ensures { OnOk result (out.new ≡ out.old ++ all_member_tokens (string_members key.now value.now)) }
{
    out.key(key)?;
    out.string(value)
}
