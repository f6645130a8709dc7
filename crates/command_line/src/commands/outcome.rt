// How procedures ended, and what is reported of that.
ghost use Rattle.std.specs.Prelude.{◌≡◌, ◌++◌, OnOk, length, ◌≤◌};
ghost use Rattle.text_lines.specs.Lines.{text_of};
ghost use Rattle.command_line.specs.ProvisionCommand.{active_line, active_unless, fault_of, line_if, outcome_fault, outcome_lines, outcome_of, steps_line, steps_of};

use control_sets::{ControlSet, ProvisionFault};
use plan_reports::Outcome;
use std::alloc::AllocError;
use text_lines::{HexByte, PrintedWords, ToWords};

/// How each procedure ended, if it was made.
#[derive(Clone, Copy)]
pub struct ProcedureResults {
    pub woken: Option<Result<u16, ProvisionFault>>,
    pub provisioned: Option<Result<u16, ProvisionFault>>,
    pub activated: Option<Result<u16, ProvisionFault>>,
}

/// The steps of a procedure that was made and succeeded.
pub fn steps_of(ended: Option<Result<u16, ProvisionFault>>) -> Option<u16>
    ensures { result ≡ steps_of ended }
{
    ended?.ok()
}

/// The fault of one that was made and failed.
pub fn fault_of(ended: Option<Result<u16, ProvisionFault>>) -> Option<ProvisionFault>
    ensures { result ≡ fault_of ended }
{
    ended?.err()
}

/// The fault of the one that failed, after which none is made.
pub fn outcome_fault(results: ProcedureResults) -> Option<ProvisionFault>
    ensures { result ≡ outcome_fault results }
{
    fault_of(results.woken)
        .or(fault_of(results.provisioned))
        .or(fault_of(results.activated))
}

/// What came of procedures: each success, and the active control bytes if there is no fault.
pub fn outcome_of(results: ProcedureResults, active: ControlSet) -> Outcome
    ensures { result ≡ outcome_of results active }
{
    Outcome {
        woken: steps_of(results.woken),
        provisioned: steps_of(results.provisioned),
        activated: steps_of(results.activated),
        active: active_unless(outcome_fault(results), active),
    }
}

fn active_unless(fault: Option<ProvisionFault>, active: ControlSet) -> Option<ControlSet>
    ensures { result ≡ active_unless fault active }
{
    match fault {
        None => Some(active),
        Some(_) => None,
    }
}

/// Adds a line for each.
pub fn push_outcome(text: &mut Vec<u8>, outcome: Outcome) -> Result<(), AllocError>
    ensures { OnOk result (text.new.items ≡ text.old.items ++ text_of (outcome_lines outcome)) }
{
    push_steps(text, "woken", outcome.woken)?;
    push_steps(text, "provisioned", outcome.provisioned)?;
    push_steps(text, "activated", outcome.activated)?;
    push_active(text, outcome.active)?;
    Ok(())
}

#[tactic(auto, unfolding(crate::specs::ProvisionCommand::steps_line))]
fn push_steps(text: &mut Vec<u8>, word: &str, steps: Option<u16>) -> Result<(), AllocError>
    requires { length word.now ≤ 20 }
    ensures { OnOk result (text.new.items ≡ text.old.items ++ text_of (line_if (steps_line word.now) steps)) }
{
    let Some(steps) = steps else {
        return Ok(());
    };
    let line = usize::from(steps).to_words().line_after(word);
    text.extend_from_slice(line.as_slice())
}

#[tactic(auto, unfolding(crate::specs::ProvisionCommand::active_line))]
fn push_active(text: &mut Vec<u8>, active: Option<ControlSet>) -> Result<(), AllocError>
    ensures { OnOk result (text.new.items ≡ text.old.items ++ text_of (line_if active_line active)) }
{
    let Some(active) = active else {
        return Ok(());
    };
    let line = ControlWords(active).to_words().line_after("active");
    text.extend_from_slice(line.as_slice())
}

/// Control bytes, lane 1 first.
#[derive(Clone, Copy)]
struct ControlWords(ControlSet);

/// In lower-case hexadecimal.
impl ToWords for ControlWords {
    ghost use Rattle.command_line.specs.ProvisionCommand.{control_words};

    ghost words = { λ control. control_words control.0 };

    ghost most = { 8 };

    fn to_words(&self) -> PrintedWords {
        HexByte(self.0[0])
            .to_words()
            .and(&HexByte(self.0[1]))
            .and(&HexByte(self.0[2]))
            .and(&HexByte(self.0[3]))
            .and(&HexByte(self.0[4]))
            .and(&HexByte(self.0[5]))
            .and(&HexByte(self.0[6]))
            .and(&HexByte(self.0[7]))
    }
}
