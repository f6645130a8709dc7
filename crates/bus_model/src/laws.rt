//! What holds of scripts, their texts and their buses.
ghost use Rattle.std.specs.Prelude.{◌≡◌, ℕ, List, Result, map};
ghost use Rattle.bus_model.specs.declared.fault.ScriptFault.{ScriptFault};
ghost use Rattle.bus_model.specs.declared.operation.Step.{Step};
ghost use Rattle.bus_model.specs.declared.script.Directive.{Directive};
ghost use Rattle.bus_model.specs.Runs.{MayInTurn};
ghost use Rattle.bus_model.specs.ScriptFaults.{IsAnswer};
ghost use Rattle.bus_model.specs.ScriptedBus.{script_rules};

use crate::device::Device;

/// Lines have one answer at most: two scripts share no text, no text has both a script and a fault, and the first
/// fault of a text is one.
pub fn one_script()
    ensures { (lines : List (List ℕ)) (a b : Result (List Directive) ScriptFault)
        → IsAnswer lines a → IsAnswer lines b → a ≡ b }
{}

/// On a scripted bus one reply may come to each operation: the same operations make the same steps.
pub fn one_reply<D: Device>()
    ensures { (state : List Directive × D.State) (these those : List Step)
        → map (λ step. step.op) these ≡ map (λ step. step.op) those
        → MayInTurn (script_rules D.conduct) state these
        → MayInTurn (script_rules D.conduct) state those
        → these ≡ those }
{}
