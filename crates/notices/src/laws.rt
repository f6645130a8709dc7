//! What holds of all numbers. The function is a theorem: its contract says it, and its body is empty.
ghost use Rattle.std.specs.Prelude.{IsTrue};
ghost use Rattle.notices.specs.Numbers.{are_all_said, procedure_faults, reasons, statuses};

/// Each number has a text: its own, or the sentence of the fault that it stands for.
pub fn each_number_has_a_text()
    ensures statuses { IsTrue (are_all_said statuses) }
    ensures procedure_faults { IsTrue (are_all_said procedure_faults) }
    ensures reasons { IsTrue (are_all_said reasons) }
{}
