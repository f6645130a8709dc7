//! What holds of all refusals and all texts. Each function is a theorem: its contract says it, and its body is empty.
ghost use Rattle.std.specs.Prelude.{◌≢◌, IfSome, IsTrue, Some, is_some, ℕ};
ghost use Rattle.paged_memory.specs.Images.{Memory};
ghost use Rattle.notices.specs.Numbers.{procedure_faults, reasons, statuses, text_by};
ghost use Rattle.notices.specs.declared.version.TheConstants.{VERSION};
ghost use Rattle.firmware_api.specs.CodeTexts.{code_text, media_text};
ghost use Rattle.module_decoding.specs.declared.report.Report.{Report};
ghost use Rattle.firmware_api.specs.Halves.{report_refusal};
ghost use Rattle.firmware_api.specs.Statuses.{is_answered, status_of};
ghost use Rattle.firmware_api.specs.Texts.{text_refusal};
ghost use Rattle.firmware_api.specs.declared.status.Refusal.{Refusal};
ghost use Rattle.firmware_api.specs.declared.status.Refusal.TheVariants.{TooSmall};

/// Each refusal that calls answer has a text.
pub fn each_refusal_has_a_text()
    ensures { (refusal : Refusal) → IsTrue (is_answered refusal) → IsTrue (is_some (text_by statuses (status_of refusal))) }
{}

/// The calls that decode a module answer no other refusal.
pub fn decoders_answer_such_refusals_alone()
    ensures { (report : Report) (memory : Memory) → IfSome (report_refusal report memory) (λ refusal. IsTrue (is_answered refusal)) }
{}

/// No text is too long for a buffer of 256 bytes.
pub fn each_text_has_room_in_256_bytes()
    ensures statuses { (number : ℕ) → text_refusal (text_by statuses number) 256 ≢ Some TooSmall }
    ensures procedure_faults { (number : ℕ) → text_refusal (text_by procedure_faults number) 256 ≢ Some TooSmall }
    ensures reasons { (number : ℕ) → text_refusal (text_by reasons number) 256 ≢ Some TooSmall }
    ensures names { (table code : ℕ) → text_refusal (code_text table code) 256 ≢ Some TooSmall }
    ensures media { (media_type code : ℕ) → text_refusal (Some (media_text media_type code)) 256 ≢ Some TooSmall }
    ensures version { text_refusal (Some VERSION.now) 256 ≢ Some TooSmall }
{}
