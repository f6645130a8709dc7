//! A fault of reading as JSON.
ghost use Rattle.std.specs.Prelude.{Some};
ghost use Rattle.command_line.specs.FaultTexts.{reading_fault_text};

use crate::fault::Fault;
use crate::remark::Explained;
use std::fmt;

/// A fault of reading, of which no part needs memory.
#[derive(Clone, Copy)]
pub struct ReadingFault(pub Fault);

/// As JSON.
impl fmt::Display for ReadingFault {
    ghost output = { λ fault. Some (reading_fault_text fault.0) };

    #[tactic(auto, unfolding(crate::specs::FaultTexts::before_code, crate::specs::FaultTexts::after_code, crate::specs::FaultTexts::after_sentence))]
    fn fmt<W: fmt::Write>(&self, f: &mut fmt::Formatter<W>) -> fmt::Result {
        let explained = Explained::of(self.0);
        let code = explained.code();
        let sentence = explained.sentence();
        write!(
            f,
            "{{\n  \"dovecounter\": 1,\n  \"fault\": {{\n    \"code\": \"{code}\",\n    \"values\": [],\n    \"sentence\": \"{sentence}\"\n  }}\n}}\n"
        )
    }
}
