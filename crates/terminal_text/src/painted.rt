// A report in colors.
ghost use Rattle.std.specs.Prelude.{◌≡◌, ◌++◌, ◌∷◌, [], IfOk, OnOk};
ghost use Rattle.text_lines.specs.Lines.{lines_of};
ghost use Rattle.terminal_text.specs.Colors.{colored, painted, start_of, end_of};

use crate::alert::{Alert, alert_of};
use std::alloc::{AllocError, Global};
use text_lines::split_line;

/// A report in which each line with an alert is colored.
#[tactic(auto, unfolding(crate::specs::Colors::colored))]
pub fn colored(alloc: Global, text: &[u8]) -> Result<Vec<u8>, AllocError>
    ensures { IfOk result (λ shown. shown.items ≡ colored text.now) }
{
    let mut shown = Vec::new(alloc);
    let mut rest = text;
    while let Some((line, after)) = split_line(rest) {
        push_painted(&mut shown, alert_of(text, line), line)?;
        rest = after;
    }
    Ok(shown)
}

fn push_painted(shown: &mut Vec<u8>, alert: Option<Alert>, line: &[u8]) -> Result<(), AllocError>
    ensures { OnOk result (shown.new.items ≡ shown.old.items ++ (painted alert line.now ++ 10 ∷ [])) }
{
    shown.extend_from_slice(start_of(alert))?;
    shown.extend_from_slice(line)?;
    shown.extend_from_slice(end_of(alert))?;
    shown.extend_from_slice(b"\n")
}

// The escape sequence before a line.
fn start_of(alert: Option<Alert>) -> &'static [u8]
    ensures { result.now ≡ start_of alert }
{
    match alert {
        Some(Alert::Alarm) => b"\x1b[31m",
        Some(Alert::Warning) => b"\x1b[33m",
        None => b"",
    }
}

// The one after it.
fn end_of(alert: Option<Alert>) -> &'static [u8]
    ensures { result.now ≡ end_of alert }
{
    match alert {
        Some(_) => b"\x1b[0m",
        None => b"",
    }
}
