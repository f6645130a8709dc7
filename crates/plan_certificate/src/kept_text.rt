// The text of kept paths: a line for each.
ghost use Rattle.std.specs.Prelude.{◌≡◌, ◌≢◌, ◌≤◌, ◌++◌, ◌∷◌, [], IfOk, IfErr, OnOk, MatchOption, length};
ghost use Rattle.text_lines.specs.Lines.{lines_of};
ghost use Rattle.plan_certificate.specs.declared.path.Path.{Path};
ghost use Rattle.plan_certificate.specs.declared.plan.TheConstants.{MAX_PATHS};
ghost use Rattle.plan_certificate.specs.CertificateText.{IsPathInRange};
ghost use Rattle.plan_certificate.specs.KeptText.{keep_line, IsKeepLine, IsKeptText, IsKeptLineFault, IsFirstKeptFault};

use crate::fault::KeptFault;
use crate::line::{Line, read_line};
use crate::path::Path;
use crate::plan::{MAX_PATHS, Plan};
use arrayvec::ArrayVec;
use text_lines::split_line;

/// The kept paths of a text, in its order, or the text's first fault. Whether a module can carry them is `kept_fault`'s
/// question.
pub fn kept_of(text: &[u8]) -> Result<Plan, KeptFault>
    ensures ok { IfOk result (IsKeptText (lines_of text.now)) }
    ensures err { IfErr result (IsFirstKeptFault (lines_of text.now)) }
{
    let mut paths = ArrayVec::new();
    let mut rest = text;
    while let Some((line, after)) = split_line(rest) {
        if let Err(fault) = take_keep(&mut paths, line) {
            return Err(fault);
        }
        rest = after;
    }
    Ok(Plan { paths })
}

// Adds the path of the line that follows the lines of these paths.
fn take_keep(paths: &mut ArrayVec<Path, MAX_PATHS>, line: &[u8]) -> Result<(), KeptFault>
    ensures added { OnOk result ((path : Path) × IsKeepLine line.now path × (paths.new.items ≡ paths.old.items ++ path ∷ [])) }
    ensures room { OnOk result (length paths.new.items ≤ MAX_PATHS) }
    ensures fault { IfErr result (IsKeptLineFault paths.old.items line.now) }
{
    let number = paths.len() + 1;
    let Some(path) = read_keep(line) else {
        return Err(KeptFault::BadLine(number));
    };
    if paths.try_push(path).is_err() {
        return Err(KeptFault::TooMany);
    }
    Ok(())
}

// The kept path that a line names.
fn read_keep(line: &[u8]) -> Option<Path>
    ensures { MatchOption result ((path : Path) → IsPathInRange path → line.now ≢ keep_line path) (λ path. IsKeepLine line.now path) }
{
    match read_line(line) {
        Some(Line::KeepLine(path)) => Some(path),
        _ => None,
    }
}
