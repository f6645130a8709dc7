// Reading a certificate from its text, one line after another.
ghost use Rattle.std.specs.Prelude.{◌≡◌, ◌≢◌, ◌↔◌, ◌<◌, ◌≤◌, ◌+◌, ◌++◌, ◌∷◌, [], ℕ, false, IsTrue, IfOk, IfErr, OnOk, map, length};
ghost use Rattle.std.specs.Bool.{OnTrue, OnFalse};
ghost use Rattle.std.specs.List.{All};
ghost use Rattle.text_lines.specs.Lines.{lines_of};
ghost use Rattle.plan_certificate.specs.declared.line.Line.{Line};
ghost use Rattle.plan_certificate.specs.declared.stage.Stage.TheVariants as stages;
ghost use Rattle.plan_certificate.specs.declared.plan.TheConstants.{MAX_PATHS};
ghost use Rattle.plan_certificate.specs.CertificateText.{line_text, IsLineInRange, IsTextOf};
ghost use Rattle.plan_certificate.specs.CertificateFaults.{IsLineFault, IsFirstFault};
ghost use Rattle.plan_certificate.specs.CertificateDrafts.{lines_so_far, text_so_far, HasKeptAlone, MayCome, IsDraft};
ghost use Rattle.plan_certificate.specs.ReadLines.{claim_of, IsLineAt};

use super::{Certificate, Entries};
use crate::fault::CertificateFault;
use crate::line::{Line, read_line};
use crate::path::Path;
use crate::plan::{MAX_PATHS, Plan};
use crate::stage::Stage;
use arrayvec::ArrayVec;
use text_lines::split_line;

/// What a certificate's text says before its states.
#[derive(Debug, Drop)]
pub(crate) struct Head {
    pub(crate) paired: bool,
    pub(crate) weight: u64,
    pub(crate) kept: Plan,
    pub(crate) plan: Plan,
}

impl<'text, const STATES: usize> Certificate<'text, STATES> {
    /// The certificate of a text, or the text's first fault.
    pub fn read(text: &'text [u8]) -> Result<Self, CertificateFault>
        ensures ok { IfOk result (IsTextOf STATES (lines_of text.now)) }
        ensures err { IfErr result (IsFirstFault STATES (lines_of text.now)) }
    {
        let mut certificate = Certificate::blank();
        match certificate.take(text) {
            Ok(()) => Ok(certificate),
            Err(fault) => Err(fault),
        }
    }

    /// A certificate that says nothing, to take a text.
    pub fn blank() -> Self
        ensures { result ≡ record { paired = false; weight = 0; kept = []; paths = []; entries = [] } }
    {
        let head = Head::blank();
        Certificate {
            paired: head.paired,
            weight: head.weight,
            kept: head.kept,
            plan: head.plan,
            entries: Entries::new(),
        }
    }

    /// Makes a blank certificate that of a text, in its place, if the text has no fault.
    pub fn take(&mut self, text: &'text [u8]) -> Result<(), CertificateFault>
        requires { self.old ≡ record { paired = false; weight = 0; kept = []; paths = []; entries = [] } }
        ensures ok { OnOk result (IsTextOf STATES (lines_of text.now) self.new) }
        ensures err { IfErr result (IsFirstFault STATES (lines_of text.now)) }
    {
        let mut head = Head::blank();
        let read = read_lines(&mut head, &mut self.entries, text);
        let _rising = self.entries.is_full();
        if let Err(fault) = read {
            return Err(fault);
        }
        self.paired = head.paired;
        self.weight = head.weight;
        self.kept = head.kept;
        self.plan = head.plan;
        Ok(())
    }
}

impl Head {
    // Nothing, before any line.
    fn blank() -> Self
        ensures { result ≡ record { paired = false; weight = 0; kept = []; plan = [] } }
    {
        Head {
            paired: false,
            weight: 0,
            kept: Plan {
                paths: ArrayVec::new(),
            },
            plan: Plan {
                paths: ArrayVec::new(),
            },
        }
    }
}

// Takes the lines of a text.
fn read_lines<'text, const STATES: usize>(
    head: &mut Head,
    entries: &mut Entries<'text, STATES>,
    text: &'text [u8],
) -> Result<(), CertificateFault>
    requires head { head.old ≡ record { paired = false; weight = 0; kept = []; plan = [] } }
    requires entries { entries.old.entries ≡ [] }
    ensures ok { OnOk result (IsTextOf STATES (lines_of text.now) (claim_of head.new entries.new.entries)) }
    ensures err { IfErr result (IsFirstFault STATES (lines_of text.now)) }
{
    entries.begin(text);
    let mut stage = Stage::Start;
    let (mut number, mut at) = (0, 0);
    let mut rest = text;
    while let Some((line, after)) = split_line(rest) {
        number += 1;
        match take_line(head, entries, stage, line, number, at) {
            Ok(next) => stage = next,
            Err(fault) => return Err(fault),
        }
        at += line.len() + 1;
        rest = after;
    }
    if stage != Stage::Ended {
        return Err(CertificateFault::NoEnd);
    }
    Ok(())
}

// Takes the line of this number, which follows the lines so far and begins there in the text.
fn take_line<const STATES: usize>(
    head: &mut Head,
    entries: &mut Entries<'_, STATES>,
    stage: Stage,
    line: &[u8],
    number: usize,
    at: usize,
) -> Result<Stage, CertificateFault>
    requires drafted { IsDraft STATES stage (claim_of head.old entries.old.entries) }
    requires counted { number ≡ length (lines_so_far stage (claim_of head.old entries.old.entries)) + 1 }
    requires line { IsLineAt entries.old.text at line.now number }
    ensures drafted { IfOk result (λ next. IsDraft STATES next (claim_of head.new entries.new.entries)) }
    ensures added { IfOk result (λ next. text_so_far next (claim_of head.new entries.new.entries)
        ≡ text_so_far stage (claim_of head.old entries.old.entries) ++ line.now ∷ []) }
    ensures fault { IfErr result (IsLineFault STATES (text_so_far stage (claim_of head.old entries.old.entries) ++ line.now ∷ [])) }
    ensures text { entries.new.text ≡ entries.old.text }
    ensures short { OnOk result (length line.now ≤ 31) }
{
    let Some(read) = read_line(line) else {
        return Err(CertificateFault::BadLine(number));
    };
    if !may_come(head, entries, stage, read) {
        return Err(CertificateFault::BadLine(number));
    }
    add(head, entries, stage, read, number, at)
}

// Kept paths come before paths, and paths before states.
fn may_come<const STATES: usize>(
    head: &Head,
    entries: &Entries<'_, STATES>,
    stage: Stage,
    line: Line,
) -> bool
    ensures { IsTrue result ↔ MayCome stage (claim_of head.now entries.now.entries) line }
{
    match line {
        Line::Header(_) | Line::KeptHeader(_) => stage == Stage::Start,
        Line::Weight(_) => stage == Stage::Headed || stage == Stage::KeptHeaded,
        Line::KeepLine(_) => {
            stage == Stage::KeptWeighed || stage == Stage::Weighed && has_kept_alone(head, entries)
        }
        Line::PathLine(_) => stage == Stage::Weighed && entries.is_empty(),
        Line::StateLine(_) | Line::End => stage == Stage::Weighed,
    }
}

fn has_kept_alone<const STATES: usize>(head: &Head, entries: &Entries<'_, STATES>) -> bool
    ensures { IsTrue result ↔ HasKeptAlone (claim_of head.now entries.now.entries) }
{
    let (kept, plan) = (&head.kept, &head.plan);
    !kept.paths.is_empty() && plan.paths.is_empty() && entries.is_empty()
}

// Adds what the next line says.
fn add<const STATES: usize>(
    head: &mut Head,
    entries: &mut Entries<'_, STATES>,
    stage: Stage,
    line: Line,
    number: usize,
    at: usize,
) -> Result<Stage, CertificateFault>
    requires drafted { IsDraft STATES stage (claim_of head.old entries.old.entries) }
    requires in_turn { MayCome stage (claim_of head.old entries.old.entries) line }
    requires fits { IsLineInRange line }
    requires counted { number ≡ length (lines_so_far stage (claim_of head.old entries.old.entries)) + 1 }
    requires line { IsLineAt entries.old.text at (line_text line) number }
    ensures drafted { IfOk result (λ next. IsDraft STATES next (claim_of head.new entries.new.entries)) }
    ensures added { IfOk result (λ next. lines_so_far next (claim_of head.new entries.new.entries)
        ≡ lines_so_far stage (claim_of head.old entries.old.entries) ++ line ∷ []) }
    ensures fault { IfErr result (IsLineFault STATES (text_so_far stage (claim_of head.old entries.old.entries) ++ line_text line ∷ [])) }
    ensures text { entries.new.text ≡ entries.old.text }
{
    match line {
        Line::Header(paired) => Ok(headed(head, paired, Stage::Headed)),
        Line::KeptHeader(paired) => Ok(headed(head, paired, Stage::KeptHeaded)),
        Line::Weight(weight) => {
            head.weight = weight;
            Ok(weighed(stage))
        }
        Line::KeepLine(path) => {
            if !add_path(&mut head.kept, path) {
                return Err(CertificateFault::TooMany);
            }
            Ok(Stage::Weighed)
        }
        Line::PathLine(path) => {
            if !add_path(&mut head.plan, path) {
                return Err(CertificateFault::TooMany);
            }
            Ok(Stage::Weighed)
        }
        Line::StateLine(entry) => {
            if !entries.are_below(&entry) {
                return Err(CertificateFault::OutOfOrder(number));
            }
            if entries.is_full() {
                return Err(CertificateFault::TooMany);
            }
            entries.push_stated(entry, at);
            Ok(Stage::Weighed)
        }
        Line::End => Ok(Stage::Ended),
    }
}

// What a header leads to, which also says whether the certificate is for a module that pairs first lanes.
fn headed(head: &mut Head, paired: bool, next: Stage) -> Stage
    ensures marked { head.new ≡ record head.old { paired = paired } }
    ensures next { result ≡ next }
{
    head.paired = paired;
    next
}

// What a weight leads to.
fn weighed(stage: Stage) -> Stage
    ensures kept { stage ≡ stages.KeptHeaded → result ≡ stages.KeptWeighed }
    ensures others { stage ≢ stages.KeptHeaded → result ≡ stages.Weighed }
{
    match stage {
        Stage::KeptHeaded => Stage::KeptWeighed,
        _ => Stage::Weighed,
    }
}

fn add_path(plan: &mut Plan, path: Path) -> bool
    ensures pushed { OnTrue result (plan.new ≡ plan.old ++ path ∷ []) }
    ensures room { OnTrue result (length plan.new ≤ MAX_PATHS) }
    ensures full { OnFalse result (length plan.old ≡ MAX_PATHS) }
{
    plan.paths.try_push(path).is_ok()
}
