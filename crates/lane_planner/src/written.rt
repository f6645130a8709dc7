// The text of the certificate of the plan, without the certificate.
ghost use Rattle.std.specs.Prelude.{◌≡◌, ◌+◌, ◌*◌, ◌≤◌, ◌++◌, List, ℕ, IfOk, drop, length, map, take};
ghost use Rattle.std.specs.List.{AllByRecursion};
ghost use Rattle.text_lines.specs.Lines.{text_of};
ghost use Rattle.plan_certificate.specs.declared.line.Line.TheVariants.{StateLine};
ghost use Rattle.plan_certificate.specs.Plans.{IsAdmissible};
ghost use Rattle.plan_certificate.specs.CertificateText.{IsEntryInRange, line_text};
ghost use Rattle.lane_planner.specs.Buffers.{Puts, buffer_with};
ghost use Rattle.lane_planner.specs.CertifiedPlans.{IsPlanText, IsReadBack, claim_text};
ghost use Rattle.lane_planner.specs.Tables.{marked_entries};

use crate::marks::Marks;
use crate::problem::Problem;
use crate::solution::{Solution, entry_at};
use crate::table::Table;
use applications::{Advert, AppWeights};
use plan_certificate::{ENTRY_LINE, HEAD, Plan, STATES, end_line, entry_line, head_of};
use std::alloc::{AllocError, Global};

/// No text of a certificate is longer.
const MOST_TEXT: usize = HEAD + ENTRY_LINE * STATES + 4;

/// The text of the certificate that `plan_keeping` gives. It has no room for the certificate, which is large.
pub fn certificate_text(
    alloc: Global,
    advert: &Advert,
    weights: &AppWeights,
    kept: &Plan,
) -> Result<Vec<u8>, AllocError>
    requires { IsAdmissible advert.now kept.now }
    ensures { IfOk result (λ text. IsPlanText advert.now weights.now kept.now text.items) }
{
    let problem = Problem {
        advert,
        weights,
        kept,
    };
    let mut solution = Solution::blank();
    solution.solve(&problem);
    solution.text(alloc, &problem)
}

/// Puts that text into a buffer that has room for it, and answers how many bytes it has.
pub fn put_certificate(
    buffer: &mut [u8],
    advert: &Advert,
    weights: &AppWeights,
    kept: &Plan,
) -> usize
    requires { IsAdmissible advert.now kept.now }
    ensures put { (text : List ℕ) × IsPlanText advert.now weights.now kept.now text
        × (result ≡ length text) × (buffer.new ≡ buffer_with buffer.old text) }
    ensures small { result ≤ 74046 }
{
    let problem = Problem {
        advert,
        weights,
        kept,
    };
    let mut solution = Solution::blank();
    solution.solve(&problem);
    solution.put_text(&problem, buffer)
}

impl Solution {
    /// The text of the certificate that `certificate` gives, without that, which is large.
    pub fn text(&self, alloc: Global, problem: &Problem) -> Result<Vec<u8>, AllocError>
        ensures { IfOk result (λ text. (text.items ≡ claim_text problem.now self.now) × IsReadBack problem.now self.now) }
    {
        let mut text = Vec::from_elem(alloc, 0, MOST_TEXT)?;
        let len = put_at_front(text.as_mut_slice(), problem, self);
        text.truncate(len);
        Ok(text)
    }

    /// Puts that text into a buffer that has room for it, and answers how many bytes it has.
    pub fn put_text(&self, problem: &Problem, buffer: &mut [u8]) -> usize
        ensures read_back { IsReadBack problem.now self.now }
        ensures len { result ≡ length (claim_text problem.now self.now) }
        ensures put { buffer.new ≡ buffer_with buffer.old (claim_text problem.now self.now) }
        ensures small { result ≤ 74046 }
    {
        if buffer.len() < MOST_TEXT {
            let mut nothing = [0; 0];
            let len = put_at_front(&mut nothing, problem, self);
            if buffer.len() < len {
                return len;
            }
        }
        put_at_front(buffer, problem, self)
    }
}

// Puts the text at the front of a buffer; if this has no room for it, nobody is to look at the buffer again.
fn put_at_front(buffer: &mut [u8], problem: &Problem, solution: &Solution) -> usize
    ensures read_back { IsReadBack problem.now solution.now }
    ensures put { Puts (claim_text problem.now solution.now) buffer.old 0 buffer.new result }
    ensures small { result ≤ 74046 }
{
    let mut len = 0;
    let weight = solution.gains.at(0);
    let head = head_of(
        problem.advert.is_paired(),
        weight,
        problem.kept,
        &solution.plan,
    );
    put(buffer, &mut len, head.as_slice());
    put_entries(buffer, &mut len, &solution.marks, &solution.gains);
    put(buffer, &mut len, &end_line());
    len
}

// Puts the lines of the marked states.
fn put_entries(buffer: &mut [u8], len: &mut usize, marks: &Marks, table: &Table)
    requires few { len.old ≤ 314 }
    ensures put { Puts (text_of (map line_text (map (λ entry. StateLine entry) (marked_entries marks.now table.now STATES))))
        buffer.old len.old buffer.new len.new }
    ensures each { AllByRecursion IsEntryInRange (marked_entries marks.now table.now STATES) }
    ensures small { len.new ≤ len.old + 32 * STATES }
{
    let mut from = 0;
    while let Some(place) = marks.first(from, STATES) {
        let line = entry_line(entry_at(table, place));
        put(buffer, len, line.as_slice());
        from = place + 1;
    }
}

// Puts a piece after so many bytes, if there is room for it, and counts its bytes in any case.
fn put(buffer: &mut [u8], len: &mut usize, piece: &[u8])
    requires { len.old + length piece.now ≤ 80000 }
    ensures counted { len.new ≡ len.old + length piece.now }
    ensures size { length buffer.new ≡ length buffer.old }
    ensures put { len.new ≤ length buffer.old → buffer.new ≡ take len.old buffer.old ++ (piece.now ++ drop len.new buffer.old) }
{
    let end = *len + piece.len();
    if end <= buffer.len() {
        buffer[*len..end].copy_from_slice(piece);
    }
    *len = end;
}
