ghost use Rattle.std.specs.Prelude.{◌≡◌, ◌<◌, replicate};
ghost use Rattle.plan_certificate.specs.Plans.{IsAdmissible};
ghost use Rattle.lane_planner.specs.CertifiedPlans.{IsCertified, claim_of};
ghost use Rattle.lane_planner.specs.Marks.{MarksReached, NothingMarked};
ghost use Rattle.lane_planner.specs.Tables.{HasGains, IsReadOff, entry_at, marked_entries};

use crate::choices::read_off;
use crate::gains::put_gains;
use crate::marks::Marks;
use crate::problem::Problem;
use crate::reached::reached;
use crate::table::Table;
use applications::{Advert, AppWeights};
use arrayvec::ArrayVec;
use plan_certificate::{Certificate, Entries, Entry, LARGE_POTENTIAL, Plan, STATES};

/// The first of the plans that weigh most, with what can still be gained from each state that decisions from the start reach.
#[derive(Drop)]
pub struct Solution {
    pub plan: Plan,
    pub gains: Table,
    /// Which states these are, by their places.
    pub marks: Marks,
}

impl Solution {
    /// Nothing is solved yet.
    pub fn blank() -> Self
        ensures gains { result.gains ≡ replicate STATES 0 }
        ensures marks { NothingMarked result.marks }
    {
        Solution {
            plan: Plan {
                paths: ArrayVec::new(),
            },
            gains: Table::blank(),
            marks: Marks::blank(),
        }
    }

    /// Solves a problem, in place, for a solution that is returned would be moved: firmware has little stack. What holds of the
    /// plan is said of the certificate that can be made of it.
    #[tactic(auto, using(crate::proofs::CertifiedPlans::certified))]
    pub fn solve(&mut self, problem: &Problem)
        requires kept { IsAdmissible problem.now.advert.now problem.now.kept.now }
        requires gains { self.old.gains ≡ replicate STATES 0 }
        requires marks { NothingMarked self.old.marks }
        ensures gains { HasGains problem.now.advert.now problem.now.weights.now problem.now.kept.now 0 self.new.gains }
        ensures read_off { IsReadOff problem.now.advert.now problem.now.weights.now problem.now.kept.now self.new.gains self.new.plan }
        ensures certified { IsCertified problem.now.advert.now problem.now.weights.now problem.now.kept.now (claim_of problem.now self.new) }
    {
        self.solve_for(problem.advert, problem.weights, problem.kept);
    }

    // The same, by the parts of the problem. Not inlined, and without the problem: where that is handed on, its parts would stand on the
    // stack twice.
    #[inline(never)]
    fn solve_for(&mut self, advert: &Advert, weights: &AppWeights, kept: &Plan)
        requires kept { IsAdmissible advert.now kept.now }
        requires gains { self.old.gains ≡ replicate STATES 0 }
        requires marks { NothingMarked self.old.marks }
        ensures marks { MarksReached advert.now weights.now kept.now self.new.marks }
        ensures gains { HasGains advert.now weights.now kept.now 0 self.new.gains }
        ensures read_off { IsReadOff advert.now weights.now kept.now self.new.gains self.new.plan }
    {
        let kept = kept.paths.as_slice();
        reached(advert, weights, kept, &mut self.marks);
        put_gains(advert, weights, kept, &self.marks, &mut self.gains);
        self.plan = read_off(advert, weights, kept, &self.gains);
    }

    /// The certificate of the plan.
    #[tactic(auto, using(crate::proofs::ReachedEntries::are_marked))]
    pub fn certificate(&self, problem: &Problem) -> Certificate<'static, STATES>
        ensures { result ≡ claim_of problem.now self.now }
    {
        Certificate {
            paired: problem.advert.is_paired(),
            weight: self.gains.at(0),
            kept: copy_of(problem.kept),
            plan: copy_of(&self.plan),
            entries: entries_of(&self.marks, &self.gains),
        }
    }
}

// The entries of the marked states.
#[tactic(auto, using(crate::proofs::ReachedEntries::no_more, crate::proofs::ReachedEntries::are_marked))]
fn entries_of(marks: &Marks, table: &Table) -> Entries<'static, STATES>
    ensures { result.entries ≡ marked_entries marks.now table.now STATES }
{
    let mut entries = Entries::new();
    let mut from = 0;
    while let Some(place) = marks.first(from, STATES) {
        entries.push(entry_at(table, place));
        from = place + 1;
    }
    entries
}

/// The entry of the state at a place.
pub fn entry_at(table: &Table, place: usize) -> Entry
    requires { place < STATES }
    ensures entry { result ≡ entry_at table.now place }
    ensures small { result.potential < LARGE_POTENTIAL }
{
    Entry {
        boundary: (place / 256) as u8,
        used: (place % 256) as u8,
        potential: table.at(place),
    }
}

fn copy_of(plan: &Plan) -> Plan
    ensures { result ≡ plan.now }
{
    Plan {
        paths: ArrayVec::try_from(plan.paths.as_slice()).unwrap(),
    }
}
