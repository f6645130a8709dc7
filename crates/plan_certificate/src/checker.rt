ghost use Rattle.std.specs.Prelude.{◌≡◌, ◌↔◌, ◌<◌, ◌≤◌, ◌+◌, All, IsTrue, is_some};
ghost use Rattle.field_tables.specs.FirstFault.{first_fault};
ghost use Rattle.plan_certificate.specs.Plans.{AreAllowed, IsBest};
ghost use Rattle.plan_certificate.specs.FollowedMoves.{IsFollowed};
ghost use Rattle.plan_certificate.specs.Moves.{LeadsOn, decisions_by};
ghost use Rattle.plan_certificate.specs.Certificates.{IsGood, state_of};
ghost use Rattle.plan_certificate.specs.Verdicts as spec;

use crate::certificate::{Certificate, Entries, Entry};
use crate::flaws::paths_flaw;
use crate::kept::may_stay_free;
use crate::moves::{Move, put_moves};
use crate::path::Path;
use crate::plan::{Plan, weight_of};
use crate::retained::Moves;
use crate::state::{Decision, HOST_LANES, State};
use crate::verdict::{Flaw, Reason, Verdict};
use applications::{Advert, AppWeights};

/// Judges a certificate, whoever made it. A bad one says nothing of its plan, which may be best all the same.
pub fn check<const STATES: usize>(
    advert: &Advert,
    weights: &AppWeights,
    certificate: &Certificate<'_, STATES>,
) -> Verdict
    ensures verdict { result ≡ spec.verdict advert.now weights.now certificate.now }
    ensures good { (result ≡ Verdict.Good) ↔ IsGood advert.now weights.now certificate.now }
    ensures best { result ≡ Verdict.Good → IsBest advert.now weights.now certificate.now.kept certificate.now.paths }
{
    match flaw(
        advert,
        weights,
        certificate.paired,
        certificate.weight,
        &certificate.kept,
        &certificate.plan,
        &certificate.entries,
    ) {
        None => Verdict::Good,
        Some(flaw) => Verdict::Bad(flaw.reason, flaw.number),
    }
}

fn flaw<const ROOM: usize>(
    advert: &Advert,
    weights: &AppWeights,
    paired: bool,
    weight: u64,
    kept: &Plan,
    plan: &Plan,
    entries: &Entries<'_, ROOM>,
) -> Option<Flaw>
    ensures { result ≡ first_fault (spec.all_flaws advert.now weights.now (record { paired = paired; weight = weight; kept = kept.now; paths = plan.now; entries = entries.now.entries })) }
{
    if paired != advert.is_paired() {
        return Some(Flaw {
            reason: Reason::PairingDiffers,
            number: 0,
        });
    }
    let (kept, paths) = (kept.paths.as_slice(), plan.paths.as_slice());
    if let Some(flaw) = paths_flaw(advert, kept, paths) {
        return Some(flaw);
    }
    if weight != weight_of(weights, plan) {
        return Some(Flaw {
            reason: Reason::WeightWrong,
            number: 0,
        });
    }
    bound_flaw(advert, weights, kept, entries, weight)
}

// What is wrong with the entries, as bounds on what can be gained.
fn bound_flaw<const ROOM: usize>(
    advert: &Advert,
    weights: &AppWeights,
    kept: &[Path],
    entries: &Entries<'_, ROOM>,
    weight: u64,
) -> Option<Flaw>
    requires { AreAllowed advert.now kept.now }
    ensures { result ≡ first_fault (spec.bound_flaws advert.now weights.now kept.now entries.now.entries weight) }
{
    let Some(start) = entries.potential_of(State::start()) else {
        return Some(Flaw {
            reason: Reason::NoStart,
            number: 0,
        });
    };
    if let Some(flaw) = entries_flaw(advert, weights, kept, entries) {
        return Some(flaw);
    }
    if start != weight {
        return Some(Flaw {
            reason: Reason::StartNotWeight,
            number: 0,
        });
    }
    None
}

fn entries_flaw<const ROOM: usize>(
    advert: &Advert,
    weights: &AppWeights,
    kept: &[Path],
    entries: &Entries<'_, ROOM>,
) -> Option<Flaw>
    requires { AreAllowed advert.now kept.now }
    ensures { result ≡ first_fault (spec.entries_flaws advert.now weights.now kept.now entries.now.entries) }
{
    let mut moves = Moves::none();
    moves.list(advert, weights, kept, 0);
    let (mut number, mut from) = (0, 0);
    while let Some(entry) = entries.first_from(from) {
        number += 1;
        if has_flaw(advert, weights, kept, &mut moves, entries, number, &entry) {
            return entry_flaw(advert, weights, kept, &mut moves, entries, number, &entry);
        }
        from = entry.place() + 1;
    }
    None
}

// Where the decisions of the heaviest moves have no flaw, none has.
fn has_flaw<const ROOM: usize>(
    advert: &Advert,
    weights: &AppWeights,
    kept: &[Path],
    moves: &mut Moves,
    entries: &Entries<'_, ROOM>,
    number: usize,
    entry: &Entry,
) -> bool
    requires open { moves.old.boundary < 8 }
    requires kept { AreAllowed advert.now kept.now }
    requires moves { IsFollowed advert.now weights.now kept.now moves.old }
    ensures flaw { result ≡ is_some (first_fault (spec.entry_flaws advert.now weights.now kept.now entries.now.entries (number, entry.now))) }
    ensures started { IsTrue result → entry.now.boundary < 8 }
    ensures open { moves.new.boundary < 8 }
    ensures moves { IsFollowed advert.now weights.now kept.now moves.new }
{
    if entry.boundary >= HOST_LANES {
        return false;
    }
    moves.turn_to(advert, weights, kept, entry.boundary);
    let followed = &moves.followed;
    let heaviest = followed.moves.as_slice();
    decisions_flaw(followed.may_stay_free, heaviest, entries, number, entry).is_some()
}

// The first flaw of an entry, by all moves, which are listed in the place of the heaviest.
fn entry_flaw<const ROOM: usize>(
    advert: &Advert,
    weights: &AppWeights,
    kept: &[Path],
    moves: &mut Moves,
    entries: &Entries<'_, ROOM>,
    number: usize,
    entry: &Entry,
) -> Option<Flaw>
    requires started { entry.now.boundary < 8 }
    requires kept { AreAllowed advert.now kept.now }
    ensures { result ≡ first_fault (spec.entry_flaws advert.now weights.now kept.now entries.now.entries (number, entry.now)) }
{
    let all = &mut moves.followed.moves;
    put_moves(all, advert, weights, kept, entry.boundary + 1);
    let free = may_stay_free(advert, kept, entry.boundary + 1);
    decisions_flaw(free, all.as_slice(), entries, number, entry)
}

// The first flaw of the free lane's decision, if it may stay free, and those of moves.
fn decisions_flaw<const ROOM: usize>(
    may_stay_free: bool,
    moves: &[Move],
    entries: &Entries<'_, ROOM>,
    number: usize,
    entry: &Entry,
) -> Option<Flaw>
    requires open { entry.now.boundary < 8 }
    requires lead_on { All (LeadsOn entry.now.boundary) moves.now }
    ensures { result ≡ first_fault (spec.decisions_flaws entries.now.entries (number, entry.now) (decisions_by may_stay_free (state_of entry.now) moves.now)) }
{
    let state = entry.state();
    if may_stay_free {
        let free = state.free_decision();
        if let Some(flaw) = decision_flaw(entries, number, entry, &free) {
            return Some(flaw);
        }
    }
    for one in moves {
        if one.is_open(&state) {
            let decision = one.decision(&state);
            if let Some(flaw) = decision_flaw(entries, number, entry, &decision) {
                return Some(flaw);
            }
        }
    }
    None
}

fn decision_flaw<const ROOM: usize>(
    entries: &Entries<'_, ROOM>,
    number: usize,
    entry: &Entry,
    decision: &Decision,
) -> Option<Flaw>
    ensures { result ≡ first_fault (spec.decision_flaws entries.now.entries (number, entry.now) decision.now) }
{
    let Some(later) = entries.potential_of(decision.end) else {
        return Some(Flaw {
            reason: Reason::NotClosed,
            number,
        });
    };
    if u128::from(entry.potential) < u128::from(decision.weight) + u128::from(later) {
        return Some(Flaw {
            reason: Reason::TooLow,
            number,
        });
    }
    None
}
