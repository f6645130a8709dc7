// Of moves on the same lanes one that weighs most.
ghost use Rattle.std.specs.Prelude.{◌≡◌, ◌≤◌, ◌<◌, ◌+◌, ◌++◌, ◌⊎◌, [], List, length, false, All, Contains, IfSome};
ghost use Rattle.std.specs.List.{HoldsAt};
ghost use Rattle.plan_certificate.specs.declared.moves.Move.{Move};
ghost use Rattle.plan_certificate.specs.Plans.{AreAllowed};
ghost use Rattle.plan_certificate.specs.Moves.{AreHeaviest, AreMoves, HasLanesOf, IsOutweighed, moves_at};
ghost use Rattle.plan_certificate.specs.FollowedMoves.{IsFollowed};

use crate::kept::may_stay_free;
use crate::moves::{MAX_MOVES, Move, push_moves};
use crate::path::Path;
use applications::{Advert, AppWeights};
use arrayvec::ArrayVec;

/// What a plan needs of the host lane after a boundary. There is no room for moves that others outweigh, for firmware has
/// little stack.
#[derive(Debug, Drop)]
pub struct FollowedMoves {
    /// Whether the lane may stay free: no kept path has it.
    pub may_stay_free: bool,
    /// Of the moves on the same lanes one that weighs most.
    pub moves: ArrayVec<Move, MAX_MOVES>,
}

impl FollowedMoves {
    /// No moves, for others to be listed in their place.
    pub fn none() -> Self
        ensures { result ≡ record { may_stay_free = false; moves = record { items = [] } } }
    {
        FollowedMoves {
            may_stay_free: false,
            moves: ArrayVec::new(),
        }
    }

    /// Lists those at the host lane after a boundary, in the place of others.
    #[inline(never)]
    pub fn list(&mut self, advert: &Advert, weights: &AppWeights, kept: &[Path], boundary: u8)
        requires boundary { boundary < 8 }
        requires kept { AreAllowed advert.now kept.now }
        ensures { AreMoves advert.now weights.now kept.now boundary self.new.may_stay_free (moves_at advert.now weights.now kept.now (boundary + 1)) self.new.moves.items }
    {
        let _bound = weights.bound();
        self.may_stay_free = may_stay_free(advert, kept, boundary + 1);
        put_heaviest_at(&mut self.moves, advert, weights, kept, boundary + 1);
    }
}

/// The same, and of which boundary they are.
#[derive(Debug, Drop)]
pub struct Moves {
    pub boundary: u8,
    pub followed: FollowedMoves,
}

impl Moves {
    /// No moves, for others to be listed in their place, since what a call returns is moved: firmware has little stack.
    pub fn none() -> Self
        ensures { result ≡ record { boundary = 0; followed = record { may_stay_free = false; moves = record { items = [] } } } }
    {
        Moves {
            boundary: 0,
            followed: FollowedMoves::none(),
        }
    }

    /// Lists those at the host lane after a boundary, in the place of others.
    pub fn list(&mut self, advert: &Advert, weights: &AppWeights, kept: &[Path], boundary: u8)
        requires boundary { boundary < 8 }
        requires kept { AreAllowed advert.now kept.now }
        ensures boundary { self.new.boundary ≡ boundary }
        ensures moves { IsFollowed advert.now weights.now kept.now self.new }
    {
        self.boundary = boundary;
        self.followed.list(advert, weights, kept, boundary);
    }

    /// Turns to the host lane after another boundary.
    pub fn turn_to(&mut self, advert: &Advert, weights: &AppWeights, kept: &[Path], boundary: u8)
        requires boundary { boundary < 8 }
        requires kept { AreAllowed advert.now kept.now }
        requires moves { IsFollowed advert.now weights.now kept.now self.old }
        ensures boundary { self.new.boundary ≡ boundary }
        ensures moves { IsFollowed advert.now weights.now kept.now self.new }
    {
        if self.boundary != boundary {
            self.list(advert, weights, kept, boundary);
        }
    }
}

// Puts those from a host lane on in the place of others, from the moves of one Application after another.
fn put_heaviest_at(
    heaviest: &mut ArrayVec<Move, MAX_MOVES>,
    advert: &Advert,
    weights: &AppWeights,
    kept: &[Path],
    host: u8,
)
    requires { AreAllowed advert.now kept.now }
    ensures { AreHeaviest (moves_at advert.now weights.now kept.now host) heaviest.new.items }
{
    heaviest.clear();
    for app in advert.apps() {
        let mut moves = ArrayVec::<Move, 8>::new();
        push_moves(&mut moves, advert, weights, kept, host, app.number);
        retain_all(heaviest, moves.as_slice());
    }
}

// Adds those of these moves that none on the same lanes outweighs, and leaves out the ones that they outweigh.
fn retain_all(retained: &mut ArrayVec<Move, MAX_MOVES>, moves: &[Move])
    requires { length retained.old.items + length moves.now ≤ MAX_MOVES }
    ensures heaviest { (before : List Move) → AreHeaviest before retained.old.items → AreHeaviest (before ++ moves.now) retained.new.items }
    ensures few { length retained.new.items ≤ length retained.old.items + length moves.now }
{
    for one in moves {
        retain(retained, one);
    }
}

// Adds a move, or puts it in the place of a lighter one on its lanes.
fn retain(retained: &mut ArrayVec<Move, MAX_MOVES>, new: &Move)
    requires { length retained.old.items < MAX_MOVES }
    ensures among { All (λ one. Contains retained.old.items one ⊎ (one ≡ new.now)) retained.new.items }
    ensures outweighed { All (IsOutweighed retained.new.items) retained.old.items }
    ensures added { IsOutweighed retained.new.items new.now }
    ensures few { length retained.new.items ≤ length retained.old.items + 1 }
{
    match place_on_lanes_of(retained.as_slice(), new) {
        Some(place) => replace_lighter(retained.as_mut_slice(), place, new),
        None => retained.push(*new),
    }
}

fn replace_lighter(retained: &mut [Move], place: usize, new: &Move)
    requires place { place < length retained.old }
    requires lanes { HoldsAt (HasLanesOf new.now) retained.old place }
    ensures among { All (λ one. Contains retained.old one ⊎ (one ≡ new.now)) retained.new }
    ensures outweighed { All (IsOutweighed retained.new) retained.old }
    ensures added { IsOutweighed retained.new new.now }
{
    let old = retained[place];
    if old.weight < new.weight {
        retained[place] = *new;
    }
}

// Where a move on the same lanes stands.
fn place_on_lanes_of(moves: &[Move], new: &Move) -> Option<usize>
    ensures { IfSome result (λ place. place < length moves.now × HoldsAt (HasLanesOf new.now) moves.now place) }
{
    for (place, one) in moves.iter().enumerate() {
        let (lanes, others) = (one.media_lanes.byte(), new.media_lanes.byte());
        if one.host_lanes == new.host_lanes && lanes == others {
            return Some(place);
        }
    }
    None
}
