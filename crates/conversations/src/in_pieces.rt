ghost use Rattle.std.specs.Prelude.{◌≡◌, ◌+◌, ◌<◌, ◌≤◌, ◌++◌, IfSome, IsTrue, length};
ghost use Rattle.bus_model.specs.Operations.{IsWellShaped};
ghost use Rattle.conversations.specs.Pieces as spec;
ghost use Rattle.conversations.specs.Wanted.{IsReplyTo};

use crate::conversation::Conversation;
use crate::next::{Next, op_in};
use crate::pausing::{is_refused, is_same_fetch};
use arrayvec::ArrayVec;
use bus_model::{Op, Reply};
use paged_memory::PAGE_LEN;

/// A conversation over a bus that carries few bytes at once: where it fetches a whole half, that comes in pieces.
#[derive(Drop)]
pub struct InPieces<C> {
    pub conversation: C,
    /// How many bytes a piece has; the last one of a half may have fewer.
    pub piece: u8,
    /// The first bytes of the half that is asked for, as far as its pieces were read.
    pub part: ArrayVec<u8, PAGE_LEN>,
}

impl<C: Conversation> Conversation for InPieces<C>
where
    C::End: Drop,
{
    ghost use Rattle.conversations.specs.Pieces.{InHalves, InHalvesSoFar, IsInPieces, after_piece, next_piece};

    type Topic = C::Topic;

    type End = C::End;

    ghost topic = { λ pieces. C.topic pieces.conversation };

    ghost wants = { λ pieces. next_piece pieces.piece pieces.part.items (C.wants pieces.conversation) };

    ghost after = { λ pieces reply. after_piece (λ c. C.wants c) (λ c r. C.after c r) pieces reply };

    ghost told = { λ events pieces. IsInPieces (λ own. C.told own pieces.conversation) (C.wants pieces.conversation) pieces.piece pieces.part.items events };

    ghost ends = { λ topic events end. InHalves (λ own. C.ends topic own end) events };

    ghost goes_on = { λ topic events. InHalvesSoFar (λ own. C.goes_on topic own) events };

    fn next(&self) -> Next<C::End> {
        match self.conversation.next() {
            Next::Do(op) => Next::Do(piece_of(self.piece, &self.part, op)),
            next => next,
        }
    }

    fn take(&mut self, reply: &Reply) {
        let wanted = self.wanted();
        match self.whole_reply(reply) {
            Some(whole) => {
                self.conversation.take(&whole);
                self.leave(&wanted, is_refused(reply));
            }
            None => self.add(reply),
        }
    }

    fn waited(&mut self) {
        self.conversation.waited();
    }

    fn asked(&mut self, number: u32) {
        let wanted = self.wanted();
        self.conversation.asked(number);
        self.leave(&wanted, true);
    }
}

impl<C: Conversation> InPieces<C>
where
    C::End: Drop,
{
    ghost use Rattle.std.specs.Prelude.{◌≡◌, ◌+◌, ◌≤◌, ◌++◌, ◌&&◌, IfSome, None, if◌then◌else◌, length, []};
    ghost use Rattle.conversations.specs.Pieces.{bytes_in, is_same_wanted, next_piece, whole_reply};
    ghost use Rattle.conversations.specs.Wanted.{IsReplyTo, op_of};

    fn wanted(&self) -> Option<Op>
        ensures { result ≡ op_of (C.wants self.now.conversation) }
    {
        op_in(self.conversation.next())
    }

    /// What the conversation within is told by the reply: a whole half by its last piece, nothing by an earlier one, and else the reply
    /// itself.
    pub fn whole_reply(&self, reply: &Reply) -> Option<Reply>
        requires { IsReplyTo (next_piece self.now.piece self.now.part.items (C.wants self.now.conversation)) reply.now }
        ensures value { result ≡ whole_reply self.now.piece self.now.part.items (C.wants self.now.conversation) reply.now }
        ensures answers { IfSome result (λ whole. IsReplyTo (C.wants self.now.conversation) whole) }
        ensures room { result ≡ None → length self.now.part.items + length (bytes_in reply.now) ≤ 128 }
    {
        whole_reply(self.piece, &self.part, &self.conversation.next(), reply)
    }

    // Nothing of a part is left, unless it may be and its half, which was wanted before, is wanted still.
    fn leave(&mut self, before: &Option<Op>, may: bool)
        ensures { self.new ≡ record {
          conversation = self.old.conversation;
          piece = self.old.piece;
          part = record { items = if may && is_same_wanted before.now (op_of (C.wants self.old.conversation)) then self.old.part.items else [] };
        } }
    {
        if !(may && is_same_wanted(before, &self.wanted())) {
            self.part.clear();
        }
    }

    fn add(&mut self, reply: &Reply)
        requires { length self.old.part.items + length (bytes_in reply.now) ≤ 128 }
        ensures { self.new ≡ record {
          conversation = self.old.conversation;
          piece = self.old.piece;
          part = record { items = self.old.part.items ++ bytes_in reply.now };
        } }
    {
        if let Reply::Bytes(bytes) = reply {
            self.part.try_extend_from_slice(bytes).unwrap();
        }
    }
}

// Whether it is a part of a half, and pieces have bytes.
fn fits(piece: u8, part: &[u8]) -> bool
    ensures { result ≡ spec.fits piece part.now }
{
    piece > 0 && part.len() < PAGE_LEN
}

#[tactic(auto, using(crate::proofs::InPiecesLaws::shape))]
fn piece_of(piece: u8, part: &[u8], op: Op) -> Op
    requires { IsWellShaped op }
    ensures value { result ≡ spec.piece_of piece part.now op }
    ensures shape { IsWellShaped result }
{
    match op {
        Op::Fetch {
            dev,
            offset,
            count: 128,
        } if fits(piece, part) => {
            let read = part.len() as u8;
            Op::Fetch {
                dev,
                offset: offset + read,
                count: piece.min(128 - read),
            }
        }
        op => op,
    }
}

fn is_half<E>(asked: &Next<E>) -> bool
    ensures { result ≡ spec.is_half_in asked.now }
{
    matches!(asked, Next::Do(Op::Fetch { count: 128, .. }))
}

fn whole_reply<E>(piece: u8, part: &[u8], asked: &Next<E>, reply: &Reply) -> Option<Reply>
    requires { IsReplyTo (spec.next_piece piece part.now asked.now) reply.now }
    ensures value { result ≡ spec.whole_reply piece part.now asked.now reply.now }
    ensures answers { IfSome result (λ whole. IsReplyTo asked.now whole) }
{
    match reply {
        Reply::Bytes(bytes) if fits(piece, part) && is_half(asked) => half_with(part, bytes),
        Reply::Bytes(bytes) => Some(Reply::Bytes(copy_of(bytes))),
        Reply::Done => Some(Reply::Done),
        Reply::Refused => Some(Reply::Refused),
    }
}

fn half_with(part: &[u8], bytes: &[u8]) -> Option<Reply>
    requires { length part.now + length bytes.now ≤ 128 }
    ensures { result ≡ spec.half_of (part.now ++ bytes.now) }
{
    let mut half = copy_of(part);
    half.try_extend_from_slice(bytes).unwrap();
    half.is_full().then_some(Reply::Bytes(half))
}

fn copy_of(bytes: &[u8]) -> ArrayVec<u8, PAGE_LEN>
    requires { length bytes.now ≤ 128 }
    ensures { result.items ≡ bytes.now }
{
    ArrayVec::try_from(bytes).unwrap()
}

fn is_same_wanted(before: &Option<Op>, next: &Option<Op>) -> bool
    ensures { result ≡ spec.is_same_wanted before.now next.now }
{
    match (before, next) {
        (Some(op), Some(next)) => is_same_fetch(op, next),
        _ => false,
    }
}
