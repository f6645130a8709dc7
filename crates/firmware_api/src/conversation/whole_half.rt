// The half that a reply to a reading makes whole.
ghost use Rattle.std.specs.Prelude.{◌≡◌, ◌≤◌, IsTrue, length};
ghost use Rattle.std.specs.FinMap as map;
ghost use Rattle.conversations.specs.Wanted.{IsReplyTo};
ghost use Rattle.firmware_api.specs.Halves.{half_at, has_place, key_of};
ghost use Rattle.port_manager.specs.Jobs.{paged_halves};
ghost use Rattle.port_manager.specs.Patients.{after_on, wants_on};
ghost use Rattle.firmware_api.specs.KeptConversations.{next_of, pieces_after, pieces_want};
ghost use Rattle.firmware_api.specs.SavedConversations.{HasHalf};
ghost use Rattle.firmware_api.specs.WholeHalves.{HasFewHalves, IsHalfBy, kept};

use crate::half::HalfBytes;
use crate::kept::Kept;
use bus_model::{Dev, Reply};
use conversations::{InPieces, NeedsPages, OnPage};
use module_reading::Halves;
use paged_memory::{Half, Key, PAGE_LEN};

/// The half that the reply makes whole, if it does; none of a procedure.
pub fn half_by(kept: &Kept, reply: &Reply) -> Option<HalfBytes>
    requires few { HasFewHalves kept.now }
    requires reply { IsReplyTo (next_of kept.now) reply.now }
    ensures { IsHalfBy result kept.now reply.now }
{
    match kept {
        Kept::OfTasks(_) | Kept::OfPower(_) => None,
        Kept::OfReading(read) => half_in_hand(&read.conversation.conversation, reply),
    }
}

fn half_in_hand(pieces: &InPieces<OnPage<Halves>>, reply: &Reply) -> Option<HalfBytes>
    requires few { map.len pieces.now.conversation.conversation.image ≤ 5 }
    requires reply { IsReplyTo (pieces_want pieces.now) reply.now }
    ensures { HasHalf result pieces.now.conversation.conversation (pieces_after pieces.now reply.now).conversation.conversation }
{
    match pieces.whole_reply(reply) {
        Some(whole) => whole_half(&pieces.conversation, &whole),
        None => None,
    }
}

/// The half that the reply makes whole, which a reading gets from it, if it does.
pub fn whole_half(on_page: &OnPage<Halves>, reply: &Reply) -> Option<HalfBytes>
    requires few { map.len on_page.now.conversation.image ≤ 5 }
    requires reply { IsReplyTo (wants_on paged_halves on_page.now) reply.now }
    ensures { HasHalf result on_page.now.conversation (after_on paged_halves on_page.now reply.now).conversation }
{
    match reply {
        Reply::Bytes(bytes) => match kept(on_page, reply) {
            Some(key) => Some(half_at(key, bytes)),
            None => None,
        },
        Reply::Done => None,
        Reply::Refused => None,
    }
}

// The place of the half that the reply gives, unless it is one to the selection of a page.
fn kept(on_page: &OnPage<Halves>, reply: &Reply) -> Option<Key>
    ensures { result ≡ kept on_page.now reply.now }
{
    let halves = &on_page.conversation;
    let selects = on_page.selection.is_open() || on_page.selection.missing(halves.page()).is_some();
    match reply {
        Reply::Bytes(_) if !selects => halves.key(),
        _ => None,
    }
}

/// The half with these bytes.
pub fn half_at(key: Key, fetched: &[u8]) -> HalfBytes
    requires { length fetched.now ≡ 128 }
    ensures value { result ≡ half_at key fetched.now }
    ensures key { key_of result ≡ key }
    ensures bytes { result.bytes ≡ fetched.now }
    ensures place { IsTrue (has_place result) }
{
    let mut bytes = [0; PAGE_LEN];
    bytes.copy_from_slice(fetched);
    let device = match key.dev {
        Dev::A0 => 0xA0,
        Dev::A2 => 0xA2,
    };
    match key.half {
        Half::Lower => HalfBytes {
            device,
            upper: 0,
            bank: 0,
            page: 0,
            bytes,
        },
        Half::Upper => HalfBytes {
            device,
            upper: 1,
            bank: key.bank,
            page: key.page,
            bytes,
        },
    }
}
