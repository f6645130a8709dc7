// The conversations at their beginning.
ghost use Rattle.std.specs.Prelude.{◌≡◌, ◌≤◌, ◌<◌, [], List};
ghost use Rattle.firmware_api.specs.declared.half.HalfBytes.{HalfBytes};
ghost use Rattle.firmware_api.specs.KeptConversations.{Bringing, Fetching, Turning};
ghost use Rattle.firmware_api.specs.Patiences.{doubts, given};
ghost use Rattle.firmware_api.specs.SavedConversations.{IsSavedAt};
ghost use Rattle.firmware_api.specs.SavedConversations as spec;

use super::numbers::{self, SavedConversation};
use crate::patience::Patience;
use arrayvec::ArrayVec;
use control_sets::{MAX_STEPS, Power, PowerChange, TaskList, Work};
use conversations::{InPieces, OnPage, Pausing, Within};
use module_reading::{Halves, Request};
use paged_memory::{KnownPage, SmallImage};

pub fn put_tasks(work: Work, patience: &Patience, conversation: &mut SavedConversation)
    ensures { (halves : List HalfBytes) → IsSavedAt (Bringing work (doubts patience.now) (doubts patience.now)) (given patience.now) [] conversation.new halves }
{
    let mut procedure = TaskList::watchful(work, patience.given());
    let careful = patience.doubts();
    procedure.conversation.conversation.conversation.doubts = careful;
    procedure.watches = careful;
    numbers::put_tasks(&procedure, conversation);
}

pub fn put_power(power: Power, patience: &Patience, conversation: &mut SavedConversation)
    ensures { (halves : List HalfBytes) → IsSavedAt (Turning power) (given patience.now) [] conversation.new halves }
{
    let change = PowerChange::patient(power, patience.given());
    numbers::put_power(&change, conversation);
}

/// Nothing was read of what is requested; a piece has so many bytes.
pub fn put_reading(
    request: Request,
    piece: u8,
    patience: &Patience,
    conversation: &mut SavedConversation,
)
    requires { 0 < piece }
    ensures begun { (halves : List HalfBytes) → IsSavedAt (Fetching request piece (doubts patience.now)) (given patience.now) [] conversation.new halves }
    ensures halves { conversation.new.halves ≡ 0 }
{
    let halves = Halves {
        request,
        image: SmallImage::new(),
        settled: 0,
    };
    let pieces = InPieces {
        conversation: OnPage {
            conversation: halves,
            selection: KnownPage::Unknown,
            taken: None,
            doubts: patience.doubts(),
        },
        piece,
        part: ArrayVec::new(),
    };
    let read = Within::new(Pausing::new(pieces, patience.given()), MAX_STEPS);
    numbers::put_reading(&read, 0, conversation);
}

pub fn piece_for(most: u8) -> u8
    requires { 8 ≤ most }
    ensures piece { result ≡ spec.piece_for most }
    ensures some { 0 < result }
{
    8 * (most.min(128) / 8)
}
