//! What holds of readings over any bus, also of those that doubt the page selection after a refusal. Each function is a theorem: its
//! contract says it, and its body is empty.

ghost use Rattle.std.specs.Prelude.{◌≡◌, ◌<◌, ℕ, Bool, []};
ghost use Rattle.control_sets.specs.OutcomeAnswers.{most_steps};
ghost use Rattle.conversations.specs.declared.in_pieces.InPieces.{InPieces};
ghost use Rattle.conversations.specs.Events.{Events, steps_of};
ghost use Rattle.conversations.specs.Pauses.{AreSpaced};
ghost use Rattle.conversations.specs.Pieces.{InHalvesSoFar};
ghost use Rattle.module_reading.specs.declared.request.Request.{Request};
ghost use Rattle.module_reading.specs.ImageReading.{PatientReading, Reading, begun_by};
ghost use Rattle.module_reading.specs.ReadingRuns.{HasOutcome, HasPatientOutcome};

use crate::halves::{PatientReading, Reading};
use conversations::{Conversation, InPieces};

/// A reading that was told the reply to each operation that it asked for: if it is complete, those steps give its image; if it
/// gives up, they give none.
pub fn readings_have_their_outcomes()
    ensures begun { (doubts : Bool) (request : Request) → ⟦<Reading as Conversation>⟧.told [] (begun_by doubts request) }
    ensures outcomes { (events : Events) (reading : Reading) → ⟦<Reading as Conversation>⟧.told events reading →
        reading.limit ≡ most_steps → HasOutcome reading.conversation.doubts (steps_of events) reading.conversation.conversation }
{}

/// A reading in pieces that was told the reply to each operation that it asked for: joined, those steps are what a reading of whole
/// halves was told, which has the same halves and asks for the same.
pub fn pieces_have_their_outcomes()
    ensures begun { (doubts : Bool) (request : Request) (piece : ℕ) → 0 < piece →
        ⟦<InPieces<Reading> as Conversation>⟧.told [] (record { conversation = begun_by doubts request; piece = piece; part = record { items = [] } }) }
    ensures outcomes { (events : Events) (pieces : InPieces Reading) → ⟦<InPieces<Reading> as Conversation>⟧.told events pieces →
        pieces.conversation.limit ≡ most_steps →
        InHalvesSoFar (λ own. HasOutcome pieces.conversation.conversation.doubts (steps_of own) pieces.conversation.conversation.conversation) events }
{}

/// A reading with pauses and in pieces that was told what came of all that it asked for: its steps, joined, are what a reading of whole
/// halves was told, which has the same halves.
pub fn patient_readings_have_their_outcomes()
    ensures { (events : Events) (reading : PatientReading) → ⟦<PatientReading as Conversation>⟧.told events reading → reading.limit ≡ most_steps →
        HasPatientOutcome reading.conversation.conversation.conversation.doubts events reading.conversation.conversation.conversation.conversation }
{}

/// Whatever a bus answers to such a reading: between a fruitless transaction and the next one there is a wait, and no wait is shorter than
/// the pause.
pub fn readings_pause()
    ensures { (events : Events) (reading : PatientReading) → ⟦<PatientReading as Conversation>⟧.told events reading →
        AreSpaced reading.conversation.patience.pause events }
{}
