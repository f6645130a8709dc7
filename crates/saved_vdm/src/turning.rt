//! The beginning of a reading of statistics, and one turn of it, from its numbers to its numbers.
ghost use Rattle.std.specs.Prelude.{◌≡◌, ◌≤◌, ◌+◌, Some};
ghost use Rattle.std.specs.FinMap as map;
ghost use Rattle.conversations.specs.Wanted.{IsReplyTo};
ghost use Rattle.saved_vdm.specs.SavedReadings.{reading_in};
ghost use Rattle.saved_vdm.specs.VdmTurns as spec;
ghost use Rattle.vdm_reading.specs.VdmStages.{after, begun, rested, wants};

use crate::numbers::SavedVdm;
use crate::saving::save;
use bus_model::Reply;
use conversations::Conversation;
use vdm_reading::{VdmReading, VdmRequest, VdmStage};

/// The numbers of a reading that has made nothing yet.
pub fn begin(request: VdmRequest) -> SavedVdm
    ensures begun { reading_in result map.empty ≡ Some (begun request) }
    ensures halves { result.halves ≡ 0 }
{
    save(&VdmReading::begin(request), 0)
}

/// The number of the page whose half the reply gives, if it gives one.
pub fn page_given(reading: &VdmReading, reply: &Reply) -> Option<u16>
    ensures { result ≡ spec.page_given reading.now reply.now }
{
    let selects = reading.selection.is_open()
        || reading
            .selection
            .missing(Some(reading.current_page()))
            .is_some();
    match reply {
        Reply::Bytes(_) if !selects => page_read(reading),
        _ => None,
    }
}

fn page_read(reading: &VdmReading) -> Option<u16>
    ensures { result ≡ spec.page_read reading.now.request.bank reading.now.stage }
{
    match reading.stage {
        VdmStage::Advertised | VdmStage::Groups | VdmStage::Page(_) => Some(reading.current_page()),
        VdmStage::Freeze
        | VdmStage::Freezing
        | VdmStage::Release
        | VdmStage::Releasing
        | VdmStage::Over => None,
    }
}

/// Takes the reply to the operation that was to be made, and keeps the numbers of the reading then. Answers the number of the page whose half the
/// reply gives, if it gives one: it comes into the image.
pub fn take_saved(mut reading: VdmReading, reply: &Reply, saved: &mut SavedVdm) -> Option<u16>
    requires reply { IsReplyTo (wants reading) reply.now }
    requires was { reading_in saved.old reading.image ≡ Some reading }
    requires few { map.len reading.image ≤ saved.old.halves }
    ensures page { result ≡ spec.page_given reading reply.now }
    ensures half { spec.GivesHalf result reply.now }
    ensures same { reading_in saved.new (spec.image_with result reply.now reading.image) ≡ Some (after reading reply.now) }
    ensures halves { saved.new.halves ≡ saved.old.halves + spec.count_of result }
{
    let page = page_given(&reading, reply);
    reading.take(reply);
    let halves = saved.halves + count_of(page);
    *saved = save(&reading, halves);
    page
}

// How many halves more are read then.
fn count_of(page: Option<u16>) -> u8
    ensures { result ≡ spec.count_of page }
{
    match page {
        Some(_) => 1,
        None => 0,
    }
}

/// The pause that was due is over; keeps the numbers of the reading then.
pub fn wait_saved(mut reading: VdmReading, saved: &mut SavedVdm)
    requires { reading_in saved.old reading.image ≡ Some reading }
    ensures same { reading_in saved.new reading.image ≡ Some (rested reading) }
    ensures halves { saved.new.halves ≡ saved.old.halves }
{
    reading.due = false;
    *saved = save(&reading, saved.halves);
}
