// Where the half lies that the operation of a port fetches.
ghost use Rattle.std.specs.Prelude.{◌≡◌};
ghost use Rattle.saved_port.specs.Places as spec;

use bus_model::Dev;
use conversations::{NeedsPages, OnPage};
use module_reading::Halves;
use paged_memory::Key;
use port_manager::{Job, Look, LookStage, Port, Stage};

/// The place of the half that the operation to be made fetches, if it fetches a whole one.
pub fn place_of(port: &Port) -> Option<Key>
    ensures { result ≡ spec.place_of port.now }
{
    match &port.stage {
        Stage::Absent | Stage::Left(_) => None,
        Stage::Working(job) => place_in(job),
    }
}

fn place_in(job: &Job) -> Option<Key>
    ensures { result ≡ spec.place_in job.now }
{
    match job {
        Job::Reading(reading, _) => place_of_reading(&reading.conversation.conversation),
        Job::Waking(_) | Job::Sleeping(_) | Job::Provisioning(_, _) | Job::Activating(_, _) => {
            None
        },
        Job::Confirming(look) | Job::Watching(look) => {
            place_of_look(&look.conversation.conversation)
        },
    }
}

fn place_of_reading(on_page: &OnPage<Halves>) -> Option<Key>
    ensures { result ≡ spec.place_of_reading on_page.now }
{
    let halves = &on_page.conversation;
    let selects = on_page.selection.is_open() || on_page.selection.missing(halves.page()).is_some();
    if selects { None } else { halves.key() }
}

fn place_of_look(on_page: &OnPage<Look>) -> Option<Key>
    ensures { result ≡ spec.place_of_look on_page.now }
{
    let look = &on_page.conversation;
    let selects = on_page.selection.is_open() || on_page.selection.missing(look.page()).is_some();
    if selects { None } else { key_at(look.stage) }
}

fn key_at(stage: LookStage) -> Option<Key>
    ensures { result ≡ spec.key_at stage }
{
    match stage {
        LookStage::Lower => Some(Key::lower(Dev::A0)),
        LookStage::Lanes => Some(Key::upper(Dev::A0, 0, 0x11)),
        LookStage::Seen(_) => None,
    }
}
