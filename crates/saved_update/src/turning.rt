//! One turn of what works, from its numbers to its numbers.
ghost use Rattle.std.specs.Prelude.{◌≡◌, ◌^◌, ◌<◌, Some, length};
ghost use Rattle.conversations.specs.Wanted.{IsReplyTo, IsWait};
ghost use Rattle.saved_update.specs.declared.work.Work.{Work as Working};
ghost use Rattle.saved_update.specs.SavedUpdates.{work_in};
ghost use Rattle.saved_update.specs.Works.{HasRested, IsOf, replied, wants};

use crate::numbers::SavedUpdate;
use crate::saving::save;
use crate::work::Work;
use bus_model::Reply;

/// Takes the reply to the operation that was to be made, and keeps the numbers of what works then.
pub fn take_saved(mut work: Work, file: &[u8], reply: &Reply, saved: &mut SavedUpdate)
    requires short { length file.now < 2 ^ 32 }
    requires of { IsOf file.now work }
    requires answers { IsReplyTo (wants work) reply.now }
    ensures { work_in file.now saved.new ≡ Some (replied file.now work reply.now) }
{
    work.take(file, reply);
    *saved = save(&work);
}

/// So long as was asked for has passed; keeps the numbers of what works then.
pub fn wait_saved(mut work: Work, file: &[u8], saved: &mut SavedUpdate)
    requires short { length file.now < 2 ^ 32 }
    requires of { IsOf file.now work }
    requires waits { IsWait (wants work) }
    ensures { (rested : Working) × HasRested file.now work rested × (work_in file.now saved.new ≡ Some rested) }
{
    work.waited(file);
    *saved = save(&work);
}
