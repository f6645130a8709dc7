// Updates of a module's firmware, and single commands about it, which C keeps.
ghost use Rattle.std.specs.Prelude.{◌≡◌, ◌≢◌, ℕ, List, Some, [], length};
ghost use Rattle.bus_model.specs.declared.operation.Op.{Op};
ghost use Rattle.bus_model.specs.declared.operation.Reply.{Reply as Told};
ghost use Rattle.conversations.specs.declared.next.Next.TheVariants as nexts;
ghost use Rattle.saved_update.specs.declared.work.Question.TheVariants as questions;
ghost use Rattle.saved_update.specs.declared.work.Work.{Work as Working};
ghost use Rattle.saved_update.specs.Banks.{banks_of};
ghost use Rattle.saved_update.specs.Endings.{progress_of};
ghost use Rattle.saved_update.specs.SavedUpdates.{work_in};
ghost use Rattle.saved_update.specs.Works.{HasRested, begun_question, begun_update, replied};
ghost use Rattle.firmware_api.specs.Operations.{reply_of};
ghost use Rattle.firmware_api.specs.SimulatedModules.{is_on};
ghost use Rattle.firmware_api.specs.Statuses.{done, status_by};
ghost use Rattle.firmware_api.specs.Updates.{IsEndTold, IsNextTold, IsReplyTold, command_block_of, refusal_in, wanted_in};

use crate::conversation::{WAITED, reply_to};
use crate::operation::Operation;
use crate::status::{DONE, ENDED, NO_CONVERSATION, NO_REPLY, NOT_ENDED};
use command_block::Advertised;
use conversations::Next;
use saved_update::{
    Banks, Progress, Question, SavedEnding, SavedUpdate, Work, ending_of, progress_of, restore,
    save, take_saved, wait_saved,
};

/// What a module advertises of its command data block.
#[repr(C)]
#[derive(Clone, Copy)]
pub struct CommandBlock {
    /// For how many milliseconds the module may refuse transactions.
    pub max_busy_time: u32,
    /// How many commands can be under way at once; 0: there is no command data block. 3 is reserved.
    pub instances: u8,
    /// 1 if the module answers while it carries a command out, else 0.
    pub background_mode: u8,
    /// 1 if the next page of an extended payload follows the end of one by itself, else 0.
    pub auto_paging: u8,
    /// How many pages extended payloads have, from A0h on.
    pub epl_pages: u8,
    /// One transaction carries eight bytes, and eight more for each of these.
    pub length_extension: u8,
}

/// Puts into `block` what the bytes 163 to 166 of page 01h advertise.
#[unsafe(no_mangle)]
pub extern "C" fn dovecounter_command_block(bytes: &[u8; 4], block: &mut CommandBlock)
    ensures { block.new ≡ command_block_of bytes.now }
{
    let advertised = Advertised::of(bytes[0], bytes[1], bytes[2], bytes[3]);
    block.max_busy_time = advertised.max_busy_time;
    block.instances = advertised.instances;
    block.background_mode = u8::from(advertised.background_mode);
    block.auto_paging = u8::from(advertised.auto_paging);
    block.epl_pages = advertised.epl_pages;
    block.length_extension = advertised.length_extension;
}

/// Puts into `banks` what the reply to the question about them says.
#[unsafe(no_mangle)]
pub extern "C" fn dovecounter_banks(reply: &[u8], banks: &mut Banks)
    ensures { banks.new ≡ banks_of reply.now }
{
    *banks = Banks::of(reply);
}

/// Puts into `update` an update to a file of this size. Unless `hold` is 0 it ends once the new image runs, before the Commit.
#[unsafe(no_mangle)]
pub extern "C" fn dovecounter_update_begin(size: u32, hold: u8, update: &mut SavedUpdate)
    ensures { (file : List ℕ) → length file ≡ size → work_in file update.new ≡ Some (begun_update file (is_on hold)) }
{
    let work = Work::update(size, hold != 0);
    *update = save(&work);
}

/// Puts into `update` the question what the module's banks hold.
#[unsafe(no_mangle)]
pub extern "C" fn dovecounter_banks_begin(update: &mut SavedUpdate)
    ensures { work_in [] update.new ≡ Some (begun_question questions.Info) }
{
    put_question(Question::Info, update);
}

/// Puts into `update` the command to commit the image that runs.
#[unsafe(no_mangle)]
pub extern "C" fn dovecounter_commit_begin(update: &mut SavedUpdate)
    ensures { work_in [] update.new ≡ Some (begun_question questions.Commit) }
{
    put_question(Question::Commit, update);
}

/// Puts into `update` the command to give an open download up.
#[unsafe(no_mangle)]
pub extern "C" fn dovecounter_abort_begin(update: &mut SavedUpdate)
    ensures { work_in [] update.new ≡ Some (begun_question questions.Abort) }
{
    put_question(Question::Abort, update);
}

/// Puts into `update` the command that gives this password.
#[unsafe(no_mangle)]
pub extern "C" fn dovecounter_password_begin(password: u32, update: &mut SavedUpdate)
    ensures { work_in [] update.new ≡ Some (begun_question (questions.Password password)) }
{
    put_question(Question::Password(password), update);
}

fn put_question(question: Question, update: &mut SavedUpdate)
    ensures { work_in [] update.new ≡ Some (begun_question question) }
{
    let work = Work::question(question);
    *update = save(&work);
}

/// Puts into `operation` what is to be done now.
#[unsafe(no_mangle)]
pub extern "C" fn dovecounter_update_next(
    update: &SavedUpdate,
    file: &[u8],
    operation: &mut Operation,
) -> u32
    ensures told { IsNextTold result operation.new (wanted_in file.now update.now) }
    ensures refused { result ≢ done → operation.new ≡ operation.old }
{
    let Some(work) = restore(update, file) else {
        return NO_CONVERSATION;
    };
    match work.next() {
        Next::Do(op) => {
            operation.put(&op);
            DONE
        }
        Next::Wait(milliseconds) => {
            operation.put_wait(milliseconds);
            DONE
        }
        Next::End(_ending) => ENDED,
    }
}

/// Takes what came of that.
#[unsafe(no_mangle)]
pub extern "C" fn dovecounter_update_reply(
    update: &mut SavedUpdate,
    file: &[u8],
    outcome: u8,
    bytes: &[u8],
) -> u32
    ensures told { IsReplyTold result outcome (reply_of outcome bytes.now) (wanted_in file.now update.old) }
    ensures taken { result ≡ done → (work : Working) (op : Op) (reply : Told) → work_in file.now update.old ≡ Some work →
        wanted_in file.now update.old ≡ Some (nexts.Do op) → reply_of outcome bytes.now ≡ Some reply →
        work_in file.now update.new ≡ Some (replied file.now work reply) }
    ensures waited { result ≡ done → (work : Working) (time : ℕ) → work_in file.now update.old ≡ Some work →
        wanted_in file.now update.old ≡ Some (nexts.Wait time) →
        (rested : Working) × HasRested file.now work rested × (work_in file.now update.new ≡ Some rested) }
    ensures refused { result ≢ done → update.new ≡ update.old }
{
    let Some(work) = restore(update, file) else {
        return NO_CONVERSATION;
    };
    match work.next() {
        Next::Do(op) => match reply_to(&op, outcome, bytes) {
            Some(reply) => {
                take_saved(work, file, &reply, update);
                DONE
            }
            None => NO_REPLY,
        },
        Next::Wait(_) if outcome == WAITED => {
            wait_saved(work, file, update);
            DONE
        }
        Next::Wait(_) => NO_REPLY,
        Next::End(_ending) => ENDED,
    }
}

/// Puts into `ended` how it ended.
#[unsafe(no_mangle)]
pub extern "C" fn dovecounter_update_end(
    update: &SavedUpdate,
    file: &[u8],
    ended: &mut SavedEnding,
) -> u32
    ensures told { IsEndTold result ended.new (work_in file.now update.now) }
    ensures refused { result ≢ done → ended.new ≡ ended.old }
{
    let Some(work) = restore(update, file) else {
        return NO_CONVERSATION;
    };
    match work.next() {
        Next::End(ending) => {
            *ended = ending_of(&work, &ending);
            DONE
        }
        Next::Do(_) | Next::Wait(_) => NOT_ENDED,
    }
}

/// Puts into `progress` how far an update has come.
#[unsafe(no_mangle)]
pub extern "C" fn dovecounter_update_progress(
    update: &SavedUpdate,
    file: &[u8],
    progress: &mut Progress,
) -> u32
    ensures status { result ≡ status_by (refusal_in (work_in file.now update.now)) }
    ensures told { (work : Working) → work_in file.now update.now ≡ Some work → progress.new ≡ progress_of work }
    ensures refused { result ≢ done → progress.new ≡ progress.old }
{
    let Some(work) = restore(update, file) else {
        return NO_CONVERSATION;
    };
    *progress = progress_of(&work);
    DONE
}
