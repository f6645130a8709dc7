// Signal integrity settings of a module, and changes of them, which C keeps.
ghost use Rattle.std.specs.Prelude.{◌≡◌, ◌≢◌, ℕ, IfOk, None, Some};
ghost use Rattle.std.specs.FinMap as map;
ghost use Rattle.std.specs.Option.{option_or};
ghost use Rattle.bus_model.specs.declared.operation.Op.{Op};
ghost use Rattle.bus_model.specs.declared.operation.Reply.{Reply as Told};
ghost use Rattle.conversations.specs.declared.next.Next.TheVariants as nexts;
ghost use Rattle.conversations.specs.Patiently.{paused};
ghost use Rattle.saved_lanes.specs.SavedSettings.{Procedure, changing_in};
ghost use Rattle.saved_lanes.specs.SettingsTargets.{change_of};
ghost use Rattle.saved_lanes.specs.SettingsTurns.{after, begun_settings};
ghost use Rattle.firmware_api.specs.Halves.{memory_of};
ghost use Rattle.firmware_api.specs.Operations.{reply_of};
ghost use Rattle.firmware_api.specs.Patiences.{doubts, given};
ghost use Rattle.firmware_api.specs.SettingsTold.{IsEndTold, advertising_refusal, limits_in, limits_refusal, page_key, refusal_of, settings_in, settings_refusal, staged_by, wanted_in};
ghost use Rattle.firmware_api.specs.SimulatedModules.{half_refusal};
ghost use Rattle.firmware_api.specs.Statuses.{done, status_by};
ghost use Rattle.firmware_api.specs.Updates.{IsNextTold, IsReplyTold};

use crate::conversation::{WAITED, reply_to};
use crate::half::{HalfBytes, half_status, image_of};
use crate::operation::Operation;
use crate::patience::Patience;
use crate::read_module::number_of;
use crate::status::{
    DONE, ENDED, NO_CONVERSATION, NO_REPLY, NOT_ENDED, advert_status, settings_status,
};
use applications::{Advert, AdvertFault, Conventions};
use conversations::{Conversation, Next};
use paged_memory::{Dev, Image, Key};
use saved_lanes::settings::{
    SavedLimits, SavedSettings, SavedSettingsChange, SavedSettingsEnd, SavedTargets, begin,
    change_of, ending_of, limits_of, restore, take_saved, targets_of, wait_saved,
};

/// The settings of a module's lanes.
#[repr(C)]
#[derive(Clone, Copy)]
pub struct ModuleSettings {
    /// Those that are active, on page 11h.
    pub active: SavedTargets,
    /// Those that a trigger makes active, on page 10h; zeros without that page.
    pub staged: SavedTargets,
    /// 1 if there is that page, else 0.
    pub has_staged: u8,
}

/// Puts into `settings` those of the module whose memory has these halves.
#[unsafe(no_mangle)]
pub extern "C" fn dovecounter_settings(halves: &[HalfBytes], settings: &mut ModuleSettings) -> u32
    ensures status { result ≡ status_by (option_or (half_refusal halves.now) (settings_refusal (memory_of halves.now))) }
    ensures done { result ≡ done → IfOk (settings_in (memory_of halves.now)) (λ found. settings.new ≡ found) }
    ensures refused { result ≢ done → settings.new ≡ settings.old }
{
    let status = half_status(halves);
    if status != DONE {
        return status;
    }
    put_settings(&image_of(halves).view(), settings)
}

fn put_settings(image: &Image, settings: &mut ModuleSettings) -> u32
    ensures status { result ≡ status_by (settings_refusal image.now) }
    ensures done { result ≡ done → IfOk (settings_in image.now) (λ found. settings.new ≡ found) }
    ensures refused { result ≢ done → settings.new ≡ settings.old }
{
    let status = advertising_status(image);
    if status != DONE {
        return status;
    }
    match settings_in(image) {
        Ok(found) => {
            *settings = found;
            DONE
        }
        Err(page) => advert_status(AdvertFault::Absent(page)),
    }
}

// The status of why a module's Applications are not read, or 0.
#[tactic(auto, unfolding(crate::specs::SettingsTold::advertising_refusal))]
fn advertising_status(image: &Image) -> u32
    ensures status { result ≡ status_by (advertising_refusal image.now) }
    ensures sound { result ≡ done → advertising_refusal image.now ≡ None }
{
    let as_it_stands = Conventions {
        paired: false,
        counts_by_id: false,
        now: false,
    };
    match Advert::under(as_it_stands, image) {
        Ok(_advert) => DONE,
        Err(fault) => advert_status(fault),
    }
}

fn settings_in(image: &Image) -> Result<ModuleSettings, Key>
    ensures { result ≡ settings_in image.now }
{
    let states = Key::upper(Dev::A0, 0, 0x11);
    let staged = staged_in(image);
    let has_staged = number_of(image.has(Key::upper(Dev::A0, 0, 0x10)));
    match image.page(states) {
        Some(page) => Ok(ModuleSettings {
            active: targets_of(&page.bytes()[86..107]),
            staged,
            has_staged,
        }),
        None => Err(states),
    }
}

fn staged_in(image: &Image) -> SavedTargets
    ensures { result ≡ staged_by (map.get image.now (page_key 16)) }
{
    match image.page(Key::upper(Dev::A0, 0, 0x10)) {
        Some(page) => targets_of(&page.bytes()[25..46]),
        None => NO_TARGETS,
    }
}

const NO_TARGETS: SavedTargets = SavedTargets {
    adaptive: 0,
    recall: [0; 8],
    fixed_input: [0; 8],
    recover_tx: 0,
    recover_rx: 0,
    pre_cursor: [0; 8],
    post_cursor: [0; 8],
    amplitude: [0; 8],
};

/// Puts into `limits` what the module whose memory has these halves can do.
#[unsafe(no_mangle)]
pub extern "C" fn dovecounter_settings_limits(halves: &[HalfBytes], limits: &mut SavedLimits) -> u32
    ensures status { result ≡ status_by (option_or (half_refusal halves.now) (limits_refusal (memory_of halves.now))) }
    ensures done { result ≡ done → IfOk (limits_in (memory_of halves.now)) (λ found. limits.new ≡ found) }
    ensures refused { result ≢ done → limits.new ≡ limits.old }
{
    let status = half_status(halves);
    if status != DONE {
        return status;
    }
    put_limits(&image_of(halves).view(), limits)
}

fn put_limits(image: &Image, limits: &mut SavedLimits) -> u32
    ensures status { result ≡ status_by (limits_refusal image.now) }
    ensures done { result ≡ done → IfOk (limits_in image.now) (λ found. limits.new ≡ found) }
    ensures refused { result ≢ done → limits.new ≡ limits.old }
{
    let status = advertising_status(image);
    if status != DONE {
        return status;
    }
    match limits_in(image) {
        Ok(found) => {
            *limits = found;
            DONE
        }
        Err(page) => advert_status(AdvertFault::Absent(page)),
    }
}

fn limits_in(image: &Image) -> Result<SavedLimits, Key>
    ensures { result ≡ limits_in image.now }
{
    let controls = Key::upper(Dev::A0, 0, 0x01);
    match image.page(controls) {
        Some(page) => Ok(limits_of(page.bytes()[25], page.bytes()[26])),
        None => Err(controls),
    }
}

/// Puts into `changing` a change of settings of which nothing was done yet, of a module that can do this much.
#[unsafe(no_mangle)]
pub extern "C" fn dovecounter_settings_begin(
    change: &SavedSettingsChange,
    limits: &SavedLimits,
    patience: &Patience,
    changing: &mut SavedSettings,
) -> u32
    ensures status { result ≡ status_by (refusal_of (change_of change.now limits.now)) }
    ensures begun { result ≡ done → IfOk (change_of change.now limits.now)
        (λ wanted. changing_in changing.new ≡ Some (begun_settings wanted (given patience.now) (doubts patience.now))) }
    ensures refused { result ≢ done → changing.new ≡ changing.old }
{
    match change_of(change, limits) {
        Ok(wanted) => {
            *changing = begin(wanted, patience.given(), patience.doubts());
            DONE
        }
        Err(refusal) => settings_status(refusal),
    }
}

/// Puts into `operation` what is to be done now.
#[unsafe(no_mangle)]
pub extern "C" fn dovecounter_settings_next(
    changing: &SavedSettings,
    operation: &mut Operation,
) -> u32
    ensures told { IsNextTold result operation.new (wanted_in changing.now) }
    ensures refused { result ≢ done → operation.new ≡ operation.old }
{
    let Some(procedure) = restore(changing) else {
        return NO_CONVERSATION;
    };
    match procedure.next() {
        Next::Do(op) => {
            operation.put(&op);
            DONE
        }
        Next::Wait(milliseconds) => {
            operation.put_wait(milliseconds);
            DONE
        }
        Next::End(_spent) => ENDED,
    }
}

/// Takes what came of that.
#[unsafe(no_mangle)]
pub extern "C" fn dovecounter_settings_reply(
    changing: &mut SavedSettings,
    outcome: u8,
    bytes: &[u8],
) -> u32
    ensures told { IsReplyTold result outcome (reply_of outcome bytes.now) (wanted_in changing.old) }
    ensures taken { result ≡ done → (procedure : Procedure) (op : Op) (reply : Told) → changing_in changing.old ≡ Some procedure →
        wanted_in changing.old ≡ Some (nexts.Do op) → reply_of outcome bytes.now ≡ Some reply →
        changing_in changing.new ≡ Some (after procedure reply) }
    ensures waited { result ≡ done → (procedure : Procedure) (time : ℕ) → changing_in changing.old ≡ Some procedure →
        wanted_in changing.old ≡ Some (nexts.Wait time) → changing_in changing.new ≡ Some (paused procedure) }
    ensures refused { result ≢ done → changing.new ≡ changing.old }
{
    let Some(procedure) = restore(changing) else {
        return NO_CONVERSATION;
    };
    match procedure.next() {
        Next::Do(op) => match reply_to(&op, outcome, bytes) {
            Some(reply) => {
                take_saved(procedure, &reply, changing);
                DONE
            }
            None => NO_REPLY,
        },
        Next::Wait(_) if outcome == WAITED => {
            wait_saved(procedure, changing);
            DONE
        }
        Next::Wait(_) => NO_REPLY,
        Next::End(_spent) => ENDED,
    }
}

/// Puts into `ended` how it ended.
#[unsafe(no_mangle)]
pub extern "C" fn dovecounter_settings_end(
    changing: &SavedSettings,
    ended: &mut SavedSettingsEnd,
) -> u32
    ensures told { IsEndTold result ended.new (changing_in changing.now) }
    ensures refused { result ≢ done → ended.new ≡ ended.old }
{
    let Some(procedure) = restore(changing) else {
        return NO_CONVERSATION;
    };
    match procedure.next() {
        Next::End(spent) => {
            *ended = ending_of(&procedure, &spent);
            DONE
        }
        Next::Do(_) | Next::Wait(_) => NOT_ENDED,
    }
}
