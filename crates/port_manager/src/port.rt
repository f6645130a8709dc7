// A port over time: whether a module is there, what works at it, what is outstanding, and until when nothing is made.
ghost use Rattle.std.specs.Prelude.{◌≡◌, false};
ghost use Rattle.bus_model.specs.Operations.{IsWellShaped};
ghost use Rattle.port_manager.specs.Jobs.{IsReplyTo, asked, begun_by};
ghost use Rattle.port_manager.specs.Turns.{turn_by};
ghost use Rattle.port_manager.specs.declared.job.Job.{Job};
ghost use Rattle.port_manager.specs.Flags.{no_flags};
ghost use Rattle.port_manager.specs.Ports as spec;
ghost use Rattle.conversations.specs.Wanted.{IfDo};
ghost use Rattle.port_manager.specs.Ports.{IsAwaited, IsTaken};
ghost use Rattle.port_manager.specs.declared.port.Outstanding.TheVariants as outstanding;
ghost use Rattle.port_manager.specs.declared.port.Stage.TheVariants as stages;

use crate::deciding::{LeftBecause, Wanted};
use crate::flags::{FlagKeeper, Flags};
use crate::job::{Beginning, Job};
use crate::request::Request;
use crate::silence::{Presence, Silence};
use crate::times::{Times, doubled, later, left};
use crate::turn::{Course, Note, PortFault};
use bus_model::Reply;
use conversations::Next;
use std::mem;

/// What is outstanding on the bus.
#[derive(Clone, Copy, Debug, PartialEq, Eq)]
pub enum Outstanding {
    /// Nothing.
    Nothing,
    /// The reply to the operation that was asked for.
    Awaited,
    /// The same, but other weights are wanted since, so that its work is to be begun anew.
    Stale,
    /// The reply to one whose module was pulled since.
    Forsaken,
}

/// What is in the port.
#[derive(Drop)]
pub enum Stage {
    /// No module.
    Absent,
    /// A module that is left alone.
    Left(LeftBecause),
    /// A module at which this works.
    Working(Job),
}

/// Until when there is nothing to do.
#[derive(Clone, Copy, Debug, PartialEq, Eq, Drop)]
pub enum Rest {
    /// Until a reply was taken.
    Busy,
    /// Until a module is plugged, other weights are wanted, or the port isn't to hold still any longer.
    Idle,
}

/// What a reply led to.
#[derive(Clone, Copy, Debug, PartialEq, Eq)]
pub enum Outcome {
    /// Nothing: no module in the port gave it, or what asked for it is dropped.
    Dropped,
    /// The job goes on, or the next one does.
    Went(Note),
    /// The operation was in vain, and the job goes on, not before this moment.
    Paused(u64),
    /// What was begun has failed, and is begun anew, not before this moment.
    Failed(PortFault, u64),
    /// The module is left alone.
    Left(LeftBecause),
}

/// A port.
#[derive(Drop)]
pub struct Port {
    pub times: Times,
    pub stage: Stage,
    /// No operation is made before this moment.
    pub due: u64,
    /// A module that is left alone is read and judged anew from this moment on.
    pub recheck_at: u64,
    /// How long is waited after the next failure.
    pub back_off: u32,
    pub outstanding: Outstanding,
    /// The module was woken up in vain, and is not to be again.
    pub vain: bool,
    /// The flags that were read.
    pub keeper: FlagKeeper,
    /// Somebody wants it to hold still.
    pub held: bool,
    /// What somebody has asked of it.
    pub request: Request,
    /// For how long its module hasn't answered.
    pub silence: Silence,
    /// An apply was refused since the module was last provisioned, as wanted or left alone, and the module read anew for that: the next
    /// one that is refused is stored again.
    pub apply_refused: bool,
}

impl Port {
    /// An empty port.
    pub fn new(times: Times) -> Port
        ensures value { result ≡ spec.absent times outstanding.Nothing no_flags false }
    {
        empty(times, Outstanding::Nothing, Flags::none(), false)
    }

    /// The module was pulled: nothing of it is left but the flags that were read.
    #[inline(never)]
    pub fn pull(&mut self)
        ensures value { self.new ≡ spec.pulled self.old }
    {
        *self = empty(
            self.times,
            forsaken(self.outstanding),
            self.keeper.flags,
            self.held,
        );
    }

    /// A module was plugged, which may need time to answer.
    pub fn plug(&mut self, now: u64)
        ensures value { self.new ≡ spec.plugged now self.old }
    {
        self.pull();
        self.begin(Beginning::Reading(false));
        self.due = later(now, self.times.settle);
    }

    /// Other weights are wanted, or somebody asks: a module that is there is read and judged anew, but not before the moment that is
    /// waited for, nor before the reply that is outstanding.
    pub fn reconsider(&mut self)
        ensures value { self.new ≡ spec.reconsidered self.old }
    {
        self.vain = false;
        match self.outstanding {
            Outstanding::Awaited | Outstanding::Stale => self.outstanding = Outstanding::Stale,
            Outstanding::Nothing | Outstanding::Forsaken => self.restart(),
        }
    }

    /// The port is to hold still: nothing is asked for, whatever comes, once the reply that is outstanding was taken. Or it is not to
    /// any longer, and its module is read and judged anew.
    pub fn hold(&mut self, held: bool)
        ensures { self.new ≡ spec.holding held self.old }
    {
        self.held = held;
        self.reconsider();
    }

    /// Somebody asks something of the port, in place of what was asked before; until the module is pulled. It is read and judged anew.
    pub fn ask(&mut self, request: Request)
        ensures { self.new ≡ spec.asked_for request self.old }
    {
        self.request = request;
        self.reconsider();
    }

    /// A transaction at the port, which began at a moment, was answered or refused at this one: where no pin tells whether a module is
    /// there, that does.
    pub fn hear(&mut self, answered: bool, began: u64, now: u64) -> Presence
        ensures presence { result ≡ spec.presence_by self.old answered began now }
        ensures after { self.new ≡ spec.heard self.old answered began now }
    {
        let silence = self.silence.after(answered, began);
        let is_there = self.is_there();
        if answered && !is_there {
            self.plug(now);
            Presence::Plugged
        } else if is_there && silence.is_gone(now) {
            self.pull();
            Presence::Pulled
        } else {
            self.silence = silence;
            Presence::Same
        }
    }

    fn is_there(&self) -> bool
        ensures { result ≡ spec.is_there self.now.stage }
    {
        match self.stage {
            Stage::Absent => false,
            Stage::Left(_) | Stage::Working(_) => true,
        }
    }

    fn restart(&mut self)
        ensures { self.new ≡ spec.restarted self.old }
    {
        match self.stage {
            Stage::Absent => {}
            Stage::Left(_) | Stage::Working(_) => self.begin(Beginning::Reading(false)),
        }
    }

    /// Somebody knows the flags that were last read as raised at this moment or before it, and they count no longer.
    pub fn acknowledge(&mut self, moment: u64)
        ensures { self.new ≡ spec.acknowledged_to moment self.old }
    {
        self.keeper.acknowledge(moment);
    }

    /// What is to be done now: an operation, whose reply is awaited then, or nothing for a while. A module that was left alone for long
    /// enough is read and judged anew, as if somebody asked.
    pub fn next(&mut self, now: u64) -> Next<Rest>
        ensures value { result ≡ spec.next_at (spec.rechecked now self.old) now }
        ensures after { self.new ≡ spec.asking (spec.rechecked now self.old) result }
        ensures shape { IfDo result IsWellShaped }
    {
        self.recheck(now);
        let next = self.wanted(now);
        if matches!(next, Next::Do(_)) {
            self.outstanding = Outstanding::Awaited;
        }
        next
    }

    fn recheck(&mut self, now: u64)
        ensures { self.new ≡ spec.rechecked now self.old }
    {
        if self.is_overdue(now) {
            self.reconsider();
        }
    }

    // Whether a module was left alone for long enough.
    fn is_overdue(&self, now: u64) -> bool
        ensures { result ≡ spec.is_overdue self.now now }
    {
        match self.stage {
            Stage::Left(_) => !self.held && self.times.recheck != 0 && self.recheck_at <= now,
            Stage::Absent | Stage::Working(_) => false,
        }
    }

    /// The moment before which nothing is to be done, if there is one.
    pub fn until(&self) -> u64
        ensures { result ≡ spec.until self.now }
    {
        match self.stage {
            Stage::Left(_) => self.recheck_at,
            Stage::Absent | Stage::Working(_) => self.due,
        }
    }

    fn wanted(&self, now: u64) -> Next<Rest>
        ensures value { result ≡ spec.next_at self.now now }
        ensures shape { IfDo result IsWellShaped }
    {
        if self.outstanding != Outstanding::Nothing {
            return Next::End(Rest::Busy);
        }
        match &self.stage {
            Stage::Absent => Next::End(Rest::Idle),
            Stage::Left(_) | Stage::Working(_) if self.held => Next::End(Rest::Idle),
            Stage::Left(_) if self.times.recheck == 0 => Next::End(Rest::Idle),
            Stage::Left(_) => Next::Wait(left(now, self.recheck_at)),
            Stage::Working(_) if now < self.due => Next::Wait(left(now, self.due)),
            Stage::Working(job) => match job.op() {
                Some(op) => Next::Do(op),
                None => Next::End(Rest::Idle),
            },
        }
    }

    /// Takes the reply to the operation that was to be made, which came at this moment.
    pub fn take(&mut self, reply: &Reply, wanted: &Wanted, now: u64) -> Outcome
        requires reply { IsAwaited self.old reply.now }
        ensures exact { IsTaken self.old reply.now wanted.now now result self.new }
    {
        let due = mem::replace(&mut self.outstanding, Outstanding::Nothing);
        match (due, &mut self.stage) {
            (Outstanding::Awaited, Stage::Working(job)) => {
                note(&mut self.keeper, job, reply, now);
                let course = job.turn(reply, &self.request.granted(wanted), self.apply_refused);
                self.turned(course, now)
            }
            (Outstanding::Stale, Stage::Working(job)) => {
                note(&mut self.keeper, job, reply, now);
                self.begin(Beginning::Reading(self.vain));
                Outcome::Dropped
            }
            (_, _) => Outcome::Dropped,
        }
    }

    fn turned(&mut self, course: Course, now: u64) -> Outcome
        ensures after { (job : Job) → self.old.stage ≡ stages.Working job → self.new ≡ spec.turned self.old (turn_by job course) now }
        ensures result { (job : Job) → result ≡ spec.outcome_of self.old (turn_by job course) now }
    {
        match course {
            Course::On => {
                self.wait_for(Note::Quiet, now);
                Outcome::Went(Note::Quiet)
            }
            Course::Paused(time) => {
                let again = self.due.max(later(now, time));
                self.due = again;
                Outcome::Paused(again)
            }
            Course::Next(beginning, note) => {
                self.begin(beginning);
                self.wait_for(note, now);
                Outcome::Went(note)
            }
            Course::Failed(fault) => {
                let again = self.due.max(later(now, self.back_off));
                self.vain = is_vain_after(fault, self.vain);
                self.begin(Beginning::Reading(self.vain));
                self.due = again;
                self.back_off = doubled(self.back_off, self.times.most);
                self.apply_refused = self.apply_refused || is_apply_refused(fault);
                Outcome::Failed(fault, again)
            }
            Course::Left(reason) => {
                self.stage = Stage::Left(reason);
                self.recheck_at = later(now, self.times.recheck);
                self.request = self.request.ended();
                self.apply_refused = false;
                Outcome::Left(reason)
            }
        }
    }

    // Not inlined: a job that is made takes much of a stack.
    #[inline(never)]
    fn begin(&mut self, beginning: Beginning)
        ensures { self.new ≡ record self.old { stage = stages.Working (begun_by beginning) } }
    {
        self.stage = Stage::Working(beginning.job());
    }

    // A look is followed by a pause; a module that came up is as it was asked.
    fn wait_for(&mut self, note: Note, now: u64)
        ensures { self.new ≡ spec.waiting self.old note now }
    {
        if note == Note::Held {
            self.back_off = self.times.first;
        }
        if note == Note::CameUp {
            self.request = self.request.ended();
        }
        self.due = self.due.max(later(now, wait_of(self.times, note)));
        self.apply_refused = self.apply_refused && !is_settled_by(note);
    }
}

// What the reply shows of flags. Not inlined: flags take some of a stack.
#[inline(never)]
fn note(keeper: &mut FlagKeeper, job: &Job, reply: &Reply, now: u64)
    requires { IsReplyTo (asked job.now) reply.now }
    ensures { keeper.new ≡ spec.noted_of keeper.old (asked job.now) reply.now now }
{
    if let Some(op) = job.op() {
        keeper.take(&op, reply, now);
    }
}

fn wait_of(times: Times, note: Note) -> u32
    ensures { result ≡ spec.wait_of times note }
{
    match note {
        Note::Held | Note::CameUp => times.period,
        Note::Quiet | Note::Identified | Note::Woken | Note::Provisioned => 0,
    }
}

// Whether the module counts as woken up in vain after a failure: it was told to wake up and is not ready, unless it has changed since.
fn is_vain_after(fault: PortFault, before: bool) -> bool
    ensures { result ≡ spec.is_vain_after fault before }
{
    match fault {
        PortFault::Asleep | PortFault::Waking(_) => true,
        PortFault::Changed => false,
        PortFault::Unread
        | PortFault::Sleeping(_)
        | PortFault::Provisioning(_)
        | PortFault::Activating(_)
        | PortFault::Unseen
        | PortFault::ApplyRefused
        | PortFault::WakingRefused => before,
    }
}

fn is_apply_refused(fault: PortFault) -> bool
    ensures { result ≡ spec.is_apply_refused fault }
{
    match fault {
        PortFault::ApplyRefused => true,
        PortFault::Unread
        | PortFault::Asleep
        | PortFault::Waking(_)
        | PortFault::Sleeping(_)
        | PortFault::Provisioning(_)
        | PortFault::Activating(_)
        | PortFault::Unseen
        | PortFault::Changed
        | PortFault::WakingRefused => false,
    }
}

// The control bytes are active, or the module is as it is wanted.
fn is_settled_by(note: Note) -> bool
    ensures { result ≡ spec.is_settled_by note }
{
    match note {
        Note::Provisioned | Note::CameUp | Note::Held => true,
        Note::Quiet | Note::Identified | Note::Woken => false,
    }
}

fn empty(times: Times, outstanding: Outstanding, flags: Flags, held: bool) -> Port
    ensures { result ≡ spec.absent times outstanding flags held }
{
    Port {
        times,
        stage: Stage::Absent,
        due: 0,
        recheck_at: 0,
        back_off: times.first,
        outstanding,
        vain: false,
        keeper: FlagKeeper::unread(flags),
        held,
        request: Request::Wake,
        silence: Silence::none(),
        apply_refused: false,
    }
}

// What is outstanding of a module that is no longer there.
fn forsaken(outstanding: Outstanding) -> Outstanding
    ensures { result ≡ spec.forsaken outstanding }
{
    match outstanding {
        Outstanding::Nothing => Outstanding::Nothing,
        Outstanding::Awaited | Outstanding::Stale | Outstanding::Forsaken => Outstanding::Forsaken,
    }
}
