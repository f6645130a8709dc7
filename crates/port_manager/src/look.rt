// A look at a module that came up, or is as it is wanted: its lower memory, and page 11h, which is selected anew since somebody else
// or a reset may have changed that.
ghost use Rattle.std.specs.Prelude.{◌≡◌, length};
ghost use Rattle.conversations.specs.Wanted.{IsReplyTo};
ghost use Rattle.port_manager.specs.Looks as spec;

use crate::deciding::Goal;
use crate::lanes::{are_up, has_all};
use bus_model::{Dev, Op, Reply};
use conversations::{Conversation, NeedsPages, Next};
use field_tables::{field, number_in_byte};
use paged_memory::PageAddressing;

/// How far a look has come.
#[derive(Clone, Copy, Debug, PartialEq, Eq, Drop)]
pub enum LookStage {
    /// The lower memory is to be read.
    Lower,
    /// The module is ready, and page 11h is to be read.
    Lanes,
    /// The module is as it is wanted, or it isn't.
    Seen(bool),
}

/// A conversation that ends in whether the module is ready and has its goal up.
#[derive(Clone, Copy, Debug, PartialEq, Eq, Drop)]
pub struct Look {
    pub goal: Goal,
    pub stage: LookStage,
}

/// The code of ModuleReady.
pub const READY: u8 = 3;

impl Look {
    /// Nothing was read.
    pub fn at(goal: Goal) -> Look
        ensures { result ≡ spec.begun goal }
    {
        Look {
            goal,
            stage: LookStage::Lower,
        }
    }

    fn stage_after(&self, reply: &Reply) -> LookStage
        requires { IsReplyTo (spec.wants self.now) reply.now }
        ensures { result ≡ spec.stage_after self.now.goal self.now.stage reply.now }
    {
        match (self.stage, reply) {
            (LookStage::Lower, Reply::Bytes(bytes)) => below(bytes),
            (LookStage::Lanes, Reply::Bytes(bytes)) => above(&self.goal, bytes),
            (stage, _) => stage,
        }
    }
}

fn below(lower: &[u8]) -> LookStage
    requires { length lower.now ≡ 128 }
    ensures { result ≡ spec.below lower.now }
{
    if number_in_byte(field!(Cmis ModuleState), lower[3]) == READY {
        LookStage::Lanes
    } else {
        LookStage::Seen(false)
    }
}

fn above(goal: &Goal, page: &[u8]) -> LookStage
    requires { length page.now ≡ 128 }
    ensures { result ≡ spec.above goal.now page.now }
{
    LookStage::Seen(has_all(page, &goal.control) && are_up(page, &goal.control, goal.lanes))
}

fn fetch_half(offset: u8) -> Op
    ensures { result ≡ spec.fetch_half offset }
{
    Op::Fetch {
        dev: Dev::A0,
        offset,
        count: 128,
    }
}

impl Conversation for Look {
    ghost use Rattle.port_manager.specs.Looks.{IsTold, ends_after, goes_on_after, after, wants};

    type Topic = Goal;

    type End = bool;

    ghost topic = { λ look. look.goal };

    ghost wants = { wants };

    ghost after = { after };

    ghost told = { λ events look. IsTold events look };

    ghost ends = { λ goal events end. ends_after goal events end };

    ghost goes_on = { λ goal events. goes_on_after goal events };

    fn next(&self) -> Next<bool> {
        match self.stage {
            LookStage::Lower => Next::Do(fetch_half(0)),
            LookStage::Lanes => Next::Do(fetch_half(128)),
            LookStage::Seen(wanted) => Next::End(wanted),
        }
    }

    fn take(&mut self, reply: &Reply) {
        self.stage = self.stage_after(reply);
    }

    fn waited(&mut self) {}

    fn asked(&mut self, _number: u32) {}
}

impl NeedsPages for Look {
    ghost use Rattle.std.specs.Prelude.{Some, false};
    ghost use Rattle.paged_memory.specs.declared.page_addressing.PageAddressing.TheVariants.{BankAndPage};
    ghost use Rattle.port_manager.specs.Looks.{needed, needed_after};

    ghost page = { λ look. needed look };

    ghost needs = { λ goal events. needed_after goal events };

    ghost addressing = { λ look. Some BankAndPage };

    ghost addressed = { λ goal events. Some BankAndPage };

    ghost may_lack = { λ goal. false };

    ghost lacking = { λ look number. look };

    fn page(&self) -> Option<u16> {
        match self.stage {
            LookStage::Lanes => Some(0x11),
            LookStage::Lower | LookStage::Seen(_) => None,
        }
    }

    fn addressing(&self) -> Option<PageAddressing> {
        Some(PageAddressing::BankAndPage)
    }

    fn may_lack(&self) -> bool {
        false
    }

    fn lacks(&mut self, _number: u16) {}
}
