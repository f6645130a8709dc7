use super::{LinkTest, TestEnd, TestStage};
use crate::test_plan::TestPlan;
use bus_model::Reply;
use conversations::{Conversation, NeedsPages, Next};
use paged_memory::PageAddressing;

impl Conversation for LinkTest {
    ghost use Rattle.lane_controls.specs.LinkTests.{after};
    ghost use Rattle.lane_controls.specs.TestAccounts.{GoesOn, HasEnded, IsTold};
    ghost use Rattle.lane_controls.specs.TestOperations.{wants};

    type Topic = TestPlan;

    type End = TestEnd;

    ghost topic = { λ test. test.plan };

    ghost wants = { wants };

    ghost after = { after };

    ghost told = { λ events test. IsTold events test };

    ghost ends = { λ plan events end. HasEnded plan events end };

    ghost goes_on = { λ plan events. GoesOn plan events };

    fn next(&self) -> Next<TestEnd> {
        self.op()
    }

    fn take(&mut self, reply: &Reply) {
        self.advance(reply);
    }

    fn waited(&mut self) {
        self.rest();
    }

    fn asked(&mut self, number: u32) {
        self.stop_by(number);
    }
}

impl NeedsPages for LinkTest {
    ghost use Rattle.std.specs.Prelude.{Some, false};
    ghost use Rattle.paged_memory.specs.declared.page_addressing.PageAddressing.TheVariants.{BankAndPage};
    ghost use Rattle.lane_controls.specs.LinkTests.{test_after};
    ghost use Rattle.lane_controls.specs.TestOperations.{page_at};

    ghost page = { λ test. page_at test.stage };

    ghost needs = { λ plan events. page_at (test_after plan events).stage };

    ghost addressing = { λ test. Some BankAndPage };

    ghost addressed = { λ plan events. Some BankAndPage };

    ghost may_lack = { λ plan. false };

    ghost lacking = { λ test number. test };

    fn page(&self) -> Option<u16> {
        match self.stage {
            TestStage::Advertised => Some(ADVERTISING_PAGE),
            TestStage::Paths => Some(STATES_PAGE),
            TestStage::Selecting
            | TestStage::Clearing
            | TestStage::Resting
            | TestStage::Reading
            | TestStage::Collecting => Some(RESULTS_PAGE),
            TestStage::Over => None,
            _ => Some(DIAGNOSTICS_PAGE),
        }
    }

    fn addressing(&self) -> Option<PageAddressing> {
        Some(PageAddressing::BankAndPage)
    }

    fn may_lack(&self) -> bool {
        false
    }

    fn lacks(&mut self, _number: u16) {}
}

/// What the module has.
const ADVERTISING_PAGE: u16 = 0x01;

/// States of lanes and paths.
const STATES_PAGE: u16 = 0x11;

/// Patterns and loopbacks.
const DIAGNOSTICS_PAGE: u16 = 0x13;

/// What was counted.
const RESULTS_PAGE: u16 = 0x14;
