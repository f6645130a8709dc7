use crate::end::VdmEnd;
use crate::reading::{VdmReading, VdmRequest};
use bus_model::Reply;
use conversations::{Conversation, Next};

impl Conversation for VdmReading {
    ghost use Rattle.vdm_reading.specs.VdmAccounts.{EachIsWanted, HasEnded, IsTold};
    ghost use Rattle.vdm_reading.specs.VdmStages.{after, wants};

    type Topic = VdmRequest;

    type End = VdmEnd;

    ghost topic = { λ reading. reading.request };

    ghost wants = { wants };

    ghost after = { after };

    ghost told = { λ events reading. IsTold events reading };

    ghost ends = { λ request events end. HasEnded request events end };

    ghost goes_on = { λ request events. EachIsWanted request events };

    fn next(&self) -> Next<VdmEnd> {
        self.wanted()
    }

    fn take(&mut self, reply: &Reply) {
        self.advance(reply);
    }

    fn waited(&mut self) {
        if self.wanted().is_wait() {
            self.due = false;
        }
    }

    fn asked(&mut self, _number: u32) {}
}
