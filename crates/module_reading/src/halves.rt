// The halves of a module's memory: which is fetched next, and what a reply makes of it.
ghost use Rattle.std.specs.Prelude.{◌≡◌, None, Some, true};
ghost use Rattle.std.specs.Option.{option_map};
ghost use Rattle.module_reading.specs.ImageReading as spec;
ghost use Rattle.module_reading.specs.Regions.{key_of};

use crate::asked::{addressing, region};
use crate::region::Region;
use crate::request::Request;
use bus_model::Reply;
use control_sets::MAX_STEPS;
use conversations::{Conversation, InPieces, NeedsPages, Next, OnPage, Pausing, Within};
use paged_memory::{Key, KnownPage, PAGE_LEN, Page, PageAddressing, SmallImage};

/// What was read of a module so far: a conversation that ends when each half was read, or left out since the module lacks it.
#[derive(Drop)]
pub struct Halves {
    /// Which ones are read.
    pub request: Request,
    /// The halves that were read.
    pub image: SmallImage,
    /// How many were read or left out.
    pub settled: usize,
}

/// The reading of a module without a bus: halves on confirmed pages, within as many steps as may be made.
pub type Reading = Within<OnPage<Halves>>;

/// The same with pauses, over a bus that carries few bytes at once. A pause is no reason to read the pieces of a half again, so the
/// pieces are within.
pub type PatientReading = Within<Pausing<InPieces<OnPage<Halves>>>>;

impl Halves {
    ghost use Rattle.conversations.specs.Wanted.{IsReplyTo};

    /// Nothing was read of what is requested, and no step was made.
    pub fn reading(request: Request) -> Reading
        ensures { result ≡ spec.begun_reading request }
    {
        let halves = Halves {
            request,
            image: SmallImage::new(),
            settled: 0,
        };
        let on_page = OnPage {
            conversation: halves,
            selection: KnownPage::Unknown,
            taken: None,
            doubts: false,
        };
        Within::new(on_page, MAX_STEPS)
    }

    // The half in hand is the first that was neither read nor left out.
    fn region(&self) -> Option<Region>
        ensures { result ≡ spec.in_hand self.now }
    {
        region(self.request, &self.image.view(), self.settled)
    }

    /// Where an image has the half in hand.
    pub fn key(&self) -> Option<Key>
        ensures { result ≡ option_map key_of (spec.in_hand self.now) }
    {
        match self.region() {
            Some(region) => Some(region.key()),
            None => None,
        }
    }

    fn told(&mut self, reply: &Reply)
        requires { IsReplyTo (spec.wants self.old) reply.now }
        ensures after { self.new ≡ spec.after_reply self.old reply.now }
        ensures request { self.new.request ≡ self.old.request }
    {
        if let Some(region) = self.region() {
            if let Reply::Bytes(bytes) = reply {
                let mut page = [0; PAGE_LEN];
                page.copy_from_slice(bytes);
                let _full = self.image.put(region.key(), Page::from(page));
                self.settled += 1;
            }
        }
    }

    fn left_out(&mut self)
        ensures after { self.new ≡ spec.after_lack self.old }
        ensures request { self.new.request ≡ self.old.request }
    {
        if self.region().is_some() {
            self.settled += 1;
        }
    }
}

impl Conversation for Halves {
    ghost use Rattle.module_reading.specs.ImageReading.{EndsHalves, GoesOnHalves, IsTold, after_reply, wants};

    type Topic = Request;

    type End = ();

    ghost topic = { λ halves. halves.request };

    ghost wants = { wants };

    ghost after = { after_reply };

    ghost told = { λ events halves. IsTold events halves };

    ghost ends = { λ topic events end. EndsHalves topic events };

    ghost goes_on = { λ topic events. GoesOnHalves topic events };

    fn next(&self) -> Next<()> {
        match self.region() {
            Some(region) => Next::Do(region.op()),
            None => Next::End(()),
        }
    }

    fn take(&mut self, reply: &Reply) {
        self.told(reply);
    }

    fn waited(&mut self) {}

    fn asked(&mut self, _number: u32) {}
}

impl NeedsPages for Halves {
    ghost use Rattle.std.specs.Prelude.{true};
    ghost use Rattle.module_reading.specs.ImageReading.{addressing, addressed_after, after_lack, in_hand, needed_after, page_by};

    ghost page = { λ halves. page_by (in_hand halves) };

    ghost needs = { λ topic events. needed_after topic events };

    ghost addressing = { addressing };

    ghost addressed = { λ topic events. addressed_after topic events };

    ghost may_lack = { λ topic. true };

    ghost lacking = { λ halves number. after_lack halves };

    fn page(&self) -> Option<u16> {
        match self.region() {
            Some(region) => region.page(),
            None => None,
        }
    }

    // It is told by the lower half of A0, which is read first.
    fn addressing(&self) -> Option<PageAddressing> {
        match self.settled {
            0 => None,
            _ => Some(addressing(&self.image.view())),
        }
    }

    fn may_lack(&self) -> bool {
        true
    }

    fn lacks(&mut self, _number: u16) {
        self.left_out();
    }
}
