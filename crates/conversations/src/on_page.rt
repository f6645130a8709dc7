ghost use Rattle.std.specs.Prelude.{◌≡◌};
ghost use Rattle.conversations.specs.Selecting.{chosen, lacked_by, taken_by};

use crate::conversation::Conversation;
use crate::next::Next;
use crate::pausing::is_refused;
use bus_model::Reply;
use paged_memory::{KnownPage, PageAddressing};

/// A conversation whose operations need pages, and leave the selection alone.
pub trait NeedsPages: Conversation {
    ghost use Rattle.std.specs.Prelude.{◌≡◌, ℕ, ◌∷◌, Bool, Option, None, Some};
    ghost use Rattle.conversations.specs.declared.event.Event.{Event};
    ghost use Rattle.conversations.specs.declared.event.Event.TheVariants.{Lacked};
    ghost use Rattle.conversations.specs.Events.{Events};
    ghost use Rattle.conversations.specs.Wanted.{IfDo};
    ghost use Rattle.paged_memory.specs.declared.page_addressing.PageAddressing.{PageAddressing};
    ghost use Rattle.paged_memory.specs.KnownPages.{IsApart};

    /// The page that the operation needs that is wanted; none for the lower memory.
    ghost page: { Self → Option ℕ };

    /// That which an operation needs after these events.
    ghost needs: { Self.Topic → Events → Option ℕ };

    /// How pages are selected; none while that isn't known.
    ghost addressing: { Self → Option PageAddressing };

    /// That which these events tell.
    ghost addressed: { Self.Topic → Events → Option PageAddressing };

    /// Whether it is to be told that a page isn't there.
    ghost may_lack: { Self.Topic → Bool };

    /// What it is once it was told that the page isn't there.
    ghost lacking: { Self → ℕ → Self };

    /// The number of the page that the operation needs that is wanted. Before it is known how pages are selected, none is.
    fn page(&self) -> Option<u16>
        ensures value { result ≡ page self.now }
        ensures needs { (events : Events) → Self.told events self.now → page self.now ≡ needs (Self.topic self.now) events }
        ensures apart { (by : PageAddressing) → IfDo (Self.wants self.now) (IsApart by) }
        ensures unknown { addressing self.now ≡ None → page self.now ≡ None };

    /// How pages are selected, which stays so once it is known.
    fn addressing(&self) -> Option<PageAddressing>
        ensures value { result ≡ addressing self.now }
        ensures addressed { (events : Events) → Self.told events self.now → addressing self.now ≡ addressed (Self.topic self.now) events }
        ensures steady { (event : Event) (events : Events) (by : PageAddressing) → Self.told (event ∷ events) self.now →
            addressed (Self.topic self.now) events ≡ Some by → addressing self.now ≡ Some by };

    /// Whether it is to be told that a page isn't there. Else that page is selected once more.
    fn may_lack(&self) -> bool
        ensures { result ≡ may_lack (Self.topic self.now) };

    /// The page that is needed isn't there.
    fn lacks(&mut self, number: u16)
        requires { page self.old ≡ Some number }
        ensures after { self.new ≡ lacking self.old number }
        ensures topic { Self.topic self.new ≡ Self.topic self.old }
        ensures told { (events : Events) → Self.told events self.old → Self.told (Lacked number ∷ events) self.new };
}

/// A conversation on confirmed pages: before an operation its page is selected and read back.
#[derive(Drop)]
pub struct OnPage<C> {
    pub conversation: C,
    /// What is known of the page selection.
    pub selection: KnownPage,
    /// The page whose selection was accepted, until it is read back, if it may be lacked.
    pub taken: Option<u16>,
    /// Whether nothing is known of the selection after a refusal, since the module may have reset itself.
    pub doubts: bool,
}

impl<C: NeedsPages> Conversation for OnPage<C>
where
    C::End: Drop,
{
    ghost use Rattle.conversations.specs.Events.{steps_of};
    ghost use Rattle.conversations.specs.Selecting.{Knows, WithSelections, chosen, next_on, on_after, trusted};

    type Topic = (bool, C::Topic);

    type End = C::End;

    ghost topic = { λ on. (on.doubts, C.topic on.conversation) };

    ghost wants = { λ on. next_on (chosen (C.addressing on.conversation)) on.selection (C.page on.conversation) (C.wants on.conversation) };

    ghost after = { λ on reply. on_after (λ c r. C.after c r) (λ c number. C.lacking c number) (C.may_lack (C.topic on.conversation)) (chosen (C.addressing on.conversation)) (C.page on.conversation) on reply };

    ghost told = { λ events on. Knows (C.may_lack (C.topic on.conversation)) (C.addressing on.conversation) on.selection on.taken (trusted on.doubts (steps_of events))
        × WithSelections on.doubts (C.may_lack (C.topic on.conversation)) (C.addressed (C.topic on.conversation)) (C.needs (C.topic on.conversation)) (λ own. C.told own on.conversation) events };

    ghost ends = { λ topic events end. WithSelections topic.0 (C.may_lack topic.1) (C.addressed topic.1) (C.needs topic.1) (λ own. C.ends topic.1 own end) events };

    ghost goes_on = { λ topic events. WithSelections topic.0 (C.may_lack topic.1) (C.addressed topic.1) (C.needs topic.1) (λ own. C.goes_on topic.1 own) events };

    fn next(&self) -> Next<C::End> {
        match self.conversation.next() {
            Next::Do(op) => {
                let addressing = chosen(self.conversation.addressing());
                let page = self.conversation.page();
                Next::Do(self.selection.wanted(addressing, page, op))
            }
            next => next,
        }
    }

    fn take(&mut self, reply: &Reply) {
        self.take_trusting(reply);
        self.doubt(reply);
    }

    fn waited(&mut self) {
        let _known = self.conversation.addressing();
        self.conversation.waited();
        let _same = self.conversation.addressing();
    }

    fn asked(&mut self, number: u32) {
        let _known = self.conversation.addressing();
        self.conversation.asked(number);
        let _same = self.conversation.addressing();
    }
}

impl<C: NeedsPages> OnPage<C> {
    ghost use Rattle.std.specs.Prelude.{◌≡◌, ◌∷◌};
    ghost use Rattle.bus_model.specs.declared.operation.Op.{Op};
    ghost use Rattle.bus_model.specs.declared.operation.Step.{Step};
    ghost use Rattle.conversations.specs.declared.next.Next.TheVariants.{Do};
    ghost use Rattle.conversations.specs.Events.{Events, made, steps_of};
    ghost use Rattle.conversations.specs.Selecting.{Knows, WithSelections, after_trusting, chosen, next_on, trusted};
    ghost use Rattle.conversations.specs.Wanted.{IsReplyTo};

    // As if a refusal left the selection as it is.
    fn take_trusting(&mut self, reply: &Reply)
    where
        C::End: Drop,
        requires { IsReplyTo (next_on (chosen (C.addressing self.old.conversation)) self.old.selection (C.page self.old.conversation) (C.wants self.old.conversation)) reply.now }
        ensures after { self.new ≡ after_trusting (λ c r. C.after c r) (λ c number. C.lacking c number) (C.may_lack (C.topic self.old.conversation)) (chosen (C.addressing self.old.conversation)) (C.page self.old.conversation) self.old reply.now }
        ensures doubts { self.new.doubts ≡ self.old.doubts }
        ensures topic { C.topic self.new.conversation ≡ C.topic self.old.conversation }
        ensures told { (events : Events) (op : Op) → next_on (chosen (C.addressing self.old.conversation)) self.old.selection (C.page self.old.conversation) (C.wants self.old.conversation) ≡ Do op →
            Knows (C.may_lack (C.topic self.old.conversation)) (C.addressing self.old.conversation) self.old.selection self.old.taken (trusted self.old.doubts (steps_of events)) →
            WithSelections self.old.doubts (C.may_lack (C.topic self.old.conversation)) (C.addressed (C.topic self.old.conversation)) (C.needs (C.topic self.old.conversation)) (λ own. C.told own self.old.conversation) events →
            Knows (C.may_lack (C.topic self.new.conversation)) (C.addressing self.new.conversation) self.new.selection self.new.taken (record { op = op; reply = reply.now } ∷ trusted self.old.doubts (steps_of events))
            × WithSelections self.old.doubts (C.may_lack (C.topic self.new.conversation)) (C.addressed (C.topic self.new.conversation)) (C.needs (C.topic self.new.conversation)) (λ own. C.told own self.new.conversation) (made op reply.now ∷ events) }
    {
        let addressing = chosen(self.conversation.addressing());
        let page = self.conversation.page();
        if self.selection.is_open() {
            match self.read_back(addressing, page, reply) {
                Some(number) => {
                    self.conversation.lacks(number);
                    let _same = self.conversation.addressing();
                }
                None => {}
            }
            return;
        }
        match self.selection.missing(page) {
            Some(number) => {
                self.selection = KnownPage::Open;
                self.taken = taken_by(self.conversation.may_lack(), number, reply);
            }
            None => {
                self.taken = None;
                self.conversation.take(reply);
                let _same = self.conversation.addressing();
            }
        }
    }
}

impl<C> OnPage<C> {
    ghost use Rattle.std.specs.Prelude.{◌≡◌};
    ghost use Rattle.conversations.specs.Selecting.{doubting, lacked, taken_after};
    ghost use Rattle.paged_memory.specs.KnownPages.{selection_told};

    // After a refusal, forgets what is known of the selection, if it doubts.
    fn doubt(&mut self, reply: &Reply)
        ensures { self.new ≡ doubting self.old reply.now }
    {
        if self.doubts && is_refused(reply) {
            self.selection = KnownPage::Unknown;
            self.taken = None;
        }
    }

    // Answers the page that is needed, if it isn't there.
    fn read_back(
        &mut self,
        addressing: PageAddressing,
        page: Option<u16>,
        reply: &Reply,
    ) -> Option<u16>
        ensures new { self.new ≡ record {
          conversation = self.old.conversation;
          selection = selection_told addressing self.old.selection reply.now;
          taken = taken_after self.old.taken reply.now;
          doubts = self.old.doubts;
        } }
        ensures lacked { result ≡ lacked addressing page self.old.taken reply.now }
    {
        match reply {
            Reply::Bytes(bytes) => {
                let taken = self.taken;
                self.selection = KnownPage::of(addressing, bytes);
                self.taken = None;
                lacked_by(page, taken, self.selection.missing(Some(0)).is_none())
            }
            Reply::Done => None,
            Reply::Refused => None,
        }
    }
}

fn chosen(addressing: Option<PageAddressing>) -> PageAddressing
    ensures { result ≡ chosen addressing }
{
    match addressing {
        Some(addressing) => addressing,
        None => PageAddressing::BankAndPage,
    }
}

fn taken_by(may: bool, page: u16, reply: &Reply) -> Option<u16>
    ensures { result ≡ taken_by may page reply.now }
{
    match reply {
        Reply::Done if may => Some(page),
        _ => None,
    }
}

// If page 00h shows.
fn lacked_by(page: Option<u16>, taken: Option<u16>, shows: bool) -> Option<u16>
    ensures { result ≡ lacked_by page taken shows }
{
    match (page, taken) {
        (Some(page), Some(taken)) if shows && page > 0 && page == taken => Some(page),
        _ => None,
    }
}
