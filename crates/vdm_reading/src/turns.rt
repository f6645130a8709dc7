//! What a reply makes of a reading of statistics.
ghost use Rattle.std.specs.Prelude.{◌≡◌, length, slice_index};
ghost use Rattle.bus_model.specs.declared.operation.Reply.TheVariants.{Bytes};
ghost use Rattle.paged_memory.specs.declared.page_addressing.PageAddressing.TheVariants.{BankAndPage};
ghost use Rattle.paged_memory.specs.KnownPages.{is_known, selection_read};
ghost use Rattle.conversations.specs.Wanted.{IsReplyTo};
ghost use Rattle.vdm_reading.specs.BankPages.{bank_pages};
ghost use Rattle.vdm_reading.specs.VdmStages as spec;

use crate::end::{MAX_PAGES, Release, Statistics};
use crate::reading::{VdmReading, VdmStage, numbered};
use arrayvec::ArrayVec;
use bus_model::Reply;
use observables::{advertised_pages, has_observables};
use paged_memory::{Image, Key, KnownPage, PAGE_LEN, Page, PageAddressing};

impl VdmReading {
    // Takes a reply.
    pub(crate) fn advance(&mut self, reply: &Reply)
        requires { IsReplyTo (spec.wants self.old) reply.now }
        ensures { self.new ≡ spec.after self.old reply.now }
    {
        if self.selection.is_open() {
            self.read_back(reply);
            return;
        }
        match self.selection.missing(Some(self.current_page())) {
            Some(_page) => self.selected(reply),
            None => self.worked(reply),
        }
    }

    fn enter(&mut self, stage: VdmStage)
        ensures { self.new ≡ spec.enter stage self.old }
    {
        self.stage = stage;
        self.left = stage.allowance();
    }

    fn finish(&mut self)
        ensures { self.new ≡ spec.finish self.old }
    {
        if self.release.may_be_frozen() {
            self.enter(VdmStage::Release);
        } else {
            self.enter(VdmStage::Over);
        }
    }

    fn next_page(&mut self)
        ensures { self.new ≡ spec.next_page self.old }
    {
        match self.todo.pop_at(0) {
            Some(page) => self.enter(VdmStage::Page(page)),
            None => self.finish(),
        }
    }

    fn lose(&mut self)
        ensures { self.new ≡ spec.lost_at self.old.stage self.old }
    {
        match self.stage {
            VdmStage::Freeze => {
                self.statistics = Statistics::Refused;
                self.next_page();
            }
            VdmStage::Freezing => {
                self.statistics = Statistics::Pending;
                self.next_page();
            }
            VdmStage::Page(_) => self.next_page(),
            _ => self.enter(VdmStage::Over),
        }
    }

    fn count_fruitless(&mut self)
        ensures { self.new ≡ spec.fruitless self.old }
    {
        self.due = true;
        if self.left > 0 {
            self.left -= 1;
        } else {
            self.lose();
        }
    }

    fn fail(&mut self)
        ensures { self.new ≡ spec.failed self.old }
    {
        self.selection = KnownPage::Unknown;
        self.count_fruitless();
    }

    fn selected(&mut self, reply: &Reply)
        ensures { self.new ≡ spec.after_selection self.old reply.now }
    {
        match reply {
            Reply::Done => self.selection = KnownPage::Open,
            _ => self.fail(),
        }
    }

    fn read_back(&mut self, reply: &Reply)
        ensures { self.new ≡ spec.after_read_back self.old reply.now }
    {
        match reply {
            Reply::Bytes(bytes) => self.confirm(shows(bytes, self.current_page())),
            _ => self.fail(),
        }
    }

    fn confirm(&mut self, shows: bool)
        ensures { self.new ≡ spec.confirmed shows self.old }
    {
        if shows {
            self.selection = KnownPage::Page(self.current_page());
        } else {
            self.fail();
        }
    }

    fn worked(&mut self, reply: &Reply)
        requires { IsReplyTo (spec.work_at self.old self.old.stage) reply.now }
        ensures { self.new ≡ spec.after_work self.old reply.now }
    {
        match reply {
            Reply::Bytes(bytes) => self.read(bytes),
            Reply::Done => self.accepted(),
            Reply::Refused => self.refused(),
        }
    }

    fn accepted(&mut self)
        ensures { self.new ≡ spec.accepted_at self.old.stage self.old }
    {
        match self.stage {
            VdmStage::Freeze => {
                self.release = Release::MayBeFrozen;
                self.enter(VdmStage::Freezing);
            }
            VdmStage::Release => {
                self.release = Release::Accepted;
                self.enter(VdmStage::Releasing);
            }
            VdmStage::Over => {}
            _ => self.fail(),
        }
    }

    // A request to freeze that was refused may have been taken.
    fn refused(&mut self)
        ensures { self.new ≡ spec.refused_at self.old.stage self.old }
    {
        match self.stage {
            VdmStage::Freeze => {
                self.release = Release::MayBeFrozen;
                self.fail();
            }
            VdmStage::Over => {}
            _ => self.fail(),
        }
    }

    fn read(&mut self, bytes: &[u8])
        requires { IsReplyTo (spec.work_at self.old self.old.stage) (Bytes (record { items = bytes.now })) }
        ensures { self.new ≡ spec.read_at self.old.stage bytes.now self.old }
    {
        match self.stage {
            VdmStage::Advertised => self.advertised(bytes),
            VdmStage::Groups => self.grouped(bytes),
            VdmStage::Freezing => self.frozen(bytes[0] / 128 % 2 == 1),
            VdmStage::Page(page) => {
                self.keep(page, bytes);
                self.next_page();
            }
            VdmStage::Releasing => self.released(bytes[0] / 64 % 2 == 1),
            VdmStage::Over => {}
            VdmStage::Freeze | VdmStage::Release => self.fail(),
        }
    }

    fn keep(&mut self, page: u16, bytes: &[u8])
        requires { length bytes.now ≡ 128 }
        ensures { self.new ≡ spec.kept page bytes.now self.old }
    {
        let mut half = [0; PAGE_LEN];
        half.copy_from_slice(bytes);
        let _full = self.image.put(Key::of_page(page), Page::from(half));
    }

    fn advertised(&mut self, bytes: &[u8])
        requires { length bytes.now ≡ 128 }
        ensures { self.new ≡ spec.advertised (spec.kept 0x01 bytes.now self.old) }
    {
        self.keep(0x01, bytes);
        if has_observables(&self.image.view()) {
            self.enter(VdmStage::Groups);
        } else {
            self.statistics = Statistics::Unsupported;
            self.enter(VdmStage::Over);
        }
    }

    fn grouped(&mut self, bytes: &[u8])
        requires { length bytes.now ≡ 128 }
        ensures { self.new ≡ spec.grouped (slice_index bytes.now 16) (spec.kept (spec.page_now self.old) bytes.now self.old) }
    {
        self.keep(self.current_page(), bytes);
        self.pages = advertised(&self.image.view(), self.request.bank);
        self.todo = advertised(&self.image.view(), self.request.bank);
        self.control = bytes[16];
        self.enter(VdmStage::Freeze);
    }

    fn frozen(&mut self, done: bool)
        ensures { self.new ≡ spec.frozen_by done self.old }
    {
        if done {
            self.statistics = Statistics::Frozen;
            self.next_page();
        } else {
            self.count_fruitless();
        }
    }

    fn released(&mut self, done: bool)
        ensures { self.new ≡ spec.released_by done self.old }
    {
        if done {
            self.release = Release::Released;
            self.enter(VdmStage::Over);
        } else {
            self.count_fruitless();
        }
    }
}

// The numbers of the pages of a bank that are advertised.
#[tactic(auto, using(crate::proofs::NumberedPages::numbers_more))]
fn advertised(image: &Image, bank: u8) -> ArrayVec<u16, MAX_PAGES>
    ensures { result.items ≡ bank_pages image.now bank }
{
    let mut numbers = ArrayVec::new();
    for page in advertised_pages(image, bank) {
        numbers.push(numbered(bank, *page));
    }
    numbers
}

// Whether a read back of these bytes shows the page.
fn shows(bytes: &[u8], page: u16) -> bool
    ensures { result ≡ is_known (selection_read BankAndPage bytes.now) page }
{
    KnownPage::of(PageAddressing::BankAndPage, bytes)
        .missing(Some(page))
        .is_none()
}
