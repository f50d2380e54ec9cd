//! Local moves.

ghost use Rattle.std.specs.Prelude.{◌≡◌, is_none};
ghost use Rattle.ds_model.specs.RecordBytes.{Fits};
ghost use Rattle.restart_marks.specs.State.{with_log};
ghost use Rattle.restart_marks.specs.Moves.{TakeUpRetained, TakeUpUndone, PutDown, Close, moved, Reaches, hand_with, may_take_retained, may_take_undone, may_put_down, may_close, is_claimed, fits_in, logged};

use crate::hand::Hand;
use crate::marks::RestartMarks;
use ds_base::{Lrsn, PageId};
use ds_model::{Body, LogRecord, Version};
use restart_records::TurnKey;

fn hand_with(page: PageId, key: Option<TurnKey>) -> Hand
    ensures { result ≡ hand_with page key }
{
    Hand {
        page: Some(page),
        key,
        ..Hand::empty()
    }
}

impl RestartMarks {
    /// Whether no page is in hand.
    pub fn is_empty_handed(&self) -> bool
        ensures { result ≡ is_none self.now.hand.page }
    {
        self.hand.page.is_none()
    }

    /// Whether the page's lock is claimed.
    pub fn is_claimed(&self, page: PageId) -> bool
        ensures { result ≡ is_claimed self.now page }
    {
        match self.claim {
            Some(claimed) => claimed.set == page.set && claimed.number == page.number,
            None => false,
        }
    }

    /// Takes the first retained page up, without its bytes, where no page is in hand.
    pub fn take_up_retained(&mut self) -> bool
        ensures told { result ≡ may_take_retained self.old }
        ensures marks { self.new ≡ moved TakeUpRetained self.old }
        ensures reaches { Reaches self.old self.new }
    {
        self.set_retained()
    }

    fn set_retained(&mut self) -> bool
        ensures told { result ≡ may_take_retained self.old }
        ensures marks { self.new ≡ moved TakeUpRetained self.old }
    {
        if !self.is_empty_handed() {
            return false;
        }
        match self.pages.first() {
            Some(key) => {
                self.hand = hand_with(key.page, Some(key));
                true
            }
            None => false,
        }
    }

    /// Takes the page of the transaction's newest change that stands up, without its bytes, where no page is in hand and
    /// no retained page is left.
    pub fn take_up_undone(&mut self, id: Lrsn) -> bool
        ensures told { result ≡ may_take_undone self.old id }
        ensures marks { self.new ≡ moved (TakeUpUndone id) self.old }
        ensures reaches { Reaches self.old self.new }
    {
        self.set_undone(id)
    }

    fn set_undone(&mut self, id: Lrsn) -> bool
        ensures told { result ≡ may_take_undone self.old id }
        ensures marks { self.new ≡ moved (TakeUpUndone id) self.old }
    {
        if !self.is_empty_handed() || !self.is_listed || !self.pages.is_empty() {
            return false;
        }
        match self.page_undone(id) {
            Some(page) => {
                self.hand = hand_with(page, None);
                true
            }
            None => false,
        }
    }

    /// Puts the page in hand aside, where its lock isn't claimed, and all that is changed in it stands in the log or in the
    /// group: it isn't changed, or is still retained.
    pub fn put_down(&mut self) -> bool
        ensures told { result ≡ may_put_down self.old.hand self.old.claim }
        ensures marks { self.new ≡ moved PutDown self.old }
        ensures reaches { Reaches self.old self.new }
    {
        self.set_down()
    }

    fn may_put_down(&self) -> bool
        ensures { result ≡ may_put_down self.now.hand self.now.claim }
    {
        let is_claimed = match self.hand.page {
            Some(page) => self.is_claimed(page),
            None => false,
        };
        !is_claimed && (!self.hand.changed || self.hand.key.is_some())
    }

    fn set_down(&mut self) -> bool
        ensures told { result ≡ may_put_down self.old.hand self.old.claim }
        ensures marks { self.new ≡ moved PutDown self.old }
    {
        if !self.may_put_down() {
            return false;
        }
        self.hand = Hand::empty();
        true
    }

    /// Puts the Ended record of an open transaction none of whose changes stands, with the number of the record before it.
    pub fn close(&mut self, id: Lrsn) -> bool
        ensures told { result ≡ may_close self.old id }
        ensures marks { self.new ≡ moved (Close id) self.old }
        ensures reaches { Reaches self.old self.new }
    {
        self.set_closed(id)
    }

    fn put(&mut self, it: &LogRecord) -> bool
        requires { Fits it.now }
        ensures told { result ≡ fits_in self.old.log it.now }
        ensures after { self.new ≡ with_log self.old (logged self.old.log it.now) }
    {
        self.log.put(it).is_ok()
    }

    fn set_closed(&mut self, id: Lrsn) -> bool
        ensures told { result ≡ may_close self.old id }
        ensures marks { self.new ≡ moved (Close id) self.old }
    {
        if id.number() == 0 || self.trans.is_ending() || !self.trans.is_undone(id) {
            return false;
        }
        let it = LogRecord {
            version: Version::Two,
            lrsn: self.log.last(),
            tran: id,
            body: Body::Ended,
        };
        if !self.put(&it) {
            return false;
        }
        self.trans.end(id);
        true
    }
}
