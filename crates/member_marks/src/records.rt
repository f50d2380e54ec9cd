ghost use Rattle.std.specs.Prelude.{◌≡◌, ◌==◌, ◌+◌, ◌≤◌, length, true, OnOk, OnErr, IfSome};
ghost use Rattle.ds_base.specs.Pages.{heap_set};
ghost use Rattle.ds_model.specs.RecordBytes.{Fits, IsAllowed, record_bytes};
ghost use Rattle.member_log.specs.Buffers.{room_of, is_above};
ghost use Rattle.member_trans.specs.Trans.{with_tran, with_room, first_with, newest_of};
ghost use Rattle.member_trans.specs.declared.fate.Owner.TheVariants as owners;
ghost use Rattle.member_marks.specs.State.{MarksState, tran_of, slot_tran, with_trans, with_log};
ghost use Rattle.member_marks.specs.Records.{
  fits_in,
  logged,
  is_at_row,
  undo_page,
  may_change,
  after_change,
  after_system,
  sets_noted,
  both_fit,
  both_logged,
  row_record,
  back_record,
  ended_record,
  commit_record,
  after_back,
  may_undo_as,
  after_undo,
  may_commit,
  after_commit,
  after_append,
};

use crate::Marks;
use ds_base::{LRSN_LIMIT, Lrsn, NoMemory, PageId};
use ds_model::{Body, LogRecord, RowChange, Version};
use member_log::{compensation_of, record_length};
use member_trans::{Owner, Trans};
use page_format::Patch;

/// The slots of a heap page are below this.
const SLOTS: u16 = 31;

// Whether the place of the change can be that of a row.
fn is_at_row(change: &RowChange) -> bool
    ensures { result ≡ is_at_row change.now }
{
    change.place.page != 0 && change.place.slot < SLOTS
}

fn number_or(first: Lrsn, lrsn: Lrsn) -> Lrsn
    ensures { result ≡ first_with first lrsn }
{
    if first.number() == 0 { lrsn } else { first }
}

fn row_set(change: &RowChange) -> u16
    ensures { result ≡ heap_set change.now.table }
{
    change.table.heap_set()
}

// Notes the page sets of the patches for the slot's transaction.
#[tactic(auto, using(crate::proofs::Noting::noted_step))]
fn note_sets(trans: &mut Trans, slot: u8, patches: &[Patch])
    ensures { trans.new ≡ sets_noted trans.old slot patches.now }
{
    for patch in patches {
        trans.note_set(&Owner::Slot(slot), patch.page.set);
    }
}

impl Marks {
    /// The bytes that are left in the log buffer.
    pub fn log_room(&self) -> u32
        ensures { result ≡ room_of self.now.log }
    {
        self.log.room()
    }

    pub fn is_log_empty(&self) -> bool
        ensures { result ≡ (length self.now.log.pending == 0) }
    {
        self.log.is_empty()
    }

    /// Whether a record is pending whose number is above the limit: it must go to the log before a number is drawn.
    pub fn must_append(&self) -> bool
        ensures { result ≡ is_above self.now.log LRSN_LIMIT }
    {
        match Lrsn::new(LRSN_LIMIT) {
            Some(limit) => self.log.is_above(limit),
            None => false,
        }
    }

    /// The number of the last record that stands in the log, 0 where there is none.
    pub fn stable(&self) -> Lrsn
        ensures { result ≡ self.now.log.stable }
    {
        self.log.stable()
    }

    /// The bytes of the records that wait for the log.
    pub fn pending(&self) -> &[u8]
        ensures { result.now ≡ self.now.log.pending }
    {
        self.log.pending()
    }

    /// The heap page of the newest row change of the transaction that stands.
    pub fn undo_page(&self, owner: &Owner) -> Option<PageId>
        ensures { result ≡ undo_page self.now owner.now }
    {
        let newest = self.trans.newest(owner)?;
        Some(PageId {
            set: row_set(&newest.change),
            number: newest.change.place.page,
        })
    }
}

impl Marks {
    /// Takes the memory for one more row change of the slot's transaction.
    pub fn reserve_change(&mut self, slot: u8) -> Result<(), NoMemory>
        ensures ok { OnOk result (self.new ≡ with_trans self.old (with_tran self.old.trans slot (with_room (slot_tran self.old slot)))) }
        ensures err { OnErr result (self.new ≡ self.old) }
    {
        self.trans.reserve_change(slot)
    }

    fn put(&mut self, it: &LogRecord) -> bool
        requires { Fits it.now }
        ensures told { result ≡ fits_in self.old.log it.now }
        ensures after { self.new ≡ with_log self.old (logged self.old.log it.now) }
        ensures allowed { result ≡ true → IsAllowed it.now }
    {
        self.log.put(it).is_ok()
    }

    /// Puts the record of a row change of the slot's transaction, and notes the change, where both have room.
    pub fn note_change(&mut self, slot: u8, lrsn: Lrsn, change: &RowChange) -> bool
        ensures told { result ≡ may_change self.old slot lrsn change.now }
        ensures after { self.new ≡ after_change self.old slot lrsn change.now }
        ensures allowed { result ≡ true → IsAllowed (row_record (slot_tran self.old slot) lrsn change.now) }
    {
        if lrsn.number() == 0 || !is_at_row(change) || !self.trans.has_room(slot) {
            return false;
        }
        let it = LogRecord {
            version: Version::Two,
            lrsn,
            tran: number_or(self.trans.first(&Owner::Slot(slot)), lrsn),
            body: Body::RowChange { change: *change },
        };
        if !self.put(&it) {
            return false;
        }
        self.trans.note_change(slot, lrsn, change);
        self.trans.note_set(&Owner::Slot(slot), row_set(change));
        true
    }

    /// Puts the record of changed pages, and notes their page sets for the slot's transaction, where there is room.
    pub fn put_system(&mut self, slot: u8, it: &LogRecord) -> bool
        requires { Fits it.now }
        ensures told { result ≡ fits_in self.old.log it.now }
        ensures after { self.new ≡ after_system self.old slot it.now }
        ensures allowed { result ≡ true → IsAllowed it.now }
    {
        if !self.put(it) {
            return false;
        }
        if let Body::System { patches } = &it.body {
            note_sets(&mut self.trans, slot, patches.as_slice());
        }
        true
    }

    /// Puts the compensation of the newest row change of the owner's transaction, and the Ended record behind that of the
    /// last one, where there is room for both, and notes the page set.
    pub fn note_undone(&mut self, owner: &Owner, lrsn: Lrsn) -> bool
        ensures told { result ≡ may_undo_as self.old owner.now lrsn (newest_of (tran_of self.old owner.now)) }
        ensures after { self.new ≡ after_undo self.old owner.now lrsn }
        ensures back { result ≡ true → IfSome (newest_of (tran_of self.old owner.now)) (λ it. IsAllowed (back_record (tran_of self.old owner.now) lrsn it)) }
        ensures ended { result ≡ true → (length (tran_of self.old owner.now).changes == 1) ≡ true → IsAllowed (ended_record (tran_of self.old owner.now) lrsn) }
    {
        let Some(newest) = self.trans.newest(owner) else {
            return false;
        };
        let tran = self.trans.first(owner);
        if tran.number() == 0 || !is_at_row(&newest.change) {
            return false;
        }
        let back = LogRecord {
            version: Version::Two,
            lrsn,
            tran,
            body: compensation_of(&newest.change, newest.lrsn),
        };
        let ended = LogRecord {
            version: Version::Two,
            lrsn,
            tran,
            body: Body::Ended,
        };
        self.put_back(owner, lrsn, row_set(&newest.change), &back, &ended)
    }

    fn put_back(
        &mut self,
        owner: &Owner,
        lrsn: Lrsn,
        set: u16,
        back: &LogRecord,
        ended: &LogRecord,
    ) -> bool
        requires fits { Fits back.now × Fits ended.now }
        ensures told { result ≡ both_fit self.old.log back.now ended.now }
        ensures after { self.new ≡ after_back self.old owner.now lrsn set back.now ended.now }
        ensures back { result ≡ true → IsAllowed back.now }
        ensures ended { result ≡ true → (length (tran_of self.old owner.now).changes == 1) ≡ true → IsAllowed ended.now }
    {
        if record_length(back) + record_length(ended) > self.log.room() as usize {
            return false;
        }
        let is_last = self.trans.count(owner) == 1;
        self.put_both(back, ended, is_last);
        self.trans.note_undone(owner, lrsn);
        self.trans.note_set(owner, set);
        true
    }

    fn put_both(&mut self, back: &LogRecord, ended: &LogRecord, is_last: bool)
        requires fits { Fits back.now × Fits ended.now }
        requires room { both_fit self.old.log back.now ended.now ≡ true }
        ensures after { self.new ≡ with_log self.old (both_logged self.old.log back.now ended.now is_last) }
        ensures back { IsAllowed back.now }
        ensures ended { is_last ≡ true → IsAllowed ended.now }
    {
        let _ = self.log.put(back);
        if is_last {
            let _ = self.log.put(ended);
        }
    }

    /// Puts the Commit record of the slot's transaction, where it goes forward and there is room.
    pub fn draw_commit(&mut self, slot: u8, lrsn: Lrsn) -> bool
        ensures told { result ≡ may_commit self.old slot lrsn }
        ensures after { self.new ≡ after_commit self.old slot lrsn }
        ensures allowed { result ≡ true → IsAllowed (commit_record (slot_tran self.old slot) lrsn) }
    {
        if lrsn.number() == 0 || !self.trans.is_forward(slot) {
            return false;
        }
        let it = LogRecord {
            version: Version::Two,
            lrsn,
            tran: number_or(self.trans.first(&Owner::Slot(slot)), lrsn),
            body: Body::Commit,
        };
        if !self.put(&it) {
            return false;
        }
        self.trans.draw_commit(slot);
        true
    }

    /// The pending records stand in the log: the commits among them are decided.
    pub fn decide_all(&mut self)
        ensures { self.new ≡ after_append self.old }
    {
        self.log.forced();
        self.trans.decide_all();
    }
}
