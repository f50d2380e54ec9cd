//! Changes that are taken back, and the ends of their transactions.

ghost use Rattle.std.specs.Prelude.{◌≡◌, true, Some};
ghost use Rattle.restart_marks.specs.declared.told.RestartTold.TheVariants as told;
ghost use Rattle.restart_marks.specs.State.{with_names};
ghost use Rattle.restart_records.specs.Trans.{is_at_row, ending_in};
ghost use Rattle.restart_marks.specs.Undoing.{may_undo, may_undo_as, hand_changed, taken_back_from, undone_by, undone_told, undone_after, names_freed, forced_after, stale_after};

use crate::marks::RestartMarks;
use crate::told::RestartTold;
use ds_base::Lrsn;
use restart_records::{Newest, back_record, both_fit, ended_record, put_both};

impl RestartMarks {
    /// Whether the log buffer takes the records of the newest change of the transaction that is taken back by this number.
    pub fn may_undo(&self, id: Lrsn, lrsn: Lrsn) -> bool
        ensures { result ≡ may_undo self.now id lrsn }
    {
        let Some(it) = self.trans.newest(id) else {
            return false;
        };
        if id.number() == 0 {
            return false;
        }
        let back = back_record(id, lrsn, &it);
        let ended = ended_record(id, lrsn);
        both_fit(&self.log, &back, &ended)
    }

    // The page in hand is changed by this number.
    fn note_changed(&mut self, lrsn: Lrsn)
        ensures { self.new ≡ hand_changed self.old lrsn }
    {
        self.hand.changed = true;
        self.hand.last = lrsn;
        self.meet(lrsn);
    }

    fn take_back(&mut self, id: Lrsn, is_last: bool)
        ensures { self.new ≡ taken_back_from self.old id is_last }
    {
        self.trans.take_back(id);
        if is_last {
            self.trans.end(id);
        }
    }

    fn note_back(&mut self, id: Lrsn, lrsn: Lrsn, it: &Newest)
        requires may { may_undo_as self.old id lrsn (Some it.now) ≡ true }
        requires row { is_at_row it.now.change ≡ true }
        ensures { self.new ≡ undone_by self.old id lrsn it.now }
    {
        let is_last = self.trans.is_last(id);
        let back = back_record(id, lrsn, it);
        let ended = ended_record(id, lrsn);
        put_both(&mut self.log, &back, &ended, is_last);
        self.note_changed(lrsn);
        self.take_back(id, is_last);
    }

    /// The newest change of the transaction was taken back in the page in hand by this number: puts its compensation, and
    /// the Ended record behind that of the last one, where the log buffer takes them.
    pub fn note_undone(&mut self, id: Lrsn, lrsn: Lrsn) -> RestartTold
        ensures told { result ≡ undone_told self.old id lrsn }
        ensures after { self.new ≡ undone_after self.old id lrsn }
    {
        if !self.may_undo(id, lrsn) {
            return RestartTold::Stepped;
        }
        let Some(it) = self.trans.newest(id) else {
            return RestartTold::Stepped;
        };
        self.note_back(id, lrsn, &it);
        RestartTold::Undone
    }

    /// The copy in hand isn't valid any more.
    pub fn note_stale(&mut self) -> RestartTold
        ensures told { result ≡ told.Stale }
        ensures after { self.new ≡ stale_after self.old }
    {
        self.hand.registered = false;
        RestartTold::Stale
    }

    fn free_ended(&mut self)
        ensures { self.new ≡ with_names self.old (names_freed self.old.names (ending_in self.old.trans)) }
    {
        if let Some(it) = self.trans.ending() {
            self.names.free_tran(&it.tran);
        }
    }

    /// The log buffer stands in the log: the transaction whose Ended record was in it is over, and needs no names.
    pub fn forced(&mut self) -> RestartTold
        ensures told { result ≡ told.Forced }
        ensures after { self.new ≡ forced_after self.old }
    {
        self.free_ended();
        self.trans.finish();
        self.log.forced();
        RestartTold::Forced
    }
}
