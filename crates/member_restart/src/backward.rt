//! Transactions that are taken back.

ghost use Rattle.restart_marks.specs.Moves.{Reaches};

use crate::restart::MemberRestart;
use crate::stage::{Ended, Stage};
use ds_base::{Lrsn, NoMemory, Volume};
use ds_model::{Body, LogRecord};
use lock_names::Name;
use page_format::Page;
use page_redo::row_fault;
use restart_marks::{RestartMarks, RestartTran};
use restart_resources::RestartOutcome;
use std::alloc::Global;

impl MemberRestart {
    /// The next open transaction; behind the last one the restart ends.
    #[tactic(auto, using(restart_marks::specs::Moves::on, restart_marks::specs::Moves::stays))]
    pub(crate) fn next_tran(&mut self, marks: &mut RestartMarks)
        ensures { Reaches marks.old marks.new }
    {
        match self.tran() {
            None => self.stage = Stage::Unregister,
            Some(id) => self.begin_tran(id, marks),
        }
    }

    // A transaction without changes is closed.
    #[tactic(auto, using(restart_marks::specs::Moves::on, restart_marks::specs::Moves::stays))]
    fn begin_tran(&mut self, id: Lrsn, marks: &mut RestartMarks)
        ensures { Reaches marks.old marks.new }
    {
        if marks.newest(id).is_some() {
            self.begin_lock(marks);
        } else {
            marks.close(id);
            self.stage = Stage::EndedAppend;
        }
    }

    #[tactic(auto, using(restart_marks::specs::Moves::on, restart_marks::specs::Moves::stays))]
    pub(crate) fn take_undoing(
        &mut self,
        alloc: Global,
        outcome: &RestartOutcome<'_>,
        marks: &mut RestartMarks,
    ) -> Result<(), NoMemory>
        ensures { Reaches marks.old marks.new }
    {
        match outcome {
            RestartOutcome::Ready { page } => self.draw_next(page, marks),
            RestartOutcome::Undone { page } => self.take_undone(page, marks),
            RestartOutcome::Stale => self.stage = Stage::UndoFill,
            RestartOutcome::Forced => return self.take_forced(marks),
            RestartOutcome::Written => self.stage = Stage::UndoRelease,
            RestartOutcome::Released => return self.take_released(alloc, marks),
            RestartOutcome::Stepped => self.take_stepped(),
            RestartOutcome::Up => {}
            _ => {}
        }
        Ok(())
    }

    // The index is registered no more: the restart ends.
    fn take_stepped(&mut self) {
        if let Stage::Unregister = self.stage {
            self.stage = Stage::Restarted;
            self.ended = Some(match self.by {
                Some(by) => Ended::Waits { by },
                None => Ended::Done,
            });
        }
    }

    // The next change is taken back in the page, unless a field of it is in the way.
    fn draw_next(&mut self, page: &Page, marks: &RestartMarks) {
        let newest = match self.tran() {
            Some(id) => marks.newest(id),
            None => None,
        };
        let (Some(it), Some(id)) = (newest, marks.hand().page) else {
            return;
        };
        match row_fault(page, id, it.change.place.slot, it.change.key) {
            Some(at) => self.give_up(Ended::Damaged {
                volume: Volume::Page(id),
                at: at as u64,
            }),
            None => self.stage = Stage::UndoDraw,
        }
    }

    // Whether the next change of the transaction is one of the page in hand.
    fn goes_on(&self, marks: &RestartMarks) -> bool {
        let page = match self.tran() {
            Some(id) => marks.page_undone(id),
            None => None,
        };
        match page {
            Some(page) => marks.is_in_hand(page),
            None => false,
        }
    }

    fn take_undone(&mut self, page: &Page, marks: &RestartMarks) {
        if self.goes_on(marks) && marks.has_undo_room() && !marks.must_append() {
            self.draw_next(page, marks);
        } else {
            self.stage = Stage::UndoAppend;
        }
    }

    // The log buffer is stable: the undo goes on with the page in hand, or the page is written, or the transaction is over.
    #[tactic(auto, using(restart_marks::specs::Moves::on, restart_marks::specs::Moves::stays))]
    fn take_forced(&mut self, marks: &mut RestartMarks) -> Result<(), NoMemory>
        ensures { Reaches marks.old marks.new }
    {
        if let Stage::EndedAppend = self.stage {
            return self.end_tran(marks);
        }
        self.stage = if self.goes_on(marks) {
            Stage::UndoDraw
        } else {
            Stage::UndoWrite
        };
        Ok(())
    }

    // The page in hand was written and given up.
    #[tactic(auto, using(restart_marks::specs::Moves::on, restart_marks::specs::Moves::stays))]
    fn take_released(&mut self, _alloc: Global, marks: &mut RestartMarks) -> Result<(), NoMemory>
        ensures { Reaches marks.old marks.new }
    {
        marks.put_down();
        let is_open = match self.tran() {
            Some(id) => marks.newest(id).is_some(),
            None => false,
        };
        if is_open {
            self.begin_lock(marks);
            return Ok(());
        }
        self.end_tran(marks)
    }

    fn add_purges(&mut self, it: &LogRecord, is_space: bool) -> Result<(), NoMemory> {
        if let Body::RowChange { change } = &it.body {
            let name = if is_space {
                Name::Space(change.table)
            } else {
                Name::Row(change.table, change.key)
            };
            self.purges.push(name)?;
        }
        Ok(())
    }

    // The table spaces, or the rows, of the transaction's changes: those that were taken back first come first.
    fn add_names(&mut self, tran: &RestartTran, is_space: bool) -> Result<(), NoMemory> {
        for it in tran.tran.undone.as_slice() {
            self.add_purges(it, is_space)?;
        }
        for it in tran.tran.undo.as_slice().iter().rev() {
            self.add_purges(it, is_space)?;
        }
        Ok(())
    }

    fn list_purges(&mut self, marks: &RestartMarks) -> Result<(), NoMemory> {
        self.purges.clear();
        self.purged = 0;
        let Some(id) = self.tran() else {
            return Ok(());
        };
        let Some(tran) = marks.tran(id) else {
            return Ok(());
        };
        self.add_names(tran, true)?;
        self.add_names(tran, false)
    }

    // The transaction is over: the locks that no other open transaction needs are freed.
    #[tactic(auto, using(restart_marks::specs::Moves::on, restart_marks::specs::Moves::stays))]
    fn end_tran(&mut self, marks: &mut RestartMarks) -> Result<(), NoMemory>
        ensures { Reaches marks.old marks.new }
    {
        self.list_purges(marks)?;
        self.closed = self.closed.saturating_add(1);
        self.next_purge(Stage::TranPurge, marks);
        Ok(())
    }
}
