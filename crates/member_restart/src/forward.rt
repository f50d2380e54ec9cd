//! The own log, the retained locks, and the retained pages.

ghost use Rattle.restart_marks.specs.Moves.{Reaches};

use crate::restart::MemberRestart;
use crate::stage::Stage;
use ds_base::NoMemory;
use lock_names::Name;
use restart_marks::RestartMarks;
use restart_resources::RestartOutcome;
use std::alloc::Global;

// Table spaces are freed before rows, each by their numbers, in whatever order they are listed.
fn turn_of(name: &Name) -> (u64, u64, u64) {
    match *name {
        Name::Space(table) => (1, table.number() as u64, 0),
        Name::Row(table, key) => (2, table.number() as u64, key),
        Name::Page(page) => (3, page.set as u64, page.number as u64),
        Name::Set(set) => (4, set as u64, 0),
    }
}

impl MemberRestart {
    // The open transactions: those with nothing to take back first, then the latest first.
    fn order_trans(&mut self, marks: &RestartMarks) -> Result<(), NoMemory> {
        for it in marks.trans() {
            if it.stands == 0 {
                self.trans.push(it.tran.id)?;
            }
        }
        for it in marks.trans().iter().rev() {
            if it.stands != 0 {
                self.trans.push(it.tran.id)?;
            }
        }
        Ok(())
    }

    #[tactic(auto, using(restart_marks::specs::Moves::on, restart_marks::specs::Moves::stays))]
    pub(crate) fn take_log(
        &mut self,
        _alloc: Global,
        outcome: &RestartOutcome<'_>,
        marks: &mut RestartMarks,
    ) -> Result<(), NoMemory>
        ensures { Reaches marks.old marks.new }
    {
        if let RestartOutcome::LogWhole = outcome {
            self.order_trans(marks)?;
            self.stage = if marks.tail() == 0 {
                Stage::List
            } else {
                Stage::CutTail
            };
        }
        Ok(())
    }

    pub(crate) fn take_cut(&mut self, outcome: &RestartOutcome<'_>) {
        if let RestartOutcome::TailCut = outcome {
            self.stage = Stage::List;
        }
    }

    // Behind the last retained lock forward recovery begins.
    #[tactic(auto, using(restart_marks::specs::Moves::on, restart_marks::specs::Moves::stays))]
    pub(crate) fn take_listed(
        &mut self,
        _alloc: Global,
        outcome: &RestartOutcome<'_>,
        marks: &mut RestartMarks,
    ) -> Result<(), NoMemory>
        ensures { Reaches marks.old marks.new }
    {
        match outcome {
            RestartOutcome::Record(Name::Page(_)) => Ok(()),
            RestartOutcome::Record(name) => {
                self.names.push(*name)?;
                Ok(())
            }
            RestartOutcome::NoRecord => {
                self.names.sort_by_key(|name| turn_of(name))?;
                self.next_page(marks)
            }
            _ => Ok(()),
        }
    }

    // The next page whose rank isn't known, or else the next one in the order of page writes; behind the last one the names
    // of table spaces and rows follow.
    #[tactic(auto, using(restart_marks::specs::Moves::on, restart_marks::specs::Moves::stays))]
    fn next_page(&mut self, marks: &mut RestartMarks) -> Result<(), NoMemory>
        ensures { Reaches marks.old marks.new }
    {
        match marks.first_page() {
            Some(key) => {
                marks.take_up_retained();
                self.stage = if key.turn == 0 {
                    Stage::Rank
                } else {
                    Stage::Recover
                };
                Ok(())
            }
            None => self.begin_sweep(marks),
        }
    }

    #[tactic(auto, using(restart_marks::specs::Moves::on, restart_marks::specs::Moves::stays))]
    fn put_down(&mut self, marks: &mut RestartMarks) -> Result<(), NoMemory>
        ensures { Reaches marks.old marks.new }
    {
        marks.put_down();
        self.next_page(marks)
    }

    // The page in hand is brought forward; a changed one is written before its lock is freed.
    #[tactic(auto, using(restart_marks::specs::Moves::on, restart_marks::specs::Moves::stays))]
    pub(crate) fn take_recovered(
        &mut self,
        _alloc: Global,
        outcome: &RestartOutcome<'_>,
        marks: &mut RestartMarks,
    ) -> Result<(), NoMemory>
        ensures { Reaches marks.old marks.new }
    {
        let RestartOutcome::Ready { .. } = outcome else {
            return Ok(());
        };
        if let Stage::Rank = self.stage {
            return self.put_down(marks);
        }
        self.stage = if marks.hand().changed {
            Stage::RecoverWrite
        } else {
            Stage::RecoverPurge
        };
        Ok(())
    }

    pub(crate) fn take_recovered_write(&mut self, outcome: &RestartOutcome<'_>) {
        if let RestartOutcome::Written = outcome {
            self.stage = Stage::RecoverPurge;
        }
    }

    #[tactic(auto, using(restart_marks::specs::Moves::on, restart_marks::specs::Moves::stays))]
    pub(crate) fn take_page_purged(
        &mut self,
        _alloc: Global,
        outcome: &RestartOutcome<'_>,
        marks: &mut RestartMarks,
    ) -> Result<(), NoMemory>
        ensures { Reaches marks.old marks.new }
    {
        let RestartOutcome::Purged = outcome else {
            return Ok(());
        };
        self.put_down(marks)
    }

    // The locks of table spaces and rows are freed that no open transaction needs.
    #[tactic(auto, using(restart_marks::specs::Moves::on, restart_marks::specs::Moves::stays))]
    fn begin_sweep(&mut self, marks: &mut RestartMarks) -> Result<(), NoMemory>
        ensures { Reaches marks.old marks.new }
    {
        self.purges.clear();
        self.purged = 0;
        for name in &self.names {
            self.purges.push(*name)?;
        }
        self.next_purge(Stage::SweepPurge, marks);
        Ok(())
    }

    /// The next lock that is retained and that no open transaction needs; behind the last one the next transaction.
    #[tactic(auto, using(restart_marks::specs::Moves::on, restart_marks::specs::Moves::stays))]
    pub(crate) fn next_purge(&mut self, stage: Stage, marks: &mut RestartMarks)
        ensures { Reaches marks.old marks.new }
    {
        self.skip_purges(marks);
        if self.purged < self.purges.len() {
            self.stage = stage;
        } else {
            self.next_tran(marks);
        }
    }

    // Passes the names that aren't retained, or that are needed.
    fn skip_purges(&mut self, marks: &RestartMarks) {
        for _ in self.purged..self.purges.len() {
            let Some(name) = self.purges.get(self.purged) else {
                return;
            };
            let mark = marks.name(name);
            if mark.retained && mark.needed == 0 {
                return;
            }
            self.purged = self.purged.saturating_add(1);
        }
    }

    #[tactic(auto, using(restart_marks::specs::Moves::on, restart_marks::specs::Moves::stays))]
    pub(crate) fn take_purged(&mut self, outcome: &RestartOutcome<'_>, marks: &mut RestartMarks)
        ensures { Reaches marks.old marks.new }
    {
        if let RestartOutcome::Purged = outcome {
            let stage = self.stage;
            self.next_purge(stage, marks);
        }
    }
}
