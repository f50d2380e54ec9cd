//! How a transaction goes on when what it wanted was done, or is refused.
ghost use Rattle.std.specs.Prelude.{◌≡◌, ◌<◌, true, false, vec_len, vec_capacity};
ghost use Rattle.std.specs.VecDeque.{deque_len, deque_capacity};
ghost use Rattle.tran_core.specs.States.{at_step, search, space_locked, changed, step_done, after_done, after_refusal, refused_at, without_row};
ghost use Rattle.tran_core.specs.Courses.{state_of, CanUndo};
ghost use Rattle.tran_core.specs.Stages.{changes_row, step_changes_row, wants_row_change, locks_space, step_locks_space};

use crate::course::Course;
use crate::stage::{Aim, Level, Reading, Stage, Step, Task, Undone, Update};
use ds_base::{Place, Value};

impl Course {
    pub fn go(&mut self, task: Task, step: Step)
        ensures state { state_of self.new ≡ at_step (state_of self.old) task step }
        ensures undo { self.new.undo ≡ self.old.undo }
    {
        self.stage = Stage::Work { task, step };
    }

    // Begins a search at the first branch.
    pub fn search(&mut self, task: Task)
        ensures undo { self.new.undo ≡ self.old.undo }
        ensures calm { wants_row_change self.new.stage ≡ false }
        ensures state { state_of self.new ≡ search (state_of self.old) task }
    {
        let reading = Reading::Index {
            level: Level::Branch,
            page: 1,
            branch: 1,
            key: task.key,
        };
        self.go(task, Step::Read { reading });
    }

    // The operation meets no row, and a scan no more of them.
    pub fn without_row(&mut self, aim: &Aim)
        requires { vec_len self.old.reads < vec_capacity self.old.reads }
        ensures undo { self.new.undo ≡ self.old.undo }
        ensures calm { wants_row_change self.new.stage ≡ false }
        ensures state { state_of self.new ≡ without_row (state_of self.old) aim.now }
    {
        match aim {
            Aim::Get | Aim::Getu => self.get_read(None),
            Aim::Put { .. } | Aim::Del => self.next_op(),
            Aim::Scan { .. } => self.scan_read(),
        }
    }

    fn space_locked(&mut self, task: Task)
        requires { vec_len self.old.reads < vec_capacity self.old.reads }
        ensures calm { wants_row_change self.new.stage ≡ false }
        ensures state { state_of self.new ≡ space_locked (state_of self.old) task task.aim }
    {
        match task.aim {
            Aim::Get | Aim::Getu | Aim::Put { .. } | Aim::Del => self.go(task, Step::Row),
            Aim::Scan { high } => {
                if high < task.key {
                    self.scan_read();
                } else {
                    self.search(task);
                }
            }
        }
    }

    fn row_changed(&mut self, task: Task, place: Place, back: Option<Value>)
        requires { deque_len self.old.undo < deque_capacity self.old.undo }
        ensures calm { wants_row_change self.new.stage ≡ false }
        ensures state { state_of self.new ≡ changed (state_of self.old) task (Update.RowChange place back) }
    {
        self.undo.push_front_reserved(Undone {
            table: task.table,
            key: task.key,
            place,
            back,
        });
        self.next_op();
    }

    fn changed(&mut self, task: Task, update: Update)
        requires { changes_row update ≡ true → deque_len self.old.undo < deque_capacity self.old.undo }
        ensures calm { wants_row_change self.new.stage ≡ false }
        ensures state { state_of self.new ≡ changed (state_of self.old) task update }
    {
        match update {
            Update::Split { left, branch } => {
                let reading = Reading::Halves { left, branch };
                self.go(task, Step::Read { reading });
            }
            Update::RowChange { place, back } => self.row_changed(task, place, back),
            Update::FormatIndex
            | Update::FormatHeap
            | Update::GiveSlot { .. }
            | Update::BranchEntry { .. } => self.search(task),
        }
    }

    fn step_done(&mut self, task: Task, step: Step)
        requires at { wants_row_change self.old.stage ≡ step_changes_row step }
        requires undo { step_changes_row step ≡ true → deque_len self.old.undo < deque_capacity self.old.undo }
        requires read { step_locks_space step ≡ true → vec_len self.old.reads < vec_capacity self.old.reads }
        ensures calm { wants_row_change self.new.stage ≡ false }
        ensures state { state_of self.new ≡ step_done (state_of self.old) task step }
    {
        match step {
            Step::Space => self.space_locked(task),
            Step::Row => self.search(task),
            Step::Read { .. } => {}
            Step::Change { update } => self.changed(task, update),
        }
    }

    pub fn done(&mut self)
        requires undo { CanUndo self.old }
        requires read { locks_space self.old.stage ≡ true → vec_len self.old.reads < vec_capacity self.old.reads }
        ensures calm { wants_row_change self.new.stage ≡ false }
        ensures state { state_of self.new ≡ after_done (state_of self.old) }
    {
        match self.stage {
            Stage::Work { task, step } => self.step_done(task, step),
            Stage::Raise { .. } | Stage::Await { .. } | Stage::LoseCache => self.next_op(),
            Stage::Commit => self.stage = Stage::Ended,
            Stage::Undo => {
                let _last = self.undo.pop_front();
            }
            Stage::Ended => {}
        }
    }

    pub fn refuse(&mut self)
        ensures calm { wants_row_change self.new.stage ≡ false }
        ensures state { state_of self.new ≡ after_refusal (state_of self.old) }
    {
        self.stage = match self.stage {
            Stage::Ended => Stage::Ended,
            _ => Stage::Undo,
        };
    }
}
