//! A transaction in hand.
ghost use Rattle.std.specs.Prelude.{◌≡◌, false, ◌+◌, ◌<◌, ◌≤◌, ◌∷◌, ◌++◌, [], IfOk, OnOk, OnErr, vec_len, vec_capacity, None};
ghost use Rattle.std.specs.VecDeque.{deque_len, deque_capacity};
ghost use Rattle.tran_core.specs.Wants.{said};
ghost use Rattle.tran_core.specs.States.{begin, task_of, opened, want_of, next_op, get_read, scan_read};
ghost use Rattle.tran_core.specs.Courses.{state_of, HasRoom, CanUndo};
ghost use Rattle.tran_core.specs.Stages.{wants_row_change};

use crate::Want;
use crate::asks::{want_step, want_undo};
use crate::stage::{Aim, Stage, Step, Task, Undone};
use ds_base::{Key, NoMemory, Row, RowList, TableId, Value, Volume};
use ds_model::{Answer, Op};
use index_leaf::Entry;
use std::alloc::Global;
use std::collections::VecDeque;
use std::mem;

/// A transaction in hand: its operations, how many of them were begun, and what they led to.
#[derive(Drop)]
pub struct Course {
    pub ops: Vec<Op>,
    pub begun: usize,
    pub stage: Stage,
    pub reads: Vec<Answer>,
    /// The changes that were made, the last first.
    pub undo: VecDeque<Undone>,
    /// The rows that a scan has read.
    pub rows: Vec<Row>,
    /// The entries that a scan still has to follow in the leaf in hand.
    pub entries: VecDeque<Entry>,
    pub damage: Option<(Volume, u64)>,
}

fn task_of(table: TableId, key: Key, aim: Aim) -> Stage
    ensures { result ≡ task_of table key aim }
{
    Stage::Work {
        task: Task { table, key, aim },
        step: Step::Space,
    }
}

// How an operation begins.
fn begin(op: Op) -> Stage
    ensures { result ≡ begin op }
{
    match op {
        Op::Get { table, key } => task_of(table, key, Aim::Get),
        Op::Getu { table, key } => task_of(table, key, Aim::Getu),
        Op::Put { table, key, value } => task_of(table, key, Aim::Put { value }),
        Op::Del { table, key } => task_of(table, key, Aim::Del),
        Op::Scan { table, low, high } => task_of(table, low, Aim::Scan { high }),
        Op::Raise { flag } => Stage::Raise { flag },
        Op::Await { flag } => Stage::Await { flag },
        Op::LoseCache => Stage::LoseCache,
        Op::Abort => Stage::Undo,
    }
}

impl Course {
    pub fn new(alloc: Global, ops: Vec<Op>) -> Course
        ensures calm { wants_row_change result.stage ≡ false }
        ensures state { state_of result ≡ opened ops.items }
    {
        let mut course = Course {
            ops,
            begun: 0,
            stage: Stage::Commit,
            reads: Vec::new(alloc),
            undo: VecDeque::new(alloc),
            rows: Vec::new(alloc),
            entries: VecDeque::new(alloc),
            damage: None,
        };
        course.next_op();
        course
    }

    // Begins the next operation, or the commit behind the last one.
    pub fn next_op(&mut self)
        ensures undo { self.new.undo ≡ self.old.undo }
        ensures calm { wants_row_change self.new.stage ≡ false }
        ensures state { state_of self.new ≡ next_op (state_of self.old) }
    {
        if self.begun < self.ops.len() {
            self.stage = begin(self.ops[self.begun]);
            self.begun += 1;
        } else {
            self.stage = Stage::Commit;
        }
    }

    pub fn want(&self) -> Want<'_>
        ensures { said result ≡ want_of (state_of self.now) }
    {
        match &self.stage {
            Stage::Work { task, step } => want_step(task, step),
            Stage::Raise { flag } => Want::Raise { flag: *flag },
            Stage::Await { flag } => Want::Await { flag: *flag },
            Stage::LoseCache => Want::LoseCache,
            Stage::Commit => Want::Commit,
            Stage::Undo => want_undo(self.undo.front()),
            Stage::Ended => Want::Ended,
        }
    }

    // Takes the room for one more read, row and change. Nothing else changes.
    pub fn make_room(&mut self) -> Result<(), NoMemory>
        ensures same { state_of self.new ≡ state_of self.old }
        ensures room { OnOk result (HasRoom self.new) }
        ensures keeps { CanUndo self.old → CanUndo self.new }
    {
        self.reads.reserve(1)?;
        self.rows.reserve(1)?;
        self.undo.reserve(1)?;
        Ok(())
    }

    // A `get` or `getu` has read its row.
    pub fn get_read(&mut self, value: Option<Value>)
        requires { vec_len self.old.reads < vec_capacity self.old.reads }
        ensures undo { self.new.undo ≡ self.old.undo }
        ensures calm { wants_row_change self.new.stage ≡ false }
        ensures state { state_of self.new ≡ get_read (state_of self.old) value }
    {
        self.reads.push_reserved(Answer::Value(value));
        self.next_op();
    }

    // A `scan` has read its rows.
    pub fn scan_read(&mut self)
        requires { vec_len self.old.reads < vec_capacity self.old.reads }
        ensures undo { self.new.undo ≡ self.old.undo }
        ensures calm { wants_row_change self.new.stage ≡ false }
        ensures state { state_of self.new ≡ scan_read (state_of self.old) }
    {
        let alloc = *self.rows.allocator();
        let rows = mem::replace(&mut self.rows, Vec::new(alloc));
        self.reads
            .push_reserved(Answer::Rows(RowList::from_vec(rows)));
        self.next_op();
    }
}
