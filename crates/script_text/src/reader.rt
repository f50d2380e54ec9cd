ghost use Rattle.std.specs.Prelude.{◌≡◌, ◌<◌, ◌≤◌, ◌-◌, ◌^◌, OnOk, IfOk};
ghost use Rattle.script_text.specs.Drafts.{closed, may_use_flags, place_fault, start, step_groupfail, step_phase, step_member, step_restart, step_fail, step_tran, step_op, step_end, step_line};
ghost use Rattle.script_text.specs.Indexes.{IsIndexed, IsStep};
ghost use Rattle.script_text.specs.Reading.{Ends, step_bytes, finished};
ghost use Rattle.script_text.specs.declared.draft.Place.TheVariants.{Outside};

use crate::draft::{Draft, Place};
use crate::marks::Marks;
use crate::names::Names;
use ds_base::{Bytes, MemberId, Sequence};
use ds_model::{FailAt, FaultKind, Op, Script};
use script_line::{Keyword, Line, LineError, is_skipped, keyword_in, line_in};
use std::alloc::Global;

/// The script that was read so far, with what makes its names, members and flags quick to find.
#[derive(Drop)]
pub struct Reader {
    draft: Draft,
    // The names that were used.
    names: Names,
    // The members that earlier phases let fail, and those that the open one does.
    failed: Marks,
    failing: Marks,
    // The members with a part in the open phase.
    playing: Marks,
    // The flags that ended transactions of the open phase raise, and those that the open one does.
    raised: Marks,
    raising: Marks,
}

impl Reader {
    pub fn new(alloc: Global) -> Reader
        ensures draft { result.draft ≡ start }
        ensures indexed { IsIndexed result }
    {
        Reader {
            draft: Draft::new(alloc),
            names: Names::new(alloc),
            failed: Marks::new(),
            failing: Marks::new(),
            playing: Marks::new(),
            raised: Marks::new(),
            raising: Marks::new(),
        }
    }

    // Ends the open phase, and forgets what belongs to it.
    fn close(&mut self) -> Result<(), LineError>
        requires { IsIndexed self.old }
        ensures next { IsStep (closed self.old.draft) self.new.draft result }
        ensures indexed { OnOk result (IsIndexed self.new) }
        ensures outside { OnOk result (self.new.draft.place ≡ Outside) }
    {
        self.draft.close()?;
        self.failed.mark_all(&self.failing);
        self.failing = Marks::new();
        self.playing = Marks::new();
        self.raised = Marks::new();
        Ok(())
    }

    fn fail_group(&mut self) -> Result<(), LineError>
        requires indexed { IsIndexed self.old }
        requires room { self.old.draft.groupfails < 2 ^ 32 - 1 }
        ensures next { IsStep (step_groupfail self.old.draft) self.new.draft result }
        ensures indexed { OnOk result (IsIndexed self.new) }
    {
        self.close()?;
        self.draft.groupfails += 1;
        Ok(())
    }

    fn begin_phase(&mut self, alloc: Global) -> Result<(), LineError>
        requires { IsIndexed self.old }
        ensures next { IsStep (step_phase self.old.draft) self.new.draft result }
        ensures indexed { OnOk result (IsIndexed self.new) }
    {
        self.close()?;
        self.draft.place = Place::Phase {
            parts: Sequence::new(alloc),
        };
        Ok(())
    }

    fn begin_part(&mut self, alloc: Global, member: MemberId) -> Result<(), LineError>
        requires { IsIndexed self.old }
        ensures next { IsStep (step_member self.old.draft member) self.new.draft result }
        ensures indexed { OnOk result (IsIndexed self.new) }
    {
        if self.playing.has(member.number()) {
            return Err(LineError::Fault(FaultKind::Member));
        }
        self.draft.begin_part(alloc, member)?;
        self.playing.mark(member.number());
        Ok(())
    }

    fn restart(&mut self) -> Result<(), LineError>
        requires { IsIndexed self.old }
        ensures next { IsStep (step_restart self.old.draft) self.new.draft result }
        ensures indexed { OnOk result (IsIndexed self.new) }
    {
        match self.draft.playing() {
            Some(member) => {
                if !self.failed.has(member.number()) {
                    return Err(LineError::Fault(FaultKind::Restart));
                }
                self.draft.restart()
            }
            None => Err(LineError::Fault(FaultKind::Word)),
        }
    }

    fn fail(&mut self, at: FailAt) -> Result<(), LineError>
        requires { IsIndexed self.old }
        ensures next { IsStep (step_fail self.old.draft at) self.new.draft result }
        ensures indexed { OnOk result (IsIndexed self.new) }
    {
        match self.draft.playing() {
            Some(member) => {
                self.draft.fail(at)?;
                self.failing.mark(member.number());
                Ok(())
            }
            None => Err(LineError::Fault(FaultKind::Word)),
        }
    }

    fn begin_tran(&mut self, alloc: Global, name: Bytes, wait: bool) -> Result<(), LineError>
        requires indexed { IsIndexed self.old }
        requires room { self.old.draft.count < 2 ^ 32 - 1 }
        ensures next { IsStep (step_tran self.old.draft name wait) self.new.draft result }
        ensures indexed { OnOk result (IsIndexed self.new) }
    {
        if self.names.has(name.as_slice()) {
            return Err(LineError::Fault(FaultKind::Name));
        }
        self.names.add(alloc, name.as_slice())?;
        self.draft.begin_tran(alloc, name, wait)
    }

    // Whether the open transaction may use the flag of the operation, if it has one.
    fn may_use_flags(&self, op: &Op) -> bool
        requires { IsIndexed self.now }
        ensures { result ≡ may_use_flags self.now.draft op.now }
    {
        match op {
            Op::Raise { flag } => {
                self.draft.is_first_tran() && !self.raised.has(u64::from(*flag))
            }
            Op::Await { .. } => self.draft.is_first_tran(),
            _ => true,
        }
    }

    fn take_op(&mut self, op: Op) -> Result<(), LineError>
        requires { IsIndexed self.old }
        ensures next { IsStep (step_op self.old.draft op) self.new.draft result }
        ensures indexed { OnOk result (IsIndexed self.new) }
    {
        if !self.may_use_flags(&op) {
            return Err(LineError::Fault(FaultKind::Flag));
        }
        self.draft.take_op(op)?;
        if let Op::Raise { flag } = op {
            self.raising.mark(u64::from(flag));
        }
        Ok(())
    }

    fn end_tran(&mut self) -> Result<(), LineError>
        requires { IsIndexed self.old }
        ensures next { IsStep (step_end self.old.draft) self.new.draft result }
        ensures indexed { OnOk result (IsIndexed self.new) }
    {
        self.draft.end_tran()?;
        self.raised.mark_all(&self.raising);
        self.raising = Marks::new();
        Ok(())
    }

    fn take(&mut self, alloc: Global, line: Line) -> Result<(), LineError>
        requires indexed { IsIndexed self.old }
        requires groupfails { self.old.draft.groupfails < 2 ^ 32 - 1 }
        requires count { self.old.draft.count < 2 ^ 32 - 1 }
        ensures next { IsStep (step_line self.old.draft line) self.new.draft result }
        ensures indexed { OnOk result (IsIndexed self.new) }
    {
        match line {
            Line::GroupFail => self.fail_group(),
            Line::Phase => self.begin_phase(alloc),
            Line::Member(member) => self.begin_part(alloc, member),
            Line::Restart => self.restart(),
            Line::Fail(at) => self.fail(at),
            Line::Tran { name, wait } => self.begin_tran(alloc, name, wait),
            Line::Operation(op) => self.take_op(op),
            Line::End => self.end_tran(),
        }
    }

    // What is wrong with the place of a line, by its first word.
    fn place_fault(&self, keyword: Option<Keyword>) -> Option<FaultKind>
        ensures { result ≡ place_fault self.now.draft keyword }
    {
        let Some(keyword) = keyword else {
            return Some(FaultKind::Word);
        };
        if !self.draft.may_stand(keyword) {
            Some(FaultKind::Word)
        } else if self.draft.is_one_too_many(keyword) {
            Some(FaultKind::TooLong)
        } else {
            None
        }
    }

    /// Reads one more line. Nothing may be read behind a line with a fault.
    pub fn read_line(&mut self, alloc: Global, line: &[u8], members: u8) -> Result<(), LineError>
        requires members { (1 ≤ members) × (members ≤ 32) }
        requires indexed { IsIndexed self.old }
        requires groupfails { self.old.draft.groupfails < 2 ^ 32 - 1 }
        requires count { self.old.draft.count < 2 ^ 32 - 1 }
        ensures next { IsStep (step_bytes members self.old.draft line.now) self.new.draft result }
        ensures indexed { OnOk result (IsIndexed self.new) }
    {
        if is_skipped(line) {
            return Ok(());
        }
        if let Some(kind) = self.place_fault(keyword_in(line)) {
            return Err(LineError::Fault(kind));
        }
        let line = line_in(alloc, line, members)?;
        self.take(alloc, line)
    }

    /// The script, behind its last line.
    pub fn finish(self) -> Result<Script, LineError>
        ensures { Ends (finished self.draft) result }
    {
        let Reader { mut draft, .. } = self;
        match draft.close() {
            Ok(()) => {
                let Draft {
                    phases,
                    groupfails,
                    ..
                } = draft;
                Ok(Script { phases, groupfails })
            }
            Err(LineError::Fault(_)) => Err(LineError::Fault(FaultKind::End)),
            Err(LineError::NoMemory) => Err(LineError::NoMemory),
        }
    }
}
