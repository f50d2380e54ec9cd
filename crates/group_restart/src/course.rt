//! What is done next.

ghost use Rattle.std.specs.Prelude.{◌≡◌, None, slice_get, OnOk, IfOk, IfSome, IfNone};
ghost use Rattle.std.specs.List.{AllByRecursion};
ghost use Rattle.ds_model.specs.RecordBytes.{IsAllowed, ChangeFits};
ghost use Rattle.ds_base.specs.declared.names.Volume.TheVariants as volume;
ghost use Rattle.group_restart.specs.declared.calls.State.TheVariants as state;
ghost use Rattle.group_restart.specs.declared.stage.Stage.TheVariants as stage;
ghost use Rattle.log_trans.specs.Damage.{AreAllowed, log_damage};
ghost use Rattle.group_restart.specs.Going.{GoesOn, IsGoingOn};
ghost use Rattle.group_restart.specs.Undo.{undo_fault};
ghost use Rattle.group_restart.specs.Course.{place_among, placed, place_on, plan_read, found_damage, counted, has_numbers, next_tail, next_redo, begin_undo, next_closing, undo_or, next_undo, begin_renewal, next_renewal, next_ending, done, too_few_numbers, go, TakesLog, TakesWhole, take_logs, take_page, take_raised, take_undone, renew_page, take_old, undo_one, undone, appended, take_done, with_log, TakesTold, TakesReply};

use crate::append::Append;
use crate::calls::State;
use crate::machine::{GroupRestart, no_records};
use crate::page_number::with_page_number;
use crate::records::{ended, ending};
use crate::renewal::{first_page, last_behind, page_behind};
use crate::reply::Reply;
use crate::stage::Stage;
use crate::undo::{undo_fault, undo_page, undoing};
use checkpoint_offsets::{earlier, find_wrong_offset};
use ds_base::{Lrsn, MemberId, NoMemory, PageId, Volume};
use log_reader::{LogRead, LogReader, LogReply, place_in};
use log_record::Log;
use log_trans::{Damaged, find_log_damage, has_numbers};
use page_redo::page_changed;
use places_redo::bring_places;
use restart_plan::{Logs, PageRecords, Plan, Undo, asks_behind, plan_of};
use std::alloc::Global;

fn damaged_log(damaged: Damaged) -> State
    ensures exact { result ≡ state.Damaged (volume.Log damaged.member) damaged.at }
    ensures goes_on { GoesOn result }
{
    State::Damaged {
        volume: Volume::Log(damaged.member),
        at: damaged.at,
    }
}

// The byte of the member's log that stands so many bytes behind the first of the records that were read.
fn place_among(logs: &[Log], member: MemberId, at: u64) -> Result<u64, NoMemory>
    requires { AreAllowed logs.now }
    ensures { IfOk result (λ place. place ≡ place_among logs.now member at) }
{
    for log in logs {
        if log.member == member {
            return place_in(log, at);
        }
    }
    Ok(at)
}

// The byte of a log that stands so many bytes behind the first of its records that were read, or the byte of a page.
fn place_on(logs: &[Log], volume: &Volume, at: u64) -> Result<u64, NoMemory>
    requires { AreAllowed logs.now }
    ensures { IfOk result (λ place. place ≡ place_on logs.now volume.now at) }
{
    match volume {
        Volume::Log(member) => place_among(logs, *member, at),
        Volume::Page(_) => Ok(at),
    }
}

// The first number of the logs that can't stand there.
fn wrong_number(alloc: Global, logs: &[Log]) -> Result<Option<Damaged>, NoMemory>
    requires { AreAllowed logs.now }
    ensures { IfOk result (λ damage. damage ≡ placed logs.now (log_damage logs.now)) }
{
    match find_log_damage(alloc, logs)? {
        Some(Damaged { member, at }) => Ok(Some(Damaged {
            member,
            at: place_among(logs, member, at)?,
        })),
        None => Ok(None),
    }
}

#[tactic(auto, unfolding(crate::specs::Course::found_damage))]
fn damage_of(alloc: Global, logs: &Logs) -> Result<Option<Damaged>, NoMemory>
    ensures { IfOk result (λ damage. damage ≡ found_damage logs.now) }
{
    let logs = logs.as_slice();
    let number = wrong_number(alloc, logs)?;
    let offset = find_wrong_offset(alloc, logs)?;
    Ok(earlier(number, offset))
}

// What the logs ask for that were read.
fn plan_read(alloc: Global, logs: &Logs) -> Result<Plan, NoMemory>
    ensures { IfOk result (λ plan. plan ≡ plan_read logs.now) }
{
    let mut plan = plan_of(alloc, logs)?;
    plan.greatest.at = place_on(logs.as_slice(), &plan.greatest.volume, plan.greatest.at)?;
    Ok(plan)
}

fn damaged_page(id: PageId, at: u16) -> State
    ensures exact { result ≡ state.Damaged (volume.Page id) at }
    ensures goes_on { GoesOn result }
{
    State::Damaged {
        volume: Volume::Page(id),
        at: at as u64,
    }
}

impl GroupRestart {
    fn go(&mut self, stage: Stage) -> State
        ensures exact { go self.old stage ≡ (self.new, result) }
        ensures goes_on { GoesOn result }
    {
        self.stage = stage;
        State::Going
    }

    // ---- the stages in their order: each goes on to the next one where it has nothing to do

    #[tactic(auto, unfolding(crate::specs::Course::next_tail))]
    fn next_tail(&mut self, alloc: Global) -> Result<State, NoMemory>
        ensures exact { IfOk result (λ s. next_tail self.old ≡ (self.new, s)) }
        ensures goes_on { IsGoingOn result }
    {
        match self.plan.tails.next() {
            Some(tail) => Ok(self.go(Stage::CutTail(tail))),
            None => self.next_redo(alloc),
        }
    }

    #[tactic(auto, unfolding(crate::specs::Course::next_redo))]
    fn next_redo(&mut self, alloc: Global) -> Result<State, NoMemory>
        ensures exact { IfOk result (λ s. next_redo self.old ≡ (self.new, s)) }
        ensures goes_on { IsGoingOn result }
    {
        match self.plan.pages.next() {
            Some(PageRecords { page, places }) => {
                self.places = places;
                Ok(self.go(Stage::RedoRead(page)))
            }
            None => self.begin_undo(alloc),
        }
    }

    // The merged records aren't needed any more.
    fn count(&mut self, alloc: Global) -> Result<(), NoMemory>
        ensures { OnOk result (self.new ≡ counted self.old) }
    {
        self.plan.merged = no_records(alloc)?;
        self.counter = self.plan.greatest.lrsn;
        Ok(())
    }

    fn has_numbers(&self) -> bool
        ensures { result ≡ has_numbers self.now }
    {
        has_numbers(self.counter, self.plan.undo.len() as u64)
    }

    // Nothing is undone where more changes are to be compensated than numbers are left.
    #[tactic(auto, unfolding(crate::specs::Course::begin_undo))]
    fn begin_undo(&mut self, alloc: Global) -> Result<State, NoMemory>
        ensures exact { IfOk result (λ s. begin_undo self.old ≡ (self.new, s)) }
        ensures goes_on { IsGoingOn result }
    {
        self.count(alloc)?;
        if !self.has_numbers() {
            return Ok(self.too_few_numbers());
        }
        self.next_closing(alloc)
    }

    // More changes are to be compensated than numbers are left above the greatest one, which is named.
    fn too_few_numbers(&self) -> State
        ensures exact { too_few_numbers self.now ≡ (self.now, result) }
        ensures goes_on { GoesOn result }
    {
        State::Damaged {
            volume: self.plan.greatest.volume,
            at: self.plan.greatest.at,
        }
    }

    #[tactic(auto, unfolding(crate::specs::Course::next_closing))]
    fn next_closing(&mut self, alloc: Global) -> Result<State, NoMemory>
        ensures exact { IfOk result (λ s. next_closing self.old ≡ (self.new, s)) }
        ensures goes_on { IsGoingOn result }
    {
        match self.plan.closings.next() {
            Some(closing) => {
                self.added = Append::new(alloc).with(ended(closing.lrsn, closing.tran))?;
                Ok(self.go(Stage::CloseAppend(closing.member)))
            }
            None => self.next_undo(alloc),
        }
    }

    fn next_page_undone(&self) -> Option<PageId>
        ensures none { IfNone result (slice_get self.now.plan.undo 0 ≡ None) }
        ensures some { IfSome result (λ page. undo_or self.now (slice_get self.now.plan.undo 0) ≡ go self.now (stage.UndoRead page)) }
    {
        let undo = self.plan.undo.first()?;
        Some(page_changed(&undo.change))
    }

    #[tactic(auto, unfolding(crate::specs::Course::next_undo))]
    fn next_undo(&mut self, alloc: Global) -> Result<State, NoMemory>
        ensures exact { IfOk result (λ s. next_undo self.old ≡ (self.new, s)) }
        ensures goes_on { IsGoingOn result }
    {
        match self.next_page_undone() {
            Some(page) => Ok(self.go(Stage::UndoRead(page))),
            None => self.begin_renewal(alloc),
        }
    }

    // Nothing is read where no log asks for it.
    #[tactic(auto, unfolding(crate::specs::Course::begin_renewal))]
    fn begin_renewal(&mut self, alloc: Global) -> Result<State, NoMemory>
        ensures exact { IfOk result (λ s. begin_renewal self.old ≡ (self.new, s)) }
        ensures goes_on { IsGoingOn result }
    {
        if self.renews {
            Ok(self.go(Stage::RenewRead(first_page())))
        } else {
            self.next_ending(alloc)
        }
    }

    #[tactic(auto, unfolding(crate::specs::Course::next_renewal))]
    fn next_renewal(&mut self, alloc: Global, id: PageId) -> Result<State, NoMemory>
        ensures exact { IfOk result (λ s. next_renewal self.old id ≡ (self.new, s)) }
        ensures goes_on { IsGoingOn result }
    {
        match page_behind(self.last, id) {
            Some(page) => Ok(self.go(Stage::RenewRead(page))),
            None => self.next_ending(alloc),
        }
    }

    // The Checkpoint's offset is the place where it is appended.
    #[tactic(auto, unfolding(crate::specs::Course::next_ending))]
    fn next_ending(&mut self, alloc: Global) -> Result<State, NoMemory>
        ensures exact { IfOk result (λ s. next_ending self.old ≡ (self.new, s)) }
        ensures goes_on { IsGoingOn result }
    {
        match self.plan.endings.next() {
            Some(member) => {
                self.added = ending(alloc, self.counter, self.plan.ends.end_of(member))?;
                Ok(self.go(Stage::EndAppend(member)))
            }
            None => {
                self.stage = Stage::End;
                Ok(self.done())
            }
        }
    }

    fn done(&self) -> State
        ensures exact { done self.now ≡ (self.now, result) }
        ensures goes_on { GoesOn result }
    {
        State::Done {
            counter: self.counter,
        }
    }

    // ---- logs

    fn take_log(&mut self, alloc: Global, told: LogReply) -> Result<State, NoMemory>
        ensures exact { IfOk result (λ s. TakesLog self.old told s self.new) }
        ensures goes_on { IsGoingOn result }
    {
        match self.reader.take(alloc, told)? {
            LogRead::More => Ok(State::Going),
            LogRead::Bad { at } => Ok(damaged_log(Damaged {
                member: self.reader.member(),
                at,
            })),
            LogRead::Whole(log) => self.take_whole(alloc, log),
        }
    }

    // The reader has looked at all of the log's records.
    fn add_log(&mut self, log: Log) -> Result<(), NoMemory>
        requires { AllByRecursion IsAllowed log.records }
        ensures { OnOk result (self.new ≡ with_log self.old log) }
    {
        self.renews = self.renews || asks_behind(self.reader.has_old(), &log);
        self.logs.add(log)
    }

    #[tactic(auto, unfolding(crate::specs::Course::TakesWhole))]
    fn take_whole(&mut self, alloc: Global, log: Log) -> Result<State, NoMemory>
        requires { AllByRecursion IsAllowed log.records }
        ensures exact { IfOk result (λ s. TakesWhole self.old log s self.new) }
        ensures goes_on { IsGoingOn result }
    {
        self.add_log(log)?;
        match MemberId::new(self.reader.member().number() + 1) {
            Some(member) => {
                self.reader = LogReader::new(alloc, member)?;
                Ok(State::Going)
            }
            None => self.take_logs(alloc),
        }
    }

    // All logs are read: what is to be cut, redone, closed and undone follows from them.
    #[tactic(auto, unfolding(crate::specs::Course::take_logs))]
    fn take_logs(&mut self, alloc: Global) -> Result<State, NoMemory>
        ensures exact { IfOk result (λ s. take_logs self.old ≡ (self.new, s)) }
        ensures goes_on { IsGoingOn result }
    {
        if let Some(damaged) = damage_of(alloc, &self.logs)? {
            return Ok(damaged_log(damaged));
        }
        self.plan = plan_read(alloc, &self.logs)?;
        self.logs = Logs::new(alloc);
        self.next_tail(alloc)
    }

    // ---- pages

    // The page as it stands on the disk is brought forward, and written where that changed it.
    #[tactic(auto, unfolding(crate::specs::Course::take_page))]
    fn take_page(&mut self, alloc: Global, id: PageId) -> Result<State, NoMemory>
        ensures exact { IfOk result (λ s. take_page self.old id ≡ (self.new, s)) }
        ensures goes_on { IsGoingOn result }
    {
        let merged = self.plan.merged.records();
        match bring_places(&mut self.page, id, merged, self.places.as_slice()) {
            Err(fault) => Ok(damaged_page(id, fault.at)),
            Ok(is_raised) => self.take_raised(alloc, id, is_raised),
        }
    }

    #[tactic(auto, unfolding(crate::specs::Course::take_raised))]
    fn take_raised(&mut self, alloc: Global, id: PageId, is_raised: bool) -> Result<State, NoMemory>
        ensures exact { IfOk result (λ s. take_raised self.old id is_raised ≡ (self.new, s)) }
        ensures goes_on { IsGoingOn result }
    {
        self.plan.greatest = with_page_number(self.plan.greatest, id, &self.page);
        if is_raised {
            Ok(self.go(Stage::RedoWrite(id)))
        } else {
            self.next_redo(alloc)
        }
    }

    // The page of the change is at hand: its compensation is made.
    #[tactic(auto, unfolding(crate::specs::Course::take_undone))]
    fn take_undone(&mut self, alloc: Global) -> Result<State, NoMemory>
        ensures exact { IfOk result (λ s. take_undone self.old ≡ (self.new, s)) }
        ensures goes_on { IsGoingOn result }
    {
        match self.plan.undo.next() {
            Some(undo) => self.undo_one(alloc, &undo),
            None => self.begin_renewal(alloc),
        }
    }

    #[tactic(auto, unfolding(crate::specs::Course::undo_one))]
    fn undo_one(&mut self, alloc: Global, undo: &Undo) -> Result<State, NoMemory>
        ensures exact { IfOk result (λ s. undo_one self.old undo.now ≡ (self.new, s)) }
        ensures goes_on { IsGoingOn result }
    {
        let id = page_changed(&undo.change);
        if let Some(at) = undo_fault(&self.page, &undo.change) {
            return Ok(damaged_page(id, at));
        }
        let Some(lrsn) = Lrsn::new(self.counter.number() + 1) else {
            return Ok(self.too_few_numbers());
        };
        self.undo_change(alloc, undo, lrsn)
    }

    #[tactic(auto, unfolding(crate::specs::Course::undone))]
    fn undo_change(&mut self, alloc: Global, undo: &Undo, lrsn: Lrsn) -> Result<State, NoMemory>
        requires fits { ChangeFits undo.now.change }
        requires sound { undo_fault undo.now.change self.old.page ≡ None }
        ensures exact { IfOk result (λ s. undone self.old undo.now lrsn ≡ (self.new, s)) }
        ensures goes_on { IsGoingOn result }
    {
        let id = page_changed(&undo.change);
        self.added = undoing(alloc, undo, lrsn)?;
        self.counter = lrsn;
        undo_page(&mut self.page, &undo.change, lrsn);
        let member = undo.member;
        Ok(self.go(Stage::UndoAppend { member, page: id }))
    }

    #[tactic(auto, unfolding(crate::specs::Course::renew_page))]
    fn renew_page(&mut self, alloc: Global, id: PageId) -> Result<State, NoMemory>
        ensures exact { IfOk result (λ s. renew_page self.old id ≡ (self.new, s)) }
        ensures goes_on { IsGoingOn result }
    {
        if !self.page.is_old() {
            return self.next_renewal(alloc, id);
        }
        self.page.renew();
        Ok(self.go(Stage::RenewWrite(id)))
    }

    // A page of version 1 is written in version 2; one that can't stand there is damage.
    #[tactic(auto, unfolding(crate::specs::Course::take_old))]
    fn take_old(&mut self, alloc: Global, id: PageId) -> Result<State, NoMemory>
        ensures exact { IfOk result (λ s. take_old self.old id ≡ (self.new, s)) }
        ensures goes_on { IsGoingOn result }
    {
        match last_behind(self.last, id, &self.page) {
            Err(fault) => Ok(damaged_page(id, fault.at)),
            Ok(last) => {
                self.last = last;
                self.renew_page(alloc, id)
            }
        }
    }

    // ---- replies

    // The records stand behind the member's log.
    fn note_append(&mut self, member: MemberId) -> Result<(), NoMemory>
        ensures { OnOk result (self.new ≡ appended self.old member) }
    {
        let count = self.added.bytes().len() as u64;
        self.plan.ends.raise(member, count)
    }

    fn take_closed(&mut self, alloc: Global, member: MemberId) -> Result<State, NoMemory>
        ensures exact { IfOk result (λ s. next_closing (appended self.old member) ≡ (self.new, s)) }
        ensures goes_on { IsGoingOn result }
    {
        self.note_append(member)?;
        self.next_closing(alloc)
    }

    fn take_compensated(&mut self, member: MemberId, page: PageId) -> Result<State, NoMemory>
        ensures exact { IfOk result (λ s. go (appended self.old member) (stage.UndoWrite page) ≡ (self.new, s)) }
        ensures goes_on { IsGoingOn result }
    {
        self.note_append(member)?;
        Ok(self.go(Stage::UndoWrite(page)))
    }

    fn take_ended(&mut self, alloc: Global, member: MemberId) -> Result<State, NoMemory>
        ensures exact { IfOk result (λ s. next_ending (appended self.old member) ≡ (self.new, s)) }
        ensures goes_on { IsGoingOn result }
    {
        self.note_append(member)?;
        self.next_ending(alloc)
    }

    fn take_done(&mut self, alloc: Global) -> Result<State, NoMemory>
        ensures exact { IfOk result (λ s. take_done self.old self.old.stage ≡ (self.new, s)) }
        ensures goes_on { IsGoingOn result }
    {
        let stage = self.stage;
        match &stage {
            Stage::ReadLog => Ok(State::Going),
            Stage::CutTail(_) => self.next_tail(alloc),
            Stage::RedoRead(page) => self.take_page(alloc, *page),
            Stage::RedoWrite(_) => self.next_redo(alloc),
            Stage::CloseAppend(member) => self.take_closed(alloc, *member),
            Stage::UndoRead(_) => self.take_undone(alloc),
            Stage::UndoAppend { member, page } => self.take_compensated(*member, *page),
            Stage::UndoWrite(_) => self.next_undo(alloc),
            Stage::RenewRead(page) => self.take_old(alloc, *page),
            Stage::RenewWrite(page) => self.next_renewal(alloc, *page),
            Stage::EndAppend(member) => self.take_ended(alloc, *member),
            Stage::End => Ok(self.done()),
        }
    }

    #[tactic(auto, unfolding(crate::specs::Course::TakesTold))]
    fn take_told(&mut self, alloc: Global, told: LogReply) -> Result<State, NoMemory>
        ensures exact { IfOk result (λ s. TakesTold self.old.stage self.old told s self.new) }
        ensures goes_on { IsGoingOn result }
    {
        match self.stage {
            Stage::ReadLog => self.take_log(alloc, told),
            _ => Ok(self.done()),
        }
    }

    /// Takes the answer of the disk.
    #[tactic(auto, unfolding(crate::specs::Course::TakesReply))]
    pub(crate) fn take(&mut self, alloc: Global, reply: Reply) -> Result<State, NoMemory>
        ensures exact { IfOk result (λ s. TakesReply self.old reply s self.new) }
        ensures goes_on { IsGoingOn result }
    {
        match reply {
            Reply::Log(told) => self.take_told(alloc, told),
            Reply::Done => self.take_done(alloc),
        }
    }
}
