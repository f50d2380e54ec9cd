//! What an answer makes of what is held.

ghost use Rattle.std.specs.Prelude.{◌≡◌, IfOk, OnOk};
ghost use Rattle.restart_marks.specs.declared.told.RestartTold.TheVariants as told;
ghost use Rattle.restart_resources.specs.Settled.{damaged, noted, brought_told, brought_after, bring_told, bring_after, ready_told, ready_after, read_told, read_after, tested_told, tested_after, undo_told, undo_after, drawn_told, drawn_after, settle_undo_told, settle_undo_after, told_by, settled};

use crate::RestartResources;
use crate::forward::bring_own;
use ds_base::{Lrsn, NoMemory, PageId, Volume};
use facility::Reply;
use list_structure::Cell;
use page_redo::{FieldFault, undo_row};
use restart_marks::{Newest, RestartIntent, RestartTold, answers_told, page_of, status_told};
use write_order::rank_of;

fn damaged(page: PageId, fault: FieldFault) -> RestartTold
    ensures { result ≡ damaged page fault }
{
    RestartTold::Damaged {
        volume: Volume::Page(page),
        at: fault.at as u64,
    }
}

impl RestartResources {
    // The page in hand was brought forward, or is used as it is.
    fn note_ready(&mut self, page: PageId, raised: bool) -> Result<RestartTold, NoMemory>
        ensures told { IfOk result (λ said. said ≡ told.Ready) }
        ensures after { OnOk result (self.new ≡ noted self.old page raised) }
    {
        let number = self.page.lrsn();
        let rank = rank_of(page, &self.page);
        self.marks.note_ready(raised, number, &rank)?;
        Ok(RestartTold::Ready)
    }

    fn note_brought(
        &mut self,
        page: PageId,
        brought: Result<bool, FieldFault>,
    ) -> Result<RestartTold, NoMemory>
        ensures told { IfOk result (λ said. said ≡ brought_told page brought) }
        ensures after { OnOk result (self.new ≡ brought_after self.old page brought) }
    {
        match brought {
            Ok(raised) => self.note_ready(page, raised),
            Err(fault) => Ok(damaged(page, fault)),
        }
    }

    // The page is brought forward where it is retained.
    fn bring(&mut self, page: PageId) -> Result<RestartTold, NoMemory>
        ensures told { IfOk result (λ said. said ≡ bring_told self.old page) }
        ensures after { OnOk result (self.new ≡ bring_after self.old page) }
    {
        if self.marks.hand().key.is_none() {
            return self.note_ready(page, false);
        }
        let brought = bring_own(&mut self.page, page, &self.marks);
        self.note_brought(page, brought)
    }

    // A page whose bit is set in this event is brought forward.
    fn settle_ready(&mut self, told: RestartTold) -> Result<RestartTold, NoMemory>
        ensures told { IfOk result (λ said. said ≡ ready_told self.old told) }
        ensures after { OnOk result (self.new ≡ ready_after self.old told) }
    {
        if let (RestartTold::Ready, Some(page)) = (told, self.marks.hand().page) {
            self.bring(page)
        } else {
            Ok(told)
        }
    }

    fn settle_read(&mut self, reply: &Reply) -> Result<RestartTold, NoMemory>
        ensures told { IfOk result (λ said. said ≡ read_told self.old reply.now) }
        ensures after { OnOk result (self.new ≡ read_after self.old reply.now) }
    {
        let told = self.marks.read(reply);
        self.settle_ready(told)
    }

    fn settle_test(&mut self, reply: &Reply) -> Result<RestartTold, NoMemory>
        ensures told { IfOk result (λ said. said ≡ tested_told self.old reply.now) }
        ensures after { OnOk result (self.new ≡ tested_after self.old reply.now) }
    {
        let told = self.marks.tested(reply);
        self.settle_ready(told)
    }

    // Takes the change back in the page in hand, and notes it.
    fn undo(&mut self, id: Lrsn, lrsn: Lrsn, it: &Newest) -> RestartTold
        ensures told { result ≡ undo_told self.old id lrsn it.now }
        ensures after { self.new ≡ undo_after self.old id lrsn it.now }
    {
        let page = page_of(&it.change);
        match undo_row(&mut self.page, page, &it.change, lrsn) {
            Ok(()) => self.marks.note_undone(id, lrsn),
            Err(fault) => damaged(page, fault),
        }
    }

    // A number was drawn for the newest change of the transaction that stands.
    fn drawn(&mut self, id: Lrsn, lrsn: Lrsn) -> RestartTold
        ensures told { result ≡ drawn_told self.old id lrsn }
        ensures after { self.new ≡ drawn_after self.old id lrsn }
    {
        if !self.marks.may_undo(id, lrsn) {
            return RestartTold::Stepped;
        }
        match self.marks.newest(id) {
            Some(it) => self.undo(id, lrsn, &it),
            None => RestartTold::Stepped,
        }
    }

    fn settle_undo(&mut self, id: Lrsn, reply: &Reply) -> RestartTold
        ensures told { result ≡ settle_undo_told self.old id reply.now }
        ensures after { self.new ≡ settle_undo_after self.old id reply.now }
    {
        match *reply {
            Reply::Drawn { lrsn } => self.drawn(id, lrsn),
            Reply::Stale { .. } => self.marks.note_stale(),
            _ => RestartTold::Stepped,
        }
    }

    /// The effect of a reply of the facility, to a command that asks for these cells.
    pub(crate) fn settle_reply(
        &mut self,
        intent: &RestartIntent,
        reply: &Reply,
        cells: &[Cell],
    ) -> Result<RestartTold, NoMemory>
        ensures told { IfOk result (λ said. said ≡ told_by self.old intent.now reply.now cells.now) }
        ensures after { OnOk result (self.new ≡ settled self.old intent.now reply.now) }
    {
        match *intent {
            RestartIntent::RetainedAt => self.marks.record_told(reply),
            RestartIntent::Read => self.settle_read(reply),
            RestartIntent::Test => self.settle_test(reply),
            RestartIntent::WritePage => Ok(self.marks.written(reply)),
            RestartIntent::PurgePage => Ok(self.marks.page_purged(reply)),
            RestartIntent::Purge { name } => Ok(self.marks.name_purged(&name, reply)),
            RestartIntent::Obtain { id } | RestartIntent::Grant { id } => {
                Ok(self.marks.claimed(id, reply))
            }
            RestartIntent::Answers { asked, .. } => Ok(answers_told(asked, cells)),
            RestartIntent::Status { .. } => Ok(status_told(reply)),
            RestartIntent::Undo { id } => Ok(self.settle_undo(id, reply)),
            RestartIntent::ReleasePage => Ok(self.marks.released(reply)),
            RestartIntent::Up => Ok(self.marks.is_restarted(reply)),
            RestartIntent::Step
            | RestartIntent::ReadLog
            | RestartIntent::CutTail
            | RestartIntent::ReadPage
            | RestartIntent::Append
            | RestartIntent::Ask { .. }
            | RestartIntent::Unregister => Ok(RestartTold::Stepped),
        }
    }
}
