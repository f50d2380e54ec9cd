ghost use Rattle.std.specs.Prelude.{◌≡◌, None, IfOk, OnErr};
ghost use Rattle.std.specs.List.{AllByRecursion};
ghost use Rattle.ds_model.specs.RecordBytes.{IsAllowed};
ghost use Rattle.member_effects.specs.declared.told.Told.TheVariants as told;
ghost use Rattle.member_effects.specs.Lists.{cast_told};
ghost use Rattle.member_effects.specs.Claims.{claimed_told};
ghost use Rattle.member_effects.specs.Changes.{drawn_told, undone_told};
ghost use Rattle.member_effects.specs.Puts.{change_records, drawn_by as records_by, reply_records, undo_records};
ghost use Rattle.member_marks.specs.Records.{after_append};
ghost use Rattle.member_marks.specs.State.{slot_tran, tran_of};
ghost use Rattle.member_effects.specs.Given.{PlanIsAllowed};
ghost use Rattle.member_resources.specs.Held.{with_marks, with_cast};
ghost use Rattle.member_resources.specs.Settled.{cast_read, written_cast, drawn as drawn_by, undone as undone_by, unsent, unsent_told, SettlesClaim, Settles, told_by, SettlesWaits, stored, stored_told};

use crate::Resources;
use ds_base::{NoMemory, PageId};
use facility::Reply;
use list_structure::{Cell, Wait};
use lock_names::{Mode, Name};
use member_effects::{
    Cast, Plan, Told, answered, cast_told, changed_told, claimed, commit_drawn, cycle_refused,
    drawn, end_now, ended, flag_told, page_read, page_released, purged, query_told, read, released,
    status_told, tested, undone, unregistered, written,
};
use member_intents::{Frames, Intent};
use member_marks::Owner;
use std::alloc::Global;

impl Resources {
    // The page is to be written next.
    fn settle_castout_read(&mut self, page: PageId, reply: &Reply) -> Told
        ensures told { result ≡ cast_told reply.now }
        ensures after { self.new ≡ cast_read self.old page reply.now }
    {
        if let Reply::Taken = reply {
            self.cast = Some(Cast {
                page,
                is_written: false,
            });
        }
        cast_told(reply)
    }

    // The castout is over, whatever the reply is.
    fn settle_castout_done(&mut self) -> Told
        ensures told { result ≡ told.CastoutOver }
        ensures after { self.new ≡ with_cast self.old None }
    {
        self.cast = None;
        Told::CastoutOver
    }

    fn settle_castout_written(&mut self) -> Told
        ensures told { result ≡ told.CastoutWritten }
        ensures after { self.new ≡ with_cast self.old (written_cast self.old.cast) }
    {
        if let Some(cast) = self.cast {
            self.cast = Some(Cast {
                is_written: true,
                ..cast
            });
        }
        Told::CastoutWritten
    }

    // The log buffer stands in the log.
    fn settle_append(&mut self) -> Told
        ensures told { result ≡ told.Forced }
        ensures after { self.new ≡ with_marks self.old (after_append self.old.marks) }
    {
        self.marks.decide_all();
        Told::Forced
    }

    fn settle_claim(
        &mut self,
        owner: &Owner,
        name: &Name,
        mode: Mode,
        reply: &Reply,
        place: u64,
    ) -> Told
        ensures told { result ≡ claimed_told self.old.marks owner.now name.now mode reply.now }
        ensures after { SettlesClaim self.old owner.now name.now mode reply.now place self.new }
    {
        claimed(&mut self.marks, owner, name, mode, reply, place)
    }

    fn settle_drawn(
        &mut self,
        slot: u8,
        frames: &Frames,
        plan: Plan,
        reply: &Reply,
        place: u64,
    ) -> Told
        requires { PlanIsAllowed plan }
        ensures told { result ≡ drawn_told plan reply.now }
        ensures after { self.new ≡ drawn_by self.old slot frames.now plan reply.now place }
        ensures allowed { AllByRecursion IsAllowed (records_by reply.now (change_records self.old.marks.log (slot_tran self.old.marks slot) plan)) }
    {
        drawn(
            &mut self.marks,
            self.pages.as_mut_slice(),
            slot,
            frames,
            plan,
            reply,
            place,
        )
    }

    fn settle_undone(
        &mut self,
        owner: &Owner,
        frame: u16,
        plan: Plan,
        reply: &Reply,
        place: u64,
    ) -> Told
        requires { PlanIsAllowed plan }
        ensures told { result ≡ undone_told plan reply.now }
        ensures after { self.new ≡ undone_by self.old owner.now frame plan reply.now place }
        ensures allowed { AllByRecursion IsAllowed (records_by reply.now (undo_records self.old.marks.log (tran_of self.old.marks owner.now) plan)) }
    {
        undone(
            &mut self.marks,
            self.pages.as_mut_slice(),
            owner,
            frame,
            plan,
            reply,
            place,
        )
    }

    /// The effect of an event that sends nothing.
    pub(crate) fn settle_unsent(&mut self, intent: &Intent) -> Told
        ensures told { result ≡ unsent_told intent.now }
        ensures after { self.new ≡ unsent self.old intent.now }
    {
        match intent {
            Intent::End { owner } => end_now(&mut self.marks, owner),
            _ => Told::Stepped,
        }
    }

    /// The effect of a reply of the facility, to a command that asks for these cells.
    pub(crate) fn settle_reply(
        &mut self,
        intent: &Intent,
        plan: Plan,
        reply: &Reply,
        cells: &[Cell],
        place: u64,
    ) -> Told
        requires { PlanIsAllowed plan }
        ensures told { result ≡ told_by self.old intent.now plan reply.now cells.now }
        ensures after { Settles self.old intent.now plan reply.now cells.now place self.new }
        ensures allowed { AllByRecursion IsAllowed (reply_records self.old.marks intent.now plan reply.now) }
    {
        match *intent {
            Intent::Obtain { owner, name, mode } | Intent::Grant { owner, name, mode } => {
                self.settle_claim(&owner, &name, mode, reply, place)
            }
            Intent::Answers {
                owner,
                name,
                mode,
                asked,
            } => answered(&mut self.marks, &owner, &name, mode, asked, cells),
            Intent::Status { .. } => status_told(reply),
            Intent::Take { .. } => query_told(reply),
            Intent::ReleaseLock { owner } => released(&mut self.marks, &owner, reply),
            Intent::ReleasePage { page } => page_released(&mut self.marks, page, reply),
            Intent::Purge { name } => purged(&mut self.marks, &name, reply),
            Intent::End { owner } => ended(&mut self.marks, &owner, reply),
            Intent::Flag { .. } => flag_told(reply),
            Intent::Read { frame } => read(&mut self.marks, frame, reply),
            Intent::Test { frame, slot, gives } => tested(
                &mut self.marks,
                self.pages.as_slice(),
                frame,
                slot,
                gives,
                self.limit,
                reply,
                place,
            ),
            Intent::WritePage { frame } => written(&mut self.marks, frame, reply),
            Intent::Unregister { frame } => unregistered(&mut self.marks, frame, reply),
            Intent::Change { slot, frames, .. } => {
                self.settle_drawn(slot, &frames, plan, reply, place)
            }
            Intent::Undo { owner, frame } => {
                self.settle_undone(&owner, frame, plan, reply, place)
            }
            Intent::Commit { slot } => commit_drawn(&mut self.marks, slot, reply, place),
            Intent::NextChanged { .. } => changed_told(reply),
            Intent::CastoutRead { page } => self.settle_castout_read(page, reply),
            Intent::CastoutWrite | Intent::CastoutDone => self.settle_castout_done(),
            Intent::Step
            | Intent::Ask { .. }
            | Intent::Answer { .. }
            | Intent::Wait { .. }
            | Intent::Unwait { .. }
            | Intent::Waits { .. }
            | Intent::Raise { .. }
            | Intent::LoseCache
            | Intent::ReadPage { .. }
            | Intent::Append
            | Intent::PhaseDone => Told::Stepped,
        }
    }

    /// The effect of a disk call that was done.
    pub(crate) fn settle_disk(&mut self, intent: &Intent) -> Told
        ensures told { result ≡ stored_told intent.now }
        ensures after { self.new ≡ stored self.old intent.now }
    {
        match *intent {
            Intent::ReadPage { frame } => page_read(&mut self.marks, frame),
            Intent::Append => self.settle_append(),
            Intent::CastoutWrite => self.settle_castout_written(),
            _ => Told::Stepped,
        }
    }

    /// The effect of a look at all waits.
    pub(crate) fn settle_waits(
        &mut self,
        alloc: Global,
        waits: &[Wait],
        slots: u32,
        place: u64,
    ) -> Result<Told, NoMemory>
        ensures ok { IfOk result (λ said. SettlesWaits self.old waits.now slots place said self.new) }
        ensures err { OnErr result (self.new ≡ self.old) }
    {
        cycle_refused(alloc, &mut self.marks, waits, slots, place)
    }
}
