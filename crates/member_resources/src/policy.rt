ghost use Rattle.member_marks.specs.Local.{Reaches};

use crate::Resources;
use ds_base::{Lrsn, NoMemory, TranId, Volume};
use ds_model::{FailAt, Reads, TranList};
use member_intents::{Event, Intent, Look, Outcome};
use member_marks::Marks;
use std::alloc::Global;

/// Decides what a member wants next. Whatever it wants, the mechanism does nothing that it may not do.
pub trait Policy {
    /// Whether the choice may be taken now. It is asked often, so it is cheap.
    fn is_ready(&self, choice: u64, look: &Look) -> bool;

    /// What a ready choice wants. The end of a wait wants a `Step`.
    fn intent(&self, choice: u64, resources: &Resources) -> Intent;

    /// Goes on from what the event came to, by local moves.
    fn take(
        &mut self,
        alloc: Global,
        choice: u64,
        event: &Event,
        outcome: &Outcome<'_>,
        marks: &mut Marks,
    ) -> Result<(), NoMemory>
        ensures { Reaches marks.old marks.new };

    /// A phase begins, with these transactions of the member. `raisers` are who is to raise the flags, by flag less one, and
    /// `fail` says where the member is to fail in it.
    fn begin_phase(
        &mut self,
        alloc: Global,
        trans: TranList,
        raisers: &[Option<TranId>],
        fail: Option<FailAt>,
    ) -> Result<(), NoMemory>;

    /// Whether the member fails in place of its next event.
    fn is_fail_due(&self) -> bool;

    /// All that the member had is gone: it has failed, or the whole group has. Nothing may be begun until it is opened.
    fn fail(&mut self);

    /// Transactions may be begun from now on.
    fn open(&mut self);

    /// A rollback that the member's restart left open stands with its marks, by the number of its first record.
    fn adopt(&mut self, id: Lrsn) -> Result<(), NoMemory>;

    /// What the transaction of the slot has read, which this event decided.
    fn take_reads(&mut self, slot: u8) -> Reads;

    /// Whether no transaction of the part is left or in hand.
    fn is_at_rest(&self) -> bool;

    /// Whether a choice waits for room in the cache.
    fn wants_room(&self) -> bool;

    /// A byte that was read and can't stand there.
    fn damage(&self) -> Option<(Volume, u64)>;
}
