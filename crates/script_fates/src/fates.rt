ghost use Rattle.std.specs.Prelude.{◌≡◌, ◌≢◌, ◌<◌, ℕ, ◌⊎◌, true, false, length, IfOk, IsSome, ◌+◌};
ghost use Rattle.ds_model.specs.declared.fate.Fate.TheVariants as fate;
ghost use Rattle.tran_history.specs.Histories.{after_answer, has_committed, has_number};
ghost use Rattle.script_fates.specs.Fated.{Adds, waits_at, is_marked, may_be_refused, may_have, is_in_part, is_in_phase, Ends, Fixes, Refuses, Stops, StopsOnly, no_fates};

use crate::copies::copy_tran;
use ds_base::{MemberId, NoMemory};
use ds_model::{Entry, Fate, Part, Phase, Reads, Refusal, Script, Tran};
use std::alloc::Global;
use std::marker::Model;
use tran_history::History;

/// The event at which the cause of a transaction's refusal held. Events are counted from 1.
#[derive(Clone, Copy, Debug, PartialEq, Eq)]
pub struct Cause {
    pub number: u32,
    pub place: u64,
}

/// A transaction with the member that plays it.
type PlacedTran = (MemberId, Tran);

/// The transactions of a script with their fates, as far as they have any.
#[derive(Drop)]
pub struct Fates {
    // those without a fate, by their numbers from 1
    waiting: Vec<Option<PlacedTran>>,
    // by number from 1: whether it has committed
    committed: Vec<bool>,
    history: History,
    causes: Vec<Cause>,
}

impl Model for Fates {
    ghost use Rattle.script_fates.specs.Fated.{FatesState};
    ghost use Rattle.script_fates.specs.Kept.{IsKept};

    ghost Value = { FatesState };

    ghost view = { λ f. record { entries = f.history.entries; causes = f.causes.items } };

    ghost invariant = { λ f. IsKept f.waiting.items f.committed.items f.history.entries };
}

fn put_part(
    alloc: Global,
    waiting: &mut Vec<Option<PlacedTran>>,
    part: &Part,
) -> Result<(), NoMemory> {
    for tran in part.trans.as_slice() {
        waiting.push(Some((part.member, copy_tran(alloc, tran)?)))?;
    }
    Ok(())
}

fn placed(alloc: Global, script: &Script) -> Result<Vec<Option<PlacedTran>>, NoMemory> {
    let mut waiting = Vec::new(alloc);
    for phase in script.phases.as_slice() {
        for part in phase.parts.as_slice() {
            put_part(alloc, &mut waiting, part)?;
        }
    }
    Ok(waiting)
}

// Takes what stands at a place.
fn take_at(waiting: &mut [Option<PlacedTran>], at: usize) -> Option<PlacedTran>
    ensures taken { IsSome result → waits_at waiting.old at ≡ true }
    ensures left { (i : ℕ) → waits_at waiting.new i ≡ true → (i ≢ at) × (waits_at waiting.old i ≡ true) }
{
    if at < waiting.len() {
        waiting[at].take()
    } else {
        None
    }
}

fn mark(marks: &mut Vec<bool>, at: usize)
    ensures { (i : ℕ) → is_marked marks.new.items i ≡ true → (i ≡ at) ⊎ (is_marked marks.old.items i ≡ true) }
{
    if at < marks.len() {
        marks[at] = true;
    }
}

fn may_be_refused(tran: &Tran, refusal: &Refusal) -> bool
    ensures { result ≡ may_be_refused tran.now refusal.now }
{
    match refusal {
        Refusal::Held { .. } => !tran.wait,
        _ => true,
    }
}

// Whether the transaction may have this fate.
fn may_have(tran: &Tran, fate: &Fate) -> bool
    ensures { result ≡ may_have tran.now fate.now }
{
    match fate {
        Fate::Refused(refusal) => may_be_refused(tran, refusal),
        _ => true,
    }
}

// Enters the fate of a transaction that has none, and answers whether it was so.
fn end_in(
    waiting: &mut [Option<PlacedTran>],
    history: &mut History,
    number: u32,
    fate: Fate,
) -> bool
    requires { (i : ℕ) → waits_at waiting.old i ≡ true → has_number history.old.entries (i + 1) ≡ false }
    ensures added { result ≡ true → Adds history.old.entries number fate history.new.entries }
    ensures as_before { result ≡ false → history.new.entries ≡ history.old.entries }
    ensures unfated { (i : ℕ) → waits_at waiting.new i ≡ true → has_number history.new.entries (i + 1) ≡ false }
    ensures fated { (n : ℕ) → has_committed history.old.entries n ≡ true → has_committed history.new.entries n ≡ true }
{
    let Some(at) = (number as usize).checked_sub(1) else {
        return false;
    };
    let Some((member, tran)) = take_at(waiting, at) else {
        return false;
    };
    if tran.number != number || number > history.room() || !may_have(&tran, &fate) {
        return false;
    }
    if history.len() >= history.room() as usize {
        return false;
    }
    history.push(Entry { member, tran, fate });
    true
}

impl Fates {
    /// No transaction of the script has a fate. Takes the memory for all of them.
    pub fn new(alloc: Global, script: &Script) -> Result<Fates, NoMemory>
        ensures { IfOk result (λ fates. fates ≡ no_fates) }
    {
        let waiting = placed(alloc, script)?;
        let Ok(room) = u32::try_from(waiting.len()) else {
            return Err(NoMemory);
        };
        Ok(Fates {
            committed: vec![in alloc; false; waiting.len()]?,
            history: History::new(alloc, room)?,
            causes: Vec::with_capacity(alloc, waiting.len())?,
            waiting,
        })
    }

    // Enters the fate of a transaction that has none, and answers whether it was so.
    fn end(&mut self, number: u32, fate: Fate) -> bool
        ensures { Ends self.old number fate result self.new }
    {
        end_in(&mut self.waiting, &mut self.history, number, fate)
    }

    /// The transaction has committed, and has read this.
    pub fn commit(&mut self, number: u32, reads: Reads)
        ensures { Fixes self.old number (fate.Committed false reads) self.new }
    {
        let fate = Fate::Committed {
            answered: false,
            reads,
        };
        if self.end(number, fate) {
            mark(&mut self.committed, (number as usize).saturating_sub(1));
        }
    }

    /// A transaction that has committed is answered.
    pub fn answer(&mut self, number: u32)
        ensures { (self.new ≡ self.old) ⊎ (self.new ≡ record self.old { entries = after_answer self.old.entries number }) }
    {
        let at = (number as usize).saturating_sub(1);
        if number > 0 && at < self.committed.len() && self.committed[at] {
            self.history.answer(number);
        }
    }

    /// The transaction is refused by a cause that held at this event. A transaction that waits for locks isn't refused
    /// since another one holds one: it has no fate then.
    pub fn refuse(&mut self, number: u32, refusal: Refusal, place: u64)
        ensures { Refuses self.old number refusal place self.new }
    {
        let Fates {
            waiting,
            committed: _,
            history,
            causes,
        } = self;
        if causes.len() >= causes.capacity() {
            return;
        }
        if end_in(waiting, history, number, Fate::Refused(refusal)) {
            causes.push_reserved(Cause { number, place });
        }
    }

    /// Those of a part of the phase that have no fate are stopped.
    pub fn stop_part(&mut self, phase: &Phase, at: usize)
        requires { at < length phase.now.parts }
        ensures { StopsOnly (is_in_phase phase.now) self.old self.new }
    {
        for tran in phase.parts.as_slice()[at].trans.as_slice() {
            self.end(tran.number, Fate::Stopped);
        }
    }

    /// Those of the phase that have no fate are stopped.
    pub fn stop_phase(&mut self, phase: &Phase)
        ensures { StopsOnly (is_in_phase phase.now) self.old self.new }
    {
        for at in 0..phase.parts.len() {
            self.stop_part(phase, at);
        }
    }

    // Stops the transactions of a part of the phase that have no fate, where it is the member's.
    fn stop_part_of(&mut self, phase: &Phase, at: usize, member: MemberId)
        requires { at < length phase.now.parts }
        ensures { StopsOnly (is_in_part phase.now member) self.old self.new }
    {
        let part = &phase.parts.as_slice()[at];
        if part.member != member {
            return;
        }
        for tran in part.trans.as_slice() {
            self.end(tran.number, Fate::Stopped);
        }
    }

    /// Those of the member's part of the phase that have no fate are stopped.
    pub fn stop_member(&mut self, phase: &Phase, member: MemberId)
        ensures { StopsOnly (is_in_part phase.now member) self.old self.new }
    {
        for at in 0..phase.parts.len() {
            self.stop_part_of(phase, at, member);
        }
    }

    /// All that have no fate are stopped.
    pub fn stop_all(&mut self)
        ensures { Stops self.old self.new }
    {
        for at in 0..self.waiting.len() {
            if let Ok(number) = u32::try_from(at + 1) {
                self.end(number, Fate::Stopped);
            }
        }
    }

    /// The entries in the order of their fates, and the causes of the refused ones.
    pub fn into_parts(self) -> (Vec<Entry>, Vec<Cause>)
        ensures entries { result.0.items ≡ self.entries }
        ensures causes { result.1.items ≡ self.causes }
    {
        let Fates {
            history,
            causes,
            ..
        } = self;
        (history.into_entries(), causes)
    }
}
