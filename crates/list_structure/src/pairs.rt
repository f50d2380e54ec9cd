//! The pairs of transactions of which one waits for the other.
ghost use Rattle.std.specs.Prelude.{◌≡◌, ◌↔◌, IsTrue, ◌*◌, ◌≤◌, ◌==◌, ◌||◌, [], not, filter, length, IfOk, vec_capacity};
ghost use Rattle.list_structure.specs.Flags.{same_tran};
ghost use Rattle.list_structure.specs.Kept.{AreApart};
ghost use Rattle.list_structure.specs.Waits.{FitsWaits, has_wait, is_replaced, same_wait, with_wait, without_flag, without_tran, without_trans_of, without_waiter};
ghost use Rattle.list_structure.specs.Waiters.{is_beside, waits_in, waiters_beside};

use crate::Wait;
use ds_base::{MemberId, NoMemory, TranId};
use std::alloc::Global;
use std::marker::Model;

/// The room for the waits of an agent a member: a pair for each member and each member of a holder.
const PAIRS_PER_AGENT: usize = 1024;

/// The pairs, in the order in which they were added. No call but `new` takes memory.
#[derive(Drop)]
pub struct Pairs {
    waits: Vec<Wait>,
    agents: u8,
}

impl Model for Pairs {
    ghost use Rattle.std.specs.Prelude.{vec_capacity};
    ghost use Rattle.list_structure.specs.Kept.{PairsState, IsKept};

    ghost Value = { PairsState };

    ghost view = { λ p. record { waits = p.waits.items; agents = p.agents } };

    ghost invariant = { λ p. IsKept p.waits.items p.agents (vec_capacity p.waits) };
}

impl Pairs {
    /// No pairs yet, with room for members of so many agents.
    pub fn new(alloc: Global, agents: u8) -> Result<Pairs, NoMemory>
        ensures { IfOk result (λ pairs. pairs ≡ record { waits = []; agents = agents }) }
    {
        let waits = Vec::with_capacity(alloc, PAIRS_PER_AGENT * agents as usize)?;
        Ok(Pairs { waits, agents })
    }

    pub fn agents(&self) -> u8
        ensures { result ≡ self.now.agents }
    {
        self.agents
    }

    pub fn list(&self) -> &[Wait]
        ensures { result.now ≡ self.now.waits }
    {
        self.waits.as_slice()
    }

    pub fn clear(&mut self)
        ensures { self.new ≡ record self.old { waits = [] } }
    {
        self.waits.clear();
    }

    /// No two pairs have one waiter, and holders of one member. It does nothing: it is called where the fact is needed.
    pub fn keeps_apart(&self)
        ensures { AreApart self.now.waits }
    {
        let _agents = self.agents;
    }

    /// Whether the pair is there.
    pub fn has(&self, wait: &Wait) -> bool
        ensures { result ≡ has_wait self.now.waits wait.now }
    {
        has_in(self.waits.as_slice(), wait)
    }

    /// Whether there is room for the pair: with its waiter, no more transactions of the member wait than it has agents.
    pub fn fits(&self, wait: &Wait) -> bool
        ensures { IsTrue result ↔ FitsWaits (with_wait self.now.waits wait.now) wait.now.waiter.member self.now.agents }
    {
        others_waiting(self.waits.as_slice(), &wait.waiter) < self.agents as usize
    }

    /// Adds the pair in place of the waiter's pair with a holder of the same member.
    pub fn add(&mut self, wait: Wait)
        requires { FitsWaits (with_wait self.old.waits wait) wait.waiter.member self.old.agents }
        ensures { self.new ≡ record self.old { waits = with_wait self.old.waits wait } }
    {
        let _waiter = wait.waiter.member.number();
        let _holder = wait.holder.member.number();
        drop_replaced(&mut self.waits, &wait);
        self.waits.push_reserved(wait);
    }

    /// Drops the pairs in which the transaction waits.
    pub fn drop_waiter(&mut self, tran: &TranId)
        ensures { self.new ≡ record self.old { waits = without_waiter self.old.waits tran.now } }
    {
        drop_waiter_in(&mut self.waits, tran);
    }

    /// Drops all pairs with the transaction.
    pub fn drop_tran(&mut self, tran: &TranId)
        ensures { self.new ≡ record self.old { waits = without_tran self.old.waits tran.now } }
    {
        drop_tran_in(&mut self.waits, tran);
    }

    /// Drops the pairs that await the flag.
    pub fn drop_flag(&mut self, flag: u8)
        ensures { self.new ≡ record self.old { waits = without_flag self.old.waits flag } }
    {
        drop_flag_in(&mut self.waits, flag);
    }

    /// Drops all pairs with transactions of the member.
    pub fn drop_member(&mut self, member: MemberId)
        ensures { self.new ≡ record self.old { waits = without_trans_of self.old.waits member } }
    {
        drop_member_in(&mut self.waits, member);
    }
}

fn is_same(a: &Wait, b: &Wait) -> bool
    ensures { result ≡ same_wait a.now b.now }
{
    a.waiter == b.waiter && a.holder == b.holder && a.flag == b.flag
}

fn is_replaced(new: &Wait, old: &Wait) -> bool
    ensures { result ≡ is_replaced new.now old.now }
{
    new.waiter == old.waiter && new.holder.member == old.holder.member
}

fn is_with(tran: &TranId, wait: &Wait) -> bool
    ensures { result ≡ (same_tran tran.now wait.now.waiter || same_tran tran.now wait.now.holder) }
{
    *tran == wait.waiter || *tran == wait.holder
}

fn has_in(waits: &[Wait], wait: &Wait) -> bool
    ensures { result ≡ has_wait waits.now wait.now }
{
    waits.iter().any(|other| is_same(wait, other))
}

/// Whether another transaction of the member waits in the pair.
fn is_beside(tran: &TranId, wait: &Wait) -> bool
    ensures { result ≡ is_beside tran.now wait.now }
{
    wait.waiter.member == tran.member && *tran != wait.waiter
}

/// Whether the transaction waits in one of the pairs.
fn waits_in(waits: &[Wait], tran: &TranId) -> bool
    ensures { result ≡ waits_in waits.now tran.now }
{
    waits.iter().any(|wait| *tran == wait.waiter)
}

/// How many other transactions of its member wait.
fn others_waiting(waits: &[Wait], tran: &TranId) -> usize
    ensures { result ≡ length (waiters_beside tran.now waits.now) }
{
    let mut count = 0;
    for at in 0..waits.len() {
        let wait = &waits[at];
        if is_beside(tran, wait) && !waits_in(&waits[at + 1..], &wait.waiter) {
            count += 1;
        }
    }
    count
}

fn drop_replaced(waits: &mut Vec<Wait>, wait: &Wait)
    ensures items { waits.new.items ≡ filter (λ old. not (is_replaced wait.now old)) waits.old.items }
    ensures room { vec_capacity waits.new ≡ vec_capacity waits.old }
{
    waits.retain(|old| !is_replaced(wait, old));
}

fn drop_waiter_in(waits: &mut Vec<Wait>, tran: &TranId)
    ensures items { waits.new.items ≡ without_waiter waits.old.items tran.now }
    ensures room { vec_capacity waits.new ≡ vec_capacity waits.old }
{
    waits.retain(|wait| *tran != wait.waiter);
}

fn drop_tran_in(waits: &mut Vec<Wait>, tran: &TranId)
    ensures items { waits.new.items ≡ without_tran waits.old.items tran.now }
    ensures room { vec_capacity waits.new ≡ vec_capacity waits.old }
{
    waits.retain(|wait| !is_with(tran, wait));
}

fn drop_flag_in(waits: &mut Vec<Wait>, flag: u8)
    ensures items { waits.new.items ≡ without_flag waits.old.items flag }
    ensures room { vec_capacity waits.new ≡ vec_capacity waits.old }
{
    waits.retain(|wait| flag != wait.flag);
}

fn drop_member_in(waits: &mut Vec<Wait>, member: MemberId)
    ensures items { waits.new.items ≡ without_trans_of waits.old.items member }
    ensures room { vec_capacity waits.new ≡ vec_capacity waits.old }
{
    waits.retain(|wait| !(member == wait.waiter.member || member == wait.holder.member));
}
