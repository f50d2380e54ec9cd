//! The standing threads, as the leading one sees them.
ghost use Rattle.std.specs.Prelude.{◌≡◌, length, vec_capacity, IfOk};
ghost use Rattle.standing_threads.specs.Ends.{IsHome, HasNone};
ghost use Rattle.standing_threads.specs.Rows.{AllOf, LeavesEach};

use crate::ends::open;
use crate::lead::Lead;
use crate::post::Post;
use crate::task::Task;
use std::alloc::{AllocError, Global};
use std::marker::Model;
use std::sync::Wait;

/// Standing threads. A contract sees how many there are.
#[derive(Drop)]
pub struct Pool<T: Task> {
    leads: Vec<Lead<T>>,
}

impl<T: Task> Model for Pool<T> {
    ghost use Rattle.std.specs.Prelude.{ℕ, length};
    ghost use Rattle.standing_threads.specs.Ends.{IsHome};
    ghost use Rattle.standing_threads.specs.Rows.{AllOf};

    ghost Value = { ℕ };

    ghost view = { λ p. length p.leads.items };

    ghost invariant = { λ p. AllOf IsHome p.leads.items };
}

// Hands the last value of the row over, and the others meanwhile.
#[cycle(row)]
#[tactic(auto, using(crate::proofs::Rowed::all_front, crate::proofs::Rowed::each_more, crate::proofs::Rowed::each_length))]
fn work_beside<R: Wait, T: Task>(
    rt: &R,
    lead: &mut Lead<T>,
    leads: &mut [Lead<T>],
    items: &mut Vec<T>,
    item: T,
) -> T
    requires home { IsHome lead.old × AllOf IsHome leads.old }
    requires ready { T.ready item × AllOf T.ready items.old.items }
    ensures home { IsHome lead.new × AllOf IsHome leads.new }
    ensures count { length leads.new ≡ length leads.old }
    ensures last { T.leaves item result }
    ensures others { LeavesEach T.leaves items.old.items items.new.items }
    ensures room { vec_capacity items.new ≡ vec_capacity items.old }
{
    lead.send(rt, item);
    work_row(rt, leads, items);
    lead.get_back(rt)
}

// Works on the last value of the row, once there is no thread to hand it to.
#[cycle(row)]
#[tactic(auto, using(crate::proofs::Rowed::all_front, crate::proofs::Rowed::each_more, crate::proofs::Rowed::each_length))]
fn work_behind<R: Wait, T: Task>(
    rt: &R,
    leads: &mut [Lead<T>],
    items: &mut Vec<T>,
    mut item: T,
) -> T
    requires home { AllOf IsHome leads.old }
    requires ready { T.ready item × AllOf T.ready items.old.items }
    ensures home { AllOf IsHome leads.new }
    ensures count { length leads.new ≡ length leads.old }
    ensures last { T.leaves item result }
    ensures others { LeavesEach T.leaves items.old.items items.new.items }
    ensures room { vec_capacity items.new ≡ vec_capacity items.old }
{
    work_row(rt, leads, items);
    item.work(rt);
    item
}

// Works on the last value of the row, and on the others: on the first in this thread.
#[cycle(row)]
#[tactic(auto, using(crate::proofs::Rowed::all_front, crate::proofs::Rowed::each_more, crate::proofs::Rowed::each_length))]
fn work_last<R: Wait, T: Task>(rt: &R, leads: &mut [Lead<T>], items: &mut Vec<T>, item: T) -> T
    requires home { AllOf IsHome leads.old }
    requires ready { T.ready item × AllOf T.ready items.old.items }
    ensures home { AllOf IsHome leads.new }
    ensures count { length leads.new ≡ length leads.old }
    ensures last { T.leaves item result }
    ensures others { LeavesEach T.leaves items.old.items items.new.items }
    ensures room { vec_capacity items.new ≡ vec_capacity items.old }
{
    if items.is_empty() || leads.is_empty() {
        return work_behind(rt, leads, items, item);
    }
    let Some((lead, rest)) = leads.split_first_mut() else {
        unreachable!()
    };
    work_beside(rt, lead, rest, items, item)
}

// Hands the last value of the row to the first thread, the one before it to the next, and so on. The first value is left to this thread.
#[cycle(row)]
#[tactic(auto, using(crate::proofs::Rowed::all_front, crate::proofs::Rowed::each_more, crate::proofs::Rowed::each_length))]
fn work_row<R: Wait, T: Task>(rt: &R, leads: &mut [Lead<T>], items: &mut Vec<T>)
    requires home { AllOf IsHome leads.old }
    requires ready { AllOf T.ready items.old.items }
    ensures home { AllOf IsHome leads.new }
    ensures count { length leads.new ≡ length leads.old }
    ensures each { LeavesEach T.leaves items.old.items items.new.items }
    ensures room { vec_capacity items.new ≡ vec_capacity items.old }
{
    if let Some(item) = items.pop() {
        let left = work_last(rt, leads, items, item);
        items.push_reserved(left);
    }
}

impl<T: Task> Pool<T> {
    /// Works on each value of a row: on the first in this thread, and on each other in a standing one, as long as there are any. The thread
    /// of the last value is woken for it, and the others wake now and then. What none has begun when this thread is done with the values
    /// before it, it works on itself.
    pub fn work_each<R: Wait>(&mut self, rt: &R, items: &mut Vec<T>)
        requires { AllOf T.ready items.old.items }
        ensures count { self.new ≡ self.old }
        ensures each { LeavesEach T.leaves items.old.items items.new.items }
        ensures room { vec_capacity items.new ≡ vec_capacity items.old }
    {
        if let Some(lead) = self.leads.first() {
            lead.wake();
        }
        work_row(rt, self.leads.as_mut_slice(), items);
    }

    /// So many standing threads, and the ends at which they are to stand.
    #[tactic(auto, using(crate::proofs::Rowed::all_more))]
    pub(crate) fn new(alloc: Global, count: usize) -> Result<(Pool<T>, Vec<Post<T>>), AllocError>
        ensures posts { IfOk result (λ r. AllOf HasNone r.1.items) }
        ensures count { IfOk result (λ r. (r.0 ≡ count) × (length r.1.items ≡ count)) }
    {
        let mut leads = Vec::with_capacity(alloc, count)?;
        let mut posts = Vec::with_capacity(alloc, count)?;
        for _ in 0..count {
            let (lead, post) = open(alloc)?;
            leads.push_reserved(lead);
            posts.push_reserved(post);
        }
        Ok((Pool { leads }, posts))
    }

    /// The threads stand no longer.
    pub(crate) fn end(&self) {
        for lead in self.leads.iter() {
            lead.end();
        }
    }
}
