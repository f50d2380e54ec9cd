//! The threads are started, one by another, and stand until the leading one is done. A value that leads may be large: it goes through few calls.
ghost use Rattle.std.specs.Prelude.{◌≡◌, length, IfOk, IfErr};
ghost use Rattle.std.specs.Thread.{IsSend, IsSync};
ghost use Rattle.standing_threads.specs.Ends.{HasNone};
ghost use Rattle.standing_threads.specs.Rows.{AllOf};

use crate::pool::Pool;
use crate::post::Post;
use crate::task::Task;
use std::alloc::{AllocError, Global};
use std::sync::Wait;
use std::thread::{Threads, join};

/// What leads standing threads.
pub trait Leader<T: Task>: Drop {
    /// What it comes to.
    type Answer;

    /// What it may come to.
    ghost leads: { Self → Self.Answer → Type 0 };

    fn lead<R: Wait>(self, rt: &R, pool: &mut Pool<T>) -> Self::Answer
        ensures { leads self result };
}

// Leads the threads, which stand no longer then.
fn lead_all<R: Wait, T: Task, L: Leader<T>>(rt: &R, leader: L, mut pool: Pool<T>) -> L::Answer
    ensures { L.leads leader result }
{
    let answer = leader.lead(rt, &mut pool);
    pool.end();
    answer
}

// Lets a thread stand at each of these ends: at the last one this thread, which starts the next one before.
#[cycle(threads)]
fn stand_all<R: Threads + Wait + Sync, T: Task + Send>(rt: &R, mut posts: Vec<Post<T>>)
    requires { AllOf HasNone posts.items }
{
    if let Some(post) = posts.pop() {
        stand_one(rt, post, posts);
    }
}

// Lets this thread stand at this end, and others at those.
#[cycle(threads)]
fn stand_one<R: Threads + Wait + Sync, T: Task + Send>(rt: &R, post: Post<T>, posts: Vec<Post<T>>)
    requires { HasNone post × AllOf HasNone posts.items }
{
    if posts.is_empty() {
        post.stand(rt);
        return;
    }
    let (_, _) = join(
        rt,
        move ||
            requires { IsSync R.row × IsSend T.row × AllOf HasNone posts.items }
        { stand_all(rt, posts) },
        move ||
            requires { HasNone post }
        { post.stand(rt) },
    );
}

// Leads the threads in this one, where there are any to be.
fn lead_beside<R: Threads + Wait + Sync, T: Task + Send, L: Leader<T>>(
    rt: &R,
    leader: L,
    pool: Pool<T>,
    posts: Vec<Post<T>>,
) -> L::Answer
    requires { AllOf HasNone posts.items }
    ensures { L.leads leader result }
{
    if posts.is_empty() {
        return lead_all(rt, leader, pool);
    }
    let (_, answer) = join(
        rt,
        move ||
            requires { IsSync R.row × IsSend T.row × AllOf HasNone posts.items }
        { stand_all(rt, posts) },
        move || -> L::Answer
            ensures { L.leads leader result }
        { lead_all(rt, leader, pool) },
    );
    answer
}

/// Leads up to so many standing threads in this thread, as long as the leader goes on. The refusal comes for want of memory alone.
pub fn with_threads<R: Threads + Wait + Sync, T: Task + Send, L: Leader<T>>(
    rt: &R,
    alloc: Global,
    count: usize,
    leader: L,
) -> Result<L::Answer, (AllocError, L)>
    ensures answer { IfOk result (λ answer. L.leads leader answer) }
    ensures refused { IfErr result (λ r. r.1 ≡ leader) }
{
    match Pool::new(alloc, count) {
        Ok((pool, posts)) => Ok(lead_beside(rt, leader, pool, posts)),
        Err(refused) => Err((refused, leader)),
    }
}
