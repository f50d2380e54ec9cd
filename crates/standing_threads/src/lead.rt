//! The leading thread's end.
ghost use Rattle.std.specs.Prelude.{◌≡◌, MatchOption};
ghost use Rattle.standing_threads.specs.Lanes.{Meets};
ghost use Rattle.standing_threads.specs.Ends.{IsHome, IsAway};

use crate::lane::Lane;
use crate::law::{GetsBack, Sends};
use crate::message::{Message, Side};
use crate::task::Task;
use crossbeam_queue::Pass;
use std::alloc::Global;
use std::sync::{Arc, Wait};
use std::thread;

/// The leading thread's end of a lane.
#[derive(Drop)]
pub struct Lead<T: Task> {
    pub(crate) lane: Arc<Lane<T>, Global>,
    pub(crate) pass: Pass<Message<T>, Side<T>>,
}

impl<T: Task> Lead<T> {
    /// Wakes the standing thread, if it sleeps.
    pub(crate) fn wake(&self) {
        self.lane.signal.wake();
    }

    /// Sends a value to the standing thread.
    pub(crate) fn send<R: Wait>(&mut self, rt: &R, item: T)
        requires home { IsHome self.old }
        requires ready { T.ready item }
        ensures { IsAway self.new item }
    {
        let sent = self
            .lane
            .row
            .push_as::<Sends, R>(rt, &mut self.pass, Message::ToDo(item));
        let Ok(()) = sent else { unreachable!() };
        self.lane.signal.call();
    }

    // What lies in the lane.
    fn pop<R: Wait>(&mut self, rt: &R) -> Option<Message<T>>
        requires { (x : T) × IsAway self.old x }
        ensures { (x : T) → IsAway self.old x → MatchOption result (IsAway self.new x) (λ m. IsHome self.new × Meets T.ready T.leaves x m) }
    {
        self.lane.row.pop_as::<GetsBack<T>, R>(rt, &mut self.pass)
    }

    /// Gets back what was sent, and works on it where the standing thread hasn't.
    pub(crate) fn get_back<R: Wait>(&mut self, rt: &R) -> T
        requires { (x : T) × IsAway self.old x }
        ensures { (x : T) → IsAway self.old x → IsHome self.new × T.leaves x result }
    {
        for _ in rt.forever() {
            self.lane.signal.await_done(rt);
            match self.pop(rt) {
                Some(Message::Done(item)) => return item,
                Some(Message::ToDo(mut item)) => {
                    self.lane.signal.recall();
                    item.work(rt);
                    return item;
                }
                None => thread::yield_now(),
            }
        }
        unreachable!()
    }

    /// Nothing will be sent any more.
    pub(crate) fn end(&self) {
        self.lane.signal.end();
    }
}
