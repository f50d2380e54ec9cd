//! The standing thread's end.
ghost use Rattle.std.specs.Prelude.{◌≡◌, MatchOption};
ghost use Rattle.standing_threads.specs.declared.message.Message.{Message};
ghost use Rattle.standing_threads.specs.declared.message.Message.TheVariants as said;
ghost use Rattle.standing_threads.specs.Lanes.{Follows, MayWork};
ghost use Rattle.standing_threads.specs.Ends.{HasNone, HasOne};

use crate::lane::Lane;
use crate::law::{Puts, Takes};
use crate::message::{Message, Side};
use crate::task::Task;
use crossbeam_queue::Pass;
use std::alloc::Global;
use std::sync::{Arc, Wait};
use std::thread;

/// The standing thread's end of a lane.
#[derive(Drop)]
pub struct Post<T: Task> {
    pub(crate) lane: Arc<Lane<T>, Global>,
    pub(crate) pass: Pass<Message<T>, Side<T>>,
}

impl<T: Task> Post<T> {
    // Takes what lies in the lane.
    fn take<R: Wait>(&mut self, rt: &R) -> Option<Message<T>>
        requires { HasNone self.old }
        ensures { MatchOption result (HasNone self.new) (λ m. HasOne self.new m × MayWork T.ready m) }
    {
        self.lane.row.pop_as::<Takes<T>, R>(rt, &mut self.pass)
    }

    // Sends something on, which stands for what was taken.
    fn put<R: Wait>(&mut self, rt: &R, message: Message<T>)
        requires { (m : Message T) × HasOne self.old m × Follows T.ready T.leaves m message }
        ensures { HasNone self.new }
    {
        let put = self
            .lane
            .row
            .push_as::<Puts, R>(rt, &mut self.pass, message);
        let Ok(()) = put else { unreachable!() };
    }

    // Works on the value that lies in the lane, if there is one.
    fn serve<R: Wait>(&mut self, rt: &R)
        requires { HasNone self.old }
        ensures { HasNone self.new }
    {
        match self.take(rt) {
            Some(Message::ToDo(item)) => {
                self.lane.signal.begin();
                self.work(rt, item);
                self.lane.signal.finish();
            }
            Some(other) => self.put(rt, other),
            None => thread::yield_now(),
        }
    }

    // Works on a value that was taken, and sends on what is left of it.
    fn work<R: Wait>(&mut self, rt: &R, mut item: T)
        requires { HasOne self.old (said.ToDo item) × T.ready item }
        ensures { HasNone self.new }
    {
        item.work(rt);
        self.put(rt, Message::Done(item));
    }

    /// Works on each value that is sent, until nothing will be any more.
    pub fn stand<R: Wait>(mut self, rt: &R)
        requires { HasNone self }
    {
        for _ in rt.forever() {
            if !self.lane.signal.await_call(rt) {
                return;
            }
            self.serve(rt);
        }
        unreachable!()
    }
}
