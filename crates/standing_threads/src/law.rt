//! What holds of a lane, and what each step tells.
use crate::message::{Message, Side};
use crate::task::Task;
use crossbeam_queue::protocol::{Lesson, Outcome, Protocol, Split};
use std::marker::PhantomData;

/// What holds of a lane between any two steps.
pub struct Law<T> {
    task: PhantomData<T>,
}

impl<T: Task> Protocol<Message<T>, Side<T>> for Law<T> {
    ghost use Rattle.standing_threads.specs.Lanes.{IsLane};
    ghost use Rattle.standing_threads.specs.declared.message.Side.TheVariants as side;

    ghost holds = { IsLane T.ready T.leaves };

    ghost first = { side.Both };
}

/// The two ends are told apart.
pub struct Apart;

impl<T> Split<Side<T>> for Apart {
    ghost use Rattle.std.specs.Prelude.{None};
    ghost use Rattle.standing_threads.specs.declared.message.Side.TheVariants as side;

    ghost left = { λ v. side.Leads None };

    ghost right = { λ v. side.Stands None };
}

/// The leading thread sends a value.
pub struct Sends;

impl<T> Outcome<Message<T>, Side<T>> for Sends {
    ghost use Rattle.std.specs.Prelude.{◌≡◌};
    ghost use Rattle.standing_threads.specs.Lanes.{sent};

    ghost then = { λ v m w. w ≡ sent m };
}

impl<T> Lesson<Message<T>, Side<T>> for Sends {
    ghost use Rattle.std.specs.Prelude.{◌≡◌, []};

    ghost fact = { λ v items. items ≡ [] };
}

/// The leading thread gets it back.
pub struct GetsBack<T> {
    task: PhantomData<T>,
}

impl<T: Task> Outcome<Message<T>, Side<T>> for GetsBack<T> {
    ghost use Rattle.standing_threads.specs.Lanes.{IsBack};

    ghost then = { IsBack T.ready T.leaves };
}

impl<T: Task> Lesson<Message<T>, Side<T>> for GetsBack<T> {
    ghost use Rattle.std.specs.Prelude.{⊤};

    ghost fact = { λ v items. ⊤ };
}

/// The standing thread takes what there is.
pub struct Takes<T> {
    task: PhantomData<T>,
}

impl<T: Task> Outcome<Message<T>, Side<T>> for Takes<T> {
    ghost use Rattle.std.specs.Prelude.{◌≡◌, Some};
    ghost use Rattle.standing_threads.specs.Lanes.{MayWork};
    ghost use Rattle.standing_threads.specs.declared.message.Side.TheVariants as side;

    ghost then = { λ v m w. (w ≡ side.Stands (Some m)) × MayWork T.ready m };
}

impl<T: Task> Lesson<Message<T>, Side<T>> for Takes<T> {
    ghost use Rattle.std.specs.Prelude.{⊤};

    ghost fact = { λ v items. ⊤ };
}

/// The standing thread sends something on.
pub struct Puts;

impl<T> Outcome<Message<T>, Side<T>> for Puts {
    ghost use Rattle.std.specs.Prelude.{◌≡◌, None};
    ghost use Rattle.standing_threads.specs.declared.message.Side.TheVariants as side;

    ghost then = { λ v m w. w ≡ side.Stands None };
}

impl<T> Lesson<Message<T>, Side<T>> for Puts {
    ghost use Rattle.std.specs.Prelude.{◌≡◌, []};

    ghost fact = { λ v items. items ≡ [] };
}
