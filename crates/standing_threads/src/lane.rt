//! A way from the leading thread to a standing one and back.
ghost use Rattle.std.specs.Prelude.{◌≡◌};

use crate::law::Law;
use crate::message::{Message, Side};
use crate::signal::Signal;
use crate::task::Task;
use crossbeam_queue::RuledArrayQueue;

/// The values on their way: one at most.
pub type Row<T> = RuledArrayQueue<Message<T>, Side<T>, Law<T>>;

/// What both ends share.
#[derive(Drop)]
pub struct Lane<T: Task> {
    pub(crate) row: Row<T>,
    pub(crate) signal: Signal,
    ghost short: { row.cap ≡ 1 },
}
