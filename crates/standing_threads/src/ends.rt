//! A lane's two ends.
ghost use Rattle.std.specs.Prelude.{◌≡◌, IfOk};
ghost use Rattle.crossbeam_queue.specs.Passes.{view, IsPassOf, ruled_capacity};
ghost use Rattle.standing_threads.specs.declared.message.Side.TheVariants as side;
ghost use Rattle.standing_threads.specs.Ends.{IsHome, HasNone};

use crate::lane::{Lane, Row};
use crate::law::Apart;
use crate::lead::Lead;
use crate::message::{Message, Side};
use crate::post::Post;
use crate::signal::Signal;
use crate::task::Task;
use crossbeam_queue::Pass;
use std::alloc::{AllocError, Global};
use std::sync::Arc;

// The ends of a lane, of which this is the pass.
fn apart<T: Task>(
    alloc: Global,
    row: Row<T>,
    mut pass: Pass<Message<T>, Side<T>>,
) -> Result<(Lead<T>, Post<T>), AllocError>
    requires pass { IsPassOf row pass × (view pass ≡ side.Both) }
    requires short { ruled_capacity row ≡ 1 }
    ensures lead { IfOk result (λ r. IsHome r.0) }
    ensures post { IfOk result (λ r. HasNone r.1) }
{
    let other = row.another::<Apart>(&mut pass);
    let lane = Arc::new(
        alloc,
        Lane {
            row,
            signal: Signal::new(),
        },
    )?;
    let theirs = Arc::try_clone(&lane)?;
    Ok((
        Lead { lane, pass },
        Post {
            lane: theirs,
            pass: other,
        },
    ))
}

/// A lane's two ends.
pub fn open<T: Task>(alloc: Global) -> Result<(Lead<T>, Post<T>), AllocError>
    ensures lead { IfOk result (λ r. IsHome r.0) }
    ensures post { IfOk result (λ r. HasNone r.1) }
{
    let (row, pass) = Row::ruled(alloc, 1)?;
    apart(alloc, row, pass)
}
