//! What a thread is handed for a round of a phase.
ghost use Rattle.std.specs.Prelude.{◌≡◌, ◌+◌, ◌<◌};

use crate::gate::Gate;
use crate::hall::Hall;
use crate::shared::Shared;
use crate::worker::Worker;
use cache_structure::CacheFace;
use ds_disk::Disk;
use group_core::Policy;
use standing_threads::Task;
use std::alloc::Global;
use std::sync::{Arc, Wait};
use turn_gate::Turn;
use turn_story::{Stepping, Told};

/// What the threads of a phase share.
#[derive(Drop)]
pub struct Stage<M: Stepping> {
    pub turn: Turn<Told<M>>,
    pub hall: Hall,
}

/// The work of a round for one member, which any thread may do.
#[derive(Drop)]
pub struct Errand<'g, M: Stepping, G> {
    pub worker: Worker<M>,
    pub stage: Arc<Stage<M>, Global>,
    pub gate: &'g G,
    pub alloc: Global,
    /// The member's number, counted from 1.
    pub number: u64,
}

impl<'g, D: Disk + Drop, C: CacheFace + Drop, P: Policy + Drop, G: Gate> Task
    for Errand<'g, Shared<D, C, P>, G> {
    ghost use Rattle.group_threads.specs.Errands.{IsReady, Leaves};

    ghost ready = { IsReady };

    ghost leaves = { Leaves };

    fn work<R: Wait>(&mut self, rt: &R) {
        let stage: &Stage<Shared<D, C, P>> = &self.stage;
        self.worker.work(
            rt,
            self.alloc,
            &stage.turn,
            &stage.hall,
            self.gate,
            self.number,
        );
    }
}
