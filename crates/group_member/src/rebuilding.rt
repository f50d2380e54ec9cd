ghost use Rattle.std.specs.Prelude.{◌≡◌, IfOk};
ghost use Rattle.rebuild_resources.specs.State.{IsNewRebuild};

use cache_rebuild::{CacheRebuild, Ended};
use checkpoint_reader::KnownEnds;
use ds_base::{MemberId, NoMemory, Volume};
use rebuild_resources::Rebuild;
use std::alloc::Global;

/// A rebuild of the lost cache: what its member holds for it, and what decides where it goes on.
#[derive(Drop)]
pub struct Rebuilding {
    pub resources: Rebuild,
    pub policy: CacheRebuild,
}

impl Rebuilding {
    /// Nothing is claimed yet. Up to these ends the logs are known to be whole records.
    pub fn new(alloc: Global, member: MemberId, known: &KnownEnds) -> Result<Rebuilding, NoMemory>
        ensures fresh { IfOk result (λ rebuilding. IsNewRebuild member rebuilding.resources) }
        ensures known { IfOk result (λ rebuilding. rebuilding.resources.known ≡ known.now) }
    {
        Ok(Rebuilding {
            resources: Rebuild::new(alloc, member, known)?,
            policy: CacheRebuild::new(),
        })
    }

    /// Whether its next event may be taken, where the bell has rung so often.
    pub(crate) fn is_ready(&self, bell: u64) -> bool {
        match self.policy.waits() {
            Some(until) => until < bell,
            None => true,
        }
    }

    /// Whether the cache isn't lost any more, and the claim is given up.
    pub(crate) fn is_done(&self) -> bool {
        matches!(self.policy.ended(), Some(Ended::Done))
    }

    /// A byte that it has read and that can't stand there.
    pub(crate) fn damage(&self) -> Option<(Volume, u64)> {
        match self.policy.ended() {
            Some(Ended::Damaged { volume, at }) => Some((volume, at)),
            _ => None,
        }
    }
}
