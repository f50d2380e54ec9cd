use crate::stage::{Ended, Stage};
use rebuild_resources::{Event, Rebuild, RebuildIntent, RebuildPolicy, RebuildTold};

/// The rebuild of the cache by a member: where it stands.
#[derive(Clone, Copy)]
pub struct CacheRebuild {
    stage: Stage,
    /// The bell above which another's claim may have gone.
    bell: Option<u64>,
    ended: Option<Ended>,
}

impl CacheRebuild {
    /// Nothing is claimed yet.
    pub fn new() -> CacheRebuild {
        CacheRebuild {
            stage: Stage::Claim,
            bell: None,
            ended: None,
        }
    }

    /// How it has ended. Then it is given up.
    pub fn ended(&self) -> Option<Ended> {
        self.ended
    }

    /// The bell above which it goes on, while it waits for another's claim.
    pub fn waits(&self) -> Option<u64> {
        self.bell
    }

    fn next_page(&mut self, rebuild: &Rebuild) {
        self.stage = if rebuild.pages_left() == 0 {
            Stage::Rebuilt
        } else {
            Stage::ReadPage
        };
    }

    fn take_told(&mut self, event: &Event, told: RebuildTold, rebuild: &Rebuild) {
        match told {
            RebuildTold::Claimed => self.stage = Stage::ReadLog,
            RebuildTold::Taken { .. } => self.bell = Some(event.bell),
            RebuildTold::LogsWhole
            | RebuildTold::Brought { is_changed: false }
            | RebuildTold::Written => self.next_page(rebuild),
            RebuildTold::Brought { is_changed: true } => self.stage = Stage::WritePage,
            RebuildTold::Rebuilt => self.stage = Stage::Unclaim,
            RebuildTold::NotLost | RebuildTold::Unclaimed => self.ended = Some(Ended::Done),
            RebuildTold::Failed => self.ended = Some(Ended::Failed),
            RebuildTold::Damaged { volume, at } => {
                self.ended = Some(Ended::Damaged { volume, at });
            }
            RebuildTold::Stepped | RebuildTold::LogBlock => {}
        }
    }
}

impl RebuildPolicy for CacheRebuild {
    fn intent(&self) -> RebuildIntent {
        if self.bell.is_some() || self.ended.is_some() {
            return RebuildIntent::Step;
        }
        match self.stage {
            Stage::Claim => RebuildIntent::Claim,
            Stage::ReadLog => RebuildIntent::ReadLog,
            Stage::ReadPage => RebuildIntent::ReadPage,
            Stage::WritePage => RebuildIntent::WritePage,
            Stage::Rebuilt => RebuildIntent::Rebuilt,
            Stage::Unclaim => RebuildIntent::Unclaim,
        }
    }

    // The end of a wait tells nothing, and the claim is tried again.
    fn take(&mut self, event: &Event, told: RebuildTold, rebuild: &Rebuild) {
        if self.bell.is_some() {
            self.bell = None;
        } else {
            self.take_told(event, told, rebuild);
        }
    }
}
