use crate::{Rebuild, RebuildIntent, RebuildTold};
use member_intents::Event;

/// Decides what a rebuild of the cache wants next. Whatever it wants, the mechanism does nothing that it may not do.
pub trait RebuildPolicy {
    /// What is wanted next. The end of a wait wants a `Step`.
    fn intent(&self) -> RebuildIntent;

    /// Goes on from what the event came to.
    fn take(&mut self, event: &Event, told: RebuildTold, rebuild: &Rebuild);
}
