ghost use Rattle.std.specs.Prelude.{◌≡◌};
ghost use Rattle.group_member.specs.Stepping.{has_failed, is_failure};

use member_intents::{Answered, Sent};
use rebuild_resources::RebuildSent;
use restart_marks::RestartSent;

/// Whether a call of the disk has failed.
pub fn is_failure(answered: &Answered) -> bool
    ensures { result ≡ is_failure answered.now }
{
    matches!(answered, Answered::Failed)
}

/// What an event of a member was: it, its restart or its rebuild has sent this and was answered so; or it has failed.
#[derive(Debug, Drop)]
pub enum Stepped {
    Sent(Sent, Answered),
    Restart(RestartSent, Answered),
    Rebuild(RebuildSent, Answered),
    Failed,
}

impl Stepped {
    /// Whether a call of the disk has failed.
    pub fn has_failed(&self) -> bool
        ensures { result ≡ has_failed self.now }
    {
        match self {
            Stepped::Sent(_, Answered::Failed)
            | Stepped::Restart(_, Answered::Failed)
            | Stepped::Rebuild(_, Answered::Failed) => true,
            Stepped::Sent(..) | Stepped::Restart(..) | Stepped::Rebuild(..) | Stepped::Failed => {
                false
            }
        }
    }
}
