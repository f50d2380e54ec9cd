//! Up to where the logs are whole records behind a group restart.

ghost use Rattle.group_crew.specs.Ends.{AreEndsOf};

use checkpoint_reader::KnownEnds;
use ds_base::MemberId;
use group_restart::GroupRestart;

/// Where each log ends behind a group restart that is done: up to there it is whole records.
pub fn ends_behind(restart: &GroupRestart) -> KnownEnds
    ensures { AreEndsOf restart.now result }
{
    let mut known = KnownEnds::nothing();
    for number in 1..33u64 {
        let Some(member) = MemberId::new(number) else {
            unreachable!()
        };
        known.set(member, restart.end_of(member));
    }
    known
}
