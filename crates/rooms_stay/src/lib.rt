//! The members of a group have as many frames as the cache structure knows of, and as many slots as they began with: in a run no event changes
//! that. So of a command that a lawful intent sends, the facility's conditions on frames and on slots never fail there.
//!
//! The crate has definitions and proofs alone. Its functions do nothing: their contracts are the theorems.
#![tactic(auto)]

ghost use Rattle.rooms_stay.specs.Left.{RefusalsTell, RestartsExecute};
ghost use Rattle.rooms_stay.specs.Refused.{RefusalsLeave};
ghost use Rattle.rooms_stay.specs.Rooms.{AdoptionsKeep, CommandsKeep, EventsKeep, LocalsKeep, RoomsBegin};
ghost use Rattle.rooms_stay.specs.Runs.{EventsKeepAll, RunsHaveRoom, RunsKeep};

use cache_structure::CacheFace;
use ds_disk::Disk;
use needs_law::{lawful_commands_execute, sends_lawfully};

/// A member has as many frames and slots as it began with, behind every event of it, every local move, and every rollback that it adopts; and no
/// command changes of how many frames the cache structure knows.
pub fn rooms_stay()
    ensures begin { RoomsBegin }
    ensures event { EventsKeep }
    ensures local { LocalsKeep }
    ensures adopted { AdoptionsKeep }
    ensures commands { CommandsKeep }
{}

/// So it is of all members of a group, behind every event of a run that isn't refused.
pub fn groups_keep_rooms<D: Disk, C: CacheFace, P>()
    ensures event { EventsKeepAll P C.directory D.alive D.contents D.faults }
    ensures run { RunsKeep P C.directory D.alive D.contents D.faults }
    ensures room { RunsHaveRoom P C.directory D.alive D.contents D.faults }
{}

/// Where the facility refuses a command that a lawful intent sends, of a member that has such room, it is for a count (an entry's version, the
/// records of locks, bells, waits, numbers) or for a slot or a flag that the policy has named itself, and never for a frame.
pub fn refusals_tell()
    ensures { RefusalsTell }
{
    sends_lawfully();
    lawful_commands_execute();
}

/// Nor is it ever for a frame, or for the slot of a grant, of a query or of its answers, where a restart sends the command.
pub fn restarts_execute()
    ensures { RestartsExecute }
{}

/// In a run of a group of at most 16 agents each, and a frame at least, an event is refused for one of these: the bells can't ring often enough for
/// a phase that is there; or the member, which is there, isn't live, may not fail for the bells, has a transaction in a slot, a claimed record
/// freed or a transaction that can't be adopted while its restart is in hand; or an intent of the member, of its restart or of its rebuild
/// failed a named test, or the facility refused its command for what is left of its condition.
pub fn refusals_leave<D: Disk, C: CacheFace, P>()
    ensures { RefusalsLeave P C.directory D.alive D.contents D.faults }
{
    refusals_tell();
}
