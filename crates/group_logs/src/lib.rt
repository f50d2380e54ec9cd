//! The logs on disk through the events of a group: whose log an event may change, and how that goes on; and that up to where their members
//! know them to be whole records they are.
//!
//! The crate has definitions and proofs alone. Its functions do nothing: their contracts are the theorems.
#![tactic(auto)]

ghost use Rattle.group_logs.specs.Changes.{LogsGo, MadeGo, MembersGo};
ghost use Rattle.group_logs.specs.Known.{AnewKnow, BeginsKnow, MembersKnow, PhasesKnow, RestsAreUnknown, StartsKnow};

use cache_structure::CacheFace;
use ds_disk::Disk;
use log_record::reading_laws;

/// An event of a member leaves the logs of all others as they were, where the disk tells what it holds. Its own log is appended to by a
/// member that is up, and cut or appended to by its restart: of a call that has failed any front may be done.
pub fn members_log()
    ensures made { MadeGo }
    ensures comes { MembersGo }
{}

/// So it is of any event of a group that isn't refused. One of the group itself changes no log, unless a group restart makes a call
/// of the disk in it: of that nothing is said here.
pub fn groups_log<D: Disk, C: CacheFace, P>()
    ensures { LogsGo P C.directory D.alive D.contents D.faults }
{
    members_log();
}

/// Each log has as many bytes as its member knows to be whole records, and they are: so it is where a group starts over a disk that a group
/// restart has opened.
pub fn known_starts<C: CacheFace, P>()
    ensures { StartsKnow P C.directory }
{}

/// So it is behind a group restart that leaves the logs so, and behind the begin of a phase: each restart that begins was told of whole records
/// alone. And so it is behind an event of a member that leaves what is known, unless its restart cuts the log before that.
pub fn known_ends()
    ensures anew { AnewKnow }
    ensures begins { BeginsKnow }
    ensures phases { PhasesKnow }
    ensures members { MembersKnow }
{}

/// A cut of what stands behind the whole records of a log doesn't.
pub fn rests_are_unknown()
    ensures { RestsAreUnknown }
{
    reading_laws();
}
