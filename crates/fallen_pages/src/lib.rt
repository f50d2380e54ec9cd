//! The pages of a group through the failure of all, beside a good world of them: each call of the group restart is moves of that world, and when it is
//! done the group begins anew, with all its members up, and stands beside it again. So does a group that has just started. With that any event of a
//! group is moves, and so are whole runs. What logs lead to, and what no contract below says yet, is a premise.
//!
//! The crate has definitions and proofs alone. Its functions do nothing: their contracts are the theorems.
#![tactic(auto)]

ghost use Rattle.fallen_pages.specs.Anew.{BeginsAnewGo, StartsGo};
ghost use Rattle.fallen_pages.specs.Calls.{CallsGo};
ghost use Rattle.fallen_pages.specs.Steps.{RestartStepsGo};
ghost use Rattle.fallen_pages.specs.Taken.{EventsGo};
ghost use Rattle.fallen_pages.specs.Whole.{RunsHold, RunsStart};

use cache_structure::{CacheFace, keeps_entries_apart};
use ds_disk::Disk;
use page_groups::groups_start;
use page_members::writes_show;
use page_protocol::coherent_pages;
use page_recoveries::{events_go as running_go, pages_in_x};
use page_world::{group_failures_are_moves, groups_begin as groups_rise, pages_have_numbers};

/// Any call of a group restart is moves, also one that has failed, given what the logs lead to: a page that it brings forward and writes, the greatest
/// number that it finds, a compensation that it appends, which is the next record that is drawn, and a page that it writes anew.
pub fn calls_go()
    ensures { CallsGo }
{
    coherent_pages();
    group_failures_are_moves();
    pages_have_numbers();
    writes_show();
}

/// Behind a restart that is done the group begins anew, and a group starts, over any disk: all its members are up, and nobody holds anything.
pub fn groups_begin()
    ensures anew { BeginsAnewGo }
    ensures starts { StartsGo }
{
    coherent_pages();
    groups_rise();
    groups_start();
    pages_in_x();
    keeps_entries_apart();
}

/// So is each event of a group restart that is in hand: it goes on, or all begins anew, or the run ends with it.
pub fn restarts_go<D: Disk>()
    ensures { RestartStepsGo D.alive D.contents }
{
    calls_go();
    groups_begin();
}

/// So any event of a group that isn't refused is moves, behind which the group still stands beside a good world.
pub fn events_go<D: Disk, C: CacheFace, P>()
    ensures { EventsGo P C.directory D.alive D.contents D.faults }
{
    running_go::<D, C, P>();
    restarts_go::<D>();
}

/// A group that has just started stands beside a good world of pages; and wherever events lead, none of which was refused, moves lead to one beside
/// which the group stands, given at each event what it takes from elsewhere in the world to which those before it have led.
pub fn runs_hold<D: Disk, C: CacheFace, P>()
    ensures start { RunsStart P C.directory D.alive D.contents }
    ensures runs { RunsHold P C.directory D.alive D.contents D.faults }
{
    groups_begin();
}
