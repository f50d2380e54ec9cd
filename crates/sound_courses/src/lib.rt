//! The course of a group restart over a sound disk: whatever its next call comes to, the disk stays sound.
//!
//! The crate has definitions and proofs alone. Its functions do nothing: their contracts are the laws.
#![tactic(auto)]

ghost use Rattle.sound_courses.specs.Bringing.{CutGoes, CutsBegin, PlanOfAllFits, ReadsBegin, RedoReadsOn, RedoWritesOn};
ghost use Rattle.sound_courses.specs.Ending.{EndingBegins, EndingGoes};
ghost use Rattle.sound_courses.specs.Undoing.{ClosingGoes, UndoAppends, UndoBegins, UndoReads, UndoWrites};

/// A group restart that has brought the pages of a sound disk forward, by a plan that fits its logs, undoes what is open: each
/// call leads to the next one, with no field in the way and a number for each compensation, and in the end nothing is to be
/// undone. Behind each call the disk is sound, with each page as all records leave it but the one that is written next; and so it
/// is where a stop left only the first bytes of what was appended.
pub fn undo_laws()
    ensures begins { UndoBegins }
    ensures closing { ClosingGoes }
    ensures reads { UndoReads }
    ensures appends { UndoAppends }
    ensures writes { UndoWrites }
{
    sound_appends::whole_laws();
    sound_plans::course_laws();
    sound_restarts::redo_laws();
    sound_restarts::undo_laws();
    sound_tables::table_laws();
    sound_tables::stop_laws();
}

/// Where nothing is to be undone any more, each page is as all records leave it, and none is of version 1, it ends the logs: each
/// gets a Checkpoint, which names its own place, and a RestartEnd. The disk is sound behind them, and so it is where a stop left
/// only the first bytes of them. In the end the greatest number of the logs is told.
pub fn ending_laws()
    ensures begins { EndingBegins }
    ensures goes { EndingGoes }
{
    log_merge::merging_laws();
    page_chain::chain_laws();
    page_chain::redo_laws();
    page_images::header_laws();
    page_images::front_laws();
    sound_appends::whole_laws();
    sound_disk::page_laws();
    sound_plans::queue_laws();
    sound_plans::course_laws();
    sound_restarts::undo_laws();
    sound_tables::stop_laws();
}

/// Over a sound disk a group restart cuts the tails of logs, and brings its pages forward, by a plan that suits the disk and fits
/// its logs: each call leads to the next one, and in the end to the undo. Behind each call the disk is sound.
pub fn bring_laws()
    ensures begins { CutsBegin }
    ensures cut { CutGoes }
    ensures reads { RedoReadsOn }
    ensures writes { RedoWritesOn }
{
    sound_restarts::cut_laws();
    sound_restarts::redo_laws();
}

/// The plan of all records fits the logs of a sound disk. So a group restart that has read all logs whole begins with it.
pub fn begin_laws()
    ensures fits { PlanOfAllFits }
    ensures begins { ReadsBegin }
{
    sound_plans::plan_laws();
    sound_restarts::damage_laws();
    sound_restarts::redo_laws();
    bring_laws();
}
