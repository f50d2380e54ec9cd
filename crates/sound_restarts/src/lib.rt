//! What a group restart finds on a sound disk, and what its redo and its undo make of the pages.
//!
//! The crate has definitions and proofs alone. Its functions do nothing: their contracts are the laws.
#![tactic(auto)]

ghost use Rattle.sound_restarts.specs.Cuts.{CutKeepsSound, SameRecordsKeepSound};
ghost use Rattle.sound_restarts.specs.Damage.{FindsNoDamage, PlansAll, GoesToTails};
ghost use Rattle.sound_restarts.specs.Undo.{OthersLeavePages, UndoFindsItsRow, UndoLeavesLast, UndoLeavesOthers, UndoMakesLast, UndoReads};
ghost use Rattle.sound_restarts.specs.Renewal.{OldIsCounted, RenewalBegins, RenewalReads, RenewalWrites};
ghost use Rattle.sound_restarts.specs.Redo.{BringsForward, LastKeeps, NoneOldElsewhere, PlanOfAllSuits, RedoBegins, RedoReads, RedoWrites, RenewalKeeps};

/// No number and no offset of the logs of a sound disk, read whole, is one that can't stand there, and the plan of a restart is
/// that of the logs: so it goes on with their tails.
pub fn damage_laws()
    ensures damage { FindsNoDamage }
    ensures plan { PlansAll }
    ensures tails { GoesToTails }
{
    sound_disk::transaction_laws();
}

/// Whole logs with the same records leave a disk sound, and so does a log that is cut to its whole records.
pub fn cut_laws()
    ensures same { SameRecordsKeepSound }
    ensures cut { CutKeepsSound }
{
    sound_appends::append_laws();
    sound_appends::whole_laws();
}

/// Each page of a sound disk, of either version, is brought forward to its last version, with no field in the way. The disk
/// stays sound where that, or a page of version 1 in the version that is written, is written. So the redo of a restart leads,
/// page after page, by a plan whose merged records bring the pages forward, as those of all logs do, to a sound disk with the last
/// versions of all pages, and then looks for pages of version 1 where the logs ask for it.
pub fn redo_laws()
    ensures brings { BringsForward }
    ensures last { LastKeeps }
    ensures renewal { RenewalKeeps }
    ensures suits { PlanOfAllSuits }
    ensures elsewhere { NoneOldElsewhere }
    ensures begins { RedoBegins }
    ensures reads { RedoReads }
    ensures writes { RedoWrites }
{
    sound_disk::page_laws();
    page_redo::forward_laws();
    page_chain::chain_laws();
    page_chain::redo_laws();
    page_images::header_laws();
    page_images::front_laws();
    page_images::part_laws();
    page_images::renewal_laws();
}

/// Each page of version 1 of a sound disk is one that the header page of its set counts. So the renewal of a restart that looks for
/// such pages leads, page after page, to a sound disk without them, on which all pages are still as all records leave them; and so it
/// is where there are none, and the restart doesn't look.
pub fn renewal_laws()
    ensures counted { OldIsCounted }
    ensures begins { RenewalBegins }
    ensures reads { RenewalReads }
    ensures writes { RenewalWrites }
{
    sound_disk::page_laws();
    page_redo::forward_laws();
    page_chain::chain_laws();
    page_chain::redo_laws();
    page_images::header_laws();
    page_images::front_laws();
    page_images::part_laws();
    page_images::renewal_laws();
}

/// A change that can be undone meets no field in its way. Its undo makes of the page what all records and the compensation make of
/// it, which leave all other pages; so behind the write all pages are as all records leave them. Records that aren't merged leave
/// all of them.
pub fn undo_laws()
    ensures finds { UndoFindsItsRow }
    ensures makes { UndoMakesLast }
    ensures others { UndoLeavesOthers }
    ensures unmerged { OthersLeavePages }
    ensures last { UndoLeavesLast }
    ensures reads { UndoReads }
{
    sound_appends::turn_laws();
    sound_disk::page_laws();
    page_redo::forward_laws();
    page_chain::chain_laws();
    page_chain::redo_laws();
    page_images::header_laws();
    page_images::front_laws();
    page_images::part_laws();
    page_images::renewal_laws();
}
