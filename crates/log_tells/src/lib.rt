//! What the logs of a group tell of its pages: beside a world of pages stand the records that its members drew, in the order
//! of their numbers, of which the logs on disk have those that are stable, and of which the chain of a page has those that
//! change it.
//!
//! The crate has definitions and proofs alone. Its functions do nothing: their contracts are the laws.
#![tactic(auto)]

ghost use Rattle.log_tells.specs.Clear.{StaysClear, RebuildIsClear, RestartIsClear, GroupRestartIsClear};
ghost use Rattle.log_tells.specs.Keeps.{StaysTold, LogsGoOn, OthersStand, FrontsAreParts, PartsStay, DrawsPend, ForcesPend, StartsTold};
ghost use Rattle.log_tells.specs.Leads.{VersionsShow, VersionsDiffer, RedoLeads, MergedAre, RebuildLeads, RebuildBrings, RestartLeads, ShowsWritten, GroupRestartLeads, NumbersStand, LaterTells, TopsFit, CoveredStays, ReadStays, UntouchedIsRead, UnchangedIsRead, RestartBrings, GroupRestartBrings};

/// Over empty disks nothing was drawn. Behind each move of the world of pages the logs still tell of it: a record that is
/// drawn stands behind all others, a failure cuts what its log hadn't on disk, and an append brings what the log buffer had.
pub fn logs_tell()
    ensures start { StartsTold }
    ensures told { StaysTold }
    ensures logs { LogsGoOn }
    ensures others { OthersStand }
{}

/// A log buffer has what its member drew and its log hasn't on disk; of an append that was cut short, the records that stand
/// whole are a part of that.
pub fn buffers_tell()
    ensures draws { DrawsPend }
    ensures forces { ForcesPend }
    ensures fronts { FrontsAreParts }
{}

/// What was read of a log stays as long as it is on disk. So does the version that a rebuild reads, and each page on disk goes
/// on having what stands in the logs before places from which they are read.
pub fn parts_stay()
    ensures parts { PartsStay }
    ensures covered { CoveredStays }
    ensures read { ReadStays }
{
    page_protocol::newest_copies();
}

/// A version shows the number of its last change, so no two have the same bytes. Redo by the changes from one version up to
/// another, and any before, leads from the one to the other.
pub fn versions_show()
    ensures shown { VersionsShow }
    ensures differ { VersionsDiffer }
    ensures redo { RedoLeads }
{
    page_images::header_laws();
    page_chain::redo_laws();
}

/// The logs that a rebuild has read, merged by their numbers, lead from the disk's page to the version that it reads. That is
/// the disk's already where no record changes the page, or none is applied to it.
pub fn rebuilds_follow()
    ensures merged { MergedAre }
    ensures leads { RebuildLeads }
    ensures brought { RebuildBrings }
    ensures untouched { UntouchedIsRead }
    ensures unchanged { UnchangedIsRead }
{
    page_protocol::logs_have_prefixes();
    page_chain::chain_laws();
    page_redo::forward_laws();
    versions_show();
}

/// The own log of a member that restarts leads from the group's copy of a page that it owns, or a later version, to the last
/// one. A page that shows a number no less than those of the member's own records of it has all its changes, and a change
/// stands on disk where a record of its log there has no lesser number.
pub fn restarts_follow()
    ensures leads { RestartLeads }
    ensures brought { RestartBrings }
    ensures written { ShowsWritten }
    ensures later { LaterTells }
{
    page_images::header_laws();
    page_chain::chain_laws();
    page_chain::redo_laws();
    page_redo::forward_laws();
    versions_show();
}

/// Once the group has failed, the logs of all members lead from any version of a page to the last one, and none of the changes
/// that are left has a greater number than they have.
pub fn group_restarts_follow()
    ensures leads { GroupRestartLeads }
    ensures brought { GroupRestartBrings }
    ensures numbers { NumbersStand }
    ensures tops { TopsFit }
{
    page_chain::chain_laws();
    page_redo::forward_laws();
    versions_show();
}

/// Where each change of a page was made with no field of it in the way, that is so behind each move, and redo meets none: by
/// the logs that a rebuild has read, by the own log of a member that restarts, and by those of all once the group has failed.
pub fn redo_is_clear()
    ensures stays { StaysClear }
    ensures rebuild { RebuildIsClear }
    ensures restart { RestartIsClear }
    ensures group_restart { GroupRestartIsClear }
{
    page_images::header_laws();
    page_chain::redo_laws();
    page_redo::forward_laws();
    rebuilds_follow();
}
