//! The index of a table as a pure machine: branch and leaf pages, each with all its versions, and the moves that give a
//! key its place, split a page, enter a page in its branch, write a page to the group's copy, end a transaction, fail,
//! and restart the group. What is proved of it holds for every list of moves.
//!
//! The crate has definitions and proofs alone. Its functions do nothing: their contracts are the theorems.
#![tactic(auto)]

ghost use Rattle.index_protocol.specs.Needed.{BothSidesIsNeeded, ChildFirstIsNeeded, FailureIsPossible, LeftBeforeBranchIsNeeded, OneWriterIsNeeded, ReachedIsNeeded, RightFirstIsNeeded, SplitterGoesOn, WrittenBeforeEndIsNeeded};
ghost use Rattle.index_protocol.specs.Opening.{AlwaysFromOpening, LeavesSound, OpensWhole};
ghost use Rattle.index_protocol.specs.Order.{FailureIsCut, OrderGives, SearchMayEnter, SearchMayGive};
ghost use Rattle.index_protocol.specs.Partition.{Partitions};
ghost use Rattle.index_protocol.specs.Search.{CopyAnswers, KnownBegins, MovesKeep, SearchBegins, SearchLeads};
ghost use Rattle.index_protocol.specs.Whole.{AlwaysWhole, KeepsWhole, StartsWhole};
ghost use Rattle.index_protocol.specs.Whole_search.{ClaimFinds, SearchEnds, SearchFinds};

/// The start is whole, each move keeps what is, and so every list of moves does.
pub fn whole_index()
    ensures start { StartsWhole }
    ensures step { KeepsWhole }
    ensures always { AlwaysWhole }
{}

/// A run may open with an index that earlier runs left on the disk: it is whole, and all that is said of runs from a new
/// index holds of runs from there. What a run leaves may be opened with, and has each key's place.
pub fn opens_on_sound_disk()
    ensures opens { OpensWhole }
    ensures always { AlwaysFromOpening }
    ensures leaves { LeavesSound }
{}

/// In the last versions the links from the first leaf lead to every key that was ever given, with its one place, and to
/// no other place.
pub fn one_place()
    ensures { Partitions }
{}

/// A search through copies that a member may have never meets a page that is not there, nor a key below a low key; it ends
/// at a leaf that covers the key, which names no other place, and names the key's place wherever the key has one and no
/// other member that gave it keeps it from others: so a claim on the row, or on the table, finds it.
pub fn sound_search()
    ensures begins { SearchBegins }
    ensures known { KnownBegins }
    ensures leads { SearchLeads }
    ensures answers { CopyAnswers }
    ensures later { MovesKeep }
    ensures ends { SearchEnds }
    ensures finds { SearchFinds }
    ensures claims { ClaimFinds }
{}

/// A search gives the guards of a give and of a branch entry, the order in which a member writes its changed pages gives
/// that of a write, and what the logs hold gives that of a failure.
pub fn guards_are_met()
    ensures gives { SearchMayGive }
    ensures enters { SearchMayEnter }
    ensures order { OrderGives }
    ensures failure { FailureIsCut }
{}

/// A splitter can go on in a page that is not shown, a failure can lose what is not shown, and seven guards of the moves
/// without which the index is not whole: the right page before its left page, the child before its branch, the left page
/// before the branch, a give only in a page that was reached, every page written before the end, a split kept on both
/// pages, one writer of an unshown page.
pub fn guards_are_needed()
    ensures run { SplitterGoesOn }
    ensures failure { FailureIsPossible }
    ensures right_first { RightFirstIsNeeded }
    ensures child_first { ChildFirstIsNeeded }
    ensures left_before { LeftBeforeBranchIsNeeded }
    ensures reached { ReachedIsNeeded }
    ensures written { WrittenBeforeEndIsNeeded }
    ensures both_sides { BothSidesIsNeeded }
    ensures one_writer { OneWriterIsNeeded }
{}
