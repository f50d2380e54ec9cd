//! What no event of a member changes: that no number in its log is above the facility's counter, from which they are drawn, and that no two
//! of its transactions have one name, which is the number of the first record; and that no record closes one that goes forward.
//!
//! The crate has definitions and proofs alone. Its functions do nothing: their contracts are the theorems.
#![tactic(auto)]

ghost use Rattle.log_numbers.specs.Numbers.{
  CommandsCount,
  CountedAdopt,
  CountedBegin,
  CountedMore,
  CountedReach,
  CountedStay,
  ForwardReach,
  ForwardStay,
  NamesApart,
  RecordsAreNamed,
  RollbacksNamed,
};

use needs_law::sends_lawfully;

/// So it is of a member that holds nothing, and no event of it changes that; nor do local moves, numbers that other members draw, and a
/// rollback that is adopted by a number which names none yet.
pub fn numbers_stay()
    ensures begin { CountedBegin }
    ensures event { CountedStay }
    ensures local { CountedReach }
    ensures more { CountedMore }
    ensures adopted { CountedAdopt }
{
    sends_lawfully();
}

/// No event of a member lets a transaction go forward that didn't, but under the number that it draws; nor do local moves. The records that it
/// puts name transactions by numbers at or below the counter: those that change a row name one that goes forward, or is new; and what they
/// close goes forward no more.
pub fn forward_stays()
    ensures event { ForwardStay }
    ensures local { ForwardReach }
    ensures records { RecordsAreNamed }
{
    sends_lawfully();
}

/// No command of a member lets the counter fall.
pub fn commands_count()
    ensures { CommandsCount }
{}

/// Two owners of a member whose transactions have one name are the same, and a rollback has its own number for its name.
pub fn names_are_apart()
    ensures apart { NamesApart }
    ensures rollback { RollbacksNamed }
{}
