//! The number that a change leaves in each of the pages that it writes, that of its log record; and that each number which an event of a member
//! draws for a change so stands in a record and on its pages.
//!
//! The crate has definitions and proofs alone. Its functions do nothing: their contracts are the theorems.
#![tactic(auto)]

ghost use Rattle.page_numbers.specs.Numbers.{BackShows, PatchesShow, RowShows};
ghost use Rattle.page_numbers.specs.Recorded.{NumbersAreRecorded};
ghost use Rattle.page_numbers.specs.Whole.{ToldAreWhole};

use needs_law::sends_lawfully;
use page_images::part_laws;
use page_world::pages_have_numbers;

/// The page of a change of a row, and of one that takes it back.
pub fn rows_show()
    ensures row { RowShows }
    ensures back { BackShows }
{
    part_laws();
}

/// All pages of a change of the system, where one of its patches is for each of them.
pub fn patches_show()
    ensures { PatchesShow }
{
    part_laws();
}

/// Where an event of a member that is up draws a number for a change, or for taking one back, its record may be put, and all pages that it changes show
/// the number: by the tests that its intent has passed, by its plan, and by what its frames hold. What isn't said there is a premise: that no page
/// was damaged, that values are short, and that a transaction which takes a change back has a name in the log.
pub fn numbers_are_recorded()
    ensures { NumbersAreRecorded }
{
    sends_lawfully();
    pages_have_numbers();
    rows_show();
    patches_show();
}

/// Where logs tell of the world of pages, each version of each page has a page's bytes.
pub fn versions_are_whole()
    ensures { ToldAreWhole }
{
    part_laws();
}
