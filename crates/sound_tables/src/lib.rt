//! What the records that a group restart appends make of the tables: the pages after all records are tables still, and each row
//! record tells the row before it.
//!
//! The crate has definitions and proofs alone. Its functions do nothing: their contracts are the laws.
#![tactic(auto)]

ghost use Rattle.sound_tables.specs.Keeping.{AllKeepSound, FindsItsSlot, KeepsTables, LastOpenStands, MeetsItsRow, MergedFollow, StayInPlace, StopKeepsSound};

/// The merged records of sound logs fit each other, and an open row change that is the last of its transaction has left its row
/// as it is.
pub fn row_laws()
    ensures follow { MergedFollow }
    ensures stands { LastOpenStands }
{
    sound_disk::page_laws();
}

/// A compensation meets the row that it tells. The pages after all records are tables with what is appended as they were.
pub fn table_laws()
    ensures meets { MeetsItsRow }
    ensures tables { KeepsTables }
{
    heap_space::image_laws();
    page_images::name_laws();
    page_images::part_laws();
    page_images::header_laws();
    page_chain::chain_laws();
    sound_disk::page_laws();
    sound_appends::turn_laws();
}

/// Rows stay in their places: after all records the slot of each row record is its key's. So a change finds its slot in its page,
/// where no field is in the way.
pub fn place_laws()
    ensures stay { StayInPlace }
    ensures found { FindsItsSlot }
{
    heap_space::image_laws();
    page_images::name_laws();
    page_images::part_laws();
    page_images::header_laws();
    page_chain::chain_laws();
    sound_disk::page_laws();
    sound_appends::turn_laws();
}

/// Several records that are appended to one log keep all clauses of a sound disk, and so does what a stop in between left of
/// them.
pub fn stop_laws()
    ensures all { AllKeepSound }
    ensures stop { StopKeepsSound }
{
    sound_appends::whole_laws();
    sound_appends::turn_laws();
    sound_appends::transaction_laws();
    sound_appends::append_laws();
    sound_appends::page_laws();
    table_laws();
}
