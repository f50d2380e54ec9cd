//! What follows for all tables from what is told of some. The functions do nothing: they are called where their facts are needed.

ghost use Rattle.row_turns.specs.Orders.{OrdersHold};
ghost use Rattle.row_turns.specs.Ranges.{SameTurnsTold, OutIsFirst, OpenAreAll, RowsAreAll, MergedIsKept};

use log_merge::merging_laws;

/// What is told of all tables is the first row change out of turn, how many row changes of the logs are open, and for how many
/// rows the logs stand.
pub fn turn_laws()
    ensures same { SameTurnsTold }
    ensures out { OutIsFirst }
    ensures open { OpenAreAll }
    ensures rows { RowsAreAll }
{
    merging_laws();
}

/// The merged records may be taken from all records in the order of their numbers.
pub fn merged_laws()
    ensures { MergedIsKept }
{}

/// The merged records of logs of transactions keep to their order.
pub fn order_laws()
    ensures { OrdersHold }
{
    sound_tables::row_laws();
}
