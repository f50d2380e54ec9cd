//! What a restarting member has read and knows: its own log, the transactions that this leaves open, the retained locks of
//! table spaces and rows, and the retained pages in the order in which they are written.
#![tactic(auto)]

mod judged;
mod map;
mod names;
mod own;
mod queue;
mod trans;
mod written;

pub use checkpoint_reader::{CheckpointReader, LogCall, LogRead, LogReply, place_in};
pub use judged::{judge, last_number, no_number};
pub use log_trans::OpenTran;
pub use map::PlaceMap;
pub use names::{NameMark, Names};
pub use own::{OwnLog, places_of};
pub use queue::{Queue, TurnKey};
pub use trans::{Newest, RestartStage, RestartTran, RestartTrans, page_of};
pub use written::{back_record, both_fit, ended_record, put_both};
