//! What a trace tells of transactions: from which event to which each went on, where it waited, and where a page may have
//! come from another member.
//!
//! A trace doesn't name the transaction of an event, nor a lock or a page. A seat has one transaction at a time, so its
//! events from the first to `end`, or to its member's failure, are those of one transaction.
#![tactic(auto)]

mod deed;
mod latest;
mod member_places;
mod reader;
mod reading;
mod seat_moves;
mod seats;
mod span;
mod spans;

pub use deed::{Deed, deed_of};
pub use latest::At;
pub use member_places::MemberPlaces;
pub use reader::read_spans;
pub use span::{End, Passage, Span, Wait};
pub use spans::Spans;
