//! A page brought forward by those of a list's records that stand at given places.
//!
//! `page_records` tells the places by page, so that the records of all pages stand in one list.
#![tactic(auto)]

mod places;

pub use places::bring_places;
