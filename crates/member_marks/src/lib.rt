//! What a member holds, without the bytes of its pages: the claims on locks, the heads of the frames, the log buffer, the
//! transactions with the postponed rollbacks, and which records of its own failure are known as retained.
//!
//! A local move tests its own condition and changes nothing where it isn't allowed, so whoever decides what is wanted may
//! try any. All else that changes the marks is for the events that were tested before.
#![tactic(auto)]

mod claims;
mod frames;
mod kept;
mod laws;
mod marks;
mod moves;
mod records;
mod rollbacks;
mod trial;

pub use laws::reaches_on;
pub use marks::Marks;
pub use member_pool::Frame;
pub use member_trans::{Change, Owner, Refused, Stage};
pub use trial::Trial;
