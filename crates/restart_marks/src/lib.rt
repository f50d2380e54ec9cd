//! What a restarting member holds, without the bytes of pages, and what an event of its restart may do.
//!
//! A member that failed runs again beside the members that are up. It holds its own log, its retained locks as far as they
//! are known, the transactions that its log leaves open, and at most one page, in hand under index 0, with at most one
//! page's lock. Each intent has tests here, and each answer an effect.
//!
//! A local move tests its own condition and changes nothing where it isn't allowed, so whoever decides what is wanted may
//! try any.
#![tactic(auto)]

mod adopt;
mod cells;
mod hand;
mod hand_need;
mod intent;
mod laws;
mod listing;
mod lock_need;
mod locks;
mod marks;
mod moves;
mod need;
mod own_need;
mod reading;
mod told;
mod undoing;

pub use adopt::Adopted;
pub use cells::answers_told;
pub use hand::Hand;
pub use intent::{RestartFault, RestartIntent, RestartSent, RestartTest};
pub use laws::restart_reaches_on;
pub use locks::status_told;
pub use marks::{KeptBy, RestartMarks};
pub use restart_records::{
    NameMark, Newest, OpenTran, RestartStage, RestartTran, TurnKey, page_of,
};
pub use told::RestartTold;
