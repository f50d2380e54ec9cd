//! A member's pool of page frames: which page each holds, its marks and pins, and the order of use.
#![tactic(auto)]

mod counts;
mod frame;
mod heads;
mod law;
mod listed;
mod pool;
mod sets;

pub use frame::Frame;
pub use heads::Heads;
pub use law::keeps_pages_apart;
pub use pool::Pool;
pub use sets::SetMask;
pub use write_order::Rank;
