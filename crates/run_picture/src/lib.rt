//! A run as a picture: lanes of members, bars of transactions, and lines between them.
#![tactic(auto)]

mod bars;
mod causes;
mod cut;
mod events;
mod lane;
mod lanes;
mod laws;
mod lines;
mod mark;
mod marks;
mod matching;
mod names;
mod picture;
mod rows;
mod scale;
mod titles;

pub use cut::Cut;
pub use laws::order_law;
pub use matching::{match_spans, place_of_cause};
pub use picture::picture_of;
pub use titles::put_fate;
