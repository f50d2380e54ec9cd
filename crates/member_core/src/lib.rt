//! A member's policy: what each of its choices wants, and what the outcomes of its events make of them.
//!
//! | Choice | What it does |
//! |---|---|
//! | 0 | the member's own duty: it is done with the phase |
//! | 1 to 16 | the seats of the agents |
//! | 17 | queries of other members |
//! | 18 | services, and the page action in hand |
//! | 19 | castout |
//! | 21 | the look for a cycle of waits |
//! | 22 | postponed rollbacks |
//!
//! Choice 18 has two kinds of services: the yield of a page that another member asked for, and a frame's reuse. An event does
//! the service in hand, and else goes on with the action; so a page that no action has pinned is yielded also while the
//! action waits for a lock. Both write the page while it is changed (before it what ranks before it, and before that the log)
//! and give up its lock. A reuse then drops the frame's registration, and the frame is given to whoever asked first. A yield
//! waits for the pins of the action alone, a reuse for all pins. While a service is at its page, the action doesn't pin it.
#![tactic(auto)]

mod castouts;
mod cycles;
mod grants;
mod member;
mod pages;
mod queries;
mod ready;
mod runs;
mod services;
mod settling;

pub use member::Member;
