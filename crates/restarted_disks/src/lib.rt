//! When nothing but group restarts has written to a disk, and where damage was met that is told of it.
//!
//! The crate has definitions alone.
#![tactic(auto)]
