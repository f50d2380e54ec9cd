//! Whether a page of a disk is a version: what a front of the log records makes of a page of zeros.
#![tactic(auto)]

mod apply;
mod front;
mod places;

pub use apply::apply_record;
pub use front::{image_of, is_placed, is_version, version_laws};
