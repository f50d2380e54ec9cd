//! Image copies of tables, and their recovery: each page of the table that an image holds or the logs name is made anew from the
//! image and the merged logs.
//!
//! A copy is written page by page. A recovery holds the image and the records of all logs in memory; it reads no page of the
//! table from the disk.
#![tactic(auto)]

mod image;
mod logs;
mod names;
mod pages;
mod recovery;

pub use recovery::recover;
pub use table_copy::{CopyFault, write_image};
