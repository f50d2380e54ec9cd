//! The image of a table as bytes: what a copy of its pages is, and where bytes are none.
//!
//! A head of 24 bytes names the table, a number (LRSN) and how many pages of the heap and of the index follow; then these
//! pages stand as the disk has them.
#![tactic(auto)]

mod counts;
mod head;
mod image;
mod laws;
mod pages;

pub use counts::pages_counted;
pub use head::head_bytes;
pub use image::{heap_pages, image_fault, index_pages, load_page, name_fault, page_name};
pub use laws::image_laws;
pub use pages::page_fault;
