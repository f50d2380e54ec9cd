//! The rows of a table's heap: where they lie, which place is given next, and the changes that give it.
//!
//! The header page of a heap has the number of the last page of rows (4 bytes from 32, 0 at first) and how many slots
//! of that page are given (2 bytes from 36). A page of rows has 31 slots of 128 bytes, from 32 on. A slot is its state
//! (0 never given, 1 absent, 2 present), the length of the value, six zeros, the key (8 bytes), the value, and zeros.
//! Numbers are big-endian.
#![tactic(auto)]

mod change;
mod image;
mod laws;
mod layout;
mod next;
mod slot;

pub use change::{format_heap, give};
pub use image::slot_image;
pub use laws::{give_laws, image_laws};
pub use next::{SpaceFull, header_is_allowed, last_page, next_slot};
pub use slot::{Slot, row, slot_fault, slot_is_allowed};
