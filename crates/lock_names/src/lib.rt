//! Names of locks, their modes, and the entries of the lock table.
//!
//! A lock is taken on a name in a mode. The lock table sees neither: it has entries, on which the names fall by a hash,
//! and each member's interest in an entry, which is shared, exclusive, or both.
#![tactic(auto)]

mod entry;
mod laws;
mod mode;
mod tables;

pub use ds_model::Name;
pub use entry::{entry_of, is_same_name};
pub use laws::{
    bound_laws, compatibility_laws, conflict_laws, covering_laws, join_laws, name_laws,
    stronger_laws,
};
pub use mode::{Class, Interest, Mode};
pub use tables::{class, compatible, covers, is_same_mode, join, recorded};

#[cfg(test)]
mod tests;
