//! Closings: the changed pages of a transaction's page sets are written, its locks given up, and it ends.
//!
//! Each name goes with a release of its own. A name whose retained record a restart has left is purged next, unless an owner
//! has claimed it again. Claims on names that other owners of the member have go with the end.

use crate::frames::write_intent;
use lock_names::Name;
use member_intents::Intent;
use member_marks::{Marks, Owner};
use member_resources::Resources;

// Whether no owner claims the name any more, and a retained record of it is left.
fn is_to_purge(marks: &Marks, name: &Name) -> bool {
    marks.is_kept(name) && !marks.is_claimed(name)
}

/// The name to be purged, where this one was given up.
pub fn purge_after(marks: &Marks, given_up: &Option<Name>) -> Option<Name> {
    match given_up {
        Some(name) if is_to_purge(marks, name) => Some(*name),
        _ => None,
    }
}

fn release_next(marks: &Marks, owner: &Owner) -> Intent {
    let owner = *owner;
    match marks.releasing(&owner) {
        Some(_) => Intent::ReleaseLock { owner },
        None => Intent::End { owner },
    }
}

/// What gives the owner's locks up: a purge first, where one is due.
pub fn release_intent(marks: &Marks, owner: &Owner, purge: &Option<Name>) -> Intent {
    match purge {
        Some(name) if is_to_purge(marks, name) => Intent::Purge { name: *name },
        _ => release_next(marks, owner),
    }
}

/// What closes the owner's transaction: the next of its changed pages is written, and behind the last one its locks go.
pub fn closing_intent(resources: &Resources, owner: &Owner) -> Intent {
    let marks = resources.marks();
    match marks.to_write(owner) {
        Some(frame) => write_intent(resources, frame),
        None => release_next(marks, owner),
    }
}
