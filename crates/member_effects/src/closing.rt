//! Locks that were given up, records that were freed, and transactions that have ended.

ghost use Rattle.std.specs.Prelude.{◌≡◌};
ghost use Rattle.member_effects.specs.declared.told.Told.TheVariants as told;
ghost use Rattle.member_needs.specs.Given.{after_end_of};
ghost use Rattle.member_effects.specs.Closing.{released_name, released_after, released_told, page_released_after, page_released_told, purged_after, purged_told, ended_after, ended_told};

use crate::told::Told;
use ds_base::PageId;
use facility::Reply;
use lock_names::{Interest, Name};
use member_needs::{Marks, Owner};

fn released_name(given: Option<(Name, Interest)>) -> Option<Name>
    ensures { result ≡ released_name given }
{
    match given {
        Some((name, _)) => Some(name),
        None => None,
    }
}

/// The reply to `release` for a lock of the owner's transaction.
pub fn released(marks: &mut Marks, owner: &Owner, reply: &Reply) -> Told
    ensures told { result ≡ released_told marks.old owner.now reply.now }
    ensures after { marks.new ≡ released_after marks.old owner.now reply.now }
{
    match reply {
        Reply::Done => Told::Released {
            name: released_name(marks.release(owner)),
        },
        _ => Told::Stepped,
    }
}

/// The reply to `release` for the lock of a page.
pub fn page_released(marks: &mut Marks, page: PageId, reply: &Reply) -> Told
    ensures told { result ≡ page_released_told reply.now }
    ensures after { marks.new ≡ page_released_after marks.old page reply.now }
{
    match reply {
        Reply::Done => {
            marks.release_page(page);
            Told::Released { name: None }
        }
        _ => Told::Stepped,
    }
}

/// The reply to `purge`.
pub fn purged(marks: &mut Marks, name: &Name, reply: &Reply) -> Told
    ensures told { result ≡ purged_told reply.now }
    ensures after { marks.new ≡ purged_after marks.old name.now reply.now }
{
    match reply {
        Reply::Done => {
            marks.forget_kept(name);
            Told::Purged
        }
        _ => Told::Stepped,
    }
}

/// The owner's transaction has ended.
pub fn end_now(marks: &mut Marks, owner: &Owner) -> Told
    ensures told { result ≡ told.Ended }
    ensures after { marks.new ≡ after_end_of marks.old owner.now }
{
    marks.end(owner);
    Told::Ended
}

/// The reply to `end`.
pub fn ended(marks: &mut Marks, owner: &Owner, reply: &Reply) -> Told
    ensures told { result ≡ ended_told reply.now }
    ensures after { marks.new ≡ ended_after marks.old owner.now reply.now }
{
    match reply {
        Reply::Done => end_now(marks, owner),
        _ => Told::Stepped,
    }
}
