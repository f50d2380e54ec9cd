//! Locks that are given up, and the ends of transactions.

ghost use Rattle.std.specs.Prelude.{◌≡◌};
ghost use Rattle.member_needs.specs.Closing.{over_test, release_need, end_test, end_sent, end_need, purge_need, is_page_changed, release_page_need};

use ds_base::PageId;
use lock_names::Name;
use member_intents::{Command, Sent, Test};
use member_marks::{Marks, Owner, Stage};

// The transaction is over, and has given up a lock already or no page of its sets is changed.
fn test_over(marks: &Marks, owner: &Owner) -> Result<(), Test>
    ensures { result ≡ over_test marks.now owner.now }
{
    if !marks.is_over(owner) {
        return Err(Test::NotOver);
    }
    if !marks.has_released(owner) && marks.to_write(owner).is_some() {
        return Err(Test::StillChanged);
    }
    Ok(())
}

pub fn release_need(marks: &Marks, owner: &Owner) -> Result<Sent, Test>
    ensures { result ≡ release_need marks.now owner.now }
{
    test_over(marks, owner)?;
    match marks.releasing(owner) {
        Some((name, keeps)) => Ok(Sent::Command(Command::Release { name, keeps })),
        None => Err(Test::NoneLeft),
    }
}

// The transaction is over, or its rollback was postponed and stands apart.
fn test_end(marks: &Marks, owner: &Owner) -> Result<(), Test>
    ensures { result ≡ end_test marks.now owner.now }
{
    match marks.stage(owner) {
        Stage::Postponed => Ok(()),
        _ => test_over(marks, owner),
    }
}

// A rollback that a restart left has no number, and nothing is sent for it.
fn end_sent(marks: &Marks, owner: &Owner) -> Sent
    ensures { result ≡ end_sent marks.now owner.now }
{
    let tran = marks.tran(owner);
    if tran.number == 0 {
        Sent::None
    } else {
        Sent::Command(Command::End { tran })
    }
}

pub fn end_need(marks: &Marks, owner: &Owner) -> Result<Sent, Test>
    ensures { result ≡ end_need marks.now owner.now }
{
    test_end(marks, owner)?;
    match marks.releasing(owner) {
        Some(_) => Err(Test::SomeLeft),
        None => Ok(end_sent(marks, owner)),
    }
}

/// The record of a name that nobody claims any more.
pub fn purge_need(marks: &Marks, name: &Name) -> Result<Sent, Test>
    ensures { result ≡ purge_need marks.now name.now }
{
    if marks.is_claimed(name) {
        return Err(Test::StillClaimed);
    }
    if !marks.is_kept(name) {
        return Err(Test::NotRetained);
    }
    Ok(Sent::Command(Command::Purge { name: *name }))
}

// Whether the frame that holds the page, if there is one, is changed.
fn is_page_changed(marks: &Marks, page: PageId) -> bool
    ensures { result ≡ is_page_changed marks.now page }
{
    match marks.find(page) {
        Some(at) => marks.frame(at).changed,
        None => false,
    }
}

pub fn release_page_need(marks: &Marks, page: PageId) -> Result<Sent, Test>
    ensures { result ≡ release_page_need marks.now page }
{
    let Some((name, keeps)) = marks.releasing_page(page) else {
        return Err(Test::NotClaimed);
    };
    if is_page_changed(marks, page) {
        return Err(Test::StillChanged);
    }
    Ok(Sent::Command(Command::Release { name, keeps }))
}
