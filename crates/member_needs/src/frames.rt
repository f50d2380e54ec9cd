//! Frames: how they are filled, tested, written and made free.

ghost use Rattle.std.specs.Prelude.{◌≡◌, ◌≤◌, nat_le, length};
ghost use Rattle.page_format.specs.Fields.{lrsn_of};
ghost use Rattle.member_needs.specs.Frames.{is_stable, placed, read_need, read_page_need, header_test, gives_test, test_need, write_need, unregister_need};

use ds_base::{Lrsn, PageId, TableId};
use member_intents::{Command, Sent, Test};
use member_marks::{Frame, Marks};
use page_format::Page;

/// Whether the number of the page's last change isn't above this one.
pub fn is_page_stable(page: &Page, stable: Lrsn) -> bool
    ensures { result ≡ nat_le (lrsn_of page.now) stable }
{
    page.lrsn().number() <= stable.number()
}

/// Whether the last change of the page in the frame stands in the log.
pub fn is_stable(marks: &Marks, pages: &[Page], at: u16) -> bool
    ensures { result ≡ is_stable marks.now pages.now at }
{
    match pages.get(at as usize) {
        Some(page) => is_page_stable(page, marks.stable()),
        None => false,
    }
}

pub fn placed(frame: &Frame) -> Result<PageId, Test>
    ensures { result ≡ placed frame.now.page }
{
    match frame.page {
        Some(page) => Ok(page),
        None => Err(Test::NotPlaced),
    }
}

pub fn read_need(marks: &Marks, at: u16) -> Result<Sent, Test>
    ensures { result ≡ read_need marks.now at }
{
    let page = placed(&marks.frame(at))?;
    Ok(Sent::Command(Command::Read { page, index: at }))
}

pub fn read_page_need(marks: &Marks, at: u16) -> Result<Sent, Test>
    ensures { result ≡ read_page_need marks.now at }
{
    let frame = marks.frame(at);
    let page = placed(&frame)?;
    if !frame.registered {
        return Err(Test::NotRegistered);
    }
    if frame.filled {
        return Err(Test::StillFilled);
    }
    Ok(Sent::ReadPage(page))
}

// The frame has the header of the table's heap, which the member claims for the slot's transaction.
fn test_header(marks: &Marks, page: PageId, slot: u8, table: TableId) -> Result<(), Test>
    ensures { result ≡ header_test marks.now page slot table }
{
    if !marks.is_forward(slot) {
        return Err(Test::NotForward);
    }
    if page != table.heap_page(0) {
        return Err(Test::OtherPage);
    }
    if !marks.has_page(page) {
        return Err(Test::NotClaimed);
    }
    Ok(())
}

// Where a slot of the table's heap is to be given, the page is its header.
fn test_gives(marks: &Marks, page: PageId, slot: u8, gives: Option<TableId>) -> Result<(), Test>
    ensures { result ≡ gives_test marks.now page slot gives }
{
    match gives {
        Some(table) => test_header(marks, page, slot, table),
        None => Ok(()),
    }
}

pub fn test_need(marks: &Marks, at: u16, slot: u8, gives: Option<TableId>) -> Result<Sent, Test>
    ensures { result ≡ test_need marks.now at slot gives }
{
    let frame = marks.frame(at);
    let page = placed(&frame)?;
    if !frame.filled {
        return Err(Test::NotFilled);
    }
    test_gives(marks, page, slot, gives)?;
    Ok(Sent::Command(Command::Test { index: at }))
}

pub fn write_need(marks: &Marks, pages: &[Page], at: u16) -> Result<Sent, Test>
    ensures { result ≡ write_need marks.now pages.now at }
{
    let frame = marks.frame(at);
    let page = placed(&frame)?;
    if !frame.changed {
        return Err(Test::NotChanged);
    }
    if !is_stable(marks, pages, at) {
        return Err(Test::NotStable);
    }
    if !marks.is_first_to_write(at) {
        return Err(Test::NotFirst);
    }
    Ok(Sent::Command(Command::Write { page, index: at }))
}

pub fn unregister_need(marks: &Marks, at: u16) -> Result<Sent, Test>
    ensures { result ≡ unregister_need marks.now at }
{
    let frame = marks.frame(at);
    let page = placed(&frame)?;
    if frame.changed {
        return Err(Test::StillChanged);
    }
    if frame.pins > 0 {
        return Err(Test::StillPinned);
    }
    if marks.has_page(page) {
        return Err(Test::StillClaimed);
    }
    Ok(Sent::Command(Command::Unregister { index: at }))
}
