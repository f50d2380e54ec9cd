//! Changes, and the log records of them.

ghost use Rattle.std.specs.Prelude.{◌≡◌, option_copied};
ghost use Rattle.ds_model.specs.declared.lock.Name.TheVariants.{Row, Space};
ghost use Rattle.member_trans.specs.Trans.{is_undoing};
ghost use Rattle.member_marks.specs.Claims.{mode_held};
ghost use Rattle.member_needs.specs.Records.{allows_row, allows_space, row_test, action_test, frame_of, page_of, place_by, frame_test, nth_test, frames_test, forward_test, indexes_of, change_need, room_test, undo_need, commit_need, append_need};

use crate::frames::placed;
use ds_base::{Key, PageId, Place, TableId};
use lock_names::{Mode, Name};
use member_intents::{Action, Command, Frames, Indexes, Sent, Test, action_page, place_of};
use member_marks::{Marks, Owner, Stage};
use page_format::Page;

/// The most bytes of the record of a row change.
pub const ROW_CHANGE_BYTES: u32 = 30 + 15 + 2 * 102;

/// The bytes of a Commit or an Ended record.
const SHORT_BYTES: u32 = 30;

/// The most bytes of a compensation and the Ended record behind it.
const UNDO_BYTES: u32 = ROW_CHANGE_BYTES + 10 + SHORT_BYTES;

fn has_row(marks: &Marks, owner: &Owner, table: TableId, key: Key) -> bool
    ensures { result ≡ allows_row (mode_held marks.now owner.now (Row table key)) }
{
    matches!(marks.holds(owner, &Name::Row(table, key)), Some(Mode::X))
}

fn has_space(marks: &Marks, owner: &Owner, table: TableId) -> bool
    ensures { result ≡ allows_space (mode_held marks.now owner.now (Space table)) }
{
    matches!(
        marks.holds(owner, &Name::Space(table)),
        Some(Mode::IX | Mode::SIX | Mode::X)
    )
}

// The owner may change the row.
fn test_row(marks: &Marks, owner: &Owner, table: TableId, key: Key) -> Result<(), Test>
    ensures { result ≡ row_test marks.now owner.now table key }
{
    if !has_row(marks, owner, table, key) {
        return Err(Test::NoRow);
    }
    if !has_space(marks, owner, table) {
        return Err(Test::NoSpace);
    }
    Ok(())
}

// The owner may change the row of the action, if it is of one.
fn test_row_of(marks: &Marks, slot: u8, action: &Action) -> Result<(), Test>
    ensures { result ≡ action_test marks.now slot action.now }
{
    match action {
        Action::RowChange { table, key, .. } | Action::GiveSlot { table, key, .. } => {
            test_row(marks, &Owner::Slot(slot), *table, *key)
        }
        Action::FormatIndex { .. }
        | Action::FormatHeap { .. }
        | Action::Split { .. }
        | Action::BranchEntry { .. } => Ok(()),
    }
}

/// The frame of this place among them.
pub fn frame_of(frames: &Frames, nth: usize) -> Option<u16>
    ensures { result ≡ frame_of frames.now nth }
{
    if nth < frames.count as usize {
        frames.at.get(nth).copied()
    } else {
        None
    }
}

/// The page in the frame of this place.
pub fn page_of<'a>(pages: &'a [Page], frames: &Frames, nth: usize) -> Option<&'a Page>
    ensures { option_copied result ≡ page_of pages.now frames.now nth }
{
    let at = frame_of(frames, nth)?;
    pages.get(at as usize)
}

/// What the first page of the action leads to.
pub fn place_by(pages: &[Page], limit: u32, action: &Action, frames: &Frames) -> Option<Place>
    ensures { result ≡ place_by pages.now limit action.now frames.now }
{
    let first = page_of(pages, frames, 0)?;
    place_of(action, limit, first)
}

// The frame has the page, which is claimed and filled.
fn test_frame(marks: &Marks, at: u16, page: PageId) -> Result<(), Test>
    ensures { result ≡ frame_test marks.now at page }
{
    let frame = marks.frame(at);
    if placed(&frame)? != page {
        return Err(Test::OtherPage);
    }
    if !marks.has_page(page) {
        return Err(Test::NotClaimed);
    }
    if !frame.filled {
        return Err(Test::NotFilled);
    }
    Ok(())
}

// The frame of this place has the page of the same place; or there is neither.
fn test_nth(marks: &Marks, at: Option<u16>, page: Option<PageId>) -> Result<(), Test>
    ensures { result ≡ nth_test marks.now at page }
{
    match (at, page) {
        (Some(at), Some(page)) => test_frame(marks, at, page),
        (None, None) => Ok(()),
        (Some(_), None) | (None, Some(_)) => Err(Test::OtherPage),
    }
}

fn test_frames(
    marks: &Marks,
    action: &Action,
    frames: &Frames,
    place: Option<Place>,
) -> Result<(), Test>
    ensures { result ≡ frames_test marks.now action.now frames.now place }
{
    if frames.count == 0 {
        return Err(Test::OtherPage);
    }
    test_nth(marks, frame_of(frames, 0), action_page(action, 0, place))?;
    test_nth(marks, frame_of(frames, 1), action_page(action, 1, place))?;
    test_nth(marks, frame_of(frames, 2), action_page(action, 2, place))
}

fn test_forward(marks: &Marks, slot: u8) -> Result<(), Test>
    ensures { result ≡ forward_test marks.now slot }
{
    if !marks.is_forward(slot) {
        return Err(Test::NotForward);
    }
    if marks.must_append() {
        return Err(Test::AboveLimit);
    }
    Ok(())
}

fn indexes_of(frames: &Frames) -> Indexes
    ensures { result ≡ indexes_of frames.now }
{
    Indexes {
        count: frames.count,
        at: frames.at,
    }
}

/// All but whether the change is still needed and its record has room, which its plan tells.
pub fn change_need(
    marks: &Marks,
    pages: &[Page],
    limit: u32,
    slot: u8,
    action: &Action,
    frames: &Frames,
) -> Result<Sent, Test>
    ensures { result ≡ change_need marks.now pages.now limit slot action.now frames.now }
{
    test_forward(marks, slot)?;
    test_row_of(marks, slot, action)?;
    test_frames(
        marks,
        action,
        frames,
        place_by(pages, limit, action, frames),
    )?;
    Ok(Sent::Command(Command::Draw {
        indexes: indexes_of(frames),
    }))
}

fn test_room(marks: &Marks, bytes: u32) -> Result<(), Test>
    ensures { result ≡ room_test marks.now bytes }
{
    if marks.log_room() < bytes {
        return Err(Test::NoRoom);
    }
    Ok(())
}

fn is_undoing(stage: Stage) -> bool
    ensures { result ≡ is_undoing stage }
{
    matches!(stage, Stage::Undoing)
}

pub fn undo_need(marks: &Marks, owner: &Owner, at: u16) -> Result<Sent, Test>
    ensures { result ≡ undo_need marks.now owner.now at }
{
    if !is_undoing(marks.stage(owner)) {
        return Err(Test::NotUndoing);
    }
    let Some(newest) = marks.newest_change(owner) else {
        return Err(Test::NoneStands);
    };
    let change = &newest.change;
    test_frame(marks, at, change.table.heap_page(change.place.page))?;
    test_row(marks, owner, change.table, change.key)?;
    if marks.must_append() {
        return Err(Test::AboveLimit);
    }
    test_room(marks, UNDO_BYTES)?;
    Ok(Sent::Command(Command::DrawUndo {
        indexes: Indexes {
            count: 1,
            at: [at, 0, 0],
        },
    }))
}

pub fn commit_need(marks: &Marks, slot: u8) -> Result<Sent, Test>
    ensures { result ≡ commit_need marks.now slot }
{
    test_forward(marks, slot)?;
    test_room(marks, SHORT_BYTES)?;
    Ok(Sent::Command(Command::Draw {
        indexes: Indexes {
            count: 0,
            at: [0, 0, 0],
        },
    }))
}

pub fn append_need(marks: &Marks) -> Result<Sent, Test>
    ensures { result ≡ append_need marks.now }
{
    if marks.is_log_empty() {
        return Err(Test::NonePending);
    }
    Ok(Sent::AppendLog)
}
