//! The test of each intent, and what it sends.

ghost use Rattle.std.specs.Prelude.{◌≡◌};
ghost use Rattle.member_needs.specs.Needs.{need_of};

use crate::castout::{Cast, cast_need, done_need};
use crate::closing::{end_need, purge_need, release_need, release_page_need};
use crate::frames::{read_need, read_page_need, test_need, unregister_need, write_need};
use crate::locks::{answer_need, answers_need, ask_need, grant_need, obtain_need};
use crate::records::{append_need, change_need, commit_need, undo_need};
use crate::waits::{unwait_need, wait_need};
use member_intents::{Command, Intent, Sent, Test};
use member_marks::Marks;
use page_format::Page;

/// What the tests look at beside the marks and the pages.
#[derive(Clone, Copy, Debug, PartialEq, Eq)]
pub struct Setting {
    /// How many pages of rows a table may have.
    pub limit: u32,
    pub cast: Option<Cast>,
    /// Whether the member holds the castout lock of the page that is cast out.
    pub is_holder: bool,
    /// The number of the event.
    pub place: u64,
}

/// What the intent sends, or the first test that fails.
pub fn need(marks: &Marks, pages: &[Page], setting: &Setting, intent: &Intent) -> Result<Sent, Test>
    ensures { result ≡ need_of marks.now pages.now setting.now intent.now }
{
    match *intent {
        Intent::Step => Ok(Sent::None),
        Intent::Obtain { owner, name, mode } => obtain_need(marks, &owner, &name, mode),
        Intent::Grant { owner, name, mode } => grant_need(marks, &owner, &name, mode),
        Intent::Ask {
            owner,
            to,
            name,
            mode,
        } => Ok(ask_need(&owner, to, &name, mode)),
        Intent::Answers { owner, name, .. } => Ok(answers_need(&owner, &name)),
        Intent::Status { member } => Ok(Sent::Command(Command::Status { member })),
        Intent::Take { after } => Ok(Sent::Command(Command::Take { after })),
        Intent::Answer { asker, name, mode } => {
            answer_need(marks, asker, &name, mode, setting.place)
        }
        Intent::ReleaseLock { owner } => release_need(marks, &owner),
        Intent::ReleasePage { page } => release_page_need(marks, page),
        Intent::Purge { name } => purge_need(marks, &name),
        Intent::End { owner } => end_need(marks, &owner),
        Intent::Wait { slot, holder, flag } => wait_need(marks, slot, holder, flag),
        Intent::Unwait { slot } => unwait_need(marks, slot),
        Intent::Waits { .. } => Ok(Sent::Command(Command::Waits)),
        Intent::Flag { flag } => Ok(Sent::Command(Command::Flag { flag })),
        Intent::Raise { flag } => Ok(Sent::Command(Command::Raise { flag })),
        Intent::LoseCache => Ok(Sent::Command(Command::Lose)),
        Intent::Read { frame } => read_need(marks, frame),
        Intent::ReadPage { frame } => read_page_need(marks, frame),
        Intent::Test { frame, slot, gives } => test_need(marks, frame, slot, gives),
        Intent::WritePage { frame } => write_need(marks, pages, frame),
        Intent::Unregister { frame } => unregister_need(marks, frame),
        Intent::Change {
            slot,
            action,
            frames,
        } => change_need(marks, pages, setting.limit, slot, &action, &frames),
        Intent::Undo { owner, frame } => undo_need(marks, &owner, frame),
        Intent::Commit { slot } => commit_need(marks, slot),
        Intent::Append => append_need(marks),
        Intent::NextChanged { after } => Ok(Sent::Command(Command::NextChanged { after })),
        Intent::CastoutRead { page } => Ok(Sent::Command(Command::CastoutRead { page })),
        Intent::CastoutWrite => cast_need(setting.cast, setting.is_holder),
        Intent::CastoutDone => done_need(setting.cast, setting.is_holder),
        Intent::PhaseDone => Ok(Sent::Command(Command::PhaseDone)),
    }
}
