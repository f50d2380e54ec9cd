ghost use Rattle.std.specs.Prelude.{◌≡◌};
ghost use Rattle.restart_marks.specs.Needs.{need_of};

use crate::intent::{RestartIntent, RestartSent, RestartTest};
use crate::marks::RestartMarks;
use facility::Command;

impl RestartMarks {
    /// What the intent sends, or the first test that fails.
    pub fn need(&self, intent: &RestartIntent) -> Result<RestartSent, RestartTest>
        ensures { result ≡ need_of self.now intent.now }
    {
        match *intent {
            RestartIntent::Step => Ok(RestartSent::None),
            RestartIntent::ReadLog => self.read_log_need(),
            RestartIntent::CutTail => self.cut_need(),
            RestartIntent::RetainedAt => self.listing_need(),
            RestartIntent::Read => self.read_need(),
            RestartIntent::ReadPage => self.read_page_need(),
            RestartIntent::Test => self.test_need(),
            RestartIntent::WritePage => self.write_need(),
            RestartIntent::PurgePage => self.purge_page_need(),
            RestartIntent::Purge { name } => self.purge_need(&name),
            RestartIntent::Append => self.append_need(),
            RestartIntent::Obtain { id } => self.obtain_need(id),
            RestartIntent::Ask { id, to } => self.ask_need(id, to),
            RestartIntent::Answers { id, .. } => self.answers_need(id),
            RestartIntent::Grant { id } => self.grant_need(id),
            RestartIntent::Status { member } => {
                Ok(RestartSent::Command(Command::Status { member }))
            }
            RestartIntent::Undo { id } => self.undo_need(id),
            RestartIntent::ReleasePage => self.release_need(),
            RestartIntent::Unregister => self.unregister_need(),
            RestartIntent::Up => self.up_need(),
        }
    }
}
