ghost use Rattle.std.specs.Prelude.{◌≡◌, IfOk, OnOk};
ghost use Rattle.restart_marks.specs.Adopt.{adopted_told, adopted_after};
ghost use Rattle.restart_resources.specs.Held.{IsNew, KnowsTo, with_marks};

use ds_base::{MemberId, NoMemory};
use page_format::Page;
use restart_marks::{Adopted, RestartMarks};
use std::alloc::Global;
use std::marker::Model;

/// What a restarting member holds: its marks, and the bytes of the page in hand.
#[derive(Drop)]
pub struct RestartResources {
    pub(crate) marks: RestartMarks,
    pub(crate) page: Page,
    /// Takes the bytes that nobody needs.
    pub(crate) spare: Page,
}

impl Model for RestartResources {
    ghost use Rattle.restart_resources.specs.Held.{Held};

    ghost Value = { Held };

    ghost view = { λ r. record { marks = r.marks; page = r.page; spare = r.spare } };
}

impl RestartResources {
    /// Nothing is read, known or held yet, but that the member's log is whole records up to this byte.
    pub fn new(alloc: Global, member: MemberId, known: u64) -> Result<RestartResources, NoMemory>
        ensures fresh { IfOk result (IsNew member) }
        ensures known { IfOk result (KnowsTo known) }
    {
        Ok(RestartResources {
            marks: RestartMarks::new(alloc, member, known)?,
            page: Page::zero(alloc)?,
            spare: Page::zero(alloc)?,
        })
    }

    pub fn marks(&self) -> &RestartMarks
        ensures { result.now ≡ self.now.marks }
    {
        &self.marks
    }

    /// Takes the transactions out that are still open, where the page of a change was last answered as retained by a member:
    /// they wait for its restart. Their retained locks stay.
    pub fn take_open(&mut self, alloc: Global) -> Result<Option<Adopted>, NoMemory>
        ensures told { IfOk result (λ adopted. adopted ≡ adopted_told self.old.marks) }
        ensures ok { OnOk result (self.new ≡ with_marks self.old (adopted_after self.old.marks)) }
    {
        self.marks.take_open(alloc)
    }
}
