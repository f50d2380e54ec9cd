//! Transactions that wait for the restart of another member.

ghost use Rattle.std.specs.Prelude.{◌≡◌, IfOk, OnOk, OnErr};
ghost use Rattle.restart_marks.specs.Adopt.{may_adopt, adopted_told, adopted_after};

use crate::marks::RestartMarks;
use ds_base::{MemberId, NoMemory, Sequence};
use restart_records::OpenTran;
use std::alloc::Global;

/// The transactions that are still open when a restart ends, and the member for whose restart they wait.
#[derive(Debug, Drop)]
pub struct Adopted {
    pub by: MemberId,
    pub trans: Sequence<OpenTran>,
}

impl RestartMarks {
    // Whether the page of a change was answered as retained, all names that open transactions need are retained, and nothing
    // is in hand, claimed or pending.
    fn may_adopt(&self) -> bool
        ensures { result ≡ may_adopt self.now }
    {
        self.names.missing() == 0
            && self.is_empty_handed()
            && self.claim.is_none()
            && self.log.is_empty()
    }

    /// Takes the transactions out that are still open, where the page of a change was last answered as retained by a member:
    /// they wait for its restart. Their retained locks stay.
    pub fn take_open(&mut self, alloc: Global) -> Result<Option<Adopted>, NoMemory>
        ensures told { IfOk result (λ adopted. adopted ≡ adopted_told self.old) }
        ensures ok { OnOk result (self.new ≡ adopted_after self.old) }
    {
        let Some(kept) = self.kept else {
            return Ok(None);
        };
        if !self.may_adopt() {
            return Ok(None);
        }
        let trans = self.trans.take_open(alloc)?;
        Ok(Some(Adopted { by: kept.by, trans }))
    }
}
