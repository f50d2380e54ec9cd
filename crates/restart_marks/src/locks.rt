//! The page's lock, as it is asked for and given up.

ghost use Rattle.std.specs.Prelude.{◌≡◌};
ghost use Rattle.restart_marks.specs.Locks.{claim_told, claim_after, status_told, released_told, released_after, up_told, up_after};

use crate::marks::{KeptBy, RestartMarks};
use crate::told::RestartTold;
use ds_base::Lrsn;
use facility::Reply;

// What a reply to `obtain` or `grant` says.
fn claim_told(reply: &Reply) -> RestartTold
    ensures { result ≡ claim_told reply.now }
{
    match *reply {
        Reply::Granted { .. } => RestartTold::Granted,
        Reply::Retained { by } => RestartTold::Retained { by },
        Reply::RecordsFull { .. } => RestartTold::RecordsFull,
        Reply::Contention {
            share,
            exclusive,
            ..
        } => RestartTold::Contention { share, exclusive },
        Reply::Moved { .. } => RestartTold::Moved,
        _ => RestartTold::Stepped,
    }
}

/// The reply to `status`.
pub fn status_told(reply: &Reply) -> RestartTold
    ensures { result ≡ status_told reply.now }
{
    match *reply {
        Reply::Status { status } => RestartTold::Status(status),
        _ => RestartTold::Stepped,
    }
}

impl RestartMarks {
    /// The reply to an `obtain` or `grant` for the page of the transaction's newest change.
    pub fn claimed(&mut self, id: Lrsn, reply: &Reply) -> RestartTold
        ensures told { result ≡ claim_told reply.now }
        ensures after { self.new ≡ claim_after self.old id reply.now }
    {
        self.kept = None;
        match *reply {
            Reply::Granted { .. } => self.claim = self.page_undone(id),
            Reply::Retained { by } => self.kept = Some(KeptBy { id, by }),
            _ => {}
        }
        claim_told(reply)
    }

    /// The reply to `release`.
    pub fn released(&mut self, reply: &Reply) -> RestartTold
        ensures told { result ≡ released_told reply.now }
        ensures after { self.new ≡ released_after self.old reply.now }
    {
        match reply {
            Reply::Done => {
                self.claim = None;
                RestartTold::Released
            }
            _ => RestartTold::Stepped,
        }
    }

    /// The reply to `set-status`.
    pub fn is_restarted(&mut self, reply: &Reply) -> RestartTold
        ensures told { result ≡ up_told reply.now }
        ensures after { self.new ≡ up_after self.old reply.now }
    {
        match reply {
            Reply::Done => {
                self.is_up = true;
                RestartTold::Up
            }
            _ => RestartTold::Stepped,
        }
    }
}
