//! Retained locks, as they become known and are freed.

ghost use Rattle.std.specs.Prelude.{◌≡◌, IfOk, OnOk, OnErr};
ghost use Rattle.restart_marks.specs.Listing.{entered_name, record_told, record_after, purged_told, page_purged_after, name_purged_after, page_freed};

use crate::marks::RestartMarks;
use crate::told::RestartTold;
use ds_base::NoMemory;
use facility::Reply;
use lock_names::Name;
use restart_records::TurnKey;

impl RestartMarks {
    fn enter_name(&mut self, name: &Name) -> Result<(), NoMemory>
        ensures ok { OnOk result (self.new ≡ entered_name self.old name.now) }
        ensures err { OnErr result (self.new ≡ self.old) }
    {
        match *name {
            Name::Page(page) => self.pages.put(TurnKey::by_name(page)),
            Name::Space(_) | Name::Row(..) | Name::Set(_) => self.names.retain(name),
        }
    }

    /// The reply to `retained-at`.
    pub fn record_told(&mut self, reply: &Reply) -> Result<RestartTold, NoMemory>
        ensures told { IfOk result (λ said. said ≡ record_told reply.now) }
        ensures ok { OnOk result (self.new ≡ record_after self.old reply.now) }
        ensures err { OnErr result (self.new ≡ self.old) }
    {
        match reply {
            Reply::RetainedLock { name, .. } => {
                self.enter_name(name)?;
                self.listed = self.listed.saturating_add(1);
                Ok(RestartTold::Record(*name))
            }
            _ => {
                self.is_listed = true;
                Ok(RestartTold::NoRecord)
            }
        }
    }

    // The page in hand is retained no more.
    fn free_page(&mut self)
        ensures { self.new ≡ page_freed self.old self.old.hand.key }
    {
        if let Some(key) = self.hand.key {
            self.pages.remove(key);
            self.hand.key = None;
        }
    }

    /// The reply to the `purge` of the page in hand.
    pub fn page_purged(&mut self, reply: &Reply) -> RestartTold
        ensures told { result ≡ purged_told reply.now }
        ensures after { self.new ≡ page_purged_after self.old reply.now }
    {
        match reply {
            Reply::Done => {
                self.free_page();
                RestartTold::Purged
            }
            _ => RestartTold::Stepped,
        }
    }

    /// The reply to the `purge` of the name of a table space or row.
    pub fn name_purged(&mut self, name: &Name, reply: &Reply) -> RestartTold
        ensures told { result ≡ purged_told reply.now }
        ensures after { self.new ≡ name_purged_after self.old name.now reply.now }
    {
        match reply {
            Reply::Done => {
                self.names.purge(name);
                RestartTold::Purged
            }
            _ => RestartTold::Stepped,
        }
    }
}
