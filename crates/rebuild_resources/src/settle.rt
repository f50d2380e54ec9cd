//! What an answer makes of what is held.

ghost use Rattle.std.specs.Prelude.{◌≡◌, IfOk};
ghost use Rattle.rebuild_resources.specs.declared.told.RebuildTold.TheVariants as told;
ghost use Rattle.rebuild_resources.specs.Pages.{damaged, brought_told, brought_after, bring_told, bring_after, written_after};
ghost use Rattle.rebuild_resources.specs.Settled.{TakesClaim, Settles};

use crate::{Rebuild, RebuildIntent, RebuildTold};
use ds_base::{NoMemory, PageId, Volume};
use facility::Reply;
use page_redo::FieldFault;
use places_redo::bring_places;
use std::alloc::Global;

fn damaged(page: PageId, fault: FieldFault) -> RebuildTold
    ensures { result ≡ damaged page fault }
{
    RebuildTold::Damaged {
        volume: Volume::Page(page),
        at: fault.at as u64,
    }
}

impl Rebuild {
    // ---- pages

    // A page with a field in the way stays among those that aren't brought forward.
    fn note_brought(&mut self, page: PageId, brought: Result<bool, FieldFault>) -> RebuildTold
        ensures told { result ≡ brought_told page brought }
        ensures after { self.new ≡ brought_after self.old page brought }
    {
        match brought {
            Ok(is_changed) => {
                self.pages.next();
                if is_changed {
                    self.hand = Some(page);
                }
                RebuildTold::Brought { is_changed }
            }
            Err(fault) => damaged(page, fault),
        }
    }

    /// The first page that is left was read, and is brought forward.
    pub(crate) fn page_read(&mut self) -> RebuildTold
        ensures told { result ≡ bring_told self.old self.old.merged }
        ensures after { self.new ≡ bring_after self.old self.old.merged }
    {
        let Some(merged) = &self.merged else {
            return RebuildTold::Stepped;
        };
        let Some(first) = self.pages.first() else {
            return RebuildTold::Stepped;
        };
        let id = first.page;
        let places = first.places.as_slice();
        let brought = bring_places(&mut self.page, id, merged.records(), places);
        self.note_brought(id, brought)
    }

    /// The page in hand was written.
    pub(crate) fn page_written(&mut self) -> RebuildTold
        ensures told { result ≡ told.Written }
        ensures after { self.new ≡ written_after self.old }
    {
        self.hand = None;
        RebuildTold::Written
    }

    // ---- replies of the facility

    fn settle_claim(&mut self, alloc: Global, reply: &Reply) -> Result<RebuildTold, NoMemory>
        ensures { IfOk result (λ said. TakesClaim self.old reply.now said self.new) }
    {
        match *reply {
            Reply::Claimed => {
                self.begin(alloc)?;
                Ok(RebuildTold::Claimed)
            }
            Reply::ClaimTaken { by } => Ok(RebuildTold::Taken { by }),
            Reply::NotLost => Ok(RebuildTold::NotLost),
            _ => Ok(RebuildTold::Stepped),
        }
    }

    /// The effect of a reply of the facility.
    pub(crate) fn settle_reply(
        &mut self,
        alloc: Global,
        intent: &RebuildIntent,
        reply: &Reply,
    ) -> Result<RebuildTold, NoMemory>
        ensures { IfOk result (λ said. Settles self.old intent.now reply.now said self.new) }
    {
        match *intent {
            RebuildIntent::Claim => self.settle_claim(alloc, reply),
            RebuildIntent::Rebuilt => {
                self.give_up(alloc);
                Ok(RebuildTold::Rebuilt)
            }
            RebuildIntent::Unclaim => {
                self.give_up(alloc);
                Ok(RebuildTold::Unclaimed)
            }
            RebuildIntent::Step
            | RebuildIntent::ReadLog
            | RebuildIntent::ReadPage
            | RebuildIntent::WritePage => Ok(RebuildTold::Stepped),
        }
    }
}
